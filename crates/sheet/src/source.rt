//! What tells a sheet.
ghost use Rattle.std.specs.Prelude.{◌≡◌, ◌≤◌, List, drop, length};
ghost use Rattle.std.specs.Iterator.{YieldsFirst, item_count};
ghost use Rattle.std.specs.List.{slice_get};
ghost use Rattle.sheet.specs.declared.entry.Entry.{Entry as SheetEntry};

use crate::entry::Entry;
use std::marker::Model;
use std::ops::Range;

/// A source tells a list of entries, one by one. No question is refused or changes the list.
pub trait SheetSource {
    /// The entries that it tells.
    ghost entries: { Self → List SheetEntry };

    /// How many entries there are.
    fn count(&self) -> usize
        ensures { result ≡ length (entries self.now) };

    /// Entry `k`; nothing where `k` is not below their number.
    fn entry(&self, k: usize) -> Option<Entry>
        ensures { result ≡ slice_get (entries self.now) k };
}

/// An iterator over the entries of a source: to a clause, the list of those left.
// By number, since a source answers by number: an iterator of each source's own would ask more of those who write one.
#[derive(Drop)]
pub struct Entries<'a, S: SheetSource> {
    source: &'a S,
    numbers: Range<usize>,
}

impl<'a, S: SheetSource> Model for Entries<'a, S> {
    ghost Value = { List SheetEntry };

    ghost view = { λ s. drop s.numbers.start (S.entries s.source.now) };

    ghost invariant = { λ s. s.numbers.end ≡ length (S.entries s.source.now) };
}

impl<'a, S: SheetSource> Entries<'a, S> {
    /// All entries of the source.
    pub fn of(source: &'a S) -> Entries<'a, S>
        ensures { result ≡ S.entries source.now }
    {
        Entries {
            source,
            numbers: 0..source.count(),
        }
    }
}

impl<'a, S: SheetSource> Iterator for Entries<'a, S> {
    type Item = Entry;

    ghost next_gives = { YieldsFirst (λ left. left) };

    ghost remaining = { item_count (λ left. left) };

    fn next(&mut self) -> Option<Entry> {
        self.source.entry(self.numbers.next()?)
    }
}

/// The entries are the records of a lent table.
#[derive(Clone, Copy)]
pub struct Records<'a> {
    pub table: &'a [Entry],
}

impl<'a> SheetSource for Records<'a> {
    ghost entries = { λ s. s.table.now };

    fn count(&self) -> usize {
        self.table.len()
    }

    fn entry(&self, k: usize) -> Option<Entry> {
        self.table.get(k).copied()
    }
}
