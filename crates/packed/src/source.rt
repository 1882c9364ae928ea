//! Packed sheets: the commands in order, each with its own operands, and an end byte.
ghost use Rattle.std.specs.Prelude.{◌≡◌, [], MatchOption};
ghost use Rattle.std.specs.Iterator.{YieldsFirst, item_count};
ghost use Rattle.sheet.specs.Operands.{entry_of};
ghost use Rattle.packed.specs.Packed.{packed, FrontWhole};

use sheet::command::Command;
use sheet::entry::Entry;
use sheet::source::SheetSource;

/// The byte after the last command.
pub const END: u8 = 0xFF;

// The entry of a command byte and the operands that are there; the others are 0.
fn entry_of(byte: u8, given: &[u8]) -> Entry
    ensures { result ≡ entry_of byte given.now }
{
    let operand = |k: usize| given.get(k).copied().unwrap_or(0);
    Entry::new(
        byte,
        operand(0),
        operand(1),
        operand(2),
        operand(3),
        operand(4),
    )
}

// The whole command at the front, and the bytes after it. The end byte is no command.
// Inlined, since a walk over bytes does little else: with a call for each entry it was measured to take a fifth longer.
#[tactic(auto, unfolding(crate::specs::Packed::packed))]
#[inline(always)]
pub(crate) fn first_command<'a>(bytes: &'a [u8]) -> Option<(Entry, &'a [u8])>
    ensures { MatchOption result (packed bytes.now ≡ []) (λ front. FrontWhole bytes.now front.0 front.1.now) }
{
    let (byte, after) = bytes.split_first()?;
    let command = Command::try_from(*byte).ok()?;
    let (given, rest) = after.split_at_checked(command.operands())?;
    Some((entry_of(*byte, given), rest))
}

// The entries that the bytes mean, one by one.
#[derive(Drop)]
struct Commands<'a> {
    rest: &'a [u8],
}

impl<'a> Iterator for Commands<'a> {
    type Item = Entry;

    ghost next_gives = { YieldsFirst (λ s. packed s.rest.now) };

    ghost remaining = { item_count (λ s. packed s.rest.now) };

    // Inlined, so that `count` makes no entries: with a call it took a quarter more instructions than a loop by hand.
    #[inline(always)]
    fn next(&mut self) -> Option<Entry> {
        let (entry, rest) = first_command(self.rest)?;
        self.rest = rest;
        Some(entry)
    }
}

/// The entries are the whole commands before the first end byte, unknown byte or cut command.
#[derive(Clone, Copy)]
pub struct Packed<'a> {
    pub bytes: &'a [u8],
}

impl<'a> SheetSource for Packed<'a> {
    ghost entries = { λ s. packed s.bytes.now };

    fn count(&self) -> usize {
        Commands { rest: self.bytes }.count()
    }

    fn entry(&self, k: usize) -> Option<Entry> {
        Commands { rest: self.bytes }.nth(k)
    }
}
