//! Writing a sheet in packed form.
ghost use Rattle.std.specs.Prelude.{◌≡◌, ◌+◌, ◌≤◌, ◌++◌, length, take, drop, nat_lt};
ghost use Rattle.std.specs.List.{flat_map};
ghost use Rattle.packed.specs.Packed.{bytes_of};
ghost use Rattle.packed.specs.Forms.{Written, FormReadsBack};

use crate::source::END;
use refusals::{Reason, Refusal};
use sheet::check::check;
use sheet::command::Command;
use sheet::entry::Entry;
use sheet::source::{Entries, SheetSource};

// How many bytes the entry takes.
#[tactic(auto, using(crate::proofs::Packing::length_bytes))]
fn width(entry: Entry) -> usize
    ensures { result ≡ length (bytes_of entry) }
{
    1 + Command::try_from(entry.command).map_or(0, Command::operands)
}

// Whether the entries take fewer than `room` bytes.
fn fits<S: SheetSource>(source: &S, room: usize) -> bool
    ensures { result ≡ nat_lt (length (flat_map bytes_of (S.entries source.now))) room }
{
    Entries::of(source)
        .try_fold(room, |left, entry| left.checked_sub(width(entry)))
        .is_some_and(|left| left > 0)
}

// Writes the entry's bytes from `at` on, and answers where they end. A buffer that is split as it fills is no plainer: what the
// whole holds afterwards would have to be said of its parts.
#[tactic(auto, using(crate::proofs::Packing::width_most, crate::proofs::Packing::length_bytes, crate::proofs::Laying::first_bytes))]
fn put(buffer: &mut [u8], at: usize, e: Entry) -> usize
    requires { at + length (bytes_of e) ≤ length buffer.old }
    ensures end { result ≡ at + length (bytes_of e) }
    ensures after { buffer.new ≡ take at buffer.old ++ bytes_of e ++ drop (at + length (bytes_of e)) buffer.old }
{
    let all = [e.command, e.a, e.b, e.c, e.d, e.e];
    let bytes = &all[..width(e)];
    let end = at + bytes.len();
    buffer[at..end].copy_from_slice(bytes);
    end
}

/// Writes the packed form at the start of the buffer and answers its number of bytes.
pub fn write<S: SheetSource>(source: &S, buffer: &mut [u8]) -> Result<usize, Refusal>
    ensures answer { Written (S.entries source.now) buffer.old result buffer.new }
    ensures back { FormReadsBack }
{
    check(source)?;
    if !fits(source, buffer.len()) {
        return Err(Reason::Short.into());
    }
    let mut at = 0;
    for entry in Entries::of(source) {
        at = put(buffer, at, entry);
    }
    buffer[at] = END;
    Ok(at + 1)
}
