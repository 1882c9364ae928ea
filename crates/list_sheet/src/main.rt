//! Lists a packed sheet of standard input in words, or says why it is refused.
#![tactic(auto)]

ghost use Rattle.std.specs.Prelude.{◌≡◌, ◌≤◌, true, length};
ghost use Rattle.packed.specs.Forms.{Accepted};
ghost use Rattle.list_sheet.specs.Listed.{Listed};

mod reasons;
mod words;

use packed::reading::read;
use packed::source::Packed;
use packed::writing::write;
use reasons::Declined;
use refusals::Refusal;
use sheet::tables::Tables;
use std::io::Read;
use std::{fmt, io};
use words::InWords;

// How much of the input is read; no lawful sheet has more than 2140 bytes.
const MOST_BYTES: u64 = 4096;

// The buffer for writing back.
const ROOM: usize = 4096;

/// A lawful sheet and the number of its entries.
#[derive(Drop)]
struct Listing {
    tables: Tables,
    entries: usize,
}

// The sheet that the bytes mean.
fn listing_of(bytes: &[u8]) -> Result<Listing, Refusal>
    ensures { Listed bytes.now result }
{
    let entries = read(bytes)?;
    let tables = Tables::load(&Packed { bytes })?;
    Ok(Listing { tables, entries })
}

// Whether writing the sheet gives the bytes that it was read from.
fn is_written_back(bytes: &[u8]) -> bool
    ensures accepted { Accepted bytes.now → length bytes.now ≤ 4096 → result ≡ true }
    ensures refused { result ≡ true → Accepted bytes.now }
{
    let mut buffer = [0; ROOM];
    matches!(write(&Packed { bytes }, &mut buffer), Ok(n) if &buffer[..n] == bytes)
}

// The declarations of a group in words, each after its number.
fn print_group<T: Copy>(rt: &impl Print, name: &str, group: &[T]) -> io::Result<()>
where
    InWords<T>: fmt::Display,
{
    for (k, item) in group.iter().enumerate() {
        println!(rt; "{name} {k}: {}", InWords(*item))?;
    }
    Ok(())
}

fn print_tables(rt: &impl Print, tables: &Tables) -> io::Result<()> {
    print_group(rt, "arity", tables.arities.as_slice())?;
    print_group(rt, "constructor", tables.constructors.as_slice())?;
    for (k, arity) in tables.variables.as_slice().iter().enumerate() {
        println!(rt; "variable {k}: arity {arity}")?;
    }
    for (k, row) in tables.rows.as_slice().iter().enumerate() {
        // Each row of a lawful sheet has an arity.
        if let Some(arity) = tables.arity_of(*row) {
            println!(rt; "row {k}: {}, arity {arity}", InWords(*row))?;
        }
    }
    Ok(())
}

fn print_sheet(rt: &impl Print, sheet: &Listing, bytes: &[u8]) -> io::Result<()> {
    print_tables(rt, &sheet.tables)?;
    println!(rt; "{} entries, {} bytes", sheet.entries, bytes.len())?;
    if !is_written_back(bytes) {
        println!(rt; "written back, the bytes differ")?;
    }
    Ok(())
}

fn main(rt: HostRuntime) -> io::Result<()> {
    let mut input = Vec::new(rt.alloc());
    rt.stdin().take(MOST_BYTES).read_to_end(&mut input)?;
    let bytes = input.as_slice();
    match listing_of(bytes) {
        Ok(sheet) => print_sheet(&rt, &sheet, bytes),
        Err(refusal) => println!(rt; "{}", Declined(refusal)),
    }
}
