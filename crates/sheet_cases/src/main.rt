//! Tries the check, reading and writing on the sheets of standard input, and prints what they answer.
//!
//! A case is a line `LABEL packed HEX` or `LABEL records HEX`, with `-` for no bytes; a record has six bytes.
#![tactic(auto)]

mod answer;
mod case;
mod hex;

use answer::Answer;
use case::{Case, Form};
use faults::Fault;
use packed::source::Packed;
use sheet::entry::Entry;
use sheet::source::Records;
use std::alloc::{AllocError, Global};
use std::io;
use std::io::{BufRead, BufReader};

// No packed form of a lawful sheet is longer.
const ROOM: usize = 4096;

// The answer line of a sheet in records. Never inlined, since a line of another form would clear the buffer too.
#[inline(never)]
fn outcome_of_records(heap: Global, label: &str, table: &[Entry]) -> Result<String, AllocError> {
    let records = Records { table };
    let check = Answer::of_check(&records);
    let mut buffer = [0; ROOM];
    let write = Answer::of_writing(&records, &mut buffer);
    format!(in heap; "{label} check {check} write {write}")
}

// The answer line of a case.
fn outcome(heap: Global, line: &str) -> Result<String, Fault> {
    let Case { label, form } = Case::parse(heap, line)?;
    let text = match form {
        Form::Packed(bytes) => {
            let bytes = bytes.as_slice();
            let read = Answer::of_reading(bytes);
            let check = Answer::of_check(&Packed { bytes });
            format!(in heap; "{label} read {read} check {check}")?
        }
        Form::Records(entries) => outcome_of_records(heap, label, entries.as_slice())?,
    };
    Ok(text)
}

fn main(rt: HostRuntime) -> io::Result<()> {
    let heap = rt.alloc();
    for (number, line) in (1u64..).zip(BufReader::new(heap, rt.stdin())?.lines(heap)) {
        match outcome(heap, line?.as_str()) {
            Ok(text) => println!(rt; "{text}")?,
            Err(Fault::Malformed) => println!(rt; "bad line {number}")?,
            Err(Fault::Memory(e)) => return Err(e.into()),
        }
    }
    Ok(())
}
