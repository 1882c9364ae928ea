//! Makes the calls of groups and of the union-find that the lines of standard input name, and prints what they answer.
//!
//! A line is `KIND CALL`, where KIND is `tick` or `renaming`, and each kind has a table of its own. Moves, G and H, are
//! hexadecimal numbers; members, names and lengths are decimal ones.
//!
//!     identity         the move
//!     lawful G         yes or no
//!     equals G H       yes or no
//!     compose G H      the move, or free where one of them is unlawful
//!     inverse G        the move, or free where it is unlawful
//!     open N           opens a new table of N entries: ok, or refused NUMBER WORD PLACE
//!     relate I J G     new, known, clash MOVE, or refused
//!     relation I J     the move, nothing, or refused
//!
//! Besides there are the lines `image G NAME` and `exchange NAME NAME`. Any other line is answered with bad.
#![tactic(auto)]

mod answer;
mod call;
mod names;

use answer::answer_to;
use call::Call;
use faults::Fault;
use groups::Group;
use groups::renaming::Renaming;
use groups::tick::Tick;
use refusals::Refusal;
use std::alloc::{AllocError, Global};
use std::io;
use std::io::{BufRead, BufReader};
use union_find::link::Link;

#[derive(Drop)]
struct Tables {
    ticks: Vec<Link<Tick>>,
    renamings: Vec<Link<Renaming>>,
}

// A table of n entries of which each but the first says something, so that opening has something to forget.
fn full_table<M: Group>(heap: Global, n: usize) -> Result<Vec<Link<M>>, AllocError> {
    let link = Link {
        parent: 0,
        step: M::identity(),
    };
    vec![in heap; link; n]
}

// The answer to a line of one kind; opening makes a new table.
fn answered<M: Group + Into<u64> + TryFrom<u64, Error: Drop>>(
    heap: Global,
    table: &mut Vec<Link<M>>,
    text: &str,
) -> Result<String, Fault> {
    let call = text.parse::<Call<M>>().map_err(|_| Fault::Malformed)?;
    if let Call::Open(n) = call {
        *table = full_table(heap, n)?;
    }
    let text = match answer_to(table.as_mut_slice(), call) {
        Ok(answer) => format!(in heap; "{answer}")?,
        Err(Refusal { reason, place }) => {
            format!(in heap; "refused {} {reason} {place}", reason.number())?
        }
    };
    Ok(text)
}

fn outcome(heap: Global, tables: &mut Tables, line: &str) -> Result<String, Fault> {
    let (kind, text) = line.split_once(' ').ok_or(Fault::Malformed)?;
    match kind {
        "tick" => answered(heap, &mut tables.ticks, text),
        "renaming" => answered(heap, &mut tables.renamings, text),
        "image" => {
            let image = names::image(text).ok_or(Fault::Malformed)?;
            Ok(format!(in heap; "{image}")?)
        }
        "exchange" => {
            let exchange = names::exchange(text).ok_or(Fault::Malformed)?;
            Ok(format!(in heap; "{:X}", exchange.bits)?)
        }
        _ => Err(Fault::Malformed),
    }
}

fn main(rt: HostRuntime) -> io::Result<()> {
    let heap = rt.alloc();
    let mut tables = Tables {
        ticks: Vec::new(heap),
        renamings: Vec::new(heap),
    };
    for line in BufReader::new(heap, rt.stdin())?.lines(heap) {
        match outcome(heap, &mut tables, line?.as_str()) {
            Ok(text) => println!(rt; "{text}")?,
            Err(Fault::Malformed) => println!(rt; "bad")?,
            Err(Fault::Memory(e)) => return Err(e.into()),
        }
    }
    Ok(())
}
