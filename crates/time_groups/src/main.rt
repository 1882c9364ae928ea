//! Runs operations of groups and of the union-find many times, for a clock outside.
//!
//! A line of standard input is `OPERATION COUNT`. The answer repeats it, with a number made of all results.
#![tactic(auto)]

mod chains;
mod fact;
mod sample;

use chains::{eighth_image, lawful, operations, questions, rounds};
use fact::{falling_facts, random_facts};
use groups::Group;
use groups::renaming::Renaming;
use groups::tick::Tick;
use std::alloc::{AllocError, Global};
use std::io;
use std::io::{BufRead, BufReader};
use union_find::link::Link;
use union_find::{MEMBERS, root_link};

#[derive(Drop)]
struct Tables {
    ticks: [Link<Tick>; MEMBERS],
    renamings: [Link<Renaming>; MEMBERS],
}

// An operation and how often it is run.
fn parse(line: &str) -> Option<(&str, u64)> {
    let (operation, count) = line.split_once(' ')?;
    Some((operation, count.parse::<u64>().ok()?))
}

// The number that a line asks for, if it names an operation.
fn results(heap: Global, tables: &mut Tables, line: &str) -> Result<Option<u64>, AllocError> {
    let Tables { ticks, renamings } = tables;
    let Some((operation, count)) = parse(line) else {
        return Ok(None);
    };
    let number = match operation {
        "nothing" => operations(|a, b| a.bits ^ b.bits, count),
        "compose" => operations(|a, b| a.compose(b).bits, count),
        "inverse" => operations(|a, b| a.inverse().bits ^ b.bits, count),
        "image" => operations(eighth_image, count),
        "lawful" => operations(lawful, count),
        "relation-tick" => questions(ticks, random_facts(heap, 240)?.as_slice(), count),
        "relation-renaming" => questions(renamings, random_facts(heap, 240)?.as_slice(), count),
        "relate-tick" => rounds(ticks, random_facts(heap, 255)?.as_slice(), count),
        "relate-renaming" => rounds(renamings, random_facts(heap, 255)?.as_slice(), count),
        "falling-tick" => rounds(ticks, falling_facts(heap)?.as_slice(), count),
        "falling-renaming" => rounds(renamings, falling_facts(heap)?.as_slice(), count),
        _ => return Ok(None),
    };
    Ok(Some(number))
}

fn main(rt: HostRuntime) -> io::Result<()> {
    let heap = rt.alloc();
    let mut tables = Tables {
        ticks: [root_link(); MEMBERS],
        renamings: [root_link(); MEMBERS],
    };
    for line in BufReader::new(heap, rt.stdin())?.lines(heap) {
        let line = line?;
        match results(heap, &mut tables, line.as_str())? {
            Some(number) => println!(rt; "{line} {number:016X}")?,
            None => println!(rt; "{line} is no operation")?,
        }
    }
    Ok(())
}
