//! Learns facts from the lines of standard input, and answers each line with what follows from the facts before it.
//!
//! A line `delays` or `zones` says what the lines after it speak of, and forgets all facts. After `delays`, `3 1 40`
//! says that segment 3 starts 40 ticks after segment 1. After `zones`, `2 0 1023456789` says that zone k of kiln 0
//! is zone d of kiln 2, where d is the k-th digit, counted from 0. `3 1 ?` asks what is known of 3 and 1.
#![tactic(auto)]

mod answer;
mod line;
mod wording;

use answer::{Reply, answer_to};
use groups::Group;
use groups::renaming::Renaming;
use groups::tick::Tick;
use line::Line;
use std::io;
use std::io::{BufRead, BufReader};
use union_find::link::Link;
use union_find::{MEMBERS, open, root_link};
use wording::Wording;

#[derive(Clone, Copy)]
enum Subject {
    Delays,
    Zones,
}

// What was learned, and what the lines speak of at present.
// Both tables are here all the time, and a heading opens its own in place: with an enum of the table in force a heading took about
// twice the time, since a table was made and moved, and any line four times the instructions or more.
#[derive(Drop)]
struct Book {
    subject: Option<Subject>,
    delays: [Link<Tick>; MEMBERS],
    zones: [Link<Renaming>; MEMBERS],
}

fn heading(text: &str) -> Option<Subject> {
    match text.trim() {
        "delays" => Some(Subject::Delays),
        "zones" => Some(Subject::Zones),
        _ => None,
    }
}

// Starts afresh.
fn print_opening<M: Group + Wording>(
    rt: &impl Print,
    number: u64,
    table: &mut [Link<M>; MEMBERS],
) -> io::Result<()> {
    open(table).unwrap();
    println!(rt; "line {number}: {}", M::SUBJECT)
}

fn print_unreadable(rt: &impl Print, number: u64) -> io::Result<()> {
    println!(rt; "line {number}: unreadable")
}

// Answers a line about members.
fn print_reply<M: Group + Wording>(
    rt: &impl Print,
    number: u64,
    table: &mut [Link<M>],
    text: &str,
) -> io::Result<()> {
    let Ok(line) = text.parse::<Line<M>>() else {
        return print_unreadable(rt, number);
    };
    let Line { i, j, .. } = line;
    let answer = answer_to(table, line);
    println!(rt; "line {number}: {}", Reply { i, j, answer })
}

fn print_answer(rt: &impl Print, number: u64, book: &mut Book, text: &str) -> io::Result<()> {
    if let Some(subject) = heading(text) {
        book.subject = Some(subject);
        return match subject {
            Subject::Delays => print_opening(rt, number, &mut book.delays),
            Subject::Zones => print_opening(rt, number, &mut book.zones),
        };
    }
    match book.subject {
        Some(Subject::Delays) => print_reply(rt, number, &mut book.delays, text),
        Some(Subject::Zones) => print_reply(rt, number, &mut book.zones, text),
        None => print_unreadable(rt, number),
    }
}

fn main(rt: HostRuntime) -> io::Result<()> {
    let mut book = Book {
        subject: None,
        delays: [root_link(); MEMBERS],
        zones: [root_link(); MEMBERS],
    };
    let lines = BufReader::new(rt.alloc(), rt.stdin())?.lines(rt.alloc());
    for (number, line) in (1u64..).zip(lines) {
        print_answer(&rt, number, &mut book, line?.as_str())?;
    }
    Ok(())
}
