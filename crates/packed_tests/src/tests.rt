//! Writing into a buffer just too short, one just long enough, and a longer one.
use packed::writing::write;
use refusals::{Reason, Refusal};
use sheet::entry::Entry;
use sheet::source::Records;

// A name arity and a variable of it; the packed form has four bytes.
const TABLE: [Entry; 2] = [
    Entry {
        command: 0x01,
        a: 0,
        b: 0,
        c: 0,
        d: 0,
        e: 0,
    },
    Entry {
        command: 0x20,
        a: 0,
        b: 0,
        c: 0,
        d: 0,
        e: 0,
    },
];

#[test]
fn one_byte_too_short(rt: HostRuntime) {
    let mut buffer = [7u8; 3];
    let answer = write(&Records { table: &TABLE }, &mut buffer);
    assert_eq!(rt;
        answer,
        Err(Refusal {
            reason: Reason::Short,
            place: 0,
        })
    );
    assert_eq!(rt; buffer, [7, 7, 7]);
}

#[test]
fn long_enough(rt: HostRuntime) {
    let mut buffer = [7u8; 4];
    let answer = write(&Records { table: &TABLE }, &mut buffer);
    assert_eq!(rt; answer, Ok(4));
    assert_eq!(rt; buffer, [0x01, 0x20, 0x00, 0xFF]);
}

#[test]
fn one_byte_longer(rt: HostRuntime) {
    let mut buffer = [7u8; 5];
    let answer = write(&Records { table: &TABLE }, &mut buffer);
    assert_eq!(rt; answer, Ok(4));
    assert_eq!(rt; buffer, [0x01, 0x20, 0x00, 0xFF, 7]);
}
