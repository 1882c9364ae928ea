//! Runs of one operation, in which each run takes its arguments from what the run before gave.
use crate::fact::Fact;
use crate::sample::{Sample, byte, next};
use groups::Group;
use groups::renaming::Renaming;
use union_find::link::{Link, Related};
use union_find::{MEMBERS, open, relate, relation};

const SEED: u64 = 47;

/// Runs an operation on two of 256 renamings each time.
pub(crate) fn operations<F: Fn(Renaming, Renaming) -> u64>(run: F, count: u64) -> u64
    requires { F.IsAlwaysCallable run }
{
    let mut x = SEED;
    let mut moves = [Renaming::identity(); 256];
    for m in &mut moves {
        x = next(x);
        *m = Renaming::draw(x);
    }
    for _ in 0..count {
        let a = moves[usize::from(byte(x, 56))];
        let b = moves[usize::from(byte(x, 48))];
        x = next(x ^ run(a, b));
    }
    x
}

/// The image of an image, eight times, of the lowest name of b.
pub fn eighth_image(a: Renaming, b: Renaming) -> u64 {
    let mut name = (b.bits & 15) as u8;
    for _ in 0..8 {
        name = a.image(name);
    }
    u64::from(name)
}

/// Whether a is lawful, which the lowest bit of b undoes.
pub fn lawful(a: Renaming, b: Renaming) -> u64 {
    let tried = Renaming {
        bits: a.bits ^ (b.bits & 1),
    };
    if tried.is_lawful() { 1 } else { 2 }
}

// What is known of two members, as a number.
fn told<M: Sample>(table: &[Link<M>; MEMBERS], i: u8, j: u8) -> u64 {
    match relation(table, usize::from(i), usize::from(j)).unwrap() {
        Some(g) => g.into(),
        None => 1,
    }
}

// Tells a table the facts, and answers a number made of what comes of them.
fn learn<M: Sample>(table: &mut [Link<M>], facts: &[Fact<M>]) -> u64 {
    let mut sum: u64 = 0;
    for fact in facts {
        let outcome = match relate(table, usize::from(fact.i), usize::from(fact.j), fact.step) {
            Ok(Related::New) => 1,
            Ok(Related::Known) => 2,
            Ok(Related::Clash(g)) => g.into(),
            Err(_) => 3,
        };
        sum = sum.wrapping_mul(5).wrapping_add(outcome);
    }
    sum
}

/// Asks for two members each time, after the facts.
pub fn questions<M: Sample>(table: &mut [Link<M>; MEMBERS], facts: &[Fact<M>], count: u64) -> u64 {
    open(table).unwrap();
    let mut x = learn(table, facts);
    for _ in 0..count {
        x = next(x ^ told(table, byte(x, 56), byte(x, 48)));
    }
    x
}

/// Opens the table, tells it the facts, which are 255, and asks a question, until `count` facts are told.
pub fn rounds<M: Sample>(table: &mut [Link<M>; MEMBERS], facts: &[Fact<M>], count: u64) -> u64 {
    let mut x = SEED;
    for _ in 0..count / 255 {
        open(table).unwrap();
        x = next(x ^ learn(table, facts));
        x = next(x ^ told(table, byte(x, 56), byte(x, 48)));
    }
    x
}
