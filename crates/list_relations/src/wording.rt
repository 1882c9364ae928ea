//! How moves are read from a line and said in an answer.
ghost use Rattle.std.specs.Prelude.{◌-◌, SomeIff};
ghost use Rattle.list_relations.specs.Spellings.{IsDigit, IsSpelling, spelled};

use groups::Group;
use groups::renaming::{NAMES, Renaming};
use groups::tick::Tick;
use std::fmt;

/// A move that lines tell of.
// `FromStr` and `Display` are no plainer: the words are this program's, so both would be of a type around the move, which each
// generic function would have to name beside the move.
pub trait Wording: Copy {
    /// What the lines speak of.
    const SUBJECT: &'static str;

    /// What a member is called.
    const MEMBER: &'static str;

    /// The move that a word stands for.
    fn read(word: &str) -> Option<Self>;

    /// Says the move.
    fn say<W: fmt::Write>(self, f: &mut fmt::Formatter<W>) -> fmt::Result;

    /// Says that member i is member j moved by this.
    fn say_fact<W: fmt::Write>(self, i: usize, j: usize, f: &mut fmt::Formatter<W>) -> fmt::Result;
}

impl Wording for Tick {
    const SUBJECT: &'static str = "delays between segments";

    const MEMBER: &'static str = "segment";

    fn read(word: &str) -> Option<Tick> {
        let count = word.parse::<u32>().ok()?;
        Some(Tick { count })
    }

    // More than half the clock after is less than half of it before.
    fn say<W: fmt::Write>(self, f: &mut fmt::Formatter<W>) -> fmt::Result {
        let back = self.count.wrapping_neg();
        let (count, side) = if back < self.count {
            (back, "before")
        } else {
            (self.count, "after")
        };
        let ticks = if count == 1 { "tick" } else { "ticks" };
        write!(f, "{count} {ticks} {side}")
    }

    fn say_fact<W: fmt::Write>(self, i: usize, j: usize, f: &mut fmt::Formatter<W>) -> fmt::Result {
        write!(f, "segment {i} starts ")?;
        self.say(f)?;
        write!(f, " segment {j}")
    }
}

// What a digit stands for.
fn value(c: u8) -> Option<u32>
    ensures { SomeIff result (IsDigit c) (c - 48) }
{
    char::from(c).to_digit(10)
}

// The renaming whose images are these digits, the image of name 0 first.
fn renaming_of(digits: &[u8]) -> Option<Renaming>
    ensures { SomeIff result (IsSpelling digits.now) (spelled digits.now) }
{
    if digits.len() != usize::from(NAMES) {
        return None;
    }
    let mut bits: u64 = 0;
    for (k, c) in digits.iter().enumerate() {
        bits |= u64::from(value(*c)?) << (4 * k);
    }
    Some(Renaming { bits })
}

impl Wording for Renaming {
    const SUBJECT: &'static str = "zones of kilns";

    const MEMBER: &'static str = "kiln";

    fn read(word: &str) -> Option<Renaming>
        ensures { SomeIff result (IsSpelling word.now) (spelled word.now) }
    {
        renaming_of(word.as_bytes())
    }

    fn say<W: fmt::Write>(self, f: &mut fmt::Formatter<W>) -> fmt::Result {
        for name in 0..NAMES {
            write!(f, "{}", self.image(name))?;
        }
        Ok(())
    }

    fn say_fact<W: fmt::Write>(self, i: usize, j: usize, f: &mut fmt::Formatter<W>) -> fmt::Result {
        f.write_str("zones ")?;
        Renaming::identity().say(f)?;
        write!(f, " of kiln {j} are zones ")?;
        self.say(f)?;
        write!(f, " of kiln {i}")
    }
}
