//! Why a call is declined: one type for every crate.
#![tactic(auto)]

ghost use Rattle.std.specs.Prelude.{◌≡◌, Some};
ghost use Rattle.refusals.specs.Numbers.{number};
ghost use Rattle.refusals.specs.Words.{word};

use std::fmt;

/// The reasons, in the order of their numbers.
#[derive(Clone, Copy, PartialEq, Eq, Debug)]
pub enum Reason {
    Cut,
    Unknown,
    Tail,
    Order,
    Crowded,
    Absent,
    IllSorted,
    Padding,
    Barren,
    Full,
    NoRow,
    Unfit,
    Deep,
    Crossed,
    Short,
    Stranger,
    Unlawful,
}

/// A reason with its place: a byte offset, an entry's position, an arity or a line, as the reason says.
#[derive(Clone, Copy, PartialEq, Eq, Debug)]
pub struct Refusal {
    pub reason: Reason,
    pub place: usize,
}

impl Reason {
    /// The number that programs print.
    pub fn number(self) -> u8
        ensures { result ≡ number self }
    {
        self as u8 + 1
    }

    /// The word that programs print.
    pub fn word(self) -> &'static str
        ensures { result.now ≡ word self }
    {
        match self {
            Reason::Cut => "cut",
            Reason::Unknown => "unknown",
            Reason::Tail => "tail",
            Reason::Order => "order",
            Reason::Crowded => "crowded",
            Reason::Absent => "absent",
            Reason::IllSorted => "ill-sorted",
            Reason::Padding => "padding",
            Reason::Barren => "barren",
            Reason::Full => "full",
            Reason::NoRow => "no row",
            Reason::Unfit => "unfit",
            Reason::Deep => "deep",
            Reason::Crossed => "crossed",
            Reason::Short => "short",
            Reason::Stranger => "stranger",
            Reason::Unlawful => "unlawful",
        }
    }
}

impl fmt::Display for Reason {
    ghost output = { λ r. Some (word r) };

    fn fmt<W: fmt::Write>(&self, f: &mut fmt::Formatter<W>) -> fmt::Result {
        f.write_str(self.word())
    }
}

/// A refusal that has no place: its place is 0.
impl From<Reason> for Refusal {
    ghost from_gives = { λ r f. f ≡ record { reason = r; place = 0 } };

    fn from(reason: Reason) -> Refusal {
        Refusal { reason, place: 0 }
    }
}
