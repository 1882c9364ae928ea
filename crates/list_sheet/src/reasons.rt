//! Why a sheet is refused, in words.
use refusals::{Reason, Refusal};
use std::fmt;

fn explain(reason: Reason) -> &'static str {
    match reason {
        Reason::Cut => "the bytes end before a command or inside one",
        Reason::Unknown => "there is no command here",
        Reason::Tail => "there are bytes after the end byte",
        Reason::Order => "an entry of a later group stands before it",
        Reason::Crowded => "a limit is passed, or a tuple has more than four parts",
        Reason::Absent => "an operand names nothing that stands before it",
        Reason::IllSorted => "an operand is of the wrong kind or arity",
        Reason::Padding => "an unused operand is not 0",
        Reason::Barren => "this data arity has no tree",
        Reason::Full => "128 lines are in force",
        Reason::NoRow => "a row or variable of the line is not in the sheet",
        Reason::Unfit => "the arities do not suit the line",
        Reason::Deep => "32 marks are open",
        Reason::Crossed => "the mark is not the innermost open one",
        Reason::Short => "a table or buffer is too short",
        Reason::Stranger => "there is no such member",
        Reason::Unlawful => "the move is unlawful",
    }
}

// What the place of a refusal counts.
fn unit(reason: Reason) -> &'static str {
    match reason {
        Reason::Cut | Reason::Unknown | Reason::Tail => "byte",
        Reason::Order | Reason::Crowded | Reason::Absent | Reason::IllSorted | Reason::Padding =>
            "entry",
        Reason::Barren => "arity",
        _ => "place",
    }
}

/// A refusal of the bytes of a sheet.
#[derive(Clone, Copy)]
pub struct Declined(pub Refusal);

impl fmt::Display for Declined {
    fn fmt<W: fmt::Write>(&self, f: &mut fmt::Formatter<W>) -> fmt::Result {
        let Refusal { reason, place } = self.0;
        let number = reason.number();
        let unit = unit(reason);
        let sentence = explain(reason);
        write!(
            f,
            "refused: {reason} ({number}) at {unit} {place}: {sentence}"
        )
    }
}
