//! What is answered to a line.
ghost use Rattle.std.specs.Prelude.{List, length};
ghost use Rattle.union_find.specs.Facts.{Fact};
ghost use Rattle.union_find.specs.Tables.{Keeps};
ghost use Rattle.list_relations.specs.Replies.{Replies, Handles};

use crate::line::{Line, Remark};
use crate::wording::Wording;
use groups::Group;
use refusals::Refusal;
use std::fmt;
use union_find::link::{Link, Related};
use union_find::{relate, relation};

// Each holds the whole answer of its call, as the definitions of an answer do: with the refusals outside, no line would be shorter.
#[derive(Clone, Copy)]
pub enum Answer<M> {
    /// What came of the fact by the first move.
    Learned(M, Result<Related<M>, Refusal>),
    /// What the facts say.
    Told(Result<Option<M>, Refusal>),
}

/// Answers a line, and learns what it says.
pub fn answer_to<M: Group>(table: &mut [Link<M>], line: Line<M>) -> Answer<M>
    ensures facts { (fs : List (Fact M)) → Keeps M.Group fs table.old → Replies M.Group fs (length table.old) line.i line.j line.remark result (λ fs'. Keeps M.Group fs' table.new) }
    ensures table { Handles M.Group table.old table.new line.i line.j line.remark result }
{
    let Line { i, j, remark } = line;
    match remark {
        Remark::Says(said) => Answer::Learned(said, relate(table, i, j, said)),
        Remark::Asks => Answer::Told(relation(table, i, j)),
    }
}

/// An answer about members i and j.
#[derive(Clone, Copy)]
pub struct Reply<M> {
    pub i: usize,
    pub j: usize,
    pub answer: Answer<M>,
}

impl<M: Wording> fmt::Display for Reply<M> {
    fn fmt<W: fmt::Write>(&self, f: &mut fmt::Formatter<W>) -> fmt::Result {
        let Reply { i, j, answer } = *self;
        match answer {
            Answer::Learned(_, Ok(Related::New)) => f.write_str("new"),
            Answer::Learned(_, Ok(Related::Known)) => f.write_str("known"),
            Answer::Learned(said, Ok(Related::Clash(told))) => {
                f.write_str("clash: ")?;
                told.say_fact(i, j, f)?;
                f.write_str(", not ")?;
                said.say(f)
            }
            Answer::Told(Ok(Some(told))) => told.say_fact(i, j, f),
            Answer::Told(Ok(None)) => {
                let member = M::MEMBER;
                write!(f, "nothing is known of {member} {i} and {member} {j}")
            }
            Answer::Learned(_, Err(refusal)) | Answer::Told(Err(refusal)) => {
                let Refusal { reason, .. } = refusal;
                write!(f, "refused: {reason} ({})", reason.number())
            }
        }
    }
}
