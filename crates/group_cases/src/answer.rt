//! What the calls answer.
use crate::call::Call;
use groups::Group;
use refusals::Refusal;
use std::fmt;
use union_find::link::{Link, Related};
use union_find::{open, relate, relation};

#[derive(Clone, Copy)]
pub enum Answer<M> {
    Truth(bool),
    /// A move; none where the contracts say nothing of it.
    Move(Option<M>),
    Opened,
    Learned(Related<M>),
    Told(Option<M>),
}

/// Makes a call on a table.
pub fn answer_to<M: Group>(table: &mut [Link<M>], call: Call<M>) -> Result<Answer<M>, Refusal> {
    let answer = match call {
        Call::Identity => Answer::Move(Some(M::identity())),
        Call::Lawful(a) => Answer::Truth(a.is_lawful()),
        Call::Equals(a, b) => Answer::Truth(a.equals(b)),
        // Also of unlawful moves, which has to end.
        Call::Compose(a, b) => {
            let fair = a.is_lawful() && b.is_lawful();
            Answer::Move(fair.then_some(a.compose(b)))
        }
        Call::Inverse(a) => Answer::Move(a.is_lawful().then_some(a.inverse())),
        Call::Open(_) => {
            open(table)?;
            Answer::Opened
        }
        Call::Relate(i, j, said) => Answer::Learned(relate(table, i, j, said)?),
        Call::Relation(i, j) => Answer::Told(relation(table, i, j)?),
    };
    Ok(answer)
}

impl<M: Copy + Into<u64>> fmt::Display for Answer<M> {
    fn fmt<W: fmt::Write>(&self, f: &mut fmt::Formatter<W>) -> fmt::Result {
        match *self {
            Answer::Truth(true) => f.write_str("yes"),
            Answer::Truth(false) => f.write_str("no"),
            Answer::Move(Some(a)) | Answer::Told(Some(a)) => write!(f, "{:X}", a.into()),
            Answer::Move(None) => f.write_str("free"),
            Answer::Told(None) => f.write_str("nothing"),
            Answer::Opened => f.write_str("ok"),
            Answer::Learned(Related::New) => f.write_str("new"),
            Answer::Learned(Related::Known) => f.write_str("known"),
            Answer::Learned(Related::Clash(a)) => write!(f, "clash {:X}", a.into()),
        }
    }
}
