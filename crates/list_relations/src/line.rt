//! Lines about two members.
use crate::wording::Wording;
use std::str::FromStr;

/// What a line says of its members, i and j.
#[derive(Clone, Copy)]
pub enum Remark<M> {
    /// i is j moved by this.
    Says(M),
    /// How are i and j related?
    Asks,
}

#[derive(Clone, Copy)]
pub struct Line<M> {
    pub i: usize,
    pub j: usize,
    pub remark: Remark<M>,
}

fn remark_of<M: Wording>(word: &str) -> Option<Remark<M>> {
    if word == "?" {
        return Some(Remark::Asks);
    }
    Some(Remark::Says(M::read(word)?))
}

/// A text that is no line.
#[derive(Clone, Copy)]
pub struct Unreadable;

impl<M: Wording> FromStr for Line<M> {
    type Err = Unreadable;

    fn from_str(text: &str) -> Result<Line<M>, Unreadable> {
        let mut words = text.split_whitespace();
        let mut word = || words.next().ok_or(Unreadable);
        let i = word()?.parse::<usize>().map_err(|_| Unreadable)?;
        let j = word()?.parse::<usize>().map_err(|_| Unreadable)?;
        let remark = remark_of(word()?).ok_or(Unreadable)?;
        if word().is_ok() {
            return Err(Unreadable);
        }
        Ok(Line { i, j, remark })
    }
}
