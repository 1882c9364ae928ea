//! The calls that lines name.
use std::str::{FromStr, SplitWhitespace};

/// A call at one kind of moves.
#[derive(Clone, Copy)]
pub enum Call<M> {
    Identity,
    Lawful(M),
    Equals(M, M),
    Compose(M, M),
    Inverse(M),
    Open(usize),
    Relate(usize, usize, M),
    Relation(usize, usize),
}

fn next_move<M: Copy + TryFrom<u64, Error: Drop>>(words: &mut SplitWhitespace<'_>) -> Option<M> {
    let number = u64::from_str_radix(words.next()?, 16).ok()?;
    M::try_from(number).ok()
}

fn next_number(words: &mut SplitWhitespace<'_>) -> Option<usize> {
    words.next()?.parse::<usize>().ok()
}

fn next_call<M: Copy + TryFrom<u64, Error: Drop>>(
    words: &mut SplitWhitespace<'_>,
) -> Option<Call<M>> {
    let call = match words.next()? {
        "identity" => Call::Identity,
        "lawful" => Call::Lawful(next_move(words)?),
        "equals" => Call::Equals(next_move(words)?, next_move(words)?),
        "compose" => Call::Compose(next_move(words)?, next_move(words)?),
        "inverse" => Call::Inverse(next_move(words)?),
        "open" => Call::Open(next_number(words)?),
        "relate" => Call::Relate(next_number(words)?, next_number(words)?, next_move(words)?),
        "relation" => Call::Relation(next_number(words)?, next_number(words)?),
        _ => return None,
    };
    Some(call)
}

/// A text that names no call.
#[derive(Clone, Copy)]
pub struct NoCall;

impl<M: Copy + TryFrom<u64, Error: Drop>> FromStr for Call<M> {
    type Err = NoCall;

    fn from_str(text: &str) -> Result<Call<M>, NoCall> {
        let mut words = text.split_whitespace();
        let call = next_call(&mut words).ok_or(NoCall)?;
        if words.next().is_some() {
            return Err(NoCall);
        }
        Ok(call)
    }
}
