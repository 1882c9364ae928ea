//! What the calls answer.
use crate::hex::Hex;
use packed::reading::read;
use packed::writing::write;
use refusals::Refusal;
use sheet::check::check;
use sheet::source::SheetSource;
use std::fmt;

/// What a call found.
#[derive(Drop)]
pub enum Found<'a> {
    /// No fault.
    Lawful,
    /// So many entries in the sheet that was read.
    Entries(usize),
    /// The bytes that were written.
    Written(&'a [u8]),
}

/// What a call answers.
#[derive(Drop)]
pub struct Answer<'a>(pub Result<Found<'a>, Refusal>);

fn written<'a, S: SheetSource>(source: &S, buffer: &'a mut [u8]) -> Result<Found<'a>, Refusal> {
    let n = write(source, buffer)?;
    Ok(Found::Written(&buffer[..n]))
}

impl<'a> Answer<'a> {
    pub fn of_check<S: SheetSource>(source: &S) -> Answer<'a> {
        Answer(check(source).map(|_| Found::Lawful))
    }

    pub fn of_reading(bytes: &[u8]) -> Answer<'a> {
        Answer(read(bytes).map(|n| Found::Entries(n)))
    }

    pub fn of_writing<S: SheetSource>(source: &S, buffer: &'a mut [u8]) -> Answer<'a> {
        Answer(written(source, buffer))
    }
}

impl fmt::Display for Answer<'_> {
    fn fmt<W: fmt::Write>(&self, f: &mut fmt::Formatter<W>) -> fmt::Result {
        match &self.0 {
            Ok(Found::Lawful) => f.write_str("ok"),
            Ok(Found::Entries(n)) => write!(f, "ok {n}"),
            Ok(Found::Written(bytes)) => write!(f, "ok {}", Hex(bytes)),
            Err(Refusal { reason, place }) => write!(f, "refused {} {place}", reason.number()),
        }
    }
}
