//! The cases.
use crate::hex::decode;
use faults::Fault;
use sheet::entry::Entry;
use std::alloc::Global;

/// The form in which a sheet is told.
#[derive(Drop)]
pub enum Form {
    Packed(Vec<u8>),
    Records(Vec<Entry>),
}

/// A sheet to try, under its label.
#[derive(Drop)]
pub struct Case<'a> {
    pub label: &'a str,
    pub form: Form,
}

fn records(heap: Global, bytes: &[u8]) -> Result<Vec<Entry>, Fault> {
    let mut entries = Vec::new(heap);
    for record in bytes.chunks(6) {
        let [command, a, b, c, d, e] = *record else {
            return Err(Fault::Malformed);
        };
        entries.push(Entry::new(command, a, b, c, d, e))?;
    }
    Ok(entries)
}

impl Case<'_> {
    /// The case of a line, whose label it borrows: `FromStr` could not.
    pub fn parse<'a>(heap: Global, line: &'a str) -> Result<Case<'a>, Fault> {
        let (label, rest) = line.split_once(' ').ok_or(Fault::Malformed)?;
        let (word, digits) = rest.split_once(' ').ok_or(Fault::Malformed)?;
        if label.is_empty() {
            return Err(Fault::Malformed);
        }
        let bytes = decode(heap, digits)?;
        let form = match word {
            "packed" => Form::Packed(bytes),
            "records" => Form::Records(records(heap, bytes.as_slice())?),
            _ => return Err(Fault::Malformed),
        };
        Ok(Case { label, form })
    }
}
