//! Bytes as upper-case hexadecimal digits, and `-` for no bytes.
ghost use Rattle.std.specs.Prelude.{◌≡◌, ℕ, ◌/◌, ◌%◌, ◌<◌, IfSome, IfOk, MatchOption, ◌≢◌};
ghost use Rattle.sheet_cases.specs.Digits.{digit, digits, spelled};

use faults::Fault;
use std::alloc::Global;
use std::fmt;

// What the digit stands for. The library's `to_digit` takes small letters too.
fn value(c: u8) -> Option<u8>
    ensures { MatchOption result ((v : ℕ) → v < 16 → digit v ≢ c) (λ v. (v < 16) × (digit v ≡ c)) }
{
    match c {
        b'0'..=b'9' => Some(c - b'0'),
        b'A'..=b'F' => Some(c - b'A' + 10),
        _ => None,
    }
}

// The byte of two digits.
fn byte(high: u8, low: u8) -> Option<u8>
    ensures { IfSome result (λ b. (digit (b / 16) ≡ high) × (digit (b % 16) ≡ low)) }
{
    Some(value(high)? * 16 + value(low)?)
}

// The bytes of digits, two for each.
fn bytes_of(heap: Global, text: &[u8]) -> Result<Vec<u8>, Fault>
    ensures { IfOk result (λ v. digits v.items ≡ text.now) }
{
    let mut bytes = Vec::new(heap);
    // Tried by `chunks`, which left a goal open.
    let mut rest = text;
    while let [high, low, after @ ..] = rest {
        bytes.push(byte(*high, *low).ok_or(Fault::Malformed)?)?;
        rest = after;
    }
    if !rest.is_empty() {
        return Err(Fault::Malformed);
    }
    Ok(bytes)
}

/// The bytes that the text stands for.
pub fn decode(heap: Global, text: &str) -> Result<Vec<u8>, Fault>
    ensures { IfOk result (λ v. spelled v.items ≡ text.now) }
{
    if text == "-" {
        return Ok(Vec::new(heap));
    }
    if text.is_empty() {
        return Err(Fault::Malformed);
    }
    bytes_of(heap, text.as_bytes())
}

/// Bytes that are printed in digits.
#[derive(Clone, Copy)]
pub struct Hex<'a>(pub &'a [u8]);

impl<'a> fmt::Display for Hex<'a> {
    fn fmt<W: fmt::Write>(&self, f: &mut fmt::Formatter<W>) -> fmt::Result {
        if self.0.is_empty() {
            return f.write_str("-");
        }
        for byte in self.0 {
            write!(f, "{byte:02X}")?;
        }
        Ok(())
    }
}
