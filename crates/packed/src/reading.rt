//! Reading a packed sheet.
ghost use Rattle.std.specs.Prelude.{◌≡◌, ◌+◌, ◌^◌, ◌<◌, length, MatchResult, None, Some};
ghost use Rattle.packed.specs.Forms.{Read, ending, byte_fault, OneForm, ReadIsForm};

use crate::source::{END, Packed, first_command};
use refusals::{Reason, Refusal};
use sheet::check::check;
use sheet::command::Command;
use sheet::source::SheetSource;

// What is wrong with the bytes from `place` on, where the whole commands end.
fn ending(place: usize, rest: &[u8]) -> Result<(), Refusal>
    requires { place + length rest.now < 2 ^ 64 }
    ensures { MatchResult result (λ _. ending place rest.now ≡ None) (λ f. ending place rest.now ≡ Some f) }
{
    let (reason, place) = match rest {
        [END] => return Ok(()),
        [END, ..] => (Reason::Tail, place + 1),
        [byte, ..] if Command::try_from(*byte).is_err() => (Reason::Unknown, place),
        _ => (Reason::Cut, place),
    };
    Err(Refusal { reason, place })
}

// What is wrong with the bytes of a packed sheet.
fn byte_fault(bytes: &[u8]) -> Result<(), Refusal>
    ensures { MatchResult result (λ _. byte_fault bytes.now ≡ None) (λ f. byte_fault bytes.now ≡ Some f) }
{
    let mut rest = bytes;
    while let Some((_, after)) = first_command(rest) {
        rest = after;
    }
    ending(bytes.len() - rest.len(), rest)
}

/// Tests the bytes, then the sheet that they mean, and answers its number of entries.
#[tactic(auto, using(crate::proofs::Forms::read_is_form, crate::proofs::Forms::form_whole, crate::proofs::Forms::form_lawful, crate::proofs::Forms::form_meant))]
pub fn read(bytes: &[u8]) -> Result<usize, Refusal>
    ensures answer { Read bytes.now result }
    ensures form { ReadIsForm }
    ensures one { OneForm }
{
    byte_fault(bytes)?;
    let packed = Packed { bytes };
    check(&packed)?;
    Ok(packed.count())
}
