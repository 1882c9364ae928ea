//! Why a line of a text of cases has no answer: one type for the programs that answer such texts.
#![tactic(auto)]

ghost use Rattle.std.specs.Prelude.{◌≡◌, alloc_error};
ghost use Rattle.faults.specs.declared.Fault.TheVariants.{Memory};

use std::alloc::{AllocError, AllocFailed};

/// Why a line has no answer.
#[derive(Drop)]
pub enum Fault {
    /// It is not what it should be: a case, or a call.
    Malformed,
    Memory(AllocError),
}

impl From<AllocError> for Fault {
    ghost from_gives = { λ e f. f ≡ Memory e };

    fn from(e: AllocError) -> Fault {
        Fault::Memory(e)
    }
}

impl<T: Drop> From<AllocFailed<T>> for Fault {
    ghost from_gives = { λ _ f. f ≡ Memory alloc_error };

    fn from(refused: AllocFailed<T>) -> Fault {
        Fault::Memory(refused.into())
    }
}
