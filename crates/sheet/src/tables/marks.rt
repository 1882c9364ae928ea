//! A set of arities.
ghost use Rattle.std.specs.Prelude.{◌≡◌, length};
ghost use Rattle.sheet.specs.Limits.{most_arities};

use crate::tables::ARITIES;

mod growth;

/// Arity `a` is in the set where `at[a]` is true.
// A set of the library needs a heap.
#[derive(Drop)]
pub struct Marks {
    at: [bool; ARITIES],
    ghost wide: { length at ≡ most_arities },
}
