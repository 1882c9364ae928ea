//! The check of a sheet.
ghost use Rattle.sheet.specs.Checks.{Checked, OneAnswer};
ghost use Rattle.sheet.specs.WellFormed.{LawfulIsWellFormed};

use crate::source::SheetSource;
use crate::tables::Tables;
use refusals::Refusal;

/// Whether the sheet is lawful: the first faulty entry declines it, or else the lowest data arity without trees.
pub fn check<S: SheetSource>(source: &S) -> Result<(), Refusal>
    ensures answer { Checked (S.entries source.now) result }
    ensures one { OneAnswer }
    ensures formed { LawfulIsWellFormed }
{
    Tables::load(source).map(|_| ())
}
