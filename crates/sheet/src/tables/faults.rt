//! What may be wrong with the next entry.
ghost use Rattle.std.specs.Prelude.{◌≡◌, nat_lt};
ghost use Rattle.std.specs.List.{list_all};
ghost use Rattle.sheet.specs.Operands.{nonzero_past};
ghost use Rattle.sheet.specs.Parts.{parts};
ghost use Rattle.sheet.specs.Faults.{behind, crowded, present, well_sorted, used};
ghost use Rattle.sheet.specs.Tables.{sheet_in};

use crate::entry::Entry;
use crate::item::{Arity, Item, Parts, Row};
use crate::tables::{
    ARITIES, CONSTRUCTORS, NAME_ARITIES, NAME_VARIABLES, PARTS, ROWS, Tables, VARIABLES, has,
};

mod loading;

impl Entry {
    // Whether an operand past the first `n` is not 0.
    fn nonzero_past(self, n: usize) -> bool
        ensures { result ≡ nonzero_past n self }
    {
        self.operands().iter().skip(n).any(|x| *x != 0)
    }
}

impl Parts {
    // Whether every part is below `n`.
    fn all_below(self, n: usize) -> bool
        ensures { result ≡ list_all (λ k. nat_lt k n) (parts self) }
    {
        self.as_slice().iter().all(|k| usize::from(*k) < n)
    }
}

impl Item {
    // How many operands it uses.
    fn used(self) -> usize
        ensures { result ≡ used self }
    {
        match self {
            Item::Arity(Arity::Name | Arity::Data | Arity::Tick) => 0,
            Item::Variable(_) | Item::Row(Row::Variable(_)) => 1,
            Item::Constructor(_)
            | Item::Arity(Arity::Binding { .. })
            | Item::Row(Row::Apply { .. }) => 2,
            Item::Row(Row::Bind { .. }) => 3,
            Item::Arity(Arity::Tuple(parts)) => 1 + usize::from(parts.len),
            Item::Row(Row::Tuple { rows, .. }) => 1 + usize::from(rows.len),
        }
    }
}

impl Tables {
    // Whether an entry of a later group stands before it.
    fn is_behind(&self, item: Item) -> bool
        ensures { result ≡ behind (sheet_in self.now) item }
    {
        match item {
            Item::Arity(_) => self.constructors.len() > 0
                || self.variables.len() > 0
                || self.rows.len() > 0,
            Item::Constructor(_) => self.variables.len() > 0 || self.rows.len() > 0,
            Item::Variable(_) => self.rows.len() > 0,
            Item::Row(_) => false,
        }
    }

    // Whether one more such arity passes a limit.
    fn is_crowded_by(&self, arity: Arity) -> bool
        ensures { result ≡ crowded (sheet_in self.now) (Item.Arity arity) }
    {
        if self.arities.len() >= ARITIES {
            return true;
        }
        match arity {
            Arity::Name => self.name_arities() >= NAME_ARITIES,
            Arity::Tuple(parts) => parts.len > PARTS,
            _ => false,
        }
    }

    // Whether it passes a limit.
    fn is_crowded(&self, item: Item) -> bool
        ensures { result ≡ crowded (sheet_in self.now) item }
    {
        match item {
            Item::Arity(arity) => self.is_crowded_by(arity),
            Item::Constructor(_) => self.constructors.len() >= CONSTRUCTORS,
            Item::Variable(a) => {
                self.variables.len() >= VARIABLES
                    || self.is_arity(usize::from(a), Arity::Name)
                        && self.name_variables() >= NAME_VARIABLES
            }
            Item::Row(_) => self.rows.len() >= ROWS,
        }
    }

    fn is_arity_present(&self, arity: Arity) -> bool
        ensures { result ≡ present (sheet_in self.now) (Item.Arity arity) }
    {
        match arity {
            Arity::Name | Arity::Data | Arity::Tick => true,
            Arity::Tuple(parts) => parts.all_below(self.arities.len()),
            Arity::Binding { names, body } => has(&self.arities, names) && has(&self.arities, body),
        }
    }

    fn is_row_present(&self, row: Row) -> bool
        ensures { result ≡ present (sheet_in self.now) (Item.Row row) }
    {
        match row {
            Row::Variable(v) => has(&self.variables, v),
            Row::Apply { constructor, row } => has(&self.constructors, constructor)
                && has(&self.rows, row),
            Row::Tuple { arity, rows } => has(&self.arities, arity)
                && rows.all_below(self.rows.len()),
            Row::Bind {
                arity,
                variable,
                row,
            } => has(&self.arities, arity)
                && has(&self.variables, variable)
                && has(&self.rows, row),
        }
    }

    // Whether its operands name what stands before it.
    fn is_present(&self, item: Item) -> bool
        ensures { result ≡ present (sheet_in self.now) item }
    {
        match item {
            Item::Arity(arity) => self.is_arity_present(arity),
            Item::Constructor(c) => has(&self.arities, c.makes) && has(&self.arities, c.takes),
            Item::Variable(a) => has(&self.arities, a),
            Item::Row(row) => self.is_row_present(row),
        }
    }

    fn is_row_sorted(&self, row: Row) -> bool
        ensures { result ≡ well_sorted (sheet_in self.now) (Item.Row row) }
    {
        match row {
            Row::Variable(_) => true,
            Row::Apply { constructor, row } => self
                .constructors
                .get(usize::from(constructor))
                .is_some_and(|c| self.row_has(c.takes, row)),
            Row::Tuple { arity, rows } => matches!(
                self.arities.get(usize::from(arity)),
                Some(Arity::Tuple(parts)) if self.rows_have(parts, rows)
            ),
            Row::Bind {
                arity,
                variable,
                row,
            } => matches!(
                self.arities.get(usize::from(arity)),
                Some(Arity::Binding { names, body })
                    if self.variable_has(names, variable) && self.row_has(body, row)
            ),
        }
    }

    // Whether its operands are of the right kind and arity.
    fn is_well_sorted(&self, item: Item) -> bool
        ensures { result ≡ well_sorted (sheet_in self.now) item }
    {
        match item {
            Item::Arity(Arity::Binding { names, .. }) => self.is_arity(
                usize::from(names),
                Arity::Name,
            ),
            Item::Arity(_) => true,
            Item::Constructor(c) => self.is_arity(usize::from(c.makes), Arity::Data),
            Item::Variable(_) => true,
            Item::Row(row) => self.is_row_sorted(row),
        }
    }
}
