//! A sheet in plain tables.
ghost use Rattle.std.specs.Prelude.{◌≡◌, count_by, nat_eq};
ghost use Rattle.std.specs.List.{slice_get};
ghost use Rattle.bounded.specs.Items.{items};
ghost use Rattle.sheet.specs.Parts.{parts};
ghost use Rattle.sheet.specs.Sheets.{blank, width_of};
ghost use Rattle.sheet.specs.Faults.{arity_of, row_arity, row_has, rows_have, names_names, is_name, is_data, has, holds};
ghost use Rattle.sheet.specs.Tables.{sheet_in};

use crate::item::{Arity, Constructor, Parts, Row};
use bounded::list::Bounded;

mod faults;
mod marks;

/// How much a lawful sheet may have.
pub const ARITIES: usize = 64;

pub const NAME_ARITIES: usize = 4;

pub const CONSTRUCTORS: usize = 32;

pub const VARIABLES: usize = 64;

pub const NAME_VARIABLES: usize = 10;

pub const ROWS: usize = 256;

pub const PARTS: u8 = 4;

/// The four groups of a sheet, each in the order of its numbers. A variable is its arity.
// What is declared names other declarations by number: so does the format, and there is no heap.
#[derive(Drop)]
pub struct Tables {
    pub arities: Bounded<Arity, ARITIES>,
    pub constructors: Bounded<Constructor, CONSTRUCTORS>,
    pub variables: Bounded<u8, VARIABLES>,
    pub rows: Bounded<Row, ROWS>,
}

// Whether `k` is the number of an element.
fn has<T: Copy, const N: usize>(list: &Bounded<T, N>, k: u8) -> bool
    ensures { result ≡ has (items list.now) k }
{
    usize::from(k) < list.len()
}

impl Tables {
    // A sheet without entries.
    fn new() -> Tables
        ensures { sheet_in result ≡ blank }
    {
        Tables {
            arities: Bounded::new(Arity::Name),
            constructors: Bounded::new(Constructor { makes: 0, takes: 0 }),
            variables: Bounded::new(0),
            rows: Bounded::new(Row::Variable(0)),
        }
    }

    // How many parts the arity has: 0 for what is no tuple arity.
    fn width(&self, a: u8) -> u8
        ensures { result ≡ width_of (slice_get (sheet_in self.now).arities a) }
    {
        match self.arities.get(usize::from(a)) {
            Some(Arity::Tuple(parts)) => parts.len,
            _ => 0,
        }
    }

    // Whether `a` is the number of this arity: a name or a data arity.
    fn is_arity(&self, a: usize, arity: Arity) -> bool
        ensures name { arity ≡ Arity.Name → result ≡ names_names (sheet_in self.now) a }
        ensures data { arity ≡ Arity.Data → result ≡ holds is_data (slice_get (sheet_in self.now).arities a) }
    {
        self.arities.get(a) == Some(arity)
    }

    // Whether variable `v` has the arity `a`.
    fn variable_has(&self, a: u8, v: u8) -> bool
        ensures { result ≡ holds (nat_eq a) (slice_get (sheet_in self.now).variables v) }
    {
        self.variables.get(usize::from(v)) == Some(a)
    }

    /// The arity of a row, which may be none of the sheet's.
    pub fn arity_of(&self, row: Row) -> Option<u8>
        ensures { result ≡ arity_of (sheet_in self.now) row }
    {
        match row {
            Row::Variable(v) => self.variables.get(usize::from(v)),
            Row::Apply { constructor, .. } => self
                .constructors
                .get(usize::from(constructor))
                .map(|c| c.makes),
            Row::Tuple { arity, .. } | Row::Bind { arity, .. } => Some(arity),
        }
    }

    // The arity of row `r`; nothing where there is no such row.
    fn row_arity(&self, r: u8) -> Option<u8>
        ensures { result ≡ row_arity (sheet_in self.now) r }
    {
        self.arity_of(self.rows.get(usize::from(r))?)
    }

    // Whether row `r` has the arity `a`.
    fn row_has(&self, a: u8, r: u8) -> bool
        ensures { result ≡ row_has (sheet_in self.now) a r }
    {
        self.row_arity(r) == Some(a)
    }

    // Whether each arity has a row of it, one by one.
    fn rows_have(&self, arities: Parts, rows: Parts) -> bool
        ensures { result ≡ rows_have (sheet_in self.now) (parts arities) (parts rows) }
    {
        let arities = arities.as_slice();
        let rows = rows.as_slice();
        arities.len() <= rows.len() && arities.iter().zip(rows).all(|(a, r)| self.row_has(*a, *r))
    }

    // How many name arities there are.
    fn name_arities(&self) -> usize
        ensures { result ≡ count_by is_name (sheet_in self.now).arities }
    {
        self.arities
            .as_slice()
            .iter()
            .filter(|x| matches!(x, Arity::Name))
            .count()
    }

    // How many name variables there are.
    fn name_variables(&self) -> usize
        ensures { result ≡ count_by (names_names (sheet_in self.now)) (sheet_in self.now).variables }
    {
        self.variables
            .as_slice()
            .iter()
            .filter(|a| self.is_arity(usize::from(**a), Arity::Name))
            .count()
    }
}
