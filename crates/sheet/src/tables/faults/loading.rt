//! A sheet, entry by entry.
ghost use Rattle.std.specs.Prelude.{◌≡◌, false, MatchResult};
ghost use Rattle.sheet.specs.Sheets.{item as item_in, item_by, operand_parts, declare as declared};
ghost use Rattle.sheet.specs.Faults.{item_fault, crowded};
ghost use Rattle.sheet.specs.Tables.{sheet_in, Admits, Loaded};

use crate::command::Command;
use crate::entry::Entry;
use crate::item::{Arity, Constructor, Item, Parts, Row};
use crate::source::{Entries, SheetSource};
use crate::tables::Tables;
use refusals::{Reason, Refusal};

// The operands from the second on, as the parts of a tuple.
fn tuple_parts(len: u8, e: Entry) -> Parts
    ensures { result ≡ operand_parts len e }
{
    Parts {
        len,
        numbers: [e.b, e.c, e.d, e.e],
    }
}

impl Tables {
    // What the entry declares by the command that its byte names.
    fn item_by(&self, e: Entry, command: Command) -> Item
        ensures { result ≡ item_by (sheet_in self.now) e command }
    {
        match command {
            Command::NameArity => Item::Arity(Arity::Name),
            Command::DataArity => Item::Arity(Arity::Data),
            Command::TickArity => Item::Arity(Arity::Tick),
            Command::TupleArity => Item::Arity(Arity::Tuple(tuple_parts(e.a, e))),
            Command::BindingArity => Item::Arity(Arity::Binding {
                names: e.a,
                body: e.b,
            }),
            Command::Constructor => Item::Constructor(Constructor {
                makes: e.a,
                takes: e.b,
            }),
            Command::Variable => Item::Variable(e.a),
            Command::VariableRow => Item::Row(Row::Variable(e.a)),
            Command::ApplyRow => Item::Row(Row::Apply {
                constructor: e.a,
                row: e.b,
            }),
            Command::TupleRow => {
                let rows = tuple_parts(self.width(e.a), e);
                Item::Row(Row::Tuple { arity: e.a, rows })
            }
            Command::BindRow => Item::Row(Row::Bind {
                arity: e.a,
                variable: e.b,
                row: e.c,
            }),
        }
    }

    // What the entry declares; refused where its byte is no command.
    fn item(&self, e: Entry) -> Result<Item, Reason>
        ensures { MatchResult result
            (λ i. item_in (sheet_in self.now) e ≡ Some i)
            (λ x. (item_in (sheet_in self.now) e ≡ None) × (x ≡ Reason.Unknown)) }
    {
        let command = Command::try_from(e.command)?;
        Ok(self.item_by(e, command))
    }

    // Whether the item of the entry may be declared, or else what is wrong with it.
    fn allows(&self, e: Entry, item: Item) -> Result<(), Reason>
        ensures { MatchResult result
            (λ _. item_fault (sheet_in self.now) e item ≡ None)
            (λ x. item_fault (sheet_in self.now) e item ≡ Some x) }
    {
        if self.is_behind(item) {
            Err(Reason::Order)
        } else if self.is_crowded(item) {
            Err(Reason::Crowded)
        } else if !self.is_present(item) {
            Err(Reason::Absent)
        } else if !self.is_well_sorted(item) {
            Err(Reason::IllSorted)
        } else if e.nonzero_past(item.used()) {
            Err(Reason::Padding)
        } else {
            Ok(())
        }
    }

    // The item joins the end of its group.
    fn declare(&mut self, item: Item)
        requires { crowded (sheet_in self.old) item ≡ false }
        ensures { sheet_in self.new ≡ declared (sheet_in self.old) item }
    {
        match item {
            Item::Arity(arity) => self.arities.push(arity).unwrap(),
            Item::Constructor(c) => self.constructors.push(c).unwrap(),
            Item::Variable(a) => self.variables.push(a).unwrap(),
            Item::Row(row) => self.rows.push(row).unwrap(),
        }
    }

    // The entry joins the sheet, or is declined and the sheet is as it was.
    fn admit(&mut self, e: Entry) -> Result<(), Reason>
        ensures { Admits (sheet_in self.old) e result (sheet_in self.new) }
    {
        let item = self.item(e)?;
        self.allows(e, item)?;
        self.declare(item);
        Ok(())
    }

    /// The sheet that a source tells, or why it is not lawful.
    pub fn load<S: SheetSource>(source: &S) -> Result<Tables, Refusal>
        ensures { Loaded (S.entries source.now) result }
    {
        let mut tables = Tables::new();
        for (place, entry) in Entries::of(source).enumerate() {
            tables
                .admit(entry)
                .map_err(|reason| Refusal { reason, place })?;
        }
        match tables.lowest_barren() {
            Some(place) => Err(Refusal {
                reason: Reason::Barren,
                place,
            }),
            None => Ok(tables),
        }
    }
}
