//! Which arities have a tree.
ghost use Rattle.std.specs.Prelude.{◌≡◌, ℕ, ◌<◌, ◌≤◌, true, false, slice_set};
ghost use Rattle.sheet.specs.Limits.{most_arities};
ghost use Rattle.sheet.specs.Parts.{parts};
ghost use Rattle.sheet.specs.Growth.{marked, serves, grows, makes_one, all_marked, Sound, Closed, Missing};
ghost use Rattle.sheet.specs.Tables.{sheet_in, LowestBarrenIn};

use crate::item::{Arity, Constructor, Parts};
use crate::tables::marks::Marks;
use crate::tables::{ARITIES, Tables};

impl Marks {
    // The empty set.
    fn none() -> Marks
        ensures { (a : ℕ) → marked result a ≡ false }
    {
        Marks {
            at: [false; ARITIES],
        }
    }

    // Whether the arity is in the set.
    fn has(&self, a: usize) -> bool
        ensures { result ≡ marked self.now a }
    {
        self.at.get(a).copied().unwrap_or(false)
    }

    // Whether the constructor makes a tree of arity `a` of one of an arity in the set.
    fn serves(&self, c: Constructor, a: usize) -> bool
        ensures { result ≡ serves self.now a c }
    {
        usize::from(c.makes) == a && self.has(usize::from(c.takes))
    }

    // The arity joins the set.
    fn add(&mut self, a: usize)
        requires { a < most_arities }
        ensures { self.new.at ≡ slice_set self.old.at a true }
    {
        self.at[a] = true;
    }
}

// Whether every part is in the set.
fn all_in(marks: &Marks, ps: Parts) -> bool
    ensures { result ≡ all_marked marks.now (parts ps) }
{
    ps.as_slice().iter().all(|a| marks.has(usize::from(*a)))
}

impl Tables {
    // Whether some constructor serves arity `a`.
    fn makes_one(&self, marks: &Marks, a: usize) -> bool
        ensures { result ≡ makes_one marks.now a (sheet_in self.now).constructors }
    {
        self.constructors
            .as_slice()
            .iter()
            .any(|c| marks.serves(*c, a))
    }

    // Whether arity `a` has a tree if those of the set have.
    fn grows(&self, marks: &Marks, a: usize) -> bool
        ensures { result ≡ grows (sheet_in self.now) marks.now a }
    {
        match self.arities.get(a) {
            Some(Arity::Name | Arity::Tick) => true,
            Some(Arity::Data) => self.makes_one(marks, a),
            Some(Arity::Tuple(parts)) => all_in(marks, parts),
            Some(Arity::Binding { body, .. }) => marks.has(usize::from(body)),
            None => false,
        }
    }

    // An arity that has a tree by those of the set, and is not in it: the first from `from` on, or else the lowest.
    fn missing(&self, marks: &Marks, from: usize) -> Option<usize>
        requires { from ≤ most_arities }
        ensures { Missing (sheet_in self.now) marks.now result }
    {
        (from..ARITIES)
            .chain(0..from)
            .find(|a| !marks.has(*a) && self.grows(marks, *a))
    }

    // The arities that have a tree. Each search goes on where the one before ended: begun at the lowest, each would ask again for
    // all those that have no tree yet.
    fn inhabited(&self) -> Marks
        ensures sound { Sound (sheet_in self.now) result }
        ensures closed { Closed (sheet_in self.now) result }
    {
        let mut marks = Marks::none();
        let mut from = 0;
        while let Some(a) = self.missing(&marks, from) {
            marks.add(a);
            from = a + 1;
        }
        marks
    }

    /// The lowest data arity that has no tree, if any.
    pub fn lowest_barren(&self) -> Option<usize>
        ensures { LowestBarrenIn (sheet_in self.now) result }
    {
        let marks = self.inhabited();
        (0..ARITIES).find(|a| self.is_arity(*a, Arity::Data) && !marks.has(*a))
    }
}
