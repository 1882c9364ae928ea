//! The entries of a union-find's table, and what comes of a fact.
ghost use Rattle.std.specs.Prelude.{◌≡◌, MatchOption};
ghost use Rattle.union_find.specs.Tables.{Hangs};

use crate::lawful::Lawful;
use groups::Group;

/// What a member is: `parent` moved by `step`. It says so only where the parent is a smaller member and the step lawful.
// Members are numbers, since the table is lent and there is no heap.
#[derive(Clone, Copy, PartialEq, Eq, Debug)]
pub struct Link<G> {
    pub parent: u8,
    pub step: G,
}

impl<G: Group> Link<G> {
    // What it says, if its step is lawful.
    pub(crate) fn up(self) -> Option<Up<G>>
        ensures { MatchOption result (G.lawful self.step → ⊥) (λ u. (u.parent ≡ self.parent) × (u.step ≡ self.step) × G.lawful self.step) }
    {
        let step = Lawful::of(self.step)?;
        Some(Up {
            parent: self.parent,
            step,
        })
    }

    // This entry one link further up, if it hangs by a.
    pub(crate) fn lifted(self, a: u8, up: &Up<G>) -> Option<Link<G>>
        ensures { MatchOption result (Hangs G.Group a self → ⊥) (λ l. Hangs G.Group a self × (l ≡ record { parent = up.now.parent; step = G.compose self.step up.now.step })) }
    {
        if self.parent != a {
            return None;
        }
        Some(self.up()?.then(up).link())
    }
}

/// A link whose step is lawful.
// No `Link<Lawful<G>>`: a `Link` is copied, and a type with a model is not.
#[derive(Drop)]
pub(crate) struct Up<G: Group> {
    pub(crate) parent: u8,
    pub(crate) step: Lawful<G>,
}

impl<G: Group> Up<G> {
    // Up this link, and then up the next.
    pub(crate) fn then(&self, next: &Up<G>) -> Up<G>
        ensures parent { result.parent ≡ next.now.parent }
        ensures step { result.step ≡ G.compose self.now.step next.now.step }
    {
        Up {
            parent: next.parent,
            step: self.step.compose(&next.step),
        }
    }

    // The entry that says so.
    pub(crate) fn link(&self) -> Link<G>
        ensures { result ≡ record { parent = self.now.parent; step = self.now.step } }
    {
        Link {
            parent: self.parent,
            step: self.step.get(),
        }
    }
}

/// What comes of a fact "member i is member j moved by g".
#[derive(Clone, Copy, PartialEq, Eq, Debug)]
pub enum Related<G> {
    /// Nothing was known of i and j; now the fact is.
    New,
    /// The facts learned before say the same.
    Known,
    /// The facts learned before say another move, this one.
    Clash(G),
}
