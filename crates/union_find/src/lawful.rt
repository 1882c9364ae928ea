//! Elements of a group that are known to be lawful.
ghost use Rattle.std.specs.Prelude.{◌≡◌, MatchOption};

use groups::Group;
use std::marker::Model;

/// A lawful element: to a clause, the element.
#[derive(Drop)]
pub(crate) struct Lawful<G: Group> {
    element: G,
}

impl<G: Group> Model for Lawful<G> {
    ghost Value = { G };

    ghost view = { λ l. l.element };

    ghost invariant = { λ l. G.lawful l.element };
}

impl<G: Group> Lawful<G> {
    // The element, if it is lawful.
    pub(crate) fn of(element: G) -> Option<Lawful<G>>
        ensures { MatchOption result (G.lawful element → ⊥) (λ l. (l ≡ element) × G.lawful element) }
    {
        if element.is_lawful() {
            Some(Lawful { element })
        } else {
            None
        }
    }

    pub(crate) fn identity() -> Lawful<G>
        ensures { result ≡ G.identity }
    {
        Lawful {
            element: G::identity(),
        }
    }

    pub(crate) fn compose(&self, other: &Lawful<G>) -> Lawful<G>
        ensures { result ≡ G.compose self.now other.now }
    {
        Lawful {
            element: self.element.compose(other.element),
        }
    }

    pub(crate) fn inverse(&self) -> Lawful<G>
        ensures { result ≡ G.inverse self.now }
    {
        Lawful {
            element: self.element.inverse(),
        }
    }

    pub(crate) fn get(&self) -> G
        ensures { result ≡ self.now }
    {
        self.element
    }
}
