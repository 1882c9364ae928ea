//! Groups: elements that are composed and undone, with the laws that a union-find rests on.
#![tactic(auto)]

ghost use Rattle.std.specs.Prelude.{◌≡◌, MatchBool, ◌≢◌};
ghost use Rattle.groups.specs.Laws.{Laws};

pub mod renaming;
pub mod tick;

/// A group. Its laws hold of its lawful elements; what the calls answer for others is free.
pub trait Group: Copy {
    ghost lawful: { Self → Type 0 };

    ghost identity: { Self };

    ghost compose: { Self → Self → Self };

    ghost inverse: { Self → Self };

    /// Whether this is an element of the group.
    fn is_lawful(self) -> bool
        ensures { MatchBool result (lawful self) (lawful self → ⊥) };

    /// The element that alters nothing.
    fn identity() -> Self
        ensures { result ≡ identity };

    /// First `other`, then `self`.
    fn compose(self, other: Self) -> Self
        ensures { lawful self → lawful other → result ≡ compose self other };

    /// The element that undoes this one.
    fn inverse(self) -> Self
        ensures { lawful self → result ≡ inverse self };

    /// Whether two elements are one. No body by `==` stands here: it would ask `Eq`, and a law of it, of every group.
    fn equals(self, other: Self) -> bool
        ensures { MatchBool result (self ≡ other) (self ≢ other) };

    ghost group: { Laws lawful identity compose inverse };
}
