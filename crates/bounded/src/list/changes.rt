//! Making a bounded list.
ghost use Rattle.std.specs.Prelude.{◌≡◌, ◌<◌, ◌≤◌, [], ◌∷◌, ◌++◌, length, MatchResult};
ghost use Rattle.bounded.specs.Items.{items};

use crate::list::Bounded;

impl<T: Copy, const N: usize> Bounded<T, N> {
    /// The empty list; `spare` fills the slots.
    pub fn new(spare: T) -> Bounded<T, N>
        ensures { items result ≡ [] }
    {
        Bounded {
            slots: [spare; N],
            len: 0,
        }
    }

    /// One more element at the end; where the list is full, it stays as it was and the element comes back.
    pub fn push(&mut self, x: T) -> Result<(), T>
        ensures { MatchResult result
            (λ _. (length (items self.old) < N) × (items self.new ≡ items self.old ++ x ∷ []))
            (λ y. (N ≤ length (items self.old)) × (y ≡ x) × (items self.new ≡ items self.old)) }
    {
        // This way round a caller that drops what comes back is spared its copy.
        if self.len < N {
            self.slots[self.len] = x;
            self.len += 1;
            Ok(())
        } else {
            Err(x)
        }
    }
}
