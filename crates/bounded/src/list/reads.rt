//! What a bounded list holds.
ghost use Rattle.std.specs.Prelude.{◌≡◌, length};
ghost use Rattle.std.specs.List.{slice_get};
ghost use Rattle.bounded.specs.Items.{items};

use crate::list::Bounded;

impl<T: Copy, const N: usize> Bounded<T, N> {
    /// The elements, in their order.
    pub fn as_slice(&self) -> &[T]
        ensures { result.now ≡ items self.now }
    {
        &self.slots[..self.len]
    }

    /// How many elements there are.
    pub fn len(&self) -> usize
        ensures { result ≡ length (items self.now) }
    {
        self.len
    }

    /// Element `k`; nothing past the end.
    #[tactic(auto, using(crate::proofs::Fronts::fronts))]
    pub fn get(&self, k: usize) -> Option<T>
        ensures { result ≡ slice_get (items self.now) k }
    {
        self.as_slice().get(k).copied()
    }
}
