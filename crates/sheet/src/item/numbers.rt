//! The numbers of a tuple's parts.
ghost use Rattle.std.specs.Prelude.{◌≡◌};
ghost use Rattle.std.specs.List.{slice_get};
ghost use Rattle.sheet.specs.Parts.{parts};

use crate::item::Parts;

impl Parts {
    /// The parts, in their order.
    pub fn as_slice(&self) -> &[u8]
        ensures { result.now ≡ parts self.now }
    {
        &self.numbers[..self.numbers.len().min(usize::from(self.len))]
    }

    /// Part `k`; nothing past the last.
    pub fn get(self, k: u8) -> Option<u8>
        ensures { result ≡ slice_get (parts self) k }
    {
        self.as_slice().get(usize::from(k)).copied()
    }
}
