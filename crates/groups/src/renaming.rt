//! Renamings of names, packed into a number.
ghost use Rattle.std.specs.Prelude.{◌≡◌, Ok};
ghost use Rattle.groups.specs.Renamings.{image as image_of, LawfulRenaming, identity_renaming, compose_renamings, inverse_renaming, exchange as exchanged};
ghost use Rattle.groups.specs.RenamingsLemmas.{renaming_laws};

use crate::Group;
use std::convert::Infallible;

/// How many names there are: 0 to NAMES - 1.
pub const NAMES: u8 = 10;

/// A renaming of names: bits 4 i to 4 i + 3 are the image of name i.
#[derive(Clone, Copy, PartialEq, Eq, Debug)]
pub struct Renaming {
    pub bits: u64,
}

impl Renaming {
    /// The image of a name, for every number of 64 bits; 0 for what is past its bits.
    pub fn image(self, name: u8) -> u8
        ensures { result ≡ image_of self.bits name }
    {
        if name < 16 {
            ((self.bits >> (4 * name)) & 15) as u8
        } else {
            0
        }
    }

    /// The exchange of two names; the identity where one of them is no name.
    pub fn exchange(a: u8, b: u8) -> Renaming
        ensures is { result ≡ exchanged a b }
        ensures lawful { LawfulRenaming result }
    {
        let same = Renaming::identity();
        if a >= NAMES || b >= NAMES {
            return same;
        }
        // What differs between a and b turns each of them into the other.
        let turn = u64::from(a ^ b);
        Renaming {
            bits: same.bits ^ (turn << (4 * a)) ^ (turn << (4 * b)),
        }
    }
}

impl Group for Renaming {
    ghost lawful = { LawfulRenaming };

    ghost identity = { identity_renaming };

    ghost compose = { compose_renamings };

    ghost inverse = { inverse_renaming };

    ghost group = { renaming_laws };

    // Whether every name is an image and the higher bits are 0. No name is then the image of two,
    // since there are no more images than names.
    fn is_lawful(self) -> bool {
        let mut seen: u64 = 0;
        // This loop and the two below go over names, not over a slice: a fold over them is no plainer, nor is one loop for all
        // three, to which each would give its digits and their places as closures.
        for i in 0..NAMES {
            seen |= 1 << self.image(i);
        }
        seen == (1 << NAMES) - 1 && self.bits >> (4 * NAMES) == 0
    }

    #[tactic(auto, unfolding(crate::specs::Renamings::pack))]
    fn identity() -> Renaming {
        Renaming {
            // Each name at its own place.
            bits: 0x98_7654_3210,
        }
    }

    fn compose(self, other: Renaming) -> Renaming {
        let mut bits = 0;
        for i in 0..NAMES {
            bits |= u64::from(self.image(other.image(i))) << (4 * i);
        }
        Renaming { bits }
    }

    // Puts each name at the place of its image.
    fn inverse(self) -> Renaming {
        let mut bits = 0;
        for i in 0..NAMES {
            bits |= u64::from(i) << (4 * self.image(i));
        }
        Renaming { bits }
    }

    fn equals(self, other: Renaming) -> bool {
        self == other
    }
}

impl From<Renaming> for u64 {
    ghost from_gives = { λ x n. n ≡ x.bits };

    fn from(renaming: Renaming) -> u64 {
        renaming.bits
    }
}

/// Every number is a renaming, lawful or not; generic code reads it as it reads a tick.
impl TryFrom<u64> for Renaming {
    type Error = Infallible;

    ghost try_from_gives = { λ n r. r ≡ Ok (record { bits = n }) };

    fn try_from(bits: u64) -> Result<Renaming, Infallible> {
        Ok(Renaming { bits })
    }
}
