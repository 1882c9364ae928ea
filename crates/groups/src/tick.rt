//! Ticks: delays on a clock of 32 bits, which starts again after its last tick.
ghost use Rattle.std.specs.Prelude.{◌≡◌, ◌<◌, ◌^◌, OkIff};
ghost use Rattle.groups.specs.Ticks.{LawfulTick, no_ticks, add_ticks, minus_ticks, tick_laws};

use crate::Group;
use std::num::TryFromIntError;

/// A number of ticks, modulo 2 ^ 32.
#[derive(Clone, Copy, PartialEq, Eq, Debug)]
pub struct Tick {
    pub count: u32,
}

impl Group for Tick {
    ghost lawful = { LawfulTick };

    ghost identity = { no_ticks };

    ghost compose = { add_ticks };

    ghost inverse = { minus_ticks };

    ghost group = { tick_laws };

    // Every number of 32 bits is a tick.
    fn is_lawful(self) -> bool {
        true
    }

    fn identity() -> Tick {
        Tick { count: 0 }
    }

    fn compose(self, other: Tick) -> Tick {
        Tick {
            count: self.count.wrapping_add(other.count),
        }
    }

    fn inverse(self) -> Tick {
        Tick {
            count: self.count.wrapping_neg(),
        }
    }

    fn equals(self, other: Tick) -> bool {
        self == other
    }
}

impl From<Tick> for u64 {
    ghost from_gives = { λ t n. n ≡ t.count };

    fn from(tick: Tick) -> u64 {
        u64::from(tick.count)
    }
}

/// Every number below 2 ^ 32 is a tick.
impl TryFrom<u64> for Tick {
    type Error = TryFromIntError;

    ghost try_from_gives = { λ n r. OkIff r (n < 2 ^ 32) (record { count = n }) };

    fn try_from(number: u64) -> Result<Tick, TryFromIntError> {
        let count = u32::try_from(number)?;
        Ok(Tick { count })
    }
}
