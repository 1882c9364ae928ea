//! Moves and members drawn from numbers that follow each other in a fixed order.
use groups::Group;
use groups::renaming::{NAMES, Renaming};
use groups::tick::Tick;

/// The number after x.
pub fn next(x: u64) -> u64 {
    x.wrapping_mul(6364136223846793005)
        .wrapping_add(1442695040888963407)
}

/// The eight bits of x from `at` on.
pub fn byte(x: u64, at: u32) -> u8 {
    (x.wrapping_shr(at) & 255) as u8
}

/// A move that is drawn from a number, and gives one.
pub trait Sample: Group + Into<u64> {
    fn draw(x: u64) -> Self;
}

impl Sample for Tick {
    fn draw(x: u64) -> Tick {
        Tick {
            count: ((x >> 16) & 0xffff_ffff) as u32,
        }
    }
}

impl Sample for Renaming {
    // Exchanges each name with one that is drawn.
    fn draw(x: u64) -> Renaming {
        let mut x = x;
        let mut drawn = Renaming::identity();
        for name in 0..NAMES {
            x = next(x);
            let other = (u16::from(byte(x, 40)) * u16::from(NAMES)) >> 8;
            drawn = drawn.compose(Renaming::exchange(name, other as u8));
        }
        drawn
    }
}
