//! Facts to tell a union-find: i is j moved by `step`.
use crate::sample::{Sample, next};
use std::alloc::{AllocError, Global};

#[derive(Clone, Copy)]
pub struct Fact<M> {
    pub i: u8,
    pub j: u8,
    pub step: M,
}

// The members in a mixed order.
fn mixed(k: u64) -> u8 {
    (k.wrapping_mul(97).wrapping_add(13) & 255) as u8
}

// A fact about the two members that `pair` gives for each k, by a move drawn after the one before.
fn facts<M: Sample, F: Fn(u8, u64) -> (u8, u8)>(
    heap: Global,
    count: u8,
    pair: F,
) -> Result<Vec<Fact<M>>, AllocError>
    requires { F.IsAlwaysCallable pair }
{
    let mut facts = Vec::new(heap);
    let mut x = 1;
    for k in 0..count {
        x = next(x);
        let (i, j) = pair(k, x);
        let step = M::draw(x);
        facts.push(Fact { i, j, step })?;
    }
    Ok(facts)
}

/// Edges of a random tree over all members, in a mixed order: each fact is new.
pub fn random_facts<M: Sample>(heap: Global, count: u8) -> Result<Vec<Fact<M>>, AllocError> {
    facts(heap, count, |k, x| {
        let child = (u64::from(k) * 101 + 7) % 255 + 1;
        (mixed(child), mixed((x >> 33) % child))
    })
}

/// Each member told of the one below it, from the highest on.
pub fn falling_facts<M: Sample>(heap: Global) -> Result<Vec<Fact<M>>, AllocError> {
    // k is below 255, which a closure that may always be called does not know.
    facts(heap, 255, |k, _| (255 - k, 254u8.wrapping_sub(k)))
}
