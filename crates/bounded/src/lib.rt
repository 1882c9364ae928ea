//! A list of at most `N` elements, without a heap.
#![tactic(auto)]

pub mod list;
