//! Tests of reading and writing, in a crate of their own so that the libraries are not proved twice.
#![tactic(auto)]

#[cfg(test)]
mod tests;
