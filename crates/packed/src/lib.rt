//! Packed sheets: reading entries out of bytes, and writing them.
#![tactic(auto)]

pub mod reading;
pub mod source;
pub mod writing;
