//! Sheets: what tells one, what its entries mean, and when it is lawful.
#![tactic(auto)]

pub mod check;
pub mod command;
pub mod entry;
pub mod item;
pub mod source;
pub mod tables;
