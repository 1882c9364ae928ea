//! Trees with local names. So far the definitions, in specs/: names, trees, free names, renaming,
//! and equality up to bound names.
#![tactic(auto)]
