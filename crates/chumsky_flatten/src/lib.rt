//! Items out of collections: those of an output, and those of each item.
#![tactic(auto)]

pub mod flatten;
pub mod into_iter;
pub mod laws;
