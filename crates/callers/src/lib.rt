//! A caller of each builder that `guide` does not run, each proved: a user's function with it is.
#![tactic(auto)]

pub mod builders;
pub mod by_value;
pub mod under;
