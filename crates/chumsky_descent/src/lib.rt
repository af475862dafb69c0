//! Functions that call themselves, as parsers, and parts of a grammar that say which texts they take.
#![tactic(auto)]

pub mod exact_part;
pub mod hole;
pub mod laws;
pub mod moving;
pub mod recursive;
