//! Ordered choice among any number of parsers.
#![tactic(auto)]

pub mod alternatives;
mod among;
pub mod choice;
pub mod laws;
pub mod lists;
pub mod make;
mod moves;
mod step;
pub mod tuples;
