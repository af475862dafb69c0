//! Parsers in turn, given together as a tuple or an array.
#![tactic(auto)]

pub mod arrays;
pub mod group;
pub mod laws;
pub mod make;
mod moves;
mod next;
pub mod parts;
pub mod tuples;
