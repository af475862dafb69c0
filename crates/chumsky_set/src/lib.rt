//! Parsers in any order.
#![tactic(auto)]

pub mod array;
mod each;
pub mod laws;
pub mod list;
pub mod make;
mod mode;
pub mod moves;
mod part;
mod rounds;
mod row;
pub mod set;
