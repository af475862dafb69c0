//! Items one after another: an iterator over what a parser of items gives of a whole input, and the answer at its end.
#![tactic(auto)]

mod close;
pub mod laws;
pub mod parse_iter;
mod step;
