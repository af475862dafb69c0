//! Grammars by rules of which it is known which texts they accept: the languages of their rules, and a parser that has them.
#![tactic(auto)]

pub mod exact;
pub mod steady;
