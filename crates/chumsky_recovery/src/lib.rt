//! Error recovery: where a parser fails, something else is parsed in its place, and its error is emitted.
#![tactic(auto)]

pub mod laws;
pub mod moves;
pub mod nested_delimiters;
pub mod recover_with;
pub mod skip_then_retry_until;
pub mod skip_until;
pub mod strategy;
mod turn;
pub mod via_parser;
