//! Types of a caller's own, which meet what parsers ask of them: an error, states and readers.
#![tactic(auto)]

pub mod choices;
pub mod merges;
pub mod readers;
pub mod states;
