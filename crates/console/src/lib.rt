//! What programs share: their words, the text that they read, what they print and where, and the statuses that they end with.
#![tactic(auto)]

pub mod failure;
pub mod run;
pub mod text;
