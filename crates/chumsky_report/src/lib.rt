//! Errors for people: where an error stands in a text, what was expected there and found, and the line with carets under it.
#![tactic(auto)]

pub mod in_text;
pub mod index;
pub mod line;
pub mod message;
pub mod report;
mod window;
