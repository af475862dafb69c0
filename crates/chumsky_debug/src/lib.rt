//! Rules that can be looked at: as EBNF, and as a railroad diagram.
#![tactic(auto)]

pub mod debug;
pub mod ebnf;
mod lines;
mod names;
pub mod railroad;
mod size;
mod tracks;
