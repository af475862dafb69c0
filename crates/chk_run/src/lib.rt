//! What the program `chk` does, over any input and any outputs: its grammars, and how their answers print.
#![tactic(auto)]

mod ab;
mod grammar;
mod list;
pub mod look;
mod loops;
mod request;
pub mod run;
mod settings;
pub mod show;
mod texts;
