//! What the programs `calc`, `format_json`, `format_lisp`, `format_program` and `show` do, over any input and any outputs.
#![tactic(auto)]

pub mod calc;
pub mod format_json;
pub mod format_lisp;
pub mod format_program;
pub mod show;
