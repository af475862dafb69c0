//! Labels: names for what a parser expects, which errors show in place of its own expectations.
#![tactic(auto)]

pub mod label_error;
pub mod labelled;
pub mod laws;
