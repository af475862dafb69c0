//! Grammars by rules whose contracts say exactly which texts they accept.
#![tactic(auto)]

pub mod addresses;
pub mod brackets;
pub mod trees;
