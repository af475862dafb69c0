//! Parsers of single tokens and of fixed sequences.
#![tactic(auto)]

pub mod any;
pub mod any_ref;
pub mod custom;
pub mod empty;
pub mod end;
pub mod just;
pub mod make;
pub mod none_of;
pub mod one_of;
pub mod select;
pub mod select_ref;
mod tested;
