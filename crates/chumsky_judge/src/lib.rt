//! Parsers that judge what another answers: that it must not be there, that its value must pass, that its errors are others.
#![tactic(auto)]

pub mod and_is;
pub mod filter;
pub mod filter_map;
pub mod laws;
pub mod map_err;
pub mod map_err_with;
pub mod map_err_with_state;
pub mod not;
pub mod pick_by;
mod refuse;
pub mod rewind;
pub mod test_by;
pub mod try_map;
pub mod try_map_with;
pub mod unwrapped;
pub mod validate;
