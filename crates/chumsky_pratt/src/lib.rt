//! Operators by precedence.
#![tactic(auto)]

pub mod fixity;
pub mod folder_with;
pub mod folders;
mod kinds;
pub mod laws;
pub mod list;
mod machine;
pub mod make;
mod opening;
pub mod operands;
pub mod operator;
pub mod operator_with;
pub mod pratt;
pub mod row;
pub mod rows;
mod steps;
mod way;
