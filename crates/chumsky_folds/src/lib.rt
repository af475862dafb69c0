//! Folds over items: one value, made of all items of a parser.
#![tactic(auto)]

pub mod enumerate;
pub mod fold;
pub mod folder;
pub mod folder_with;
pub mod foldl;
pub mod foldl_with;
pub mod foldr;
pub mod foldr_with;
mod from_left;
pub mod laws;
pub mod try_foldl;
