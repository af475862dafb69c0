//! The items that docs/GUIDE.md shows, and the parser that README.md begins with, as they stand there; and laws called at
//! parsers and at grammars.
#![tactic(auto)]

pub mod arithmetic;
pub mod calculator;
pub mod checking;
pub mod closure;
pub mod conclusion;
pub mod contexts;
pub mod csv;
pub mod descent;
pub mod extras;
pub mod file_lines;
pub mod flattening;
pub mod folding;
pub mod forms;
pub mod handed;
pub mod laws;
pub mod mapping;
pub mod operators;
pub mod parts;
pub mod payments;
pub mod picking;
pub mod readme;
pub mod recovering;
pub mod recursion;
pub mod repeating;
pub mod running;
pub mod stepping;
pub mod tokens;
pub mod words;
