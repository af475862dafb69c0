//! Parsers of text: white space, ends of lines, digits, numbers, identifiers and keywords.
#![tactic(auto)]

pub mod ascii;
pub mod chars;
pub mod decimal;
pub mod ident;
pub mod keyword;
pub mod kind;
pub mod make;
pub mod newline;
pub mod number;
pub mod padded;
pub mod run;
mod skip;
pub mod sliced;
pub mod space;
pub mod unicode;
pub mod word;
