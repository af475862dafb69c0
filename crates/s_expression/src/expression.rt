//! Expressions, and what they are made of.
use std::alloc::Global;

/// An expression.
#[derive(Debug, Drop)]
pub enum Expression {
    Symbol(String),
    /// An integer, as its text.
    Number(String),
    Text(String),
    List(Vec<Expression>),
    /// What stands after a `'`.
    Quoted(Box<Expression>),
}

/// Expressions, the last of them quoted; an empty list, before there is one.
#[derive(Drop)]
pub struct AfterQuote {
    pub alloc: Global,
    pub quoted: Expression,
}
