//! Items as text again.
use crate::syntax::Expression;
use chumsky::span::SimpleSpan;
use std::fmt;
use std::fmt::{Display, Formatter};

/// An item as text in one line, with brackets around a sign and its operands. Numbers, names, quotations and what is wrong are as
/// they stand in the text: of `a+2 *b` it is `(a + (2 * b))`.
#[derive(Clone, Copy)]
pub struct ItemText<'a> {
    /// The text that the item was read from.
    pub text: &'a str,
    pub item: &'a Expression,
}

impl Display for ItemText<'_> {
    fn fmt<W: fmt::Write>(&self, f: &mut Formatter<W>) -> fmt::Result {
        write_item(f, self.text, self.item)
    }
}

/// What stands at a span of a text.
fn piece(text: &str, span: SimpleSpan) -> &str {
    text.get(span.start..span.end).unwrap_or("")
}

/// Writes an item or a part of one.
fn write_item<W: fmt::Write>(f: &mut Formatter<W>, text: &str, item: &Expression) -> fmt::Result {
    match item {
        Expression::Number(_, span)
        | Expression::Name(span)
        | Expression::Text(span)
        | Expression::Wrong(span) => write!(f, "{}", piece(text, *span)),
        Expression::Negative(operand, _) => {
            write!(f, "-")?;
            write_item(f, text, operand)
        }
        Expression::Binary(sign, left, right, _) => {
            write!(f, "(")?;
            write_item(f, text, left)?;
            write!(f, " {sign} ")?;
            write_item(f, text, right)?;
            write!(f, ")")
        }
        Expression::Let(name, value, _) => {
            write!(f, "let {} = ", piece(text, *name))?;
            write_item(f, text, value)
        }
        Expression::Call(callee, arguments, _) => {
            write_item(f, text, callee)?;
            write!(f, "(")?;
            for (index, argument) in arguments.iter().enumerate() {
                write!(f, "{}", before(index, ", "))?;
                write_item(f, text, argument)?;
            }
            write!(f, ")")
        }
        Expression::Block(items, _) => {
            write!(f, "{{")?;
            for (index, item) in items.iter().enumerate() {
                write!(f, "{}", before(index, "; "))?;
                write_item(f, text, item)?;
            }
            write!(f, "}}")
        }
    }
}

/// What stands before one of several that have this between them.
fn before(index: usize, between: &str) -> &str {
    if index > 0 { between } else { "" }
}
