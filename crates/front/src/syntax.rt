//! Programs as trees. Each expression knows where it stands in the text.
use chumsky::span::SimpleSpan;
use std::fmt;
use std::fmt::{Display, Formatter};

/// An expression, and where it stands.
#[derive(Debug, Drop)]
pub enum Expression {
    Number(u64, SimpleSpan),
    /// A name or a quotation, which is the text of its span.
    Name(SimpleSpan),
    Text(SimpleSpan),
    /// What stands after a minus.
    Negative(Box<Expression>, SimpleSpan),
    /// A sign between two expressions.
    Binary(char, Box<Expression>, Box<Expression>, SimpleSpan),
    /// What is called, and the arguments.
    Call(Box<Expression>, Vec<Expression>, SimpleSpan),
    /// A name that is bound, as in `let a = 1`.
    Let(SimpleSpan, Box<Expression>, SimpleSpan),
    Block(Vec<Expression>, SimpleSpan),
    /// What stands where an item should be.
    Wrong(SimpleSpan),
}

impl Expression {
    /// Where it stands.
    pub fn span(&self) -> SimpleSpan {
        match self {
            Expression::Number(_, span) => *span,
            Expression::Name(span) => *span,
            Expression::Text(span) => *span,
            Expression::Negative(_, span) => *span,
            Expression::Binary(_, _, _, span) => *span,
            Expression::Call(_, _, span) => *span,
            Expression::Let(_, _, span) => *span,
            Expression::Block(_, span) => *span,
            Expression::Wrong(span) => *span,
        }
    }
}

/// An expression in brackets where it has parts, with its span after an `@`.
impl Display for Expression {
    fn fmt<W: fmt::Write>(&self, f: &mut Formatter<W>) -> fmt::Result {
        match self {
            Expression::Number(number, _) => write!(f, "{number}")?,
            Expression::Name(_) => write!(f, "name")?,
            Expression::Text(_) => write!(f, "text")?,
            Expression::Wrong(_) => write!(f, "wrong")?,
            Expression::Negative(operand, _) => write!(f, "-{operand}")?,
            Expression::Binary(sign, left, right, _) => write!(f, "({left} {sign} {right})")?,
            Expression::Let(name, value, _) => write!(
                f,
                "let {}..{} = {value}",
                name.start, name.end
            )?,
            Expression::Call(callee, arguments, _) => {
                write!(f, "{callee}(")?;
                for argument in arguments.iter() {
                    write!(f, "{argument},")?;
                }
                write!(f, ")")?;
            }
            Expression::Block(items, _) => {
                write!(f, "{{")?;
                for item in items.iter() {
                    write!(f, "{item};")?;
                }
                write!(f, "}}")?;
            }
        }
        let span = self.span();
        write!(f, "@{}..{}", span.start, span.end)
    }
}
