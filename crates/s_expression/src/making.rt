//! How expressions are made of what was read.
ghost use Rattle.std.specs.Prelude.{◌≡◌};
ghost use Rattle.std.specs.Str.{chars};
ghost use Rattle.s_expression.specs.Lisp.{are_digits, is_integer};
ghost use Rattle.s_expression.specs.Reading.{atom_of};

use crate::expression::{AfterQuote, Expression};
use chumsky::combinator::Mapper;
use chumsky::container::Container;
use std::alloc::{AllocError, Global};

/// Whether a text is digits, one at least.
fn are_digits(text: &str) -> bool
    ensures { result ≡ are_digits (chars text.now) }
{
    if text.is_empty() {
        return false;
    }
    text.chars().all(|character| character.is_ascii_digit())
}

/// Whether a text is digits, one at least, perhaps after a minus.
fn is_integer(text: &str) -> bool
    ensures { result ≡ is_integer (chars text.now) }
{
    match text.strip_prefix('-') {
        Some(digits) => are_digits(digits),
        None => are_digits(text),
    }
}

/// The number or the symbol that a word is.
pub fn atom_of(word: String) -> Expression
    ensures { result ≡ atom_of word }
{
    if is_integer(word.as_str()) {
        Expression::Number(word)
    } else {
        Expression::Symbol(word)
    }
}

impl Container<Expression> for AfterQuote {
    ghost use Rattle.s_expression.specs.Lisp.{QuotesLast};

    ghost holds = { λ items made. QuotesLast items made.quoted };

    ghost takes_no_memory = { ⊥ };

    fn new(alloc: Global) -> AfterQuote {
        AfterQuote {
            alloc,
            quoted: Expression::List(Vec::new(alloc)),
        }
    }

    fn push(&mut self, expression: Expression) -> Result<(), AllocError> {
        self.quoted = Expression::Quoted(Box::new(self.alloc, expression)?);
        Ok(())
    }
}

/// Makes a number or a symbol of a word.
#[derive(Clone, Copy, Drop)]
pub struct ToAtom;

impl Mapper<String, Expression> for ToAtom {
    ghost use Rattle.std.specs.Prelude.{◌≡◌};
    ghost use Rattle.s_expression.specs.Reading.{atom_of};

    ghost gives = { λ _ word expression. expression ≡ atom_of word };

    fn apply(&self, word: String) -> Expression {
        atom_of(word)
    }
}

/// Makes a text of its characters.
#[derive(Clone, Copy, Drop)]
pub struct ToText;

impl Mapper<String, Expression> for ToText {
    ghost use Rattle.std.specs.Prelude.{◌≡◌};
    ghost use Rattle.s_expression.specs.declared.expression.Expression.{Text};

    ghost gives = { λ _ text expression. expression ≡ Text text };

    fn apply(&self, text: String) -> Expression {
        Expression::Text(text)
    }
}

/// Makes a list of the expressions in it.
#[derive(Clone, Copy, Drop)]
pub struct ToList;

impl Mapper<Vec<Expression>, Expression> for ToList {
    ghost use Rattle.std.specs.Prelude.{◌≡◌};
    ghost use Rattle.s_expression.specs.declared.expression.Expression.{List};

    ghost gives = { λ _ items expression. expression ≡ List items };

    fn apply(&self, items: Vec<Expression>) -> Expression {
        Expression::List(items)
    }
}

/// Takes out what was quoted.
#[derive(Clone, Copy, Drop)]
pub struct ToQuoted;

impl Mapper<AfterQuote, Expression> for ToQuoted {
    ghost use Rattle.std.specs.Prelude.{◌≡◌};

    ghost gives = { λ _ made expression. expression ≡ made.quoted };

    fn apply(&self, made: AfterQuote) -> Expression {
        made.quoted
    }
}
