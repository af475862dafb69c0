//! Tokens.
ghost use Rattle.std.specs.Prelude.{◌≡◌, refl};

use chumsky::util::SameClone;
use std::fmt;
use std::fmt::{Display, Formatter};

/// A token.
#[derive(Clone, Copy, Debug, PartialEq, Drop)]
pub enum Token {
    Number(u64),
    /// Its text is that of its span, and so that of a quotation.
    Name,
    Text,
    Let,
    /// One of `+ - * / = , ; ( ) { }`.
    Sign(char),
}

/// All of a token counts.
impl SameClone for Token {
    ghost use Rattle.front.specs.declared.token.Token.{Token};

    ghost Seen = { Token };

    ghost seen = { λ token. token };

    ghost same = { ⟦<Token as PartialEq>⟧.eq };

    ghost clone_same = { λ x y e. e };

    ghost eq_same = { λ x y. refl };
}

impl Display for Token {
    fn fmt<W: fmt::Write>(&self, f: &mut Formatter<W>) -> fmt::Result {
        match self {
            Token::Number(number) => write!(f, "{number}"),
            Token::Name => write!(f, "a name"),
            Token::Text => write!(f, "a text"),
            Token::Let => write!(f, "let"),
            Token::Sign(sign) => write!(f, "{sign}"),
        }
    }
}
