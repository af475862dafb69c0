//! White space, and the ends of lines.
ghost use Rattle.std.specs.Prelude.{◌≡◌, false, [], ◌∷◌, ◌||◌, ◌==◌, cond, ⊤, codes};
ghost use Rattle.chumsky_input.specs.Wanted.{Label};

use crate::chars::Char;
use crate::kind::{Kind, Lexeme};
use chumsky_input::util::Plain;

/// White space of any kind, ends of lines too.
#[derive(Clone, Copy, Debug)]
pub struct Whitespace;

impl<T: Char> Kind<T> for Whitespace {
    ghost fits = { λ _. ⊤ };

    ghost holds = { λ _ t. T.is_space t };

    ghost wants = { λ _. Label (codes "whitespace") ∷ [] };

    #[inline]
    fn test(&self, token: &T) -> bool {
        token.is_whitespace()
    }

    #[inline]
    fn expected(&self) -> Plain<'_> {
        Plain::Label("whitespace")
    }
}

/// White space within a line: a space or a tab.
#[derive(Clone, Copy, Debug)]
pub struct InlineWhitespace;

impl<T: Char> Kind<T> for InlineWhitespace {
    ghost fits = { λ _. ⊤ };

    ghost holds = { λ _ t. (T.code t == 32) || (T.code t == 9) };

    ghost wants = { λ _. Label (codes "inline whitespace") ∷ [] };

    #[inline]
    fn test(&self, token: &T) -> bool {
        let char = token.to_char();
        char == ' ' || char == '\t'
    }

    #[inline]
    fn expected(&self) -> Plain<'_> {
        Plain::Label("inline whitespace")
    }
}

/// A token that ends a line. After a carriage return, a line feed is of the same end.
#[derive(Clone, Copy, Debug)]
pub struct LineEnd;

impl<T: Char> Kind<T> for LineEnd {
    ghost fits = { λ _. ⊤ };

    ghost holds = { λ _ t. T.ends_line t };

    ghost wants = { λ _. Label (codes "newline") ∷ [] };

    #[inline]
    fn test(&self, token: &T) -> bool {
        token.is_newline()
    }

    #[inline]
    fn expected(&self) -> Plain<'_> {
        Plain::Label("newline")
    }
}

/// What may follow a token that ends a line, and be of the same end: a line feed, after a carriage return.
#[derive(Clone, Copy, Debug)]
pub struct LineEndRest {
    pub carriage_return: bool,
}

impl<T: Char> Kind<T> for LineEndRest {
    ghost fits = { λ _. ⊤ };

    ghost holds = { λ k t. cond k.carriage_return (T.code t == 10) false };

    ghost wants = { λ _. [] };

    #[inline]
    fn test(&self, token: &T) -> bool {
        if self.carriage_return {
            token.to_char() == '\n'
        } else {
            false
        }
    }

    #[inline]
    fn expected(&self) -> Plain<'_> {
        Plain::Nothing
    }
}

impl<T: Char> Lexeme<T> for LineEnd {
    type Rest = LineEndRest;

    ghost rest_after = { λ _ t. record { carriage_return = T.code t == 13 } };

    #[inline]
    fn rest(&self, first: &T) -> LineEndRest {
        LineEndRest {
            carriage_return: first.to_char() == '\r',
        }
    }
}
