//! Identifiers of ASCII and of Unicode.
ghost use Rattle.std.specs.Prelude.{◌≡◌, [], ◌∷◌, ◌||◌, ◌==◌, ⊤, codes};
ghost use Rattle.std.specs.Char.{is_ascii_alphabetic, is_ascii_alphanumeric};
ghost use Rattle.chumsky_input.specs.Wanted.{Label};
ghost use Rattle.unicode_ident.specs.Ident.{is_xid_start, is_xid_continue};

use crate::chars::Char;
use crate::kind::{Kind, Lexeme};
use chumsky_input::util::Plain;
use unicode_ident::{is_xid_continue, is_xid_start};

/// An identifier of ASCII: a letter or `_`, and then letters, digits and `_`.
#[derive(Clone, Copy, Debug)]
pub struct AsciiIdent;

impl<T: Char> Kind<T> for AsciiIdent {
    ghost fits = { λ _. ⊤ };

    ghost holds = { λ _ t. is_ascii_alphabetic (T.code t) || (T.code t == 95) };

    ghost wants = { λ _. Label (codes "identifier") ∷ [] };

    #[inline]
    fn test(&self, token: &T) -> bool {
        let char = token.to_char();
        char.is_ascii_alphabetic() || char == '_'
    }

    #[inline]
    fn expected(&self) -> Plain<'_> {
        Plain::Label("identifier")
    }
}

/// What follows the first character of an identifier of ASCII.
#[derive(Clone, Copy, Debug)]
pub struct AsciiIdentRest;

impl<T: Char> Kind<T> for AsciiIdentRest {
    ghost fits = { λ _. ⊤ };

    ghost holds = { λ _ t. is_ascii_alphanumeric (T.code t) || (T.code t == 95) };

    ghost wants = { λ _. [] };

    #[inline]
    fn test(&self, token: &T) -> bool {
        let char = token.to_char();
        char.is_ascii_alphanumeric() || char == '_'
    }

    #[inline]
    fn expected(&self) -> Plain<'_> {
        Plain::Nothing
    }
}

impl<T: Char> Lexeme<T> for AsciiIdent {
    type Rest = AsciiIdentRest;

    ghost rest_after = { λ _ _. record {} };

    #[inline]
    fn rest(&self, _first: &T) -> AsciiIdentRest {
        AsciiIdentRest
    }
}

/// An identifier of Unicode: a character of `XID_Start` or `_`, and then characters of `XID_Continue`.
#[derive(Clone, Copy, Debug)]
pub struct UnicodeIdent;

impl Kind<char> for UnicodeIdent {
    ghost fits = { λ _. ⊤ };

    ghost holds = { λ _ c. is_xid_start c || (c == 95) };

    ghost wants = { λ _. Label (codes "identifier") ∷ [] };

    #[inline]
    fn test(&self, token: &char) -> bool {
        is_xid_start(*token) || *token == '_'
    }

    #[inline]
    fn expected(&self) -> Plain<'_> {
        Plain::Label("identifier")
    }
}

/// What follows the first character of an identifier of Unicode.
#[derive(Clone, Copy, Debug)]
pub struct UnicodeIdentRest;

impl Kind<char> for UnicodeIdentRest {
    ghost fits = { λ _. ⊤ };

    ghost holds = { λ _ c. is_xid_continue c };

    ghost wants = { λ _. [] };

    #[inline]
    fn test(&self, token: &char) -> bool {
        is_xid_continue(*token)
    }

    #[inline]
    fn expected(&self) -> Plain<'_> {
        Plain::Nothing
    }
}

impl Lexeme<char> for UnicodeIdent {
    type Rest = UnicodeIdentRest;

    ghost rest_after = { λ _ _. record {} };

    #[inline]
    fn rest(&self, _first: &char) -> UnicodeIdentRest {
        UnicodeIdentRest
    }
}
