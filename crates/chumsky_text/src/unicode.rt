//! Identifiers and keywords of Unicode.
ghost use Rattle.std.specs.Prelude.{◌≡◌};

use crate::ident::UnicodeIdent;
use crate::keyword::Keyword;
use crate::make::word_of;
use crate::word::Word;
use std::marker::PhantomData;

/// An identifier of Unicode: a character of `XID_Start` or `_`, and then the longest run of characters of `XID_Continue`;
/// gives its slice. On `"été-"` it takes `été`.
#[inline]
pub fn ident<I, E>() -> Word<UnicodeIdent, I, E> {
    word_of(UnicodeIdent)
}

/// The identifier that is this word, and no longer one that begins with it; gives its slice. `keyword("let")` takes the
/// word of `"let x"`, and fails on `"letter"`. A word that is no identifier is never found.
#[inline]
pub fn keyword<'k, I, E>(word: &'k str) -> Keyword<'k, UnicodeIdent, I, E>
    ensures { result.word.now ≡ word.now }
{
    Keyword {
        word,
        kind: UnicodeIdent,
        of: PhantomData,
    }
}
