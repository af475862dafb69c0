//! Identifiers and keywords of ASCII.
ghost use Rattle.std.specs.Prelude.{◌≡◌};

use crate::ident::AsciiIdent;
use crate::keyword::Keyword;
use crate::make::word_of;
use crate::word::Word;
use std::marker::PhantomData;

/// An identifier of ASCII: a letter or `_`, and then the longest run of letters, digits and `_`; gives its slice. On
/// `"a1-b"` it takes `a1`.
#[inline]
pub fn ident<I, E>() -> Word<AsciiIdent, I, E> {
    word_of(AsciiIdent)
}

/// The identifier that is this word, and no longer one that begins with it; gives its slice. `keyword("let")` takes the
/// word of `"let x"`, and fails on `"letter"`. A word that is no identifier is never found.
#[inline]
pub fn keyword<'k, I, E>(word: &'k str) -> Keyword<'k, AsciiIdent, I, E>
    ensures { result.word.now ≡ word.now }
{
    Keyword {
        word,
        kind: AsciiIdent,
        of: PhantomData,
    }
}
