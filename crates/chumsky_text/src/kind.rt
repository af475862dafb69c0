//! Kinds of tokens, which runs and words are made of.
ghost use Rattle.std.specs.Prelude.{◌≡◌, Bool, List, ◌≤◌};
ghost use Rattle.chumsky_input.specs.Wanted.{Wanted, plain_wanted};

use crate::chars::Char;
use crate::ident::{AsciiIdent, UnicodeIdent};
use crate::number::{Digits, Int};
use crate::space::{InlineWhitespace, LineEnd, Whitespace};
use chumsky_input::util::Plain;

/// A kind of tokens, and what is expected where one of it is wanted: `Digits { radix: 2 }` is one, for `run_of`.
pub trait Kind<T> {
    /// That tokens may be tested.
    ghost fits: { Self → Type 0 };

    /// Whether a token is of the kind.
    ghost holds: { Self → T → Bool };

    /// What is expected.
    ghost wants: { Self → List (Wanted T) };

    fn test(&self, token: &T) -> bool
        requires { fits self.now }
        ensures { result ≡ holds self.now token.now };

    /// `Plain::Nothing` where a run of the kind is to end without an error that tells what would have gone on.
    fn expected(&self) -> Plain<'_>
        ensures { plain_wanted result ≡ wants self.now };
}

/// A kind of first tokens, and for each of these a kind of tokens that may follow it: `AsciiIdent` is one, for `word_of`.
pub trait Lexeme<T>: Kind<T> {
    type Rest: Kind<T> + Copy;

    /// What may follow a first token.
    ghost rest_after: { Self → T → Self.Rest };

    fn rest(&self, first: &T) -> Self::Rest
        requires { Self.fits self.now }
        ensures is { result ≡ rest_after self.now first.now }
        ensures fit { Self.Rest.fits result };
}

/// Each token may be tested for white space, the end of a line and what an identifier is made of, and for digits where their
/// radix is from 2 to 36.
pub fn tokens_may_be_tested<T: Char>(
    digits: &Digits,
    int: &Int,
    whitespace: &Whitespace,
    inline_whitespace: &InlineWhitespace,
    line_end: &LineEnd,
    ascii_ident: &AsciiIdent,
    unicode_ident: &UnicodeIdent,
)
    ensures digits { 2 ≤ digits.now.radix → digits.now.radix ≤ 36 → ⟦<Digits as Kind<T>>⟧.fits digits.now }
    ensures int { 2 ≤ int.now.radix → int.now.radix ≤ 36 → ⟦<Int as Kind<T>>⟧.fits int.now }
    ensures whitespace { ⟦<Whitespace as Kind<T>>⟧.fits whitespace.now }
    ensures inline_whitespace { ⟦<InlineWhitespace as Kind<T>>⟧.fits inline_whitespace.now }
    ensures line_end { ⟦<LineEnd as Kind<T>>⟧.fits line_end.now }
    ensures ascii_ident { ⟦<AsciiIdent as Kind<T>>⟧.fits ascii_ident.now }
    ensures unicode_ident { ⟦<UnicodeIdent as Kind<char>>⟧.fits unicode_ident.now }
{}
