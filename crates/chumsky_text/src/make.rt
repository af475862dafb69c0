//! The functions that make parsers of white space, ends of lines, digits and numbers.
ghost use Rattle.std.specs.Prelude.{◌≡◌};

use crate::newline::Newline;
use crate::number::{Digits, Int};
use crate::run::Run;
use crate::space::{InlineWhitespace, LineEnd, Whitespace};
use crate::word::Word;
use std::marker::PhantomData;

/// White space, as much as there is, be it none; gives its slice. On `" \n x"` it gives `" \n "`.
#[inline]
pub fn whitespace<I, E>() -> Run<Whitespace, I, E> {
    run_of(Whitespace)
}

/// Spaces and tabs, as many as there are, be it none; gives their slice. On `" \n x"` it gives `" "`.
#[inline]
pub fn inline_whitespace<I, E>() -> Run<InlineWhitespace, I, E> {
    run_of(InlineWhitespace)
}

/// The longest run of tokens of a kind, be it empty; gives its slice: `run_of(Whitespace)` is `whitespace()`.
#[inline]
pub fn run_of<K, I, E>(kind: K) -> Run<K, I, E>
    ensures { result.kind ≡ kind }
{
    Run {
        kind,
        of: PhantomData,
    }
}

/// One end of a line; gives its slice, `"\n"` or `"\r\n"` mostly. A carriage return by itself, a vertical tab and a form
/// feed end a line too, and of characters next line (U+0085), line separator (U+2028) and paragraph separator (U+2029).
#[inline]
pub fn newline<I, E>() -> Newline<LineEnd, I, E> {
    Newline {
        kind: LineEnd,
        of: PhantomData,
    }
}

/// Digits of a radix between 2 and 36, one at least; gives their slice. `digits(16)` takes `00fF`.
#[inline]
pub fn digits<I, E>(radix: u32) -> Word<Digits, I, E>
    ensures { result.kind.radix ≡ radix }
{
    word_of(Digits { radix })
}

/// A number of a radix between 2 and 36, without a sign; gives its slice. It is a zero alone, or digits of which the first
/// is no zero: on `"012"` it takes the zero.
#[inline]
pub fn int<I, E>(radix: u32) -> Word<Int, I, E>
    ensures { result.kind.radix ≡ radix }
{
    word_of(Int { radix })
}

/// A token of a kind and the longest run of what may follow it; gives its slice: `word_of(AsciiIdent)` is `ascii::ident()`.
#[inline]
pub fn word_of<K, I, E>(kind: K) -> Word<K, I, E>
    ensures { result.kind ≡ kind }
{
    Word {
        kind,
        of: PhantomData,
    }
}
