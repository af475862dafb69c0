//! Parsers whose outputs are the slices of what they took.
ghost use Rattle.std.specs.Prelude.{◌≡◌, List};
ghost use Rattle.chumsky_parser.specs.Slices.{IsSliceOf};

use crate::kind::Lexeme;
use crate::word::Word;
use chumsky_context::to_slice::ToSlice;
use chumsky_input::extra::ParserExtra;
use chumsky_input::input::SliceInput;
use chumsky_parser::parser::Parser;

/// A parser that gives for each word that it takes the word's slice, as `text::int(10)` does, and `digits.to_slice()`.
pub trait Sliced<'src, I: SliceInput<'src>, E: ParserExtra<I>>: Parser<'src, I, I::Slice, E> {
    /// What a word stands for is its slice.
    ghost sliced: { (p : Self) (w : List I.Token) (v : I.Slice) → (Self.language p).stands_for w v → IsSliceOf (λ l i j s. I.slice_seen s ≡ I.slice_of l i j) w v };
}

impl<'src, K: Lexeme<I::Token>, I: SliceInput<'src>, E: ParserExtra<I>> Sliced<'src, I, E>
    for Word<K, I, E> {
    ghost sliced = { λ p w v s. s.1 };
}

impl<'src, I: SliceInput<'src>, O, E: ParserExtra<I>, A: Parser<'src, I, O, E>> Sliced<'src, I, E>
    for ToSlice<A, O> {
    ghost sliced = { λ p w v s. s.1 };
}
