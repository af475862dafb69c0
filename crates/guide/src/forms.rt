//! Forms that the check takes: a parser in two places, a part that is handed a value, and outputs that borrow from the text.
use chumsky::combinator::{Part, part_of, run_part};
use chumsky::extra::RichText;
use chumsky::input::TextRef;
use chumsky::prelude::*;
use chumsky::{PResult, Stop};
use std::alloc::Global;

/// A digit, a `-` and a digit: one parser in two places.
pub fn range(alloc: Global, text: &str) -> Result<ParseResult<(char, char), Rich<char>>, Stop> {
    let digit = one_of::<_, &str, RichText>('0'..='9');
    (&digit)
        .then_ignore(just('-'))
        .then(&digit)
        .parse(alloc, text)
}

/// A character, or an `x` in its place.
#[derive(Clone, Copy)]
struct OrX(char);

impl<'src> IsParser<&'src str, char, RichText> for OrX {}

impl<'src> Part<'src, &'src str, char, RichText> for OrX {
    fn run(&self, wanted: bool, inp: &mut TextRef<'src, '_, RichText>) -> PResult<Option<char>> {
        run_part(&just(self.0).or(just('x')), wanted, inp)
    }
}

/// An `a` and a `b`, or an `x` in the place of either.
pub fn ab(alloc: Global, text: &str) -> Result<ParseResult<(char, char), Rich<char>>, Stop> {
    part_of(OrX('a')).then(part_of(OrX('b'))).parse(alloc, text)
}

/// A number, as its text, or a name.
#[derive(Debug, Clone, Copy, PartialEq, Drop)]
pub enum Word<'text> {
    Number(&'text str),
    Name(&'text str),
}

/// The number or the name that a text is.
pub fn word_of<'text>(
    alloc: Global,
    text: &'text str,
) -> Result<ParseResult<Word<'text>, Rich<char>>, Stop> {
    let number = text::int::<_, RichText>(10).map(Word::Number);
    let name = text::ascii::ident().map(Word::Name);
    number.or(name).parse(alloc, text)
}

/// How many of the words that were read are names.
pub fn names_in(parsed: ParseResult<Vec<Word<'_>>, Rich<char>>) -> usize {
    let mut names = 0usize;
    if let Some(words) = parsed.into_output() {
        for word in words {
            if let Word::Name(_) = word {
                names = names.saturating_add(1);
            }
        }
    }
    names
}
