//! Texts and slices of tokens.
use chumsky::Stop;
use chumsky::extra::RichText;
use chumsky::prelude::*;
use std::alloc::Global;

/// The two characters of the text: an `a` and a `b`, or a `b` and any character.
pub fn pair(alloc: Global, text: &str) -> Result<ParseResult<(char, char), Rich<char>>, Stop> {
    let parser = just::<_, _, RichText>('a')
        .then(just('b'))
        .or(just('b').then(any()));
    parser.parse(alloc, text)
}

/// One of three words.
pub fn keyword(alloc: Global, text: &str) -> Result<ParseResult<&'static str, Rich<char>>, Stop> {
    choice((just::<_, _, RichText>("let"), just("fn"), just("if"))).parse(alloc, text)
}

/// A one and a two.
pub fn one_two(alloc: Global, bytes: &[u8]) -> Result<ParseResult<[u8; 2], Simple<u8>>, Stop> {
    just::<_, _, extra::Err<Simple<u8>>>([1u8, 2]).parse(alloc, bytes)
}
