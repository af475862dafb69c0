//! Parsers that are run again and again.
use chumsky::Stop;
use chumsky::extra::RichText;
use chumsky::prelude::*;
use std::alloc::Global;

/// The text of one or more digits.
pub fn number(alloc: Global, text: &str) -> Result<ParseResult<String, Rich<char>>, Stop> {
    let digits = one_of::<_, _, RichText>('0'..='9')
        .repeated()
        .at_least(1)
        .collect::<String>();
    digits.parse(alloc, text)
}

/// Numbers with commas between them, in brackets: `[12,3]`. A comma may stand after the last.
pub fn numbers(alloc: Global, text: &str) -> Result<ParseResult<Vec<String>, Rich<char>>, Stop> {
    let list = one_of::<_, _, RichText>('0'..='9')
        .repeated()
        .at_least(1)
        .collect::<String>()
        .separated_by(just(','))
        .allow_trailing()
        .collect::<Vec<_>>()
        .delimited_by(just('['), just(']'));
    list.parse(alloc, text)
}
