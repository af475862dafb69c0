//! One value of many items.
use crate::mapping::digit;
use chumsky::Stop;
use chumsky::extra::RichText;
use chumsky::prelude::*;
use std::alloc::Global;

/// A sum of digits, as `1+2+3`. A sum past 255 is 255.
pub fn sum(alloc: Global, text: &str) -> Result<ParseResult<u8, Rich<char>>, Stop> {
    let first = one_of::<_, _, RichText>('0'..='9').map(digit);
    let added = just('+')
        .ignore_then(one_of('0'..='9').map(digit))
        .repeated();
    first
        .foldl(added, |sum, number| sum.saturating_add(number))
        .parse(alloc, text)
}

/// A number, and where it is written.
#[derive(Clone, Copy, Debug, PartialEq)]
pub struct Term {
    pub value: u8,
    pub span: SimpleSpan,
}

/// A sum of digits, as `1+2+3`, and its span. A sum past 255 is 255.
pub fn spanned_sum(alloc: Global, text: &str) -> Result<ParseResult<Term, Rich<char>>, Stop> {
    let number = one_of::<_, _, RichText>('0'..='9').map_with(|character, extra| Term {
        value: digit(character),
        span: extra.span(),
    });
    let added = just('+')
        .ignore_then(one_of('0'..='9').map(digit))
        .repeated();
    number
        .foldl_with(
            added,
            |sum: Term, number, extra| Term {
                value: sum.value.saturating_add(number),
                span: extra.span(),
            },
        )
        .parse(alloc, text)
}
