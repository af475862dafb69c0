//! Picking tokens.
use chumsky::Stop;
use chumsky::extra::RichText;
use chumsky::prelude::*;
use chumsky::primitive::Select;
use std::alloc::Global;

/// An `x`, and then the span of a character that is no `a`.
pub fn span_past_x(
    alloc: Global,
    text: &str,
) -> Result<ParseResult<(char, SimpleSpan), Rich<char>>, Stop> {
    let span: Select<_, &str, SimpleSpan, RichText> = select! {
        c = extra if c != 'a' => extra.span(),
    };
    just('x').then(span).parse(alloc, text)
}
