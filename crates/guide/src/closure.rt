//! A closure as a parser, and a reader.
use chumsky::extra::RichText;
use chumsky::input::TextRef;
use chumsky::prelude::*;
use chumsky::primitive::Reader;
use chumsky::{Failure, Stop};
use std::alloc::Global;

/// `true` of the text `foo`, and `false` of the empty text.
pub fn foo_or_nothing(alloc: Global, text: &str) -> Result<ParseResult<bool, Rich<char>>, Stop> {
    custom::<_, &str, bool, RichText>(|inp| {
        let before = inp.save()?;
        match inp.parse(just("foo")) {
            Ok(_) => Ok(true),
            Err(Failure::Error(_)) => {
                inp.rewind(&before)?;
                Ok(false)
            }
            Err(Failure::Stop(stop)) => Err(Failure::Stop(stop)),
        }
    })
    .parse(alloc, text)
}

/// An error with a message of one's own.
fn no_such_day(alloc: Global, span: SimpleSpan) -> Failure<Rich<char>> {
    match Rich::custom_in(alloc, span, "no such day") {
        Ok(error) => Failure::Error(error),
        Err(refused) => Failure::from(refused),
    }
}

/// A day of the week, by its number from 1 to 7.
pub fn day(alloc: Global, text: &str) -> Result<ParseResult<char, Rich<char>>, Stop> {
    custom::<_, &str, char, RichText>(|inp| {
        let before = inp.cursor();
        match inp.next()? {
            Some(number) if matches!(number, '1'..='7') => Ok(number),
            _ => Err(no_such_day(inp.alloc(), inp.span_since(&before))),
        }
    })
    .parse(alloc, text)
}

/// Reads an `x` as a text.
#[derive(Clone, Copy)]
pub struct AnX;

impl<'src> Reader<'src, &'src str, &'static str, RichText> for AnX {
    fn read(
        &self,
        inp: &mut TextRef<'src, '_, RichText>,
    ) -> Result<&'static str, Failure<Rich<char>>> {
        match inp.check(just('x')) {
            Ok(()) => Ok("x"),
            Err(failure) => Err(failure),
        }
    }
}

/// One `x`, as a text.
pub fn one_x(alloc: Global, text: &str) -> Result<ParseResult<&'static str, Rich<char>>, Stop> {
    custom_by(AnX).parse(alloc, text)
}
