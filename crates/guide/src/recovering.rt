//! Texts of which each line that is wrong is reported in one run.
use chumsky::combinator::{Part, part_of, run_part};
use chumsky::extra::RichText;
use chumsky::input::TextRef;
use chumsky::prelude::*;
use chumsky::primitive::Reader;
use chumsky::{Failure, PResult, Stop};
use std::alloc::Global;

/// A number that a byte holds.
#[derive(Clone, Copy)]
pub struct Byte;

impl<'src> IsParser<&'src str, u8, RichText> for Byte {}

impl<'src> Part<'src, &'src str, u8, RichText> for Byte {
    fn run(&self, wanted: bool, inp: &mut TextRef<'src, '_, RichText>) -> PResult<Option<u8>> {
        let byte = text::int(10)
            .from_str::<u8>()
            .filter_map(|read| read.ok())
            .labelled("a number below 256");
        run_part(&byte, wanted, inp)
    }
}

/// Numbers, each with an end of a line. In the place of a line that is none there is `None`, and an error.
pub fn numbers(
    alloc: Global,
    text: &str,
) -> Result<ParseResult<Vec<Option<u8>>, Rich<char>>, Stop> {
    let line = part_of(Byte).then_ignore(just('\n')).map(Some).recover_with(skip_until(
        none_of("\n").ignored(),
        just('\n').ignored(),
        || None,
    ));
    line.repeated().collect::<Vec<_>>().parse(alloc, text)
}

/// Reads a number and the end of its line. Of another line it emits the error, and goes on from where the number was left.
#[derive(Clone, Copy)]
pub struct AnyLine;

impl<'src> Reader<'src, &'src str, Option<u8>, RichText> for AnyLine {
    fn read(
        &self,
        inp: &mut TextRef<'src, '_, RichText>,
    ) -> Result<Option<u8>, Failure<Rich<char>>> {
        match inp.parse(part_of(Byte).then_ignore(just('\n'))) {
            Ok(number) => Ok(Some(number)),
            Err(Failure::Error(error)) => {
                inp.check(none_of("\n").repeated().then(just('\n')))?;
                inp.emit(error)?;
                Ok(None)
            }
            Err(Failure::Stop(stop)) => Err(Failure::Stop(stop)),
        }
    }
}

/// The same numbers, by a reader.
pub fn numbers_read(
    alloc: Global,
    text: &str,
) -> Result<ParseResult<Vec<Option<u8>>, Rich<char>>, Stop> {
    custom_by(AnyLine)
        .repeated()
        .collect::<Vec<_>>()
        .parse(alloc, text)
}
