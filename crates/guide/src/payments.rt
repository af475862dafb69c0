//! Lines of a file, of which each that is wrong is reported in one run.
use chumsky::combinator::{Part, part_of, run_part};
use chumsky::extra::RichText;
use chumsky::input::TextRef;
use chumsky::prelude::*;
use chumsky::{PResult, Stop};
use std::alloc::Global;

/// What somebody paid.
#[derive(Debug, PartialEq, Drop)]
pub struct Payment {
    pub id: u32,
    pub name: String,
    pub cents: u32,
}

/// A number that 32 bits hold.
#[derive(Clone, Copy)]
struct Number;

impl<'src> IsParser<&'src str, u32, RichText> for Number {}

impl<'src> Part<'src, &'src str, u32, RichText> for Number {
    fn run(&self, wanted: bool, inp: &mut TextRef<'src, '_, RichText>) -> PResult<Option<u32>> {
        let number = text::int(10)
            .from_str::<u32>()
            .filter_map(|number| number.ok())
            .labelled("a number");
        run_part(&number, wanted, inp)
    }
}

/// A payment, as `7;Ada;1250`, up to the end of its line.
#[derive(Clone, Copy)]
struct OfLine;

impl<'src> IsParser<&'src str, Payment, RichText> for OfLine {}

impl<'src> Part<'src, &'src str, Payment, RichText> for OfLine {
    fn run(&self, wanted: bool, inp: &mut TextRef<'src, '_, RichText>) -> PResult<Option<Payment>> {
        let letter = none_of(';').and_is(text::newline().not());
        let name = letter.repeated().at_least(1).collect::<String>();
        let line_end = text::newline().ignored().or(end());
        let payment = group((
            part_of(Number).then_ignore(just(';')),
            name.labelled("a name").then_ignore(just(';')),
            part_of(Number).then_ignore(line_end.rewind()),
        ));
        let payment = payment.map(|(id, name, cents)| Payment { id, name, cents });
        run_part(&payment, wanted, inp)
    }
}

/// The payments of a file, one on each line. A line that is none is an error, and those after it are read.
pub fn parse_payments(
    alloc: Global,
    file: &str,
) -> Result<ParseResult<Vec<Payment>, Rich<char>>, Stop> {
    let other = any()
        .and_is(text::newline().not())
        .repeated()
        .at_least(1)
        .map(|_| None);
    let line = part_of(OfLine).map(Some).recover_with(via_parser(other));
    line.or_not()
        .separated_by(text::newline())
        .flatten()
        .flatten()
        .collect::<Vec<_>>()
        .parse(alloc, file)
}
