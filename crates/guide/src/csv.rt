//! CSV, as RFC 4180 has it: records of fields, of which one in quotes may hold commas, ends of lines, and quotes written twice.
use chumsky::extra::RichText;
use chumsky::prelude::*;
use std::alloc::Global;

/// A field, in quotes or without.
#[derive(Clone, Copy)]
struct Field;

impl<'src> IsParser<&'src str, String, RichText> for Field {}

impl<'src> Part<'src, &'src str, String, RichText> for Field {
    fn run(&self, wanted: bool, inp: &mut TextRef<'src, '_, RichText>) -> PResult<Option<String>> {
        let quoted = none_of("\"")
            .or(just("\"\"").to('"'))
            .repeated()
            .collect::<String>()
            .delimited_by(just('"'), just('"'));
        let plain = none_of(",\"\r\n").repeated().collect::<String>();
        run_part(&quoted.or(plain), wanted, inp)
    }
}

/// The records of a text, each a list of fields. An empty line is a record of one empty field; after the last end of a line
/// nothing need follow.
pub fn parse_csv(
    alloc: Global,
    text: &str,
) -> Result<ParseResult<Vec<Vec<String>>, Rich<char>>, Stop> {
    let record = part_of(Field).separated_by(just(',')).collect::<Vec<_>>();
    let records = any()
        .rewind()
        .ignore_then(record)
        .separated_by(just("\r\n").or(just("\n")))
        .allow_trailing()
        .collect::<Vec<_>>();
    records.parse(alloc, text)
}
