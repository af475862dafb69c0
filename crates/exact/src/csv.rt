//! Comma-separated values, as RFC 4180 has them.
ghost use Rattle.std.specs.Prelude.{◌≡◌, ℕ, List, [], ◌∷◌, None};
ghost use Rattle.std.specs.Str.{chars};
ghost use Rattle.chumsky.specs.Accepted.{Exactly};
ghost use Rattle.chumsky_exact.specs.ReadBack.{GivesBack};
ghost use Rattle.exact.specs.Csv.{HoldsCsv, IsCsv, records_of, without_line_end};

use crate::one_or_more::OneOrMore;
use chumsky::combinator::{Collect, DelimitedBy, IgnoreThen, Not, Or, Repeated, ThenIgnore};
use chumsky::error::Error;
use chumsky::extra::EmptyText;
use chumsky::input::{Input, TextRef};
use chumsky::inspector::Inspector;
use chumsky::prelude::*;
use chumsky::primitive::{Just, NoneOf};
use chumsky::{IsParser, PResult, Stop};
use chumsky_parser::parser::Parser;
use std::alloc::Global;
use std::marker::PhantomData;

/// The parser of one character.
pub type This<'src> = Just<char, &'src str, EmptyText>;

/// The parser of nothing, where a field may end: at a comma, at the end of a line, or at that of the text.
pub type FieldEnd<'src> = Not<NoneOf<[char; 3], &'src str, EmptyText>, char>;

/// The parser of a character between quotes, where two quotes stand for one.
pub type PieceParser<'src> = Or<
    NoneOf<char, &'src str, EmptyText>,
    IgnoreThen<This<'src>, This<'src>, char>,
>;

/// The parser of a field in quotes.
pub type QuotedParser<'src> = DelimitedBy<
    Collect<Repeated<PieceParser<'src>, char, &'src str, EmptyText>, char, String>,
    This<'src>,
    ThenIgnore<This<'src>, FieldEnd<'src>, ()>,
    char,
    char,
>;

/// The parser of a field without quotes.
pub type UnquotedParser<'src> = ThenIgnore<
    Collect<
        Repeated<NoneOf<[char; 4], &'src str, EmptyText>, char, &'src str, EmptyText>,
        char,
        String,
    >,
    FieldEnd<'src>,
    (),
>;

/// The parser of a field in quotes.
fn quoted_parser<'src>() -> QuotedParser<'src>
    ensures other { result.parser.parser.parser.first.seq ≡ 34 }
    ensures first_quote { result.parser.parser.parser.second.first.seq ≡ 34 }
    ensures second_quote { result.parser.parser.parser.second.second.seq ≡ 34 }
    ensures at_least { result.parser.parser.at_least ≡ 0 }
    ensures at_most { result.parser.parser.at_most ≡ None }
    ensures opening { result.opening.seq ≡ 34 }
    ensures closing { result.closing.first.seq ≡ 34 }
    ensures end { result.closing.second.parser.seq ≡ 44 ∷ 13 ∷ 10 ∷ [] }
{
    let quote = just('"').ignore_then(just('"'));
    let pieces = none_of('"').or(quote).repeated();
    let closing = just('"').then_ignore(none_of([',', '\r', '\n']).not());
    pieces.collect::<String>().delimited_by(just('"'), closing)
}

/// The parser of a field without quotes.
fn unquoted_parser<'src>() -> UnquotedParser<'src>
    ensures text_data { result.first.parser.parser.seq ≡ 44 ∷ 34 ∷ 13 ∷ 10 ∷ [] }
    ensures at_least { result.first.parser.at_least ≡ 0 }
    ensures at_most { result.first.parser.at_most ≡ None }
    ensures end { result.second.parser.seq ≡ 44 ∷ 13 ∷ 10 ∷ [] }
{
    let text_data = none_of([',', '"', '\r', '\n']).repeated();
    text_data
        .collect::<String>()
        .then_ignore(none_of([',', '\r', '\n']).not())
}

/// A field in quotes: a parser with a name, as the next, so that what holds it is checked by its name alone.
#[derive(Clone, Copy, Drop)]
pub struct Quoted;

impl<'src> IsParser<&'src str, String, EmptyText> for Quoted {}

impl<'src> Parser<'src, &'src str, String, EmptyText> for Quoted {
    ghost use Rattle.std.specs.Prelude.{⊤};
    ghost use Rattle.exact.specs.CsvFields.{quoted_meaning, quoted_language, quoted-lawful};

    ghost ready = { λ _. ⊤ };

    ghost meaning = { λ _ errors states. quoted_meaning ⟦<&'src str as Input<'src>>⟧ errors states };

    ghost steady = { λ _. ⊥ };

    ghost same = { λ _ _ _. ⊤ };

    ghost language = { λ _. quoted_language };

    ghost ends_after_start = { λ _. (quoted-lawful ⟦<&'src str as Input<'src>>⟧ ⟦<EmptyErr as Error<&'src str>>⟧ ⟦<() as Inspector<&'src str>>⟧).ends };

    ghost agrees = { λ _ never. absurd never };

    ghost accepts = { λ _. (quoted-lawful ⟦<&'src str as Input<'src>>⟧ ⟦<EmptyErr as Error<&'src str>>⟧ ⟦<() as Inspector<&'src str>>⟧).accepts };

    fn go_emit(&self, inp: &mut TextRef<'src, '_, EmptyText>) -> PResult<String> {
        quoted_parser().go_emit(inp)
    }

    fn go_check(&self, inp: &mut TextRef<'src, '_, EmptyText>) -> PResult<()> {
        quoted_parser().go_check(inp)
    }
}

/// A field without quotes.
#[derive(Clone, Copy, Drop)]
pub struct Unquoted;

impl<'src> IsParser<&'src str, String, EmptyText> for Unquoted {}

impl<'src> Parser<'src, &'src str, String, EmptyText> for Unquoted {
    ghost use Rattle.std.specs.Prelude.{⊤};
    ghost use Rattle.exact.specs.CsvFields.{unquoted_meaning, unquoted_language, unquoted-lawful};

    ghost ready = { λ _. ⊤ };

    ghost meaning = { λ _ errors states. unquoted_meaning ⟦<&'src str as Input<'src>>⟧ errors states };

    ghost steady = { λ _. ⊥ };

    ghost same = { λ _ _ _. ⊤ };

    ghost language = { λ _. unquoted_language };

    ghost ends_after_start = { λ _. (unquoted-lawful ⟦<&'src str as Input<'src>>⟧ ⟦<EmptyErr as Error<&'src str>>⟧ ⟦<() as Inspector<&'src str>>⟧).ends };

    ghost agrees = { λ _ never. absurd never };

    ghost accepts = { λ _. (unquoted-lawful ⟦<&'src str as Input<'src>>⟧ ⟦<EmptyErr as Error<&'src str>>⟧ ⟦<() as Inspector<&'src str>>⟧).accepts };

    fn go_emit(&self, inp: &mut TextRef<'src, '_, EmptyText>) -> PResult<String> {
        unquoted_parser().go_emit(inp)
    }

    fn go_check(&self, inp: &mut TextRef<'src, '_, EmptyText>) -> PResult<()> {
        unquoted_parser().go_check(inp)
    }
}

/// The text without the line end at its end, if it has one.
fn trimmed(text: &str) -> &str
    ensures { chars result.now ≡ without_line_end (chars text.now) }
{
    match text.strip_suffix('\n') {
        Some(line) => match line.strip_suffix('\r') {
            Some(shorter) => shorter,
            None => line,
        },
        None => text,
    }
}

/// The fields of a text such as `name,size` in each of its lines, record by record, as RFC 4180 has them. A field in quotes may
/// hold commas, line ends and quotes, of which each is written twice, as `"a ""b"", c"`; one without quotes has none of these, and
/// any other character, where the RFC has those of ASCII that print. A line ends in CRLF, as the RFC has it, or in LF alone. The
/// last one may be ended or not: a line end at the end of the text ends the record before it, and no empty one follows. So there
/// is one record at least, of one field at least: those of the empty text are one record of one empty field. Records needn't have
/// equally many fields. Of any other text, as where a quote stands in a field without quotes, or anything but a comma or a line
/// end after one in quotes, there is no output.
pub fn parse_csv(alloc: Global, text: &str) -> Result<ParseResult<Vec<Vec<String>>, EmptyErr>, Stop>
    ensures exact { Exactly HoldsCsv (chars text.now) result }
    ensures read_back { (records : List (List (List ℕ))) → IsCsv (chars text.now) records → GivesBack records_of records result }
{
    let record = OneOrMore {
        item: Quoted.or(Unquoted),
        separator: just(','),
        of: PhantomData,
    };
    let line_end = just('\r').or_not().ignore_then(just('\n'));
    let records = OneOrMore {
        item: record,
        separator: line_end,
        of: PhantomData,
    };
    records.parse(alloc, trimmed(text))
}
