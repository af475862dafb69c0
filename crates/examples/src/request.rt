//! The first line of an HTTP request, as `GET /index.html HTTP/1.1`.
ghost use Rattle.chumsky_exact.specs.Table.{IsOfTable};
ghost use Rattle.examples.specs.Request.{methods, versions};

use crate::words::{Word, word};
use chumsky::combinator::{Part, part_of, run_part};
use chumsky::extra::RichText;
use chumsky::input::TextRef;
use chumsky::prelude::*;
use chumsky::primitive::Choice;
use chumsky::{PResult, Stop};
use chumsky_parser::parser::Parser;
use std::alloc::Global;

/// What is to be done.
#[derive(Clone, Copy, Debug, PartialEq)]
pub enum Method {
    Get,
    Head,
    Post,
    Put,
    Delete,
}

/// The version of HTTP that is spoken.
#[derive(Clone, Copy, Debug, PartialEq)]
pub enum Version {
    Http10,
    Http11,
}

/// The first line of a request.
#[derive(Debug, PartialEq, Drop)]
pub struct Request {
    pub method: Method,
    pub target: String,
    pub version: Version,
}

/// The name of a method.
fn known_method<'src>() -> Choice<[Word<'src, Method>; 5]>
    ensures { IsOfTable (⟦<Choice<[Word<'src, Method>; 5]> as Parser<'src, &'src str, Method, RichText>>⟧.language result) methods }
{
    choice([
        word("GET", Method::Get),
        word("HEAD", Method::Head),
        word("POST", Method::Post),
        word("PUT", Method::Put),
        word("DELETE", Method::Delete),
    ])
}

/// The name of a version.
fn known_version<'src>() -> Choice<[Word<'src, Version>; 2]>
    ensures { IsOfTable (⟦<Choice<[Word<'src, Version>; 2]> as Parser<'src, &'src str, Version, RichText>>⟧.language result) versions }
{
    choice([
        word("HTTP/1.0", Version::Http10),
        word("HTTP/1.1", Version::Http11),
    ])
}

/// What is asked for, as it stands between two spaces.
#[derive(Clone, Copy)]
struct Target;

impl<'src> IsParser<&'src str, String, RichText> for Target {}

impl<'src> Part<'src, &'src str, String, RichText> for Target {
    fn run(&self, wanted: bool, inp: &mut TextRef<'src, '_, RichText>) -> PResult<Option<String>> {
        let target = none_of(" \r\n").repeated().at_least(1).collect::<String>();
        run_part(&target, wanted, inp)
    }
}

/// The first line of a request, with its line end.
pub fn parse_request(alloc: Global, text: &str) -> Result<ParseResult<Request, Rich<char>>, Stop> {
    group((
        known_method(),
        just(' '),
        part_of(Target),
        just(' '),
        known_version(),
        just("\r\n"),
    ))
    .map(|(method, _, target, _, version, _)| Request {
        method,
        target,
        version,
    })
    .parse(alloc, text)
}
