//! The parser that README.md begins with.
use chumsky::Stop;
use chumsky::extra::RichText;
use chumsky::prelude::*;
use chumsky::report::{LineIndex, Report};
use std::alloc::Global;

/// How much a program tells of itself.
#[derive(Clone, Copy, Debug, PartialEq)]
pub enum Level {
    Error,
    Warn,
    Info,
    Debug,
}

/// A setting, as `level=info`.
pub fn parse_level(alloc: Global, text: &str) -> Result<ParseResult<Level, Rich<char>>, Stop> {
    let level = choice((
        just::<_, &str, RichText>("error").to(Level::Error),
        just("warn").to(Level::Warn),
        just("info").to(Level::Info),
        just("debug").to(Level::Debug),
    ));
    just("level=").ignore_then(level).parse(alloc, text)
}

/// What a text sets, or each error, as it is shown to people.
pub fn tell_level(alloc: Global, text: &str) -> Result<String, Stop> {
    let parsed = parse_level(alloc, text)?;
    let mut told = String::new(alloc);
    if let Some(level) = parsed.output() {
        writeln!(told, "{level:?}")?;
    }
    let lines = LineIndex::new(alloc, text)?;
    for error in parsed.errors() {
        let report = Report {
            name: "settings",
            text: &lines,
            error,
        };
        writeln!(told, "{report}")?;
    }
    Ok(told)
}
