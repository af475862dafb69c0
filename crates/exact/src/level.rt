//! A setting of how much a program tells.
ghost use Rattle.std.specs.Str.{chars};
ghost use Rattle.chumsky.specs.Accepted.{Exactly, NeverRefuses};
ghost use Rattle.exact.specs.Level.{IsLevel};

use chumsky::Stop;
use chumsky::extra::EmptyText;
use chumsky::prelude::*;
use std::alloc::Global;

/// How much a program tells of itself.
#[derive(Clone, Copy, Debug, PartialEq)]
pub enum Level {
    Error,
    Warn,
    Info,
    Debug,
}

/// A setting, as `level=info`: of just four texts the output is their level, and of any other there is none. A run over one
/// of the four is never refused.
pub fn parse_level(alloc: Global, text: &str) -> Result<ParseResult<Level, EmptyErr>, Stop>
    ensures exact { Exactly IsLevel (chars text.now) result }
    ensures answered { NeverRefuses IsLevel (chars text.now) result }
{
    let level = choice((
        just::<_, &str, EmptyText>("error").to(Level::Error),
        just("warn").to(Level::Warn),
        just("info").to(Level::Info),
        just("debug").to(Level::Debug),
    ));
    just("level=").ignore_then(level).parse(alloc, text)
}
