//! How a file is opened.
ghost use Rattle.std.specs.Str.{chars};
ghost use Rattle.chumsky.specs.Accepted.{Exactly, NeverRefuses};
ghost use Rattle.exact.specs.Access.{IsAccess};

use chumsky::Stop;
use chumsky::extra::EmptyText;
use chumsky::prelude::*;
use std::alloc::Global;

/// What a file is opened for.
#[derive(Clone, Copy, Debug, PartialEq)]
pub enum Purpose {
    Read,
    Write,
}

/// What a file holds.
#[derive(Clone, Copy, Debug, PartialEq)]
pub enum Content {
    Text,
    Bytes,
}

/// How a file is opened, as `rb`: `r` or `w` for the purpose, and `t` or `b` for the content, in either order. Of any text but
/// these eight there is no output. A run over one of the eight is never refused.
pub fn parse_access(
    alloc: Global,
    text: &str,
) -> Result<ParseResult<(Purpose, Content), EmptyErr>, Stop>
    ensures exact { Exactly IsAccess (chars text.now) result }
    ensures answered { NeverRefuses IsAccess (chars text.now) result }
{
    let purpose = just::<_, &str, EmptyText>("r")
        .to(Purpose::Read)
        .or(just("w").to(Purpose::Write));
    let content = just("t").to(Content::Text).or(just("b").to(Content::Bytes));
    set((purpose, content)).parse(alloc, text)
}
