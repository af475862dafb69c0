//! A method of HTTP.
ghost use Rattle.std.specs.Str.{chars};
ghost use Rattle.chumsky.specs.Accepted.{Exactly, NeverRefuses};
ghost use Rattle.exact.specs.Method.{IsMethod};

use chumsky::Stop;
use chumsky::extra::EmptyText;
use chumsky::prelude::*;
use std::alloc::Global;

/// What a request asks to be done.
#[derive(Clone, Copy, Debug, PartialEq)]
pub enum Method {
    Get,
    Head,
    Post,
    Put,
    Delete,
    Connect,
    Options,
    Trace,
}

/// A method, as `GET`: of just eight texts the output is their method, and of any other there is none. A run over one of the
/// eight is never refused.
pub fn parse_method(alloc: Global, text: &str) -> Result<ParseResult<Method, EmptyErr>, Stop>
    ensures exact { Exactly IsMethod (chars text.now) result }
    ensures answered { NeverRefuses IsMethod (chars text.now) result }
{
    let method = choice((
        just::<_, &str, EmptyText>("GET").to(Method::Get),
        just("HEAD").to(Method::Head),
        just("POST").to(Method::Post),
        just("PUT").to(Method::Put),
        just("DELETE").to(Method::Delete),
        just("CONNECT").to(Method::Connect),
        just("OPTIONS").to(Method::Options),
        just("TRACE").to(Method::Trace),
    ));
    method.parse(alloc, text)
}
