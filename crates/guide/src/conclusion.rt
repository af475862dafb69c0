//! What a caller can conclude.
ghost use Rattle.std.specs.Prelude.{◌≡◌, [], IfOk, IsOk, IsTrue, is_some, length, None, option_to_list};
ghost use Rattle.std.specs.Str.{chars};

use chumsky::Stop;
use chumsky::extra::EmptyText;
use chumsky::prelude::*;
use std::alloc::Global;

/// The two characters of a text. With no errors there is an output, and without an output there is one error.
pub fn two(alloc: Global, text: &str) -> Result<ParseResult<(char, char), EmptyErr>, Stop>
    ensures output { IfOk result (λ parsed. parsed.errors.items ≡ [] → IsTrue (is_some parsed.output)) }
    ensures errors { IfOk result (λ parsed. parsed.output ≡ None → length parsed.errors.items ≡ 1) }
{
    let parser = any::<_, EmptyText>().then(any());
    parser.parse(alloc, text)
}

/// The one character of a text. Where the text has one, the run asks for no memory, and is never refused.
pub fn one(alloc: Global, text: &str) -> Result<ParseResult<char, EmptyErr>, Stop>
    requires { length (chars text.now) ≡ 1 }
    ensures accepted { IsOk result }
    ensures output { IfOk result (λ parsed. option_to_list parsed.output ≡ chars text.now) }
    ensures errors { IfOk result (λ parsed. length parsed.errors.items ≡ 0) }
{
    any::<_, EmptyText>().parse(alloc, text)
}

/// Whether there is one, and nothing more. The same is said of it.
pub fn check_one(alloc: Global, text: &str) -> Result<ParseResult<(), EmptyErr>, Stop>
    requires { length (chars text.now) ≡ 1 }
    ensures accepted { IsOk result }
    ensures output { IfOk result (λ parsed. IsTrue (is_some parsed.output)) }
    ensures errors { IfOk result (λ parsed. length parsed.errors.items ≡ 0) }
{
    any::<_, EmptyText>().check(alloc, text)
}
