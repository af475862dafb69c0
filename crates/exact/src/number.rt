//! A number below 2^32.
ghost use Rattle.std.specs.Str.{chars};
ghost use Rattle.chumsky.specs.Accepted.{Exactly, NeverRefuses};
ghost use Rattle.exact.specs.Number.{IsNumber};

use chumsky::Stop;
use chumsky::extra::EmptyText;
use chumsky::prelude::*;
use std::alloc::Global;

/// A number in decimal digits, without zeros before it: the output is the number that the whole text writes. There is none
/// where it writes none, or one that no `u32` holds; and a run over a number that one holds is never refused.
pub fn parse_number(alloc: Global, text: &str) -> Result<ParseResult<u32, EmptyErr>, Stop>
    ensures exact { Exactly IsNumber (chars text.now) result }
    ensures answered { NeverRefuses IsNumber (chars text.now) result }
{
    let digits = text::int::<&str, EmptyText>(10);
    digits.pick_by(text::decimal::<u32>()).parse(alloc, text)
}
