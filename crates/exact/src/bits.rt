//! A text of bits.
ghost use Rattle.std.specs.Str.{chars};
ghost use Rattle.chumsky.specs.Accepted.{Exactly};
ghost use Rattle.exact.specs.Bits.{IsBits};

use chumsky::Stop;
use chumsky::extra::EmptyText;
use chumsky::prelude::*;
use std::alloc::Global;

/// The characters of a text, each a `0` or a `1`, of which there is one at least. Of any other text there is no output.
pub fn parse_bits(alloc: Global, text: &str) -> Result<ParseResult<Vec<char>, EmptyErr>, Stop>
    ensures { Exactly IsBits (chars text.now) result }
{
    let bits = one_of::<_, &str, EmptyText>("01").repeated().at_least(1);
    bits.collect::<Vec<char>>().parse(alloc, text)
}
