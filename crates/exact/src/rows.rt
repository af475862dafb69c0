//! Rows of bits.
ghost use Rattle.std.specs.Str.{chars};
ghost use Rattle.chumsky.specs.Accepted.{Exactly};
ghost use Rattle.exact.specs.Rows.{IsRows};

use chumsky::Stop;
use chumsky::extra::EmptyText;
use chumsky::prelude::*;
use std::alloc::Global;

/// The rows of a text such as `01,1`, with commas between them: each of characters `0` or `1`, of which it has one at least.
/// Of any other text there is no output.
pub fn parse_rows(alloc: Global, text: &str) -> Result<ParseResult<Vec<Vec<char>>, EmptyErr>, Stop>
    ensures { Exactly IsRows (chars text.now) result }
{
    let bits = one_of::<_, &str, EmptyText>("01").repeated().at_least(1);
    let row = bits.collect::<Vec<char>>();
    let rows = row.separated_by(just(","));
    rows.collect::<Vec<Vec<char>>>().parse(alloc, text)
}
