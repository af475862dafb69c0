//! Settings, a line each.
ghost use Rattle.std.specs.Prelude.{List, map};
ghost use Rattle.std.specs.Str.{chars};
ghost use Rattle.chumsky.specs.Accepted.{Exactly};
ghost use Rattle.chumsky_exact.specs.ReadBack.{GivesBack};
ghost use Rattle.exact.specs.Pairs.{Pair, IsPairs, HoldsPairs, pairs_of};

use chumsky::Stop;
use chumsky::extra::EmptyText;
use chumsky::prelude::*;
use std::alloc::Global;

/// The names and numbers of a text such as `size=10`, one pair a line, of which the last may be ended too. Spaces and tabs may stand
/// around the name, the sign and the number, as in `  size =  10 `. The pairs are those that the text says, in order; where it says
/// none so, as where a line is empty, there is no output. Each text that pairs are written as, with whatever blanks, gives them back.
pub fn parse_pairs<'src>(
    alloc: Global,
    text: &'src str,
) -> Result<ParseResult<Vec<(&'src str, &'src str)>, EmptyErr>, Stop>
    ensures exact { Exactly HoldsPairs (chars text.now) result }
    ensures read_back { (ps : List Pair) → IsPairs (chars text.now) ps → GivesBack pairs_of ps result }
{
    let name = text::ascii::ident::<&str, EmptyText>();
    let sign = just("=").padded_by(text::inline_whitespace());
    let line_end = text::inline_whitespace().then_ignore(none_of("\n").not());
    let number = text::int(10).then_ignore(line_end);
    let pair = name.then_ignore(sign).then(number);
    let line = text::inline_whitespace().ignore_then(pair);
    let lines = line.separated_by(just("\n")).allow_trailing();
    lines.collect::<Vec<(&str, &str)>>().parse(alloc, text)
}
