//! A grammar by a function that calls itself.
use chumsky::combinator::run_part;
use chumsky::extra::RichText;
use chumsky::input::TextRef;
use chumsky::prelude::*;
use chumsky::recursive::{RunsUnder, Unsaid};
use chumsky::{PResult, Stop};
use std::alloc::Global;

/// Any number of brackets, one after another and within one another: how deep they go.
fn brackets<'src>(
    inp: &mut TextRef<'src, '_, RichText>,
    wanted: bool,
    depth: usize,
) -> PResult<Option<usize>>
    ensures { ⟦<Unsaid as RunsUnder<'src, &'src str, usize, RichText>>⟧.runs depth wanted inp.old inp.new result }
{
    let pair = recursive(brackets, depth)
        .delimited_by(just('['), just(']'))
        .map(|inside: usize| inside.saturating_add(1));
    let deepest = pair
        .repeated()
        .fold(0, |deepest: usize, depth: usize| deepest.max(depth));
    run_part(&deepest, wanted, inp)
}

/// How deep the brackets of a text go. Where more than `limit` calls would be open at once, the run is refused.
pub fn depth(
    alloc: Global,
    text: &str,
    limit: usize,
) -> Result<ParseResult<usize, Rich<char>>, Stop> {
    recursive::<_, _, _, RichText>(brackets, limit).parse(alloc, text)
}
