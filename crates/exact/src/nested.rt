//! Pairs of brackets within one another, by a function that calls itself.
ghost use Rattle.std.specs.Prelude.{◌≡◌, ◌<◌, ℕ, suc, IsOk};
ghost use Rattle.std.specs.Str.{chars};
ghost use Rattle.chumsky.specs.Accepted.{ExactlyUnless};
ghost use Rattle.exact.specs.Nested.{nested, IsNested, IsTooDeep};

use chumsky::combinator::{DelimitedBy, Ignored, OrNot, run_part};
use chumsky::extra::EmptyText;
use chumsky::input::TextRef;
use chumsky::prelude::*;
use chumsky::primitive::Just;
use chumsky::recursive::{Body, Recursion, RunsUnder, recursive_as};
use chumsky::{PResult, Stop};
use chumsky_parser::parser::Parser;
use std::alloc::Global;

/// The parser of a pair of brackets, perhaps with what `P` takes in it.
pub type PairOf<'src, P> = Ignored<
    DelimitedBy<
        OrNot<P>,
        Just<char, &'src str, EmptyText>,
        Just<char, &'src str, EmptyText>,
        char,
        char,
    >,
    Option<()>,
>;

/// What the body of `pair` is.
#[derive(Drop)]
pub struct OfPair;

impl<'src, P: Parser<'src, &'src str, (), EmptyText>> Body<'src, &'src str, (), EmptyText, P>
    for OfPair {
    ghost use Rattle.chumsky_descent.specs.Body.{told};

    ghost body = { λ call. told ⟦<PairOf<'src, P> as Parser<'src, &'src str, (), EmptyText>>⟧ (record {
      parser = record { parser = record { parser = call }; opening = record { seq = 91; of = record {} }; closing = record { seq = 93; of = record {} }; of = record {} };
      of = record {};
    }) };
}

impl<'src> Recursion<'src, &'src str, (), EmptyText> for OfPair {
    ghost use Rattle.std.specs.Prelude.{codes};
    ghost use Rattle.chumsky_descent.specs.Exactly.{exactly};
    ghost use Rattle.chumsky_descent.specs.Lawful.{just-lawful, or_not-lawful, between-lawful, ignored-lawful};
    ghost use Rattle.exact.specs.contracts.nested.OfPairBodyRefStrUnitEmptyText.TheImpl.{ghosts, no_dict};
    ghost use denote.Builtin.{unit};
    ghost use Rattle.chumsky_exact.specs.ByCalls.{by_calls};

    ghost says = { λ errors states. exactly (λ call. (ghosts unit call no_dict).body tt) errors states by_calls
        (λ call l h. ignored-lawful (between-lawful (just-lawful (codes "[") _ _ _ _ _ _) (or_not-lawful h) (just-lawful (codes "]") _ _ _ _ _ _))) };
}

/// A pair of brackets, perhaps with another in it.
fn pair<'src>(
    inp: &mut TextRef<'src, '_, EmptyText>,
    wanted: bool,
    depth: usize,
) -> PResult<Option<()>>
    ensures { ⟦<OfPair as RunsUnder<'src, &'src str, (), EmptyText>>⟧.runs depth wanted inp.old inp.new result }
{
    let inside = recursive_as::<OfPair, _, _, _, _>(pair, depth).or_not();
    let pair = inside.delimited_by(just('['), just(']')).ignored();
    run_part(&pair, wanted, inp)
}

/// Accepts pairs of brackets within one another, as `[[[]]]`, and no other text. A run is refused for memory, or of a text that is
/// no pairs that `limit` calls suffice to read: one for each, and one that finds no other within.
pub fn parse_nested(
    alloc: Global,
    text: &str,
    limit: usize,
) -> Result<ParseResult<(), EmptyErr>, Stop>
    ensures exact { ExactlyUnless IsNested (chars text.now) (IsTooDeep limit (chars text.now)) result }
    ensures answered { (around : ℕ) → suc around < limit → chars text.now ≡ nested around → IsOk result }
{
    recursive_as::<OfPair, _, _, _, EmptyText>(pair, limit).parse(alloc, text)
}
