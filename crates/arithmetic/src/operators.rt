//! Sums by operators with their powers. What stands in brackets is a sum again, by a function that calls itself.
ghost use Rattle.std.specs.Prelude.{◌≡◌, [], Ok, Err, IfErr, IfOk, IsErrAnd, IsTrue, MatchResult, OkIff, is_some};
ghost use Rattle.chumsky_input.specs.Rich.{rich_span};
ghost use Rattle.arithmetic.specs.Steps.{signed, CanSign, made_by, CanMake};

use crate::leaves::{Number, Sign, Worked};
use crate::{Step, applied, prefixed};
use chumsky::combinator::{part_of, run_part};
use chumsky::extra::RichText;
use chumsky::input::TextRef;
use chumsky::pratt::{infix, left, prefix};
use chumsky::prelude::*;
use chumsky::recursive::{RunsUnder, Unsaid};
use chumsky::span::Spanned;
use chumsky::{PResult, Stop};
use std::alloc::Global;

/// A sign with a number after it.
fn step(sign: Spanned<char, SimpleSpan>, number: i64) -> Step
    ensures sign { result.sign ≡ sign.inner }
    ensures span { result.span ≡ sign.span }
    ensures number { result.number ≡ number }
{
    Step {
        sign: sign.inner,
        span: sign.span,
        number,
    }
}

/// What a minus makes of the number after it.
fn negative(minus: Spanned<char, SimpleSpan>, operand: Worked) -> Worked
    ensures number { IfOk operand (λ n. OkIff result (CanSign minus.inner n) (signed minus.inner n)) }
    ensures at_its_sign { IfOk operand (λ n. IfErr result (λ wrong. wrong.span ≡ minus.span)) }
    ensures as_before { IfErr operand (λ wrong. result ≡ Err wrong) }
{
    prefixed(step(minus, operand?))
}

/// What a sign makes of the numbers before and after it.
fn worked_out(before: Worked, sign: Spanned<char, SimpleSpan>, after: Worked) -> Worked
    ensures number { IfOk before (λ a. IfOk after (λ b. OkIff result (CanMake sign.inner a b) (made_by sign.inner a b))) }
    ensures at_its_sign { IfOk before (λ a. IfOk after (λ b. IfErr result (λ wrong. wrong.span ≡ sign.span))) }
    ensures first { IfErr before (λ wrong. result ≡ Err wrong) }
    ensures second { IfOk before (λ a. IfErr after (λ wrong. result ≡ Err wrong)) }
{
    applied(before?, step(sign, after?))
}

/// A number, or the error of what can't be worked out.
fn told(alloc: Global, worked: Worked) -> Result<i64, Rich<char>>
    ensures { MatchResult worked (λ number. result ≡ Ok number) (λ wrong. IsErrAnd result (λ error. rich_span error ≡ wrong.span)) }
{
    match worked {
        Ok(number) => Ok(number),
        Err(wrong) => match String::from_str(alloc, wrong.message) {
            Ok(message) => Err(Rich::custom(wrong.span, message)),
            Err(_) => Err(Rich::custom(wrong.span, String::new(alloc))),
        },
    }
}

/// Numbers, and sums in brackets, with signs between and before them.
pub fn run_sum<
    'src,
    P: IsParser<&'src str, i64, RichText> + Parser<'src, &'src str, i64, RichText>,
>(sum: &P, wanted: bool, inp: &mut TextRef<'src, '_, RichText>) -> PResult<Option<i64>>
    requires { P.ready sum.now }
    ensures { ⟦<Unsaid as RunsUnder<'src, &'src str, i64, RichText>>⟧.runs 0 wanted inp.old inp.new result }
{
    let alloc = inp.alloc();
    let number = part_of(Number).try_map(move |worked: Worked, _| told(alloc, worked));
    let bracketed = sum.delimited_by(part_of(Sign("(")), part_of(Sign(")")));
    let sum = number.or(bracketed).map(|number: i64| Ok(number)).pratt((
        prefix(3, part_of(Sign("-")), negative),
        infix(left(2), part_of(Sign("*/%")), worked_out),
        infix(left(1), part_of(Sign("+-")), worked_out),
    ));
    run_part(
        &sum.try_map(move |worked: Worked, _| told(alloc, worked)),
        wanted,
        inp,
    )
}

/// A sum.
fn sum<'src>(
    inp: &mut TextRef<'src, '_, RichText>,
    wanted: bool,
    depth: usize,
) -> PResult<Option<i64>>
    ensures { ⟦<Unsaid as RunsUnder<'src, &'src str, i64, RichText>>⟧.runs depth wanted inp.old inp.new result }
{
    run_sum(&recursive(sum, depth), wanted, inp)
}

/// How many sums may stand within one another.
const DEPTH: usize = 100;

/// The same as `parse_sum`, of which less is known: operators with their powers, which keep errors. A sum that is nested more deeply
/// than ninety-nine brackets is refused with `Stop::TooDeep`. Where there is no memory for the message of an error, it is empty.
pub fn read_by_powers(alloc: Global, text: &str) -> Result<ParseResult<i64, Rich<char>>, Stop>
    ensures { IfOk result (λ parsed. parsed.errors.items ≡ [] → IsTrue (is_some parsed.output)) }
{
    recursive::<_, _, _, RichText>(sum, DEPTH).parse(alloc, text)
}
