//! Operators by precedence.
ghost use Rattle.std.specs.Prelude.{All};

use chumsky::combinator::{Part, part_of, run_part};
use chumsky::extra::{ParserExtra, RichText};
use chumsky::input::{InputRef, TextRef};
use chumsky::pratt::{Operator, infix, infix_with, left, prefix};
use chumsky::prelude::*;
use chumsky::recursive::{RunsUnder, Unsaid};
use chumsky::{PResult, Stop};
use std::alloc::Global;

/// What two numbers come to, or nothing where an `i64` doesn't hold it.
fn work_out(a: Option<i64>, sign: char, b: Option<i64>) -> Option<i64> {
    let (Some(a), Some(b)) = (a, b) else {
        return None;
    };
    match sign {
        '+' => a.checked_add(b),
        '-' => a.checked_sub(b),
        '*' => a.checked_mul(b),
        _ => a.checked_div(b),
    }
}

/// The number of the other sign.
fn negative(_minus: char, a: Option<i64>) -> Option<i64> {
    match a {
        Some(a) => a.checked_neg(),
        None => None,
    }
}

/// What a sum comes to: `1 + 2 * -3` is `-5`.
pub fn sum(alloc: Global, text: &str) -> Result<ParseResult<i64, Rich<char>>, Stop> {
    let number = text::int::<_, RichText>(10).from_str::<i64>();
    let sum = number.map(|read| read.ok()).padded().pratt((
        prefix(3, just('-').padded(), negative),
        infix(left(2), one_of("*/").padded(), work_out),
        infix(left(1), one_of("+-").padded(), work_out),
    ));
    let held = sum.filter_map(|number| number);
    held.labelled("a number that 64 bits hold")
        .parse(alloc, text)
}

/// What two numbers come to, or the span of what an `i64` doesn't hold.
fn work_out_at(
    a: Result<i64, SimpleSpan>,
    sign: char,
    b: Result<i64, SimpleSpan>,
    span: SimpleSpan,
) -> Result<i64, SimpleSpan> {
    match work_out(Some(a?), sign, Some(b?)) {
        Some(number) => Ok(number),
        None => Err(span),
    }
}

/// What a sum comes to, or the span of the first operation in it that an `i64` doesn't hold: of `1+8/0` it is 2 to 5.
pub fn sum_or_span(
    alloc: Global,
    text: &str,
) -> Result<ParseResult<Result<i64, SimpleSpan>, Rich<char>>, Stop> {
    let number = text::int::<_, RichText>(10).from_str::<i64>();
    let number = number.map_with(|read, extra| match read {
        Ok(number) => Ok(number),
        Err(_) => Err(extra.span()),
    });
    let times = one_of::<_, &str, RichText>("*/");
    let plus = one_of::<_, &str, RichText>("+-");
    let sum = number.pratt((
        infix_with(
            left(2),
            times,
            |a, sign, b, extra| work_out_at(a, sign, b, extra.span()),
        ),
        infix_with(
            left(1),
            plus,
            |a, sign, b, extra| work_out_at(a, sign, b, extra.span()),
        ),
    ));
    sum.parse(alloc, text)
}

/// An expression with operators of one type, as many as a list of them has.
pub fn run_listed<'src, I, O, E, P, T>(
    atom: P,
    operators: &[T],
    wanted: bool,
    inp: &mut InputRef<'src, '_, I, E>,
) -> PResult<Option<O>>
where
    I: Input<'src>,
    I::Token: 'src,
    O: Drop,
    E: ParserExtra<I>,
    P: IsParser<I, O, E> + Parser<'src, I, O, E> + Drop,
    T: Operator<'src, I, O, E>,
    requires atom { P.ready atom }
    requires operators { All T.ready operators.now }
    ensures { ⟦<Unsaid as RunsUnder<'src, I, O, E>>⟧.runs 0 wanted inp.old inp.new result }
{
    run_part(&atom.pratt(operators), wanted, inp)
}

/// A sum whose operators stand in an array.
#[derive(Clone, Copy)]
struct ListedSum;

impl<'src> IsParser<&'src str, Option<i64>, RichText> for ListedSum {}

impl<'src> Part<'src, &'src str, Option<i64>, RichText> for ListedSum {
    fn run(
        &self,
        wanted: bool,
        inp: &mut TextRef<'src, '_, RichText>,
    ) -> PResult<Option<Option<i64>>> {
        let number = text::int(10).from_str::<i64>().map(|read| read.ok());
        let operators = [
            infix(left(2), one_of("*/"), work_out),
            infix(left(1), one_of("+-"), work_out),
        ];
        run_listed(number, &operators, wanted, inp)
    }
}

/// What a sum comes to, without spaces: `1+2*3` is 7.
pub fn listed_sum(alloc: Global, text: &str) -> Result<ParseResult<Option<i64>, Rich<char>>, Stop> {
    part_of(ListedSum).parse(alloc, text)
}
