//! A calculator, by functions that call each other.
ghost use Rattle.std.specs.Prelude.{◌≡◌, [], IfOk, IsTrue, is_some};

use chumsky::combinator::{Part, part_of, run_part};
use chumsky::extra::RichText;
use chumsky::input::TextRef;
use chumsky::prelude::*;
use chumsky::recursive::{RunsUnder, Unsaid};
use chumsky::{PResult, Stop};
use std::alloc::Global;
use std::num::ParseIntError;

/// What is said of a number that a `u64` can't be.
const TOO_LARGE: &str = "64 bits don't hold this";

/// A number. One that is too large is an error, and counts as 0.
#[derive(Clone, Copy)]
struct Number;

impl<'src> IsParser<&'src str, u64, RichText> for Number {}

impl<'src> Part<'src, &'src str, u64, RichText> for Number {
    fn run(&self, wanted: bool, inp: &mut TextRef<'src, '_, RichText>) -> PResult<Option<u64>> {
        let number = text::digits(10).from_str::<u64>();
        let number = number.validate(|read: Result<u64, ParseIntError>, extra, emitter| match read {
            Ok(number) => number,
            Err(_) => {
                emitter.emit_message(extra.alloc(), extra.span(), TOO_LARGE);
                0
            }
        });
        run_part(&number, wanted, inp)
    }
}

/// What numbers come to: their product, or with another sign than `*` their sum; nothing where 64 bits don't hold it.
fn worked_out(sign: char, numbers: Vec<u64>) -> Option<u64> {
    let mut total: u64 = if sign == '*' { 1 } else { 0 };
    for number in numbers.as_slice() {
        total = match sign {
            '*' => total.checked_mul(*number)?,
            _ => total.checked_add(*number)?,
        };
    }
    Some(total)
}

/// Parts with a sign between them, and perhaps white space: what they come to. What is too large is an error, and counts as 0.
fn run_chain<'src, P: IsParser<&'src str, u64, RichText> + Parser<'src, &'src str, u64, RichText>>(
    part: &P,
    sign: char,
    wanted: bool,
    inp: &mut TextRef<'src, '_, RichText>,
) -> PResult<Option<u64>>
    requires { P.ready part.now }
    ensures { ⟦<Unsaid as RunsUnder<'src, &'src str, u64, RichText>>⟧.runs 0 wanted inp.old inp.new result }
{
    let numbers = part
        .separated_by(just(sign).padded())
        .at_least(1)
        .collect::<Vec<_>>();
    let chain = numbers.validate(move |numbers: Vec<u64>, extra, emitter| {
        let Some(total) = worked_out(sign, numbers) else {
            emitter.emit_message(extra.alloc(), extra.span(), TOO_LARGE);
            return 0;
        };
        total
    });
    run_part(&chain, wanted, inp)
}

/// A number, or a sum in brackets.
#[cycle(sums)]
fn atom<'src>(
    inp: &mut TextRef<'src, '_, RichText>,
    wanted: bool,
    depth: usize,
) -> PResult<Option<u64>>
    ensures { ⟦<Unsaid as RunsUnder<'src, &'src str, u64, RichText>>⟧.runs depth wanted inp.old inp.new result }
{
    let in_brackets = recursive(sum, depth)
        .padded()
        .delimited_by(just('('), just(')'));
    run_part(&part_of(Number).or(in_brackets), wanted, inp)
}

/// Atoms, with a `*` between them.
#[cycle(sums)]
fn product<'src>(
    inp: &mut TextRef<'src, '_, RichText>,
    wanted: bool,
    depth: usize,
) -> PResult<Option<u64>>
    ensures { ⟦<Unsaid as RunsUnder<'src, &'src str, u64, RichText>>⟧.runs depth wanted inp.old inp.new result }
{
    run_chain(&recursive(atom, depth), '*', wanted, inp)
}

/// Products, with a `+` between them.
#[cycle(sums)]
fn sum<'src>(
    inp: &mut TextRef<'src, '_, RichText>,
    wanted: bool,
    depth: usize,
) -> PResult<Option<u64>>
    ensures { ⟦<Unsaid as RunsUnder<'src, &'src str, u64, RichText>>⟧.runs depth wanted inp.old inp.new result }
{
    run_chain(&recursive(product, depth), '+', wanted, inp)
}

/// What a sum comes to: of `2 * (3 + 4)` it is 14. Each pair of brackets takes three calls of 300, and one more than ninety-nine
/// within one another are refused with `Stop::TooDeep`.
pub fn value_of(alloc: Global, text: &str) -> Result<ParseResult<u64, Rich<char>>, Stop>
    ensures { IfOk result (λ parsed. parsed.errors.items ≡ [] → IsTrue (is_some parsed.output)) }
{
    recursive::<_, _, _, RichText>(sum, 300)
        .padded()
        .parse(alloc, text)
}
