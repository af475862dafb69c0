//! Sums of which it is known exactly which texts they are, and what each comes to, by a rule.
ghost use Rattle.std.specs.Prelude.{◌≡◌, ℕ, ◌+◌, ◌-◌, ◌<◌, ◌^◌, None, [], length, map, reverse, pos, IfOk, IfErr, IfSome, ⊤};
ghost use Rattle.std.specs.List.{All};
ghost use Rattle.std.specs.Option.{SomeIff};
ghost use Rattle.std.specs.Str.{chars};
ghost use Rattle.std.specs.Str.Parse.{AllDigits, digits_value};
ghost use Rattle.chumsky_input.specs.declared.stop.Stop.TheVariants as stop;
ghost use Rattle.chumsky.specs.Accepted.{Exactly};
ghost use Rattle.chumsky_grammars.specs.Compiled.{IsNode, IsOneRule};
ghost use Rattle.arithmetic.specs.Sums.{IsMade, IsNegative, IsSum, ComesOnlyTo};
ghost use Rattle.arithmetic.specs.Lines.{IsClosed, IsStepped, ComesTo, from_part, Extends, IsPair, IsOption, IsRead, IsTotal, IsWorkedOut, sum_expression};
ghost use Rattle.arithmetic.specs.TakenLaws.{AreSumLeaves};
ghost use Rattle.arithmetic.specs.declared.exact_sum.Piece.TheVariants as piece;

use crate::{Step, applied};
use chumsky::Stop;
use chumsky::combinator::Mapper;
use chumsky::extra::EmptyText;
use chumsky::prelude::*;
use chumsky::recursive::{BuildError, Leaves, Moving, Node, Values};
use chumsky::text::{Padded, Whitespace};
use chumsky_grammars::exact::exact;
use either::Either;
use std::alloc::{AllocError, Global};

/// The leaves, by number.
const NUMBER: usize = 0;

const SIGN: usize = 1;

const OPENING: usize = 2;

const CLOSING: usize = 3;

const MINUS: usize = 4;

/// The one mapper.
const BEFORE_PART: usize = 0;

/// A sign, and what the part after it comes to.
#[derive(Drop)]
struct Signed {
    sign: char,
    number: Option<i64>,
}

/// What a node of the grammar gives.
#[derive(Drop)]
enum Piece {
    /// A sign or a bracket.
    Mark(char),
    /// A minus before a part.
    Minus,
    /// What a number or a sum in brackets comes to.
    Part(Option<i64>),
    /// Signs, each with the part after it, the last of them first.
    Steps(Vec<Signed>),
    /// A part, and the steps after it.
    Line(Option<i64>, Vec<Signed>),
}

/// What the products before come to, and the sign after them.
#[derive(Clone, Copy)]
struct Before {
    sum: Option<i64>,
    sign: char,
}

/// How far a line has been worked out: the products before, if there are some, and what the last product comes to so far.
#[derive(Clone, Copy)]
struct Running {
    before: Option<Before>,
    product: Option<i64>,
}

/// The number that digits write, where an `i64` holds it.
fn held(digits: &str) -> Option<i64>
    ensures { AllDigits 10 digits.now → SomeIff result ((0 < length digits.now) × (digits_value 10 digits.now < 2 ^ 63)) (pos (digits_value 10 digits.now)) }
{
    match digits.parse::<i64>() {
        Ok(number) => Some(number),
        Err(_) => None,
    }
}

/// What a sign makes of the numbers before and after it.
fn made(before: Option<i64>, sign: char, after: Option<i64>) -> Option<i64>
    ensures { IsMade before sign after result }
{
    match before {
        None => None,
        Some(total) => match after {
            None => None,
            Some(number) => {
                let span = SimpleSpan::from(0..0);
                match applied(total, Step { sign, span, number }) {
                    Ok(number) => Some(number),
                    Err(_) => None,
                }
            }
        },
    }
}

/// What a minus makes of the number after it.
fn negated(number: Option<i64>) -> Option<i64>
    ensures { IsNegative number result }
{
    match number {
        Some(number) => number.checked_neg(),
        None => None,
    }
}

/// What the last product makes of the products before it.
fn closed(running: Running) -> Option<i64>
    ensures { IsClosed running result }
{
    match running.before {
        Some(before) => made(before.sum, before.sign, running.product),
        None => running.product,
    }
}

/// One step more: a sign of sums ends the product.
fn stepped(running: Running, step: Signed) -> Running
    ensures { IsStepped running step result }
{
    let sign = step.sign;
    if sign == '+' || sign == '-' {
        let sum = closed(running);
        Running {
            before: Some(Before { sum, sign }),
            product: step.number,
        }
    } else {
        Running {
            before: running.before,
            product: made(running.product, sign, step.number),
        }
    }
}

/// What a part and the steps after it come to.
fn total_of(first: Option<i64>, steps: Vec<Signed>) -> Option<i64>
    ensures { ComesTo (from_part first) (reverse steps.items) result }
{
    let mut left = steps;
    let mut running = Running {
        before: None,
        product: first,
    };
    while let Some(step) = left.pop() {
        running = stepped(running, step);
    }
    closed(running)
}

/// Steps with one more before them.
fn extended(steps: Vec<Signed>, step: Signed) -> Result<Piece, AllocError>
    ensures { IfOk result (λ piece. Extends steps.items step piece) }
{
    let mut steps = steps;
    steps.push(step)?;
    Ok(Piece::Steps(steps))
}

/// Makes a part of digits.
#[derive(Clone, Copy, Drop)]
struct ToPart;

impl<'src> Mapper<&'src str, Piece> for ToPart {
    ghost gives = { λ _ digits part. IsRead digits.now part };

    fn apply(&self, digits: &'src str) -> Piece {
        Piece::Part(held(digits))
    }
}

/// Makes a mark of a character.
#[derive(Clone, Copy, Drop)]
struct ToMark;

impl Mapper<char, Piece> for ToMark {
    ghost gives = { λ _ c mark. mark ≡ piece.Mark c };

    fn apply(&self, c: char) -> Piece {
        Piece::Mark(c)
    }
}

/// Values are pieces of sums.
#[derive(Drop)]
struct Pieces;

impl Values<SimpleSpan, EmptyErr> for Pieces {
    type Value = Piece;

    ghost pair_gives = { λ _ _ p v. IsPair p.0 p.1 v };

    ghost option_gives = { λ _ o v. IsOption o v };

    ghost map_gives = { λ _ _ _ v. v ≡ piece.Minus };

    /// Steps of a sign and a line, a line of a part and steps, or of a minus and a line; a part of a line and a bracket, and what is
    /// after a bracket.
    fn pair(
        &self,
        _alloc: Global,
        _number: usize,
        first: Piece,
        second: Piece,
    ) -> Result<Piece, AllocError> {
        match (first, second) {
            (Piece::Mark(sign), Piece::Line(number, steps)) => {
                extended(steps, Signed { sign, number })
            }
            (Piece::Part(first), Piece::Steps(steps)) => Ok(Piece::Line(first, steps)),
            (Piece::Minus, Piece::Line(first, steps)) => Ok(Piece::Line(negated(first), steps)),
            (Piece::Line(first, steps), _closing) => Ok(Piece::Part(total_of(first, steps))),
            (_opening, inside) => Ok(inside),
        }
    }

    /// Of nothing no steps.
    fn option(&self, alloc: Global, steps: Option<Piece>) -> Result<Piece, AllocError>
        ensures { IfOk result (λ v. IsOption steps v) }
    {
        match steps {
            Some(steps) => Ok(steps),
            None => Ok(Piece::Steps(Vec::new(alloc))),
        }
    }

    fn unit(&self, _alloc: Global) -> Result<Piece, AllocError> {
        Ok(Piece::Part(None))
    }

    /// Of a sign a minus before a part.
    fn map(&self, _alloc: Global, _mapper: usize, _sign: Piece) -> Result<Piece, AllocError> {
        Ok(Piece::Minus)
    }

    fn list(&self, _alloc: Global, _pieces: Vec<Piece>) -> Result<Piece, AllocError>
        ensures { IfOk result (λ _. ⊤) }
    {
        Ok(Piece::Part(None))
    }

    fn try_map(
        &self,
        _alloc: Global,
        _mapper: usize,
        piece: Piece,
        _span: SimpleSpan,
    ) -> Result<Result<Piece, EmptyErr>, AllocError> {
        Ok(Ok(piece))
    }
}

/// A number or a sum in brackets, and perhaps a sign and a sum after it; or a minus and a sum, whose first part it is before.
fn body(rules: &mut Rules, sum: Recursive) -> Result<Node, BuildError>
    requires empty { rules.old.nodes ≡ [] }
    requires first { sum ≡ 0 }
    ensures body { IfOk result (λ n. IsNode 5 sum_expression rules.new.nodes n) }
    ensures bodies { rules.new.bodies ≡ rules.old.bodies }
{
    let number = rules.leaf(NUMBER)?;
    let opening = rules.leaf(OPENING)?;
    let inside = rules.rule(sum)?;
    let closing = rules.leaf(CLOSING)?;
    let closed = rules.then(inside, closing)?;
    let bracketed = rules.then(opening, closed)?;
    let part = rules.choice(&[number, bracketed])?;
    let sign = rules.leaf(SIGN)?;
    let step = rules.then(sign, inside)?;
    let steps = rules.or_not(step)?;
    let line = rules.then(part, steps)?;
    let minus = rules.leaf(MINUS)?;
    let before = rules.map(minus, BEFORE_PART)?;
    let negative = rules.then(before, inside)?;
    rules.choice(&[line, negative])
}

/// The one rule.
fn sum_rule(alloc: Global) -> Result<(Rules, Recursive), Stop>
    ensures rules { IfOk result (λ p. IsOneRule 5 sum_expression p.0 × (p.1 ≡ 0)) }
    ensures memory { IfErr result (λ why. why ≡ stop.Memory) }
{
    let mut rules = Rules::new(alloc);
    let Ok(sum) = rules.declare() else {
        return Err(Stop::Memory);
    };
    let Ok(node) = body(&mut rules, sum) else {
        return Err(Stop::Memory);
    };
    match rules.define(sum, node) {
        Ok(()) => Ok((rules, sum)),
        Err(_) => unreachable!(),
    }
}

/// What a line comes to.
fn total_in(line: Piece) -> Option<i64>
    ensures { IsTotal line result }
{
    match line {
        Piece::Line(first, steps) => total_of(first, steps),
        _ => None,
    }
}

/// What the line comes to that was read.
fn worked_out(
    parsed: Result<ParseResult<Piece, EmptyErr>, Stop>,
) -> Result<ParseResult<Option<i64>, EmptyErr>, Stop>
    ensures { IsWorkedOut parsed result }
{
    match parsed {
        Err(stop) => Err(stop),
        Ok(parsed) => {
            let (output, errors) = parsed.into_output_errors();
            let output = match output {
                Some(line) => Some(total_in(line)),
                None => None,
            };
            Ok(ParseResult { output, errors })
        }
    }
}

/// What a text comes to, by five leaves, which take digits, signs, brackets and a minus, with the blanks around them.
fn parse_over<'src, P: Moving<'src, &'src str, Piece, EmptyText>>(
    alloc: Global,
    text: &'src str,
    leaves: &[P],
) -> Result<ParseResult<Option<i64>, EmptyErr>, Stop>
    requires five { length leaves.now ≡ 5 }
    requires ready { All P.ready leaves.now }
    requires languages { AreSumLeaves (map P.language leaves.now) }
    ensures { Exactly IsSum (chars text.now) result × IfOk result (λ parsed. IfSome parsed.output (ComesOnlyTo (chars text.now))) }
{
    let (rules, sum) = sum_rule(alloc)?;
    let Some(limit) = text.len().checked_add(1) else {
        return Err(Stop::Memory);
    };
    let actions = Leaves {
        leaves,
        values: Pieces,
    };
    match close(&rules, sum, &actions, limit) {
        Ok(grammar) => worked_out(exact(grammar).parse(alloc, text)),
        Err(_) => unreachable!(),
    }
}

/// What a sum comes to: of `2 * (3 + 4) - 1` it is 13. There are `+`, `-`, `*`, `/` and `%`, from the left, a minus before a part, as
/// in `2 * -3`, and brackets, in which a sum may stand as deep as the text is long; white space may stand around each of them. Of a
/// sum in which an `i64` doesn't hold a number, or what a sign makes, or that divides by zero, the output is `None`; of a text that
/// is no sum there is no output.
pub fn parse_exact_sum(
    alloc: Global,
    text: &str,
) -> Result<ParseResult<Option<i64>, EmptyErr>, Stop>
    ensures exact { Exactly IsSum (chars text.now) result }
    ensures once { IfOk result (λ parsed. IfSome parsed.output (ComesOnlyTo (chars text.now))) }
{
    let kind = Whitespace;
    let leaves = [
        Padded {
            parser: Either::Left(text::digits::<&str, EmptyText>(10).map_by(ToPart)),
            kind,
        },
        Padded {
            parser: Either::Right(one_of("+-*/%").map_by(ToMark)),
            kind,
        },
        Padded {
            parser: Either::Right(one_of("(").map_by(ToMark)),
            kind,
        },
        Padded {
            parser: Either::Right(one_of(")").map_by(ToMark)),
            kind,
        },
        Padded {
            parser: Either::Right(one_of("-").map_by(ToMark)),
            kind,
        },
    ];
    parse_over(alloc, text, &leaves)
}
