//! What a sum comes to, as `2 * (3 + 4) - 1`: a reader that keeps no errors says of each text exactly whether it is a sum, and what it
//! comes to (`exact_sum`). What is wrong with a text that comes to no number is told in two ways: by operators with their powers and a
//! function that calls itself (`parse_sum`), and by rules, sums of products (`parse_arithmetic`), where brackets nest in memory.
//! Numbers are worked out as they are read.
#![tactic(auto)]

ghost use Rattle.std.specs.Prelude.{◌≡◌, ℤ, [], IfErr, IfOk, IsTrue, MatchResult, OkIff, is_some};
ghost use Rattle.std.specs.Result.{result_ok};
ghost use Rattle.chumsky_input.specs.Rich.{rich_span};
ghost use Rattle.arithmetic.specs.Steps.{signed, CanSign, made_by, CanMake, from_left, CanAll, StopsAt};
ghost use Rattle.arithmetic.specs.Worth.{paired, AreSteps, HasWorth, worth, LacksWorthAt};
ghost use Rattle.arithmetic.specs.declared.Value.{out-Value};
ghost use Rattle.arithmetic.specs.declared.Value.TheVariants as node;

mod answers;
pub mod exact_sum;
mod leaves;
mod operators;

pub use crate::answers::{parse_arithmetic, parse_sum};
use crate::leaves::{Number, Sign, Worked};
pub use crate::operators::read_by_powers;
use chumsky::combinator::{OfPart, Part, part_of, run_part};
use chumsky::extra::RichText;
use chumsky::input::TextRef;
use chumsky::prelude::*;
use chumsky::recursive::{
    BuildError, CloseError, Leaves, MayStay, Node, RecursiveError, SimpleValues, Simply,
};
use chumsky::span::Spanned;
use chumsky::{PResult, Stop};
use std::alloc::{AllocError, Global};

/// Why there is no answer.
#[derive(Debug, PartialEq, Drop)]
pub enum Refused {
    Building(RecursiveError),
    Closing(CloseError),
    Running(Stop),
}

/// A sign, where it stands, and the number after it.
#[derive(Clone, Copy)]
pub(crate) struct Step {
    pub(crate) sign: char,
    pub(crate) span: SimpleSpan,
    pub(crate) number: i64,
}

/// What a node of the grammar gives.
#[derive(Drop)]
enum Value {
    /// Digits that an `i64` doesn't hold.
    TooLarge(Wrong),
    Sign(char, SimpleSpan),
    Number(i64),
    Step(Step),
    Steps(Vec<Value>),
    /// A number, and the steps that go on from it.
    Chain(i64, Vec<Value>),
}

/// The leaves, each with the blanks around it: a number, and one of some signs.
#[derive(Clone, Copy)]
enum Leaf {
    Number,
    Sign(&'static str),
}

impl<'src> IsParser<&'src str, Value, RichText> for Leaf {}

impl<'src> Part<'src, &'src str, Value, RichText> for Leaf {
    fn run(&self, wanted: bool, inp: &mut TextRef<'src, '_, RichText>) -> PResult<Option<Value>> {
        match *self {
            Leaf::Number => run_part(&part_of(Number).map(number_of), wanted, inp),
            Leaf::Sign(signs) => run_part(&part_of(Sign(signs)).map(sign_of), wanted, inp),
        }
    }
}

impl MayStay for Leaf {}

/// A number, or where its digits stand.
fn number_of(worked: Worked) -> Value
    ensures { MatchResult worked (λ number. result ≡ node.Number number) (λ wrong. result ≡ node.TooLarge wrong) }
{
    match worked {
        Ok(number) => Value::Number(number),
        Err(wrong) => Value::TooLarge(wrong),
    }
}

/// A sign, and where it stands.
fn sign_of(marked: Spanned<char, SimpleSpan>) -> Value
    ensures { result ≡ node.Sign marked.inner marked.span }
{
    let sign = marked.inner;
    Value::Sign(sign, marked.span)
}

/// The leaves, by number.
const NUMBER: usize = 0;

const ADDING: usize = 1;

const MULTIPLYING: usize = 2;

const MINUS: usize = 3;

const OPENING: usize = 4;

const CLOSING: usize = 5;

/// The one mapper.
const WORKED_OUT: usize = 0;

/// How values are made of values.
#[derive(Drop)]
struct Arithmetic;

impl SimpleValues<SimpleSpan, Rich<char>> for Arithmetic {
    type Value = Value;

    fn unit(&self, _alloc: Global) -> Result<Value, AllocError> {
        Ok(Value::Number(0))
    }

    /// A step of a sign and a number, a chain of a number and steps; of a bracket and what is after it the latter, and what
    /// is before a bracket.
    fn pair(
        &self,
        _alloc: Global,
        _number: usize,
        first: Value,
        second: Value,
    ) -> Result<Value, AllocError>
        ensures { IfOk result (λ made. made ≡ paired first (out-Value first) (out-Value second)) }
    {
        match (first, second) {
            (Value::Sign(sign, span), Value::Number(number)) => {
                Ok(Value::Step(Step { sign, span, number }))
            }
            (Value::Number(number), Value::Steps(steps)) => Ok(Value::Chain(number, steps)),
            (inside, _closing) => Ok(inside),
        }
    }

    fn list(&self, _alloc: Global, steps: Vec<Value>) -> Result<Value, AllocError>
        ensures { IfOk result (λ made. AreSteps steps.items (out-Value made)) }
    {
        Ok(Value::Steps(steps))
    }

    /// The number that a value comes to, or an error where it can't be worked out.
    fn try_map(
        &self,
        alloc: Global,
        _mapper: usize,
        value: Value,
        _span: SimpleSpan,
    ) -> Result<Result<Value, Rich<char>>, AllocError>
        ensures worth { IfOk result (λ made. OkIff made (HasWorth (out-Value value)) (worth value (out-Value value))) }
        ensures place { IfOk result (λ made. IfErr made (λ error. LacksWorthAt (out-Value value) (rich_span error))) }
    {
        let worked_out = match value {
            Value::TooLarge(wrong) => Err(wrong),
            Value::Step(step) => prefixed(step),
            Value::Chain(first, steps) => total(first, steps.as_slice()),
            other => return Ok(Ok(other)),
        };
        match worked_out {
            Ok(number) => Ok(Ok(Value::Number(number))),
            Err(wrong) => Ok(Err(Rich::custom_in(alloc, wrong.span, wrong.message)?)),
        }
    }
}

/// What can't be worked out, and where.
#[derive(Clone, Copy)]
pub(crate) struct Wrong {
    pub(crate) message: &'static str,
    pub(crate) span: SimpleSpan,
}

/// A number after a minus (45), or between brackets.
pub(crate) fn prefixed(step: Step) -> Result<i64, Wrong>
    ensures number { OkIff result (CanSign step.sign step.number) (signed step.sign step.number) }
    ensures at_its_sign { IfErr result (λ wrong. wrong.span ≡ step.span) }
{
    match step.sign {
        '-' => after_sign(step, step.number.checked_neg()),
        _ => Ok(step.number),
    }
}

/// What a sign makes of the numbers before and after it: `+` (43), `-` (45), `*` (42), `/` (47) and `%` (37).
pub(crate) fn applied(total: i64, step: Step) -> Result<i64, Wrong>
    ensures number { OkIff result (CanMake step.sign total step.number) (made_by step.sign total step.number) }
    ensures at_its_sign { IfErr result (λ wrong. wrong.span ≡ step.span) }
{
    let number = step.number;
    match step.sign {
        '+' => after_sign(step, total.checked_add(number)),
        '-' => after_sign(step, total.checked_sub(number)),
        '*' => after_sign(step, total.checked_mul(number)),
        _ if number == 0 => Err(Wrong {
            message: "division by zero",
            span: step.span,
        }),
        '/' => after_sign(step, total.checked_div(number)),
        _ => after_sign(step, total.checked_rem(number)),
    }
}

/// A number, or an overflow at the sign that made it.
fn after_sign(step: Step, number: Option<i64>) -> Result<i64, Wrong>
    ensures number { result_ok result ≡ number }
    ensures at_its_sign { IfErr result (λ wrong. wrong.span ≡ step.span) }
{
    match number {
        Some(number) => Ok(number),
        None => Err(Wrong {
            message: "overflow",
            span: step.span,
        }),
    }
}

/// What steps make of a number, from the left.
fn total(first: i64, steps: &[Value]) -> Result<i64, Wrong>
    ensures number { OkIff result (CanAll first steps.now) (from_left first steps.now) }
    ensures at_its_sign { IfErr result (λ wrong. StopsAt first steps.now wrong.span) }
{
    let mut total = first;
    for value in steps {
        if let Value::Step(step) = value {
            total = applied(total, *step)?;
        }
    }
    Ok(total)
}

/// A number; a minus, and such a part; or a sum in brackets.
fn part_rules(rules: &mut Rules, part: Recursive, sum: Recursive) -> Result<Node, BuildError> {
    let digits = rules.leaf(NUMBER)?;
    let number = rules.try_map(digits, WORKED_OUT)?;

    let minus = rules.leaf(MINUS)?;
    let positive = rules.rule(part)?;
    let signed = rules.then(minus, positive)?;
    let negative = rules.try_map(signed, WORKED_OUT)?;

    let opening = rules.leaf(OPENING)?;
    let inside = rules.rule(sum)?;
    let closing = rules.leaf(CLOSING)?;
    let closed = rules.then(inside, closing)?;
    let opened = rules.then(opening, closed)?;
    let bracketed = rules.try_map(opened, WORKED_OUT)?;
    rules.choice(&[number, negative, bracketed])
}

/// Parts with a sign of one leaf between them.
fn chain_rules(rules: &mut Rules, part: Node, signs: usize) -> Result<Node, BuildError> {
    let sign = rules.leaf(signs)?;
    let step = rules.then(sign, part)?;
    let steps = rules.repeated(step, 0, None)?;
    let chain = rules.then(part, steps)?;
    rules.try_map(chain, WORKED_OUT)
}

/// Sums of products of parts.
fn sum_rules(rules: &mut Rules) -> Result<Recursive, RecursiveError> {
    let sum = rules.declare()?;
    let any_part = rules.recursive(|rules, any_part| part_rules(rules, any_part, sum))?;
    let factor = rules.rule(any_part)?;
    let product = chain_rules(rules, factor, MULTIPLYING)?;
    let terms = chain_rules(rules, product, ADDING)?;
    rules.define(sum, terms)?;
    Ok(sum)
}

/// The leaves, in the order of their numbers.
fn numbered_leaves() -> [OfPart<Leaf>; 6] {
    [
        part_of(Leaf::Number),
        part_of(Leaf::Sign("+-")),
        part_of(Leaf::Sign("*/%")),
        part_of(Leaf::Sign("-")),
        part_of(Leaf::Sign("(")),
        part_of(Leaf::Sign(")")),
    ]
}

/// How many rules may be open at once: two for each pair of brackets, and one for each minus before a number.
const DEPTH: usize = 1_000_000;

/// What the whole comes to.
fn whole(value: Value) -> i64
    ensures { (number : ℤ) → value ≡ node.Number number → result ≡ number }
{
    match value {
        Value::Number(number) => number,
        _other => 0,
    }
}

/// The same as `parse_arithmetic`, of which less is known: rules that keep errors. A sum that is nested more deeply than half a million
/// brackets is refused with `Stop::TooDeep`.
pub fn read_by_rules(alloc: Global, text: &str) -> Result<ParseResult<i64, Rich<char>>, Refused>
    ensures { IfOk result (λ parsed. parsed.errors.items ≡ [] → IsTrue (is_some parsed.output)) }
{
    let mut rules = Rules::new(alloc);
    let start = match sum_rules(&mut rules) {
        Ok(start) => start,
        Err(error) => return Err(Refused::Building(error)),
    };
    let leaves = numbered_leaves();
    let actions = Leaves {
        leaves: &leaves,
        values: Simply(Arithmetic),
    };
    match rules.close(start, &actions, DEPTH) {
        Ok(grammar) => grammar
            .map(whole)
            .parse(alloc, text)
            .map_err(Refused::Running),
        Err(error) => Err(Refused::Closing(error)),
    }
}
