//! What a sum comes to, or what is wrong with the text. A reader that keeps no errors tells whether something is, and only then a reader
//! that keeps them tells what.
ghost use Rattle.std.specs.Prelude.{◌≡◌, [], IfOk, IfErr, IsTrue, MatchResult, is_some};
ghost use Rattle.std.specs.Str.{chars};
ghost use Rattle.chumsky.specs.Accepted.{Exactly, IsExactly};
ghost use Rattle.chumsky_input.specs.declared.stop.Stop.TheVariants as stop;
ghost use Rattle.arithmetic.specs.Sums.{HasTotal};
ghost use Rattle.arithmetic.specs.declared.Refused.TheVariants as refused;

use crate::exact_sum::parse_exact_sum;
use crate::operators::read_by_powers;
use crate::{Refused, read_by_rules};
use chumsky::Stop;
use chumsky::prelude::*;
use std::alloc::{AllocError, Global};

impl From<Stop> for Refused {
    ghost from_gives = { λ stop e. e ≡ refused.Running stop };

    fn from(stop: Stop) -> Refused {
        Refused::Running(stop)
    }
}

impl From<AllocError> for Refused {
    ghost from_gives = { λ _ e. e ≡ refused.Running stop.Memory };

    fn from(_error: AllocError) -> Refused {
        Refused::Running(Stop::Memory)
    }
}

/// What a sum comes to: of `2 * (3 + 4) - 1` it is 13. There are `+`, `-`, `*`, `/` and `%`, from the left, a minus before a
/// number, and brackets, as deep as the text is long.
///
/// What an `i64` doesn't hold is an error at the digits or at the sign that makes it, and so is a division by zero. A text that comes to
/// no number, and is nested more deeply than half a million brackets, has one error, over all of it.
pub fn parse_arithmetic(alloc: Global, text: &str) -> Result<ParseResult<i64, Rich<char>>, Refused>
    ensures exact { IfOk result (λ parsed. IsExactly HasTotal (chars text.now) parsed.output) }
    ensures told { IfOk result (λ parsed. parsed.errors.items ≡ [] → IsTrue (is_some parsed.output)) }
    ensures quiet { IfOk result (λ parsed. IsTrue (is_some parsed.output) → parsed.errors.items ≡ []) }
    ensures memory { IfErr result (λ why. why ≡ refused.Running stop.Memory) }
{
    match number_of(alloc, text)? {
        Some(number) => Ok(ParseResult {
            output: Some(number),
            errors: Vec::new(alloc),
        }),
        None => {
            let read = match read_by_rules(alloc, text) {
                Ok(parsed) => Ok(parsed),
                Err(refused) => Err(stop_of(refused)),
            };
            Ok(ParseResult {
                output: None,
                errors: errors_of(alloc, text, read)?,
            })
        }
    }
}

/// What a sum comes to, as `parse_arithmetic` has it: of `2 * (3 + 4) - 1` it is 13. A text that comes to no number, and is nested more
/// deeply than ninety-nine brackets, has one error, over all of it. Where there is no memory for the message of an error, it is empty.
pub fn parse_sum(alloc: Global, text: &str) -> Result<ParseResult<i64, Rich<char>>, Stop>
    ensures exact { Exactly HasTotal (chars text.now) result }
    ensures told { IfOk result (λ parsed. parsed.errors.items ≡ [] → IsTrue (is_some parsed.output)) }
    ensures quiet { IfOk result (λ parsed. IsTrue (is_some parsed.output) → parsed.errors.items ≡ []) }
{
    match number_of(alloc, text)? {
        Some(number) => Ok(ParseResult {
            output: Some(number),
            errors: Vec::new(alloc),
        }),
        None => Ok(ParseResult {
            output: None,
            errors: errors_of(alloc, text, read_by_powers(alloc, text))?,
        }),
    }
}

/// The number that a text comes to, if it is a sum in which all can be worked out.
fn number_of(alloc: Global, text: &str) -> Result<Option<i64>, Stop>
    ensures { MatchResult result (IsExactly HasTotal (chars text.now)) (λ why. why ≡ stop.Memory) }
{
    let parsed = parse_exact_sum(alloc, text)?;
    match parsed.into_output() {
        Some(Some(number)) => Ok(Some(number)),
        Some(None) => Ok(None),
        None => Ok(None),
    }
}

/// What is wrong with a text that comes to no number, by what a reader that keeps errors has of it: one error at least.
fn errors_of(
    alloc: Global,
    text: &str,
    read: Result<ParseResult<i64, Rich<char>>, Stop>,
) -> Result<Vec<Rich<char>>, AllocError>
    ensures { IfOk result (λ errors. errors.items ≡ [] → ⊥) }
{
    let mut errors = match read {
        Ok(parsed) => parsed.into_errors(),
        Err(Stop::Memory) => return Err(AllocError),
        Err(_) => Vec::new(alloc),
    };
    if errors.is_empty() {
        let whole = SimpleSpan::from(0..text.len());
        let message = "this comes to no number, and nests too deep to say why";
        errors.push(Rich::custom_in(alloc, whole, message)?)?;
    }
    Ok(errors)
}

/// Why rules were refused: where it isn't the run, for want of memory, since they are right.
fn stop_of(refused: Refused) -> Stop {
    match refused {
        Refused::Running(stop) => stop,
        _ => Stop::Memory,
    }
}
