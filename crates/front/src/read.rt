//! A text as a program.
ghost use Rattle.std.specs.Prelude.{◌≡◌, ◌+◌, [], length, IfOk, IsTrue, is_some};
ghost use Rattle.std.specs.List.Sorted.{IsNonDecreasingBy};
ghost use Rattle.chumsky_input.specs.Rich.{rich_span};

use crate::lexer::tokens_of;
use crate::parser::program_of;
use crate::syntax::Expression;
use crate::token::Token;
use chumsky::Stop;
use chumsky::prelude::*;
use chumsky::report::in_text;
use std::alloc::{AllocError, Global};

/// What a text is read as: the items of its program, where there is one, and what is wrong with it, in the order of the text.
#[derive(Drop)]
pub struct Reading {
    pub program: Option<Vec<Expression>>,
    pub errors: Vec<Rich<char>>,
}

/// Reads a text in both stages.
pub fn read_program(alloc: Global, text: &str) -> Result<Reading, Stop>
    ensures whole { IfOk result (λ reading. reading.errors.items ≡ [] → IsTrue (is_some reading.program)) }
    ensures order { IfOk result (λ reading. IsNonDecreasingBy (λ error. (rich_span error).start) reading.errors.items) }
{
    let end = SimpleSpan {
        start: text.len(),
        end: text.len(),
    };
    let (tokens, lexed) = tokens_of(alloc, text)?.into_output_errors();
    let (program, parsed) = match tokens {
        None => (None, Vec::new(alloc)),
        Some(tokens) => program_of(alloc, tokens.as_slice(), end)?.into_output_errors(),
    };
    match merged(alloc, lexed, parsed.as_slice()) {
        Ok(errors) => Ok(Reading { program, errors }),
        Err(_) => Err(Stop::Memory),
    }
}

/// The errors of both stages, as errors of the text and in its order.
fn merged(
    alloc: Global,
    lexed: Vec<Rich<char>>,
    parsed: &[Rich<Token>],
) -> Result<Vec<Rich<char>>, AllocError>
    ensures count { IfOk result (λ all. length all.items ≡ length lexed.items + length parsed.now) }
    ensures order { IfOk result (λ all. IsNonDecreasingBy (λ error. (rich_span error).start) all.items) }
{
    let mut all = lexed;
    for error in parsed {
        all.push(in_text(alloc, error)?)?;
    }
    all.sort_by_key(|error| error.span().start)?;
    Ok(all)
}
