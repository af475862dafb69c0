//! The program `format_lisp`.
use chumsky::ParseResult;
use chumsky::error::Rich;
use console::failure::Failure;
use console::run::Program;
use console::text::{print_line, read_text, report};
use s_expression::{Expression, read_expressions};
use std::alloc::Global;
use std::io::{Read, Write};

/// Prints each of the s-expressions that the input has in a line of its own.
#[derive(Clone, Copy)]
pub struct FormatLisp;

impl Program for FormatLisp {
    fn usage(&self) -> &'static str {
        "format_lisp"
    }

    fn answer<R: Read, W: Write, E: Write>(
        &self,
        alloc: Global,
        words: &[String],
        input: &mut R,
        out: &mut W,
        err: &mut E,
    ) -> Result<bool, Failure> {
        if !words.is_empty() {
            return Err(Failure::Words);
        }
        let text = read_text(alloc, input)?;
        let parsed = read_expressions(alloc, text.as_str())?;
        print_all(out, &parsed)?;
        report(alloc, err, text.as_str(), parsed.errors.as_slice())
    }
}

/// Prints the expressions of an answer.
fn print_all<W: Write>(
    out: &mut W,
    parsed: &ParseResult<Vec<Expression>, Rich<char>>,
) -> Result<(), Failure> {
    if let Some(expressions) = parsed.output() {
        for expression in expressions.as_slice() {
            print_line(out, expression)?;
        }
    }
    Ok(())
}
