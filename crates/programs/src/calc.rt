//! The program `calc`.
use arithmetic::parse_sum;
use console::failure::Failure;
use console::run::Program;
use console::text::{print_line, read_text, report};
use std::alloc::Global;
use std::io::{Read, Write};

/// Works out the sum that the input has.
#[derive(Clone, Copy)]
pub struct Calc;

impl Program for Calc {
    fn usage(&self) -> &'static str {
        "calc"
    }

    fn answer<R: Read, W: Write, E: Write>(
        &self,
        alloc: Global,
        words: &[String],
        input: &mut R,
        out: &mut W,
        err: &mut E,
    ) -> Result<bool, Failure> {
        if !words.is_empty() {
            return Err(Failure::Words);
        }
        let text = read_text(alloc, input)?;
        let parsed = parse_sum(alloc, text.as_str())?;
        if let Some(number) = parsed.output() {
            print_line(out, number)?;
        }
        report(alloc, err, text.as_str(), parsed.errors.as_slice())
    }
}
