//! The program `format_program`.
use console::failure::Failure;
use console::run::Program;
use console::text::{read_text, report};
use front::item_text::ItemText;
use front::read::{Reading, read_program};
use std::alloc::Global;
use std::io::{Read, Write};

/// Prints each item of the program that the input has in a line of its own, with brackets around each sign and its operands. Items that
/// are wrong stand as they are, and what is wrong with them is reported.
#[derive(Clone, Copy)]
pub struct FormatProgram;

impl Program for FormatProgram {
    fn usage(&self) -> &'static str {
        "format_program"
    }

    fn answer<R: Read, W: Write, E: Write>(
        &self,
        alloc: Global,
        words: &[String],
        input: &mut R,
        out: &mut W,
        err: &mut E,
    ) -> Result<bool, Failure> {
        if !words.is_empty() {
            return Err(Failure::Words);
        }
        let text = read_text(alloc, input)?;
        let reading = read_program(alloc, text.as_str())?;
        print_items(out, text.as_str(), &reading)?;
        report(alloc, err, text.as_str(), reading.errors.as_slice())
    }
}

/// Prints the items of the program that was read of a text.
fn print_items<W: Write>(out: &mut W, text: &str, reading: &Reading) -> Result<(), Failure> {
    if let Some(items) = &reading.program {
        for item in items.as_slice() {
            let item = ItemText { text, item };
            write!(out, "{item};\n").map_err(|_| Failure::Unwritable)?;
        }
    }
    Ok(())
}
