//! The program `format_json`.
use console::failure::Failure;
use console::run::Program;
use console::text::{print_line, read_text, report};
use json_tree::{JsonText, read_json};
use std::alloc::Global;
use std::io::{Read, Write};

/// Prints the JSON that the input has, in one line or indented.
#[derive(Clone, Copy)]
pub struct FormatJson;

impl Program for FormatJson {
    fn usage(&self) -> &'static str {
        "format_json [--indented]"
    }

    fn answer<R: Read, W: Write, E: Write>(
        &self,
        alloc: Global,
        words: &[String],
        input: &mut R,
        out: &mut W,
        err: &mut E,
    ) -> Result<bool, Failure> {
        let indented = indented(words).ok_or(Failure::Words)?;
        let text = read_text(alloc, input)?;
        let parsed = read_json(alloc, text.as_str())?;
        if let Some(json) = parsed.output() {
            print_line(out, JsonText { json, indented })?;
        }
        report(alloc, err, text.as_str(), parsed.errors.as_slice())
    }
}

/// Whether the words ask for lines that are indented, if they ask for anything.
fn indented(words: &[String]) -> Option<bool> {
    match words {
        [] => Some(false),
        [word] if word.as_str() == "--indented" => Some(true),
        _ => None,
    }
}
