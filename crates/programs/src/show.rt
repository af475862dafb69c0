//! The program `show`.
use console::failure::Failure;
use console::run::Program;
use console::text::{read_text, report};
use examples::ini::{IniText, parse_ini};
use examples::log_lines::{LogText, parse_log};
use std::alloc::Global;
use std::fmt::Display;
use std::io::{Read, Write};

/// What the text is.
#[derive(Clone, Copy)]
enum Language {
    Ini,
    Log,
}

/// Prints what a text has: the sections of an INI file, or the lines of a log.
#[derive(Clone, Copy)]
pub struct Show;

impl Program for Show {
    fn usage(&self) -> &'static str {
        "show ini|log"
    }

    fn answer<R: Read, W: Write, E: Write>(
        &self,
        alloc: Global,
        words: &[String],
        input: &mut R,
        out: &mut W,
        err: &mut E,
    ) -> Result<bool, Failure> {
        let language = asked_for(words).ok_or(Failure::Words)?;
        let text = read_text(alloc, input)?;
        match language {
            Language::Ini => show_ini(alloc, text.as_str(), out, err),
            Language::Log => show_log(alloc, text.as_str(), out, err),
        }
    }
}

/// What the words ask for, if they ask for anything.
fn asked_for(words: &[String]) -> Option<Language> {
    match words {
        [name] => match name.as_str() {
            "ini" => Some(Language::Ini),
            "log" => Some(Language::Log),
            _ => None,
        },
        _ => None,
    }
}

/// Prints the sections of a text.
fn show_ini<W: Write, E: Write>(
    alloc: Global,
    text: &str,
    out: &mut W,
    err: &mut E,
) -> Result<bool, Failure> {
    let parsed = parse_ini(alloc, text)?;
    if let Some(ini) = parsed.output() {
        print(out, IniText(ini))?;
    }
    report(alloc, err, text, parsed.errors.as_slice())
}

/// Prints the lines of a log.
fn show_log<W: Write, E: Write>(
    alloc: Global,
    text: &str,
    out: &mut W,
    err: &mut E,
) -> Result<bool, Failure> {
    let parsed = parse_log(alloc, text)?;
    if let Some(lines) = parsed.output() {
        print(out, LogText(lines.as_slice()))?;
    }
    report(alloc, err, text, parsed.errors.as_slice())
}

/// Prints what a text has, which ends its lines itself.
fn print<D: Display + Drop, W: Write>(out: &mut W, value: D) -> Result<(), Failure> {
    write!(out, "{value}").map_err(|_| Failure::Unwritable)
}
