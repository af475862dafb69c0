//! Reads a setting, as `size = 10`, from the standard input. Prints it, or a report of what is wrong on the standard error.
#![tactic(auto)]

use chumsky::extra::RichText;
use chumsky::prelude::*;
use std::alloc::Global;
use std::io;
use std::io::Read;
use std::process::ExitCode;

/// A name and its number, as `size = 10`.
fn setting<'src>(
    alloc: Global,
    line: &'src str,
) -> Result<ParseResult<(&'src str, &'src str), Rich<char>>, Stop> {
    let name = text::ascii::ident::<_, RichText>().padded();
    let value = text::int(10).padded();
    name.then_ignore(just('=')).then(value).parse(alloc, line)
}

/// Prints a report of each error on the standard error.
fn print_reports(rt: &HostRuntime, text: &str, errors: &[Rich<char>]) -> io::Result<()> {
    for error in errors {
        let report = Report {
            name: "input",
            text,
            error,
        };
        eprintln!(rt; "{report}")?;
    }
    Ok(())
}

fn main(rt: HostRuntime) -> io::Result<ExitCode> {
    let alloc = rt.alloc();
    let mut text = String::new(alloc);
    if rt.reader().read_to_string(&mut text).is_err() {
        eprintln!(rt; "cannot read input")?;
        return Ok(ExitCode::from(2));
    }
    let parsed = match setting(alloc, text.as_str()) {
        Ok(parsed) => parsed,
        Err(stop) => {
            eprintln!(rt; "refused: {stop:?}")?;
            return Ok(ExitCode::from(3));
        }
    };
    print_reports(&rt, text.as_str(), parsed.errors.as_slice())?;
    match parsed.output() {
        Some((name, value)) => {
            println!(rt; "{name} is {value}")?;
            Ok(ExitCode::SUCCESS)
        }
        None => Ok(ExitCode::from(1)),
    }
}
