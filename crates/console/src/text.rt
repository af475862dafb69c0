//! The text that a program reads, and what it prints of it.
ghost use Rattle.std.specs.Prelude.{◌≡◌, [], ◌∷◌, ◌++◌, IfErr, IfOk, IfSome, OnOk, length, nat_eq, string_bytes};
ghost use Rattle.std.specs.Io.KnownBytes.{Appends, IsAtEnd};
ghost use Rattle.console.specs.declared.failure.Failure.TheVariants.{Unwritable};

use crate::failure::Failure;
use chumsky::Stop;
use chumsky::error::Rich;
use chumsky::report::{LineIndex, Report};
use std::alloc::Global;
use std::fmt::Display;
use std::io::{ErrorKind, Read, Write};

/// The whole input, which is to be UTF-8.
pub fn read_text<R: Read>(alloc: Global, input: &mut R) -> Result<String, Failure>
    ensures whole { IfOk result (λ text. IfSome (R.remaining input.old) (λ bytes. string_bytes text ≡ bytes)) }
    ensures end { OnOk result (IsAtEnd (R.remaining input.new)) }
{
    let mut bytes = Vec::new(alloc);
    match input.read_to_end(&mut bytes) {
        Ok(_) => String::from_utf8(bytes).map_err(|_| Failure::NotUtf8),
        Err(error) if error.kind() == ErrorKind::OutOfMemory => Err(Failure::Refused(Stop::Memory)),
        Err(_) => Err(Failure::Unreadable),
    }
}

/// Prints a line.
pub fn print_line<D: Display + Drop, W: Write>(out: &mut W, line: D) -> Result<(), Failure>
    ensures printed { OnOk result (IfSome (D.output line) (λ text. Appends (W.contents out.old) (W.contents out.new) (text ++ 10 ∷ []))) }
    ensures unwritten { IfErr result (λ why. why ≡ Unwritable) }
{
    writeln!(out, "{line}").map_err(|_| Failure::Unwritable)
}

/// Prints a report of each error of a text, which is called `input`. Says whether there is no error.
pub fn report<E: Write>(
    alloc: Global,
    err: &mut E,
    text: &str,
    errors: &[Rich<char>],
) -> Result<bool, Failure>
    ensures accepted { IfOk result (λ accepted. accepted ≡ nat_eq (length errors.now) 0) }
{
    if errors.is_empty() {
        return Ok(true);
    }
    let lines = LineIndex::new(alloc, text)?;
    for error in errors {
        let report = Report {
            name: "input",
            text: &lines,
            error,
        };
        print_line(err, report)?;
    }
    Ok(false)
}
