//! One run of a program: over any input and any outputs, or over those of the process.
ghost use Rattle.std.specs.Prelude.{◌≤◌};

use crate::failure::{Failure, REFUSED, status_of};
use chumsky::Stop;
use std::alloc::Global;
use std::io::{BufWriter, ErrorKind, Read, Write};
use std::process::ExitCode;
use std::{env, io};

/// A program that reads a text.
pub trait Program {
    /// How it is called, as `show ini|log`.
    fn usage(&self) -> &'static str;

    /// Reads the text that the words ask for, prints what it has on `out`, and reports its errors on `err`. Says whether the text
    /// is accepted.
    fn answer<R: Read, W: Write, E: Write>(
        &self,
        alloc: Global,
        words: &[String],
        input: &mut R,
        out: &mut W,
        err: &mut E,
    ) -> Result<bool, Failure>;
}

/// Runs a program on the words after its name. The result is its exit status: 0 where the text is accepted, 1 where it has errors,
/// which are reported on `err`, 2 where the words, the input or the output are wrong, and 3 where the run was refused; of these two
/// a line on `err` says why.
pub fn run<P: Program, R: Read, W: Write, E: Write>(
    program: &P,
    alloc: Global,
    words: &[String],
    input: &mut R,
    out: &mut W,
    err: &mut E,
) -> u8
    ensures { result ≤ REFUSED }
{
    let answer = program.answer(alloc, words, input, out, err);
    status_of(err, program.usage(), answer)
}

/// The words after the program's name.
pub fn words_of(rt: &HostRuntime, alloc: Global) -> Result<Vec<String>, Failure> {
    match arguments(rt, alloc) {
        Ok(words) => Ok(words),
        Err(error) if error.kind() == ErrorKind::OutOfMemory => Err(Failure::Refused(Stop::Memory)),
        Err(_) => Err(Failure::Words),
    }
}

/// The process's arguments but for the first. One that isn't UTF-8 is an error.
fn arguments(rt: &HostRuntime, alloc: Global) -> io::Result<Vec<String>> {
    let mut arguments = env::args(rt)?;
    let _program = arguments.next();
    Ok(arguments.collect(alloc)?)
}

/// Runs a program on the process's words, input and outputs, through buffers.
pub fn start<P: Program>(rt: &HostRuntime, program: &P) -> ExitCode {
    let status = match buffered(rt, program) {
        Ok(status) => status,
        Err(failure) => status_of(&mut rt.stderr(), program.usage(), Err(failure)),
    };
    ExitCode::from(status)
}

/// The status of such a run, if there is memory for its words and its buffers.
fn buffered<P: Program>(rt: &HostRuntime, program: &P) -> Result<u8, Failure> {
    let alloc = rt.alloc();
    let words = words_of(rt, alloc)?;
    let mut out = buffer(alloc, io::writer(rt))?;
    let mut err = buffer(alloc, rt.stderr())?;
    let mut input = rt.reader();
    let status = run(
        program,
        alloc,
        words.as_slice(),
        &mut input,
        &mut out,
        &mut err,
    );
    let status = flushed(&mut out, &mut err, program.usage(), status);
    let _ = err.flush();
    Ok(status)
}

/// A buffer before a writer.
pub fn buffer<W: Write + Drop>(alloc: Global, writer: W) -> Result<BufWriter<W>, Failure> {
    BufWriter::new(alloc, writer).map_err(|_| Failure::Refused(Stop::Memory))
}

/// Writes what the output still holds. Where that can't be done, says so, and changes the status.
fn flushed<W: Write, E: Write>(out: &mut W, err: &mut E, usage: &str, status: u8) -> u8
    requires { status ≤ REFUSED }
    ensures { result ≤ REFUSED }
{
    match out.flush() {
        Ok(()) => status,
        Err(_) => status_of(err, usage, Err(Failure::Unwritable)),
    }
}
