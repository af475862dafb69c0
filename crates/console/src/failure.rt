//! Why a program gives no answer, and the statuses that programs end with.
ghost use Rattle.std.specs.Prelude.{◌≡◌, [], ◌∷◌, ◌++◌, Some, OnOk};
ghost use Rattle.std.specs.Io.KnownBytes.{Appends};
ghost use Rattle.chumsky_input.specs.declared.stop.Stop.TheVariants as Why;
ghost use Rattle.console.specs.Failure.{failure_text, complaint, status_of, failure_status, failure_of_rules};
ghost use Rattle.console.specs.declared.failure.Failure.TheVariants.{Refused};

use chumsky::Stop;
use chumsky::recursive::{BuildError, RecursiveError};
use std::alloc::AllocError;
use std::fmt::Display;
use std::io::Write;
use std::{fmt, io};

/// The text is accepted.
pub const ACCEPTED: u8 = 0;

/// The text has errors, which were reported.
pub const REJECTED: u8 = 1;

/// The words, the input or the output are wrong.
pub const FAILED: u8 = 2;

/// The run was refused.
pub const REFUSED: u8 = 3;

/// Why a program gives no answer. It prints as the reason that people are told.
#[derive(Clone, Copy, Debug, PartialEq)]
pub enum Failure {
    /// The words after its name ask for nothing that is known.
    Words,
    /// The input can't be read.
    Unreadable,
    /// The input is not UTF-8.
    NotUtf8,
    /// The output can't be written.
    Unwritable,
    /// The rules make no grammar.
    NoGrammar,
    /// The run was refused, or the program has no memory.
    Refused(Stop),
}

impl From<Stop> for Failure {
    ghost from_gives = { λ stop failure. failure ≡ Refused stop };

    fn from(stop: Stop) -> Failure {
        Failure::Refused(stop)
    }
}

impl From<AllocError> for Failure {
    ghost from_gives = { λ _ failure. failure ≡ Refused Why.Memory };

    fn from(_error: AllocError) -> Failure {
        Failure::Refused(Stop::Memory)
    }
}

impl From<RecursiveError> for Failure {
    ghost from_gives = { λ error failure. failure ≡ failure_of_rules error };

    fn from(error: RecursiveError) -> Failure {
        match error {
            RecursiveError::Declare | RecursiveError::Build(BuildError::Memory) => {
                Failure::Refused(Stop::Memory)
            }
            RecursiveError::Build(BuildError::ForeignNode(_))
            | RecursiveError::Build(BuildError::ForeignRule(_))
            | RecursiveError::Define(_) => Failure::NoGrammar,
        }
    }
}

impl Display for Failure {
    ghost output = { λ failure. Some (failure_text failure) };

    fn fmt<W: fmt::Write>(&self, f: &mut fmt::Formatter<W>) -> fmt::Result {
        match self {
            Failure::Words => write!(f, "wrong words"),
            Failure::Unreadable => write!(f, "cannot read input"),
            Failure::NotUtf8 => write!(f, "input is not UTF-8"),
            Failure::Unwritable => write!(f, "cannot write output"),
            Failure::NoGrammar => write!(f, "refused: no grammar"),
            Failure::Refused(Stop::Memory) => write!(f, "refused: out of memory"),
            Failure::Refused(Stop::TooDeep) => write!(f, "refused: too deep"),
            Failure::Refused(Stop::NoProgress) => write!(f, "refused: no progress"),
            Failure::Refused(Stop::CountTooLarge) => write!(f, "refused: too many"),
        }
    }
}

/// Says in a line why there is no answer: of words that ask for nothing, how the program is called.
pub fn complain<E: Write>(err: &mut E, usage: &str, failure: Failure) -> io::Result<()>
    ensures { OnOk result (Appends (E.contents err.old) (E.contents err.new) (complaint usage.now failure ++ 10 ∷ [])) }
{
    match failure {
        Failure::Words => writeln!(err, "usage: {usage}"),
        other => writeln!(err, "{other}"),
    }
}

/// The status of an answer, which says whether the text is accepted. Where there is none, a line says why, if it can be said at
/// all.
pub fn status_of<E: Write>(err: &mut E, usage: &str, answer: Result<bool, Failure>) -> u8
    ensures { result ≡ status_of answer }
{
    match answer {
        Ok(true) => ACCEPTED,
        Ok(false) => REJECTED,
        Err(failure) => {
            let _ = complain(err, usage, failure);
            failure_status(failure)
        }
    }
}

/// The status of a failure.
fn failure_status(failure: Failure) -> u8
    ensures { result ≡ failure_status failure }
{
    match failure {
        Failure::NoGrammar | Failure::Refused(_) => REFUSED,
        _ => FAILED,
    }
}
