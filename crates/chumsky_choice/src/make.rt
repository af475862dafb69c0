//! The function that makes a choice.
ghost use Rattle.std.specs.Prelude.{◌≡◌};

use crate::choice::Choice;

/// The first of several parsers that doesn't fail, each run from the same place: `choice((just("let"), just("fn")))`.
///
/// The parsers are those of a tuple of up to eight, or of a slice, a `Vec` or an array; all have one output. After a
/// failure, and before the next one, the run goes back to where the first began, by one mark of the state. Where all
/// fail it stays where the last one left it. One parser by itself runs as it would alone. Of an empty slice, `Vec` or
/// array the choice fails with nothing expected.
#[inline]
pub fn choice<T>(parsers: T) -> Choice<T>
    ensures { result.parsers ≡ parsers }
{
    Choice { parsers }
}
