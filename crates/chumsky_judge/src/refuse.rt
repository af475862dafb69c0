//! Failures of a part that ran with nothing kept, and of what it took and is not wanted.
ghost use Rattle.std.specs.Prelude.{◌≡◌, option_map};
ghost use Rattle.chumsky_input.specs.Held.{located};
ghost use Rattle.chumsky_judge.specs.Calls.{Changes, FailsWith};
ghost use Rattle.chumsky_judge.specs.Judged.{something_else, FailsAsOne};

use chumsky_input::error::Error;
use chumsky_input::extra::ParserExtra;
use chumsky_input::input::Input;
use chumsky_input::input_ref::{InputRef, Located};
use chumsky_input::inspector::Inspector;
use chumsky_input::stop::{Fault, Stop};
use chumsky_input::util::Plain;

/// A failure at a cursor, where something else was expected than the token there, with the span to another cursor.
#[inline]
pub(crate) fn something_else<'src, I: Input<'src>, E: ParserExtra<I>>(
    from: &I::Cursor,
    to: &I::Cursor,
    inp: &mut InputRef<'src, '_, I, E>,
) -> Fault
    requires { I.cursor_tokens to.now ≡ I.cursor_tokens from.now }
    ensures fails { FailsWith I.Input E.Error.Error E.State.Inspector
        (something_else I.Input E.Error.Error (I.cursor_tokens from.now) (I.place from.now) (I.place to.now)) inp.old inp.new result }
    ensures lent { inp.new.state.ghost_name ≡ inp.old.state.ghost_name }
{
    let mut ahead = *from;
    let found = I::next_maybe(&mut ahead);
    inp.expected(from, to, Plain::SomethingElse, found)
}

/// A failure of a part that ran with nothing kept: its failures count as one, after what was kept before.
#[inline]
pub(crate) fn fail_as_one<'src, I: Input<'src>, E: ParserExtra<I>>(
    older: Option<Located<E::Error>>,
    inp: &mut InputRef<'src, '_, I, E>,
) -> Fault
    ensures fails { Changes I.Input E.Error.Error E.State.Inspector
        (λ old new. FailsAsOne E.Error.merged E.Error.takes_no_memory (option_map (located E.Error.seen) older) old new result)
        inp.old inp.new }
    ensures lent { inp.new.state.ghost_name ≡ inp.old.state.ghost_name }
{
    match inp.keep_before(older) {
        Ok(()) => Fault::Fail,
        Err(_) => Fault::Stop(Stop::Memory),
    }
}
