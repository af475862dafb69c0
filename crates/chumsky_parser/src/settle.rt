//! What is reported of an answer.
ghost use Rattle.std.specs.Prelude.{◌≡◌};
ghost use Rattle.chumsky_input.specs.Held.{held};
ghost use Rattle.chumsky_parser.specs.Settled.{SettlesAs};

use chumsky_input::extra::ParserExtra;
use chumsky_input::input::Input;
use chumsky_input::input_ref::InputRef;
use chumsky_input::stop::{Fault, PResult, Stop};

/// The output of an answer. A failure adds its last error to those that were emitted.
#[inline]
pub fn settle<'src, I: Input<'src>, O, E: ParserExtra<I>>(
    inp: &mut InputRef<'src, '_, I, E>,
    answer: PResult<O>,
) -> Result<Option<O>, Stop>
    ensures settles { SettlesAs E.Error.expectation I.span_between answer (held I.Input E.Error.Error E.State.Inspector inp.old) (held I.Input E.Error.Error E.State.Inspector inp.new) result }
    ensures lent { inp.new.state.ghost_name ≡ inp.old.state.ghost_name }
{
    match answer {
        Ok(value) => Ok(Some(value)),
        Err(Fault::Stop(stop)) => Err(stop),
        Err(Fault::Fail) => match inp.add_last() {
            Ok(()) => Ok(None),
            Err(_) => Err(Stop::Memory),
        },
    }
}
