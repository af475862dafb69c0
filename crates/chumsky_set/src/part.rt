//! One part of a set: offered in a round, and run at last.
ghost use Rattle.std.specs.Prelude.{◌≡◌, IfOk, Some, None};
ghost use Rattle.chumsky_set.specs.AnyOrder.{still};
ghost use Rattle.chumsky_set.specs.Doing.{DoesMissing, DoesMoving, DoesOffered, RunsDoing};
ghost use Rattle.chumsky_set.specs.Passes.{shown_by, slot_of, taken_then, Lessens};

use crate::mode::Runs;
use chumsky_input::extra::ParserExtra;
use chumsky_input::input::Input;
use chumsky_input::input_ref::InputRef;
use chumsky_input::stop::{Fault, PResult};
use chumsky_parser::parser::Parser;

/// Runs a part, and fails where it did not move.
#[inline]
fn moving<
    'src,
    I: Input<'src>,
    O,
    E: ParserExtra<I>,
    P: Parser<'src, I, O, E>,
    R: Drop,
    D: Runs<'src, I, O, E, P, R>,
>(mode: &D, part: &P, inp: &mut InputRef<'src, '_, I, E>) -> PResult<R>
    requires { P.ready part.now }
    ensures ran { RunsDoing I.Input E.Error.Error E.State.Inspector (DoesMoving (P.meaning part.now))
        D.wanted inp.old inp.new (shown_by (λ r. Some (Some (D.shown r))) result) }
    ensures lent { inp.new.state.ghost_name ≡ inp.old.state.ghost_name }
{
    let start = I::place(&inp.cursor());
    let value = mode.go(part, inp)?;
    if start < I::place(&inp.cursor()) {
        Ok(value)
    } else {
        Err(Fault::Fail)
    }
}

/// Offers the input to a part that is not taken yet: where it moves it is taken, otherwise it is gone back from.
#[inline]
fn attempt<
    'src,
    I: Input<'src>,
    O,
    E: ParserExtra<I>,
    P: Parser<'src, I, O, E>,
    R: Drop,
    D: Runs<'src, I, O, E, P, R>,
>(mode: &D, part: &P, inp: &mut InputRef<'src, '_, I, E>) -> PResult<Option<R>>
    requires { P.ready part.now }
    ensures ran { RunsDoing I.Input E.Error.Error E.State.Inspector (DoesOffered (P.meaning part.now) None)
        D.wanted inp.old inp.new (shown_by (λ r. Some (slot_of D.shown r)) result) }
    ensures lent { inp.new.state.ghost_name ≡ inp.old.state.ghost_name }
{
    let before = inp.save()?;
    match moving(mode, part, inp) {
        Ok(value) => Ok(Some(value)),
        Err(Fault::Stop(stop)) => Err(Fault::Stop(stop)),
        Err(Fault::Fail) => {
            inp.rewind(&before)?;
            Ok(None)
        }
    }
}

/// A part's turn in a round, and whether it was taken in it.
#[inline]
pub fn offer<
    'src,
    I: Input<'src>,
    O,
    E: ParserExtra<I>,
    P: Parser<'src, I, O, E>,
    R: Drop,
    D: Runs<'src, I, O, E, P, R>,
>(mode: &D, part: &P, slot: &mut Option<R>, inp: &mut InputRef<'src, '_, I, E>) -> PResult<bool>
    requires { P.ready part.now }
    ensures ran { RunsDoing I.Input E.Error.Error E.State.Inspector
        (DoesOffered (P.meaning part.now) (slot_of D.shown slot.old)) D.wanted
        inp.old inp.new (taken_then (slot_of D.shown slot.new) result) }
    ensures lessens { IfOk result (Lessens (still (slot_of D.shown slot.old)) (still (slot_of D.shown slot.new))) }
    ensures lent { inp.new.state.ghost_name ≡ inp.old.state.ghost_name }
{
    if slot.is_some() {
        return Ok(false);
    }
    let taken = attempt(mode, part, inp)?;
    let more = taken.is_some();
    *slot = taken;
    Ok(more)
}

/// A part's turn in the last pass: it runs if it is not taken.
#[inline]
pub fn complete<
    'src,
    I: Input<'src>,
    O,
    E: ParserExtra<I>,
    P: Parser<'src, I, O, E>,
    R,
    D: Runs<'src, I, O, E, P, R>,
>(mode: &D, part: &P, slot: Option<R>, inp: &mut InputRef<'src, '_, I, E>) -> PResult<R>
    requires { P.ready part.now }
    ensures ran { RunsDoing I.Input E.Error.Error E.State.Inspector
        (DoesMissing (P.meaning part.now) (slot_of D.shown slot)) D.wanted
        inp.old inp.new (shown_by D.shown result) }
    ensures lent { inp.new.state.ghost_name ≡ inp.old.state.ghost_name }
{
    match slot {
        Some(value) => Ok(value),
        None => mode.go(part, inp),
    }
}
