//! One turn of a strategy that skips: what it looks for, or else what it skips by.
ghost use Rattle.std.specs.Prelude.{◌≡◌, ◌<◌, Bool, false, IfOk};
ghost use Rattle.chumsky_input.specs.Held.{held};
ghost use Rattle.chumsky_input.specs.Run.{Runs};
ghost use Rattle.chumsky_recovery.specs.Turns.{if_last, again_after};
ghost use Rattle.chumsky_recovery.specs.Seeking.{Seeks, SkipsOn};

use chumsky_input::extra::ParserExtra;
use chumsky_input::input::Input;
use chumsky_input::input_ref::InputRef;
use chumsky_input::stop::{Fault, PResult, Stop};
use chumsky_parser::parser::Parser;

/// Whether `until` is here, which is then taken; where it fails, gone back, `skip` is taken.
#[inline]
pub(crate) fn found_or_skipped<'src, X, I, V, W, E, U, S>(
    until: &U,
    skip: &S,
    inp: &mut InputRef<'src, '_, I, E>,
) -> PResult<bool>
where
    I: Input<'src>,
    E: ParserExtra<I>,
    U: Parser<'src, I, V, E>,
    S: Parser<'src, I, W, E>,
    requires until { U.ready until.now }
    requires skip { S.ready skip.now }
    ensures ran { (w : Bool) → Runs I.Input E.Error.Error E.State.Inspector
        (Seeks {X = X} E.State.mark E.State.back E.State.takes_no_memory
        (U.meaning until.now E.Error.Error E.State.Inspector) (S.meaning skip.now E.Error.Error E.State.Inspector))
        w inp.old inp.new (if_last result) }
    ensures onward { IfOk result (λ found. found ≡ false →
        (held I.Input E.Error.Error E.State.Inspector inp.old).place <
        (held I.Input E.Error.Error E.State.Inspector inp.new).place) }
    ensures lent { inp.new.state.ghost_name ≡ inp.old.state.ghost_name }
{
    let before = inp.save()?;
    match until.go_check(inp) {
        Ok(()) => Ok(true),
        Err(Fault::Stop(stop)) => Err(Fault::Stop(stop)),
        Err(Fault::Fail) => {
            inp.rewind(&before)?;
            skip_on::<X, I, W, E, S>(skip, inp)?;
            Ok(false)
        }
    }
}

/// Takes what `skip` takes, which must be something.
#[inline]
fn skip_on<'src, X, I: Input<'src>, W, E: ParserExtra<I>, S: Parser<'src, I, W, E>>(
    skip: &S,
    inp: &mut InputRef<'src, '_, I, E>,
) -> PResult<()>
    requires { S.ready skip.now }
    ensures ran { (w : Bool) → Runs I.Input E.Error.Error E.State.Inspector
        (SkipsOn {X = X} (S.meaning skip.now E.Error.Error E.State.Inspector))
        w inp.old inp.new (again_after result) }
    ensures onward { IfOk result (λ _.
        (held I.Input E.Error.Error E.State.Inspector inp.old).place <
        (held I.Input E.Error.Error E.State.Inspector inp.new).place) }
    ensures lent { inp.new.state.ghost_name ≡ inp.old.state.ghost_name }
{
    let start = I::place(&inp.cursor());
    skip.go_check(inp)?;
    if I::place(&inp.cursor()) == start {
        return Err(Fault::Stop(Stop::NoProgress));
    }
    Ok(())
}
