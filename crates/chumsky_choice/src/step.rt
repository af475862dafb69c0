//! One more alternative of a choice.
ghost use Rattle.std.specs.Prelude.{◌≡◌, true, false};
ghost use Rattle.chumsky_input.specs.Run.{with_value, without_value};
ghost use Rattle.chumsky_choice.specs.Next.{RunsNext};

use chumsky_input::extra::ParserExtra;
use chumsky_input::input::Input;
use chumsky_input::input_ref::{Checkpoint, InputRef};
use chumsky_input::inspector::Inspector;
use chumsky_input::stop::{Fault, PResult};
use chumsky_parser::parser::Parser;

/// After a failure goes back to the checkpoint and runs the next alternative; any other answer stands.
#[inline(always)]
pub fn emit_next<'src, I: Input<'src>, O, E: ParserExtra<I>, P: Parser<'src, I, O, E>>(
    tried: PResult<O>,
    next: &P,
    inp: &mut InputRef<'src, '_, I, E>,
    before: &Checkpoint<I::Cursor, <E::State as Inspector<I>>::Mark>,
) -> PResult<O>
    requires ready { P.ready next.now }
    requires tokens { I.cursor_tokens before.now.cursor ≡ I.cursor_tokens inp.old.cursor }
    ensures tries { RunsNext I.Input E.Error.Error E.State.Inspector
        before.now (P.meaning next.now) true inp.old inp.new (with_value tried) (with_value result) }
    ensures tokens { I.cursor_tokens before.now.cursor ≡ I.cursor_tokens inp.new.cursor }
    ensures lent { inp.new.state.ghost_name ≡ inp.old.state.ghost_name }
{
    match tried {
        Ok(value) => Ok(value),
        Err(Fault::Stop(stop)) => Err(Fault::Stop(stop)),
        Err(Fault::Fail) => {
            inp.rewind(before)?;
            next.go_emit(inp)
        }
    }
}

/// The same without outputs.
#[inline(always)]
pub fn check_next<'src, I: Input<'src>, O, E: ParserExtra<I>, P: Parser<'src, I, O, E>>(
    tried: PResult<()>,
    next: &P,
    inp: &mut InputRef<'src, '_, I, E>,
    before: &Checkpoint<I::Cursor, <E::State as Inspector<I>>::Mark>,
) -> PResult<()>
    requires ready { P.ready next.now }
    requires tokens { I.cursor_tokens before.now.cursor ≡ I.cursor_tokens inp.old.cursor }
    ensures tries { RunsNext I.Input E.Error.Error E.State.Inspector
        before.now (P.meaning next.now) false inp.old inp.new (without_value tried) (without_value result) }
    ensures tokens { I.cursor_tokens before.now.cursor ≡ I.cursor_tokens inp.new.cursor }
    ensures lent { inp.new.state.ghost_name ≡ inp.old.state.ghost_name }
{
    match tried {
        Ok(()) => Ok(()),
        Err(Fault::Stop(stop)) => Err(Fault::Stop(stop)),
        Err(Fault::Fail) => {
            inp.rewind(before)?;
            next.go_check(inp)
        }
    }
}
