//! How a run ends: the end of input, and the last error of a failure.
ghost use Rattle.std.specs.Prelude.{◌≡◌, false};
ghost use Rattle.chumsky_input.specs.Run.{Runs, without_value};
ghost use Rattle.chumsky_parse_iter.specs.Finish.{Closing, ClosesFrom};

use crate::parse_iter::Phase;
use chumsky_input::aside::Aside;
use chumsky_input::extra::ParserExtra;
use chumsky_input::input::Input;
use chumsky_input::input_ref::{Finished, InputRef};
use chumsky_input::stop::{PResult, Stop};
use chumsky_parser::parser::Parser;
use chumsky_parser::settle::settle;
use chumsky_primitive::end::End;
use std::alloc::Global;
use std::marker::PhantomData;

/// A failure and a refusal stand. Otherwise the end of input is asked for.
fn run_end<'src, I: Input<'src>, E: ParserExtra<I>, S: Drop>(
    phase: Phase<S>,
    inp: &mut InputRef<'src, '_, I, E>,
) -> PResult<()>
    ensures ran { Runs I.Input E.Error.Error E.State.Inspector (Closing I.Input E.Error.Error E.State.Inspector phase) false inp.old inp.new (without_value result) }
    ensures lent { inp.new.state.ghost_name ≡ inp.old.state.ghost_name }
{
    match phase {
        Phase::Refused(fault) => Err(fault),
        _ => {
            let end: End<I, E> = End { of: PhantomData };
            end.go_check(inp)
        }
    }
}

/// What the end of a run gives back: whether it closed, and the errors.
pub(crate) struct Closed<X> {
    pub(crate) answer: Result<Option<()>, Stop>,
    pub(crate) errors: Vec<X>,
}

/// Ends a run, from a cursor, after older errors, in a state and under a context: all errors are emitted then, or it is
/// refused.
pub(crate) fn close_from<'src, I: Input<'src>, E: ParserExtra<I>, S: Drop>(
    phase: Phase<S>,
    cursor: I::Cursor,
    older: Aside<E::Error>,
    state: &mut E::State,
    context: &E::Context,
    alloc: Global,
) -> Closed<E::Error>
where
    I::Token: 'src,
    ensures { ClosesFrom I.Input E.Error.Error E.State.Inspector phase cursor older state.old context.now state.new result.errors.items result.answer }
{
    let mut inp: InputRef<'src, '_, I, E> = InputRef::resume(alloc, cursor, state, context);
    inp.put_errors(older);
    let ended = run_end(phase, &mut inp);
    let answer = settle(&mut inp, ended);
    let Finished {
        cursor: _,
        state: last,
        errors,
    } = inp.finish();
    let _last = &*last;
    Closed {
        answer,
        errors: errors.emitted,
    }
}
