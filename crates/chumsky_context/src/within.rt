//! `emit_within`, `check_within`: running a parser over the whole of another input, in the state and under the context of a run.
ghost use Rattle.std.specs.Prelude.{◌≡◌, true, false, None, Err, [], map, option_map};
ghost use Rattle.chumsky_input.specs.declared.stop.Fault.TheVariants as fault;
ghost use Rattle.chumsky_input.specs.Held.{held};
ghost use Rattle.chumsky_input.specs.Run.{Runs, with_value, without_value};
ghost use Rattle.chumsky_context.specs.Within.{RunsWithin, ToEnd, ReportsRun, ReportsWhole, AddsErrors, report_of};

use chumsky_input::aside::Aside;
use chumsky_input::error::Error;
use chumsky_input::extra::{Full, ParserExtra};
use chumsky_input::input::Input;
use chumsky_input::input_ref::{Finished, InputRef, Located};
use chumsky_input::inspector::Inspector;
use chumsky_input::stop::{Fault, PResult, Stop};
use chumsky_parser::parser::Parser;
use chumsky_primitive::end::End;
use std::alloc::{AllocError, Global};
use std::marker::PhantomData;

/// What a run over an input of its own came to: its answer, the error that it ends with, and those that it emitted.
struct RunReport<U, E> {
    answer: PResult<U>,
    error: Option<E>,
    emitted: Vec<E>,
}

/// Reports the answer of a run, and takes its errors out of it. A stop is reported alone.
fn report_answer<'src, J, U, X>(
    answer: PResult<U>,
    inp: &mut InputRef<'src, '_, J, X>,
) -> RunReport<U, X::Error>
where
    J: Input<'src>,
    J::Token: 'src,
    X: ParserExtra<J>,
    ensures reports { ReportsRun J.Input X.Error.Error X.State.Inspector answer (held J.Input X.Error.Error X.State.Inspector inp.old)
        (report_of result.answer result.error result.emitted.items inp.new.state.now) }
    ensures state { X.State.seen inp.new.state.now ≡ X.State.seen inp.old.state.now }
    ensures lent { inp.new.state.ghost_name ≡ inp.old.state.ghost_name }
{
    match answer {
        Ok(value) => report_kept(Ok(value), inp),
        Err(Fault::Fail) => report_kept(Err(Fault::Fail), inp),
        Err(Fault::Stop(stop)) => stopped(stop, inp.alloc()),
    }
}

/// Reports an answer with the error that the run kept and those that it emitted, and takes them out of it.
fn report_kept<'src, J, U, X>(
    answer: PResult<U>,
    inp: &mut InputRef<'src, '_, J, X>,
) -> RunReport<U, X::Error>
where
    J: Input<'src>,
    J::Token: 'src,
    X: ParserExtra<J>,
    ensures answer { result.answer ≡ answer }
    ensures error { option_map X.Error.seen result.error ≡ option_map (λ e. e.error) (held J.Input X.Error.Error X.State.Inspector inp.old).kept }
    ensures emitted { map X.Error.seen result.emitted.items ≡ (held J.Input X.Error.Error X.State.Inspector inp.old).emitted }
    ensures state { X.State.seen inp.new.state.now ≡ X.State.seen inp.old.state.now }
    ensures lent { inp.new.state.ghost_name ≡ inp.old.state.ghost_name }
{
    let Aside { kept, emitted } = inp.set_aside();
    let error = match kept {
        None => None,
        Some(located) => Some(located.error),
    };
    RunReport {
        answer,
        error,
        emitted,
    }
}

/// Reports a stop, without errors.
fn stopped<U, E>(stop: Stop, alloc: Global) -> RunReport<U, E>
    ensures stops { result.answer ≡ Err (fault.Stop stop) }
    ensures none { result.error ≡ None }
    ensures empty { result.emitted.items ≡ [] }
{
    RunReport {
        answer: Err(Fault::Stop(stop)),
        error: None,
        emitted: Vec::new(alloc),
    }
}

/// Runs a parser for its output, and asks that its input ends there.
fn emit_to_end<'src, J: Input<'src>, U: Drop, X: ParserExtra<J>, P: Parser<'src, J, U, X>>(
    parser: &P,
    inp: &mut InputRef<'src, '_, J, X>,
) -> PResult<U>
    requires { P.ready parser.now }
    ensures ran { Runs J.Input X.Error.Error X.State.Inspector
        (ToEnd J.Input X.Error.Error X.State.Inspector (P.meaning parser.now X.Error.Error X.State.Inspector)) true
        inp.old inp.new (with_value result) }
    ensures lent { inp.new.state.ghost_name ≡ inp.old.state.ghost_name }
{
    let value = parser.go_emit(inp)?;
    let end: End<J, X> = End { of: PhantomData };
    end.go_check(inp)?;
    Ok(value)
}

/// Runs a parser without its output, and asks that its input ends there.
fn check_to_end<'src, J: Input<'src>, U, X: ParserExtra<J>, P: Parser<'src, J, U, X>>(
    parser: &P,
    inp: &mut InputRef<'src, '_, J, X>,
) -> PResult<()>
    requires { P.ready parser.now }
    ensures ran { Runs J.Input X.Error.Error X.State.Inspector
        (ToEnd J.Input X.Error.Error X.State.Inspector (P.meaning parser.now X.Error.Error X.State.Inspector)) false
        inp.old inp.new (without_value result) }
    ensures lent { inp.new.state.ghost_name ≡ inp.old.state.ghost_name }
{
    parser.go_check(inp)?;
    let end: End<J, X> = End { of: PhantomData };
    end.go_check(inp)
}

/// Runs a parser for its output over the whole of an input, on a state and under a context.
fn emit_whole<'src, J: Input<'src>, U: Drop, X: ParserExtra<J>, P: Parser<'src, J, U, X>>(
    parser: &P,
    input: J,
    state: &mut X::State,
    context: &X::Context,
    alloc: Global,
) -> RunReport<U, X::Error>
where
    J::Token: 'src,
    requires { P.ready parser.now }
    ensures { ReportsWhole J.Input X.Error.Error X.State.Inspector (P.meaning parser.now) true input context.now state.old
        (report_of (with_value result.answer) result.error result.emitted.items state.new) }
{
    let mut inp: InputRef<'src, '_, J, X> = InputRef::new(alloc, input, state, context);
    let answer = emit_to_end(parser, &mut inp);
    let report = report_answer(answer, &mut inp);
    let Finished {
        cursor: _,
        state: last,
        errors: _,
    } = inp.finish();
    let _last = &*last;
    report
}

/// Runs a parser without its output over the whole of an input, on a state and under a context.
fn check_whole<'src, J: Input<'src>, U, X: ParserExtra<J>, P: Parser<'src, J, U, X>>(
    parser: &P,
    input: J,
    state: &mut X::State,
    context: &X::Context,
    alloc: Global,
) -> RunReport<(), X::Error>
where
    J::Token: 'src,
    requires { P.ready parser.now }
    ensures { ReportsWhole J.Input X.Error.Error X.State.Inspector (P.meaning parser.now) false input context.now state.old
        (report_of (without_value result.answer) result.error result.emitted.items state.new) }
{
    let mut inp: InputRef<'src, '_, J, X> = InputRef::new(alloc, input, state, context);
    let answer = check_to_end(parser, &mut inp);
    let report = report_answer(answer, &mut inp);
    let Finished {
        cursor: _,
        state: last,
        errors: _,
    } = inp.finish();
    let _last = &*last;
    report
}

/// Adds errors that another run reported: the one that it ended with as a failure at `place`, and those that it emitted after
/// the run's own. Where there is no memory for it, nothing changes but what is kept and emitted.
fn add_errors<'src, I, E>(
    place: usize,
    error: Option<E::Error>,
    emitted: Vec<E::Error>,
    inp: &mut InputRef<'src, '_, I, E>,
) -> Result<(), AllocError>
where
    I: Input<'src>,
    I::Token: 'src,
    E: ParserExtra<I>,
    ensures adds { AddsErrors I.Input E.Error.Error E.State.Inspector
        place error emitted.items inp.old inp.new result }
    ensures lent { inp.new.state.ghost_name ≡ inp.old.state.ghost_name }
{
    let kept = match error {
        None => None,
        Some(error) => Some(Located { place, error }),
    };
    let older = inp.set_aside();
    inp.put_errors(Aside { kept, emitted });
    inp.bring_back(older)
}

/// Runs a parser for its output over the whole of another input, in the state and under the context of a run. The error that
/// it ends with, on success too, counts as one failure of the run, at `place` of the run's input, and the errors that it
/// emitted as the run's. The run is left where it stood.
pub fn emit_within<'src, I, J, U, E, P>(
    parser: &P,
    input: J,
    place: usize,
    inp: &mut InputRef<'src, '_, I, E>,
) -> PResult<U>
where
    I: Input<'src>,
    I::Token: 'src,
    J: Input<'src>,
    J::Token: 'src,
    U: Drop,
    E: ParserExtra<I>,
    E::Error: Error<J>,
    E::State: Inspector<J>,
    P: Parser<'src, J, U, Full<E::Error, E::State, E::Context>>,
    requires { P.ready parser.now }
    ensures ran { RunsWithin J.Input ⟦<E::Error as Error<J>>⟧ ⟦<E::State as Inspector<J>>⟧ I.Input ⟦<E::Error as Error<I>>⟧ ⟦<E::State as Inspector<I>>⟧
        (P.meaning parser.now) place input true inp.old inp.new (with_value result) }
    ensures lent { inp.new.state.ghost_name ≡ inp.old.state.ghost_name }
{
    let context = inp.ctx();
    let alloc = inp.alloc();
    let RunReport {
        answer,
        error,
        emitted,
    } = emit_whole::<J, U, Full<E::Error, E::State, E::Context>, P>(
        parser,
        input,
        &mut *inp.state,
        context,
        alloc,
    );
    add_errors(place, error, emitted, inp)?;
    answer
}

/// Runs a parser without its output over the whole of another input, in the state and under the context of a run; its errors
/// count as those of `emit_within` do.
pub fn check_within<'src, I, J, U, E, P>(
    parser: &P,
    input: J,
    place: usize,
    inp: &mut InputRef<'src, '_, I, E>,
) -> PResult<()>
where
    I: Input<'src>,
    I::Token: 'src,
    J: Input<'src>,
    J::Token: 'src,
    E: ParserExtra<I>,
    E::Error: Error<J>,
    E::State: Inspector<J>,
    P: Parser<'src, J, U, Full<E::Error, E::State, E::Context>>,
    requires { P.ready parser.now }
    ensures ran { RunsWithin J.Input ⟦<E::Error as Error<J>>⟧ ⟦<E::State as Inspector<J>>⟧ I.Input ⟦<E::Error as Error<I>>⟧ ⟦<E::State as Inspector<I>>⟧
        (P.meaning parser.now) place input false inp.old inp.new (without_value result) }
    ensures lent { inp.new.state.ghost_name ≡ inp.old.state.ghost_name }
{
    let context = inp.ctx();
    let alloc = inp.alloc();
    let RunReport {
        answer,
        error,
        emitted,
    } = check_whole::<J, U, Full<E::Error, E::State, E::Context>, P>(
        parser,
        input,
        &mut *inp.state,
        context,
        alloc,
    );
    add_errors(place, error, emitted, inp)?;
    answer
}
