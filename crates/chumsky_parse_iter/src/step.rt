//! One step of an iteration, from what a run holds between its steps.
ghost use Rattle.std.specs.Prelude.{◌≡◌, true, false, IfOk, IfSome};
ghost use Rattle.chumsky_input.specs.Run.{Runs};
ghost use Rattle.chumsky_parse_iter.specs.Walk.{with_next, DoesFirstStep, DoesStep, RunsFrom, RunsBetween, MayStep};

use crate::parse_iter::Parts;
use chumsky_input::aside::Aside;
use chumsky_input::extra::ParserExtra;
use chumsky_input::input::Input;
use chumsky_input::input_ref::{Finished, InputRef};
use chumsky_input::stop::PResult;
use chumsky_parser::iter::{IterParser, IterParserDebug};
use std::alloc::Global;
use std::mem;

/// What a step gives back: its answer, where its cursor stands, and the errors.
struct Returned<A, C, X> {
    answer: A,
    cursor: C,
    errors: Aside<X>,
}

/// The next item, and the iteration that goes on.
#[inline]
fn run_next<'src, I: Input<'src>, O, E: ParserExtra<I>, P: IterParser<'src, I, O, E>>(
    parser: &P,
    iteration: P::IterState,
    inp: &mut InputRef<'src, '_, I, E>,
) -> PResult<Option<(O, P::IterState)>>
    requires { P.may_step parser.now iteration }
    ensures ran { Runs I.Input E.Error.Error E.State.Inspector (P.gives parser.now (record { nonconsumption_is_ok = false }) iteration E.Error.Error E.State.Inspector) true inp.old inp.new (with_next result) }
    ensures may { IfOk result (λ o. IfSome o (λ x. P.may_step parser.now x.1)) }
    ensures lent { inp.new.state.ghost_name ≡ inp.old.state.ghost_name }
{
    let mut iteration = iteration;
    let debug = IterParserDebug {
        nonconsumption_is_ok: false,
    };
    match parser.next_emit(inp, &mut iteration, debug)? {
        None => Ok(None),
        Some(item) => Ok(Some((item, iteration))),
    }
}

/// The first item: the iteration is made, and asked for it.
#[inline]
fn run_first<'src, I: Input<'src>, O, E: ParserExtra<I>, P: IterParser<'src, I, O, E>>(
    parser: &P,
    inp: &mut InputRef<'src, '_, I, E>,
) -> PResult<Option<(O, P::IterState)>>
    requires { P.ready parser.now }
    ensures ran { Runs I.Input E.Error.Error E.State.Inspector (DoesFirstStep (P.begins parser.now) (P.gives parser.now) E.Error.Error E.State.Inspector) true inp.old inp.new (with_next result) }
    ensures may { IfOk result (λ o. IfSome o (λ x. P.may_step parser.now x.1)) }
    ensures lent { inp.new.state.ghost_name ≡ inp.old.state.ghost_name }
{
    let iteration = parser.make_iter(inp)?;
    run_next::<I, O, E, P>(parser, iteration, inp)
}

/// The first item, or one of an iteration that was made.
#[inline]
fn run_step<'src, I: Input<'src>, O, E: ParserExtra<I>, P: IterParser<'src, I, O, E>>(
    parser: &P,
    iteration: Option<P::IterState>,
    inp: &mut InputRef<'src, '_, I, E>,
) -> PResult<Option<(O, P::IterState)>>
    requires { MayStep (P.ready parser.now) (P.may_step parser.now) iteration }
    ensures ran { Runs I.Input E.Error.Error E.State.Inspector (DoesStep (P.begins parser.now) (P.gives parser.now) iteration E.Error.Error E.State.Inspector) true inp.old inp.new (with_next result) }
    ensures may { IfOk result (λ o. IfSome o (λ x. P.may_step parser.now x.1)) }
    ensures lent { inp.new.state.ghost_name ≡ inp.old.state.ghost_name }
{
    match iteration {
        None => run_first::<I, O, E, P>(parser, inp),
        Some(iteration) => run_next::<I, O, E, P>(parser, iteration, inp),
    }
}

/// The same from a cursor, after older errors, in a state and under a context.
fn step_from<'src, I, O, E, P>(
    parser: &P,
    iteration: Option<P::IterState>,
    cursor: I::Cursor,
    older: Aside<E::Error>,
    state: &mut E::State,
    context: &E::Context,
    alloc: Global,
) -> Returned<PResult<Option<(O, P::IterState)>>, I::Cursor, E::Error>
where
    I: Input<'src>,
    I::Token: 'src,
    E: ParserExtra<I>,
    P: IterParser<'src, I, O, E>,
    requires { MayStep (P.ready parser.now) (P.may_step parser.now) iteration }
    ensures ran { RunsFrom I.Input E.Error.Error E.State.Inspector (DoesStep (P.begins parser.now) (P.gives parser.now) iteration)
        context.now cursor older state.old result.cursor result.errors state.new result.answer }
    ensures may { IfOk result.answer (λ o. IfSome o (λ x. P.may_step parser.now x.1)) }
{
    let mut inp: InputRef<'src, '_, I, E> = InputRef::resume(alloc, cursor, state, context);
    inp.put_errors(older);
    let answer = run_step::<I, O, E, P>(parser, iteration, &mut inp);
    let Finished {
        cursor,
        state: last,
        errors,
    } = inp.finish();
    let _last = &*last;
    Returned {
        answer,
        cursor,
        errors,
    }
}

/// The same from what a run holds between its steps.
pub(crate) fn ask<'src, I, O, E, P>(
    parser: &P,
    iteration: Option<P::IterState>,
    parts: &mut Parts<I::Cursor, E::Error, E::State, E::Context>,
) -> PResult<Option<(O, P::IterState)>>
where
    I: Input<'src>,
    I::Token: 'src,
    E: ParserExtra<I>,
    P: IterParser<'src, I, O, E>,
    requires { MayStep (P.ready parser.now) (P.may_step parser.now) iteration }
    ensures ran { RunsBetween I.Input E.Error.Error E.State.Inspector (DoesStep (P.begins parser.now) (P.gives parser.now) iteration) parts.old parts.new result }
    ensures may { IfOk result (λ o. IfSome o (λ x. P.may_step parser.now x.1)) }
{
    let none = Aside {
        kept: None,
        emitted: Vec::new(parts.alloc),
    };
    let older = mem::replace(&mut parts.errors, none);
    let Returned {
        answer,
        cursor,
        errors,
    } = step_from::<I, O, E, P>(
        parser,
        iteration,
        parts.cursor,
        older,
        &mut parts.state,
        &parts.context,
        parts.alloc,
    );
    parts.cursor = cursor;
    parts.errors = errors;
    answer
}
