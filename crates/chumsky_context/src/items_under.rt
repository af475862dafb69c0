//! `make_iter_under`, `next_emit_under`, `next_check_under`: running a parser of items under another context than that of the
//! run.
ghost use Rattle.std.specs.Prelude.{◌≡◌, true, false, IfOk, OnSome};
ghost use Rattle.chumsky_input.specs.Run.{with_value};
ghost use Rattle.chumsky_parser.specs.Items.{with_item, without_item};
ghost use Rattle.chumsky_context.specs.Under.{RunsFromParts, RunsUnderContext};

use crate::under::Returned;
use chumsky_input::aside::Aside;
use chumsky_input::extra::ParserExtra;
use chumsky_input::input::Input;
use chumsky_input::input_ref::{Finished, InputRef};
use chumsky_input::stop::PResult;
use chumsky_parser::iter::{IterParser, IterParserDebug};
use std::alloc::Global;

/// Makes an iteration from `cursor`, with `errors` as those of the run so far, on a state and under a context.
fn make_iter_parts<'src, I: Input<'src>, O, E: ParserExtra<I>, P: IterParser<'src, I, O, E>>(
    parser: &P,
    cursor: I::Cursor,
    errors: Aside<E::Error>,
    state: &mut E::State,
    context: &E::Context,
    alloc: Global,
) -> Returned<P::IterState, I::Cursor, E::Error>
where
    I::Token: 'src,
    requires { P.ready parser.now }
    ensures ran { RunsFromParts I.Input E.Error.Error E.State.Inspector (P.begins parser.now) true context.now
        (cursor, errors, state.old) (result.cursor, result.errors, state.new) (with_value result.answer) }
    ensures may { IfOk result.answer (P.may_step parser.now) }
{
    let mut inp: InputRef<'src, '_, I, E> = InputRef::resume(alloc, cursor, state, context);
    inp.put_errors(errors);
    let answer = parser.make_iter(&mut inp);
    let Finished {
        cursor,
        state: last,
        errors,
    } = inp.finish();
    let _last = &*last;
    Returned {
        answer,
        cursor,
        errors,
    }
}

/// Gives the next item from `cursor`, with `errors` as those of the run so far, on a state and under a context.
fn next_emit_parts<'src, I: Input<'src>, O, E: ParserExtra<I>, P: IterParser<'src, I, O, E>>(
    parser: &P,
    items: &mut P::IterState,
    debug: IterParserDebug,
    cursor: I::Cursor,
    errors: Aside<E::Error>,
    state: &mut E::State,
    context: &E::Context,
    alloc: Global,
) -> Returned<Option<O>, I::Cursor, E::Error>
where
    I::Token: 'src,
    requires { P.may_step parser.now items.old }
    ensures ran { RunsFromParts I.Input E.Error.Error E.State.Inspector (P.gives parser.now debug items.old) true context.now
        (cursor, errors, state.old) (result.cursor, result.errors, state.new) (with_item items.new result.answer) }
    ensures may { IfOk result.answer (λ o. OnSome o (P.may_step parser.now items.new)) }
{
    let mut inp: InputRef<'src, '_, I, E> = InputRef::resume(alloc, cursor, state, context);
    inp.put_errors(errors);
    let answer = parser.next_emit(&mut inp, items, debug);
    let Finished {
        cursor,
        state: last,
        errors,
    } = inp.finish();
    let _last = &*last;
    Returned {
        answer,
        cursor,
        errors,
    }
}

/// Tells whether there is a next item from `cursor`, with `errors` as those of the run so far, on a state and under a context.
fn next_check_parts<'src, I: Input<'src>, O, E: ParserExtra<I>, P: IterParser<'src, I, O, E>>(
    parser: &P,
    items: &mut P::IterState,
    debug: IterParserDebug,
    cursor: I::Cursor,
    errors: Aside<E::Error>,
    state: &mut E::State,
    context: &E::Context,
    alloc: Global,
) -> Returned<Option<()>, I::Cursor, E::Error>
where
    I::Token: 'src,
    requires { P.may_step parser.now items.old }
    ensures ran { RunsFromParts I.Input E.Error.Error E.State.Inspector (P.gives parser.now debug items.old) false context.now
        (cursor, errors, state.old) (result.cursor, result.errors, state.new) (without_item items.new result.answer) }
    ensures may { IfOk result.answer (λ o. OnSome o (P.may_step parser.now items.new)) }
{
    let mut inp: InputRef<'src, '_, I, E> = InputRef::resume(alloc, cursor, state, context);
    inp.put_errors(errors);
    let answer = parser.next_check(&mut inp, items, debug);
    let Finished {
        cursor,
        state: last,
        errors,
    } = inp.finish();
    let _last = &*last;
    Returned {
        answer,
        cursor,
        errors,
    }
}

/// Makes an iteration of items that run under `context` in place of the run's. The run has its own context back afterwards.
pub fn make_iter_under<'src, I, O, E, X, P>(
    parser: &P,
    context: &X::Context,
    inp: &mut InputRef<'src, '_, I, E>,
) -> PResult<P::IterState>
where
    I: Input<'src>,
    I::Token: 'src,
    E: ParserExtra<I>,
    X: ParserExtra<I, Error = E::Error, State = E::State>,
    P: IterParser<'src, I, O, X>,
    requires { P.ready parser.now }
    ensures ran { RunsUnderContext I.Input E.Error.Error E.State.Inspector context.now (P.begins parser.now) true
        inp.old inp.new (with_value result) }
    ensures may { IfOk result (P.may_step parser.now) }
    ensures lent { inp.new.state.ghost_name ≡ inp.old.state.ghost_name }
{
    let errors = inp.set_aside();
    let here = inp.cursor();
    let alloc = inp.alloc();
    let Returned {
        answer,
        cursor,
        errors,
    } = make_iter_parts::<I, O, X, P>(parser, here, errors, &mut *inp.state, context, alloc);
    inp.move_to(cursor);
    inp.put_errors(errors);
    answer
}

/// Gives the next item, or none at the end, under `context` in place of the run's.
pub fn next_emit_under<'src, I, O, E, X, P>(
    parser: &P,
    context: &X::Context,
    items: &mut P::IterState,
    debug: IterParserDebug,
    inp: &mut InputRef<'src, '_, I, E>,
) -> PResult<Option<O>>
where
    I: Input<'src>,
    I::Token: 'src,
    E: ParserExtra<I>,
    X: ParserExtra<I, Error = E::Error, State = E::State>,
    P: IterParser<'src, I, O, X>,
    requires { P.may_step parser.now items.old }
    ensures ran { RunsUnderContext I.Input E.Error.Error E.State.Inspector context.now (P.gives parser.now debug items.old) true
        inp.old inp.new (with_item items.new result) }
    ensures may { IfOk result (λ o. OnSome o (P.may_step parser.now items.new)) }
    ensures lent { inp.new.state.ghost_name ≡ inp.old.state.ghost_name }
{
    let errors = inp.set_aside();
    let here = inp.cursor();
    let alloc = inp.alloc();
    let Returned {
        answer,
        cursor,
        errors,
    } = next_emit_parts::<I, O, X, P>(
        parser,
        items,
        debug,
        here,
        errors,
        &mut *inp.state,
        context,
        alloc,
    );
    inp.move_to(cursor);
    inp.put_errors(errors);
    answer
}

/// Tells whether there is a next item under `context` in place of the run's. Nothing is made for the item itself.
pub fn next_check_under<'src, I, O, E, X, P>(
    parser: &P,
    context: &X::Context,
    items: &mut P::IterState,
    debug: IterParserDebug,
    inp: &mut InputRef<'src, '_, I, E>,
) -> PResult<Option<()>>
where
    I: Input<'src>,
    I::Token: 'src,
    E: ParserExtra<I>,
    X: ParserExtra<I, Error = E::Error, State = E::State>,
    P: IterParser<'src, I, O, X>,
    requires { P.may_step parser.now items.old }
    ensures ran { RunsUnderContext I.Input E.Error.Error E.State.Inspector context.now (P.gives parser.now debug items.old) false
        inp.old inp.new (without_item items.new result) }
    ensures may { IfOk result (λ o. OnSome o (P.may_step parser.now items.new)) }
    ensures lent { inp.new.state.ghost_name ≡ inp.old.state.ghost_name }
{
    let errors = inp.set_aside();
    let here = inp.cursor();
    let alloc = inp.alloc();
    let Returned {
        answer,
        cursor,
        errors,
    } = next_check_parts::<I, O, X, P>(
        parser,
        items,
        debug,
        here,
        errors,
        &mut *inp.state,
        context,
        alloc,
    );
    inp.move_to(cursor);
    inp.put_errors(errors);
    answer
}
