//! `emit_under`, `check_under`: running a parser under another context than that of the run.
ghost use Rattle.std.specs.Prelude.{◌≡◌, true, false};
ghost use Rattle.chumsky_input.specs.Run.{with_value, without_value};
ghost use Rattle.chumsky_context.specs.Under.{RunsFromParts, RunsUnderContext};

use chumsky_input::aside::Aside;
use chumsky_input::extra::ParserExtra;
use chumsky_input::input::Input;
use chumsky_input::input_ref::{Finished, InputRef};
use chumsky_input::stop::PResult;
use chumsky_parser::parser::Parser;
use std::alloc::Global;

/// What a run that was made of parts comes to: its answer, its last cursor, and its errors.
pub(crate) struct Returned<O, C, E> {
    pub answer: PResult<O>,
    pub cursor: C,
    pub errors: Aside<E>,
}

/// Runs a parser for its output from `cursor`, with `errors` as those of the run so far, on a state and under a context.
pub(crate) fn emit_parts<'src, I: Input<'src>, O, E: ParserExtra<I>, P: Parser<'src, I, O, E>>(
    parser: &P,
    cursor: I::Cursor,
    errors: Aside<E::Error>,
    state: &mut E::State,
    context: &E::Context,
    alloc: Global,
) -> Returned<O, I::Cursor, E::Error>
where
    I::Token: 'src,
    requires { P.ready parser.now }
    ensures { RunsFromParts I.Input E.Error.Error E.State.Inspector (P.meaning parser.now) true context.now
        (cursor, errors, state.old) (result.cursor, result.errors, state.new) (with_value result.answer) }
{
    let mut inp: InputRef<'src, '_, I, E> = InputRef::resume(alloc, cursor, state, context);
    inp.put_errors(errors);
    let answer = parser.go_emit(&mut inp);
    let Finished {
        cursor,
        state: last,
        errors,
    } = inp.finish();
    let _last = &*last;
    Returned {
        answer,
        cursor,
        errors,
    }
}

/// Runs a parser without its output from `cursor`, with `errors` as those of the run so far, on a state and under a context.
pub(crate) fn check_parts<'src, I: Input<'src>, O, E: ParserExtra<I>, P: Parser<'src, I, O, E>>(
    parser: &P,
    cursor: I::Cursor,
    errors: Aside<E::Error>,
    state: &mut E::State,
    context: &E::Context,
    alloc: Global,
) -> Returned<(), I::Cursor, E::Error>
where
    I::Token: 'src,
    requires { P.ready parser.now }
    ensures { RunsFromParts I.Input E.Error.Error E.State.Inspector (P.meaning parser.now) false context.now
        (cursor, errors, state.old) (result.cursor, result.errors, state.new) (without_value result.answer) }
{
    let mut inp: InputRef<'src, '_, I, E> = InputRef::resume(alloc, cursor, state, context);
    inp.put_errors(errors);
    let answer = parser.go_check(&mut inp);
    let Finished {
        cursor,
        state: last,
        errors,
    } = inp.finish();
    let _last = &*last;
    Returned {
        answer,
        cursor,
        errors,
    }
}

/// Runs a parser for its output, from where a run stands, under `context` in place of the run's. The run has its own context
/// back afterwards, and stands where the parser left it. The extra of the parser, `X`, has the run's errors and state.
///
/// A parser type of one's own calls it in its `go_emit`: `emit_under::<I, O, E, X, A>(&self.part, &context, inp)`.
pub fn emit_under<'src, I, O, E, X, P>(
    parser: &P,
    context: &X::Context,
    inp: &mut InputRef<'src, '_, I, E>,
) -> PResult<O>
where
    I: Input<'src>,
    I::Token: 'src,
    E: ParserExtra<I>,
    X: ParserExtra<I, Error = E::Error, State = E::State>,
    P: Parser<'src, I, O, X>,
    requires { P.ready parser.now }
    ensures ran { RunsUnderContext I.Input E.Error.Error E.State.Inspector context.now (P.meaning parser.now) true
        inp.old inp.new (with_value result) }
    ensures lent { inp.new.state.ghost_name ≡ inp.old.state.ghost_name }
{
    let errors = inp.set_aside();
    let here = inp.cursor();
    let alloc = inp.alloc();
    let Returned {
        answer,
        cursor,
        errors,
    } = emit_parts::<I, O, X, P>(parser, here, errors, &mut *inp.state, context, alloc);
    inp.move_to(cursor);
    inp.put_errors(errors);
    answer
}

/// Runs a parser without its output, from where a run stands, under `context` in place of the run's. The run has its own
/// context back afterwards, and stands where the parser left it.
pub fn check_under<'src, I, O, E, X, P>(
    parser: &P,
    context: &X::Context,
    inp: &mut InputRef<'src, '_, I, E>,
) -> PResult<()>
where
    I: Input<'src>,
    I::Token: 'src,
    E: ParserExtra<I>,
    X: ParserExtra<I, Error = E::Error, State = E::State>,
    P: Parser<'src, I, O, X>,
    requires { P.ready parser.now }
    ensures ran { RunsUnderContext I.Input E.Error.Error E.State.Inspector context.now (P.meaning parser.now) false
        inp.old inp.new (without_value result) }
    ensures lent { inp.new.state.ghost_name ≡ inp.old.state.ghost_name }
{
    let errors = inp.set_aside();
    let here = inp.cursor();
    let alloc = inp.alloc();
    let Returned {
        answer,
        cursor,
        errors,
    } = check_parts::<I, O, X, P>(parser, here, errors, &mut *inp.state, context, alloc);
    inp.move_to(cursor);
    inp.put_errors(errors);
    answer
}
