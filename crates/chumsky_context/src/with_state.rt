//! `WithState`: a parser on a state of its own.
ghost use Rattle.std.specs.Prelude.{◌≡◌, true, false};
ghost use Rattle.chumsky_input.specs.Run.{Runs, with_value, without_value};
ghost use Rattle.chumsky_context.specs.OnState.{OnState, CopiesCount};

use crate::under::{Returned, check_parts, emit_parts};
use chumsky_input::extra::{Full, ParserExtra};
use chumsky_input::input::{Input, Tokens};
use chumsky_input::input_ref::InputRef;
use chumsky_input::inspector::Inspector;
use chumsky_input::stop::PResult;
use chumsky_parser::moving::Moving;
use chumsky_parser::parser::{IsParser, Parser};
use std::marker::PhantomData;

/// A parser that runs on a copy of a state, made for each run, in place of the run's own. See `with_state`.
#[derive(Drop)]
#[derive_where(Clone, Copy; A, S)]
pub struct WithState<A, S, I> {
    pub parser: A,
    pub state: S,
    pub of: PhantomData<I>,
}

impl<I: Tokens, O, E: ParserExtra<I>, A: IsParser<I, O, Full<E::Error, S, E::Context>>, S> IsParser<
    I,
    O,
    E,
> for WithState<A, S, I> {}

impl<'src, I, O, E, A, S> Parser<'src, I, O, E> for WithState<A, S, I>
where
    I: Input<'src>,
    I::Token: 'src,
    E: ParserExtra<I>,
    S: Inspector<I> + Clone + Drop,
    A: Parser<'src, I, O, Full<E::Error, S, E::Context>>,
{
    ghost use Rattle.chumsky_context.specs.OnState.{OnCopy, CopiesCount};
    ghost use Rattle.chumsky_context.specs.OnStateLaws.{on_copy-ends, on_copy-agrees};
    ghost use Rattle.chumsky_context.specs.UnderLanguage.{on_copy_language, on_copy-accepts};

    ghost ready = { λ p. A.ready p.parser };

    ghost meaning = { λ p errors states. OnCopy (S.is_clone p.state) (S.is_infallible p.state) S.seen (A.meaning p.parser errors S.Inspector) };

    ghost steady = { λ p. A.steady p.parser × CopiesCount (S.is_clone p.state) S.seen };

    ghost same = { λ p. A.same p.parser };

    ghost ends_after_start = { λ p. on_copy-ends _ _ _ _ (A.ends_after_start p.parser) };

    ghost agrees = { λ p s. on_copy-agrees _ _ _ _ s.1 (A.same p.parser) (A.agrees p.parser s.0) };

    ghost language = { λ p. on_copy_language (S.is_infallible p.state × S.takes_no_memory) (A.language p.parser) };

    ghost accepts = { λ p. on_copy-accepts _ _ _ _ (A.accepts p.parser) };

    #[inline]
    fn go_emit(&self, inp: &mut InputRef<'src, '_, I, E>) -> PResult<O> {
        let mut state = self.state.clone()?;
        emit_on(&self.parser, &mut state, inp)
    }

    #[inline]
    fn go_check(&self, inp: &mut InputRef<'src, '_, I, E>) -> PResult<()> {
        let mut state = self.state.clone()?;
        check_on(&self.parser, &mut state, inp)
    }
}

/// Runs a parser for its output, from where a run stands, on `state` in place of the run's. The run has its own state back
/// afterwards, as it was.
pub fn emit_on<'src, I, O, S, E, P>(
    parser: &P,
    state: &mut S,
    inp: &mut InputRef<'src, '_, I, E>,
) -> PResult<O>
where
    I: Input<'src>,
    I::Token: 'src,
    S: Inspector<I>,
    E: ParserExtra<I>,
    P: Parser<'src, I, O, Full<E::Error, S, E::Context>>,
    requires { P.ready parser.now }
    ensures ran { Runs I.Input E.Error.Error E.State.Inspector (OnState (P.meaning parser.now E.Error.Error S.Inspector) (S.seen state.old)) true inp.old inp.new (with_value result) }
    ensures lent { inp.new.state.ghost_name ≡ inp.old.state.ghost_name }
{
    let errors = inp.set_aside();
    let Returned {
        answer,
        cursor,
        errors,
    } = emit_parts::<I, O, Full<E::Error, S, E::Context>, P>(
        parser,
        inp.cursor(),
        errors,
        state,
        inp.ctx(),
        inp.alloc(),
    );
    inp.move_to(cursor);
    inp.put_errors(errors);
    answer
}

/// Runs a parser without its output, from where a run stands, on `state` in place of the run's. The run has its own state
/// back afterwards, as it was.
pub fn check_on<'src, I, O, S, E, P>(
    parser: &P,
    state: &mut S,
    inp: &mut InputRef<'src, '_, I, E>,
) -> PResult<()>
where
    I: Input<'src>,
    I::Token: 'src,
    S: Inspector<I>,
    E: ParserExtra<I>,
    P: Parser<'src, I, O, Full<E::Error, S, E::Context>>,
    requires { P.ready parser.now }
    ensures ran { Runs I.Input E.Error.Error E.State.Inspector (OnState (P.meaning parser.now E.Error.Error S.Inspector) (S.seen state.old)) false inp.old inp.new (without_value result) }
    ensures lent { inp.new.state.ghost_name ≡ inp.old.state.ghost_name }
{
    let errors = inp.set_aside();
    let Returned {
        answer,
        cursor,
        errors,
    } = check_parts::<I, O, Full<E::Error, S, E::Context>, P>(
        parser,
        inp.cursor(),
        errors,
        state,
        inp.ctx(),
        inp.alloc(),
    );
    inp.move_to(cursor);
    inp.put_errors(errors);
    answer
}

impl<'src, I, O, E, A, S> Moving<'src, I, O, E> for WithState<A, S, I>
where
    I: Input<'src>,
    I::Token: 'src,
    E: ParserExtra<I>,
    S: Inspector<I> + Clone + Drop,
    A: Moving<'src, I, O, Full<E::Error, S, E::Context>>,
{
    ghost use Rattle.chumsky_context.specs.UnderLanguage.{on_copy-moves};

    ghost moves = { λ p. A.moves p.parser };

    ghost moved = { λ p e. on_copy-moves _ _ _ _ (A.moved p.parser e) };

    fn always_moves(&self) -> bool
        ensures { result ≡ A.moves self.now.parser }
    {
        self.parser.always_moves()
    }
}

/// `with_state` is steady where its part is, and any two copies of the state count as the same.
pub fn with_state_is_steady<'src, I, O, E, A, S>(parser: &WithState<A, S, I>)
where
    I: Input<'src>,
    I::Token: 'src,
    E: ParserExtra<I>,
    S: Inspector<I> + Clone + Drop,
    A: Parser<'src, I, O, Full<E::Error, S, E::Context>>,
    ensures ready { A.ready parser.now.parser → ⟦<WithState<A, S, I> as Parser<'src, I, O, E>>⟧.ready parser.now }
    ensures steady { A.steady parser.now.parser → CopiesCount (S.is_clone parser.now.state) S.seen → ⟦<WithState<A, S, I> as Parser<'src, I, O, E>>⟧.steady parser.now }
    ensures same { (x y : O) → ⟦<WithState<A, S, I> as Parser<'src, I, O, E>>⟧.same parser.now x y → A.same parser.now.parser x y }
{}
