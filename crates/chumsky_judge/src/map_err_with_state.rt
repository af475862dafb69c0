//! A parser whose failures are mapped by a closure that is handed the state.
ghost use Rattle.std.specs.Prelude.{◌≡◌};
ghost use Rattle.chumsky_judge.specs.Calls.{Changes, SameButState};
ghost use Rattle.chumsky_judge.specs.MapErr.{MapsWithState, MapsKeptOf, MapsOnceFrom};

use chumsky_input::error::Error;
use chumsky_input::extra::ParserExtra;
use chumsky_input::input::{Input, Tokens};
use chumsky_input::input_ref::{InputRef, Located};
use chumsky_input::inspector::Inspector;
use chumsky_input::stop::{Fault, PResult};
use chumsky_parser::moving::Moving;
use chumsky_parser::parser::{IsParser, Parser};

/// A parser whose failures are mapped by a closure that is handed the state. See `map_err_with_state`.
#[derive(Clone, Copy, Drop)]
pub struct MapErrWithState<A, F> {
    pub parser: A,
    pub mapper: F,
}

impl<I, O, E, A: IsParser<I, O, E>, F> IsParser<I, O, E> for MapErrWithState<A, F> {}

impl<'src, I, O, E, A, F> Parser<'src, I, O, E> for MapErrWithState<A, F>
where
    I: Input<'src>,
    O: Drop,
    E: ParserExtra<I>,
    A: Parser<'src, I, O, E>,
    F: Fn(E::Error, I::Span, &mut E::State) -> E::Error,
{
    ghost use Rattle.chumsky_judge.specs.MapErr.{MapsOnceFrom, MeansMapErr};
    ghost use Rattle.chumsky_judge.specs.MapErrLaws.{map_err-ends, map_err-agrees, spanned-once};
    ghost use Rattle.chumsky_judge.specs.JudgedLanguage.{map_err-accepts};

    ghost ready = { λ p. A.ready p.parser × F.IsAlwaysCallable p.mapper };

    ghost meaning = { λ p errors states. MeansMapErr errors.merged (λ x. MapsWithState errors states F.Fn p.mapper (I.span_between x.tokens x.from x.to) x.state) (A.meaning p.parser errors states) };

    ghost steady = { λ p. A.steady p.parser × ((span : I.Span) → MapsOnceFrom (MapsWithState E.Error.Error E.State.Inspector F.Fn p.mapper span)) };

    ghost same = { λ p. A.same p.parser };

    ghost ends_after_start = { λ p. map_err-ends _ _ _ (A.ends_after_start p.parser) };

    ghost agrees = { λ p s. map_err-agrees _ _ _ (A.same p.parser) (spanned-once I.span_between s.1) (A.agrees p.parser s.0) };

    ghost language = { λ p. A.language p.parser };

    ghost accepts = { λ p. map_err-accepts _ _ _ (A.accepts p.parser) };

    #[inline]
    fn go_emit(&self, inp: &mut InputRef<'src, '_, I, E>) -> PResult<O> {
        let start = inp.cursor();
        let older = inp.take_kept();
        match self.parser.go_emit(inp) {
            Ok(value) => {
                inp.keep_before(older)?;
                Ok(value)
            }
            Err(Fault::Fail) => {
                let span = I::span(&start, &inp.cursor());
                Err(map_kept_with_state(&self.mapper, span, older, inp))
            }
            Err(Fault::Stop(stop)) => Err(Fault::Stop(stop)),
        }
    }

    #[inline]
    fn go_check(&self, inp: &mut InputRef<'src, '_, I, E>) -> PResult<()> {
        let start = inp.cursor();
        let older = inp.take_kept();
        match self.parser.go_check(inp) {
            Ok(()) => {
                inp.keep_before(older)?;
                Ok(())
            }
            Err(Fault::Fail) => {
                let span = I::span(&start, &inp.cursor());
                Err(map_kept_with_state(&self.mapper, span, older, inp))
            }
            Err(Fault::Stop(stop)) => Err(Fault::Stop(stop)),
        }
    }
}

/// A failure of a part that ran with nothing kept: the error that it kept is mapped, after what was kept before.
#[inline]
fn map_kept_with_state<'src, I, E, F>(
    mapper: &F,
    span: I::Span,
    older: Option<Located<E::Error>>,
    inp: &mut InputRef<'src, '_, I, E>,
) -> Fault
where
    I: Input<'src>,
    E: ParserExtra<I>,
    F: Fn(E::Error, I::Span, &mut E::State) -> E::Error,
    requires { F.IsAlwaysCallable mapper.now }
    ensures maps { MapsKeptOf I.Input E.Error.Error E.State.Inspector
        (λ held. MapsWithState E.Error.Error E.State.Inspector F.Fn mapper.now span held.state) older inp.old inp.new result }
    ensures lent { inp.new.state.ghost_name ≡ inp.old.state.ghost_name }
{
    match inp.take_kept() {
        None => {
            inp.put_kept(older);
            Fault::Fail
        }
        Some(kept) => {
            let error = call_with_state(mapper, kept.error, span, inp);
            inp.put_kept(older);
            inp.add_event(kept.place, error)
        }
    }
}

/// Calls a mapper with an error, a span and the run's state.
#[inline]
fn call_with_state<'src, I, E, F>(
    mapper: &F,
    error: E::Error,
    span: I::Span,
    inp: &mut InputRef<'src, '_, I, E>,
) -> E::Error
where
    I: Input<'src>,
    E: ParserExtra<I>,
    F: Fn(E::Error, I::Span, &mut E::State) -> E::Error,
    requires { F.IsAlwaysCallable mapper.now }
    ensures maps { MapsWithState E.Error.Error E.State.Inspector F.Fn mapper.now span
        (E.State.seen inp.old.state.now) (E.Error.seen error) (E.Error.seen result) (E.State.seen inp.new.state.now) }
    ensures moves { Changes I.Input E.Error.Error E.State.Inspector SameButState inp.old inp.new }
    ensures lent { inp.new.state.ghost_name ≡ inp.old.state.ghost_name }
{
    mapper(error, span, &mut *inp.state)
}

impl<'src, I, O, E, A, F> Moving<'src, I, O, E> for MapErrWithState<A, F>
where
    I: Input<'src>,
    O: Drop,
    E: ParserExtra<I>,
    A: Moving<'src, I, O, E>,
    F: Fn(E::Error, I::Span, &mut E::State) -> E::Error,
{
    ghost use Rattle.chumsky_judge.specs.JudgedMoves.{map_err-moves};

    ghost moves = { λ p. A.moves p.parser };

    ghost moved = { λ p e. map_err-moves _ _ _ (A.moved p.parser e) };

    fn always_moves(&self) -> bool
        ensures { result ≡ A.moves self.now.parser }
    {
        self.parser.always_moves()
    }
}

/// When it is ready and steady, and which outputs are the same: `a.map_err_with_state(f)`, where `f` gives one error and
/// leaves one state, to each error, span and state.
pub fn map_err_with_state_is_steady<
    'src,
    I: Input<'src>,
    O: Drop,
    E: ParserExtra<I>,
    A: Parser<'src, I, O, E>,
    F: Fn(E::Error, I::Span, &mut E::State) -> E::Error,
>(map_err: &MapErrWithState<A, F>)
    ensures ready { A.ready map_err.now.parser → F.IsAlwaysCallable map_err.now.mapper → ⟦<MapErrWithState<A, F> as Parser<'src, I, O, E>>⟧.ready map_err.now }
    ensures steady { A.steady map_err.now.parser → ((span : I.Span) → MapsOnceFrom (MapsWithState E.Error.Error E.State.Inspector F.Fn map_err.now.mapper span)) → ⟦<MapErrWithState<A, F> as Parser<'src, I, O, E>>⟧.steady map_err.now }
    ensures same { (x y : O) → ⟦<MapErrWithState<A, F> as Parser<'src, I, O, E>>⟧.same map_err.now x y → A.same map_err.now.parser x y }
{}
