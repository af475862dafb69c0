//! A mapper that may refuse, and is shown the run.
ghost use Rattle.std.specs.Prelude.{◌≡◌, ⊤};
ghost use Rattle.chumsky_input.specs.Extra.{KeepsState, MayAnswer};
ghost use Rattle.chumsky_judge.specs.Calls.{RunsAnyway};
ghost use Rattle.chumsky_judge.specs.Vetted.{Vetted};
ghost use Rattle.chumsky_judge.specs.TriedWith.{ByTryWith, TriesWithAlike, SameTriedWith};

use crate::refuse::fail_as_one;
use chumsky_input::error::Error;
use chumsky_input::extra::ParserExtra;
use chumsky_input::input::Input;
use chumsky_input::input_ref::InputRef;
use chumsky_input::inspector::Inspector;
use chumsky_input::map_extra::{MapExtra, call_with_extra};
use chumsky_input::stop::{Fault, PResult};
use chumsky_parser::moving::Moving;
use chumsky_parser::parser::{IsParser, Parser};
use std::marker::PhantomData;

/// A parser whose output goes through a closure that is shown the run and may refuse. See `try_map_with`.
#[derive(Drop)]
#[derive_where(Clone, Copy; A, F)]
pub struct TryMapWith<A, O, F, U> {
    pub parser: A,
    pub mapper: F,
    pub of: PhantomData<(O, U)>,
}

impl<I, O, U, E, A: IsParser<I, O, E>, F> IsParser<I, U, E> for TryMapWith<A, O, F, U> {}

impl<'src, I, O, U, E, A, F> Parser<'src, I, U, E> for TryMapWith<A, O, F, U>
where
    I: Input<'src>,
    U: Drop,
    E: ParserExtra<I>,
    A: Parser<'src, I, O, E>,
    F: Fn(O, &mut MapExtra<'src, '_, I, E>) -> Result<U, E::Error>,
{
    ghost use Rattle.chumsky_judge.specs.TriedWith.{TriesWithAlike, SameTriedWith};
    ghost use Rattle.chumsky_judge.specs.TriedWithLaws.{tries_with-alike};
    ghost use Rattle.chumsky_judge.specs.VettedLaws.{vetted-ends, vetted-agrees};
    ghost use Rattle.chumsky_judge.specs.JudgedLanguage.{unsaid_over, vetted_unsaid-accepts};

    ghost ready = { λ p. A.ready p.parser × KeepsState I.Input E.State.Inspector F.Fn p.mapper };

    ghost meaning = { λ p errors states. Vetted errors.merged ⊤ (ByTryWith errors.seen (MayAnswer I.Input states F.Fn p.mapper)) (A.meaning p.parser errors states) };

    ghost steady = { λ p. A.steady p.parser × TriesWithAlike E.Error.seen (MayAnswer I.Input E.State.Inspector F.Fn p.mapper) (A.same p.parser) };

    ghost same = { λ p. SameTriedWith E.Error.seen (MayAnswer I.Input E.State.Inspector F.Fn p.mapper) (A.same p.parser) };

    ghost ends_after_start = { λ p. vetted-ends _ _ _ _ (A.ends_after_start p.parser) };

    ghost agrees = { λ p s. vetted-agrees _ _ _ _ (A.same p.parser) _ (A.agrees p.parser s.0) (tries_with-alike _ _ (A.same p.parser) s.1) };

    ghost language = { λ p. unsaid_over (A.language p.parser) };

    ghost accepts = { λ p. vetted_unsaid-accepts _ _ _ _ (λ _. tt) (A.accepts p.parser) };

    #[inline]
    fn go_emit(&self, inp: &mut InputRef<'src, '_, I, E>) -> PResult<U> {
        attempt_with(self, inp)
    }

    #[inline]
    fn go_check(&self, inp: &mut InputRef<'src, '_, I, E>) -> PResult<()> {
        let output = attempt_with(self, inp)?;
        drop(output);
        Ok(())
    }
}

/// Runs the part with nothing kept, and calls the closure on its output.
#[inline]
fn attempt_with<'src, I, O, U, E, A, F>(
    try_map: &TryMapWith<A, O, F, U>,
    inp: &mut InputRef<'src, '_, I, E>,
) -> PResult<U>
where
    I: Input<'src>,
    U: Drop,
    E: ParserExtra<I>,
    A: Parser<'src, I, O, E>,
    F: Fn(O, &mut MapExtra<'src, '_, I, E>) -> Result<U, E::Error>,
    requires part { A.ready try_map.now.parser }
    requires mapper { KeepsState I.Input E.State.Inspector F.Fn try_map.now.mapper }
    ensures ran { RunsAnyway I.Input E.Error.Error E.State.Inspector
        (⟦<TryMapWith<A, O, F, U> as Parser<'src, I, U, E>>⟧.meaning try_map.now) inp.old inp.new result }
    ensures lent { inp.new.state.ghost_name ≡ inp.old.state.ghost_name }
{
    let start = inp.cursor();
    let older = inp.take_kept();
    match try_map.parser.go_emit(inp) {
        Ok(value) => match call_with_extra(&try_map.mapper, value, &start, inp) {
            Ok(output) => {
                inp.keep_before(older)?;
                Ok(output)
            }
            Err(error) => {
                inp.put_kept(older);
                Err(inp.add_event(I::place(&start), error))
            }
        },
        Err(Fault::Fail) => Err(fail_as_one(older, inp)),
        Err(Fault::Stop(stop)) => Err(Fault::Stop(stop)),
    }
}

impl<'src, I, O, U, E, A, F> Moving<'src, I, U, E> for TryMapWith<A, O, F, U>
where
    I: Input<'src>,
    U: Drop,
    E: ParserExtra<I>,
    A: Moving<'src, I, O, E>,
    F: Fn(O, &mut MapExtra<'src, '_, I, E>) -> Result<U, E::Error>,
{
    ghost use Rattle.chumsky_judge.specs.JudgedMoves.{vetted-moves};

    ghost moves = { λ p. A.moves p.parser };

    ghost moved = { λ p e. vetted-moves _ _ _ _ (A.moved p.parser e) };

    fn always_moves(&self) -> bool
        ensures { result ≡ A.moves self.now.parser }
    {
        self.parser.always_moves()
    }
}

/// When it is ready and steady, and which outputs are the same: `a.try_map_with(f)`.
pub fn try_map_with_is_steady<
    'src,
    I: Input<'src>,
    O,
    U: Drop,
    E: ParserExtra<I>,
    A: Parser<'src, I, O, E>,
    F: Fn(O, &mut MapExtra<'src, '_, I, E>) -> Result<U, E::Error>,
>(try_map: &TryMapWith<A, O, F, U>)
    ensures ready { A.ready try_map.now.parser → KeepsState I.Input E.State.Inspector F.Fn try_map.now.mapper → ⟦<TryMapWith<A, O, F, U> as Parser<'src, I, U, E>>⟧.ready try_map.now }
    ensures steady { A.steady try_map.now.parser → TriesWithAlike E.Error.seen (MayAnswer I.Input E.State.Inspector F.Fn try_map.now.mapper) (A.same try_map.now.parser) → ⟦<TryMapWith<A, O, F, U> as Parser<'src, I, U, E>>⟧.steady try_map.now }
    ensures same { (x y : U) → ⟦<TryMapWith<A, O, F, U> as Parser<'src, I, U, E>>⟧.same try_map.now x y → SameTriedWith E.Error.seen (MayAnswer I.Input E.State.Inspector F.Fn try_map.now.mapper) (A.same try_map.now.parser) x y }
{}
