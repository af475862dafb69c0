//! Skipping to what is known again, with a value in place of what was skipped.
ghost use Rattle.std.specs.Prelude.{◌≡◌, Bool};
ghost use Rattle.chumsky_input.specs.Run.{Runs, without_value};
ghost use Rattle.chumsky_recovery.specs.Turns.{AllTurns};
ghost use Rattle.chumsky_recovery.specs.Seeking.{Seeks};

use crate::strategy::{IsStrategy, Strategy};
use crate::turn::found_or_skipped;
use chumsky_input::extra::ParserExtra;
use chumsky_input::input::Input;
use chumsky_input::input_ref::InputRef;
use chumsky_input::stop::PResult;
use chumsky_parser::parser::{IsParser, Parser};

/// What makes an output out of nothing. Each closure `Fn() -> O` is one.
pub trait Fallback<O> {
    ghost use Rattle.std.specs.Prelude.{⊤};

    /// That it may be called. Where nothing is said, it may.
    ghost callable: { Self → Type 0 } = { λ fallback. ⊤ };

    /// What it may give. Where nothing is said, nothing is known of it.
    ghost gives: { Self → O → Type 0 } = { λ fallback output. ⊤ };

    /// The output.
    fn fallback(&self) -> O
        requires { callable self.now }
        ensures { gives self.now result };
}

impl<O, F: Fn() -> O> Fallback<O> for F {
    ghost callable = { λ f. F.IsAlwaysCallable f };

    ghost gives = { λ f output. F.post f output };

    #[inline]
    fn fallback(&self) -> O {
        (*self)()
    }
}

/// Skipping to what is known again. See `skip_until`.
#[derive(Clone, Copy, Drop)]
pub struct SkipUntil<S, U, F> {
    pub skip: S,
    pub until: U,
    pub fallback: F,
}

/// Recovers by skipping, by `skip`, until `until` succeeds, which is taken; the output is what `fallback` gives, a closure
/// without arguments, or a type with an impl of `Fallback`: `a.recover_with(skip_until(any().ignored(),
/// just(';').ignored(), || 'z'))` gives `'z'` of `bc;`, and the error of `a`, an `a` expected at 0..1. It fails where `skip`
/// fails before `until` succeeds, as on `bc`. A `skip` that takes nothing refuses the run, by `Stop::NoProgress`.
#[inline]
pub fn skip_until<S, U, F>(skip: S, until: U, fallback: F) -> SkipUntil<S, U, F>
    ensures skip { result.skip ≡ skip }
    ensures until { result.until ≡ until }
    ensures fallback { result.fallback ≡ fallback }
{
    SkipUntil {
        skip,
        until,
        fallback,
    }
}

impl<I, O, E, S: IsParser<I, (), E>, U: IsParser<I, (), E>, F> IsStrategy<I, O, E>
    for SkipUntil<S, U, F> {}

impl<'src, I, O, E, A, S, U, F> Strategy<'src, I, O, E, A> for SkipUntil<S, U, F>
where
    I: Input<'src>,
    E: ParserExtra<I>,
    S: Parser<'src, I, (), E>,
    U: Parser<'src, I, (), E>,
    F: Fallback<O>,
{
    ghost use Rattle.chumsky_parser.specs.Language.{of_unsaid};
    ghost use Rattle.chumsky_recovery.specs.Seeking.{MeansSkipUntil};
    ghost use Rattle.chumsky_recovery.specs.SeekingLaws.{BothGiven, skip_until-ends, skip_until-agrees};

    ghost ready = { λ s a. S.ready s.skip × U.ready s.until × F.callable s.fallback };

    ghost helps = { λ s a errors states. MeansSkipUntil states.mark states.back states.takes_no_memory (U.meaning s.until errors states) (S.meaning s.skip errors states) (F.gives s.fallback) };

    ghost steady = { λ s a. S.steady s.skip × U.steady s.until };

    ghost same = { λ s a. BothGiven (F.gives s.fallback) };

    ghost ends_after_start = { λ s a. skip_until-ends _ _ _ _ _ (F.gives s.fallback) (U.ends_after_start s.until) (S.ends_after_start s.skip) };

    ghost agrees = { λ s a t. skip_until-agrees _ _ _ _ _ (F.gives s.fallback) (U.same s.until) (S.same s.skip) (U.agrees s.until t.1) (S.agrees s.skip t.0) };

    ghost accepts = { λ _ _. of_unsaid };

    #[inline]
    fn recover_emit(&self, parser: &A, inp: &mut InputRef<'src, '_, I, E>) -> PResult<O> {
        skip_to(&self.until, &self.skip, inp)?;
        Ok(self.fallback.fallback())
    }

    #[inline]
    fn recover_check(&self, parser: &A, inp: &mut InputRef<'src, '_, I, E>) -> PResult<()> {
        skip_to(&self.until, &self.skip, inp)
    }
}

/// Turns, until what is looked for is found.
#[inline]
fn skip_to<'src, I, E, U, S>(until: &U, skip: &S, inp: &mut InputRef<'src, '_, I, E>) -> PResult<()>
where
    I: Input<'src>,
    E: ParserExtra<I>,
    U: Parser<'src, I, (), E>,
    S: Parser<'src, I, (), E>,
    requires until { U.ready until.now }
    requires skip { S.ready skip.now }
    ensures ran { (w : Bool) → Runs I.Input E.Error.Error E.State.Inspector
        (AllTurns {V = Unit {0}} (Seeks E.State.mark E.State.back E.State.takes_no_memory
        (U.meaning until.now E.Error.Error E.State.Inspector) (S.meaning skip.now E.Error.Error E.State.Inspector)))
        w inp.old inp.new (without_value result) }
    ensures lent { inp.new.state.ghost_name ≡ inp.old.state.ghost_name }
{
    loop {
        let found = found_or_skipped::<(), I, (), (), E, U, S>(until, skip, inp)?;
        if found {
            return Ok(());
        }
    }
}

/// `skip_until(s, u, f)` is ready where both parsers are and `f` may be called, and steady where both parsers are; two
/// outputs are the same where `f` may give both.
pub fn skip_until_is_steady<
    'src,
    I: Input<'src>,
    O,
    E: ParserExtra<I>,
    A,
    S: Parser<'src, I, (), E>,
    U: Parser<'src, I, (), E>,
    F: Fallback<O>,
>(strategy: &SkipUntil<S, U, F>, parser: &A)
    ensures ready { S.ready strategy.now.skip → U.ready strategy.now.until → F.callable strategy.now.fallback →
        ⟦<SkipUntil<S, U, F> as Strategy<'src, I, O, E, A>>⟧.ready strategy.now parser.now }
    ensures steady { S.steady strategy.now.skip → U.steady strategy.now.until →
        ⟦<SkipUntil<S, U, F> as Strategy<'src, I, O, E, A>>⟧.steady strategy.now parser.now }
    ensures same { (x y : O) → ⟦<SkipUntil<S, U, F> as Strategy<'src, I, O, E, A>>⟧.same strategy.now parser.now x y →
        F.gives strategy.now.fallback x × F.gives strategy.now.fallback y }
{}
