//! Skipping, and trying the failed parser again.
ghost use Rattle.std.specs.Prelude.{◌≡◌, ◌<◌, true, false, None, IfOk, MatchOption, ⊤};
ghost use Rattle.chumsky_input.specs.Held.{held, marks};
ghost use Rattle.chumsky_input.specs.Run.{Runs};
ghost use Rattle.chumsky_recovery.specs.Turns.{with_last, without_last};
ghost use Rattle.chumsky_recovery.specs.Seeking.{RetryTurn};
ghost use Rattle.chumsky_recovery.specs.Retrying.{GoesBackFrom, QuietOrBack};

use crate::strategy::{IsStrategy, Strategy};
use crate::turn::found_or_skipped;
use chumsky_input::extra::ParserExtra;
use chumsky_input::input::Input;
use chumsky_input::input_ref::{Checkpoint, InputRef};
use chumsky_input::inspector::Inspector;
use chumsky_input::stop::{Fault, PResult};
use chumsky_parser::parser::{IsParser, Parser};
use std::alloc::AllocError;

/// Skipping, and trying the failed parser again. See `skip_then_retry_until`.
#[derive(Clone, Copy, Drop)]
pub struct SkipThenRetryUntil<S, U> {
    pub skip: S,
    pub until: U,
}

/// Recovers by skipping once, by `skip`, and running the failed parser again, until it succeeds and emits nothing:
/// `a.recover_with(skip_then_retry_until(any().ignored(), just(';').ignored()))` gives `'a'` of `bca`, and the error of `a`, an
/// `a` expected at 0..1. It fails where `until` succeeds before that, as on `b;a`, which is not taken, or where `skip` fails.
/// A `skip` that takes nothing refuses the run, by `Stop::NoProgress`.
#[inline]
pub fn skip_then_retry_until<S, U>(skip: S, until: U) -> SkipThenRetryUntil<S, U>
    ensures skip { result.skip ≡ skip }
    ensures until { result.until ≡ until }
{
    SkipThenRetryUntil { skip, until }
}

impl<I, O, E, S: IsParser<I, (), E>, U: IsParser<I, (), E>> IsStrategy<I, O, E>
    for SkipThenRetryUntil<S, U> {}

impl<'src, I, O, E, A, S, U> Strategy<'src, I, O, E, A> for SkipThenRetryUntil<S, U>
where
    I: Input<'src>,
    O: Drop,
    E: ParserExtra<I>,
    A: Parser<'src, I, O, E>,
    S: Parser<'src, I, (), E>,
    U: Parser<'src, I, (), E>,
{
    ghost use Rattle.chumsky_parser.specs.Language.{of_unsaid};
    ghost use Rattle.chumsky_recovery.specs.Seeking.{MeansSkipThenRetry};
    ghost use Rattle.chumsky_recovery.specs.SeekingLaws.{skip_then_retry-ends, skip_then_retry-agrees};

    ghost ready = { λ s a. S.ready s.skip × U.ready s.until × A.ready a };

    ghost helps = { λ s a errors states. MeansSkipThenRetry states.mark states.back states.takes_no_memory (U.meaning s.until errors states) (S.meaning s.skip errors states) (A.meaning a errors states) };

    ghost steady = { λ s a. S.steady s.skip × U.steady s.until × A.steady a };

    ghost same = { λ s a. A.same a };

    ghost ends_after_start = { λ s a. skip_then_retry-ends _ _ _ _ _ _ (U.ends_after_start s.until) (S.ends_after_start s.skip) (A.ends_after_start a) };

    ghost agrees = { λ s a t. skip_then_retry-agrees _ _ _ _ _ _ (U.same s.until) (S.same s.skip) (A.same a) (U.agrees s.until t.1) (S.agrees s.skip t.0) (A.agrees a t.2) };

    ghost accepts = { λ _ _. of_unsaid };

    #[inline]
    fn recover_emit(&self, parser: &A, inp: &mut InputRef<'src, '_, I, E>) -> PResult<O> {
        loop {
            let answer = retry_emit(self, parser, inp)?;
            match answer {
                Some(value) => return Ok(value),
                None => {}
            }
        }
    }

    #[inline]
    fn recover_check(&self, parser: &A, inp: &mut InputRef<'src, '_, I, E>) -> PResult<()> {
        loop {
            let answer = retry_check(self, parser, inp)?;
            match answer {
                Some(()) => return Ok(()),
                None => {}
            }
        }
    }
}

/// One turn: where `until` is not here, skips, and runs the parser; an output beside which it emitted something, and a
/// failure, are gone back from, and leave nothing.
#[inline]
fn retry_emit<'src, I, O, E, S, U, A>(
    strategy: &SkipThenRetryUntil<S, U>,
    parser: &A,
    inp: &mut InputRef<'src, '_, I, E>,
) -> PResult<Option<O>>
where
    I: Input<'src>,
    O: Drop,
    E: ParserExtra<I>,
    S: Parser<'src, I, (), E>,
    U: Parser<'src, I, (), E>,
    A: Parser<'src, I, O, E>,
    requires until { U.ready strategy.now.until }
    requires skip { S.ready strategy.now.skip }
    requires parser { A.ready parser.now }
    requires none_kept { (held I.Input E.Error.Error E.State.Inspector inp.old).kept ≡ None }
    ensures ran { Runs I.Input E.Error.Error E.State.Inspector
        (RetryTurn E.State.mark E.State.back E.State.takes_no_memory
        (U.meaning strategy.now.until E.Error.Error E.State.Inspector)
        (S.meaning strategy.now.skip E.Error.Error E.State.Inspector)
        (A.meaning parser.now E.Error.Error E.State.Inspector)) true inp.old inp.new (with_last result) }
    ensures none_kept { IfOk result (λ o. MatchOption o
        ((held I.Input E.Error.Error E.State.Inspector inp.new).kept ≡ None) (λ _. ⊤)) }
    ensures onward { IfOk result (λ o. MatchOption o (
        (held I.Input E.Error.Error E.State.Inspector inp.old).place <
        (held I.Input E.Error.Error E.State.Inspector inp.new).place) (λ _. ⊤)) }
    ensures lent { inp.new.state.ghost_name ≡ inp.old.state.ghost_name }
{
    let found = found_or_skipped::<O, I, (), (), E, U, S>(&strategy.until, &strategy.skip, inp)?;
    inp.put_kept(None);
    if found {
        return Err(Fault::Fail);
    }
    let before = inp.save()?;
    let answer = parser.go_emit(inp);
    if_quiet(&before, answer, inp)
}

/// The same without the output.
#[inline]
fn retry_check<'src, I, O, E, S, U, A>(
    strategy: &SkipThenRetryUntil<S, U>,
    parser: &A,
    inp: &mut InputRef<'src, '_, I, E>,
) -> PResult<Option<()>>
where
    I: Input<'src>,
    O: Drop,
    E: ParserExtra<I>,
    S: Parser<'src, I, (), E>,
    U: Parser<'src, I, (), E>,
    A: Parser<'src, I, O, E>,
    requires until { U.ready strategy.now.until }
    requires skip { S.ready strategy.now.skip }
    requires parser { A.ready parser.now }
    requires none_kept { (held I.Input E.Error.Error E.State.Inspector inp.old).kept ≡ None }
    ensures ran { Runs I.Input E.Error.Error E.State.Inspector
        (RetryTurn E.State.mark E.State.back E.State.takes_no_memory
        (U.meaning strategy.now.until E.Error.Error E.State.Inspector)
        (S.meaning strategy.now.skip E.Error.Error E.State.Inspector)
        (A.meaning parser.now E.Error.Error E.State.Inspector)) false inp.old inp.new (without_last result) }
    ensures none_kept { IfOk result (λ o. MatchOption o
        ((held I.Input E.Error.Error E.State.Inspector inp.new).kept ≡ None) (λ _. ⊤)) }
    ensures onward { IfOk result (λ o. MatchOption o (
        (held I.Input E.Error.Error E.State.Inspector inp.old).place <
        (held I.Input E.Error.Error E.State.Inspector inp.new).place) (λ _. ⊤)) }
    ensures lent { inp.new.state.ghost_name ≡ inp.old.state.ghost_name }
{
    let found = found_or_skipped::<O, I, (), (), E, U, S>(&strategy.until, &strategy.skip, inp)?;
    inp.put_kept(None);
    if found {
        return Err(Fault::Fail);
    }
    let before = inp.save()?;
    let answer = parser.go_check(inp);
    if_quiet(&before, answer, inp)
}

/// An output beside which nothing was emitted; else what was kept is dropped, and the run goes back.
#[inline]
fn if_quiet<'src, V: Drop, I: Input<'src>, E: ParserExtra<I>>(
    before: &Checkpoint<I::Cursor, <E::State as Inspector<I>>::Mark>,
    answer: PResult<V>,
    inp: &mut InputRef<'src, '_, I, E>,
) -> PResult<Option<V>>
    requires { (marks I.Input E.State.Inspector before.now).tokens ≡
        (held I.Input E.Error.Error E.State.Inspector inp.old).tokens }
    ensures ends { QuietOrBack E.State.back E.State.takes_no_memory (marks I.Input E.State.Inspector before.now)
        (held I.Input E.Error.Error E.State.Inspector inp.old)
        (held I.Input E.Error.Error E.State.Inspector inp.new) answer result }
    ensures lent { inp.new.state.ghost_name ≡ inp.old.state.ghost_name }
{
    match answer {
        Ok(value) => {
            if inp.emitted_count() == before.emitted {
                return Ok(Some(value));
            }
            drop(value);
            forget(before, inp)?;
            Ok(None)
        }
        Err(Fault::Stop(stop)) => Err(Fault::Stop(stop)),
        Err(Fault::Fail) => {
            forget(before, inp)?;
            Ok(None)
        }
    }
}

/// Drops what is kept, and goes back.
#[inline]
fn forget<'src, I: Input<'src>, E: ParserExtra<I>>(
    before: &Checkpoint<I::Cursor, <E::State as Inspector<I>>::Mark>,
    inp: &mut InputRef<'src, '_, I, E>,
) -> Result<(), AllocError>
    requires { (marks I.Input E.State.Inspector before.now).tokens ≡
        (held I.Input E.Error.Error E.State.Inspector inp.old).tokens }
    ensures back { GoesBackFrom E.State.back E.State.takes_no_memory (marks I.Input E.State.Inspector before.now)
        (held I.Input E.Error.Error E.State.Inspector inp.old)
        (held I.Input E.Error.Error E.State.Inspector inp.new) result }
    ensures lent { inp.new.state.ghost_name ≡ inp.old.state.ghost_name }
{
    inp.put_kept(None);
    inp.rewind(before)
}

/// `skip_then_retry_until(s, u)` is ready and steady where both parsers and the failed one are.
pub fn skip_then_retry_until_is_steady<
    'src,
    I: Input<'src>,
    O: Drop,
    E: ParserExtra<I>,
    A: Parser<'src, I, O, E>,
    S: Parser<'src, I, (), E>,
    U: Parser<'src, I, (), E>,
>(strategy: &SkipThenRetryUntil<S, U>, parser: &A)
    ensures ready { S.ready strategy.now.skip → U.ready strategy.now.until → A.ready parser.now →
        ⟦<SkipThenRetryUntil<S, U> as Strategy<'src, I, O, E, A>>⟧.ready strategy.now parser.now }
    ensures steady { S.steady strategy.now.skip → U.steady strategy.now.until → A.steady parser.now →
        ⟦<SkipThenRetryUntil<S, U> as Strategy<'src, I, O, E, A>>⟧.steady strategy.now parser.now }
    ensures same { (x y : O) → ⟦<SkipThenRetryUntil<S, U> as Strategy<'src, I, O, E, A>>⟧.same strategy.now parser.now x
        y →
        A.same parser.now x y }
{}
