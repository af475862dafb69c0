//! A parser with a strategy for where it fails.
ghost use Rattle.std.specs.Prelude.{◌≡◌, true, false, None, IfOk, option_map, ◌⊎◌};
ghost use Rattle.chumsky_input.specs.Held.{held, located, marks};
ghost use Rattle.chumsky_input.specs.Run.{Runs, with_value, without_value, final_error};
ghost use Rattle.chumsky_recovery.specs.Recovered.{MarkedOrHelp};
ghost use Rattle.chumsky_recovery.specs.Recovering.{TakesAside, TellsOrFails, TellsLast, CountsAsOne, failed_seen};

use crate::strategy::{IsStrategy, Strategy};
use chumsky_input::error::Error;
use chumsky_input::extra::ParserExtra;
use chumsky_input::input::Input;
use chumsky_input::input_ref::{Checkpoint, InputRef, Located, One};
use chumsky_input::inspector::Inspector;
use chumsky_input::stop::{Fault, PResult};
use chumsky_parser::parser::{IsParser, Parser};
use std::alloc::AllocError;

/// A parser with a strategy for where it fails. See `recover_with`.
#[derive(Clone, Copy, Drop)]
pub struct RecoverWith<A, S> {
    pub parser: A,
    pub strategy: S,
}

impl<I, O, E, A: IsParser<I, O, E>, S: IsStrategy<I, O, E>> IsParser<I, O, E>
    for RecoverWith<A, S> {}

/// A failure that was taken aside: what it kept, and where it left the run.
#[derive(Drop)]
pub struct Failed<C, E> {
    pub kept: Option<Located<E>>,
    pub end: C,
}

impl<'src, I, O, E, A, S> Parser<'src, I, O, E> for RecoverWith<A, S>
where
    I: Input<'src>,
    O: Drop,
    E: ParserExtra<I>,
    A: Parser<'src, I, O, E>,
    S: Strategy<'src, I, O, E, A>,
{
    ghost use Rattle.chumsky_input.specs.Run.{final_error};
    ghost use Rattle.chumsky_parser.specs.Choice.{SameEither};
    ghost use Rattle.chumsky_recovery.specs.Recovered.{MeansRecovered};
    ghost use Rattle.chumsky_recovery.specs.RecoveredLanguage.{recovered_language, recovered-accepts};
    ghost use Rattle.chumsky_recovery.specs.RecoveredLaws.{recovered-ends, recovered-agrees};
    ghost use Rattle.chumsky_recovery.specs.StrategyLaws.{agreeing-either, agreeing-or};

    ghost ready = { λ p. A.ready p.parser × S.ready p.strategy p.parser };

    ghost meaning = { λ p errors states. MeansRecovered errors.merged (final_error errors.expectation I.span_between) states.mark states.back states.takes_no_memory (A.meaning p.parser errors states) (S.helps p.strategy p.parser errors states) };

    ghost steady = { λ p. A.steady p.parser × S.steady p.strategy p.parser };

    ghost same = { λ p. SameEither (A.same p.parser) (S.same p.strategy p.parser) };

    ghost language = { λ p. recovered_language (A.language p.parser) (S.language p.strategy p.parser) };

    ghost ends_after_start = { λ p. recovered-ends _ _ _ _ _ _ _ (A.ends_after_start p.parser) (S.ends_after_start p.strategy p.parser) };

    ghost agrees = { λ p s. recovered-agrees _ _ _ _ _ _ _ (SameEither (A.same p.parser) (S.same p.strategy p.parser)) (agreeing-either (A.same p.parser) (S.same p.strategy p.parser) _ (A.agrees p.parser s.0)) (agreeing-or (A.same p.parser) (S.same p.strategy p.parser) _ (S.agrees p.strategy p.parser s.1)) };

    ghost accepts = { λ p. recovered-accepts _ _ _ _ _ _ _ (A.accepts p.parser) (S.accepts p.strategy p.parser) };

    #[inline]
    fn go_emit(&self, inp: &mut InputRef<'src, '_, I, E>) -> PResult<O> {
        let older = inp.take_kept();
        let answer = recovered_emit(self, inp);
        count_as_one(older, answer, inp)
    }

    #[inline]
    fn go_check(&self, inp: &mut InputRef<'src, '_, I, E>) -> PResult<()> {
        let older = inp.take_kept();
        let answer = recovered_check(self, inp);
        count_as_one(older, answer, inp)
    }
}

/// Runs the parser, and the strategy where it fails, with nothing kept.
#[inline]
fn recovered_emit<'src, I, O, E, A, S>(
    whole: &RecoverWith<A, S>,
    inp: &mut InputRef<'src, '_, I, E>,
) -> PResult<O>
where
    I: Input<'src>,
    O: Drop,
    E: ParserExtra<I>,
    A: Parser<'src, I, O, E>,
    S: Strategy<'src, I, O, E, A>,
    requires parser { A.ready whole.now.parser }
    requires strategy { S.ready whole.now.strategy whole.now.parser }
    requires none_kept { (held I.Input E.Error.Error E.State.Inspector inp.old).kept ≡ None }
    ensures ran { Runs I.Input E.Error.Error E.State.Inspector
        (MarkedOrHelp E.Error.merged
        (final_error E.Error.expectation I.span_between) E.State.mark E.State.back E.State.takes_no_memory
        (A.meaning whole.now.parser E.Error.Error E.State.Inspector)
        (S.helps whole.now.strategy whole.now.parser E.Error.Error E.State.Inspector)) true inp.old inp.new
        (with_value result) }
    ensures lent { inp.new.state.ghost_name ≡ inp.old.state.ghost_name }
{
    let before = inp.save()?;
    match whole.parser.go_emit(inp) {
        Ok(value) => Ok(value),
        Err(Fault::Stop(stop)) => Err(Fault::Stop(stop)),
        Err(Fault::Fail) => {
            let failed = take_aside(&before, inp)?;
            let answer = whole.strategy.recover_emit(&whole.parser, inp);
            tell_or_fail(&before, failed, answer, inp)
        }
    }
}

/// The same without the output.
#[inline]
fn recovered_check<'src, I, O, E, A, S>(
    whole: &RecoverWith<A, S>,
    inp: &mut InputRef<'src, '_, I, E>,
) -> PResult<()>
where
    I: Input<'src>,
    O: Drop,
    E: ParserExtra<I>,
    A: Parser<'src, I, O, E>,
    S: Strategy<'src, I, O, E, A>,
    requires parser { A.ready whole.now.parser }
    requires strategy { S.ready whole.now.strategy whole.now.parser }
    requires none_kept { (held I.Input E.Error.Error E.State.Inspector inp.old).kept ≡ None }
    ensures ran { Runs I.Input E.Error.Error E.State.Inspector
        (MarkedOrHelp E.Error.merged
        (final_error E.Error.expectation I.span_between) E.State.mark E.State.back E.State.takes_no_memory
        (A.meaning whole.now.parser E.Error.Error E.State.Inspector)
        (S.helps whole.now.strategy whole.now.parser E.Error.Error E.State.Inspector)) false inp.old inp.new
        (without_value result) }
    ensures lent { inp.new.state.ghost_name ≡ inp.old.state.ghost_name }
{
    let before = inp.save()?;
    match whole.parser.go_check(inp) {
        Ok(()) => Ok(()),
        Err(Fault::Stop(stop)) => Err(Fault::Stop(stop)),
        Err(Fault::Fail) => {
            let failed = take_aside(&before, inp)?;
            let answer = whole.strategy.recover_check(&whole.parser, inp);
            tell_or_fail(&before, failed, answer, inp)
        }
    }
}

/// Takes a failure aside, and goes back to before it.
#[inline]
fn take_aside<'src, I: Input<'src>, E: ParserExtra<I>>(
    before: &Checkpoint<I::Cursor, <E::State as Inspector<I>>::Mark>,
    inp: &mut InputRef<'src, '_, I, E>,
) -> Result<Failed<I::Cursor, E::Error>, AllocError>
    requires { (marks I.Input E.State.Inspector before.now).tokens ≡
        (held I.Input E.Error.Error E.State.Inspector inp.old).tokens }
    ensures takes { TakesAside I.Input E.Error.Error E.State.Inspector before.now inp.old inp.new result }
    ensures lent { inp.new.state.ghost_name ≡ inp.old.state.ghost_name }
{
    let kept = inp.take_kept();
    let end = inp.cursor();
    inp.rewind(before)?;
    Ok(Failed { kept, end })
}

/// After a strategy that answers, emits the error of the failure; after one that fails, goes back, and the failure
/// stands.
#[inline]
fn tell_or_fail<'src, V: Drop, I: Input<'src>, E: ParserExtra<I>>(
    before: &Checkpoint<I::Cursor, <E::State as Inspector<I>>::Mark>,
    failed: Failed<I::Cursor, E::Error>,
    answer: PResult<V>,
    inp: &mut InputRef<'src, '_, I, E>,
) -> PResult<V>
    requires before { (marks I.Input E.State.Inspector before.now).tokens ≡
        (held I.Input E.Error.Error E.State.Inspector inp.old).tokens }
    requires tokens { I.cursor_tokens failed.end ≡ (held I.Input E.Error.Error E.State.Inspector inp.old).tokens }
    ensures ends { TellsOrFails I.Input E.Error.Error E.State.Inspector before.now failed inp.old inp.new answer result }
    ensures lent { inp.new.state.ghost_name ≡ inp.old.state.ghost_name }
{
    match answer {
        Ok(value) => {
            tell(failed, inp)?;
            Ok(value)
        }
        Err(Fault::Stop(stop)) => Err(Fault::Stop(stop)),
        Err(Fault::Fail) => {
            inp.rewind(before)?;
            inp.put_kept(failed.kept);
            Err(Fault::Fail)
        }
    }
}

/// Emits the last error of a failure that was taken aside: the one that it kept, or where there is none that of an empty
/// expectation where it left the run.
#[inline]
fn tell<'src, I: Input<'src>, E: ParserExtra<I>>(
    failed: Failed<I::Cursor, E::Error>,
    inp: &mut InputRef<'src, '_, I, E>,
) -> Result<(), AllocError>
    ensures tells { TellsLast I.Input E.Error.Error E.State.Inspector failed inp.old inp.new result }
    ensures lent { inp.new.state.ghost_name ≡ inp.old.state.ghost_name }
{
    match failed.kept {
        Some(kept) => inp.emit(kept.error),
        None => {
            let span = I::span(&failed.end, &failed.end);
            let error = E::Error::expected_found(inp.alloc(), One { left: None }, None, span)?;
            inp.emit(error)
        }
    }
}

/// What a part kept that ran with nothing kept counts as one failure, after what was kept before.
#[inline]
fn count_as_one<'src, V: Drop, I: Input<'src>, E: ParserExtra<I>>(
    older: Option<Located<E::Error>>,
    answer: PResult<V>,
    inp: &mut InputRef<'src, '_, I, E>,
) -> PResult<V>
    ensures counts { CountsAsOne I.Input E.Error.Error E.State.Inspector older inp.old inp.new answer result }
    ensures lent { inp.new.state.ghost_name ≡ inp.old.state.ghost_name }
{
    match answer {
        Ok(value) => {
            inp.keep_before(older)?;
            Ok(value)
        }
        Err(Fault::Stop(stop)) => Err(Fault::Stop(stop)),
        Err(Fault::Fail) => {
            inp.keep_before(older)?;
            Err(Fault::Fail)
        }
    }
}

/// `a.recover_with(s)` is ready and steady where `a` and `s` are; two outputs are the same where `a` or `s` calls them so.
pub fn recover_with_is_steady<
    'src,
    I: Input<'src>,
    O: Drop,
    E: ParserExtra<I>,
    A: Parser<'src, I, O, E>,
    S: Strategy<'src, I, O, E, A>,
>(whole: &RecoverWith<A, S>)
    ensures ready { A.ready whole.now.parser → S.ready whole.now.strategy whole.now.parser →
        ⟦<RecoverWith<A, S> as Parser<'src, I, O, E>>⟧.ready whole.now }
    ensures steady { A.steady whole.now.parser → S.steady whole.now.strategy whole.now.parser →
        ⟦<RecoverWith<A, S> as Parser<'src, I, O, E>>⟧.steady whole.now }
    ensures same { (x y : O) → ⟦<RecoverWith<A, S> as Parser<'src, I, O, E>>⟧.same whole.now x y →
        A.same whole.now.parser x y ⊎ S.same whole.now.strategy whole.now.parser x y }
{}
