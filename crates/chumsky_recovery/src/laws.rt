//! Laws of parsers with a strategy, each the contract of a function that does nothing.
ghost use Rattle.std.specs.Prelude.{◌∷◌};
ghost use Rattle.chumsky_input.specs.Run.{final_error};
ghost use Rattle.chumsky_parser.specs.Memory.{NeverOutOfMemory};
ghost use Rattle.chumsky_recovery.specs.Nested.{has_token, OutOnlyToNest};
ghost use Rattle.chumsky_recovery.specs.Recovery.{AnswersOf, QuietIsPartIn, FailsAsPartIn, DoesAsPartIn, OutOnlyToTell};

use crate::nested_delimiters::Closes;
use crate::recover_with::RecoverWith;
use crate::skip_then_retry_until::SkipThenRetryUntil;
use crate::skip_until::{Fallback, SkipUntil};
use crate::strategy::Strategy;
use crate::via_parser::ViaParser;
use chumsky_input::error::Error;
use chumsky_input::extra::ParserExtra;
use chumsky_input::input::Input;
use chumsky_input::inspector::Inspector;
use chumsky_parser::container::Seq;
use chumsky_parser::parser::Parser;

/// Each answer of `a.recover_with(s)` is one of three. `a` succeeded, and its outcome stands, with its failures counted
/// as one. Or `a` failed and `s` succeeded: the outcome is that of `s`, and the last error that is emitted is the one
/// that `a` would have reported. Or both failed: the failure is that of `a`, and nothing is emitted.
pub fn recover_with_tells_each_failure<
    'src,
    I: Input<'src>,
    O: Drop,
    E: ParserExtra<I>,
    A: Parser<'src, I, O, E>,
    S: Strategy<'src, I, O, E, A>,
>(whole: &RecoverWith<A, S>)
    ensures { AnswersOf E.Error.merged (final_error E.Error.expectation I.span_between) E.State.mark E.State.back
        (A.meaning whole.now.parser E.Error.Error E.State.Inspector)
        (S.helps whole.now.strategy whole.now.parser E.Error.Error E.State.Inspector)
        (⟦<RecoverWith<A, S> as Parser<'src, I, O, E>>⟧.meaning whole.now E.Error.Error E.State.Inspector) }
{}

/// A success of `a.recover_with(s)` beside which nothing is emitted is one of `a`: it has the same output, end and state.
/// So an output without an error was not made up by a strategy.
pub fn a_quiet_success_is_the_parsers<
    'src,
    I: Input<'src>,
    O: Drop,
    E: ParserExtra<I>,
    A: Parser<'src, I, O, E>,
    S: Strategy<'src, I, O, E, A>,
>(whole: &RecoverWith<A, S>)
    ensures { QuietIsPartIn E.Error.Error E.State.Inspector (A.meaning whole.now.parser)
        (⟦<RecoverWith<A, S> as Parser<'src, I, O, E>>⟧.meaning whole.now) }
{}

/// `a.recover_with(s)` fails only where `a` does, and then with the error that `a` would have reported, whatever failed in
/// `s`.
pub fn it_fails_only_where_its_parser_does<
    'src,
    I: Input<'src>,
    O: Drop,
    E: ParserExtra<I>,
    A: Parser<'src, I, O, E>,
    S: Strategy<'src, I, O, E, A>,
>(whole: &RecoverWith<A, S>)
    ensures { FailsAsPartIn E.Error.Error E.State.Inspector (A.meaning whole.now.parser)
        (⟦<RecoverWith<A, S> as Parser<'src, I, O, E>>⟧.meaning whole.now) }
{}

/// Where a steady `a` succeeds, so does `a.recover_with(s)`, unless it is refused: it has the same output, end, state and
/// emitted errors; only the failures of `a` count as one.
pub fn without_a_failure_it_does_as_its_parser<
    'src,
    I: Input<'src>,
    O: Drop,
    E: ParserExtra<I>,
    A: Parser<'src, I, O, E>,
    S: Strategy<'src, I, O, E, A>,
>(whole: &RecoverWith<A, S>)
    ensures { A.steady whole.now.parser → DoesAsPartIn E.Error.Error E.State.Inspector (A.meaning whole.now.parser)
        (⟦<RecoverWith<A, S> as Parser<'src, I, O, E>>⟧.meaning whole.now) (A.same whole.now.parser) }
{}

/// Where neither `a` nor `s` is ever refused for memory, and going back takes none, `a.recover_with(s)` is refused for it only
/// where `a` failed and `s` succeeded: the list of errors that were emitted has to grow. It takes none where `a` succeeds.
pub fn recover_with_is_out_of_memory_only_to_tell<
    'src,
    I: Input<'src>,
    O: Drop,
    E: ParserExtra<I>,
    A: Parser<'src, I, O, E>,
    S: Strategy<'src, I, O, E, A>,
>(whole: &RecoverWith<A, S>)
    ensures { let w = whole.now in E.State.takes_no_memory →
        NeverOutOfMemory (A.meaning w.parser E.Error.Error E.State.Inspector) →
        NeverOutOfMemory (S.helps w.strategy w.parser E.Error.Error E.State.Inspector) →
        OutOnlyToTell E.State.mark E.State.back (A.meaning w.parser E.Error.Error E.State.Inspector)
        (S.helps w.strategy w.parser E.Error.Error E.State.Inspector)
        (⟦<RecoverWith<A, S> as Parser<'src, I, O, E>>⟧.meaning w E.Error.Error E.State.Inspector) }
{}

/// `via_parser(p)` is never refused for memory where `p` isn't.
pub fn via_parser_is_never_out_of_memory<
    'src,
    I: Input<'src>,
    O,
    E: ParserExtra<I>,
    A,
    P: Parser<'src, I, O, E>,
>(strategy: &ViaParser<P>, parser: &A)
    ensures { NeverOutOfMemory (P.meaning strategy.now.parser E.Error.Error E.State.Inspector) → NeverOutOfMemory
        (⟦<ViaParser<P> as Strategy<'src, I, O, E, A>>⟧.helps strategy.now parser.now E.Error.Error E.State.Inspector) }
{}

/// `skip_until(s, u, f)` is never refused for memory where neither `s` nor `u` is, under a state whose mark and whose going back
/// take none.
pub fn skip_until_is_never_out_of_memory<
    'src,
    I: Input<'src>,
    O,
    E: ParserExtra<I>,
    A,
    S: Parser<'src, I, (), E>,
    U: Parser<'src, I, (), E>,
    F: Fallback<O>,
>(strategy: &SkipUntil<S, U, F>, parser: &A)
    ensures { let s = strategy.now in E.State.takes_no_memory →
        NeverOutOfMemory (S.meaning s.skip E.Error.Error E.State.Inspector) →
        NeverOutOfMemory (U.meaning s.until E.Error.Error E.State.Inspector) → NeverOutOfMemory
        (⟦<SkipUntil<S, U, F> as Strategy<'src, I, O, E, A>>⟧.helps s parser.now E.Error.Error E.State.Inspector) }
{}

/// `skip_then_retry_until(s, u)` is never refused for memory where neither `s` nor `u` nor the failed parser is, under a state
/// whose mark and whose going back take none.
pub fn skip_then_retry_until_is_never_out_of_memory<
    'src,
    I: Input<'src>,
    O: Drop,
    E: ParserExtra<I>,
    A: Parser<'src, I, O, E>,
    S: Parser<'src, I, (), E>,
    U: Parser<'src, I, (), E>,
>(strategy: &SkipThenRetryUntil<S, U>, parser: &A)
    ensures { let s = strategy.now in E.State.takes_no_memory →
        NeverOutOfMemory (S.meaning s.skip E.Error.Error E.State.Inspector) →
        NeverOutOfMemory (U.meaning s.until E.Error.Error E.State.Inspector) →
        NeverOutOfMemory (A.meaning parser.now E.Error.Error E.State.Inspector) → NeverOutOfMemory
        (⟦<SkipThenRetryUntil<S, U> as Strategy<'src, I, O, E, A>>⟧.helps s parser.now E.Error.Error E.State.Inspector) }
{}

/// What `nested_delimiters` takes after its first token is refused for memory only where one of the tokens from there on opens a
/// delimiter, since what is open is kept in a list; so under errors and states that take none.
pub fn closes_is_out_of_memory_only_to_nest<
    'src,
    T,
    const N: usize,
    I: Input<'src>,
    E: ParserExtra<I>,
>(closes: &Closes<T, N, I, E>)
where
    T: Seq<I::Token> + Copy,
    I::Token: PartialEq,
    ensures { let c = closes.now in E.Error.takes_no_memory → E.State.takes_no_memory →
        OutOnlyToNest (has_token I.Token.eq T.members) ((c.start, c.end) ∷ c.others)
        (⟦<Closes<T, N, I, E> as Parser<'src, I, (), E>>⟧.meaning c E.Error.Error E.State.Inspector) }
{}
