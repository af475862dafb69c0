//! Parsers with a strategy that move wherever they succeed.
ghost use Rattle.std.specs.Prelude.{◌≡◌, true, ◌&&◌};

use crate::nested_delimiters::Closes;
use crate::recover_with::RecoverWith;
use crate::skip_then_retry_until::SkipThenRetryUntil;
use crate::skip_until::{Fallback, SkipUntil};
use crate::strategy::Strategy;
use crate::via_parser::ViaParser;
use chumsky_input::extra::ParserExtra;
use chumsky_input::input::Input;
use chumsky_parser::container::Seq;
use chumsky_parser::moving::Moving;
use chumsky_parser::parser::Parser;

/// Whether a strategy moves wherever it succeeds: `via_parser(any())` does, and `via_parser(empty())` does not. See `Moving`.
pub trait MovingStrategy<'src, I: Input<'src>, O, E: ParserExtra<I>, A>: Strategy<
    'src,
    I,
    O,
    E,
    A,
> {
    ghost use Rattle.std.specs.Prelude.{◌≡◌, Bool, true, false};
    ghost use Rattle.chumsky_parser.specs.Progress.{Moves};

    /// That each success ends past its start, in the place of this parser.
    ghost moves: { Self → A → Bool } = { λ _ _. false };

    /// Whether each success ends past its start, in the place of this parser.
    fn always_moves(&self, parser: &A) -> bool
        ensures { result ≡ moves self.now parser.now };

    /// It does, where that is said.
    ghost moved: { (s : Self) (a : A) → moves s a ≡ true → Moves (Self.helps s a E.Error.Error E.State.Inspector) };
}

impl<'src, I: Input<'src>, O, E: ParserExtra<I>, A, P: Moving<'src, I, O, E>> MovingStrategy<
    'src,
    I,
    O,
    E,
    A,
> for ViaParser<P> {
    ghost moves = { λ s _. P.moves s.parser };

    ghost moved = { λ s _. P.moved s.parser };

    fn always_moves(&self, parser: &A) -> bool
        ensures { result ≡ P.moves self.now.parser }
    {
        self.parser.always_moves()
    }
}

/// It moves where what it looks for does: what it skips always does.
impl<
    'src,
    I: Input<'src>,
    O,
    E: ParserExtra<I>,
    A,
    S: Parser<'src, I, (), E>,
    U: Moving<'src, I, (), E>,
    F: Fallback<O>,
> MovingStrategy<'src, I, O, E, A> for SkipUntil<S, U, F> {
    ghost use Rattle.chumsky_recovery.specs.RecoveryMoves.{skip_until-moves};

    ghost moves = { λ s _. U.moves s.until };

    ghost moved = { λ s _ e. skip_until-moves _ _ _ _ _ (U.ends_after_start s.until) (S.ends_after_start s.skip) (F.gives s.fallback) (U.moved s.until e) };

    fn always_moves(&self, parser: &A) -> bool
        ensures { result ≡ U.moves self.now.until }
    {
        self.until.always_moves()
    }
}

impl<
    'src,
    I: Input<'src>,
    O: Drop,
    E: ParserExtra<I>,
    A: Parser<'src, I, O, E>,
    S: Parser<'src, I, (), E>,
    U: Parser<'src, I, (), E>,
> MovingStrategy<'src, I, O, E, A> for SkipThenRetryUntil<S, U> {
    ghost use Rattle.chumsky_recovery.specs.RecoveryMoves.{skip_then_retry-moves};

    ghost moves = { λ _ _. true };

    ghost moved = { λ s a _. skip_then_retry-moves _ _ _ _ _ _ (U.ends_after_start s.until) (S.ends_after_start s.skip) (A.ends_after_start a) };

    fn always_moves(&self, parser: &A) -> bool
        ensures { result ≡ true }
    {
        true
    }
}

impl<
    'src,
    I: Input<'src>,
    O: Drop,
    E: ParserExtra<I>,
    A: Moving<'src, I, O, E>,
    S: MovingStrategy<'src, I, O, E, A>,
> Moving<'src, I, O, E> for RecoverWith<A, S> {
    ghost use Rattle.chumsky_parser.specs.ProgressLaws.{both-true};
    ghost use Rattle.chumsky_recovery.specs.RecoveryMoves.{recovered-moves};

    ghost moves = { λ p. A.moves p.parser && S.moves p.strategy p.parser };

    ghost moved = { λ p e. recovered-moves _ _ _ _ _ _ _ (A.moved p.parser (both-true (A.moves p.parser) (S.moves p.strategy p.parser) e).0) (S.moved p.strategy p.parser (both-true (A.moves p.parser) (S.moves p.strategy p.parser) e).1) };

    fn always_moves(&self) -> bool
        ensures { result ≡ (A.moves self.now.parser && S.moves self.now.strategy self.now.parser) }
    {
        self.parser.always_moves() && self.strategy.always_moves(&self.parser)
    }
}

impl<'src, T, const N: usize, I: Input<'src>, E: ParserExtra<I>> Moving<'src, I, (), E>
    for Closes<T, N, I, E>
where
    T: Seq<I::Token> + Copy,
    I::Token: PartialEq,
{
    ghost use Rattle.chumsky_recovery.specs.RecoveryMoves.{nested-moves};

    ghost moves = { λ _. true };

    ghost moved = { λ p _. nested-moves _ _ _ _ _ _ p.end };

    fn always_moves(&self) -> bool
        ensures { result ≡ true }
    {
        true
    }
}
