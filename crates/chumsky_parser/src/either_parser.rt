//! A parser of one of two types.
ghost use Rattle.std.specs.Prelude.{◌≡◌};
ghost use Rattle.either.specs.Either.{MatchEither};
ghost use Rattle.chumsky_parser.specs.EitherLaws.{either-ends, either-agrees};

use crate::moving::Moving;
use crate::parser::{IsParser, Parser};
use chumsky_input::extra::ParserExtra;
use chumsky_input::input::Input;
use chumsky_input::input_ref::InputRef;
use chumsky_input::stop::PResult;
use either::Either;

impl<I, O, E, A: IsParser<I, O, E>, B: IsParser<I, O, E>> IsParser<I, O, E> for Either<A, B> {}

impl<
    'src,
    I: Input<'src>,
    O,
    E: ParserExtra<I>,
    A: Parser<'src, I, O, E>,
    B: Parser<'src, I, O, E>,
> Parser<'src, I, O, E> for Either<A, B> {
    ghost use Rattle.chumsky_parser.specs.EitherLanguage.{either_language, of_either-accepts};

    ghost ready = { λ p. MatchEither p A.ready B.ready };

    ghost meaning = { λ p errors states b o. MatchEither p (λ x. A.meaning x errors states b o) (λ y. B.meaning y errors states b o) };

    ghost steady = { λ p. MatchEither p A.steady B.steady };

    ghost same = { λ p v w. MatchEither p (λ x. A.same x v w) (λ y. B.same y v w) };

    ghost language = { either_language A.language B.language };

    ghost ends_after_start = { λ p. either-ends _ _ A.ends_after_start B.ends_after_start p };

    ghost agrees = { λ p s. either-agrees _ _ A.steady B.steady A.same B.same A.agrees B.agrees p s };

    ghost accepts = { of_either-accepts _ _ A.language B.language A.accepts B.accepts };

    #[inline]
    fn go_emit(&self, inp: &mut InputRef<'src, '_, I, E>) -> PResult<O> {
        match self {
            Either::Left(first) => first.go_emit(inp),
            Either::Right(second) => second.go_emit(inp),
        }
    }

    #[inline]
    fn go_check(&self, inp: &mut InputRef<'src, '_, I, E>) -> PResult<()> {
        match self {
            Either::Left(first) => first.go_check(inp),
            Either::Right(second) => second.go_check(inp),
        }
    }
}

impl<
    'src,
    I: Input<'src>,
    O,
    E: ParserExtra<I>,
    A: Moving<'src, I, O, E>,
    B: Moving<'src, I, O, E>,
> Moving<'src, I, O, E> for Either<A, B> {
    ghost use Rattle.chumsky_parser.specs.EitherLaws.{of_either};
    ghost use Rattle.chumsky_parser.specs.EitherLaws.{either-moves};

    ghost moves = { of_either A.moves B.moves };

    ghost moved = { either-moves _ _ A.moves B.moves A.moved B.moved };

    fn always_moves(&self) -> bool
        ensures { result ≡ of_either A.moves B.moves self.now }
    {
        match self {
            Either::Left(first) => first.always_moves(),
            Either::Right(second) => second.always_moves(),
        }
    }
}

/// When it is ready and steady, and which outputs are the same: a parser of one of two types.
pub fn either_is_steady<
    'src,
    I: Input<'src>,
    O,
    E: ParserExtra<I>,
    A: Parser<'src, I, O, E>,
    B: Parser<'src, I, O, E>,
>(either: &Either<A, B>)
    ensures ready { MatchEither either.now A.ready B.ready → ⟦<Either<A, B> as Parser<'src, I, O, E>>⟧.ready either.now }
    ensures steady { MatchEither either.now A.steady B.steady → ⟦<Either<A, B> as Parser<'src, I, O, E>>⟧.steady either.now }
    ensures same { (x y : O) → ⟦<Either<A, B> as Parser<'src, I, O, E>>⟧.same either.now x y → MatchEither either.now (λ a. A.same a x y) (λ b. B.same b x y) }
{}
