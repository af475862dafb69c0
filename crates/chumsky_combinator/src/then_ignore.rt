//! Two parsers, for the output of the first.
ghost use Rattle.std.specs.Prelude.{◌≡◌, ◌||◌};

use chumsky_input::extra::ParserExtra;
use chumsky_input::input::Input;
use chumsky_input::input_ref::InputRef;
use chumsky_input::stop::PResult;
use chumsky_parser::moving::Moving;
use chumsky_parser::parser::{IsParser, Parser};
use std::marker::PhantomData;

/// Two parsers, one after the other, for the output of the first. See `then_ignore`.
#[derive(Drop)]
#[derive_where(Clone, Copy; A, B)]
pub struct ThenIgnore<A, B, U> {
    pub first: A,
    pub second: B,
    pub of: PhantomData<U>,
}

impl<I, O, U, E, A: IsParser<I, O, E>, B: IsParser<I, U, E>> IsParser<I, O, E>
    for ThenIgnore<A, B, U> {}

impl<
    'src,
    I: Input<'src>,
    O: Drop,
    U,
    E: ParserExtra<I>,
    A: Parser<'src, I, O, E>,
    B: Parser<'src, I, U, E>,
> Parser<'src, I, O, E> for ThenIgnore<A, B, U> {
    ghost use Rattle.chumsky_parser.specs.SequenceLanguage.{then_ignore_language, then_ignore-accepts};
    ghost use Rattle.chumsky_parser.specs.Ignoring.{IgnoringSecond};
    ghost use Rattle.chumsky_parser.specs.IgnoringLaws.{ignoring_second-ends, ignoring_second-agrees};

    ghost ready = { λ p. A.ready p.first × B.ready p.second };

    ghost meaning = { λ p errors states. IgnoringSecond (A.meaning p.first errors states) (B.meaning p.second errors states) };

    ghost steady = { λ p. A.steady p.first × B.steady p.second };

    ghost same = { λ p. A.same p.first };

    ghost language = { λ p. then_ignore_language (A.language p.first) (B.language p.second) };

    ghost ends_after_start = { λ p. ignoring_second-ends _ _ (A.ends_after_start p.first) (B.ends_after_start p.second) };

    ghost agrees = { λ p s. ignoring_second-agrees _ _ (A.same p.first) (B.same p.second) (A.agrees p.first s.0) (B.agrees p.second s.1) };

    ghost accepts = { λ p. then_ignore-accepts _ _ (A.ends_after_start p.first) (B.ends_after_start p.second) (A.accepts p.first) (B.accepts p.second) };

    #[inline(always)]
    fn go_emit(&self, inp: &mut InputRef<'src, '_, I, E>) -> PResult<O> {
        let value = self.first.go_emit(inp)?;
        self.second.go_check(inp)?;
        Ok(value)
    }

    #[inline(always)]
    fn go_check(&self, inp: &mut InputRef<'src, '_, I, E>) -> PResult<()> {
        self.first.go_check(inp)?;
        self.second.go_check(inp)
    }
}

impl<
    'src,
    I: Input<'src>,
    O: Drop,
    U,
    E: ParserExtra<I>,
    A: Moving<'src, I, O, E>,
    B: Moving<'src, I, U, E>,
> Moving<'src, I, O, E> for ThenIgnore<A, B, U> {
    ghost use Rattle.chumsky_parser.specs.ProgressLaws.{ignoring_second-moves};

    ghost moves = { λ p. A.moves p.first || B.moves p.second };

    ghost moved = { λ p. ignoring_second-moves _ _ (A.moves p.first) (B.moves p.second) (A.ends_after_start p.first) (B.ends_after_start p.second) (A.moved p.first) (B.moved p.second) };

    fn always_moves(&self) -> bool
        ensures { result ≡ (A.moves self.now.first || B.moves self.now.second) }
    {
        self.first.always_moves() || self.second.always_moves()
    }
}
