//! A parser with padding around it.
ghost use Rattle.std.specs.Prelude.{◌≡◌, ◌||◌};

use chumsky_input::extra::ParserExtra;
use chumsky_input::input::Input;
use chumsky_input::input_ref::InputRef;
use chumsky_input::stop::PResult;
use chumsky_parser::moving::Moving;
use chumsky_parser::parser::{IsParser, Parser};
use std::marker::PhantomData;

/// A parser with the same padding before and after it, for its own output. See `padded_by`.
#[derive(Drop)]
#[derive_where(Clone, Copy; A, B)]
pub struct PaddedBy<A, B, U> {
    pub parser: A,
    pub padding: B,
    pub of: PhantomData<U>,
}

impl<I, O, U, E, A: IsParser<I, O, E>, B: IsParser<I, U, E>> IsParser<I, O, E>
    for PaddedBy<A, B, U> {}

impl<
    'src,
    I: Input<'src>,
    O: Drop,
    U,
    E: ParserExtra<I>,
    A: Parser<'src, I, O, E>,
    B: Parser<'src, I, U, E>,
> Parser<'src, I, O, E> for PaddedBy<A, B, U> {
    ghost use Rattle.chumsky_parser.specs.SequenceLanguage.{between_language, between-accepts};
    ghost use Rattle.chumsky_parser.specs.Ignoring.{Between};
    ghost use Rattle.chumsky_parser.specs.IgnoringLaws.{between-ends, between-agrees};

    ghost ready = { λ p. A.ready p.parser × B.ready p.padding };

    ghost meaning = { λ p errors states. Between (B.meaning p.padding errors states) (A.meaning p.parser errors states) (B.meaning p.padding errors states) };

    ghost steady = { λ p. A.steady p.parser × B.steady p.padding };

    ghost same = { λ p. A.same p.parser };

    ghost language = { λ p. between_language (B.language p.padding) (A.language p.parser) (B.language p.padding) };

    ghost ends_after_start = { λ p. between-ends _ _ _ (B.ends_after_start p.padding) (A.ends_after_start p.parser) (B.ends_after_start p.padding) };

    ghost agrees = { λ p s. between-agrees _ _ _ (B.same p.padding) (A.same p.parser) (B.same p.padding) (B.agrees p.padding s.1) (A.agrees p.parser s.0) (B.agrees p.padding s.1) };

    ghost accepts = { λ p. between-accepts _ _ _ (B.ends_after_start p.padding) (A.ends_after_start p.parser) (B.ends_after_start p.padding) (B.accepts p.padding) (A.accepts p.parser) (B.accepts p.padding) };

    #[inline]
    fn go_emit(&self, inp: &mut InputRef<'src, '_, I, E>) -> PResult<O> {
        self.padding.go_check(inp)?;
        let value = self.parser.go_emit(inp)?;
        self.padding.go_check(inp)?;
        Ok(value)
    }

    #[inline]
    fn go_check(&self, inp: &mut InputRef<'src, '_, I, E>) -> PResult<()> {
        self.padding.go_check(inp)?;
        self.parser.go_check(inp)?;
        self.padding.go_check(inp)
    }
}

impl<
    'src,
    I: Input<'src>,
    O: Drop,
    U,
    E: ParserExtra<I>,
    A: Moving<'src, I, O, E>,
    B: Moving<'src, I, U, E>,
> Moving<'src, I, O, E> for PaddedBy<A, B, U> {
    ghost use Rattle.chumsky_parser.specs.ProgressLaws.{between-moves};

    ghost moves = { λ p. B.moves p.padding || (A.moves p.parser || B.moves p.padding) };

    ghost moved = { λ p. between-moves _ _ _ (B.moves p.padding) (A.moves p.parser) (B.moves p.padding) (B.ends_after_start p.padding) (A.ends_after_start p.parser) (B.ends_after_start p.padding) (B.moved p.padding) (A.moved p.parser) (B.moved p.padding) };

    fn always_moves(&self) -> bool
        ensures { result ≡ (B.moves self.now.padding || (A.moves self.now.parser || B.moves self.now.padding)) }
    {
        self.padding.always_moves() || (self.parser.always_moves() || self.padding.always_moves())
    }
}
