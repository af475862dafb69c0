//! `WithCtx`: a parser under a context of its own.
ghost use Rattle.std.specs.Prelude.{◌≡◌};

use crate::under::{check_under, emit_under};
use chumsky_input::extra::{Full, ParserExtra};
use chumsky_input::input::{Input, Tokens};
use chumsky_input::input_ref::InputRef;
use chumsky_input::stop::PResult;
use chumsky_parser::moving::Moving;
use chumsky_parser::parser::{IsParser, Parser};

/// A parser that runs under a context of its own, whatever that of the run is. See `with_ctx`.
#[derive(Clone, Copy, Drop)]
pub struct WithCtx<A, X> {
    pub parser: A,
    pub ctx: X,
}

impl<I: Tokens, O, E: ParserExtra<I>, A: IsParser<I, O, Full<E::Error, E::State, X>>, X> IsParser<
    I,
    O,
    E,
> for WithCtx<A, X> {}

impl<'src, I, O, E, A, X> Parser<'src, I, O, E> for WithCtx<A, X>
where
    I: Input<'src>,
    I::Token: 'src,
    E: ParserExtra<I>,
    A: Parser<'src, I, O, Full<E::Error, E::State, X>>,
{
    ghost use Rattle.std.specs.Prelude.{◌≡◌, Some, refl};
    ghost use Rattle.chumsky_context.specs.Under.{UnderValue};
    ghost use Rattle.chumsky_context.specs.UnderLaws.{under-ends, under-agrees};
    ghost use Rattle.chumsky_context.specs.UnderLanguage.{under-accepts};

    ghost ready = { λ p. A.ready p.parser };

    ghost meaning = { λ p errors states. UnderValue (A.meaning p.parser errors states) (Some p.ctx) };

    ghost steady = { λ p. A.steady p.parser };

    ghost same = { λ p. A.same p.parser };

    ghost ends_after_start = { λ p. under-ends _ (A.ends_after_start p.parser) (Some p.ctx) };

    ghost agrees = { λ p s. under-agrees _ _ (λ x y. x ≡ y) (A.same p.parser) (λ x y e. e) (A.agrees p.parser s) (Some p.ctx) (Some p.ctx) refl };

    ghost language = { λ p. A.language p.parser };

    ghost accepts = { λ p. under-accepts _ p.ctx (A.accepts p.parser) };

    #[inline]
    fn go_emit(&self, inp: &mut InputRef<'src, '_, I, E>) -> PResult<O> {
        emit_under::<I, O, E, Full<E::Error, E::State, X>, A>(&self.parser, &self.ctx, inp)
    }

    #[inline]
    fn go_check(&self, inp: &mut InputRef<'src, '_, I, E>) -> PResult<()> {
        check_under::<I, O, E, Full<E::Error, E::State, X>, A>(&self.parser, &self.ctx, inp)
    }
}

impl<'src, I, O, E, A, X> Moving<'src, I, O, E> for WithCtx<A, X>
where
    I: Input<'src>,
    I::Token: 'src,
    E: ParserExtra<I>,
    A: Moving<'src, I, O, Full<E::Error, E::State, X>>,
{
    ghost use Rattle.std.specs.Prelude.{Some};
    ghost use Rattle.chumsky_context.specs.UnderLaws.{under-moves};

    ghost moves = { λ p. A.moves p.parser };

    ghost moved = { λ p e. under-moves _ (A.moved p.parser e) (Some p.ctx) };

    fn always_moves(&self) -> bool
        ensures { result ≡ A.moves self.now.parser }
    {
        self.parser.always_moves()
    }
}

/// `with_ctx` is steady where its part is. Its outputs that are the same are so to the part.
pub fn with_ctx_is_steady<'src, I, O, E, A, X>(parser: &WithCtx<A, X>)
where
    I: Input<'src>,
    I::Token: 'src,
    E: ParserExtra<I>,
    A: Parser<'src, I, O, Full<E::Error, E::State, X>>,
    ensures ready { A.ready parser.now.parser → ⟦<WithCtx<A, X> as Parser<'src, I, O, E>>⟧.ready parser.now }
    ensures steady { A.steady parser.now.parser → ⟦<WithCtx<A, X> as Parser<'src, I, O, E>>⟧.steady parser.now }
    ensures same { (x y : O) → ⟦<WithCtx<A, X> as Parser<'src, I, O, E>>⟧.same parser.now x y → A.same parser.now.parser x y }
{}
