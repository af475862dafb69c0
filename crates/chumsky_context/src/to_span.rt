//! `ToSpan`: the span of what a parser took.
ghost use Rattle.std.specs.Prelude.{◌≡◌, [], ◌∷◌};
ghost use Rattle.chumsky_parser.specs.ByParts.{part, OutOnlyBy};

use chumsky_input::extra::ParserExtra;
use chumsky_input::input::{Input, Tokens};
use chumsky_input::input_ref::InputRef;
use chumsky_input::stop::PResult;
use chumsky_parser::moving::Moving;
use chumsky_parser::parser::{IsParser, Parser};
use std::marker::PhantomData;

/// A parser that gives the span of what its part took, which runs without its output. See `to_span`.
#[derive(Drop)]
#[derive_where(Clone, Copy; A)]
pub struct ToSpan<A, O> {
    pub parser: A,
    pub of: PhantomData<O>,
}

impl<I: Tokens, O, E, A: IsParser<I, O, E>> IsParser<I, I::Span, E> for ToSpan<A, O> {}

impl<'src, I: Input<'src>, O, E: ParserExtra<I>, A: Parser<'src, I, O, E>> Parser<
    'src,
    I,
    I::Span,
    E,
> for ToSpan<A, O> {
    ghost use Rattle.std.specs.Prelude.{◌≡◌};
    ghost use Rattle.chumsky_context.specs.Covered.{Covers};
    ghost use Rattle.chumsky_context.specs.CoveredLaws.{covers-ends, covers-agree};
    ghost use Rattle.chumsky_context.specs.CoveredLanguage.{covered_language, covers-accepts};

    ghost ready = { λ p. A.ready p.parser };

    ghost meaning = { λ p errors states. Covers (λ ts i j w. w ≡ I.span_between ts i j) (A.meaning p.parser errors states) };

    ghost steady = { λ p. A.steady p.parser };

    ghost same = { λ p v w. v ≡ w };

    ghost ends_after_start = { λ p. covers-ends _ _ (A.ends_after_start p.parser) };

    ghost agrees = { λ p s. covers-agree _ _ (A.same p.parser) (λ v w. v ≡ w) (λ ts i j v w e d. Prim.search (e, d)) (A.agrees p.parser s) };

    ghost language = { λ p. covered_language (λ l i j w. w ≡ I.span_between l i j) (A.language p.parser) };

    ghost accepts = { λ p. covers-accepts _ _ (A.accepts p.parser) };

    #[inline(always)]
    fn go_emit(&self, inp: &mut InputRef<'src, '_, I, E>) -> PResult<I::Span> {
        let before = inp.cursor();
        self.parser.go_check(inp)?;
        Ok(inp.span_since(&before))
    }

    #[inline(always)]
    fn go_check(&self, inp: &mut InputRef<'src, '_, I, E>) -> PResult<()> {
        self.parser.go_check(inp)
    }
}

impl<'src, I, O, E, A> Moving<'src, I, I::Span, E> for ToSpan<A, O>
where
    I: Input<'src>,
    E: ParserExtra<I>,
    A: Moving<'src, I, O, E>,
{
    ghost use Rattle.chumsky_context.specs.CoveredLanguage.{covers-move};

    ghost moves = { λ p. A.moves p.parser };

    ghost moved = { λ p e. covers-move _ _ (A.moved p.parser e) };

    fn always_moves(&self) -> bool
        ensures { result ≡ A.moves self.now.parser }
    {
        self.parser.always_moves()
    }
}

/// Never refused for memory where no part is: `a.to_span()`.
pub fn to_span_is_never_out_of_memory<'src, I, O, E, A>(to_span: &ToSpan<A, O>)
where
    I: Input<'src>,
    E: ParserExtra<I>,
    A: Parser<'src, I, O, E>,
    ensures { let t = to_span.now in OutOnlyBy E.Error.Error E.State.Inspector
        (part (A.meaning t.parser) ∷ [])
        (⟦<ToSpan<A, O> as Parser<'src, I, I::Span, E>>⟧.meaning t) }
{}

/// `to_span` is steady where its part is. Its outputs that are the same are equal.
pub fn to_span_is_steady<'src, I, O, E, A>(parser: &ToSpan<A, O>)
where
    I: Input<'src>,
    E: ParserExtra<I>,
    A: Parser<'src, I, O, E>,
    ensures ready { A.ready parser.now.parser → ⟦<ToSpan<A, O> as Parser<'src, I, I::Span, E>>⟧.ready parser.now }
    ensures steady { A.steady parser.now.parser → ⟦<ToSpan<A, O> as Parser<'src, I, I::Span, E>>⟧.steady parser.now }
    ensures same { (x y : I.Span) → ⟦<ToSpan<A, O> as Parser<'src, I, I::Span, E>>⟧.same parser.now x y → x ≡ y }
{}
