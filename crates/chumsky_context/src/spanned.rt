//! `Spanned`: a parser's output with the span of what it took.
ghost use Rattle.std.specs.Prelude.{◌≡◌};
ghost use Rattle.chumsky_input.specs.declared.span.Spanned as output;

use chumsky_input::extra::ParserExtra;
use chumsky_input::input::{Input, Tokens};
use chumsky_input::input_ref::InputRef;
use chumsky_input::span::Spanned as SpannedOutput;
use chumsky_input::stop::PResult;
use chumsky_parser::moving::Moving;
use chumsky_parser::parser::{IsParser, Parser};
use std::marker::PhantomData;

/// A parser that gives its part's output with the span of what the part took. See `spanned`.
#[derive(Drop)]
#[derive_where(Clone, Copy; A)]
pub struct Spanned<A, O> {
    pub parser: A,
    pub of: PhantomData<O>,
}

impl<I: Tokens, O, E, A: IsParser<I, O, E>> IsParser<I, SpannedOutput<O, I::Span>, E>
    for Spanned<A, O> {}

impl<'src, I: Input<'src>, O, E: ParserExtra<I>, A: Parser<'src, I, O, E>> Parser<
    'src,
    I,
    SpannedOutput<O, I::Span>,
    E,
> for Spanned<A, O> {
    ghost use Rattle.chumsky_context.specs.Covered.{WithSpan, SameSpanned};
    ghost use Rattle.chumsky_context.specs.CoveredLaws.{with_span-ends, with_span-agree};
    ghost use Rattle.chumsky_context.specs.CoveredLanguage.{with_span_language, with_span-accepts};

    ghost ready = { λ p. A.ready p.parser };

    ghost meaning = { λ p errors states. WithSpan (λ ts i j v. record { inner = v; span = I.span_between ts i j }) (A.meaning p.parser errors states) };

    ghost steady = { λ p. A.steady p.parser };

    ghost same = { λ p. SameSpanned (λ ts i j v. record { inner = v; span = I.span_between ts i j }) (A.same p.parser) };

    ghost ends_after_start = { λ p. with_span-ends _ _ (A.ends_after_start p.parser) };

    ghost agrees = { λ p s. with_span-agree _ _ (A.same p.parser) (A.agrees p.parser s) };

    ghost language = { λ p. with_span_language (λ l i j v. record { inner = v; span = I.span_between l i j }) (A.language p.parser) };

    ghost accepts = { λ p. with_span-accepts _ _ (A.accepts p.parser) };

    #[inline(always)]
    fn go_emit(&self, inp: &mut InputRef<'src, '_, I, E>) -> PResult<SpannedOutput<O, I::Span>> {
        let before = inp.cursor();
        let inner = self.parser.go_emit(inp)?;
        let span = inp.span_since(&before);
        Ok(SpannedOutput { inner, span })
    }

    #[inline(always)]
    fn go_check(&self, inp: &mut InputRef<'src, '_, I, E>) -> PResult<()> {
        self.parser.go_check(inp)
    }
}

impl<'src, I, O, E, A> Moving<'src, I, SpannedOutput<O, I::Span>, E> for Spanned<A, O>
where
    I: Input<'src>,
    E: ParserExtra<I>,
    A: Moving<'src, I, O, E>,
{
    ghost use Rattle.chumsky_context.specs.CoveredLanguage.{with_span-moves};

    ghost moves = { λ p. A.moves p.parser };

    ghost moved = { λ p e. with_span-moves _ _ (A.moved p.parser e) };

    fn always_moves(&self) -> bool
        ensures { result ≡ A.moves self.now.parser }
    {
        self.parser.always_moves()
    }
}

/// `spanned` is steady where its part is. Of its outputs that are the same the values are so to the part, and the spans are
/// equal.
pub fn spanned_is_steady<'src, I, O, E, A>(parser: &Spanned<A, O>)
where
    I: Input<'src>,
    E: ParserExtra<I>,
    A: Parser<'src, I, O, E>,
    ensures ready { A.ready parser.now.parser → ⟦<Spanned<A, O> as Parser<'src, I, SpannedOutput<O, I::Span>, E>>⟧.ready parser.now }
    ensures steady { A.steady parser.now.parser → ⟦<Spanned<A, O> as Parser<'src, I, SpannedOutput<O, I::Span>, E>>⟧.steady parser.now }
    ensures same { (x y : output.Spanned O I.Span) → ⟦<Spanned<A, O> as Parser<'src, I, SpannedOutput<O, I::Span>, E>>⟧.same parser.now x y → A.same parser.now.parser x.inner y.inner × (x.span ≡ y.span) }
{}
