//! `Prefixed` and `Headed`: a part that decides how another runs, and that other.
use crate::context::{DecidedByWord, ParserUnder};
use chumsky_context::ignore_with_ctx::IgnoreWithCtx;
use chumsky_context::then_with_ctx::ThenWithCtx;
use chumsky_input::extra::ParserExtra;
use chumsky_input::input::Input;
use chumsky_input::input_ref::InputRef;
use chumsky_input::stop::PResult;
use chumsky_parser::parser::{IsParser, Parser};

/// A length, and what it stands before. See `prefixed`.
#[derive(Drop)]
#[derive_where(Clone, Copy; L, T)]
pub struct Prefixed<L, T, O, I, X> {
    pub parts: IgnoreWithCtx<L, T, O, I, X>,
}

impl<I, O, U, E, X, L: IsParser<I, O, E>, T: IsParser<I, U, X>> IsParser<I, U, E>
    for Prefixed<L, T, O, I, X> {}

impl<'src, I, O, U, E, X, L, T> Parser<'src, I, U, E> for Prefixed<L, T, O, I, X>
where
    I: Input<'src>,
    I::Token: 'src,
    O: Drop,
    E: ParserExtra<I>,
    L: DecidedByWord<'src, I, O, E>,
    X: ParserExtra<I, Error = E::Error, State = E::State, Context = O>,
    T: ParserUnder<'src, I, U, X>,
{
    ghost use Rattle.chumsky_context.specs.Under.{IgnoringUnder, SameAreEqual};
    ghost use Rattle.chumsky_context.specs.UnderLaws.{ignoring_under-ends, ignoring_under-agrees};
    ghost use Rattle.chumsky_exact.specs.Contexts.{ignore_under_language};
    ghost use Rattle.chumsky_exact.specs.ContextsLaws.{ignore_under-accepts};

    ghost ready = { λ p. L.ready p.parts.parser × T.ready p.parts.then };

    ghost meaning = { λ p errors states. IgnoringUnder (L.meaning p.parts.parser errors states) (T.meaning p.parts.then errors states) };

    ghost steady = { λ p. L.steady p.parts.parser × T.steady p.parts.then × SameAreEqual (L.same p.parts.parser) };

    ghost same = { λ p. T.same p.parts.then };

    ghost language = { λ p. ignore_under_language (L.language p.parts.parser) (L.decides p.parts.parser) (T.language_under p.parts.then) };

    ghost ends_after_start = { λ p. ignoring_under-ends _ _ (L.Parser.ends_after_start p.parts.parser) (T.Parser.ends_after_start p.parts.then) };

    ghost agrees = { λ p s. ignoring_under-agrees _ _ (L.same p.parts.parser) (T.same p.parts.then) s.2 (L.Parser.agrees p.parts.parser s.0) (T.Parser.agrees p.parts.then s.1) };

    ghost accepts = { λ p. ignore_under-accepts _ _ (L.language p.parts.parser) (L.decides p.parts.parser) (T.language_under p.parts.then)
        (L.Parser.ends_after_start p.parts.parser) (T.Parser.ends_after_start p.parts.then) (L.by_word p.parts.parser) (L.Parser.accepts p.parts.parser) (T.accepts_under p.parts.then) };

    fn go_emit(&self, inp: &mut InputRef<'src, '_, I, E>) -> PResult<U> {
        self.parts.go_emit(inp)
    }

    fn go_check(&self, inp: &mut InputRef<'src, '_, I, E>) -> PResult<()> {
        self.parts.go_check(inp)
    }
}

/// A head, and what stands under it. See `headed`.
#[derive(Drop)]
#[derive_where(Clone, Copy; H, T)]
pub struct Headed<H, T, O, I, X> {
    pub parts: ThenWithCtx<H, T, O, I, X>,
}

impl<I, O, U, E, X, H: IsParser<I, O, E>, T: IsParser<I, U, X>> IsParser<I, (O, U), E>
    for Headed<H, T, O, I, X> {}

impl<'src, I, O, U, E, X, H, T> Parser<'src, I, (O, U), E> for Headed<H, T, O, I, X>
where
    I: Input<'src>,
    I::Token: 'src,
    O: Drop,
    E: ParserExtra<I>,
    H: DecidedByWord<'src, I, O, E>,
    X: ParserExtra<I, Error = E::Error, State = E::State, Context = O>,
    T: ParserUnder<'src, I, U, X>,
{
    ghost use Rattle.chumsky_parser.specs.Chained.{SamePair};
    ghost use Rattle.chumsky_context.specs.Under.{SequenceUnder, SameAreEqual};
    ghost use Rattle.chumsky_context.specs.UnderLaws.{sequence_under-ends, sequence_under-agrees};
    ghost use Rattle.chumsky_exact.specs.Contexts.{then_under_language};
    ghost use Rattle.chumsky_exact.specs.ContextsLaws.{then_under-accepts};

    ghost ready = { λ p. H.ready p.parts.parser × T.ready p.parts.then };

    ghost meaning = { λ p errors states. SequenceUnder (H.meaning p.parts.parser errors states) (T.meaning p.parts.then errors states) };

    ghost steady = { λ p. H.steady p.parts.parser × T.steady p.parts.then × SameAreEqual (H.same p.parts.parser) };

    ghost same = { λ p. SamePair (H.same p.parts.parser) (T.same p.parts.then) };

    ghost language = { λ p. then_under_language (H.language p.parts.parser) (H.decides p.parts.parser) (T.language_under p.parts.then) };

    ghost ends_after_start = { λ p. sequence_under-ends _ _ (H.Parser.ends_after_start p.parts.parser) (T.Parser.ends_after_start p.parts.then) };

    ghost agrees = { λ p s. sequence_under-agrees _ _ (H.same p.parts.parser) (T.same p.parts.then) s.2 (H.Parser.agrees p.parts.parser s.0) (T.Parser.agrees p.parts.then s.1) };

    ghost accepts = { λ p. then_under-accepts _ _ (H.language p.parts.parser) (H.decides p.parts.parser) (T.language_under p.parts.then)
        (H.Parser.ends_after_start p.parts.parser) (T.Parser.ends_after_start p.parts.then) (H.by_word p.parts.parser) (H.Parser.accepts p.parts.parser) (T.accepts_under p.parts.then) };

    fn go_emit(&self, inp: &mut InputRef<'src, '_, I, E>) -> PResult<(O, U)> {
        self.parts.go_emit(inp)
    }

    fn go_check(&self, inp: &mut InputRef<'src, '_, I, E>) -> PResult<()> {
        self.parts.go_check(inp)
    }
}
