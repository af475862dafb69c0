//! `MapCtx`: a parser under a context that is made of the run's.
ghost use Rattle.std.specs.Prelude.{◌≡◌, ⊤};
ghost use Rattle.std.specs.Fn.{FnReturnsAt};
ghost use Rattle.chumsky_context.specs.Configured.{IsDeterministic};

use crate::under::{check_under, emit_under};
use chumsky_input::error::Error;
use chumsky_input::extra::ParserExtra;
use chumsky_input::input::{Input, Tokens};
use chumsky_input::input_ref::InputRef;
use chumsky_input::stop::PResult;
use chumsky_parser::moving::Moving;
use chumsky_parser::parser::{IsParser, Parser};
use std::marker::PhantomData;

/// Makes a context of another. Each closure `Fn(&C) -> X` does, and so can a type of one's own: what its impl says in
/// `gives` is known of the context where the parser is run.
pub trait ContextMapper<C, X> {
    /// That it may be called. Where nothing is said, it may.
    ghost callable: { Self → Type 0 } = { λ mapper. ⊤ };

    /// Which contexts it may make of a context.
    ghost gives: { Self → C → X → Type 0 };

    /// Makes the context that a part runs under, of that of the run.
    fn mapped(&self, context: &C) -> X
        requires { callable self.now }
        ensures { gives self.now context.now result };
}

impl<C, X, F: Fn(&C) -> X> ContextMapper<C, X> for F {
    ghost callable = { λ f. F.IsAlwaysCallable f };

    ghost gives = { λ f context result. FnReturnsAt F.Fn f context result };

    #[inline]
    fn mapped(&self, context: &C) -> X {
        (*self)(context)
    }
}

/// A parser that runs under a context that is made of the run's, once for each run. See `map_ctx`.
#[derive(Drop)]
#[derive_where(Clone, Copy; A, F)]
pub struct MapCtx<A, X, F, I, E> {
    pub parser: A,
    pub mapper: F,
    pub of: PhantomData<(X, I, E)>,
}

impl<I, O, X, E, A: IsParser<I, O, X>, F> IsParser<I, O, E> for MapCtx<A, X, F, I, E> {}

impl<'src, I, O, X, E, A, F> Parser<'src, I, O, E> for MapCtx<A, X, F, I, E>
where
    I: Input<'src>,
    I::Token: 'src,
    X: ParserExtra<I, Error = E::Error, State = E::State>,
    X::Context: Drop,
    E: ParserExtra<I>,
    A: Parser<'src, I, O, X>,
    F: ContextMapper<E::Context, X::Context>,
{
    ghost use Rattle.chumsky_context.specs.Configured.{IsDeterministic};
    ghost use Rattle.chumsky_context.specs.Under.{UnderMade};
    ghost use Rattle.chumsky_context.specs.UnderLaws.{under_made-ends, under_made-agrees};
    ghost use Rattle.chumsky_context.specs.UnderLanguage.{under_made-accepts};

    ghost ready = { λ p. A.ready p.parser × F.callable p.mapper };

    ghost meaning = { λ p errors states. UnderMade (F.gives p.mapper) (A.meaning p.parser errors states) };

    ghost steady = { λ p. A.steady p.parser × IsDeterministic (F.gives p.mapper) };

    ghost same = { λ p. A.same p.parser };

    ghost ends_after_start = { λ p. under_made-ends _ (F.gives p.mapper) (A.ends_after_start p.parser) };

    ghost agrees = { λ p s. under_made-agrees _ (F.gives p.mapper) s.1 (A.same p.parser) (A.agrees p.parser s.0) };

    ghost language = { λ p. A.language p.parser };

    ghost accepts = { λ p. under_made-accepts _ (F.gives p.mapper) (A.accepts p.parser) };

    #[inline]
    fn go_emit(&self, inp: &mut InputRef<'src, '_, I, E>) -> PResult<O> {
        let context = self.mapper.mapped(inp.ctx());
        emit_under::<I, O, E, X, A>(&self.parser, &context, inp)
    }

    #[inline]
    fn go_check(&self, inp: &mut InputRef<'src, '_, I, E>) -> PResult<()> {
        let context = self.mapper.mapped(inp.ctx());
        check_under::<I, O, E, X, A>(&self.parser, &context, inp)
    }
}

/// Runs a parser under the context that `mapper` makes of the run's: `map_ctx(|header: &Header| header.count, rows)`
/// hands `rows` the count alone.
#[inline]
pub fn map_ctx<I, O, E, X, A, F>(mapper: F, parser: A) -> MapCtx<A, X, F, I, E>
where
    I: Tokens,
    E: ParserExtra<I>,
    X: ParserExtra<I>,
    A: IsParser<I, O, X>,
    F: Fn(&E::Context) -> X::Context,
    ensures parser { result.parser ≡ parser }
    ensures mapper { result.mapper ≡ mapper }
{
    MapCtx {
        parser,
        mapper,
        of: PhantomData,
    }
}

/// Runs a parser under a context as `map_ctx` does, by a value of a type with an impl of `ContextMapper`. The parser's type
/// can then be written down, and what is made of a context is known where the parser is run.
#[inline]
pub fn map_ctx_by<I, O, E, X, A, F>(mapper: F, parser: A) -> MapCtx<A, X, F, I, E>
where
    I: Tokens,
    E: ParserExtra<I>,
    X: ParserExtra<I>,
    A: IsParser<I, O, X>,
    F: ContextMapper<E::Context, X::Context>,
    ensures parser { result.parser ≡ parser }
    ensures mapper { result.mapper ≡ mapper }
{
    MapCtx {
        parser,
        mapper,
        of: PhantomData,
    }
}

impl<'src, I, O, X, E, A, F> Moving<'src, I, O, E> for MapCtx<A, X, F, I, E>
where
    I: Input<'src>,
    I::Token: 'src,
    X: ParserExtra<I, Error = E::Error, State = E::State>,
    X::Context: Drop,
    E: ParserExtra<I>,
    A: Moving<'src, I, O, X>,
    F: ContextMapper<E::Context, X::Context>,
{
    ghost use Rattle.chumsky_context.specs.UnderLaws.{under_made-moves};

    ghost moves = { λ p. A.moves p.parser };

    ghost moved = { λ p e. under_made-moves _ (F.gives p.mapper) (A.moved p.parser e) };

    fn always_moves(&self) -> bool
        ensures { result ≡ A.moves self.now.parser }
    {
        self.parser.always_moves()
    }
}

/// `map_ctx` is steady where its part is, and the mapper makes one context of one context.
pub fn map_ctx_is_steady<'src, I, O, X, E, A, F>(parser: &MapCtx<A, X, F, I, E>)
where
    I: Input<'src>,
    I::Token: 'src,
    X: ParserExtra<I, Error = E::Error, State = E::State>,
    X::Context: Drop,
    E: ParserExtra<I>,
    A: Parser<'src, I, O, X>,
    F: ContextMapper<E::Context, X::Context>,
    ensures ready { A.ready parser.now.parser → F.callable parser.now.mapper → ⟦<MapCtx<A, X, F, I, E> as Parser<'src, I, O, E>>⟧.ready parser.now }
    ensures steady { A.steady parser.now.parser → IsDeterministic (F.gives parser.now.mapper) → ⟦<MapCtx<A, X, F, I, E> as Parser<'src, I, O, E>>⟧.steady parser.now }
    ensures same { (x y : O) → ⟦<MapCtx<A, X, F, I, E> as Parser<'src, I, O, E>>⟧.same parser.now x y → A.same parser.now.parser x y }
{}
