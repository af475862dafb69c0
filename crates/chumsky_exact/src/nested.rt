//! `Nested`: a parser over the whole of an input that another one gives, whose word decides that input.
use crate::context::DecidedByWord;
use chumsky_context::nested_in::NestedIn;
use chumsky_input::error::Error;
use chumsky_input::extra::{Full, ParserExtra};
use chumsky_input::input::{Input, Tokens};
use chumsky_input::input_ref::InputRef;
use chumsky_input::inspector::Inspector;
use chumsky_input::stop::PResult;
use chumsky_parser::parser::{IsParser, Parser};
use std::marker::PhantomData;

/// A parser whose output is an input, of which the tokens can be counted. It does what the parser in it does. `C`, `T` and
/// `S` are cursor, token and span of that input.
#[derive(Drop)]
#[derive_where(Clone, Copy; B)]
pub struct Counted<B, C, T, S> {
    pub parser: B,
    pub of: PhantomData<(C, T, S)>,
}

impl<I, J, E, B: IsParser<I, J, E>, C, T, S> IsParser<I, J, E> for Counted<B, C, T, S> {}

impl<'src, I, J, E, B, C, T, S> Parser<'src, I, J, E> for Counted<B, C, T, S>
where
    I: Input<'src>,
    J: Input<'src, Cursor = C, Token = T, Span = S> + Copy,
    C: Copy,
    T: Drop,
    S: Drop,
    E: ParserExtra<I>,
    B: Parser<'src, I, J, E>,
{
    ghost use Rattle.chumsky_exact.specs.Nested.{MeansCounted, tokens_of};
    ghost use Rattle.chumsky_exact.specs.NestedLaws.{counted-ends, counted-agrees, counted-accepts};

    ghost ready = { λ p. B.ready p.parser };

    ghost meaning = { λ p errors states. MeansCounted (tokens_of J.Input) (B.meaning p.parser errors states) };

    ghost steady = { λ p. B.steady p.parser };

    ghost same = { λ p. B.same p.parser };

    ghost language = { λ p. B.language p.parser };

    ghost ends_after_start = { λ p. counted-ends _ _ (B.ends_after_start p.parser) };

    ghost agrees = { λ p s. counted-agrees _ _ (B.same p.parser) (B.agrees p.parser s) };

    ghost accepts = { λ p. counted-accepts _ _ (B.accepts p.parser) };

    fn go_emit(&self, inp: &mut InputRef<'src, '_, I, E>) -> PResult<J> {
        let input = self.parser.go_emit(inp)?;
        // Where a run of an input begins, its tokens can be counted.
        let _begun = input.begin();
        Ok(input)
    }

    fn go_check(&self, inp: &mut InputRef<'src, '_, I, E>) -> PResult<()> {
        self.parser.go_check(inp)
    }
}

/// A parser over the whole of the input that an outer one gives. See `nested`.
///
/// `J` is the inner input, with `C`, `T` and `S` as its cursor, token and span, and `M` what the state saves over it.
#[derive(Drop)]
#[derive_where(Clone, Copy; A, B)]
pub struct Nested<A, B, J, C, T, S, M> {
    pub parts: NestedIn<A, Counted<B, C, T, S>, J, C, T, S, M>,
}

impl<I, J, U, E, A, B, C, T, S, M> IsParser<I, U, E> for Nested<A, B, J, C, T, S, M>
where
    I: Tokens,
    E: ParserExtra<I>,
    A: IsParser<J, U, Full<E::Error, E::State, E::Context>>,
    B: IsParser<I, J, E>,
{}

impl<'src, I, J, U, E, A, B, C, T, S, M> Parser<'src, I, U, E> for Nested<A, B, J, C, T, S, M>
where
    I: Input<'src>,
    I::Token: 'src,
    J: Input<'src, Cursor = C, Token = T, Span = S> + Copy,
    C: Copy,
    T: Drop + 'src,
    S: Drop,
    U: Drop,
    E: ParserExtra<I>,
    E::Error: Error<J>,
    E::State: Inspector<J, Mark = M>,
    M: Drop,
    A: Parser<'src, J, U, Full<E::Error, E::State, E::Context>>,
    B: DecidedByWord<'src, I, J, E>,
{
    ghost use Rattle.chumsky_parser.specs.FailureLaws.{SameUnit};
    ghost use Rattle.chumsky_parser.specs.IgnoringLaws.{ignoring_second-agrees};
    ghost use Rattle.chumsky_primitive.specs.EndLaws.{end-agrees};
    ghost use Rattle.chumsky_context.specs.Within.{ToEnd, MeansNestedIn, SameOverBoth};
    ghost use Rattle.chumsky_context.specs.WithinLaws.{nested_in-ends, nested_in-agrees};
    ghost use Rattle.chumsky_exact.specs.Nested.{MeansCounted, SparesWithin, tokens_of, nested_language};
    ghost use Rattle.chumsky_exact.specs.NestedLaws.{counted-ends, counted-agrees, nested-accepts};

    ghost ready = { λ p. A.ready p.parts.parser × B.ready p.parts.outer.parser };

    ghost meaning = { λ p errors states. MeansNestedIn J.Input ⟦<E::Error as Error<J>>⟧ ⟦<E::State as Inspector<J>>⟧ errors states (ToEnd J.Input ⟦<E::Error as Error<J>>⟧ ⟦<E::State as Inspector<J>>⟧ (A.meaning p.parts.parser ⟦<E::Error as Error<J>>⟧ ⟦<E::State as Inspector<J>>⟧)) (MeansCounted (tokens_of J.Input) (B.meaning p.parts.outer.parser errors states)) };

    ghost steady = { λ p. A.steady p.parts.parser × B.steady p.parts.outer.parser × SameOverBoth J.Input ⟦<E::Error as Error<J>>⟧ ⟦<E::State as Inspector<J>>⟧ ⟦<E::Error as Error<I>>⟧ ⟦<E::State as Inspector<I>>⟧ (B.same p.parts.outer.parser) };

    ghost same = { λ p. A.same p.parts.parser };

    ghost language = { λ p. nested_language (B.language p.parts.outer.parser) (B.decides p.parts.outer.parser) (tokens_of J.Input) (A.language p.parts.parser)
        (SparesWithin ⟦<E::Error as Error<J>>⟧ ⟦<E::State as Inspector<J>>⟧ (A.meaning p.parts.parser ⟦<E::Error as Error<J>>⟧ ⟦<E::State as Inspector<J>>⟧)) };

    ghost ends_after_start = { λ p. nested_in-ends _ _ _ _ _ _ _ (counted-ends _ _ (B.Parser.ends_after_start p.parts.outer.parser)) };

    ghost agrees = { λ p s. nested_in-agrees _ _ _ _ _ _ _ (A.same p.parts.parser) (B.same p.parts.outer.parser) s.2 (ignoring_second-agrees _ _ (A.same p.parts.parser) SameUnit (A.agrees p.parts.parser s.0) (end-agrees _ _ _))
        (counted-agrees _ _ (B.same p.parts.outer.parser) (B.Parser.agrees p.parts.outer.parser s.1)) };

    ghost accepts = { λ p. nested-accepts _ _ _ _ _ _ _ (B.language p.parts.outer.parser) (B.decides p.parts.outer.parser) (A.language p.parts.parser)
        (A.ends_after_start p.parts.parser) (B.by_word p.parts.outer.parser) (A.accepts p.parts.parser) (B.Parser.accepts p.parts.outer.parser) };

    fn go_emit(&self, inp: &mut InputRef<'src, '_, I, E>) -> PResult<U> {
        self.parts.go_emit(inp)
    }

    fn go_check(&self, inp: &mut InputRef<'src, '_, I, E>) -> PResult<()> {
        self.parts.go_check(inp)
    }
}
