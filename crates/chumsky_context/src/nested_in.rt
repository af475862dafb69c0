//! `NestedIn`: a parser over an input that another parser gives.
ghost use Rattle.chumsky_context.specs.Within.{SteadyNested};
ghost use Rattle.std.specs.Prelude.{◌≡◌, ℕ};

use crate::within::{check_within, emit_within};
use chumsky_input::error::Error;
use chumsky_input::extra::{Err, Full, ParserExtra};
use chumsky_input::input::{Input, TextCursor, Tokens};
use chumsky_input::input_ref::InputRef;
use chumsky_input::inspector::Inspector;
use chumsky_input::simple::Cheap;
use chumsky_input::span::SimpleSpan;
use chumsky_input::stop::PResult;
use chumsky_parser::moving::Moving;
use chumsky_parser::parser::{IsParser, Parser};
use chumsky_primitive::any::Any;
use std::marker::PhantomData;

/// A parser that runs over the whole of the input that `outer` gives, in the state and under the context of the run. The
/// error that it ends with, on success too, counts as one failure where `outer` began, and the errors that it emitted as the
/// run's. See `nested_in`.
///
/// `J` is the inner input, with `C`, `T` and `S` as its cursor, token and span, and `M` what the state saves over it.
#[derive(Drop)]
#[derive_where(Clone, Copy; A, B)]
pub struct NestedIn<A, B, J, C, T, S, M> {
    pub parser: A,
    pub outer: B,
    pub of: PhantomData<(J, C, T, S, M)>,
}

impl<I, J, U, E, A, B, C, T, S, M> IsParser<I, U, E> for NestedIn<A, B, J, C, T, S, M>
where
    I: Tokens,
    E: ParserExtra<I>,
    A: IsParser<J, U, Full<E::Error, E::State, E::Context>>,
    B: IsParser<I, J, E>,
{}

impl<'src, I, J, U, E, A, B, C, T, S, M> Parser<'src, I, U, E> for NestedIn<A, B, J, C, T, S, M>
where
    I: Input<'src>,
    I::Token: 'src,
    J: Input<'src, Cursor = C, Token = T, Span = S>,
    C: Copy,
    T: Drop + 'src,
    S: Drop,
    U: Drop,
    E: ParserExtra<I>,
    E::Error: Error<J>,
    E::State: Inspector<J, Mark = M>,
    M: Drop,
    A: Parser<'src, J, U, Full<E::Error, E::State, E::Context>>,
    B: Parser<'src, I, J, E>,
{
    ghost use Rattle.chumsky_parser.specs.Language.{of_unsaid};
    ghost use Rattle.chumsky_parser.specs.FailureLaws.{SameUnit};
    ghost use Rattle.chumsky_parser.specs.IgnoringLaws.{ignoring_second-agrees};
    ghost use Rattle.chumsky_primitive.specs.EndLaws.{end-agrees};
    ghost use Rattle.chumsky_context.specs.Within.{ToEnd, MeansNestedIn, SameOverBoth};
    ghost use Rattle.chumsky_context.specs.WithinLaws.{nested_in-ends, nested_in-agrees};

    ghost ready = { λ p. A.ready p.parser × B.ready p.outer };

    ghost meaning = { λ p errors states. MeansNestedIn J.Input ⟦<E::Error as Error<J>>⟧ ⟦<E::State as Inspector<J>>⟧ errors states (ToEnd J.Input ⟦<E::Error as Error<J>>⟧ ⟦<E::State as Inspector<J>>⟧ (A.meaning p.parser ⟦<E::Error as Error<J>>⟧ ⟦<E::State as Inspector<J>>⟧)) (B.meaning p.outer errors states) };

    ghost steady = { λ p. A.steady p.parser × B.steady p.outer × SameOverBoth J.Input ⟦<E::Error as Error<J>>⟧ ⟦<E::State as Inspector<J>>⟧ ⟦<E::Error as Error<I>>⟧ ⟦<E::State as Inspector<I>>⟧ (B.same p.outer) };

    ghost same = { λ p. A.same p.parser };

    ghost ends_after_start = { λ p. nested_in-ends _ _ _ _ _ _ _ (B.ends_after_start p.outer) };

    ghost agrees = { λ p s. nested_in-agrees _ _ _ _ _ _ _ (A.same p.parser) (B.same p.outer) s.2 (ignoring_second-agrees _ _ (A.same p.parser) SameUnit (A.agrees p.parser s.0) (end-agrees _ _ _)) (B.agrees p.outer s.1) };

    ghost accepts = { λ _. of_unsaid };

    fn go_emit(&self, inp: &mut InputRef<'src, '_, I, E>) -> PResult<U> {
        let place = I::place(&inp.cursor());
        let input = self.outer.go_emit(inp)?;
        emit_within(&self.parser, input, place, inp)
    }

    fn go_check(&self, inp: &mut InputRef<'src, '_, I, E>) -> PResult<()> {
        let place = I::place(&inp.cursor());
        let input = self.outer.go_emit(inp)?;
        check_within(&self.parser, input, place, inp)
    }
}

impl<'src, I, J, U, E, A, B, C, T, S, M> Moving<'src, I, U, E> for NestedIn<A, B, J, C, T, S, M>
where
    I: Input<'src>,
    I::Token: 'src,
    J: Input<'src, Cursor = C, Token = T, Span = S>,
    C: Copy,
    T: Drop + 'src,
    S: Drop,
    U: Drop,
    E: ParserExtra<I>,
    E::Error: Error<J>,
    E::State: Inspector<J, Mark = M>,
    M: Drop,
    A: Parser<'src, J, U, Full<E::Error, E::State, E::Context>>,
    B: Moving<'src, I, J, E>,
{
    ghost use Rattle.chumsky_context.specs.WithinLaws.{nested_in-moves};

    ghost moves = { λ p. B.moves p.outer };

    ghost moved = { λ p e. nested_in-moves _ _ _ _ _ _ _ (B.moved p.outer e) };

    fn always_moves(&self) -> bool
        ensures { result ≡ B.moves self.now.outer }
    {
        self.outer.always_moves()
    }
}

/// `nested_in` is steady where both parts are, errors and states count as the same over both inputs alike, and outputs of the
/// outer part that are the same have the same tokens. Its outputs that are the same are so to the inner part.
pub fn nested_in_is_steady<'src, I, J, U, E, A, B, C, T, S, M>(
    parser: &NestedIn<A, B, J, C, T, S, M>,
)
where
    I: Input<'src>,
    I::Token: 'src,
    J: Input<'src, Cursor = C, Token = T, Span = S>,
    C: Copy,
    T: Drop + 'src,
    S: Drop,
    U: Drop,
    E: ParserExtra<I>,
    E::Error: Error<J>,
    E::State: Inspector<J, Mark = M>,
    M: Drop,
    A: Parser<'src, J, U, Full<E::Error, E::State, E::Context>>,
    B: Parser<'src, I, J, E>,
    ensures ready { A.ready parser.now.parser → B.ready parser.now.outer → ⟦<NestedIn<A, B, J, C, T, S, M> as Parser<'src, I, U, E>>⟧.ready parser.now }
    ensures steady { SteadyNested J.Input ⟦<E::Error as Error<J>>⟧ ⟦<E::State as Inspector<J>>⟧
        ⟦<E::Error as Error<I>>⟧ ⟦<E::State as Inspector<I>>⟧ A.steady B.steady B.same
        ⟦<NestedIn<A, B, J, C, T, S, M> as Parser<'src, I, U, E>>⟧.steady parser.now }
    ensures same { (x y : U) → ⟦<NestedIn<A, B, J, C, T, S, M> as Parser<'src, I, U, E>>⟧.same parser.now x y → A.same parser.now.parser x y }
{}

/// Texts that are tokens are such inputs: `any()` over a text that `any()` takes of a slice is steady, with an error that says
/// where it stands, and its outputs that are the same are equal.
pub fn any_nested_in_any_is_steady<'src>(
    parser: &NestedIn<
        Any<&'src str, Err<Cheap>>,
        Any<&'src [&'src str], Err<Cheap>>,
        &'src str,
        TextCursor<'src>,
        char,
        SimpleSpan,
        (),
    >,
)
    ensures steady { ⟦<NestedIn<Any<&'src str, Err<Cheap>>, Any<&'src [&'src str], Err<Cheap>>, &'src str, TextCursor<'src>, char, SimpleSpan, ()> as Parser<'src, &'src [&'src str], char, Err<Cheap>>>⟧.steady parser.now }
    ensures same { (x y : ℕ) → ⟦<NestedIn<Any<&'src str, Err<Cheap>>, Any<&'src [&'src str], Err<Cheap>>, &'src str, TextCursor<'src>, char, SimpleSpan, ()> as Parser<'src, &'src [&'src str], char, Err<Cheap>>>⟧.same parser.now x y → x ≡ y }
{}
