//! `IgnoreWithCtx`: a parser, and another under its output, for the output of the second.
ghost use Rattle.chumsky_context.specs.Under.{SameAreEqual};
ghost use Rattle.std.specs.Prelude.{◌≡◌, ℕ, ◌||◌};

use crate::under::{check_under, emit_under};
use chumsky_input::error::{EmptyErr, Error};
use chumsky_input::extra::{Err, Full, ParserExtra};
use chumsky_input::input::Input;
use chumsky_input::input_ref::InputRef;
use chumsky_input::stop::PResult;
use chumsky_parser::moving::Moving;
use chumsky_parser::parser::{IsParser, Parser};
use chumsky_primitive::any::Any;
use std::marker::PhantomData;

/// Two parsers, the second with the output of the first as its context, for the output of the second. `X` is the extra of the
/// second. See `ignore_with_ctx`.
#[derive(Drop)]
#[derive_where(Clone, Copy; A, B)]
pub struct IgnoreWithCtx<A, B, O, I, X> {
    pub parser: A,
    pub then: B,
    pub of: PhantomData<(O, I, X)>,
}

impl<I, O, U, E, X, A: IsParser<I, O, E>, B: IsParser<I, U, X>> IsParser<I, U, E>
    for IgnoreWithCtx<A, B, O, I, X> {}

impl<'src, I, O, U, E, X, A, B> Parser<'src, I, U, E> for IgnoreWithCtx<A, B, O, I, X>
where
    I: Input<'src>,
    I::Token: 'src,
    O: Drop,
    E: ParserExtra<I>,
    A: Parser<'src, I, O, E>,
    X: ParserExtra<I, Error = E::Error, State = E::State, Context = O>,
    B: Parser<'src, I, U, X>,
{
    ghost use Rattle.chumsky_parser.specs.Language.{of_unsaid};
    ghost use Rattle.chumsky_context.specs.Under.{IgnoringUnder, SameAreEqual};
    ghost use Rattle.chumsky_context.specs.UnderLaws.{ignoring_under-ends, ignoring_under-agrees};

    ghost ready = { λ p. A.ready p.parser × B.ready p.then };

    ghost meaning = { λ p errors states. IgnoringUnder (A.meaning p.parser errors states) (B.meaning p.then errors states) };

    ghost steady = { λ p. A.steady p.parser × B.steady p.then × SameAreEqual (A.same p.parser) };

    ghost same = { λ p. B.same p.then };

    ghost ends_after_start = { λ p. ignoring_under-ends _ _ (A.ends_after_start p.parser) (B.ends_after_start p.then) };

    ghost agrees = { λ p s. ignoring_under-agrees _ _ (A.same p.parser) (B.same p.then) s.2 (A.agrees p.parser s.0) (B.agrees p.then s.1) };

    ghost accepts = { λ _. of_unsaid };

    #[inline]
    fn go_emit(&self, inp: &mut InputRef<'src, '_, I, E>) -> PResult<U> {
        let value = self.parser.go_emit(inp)?;
        emit_under::<I, U, E, X, B>(&self.then, &value, inp)
    }

    #[inline]
    fn go_check(&self, inp: &mut InputRef<'src, '_, I, E>) -> PResult<()> {
        let value = self.parser.go_emit(inp)?;
        check_under::<I, U, E, X, B>(&self.then, &value, inp)
    }
}

impl<'src, I, O, U, E, X, A, B> Moving<'src, I, U, E> for IgnoreWithCtx<A, B, O, I, X>
where
    I: Input<'src>,
    I::Token: 'src,
    O: Drop,
    E: ParserExtra<I>,
    A: Moving<'src, I, O, E>,
    X: ParserExtra<I, Error = E::Error, State = E::State, Context = O>,
    B: Moving<'src, I, U, X>,
{
    ghost use Rattle.chumsky_context.specs.UnderLaws.{ignoring_under-moves};

    ghost moves = { λ p. A.moves p.parser || B.moves p.then };

    ghost moved = { λ p. ignoring_under-moves _ _ (A.moves p.parser) (B.moves p.then) (A.ends_after_start p.parser) (B.ends_after_start p.then) (A.moved p.parser) (B.moved p.then) };

    fn always_moves(&self) -> bool
        ensures { result ≡ (A.moves self.now.parser || B.moves self.now.then) }
    {
        self.parser.always_moves() || self.then.always_moves()
    }
}

/// `ignore_with_ctx` is steady where both parts are, and outputs of the first that are the same are equal. Its outputs that are
/// the same are so to the second part.
pub fn ignore_with_ctx_is_steady<'src, I, O, U, E, X, A, B>(parser: &IgnoreWithCtx<A, B, O, I, X>)
where
    I: Input<'src>,
    I::Token: 'src,
    O: Drop,
    E: ParserExtra<I>,
    A: Parser<'src, I, O, E>,
    X: ParserExtra<I, Error = E::Error, State = E::State, Context = O>,
    B: Parser<'src, I, U, X>,
    ensures ready { A.ready parser.now.parser → B.ready parser.now.then → ⟦<IgnoreWithCtx<A, B, O, I, X> as Parser<'src, I, U, E>>⟧.ready parser.now }
    ensures steady { A.steady parser.now.parser → B.steady parser.now.then → SameAreEqual (A.same parser.now.parser) → ⟦<IgnoreWithCtx<A, B, O, I, X> as Parser<'src, I, U, E>>⟧.steady parser.now }
    ensures same { (x y : U) → ⟦<IgnoreWithCtx<A, B, O, I, X> as Parser<'src, I, U, E>>⟧.same parser.now x y → B.same parser.now.then x y }
{}

/// Characters are such outputs: `any()` under that of another `any()` is steady, and its outputs that are the same are equal.
pub fn any_under_any_is_steady<'src>(
    parser: &IgnoreWithCtx<
        Any<&'src str, Err<EmptyErr>>,
        Any<&'src str, Full<EmptyErr, (), char>>,
        char,
        &'src str,
        Full<EmptyErr, (), char>,
    >,
)
    ensures steady { ⟦<IgnoreWithCtx<Any<&'src str, Err<EmptyErr>>, Any<&'src str, Full<EmptyErr, (), char>>, char, &'src str, Full<EmptyErr, (), char>> as Parser<'src, &'src str, char, Err<EmptyErr>>>⟧.steady parser.now }
    ensures same { (x y : ℕ) → ⟦<IgnoreWithCtx<Any<&'src str, Err<EmptyErr>>, Any<&'src str, Full<EmptyErr, (), char>>, char, &'src str, Full<EmptyErr, (), char>> as Parser<'src, &'src str, char, Err<EmptyErr>>>⟧.same parser.now x y → x ≡ y }
{}
