//! What is in an output that is always `Some`, or always `Ok`.
ghost use Rattle.std.specs.Option.{IsSome};
ghost use Rattle.std.specs.Prelude.{◌≡◌, Some, Ok, IsOk};
ghost use Rattle.chumsky_judge.specs.Unwrapped.{AlwaysGives};

use chumsky_input::extra::ParserExtra;
use chumsky_input::input::Input;
use chumsky_input::input_ref::InputRef;
use chumsky_input::stop::PResult;
use chumsky_parser::moving::Moving;
use chumsky_parser::parser::{IsParser, Parser};
use std::marker::PhantomData;

/// A parser whose outputs are unwrapped. See `unwrapped`.
#[derive(Drop)]
#[derive_where(Clone, Copy; A)]
pub struct Unwrapped<A, O> {
    pub parser: A,
    pub of: PhantomData<O>,
}

impl<I, O, E, A: IsParser<I, Option<O>, E>> IsParser<I, O, E> for Unwrapped<A, Option<O>> {}

impl<I, O, X, E, A: IsParser<I, Result<O, X>, E>> IsParser<I, O, E>
    for Unwrapped<A, Result<O, X>> {}

impl<'src, I: Input<'src>, O, E: ParserExtra<I>, A: Parser<'src, I, Option<O>, E>> Parser<
    'src,
    I,
    O,
    E,
> for Unwrapped<A, Option<O>> {
    ghost use Rattle.std.specs.Option.{IsSome};
    ghost use Rattle.chumsky_combinator.specs.Mapped.{Mapped, SameMapped};
    ghost use Rattle.chumsky_combinator.specs.MappedLaws.{mapped-ends, mapped-agrees};
    ghost use Rattle.chumsky_judge.specs.Unwrapped.{AlwaysGives, InSome};
    ghost use Rattle.chumsky_combinator.specs.MappedLanguage.{map_language, map-accepts};

    ghost ready = { λ p. A.ready p.parser × AlwaysGives IsSome (A.meaning p.parser E.Error.Error E.State.Inspector) };

    ghost meaning = { λ p errors states. Mapped InSome (A.meaning p.parser errors states) };

    ghost steady = { λ p. A.steady p.parser };

    ghost same = { λ p. SameMapped (A.same p.parser) InSome };

    ghost ends_after_start = { λ p. mapped-ends InSome _ (A.ends_after_start p.parser) };

    ghost agrees = { λ p s. mapped-agrees InSome _ (A.same p.parser) (A.agrees p.parser s) };

    ghost language = { λ p. map_language InSome (A.language p.parser) };

    ghost accepts = { λ p. map-accepts InSome _ (A.accepts p.parser) };

    #[inline(always)]
    fn go_emit(&self, inp: &mut InputRef<'src, '_, I, E>) -> PResult<O> {
        let held = self.parser.go_emit(inp)?;
        Ok(held.unwrap())
    }

    #[inline(always)]
    fn go_check(&self, inp: &mut InputRef<'src, '_, I, E>) -> PResult<()> {
        self.parser.go_check(inp)
    }
}

impl<'src, I, O, X, E, A> Parser<'src, I, O, E> for Unwrapped<A, Result<O, X>>
where
    I: Input<'src>,
    X: Drop,
    E: ParserExtra<I>,
    A: Parser<'src, I, Result<O, X>, E>,
{
    ghost use Rattle.std.specs.Prelude.{IsOk};
    ghost use Rattle.chumsky_combinator.specs.Mapped.{Mapped, SameMapped};
    ghost use Rattle.chumsky_combinator.specs.MappedLaws.{mapped-ends, mapped-agrees};
    ghost use Rattle.chumsky_judge.specs.Unwrapped.{AlwaysGives, InOk};
    ghost use Rattle.chumsky_combinator.specs.MappedLanguage.{map_language, map-accepts};

    ghost ready = { λ p. A.ready p.parser × AlwaysGives IsOk (A.meaning p.parser E.Error.Error E.State.Inspector) };

    ghost meaning = { λ p errors states. Mapped InOk (A.meaning p.parser errors states) };

    ghost steady = { λ p. A.steady p.parser };

    ghost same = { λ p. SameMapped (A.same p.parser) InOk };

    ghost ends_after_start = { λ p. mapped-ends InOk _ (A.ends_after_start p.parser) };

    ghost agrees = { λ p s. mapped-agrees InOk _ (A.same p.parser) (A.agrees p.parser s) };

    ghost language = { λ p. map_language InOk (A.language p.parser) };

    ghost accepts = { λ p. map-accepts InOk _ (A.accepts p.parser) };

    #[inline(always)]
    fn go_emit(&self, inp: &mut InputRef<'src, '_, I, E>) -> PResult<O> {
        let answer = self.parser.go_emit(inp)?;
        Ok(answer.unwrap())
    }

    #[inline(always)]
    fn go_check(&self, inp: &mut InputRef<'src, '_, I, E>) -> PResult<()> {
        self.parser.go_check(inp)
    }
}

impl<'src, I, O, E, A> Moving<'src, I, O, E> for Unwrapped<A, Option<O>>
where
    I: Input<'src>,
    E: ParserExtra<I>,
    A: Moving<'src, I, Option<O>, E>,
{
    ghost use Rattle.chumsky_combinator.specs.MappedLaws.{mapped-moves};

    ghost moves = { λ p. A.moves p.parser };

    ghost moved = { λ p e. mapped-moves _ _ (A.moved p.parser e) };

    fn always_moves(&self) -> bool
        ensures { result ≡ A.moves self.now.parser }
    {
        self.parser.always_moves()
    }
}

impl<'src, I, O, X, E, A> Moving<'src, I, O, E> for Unwrapped<A, Result<O, X>>
where
    I: Input<'src>,
    X: Drop,
    E: ParserExtra<I>,
    A: Moving<'src, I, Result<O, X>, E>,
{
    ghost use Rattle.chumsky_combinator.specs.MappedLaws.{mapped-moves};

    ghost moves = { λ p. A.moves p.parser };

    ghost moved = { λ p e. mapped-moves _ _ (A.moved p.parser e) };

    fn always_moves(&self) -> bool
        ensures { result ≡ A.moves self.now.parser }
    {
        self.parser.always_moves()
    }
}

/// When it is ready and steady, and which outputs are the same: `a.unwrapped()`.
pub fn unwrapped_is_steady<
    'src,
    I: Input<'src>,
    O,
    X: Drop,
    E: ParserExtra<I>,
    A: Parser<'src, I, Option<O>, E>,
    B: Parser<'src, I, Result<O, X>, E>,
>(of_some: &Unwrapped<A, Option<O>>, of_ok: &Unwrapped<B, Result<O, X>>)
    ensures ready_of_some { A.ready of_some.now.parser → AlwaysGives IsSome (A.meaning of_some.now.parser E.Error.Error E.State.Inspector) → ⟦<Unwrapped<A, Option<O>> as Parser<'src, I, O, E>>⟧.ready of_some.now }
    ensures ready_of_ok { B.ready of_ok.now.parser → AlwaysGives IsOk (B.meaning of_ok.now.parser E.Error.Error E.State.Inspector) → ⟦<Unwrapped<B, Result<O, X>> as Parser<'src, I, O, E>>⟧.ready of_ok.now }
    ensures of_some { A.steady of_some.now.parser → ⟦<Unwrapped<A, Option<O>> as Parser<'src, I, O, E>>⟧.steady of_some.now }
    ensures of_ok { B.steady of_ok.now.parser → ⟦<Unwrapped<B, Result<O, X>> as Parser<'src, I, O, E>>⟧.steady of_ok.now }
    ensures same_of_some { (x y : O) → ⟦<Unwrapped<A, Option<O>> as Parser<'src, I, O, E>>⟧.same of_some.now x y → A.same of_some.now.parser (Some x) (Some y) }
    ensures same_of_ok { (x y : O) → ⟦<Unwrapped<B, Result<O, X>> as Parser<'src, I, O, E>>⟧.same of_ok.now x y → B.same of_ok.now.parser (Ok x) (Ok y) }
{}
