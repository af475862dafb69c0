//! Two parsers, for the output of the second.
ghost use Rattle.std.specs.Prelude.{◌≡◌, ◌||◌, [], ◌∷◌};
ghost use Rattle.chumsky_parser.specs.ByParts.{part, OutOnlyBy};

use chumsky_input::extra::ParserExtra;
use chumsky_input::input::Input;
use chumsky_input::input_ref::InputRef;
use chumsky_input::stop::PResult;
use chumsky_parser::moving::Moving;
use chumsky_parser::parser::{IsParser, Parser};
use std::marker::PhantomData;

/// Two parsers, one after the other, for the output of the second. See `ignore_then`.
#[derive(Drop)]
#[derive_where(Clone, Copy; A, B)]
pub struct IgnoreThen<A, B, O> {
    pub first: A,
    pub second: B,
    pub of: PhantomData<O>,
}

impl<I, O, U, E, A: IsParser<I, O, E>, B: IsParser<I, U, E>> IsParser<I, U, E>
    for IgnoreThen<A, B, O> {}

impl<
    'src,
    I: Input<'src>,
    O,
    U,
    E: ParserExtra<I>,
    A: Parser<'src, I, O, E>,
    B: Parser<'src, I, U, E>,
> Parser<'src, I, U, E> for IgnoreThen<A, B, O> {
    ghost use Rattle.chumsky_parser.specs.SequenceLanguage.{ignore_then_language, ignore_then-accepts};
    ghost use Rattle.chumsky_parser.specs.Ignoring.{IgnoringFirst};
    ghost use Rattle.chumsky_parser.specs.IgnoringLaws.{ignoring_first-ends, ignoring_first-agrees};

    ghost ready = { λ p. A.ready p.first × B.ready p.second };

    ghost meaning = { λ p errors states. IgnoringFirst (A.meaning p.first errors states) (B.meaning p.second errors states) };

    ghost steady = { λ p. A.steady p.first × B.steady p.second };

    ghost same = { λ p. B.same p.second };

    ghost language = { λ p. ignore_then_language (A.language p.first) (B.language p.second) };

    ghost ends_after_start = { λ p. ignoring_first-ends _ _ (A.ends_after_start p.first) (B.ends_after_start p.second) };

    ghost agrees = { λ p s. ignoring_first-agrees _ _ (A.same p.first) (B.same p.second) (A.agrees p.first s.0) (B.agrees p.second s.1) };

    ghost accepts = { λ p. ignore_then-accepts _ _ (A.ends_after_start p.first) (B.ends_after_start p.second) (A.accepts p.first) (B.accepts p.second) };

    #[inline(always)]
    fn go_emit(&self, inp: &mut InputRef<'src, '_, I, E>) -> PResult<U> {
        self.first.go_check(inp)?;
        self.second.go_emit(inp)
    }

    #[inline(always)]
    fn go_check(&self, inp: &mut InputRef<'src, '_, I, E>) -> PResult<()> {
        self.first.go_check(inp)?;
        self.second.go_check(inp)
    }
}

impl<
    'src,
    I: Input<'src>,
    O,
    U,
    E: ParserExtra<I>,
    A: Moving<'src, I, O, E>,
    B: Moving<'src, I, U, E>,
> Moving<'src, I, U, E> for IgnoreThen<A, B, O> {
    ghost use Rattle.chumsky_parser.specs.ProgressLaws.{ignoring_first-moves};

    ghost moves = { λ p. A.moves p.first || B.moves p.second };

    ghost moved = { λ p. ignoring_first-moves _ _ (A.moves p.first) (B.moves p.second) (A.ends_after_start p.first) (B.ends_after_start p.second) (A.moved p.first) (B.moved p.second) };

    fn always_moves(&self) -> bool
        ensures { result ≡ (A.moves self.now.first || B.moves self.now.second) }
    {
        self.first.always_moves() || self.second.always_moves()
    }
}

/// Never refused for memory where no part is: `a.ignore_then(b)`.
pub fn ignore_then_is_never_out_of_memory<
    'src,
    I: Input<'src>,
    O,
    U,
    E: ParserExtra<I>,
    A: Parser<'src, I, O, E>,
    B: Parser<'src, I, U, E>,
>(ignore_then: &IgnoreThen<A, B, O>)
    ensures { let i = ignore_then.now in OutOnlyBy E.Error.Error E.State.Inspector
        (part (A.meaning i.first) ∷ part (B.meaning i.second) ∷ [])
        (⟦<IgnoreThen<A, B, O> as Parser<'src, I, U, E>>⟧.meaning i) }
{}

/// When it is ready and steady, and which outputs are the same: `a.ignore_then(b)`.
pub fn ignore_then_is_steady<
    'src,
    I: Input<'src>,
    O,
    U,
    E: ParserExtra<I>,
    A: Parser<'src, I, O, E>,
    B: Parser<'src, I, U, E>,
>(ignore_then: &IgnoreThen<A, B, O>)
    ensures ready { let p = ignore_then.now in A.ready p.first → B.ready p.second →
        ⟦<IgnoreThen<A, B, O> as Parser<'src, I, U, E>>⟧.ready p }
    ensures steady { let p = ignore_then.now in A.steady p.first → B.steady p.second →
        ⟦<IgnoreThen<A, B, O> as Parser<'src, I, U, E>>⟧.steady p }
    ensures same { (x y : U) → ⟦<IgnoreThen<A, B, O> as Parser<'src, I, U, E>>⟧.same ignore_then.now x y →
        B.same ignore_then.now.second x y }
{}
