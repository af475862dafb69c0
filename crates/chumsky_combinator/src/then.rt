//! One parser after another.
ghost use Rattle.std.specs.Prelude.{◌≡◌, ◌||◌, [], ◌∷◌};
ghost use Rattle.chumsky_parser.specs.ByParts.{part, OutOnlyBy};

use crate::then_ignore::ThenIgnore;
use chumsky_input::extra::ParserExtra;
use chumsky_input::input::Input;
use chumsky_input::input_ref::InputRef;
use chumsky_input::stop::PResult;
use chumsky_parser::moving::Moving;
use chumsky_parser::parser::{IsParser, Parser};
use std::marker::PhantomData;

/// One parser, and then another from where the first ended. See `then`.
#[derive(Drop)]
#[derive_where(Clone, Copy; A, B)]
pub struct Then<A, B, O, U> {
    pub first: A,
    pub second: B,
    pub of: PhantomData<(O, U)>,
}

impl<I, O, U, E, A: IsParser<I, O, E>, B: IsParser<I, U, E>> IsParser<I, (O, U), E>
    for Then<A, B, O, U> {}

impl<
    'src,
    I: Input<'src>,
    O: Drop,
    U,
    E: ParserExtra<I>,
    A: Parser<'src, I, O, E>,
    B: Parser<'src, I, U, E>,
> Parser<'src, I, (O, U), E> for Then<A, B, O, U> {
    ghost use Rattle.chumsky_parser.specs.SequenceLanguage.{then_language, then-accepts};
    ghost use Rattle.chumsky_parser.specs.Chained.{Sequence, SamePair};
    ghost use Rattle.chumsky_parser.specs.Laws.{sequence-ends, sequence-agrees};

    ghost ready = { λ p. A.ready p.first × B.ready p.second };

    ghost meaning = { λ p errors states. Sequence (A.meaning p.first errors states) (B.meaning p.second errors states) };

    ghost steady = { λ p. A.steady p.first × B.steady p.second };

    ghost same = { λ p. SamePair (A.same p.first) (B.same p.second) };

    ghost language = { λ p. then_language (A.language p.first) (B.language p.second) };

    ghost ends_after_start = { λ p. sequence-ends _ _ (A.ends_after_start p.first) (B.ends_after_start p.second) };

    ghost agrees = { λ p s. sequence-agrees _ _ (A.same p.first) (B.same p.second) (A.agrees p.first s.0) (B.agrees p.second s.1) };

    ghost accepts = { λ p. then-accepts _ _ (A.ends_after_start p.first) (B.ends_after_start p.second) (A.accepts p.first) (B.accepts p.second) };

    #[inline(always)]
    fn go_emit(&self, inp: &mut InputRef<'src, '_, I, E>) -> PResult<(O, U)> {
        let a = self.first.go_emit(inp)?;
        let b = self.second.go_emit(inp)?;
        Ok((a, b))
    }

    #[inline(always)]
    fn go_check(&self, inp: &mut InputRef<'src, '_, I, E>) -> PResult<()> {
        self.first.go_check(inp)?;
        self.second.go_check(inp)
    }
}

impl<
    'src,
    I: Input<'src>,
    O: Drop,
    U,
    E: ParserExtra<I>,
    A: Moving<'src, I, O, E>,
    B: Moving<'src, I, U, E>,
> Moving<'src, I, (O, U), E> for Then<A, B, O, U> {
    ghost use Rattle.chumsky_parser.specs.ProgressLaws.{sequence-moves};

    ghost moves = { λ p. A.moves p.first || B.moves p.second };

    ghost moved = { λ p. sequence-moves _ _ (A.moves p.first) (B.moves p.second) (A.ends_after_start p.first) (B.ends_after_start p.second) (A.moved p.first) (B.moved p.second) };

    fn always_moves(&self) -> bool
        ensures { result ≡ (A.moves self.now.first || B.moves self.now.second) }
    {
        self.first.always_moves() || self.second.always_moves()
    }
}

/// Never refused for memory where no part is: `a.then(b)` and `a.then_ignore(b)`.
pub fn then_is_never_out_of_memory<
    'src,
    I: Input<'src>,
    O: Drop,
    U,
    E: ParserExtra<I>,
    A: Parser<'src, I, O, E>,
    B: Parser<'src, I, U, E>,
>(then: &Then<A, B, O, U>, then_ignore: &ThenIgnore<A, B, U>)
    ensures then { let t = then.now in OutOnlyBy E.Error.Error E.State.Inspector
        (part (A.meaning t.first) ∷ part (B.meaning t.second) ∷ [])
        (⟦<Then<A, B, O, U> as Parser<'src, I, (O, U), E>>⟧.meaning t) }
    ensures then_ignore { let i = then_ignore.now in OutOnlyBy E.Error.Error E.State.Inspector
        (part (A.meaning i.first) ∷ part (B.meaning i.second) ∷ [])
        (⟦<ThenIgnore<A, B, U> as Parser<'src, I, O, E>>⟧.meaning i) }
{}

/// When it is ready and steady, and which outputs are the same: `a.then(b)` and `a.then_ignore(b)`.
pub fn then_is_steady<
    'src,
    I: Input<'src>,
    O: Drop,
    U,
    E: ParserExtra<I>,
    A: Parser<'src, I, O, E>,
    B: Parser<'src, I, U, E>,
>(then: &Then<A, B, O, U>, then_ignore: &ThenIgnore<A, B, U>)
    ensures ready_then { A.ready then.now.first → B.ready then.now.second →
        ⟦<Then<A, B, O, U> as Parser<'src, I, (O, U), E>>⟧.ready then.now }
    ensures ready_then_ignore { let p = then_ignore.now in A.ready p.first → B.ready p.second →
        ⟦<ThenIgnore<A, B, U> as Parser<'src, I, O, E>>⟧.ready p }
    ensures then { A.steady then.now.first → B.steady then.now.second →
        ⟦<Then<A, B, O, U> as Parser<'src, I, (O, U), E>>⟧.steady then.now }
    ensures then_ignore { let p = then_ignore.now in A.steady p.first → B.steady p.second →
        ⟦<ThenIgnore<A, B, U> as Parser<'src, I, O, E>>⟧.steady p }
    ensures same_pair { (x y : O × U) → ⟦<Then<A, B, O, U> as Parser<'src, I, (O, U), E>>⟧.same then.now x y →
        A.same then.now.first x.0 y.0 × B.same then.now.second x.1 y.1 }
    ensures same_first { (x y : O) → ⟦<ThenIgnore<A, B, U> as Parser<'src, I, O, E>>⟧.same then_ignore.now x y →
        A.same then_ignore.now.first x y }
{}
