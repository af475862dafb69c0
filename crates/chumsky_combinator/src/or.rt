//! Ordered choice.
ghost use Rattle.std.specs.Prelude.{◌≡◌, ◌&&◌, [], ◌∷◌, Option, ◌⊎◌};
ghost use Rattle.chumsky_parser.specs.ByParts.{part, OutOnlyBy};
ghost use Rattle.chumsky_combinator.specs.Optional.{SameOption};

use crate::or_not::OrNot;
use chumsky_input::extra::ParserExtra;
use chumsky_input::input::Input;
use chumsky_input::input_ref::InputRef;
use chumsky_input::stop::{Fault, PResult};
use chumsky_parser::iter::IterParser;
use chumsky_parser::moving::Moving;
use chumsky_parser::parser::{IsParser, Parser};

/// The first of two parsers, and where that fails, gone back from, the second. See `or`.
#[derive(Clone, Copy, Drop)]
pub struct Or<A, B> {
    pub first: A,
    pub second: B,
}

impl<I, O, E, A: IsParser<I, O, E>, B: IsParser<I, O, E>> IsParser<I, O, E> for Or<A, B> {}

impl<
    'src,
    I: Input<'src>,
    O,
    E: ParserExtra<I>,
    A: Parser<'src, I, O, E>,
    B: Parser<'src, I, O, E>,
> Parser<'src, I, O, E> for Or<A, B> {
    ghost use Rattle.chumsky_parser.specs.ChoiceLanguage.{or_language, or-accepts};
    ghost use Rattle.chumsky_parser.specs.Choice.{OrElse, SameEither};
    ghost use Rattle.chumsky_parser.specs.ChoiceLaws.{or_else-ends, or_else-agrees};

    ghost ready = { λ p. A.ready p.first × B.ready p.second };

    ghost meaning = { λ p errors states. OrElse states.mark states.back states.takes_no_memory (A.meaning p.first errors states) (B.meaning p.second errors states) };

    ghost steady = { λ p. A.steady p.first × B.steady p.second };

    ghost same = { λ p. SameEither (A.same p.first) (B.same p.second) };

    ghost language = { λ p. or_language (A.language p.first) (B.language p.second) };

    ghost ends_after_start = { λ p. or_else-ends _ _ _ _ _ (A.ends_after_start p.first) (B.ends_after_start p.second) };

    ghost agrees = { λ p s. or_else-agrees _ _ _ _ _ (A.same p.first) (B.same p.second) (A.agrees p.first s.0) (B.agrees p.second s.1) };

    ghost accepts = { λ p. or-accepts _ _ (λ q. q.1) _ _ (A.accepts p.first) (B.accepts p.second) };

    #[inline(always)]
    fn go_emit(&self, inp: &mut InputRef<'src, '_, I, E>) -> PResult<O> {
        let before = inp.save()?;
        match self.first.go_emit(inp) {
            Ok(value) => Ok(value),
            Err(Fault::Stop(stop)) => Err(Fault::Stop(stop)),
            Err(Fault::Fail) => {
                inp.rewind(&before)?;
                self.second.go_emit(inp)
            }
        }
    }

    #[inline(always)]
    fn go_check(&self, inp: &mut InputRef<'src, '_, I, E>) -> PResult<()> {
        let before = inp.save()?;
        match self.first.go_check(inp) {
            Ok(()) => Ok(()),
            Err(Fault::Stop(stop)) => Err(Fault::Stop(stop)),
            Err(Fault::Fail) => {
                inp.rewind(&before)?;
                self.second.go_check(inp)
            }
        }
    }
}

impl<
    'src,
    I: Input<'src>,
    O,
    E: ParserExtra<I>,
    A: Moving<'src, I, O, E>,
    B: Moving<'src, I, O, E>,
> Moving<'src, I, O, E> for Or<A, B> {
    ghost use Rattle.chumsky_parser.specs.ProgressLaws.{or-moves};

    ghost moves = { λ p. A.moves p.first && B.moves p.second };

    ghost moved = { λ p. or-moves _ _ _ _ _ (A.moves p.first) (B.moves p.second) (A.moved p.first) (B.moved p.second) };

    fn always_moves(&self) -> bool
        ensures { result ≡ (A.moves self.now.first && B.moves self.now.second) }
    {
        self.first.always_moves() && self.second.always_moves()
    }
}

/// Never refused for memory where no part is: `a.or(b)` and `a.or_not()`, under a state whose mark and whose going back take
/// no memory.
pub fn or_is_never_out_of_memory<
    'src,
    I: Input<'src>,
    O,
    E: ParserExtra<I>,
    A: Parser<'src, I, O, E>,
    B: Parser<'src, I, O, E>,
>(or: &Or<A, B>, or_not: &OrNot<A>)
    ensures or { let o = or.now in E.State.takes_no_memory → OutOnlyBy E.Error.Error E.State.Inspector
        (part (A.meaning o.first) ∷ part (B.meaning o.second) ∷ [])
        (⟦<Or<A, B> as Parser<'src, I, O, E>>⟧.meaning o) }
    ensures or_not { let o = or_not.now in E.State.takes_no_memory → OutOnlyBy E.Error.Error E.State.Inspector
        (part (A.meaning o.parser) ∷ [])
        (⟦<OrNot<A> as Parser<'src, I, Option<O>, E>>⟧.meaning o) }
{}

/// When it is ready and steady, and which outputs are the same: `a.or(b)`, and `a.or_not()` as a plain parser and as a parser
/// of items.
pub fn or_is_steady<
    'src,
    I: Input<'src>,
    O,
    E: ParserExtra<I>,
    A: Parser<'src, I, O, E>,
    B: Parser<'src, I, O, E>,
>(or: &Or<A, B>, or_not: &OrNot<A>)
    ensures ready_or { A.ready or.now.first → B.ready or.now.second →
        ⟦<Or<A, B> as Parser<'src, I, O, E>>⟧.ready or.now }
    ensures ready_or_not { A.ready or_not.now.parser →
        ⟦<OrNot<A> as Parser<'src, I, Option<O>, E>>⟧.ready or_not.now }
    ensures ready_or_not_items { A.ready or_not.now.parser →
        ⟦<OrNot<A> as IterParser<'src, I, O, E>>⟧.ready or_not.now }
    ensures or { A.steady or.now.first → B.steady or.now.second →
        ⟦<Or<A, B> as Parser<'src, I, O, E>>⟧.steady or.now }
    ensures or_not { A.steady or_not.now.parser →
        ⟦<OrNot<A> as Parser<'src, I, Option<O>, E>>⟧.steady or_not.now }
    ensures or_not_items { A.steady or_not.now.parser →
        ⟦<OrNot<A> as IterParser<'src, I, O, E>>⟧.steady or_not.now }
    ensures same_either { (x y : O) → ⟦<Or<A, B> as Parser<'src, I, O, E>>⟧.same or.now x y →
        A.same or.now.first x y ⊎ B.same or.now.second x y }
    ensures same_option { (x y : Option O) → ⟦<OrNot<A> as Parser<'src, I, Option<O>, E>>⟧.same or_not.now x y →
        SameOption (A.same or_not.now.parser) x y }
    ensures same_item { (x y : O) → ⟦<OrNot<A> as IterParser<'src, I, O, E>>⟧.same or_not.now x y →
        A.same or_not.now.parser x y }
{}
