//! `IgnoreWithCtx` as a parser of items: those of its second part, under the output of the first.
ghost use Rattle.std.specs.Prelude.{◌≡◌};
ghost use Rattle.chumsky_context.specs.Under.{SameAreEqual};

use crate::ignore_with_ctx::IgnoreWithCtx;
use crate::items_under::{make_iter_under, next_check_under, next_emit_under};
use chumsky_input::error::Error;
use chumsky_input::extra::ParserExtra;
use chumsky_input::input::Input;
use chumsky_input::input_ref::InputRef;
use chumsky_input::stop::PResult;
use chumsky_parser::iter::{IsIterParser, IterParser, IterParserDebug, Iterates};
use chumsky_parser::moving::{Moving, MovingItems};
use chumsky_parser::parser::{IsParser, Parser};

impl<I, O, U, E, X, A: IsParser<I, O, E>, B: IsIterParser<I, U, X>> IsIterParser<I, U, E>
    for IgnoreWithCtx<A, B, O, I, X> {}

impl<A, B: Iterates, O: Drop, I, X> Iterates for IgnoreWithCtx<A, B, O, I, X> {
    /// The output of the first parser, and the iteration of the second.
    type IterState = (O, B::IterState);
}

impl<'src, I, O, U, E, X, A, B> IterParser<'src, I, U, E> for IgnoreWithCtx<A, B, O, I, X>
where
    I: Input<'src>,
    I::Token: 'src,
    O: Drop,
    E: ParserExtra<I>,
    A: Parser<'src, I, O, E>,
    X: ParserExtra<I, Error = E::Error, State = E::State, Context = O>,
    B: IterParser<'src, I, U, X>,
{
    ghost use Rattle.chumsky_parser.specs.ItemsLanguage.{of_unsaid_items};
    ghost use Rattle.chumsky_context.specs.Under.{BeginsUnder, GivesUnder, AlikeUnder, SameAreEqual};
    ghost use Rattle.chumsky_context.specs.UnderLaws.{under_items-end, under_items-agree};

    ghost ready = { λ p. A.ready p.parser × B.ready p.then };

    ghost may_step = { λ p s. B.may_step p.then s.1 };

    ghost begins = { λ p errors states. BeginsUnder (A.meaning p.parser errors states) (B.begins p.then errors states) };

    ghost gives = { λ p d s errors states. GivesUnder (λ t. B.gives p.then d t errors states) s };

    ghost steady = { λ p. A.steady p.parser × B.steady p.then × SameAreEqual (A.same p.parser) };

    ghost same = { λ p. B.same p.then };

    ghost alike = { λ p. AlikeUnder (B.alike p.then) };

    ghost ends_after_start = { λ p d. under_items-end _ _ _ (A.ends_after_start p.parser) (B.ends_after_start p.then d) };

    ghost agrees = { λ p s d. under_items-agree _ _ _ (A.same p.parser) (B.same p.then) (B.alike p.then) s.2 (A.agrees p.parser s.0) (B.agrees p.then s.1 d) };

    ghost accepts = { λ _ _. of_unsaid_items };

    #[inline]
    fn make_iter(&self, inp: &mut InputRef<'src, '_, I, E>) -> PResult<(O, B::IterState)> {
        let value = self.parser.go_emit(inp)?;
        let items = make_iter_under::<I, U, E, X, B>(&self.then, &value, inp)?;
        Ok((value, items))
    }

    #[inline]
    fn next_emit(
        &self,
        inp: &mut InputRef<'src, '_, I, E>,
        state: &mut (O, B::IterState),
        debug: IterParserDebug,
    ) -> PResult<Option<U>> {
        next_emit_under::<I, U, E, X, B>(&self.then, &state.0, &mut state.1, debug, inp)
    }

    #[inline]
    fn next_check(
        &self,
        inp: &mut InputRef<'src, '_, I, E>,
        state: &mut (O, B::IterState),
        debug: IterParserDebug,
    ) -> PResult<Option<()>> {
        next_check_under::<I, U, E, X, B>(&self.then, &state.0, &mut state.1, debug, inp)
    }
}

/// The first parser runs where the iteration is made.
impl<'src, I, O, U, E, X, A, B> MovingItems<'src, I, U, E> for IgnoreWithCtx<A, B, O, I, X>
where
    I: Input<'src>,
    I::Token: 'src,
    O: Drop,
    E: ParserExtra<I>,
    A: Moving<'src, I, O, E>,
    X: ParserExtra<I, Error = E::Error, State = E::State, Context = O>,
    B: IterParser<'src, I, U, X>,
{
    ghost use Rattle.chumsky_context.specs.UnderLaws.{under_items-move};

    ghost first_moves = { λ p. A.moves p.parser };

    ghost first_moved = { λ p e d. under_items-move _ _ _ (B.ends_after_start p.then d).begin (A.moved p.parser e) };

    fn first_always_moves(&self) -> bool
        ensures { result ≡ A.moves self.now.parser }
    {
        self.parser.always_moves()
    }
}

/// Such items for the output of the second parser alone are steady where both parts are, and outputs of the first that are the
/// same are equal. Items that are the same are so to the second part.
pub fn ignored_items_with_ctx_are_steady<'src, I, O, U, E, X, A, B>(
    second: &IgnoreWithCtx<A, B, O, I, X>,
)
where
    I: Input<'src>,
    I::Token: 'src,
    O: Drop,
    E: ParserExtra<I>,
    A: Parser<'src, I, O, E>,
    X: ParserExtra<I, Error = E::Error, State = E::State, Context = O>,
    B: IterParser<'src, I, U, X>,
    ensures ready { A.ready second.now.parser → B.ready second.now.then → ⟦<IgnoreWithCtx<A, B, O, I, X> as IterParser<'src, I, U, E>>⟧.ready second.now }
    ensures steady { A.steady second.now.parser → B.steady second.now.then → SameAreEqual (A.same second.now.parser) → ⟦<IgnoreWithCtx<A, B, O, I, X> as IterParser<'src, I, U, E>>⟧.steady second.now }
    ensures same { (x y : U) → ⟦<IgnoreWithCtx<A, B, O, I, X> as IterParser<'src, I, U, E>>⟧.same second.now x y → B.same second.now.then x y }
{}
