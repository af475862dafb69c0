//! The items of one parser, and then those of another.
ghost use Rattle.std.specs.Prelude.{◌≡◌, ◌⊎◌};

use crate::then::Then;
use chumsky_input::extra::ParserExtra;
use chumsky_input::input::Input;
use chumsky_input::input_ref::InputRef;
use chumsky_input::stop::PResult;
use chumsky_parser::iter::{IsIterParser, IterParser, IterParserDebug, Iterates};
use chumsky_parser::moving::MovingItems;

/// Where an iteration over the items of two parsers stands: in those of the first, or in those of the second.
#[derive(Drop)]
pub enum Stage<S, T> {
    First(S),
    Second(T),
}

impl<I, O, U, V, E, A: IsIterParser<I, V, E>, B: IsIterParser<I, V, E>> IsIterParser<I, V, E>
    for Then<A, B, O, U> {}

impl<A: Iterates, B: Iterates, O, U> Iterates for Then<A, B, O, U> {
    /// The iteration of the first parser, or that of the second.
    type IterState = Stage<A::IterState, B::IterState>;
}

impl<
    'src,
    I: Input<'src>,
    O,
    U,
    V,
    E: ParserExtra<I>,
    A: IterParser<'src, I, V, E>,
    B: IterParser<'src, I, V, E>,
> IterParser<'src, I, V, E> for Then<A, B, O, U> {
    ghost use Rattle.chumsky_parser.specs.ItemsLanguage.{of_unsaid_items};
    ghost use Rattle.chumsky_parser.specs.Choice.{SameEither};
    ghost use Rattle.chumsky_combinator.specs.ThenItems.{InStage, SameStage, BeginsFirst, GivesInTurn};
    ghost use Rattle.chumsky_combinator.specs.ThenItemsLaws.{in_turn-end, in_turn-agree};

    ghost ready = { λ p. A.ready p.first × B.ready p.second };

    ghost may_step = { λ p. InStage (λ s. A.may_step p.first s × B.ready p.second) (B.may_step p.second) };

    ghost begins = { λ p errors states. BeginsFirst (A.begins p.first errors states) };

    ghost gives = { λ p d s errors states. GivesInTurn (λ t. A.gives p.first d t errors states) (B.begins p.second errors states) (λ t. B.gives p.second d t errors states) s };

    ghost steady = { λ p. A.steady p.first × B.steady p.second };

    ghost same = { λ p. SameEither (A.same p.first) (B.same p.second) };

    ghost alike = { λ p. SameStage (A.alike p.first) (B.alike p.second) };

    ghost ends_after_start = { λ p d. in_turn-end _ _ _ _ (A.ends_after_start p.first d) (B.ends_after_start p.second d) };

    ghost agrees = { λ p s d. in_turn-agree _ _ _ _ (A.same p.first) (B.same p.second) (A.alike p.first) (B.alike p.second) (A.agrees p.first s.0 d) (B.agrees p.second s.1 d) };

    ghost accepts = { λ _ _. of_unsaid_items };

    #[inline(always)]
    fn make_iter(
        &self,
        inp: &mut InputRef<'src, '_, I, E>,
    ) -> PResult<Stage<A::IterState, B::IterState>> {
        let first = self.first.make_iter(inp)?;
        Ok(Stage::First(first))
    }

    #[inline(always)]
    fn next_emit(
        &self,
        inp: &mut InputRef<'src, '_, I, E>,
        state: &mut Stage<A::IterState, B::IterState>,
        debug: IterParserDebug,
    ) -> PResult<Option<V>> {
        match state {
            Stage::Second(second) => self.second.next_emit(inp, second, debug),
            Stage::First(first) => match self.first.next_emit(inp, first, debug)? {
                Some(item) => Ok(Some(item)),
                None => {
                    let mut second = self.second.make_iter(inp)?;
                    let item = self.second.next_emit(inp, &mut second, debug);
                    *state = Stage::Second(second);
                    item
                }
            },
        }
    }

    #[inline(always)]
    fn next_check(
        &self,
        inp: &mut InputRef<'src, '_, I, E>,
        state: &mut Stage<A::IterState, B::IterState>,
        debug: IterParserDebug,
    ) -> PResult<Option<()>> {
        match state {
            Stage::Second(second) => self.second.next_check(inp, second, debug),
            Stage::First(first) => match self.first.next_check(inp, first, debug)? {
                Some(()) => Ok(Some(())),
                None => {
                    let mut second = self.second.make_iter(inp)?;
                    let item = self.second.next_check(inp, &mut second, debug);
                    *state = Stage::Second(second);
                    item
                }
            },
        }
    }
}

/// The first step runs the first parser's first step, whether that gives an item or not.
impl<
    'src,
    I: Input<'src>,
    O,
    U,
    V,
    E: ParserExtra<I>,
    A: MovingItems<'src, I, V, E>,
    B: IterParser<'src, I, V, E>,
> MovingItems<'src, I, V, E> for Then<A, B, O, U> {
    ghost use Rattle.chumsky_combinator.specs.ThenItemsLaws.{in_turn-move};

    ghost first_moves = { λ p. A.first_moves p.first };

    ghost first_moved = { λ p e d. in_turn-move _ _ _ _ (B.ends_after_start p.second d) (A.first_moved p.first e d) };

    fn first_always_moves(&self) -> bool
        ensures { result ≡ A.first_moves self.now.first }
    {
        self.first.first_always_moves()
    }
}

/// When it is ready and steady, and which outputs are the same: `a.then_items(b)`, and `a.then(b)` of two lists, as parsers
/// of items. Two items are the same where one of the two calls them so.
pub fn then_items_is_steady<
    'src,
    I: Input<'src>,
    O,
    U,
    V,
    E: ParserExtra<I>,
    A: IterParser<'src, I, V, E>,
    B: IterParser<'src, I, V, E>,
>(then_items: &Then<A, B, O, U>)
    ensures ready { let p = then_items.now in A.ready p.first → B.ready p.second →
        ⟦<Then<A, B, O, U> as IterParser<'src, I, V, E>>⟧.ready p }
    ensures steady { let p = then_items.now in A.steady p.first → B.steady p.second →
        ⟦<Then<A, B, O, U> as IterParser<'src, I, V, E>>⟧.steady p }
    ensures same { let p = then_items.now in (x y : V) →
        ⟦<Then<A, B, O, U> as IterParser<'src, I, V, E>>⟧.same p x y →
        A.same p.first x y ⊎ B.same p.second x y }
{}
