//! Items whose outputs go through a mapper that is shown the run.
ghost use Rattle.std.specs.Prelude.{◌≡◌};
ghost use Rattle.chumsky_parser.specs.Showing.{OnlyAnswers, SameShown};

use crate::map_with::{MapWith, MapperWith};
use chumsky_input::extra::ParserExtra;
use chumsky_input::input::Input;
use chumsky_input::input_ref::InputRef;
use chumsky_input::stop::PResult;
use chumsky_parser::iter::{IsIterParser, IterParser, IterParserDebug, Iterates};
use chumsky_parser::moving::MovingItems;
use chumsky_parser::onward::next_item;

impl<I, O, U, E, A: IsIterParser<I, O, E>, F> IsIterParser<I, U, E> for MapWith<A, O, F, U> {}

impl<A: Iterates, O, F, U> Iterates for MapWith<A, O, F, U> {
    /// The iteration inside.
    type IterState = A::IterState;
}

impl<
    'src,
    I: Input<'src>,
    O,
    U,
    E: ParserExtra<I>,
    A: IterParser<'src, I, O, E>,
    F: MapperWith<'src, I, O, U, E>,
> IterParser<'src, I, U, E> for MapWith<A, O, F, U> {
    ghost use Rattle.chumsky_combinator.specs.MappedItemsLanguage.{map_items_with_language, map_items_with-accepts};
    ghost use Rattle.chumsky_parser.specs.Showing.{OnlyAnswers, SameShown};
    ghost use Rattle.chumsky_combinator.specs.MappedItems.{MapsItemWith};
    ghost use Rattle.chumsky_combinator.specs.MappedItemsLaws.{maps_item_with-end, maps_item_with-agree};

    ghost ready = { λ p. A.ready p.parser × F.callable p.mapper };

    ghost may_step = { λ p s. A.may_step p.parser s × F.callable p.mapper };

    ghost begins = { λ p errors states. A.begins p.parser errors states };

    ghost gives = { λ p d s errors states. MapsItemWith (F.gives p.mapper states) (A.gives p.parser d s errors states) };

    ghost steady = { λ p. A.steady p.parser × OnlyAnswers (F.gives p.mapper E.State.Inspector) };

    ghost same = { λ p. SameShown (F.gives p.mapper E.State.Inspector) (A.same p.parser) };

    ghost alike = { λ p. A.alike p.parser };

    ghost language = { λ p. map_items_with_language (F.gives p.mapper E.State.Inspector) (A.language p.parser) };

    ghost ends_after_start = { λ p d. maps_item_with-end _ _ _ (A.ends_after_start p.parser d) };

    ghost agrees = { λ p s d. maps_item_with-agree _ _ _ s.1 (A.same p.parser) (A.alike p.parser) (A.agrees p.parser s.0 d) };

    ghost accepts = { λ p d. map_items_with-accepts _ _ (A.accepts p.parser d) _ };

    #[inline(always)]
    fn make_iter(&self, inp: &mut InputRef<'src, '_, I, E>) -> PResult<A::IterState> {
        self.parser.make_iter(inp)
    }

    #[inline(always)]
    fn next_emit(
        &self,
        inp: &mut InputRef<'src, '_, I, E>,
        state: &mut A::IterState,
        debug: IterParserDebug,
    ) -> PResult<Option<U>> {
        let before = inp.cursor();
        match next_item(&self.parser, inp, state, debug)? {
            None => Ok(None),
            Some(item) => Ok(Some(self.mapper.apply_with(item, &before, inp))),
        }
    }

    #[inline(always)]
    fn next_check(
        &self,
        inp: &mut InputRef<'src, '_, I, E>,
        state: &mut A::IterState,
        debug: IterParserDebug,
    ) -> PResult<Option<()>> {
        self.parser.next_check(inp, state, debug)
    }
}

impl<
    'src,
    I: Input<'src>,
    O,
    U,
    E: ParserExtra<I>,
    A: MovingItems<'src, I, O, E>,
    F: MapperWith<'src, I, O, U, E>,
> MovingItems<'src, I, U, E> for MapWith<A, O, F, U> {
    ghost use Rattle.chumsky_combinator.specs.MappedItemsLaws.{maps_item_with-move};

    ghost first_moves = { λ p. A.first_moves p.parser };

    ghost first_moved = { λ p e d. maps_item_with-move _ _ _ (A.first_moved p.parser e d) };

    fn first_always_moves(&self) -> bool
        ensures { result ≡ A.first_moves self.now.parser }
    {
        self.parser.first_always_moves()
    }
}

/// When it is ready and steady, and which outputs are the same: `a.map_items_with(f)`, where `f` gives one answer to each
/// item and what it is shown, and leaves the state as it is.
pub fn map_items_with_is_steady<
    'src,
    I: Input<'src>,
    O,
    U,
    E: ParserExtra<I>,
    A: IterParser<'src, I, O, E>,
    F: MapperWith<'src, I, O, U, E>,
>(map_items: &MapWith<A, O, F, U>)
    ensures ready { let p = map_items.now in A.ready p.parser → F.callable p.mapper →
        ⟦<MapWith<A, O, F, U> as IterParser<'src, I, U, E>>⟧.ready p }
    ensures steady { let p = map_items.now in
        A.steady p.parser → OnlyAnswers (F.gives p.mapper E.State.Inspector) →
        ⟦<MapWith<A, O, F, U> as IterParser<'src, I, U, E>>⟧.steady p }
    ensures same { let p = map_items.now in (x y : U) →
        ⟦<MapWith<A, O, F, U> as IterParser<'src, I, U, E>>⟧.same p x y →
        SameShown (F.gives p.mapper E.State.Inspector) (A.same p.parser) x y }
{}
