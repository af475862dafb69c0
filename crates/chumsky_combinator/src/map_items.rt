//! Items whose outputs go through a mapper.
ghost use Rattle.std.specs.Prelude.{◌≡◌};
ghost use Rattle.chumsky_combinator.specs.Mapped.{SameMapped};

use crate::map::{Map, Mapper};
use chumsky_input::extra::ParserExtra;
use chumsky_input::input::Input;
use chumsky_input::input_ref::InputRef;
use chumsky_input::stop::PResult;
use chumsky_parser::iter::{IsIterParser, IterParser, IterParserDebug, Iterates};
use chumsky_parser::moving::MovingItems;

impl<I, O, U, E, A: IsIterParser<I, O, E>, F> IsIterParser<I, U, E> for Map<A, O, F, U> {}

impl<A: Iterates, O, F, U> Iterates for Map<A, O, F, U> {
    /// The iteration inside.
    type IterState = A::IterState;
}

impl<
    'src,
    I: Input<'src>,
    O,
    U,
    E: ParserExtra<I>,
    A: IterParser<'src, I, O, E>,
    F: Mapper<O, U>,
> IterParser<'src, I, U, E> for Map<A, O, F, U> {
    ghost use Rattle.chumsky_combinator.specs.MappedItemsLanguage.{map_items_language, map_items-accepts};
    ghost use Rattle.chumsky_combinator.specs.Mapped.{SameMapped};
    ghost use Rattle.chumsky_combinator.specs.MappedItems.{MapsItem};
    ghost use Rattle.chumsky_combinator.specs.MappedItemsLaws.{maps_item-end, maps_item-agree};

    ghost ready = { λ p. A.ready p.parser × F.callable p.mapper };

    ghost may_step = { λ p s. A.may_step p.parser s × F.callable p.mapper };

    ghost begins = { λ p errors states. A.begins p.parser errors states };

    ghost gives = { λ p d s errors states. MapsItem (F.gives p.mapper) (A.gives p.parser d s errors states) };

    ghost steady = { λ p. A.steady p.parser };

    ghost same = { λ p. SameMapped (A.same p.parser) (F.gives p.mapper) };

    ghost alike = { λ p. A.alike p.parser };

    ghost language = { λ p. map_items_language (F.gives p.mapper) (A.language p.parser) };

    ghost ends_after_start = { λ p d. maps_item-end (F.gives p.mapper) _ _ (A.ends_after_start p.parser d) };

    ghost agrees = { λ p s d. maps_item-agree (F.gives p.mapper) _ _ (A.same p.parser) (A.alike p.parser) (A.agrees p.parser s d) };

    ghost accepts = { λ p d. map_items-accepts _ _ (A.accepts p.parser d) (F.gives p.mapper) };

    #[inline(always)]
    fn make_iter(&self, inp: &mut InputRef<'src, '_, I, E>) -> PResult<A::IterState> {
        self.parser.make_iter(inp)
    }

    #[inline(always)]
    fn next_emit(
        &self,
        inp: &mut InputRef<'src, '_, I, E>,
        state: &mut A::IterState,
        debug: IterParserDebug,
    ) -> PResult<Option<U>> {
        match self.parser.next_emit(inp, state, debug)? {
            None => Ok(None),
            Some(item) => Ok(Some(self.mapper.apply(item))),
        }
    }

    #[inline(always)]
    fn next_check(
        &self,
        inp: &mut InputRef<'src, '_, I, E>,
        state: &mut A::IterState,
        debug: IterParserDebug,
    ) -> PResult<Option<()>> {
        self.parser.next_check(inp, state, debug)
    }
}

impl<
    'src,
    I: Input<'src>,
    O,
    U,
    E: ParserExtra<I>,
    A: MovingItems<'src, I, O, E>,
    F: Mapper<O, U>,
> MovingItems<'src, I, U, E> for Map<A, O, F, U> {
    ghost use Rattle.chumsky_combinator.specs.MappedItemsLaws.{maps_item-move};

    ghost first_moves = { λ p. A.first_moves p.parser };

    ghost first_moved = { λ p e d. maps_item-move (F.gives p.mapper) _ _ (A.first_moved p.parser e d) };

    fn first_always_moves(&self) -> bool
        ensures { result ≡ A.first_moves self.now.parser }
    {
        self.parser.first_always_moves()
    }
}

/// When it is ready and steady, and which outputs are the same: `a.map_items(f)` and `a.map_items_by(f)`. Two items are
/// the same where `f` may give them for items that are.
pub fn map_items_is_steady<
    'src,
    I: Input<'src>,
    O,
    U,
    E: ParserExtra<I>,
    A: IterParser<'src, I, O, E>,
    F: Mapper<O, U>,
>(map_items: &Map<A, O, F, U>)
    ensures ready { let p = map_items.now in A.ready p.parser → F.callable p.mapper →
        ⟦<Map<A, O, F, U> as IterParser<'src, I, U, E>>⟧.ready p }
    ensures steady { let p = map_items.now in A.steady p.parser →
        ⟦<Map<A, O, F, U> as IterParser<'src, I, U, E>>⟧.steady p }
    ensures same { let p = map_items.now in (x y : U) →
        ⟦<Map<A, O, F, U> as IterParser<'src, I, U, E>>⟧.same p x y →
        SameMapped (A.same p.parser) (F.gives p.mapper) x y }
{}
