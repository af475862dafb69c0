//! A set moves where one of its parsers does: each of them was taken where it moved, or ran in the last pass.
ghost use Rattle.std.specs.Prelude.{◌≡◌, ◌||◌};
ghost use Rattle.std.specs.List.{list_any};

use crate::array::Slots;
use crate::set::Set;
use arrayvec::ArrayVec;
use chumsky_input::extra::ParserExtra;
use chumsky_input::input::Input;
use chumsky_parser::moving::Moving;

impl<'src, I: Input<'src>, O0: Drop, E: ParserExtra<I>, P0: Moving<'src, I, O0, E>> Moving<
    'src,
    I,
    (O0,),
    E,
> for Set<(P0,)> {
    ghost use Rattle.chumsky_set.specs.Tuples.{flat_one};
    ghost use Rattle.chumsky_set.specs.SetsMove.{one_part-moves, set-moves};

    ghost moves = { λ p. P0.moves p.parsers.0 };

    ghost moved = { λ p. set-moves flat_one (one_part-moves (P0.ends_after_start p.parsers.0) (P0.moved p.parsers.0)) };

    fn always_moves(&self) -> bool
        ensures { result ≡ P0.moves self.now.parsers.0 }
    {
        self.parsers.0.always_moves()
    }
}

impl<
    'src,
    I: Input<'src>,
    O0: Drop,
    O1: Drop,
    E: ParserExtra<I>,
    P0: Moving<'src, I, O0, E>,
    P1: Moving<'src, I, O1, E>,
> Moving<'src, I, (O0, O1), E> for Set<(P0, P1)> {
    ghost use Rattle.chumsky_set.specs.Tuples.{flat_two};
    ghost use Rattle.chumsky_set.specs.SetsMove.{one_part-moves, part_and-moves, set-moves};

    ghost moves = { λ p. P0.moves p.parsers.0 || P1.moves p.parsers.1 };

    ghost moved = { λ p. set-moves flat_two (part_and-moves (P0.ends_after_start p.parsers.0) (P0.moved p.parsers.0) (one_part-moves (P1.ends_after_start p.parsers.1) (P1.moved p.parsers.1))) };

    fn always_moves(&self) -> bool
        ensures { result ≡ (P0.moves self.now.parsers.0 || P1.moves self.now.parsers.1) }
    {
        self.parsers.0.always_moves() || self.parsers.1.always_moves()
    }
}

impl<
    'src,
    I: Input<'src>,
    O0: Drop,
    O1: Drop,
    O2: Drop,
    E: ParserExtra<I>,
    P0: Moving<'src, I, O0, E>,
    P1: Moving<'src, I, O1, E>,
    P2: Moving<'src, I, O2, E>,
> Moving<'src, I, (O0, O1, O2), E> for Set<(P0, P1, P2)> {
    ghost use Rattle.chumsky_set.specs.Tuples.{flat_three};
    ghost use Rattle.chumsky_set.specs.SetsMove.{one_part-moves, part_and-moves, set-moves};

    ghost moves = { λ p. P0.moves p.parsers.0 || (P1.moves p.parsers.1 || P2.moves p.parsers.2) };

    ghost moved = { λ p. set-moves flat_three (part_and-moves (P0.ends_after_start p.parsers.0) (P0.moved p.parsers.0) (part_and-moves (P1.ends_after_start p.parsers.1) (P1.moved p.parsers.1) (one_part-moves (P2.ends_after_start p.parsers.2) (P2.moved p.parsers.2)))) };

    fn always_moves(&self) -> bool
        ensures { result ≡ (P0.moves self.now.parsers.0 || (P1.moves self.now.parsers.1 || P2.moves self.now.parsers.2)) }
    {
        self.parsers.0.always_moves()
            || self.parsers.1.always_moves()
            || self.parsers.2.always_moves()
    }
}

impl<
    'src,
    I: Input<'src>,
    O0: Drop,
    O1: Drop,
    O2: Drop,
    O3: Drop,
    E: ParserExtra<I>,
    P0: Moving<'src, I, O0, E>,
    P1: Moving<'src, I, O1, E>,
    P2: Moving<'src, I, O2, E>,
    P3: Moving<'src, I, O3, E>,
> Moving<'src, I, (O0, O1, O2, O3), E> for Set<(P0, P1, P2, P3)> {
    ghost use Rattle.chumsky_set.specs.Tuples.{flat_four};
    ghost use Rattle.chumsky_set.specs.SetsMove.{one_part-moves, part_and-moves, set-moves};

    ghost moves = { λ p. P0.moves p.parsers.0 || (P1.moves p.parsers.1 || (P2.moves p.parsers.2 || P3.moves p.parsers.3)) };

    ghost moved = { λ p. set-moves flat_four (part_and-moves (P0.ends_after_start p.parsers.0) (P0.moved p.parsers.0) (part_and-moves (P1.ends_after_start p.parsers.1) (P1.moved p.parsers.1) (part_and-moves (P2.ends_after_start p.parsers.2) (P2.moved p.parsers.2) (one_part-moves (P3.ends_after_start p.parsers.3) (P3.moved p.parsers.3))))) };

    fn always_moves(&self) -> bool
        ensures { result ≡ (P0.moves self.now.parsers.0 || (P1.moves self.now.parsers.1 || (P2.moves self.now.parsers.2 || P3.moves self.now.parsers.3))) }
    {
        self.parsers.0.always_moves()
            || self.parsers.1.always_moves()
            || self.parsers.2.always_moves()
            || self.parsers.3.always_moves()
    }
}

impl<'src, I: Input<'src>, O: Drop, E: ParserExtra<I>, P: Moving<'src, I, O, E>> Moving<
    'src,
    I,
    Vec<O>,
    E,
> for Set<Vec<P>> {
    ghost use Rattle.chumsky_set.specs.SetsMove.{set_each-moves};

    ghost moves = { λ p. list_any P.moves p.parsers.items };

    ghost moved = { λ p e. set_each-moves _ _ _ _ P.moves P.ends_after_start P.moved _ p.parsers.items e };

    fn always_moves(&self) -> bool
        ensures { result ≡ list_any P.moves self.now.parsers.items }
    {
        one_moves::<I, O, E, P>(self.parsers.as_slice())
    }
}

impl<
    'src,
    I: Input<'src>,
    O: Default + Drop,
    E: ParserExtra<I>,
    P: Moving<'src, I, O, E>,
    const N: usize,
> Moving<'src, I, ArrayVec<O, N>, E> for Set<[P; N]>
where
    [Option<O>; N]: Slots,
{
    ghost use Rattle.chumsky_set.specs.SetsMove.{set_stored-moves};

    ghost moves = { λ p. list_any P.moves p.parsers };

    ghost moved = { λ p e. set_stored-moves _ _ _ _ P.moves P.ends_after_start P.moved _ p.parsers e };

    fn always_moves(&self) -> bool
        ensures { result ≡ list_any P.moves self.now.parsers }
    {
        one_moves::<I, O, E, P>(&self.parsers)
    }
}

/// Whether one of some parsers moves wherever it succeeds. Of none it is not so.
fn one_moves<'src, I: Input<'src>, O, E: ParserExtra<I>, P: Moving<'src, I, O, E>>(
    parsers: &[P],
) -> bool
    ensures { result ≡ list_any P.moves parsers.now }
{
    for parser in parsers {
        if parser.always_moves() {
            return true;
        }
    }
    false
}
