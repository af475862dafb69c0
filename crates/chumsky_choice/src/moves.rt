//! A choice moves where each of its alternatives does.
ghost use Rattle.std.specs.Prelude.{◌≡◌, ◌&&◌};
ghost use Rattle.std.specs.List.{list_all};

use crate::choice::Choice;
use chumsky_input::extra::ParserExtra;
use chumsky_input::input::Input;
use chumsky_parser::moving::Moving;

impl<'src, I: Input<'src>, O, E: ParserExtra<I>, A: Moving<'src, I, O, E>> Moving<'src, I, O, E>
    for Choice<(A,)> {
    ghost moves = { λ p. A.moves p.parsers.0 };

    ghost moved = { λ p. A.moved p.parsers.0 };

    fn always_moves(&self) -> bool
        ensures { result ≡ A.moves self.now.parsers.0 }
    {
        self.parsers.0.always_moves()
    }
}

impl<
    'src,
    I: Input<'src>,
    O,
    E: ParserExtra<I>,
    A: Moving<'src, I, O, E>,
    B: Moving<'src, I, O, E>,
> Moving<'src, I, O, E> for Choice<(A, B)> {
    ghost use Rattle.chumsky_choice.specs.ChoicesMove.{last-moves, and-moves, all-move};

    ghost moves = { λ p. A.moves p.parsers.0 && B.moves p.parsers.1 };

    ghost moved = { λ p. all-move _ _ _ (and-moves (A.moved p.parsers.0) (last-moves (B.moved p.parsers.1))) };

    fn always_moves(&self) -> bool
        ensures { result ≡ (A.moves self.now.parsers.0 && B.moves self.now.parsers.1) }
    {
        self.parsers.0.always_moves() && self.parsers.1.always_moves()
    }
}

impl<
    'src,
    I: Input<'src>,
    O,
    E: ParserExtra<I>,
    A: Moving<'src, I, O, E>,
    B: Moving<'src, I, O, E>,
    C: Moving<'src, I, O, E>,
> Moving<'src, I, O, E> for Choice<(A, B, C)> {
    ghost use Rattle.chumsky_choice.specs.ChoicesMove.{last-moves, and-moves, all-move};

    ghost moves = { λ p. A.moves p.parsers.0 && (B.moves p.parsers.1 && C.moves p.parsers.2) };

    ghost moved = { λ p. all-move _ _ _ (and-moves (A.moved p.parsers.0) (and-moves (B.moved p.parsers.1) (last-moves (C.moved p.parsers.2)))) };

    fn always_moves(&self) -> bool
        ensures { result ≡ (A.moves self.now.parsers.0 && (B.moves self.now.parsers.1 && C.moves self.now.parsers.2)) }
    {
        self.parsers.0.always_moves()
            && self.parsers.1.always_moves()
            && self.parsers.2.always_moves()
    }
}

impl<
    'src,
    I: Input<'src>,
    O,
    E: ParserExtra<I>,
    A: Moving<'src, I, O, E>,
    B: Moving<'src, I, O, E>,
    C: Moving<'src, I, O, E>,
    D: Moving<'src, I, O, E>,
> Moving<'src, I, O, E> for Choice<(A, B, C, D)> {
    ghost use Rattle.chumsky_choice.specs.ChoicesMove.{last-moves, and-moves, all-move};

    ghost moves = { λ p. A.moves p.parsers.0 && (B.moves p.parsers.1 && (C.moves p.parsers.2 && D.moves p.parsers.3)) };

    ghost moved = { λ p. all-move _ _ _ (and-moves (A.moved p.parsers.0) (and-moves (B.moved p.parsers.1) (and-moves (C.moved p.parsers.2) (last-moves (D.moved p.parsers.3))))) };

    fn always_moves(&self) -> bool
        ensures { result ≡ (A.moves self.now.parsers.0 && (B.moves self.now.parsers.1 && (C.moves self.now.parsers.2 && D.moves self.now.parsers.3))) }
    {
        self.parsers.0.always_moves()
            && self.parsers.1.always_moves()
            && self.parsers.2.always_moves()
            && self.parsers.3.always_moves()
    }
}

impl<
    'src,
    I: Input<'src>,
    O,
    E: ParserExtra<I>,
    A: Moving<'src, I, O, E>,
    B: Moving<'src, I, O, E>,
    C: Moving<'src, I, O, E>,
    D: Moving<'src, I, O, E>,
    F: Moving<'src, I, O, E>,
> Moving<'src, I, O, E> for Choice<(A, B, C, D, F)> {
    ghost use Rattle.chumsky_choice.specs.ChoicesMove.{last-moves, and-moves, all-move};

    ghost moves = { λ p. A.moves p.parsers.0 && (B.moves p.parsers.1 && (C.moves p.parsers.2 && (D.moves p.parsers.3 && F.moves p.parsers.4))) };

    ghost moved = { λ p. all-move _ _ _ (and-moves (A.moved p.parsers.0) (and-moves (B.moved p.parsers.1) (and-moves (C.moved p.parsers.2) (and-moves (D.moved p.parsers.3) (last-moves (F.moved p.parsers.4)))))) };

    fn always_moves(&self) -> bool
        ensures { result ≡ (A.moves self.now.parsers.0 && (B.moves self.now.parsers.1 && (C.moves self.now.parsers.2 && (D.moves self.now.parsers.3 && F.moves self.now.parsers.4)))) }
    {
        self.parsers.0.always_moves()
            && self.parsers.1.always_moves()
            && self.parsers.2.always_moves()
            && self.parsers.3.always_moves()
            && self.parsers.4.always_moves()
    }
}

impl<
    'src,
    I: Input<'src>,
    O,
    E: ParserExtra<I>,
    A: Moving<'src, I, O, E>,
    B: Moving<'src, I, O, E>,
    C: Moving<'src, I, O, E>,
    D: Moving<'src, I, O, E>,
    F: Moving<'src, I, O, E>,
    G: Moving<'src, I, O, E>,
> Moving<'src, I, O, E> for Choice<(A, B, C, D, F, G)> {
    ghost use Rattle.chumsky_choice.specs.ChoicesMove.{last-moves, and-moves, all-move};

    ghost moves = { λ p. A.moves p.parsers.0 && (B.moves p.parsers.1 && (C.moves p.parsers.2 && (D.moves p.parsers.3 && (F.moves p.parsers.4 && G.moves p.parsers.5)))) };

    ghost moved = { λ p. all-move _ _ _ (and-moves (A.moved p.parsers.0) (and-moves (B.moved p.parsers.1) (and-moves (C.moved p.parsers.2) (and-moves (D.moved p.parsers.3) (and-moves (F.moved p.parsers.4) (last-moves (G.moved p.parsers.5))))))) };

    fn always_moves(&self) -> bool
        ensures { result ≡ (A.moves self.now.parsers.0 && (B.moves self.now.parsers.1 && (C.moves self.now.parsers.2 && (D.moves self.now.parsers.3 && (F.moves self.now.parsers.4 && G.moves self.now.parsers.5))))) }
    {
        self.parsers.0.always_moves()
            && self.parsers.1.always_moves()
            && self.parsers.2.always_moves()
            && self.parsers.3.always_moves()
            && self.parsers.4.always_moves()
            && self.parsers.5.always_moves()
    }
}

impl<
    'src,
    I: Input<'src>,
    O,
    E: ParserExtra<I>,
    A: Moving<'src, I, O, E>,
    B: Moving<'src, I, O, E>,
    C: Moving<'src, I, O, E>,
    D: Moving<'src, I, O, E>,
    F: Moving<'src, I, O, E>,
    G: Moving<'src, I, O, E>,
    H: Moving<'src, I, O, E>,
> Moving<'src, I, O, E> for Choice<(A, B, C, D, F, G, H)> {
    ghost use Rattle.chumsky_choice.specs.ChoicesMove.{last-moves, and-moves, all-move};

    ghost moves = { λ p. A.moves p.parsers.0 && (B.moves p.parsers.1 && (C.moves p.parsers.2 && (D.moves p.parsers.3 && (F.moves p.parsers.4 && (G.moves p.parsers.5 && H.moves p.parsers.6))))) };

    ghost moved = { λ p. all-move _ _ _ (and-moves (A.moved p.parsers.0) (and-moves (B.moved p.parsers.1) (and-moves (C.moved p.parsers.2) (and-moves (D.moved p.parsers.3) (and-moves (F.moved p.parsers.4) (and-moves (G.moved p.parsers.5) (last-moves (H.moved p.parsers.6)))))))) };

    fn always_moves(&self) -> bool
        ensures { result ≡ (A.moves self.now.parsers.0 && (B.moves self.now.parsers.1 && (C.moves self.now.parsers.2 && (D.moves self.now.parsers.3 && (F.moves self.now.parsers.4 && (G.moves self.now.parsers.5 && H.moves self.now.parsers.6)))))) }
    {
        self.parsers.0.always_moves()
            && self.parsers.1.always_moves()
            && self.parsers.2.always_moves()
            && self.parsers.3.always_moves()
            && self.parsers.4.always_moves()
            && self.parsers.5.always_moves()
            && self.parsers.6.always_moves()
    }
}

impl<
    'src,
    I: Input<'src>,
    O,
    E: ParserExtra<I>,
    A: Moving<'src, I, O, E>,
    B: Moving<'src, I, O, E>,
    C: Moving<'src, I, O, E>,
    D: Moving<'src, I, O, E>,
    F: Moving<'src, I, O, E>,
    G: Moving<'src, I, O, E>,
    H: Moving<'src, I, O, E>,
    J: Moving<'src, I, O, E>,
> Moving<'src, I, O, E> for Choice<(A, B, C, D, F, G, H, J)> {
    ghost use Rattle.chumsky_choice.specs.ChoicesMove.{last-moves, and-moves, all-move};

    ghost moves = { λ p. A.moves p.parsers.0 && (B.moves p.parsers.1 && (C.moves p.parsers.2 && (D.moves p.parsers.3 && (F.moves p.parsers.4 && (G.moves p.parsers.5 && (H.moves p.parsers.6 && J.moves p.parsers.7)))))) };

    ghost moved = { λ p. all-move _ _ _ (and-moves (A.moved p.parsers.0) (and-moves (B.moved p.parsers.1) (and-moves (C.moved p.parsers.2) (and-moves (D.moved p.parsers.3) (and-moves (F.moved p.parsers.4) (and-moves (G.moved p.parsers.5) (and-moves (H.moved p.parsers.6) (last-moves (J.moved p.parsers.7))))))))) };

    fn always_moves(&self) -> bool
        ensures { result ≡ (A.moves self.now.parsers.0 && (B.moves self.now.parsers.1 && (C.moves self.now.parsers.2 && (D.moves self.now.parsers.3 && (F.moves self.now.parsers.4 && (G.moves self.now.parsers.5 && (H.moves self.now.parsers.6 && J.moves self.now.parsers.7))))))) }
    {
        self.parsers.0.always_moves()
            && self.parsers.1.always_moves()
            && self.parsers.2.always_moves()
            && self.parsers.3.always_moves()
            && self.parsers.4.always_moves()
            && self.parsers.5.always_moves()
            && self.parsers.6.always_moves()
            && self.parsers.7.always_moves()
    }
}

impl<'src, I: Input<'src>, O, E: ParserExtra<I>, A: Moving<'src, I, O, E>> Moving<'src, I, O, E>
    for Choice<&[A]> {
    ghost use Rattle.chumsky_choice.specs.ChoicesMove.{among-moves};

    ghost moves = { λ p. list_all A.moves p.parsers.now };

    ghost moved = { λ p e. among-moves _ _ _ _ A.moves A.moved p.parsers.now e };

    fn always_moves(&self) -> bool
        ensures { result ≡ list_all A.moves self.now.parsers.now }
    {
        all_move::<I, O, E, A>(self.parsers)
    }
}

impl<'src, I: Input<'src>, O, E: ParserExtra<I>, A: Moving<'src, I, O, E>> Moving<'src, I, O, E>
    for Choice<Vec<A>> {
    ghost use Rattle.chumsky_choice.specs.ChoicesMove.{among-moves};

    ghost moves = { λ p. list_all A.moves p.parsers.items };

    ghost moved = { λ p e. among-moves _ _ _ _ A.moves A.moved p.parsers.items e };

    fn always_moves(&self) -> bool
        ensures { result ≡ list_all A.moves self.now.parsers.items }
    {
        all_move::<I, O, E, A>(self.parsers.as_slice())
    }
}

impl<'src, I: Input<'src>, O, E: ParserExtra<I>, A: Moving<'src, I, O, E>, const N: usize> Moving<
    'src,
    I,
    O,
    E,
> for Choice<[A; N]> {
    ghost use Rattle.chumsky_choice.specs.ChoicesMove.{among-moves};

    ghost moves = { λ p. list_all A.moves p.parsers };

    ghost moved = { λ p e. among-moves _ _ _ _ A.moves A.moved p.parsers e };

    fn always_moves(&self) -> bool
        ensures { result ≡ list_all A.moves self.now.parsers }
    {
        all_move::<I, O, E, A>(&self.parsers)
    }
}

/// Whether each of some parsers moves wherever it succeeds. Of none it is so.
fn all_move<'src, I: Input<'src>, O, E: ParserExtra<I>, P: Moving<'src, I, O, E>>(
    parsers: &[P],
) -> bool
    ensures { result ≡ list_all P.moves parsers.now }
{
    for parser in parsers {
        if !parser.always_moves() {
            return false;
        }
    }
    true
}
