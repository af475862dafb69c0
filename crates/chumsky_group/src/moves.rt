//! A group moves where one of its parts does.
ghost use Rattle.std.specs.Prelude.{◌≡◌, ◌||◌};
ghost use Rattle.std.specs.List.{list_any};

use crate::group::Group;
use arrayvec::ArrayVec;
use chumsky_input::extra::ParserExtra;
use chumsky_input::input::Input;
use chumsky_parser::moving::Moving;

impl<'src, I: Input<'src>, OA, E: ParserExtra<I>, A: Moving<'src, I, OA, E>> Moving<
    'src,
    I,
    (OA,),
    E,
> for Group<(A,)> {
    ghost use Rattle.chumsky_group.specs.GroupsMove.{first-part, group-moves};

    ghost moves = { λ p. A.moves p.parsers.0 };

    ghost moved = { λ p. group-moves (λ v. record { 0 = v }) (first-part (A.ends_after_start p.parsers.0) (A.moved p.parsers.0)) };

    fn always_moves(&self) -> bool
        ensures { result ≡ A.moves self.now.parsers.0 }
    {
        self.parsers.0.always_moves()
    }
}

impl<
    'src,
    I: Input<'src>,
    OA: Drop,
    OB,
    E: ParserExtra<I>,
    A: Moving<'src, I, OA, E>,
    B: Moving<'src, I, OB, E>,
> Moving<'src, I, (OA, OB), E> for Group<(A, B)> {
    ghost use Rattle.chumsky_parser.specs.ProgressLaws.{sequence-moves};

    ghost moves = { λ p. A.moves p.parsers.0 || B.moves p.parsers.1 };

    ghost moved = { λ p. sequence-moves _ _ (A.moves p.parsers.0) (B.moves p.parsers.1) (A.ends_after_start p.parsers.0) (B.ends_after_start p.parsers.1) (A.moved p.parsers.0) (B.moved p.parsers.1) };

    fn always_moves(&self) -> bool
        ensures { result ≡ (A.moves self.now.parsers.0 || B.moves self.now.parsers.1) }
    {
        self.parsers.0.always_moves() || self.parsers.1.always_moves()
    }
}

impl<
    'src,
    I: Input<'src>,
    OA: Drop,
    OB: Drop,
    OC,
    E: ParserExtra<I>,
    A: Moving<'src, I, OA, E>,
    B: Moving<'src, I, OB, E>,
    C: Moving<'src, I, OC, E>,
> Moving<'src, I, (OA, OB, OC), E> for Group<(A, B, C)> {
    ghost use Rattle.chumsky_group.specs.GroupsMove.{first-part, and-part, group-moves};

    ghost moves = { λ p. (A.moves p.parsers.0 || B.moves p.parsers.1) || C.moves p.parsers.2 };

    ghost moved = { λ p. group-moves (λ v. (v.0.0, v.0.1, v.1)) (and-part (and-part (first-part (A.ends_after_start p.parsers.0) (A.moved p.parsers.0)) (B.ends_after_start p.parsers.1) (B.moved p.parsers.1)) (C.ends_after_start p.parsers.2) (C.moved p.parsers.2)) };

    fn always_moves(&self) -> bool
        ensures { result ≡ ((A.moves self.now.parsers.0 || B.moves self.now.parsers.1) || C.moves self.now.parsers.2) }
    {
        self.parsers.0.always_moves()
            || self.parsers.1.always_moves()
            || self.parsers.2.always_moves()
    }
}

impl<
    'src,
    I: Input<'src>,
    OA: Drop,
    OB: Drop,
    OC: Drop,
    OD,
    E: ParserExtra<I>,
    A: Moving<'src, I, OA, E>,
    B: Moving<'src, I, OB, E>,
    C: Moving<'src, I, OC, E>,
    D: Moving<'src, I, OD, E>,
> Moving<'src, I, (OA, OB, OC, OD), E> for Group<(A, B, C, D)> {
    ghost use Rattle.chumsky_group.specs.GroupsMove.{first-part, and-part, group-moves};

    ghost moves = { λ p. ((A.moves p.parsers.0 || B.moves p.parsers.1) || C.moves p.parsers.2) || D.moves p.parsers.3 };

    ghost moved = { λ p. group-moves (λ v. (v.0.0.0, v.0.0.1, v.0.1, v.1)) (and-part (and-part (and-part (first-part (A.ends_after_start p.parsers.0) (A.moved p.parsers.0)) (B.ends_after_start p.parsers.1) (B.moved p.parsers.1)) (C.ends_after_start p.parsers.2) (C.moved p.parsers.2)) (D.ends_after_start p.parsers.3) (D.moved p.parsers.3)) };

    fn always_moves(&self) -> bool
        ensures { result ≡ (((A.moves self.now.parsers.0 || B.moves self.now.parsers.1) || C.moves self.now.parsers.2) || D.moves self.now.parsers.3) }
    {
        self.parsers.0.always_moves()
            || self.parsers.1.always_moves()
            || self.parsers.2.always_moves()
            || self.parsers.3.always_moves()
    }
}

impl<
    'src,
    I: Input<'src>,
    OA: Drop,
    OB: Drop,
    OC: Drop,
    OD: Drop,
    OF,
    E: ParserExtra<I>,
    A: Moving<'src, I, OA, E>,
    B: Moving<'src, I, OB, E>,
    C: Moving<'src, I, OC, E>,
    D: Moving<'src, I, OD, E>,
    F: Moving<'src, I, OF, E>,
> Moving<'src, I, (OA, OB, OC, OD, OF), E> for Group<(A, B, C, D, F)> {
    ghost use Rattle.chumsky_group.specs.GroupsMove.{first-part, and-part, group-moves};

    ghost moves = { λ p. (((A.moves p.parsers.0 || B.moves p.parsers.1) || C.moves p.parsers.2) || D.moves p.parsers.3) || F.moves p.parsers.4 };

    ghost moved = { λ p. group-moves (λ v. (v.0.0.0.0, v.0.0.0.1, v.0.0.1, v.0.1, v.1)) (and-part (and-part (and-part (and-part (first-part (A.ends_after_start p.parsers.0) (A.moved p.parsers.0)) (B.ends_after_start p.parsers.1) (B.moved p.parsers.1)) (C.ends_after_start p.parsers.2) (C.moved p.parsers.2)) (D.ends_after_start p.parsers.3) (D.moved p.parsers.3)) (F.ends_after_start p.parsers.4) (F.moved p.parsers.4)) };

    fn always_moves(&self) -> bool
        ensures { result ≡ ((((A.moves self.now.parsers.0 || B.moves self.now.parsers.1) || C.moves self.now.parsers.2) || D.moves self.now.parsers.3) || F.moves self.now.parsers.4) }
    {
        self.parsers.0.always_moves()
            || self.parsers.1.always_moves()
            || self.parsers.2.always_moves()
            || self.parsers.3.always_moves()
            || self.parsers.4.always_moves()
    }
}

impl<
    'src,
    I: Input<'src>,
    OA: Drop,
    OB: Drop,
    OC: Drop,
    OD: Drop,
    OF: Drop,
    OG,
    E: ParserExtra<I>,
    A: Moving<'src, I, OA, E>,
    B: Moving<'src, I, OB, E>,
    C: Moving<'src, I, OC, E>,
    D: Moving<'src, I, OD, E>,
    F: Moving<'src, I, OF, E>,
    G: Moving<'src, I, OG, E>,
> Moving<'src, I, (OA, OB, OC, OD, OF, OG), E> for Group<(A, B, C, D, F, G)> {
    ghost use Rattle.chumsky_group.specs.GroupsMove.{first-part, and-part, group-moves};

    ghost moves = { λ p. ((((A.moves p.parsers.0 || B.moves p.parsers.1) || C.moves p.parsers.2) || D.moves p.parsers.3) || F.moves p.parsers.4) || G.moves p.parsers.5 };

    ghost moved = { λ p. group-moves (λ v. (v.0.0.0.0.0, v.0.0.0.0.1, v.0.0.0.1, v.0.0.1, v.0.1, v.1)) (and-part (and-part (and-part (and-part (and-part (first-part (A.ends_after_start p.parsers.0) (A.moved p.parsers.0)) (B.ends_after_start p.parsers.1) (B.moved p.parsers.1)) (C.ends_after_start p.parsers.2) (C.moved p.parsers.2)) (D.ends_after_start p.parsers.3) (D.moved p.parsers.3)) (F.ends_after_start p.parsers.4) (F.moved p.parsers.4)) (G.ends_after_start p.parsers.5) (G.moved p.parsers.5)) };

    fn always_moves(&self) -> bool
        ensures { result ≡ (((((A.moves self.now.parsers.0 || B.moves self.now.parsers.1) || C.moves self.now.parsers.2) || D.moves self.now.parsers.3) || F.moves self.now.parsers.4) || G.moves self.now.parsers.5) }
    {
        self.parsers.0.always_moves()
            || self.parsers.1.always_moves()
            || self.parsers.2.always_moves()
            || self.parsers.3.always_moves()
            || self.parsers.4.always_moves()
            || self.parsers.5.always_moves()
    }
}

impl<
    'src,
    I: Input<'src>,
    OA: Drop,
    OB: Drop,
    OC: Drop,
    OD: Drop,
    OF: Drop,
    OG: Drop,
    OH,
    E: ParserExtra<I>,
    A: Moving<'src, I, OA, E>,
    B: Moving<'src, I, OB, E>,
    C: Moving<'src, I, OC, E>,
    D: Moving<'src, I, OD, E>,
    F: Moving<'src, I, OF, E>,
    G: Moving<'src, I, OG, E>,
    H: Moving<'src, I, OH, E>,
> Moving<'src, I, (OA, OB, OC, OD, OF, OG, OH), E> for Group<(A, B, C, D, F, G, H)> {
    ghost use Rattle.chumsky_group.specs.GroupsMove.{first-part, and-part, group-moves};

    ghost moves = { λ p. (((((A.moves p.parsers.0 || B.moves p.parsers.1) || C.moves p.parsers.2) || D.moves p.parsers.3) || F.moves p.parsers.4) || G.moves p.parsers.5) || H.moves p.parsers.6 };

    ghost moved = { λ p. group-moves (λ v. (v.0.0.0.0.0.0, v.0.0.0.0.0.1, v.0.0.0.0.1, v.0.0.0.1, v.0.0.1, v.0.1, v.1)) (and-part (and-part (and-part (and-part (and-part (and-part (first-part (A.ends_after_start p.parsers.0) (A.moved p.parsers.0)) (B.ends_after_start p.parsers.1) (B.moved p.parsers.1)) (C.ends_after_start p.parsers.2) (C.moved p.parsers.2)) (D.ends_after_start p.parsers.3) (D.moved p.parsers.3)) (F.ends_after_start p.parsers.4) (F.moved p.parsers.4)) (G.ends_after_start p.parsers.5) (G.moved p.parsers.5)) (H.ends_after_start p.parsers.6) (H.moved p.parsers.6)) };

    fn always_moves(&self) -> bool
        ensures { result ≡ ((((((A.moves self.now.parsers.0 || B.moves self.now.parsers.1) || C.moves self.now.parsers.2) || D.moves self.now.parsers.3) || F.moves self.now.parsers.4) || G.moves self.now.parsers.5) || H.moves self.now.parsers.6) }
    {
        self.parsers.0.always_moves()
            || self.parsers.1.always_moves()
            || self.parsers.2.always_moves()
            || self.parsers.3.always_moves()
            || self.parsers.4.always_moves()
            || self.parsers.5.always_moves()
            || self.parsers.6.always_moves()
    }
}

impl<
    'src,
    I: Input<'src>,
    OA: Drop,
    OB: Drop,
    OC: Drop,
    OD: Drop,
    OF: Drop,
    OG: Drop,
    OH: Drop,
    OJ,
    E: ParserExtra<I>,
    A: Moving<'src, I, OA, E>,
    B: Moving<'src, I, OB, E>,
    C: Moving<'src, I, OC, E>,
    D: Moving<'src, I, OD, E>,
    F: Moving<'src, I, OF, E>,
    G: Moving<'src, I, OG, E>,
    H: Moving<'src, I, OH, E>,
    J: Moving<'src, I, OJ, E>,
> Moving<'src, I, (OA, OB, OC, OD, OF, OG, OH, OJ), E> for Group<(A, B, C, D, F, G, H, J)> {
    ghost use Rattle.chumsky_group.specs.GroupsMove.{first-part, and-part, group-moves};

    ghost moves = { λ p. ((((((A.moves p.parsers.0 || B.moves p.parsers.1) || C.moves p.parsers.2) || D.moves p.parsers.3) || F.moves p.parsers.4) || G.moves p.parsers.5) || H.moves p.parsers.6) || J.moves p.parsers.7 };

    ghost moved = { λ p. group-moves (λ v. (v.0.0.0.0.0.0.0, v.0.0.0.0.0.0.1, v.0.0.0.0.0.1, v.0.0.0.0.1, v.0.0.0.1, v.0.0.1, v.0.1, v.1)) (and-part (and-part (and-part (and-part (and-part (and-part (and-part (first-part (A.ends_after_start p.parsers.0) (A.moved p.parsers.0)) (B.ends_after_start p.parsers.1) (B.moved p.parsers.1)) (C.ends_after_start p.parsers.2) (C.moved p.parsers.2)) (D.ends_after_start p.parsers.3) (D.moved p.parsers.3)) (F.ends_after_start p.parsers.4) (F.moved p.parsers.4)) (G.ends_after_start p.parsers.5) (G.moved p.parsers.5)) (H.ends_after_start p.parsers.6) (H.moved p.parsers.6)) (J.ends_after_start p.parsers.7) (J.moved p.parsers.7)) };

    fn always_moves(&self) -> bool
        ensures { result ≡ (((((((A.moves self.now.parsers.0 || B.moves self.now.parsers.1) || C.moves self.now.parsers.2) || D.moves self.now.parsers.3) || F.moves self.now.parsers.4) || G.moves self.now.parsers.5) || H.moves self.now.parsers.6) || J.moves self.now.parsers.7) }
    {
        self.parsers.0.always_moves()
            || self.parsers.1.always_moves()
            || self.parsers.2.always_moves()
            || self.parsers.3.always_moves()
            || self.parsers.4.always_moves()
            || self.parsers.5.always_moves()
            || self.parsers.6.always_moves()
            || self.parsers.7.always_moves()
    }
}

impl<
    'src,
    I: Input<'src>,
    O: Default + Drop,
    E: ParserExtra<I>,
    P: Moving<'src, I, O, E>,
    const N: usize,
> Moving<'src, I, ArrayVec<O, N>, E> for Group<[P; N]> {
    ghost use Rattle.chumsky_group.specs.GroupsMove.{in_turn-moves};

    ghost moves = { λ p. list_any P.moves p.parsers };

    ghost moved = { λ p e. in_turn-moves _ P.moves P.ends_after_start P.moved p.parsers e };

    fn always_moves(&self) -> bool
        ensures { result ≡ list_any P.moves self.now.parsers }
    {
        one_moves::<I, O, E, P>(&self.parsers)
    }
}

/// Whether one of some parsers moves wherever it succeeds. Of none it is not so.
fn one_moves<'src, I: Input<'src>, O, E: ParserExtra<I>, P: Moving<'src, I, O, E>>(
    parsers: &[P],
) -> bool
    ensures { result ≡ list_any P.moves parsers.now }
{
    for parser in parsers {
        if parser.always_moves() {
            return true;
        }
    }
    false
}
