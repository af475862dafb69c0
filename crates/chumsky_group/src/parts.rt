//! What a group of the parsers of a tuple has for parts.
ghost use Rattle.chumsky_parser.specs.ByParts.{OutOnlyBy};

use crate::group::Group;
use chumsky_input::extra::ParserExtra;
use chumsky_input::input::Input;
use chumsky_parser::parser::Parser;

/// A group of the parsers of a tuple: what each of its parts does, in their order, and what is known of the group by them. So one
/// law says of a group of any width that it is never refused for memory.
pub trait Parts<'src, I: Input<'src>, O, E: ParserExtra<I>>: Parser<'src, I, O, E> {
    ghost use Rattle.std.specs.Prelude.{List};
    ghost use Rattle.chumsky_parser.specs.ByParts.{Part};
    ghost use Rattle.chumsky_group.specs.Parts.{StopsOnlyByAny};

    /// What each part does.
    ghost parts: { Self → List (Part I I.Token I.Span E.Error E.State E.State.Mark E.Context) };

    /// It stops only where one of its parts does, and for the same reason.
    ghost stops_only_by_any: { (p : Self) → StopsOnlyByAny E.Error.Error E.State.Inspector (Self.meaning p) (parts p) };
}

impl<'src, I: Input<'src>, OA, E: ParserExtra<I>, A: Parser<'src, I, OA, E>> Parts<
    'src,
    I,
    (OA,),
    E,
> for Group<(A,)> {
    ghost use Rattle.std.specs.Prelude.{[], ◌∷◌};
    ghost use Rattle.std.proofs.Common.{inl};
    ghost use Rattle.chumsky_parser.specs.ByParts.{part};
    ghost use Rattle.chumsky_group.specs.PartsLaws.{grouped-stops};

    ghost parts = { λ p. let t = p.parsers in part (A.meaning t.0) ∷ [] };

    ghost stops_only_by_any = { λ _ s h. inl (grouped-stops s _ _ h) };
}

impl<
    'src,
    I: Input<'src>,
    OA: Drop,
    OB,
    E: ParserExtra<I>,
    A: Parser<'src, I, OA, E>,
    B: Parser<'src, I, OB, E>,
> Parts<'src, I, (OA, OB), E> for Group<(A, B)> {
    ghost use Rattle.std.specs.Prelude.{[], ◌∷◌};
    ghost use Rattle.std.proofs.Common.{inl, inr};
    ghost use Rattle.chumsky_parser.specs.ByParts.{part};
    ghost use Rattle.chumsky_group.specs.PartsLaws.{and-stops};

    ghost parts = { λ p. let t = p.parsers in
        part (A.meaning t.0) ∷ part (B.meaning t.1) ∷ [] };

    ghost stops_only_by_any = { λ _ s h. and-stops s _ _ inl (λ x. inr (inl x)) h };
}

impl<
    'src,
    I: Input<'src>,
    OA: Drop,
    OB: Drop,
    OC,
    E: ParserExtra<I>,
    A: Parser<'src, I, OA, E>,
    B: Parser<'src, I, OB, E>,
    C: Parser<'src, I, OC, E>,
> Parts<'src, I, (OA, OB, OC), E> for Group<(A, B, C)> {
    ghost use Rattle.std.specs.Prelude.{[], ◌∷◌};
    ghost use Rattle.std.proofs.Common.{inl, inr};
    ghost use Rattle.chumsky_parser.specs.ByParts.{part};
    ghost use Rattle.chumsky_group.specs.PartsLaws.{and-stops, grouped-stops};

    ghost parts = { λ p. let t = p.parsers in
        part (A.meaning t.0) ∷ part (B.meaning t.1) ∷ part (C.meaning t.2) ∷ [] };

    ghost stops_only_by_any = { λ _ s h.
        and-stops s _ _ (and-stops s _ _ inl (λ x. inr (inl x))) (λ x. inr (inr (inl x)))
        (grouped-stops s _ _ h) };
}

impl<
    'src,
    I: Input<'src>,
    OA: Drop,
    OB: Drop,
    OC: Drop,
    OD,
    E: ParserExtra<I>,
    A: Parser<'src, I, OA, E>,
    B: Parser<'src, I, OB, E>,
    C: Parser<'src, I, OC, E>,
    D: Parser<'src, I, OD, E>,
> Parts<'src, I, (OA, OB, OC, OD), E> for Group<(A, B, C, D)> {
    ghost use Rattle.std.specs.Prelude.{[], ◌∷◌};
    ghost use Rattle.std.proofs.Common.{inl, inr};
    ghost use Rattle.chumsky_parser.specs.ByParts.{part};
    ghost use Rattle.chumsky_group.specs.PartsLaws.{and-stops, grouped-stops};

    ghost parts = { λ p. let t = p.parsers in
        part (A.meaning t.0) ∷ part (B.meaning t.1) ∷ part (C.meaning t.2) ∷ part
        (D.meaning t.3) ∷ [] };

    ghost stops_only_by_any = { λ _ s h.
        and-stops s _ _ (and-stops s _ _ (and-stops s _ _ inl (λ x. inr (inl x))) (λ x. inr (inr
        (inl x)))) (λ x. inr (inr (inr (inl x)))) (grouped-stops s _ _ h) };
}

impl<
    'src,
    I: Input<'src>,
    OA: Drop,
    OB: Drop,
    OC: Drop,
    OD: Drop,
    OF,
    E: ParserExtra<I>,
    A: Parser<'src, I, OA, E>,
    B: Parser<'src, I, OB, E>,
    C: Parser<'src, I, OC, E>,
    D: Parser<'src, I, OD, E>,
    F: Parser<'src, I, OF, E>,
> Parts<'src, I, (OA, OB, OC, OD, OF), E> for Group<(A, B, C, D, F)> {
    ghost use Rattle.std.specs.Prelude.{[], ◌∷◌};
    ghost use Rattle.std.proofs.Common.{inl, inr};
    ghost use Rattle.chumsky_parser.specs.ByParts.{part};
    ghost use Rattle.chumsky_group.specs.PartsLaws.{and-stops, grouped-stops};

    ghost parts = { λ p. let t = p.parsers in
        part (A.meaning t.0) ∷ part (B.meaning t.1) ∷ part (C.meaning t.2) ∷ part
        (D.meaning t.3) ∷ part (F.meaning t.4) ∷ [] };

    ghost stops_only_by_any = { λ _ s h.
        and-stops s _ _ (and-stops s _ _ (and-stops s _ _ (and-stops s _ _ inl (λ x. inr (inl x)))
        (λ x. inr (inr (inl x)))) (λ x. inr (inr (inr (inl x))))) (λ x. inr (inr (inr (inr (inl
        x))))) (grouped-stops s _ _ h) };
}

impl<
    'src,
    I: Input<'src>,
    OA: Drop,
    OB: Drop,
    OC: Drop,
    OD: Drop,
    OF: Drop,
    OG,
    E: ParserExtra<I>,
    A: Parser<'src, I, OA, E>,
    B: Parser<'src, I, OB, E>,
    C: Parser<'src, I, OC, E>,
    D: Parser<'src, I, OD, E>,
    F: Parser<'src, I, OF, E>,
    G: Parser<'src, I, OG, E>,
> Parts<'src, I, (OA, OB, OC, OD, OF, OG), E> for Group<(A, B, C, D, F, G)> {
    ghost use Rattle.std.specs.Prelude.{[], ◌∷◌};
    ghost use Rattle.std.proofs.Common.{inl, inr};
    ghost use Rattle.chumsky_parser.specs.ByParts.{part};
    ghost use Rattle.chumsky_group.specs.PartsLaws.{and-stops, grouped-stops};

    ghost parts = { λ p. let t = p.parsers in
        part (A.meaning t.0) ∷ part (B.meaning t.1) ∷ part (C.meaning t.2) ∷ part
        (D.meaning t.3) ∷ part (F.meaning t.4) ∷ part (G.meaning t.5) ∷ [] };

    ghost stops_only_by_any = { λ _ s h.
        and-stops s _ _ (and-stops s _ _ (and-stops s _ _ (and-stops s _ _ (and-stops s _ _ inl (λ
        x. inr (inl x))) (λ x. inr (inr (inl x)))) (λ x. inr (inr (inr (inl x))))) (λ x. inr (inr
        (inr (inr (inl x)))))) (λ x. inr (inr (inr (inr (inr (inl x)))))) (grouped-stops s _ _ h) };
}

impl<
    'src,
    I: Input<'src>,
    OA: Drop,
    OB: Drop,
    OC: Drop,
    OD: Drop,
    OF: Drop,
    OG: Drop,
    OH,
    E: ParserExtra<I>,
    A: Parser<'src, I, OA, E>,
    B: Parser<'src, I, OB, E>,
    C: Parser<'src, I, OC, E>,
    D: Parser<'src, I, OD, E>,
    F: Parser<'src, I, OF, E>,
    G: Parser<'src, I, OG, E>,
    H: Parser<'src, I, OH, E>,
> Parts<'src, I, (OA, OB, OC, OD, OF, OG, OH), E> for Group<(A, B, C, D, F, G, H)> {
    ghost use Rattle.std.specs.Prelude.{[], ◌∷◌};
    ghost use Rattle.std.proofs.Common.{inl, inr};
    ghost use Rattle.chumsky_parser.specs.ByParts.{part};
    ghost use Rattle.chumsky_group.specs.PartsLaws.{and-stops, grouped-stops};

    ghost parts = { λ p. let t = p.parsers in
        part (A.meaning t.0) ∷ part (B.meaning t.1) ∷ part (C.meaning t.2) ∷ part
        (D.meaning t.3) ∷ part (F.meaning t.4) ∷ part (G.meaning t.5) ∷ part (H.meaning t.6)
        ∷ [] };

    ghost stops_only_by_any = { λ _ s h.
        and-stops s _ _ (and-stops s _ _ (and-stops s _ _ (and-stops s _ _ (and-stops s _ _
        (and-stops s _ _ inl (λ x. inr (inl x))) (λ x. inr (inr (inl x)))) (λ x. inr (inr (inr
        (inl x))))) (λ x. inr (inr (inr (inr (inl x)))))) (λ x. inr (inr (inr (inr (inr (inl
        x))))))) (λ x. inr (inr (inr (inr (inr (inr (inl x))))))) (grouped-stops s _ _ h) };
}

impl<
    'src,
    I: Input<'src>,
    OA: Drop,
    OB: Drop,
    OC: Drop,
    OD: Drop,
    OF: Drop,
    OG: Drop,
    OH: Drop,
    OJ,
    E: ParserExtra<I>,
    A: Parser<'src, I, OA, E>,
    B: Parser<'src, I, OB, E>,
    C: Parser<'src, I, OC, E>,
    D: Parser<'src, I, OD, E>,
    F: Parser<'src, I, OF, E>,
    G: Parser<'src, I, OG, E>,
    H: Parser<'src, I, OH, E>,
    J: Parser<'src, I, OJ, E>,
> Parts<'src, I, (OA, OB, OC, OD, OF, OG, OH, OJ), E> for Group<(A, B, C, D, F, G, H, J)> {
    ghost use Rattle.std.specs.Prelude.{[], ◌∷◌};
    ghost use Rattle.std.proofs.Common.{inl, inr};
    ghost use Rattle.chumsky_parser.specs.ByParts.{part};
    ghost use Rattle.chumsky_group.specs.PartsLaws.{and-stops, grouped-stops};

    ghost parts = { λ p. let t = p.parsers in
        part (A.meaning t.0) ∷ part (B.meaning t.1) ∷ part (C.meaning t.2) ∷ part
        (D.meaning t.3) ∷ part (F.meaning t.4) ∷ part (G.meaning t.5) ∷ part (H.meaning t.6)
        ∷ part (J.meaning t.7) ∷ [] };

    ghost stops_only_by_any = { λ _ s h.
        and-stops s _ _ (and-stops s _ _ (and-stops s _ _ (and-stops s _ _ (and-stops s _ _
        (and-stops s _ _ (and-stops s _ _ inl (λ x. inr (inl x))) (λ x. inr (inr (inl x)))) (λ x.
        inr (inr (inr (inl x))))) (λ x. inr (inr (inr (inr (inl x)))))) (λ x. inr (inr (inr (inr
        (inr (inl x))))))) (λ x. inr (inr (inr (inr (inr (inr (inl x)))))))) (λ x. inr (inr (inr
        (inr (inr (inr (inr (inl x)))))))) (grouped-stops s _ _ h) };
}

/// Never refused for memory where no part is: `group` of one to eight parsers.
pub fn group_is_never_out_of_memory<
    'src,
    I: Input<'src>,
    O,
    E: ParserExtra<I>,
    T: Parts<'src, I, O, E>,
>(group: &T)
    ensures { OutOnlyBy E.Error.Error E.State.Inspector (T.parts group.now) (T.meaning group.now) }
{}

/// When it is ready and steady, and which outputs are the same: `group` of one parser, of two, and so on to eight.
pub fn group_is_steady<
    'src,
    I: Input<'src>,
    OA: Drop,
    OB: Drop,
    OC: Drop,
    OD: Drop,
    OF: Drop,
    OG: Drop,
    OH: Drop,
    OJ: Drop,
    E: ParserExtra<I>,
    A: Parser<'src, I, OA, E>,
    B: Parser<'src, I, OB, E>,
    C: Parser<'src, I, OC, E>,
    D: Parser<'src, I, OD, E>,
    F: Parser<'src, I, OF, E>,
    G: Parser<'src, I, OG, E>,
    H: Parser<'src, I, OH, E>,
    J: Parser<'src, I, OJ, E>,
>(
    one: &Group<(A,)>,
    two: &Group<(A, B)>,
    three: &Group<(A, B, C)>,
    four: &Group<(A, B, C, D)>,
    five: &Group<(A, B, C, D, F)>,
    six: &Group<(A, B, C, D, F, G)>,
    seven: &Group<(A, B, C, D, F, G, H)>,
    eight: &Group<(A, B, C, D, F, G, H, J)>,
)
    ensures ready_one { let t = one.now.parsers in A.ready t.0 →
        ⟦<Group<(A,)> as Parser<'src, I, (OA,), E>>⟧.ready one.now }
    ensures ready_two { let t = two.now.parsers in A.ready t.0 → B.ready t.1 →
        ⟦<Group<(A, B)> as Parser<'src, I, (OA, OB), E>>⟧.ready two.now }
    ensures ready_three { let t = three.now.parsers in A.ready t.0 → B.ready t.1 → C.ready t.2 →
        ⟦<Group<(A, B, C)> as Parser<'src, I, (OA, OB, OC), E>>⟧.ready three.now }
    ensures ready_four { let t = four.now.parsers in A.ready t.0 → B.ready t.1 → C.ready t.2 → D.ready t.3 →
        ⟦<Group<(A, B, C, D)> as Parser<'src, I, (OA, OB, OC, OD), E>>⟧.ready four.now }
    ensures ready_five { let t = five.now.parsers in A.ready t.0 → B.ready t.1 → C.ready t.2 → D.ready t.3 → F.ready t.4 →
        ⟦<Group<(A, B, C, D, F)> as Parser<'src, I, (OA, OB, OC, OD, OF), E>>⟧.ready five.now }
    ensures ready_six { let t = six.now.parsers in A.ready t.0 → B.ready t.1 → C.ready t.2 → D.ready t.3 → F.ready t.4 → G.ready t.5 →
        ⟦<Group<(A, B, C, D, F, G)> as Parser<'src, I, (OA, OB, OC, OD, OF, OG), E>>⟧.ready six.now }
    ensures ready_seven { let t = seven.now.parsers in A.ready t.0 → B.ready t.1 → C.ready t.2 → D.ready t.3 → F.ready t.4 → G.ready t.5 → H.ready t.6 →
        ⟦<Group<(A, B, C, D, F, G, H)> as Parser<'src, I, (OA, OB, OC, OD, OF, OG, OH), E>>⟧.ready seven.now }
    ensures ready_eight { let t = eight.now.parsers in A.ready t.0 → B.ready t.1 → C.ready t.2 → D.ready t.3 → F.ready t.4 → G.ready t.5 → H.ready t.6 → J.ready t.7 →
        ⟦<Group<(A, B, C, D, F, G, H, J)> as Parser<'src, I, (OA, OB, OC, OD, OF, OG, OH, OJ), E>>⟧.ready eight.now }
    ensures one { let t = one.now.parsers in A.steady t.0 →
        ⟦<Group<(A,)> as Parser<'src, I, (OA,), E>>⟧.steady one.now }
    ensures two { let t = two.now.parsers in A.steady t.0 → B.steady t.1 →
        ⟦<Group<(A, B)> as Parser<'src, I, (OA, OB), E>>⟧.steady two.now }
    ensures three { let t = three.now.parsers in A.steady t.0 → B.steady t.1 → C.steady t.2 →
        ⟦<Group<(A, B, C)> as Parser<'src, I, (OA, OB, OC), E>>⟧.steady three.now }
    ensures four { let t = four.now.parsers in A.steady t.0 → B.steady t.1 → C.steady t.2 → D.steady t.3 →
        ⟦<Group<(A, B, C, D)> as Parser<'src, I, (OA, OB, OC, OD), E>>⟧.steady four.now }
    ensures five { let t = five.now.parsers in A.steady t.0 → B.steady t.1 → C.steady t.2 → D.steady t.3 → F.steady t.4 →
        ⟦<Group<(A, B, C, D, F)> as Parser<'src, I, (OA, OB, OC, OD, OF), E>>⟧.steady five.now }
    ensures six { let t = six.now.parsers in A.steady t.0 → B.steady t.1 → C.steady t.2 → D.steady t.3 → F.steady t.4 → G.steady t.5 →
        ⟦<Group<(A, B, C, D, F, G)> as Parser<'src, I, (OA, OB, OC, OD, OF, OG), E>>⟧.steady six.now }
    ensures seven { let t = seven.now.parsers in A.steady t.0 → B.steady t.1 → C.steady t.2 → D.steady t.3 → F.steady t.4 → G.steady t.5 → H.steady t.6 →
        ⟦<Group<(A, B, C, D, F, G, H)> as Parser<'src, I, (OA, OB, OC, OD, OF, OG, OH), E>>⟧.steady seven.now }
    ensures eight { let t = eight.now.parsers in A.steady t.0 → B.steady t.1 → C.steady t.2 → D.steady t.3 → F.steady t.4 → G.steady t.5 → H.steady t.6 → J.steady t.7 →
        ⟦<Group<(A, B, C, D, F, G, H, J)> as Parser<'src, I, (OA, OB, OC, OD, OF, OG, OH, OJ), E>>⟧.steady eight.now }
    ensures same_one { let t = one.now.parsers in (x y : record { 0 : OA }) →
        ⟦<Group<(A,)> as Parser<'src, I, (OA,), E>>⟧.same one.now x y →
        A.same t.0 x.0 y.0 }
    ensures same_two { let t = two.now.parsers in (x y : OA × OB) →
        ⟦<Group<(A, B)> as Parser<'src, I, (OA, OB), E>>⟧.same two.now x y →
        A.same t.0 x.0 y.0 × B.same t.1 x.1 y.1 }
    ensures same_three { let t = three.now.parsers in (x y : OA × OB × OC) →
        ⟦<Group<(A, B, C)> as Parser<'src, I, (OA, OB, OC), E>>⟧.same three.now x y →
        A.same t.0 x.0 y.0 × B.same t.1 x.1 y.1 × C.same t.2 x.2 y.2 }
    ensures same_four { let t = four.now.parsers in (x y : OA × OB × OC × OD) →
        ⟦<Group<(A, B, C, D)> as Parser<'src, I, (OA, OB, OC, OD), E>>⟧.same four.now x y →
        A.same t.0 x.0 y.0 × B.same t.1 x.1 y.1 × C.same t.2 x.2 y.2 × D.same t.3 x.3 y.3 }
    ensures same_five { let t = five.now.parsers in (x y : OA × OB × OC × OD × OF) →
        ⟦<Group<(A, B, C, D, F)> as Parser<'src, I, (OA, OB, OC, OD, OF), E>>⟧.same five.now x y →
        A.same t.0 x.0 y.0 × B.same t.1 x.1 y.1 × C.same t.2 x.2 y.2 × D.same t.3 x.3 y.3 × F.same t.4 x.4 y.4 }
    ensures same_six { let t = six.now.parsers in (x y : OA × OB × OC × OD × OF × OG) →
        ⟦<Group<(A, B, C, D, F, G)> as Parser<'src, I, (OA, OB, OC, OD, OF, OG), E>>⟧.same six.now x y →
        A.same t.0 x.0 y.0 × B.same t.1 x.1 y.1 × C.same t.2 x.2 y.2 × D.same t.3 x.3 y.3 × F.same t.4 x.4 y.4 × G.same t.5 x.5 y.5 }
    ensures same_seven { let t = seven.now.parsers in (x y : OA × OB × OC × OD × OF × OG × OH) →
        ⟦<Group<(A, B, C, D, F, G, H)> as Parser<'src, I, (OA, OB, OC, OD, OF, OG, OH), E>>⟧.same seven.now x y →
        A.same t.0 x.0 y.0 × B.same t.1 x.1 y.1 × C.same t.2 x.2 y.2 × D.same t.3 x.3 y.3 × F.same t.4 x.4 y.4 × G.same t.5 x.5 y.5 × H.same t.6 x.6 y.6 }
    ensures same_eight { let t = eight.now.parsers in (x y : OA × OB × OC × OD × OF × OG × OH × OJ) →
        ⟦<Group<(A, B, C, D, F, G, H, J)> as Parser<'src, I, (OA, OB, OC, OD, OF, OG, OH, OJ), E>>⟧.same eight.now x y →
        A.same t.0 x.0 y.0 × B.same t.1 x.1 y.1 × C.same t.2 x.2 y.2 × D.same t.3 x.3 y.3 × F.same t.4 x.4 y.4 × G.same t.5 x.5 y.5 × H.same t.6 x.6 y.6 × J.same t.7 x.7 y.7 }
{}
