//! What a choice among the parsers of a tuple has for alternatives.
ghost use Rattle.std.specs.Prelude.{[], ◌∷◌, map};
ghost use Rattle.chumsky_parser.specs.ByParts.{part, OutOnlyBy};
ghost use Rattle.chumsky_choice.specs.Alternatives.{OnlyByOne};

use crate::choice::Choice;
use chumsky_input::extra::ParserExtra;
use chumsky_input::input::Input;
use chumsky_parser::parser::Parser;

/// A choice among the parsers of a tuple: what each of its alternatives does and which outputs it calls the same, in their
/// order; and what the choice answers by them. The functions of `laws` say it of any such choice.
pub trait Alternatives<'src, I: Input<'src>, O, E: ParserExtra<I>>: Parser<'src, I, O, E> {
    ghost use Rattle.std.specs.Prelude.{List};
    ghost use Rattle.chumsky_input.specs.Words.{Does};
    ghost use Rattle.chumsky_combinator.specs.Standing.{SameByOneIn};
    ghost use Rattle.chumsky_choice.specs.Alternatives.{TriesInOrder};

    /// What each alternative does.
    ghost each_does: { Self → List (Does I I.Token I.Span E.Error E.State E.State.Mark E.Context O) };
    /// Which outputs each calls the same.
    ghost each_same: { Self → List (O → O → Type 0) };

    /// The choice is the first of them that doesn't say no, else the last.
    ghost tries_in_order: { (p : Self) → TriesInOrder E.Error.Error E.State.Inspector (Self.meaning p) (each_does p) };

    /// In two answers of a steady choice the same one stands.
    ghost agrees_by_one: { (p : Self) → Self.steady p → SameByOneIn E.Error.Error E.State.Inspector (Self.meaning p) (each_same p) (each_does p) };
}

impl<'src, I: Input<'src>, O, E: ParserExtra<I>, A: Parser<'src, I, O, E>> Alternatives<
    'src,
    I,
    O,
    E,
> for Choice<(A,)> {
    ghost use Rattle.std.specs.Prelude.{[], ◌∷◌};
    ghost use Rattle.chumsky_choice.specs.AlternativesLaws.{only-both};

    ghost each_does = { λ p. let t = p.parsers in A.meaning t.0 ∷ [] };

    ghost each_same = { λ p. let t = p.parsers in A.same t.0 ∷ [] };

    ghost tries_in_order = { λ _ _ _ m. record { cases = m } };

    ghost agrees_by_one = { λ p s. only-both _ _ _ _ _ (A.agrees p.parsers.0 s) };
}

impl<
    'src,
    I: Input<'src>,
    O,
    E: ParserExtra<I>,
    A: Parser<'src, I, O, E>,
    B: Parser<'src, I, O, E>,
> Alternatives<'src, I, O, E> for Choice<(A, B)> {
    ghost use Rattle.std.specs.Prelude.{[], ◌∷◌};
    ghost use Rattle.chumsky_parser.specs.ChoiceLaws.{none-agree, and-agrees};
    ghost use Rattle.chumsky_combinator.specs.StandingLaws.{first_of-both};

    ghost each_does = { λ p. let t = p.parsers in A.meaning t.0 ∷ B.meaning t.1 ∷ [] };

    ghost each_same = { λ p. let t = p.parsers in A.same t.0 ∷ B.same t.1 ∷ [] };

    ghost tries_in_order = { λ _ _ _ m. m };

    ghost agrees_by_one = { λ p s. let t = p.parsers in
        first_of-both _ _ _ (A.same t.0) (B.same t.1 ∷ []) _ _ (and-agrees (A.agrees t.0 s.0)
        (and-agrees (B.agrees t.1 s.1) none-agree)) };
}

impl<
    'src,
    I: Input<'src>,
    O,
    E: ParserExtra<I>,
    A: Parser<'src, I, O, E>,
    B: Parser<'src, I, O, E>,
    C: Parser<'src, I, O, E>,
> Alternatives<'src, I, O, E> for Choice<(A, B, C)> {
    ghost use Rattle.std.specs.Prelude.{[], ◌∷◌};
    ghost use Rattle.chumsky_parser.specs.ChoiceLaws.{none-agree, and-agrees};
    ghost use Rattle.chumsky_combinator.specs.StandingLaws.{first_of-both};

    ghost each_does = { λ p. let t = p.parsers in
        A.meaning t.0 ∷ B.meaning t.1 ∷ C.meaning t.2 ∷ [] };

    ghost each_same = { λ p. let t = p.parsers in A.same t.0 ∷ B.same t.1 ∷ C.same t.2 ∷ [] };

    ghost tries_in_order = { λ _ _ _ m. m };

    ghost agrees_by_one = { λ p s. let t = p.parsers in
        first_of-both _ _ _ (A.same t.0) (B.same t.1 ∷ C.same t.2 ∷ []) _ _
        (and-agrees (A.agrees t.0 s.0) (and-agrees (B.agrees t.1 s.1)
        (and-agrees (C.agrees t.2 s.2) none-agree))) };
}

impl<
    'src,
    I: Input<'src>,
    O,
    E: ParserExtra<I>,
    A: Parser<'src, I, O, E>,
    B: Parser<'src, I, O, E>,
    C: Parser<'src, I, O, E>,
    D: Parser<'src, I, O, E>,
> Alternatives<'src, I, O, E> for Choice<(A, B, C, D)> {
    ghost use Rattle.std.specs.Prelude.{[], ◌∷◌};
    ghost use Rattle.chumsky_parser.specs.ChoiceLaws.{none-agree, and-agrees};
    ghost use Rattle.chumsky_combinator.specs.StandingLaws.{first_of-both};

    ghost each_does = { λ p. let t = p.parsers in
        A.meaning t.0 ∷ B.meaning t.1 ∷ C.meaning t.2 ∷ D.meaning t.3 ∷ [] };

    ghost each_same = { λ p. let t = p.parsers in
        A.same t.0 ∷ B.same t.1 ∷ C.same t.2 ∷ D.same t.3 ∷ [] };

    ghost tries_in_order = { λ _ _ _ m. m };

    ghost agrees_by_one = { λ p s. let t = p.parsers in
        first_of-both _ _ _ (A.same t.0) (B.same t.1 ∷ C.same t.2 ∷ D.same t.3 ∷ []) _ _
        (and-agrees (A.agrees t.0 s.0) (and-agrees (B.agrees t.1 s.1)
        (and-agrees (C.agrees t.2 s.2) (and-agrees (D.agrees t.3 s.3) none-agree)))) };
}

impl<
    'src,
    I: Input<'src>,
    O,
    E: ParserExtra<I>,
    A: Parser<'src, I, O, E>,
    B: Parser<'src, I, O, E>,
    C: Parser<'src, I, O, E>,
    D: Parser<'src, I, O, E>,
    F: Parser<'src, I, O, E>,
> Alternatives<'src, I, O, E> for Choice<(A, B, C, D, F)> {
    ghost use Rattle.std.specs.Prelude.{[], ◌∷◌};
    ghost use Rattle.chumsky_parser.specs.ChoiceLaws.{none-agree, and-agrees};
    ghost use Rattle.chumsky_combinator.specs.StandingLaws.{first_of-both};

    ghost each_does = { λ p. let t = p.parsers in
        A.meaning t.0 ∷ B.meaning t.1 ∷ C.meaning t.2 ∷ D.meaning t.3 ∷ F.meaning t.4 ∷ [] };

    ghost each_same = { λ p. let t = p.parsers in
        A.same t.0 ∷ B.same t.1 ∷ C.same t.2 ∷ D.same t.3 ∷ F.same t.4 ∷ [] };

    ghost tries_in_order = { λ _ _ _ m. m };

    ghost agrees_by_one = { λ p s. let t = p.parsers in
        first_of-both _ _ _ (A.same t.0) (B.same t.1 ∷ C.same t.2 ∷ D.same t.3 ∷ F.same t.4 ∷ [])
        _ _ (and-agrees (A.agrees t.0 s.0) (and-agrees (B.agrees t.1 s.1)
        (and-agrees (C.agrees t.2 s.2) (and-agrees (D.agrees t.3 s.3)
        (and-agrees (F.agrees t.4 s.4) none-agree))))) };
}

impl<
    'src,
    I: Input<'src>,
    O,
    E: ParserExtra<I>,
    A: Parser<'src, I, O, E>,
    B: Parser<'src, I, O, E>,
    C: Parser<'src, I, O, E>,
    D: Parser<'src, I, O, E>,
    F: Parser<'src, I, O, E>,
    G: Parser<'src, I, O, E>,
> Alternatives<'src, I, O, E> for Choice<(A, B, C, D, F, G)> {
    ghost use Rattle.std.specs.Prelude.{[], ◌∷◌};
    ghost use Rattle.chumsky_parser.specs.ChoiceLaws.{none-agree, and-agrees};
    ghost use Rattle.chumsky_combinator.specs.StandingLaws.{first_of-both};

    ghost each_does = { λ p. let t = p.parsers in
        A.meaning t.0 ∷ B.meaning t.1 ∷ C.meaning t.2 ∷ D.meaning t.3 ∷ F.meaning t.4 ∷
        G.meaning t.5 ∷ [] };

    ghost each_same = { λ p. let t = p.parsers in
        A.same t.0 ∷ B.same t.1 ∷ C.same t.2 ∷ D.same t.3 ∷ F.same t.4 ∷ G.same t.5 ∷ [] };

    ghost tries_in_order = { λ _ _ _ m. m };

    ghost agrees_by_one = { λ p s. let t = p.parsers in
        first_of-both _ _ _ (A.same t.0) (B.same t.1 ∷ C.same t.2 ∷ D.same t.3 ∷ F.same t.4 ∷
        G.same t.5 ∷ []) _ _ (and-agrees (A.agrees t.0 s.0) (and-agrees (B.agrees t.1 s.1)
        (and-agrees (C.agrees t.2 s.2) (and-agrees (D.agrees t.3 s.3)
        (and-agrees (F.agrees t.4 s.4) (and-agrees (G.agrees t.5 s.5) none-agree)))))) };
}

impl<
    'src,
    I: Input<'src>,
    O,
    E: ParserExtra<I>,
    A: Parser<'src, I, O, E>,
    B: Parser<'src, I, O, E>,
    C: Parser<'src, I, O, E>,
    D: Parser<'src, I, O, E>,
    F: Parser<'src, I, O, E>,
    G: Parser<'src, I, O, E>,
    H: Parser<'src, I, O, E>,
> Alternatives<'src, I, O, E> for Choice<(A, B, C, D, F, G, H)> {
    ghost use Rattle.std.specs.Prelude.{[], ◌∷◌};
    ghost use Rattle.chumsky_parser.specs.ChoiceLaws.{none-agree, and-agrees};
    ghost use Rattle.chumsky_combinator.specs.StandingLaws.{first_of-both};

    ghost each_does = { λ p. let t = p.parsers in
        A.meaning t.0 ∷ B.meaning t.1 ∷ C.meaning t.2 ∷ D.meaning t.3 ∷ F.meaning t.4 ∷
        G.meaning t.5 ∷ H.meaning t.6 ∷ [] };

    ghost each_same = { λ p. let t = p.parsers in
        A.same t.0 ∷ B.same t.1 ∷ C.same t.2 ∷ D.same t.3 ∷ F.same t.4 ∷ G.same t.5 ∷
        H.same t.6 ∷ [] };

    ghost tries_in_order = { λ _ _ _ m. m };

    ghost agrees_by_one = { λ p s. let t = p.parsers in
        first_of-both _ _ _ (A.same t.0) (B.same t.1 ∷ C.same t.2 ∷ D.same t.3 ∷ F.same t.4 ∷
        G.same t.5 ∷ H.same t.6 ∷ []) _ _ (and-agrees (A.agrees t.0 s.0)
        (and-agrees (B.agrees t.1 s.1) (and-agrees (C.agrees t.2 s.2)
        (and-agrees (D.agrees t.3 s.3) (and-agrees (F.agrees t.4 s.4)
        (and-agrees (G.agrees t.5 s.5) (and-agrees (H.agrees t.6 s.6) none-agree))))))) };
}

impl<
    'src,
    I: Input<'src>,
    O,
    E: ParserExtra<I>,
    A: Parser<'src, I, O, E>,
    B: Parser<'src, I, O, E>,
    C: Parser<'src, I, O, E>,
    D: Parser<'src, I, O, E>,
    F: Parser<'src, I, O, E>,
    G: Parser<'src, I, O, E>,
    H: Parser<'src, I, O, E>,
    J: Parser<'src, I, O, E>,
> Alternatives<'src, I, O, E> for Choice<(A, B, C, D, F, G, H, J)> {
    ghost use Rattle.std.specs.Prelude.{[], ◌∷◌};
    ghost use Rattle.chumsky_parser.specs.ChoiceLaws.{none-agree, and-agrees};
    ghost use Rattle.chumsky_combinator.specs.StandingLaws.{first_of-both};

    ghost each_does = { λ p. let t = p.parsers in
        A.meaning t.0 ∷ B.meaning t.1 ∷ C.meaning t.2 ∷ D.meaning t.3 ∷ F.meaning t.4 ∷
        G.meaning t.5 ∷ H.meaning t.6 ∷ J.meaning t.7 ∷ [] };

    ghost each_same = { λ p. let t = p.parsers in
        A.same t.0 ∷ B.same t.1 ∷ C.same t.2 ∷ D.same t.3 ∷ F.same t.4 ∷ G.same t.5 ∷
        H.same t.6 ∷ J.same t.7 ∷ [] };

    ghost tries_in_order = { λ _ _ _ m. m };

    ghost agrees_by_one = { λ p s. let t = p.parsers in
        first_of-both _ _ _ (A.same t.0) (B.same t.1 ∷ C.same t.2 ∷ D.same t.3 ∷ F.same t.4 ∷
        G.same t.5 ∷ H.same t.6 ∷ J.same t.7 ∷ []) _ _ (and-agrees (A.agrees t.0 s.0)
        (and-agrees (B.agrees t.1 s.1) (and-agrees (C.agrees t.2 s.2)
        (and-agrees (D.agrees t.3 s.3) (and-agrees (F.agrees t.4 s.4)
        (and-agrees (G.agrees t.5 s.5) (and-agrees (H.agrees t.6 s.6)
        (and-agrees (J.agrees t.7 s.7) none-agree)))))))) };
}

/// Never refused for memory where no part is: `choice` of one parser; and of one, of two, and so on to eight, under a state
/// whose mark and whose going back take no memory.
pub fn choice_is_never_out_of_memory<
    'src,
    I: Input<'src>,
    O,
    E: ParserExtra<I>,
    A: Parser<'src, I, O, E>,
    T: Alternatives<'src, I, O, E>,
>(one: &Choice<(A,)>, several: &T)
    ensures one { OutOnlyBy E.Error.Error E.State.Inspector (part (A.meaning one.now.parsers.0) ∷ [])
        (⟦<Choice<(A,)> as Parser<'src, I, O, E>>⟧.meaning one.now) }
    ensures several { E.State.takes_no_memory → OutOnlyBy E.Error.Error E.State.Inspector
        (map part (T.each_does several.now)) (T.meaning several.now) }
{}

/// When it is ready and steady, and which outputs are the same: a choice of one alternative, of two, and so on to eight.
pub fn choice_is_steady<
    'src,
    I: Input<'src>,
    O,
    E: ParserExtra<I>,
    A: Parser<'src, I, O, E>,
    B: Parser<'src, I, O, E>,
    C: Parser<'src, I, O, E>,
    D: Parser<'src, I, O, E>,
    F: Parser<'src, I, O, E>,
    G: Parser<'src, I, O, E>,
    H: Parser<'src, I, O, E>,
    J: Parser<'src, I, O, E>,
>(
    one: &Choice<(A,)>,
    two: &Choice<(A, B)>,
    three: &Choice<(A, B, C)>,
    four: &Choice<(A, B, C, D)>,
    five: &Choice<(A, B, C, D, F)>,
    six: &Choice<(A, B, C, D, F, G)>,
    seven: &Choice<(A, B, C, D, F, G, H)>,
    eight: &Choice<(A, B, C, D, F, G, H, J)>,
)
    ensures ready_one { let t = one.now.parsers in
        A.ready t.0 → ⟦<Choice<(A,)> as Parser<'src, I, O, E>>⟧.ready one.now }
    ensures ready_two { let t = two.now.parsers in
        A.ready t.0 → B.ready t.1 → ⟦<Choice<(A, B)> as Parser<'src, I, O, E>>⟧.ready two.now }
    ensures ready_three { let t = three.now.parsers in
        A.ready t.0 → B.ready t.1 → C.ready t.2 →
        ⟦<Choice<(A, B, C)> as Parser<'src, I, O, E>>⟧.ready three.now }
    ensures ready_four { let t = four.now.parsers in
        A.ready t.0 → B.ready t.1 → C.ready t.2 → D.ready t.3 →
        ⟦<Choice<(A, B, C, D)> as Parser<'src, I, O, E>>⟧.ready four.now }
    ensures ready_five { let t = five.now.parsers in
        A.ready t.0 → B.ready t.1 → C.ready t.2 → D.ready t.3 → F.ready t.4 →
        ⟦<Choice<(A, B, C, D, F)> as Parser<'src, I, O, E>>⟧.ready five.now }
    ensures ready_six { let t = six.now.parsers in
        A.ready t.0 → B.ready t.1 → C.ready t.2 → D.ready t.3 → F.ready t.4 → G.ready t.5 →
        ⟦<Choice<(A, B, C, D, F, G)> as Parser<'src, I, O, E>>⟧.ready six.now }
    ensures ready_seven { let t = seven.now.parsers in
        A.ready t.0 → B.ready t.1 → C.ready t.2 → D.ready t.3 → F.ready t.4 → G.ready t.5 →
        H.ready t.6 →
        ⟦<Choice<(A, B, C, D, F, G, H)> as Parser<'src, I, O, E>>⟧.ready seven.now }
    ensures ready_eight { let t = eight.now.parsers in
        A.ready t.0 → B.ready t.1 → C.ready t.2 → D.ready t.3 → F.ready t.4 → G.ready t.5 →
        H.ready t.6 → J.ready t.7 →
        ⟦<Choice<(A, B, C, D, F, G, H, J)> as Parser<'src, I, O, E>>⟧.ready eight.now }
    ensures one { let t = one.now.parsers in
        A.steady t.0 → ⟦<Choice<(A,)> as Parser<'src, I, O, E>>⟧.steady one.now }
    ensures two { let t = two.now.parsers in
        A.steady t.0 → B.steady t.1 → ⟦<Choice<(A, B)> as Parser<'src, I, O, E>>⟧.steady two.now }
    ensures three { let t = three.now.parsers in
        A.steady t.0 → B.steady t.1 → C.steady t.2 →
        ⟦<Choice<(A, B, C)> as Parser<'src, I, O, E>>⟧.steady three.now }
    ensures four { let t = four.now.parsers in
        A.steady t.0 → B.steady t.1 → C.steady t.2 → D.steady t.3 →
        ⟦<Choice<(A, B, C, D)> as Parser<'src, I, O, E>>⟧.steady four.now }
    ensures five { let t = five.now.parsers in
        A.steady t.0 → B.steady t.1 → C.steady t.2 → D.steady t.3 → F.steady t.4 →
        ⟦<Choice<(A, B, C, D, F)> as Parser<'src, I, O, E>>⟧.steady five.now }
    ensures six { let t = six.now.parsers in
        A.steady t.0 → B.steady t.1 → C.steady t.2 → D.steady t.3 → F.steady t.4 → G.steady t.5 →
        ⟦<Choice<(A, B, C, D, F, G)> as Parser<'src, I, O, E>>⟧.steady six.now }
    ensures seven { let t = seven.now.parsers in
        A.steady t.0 → B.steady t.1 → C.steady t.2 → D.steady t.3 → F.steady t.4 → G.steady t.5 →
        H.steady t.6 →
        ⟦<Choice<(A, B, C, D, F, G, H)> as Parser<'src, I, O, E>>⟧.steady seven.now }
    ensures eight { let t = eight.now.parsers in
        A.steady t.0 → B.steady t.1 → C.steady t.2 → D.steady t.3 → F.steady t.4 → G.steady t.5 →
        H.steady t.6 → J.steady t.7 →
        ⟦<Choice<(A, B, C, D, F, G, H, J)> as Parser<'src, I, O, E>>⟧.steady eight.now }
    ensures same_one { (x y : O) →
        ⟦<Choice<(A,)> as Parser<'src, I, O, E>>⟧.same one.now x y → A.same one.now.parsers.0 x y }
    ensures same_two { let t = two.now.parsers in OnlyByOne
        (⟦<Choice<(A, B)> as Parser<'src, I, O, E>>⟧.same two.now)
        (A.same t.0) (B.same t.1 ∷ []) }
    ensures same_three { let t = three.now.parsers in OnlyByOne
        (⟦<Choice<(A, B, C)> as Parser<'src, I, O, E>>⟧.same three.now)
        (A.same t.0) (B.same t.1 ∷ C.same t.2 ∷ []) }
    ensures same_four { let t = four.now.parsers in OnlyByOne
        (⟦<Choice<(A, B, C, D)> as Parser<'src, I, O, E>>⟧.same four.now)
        (A.same t.0) (B.same t.1 ∷ C.same t.2 ∷ D.same t.3 ∷ []) }
    ensures same_five { let t = five.now.parsers in OnlyByOne
        (⟦<Choice<(A, B, C, D, F)> as Parser<'src, I, O, E>>⟧.same five.now)
        (A.same t.0) (B.same t.1 ∷ C.same t.2 ∷ D.same t.3 ∷ F.same t.4 ∷ []) }
    ensures same_six { let t = six.now.parsers in OnlyByOne
        (⟦<Choice<(A, B, C, D, F, G)> as Parser<'src, I, O, E>>⟧.same six.now)
        (A.same t.0) (B.same t.1 ∷ C.same t.2 ∷ D.same t.3 ∷ F.same t.4 ∷ G.same t.5 ∷ []) }
    ensures same_seven { let t = seven.now.parsers in OnlyByOne
        (⟦<Choice<(A, B, C, D, F, G, H)> as Parser<'src, I, O, E>>⟧.same seven.now)
        (A.same t.0) (B.same t.1 ∷ C.same t.2 ∷ D.same t.3 ∷ F.same t.4 ∷ G.same t.5 ∷ H.same t.6 ∷ []) }
    ensures same_eight { let t = eight.now.parsers in OnlyByOne
        (⟦<Choice<(A, B, C, D, F, G, H, J)> as Parser<'src, I, O, E>>⟧.same eight.now)
        (A.same t.0) (B.same t.1 ∷ C.same t.2 ∷ D.same t.3 ∷ F.same t.4 ∷ G.same t.5 ∷ H.same t.6 ∷ J.same t.7 ∷ []) }
{}
