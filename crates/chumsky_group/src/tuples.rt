//! Groups that are tuples.
use crate::group::Group;
use crate::next::{check_after, emit_after};
use chumsky_input::extra::ParserExtra;
use chumsky_input::input::Input;
use chumsky_input::input_ref::InputRef;
use chumsky_input::stop::PResult;
use chumsky_parser::parser::{IsParser, Parser};

impl<I, OA, E, A: IsParser<I, OA, E>> IsParser<I, (OA,), E> for Group<(A,)> {}

impl<'src, I: Input<'src>, OA, E: ParserExtra<I>, A: Parser<'src, I, OA, E>> Parser<
    'src,
    I,
    (OA,),
    E,
> for Group<(A,)> {
    ghost use Rattle.std.specs.Prelude.{refl};
    ghost use Rattle.chumsky_group.specs.GroupLanguage.{regrouped_language, first-accepts, group-accepts};
    ghost use Rattle.chumsky_group.specs.Regrouped.{one_of_pairs, one_of_one, Grouped};
    ghost use Rattle.chumsky_group.specs.RegroupedLaws.{first-agrees, regrouped-ends, regrouped-agrees};

    ghost ready = { λ p. A.ready p.parsers.0 };

    ghost meaning = { λ p. Grouped one_of_pairs (A.meaning p.parsers.0) };

    ghost steady = { λ p. A.steady p.parsers.0 };

    ghost same = { λ p v w. A.same p.parsers.0 v.0 w.0 };

    ghost language = { λ p. let t = p.parsers in
        regrouped_language one_of_one (A.language t.0) };

    ghost ends_after_start = { λ p. regrouped-ends _ _ (A.ends_after_start p.parsers.0) };

    ghost agrees = { λ p s. regrouped-agrees _ _ _ (λ v w t. t) (first-agrees (A.agrees p.parsers.0 s)) };

    ghost accepts = { λ p. let t = p.parsers in
        group-accepts one_of_pairs one_of_one (λ v. refl) (first-accepts (A.ends_after_start t.0) (A.accepts t.0)) };

    #[inline(always)]
    fn go_emit(&self, inp: &mut InputRef<'src, '_, I, E>) -> PResult<(OA,)> {
        let a = self.parsers.0.go_emit(inp)?;
        Ok((a,))
    }

    #[inline(always)]
    fn go_check(&self, inp: &mut InputRef<'src, '_, I, E>) -> PResult<()> {
        self.parsers.0.go_check(inp)
    }
}

impl<I, OA, OB, E, A: IsParser<I, OA, E>, B: IsParser<I, OB, E>> IsParser<I, (OA, OB), E>
    for Group<(A, B)> {}

impl<
    'src,
    I: Input<'src>,
    OA: Drop,
    OB,
    E: ParserExtra<I>,
    A: Parser<'src, I, OA, E>,
    B: Parser<'src, I, OB, E>,
> Parser<'src, I, (OA, OB), E> for Group<(A, B)> {
    ghost use Rattle.chumsky_parser.specs.SequenceLanguage.{then_language, then-accepts};
    ghost use Rattle.chumsky_parser.specs.Chained.{SamePair};
    ghost use Rattle.chumsky_parser.specs.Laws.{sequence-ends, sequence-agrees};
    ghost use Rattle.chumsky_group.specs.Regrouped.{And};

    ghost ready = { λ p. A.ready p.parsers.0 × B.ready p.parsers.1 };

    ghost meaning = { λ p. And (A.meaning p.parsers.0) (B.meaning p.parsers.1) };

    ghost steady = { λ p. A.steady p.parsers.0 × B.steady p.parsers.1 };

    ghost same = { λ p. SamePair (A.same p.parsers.0) (B.same p.parsers.1) };

    ghost language = { λ p. then_language (A.language p.parsers.0) (B.language p.parsers.1) };

    ghost ends_after_start = { λ p. let t = p.parsers in
        sequence-ends _ _ (A.ends_after_start t.0) (B.ends_after_start t.1) };

    ghost agrees = { λ p s. let t = p.parsers in
        sequence-agrees _ _ (A.same t.0) (B.same t.1) (A.agrees t.0 s.0) (B.agrees t.1 s.1) };

    ghost accepts = { λ p. let t = p.parsers in
        then-accepts _ _ (A.ends_after_start t.0) (B.ends_after_start t.1) (A.accepts t.0) (B.accepts t.1) };

    #[inline(always)]
    fn go_emit(&self, inp: &mut InputRef<'src, '_, I, E>) -> PResult<(OA, OB)> {
        let one = self.parsers.0.go_emit(inp);
        emit_after(one, &self.parsers.1, inp)
    }

    #[inline(always)]
    fn go_check(&self, inp: &mut InputRef<'src, '_, I, E>) -> PResult<()> {
        let one = self.parsers.0.go_check(inp);
        check_after(one, &self.parsers.1, inp)
    }
}

impl<
    I,
    OA,
    OB,
    OC,
    E,
    A: IsParser<I, OA, E>,
    B: IsParser<I, OB, E>,
    C: IsParser<I, OC, E>,
> IsParser<I, (OA, OB, OC), E> for Group<(A, B, C)> {}

impl<
    'src,
    I: Input<'src>,
    OA: Drop,
    OB: Drop,
    OC,
    E: ParserExtra<I>,
    A: Parser<'src, I, OA, E>,
    B: Parser<'src, I, OB, E>,
    C: Parser<'src, I, OC, E>,
> Parser<'src, I, (OA, OB, OC), E> for Group<(A, B, C)> {
    ghost use Rattle.std.specs.Prelude.{refl};
    ghost use Rattle.chumsky_group.specs.GroupLanguage.{regrouped_language, first-accepts, and-accepts, group-accepts};
    ghost use Rattle.chumsky_parser.specs.SequenceLanguage.{then_language};
    ghost use Rattle.chumsky_parser.specs.Laws.{sequence-ends};
    ghost use Rattle.chumsky_group.specs.Regrouped.{three_of_pairs, pairs_of_three, And, Grouped};
    ghost use Rattle.chumsky_group.specs.RegroupedLaws.{first-agrees, and-agrees, regrouped-ends, regrouped-agrees};

    ghost ready = { λ p. let t = p.parsers in A.ready t.0 × B.ready t.1 × C.ready t.2 };

    ghost meaning = { λ p. let t = p.parsers in
        Grouped three_of_pairs (And (And (A.meaning t.0) (B.meaning t.1)) (C.meaning t.2)) };

    ghost steady = { λ p. let t = p.parsers in A.steady t.0 × B.steady t.1 × C.steady t.2 };

    ghost same = { λ p v w. let t = p.parsers in
        A.same t.0 v.0 w.0 × B.same t.1 v.1 w.1 × C.same t.2 v.2 w.2 };

    ghost language = { λ p. let t = p.parsers in
        regrouped_language pairs_of_three (then_language (then_language (A.language t.0) (B.language t.1)) (C.language t.2)) };

    ghost ends_after_start = { λ p. let t = p.parsers in
        regrouped-ends _ _ (sequence-ends _ _ (sequence-ends _ _ (A.ends_after_start t.0)
        (B.ends_after_start t.1)) (C.ends_after_start t.2)) };

    ghost agrees = { λ p s. let t = p.parsers in
        regrouped-agrees _ _ _ (λ _ _ r. three_of_pairs r) (and-agrees (and-agrees
        (first-agrees (A.agrees t.0 s.0)) (B.agrees t.1 s.1)) (C.agrees t.2 s.2)) };

    ghost accepts = { λ p. let t = p.parsers in
        group-accepts three_of_pairs pairs_of_three (λ v. refl) (and-accepts (and-accepts (first-accepts (A.ends_after_start t.0) (A.accepts t.0))
        (B.ends_after_start t.1) (B.accepts t.1))
        (C.ends_after_start t.2) (C.accepts t.2)) };

    #[inline(always)]
    fn go_emit(&self, inp: &mut InputRef<'src, '_, I, E>) -> PResult<(OA, OB, OC)> {
        let (a, b, c) = &self.parsers;
        let one = a.go_emit(inp);
        let two = emit_after(one, b, inp);
        let ((a, b), c) = emit_after(two, c, inp)?;
        Ok((a, b, c))
    }

    #[inline(always)]
    fn go_check(&self, inp: &mut InputRef<'src, '_, I, E>) -> PResult<()> {
        let (a, b, c) = &self.parsers;
        let one = a.go_check(inp);
        let two = check_after(one, b, inp);
        check_after(two, c, inp)
    }
}

impl<
    I,
    OA,
    OB,
    OC,
    OD,
    E,
    A: IsParser<I, OA, E>,
    B: IsParser<I, OB, E>,
    C: IsParser<I, OC, E>,
    D: IsParser<I, OD, E>,
> IsParser<I, (OA, OB, OC, OD), E> for Group<(A, B, C, D)> {}

impl<
    'src,
    I: Input<'src>,
    OA: Drop,
    OB: Drop,
    OC: Drop,
    OD,
    E: ParserExtra<I>,
    A: Parser<'src, I, OA, E>,
    B: Parser<'src, I, OB, E>,
    C: Parser<'src, I, OC, E>,
    D: Parser<'src, I, OD, E>,
> Parser<'src, I, (OA, OB, OC, OD), E> for Group<(A, B, C, D)> {
    ghost use Rattle.std.specs.Prelude.{refl};
    ghost use Rattle.chumsky_group.specs.GroupLanguage.{regrouped_language, first-accepts, and-accepts, group-accepts};
    ghost use Rattle.chumsky_parser.specs.SequenceLanguage.{then_language};
    ghost use Rattle.chumsky_parser.specs.Laws.{sequence-ends};
    ghost use Rattle.chumsky_group.specs.Regrouped.{four_of_pairs, pairs_of_four, And, Grouped};
    ghost use Rattle.chumsky_group.specs.RegroupedLaws.{first-agrees, and-agrees, regrouped-ends, regrouped-agrees};

    ghost ready = { λ p. let t = p.parsers in
        A.ready t.0 × B.ready t.1 × C.ready t.2 × D.ready t.3 };

    ghost meaning = { λ p. let t = p.parsers in
        Grouped four_of_pairs (And (And (And (A.meaning t.0) (B.meaning t.1)) (C.meaning t.2))
        (D.meaning t.3)) };

    ghost steady = { λ p. let t = p.parsers in
        A.steady t.0 × B.steady t.1 × C.steady t.2 × D.steady t.3 };

    ghost same = { λ p v w. let t = p.parsers in
        A.same t.0 v.0 w.0 × B.same t.1 v.1 w.1 × C.same t.2 v.2 w.2 × D.same t.3 v.3 w.3 };

    ghost language = { λ p. let t = p.parsers in
        regrouped_language pairs_of_four (then_language (then_language (then_language (A.language t.0) (B.language t.1)) (C.language t.2)) (D.language t.3)) };

    ghost ends_after_start = { λ p. let t = p.parsers in
        regrouped-ends _ _ (sequence-ends _ _ (sequence-ends _ _ (sequence-ends _ _
        (A.ends_after_start t.0) (B.ends_after_start t.1)) (C.ends_after_start t.2))
        (D.ends_after_start t.3)) };

    ghost agrees = { λ p s. let t = p.parsers in
        regrouped-agrees _ _ _ (λ _ _ r. four_of_pairs r) (and-agrees (and-agrees (and-agrees
        (first-agrees (A.agrees t.0 s.0)) (B.agrees t.1 s.1)) (C.agrees t.2 s.2))
        (D.agrees t.3 s.3)) };

    ghost accepts = { λ p. let t = p.parsers in
        group-accepts four_of_pairs pairs_of_four (λ v. refl) (and-accepts (and-accepts (and-accepts (first-accepts (A.ends_after_start t.0) (A.accepts t.0))
        (B.ends_after_start t.1) (B.accepts t.1))
        (C.ends_after_start t.2) (C.accepts t.2))
        (D.ends_after_start t.3) (D.accepts t.3)) };

    #[inline(always)]
    fn go_emit(&self, inp: &mut InputRef<'src, '_, I, E>) -> PResult<(OA, OB, OC, OD)> {
        let (a, b, c, d) = &self.parsers;
        let one = a.go_emit(inp);
        let two = emit_after(one, b, inp);
        let three = emit_after(two, c, inp);
        let (((a, b), c), d) = emit_after(three, d, inp)?;
        Ok((a, b, c, d))
    }

    #[inline(always)]
    fn go_check(&self, inp: &mut InputRef<'src, '_, I, E>) -> PResult<()> {
        let (a, b, c, d) = &self.parsers;
        let one = a.go_check(inp);
        let two = check_after(one, b, inp);
        let three = check_after(two, c, inp);
        check_after(three, d, inp)
    }
}

impl<
    I,
    OA,
    OB,
    OC,
    OD,
    OF,
    E,
    A: IsParser<I, OA, E>,
    B: IsParser<I, OB, E>,
    C: IsParser<I, OC, E>,
    D: IsParser<I, OD, E>,
    F: IsParser<I, OF, E>,
> IsParser<I, (OA, OB, OC, OD, OF), E> for Group<(A, B, C, D, F)> {}

impl<
    'src,
    I: Input<'src>,
    OA: Drop,
    OB: Drop,
    OC: Drop,
    OD: Drop,
    OF,
    E: ParserExtra<I>,
    A: Parser<'src, I, OA, E>,
    B: Parser<'src, I, OB, E>,
    C: Parser<'src, I, OC, E>,
    D: Parser<'src, I, OD, E>,
    F: Parser<'src, I, OF, E>,
> Parser<'src, I, (OA, OB, OC, OD, OF), E> for Group<(A, B, C, D, F)> {
    ghost use Rattle.std.specs.Prelude.{refl};
    ghost use Rattle.chumsky_group.specs.GroupLanguage.{regrouped_language, first-accepts, and-accepts, group-accepts};
    ghost use Rattle.chumsky_parser.specs.SequenceLanguage.{then_language};
    ghost use Rattle.chumsky_parser.specs.Laws.{sequence-ends};
    ghost use Rattle.chumsky_group.specs.Regrouped.{five_of_pairs, pairs_of_five, And, Grouped};
    ghost use Rattle.chumsky_group.specs.RegroupedLaws.{first-agrees, and-agrees, regrouped-ends, regrouped-agrees};

    ghost ready = { λ p. let t = p.parsers in
        A.ready t.0 × B.ready t.1 × C.ready t.2 × D.ready t.3 × F.ready t.4 };

    ghost meaning = { λ p. let t = p.parsers in
        Grouped five_of_pairs (And (And (And (And (A.meaning t.0) (B.meaning t.1)) (C.meaning t.2))
        (D.meaning t.3)) (F.meaning t.4)) };

    ghost steady = { λ p. let t = p.parsers in
        A.steady t.0 × B.steady t.1 × C.steady t.2 × D.steady t.3 × F.steady t.4 };

    ghost same = { λ p v w. let t = p.parsers in
        A.same t.0 v.0 w.0 × B.same t.1 v.1 w.1 × C.same t.2 v.2 w.2 × D.same t.3 v.3 w.3 ×
        F.same t.4 v.4 w.4 };

    ghost language = { λ p. let t = p.parsers in
        regrouped_language pairs_of_five (then_language (then_language (then_language (then_language (A.language t.0) (B.language t.1)) (C.language t.2)) (D.language t.3)) (F.language t.4)) };

    ghost ends_after_start = { λ p. let t = p.parsers in
        regrouped-ends _ _ (sequence-ends _ _ (sequence-ends _ _ (sequence-ends _ _
        (sequence-ends _ _ (A.ends_after_start t.0) (B.ends_after_start t.1))
        (C.ends_after_start t.2)) (D.ends_after_start t.3)) (F.ends_after_start t.4)) };

    ghost agrees = { λ p s. let t = p.parsers in
        regrouped-agrees _ _ _ (λ _ _ r. five_of_pairs r) (and-agrees (and-agrees (and-agrees
        (and-agrees (first-agrees (A.agrees t.0 s.0)) (B.agrees t.1 s.1)) (C.agrees t.2 s.2))
        (D.agrees t.3 s.3)) (F.agrees t.4 s.4)) };

    ghost accepts = { λ p. let t = p.parsers in
        group-accepts five_of_pairs pairs_of_five (λ v. refl) (and-accepts (and-accepts (and-accepts (and-accepts (first-accepts (A.ends_after_start t.0) (A.accepts t.0))
        (B.ends_after_start t.1) (B.accepts t.1))
        (C.ends_after_start t.2) (C.accepts t.2))
        (D.ends_after_start t.3) (D.accepts t.3))
        (F.ends_after_start t.4) (F.accepts t.4)) };

    #[inline(always)]
    fn go_emit(&self, inp: &mut InputRef<'src, '_, I, E>) -> PResult<(OA, OB, OC, OD, OF)> {
        let (a, b, c, d, f) = &self.parsers;
        let one = a.go_emit(inp);
        let two = emit_after(one, b, inp);
        let three = emit_after(two, c, inp);
        let four = emit_after(three, d, inp);
        let ((((a, b), c), d), f) = emit_after(four, f, inp)?;
        Ok((a, b, c, d, f))
    }

    #[inline(always)]
    fn go_check(&self, inp: &mut InputRef<'src, '_, I, E>) -> PResult<()> {
        let (a, b, c, d, f) = &self.parsers;
        let one = a.go_check(inp);
        let two = check_after(one, b, inp);
        let three = check_after(two, c, inp);
        let four = check_after(three, d, inp);
        check_after(four, f, inp)
    }
}

impl<
    I,
    OA,
    OB,
    OC,
    OD,
    OF,
    OG,
    E,
    A: IsParser<I, OA, E>,
    B: IsParser<I, OB, E>,
    C: IsParser<I, OC, E>,
    D: IsParser<I, OD, E>,
    F: IsParser<I, OF, E>,
    G: IsParser<I, OG, E>,
> IsParser<I, (OA, OB, OC, OD, OF, OG), E> for Group<(A, B, C, D, F, G)> {}

impl<
    'src,
    I: Input<'src>,
    OA: Drop,
    OB: Drop,
    OC: Drop,
    OD: Drop,
    OF: Drop,
    OG,
    E: ParserExtra<I>,
    A: Parser<'src, I, OA, E>,
    B: Parser<'src, I, OB, E>,
    C: Parser<'src, I, OC, E>,
    D: Parser<'src, I, OD, E>,
    F: Parser<'src, I, OF, E>,
    G: Parser<'src, I, OG, E>,
> Parser<'src, I, (OA, OB, OC, OD, OF, OG), E> for Group<(A, B, C, D, F, G)> {
    ghost use Rattle.std.specs.Prelude.{refl};
    ghost use Rattle.chumsky_group.specs.GroupLanguage.{regrouped_language, first-accepts, and-accepts, group-accepts};
    ghost use Rattle.chumsky_parser.specs.SequenceLanguage.{then_language};
    ghost use Rattle.chumsky_parser.specs.Laws.{sequence-ends};
    ghost use Rattle.chumsky_group.specs.Regrouped.{six_of_pairs, pairs_of_six, And, Grouped};
    ghost use Rattle.chumsky_group.specs.RegroupedLaws.{first-agrees, and-agrees, regrouped-ends, regrouped-agrees};

    ghost ready = { λ p. let t = p.parsers in
        A.ready t.0 × B.ready t.1 × C.ready t.2 × D.ready t.3 × F.ready t.4 × G.ready t.5 };

    ghost meaning = { λ p. let t = p.parsers in
        Grouped six_of_pairs (And (And (And (And (And (A.meaning t.0) (B.meaning t.1))
        (C.meaning t.2)) (D.meaning t.3)) (F.meaning t.4)) (G.meaning t.5)) };

    ghost steady = { λ p. let t = p.parsers in
        A.steady t.0 × B.steady t.1 × C.steady t.2 × D.steady t.3 × F.steady t.4 × G.steady t.5 };

    ghost same = { λ p v w. let t = p.parsers in
        A.same t.0 v.0 w.0 × B.same t.1 v.1 w.1 × C.same t.2 v.2 w.2 × D.same t.3 v.3 w.3 ×
        F.same t.4 v.4 w.4 × G.same t.5 v.5 w.5 };

    ghost language = { λ p. let t = p.parsers in
        regrouped_language pairs_of_six (then_language (then_language (then_language (then_language (then_language (A.language t.0) (B.language t.1)) (C.language t.2)) (D.language t.3)) (F.language t.4)) (G.language t.5)) };

    ghost ends_after_start = { λ p. let t = p.parsers in
        regrouped-ends _ _ (sequence-ends _ _ (sequence-ends _ _ (sequence-ends _ _
        (sequence-ends _ _ (sequence-ends _ _ (A.ends_after_start t.0)
        (B.ends_after_start t.1)) (C.ends_after_start t.2)) (D.ends_after_start t.3))
        (F.ends_after_start t.4)) (G.ends_after_start t.5)) };

    ghost agrees = { λ p s. let t = p.parsers in
        regrouped-agrees _ _ _ (λ _ _ r. six_of_pairs r) (and-agrees (and-agrees (and-agrees
        (and-agrees (and-agrees (first-agrees (A.agrees t.0 s.0)) (B.agrees t.1 s.1))
        (C.agrees t.2 s.2)) (D.agrees t.3 s.3)) (F.agrees t.4 s.4)) (G.agrees t.5 s.5)) };

    ghost accepts = { λ p. let t = p.parsers in
        group-accepts six_of_pairs pairs_of_six (λ v. refl) (and-accepts (and-accepts (and-accepts (and-accepts (and-accepts (first-accepts (A.ends_after_start t.0) (A.accepts t.0))
        (B.ends_after_start t.1) (B.accepts t.1))
        (C.ends_after_start t.2) (C.accepts t.2))
        (D.ends_after_start t.3) (D.accepts t.3))
        (F.ends_after_start t.4) (F.accepts t.4))
        (G.ends_after_start t.5) (G.accepts t.5)) };

    #[inline(always)]
    fn go_emit(&self, inp: &mut InputRef<'src, '_, I, E>) -> PResult<(OA, OB, OC, OD, OF, OG)> {
        let (a, b, c, d, f, g) = &self.parsers;
        let one = a.go_emit(inp);
        let two = emit_after(one, b, inp);
        let three = emit_after(two, c, inp);
        let four = emit_after(three, d, inp);
        let five = emit_after(four, f, inp);
        let (((((a, b), c), d), f), g) = emit_after(five, g, inp)?;
        Ok((a, b, c, d, f, g))
    }

    #[inline(always)]
    fn go_check(&self, inp: &mut InputRef<'src, '_, I, E>) -> PResult<()> {
        let (a, b, c, d, f, g) = &self.parsers;
        let one = a.go_check(inp);
        let two = check_after(one, b, inp);
        let three = check_after(two, c, inp);
        let four = check_after(three, d, inp);
        let five = check_after(four, f, inp);
        check_after(five, g, inp)
    }
}

impl<
    I,
    OA,
    OB,
    OC,
    OD,
    OF,
    OG,
    OH,
    E,
    A: IsParser<I, OA, E>,
    B: IsParser<I, OB, E>,
    C: IsParser<I, OC, E>,
    D: IsParser<I, OD, E>,
    F: IsParser<I, OF, E>,
    G: IsParser<I, OG, E>,
    H: IsParser<I, OH, E>,
> IsParser<I, (OA, OB, OC, OD, OF, OG, OH), E> for Group<(A, B, C, D, F, G, H)> {}

impl<
    'src,
    I: Input<'src>,
    OA: Drop,
    OB: Drop,
    OC: Drop,
    OD: Drop,
    OF: Drop,
    OG: Drop,
    OH,
    E: ParserExtra<I>,
    A: Parser<'src, I, OA, E>,
    B: Parser<'src, I, OB, E>,
    C: Parser<'src, I, OC, E>,
    D: Parser<'src, I, OD, E>,
    F: Parser<'src, I, OF, E>,
    G: Parser<'src, I, OG, E>,
    H: Parser<'src, I, OH, E>,
> Parser<'src, I, (OA, OB, OC, OD, OF, OG, OH), E> for Group<(A, B, C, D, F, G, H)> {
    ghost use Rattle.std.specs.Prelude.{refl};
    ghost use Rattle.chumsky_group.specs.GroupLanguage.{regrouped_language, first-accepts, and-accepts, group-accepts};
    ghost use Rattle.chumsky_parser.specs.SequenceLanguage.{then_language};
    ghost use Rattle.chumsky_parser.specs.Laws.{sequence-ends};
    ghost use Rattle.chumsky_group.specs.Regrouped.{seven_of_pairs, pairs_of_seven, And, Grouped};
    ghost use Rattle.chumsky_group.specs.RegroupedLaws.{first-agrees, and-agrees, regrouped-ends, regrouped-agrees};

    ghost ready = { λ p. let t = p.parsers in
        A.ready t.0 × B.ready t.1 × C.ready t.2 × D.ready t.3 × F.ready t.4 × G.ready t.5 ×
        H.ready t.6 };

    ghost meaning = { λ p. let t = p.parsers in
        Grouped seven_of_pairs (And (And (And (And (And (And (A.meaning t.0) (B.meaning t.1))
        (C.meaning t.2)) (D.meaning t.3)) (F.meaning t.4)) (G.meaning t.5)) (H.meaning t.6)) };

    ghost steady = { λ p. let t = p.parsers in
        A.steady t.0 × B.steady t.1 × C.steady t.2 × D.steady t.3 × F.steady t.4 × G.steady t.5 ×
        H.steady t.6 };

    ghost same = { λ p v w. let t = p.parsers in
        A.same t.0 v.0 w.0 × B.same t.1 v.1 w.1 × C.same t.2 v.2 w.2 × D.same t.3 v.3 w.3 ×
        F.same t.4 v.4 w.4 × G.same t.5 v.5 w.5 × H.same t.6 v.6 w.6 };

    ghost language = { λ p. let t = p.parsers in
        regrouped_language pairs_of_seven (then_language (then_language (then_language (then_language (then_language (then_language (A.language t.0) (B.language t.1)) (C.language t.2)) (D.language t.3)) (F.language t.4)) (G.language t.5)) (H.language t.6)) };

    ghost ends_after_start = { λ p. let t = p.parsers in
        regrouped-ends _ _ (sequence-ends _ _ (sequence-ends _ _ (sequence-ends _ _
        (sequence-ends _ _ (sequence-ends _ _ (sequence-ends _ _ (A.ends_after_start t.0)
        (B.ends_after_start t.1)) (C.ends_after_start t.2)) (D.ends_after_start t.3))
        (F.ends_after_start t.4)) (G.ends_after_start t.5)) (H.ends_after_start t.6)) };

    ghost agrees = { λ p s. let t = p.parsers in
        regrouped-agrees _ _ _ (λ _ _ r. seven_of_pairs r) (and-agrees (and-agrees (and-agrees
        (and-agrees (and-agrees (and-agrees (first-agrees (A.agrees t.0 s.0))
        (B.agrees t.1 s.1)) (C.agrees t.2 s.2)) (D.agrees t.3 s.3)) (F.agrees t.4 s.4))
        (G.agrees t.5 s.5)) (H.agrees t.6 s.6)) };

    ghost accepts = { λ p. let t = p.parsers in
        group-accepts seven_of_pairs pairs_of_seven (λ v. refl) (and-accepts (and-accepts (and-accepts (and-accepts (and-accepts (and-accepts (first-accepts (A.ends_after_start t.0) (A.accepts t.0))
        (B.ends_after_start t.1) (B.accepts t.1))
        (C.ends_after_start t.2) (C.accepts t.2))
        (D.ends_after_start t.3) (D.accepts t.3))
        (F.ends_after_start t.4) (F.accepts t.4))
        (G.ends_after_start t.5) (G.accepts t.5))
        (H.ends_after_start t.6) (H.accepts t.6)) };

    #[inline(always)]
    fn go_emit(&self, inp: &mut InputRef<'src, '_, I, E>) -> PResult<(OA, OB, OC, OD, OF, OG, OH)> {
        let (a, b, c, d, f, g, h) = &self.parsers;
        let one = a.go_emit(inp);
        let two = emit_after(one, b, inp);
        let three = emit_after(two, c, inp);
        let four = emit_after(three, d, inp);
        let five = emit_after(four, f, inp);
        let six = emit_after(five, g, inp);
        let ((((((a, b), c), d), f), g), h) = emit_after(six, h, inp)?;
        Ok((a, b, c, d, f, g, h))
    }

    #[inline(always)]
    fn go_check(&self, inp: &mut InputRef<'src, '_, I, E>) -> PResult<()> {
        let (a, b, c, d, f, g, h) = &self.parsers;
        let one = a.go_check(inp);
        let two = check_after(one, b, inp);
        let three = check_after(two, c, inp);
        let four = check_after(three, d, inp);
        let five = check_after(four, f, inp);
        let six = check_after(five, g, inp);
        check_after(six, h, inp)
    }
}

impl<
    I,
    OA,
    OB,
    OC,
    OD,
    OF,
    OG,
    OH,
    OJ,
    E,
    A: IsParser<I, OA, E>,
    B: IsParser<I, OB, E>,
    C: IsParser<I, OC, E>,
    D: IsParser<I, OD, E>,
    F: IsParser<I, OF, E>,
    G: IsParser<I, OG, E>,
    H: IsParser<I, OH, E>,
    J: IsParser<I, OJ, E>,
> IsParser<I, (OA, OB, OC, OD, OF, OG, OH, OJ), E> for Group<(A, B, C, D, F, G, H, J)> {}

impl<
    'src,
    I: Input<'src>,
    OA: Drop,
    OB: Drop,
    OC: Drop,
    OD: Drop,
    OF: Drop,
    OG: Drop,
    OH: Drop,
    OJ,
    E: ParserExtra<I>,
    A: Parser<'src, I, OA, E>,
    B: Parser<'src, I, OB, E>,
    C: Parser<'src, I, OC, E>,
    D: Parser<'src, I, OD, E>,
    F: Parser<'src, I, OF, E>,
    G: Parser<'src, I, OG, E>,
    H: Parser<'src, I, OH, E>,
    J: Parser<'src, I, OJ, E>,
> Parser<'src, I, (OA, OB, OC, OD, OF, OG, OH, OJ), E> for Group<(A, B, C, D, F, G, H, J)> {
    ghost use Rattle.std.specs.Prelude.{refl};
    ghost use Rattle.chumsky_group.specs.GroupLanguage.{regrouped_language, first-accepts, and-accepts, group-accepts};
    ghost use Rattle.chumsky_parser.specs.SequenceLanguage.{then_language};
    ghost use Rattle.chumsky_parser.specs.Laws.{sequence-ends};
    ghost use Rattle.chumsky_group.specs.Regrouped.{eight_of_pairs, pairs_of_eight, And, Grouped};
    ghost use Rattle.chumsky_group.specs.RegroupedLaws.{first-agrees, and-agrees, regrouped-ends, regrouped-agrees};

    ghost ready = { λ p. let t = p.parsers in
        A.ready t.0 × B.ready t.1 × C.ready t.2 × D.ready t.3 × F.ready t.4 × G.ready t.5 ×
        H.ready t.6 × J.ready t.7 };

    ghost meaning = { λ p. let t = p.parsers in
        Grouped eight_of_pairs (And (And (And (And (And (And (And (A.meaning t.0) (B.meaning t.1))
        (C.meaning t.2)) (D.meaning t.3)) (F.meaning t.4)) (G.meaning t.5)) (H.meaning t.6))
        (J.meaning t.7)) };

    ghost steady = { λ p. let t = p.parsers in
        A.steady t.0 × B.steady t.1 × C.steady t.2 × D.steady t.3 × F.steady t.4 × G.steady t.5 ×
        H.steady t.6 × J.steady t.7 };

    ghost same = { λ p v w. let t = p.parsers in
        A.same t.0 v.0 w.0 × B.same t.1 v.1 w.1 × C.same t.2 v.2 w.2 × D.same t.3 v.3 w.3 ×
        F.same t.4 v.4 w.4 × G.same t.5 v.5 w.5 × H.same t.6 v.6 w.6 × J.same t.7 v.7 w.7 };

    ghost language = { λ p. let t = p.parsers in
        regrouped_language pairs_of_eight (then_language (then_language (then_language (then_language (then_language (then_language (then_language (A.language t.0) (B.language t.1)) (C.language t.2)) (D.language t.3)) (F.language t.4)) (G.language t.5)) (H.language t.6)) (J.language t.7)) };

    ghost ends_after_start = { λ p. let t = p.parsers in
        regrouped-ends _ _ (sequence-ends _ _ (sequence-ends _ _ (sequence-ends _ _
        (sequence-ends _ _ (sequence-ends _ _ (sequence-ends _ _ (sequence-ends _ _
        (A.ends_after_start t.0) (B.ends_after_start t.1)) (C.ends_after_start t.2))
        (D.ends_after_start t.3)) (F.ends_after_start t.4)) (G.ends_after_start t.5))
        (H.ends_after_start t.6)) (J.ends_after_start t.7)) };

    ghost agrees = { λ p s. let t = p.parsers in
        regrouped-agrees _ _ _ (λ _ _ r. eight_of_pairs r) (and-agrees (and-agrees (and-agrees
        (and-agrees (and-agrees (and-agrees (and-agrees (first-agrees (A.agrees t.0 s.0))
        (B.agrees t.1 s.1)) (C.agrees t.2 s.2)) (D.agrees t.3 s.3)) (F.agrees t.4 s.4))
        (G.agrees t.5 s.5)) (H.agrees t.6 s.6)) (J.agrees t.7 s.7)) };

    ghost accepts = { λ p. let t = p.parsers in
        group-accepts eight_of_pairs pairs_of_eight (λ v. refl) (and-accepts (and-accepts (and-accepts (and-accepts (and-accepts (and-accepts (and-accepts (first-accepts (A.ends_after_start t.0) (A.accepts t.0))
        (B.ends_after_start t.1) (B.accepts t.1))
        (C.ends_after_start t.2) (C.accepts t.2))
        (D.ends_after_start t.3) (D.accepts t.3))
        (F.ends_after_start t.4) (F.accepts t.4))
        (G.ends_after_start t.5) (G.accepts t.5))
        (H.ends_after_start t.6) (H.accepts t.6))
        (J.ends_after_start t.7) (J.accepts t.7)) };

    #[inline(always)]
    fn go_emit(
        &self,
        inp: &mut InputRef<'src, '_, I, E>,
    ) -> PResult<(OA, OB, OC, OD, OF, OG, OH, OJ)> {
        let (a, b, c, d, f, g, h, j) = &self.parsers;
        let one = a.go_emit(inp);
        let two = emit_after(one, b, inp);
        let three = emit_after(two, c, inp);
        let four = emit_after(three, d, inp);
        let five = emit_after(four, f, inp);
        let six = emit_after(five, g, inp);
        let seven = emit_after(six, h, inp);
        let (((((((a, b), c), d), f), g), h), j) = emit_after(seven, j, inp)?;
        Ok((a, b, c, d, f, g, h, j))
    }

    #[inline(always)]
    fn go_check(&self, inp: &mut InputRef<'src, '_, I, E>) -> PResult<()> {
        let (a, b, c, d, f, g, h, j) = &self.parsers;
        let one = a.go_check(inp);
        let two = check_after(one, b, inp);
        let three = check_after(two, c, inp);
        let four = check_after(three, d, inp);
        let five = check_after(four, f, inp);
        let six = check_after(five, g, inp);
        let seven = check_after(six, h, inp);
        check_after(seven, j, inp)
    }
}
