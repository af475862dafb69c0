//! Choice among the parsers of a tuple.
use crate::choice::Choice;
use crate::step::{check_next, emit_next};
use chumsky_input::extra::ParserExtra;
use chumsky_input::input::Input;
use chumsky_input::input_ref::InputRef;
use chumsky_input::stop::PResult;
use chumsky_parser::parser::{IsParser, Parser};

impl<I, O, E, A: IsParser<I, O, E>> IsParser<I, O, E> for Choice<(A,)> {}

impl<'src, I: Input<'src>, O, E: ParserExtra<I>, A: Parser<'src, I, O, E>> Parser<'src, I, O, E>
    for Choice<(A,)> {
    ghost ready = { λ p. A.ready p.parsers.0 };

    ghost meaning = { λ p errors states. A.meaning p.parsers.0 errors states };

    ghost steady = { λ p. A.steady p.parsers.0 };

    ghost same = { λ p. A.same p.parsers.0 };

    ghost language = { λ p. A.language p.parsers.0 };

    ghost ends_after_start = { λ p. A.ends_after_start p.parsers.0 };

    ghost agrees = { λ p s. A.agrees p.parsers.0 s };

    ghost accepts = { λ p. A.accepts p.parsers.0 };

    #[inline(always)]
    fn go_emit(&self, inp: &mut InputRef<'src, '_, I, E>) -> PResult<O> {
        self.parsers.0.go_emit(inp)
    }

    #[inline(always)]
    fn go_check(&self, inp: &mut InputRef<'src, '_, I, E>) -> PResult<()> {
        self.parsers.0.go_check(inp)
    }
}

impl<I, O, E, A: IsParser<I, O, E>, B: IsParser<I, O, E>> IsParser<I, O, E> for Choice<(A, B)> {}

impl<
    'src,
    I: Input<'src>,
    O,
    E: ParserExtra<I>,
    A: Parser<'src, I, O, E>,
    B: Parser<'src, I, O, E>,
> Parser<'src, I, O, E> for Choice<(A, B)> {
    ghost use Rattle.chumsky_parser.specs.ChoiceLanguage.{or_language, last-accepts, next-accepts};
    ghost use Rattle.std.specs.Prelude.{[], ◌∷◌};
    ghost use Rattle.chumsky_parser.specs.Choice.{SameByOne};
    ghost use Rattle.chumsky_parser.specs.ChoiceLaws.{first_of-ends, first_of-agrees, none-end, and-ends, none-agree, and-agrees};
    ghost use Rattle.chumsky_choice.specs.Alternatives.{DoesFirst};

    ghost ready = { λ p. let t = p.parsers in A.ready t.0 × B.ready t.1 };

    ghost meaning = { λ p. let t = p.parsers in DoesFirst (A.meaning t.0) (B.meaning t.1 ∷ []) };

    ghost steady = { λ p. let t = p.parsers in A.steady t.0 × B.steady t.1 };

    ghost same = { λ p. let t = p.parsers in SameByOne (A.same t.0) (B.same t.1 ∷ []) };

    ghost language = { λ p. let t = p.parsers in
        or_language (A.language t.0) (B.language t.1) };

    ghost ends_after_start = { λ p. let t = p.parsers in
        first_of-ends _ _ _ _ _ (and-ends (A.ends_after_start t.0)
        (and-ends (B.ends_after_start t.1) none-end)) };

    ghost agrees = { λ p s. let t = p.parsers in
        first_of-agrees _ _ _ (A.same t.0) (B.same t.1 ∷ []) _ _ (and-agrees (A.agrees t.0 s.0)
        (and-agrees (B.agrees t.1 s.1) none-agree)) };

    ghost accepts = { λ p. let t = p.parsers in
        (next-accepts _ _ (λ q. q.1) _ (A.accepts t.0) _ _
        (last-accepts _ _ (λ q. q.1) _ (B.accepts t.1))).first_of };

    #[inline(always)]
    fn go_emit(&self, inp: &mut InputRef<'src, '_, I, E>) -> PResult<O> {
        let before = inp.save()?;
        let tried = self.parsers.0.go_emit(inp);
        emit_next(tried, &self.parsers.1, inp, &before)
    }

    #[inline(always)]
    fn go_check(&self, inp: &mut InputRef<'src, '_, I, E>) -> PResult<()> {
        let before = inp.save()?;
        let tried = self.parsers.0.go_check(inp);
        check_next(tried, &self.parsers.1, inp, &before)
    }
}

impl<I, O, E, A: IsParser<I, O, E>, B: IsParser<I, O, E>, C: IsParser<I, O, E>> IsParser<I, O, E>
    for Choice<(A, B, C)> {}

impl<
    'src,
    I: Input<'src>,
    O,
    E: ParserExtra<I>,
    A: Parser<'src, I, O, E>,
    B: Parser<'src, I, O, E>,
    C: Parser<'src, I, O, E>,
> Parser<'src, I, O, E> for Choice<(A, B, C)> {
    ghost use Rattle.chumsky_parser.specs.ChoiceLanguage.{or_language, last-accepts, next-accepts};
    ghost use Rattle.std.specs.Prelude.{[], ◌∷◌};
    ghost use Rattle.chumsky_parser.specs.Choice.{SameByOne};
    ghost use Rattle.chumsky_parser.specs.ChoiceLaws.{first_of-ends, first_of-agrees, none-end, and-ends, none-agree, and-agrees};
    ghost use Rattle.chumsky_choice.specs.Alternatives.{DoesFirst};

    ghost ready = { λ p. let t = p.parsers in A.ready t.0 × B.ready t.1 × C.ready t.2 };

    ghost meaning = { λ p. let t = p.parsers in
        DoesFirst (A.meaning t.0) (B.meaning t.1 ∷ C.meaning t.2 ∷ []) };

    ghost steady = { λ p. let t = p.parsers in A.steady t.0 × B.steady t.1 × C.steady t.2 };

    ghost same = { λ p. let t = p.parsers in SameByOne (A.same t.0) (B.same t.1 ∷ C.same t.2 ∷ []) };

    ghost language = { λ p. let t = p.parsers in
        or_language (A.language t.0)
        (or_language (B.language t.1) (C.language t.2)) };

    ghost ends_after_start = { λ p. let t = p.parsers in
        first_of-ends _ _ _ _ _ (and-ends (A.ends_after_start t.0)
        (and-ends (B.ends_after_start t.1) (and-ends (C.ends_after_start t.2) none-end))) };

    ghost agrees = { λ p s. let t = p.parsers in
        first_of-agrees _ _ _ (A.same t.0) (B.same t.1 ∷ C.same t.2 ∷ []) _ _
        (and-agrees (A.agrees t.0 s.0) (and-agrees (B.agrees t.1 s.1)
        (and-agrees (C.agrees t.2 s.2) none-agree))) };

    ghost accepts = { λ p. let t = p.parsers in
        (next-accepts _ _ (λ q. q.1) _ (A.accepts t.0) _ _
        (next-accepts _ _ (λ q. q.1) _ (B.accepts t.1) _ _
        (last-accepts _ _ (λ q. q.1) _ (C.accepts t.2)))).first_of };

    #[inline(always)]
    fn go_emit(&self, inp: &mut InputRef<'src, '_, I, E>) -> PResult<O> {
        let before = inp.save()?;
        let tried = self.parsers.0.go_emit(inp);
        let tried = emit_next(tried, &self.parsers.1, inp, &before);
        emit_next(tried, &self.parsers.2, inp, &before)
    }

    #[inline(always)]
    fn go_check(&self, inp: &mut InputRef<'src, '_, I, E>) -> PResult<()> {
        let before = inp.save()?;
        let tried = self.parsers.0.go_check(inp);
        let tried = check_next(tried, &self.parsers.1, inp, &before);
        check_next(tried, &self.parsers.2, inp, &before)
    }
}

impl<
    I,
    O,
    E,
    A: IsParser<I, O, E>,
    B: IsParser<I, O, E>,
    C: IsParser<I, O, E>,
    D: IsParser<I, O, E>,
> IsParser<I, O, E> for Choice<(A, B, C, D)> {}

impl<
    'src,
    I: Input<'src>,
    O,
    E: ParserExtra<I>,
    A: Parser<'src, I, O, E>,
    B: Parser<'src, I, O, E>,
    C: Parser<'src, I, O, E>,
    D: Parser<'src, I, O, E>,
> Parser<'src, I, O, E> for Choice<(A, B, C, D)> {
    ghost use Rattle.chumsky_parser.specs.ChoiceLanguage.{or_language, last-accepts, next-accepts};
    ghost use Rattle.std.specs.Prelude.{[], ◌∷◌};
    ghost use Rattle.chumsky_parser.specs.Choice.{SameByOne};
    ghost use Rattle.chumsky_parser.specs.ChoiceLaws.{first_of-ends, first_of-agrees, none-end, and-ends, none-agree, and-agrees};
    ghost use Rattle.chumsky_choice.specs.Alternatives.{DoesFirst};

    ghost ready = { λ p. let t = p.parsers in
        A.ready t.0 × B.ready t.1 × C.ready t.2 × D.ready t.3 };

    ghost meaning = { λ p. let t = p.parsers in
        DoesFirst (A.meaning t.0) (B.meaning t.1 ∷ C.meaning t.2 ∷ D.meaning t.3 ∷ []) };

    ghost steady = { λ p. let t = p.parsers in
        A.steady t.0 × B.steady t.1 × C.steady t.2 × D.steady t.3 };

    ghost same = { λ p. let t = p.parsers in
        SameByOne (A.same t.0) (B.same t.1 ∷ C.same t.2 ∷ D.same t.3 ∷ []) };

    ghost language = { λ p. let t = p.parsers in
        or_language (A.language t.0)
        (or_language (B.language t.1)
        (or_language (C.language t.2) (D.language t.3))) };

    ghost ends_after_start = { λ p. let t = p.parsers in
        first_of-ends _ _ _ _ _ (and-ends (A.ends_after_start t.0)
        (and-ends (B.ends_after_start t.1) (and-ends (C.ends_after_start t.2)
        (and-ends (D.ends_after_start t.3) none-end)))) };

    ghost agrees = { λ p s. let t = p.parsers in
        first_of-agrees _ _ _ (A.same t.0) (B.same t.1 ∷ C.same t.2 ∷ D.same t.3 ∷ []) _ _
        (and-agrees (A.agrees t.0 s.0) (and-agrees (B.agrees t.1 s.1)
        (and-agrees (C.agrees t.2 s.2) (and-agrees (D.agrees t.3 s.3) none-agree)))) };

    ghost accepts = { λ p. let t = p.parsers in
        (next-accepts _ _ (λ q. q.1) _ (A.accepts t.0) _ _
        (next-accepts _ _ (λ q. q.1) _ (B.accepts t.1) _ _
        (next-accepts _ _ (λ q. q.1) _ (C.accepts t.2) _ _
        (last-accepts _ _ (λ q. q.1) _ (D.accepts t.3))))).first_of };

    #[inline(always)]
    fn go_emit(&self, inp: &mut InputRef<'src, '_, I, E>) -> PResult<O> {
        let before = inp.save()?;
        let tried = self.parsers.0.go_emit(inp);
        let tried = emit_next(tried, &self.parsers.1, inp, &before);
        let tried = emit_next(tried, &self.parsers.2, inp, &before);
        emit_next(tried, &self.parsers.3, inp, &before)
    }

    #[inline(always)]
    fn go_check(&self, inp: &mut InputRef<'src, '_, I, E>) -> PResult<()> {
        let before = inp.save()?;
        let tried = self.parsers.0.go_check(inp);
        let tried = check_next(tried, &self.parsers.1, inp, &before);
        let tried = check_next(tried, &self.parsers.2, inp, &before);
        check_next(tried, &self.parsers.3, inp, &before)
    }
}

impl<
    I,
    O,
    E,
    A: IsParser<I, O, E>,
    B: IsParser<I, O, E>,
    C: IsParser<I, O, E>,
    D: IsParser<I, O, E>,
    F: IsParser<I, O, E>,
> IsParser<I, O, E> for Choice<(A, B, C, D, F)> {}

impl<
    'src,
    I: Input<'src>,
    O,
    E: ParserExtra<I>,
    A: Parser<'src, I, O, E>,
    B: Parser<'src, I, O, E>,
    C: Parser<'src, I, O, E>,
    D: Parser<'src, I, O, E>,
    F: Parser<'src, I, O, E>,
> Parser<'src, I, O, E> for Choice<(A, B, C, D, F)> {
    ghost use Rattle.chumsky_parser.specs.ChoiceLanguage.{or_language, last-accepts, next-accepts};
    ghost use Rattle.std.specs.Prelude.{[], ◌∷◌};
    ghost use Rattle.chumsky_parser.specs.Choice.{SameByOne};
    ghost use Rattle.chumsky_parser.specs.ChoiceLaws.{first_of-ends, first_of-agrees, none-end, and-ends, none-agree, and-agrees};
    ghost use Rattle.chumsky_choice.specs.Alternatives.{DoesFirst};

    ghost ready = { λ p. let t = p.parsers in
        A.ready t.0 × B.ready t.1 × C.ready t.2 × D.ready t.3 × F.ready t.4 };

    ghost meaning = { λ p. let t = p.parsers in
        DoesFirst (A.meaning t.0) (B.meaning t.1 ∷ C.meaning t.2 ∷ D.meaning t.3 ∷
        F.meaning t.4 ∷ []) };

    ghost steady = { λ p. let t = p.parsers in
        A.steady t.0 × B.steady t.1 × C.steady t.2 × D.steady t.3 × F.steady t.4 };

    ghost same = { λ p. let t = p.parsers in
        SameByOne (A.same t.0) (B.same t.1 ∷ C.same t.2 ∷ D.same t.3 ∷ F.same t.4 ∷ []) };

    ghost language = { λ p. let t = p.parsers in
        or_language (A.language t.0)
        (or_language (B.language t.1)
        (or_language (C.language t.2)
        (or_language (D.language t.3) (F.language t.4)))) };

    ghost ends_after_start = { λ p. let t = p.parsers in
        first_of-ends _ _ _ _ _ (and-ends (A.ends_after_start t.0)
        (and-ends (B.ends_after_start t.1) (and-ends (C.ends_after_start t.2)
        (and-ends (D.ends_after_start t.3) (and-ends (F.ends_after_start t.4) none-end))))) };

    ghost agrees = { λ p s. let t = p.parsers in
        first_of-agrees _ _ _ (A.same t.0) (B.same t.1 ∷ C.same t.2 ∷ D.same t.3 ∷ F.same t.4 ∷
        []) _ _ (and-agrees (A.agrees t.0 s.0) (and-agrees (B.agrees t.1 s.1)
        (and-agrees (C.agrees t.2 s.2) (and-agrees (D.agrees t.3 s.3)
        (and-agrees (F.agrees t.4 s.4) none-agree))))) };

    ghost accepts = { λ p. let t = p.parsers in
        (next-accepts _ _ (λ q. q.1) _ (A.accepts t.0) _ _
        (next-accepts _ _ (λ q. q.1) _ (B.accepts t.1) _ _
        (next-accepts _ _ (λ q. q.1) _ (C.accepts t.2) _ _
        (next-accepts _ _ (λ q. q.1) _ (D.accepts t.3) _ _
        (last-accepts _ _ (λ q. q.1) _ (F.accepts t.4)))))).first_of };

    #[inline(always)]
    fn go_emit(&self, inp: &mut InputRef<'src, '_, I, E>) -> PResult<O> {
        let before = inp.save()?;
        let tried = self.parsers.0.go_emit(inp);
        let tried = emit_next(tried, &self.parsers.1, inp, &before);
        let tried = emit_next(tried, &self.parsers.2, inp, &before);
        let tried = emit_next(tried, &self.parsers.3, inp, &before);
        emit_next(tried, &self.parsers.4, inp, &before)
    }

    #[inline(always)]
    fn go_check(&self, inp: &mut InputRef<'src, '_, I, E>) -> PResult<()> {
        let before = inp.save()?;
        let tried = self.parsers.0.go_check(inp);
        let tried = check_next(tried, &self.parsers.1, inp, &before);
        let tried = check_next(tried, &self.parsers.2, inp, &before);
        let tried = check_next(tried, &self.parsers.3, inp, &before);
        check_next(tried, &self.parsers.4, inp, &before)
    }
}

impl<
    I,
    O,
    E,
    A: IsParser<I, O, E>,
    B: IsParser<I, O, E>,
    C: IsParser<I, O, E>,
    D: IsParser<I, O, E>,
    F: IsParser<I, O, E>,
    G: IsParser<I, O, E>,
> IsParser<I, O, E> for Choice<(A, B, C, D, F, G)> {}

impl<
    'src,
    I: Input<'src>,
    O,
    E: ParserExtra<I>,
    A: Parser<'src, I, O, E>,
    B: Parser<'src, I, O, E>,
    C: Parser<'src, I, O, E>,
    D: Parser<'src, I, O, E>,
    F: Parser<'src, I, O, E>,
    G: Parser<'src, I, O, E>,
> Parser<'src, I, O, E> for Choice<(A, B, C, D, F, G)> {
    ghost use Rattle.chumsky_parser.specs.ChoiceLanguage.{or_language, last-accepts, next-accepts};
    ghost use Rattle.std.specs.Prelude.{[], ◌∷◌};
    ghost use Rattle.chumsky_parser.specs.Choice.{SameByOne};
    ghost use Rattle.chumsky_parser.specs.ChoiceLaws.{first_of-ends, first_of-agrees, none-end, and-ends, none-agree, and-agrees};
    ghost use Rattle.chumsky_choice.specs.Alternatives.{DoesFirst};

    ghost ready = { λ p. let t = p.parsers in
        A.ready t.0 × B.ready t.1 × C.ready t.2 × D.ready t.3 × F.ready t.4 × G.ready t.5 };

    ghost meaning = { λ p. let t = p.parsers in
        DoesFirst (A.meaning t.0) (B.meaning t.1 ∷ C.meaning t.2 ∷ D.meaning t.3 ∷
        F.meaning t.4 ∷ G.meaning t.5 ∷ []) };

    ghost steady = { λ p. let t = p.parsers in
        A.steady t.0 × B.steady t.1 × C.steady t.2 × D.steady t.3 × F.steady t.4 × G.steady t.5 };

    ghost same = { λ p. let t = p.parsers in
        SameByOne (A.same t.0) (B.same t.1 ∷ C.same t.2 ∷ D.same t.3 ∷ F.same t.4 ∷ G.same t.5 ∷
        []) };

    ghost language = { λ p. let t = p.parsers in
        or_language (A.language t.0)
        (or_language (B.language t.1)
        (or_language (C.language t.2)
        (or_language (D.language t.3)
        (or_language (F.language t.4) (G.language t.5))))) };

    ghost ends_after_start = { λ p. let t = p.parsers in
        first_of-ends _ _ _ _ _ (and-ends (A.ends_after_start t.0)
        (and-ends (B.ends_after_start t.1) (and-ends (C.ends_after_start t.2)
        (and-ends (D.ends_after_start t.3) (and-ends (F.ends_after_start t.4)
        (and-ends (G.ends_after_start t.5) none-end)))))) };

    ghost agrees = { λ p s. let t = p.parsers in
        first_of-agrees _ _ _ (A.same t.0) (B.same t.1 ∷ C.same t.2 ∷ D.same t.3 ∷ F.same t.4 ∷
        G.same t.5 ∷ []) _ _ (and-agrees (A.agrees t.0 s.0) (and-agrees (B.agrees t.1 s.1)
        (and-agrees (C.agrees t.2 s.2) (and-agrees (D.agrees t.3 s.3)
        (and-agrees (F.agrees t.4 s.4) (and-agrees (G.agrees t.5 s.5) none-agree)))))) };

    ghost accepts = { λ p. let t = p.parsers in
        (next-accepts _ _ (λ q. q.1) _ (A.accepts t.0) _ _
        (next-accepts _ _ (λ q. q.1) _ (B.accepts t.1) _ _
        (next-accepts _ _ (λ q. q.1) _ (C.accepts t.2) _ _
        (next-accepts _ _ (λ q. q.1) _ (D.accepts t.3) _ _
        (next-accepts _ _ (λ q. q.1) _ (F.accepts t.4) _ _
        (last-accepts _ _ (λ q. q.1) _ (G.accepts t.5))))))).first_of };

    #[inline(always)]
    fn go_emit(&self, inp: &mut InputRef<'src, '_, I, E>) -> PResult<O> {
        let before = inp.save()?;
        let tried = self.parsers.0.go_emit(inp);
        let tried = emit_next(tried, &self.parsers.1, inp, &before);
        let tried = emit_next(tried, &self.parsers.2, inp, &before);
        let tried = emit_next(tried, &self.parsers.3, inp, &before);
        let tried = emit_next(tried, &self.parsers.4, inp, &before);
        emit_next(tried, &self.parsers.5, inp, &before)
    }

    #[inline(always)]
    fn go_check(&self, inp: &mut InputRef<'src, '_, I, E>) -> PResult<()> {
        let before = inp.save()?;
        let tried = self.parsers.0.go_check(inp);
        let tried = check_next(tried, &self.parsers.1, inp, &before);
        let tried = check_next(tried, &self.parsers.2, inp, &before);
        let tried = check_next(tried, &self.parsers.3, inp, &before);
        let tried = check_next(tried, &self.parsers.4, inp, &before);
        check_next(tried, &self.parsers.5, inp, &before)
    }
}

impl<
    I,
    O,
    E,
    A: IsParser<I, O, E>,
    B: IsParser<I, O, E>,
    C: IsParser<I, O, E>,
    D: IsParser<I, O, E>,
    F: IsParser<I, O, E>,
    G: IsParser<I, O, E>,
    H: IsParser<I, O, E>,
> IsParser<I, O, E> for Choice<(A, B, C, D, F, G, H)> {}

impl<
    'src,
    I: Input<'src>,
    O,
    E: ParserExtra<I>,
    A: Parser<'src, I, O, E>,
    B: Parser<'src, I, O, E>,
    C: Parser<'src, I, O, E>,
    D: Parser<'src, I, O, E>,
    F: Parser<'src, I, O, E>,
    G: Parser<'src, I, O, E>,
    H: Parser<'src, I, O, E>,
> Parser<'src, I, O, E> for Choice<(A, B, C, D, F, G, H)> {
    ghost use Rattle.chumsky_parser.specs.ChoiceLanguage.{or_language, last-accepts, next-accepts};
    ghost use Rattle.std.specs.Prelude.{[], ◌∷◌};
    ghost use Rattle.chumsky_parser.specs.Choice.{SameByOne};
    ghost use Rattle.chumsky_parser.specs.ChoiceLaws.{first_of-ends, first_of-agrees, none-end, and-ends, none-agree, and-agrees};
    ghost use Rattle.chumsky_choice.specs.Alternatives.{DoesFirst};

    ghost ready = { λ p. let t = p.parsers in
        A.ready t.0 × B.ready t.1 × C.ready t.2 × D.ready t.3 × F.ready t.4 × G.ready t.5 ×
        H.ready t.6 };

    ghost meaning = { λ p. let t = p.parsers in
        DoesFirst (A.meaning t.0) (B.meaning t.1 ∷ C.meaning t.2 ∷ D.meaning t.3 ∷
        F.meaning t.4 ∷ G.meaning t.5 ∷ H.meaning t.6 ∷ []) };

    ghost steady = { λ p. let t = p.parsers in
        A.steady t.0 × B.steady t.1 × C.steady t.2 × D.steady t.3 × F.steady t.4 × G.steady t.5 ×
        H.steady t.6 };

    ghost same = { λ p. let t = p.parsers in
        SameByOne (A.same t.0) (B.same t.1 ∷ C.same t.2 ∷ D.same t.3 ∷ F.same t.4 ∷ G.same t.5 ∷
        H.same t.6 ∷ []) };

    ghost language = { λ p. let t = p.parsers in
        or_language (A.language t.0)
        (or_language (B.language t.1)
        (or_language (C.language t.2)
        (or_language (D.language t.3)
        (or_language (F.language t.4)
        (or_language (G.language t.5) (H.language t.6)))))) };

    ghost ends_after_start = { λ p. let t = p.parsers in
        first_of-ends _ _ _ _ _ (and-ends (A.ends_after_start t.0)
        (and-ends (B.ends_after_start t.1) (and-ends (C.ends_after_start t.2)
        (and-ends (D.ends_after_start t.3) (and-ends (F.ends_after_start t.4)
        (and-ends (G.ends_after_start t.5) (and-ends (H.ends_after_start t.6) none-end))))))) };

    ghost agrees = { λ p s. let t = p.parsers in
        first_of-agrees _ _ _ (A.same t.0) (B.same t.1 ∷ C.same t.2 ∷ D.same t.3 ∷ F.same t.4 ∷
        G.same t.5 ∷ H.same t.6 ∷ []) _ _ (and-agrees (A.agrees t.0 s.0)
        (and-agrees (B.agrees t.1 s.1) (and-agrees (C.agrees t.2 s.2)
        (and-agrees (D.agrees t.3 s.3) (and-agrees (F.agrees t.4 s.4)
        (and-agrees (G.agrees t.5 s.5) (and-agrees (H.agrees t.6 s.6) none-agree))))))) };

    ghost accepts = { λ p. let t = p.parsers in
        (next-accepts _ _ (λ q. q.1) _ (A.accepts t.0) _ _
        (next-accepts _ _ (λ q. q.1) _ (B.accepts t.1) _ _
        (next-accepts _ _ (λ q. q.1) _ (C.accepts t.2) _ _
        (next-accepts _ _ (λ q. q.1) _ (D.accepts t.3) _ _
        (next-accepts _ _ (λ q. q.1) _ (F.accepts t.4) _ _
        (next-accepts _ _ (λ q. q.1) _ (G.accepts t.5) _ _
        (last-accepts _ _ (λ q. q.1) _ (H.accepts t.6)))))))).first_of };

    #[inline(always)]
    fn go_emit(&self, inp: &mut InputRef<'src, '_, I, E>) -> PResult<O> {
        let before = inp.save()?;
        let tried = self.parsers.0.go_emit(inp);
        let tried = emit_next(tried, &self.parsers.1, inp, &before);
        let tried = emit_next(tried, &self.parsers.2, inp, &before);
        let tried = emit_next(tried, &self.parsers.3, inp, &before);
        let tried = emit_next(tried, &self.parsers.4, inp, &before);
        let tried = emit_next(tried, &self.parsers.5, inp, &before);
        emit_next(tried, &self.parsers.6, inp, &before)
    }

    #[inline(always)]
    fn go_check(&self, inp: &mut InputRef<'src, '_, I, E>) -> PResult<()> {
        let before = inp.save()?;
        let tried = self.parsers.0.go_check(inp);
        let tried = check_next(tried, &self.parsers.1, inp, &before);
        let tried = check_next(tried, &self.parsers.2, inp, &before);
        let tried = check_next(tried, &self.parsers.3, inp, &before);
        let tried = check_next(tried, &self.parsers.4, inp, &before);
        let tried = check_next(tried, &self.parsers.5, inp, &before);
        check_next(tried, &self.parsers.6, inp, &before)
    }
}

impl<
    I,
    O,
    E,
    A: IsParser<I, O, E>,
    B: IsParser<I, O, E>,
    C: IsParser<I, O, E>,
    D: IsParser<I, O, E>,
    F: IsParser<I, O, E>,
    G: IsParser<I, O, E>,
    H: IsParser<I, O, E>,
    J: IsParser<I, O, E>,
> IsParser<I, O, E> for Choice<(A, B, C, D, F, G, H, J)> {}

impl<
    'src,
    I: Input<'src>,
    O,
    E: ParserExtra<I>,
    A: Parser<'src, I, O, E>,
    B: Parser<'src, I, O, E>,
    C: Parser<'src, I, O, E>,
    D: Parser<'src, I, O, E>,
    F: Parser<'src, I, O, E>,
    G: Parser<'src, I, O, E>,
    H: Parser<'src, I, O, E>,
    J: Parser<'src, I, O, E>,
> Parser<'src, I, O, E> for Choice<(A, B, C, D, F, G, H, J)> {
    ghost use Rattle.chumsky_parser.specs.ChoiceLanguage.{or_language, last-accepts, next-accepts};
    ghost use Rattle.std.specs.Prelude.{[], ◌∷◌};
    ghost use Rattle.chumsky_parser.specs.Choice.{SameByOne};
    ghost use Rattle.chumsky_parser.specs.ChoiceLaws.{first_of-ends, first_of-agrees, none-end, and-ends, none-agree, and-agrees};
    ghost use Rattle.chumsky_choice.specs.Alternatives.{DoesFirst};

    ghost ready = { λ p. let t = p.parsers in
        A.ready t.0 × B.ready t.1 × C.ready t.2 × D.ready t.3 × F.ready t.4 × G.ready t.5 ×
        H.ready t.6 × J.ready t.7 };

    ghost meaning = { λ p. let t = p.parsers in
        DoesFirst (A.meaning t.0) (B.meaning t.1 ∷ C.meaning t.2 ∷ D.meaning t.3 ∷
        F.meaning t.4 ∷ G.meaning t.5 ∷ H.meaning t.6 ∷ J.meaning t.7 ∷ []) };

    ghost steady = { λ p. let t = p.parsers in
        A.steady t.0 × B.steady t.1 × C.steady t.2 × D.steady t.3 × F.steady t.4 × G.steady t.5 ×
        H.steady t.6 × J.steady t.7 };

    ghost same = { λ p. let t = p.parsers in
        SameByOne (A.same t.0) (B.same t.1 ∷ C.same t.2 ∷ D.same t.3 ∷ F.same t.4 ∷ G.same t.5 ∷
        H.same t.6 ∷ J.same t.7 ∷ []) };

    ghost language = { λ p. let t = p.parsers in
        or_language (A.language t.0)
        (or_language (B.language t.1)
        (or_language (C.language t.2)
        (or_language (D.language t.3)
        (or_language (F.language t.4)
        (or_language (G.language t.5)
        (or_language (H.language t.6) (J.language t.7))))))) };

    ghost ends_after_start = { λ p. let t = p.parsers in
        first_of-ends _ _ _ _ _ (and-ends (A.ends_after_start t.0)
        (and-ends (B.ends_after_start t.1) (and-ends (C.ends_after_start t.2)
        (and-ends (D.ends_after_start t.3) (and-ends (F.ends_after_start t.4)
        (and-ends (G.ends_after_start t.5) (and-ends (H.ends_after_start t.6)
        (and-ends (J.ends_after_start t.7) none-end)))))))) };

    ghost agrees = { λ p s. let t = p.parsers in
        first_of-agrees _ _ _ (A.same t.0) (B.same t.1 ∷ C.same t.2 ∷ D.same t.3 ∷ F.same t.4 ∷
        G.same t.5 ∷ H.same t.6 ∷ J.same t.7 ∷ []) _ _ (and-agrees (A.agrees t.0 s.0)
        (and-agrees (B.agrees t.1 s.1) (and-agrees (C.agrees t.2 s.2)
        (and-agrees (D.agrees t.3 s.3) (and-agrees (F.agrees t.4 s.4)
        (and-agrees (G.agrees t.5 s.5) (and-agrees (H.agrees t.6 s.6)
        (and-agrees (J.agrees t.7 s.7) none-agree)))))))) };

    ghost accepts = { λ p. let t = p.parsers in
        (next-accepts _ _ (λ q. q.1) _ (A.accepts t.0) _ _
        (next-accepts _ _ (λ q. q.1) _ (B.accepts t.1) _ _
        (next-accepts _ _ (λ q. q.1) _ (C.accepts t.2) _ _
        (next-accepts _ _ (λ q. q.1) _ (D.accepts t.3) _ _
        (next-accepts _ _ (λ q. q.1) _ (F.accepts t.4) _ _
        (next-accepts _ _ (λ q. q.1) _ (G.accepts t.5) _ _
        (next-accepts _ _ (λ q. q.1) _ (H.accepts t.6) _ _
        (last-accepts _ _ (λ q. q.1) _ (J.accepts t.7))))))))).first_of };

    #[inline(always)]
    fn go_emit(&self, inp: &mut InputRef<'src, '_, I, E>) -> PResult<O> {
        let before = inp.save()?;
        let tried = self.parsers.0.go_emit(inp);
        let tried = emit_next(tried, &self.parsers.1, inp, &before);
        let tried = emit_next(tried, &self.parsers.2, inp, &before);
        let tried = emit_next(tried, &self.parsers.3, inp, &before);
        let tried = emit_next(tried, &self.parsers.4, inp, &before);
        let tried = emit_next(tried, &self.parsers.5, inp, &before);
        let tried = emit_next(tried, &self.parsers.6, inp, &before);
        emit_next(tried, &self.parsers.7, inp, &before)
    }

    #[inline(always)]
    fn go_check(&self, inp: &mut InputRef<'src, '_, I, E>) -> PResult<()> {
        let before = inp.save()?;
        let tried = self.parsers.0.go_check(inp);
        let tried = check_next(tried, &self.parsers.1, inp, &before);
        let tried = check_next(tried, &self.parsers.2, inp, &before);
        let tried = check_next(tried, &self.parsers.3, inp, &before);
        let tried = check_next(tried, &self.parsers.4, inp, &before);
        let tried = check_next(tried, &self.parsers.5, inp, &before);
        let tried = check_next(tried, &self.parsers.6, inp, &before);
        check_next(tried, &self.parsers.7, inp, &before)
    }
}
