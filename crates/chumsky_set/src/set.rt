//! Parsers in any order.
ghost use Rattle.std.specs.List.{All};
ghost use Rattle.chumsky_set.specs.Lists.{Each};

use crate::mode::{ForValue, WithoutValue};
use crate::rounds::in_any_order;
use crate::row::{NoPart, PartAnd};
use arrayvec::ArrayVec;
use chumsky_input::extra::ParserExtra;
use chumsky_input::input::Input;
use chumsky_input::input_ref::InputRef;
use chumsky_input::stop::PResult;
use chumsky_parser::parser::{IsParser, Parser};

/// Some parsers, each of which succeeds once, in whatever order the input has them. See `set`.
#[derive(Clone, Copy, Drop)]
pub struct Set<T> {
    pub parsers: T,
}

impl<I, O0, E, P0: IsParser<I, O0, E>> IsParser<I, (O0,), E> for Set<(P0,)> {}

impl<'src, I: Input<'src>, O0: Drop, E: ParserExtra<I>, P0: Parser<'src, I, O0, E>> Parser<
    'src,
    I,
    (O0,),
    E,
> for Set<(P0,)> {
    ghost use Rattle.std.specs.Prelude.{refl};
    ghost use Rattle.chumsky_set.specs.SetLanguage.{no_parts, part_before, set_language, apart_one};
    ghost use Rattle.chumsky_set.specs.SetAccepts.{no_part-accepts, part_and-accepts, set-accepts};
    ghost use Rattle.chumsky_set.specs.Doing.{DoesSet1};
    ghost use Rattle.chumsky_set.specs.Tuples.{flat_one, Same1};
    ghost use Rattle.chumsky_set.specs.TuplesLaws.{set_1-ends, set_1-agrees};

    ghost ready = { λ p. P0.ready p.parsers.0 };

    ghost meaning = { λ p. DoesSet1 (P0.meaning p.parsers.0) };

    ghost steady = { λ p. P0.steady p.parsers.0 };

    ghost same = { λ p. Same1 (P0.same p.parsers.0) };

    ghost language = { λ p. set_language apart_one (part_before (P0.language p.parsers.0) no_parts) };

    ghost ends_after_start = { λ p. set_1-ends _ _ _ _ (P0.ends_after_start p.parsers.0) };

    ghost agrees = { λ p s. set_1-agrees _ _ _ _ (P0.same p.parsers.0) (P0.agrees p.parsers.0 s) };

    ghost accepts = { λ p. set-accepts flat_one apart_one (λ _. refl) (part_and-accepts _ _ (λ q. q.1) (P0.accepts p.parsers.0) no_part-accepts) };

    #[inline]
    fn go_emit(&self, inp: &mut InputRef<'src, '_, I, E>) -> PResult<(O0,)> {
        let mode = ForValue;
        let row = PartAnd {
            mode,
            part: &self.parsers.0,
            others: NoPart,
        };
        let (a, ()) = in_any_order(&row, (None, ()), inp)?;
        Ok((a,))
    }

    #[inline]
    fn go_check(&self, inp: &mut InputRef<'src, '_, I, E>) -> PResult<()> {
        let mode = WithoutValue;
        let row = PartAnd {
            mode,
            part: &self.parsers.0,
            others: NoPart,
        };
        let _done = in_any_order(&row, (None, ()), inp)?;
        Ok(())
    }
}

impl<I, O0, O1, E, P0: IsParser<I, O0, E>, P1: IsParser<I, O1, E>> IsParser<I, (O0, O1), E>
    for Set<(P0, P1)> {}

impl<
    'src,
    I: Input<'src>,
    O0: Drop,
    O1: Drop,
    E: ParserExtra<I>,
    P0: Parser<'src, I, O0, E>,
    P1: Parser<'src, I, O1, E>,
> Parser<'src, I, (O0, O1), E> for Set<(P0, P1)> {
    ghost use Rattle.std.specs.Prelude.{refl};
    ghost use Rattle.chumsky_set.specs.SetLanguage.{no_parts, part_before, set_language, apart_two};
    ghost use Rattle.chumsky_set.specs.SetAccepts.{no_part-accepts, part_and-accepts, set-accepts};
    ghost use Rattle.chumsky_set.specs.Doing.{DoesSet2};
    ghost use Rattle.chumsky_set.specs.Tuples.{flat_two, Same2};
    ghost use Rattle.chumsky_set.specs.TuplesLaws.{set_2-ends, set_2-agrees};

    ghost ready = { λ p. let t = p.parsers in P0.ready t.0 × P1.ready t.1 };

    ghost meaning = { λ p. let t = p.parsers in DoesSet2 (P0.meaning t.0) (P1.meaning t.1) };

    ghost steady = { λ p. let t = p.parsers in P0.steady t.0 × P1.steady t.1 };

    ghost same = { λ p. let t = p.parsers in Same2 (P0.same t.0) (P1.same t.1) };

    ghost language = { λ p. let t = p.parsers in set_language apart_two (part_before (P0.language t.0) (part_before (P1.language t.1) no_parts)) };

    ghost ends_after_start = { λ p. let t = p.parsers in
        set_2-ends _ _ _ _ _ (P0.ends_after_start t.0) (P1.ends_after_start t.1) };

    ghost agrees = { λ p s. let t = p.parsers in
        set_2-agrees _ _ _ _ _ (P0.same t.0) (P1.same t.1) (P0.agrees t.0 s.0)
        (P1.agrees t.1 s.1) };

    ghost accepts = { λ p. let t = p.parsers in set-accepts flat_two apart_two (λ _. refl) (part_and-accepts _ _ (λ q. q.1) (P0.accepts t.0) (part_and-accepts _ _ (λ q. q.1) (P1.accepts t.1) no_part-accepts)) };

    #[inline]
    fn go_emit(&self, inp: &mut InputRef<'src, '_, I, E>) -> PResult<(O0, O1)> {
        let mode = ForValue;
        let row = PartAnd {
            mode,
            part: &self.parsers.1,
            others: NoPart,
        };
        let row = PartAnd {
            mode,
            part: &self.parsers.0,
            others: row,
        };
        let (a, (b, ())) = in_any_order(&row, (None, (None, ())), inp)?;
        Ok((a, b))
    }

    #[inline]
    fn go_check(&self, inp: &mut InputRef<'src, '_, I, E>) -> PResult<()> {
        let mode = WithoutValue;
        let row = PartAnd {
            mode,
            part: &self.parsers.1,
            others: NoPart,
        };
        let row = PartAnd {
            mode,
            part: &self.parsers.0,
            others: row,
        };
        let _done = in_any_order(&row, (None, (None, ())), inp)?;
        Ok(())
    }
}

impl<
    I,
    O0,
    O1,
    O2,
    E,
    P0: IsParser<I, O0, E>,
    P1: IsParser<I, O1, E>,
    P2: IsParser<I, O2, E>,
> IsParser<I, (O0, O1, O2), E> for Set<(P0, P1, P2)> {}

impl<
    'src,
    I: Input<'src>,
    O0: Drop,
    O1: Drop,
    O2: Drop,
    E: ParserExtra<I>,
    P0: Parser<'src, I, O0, E>,
    P1: Parser<'src, I, O1, E>,
    P2: Parser<'src, I, O2, E>,
> Parser<'src, I, (O0, O1, O2), E> for Set<(P0, P1, P2)> {
    ghost use Rattle.std.specs.Prelude.{refl};
    ghost use Rattle.chumsky_set.specs.SetLanguage.{no_parts, part_before, set_language, apart_three};
    ghost use Rattle.chumsky_set.specs.SetAccepts.{no_part-accepts, part_and-accepts, set-accepts};
    ghost use Rattle.chumsky_set.specs.Doing.{DoesSet3};
    ghost use Rattle.chumsky_set.specs.Tuples.{flat_three, Same3};
    ghost use Rattle.chumsky_set.specs.TuplesLaws.{set_3-ends, set_3-agrees};

    ghost ready = { λ p. let t = p.parsers in P0.ready t.0 × P1.ready t.1 × P2.ready t.2 };

    ghost meaning = { λ p. let t = p.parsers in
        DoesSet3 (P0.meaning t.0) (P1.meaning t.1) (P2.meaning t.2) };

    ghost steady = { λ p. let t = p.parsers in P0.steady t.0 × P1.steady t.1 × P2.steady t.2 };

    ghost same = { λ p. let t = p.parsers in Same3 (P0.same t.0) (P1.same t.1) (P2.same t.2) };

    ghost language = { λ p. let t = p.parsers in set_language apart_three (part_before (P0.language t.0) (part_before (P1.language t.1) (part_before (P2.language t.2) no_parts))) };

    ghost ends_after_start = { λ p. let t = p.parsers in
        set_3-ends _ _ _ _ _ _ (P0.ends_after_start t.0) (P1.ends_after_start t.1)
        (P2.ends_after_start t.2) };

    ghost agrees = { λ p s. let t = p.parsers in
        set_3-agrees _ _ _ _ _ _ (P0.same t.0) (P1.same t.1) (P2.same t.2) (P0.agrees t.0 s.0)
        (P1.agrees t.1 s.1) (P2.agrees t.2 s.2) };

    ghost accepts = { λ p. let t = p.parsers in set-accepts flat_three apart_three (λ _. refl) (part_and-accepts _ _ (λ q. q.1) (P0.accepts t.0) (part_and-accepts _ _ (λ q. q.1) (P1.accepts t.1) (part_and-accepts _ _ (λ q. q.1) (P2.accepts t.2) no_part-accepts))) };

    #[inline]
    fn go_emit(&self, inp: &mut InputRef<'src, '_, I, E>) -> PResult<(O0, O1, O2)> {
        let mode = ForValue;
        let row = PartAnd {
            mode,
            part: &self.parsers.2,
            others: NoPart,
        };
        let row = PartAnd {
            mode,
            part: &self.parsers.1,
            others: row,
        };
        let row = PartAnd {
            mode,
            part: &self.parsers.0,
            others: row,
        };
        let (a, (b, (c, ()))) = in_any_order(&row, (None, (None, (None, ()))), inp)?;
        Ok((a, b, c))
    }

    #[inline]
    fn go_check(&self, inp: &mut InputRef<'src, '_, I, E>) -> PResult<()> {
        let mode = WithoutValue;
        let row = PartAnd {
            mode,
            part: &self.parsers.2,
            others: NoPart,
        };
        let row = PartAnd {
            mode,
            part: &self.parsers.1,
            others: row,
        };
        let row = PartAnd {
            mode,
            part: &self.parsers.0,
            others: row,
        };
        let _done = in_any_order(&row, (None, (None, (None, ()))), inp)?;
        Ok(())
    }
}

impl<
    I,
    O0,
    O1,
    O2,
    O3,
    E,
    P0: IsParser<I, O0, E>,
    P1: IsParser<I, O1, E>,
    P2: IsParser<I, O2, E>,
    P3: IsParser<I, O3, E>,
> IsParser<I, (O0, O1, O2, O3), E> for Set<(P0, P1, P2, P3)> {}

impl<
    'src,
    I: Input<'src>,
    O0: Drop,
    O1: Drop,
    O2: Drop,
    O3: Drop,
    E: ParserExtra<I>,
    P0: Parser<'src, I, O0, E>,
    P1: Parser<'src, I, O1, E>,
    P2: Parser<'src, I, O2, E>,
    P3: Parser<'src, I, O3, E>,
> Parser<'src, I, (O0, O1, O2, O3), E> for Set<(P0, P1, P2, P3)> {
    ghost use Rattle.std.specs.Prelude.{refl};
    ghost use Rattle.chumsky_set.specs.SetLanguage.{no_parts, part_before, set_language, apart_four};
    ghost use Rattle.chumsky_set.specs.SetAccepts.{no_part-accepts, part_and-accepts, set-accepts};
    ghost use Rattle.chumsky_set.specs.Doing.{DoesSet4};
    ghost use Rattle.chumsky_set.specs.Tuples.{flat_four, Same4};
    ghost use Rattle.chumsky_set.specs.TuplesLaws.{set_4-ends, set_4-agrees};

    ghost ready = { λ p. let t = p.parsers in
        P0.ready t.0 × P1.ready t.1 × P2.ready t.2 × P3.ready t.3 };

    ghost meaning = { λ p. let t = p.parsers in
        DoesSet4 (P0.meaning t.0) (P1.meaning t.1) (P2.meaning t.2) (P3.meaning t.3) };

    ghost steady = { λ p. let t = p.parsers in
        P0.steady t.0 × P1.steady t.1 × P2.steady t.2 × P3.steady t.3 };

    ghost same = { λ p. let t = p.parsers in
        Same4 (P0.same t.0) (P1.same t.1) (P2.same t.2) (P3.same t.3) };

    ghost language = { λ p. let t = p.parsers in set_language apart_four (part_before (P0.language t.0) (part_before (P1.language t.1) (part_before (P2.language t.2) (part_before (P3.language t.3) no_parts)))) };

    ghost ends_after_start = { λ p. let t = p.parsers in
        set_4-ends _ _ _ _ _ _ _ (P0.ends_after_start t.0) (P1.ends_after_start t.1)
        (P2.ends_after_start t.2) (P3.ends_after_start t.3) };

    ghost agrees = { λ p s. let t = p.parsers in
        set_4-agrees _ _ _ _ _ _ _ (P0.same t.0) (P1.same t.1) (P2.same t.2) (P3.same t.3)
        (P0.agrees t.0 s.0) (P1.agrees t.1 s.1) (P2.agrees t.2 s.2) (P3.agrees t.3 s.3) };

    ghost accepts = { λ p. let t = p.parsers in set-accepts flat_four apart_four (λ _. refl) (part_and-accepts _ _ (λ q. q.1) (P0.accepts t.0) (part_and-accepts _ _ (λ q. q.1) (P1.accepts t.1) (part_and-accepts _ _ (λ q. q.1) (P2.accepts t.2) (part_and-accepts _ _ (λ q. q.1) (P3.accepts t.3) no_part-accepts)))) };

    #[inline]
    fn go_emit(&self, inp: &mut InputRef<'src, '_, I, E>) -> PResult<(O0, O1, O2, O3)> {
        let mode = ForValue;
        let row = PartAnd {
            mode,
            part: &self.parsers.3,
            others: NoPart,
        };
        let row = PartAnd {
            mode,
            part: &self.parsers.2,
            others: row,
        };
        let row = PartAnd {
            mode,
            part: &self.parsers.1,
            others: row,
        };
        let row = PartAnd {
            mode,
            part: &self.parsers.0,
            others: row,
        };
        let (a, (b, (c, (d, ())))) = in_any_order(&row, (None, (None, (None, (None, ())))), inp)?;
        Ok((a, b, c, d))
    }

    #[inline]
    fn go_check(&self, inp: &mut InputRef<'src, '_, I, E>) -> PResult<()> {
        let mode = WithoutValue;
        let row = PartAnd {
            mode,
            part: &self.parsers.3,
            others: NoPart,
        };
        let row = PartAnd {
            mode,
            part: &self.parsers.2,
            others: row,
        };
        let row = PartAnd {
            mode,
            part: &self.parsers.1,
            others: row,
        };
        let row = PartAnd {
            mode,
            part: &self.parsers.0,
            others: row,
        };
        let _done = in_any_order(&row, (None, (None, (None, (None, ())))), inp)?;
        Ok(())
    }
}

/// When it is ready and steady, and which outputs are the same: `set` of one to four parsers.
pub fn set_is_steady<
    'src,
    I: Input<'src>,
    O0: Drop,
    O1: Drop,
    O2: Drop,
    O3: Drop,
    E: ParserExtra<I>,
    P0: Parser<'src, I, O0, E>,
    P1: Parser<'src, I, O1, E>,
    P2: Parser<'src, I, O2, E>,
    P3: Parser<'src, I, O3, E>,
>(one: &Set<(P0,)>, two: &Set<(P0, P1)>, three: &Set<(P0, P1, P2)>, four: &Set<(P0, P1, P2, P3)>)
    ensures ready_one { let t = one.now.parsers in
        P0.ready t.0 → ⟦<Set<(P0,)> as Parser<'src, I, (O0,), E>>⟧.ready one.now }
    ensures ready_two { let t = two.now.parsers in
        P0.ready t.0 → P1.ready t.1 →
        ⟦<Set<(P0, P1)> as Parser<'src, I, (O0, O1), E>>⟧.ready two.now }
    ensures ready_three { let t = three.now.parsers in
        P0.ready t.0 → P1.ready t.1 → P2.ready t.2 →
        ⟦<Set<(P0, P1, P2)> as Parser<'src, I, (O0, O1, O2), E>>⟧.ready three.now }
    ensures ready_four { let t = four.now.parsers in
        P0.ready t.0 → P1.ready t.1 → P2.ready t.2 → P3.ready t.3 →
        ⟦<Set<(P0, P1, P2, P3)> as Parser<'src, I, (O0, O1, O2, O3), E>>⟧.ready four.now }
    ensures one { let t = one.now.parsers in
        P0.steady t.0 → ⟦<Set<(P0,)> as Parser<'src, I, (O0,), E>>⟧.steady one.now }
    ensures two { let t = two.now.parsers in
        P0.steady t.0 → P1.steady t.1 →
        ⟦<Set<(P0, P1)> as Parser<'src, I, (O0, O1), E>>⟧.steady two.now }
    ensures three { let t = three.now.parsers in
        P0.steady t.0 → P1.steady t.1 → P2.steady t.2 →
        ⟦<Set<(P0, P1, P2)> as Parser<'src, I, (O0, O1, O2), E>>⟧.steady three.now }
    ensures four { let t = four.now.parsers in
        P0.steady t.0 → P1.steady t.1 → P2.steady t.2 → P3.steady t.3 →
        ⟦<Set<(P0, P1, P2, P3)> as Parser<'src, I, (O0, O1, O2, O3), E>>⟧.steady four.now }
    ensures same_one { let t = one.now.parsers in
        (x y : record { 0 : O0 }) →
        ⟦<Set<(P0,)> as Parser<'src, I, (O0,), E>>⟧.same one.now x y → P0.same t.0 x.0 y.0 }
    ensures same_two { let t = two.now.parsers in
        (x y : O0 × O1) → ⟦<Set<(P0, P1)> as Parser<'src, I, (O0, O1), E>>⟧.same two.now x y →
        P0.same t.0 x.0 y.0 × P1.same t.1 x.1 y.1 }
    ensures same_three { let t = three.now.parsers in
        (x y : O0 × O1 × O2) →
        ⟦<Set<(P0, P1, P2)> as Parser<'src, I, (O0, O1, O2), E>>⟧.same three.now x y →
        P0.same t.0 x.0 y.0 × P1.same t.1 x.1 y.1 × P2.same t.2 x.2 y.2 }
    ensures same_four { let t = four.now.parsers in
        (x y : O0 × O1 × O2 × O3) →
        ⟦<Set<(P0, P1, P2, P3)> as Parser<'src, I, (O0, O1, O2, O3), E>>⟧.same four.now x y →
        P0.same t.0 x.0 y.0 × P1.same t.1 x.1 y.1 × P2.same t.2 x.2 y.2 × P3.same t.3 x.3 y.3 }
{}

/// When it is ready and steady, and which outputs are the same: a set of the parsers of a `Vec` or an array.
pub fn set_of_a_list_is_steady<
    'src,
    I: Input<'src>,
    O: Drop,
    U: Default + Drop,
    E: ParserExtra<I>,
    P: Parser<'src, I, O, E>,
    Q: Parser<'src, I, U, E>,
    const N: usize,
>(vec: &Set<Vec<P>>, array: &Set<[Q; N]>)
    ensures ready_vec { All P.ready vec.now.parsers.items → ⟦<Set<Vec<P>> as Parser<'src, I, Vec<O>, E>>⟧.ready vec.now }
    ensures ready_array { All Q.ready array.now.parsers → ⟦<Set<[Q; N]> as Parser<'src, I, ArrayVec<U, N>, E>>⟧.ready array.now }
    ensures vec { All P.steady vec.now.parsers.items → ⟦<Set<Vec<P>> as Parser<'src, I, Vec<O>, E>>⟧.steady vec.now }
    ensures array { All Q.steady array.now.parsers → ⟦<Set<[Q; N]> as Parser<'src, I, ArrayVec<U, N>, E>>⟧.steady array.now }
    ensures same_vec { (x y : _) → ⟦<Set<Vec<P>> as Parser<'src, I, Vec<O>, E>>⟧.same vec.now x y → Each P.same vec.now.parsers.items x.items y.items }
    ensures same_array { (x y : _) → ⟦<Set<[Q; N]> as Parser<'src, I, ArrayVec<U, N>, E>>⟧.same array.now x y → Each Q.same array.now.parsers x.items y.items }
{}
