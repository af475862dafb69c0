//! Some parts in a row, which rounds and a last pass go over.
ghost use Rattle.std.specs.Prelude.{◌≡◌, Option, Some};
ghost use Rattle.chumsky_set.specs.AnyOrder.{no_part, Slot};
ghost use Rattle.chumsky_set.specs.Doing.{row_and, LessensRow, RunsLast, RunsPass};
ghost use Rattle.chumsky_set.specs.Passes.{both_shown, shown_by, slot_of, taken_then, RowOf};

use crate::mode::{Mode, Runs};
use crate::part::{complete, offer};
use chumsky_input::extra::ParserExtra;
use chumsky_input::input::Input;
use chumsky_input::input_ref::InputRef;
use chumsky_input::stop::PResult;
use chumsky_parser::parser::Parser;

/// Parts with the outputs `V`, run in the mode `D`: their slots are an `S`, and in the end they give an `R`.
pub trait PartsRow<'src, I: Input<'src>, E: ParserExtra<I>, D: Mode, V, S, R> {
    ghost Taken: { Type 0 };

    ghost Values: { Type 0 };

    ghost ready: { Self → Type 0 };

    ghost passes: { Self → RowOf I I.Token I.Span E.Error E.State E.State.Mark E.Context Taken Values };

    ghost taken: { S → Taken };

    ghost shown: { R → Option Values };

    ghost fits: { Self → S → Type 0 };

    /// One round: each part that is not taken has its turn. Says whether one was taken.
    fn round(&self, slots: &mut S, inp: &mut InputRef<'src, '_, I, E>) -> PResult<bool>
        requires ready { ready self.now }
        requires fits { fits self.now slots.old }
        ensures ran { RunsPass I.Input E.Error.Error E.State.Inspector (passes self.now)
            (taken slots.old) D.wanted inp.old inp.new (taken_then (taken slots.new) result) }
        ensures lessens { LessensRow E.Error.Error E.State.Inspector (passes self.now)
            (taken slots.old) (taken slots.new) result }
        ensures fits { fits self.now slots.new }
        ensures lent { inp.new.state.ghost_name ≡ inp.old.state.ghost_name };

    /// The last pass: each part that is not taken runs.
    fn last(&self, slots: S, inp: &mut InputRef<'src, '_, I, E>) -> PResult<R>
        requires ready { ready self.now }
        requires fits { fits self.now slots }
        ensures ran { RunsLast I.Input E.Error.Error E.State.Inspector (passes self.now)
            (taken slots) D.wanted inp.old inp.new (shown_by shown result) }
        ensures lent { inp.new.state.ghost_name ≡ inp.old.state.ghost_name };
}

/// No part.
#[derive(Clone, Copy)]
pub struct NoPart;

impl<'src, I: Input<'src>, E: ParserExtra<I>, D: Mode> PartsRow<'src, I, E, D, (), (), ()>
    for NoPart {
    ghost use Rattle.std.specs.Prelude.{⊤};

    ghost Taken = { ⊤ };

    ghost Values = { ⊤ };

    ghost ready = { λ _. ⊤ };

    ghost passes = { λ _ errors states. no_part };

    ghost taken = { λ t. t };

    ghost shown = { λ v. Some v };

    ghost fits = { λ _ _. ⊤ };

    #[inline]
    fn round(&self, slots: &mut (), inp: &mut InputRef<'src, '_, I, E>) -> PResult<bool> {
        Ok(false)
    }

    #[inline]
    fn last(&self, slots: (), inp: &mut InputRef<'src, '_, I, E>) -> PResult<()> {
        Ok(())
    }
}

/// A part before others.
#[derive(Clone, Copy)]
pub struct PartAnd<'p, D, P, M> {
    pub mode: D,
    pub part: &'p P,
    pub others: M,
}

impl<
    'src,
    'p,
    I: Input<'src>,
    O,
    E: ParserExtra<I>,
    P: Parser<'src, I, O, E>,
    A: Drop,
    D: Runs<'src, I, O, E, P, A>,
    V,
    S: Drop,
    R,
    M: PartsRow<'src, I, E, D, V, S, R>,
> PartsRow<'src, I, E, D, (O, V), (Option<A>, S), (A, R)> for PartAnd<'p, D, P, M> {
    ghost Taken = { Slot O × M.Taken };

    ghost Values = { O × M.Values };

    ghost ready = { λ p. P.ready p.part.now × M.ready p.others };

    ghost passes = { λ p. row_and (P.meaning p.part.now) (M.passes p.others) };

    ghost taken = { λ s. (slot_of D.shown s.0, M.taken s.1) };

    ghost shown = { λ r. both_shown D.shown M.shown r };

    ghost fits = { λ p s. M.fits p.others s.1 };

    #[inline]
    fn round(
        &self,
        slots: &mut (Option<A>, S),
        inp: &mut InputRef<'src, '_, I, E>,
    ) -> PResult<bool> {
        let here = offer(&self.mode, self.part, &mut slots.0, inp)?;
        let there = self.others.round(&mut slots.1, inp)?;
        Ok(here | there)
    }

    #[inline]
    fn last(&self, slots: (Option<A>, S), inp: &mut InputRef<'src, '_, I, E>) -> PResult<(A, R)> {
        let (slot, slots) = slots;
        let value = complete(&self.mode, self.part, slot, inp)?;
        let values = self.others.last(slots, inp)?;
        Ok((value, values))
    }
}
