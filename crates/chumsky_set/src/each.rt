//! Parts of one type, in a list.
ghost use Rattle.std.specs.Prelude.{◌≡◌, true, false, IfOk, IsOk, List, Option, Some, None, length, map, replicate};
ghost use Rattle.std.specs.List.{All};
ghost use Rattle.chumsky_set.specs.Doing.{each_row, LessensSlots, RunsLast, RunsPass};
ghost use Rattle.chumsky_set.specs.AnyOrder.{Slot};
ghost use Rattle.chumsky_set.specs.Passes.{shown_by, slot_of, taken_then};

use crate::mode::{ForValue, Runs, WithoutValue};
use crate::part::{complete, offer};
use crate::row::PartsRow;
use chumsky_input::extra::ParserExtra;
use chumsky_input::input::Input;
use chumsky_input::input_ref::InputRef;
use chumsky_input::stop::{Fault, PResult, Stop};
use chumsky_parser::parser::Parser;
use std::alloc::{AllocError, Global};

/// Slots with nothing yet.
pub fn no_slots<A: Drop>(alloc: Global, count: usize) -> Result<Vec<Option<A>>, AllocError>
    ensures items { IfOk result (λ v. v.items ≡ replicate count None) }
    ensures none { count ≡ 0 → IsOk result }
{
    let mut slots = Vec::with_capacity(alloc, count)?;
    for _ in 0..count {
        slots.push(None)?;
    }
    Ok(slots)
}

/// One round over a list of parts.
#[inline]
pub fn round_each<
    'src,
    I: Input<'src>,
    O,
    E: ParserExtra<I>,
    P: Parser<'src, I, O, E>,
    A: Drop,
    D: Runs<'src, I, O, E, P, A>,
>(
    mode: &D,
    parts: &[P],
    slots: &mut [Option<A>],
    inp: &mut InputRef<'src, '_, I, E>,
) -> PResult<bool>
    requires ready { All P.ready parts.now }
    requires fits { length slots.old ≡ length parts.now }
    ensures ran { RunsPass I.Input E.Error.Error E.State.Inspector (each_row P.meaning parts.now)
        (map (slot_of D.shown) slots.old) D.wanted inp.old inp.new
        (taken_then (map (slot_of D.shown) slots.new) result) }
    ensures lessens { LessensSlots D.shown slots.old slots.new result }
    ensures fits { length slots.new ≡ length parts.now }
    ensures lent { inp.new.state.ghost_name ≡ inp.old.state.ghost_name }
{
    let mut more = false;
    for i in 0..parts.len() {
        let part = &parts[i];
        let taken = offer(mode, part, &mut slots[i], inp)?;
        more = more | taken;
    }
    Ok(more)
}

/// The last pass over a list of parts, for their values.
#[inline]
fn last_values<'src, I: Input<'src>, O: Drop, E: ParserExtra<I>, P: Parser<'src, I, O, E>>(
    parts: &[P],
    slots: &mut [Option<O>],
    inp: &mut InputRef<'src, '_, I, E>,
) -> PResult<Vec<O>>
    requires ready { All P.ready parts.now }
    requires fits { length slots.old ≡ length parts.now }
    ensures ran { RunsLast I.Input E.Error.Error E.State.Inspector (each_row P.meaning parts.now)
        (map (slot_of (λ v. Some v)) slots.old) true inp.old inp.new
        (shown_by (λ v. Some v.items) result) }
    ensures lent { inp.new.state.ghost_name ≡ inp.old.state.ghost_name }
{
    let mut values = Vec::with_capacity(inp.alloc(), parts.len())?;
    for i in 0..parts.len() {
        let part = &parts[i];
        let slot = slots[i].take();
        let value = complete(&ForValue, part, slot, inp)?;
        if values.push(value).is_err() {
            return Err(Fault::Stop(Stop::Memory));
        }
    }
    Ok(values)
}

/// The last pass over a list of parts, without their values.
#[inline]
fn last_checks<'src, I: Input<'src>, O, E: ParserExtra<I>, P: Parser<'src, I, O, E>>(
    parts: &[P],
    slots: &[Option<()>],
    inp: &mut InputRef<'src, '_, I, E>,
) -> PResult<()>
    requires ready { All P.ready parts.now }
    requires fits { length slots.now ≡ length parts.now }
    ensures ran { RunsLast I.Input E.Error.Error E.State.Inspector (each_row P.meaning parts.now)
        (map (slot_of (λ _. None)) slots.now) false inp.old inp.new
        (shown_by (λ _. None) result) }
    ensures lent { inp.new.state.ghost_name ≡ inp.old.state.ghost_name }
{
    for i in 0..parts.len() {
        let part = &parts[i];
        complete(&WithoutValue, part, slots[i], inp)?;
    }
    Ok(())
}

/// A list of parts, run in the mode `D`.
#[derive(Clone, Copy)]
pub struct Each<'p, D, P> {
    pub mode: D,
    pub parts: &'p [P],
}

impl<'src, 'p, I: Input<'src>, O: Drop, E: ParserExtra<I>, P: Parser<'src, I, O, E>> PartsRow<
    'src,
    I,
    E,
    ForValue,
    O,
    Vec<Option<O>>,
    Vec<O>,
> for Each<'p, ForValue, P> {
    ghost Taken = { List (Slot O) };

    ghost Values = { List O };

    ghost ready = { λ p. All P.ready p.parts.now };

    ghost passes = { λ p. each_row P.meaning p.parts.now };

    ghost taken = { λ s. map (slot_of (λ v. Some v)) s.items };

    ghost shown = { λ v. Some v.items };

    ghost fits = { λ p s. length s.items ≡ length p.parts.now };

    #[inline]
    fn round(
        &self,
        slots: &mut Vec<Option<O>>,
        inp: &mut InputRef<'src, '_, I, E>,
    ) -> PResult<bool> {
        round_each(&self.mode, self.parts, slots.as_mut_slice(), inp)
    }

    #[inline]
    fn last(&self, slots: Vec<Option<O>>, inp: &mut InputRef<'src, '_, I, E>) -> PResult<Vec<O>> {
        let mut slots = slots;
        last_values(self.parts, slots.as_mut_slice(), inp)
    }
}

impl<'src, 'p, I: Input<'src>, O, E: ParserExtra<I>, P: Parser<'src, I, O, E>> PartsRow<
    'src,
    I,
    E,
    WithoutValue,
    O,
    Vec<Option<()>>,
    (),
> for Each<'p, WithoutValue, P> {
    ghost Taken = { List (Slot O) };

    ghost Values = { List O };

    ghost ready = { λ p. All P.ready p.parts.now };

    ghost passes = { λ p. each_row P.meaning p.parts.now };

    ghost taken = { λ s. map (slot_of (λ _. None)) s.items };

    ghost shown = { λ _. None };

    ghost fits = { λ p s. length s.items ≡ length p.parts.now };

    #[inline]
    fn round(
        &self,
        slots: &mut Vec<Option<()>>,
        inp: &mut InputRef<'src, '_, I, E>,
    ) -> PResult<bool> {
        round_each(&self.mode, self.parts, slots.as_mut_slice(), inp)
    }

    #[inline]
    fn last(&self, slots: Vec<Option<()>>, inp: &mut InputRef<'src, '_, I, E>) -> PResult<()> {
        last_checks(self.parts, slots.as_slice(), inp)
    }
}
