//! Sets of an array of parsers, whose values stand in an array.
ghost use Rattle.std.specs.Prelude.{◌≡◌, ◌≤◌, true, false, Some, length, map};
ghost use Rattle.std.specs.List.{All};
ghost use Rattle.std.specs.Mem.{FitsInMemory};
ghost use Rattle.chumsky_input.specs.Run.{without_value};
ghost use Rattle.chumsky_set.specs.Lists.{slots_row};
ghost use Rattle.chumsky_set.specs.Doing.{stored_row, RunsLast};
ghost use Rattle.chumsky_set.specs.Passes.{shown_by, slot_of};

use crate::each::round_each;
use crate::mode::ForValue;
use crate::part::complete;
use crate::set::Set;
use arrayvec::ArrayVec;
use chumsky_input::extra::ParserExtra;
use chumsky_input::input::Input;
use chumsky_input::input_ref::InputRef;
use chumsky_input::stop::PResult;
use chumsky_parser::parser::{IsParser, Parser};
use std::marker::PhantomData;

/// The slots of a set over an array, one optional output for each of its parsers, fit in memory.
///
/// This holds for every array whose size is known, and is then found by the check. A function that runs such a set and is
/// generic in `N` or `O` can't know the size, and names `[Option<O>; N]: Slots` as a bound.
pub trait Slots: Sized {
    /// They fit in memory: they take less than 2 to the 63 bytes. At run time it does nothing.
    fn fit(slots: PhantomData<Self>)
        ensures { FitsInMemory Self.row };
}

impl<O, const N: usize> Slots for [Option<O>; N] {
    #[inline]
    fn fit(_slots: PhantomData<[Option<O>; N]>)
        ensures { FitsInMemory (slots_row O.row N) }
    {}
}

/// The last pass over some parts, for their values.
#[inline]
fn last_stored<
    'src,
    I: Input<'src>,
    O: Default + Drop,
    E: ParserExtra<I>,
    P: Parser<'src, I, O, E>,
    const N: usize,
>(
    parts: &[P],
    slots: &mut [Option<O>],
    inp: &mut InputRef<'src, '_, I, E>,
) -> PResult<ArrayVec<O, N>>
    requires ready { All P.ready parts.now }
    requires fits { length slots.old ≡ length parts.now }
    requires room { length parts.now ≤ N }
    ensures ran { RunsLast I.Input E.Error.Error E.State.Inspector (stored_row P.meaning parts.now)
        (map (slot_of (λ v. Some v)) slots.old) true inp.old inp.new
        (shown_by (λ v. Some v.items) result) }
    ensures lent { inp.new.state.ghost_name ≡ inp.old.state.ghost_name }
{
    let mut values = ArrayVec::new();
    for i in 0..parts.len() {
        let part = &parts[i];
        let slot = slots[i].take();
        let value = complete(&ForValue, part, slot, inp)?;
        values.push(value);
    }
    Ok(values)
}

/// The last pass over some parts, for their values, which are dropped.
#[inline]
fn last_dropped<'src, I: Input<'src>, O: Drop, E: ParserExtra<I>, P: Parser<'src, I, O, E>>(
    parts: &[P],
    slots: &mut [Option<O>],
    inp: &mut InputRef<'src, '_, I, E>,
) -> PResult<()>
    requires ready { All P.ready parts.now }
    requires fits { length slots.old ≡ length parts.now }
    ensures ran { RunsLast I.Input E.Error.Error E.State.Inspector (stored_row P.meaning parts.now)
        (map (slot_of (λ v. Some v)) slots.old) false inp.old inp.new (without_value result) }
    ensures lent { inp.new.state.ghost_name ≡ inp.old.state.ghost_name }
{
    for i in 0..parts.len() {
        let part = &parts[i];
        let slot = slots[i].take();
        complete(&ForValue, part, slot, inp)?;
    }
    Ok(())
}

impl<I, O, E, P: IsParser<I, O, E>, const N: usize> IsParser<I, ArrayVec<O, N>, E>
    for Set<[P; N]> {}

impl<
    'src,
    I: Input<'src>,
    O: Default + Drop,
    E: ParserExtra<I>,
    P: Parser<'src, I, O, E>,
    const N: usize,
> Parser<'src, I, ArrayVec<O, N>, E> for Set<[P; N]>
where
    [Option<O>; N]: Slots,
{
    ghost use Rattle.chumsky_set.specs.Doing.{DoesSetStored};
    ghost use Rattle.chumsky_set.specs.Lists.{Each};
    ghost use Rattle.chumsky_set.specs.ListsLaws.{set_stored-ends, set_stored-agrees};
    ghost use Rattle.chumsky_set.specs.SetLanguage.{set_language};
    ghost use Rattle.chumsky_set.specs.SetEach.{each_language, set_stored-accepts};

    ghost ready = { λ p. All P.ready p.parsers };

    ghost meaning = { λ p. DoesSetStored P.meaning (λ v. v.items) p.parsers };

    ghost steady = { λ p. All P.steady p.parsers };

    ghost same = { λ p v w. Each P.same p.parsers v.items w.items };

    ghost language = { λ p. set_language (λ v. v.items) (each_language P.language p.parsers) };

    ghost ends_after_start = { λ p. set_stored-ends _ _ _ _ _ p.parsers (λ x. P.ends_after_start x) };

    ghost agrees = { λ p s. set_stored-agrees _ _ _ _ _ p.parsers P.steady P.same (λ x k. P.agrees x k) s };

    ghost accepts = { λ p. set_stored-accepts _ _ (λ v. v.items) (λ q. q.1) (λ x. P.accepts x) p.parsers };

    #[inline]
    fn go_emit(&self, inp: &mut InputRef<'src, '_, I, E>) -> PResult<ArrayVec<O, N>> {
        <[Option<O>; N] as Slots>::fit(PhantomData);
        let parts = slice_of(&self.parsers);
        let mut slots: [Option<O>; N] = Default::default();
        'rounds: loop {
            let more = round_each(&ForValue, parts, &mut slots, inp)?;
            if !more {
                break 'rounds;
            }
        }
        last_stored(parts, &mut slots, inp)
    }

    #[inline]
    fn go_check(&self, inp: &mut InputRef<'src, '_, I, E>) -> PResult<()> {
        <[Option<O>; N] as Slots>::fit(PhantomData);
        let parts = slice_of(&self.parsers);
        let mut slots: [Option<O>; N] = Default::default();
        'rounds: loop {
            let more = round_each(&ForValue, parts, &mut slots, inp)?;
            if !more {
                break 'rounds;
            }
        }
        last_dropped(parts, &mut slots, inp)
    }
}

/// The parsers of an array, which are `N`.
#[inline]
fn slice_of<P, const N: usize>(parsers: &[P; N]) -> &[P]
    ensures all { result.now ≡ parsers.now }
    ensures sized { length result.now ≡ N }
{
    parsers
}
