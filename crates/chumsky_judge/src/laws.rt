//! Laws that compare parsers with their parts, each the contract of a function that does nothing.
ghost use Rattle.std.specs.Prelude.{◌≡◌, true, Some};
ghost use Rattle.chumsky_input.specs.Extra.{MayAnswer};
ghost use Rattle.chumsky_judge.specs.Compared.{PassesEach, PicksEach, MapsEach, maps_spanned};
ghost use Rattle.chumsky_judge.specs.Compared.{GivesBackAlone, GivesBackFrom, GivesBack};
ghost use Rattle.chumsky_judge.specs.Compared.{YesStays, YesEndsAs, DoesAsPart, DoesAsPartIfQuiet, DoesAsOne, SucceedsAs, SameIfBlind};
ghost use Rattle.chumsky_judge.specs.MapErr.{MapsSeen, MapsShown, MapsWithState};
ghost use Rattle.chumsky_judge.specs.Unwrapped.{AlwaysGives};
ghost use Rattle.chumsky_judge.specs.Validated.{ByEmitter};

use crate::and_is::AndIs;
use crate::filter::{Filter, Tester};
use crate::filter_map::{FilterMap, Picker};
use crate::map_err::MapErr;
use crate::map_err_with::MapErrWith;
use crate::map_err_with_state::MapErrWithState;
use crate::not::Not;
use crate::rewind::Rewind;
use crate::try_map::{TryMap, TryMapper};
use crate::try_map_with::TryMapWith;
use crate::validate::Validate;
use chumsky_input::emitter::Emitter;
use chumsky_input::extra::ParserExtra;
use chumsky_input::input::Input;
use chumsky_input::map_extra::MapExtra;
use chumsky_parser::parser::Parser;

/// Where `a.not()` succeeds it ends where it began.
pub fn not_ends_where_it_began<
    'src,
    I: Input<'src>,
    O,
    E: ParserExtra<I>,
    A: Parser<'src, I, O, E>,
>(not: &Not<A, O>)
    ensures { YesStays (⟦<Not<A, O> as Parser<'src, I, (), E>>⟧.meaning not.now E.Error.Error E.State.Inspector) }
{}

/// Where `a.rewind()` succeeds it ends where it began.
pub fn rewind_ends_where_it_began<
    'src,
    I: Input<'src>,
    O: Drop,
    E: ParserExtra<I>,
    A: Parser<'src, I, O, E>,
>(rewind: &Rewind<A>)
    ensures { YesStays (⟦<Rewind<A> as Parser<'src, I, O, E>>⟧.meaning rewind.now E.Error.Error E.State.Inspector) }
{}

/// Where `a.and_is(b)` succeeds it ends where `a` ends, with the output of `a`.
pub fn and_is_ends_where_its_first_part_ends<
    'src,
    I: Input<'src>,
    O: Drop,
    U,
    E: ParserExtra<I>,
    A: Parser<'src, I, O, E>,
    B: Parser<'src, I, U, E>,
>(and_is: &AndIs<A, B, U>)
    ensures { YesEndsAs (A.meaning and_is.now.parser E.Error.Error E.State.Inspector)
        (⟦<AndIs<A, B, U> as Parser<'src, I, O, E>>⟧.meaning and_is.now E.Error.Error E.State.Inspector) }
{}

/// `a.filter(f)` with an `f` that is always true answers as `a` does: the same verdict, output, end, state and emitted
/// errors. Only the failures of `a` count as one.
pub fn filter_of_all_answers_as_its_part<
    'src,
    I: Input<'src>,
    O: Drop,
    E: ParserExtra<I>,
    A: Parser<'src, I, O, E>,
    F: Tester<O>,
>(filter: &Filter<A, F>)
    ensures { PassesEach (F.gives filter.now.tester) → DoesAsPart E.Error.Error E.State.Inspector (λ b end v w. w ≡ v)
        (A.meaning filter.now.parser) (⟦<Filter<A, F> as Parser<'src, I, O, E>>⟧.meaning filter.now) }
{}

/// Each output of `a.filter(f)` has passed the test.
pub fn filter_gives_what_passed<
    'src,
    I: Input<'src>,
    O: Drop,
    E: ParserExtra<I>,
    A: Parser<'src, I, O, E>,
    F: Tester<O>,
>(filter: &Filter<A, F>)
    ensures { AlwaysGives (λ v. F.gives filter.now.tester v true) (⟦<Filter<A, F> as Parser<'src, I, O, E>>⟧.meaning filter.now E.Error.Error E.State.Inspector) }
{}

/// `a.filter_map(f)` with an `f` that never answers none answers as `a.map(f)` does: the verdict, end, state and emitted
/// errors of `a`, with what `f` picked as the output. Only the failures of `a` count as one.
pub fn filter_map_of_all_answers_as_its_part<
    'src,
    I: Input<'src>,
    O,
    U: Drop,
    E: ParserExtra<I>,
    A: Parser<'src, I, O, E>,
    F: Picker<O, U>,
>(filter_map: &FilterMap<A, O, F, U>)
    ensures { let p = filter_map.now in
        PicksEach (F.gives p.picker) → DoesAsPart E.Error.Error E.State.Inspector (λ b end v w. F.gives p.picker v (Some w))
        (A.meaning p.parser) (⟦<FilterMap<A, O, F, U> as Parser<'src, I, U, E>>⟧.meaning p) }
{}

/// Each output of `a.filter_map(f)` is one that `f` picked.
pub fn filter_map_gives_what_was_picked<
    'src,
    I: Input<'src>,
    O,
    U: Drop,
    E: ParserExtra<I>,
    A: Parser<'src, I, O, E>,
    F: Picker<O, U>,
>(filter_map: &FilterMap<A, O, F, U>)
    ensures { AlwaysGives (λ w. (v : O) × F.gives filter_map.now.picker v (Some w)) (⟦<FilterMap<A, O, F, U> as Parser<'src, I, U, E>>⟧.meaning filter_map.now E.Error.Error E.State.Inspector) }
{}

/// `a.try_map(f)` with an `f` that never refuses answers as `a.map(f)` does: the verdict, end, state and emitted errors of
/// `a`, with what `f` answers as the output. Only the failures of `a` count as one.
pub fn try_map_of_all_answers_as_its_part<
    'src,
    I: Input<'src>,
    O,
    U: Drop,
    E: ParserExtra<I>,
    A: Parser<'src, I, O, E>,
    F: TryMapper<O, I::Span, U, E::Error>,
>(try_map: &TryMap<A, O, F, U>)
    ensures { let maps = F.gives try_map.now.mapper in
        MapsEach maps → DoesAsPart E.Error.Error E.State.Inspector (maps_spanned I.Input maps)
        (A.meaning try_map.now.parser) (⟦<TryMap<A, O, F, U> as Parser<'src, I, U, E>>⟧.meaning try_map.now) }
{}

/// Where its closure takes no notice of the run but for the span, and leaves the state, `try_map_with` has the outcomes of
/// `try_map` by a mapper with the same answers.
pub fn try_map_with_by_a_blind_closure_is_try_map<
    'src,
    I: Input<'src>,
    O,
    U: Drop,
    E: ParserExtra<I>,
    A: Parser<'src, I, O, E>,
    F: Fn(O, &mut MapExtra<'src, '_, I, E>) -> Result<U, E::Error>,
    G: TryMapper<O, I::Span, U, E::Error>,
>(try_map: &TryMapWith<A, O, F, U>, mapper: &G)
    ensures { SameIfBlind I.Input E.Error.Error E.State.Inspector F.Fn G.gives
        ⟦<TryMapWith<A, O, F, U> as Parser<'src, I, U, E>>⟧.meaning
        ⟦<TryMap<A, O, G, U> as Parser<'src, I, U, E>>⟧.meaning try_map.now mapper.now }
{}

/// `a.map_err(f)` succeeds where `a` does, and then is as `a` is. With an `f` that gives back each error, by what counts of
/// it, it answers as `a` does. Only the failures of `a` count as one.
pub fn map_err_succeeds_as_its_part<
    'src,
    I: Input<'src>,
    O: Drop,
    E: ParserExtra<I>,
    A: Parser<'src, I, O, E>,
    F: Fn(E::Error) -> E::Error,
>(map_err: &MapErr<A, F>)
    ensures succeeds { SucceedsAs E.Error.Error E.State.Inspector
        (A.meaning map_err.now.parser) (⟦<MapErr<A, F> as Parser<'src, I, O, E>>⟧.meaning map_err.now) }
    ensures itself { let m = map_err.now in
        GivesBackAlone (MapsSeen E.Error.seen (F.post m.mapper)) → DoesAsOne E.Error.Error E.State.Inspector
        (A.meaning m.parser) (⟦<MapErr<A, F> as Parser<'src, I, O, E>>⟧.meaning m) }
{}

/// The same of `a.map_err_with(f)`, and an `f` that leaves the state too.
pub fn map_err_with_succeeds_as_its_part<
    'src,
    I: Input<'src>,
    O: Drop,
    E: ParserExtra<I>,
    A: Parser<'src, I, O, E>,
    F: Fn(E::Error, &mut MapExtra<'src, '_, I, E>) -> E::Error,
>(map_err: &MapErrWith<A, F>)
    ensures succeeds { SucceedsAs E.Error.Error E.State.Inspector
        (A.meaning map_err.now.parser) (⟦<MapErrWith<A, F> as Parser<'src, I, O, E>>⟧.meaning map_err.now) }
    ensures itself { let m = map_err.now in
        GivesBack (MapsShown E.Error.seen (MayAnswer I.Input E.State.Inspector F.Fn m.mapper)) → DoesAsOne E.Error.Error E.State.Inspector
        (A.meaning m.parser) (⟦<MapErrWith<A, F> as Parser<'src, I, O, E>>⟧.meaning m) }
{}

/// The same of `a.map_err_with_state(f)`, and an `f` that leaves the state too.
pub fn map_err_with_state_succeeds_as_its_part<
    'src,
    I: Input<'src>,
    O: Drop,
    E: ParserExtra<I>,
    A: Parser<'src, I, O, E>,
    F: Fn(E::Error, I::Span, &mut E::State) -> E::Error,
>(map_err: &MapErrWithState<A, F>)
    ensures succeeds { SucceedsAs E.Error.Error E.State.Inspector
        (A.meaning map_err.now.parser) (⟦<MapErrWithState<A, F> as Parser<'src, I, O, E>>⟧.meaning map_err.now) }
    ensures itself { let m = map_err.now in
        GivesBackFrom (MapsWithState E.Error.Error E.State.Inspector F.Fn m.mapper) →
        DoesAsOne E.Error.Error E.State.Inspector
        (A.meaning m.parser) (⟦<MapErrWithState<A, F> as Parser<'src, I, O, E>>⟧.meaning m) }
{}

/// `a.validate(f)` with an `f` that emits nothing and leaves the state answers as `a` does: the same verdict, end, state,
/// failures and emitted errors, with what `f` gives as the output.
pub fn validate_that_emits_nothing_answers_as_its_part<
    'src,
    I: Input<'src>,
    O,
    U: Drop,
    E: ParserExtra<I>,
    A: Parser<'src, I, O, E>,
    F: Fn(O, &mut MapExtra<'src, '_, I, E>, &mut Emitter<E::Error>) -> U,
>(validate: &Validate<A, O, F, U>)
    ensures { DoesAsPartIfQuiet E.Error.Error E.State.Inspector
        (ByEmitter I.Input E.State.Inspector F.Fn validate.now.validator E.Error.seen)
        (A.meaning validate.now.parser) (⟦<Validate<A, O, F, U> as Parser<'src, I, U, E>>⟧.meaning validate.now) }
{}
