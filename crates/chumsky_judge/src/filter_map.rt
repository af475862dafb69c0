//! A parser whose output is picked.
ghost use Rattle.std.specs.Prelude.{◌≡◌, ⊤, Option, [], ◌∷◌};
ghost use Rattle.chumsky_judge.specs.Calls.{RunsAnyway};
ghost use Rattle.chumsky_judge.specs.Vetted.{Vetted};
ghost use Rattle.chumsky_judge.specs.Tried.{ByPick, FilterMapsAlike, SameFilterMapped};
ghost use Rattle.chumsky_parser.specs.ByParts.{part, OutOnlyBy};

use crate::refuse::{fail_as_one, something_else};
use chumsky_input::error::Error;
use chumsky_input::extra::ParserExtra;
use chumsky_input::input::Input;
use chumsky_input::input_ref::InputRef;
use chumsky_input::inspector::Inspector;
use chumsky_input::stop::{Fault, PResult};
use chumsky_parser::moving::Moving;
use chumsky_parser::parser::{IsParser, Parser};
use std::marker::PhantomData;

/// What picks an output: it makes one of another, or answers none. Each closure `Fn(O) -> Option<U>` is one, and so is a
/// type of one's own that has an impl, which says in `gives` what is later known of an output that was picked:
///
/// ```text
/// pub struct BelowTen;
///
/// impl Picker<u64, u8> for BelowTen {
///     ghost gives = { λ picker number picked. IfSome picked (λ digit. digit < 10) };
///
///     fn pick(&self, value: u64) -> Option<u8> {
///         if value < 10 { Some(value as u8) } else { None }
///     }
/// }
/// ```
pub trait Picker<O, U> {
    /// That it may be called. Where nothing is said, it may.
    ghost callable: { Self → Type 0 } = { λ picker. ⊤ };

    /// What it may answer to a value. Where nothing is said, nothing is known of it.
    ghost gives: { Self → O → Option U → Type 0 } = { λ picker value picked. ⊤ };

    /// The output for a value, or none.
    fn pick(&self, value: O) -> Option<U>
        requires { callable self.now }
        ensures { gives self.now value result };
}

impl<O, U, F: Fn(O) -> Option<U>> Picker<O, U> for F {
    ghost callable = { λ f. F.IsAlwaysCallable f };

    ghost gives = { λ f value result. F.post f value result };

    #[inline]
    fn pick(&self, value: O) -> Option<U> {
        (*self)(value)
    }
}

/// A parser whose output goes through a picker, which answers `Some` to what it takes. See `filter_map` and
/// `filter_map_by`.
#[derive(Drop)]
#[derive_where(Clone, Copy; A, F)]
pub struct FilterMap<A, O, F, U> {
    pub parser: A,
    pub picker: F,
    pub of: PhantomData<(O, U)>,
}

impl<I, O, U, E, A: IsParser<I, O, E>, F> IsParser<I, U, E> for FilterMap<A, O, F, U> {}

impl<'src, I, O, U, E, A, F> Parser<'src, I, U, E> for FilterMap<A, O, F, U>
where
    I: Input<'src>,
    U: Drop,
    E: ParserExtra<I>,
    A: Parser<'src, I, O, E>,
    F: Picker<O, U>,
{
    ghost use Rattle.chumsky_judge.specs.Tried.{FilterMapsAlike, SameFilterMapped};
    ghost use Rattle.chumsky_judge.specs.TriedLaws.{picks-alike};
    ghost use Rattle.chumsky_judge.specs.VettedLaws.{vetted-ends, vetted-agrees};
    ghost use Rattle.chumsky_judge.specs.JudgedLanguage.{unsaid_over, vetted_unsaid-accepts};

    ghost ready = { λ p. A.ready p.parser × F.callable p.picker };

    ghost meaning = { λ p errors states. Vetted errors.merged errors.takes_no_memory (ByPick I.Input errors (F.gives p.picker)) (A.meaning p.parser errors states) };

    ghost steady = { λ p. A.steady p.parser × FilterMapsAlike (A.same p.parser) (F.gives p.picker) };

    ghost same = { λ p. SameFilterMapped (A.same p.parser) (F.gives p.picker) };

    ghost ends_after_start = { λ p. vetted-ends _ _ _ _ (A.ends_after_start p.parser) };

    ghost agrees = { λ p s. vetted-agrees _ _ _ _ (A.same p.parser) _ (A.agrees p.parser s.0) (picks-alike _ _ (A.same p.parser) (F.gives p.picker) s.1) };

    ghost language = { λ p. unsaid_over (A.language p.parser) };

    ghost accepts = { λ p. vetted_unsaid-accepts _ _ _ _ (λ q. q.0) (A.accepts p.parser) };

    #[inline]
    fn go_emit(&self, inp: &mut InputRef<'src, '_, I, E>) -> PResult<U> {
        pick_output(self, inp)
    }

    #[inline]
    fn go_check(&self, inp: &mut InputRef<'src, '_, I, E>) -> PResult<()> {
        let output = pick_output(self, inp)?;
        drop(output);
        Ok(())
    }
}

/// Runs the part with nothing kept, and lets the picker judge its output.
#[inline]
fn pick_output<'src, I, O, U, E, A, F>(
    filter_map: &FilterMap<A, O, F, U>,
    inp: &mut InputRef<'src, '_, I, E>,
) -> PResult<U>
where
    I: Input<'src>,
    U: Drop,
    E: ParserExtra<I>,
    A: Parser<'src, I, O, E>,
    F: Picker<O, U>,
    requires part { A.ready filter_map.now.parser }
    requires picker { F.callable filter_map.now.picker }
    ensures ran { RunsAnyway I.Input E.Error.Error E.State.Inspector
        (⟦<FilterMap<A, O, F, U> as Parser<'src, I, U, E>>⟧.meaning filter_map.now) inp.old inp.new result }
    ensures lent { inp.new.state.ghost_name ≡ inp.old.state.ghost_name }
{
    let start = inp.cursor();
    let older = inp.take_kept();
    match filter_map.parser.go_emit(inp) {
        Ok(value) => match filter_map.picker.pick(value) {
            Some(output) => {
                inp.keep_before(older)?;
                Ok(output)
            }
            None => {
                inp.put_kept(older);
                let past = inp.cursor();
                Err(something_else(&start, &past, inp))
            }
        },
        Err(Fault::Fail) => Err(fail_as_one(older, inp)),
        Err(Fault::Stop(stop)) => Err(Fault::Stop(stop)),
    }
}

impl<'src, I, O, U, E, A, F> Moving<'src, I, U, E> for FilterMap<A, O, F, U>
where
    I: Input<'src>,
    U: Drop,
    E: ParserExtra<I>,
    A: Moving<'src, I, O, E>,
    F: Picker<O, U>,
{
    ghost use Rattle.chumsky_judge.specs.JudgedMoves.{vetted-moves};

    ghost moves = { λ p. A.moves p.parser };

    ghost moved = { λ p e. vetted-moves _ _ _ _ (A.moved p.parser e) };

    fn always_moves(&self) -> bool
        ensures { result ≡ A.moves self.now.parser }
    {
        self.parser.always_moves()
    }
}

/// Never refused for memory where no part is: `a.filter_map(f)` and `a.filter_map_by(f)`, under errors that take no memory:
/// one is built for a value that isn't picked.
pub fn filter_map_is_never_out_of_memory<
    'src,
    I: Input<'src>,
    O,
    U: Drop,
    E: ParserExtra<I>,
    A: Parser<'src, I, O, E>,
    F: Picker<O, U>,
>(filter_map: &FilterMap<A, O, F, U>)
    ensures { let f = filter_map.now in E.Error.takes_no_memory → OutOnlyBy E.Error.Error E.State.Inspector
        (part (A.meaning f.parser) ∷ [])
        (⟦<FilterMap<A, O, F, U> as Parser<'src, I, U, E>>⟧.meaning f) }
{}

/// When it is ready and steady, and which outputs are the same: `a.filter_map(f)` and `a.filter_map_by(f)`.
pub fn filter_map_is_steady<
    'src,
    I: Input<'src>,
    O,
    U: Drop,
    E: ParserExtra<I>,
    A: Parser<'src, I, O, E>,
    F: Picker<O, U>,
>(filter_map: &FilterMap<A, O, F, U>)
    ensures ready { A.ready filter_map.now.parser → F.callable filter_map.now.picker → ⟦<FilterMap<A, O, F, U> as Parser<'src, I, U, E>>⟧.ready filter_map.now }
    ensures steady { A.steady filter_map.now.parser → FilterMapsAlike (A.same filter_map.now.parser) (F.gives filter_map.now.picker) → ⟦<FilterMap<A, O, F, U> as Parser<'src, I, U, E>>⟧.steady filter_map.now }
    ensures same { (x y : U) → ⟦<FilterMap<A, O, F, U> as Parser<'src, I, U, E>>⟧.same filter_map.now x y → SameFilterMapped (A.same filter_map.now.parser) (F.gives filter_map.now.picker) x y }
{}
