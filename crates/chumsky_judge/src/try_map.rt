//! A mapper that may refuse.
ghost use Rattle.std.specs.Prelude.{◌≡◌, ⊤, Result, [], ◌∷◌};
ghost use Rattle.chumsky_judge.specs.Calls.{RunsAnyway};
ghost use Rattle.chumsky_judge.specs.Vetted.{Vetted};
ghost use Rattle.chumsky_judge.specs.Tried.{ByTry, TriesAlike, SameTryMapped};
ghost use Rattle.chumsky_parser.specs.ByParts.{part, OutOnlyBy};

use crate::filter::Tester;
use crate::filter_map::Picker;
use crate::refuse::fail_as_one;
use chumsky_input::error::Error;
use chumsky_input::extra::ParserExtra;
use chumsky_input::input::{Input, Tokens};
use chumsky_input::input_ref::InputRef;
use chumsky_input::inspector::Inspector;
use chumsky_input::stop::{Fault, PResult};
use chumsky_parser::moving::Moving;
use chumsky_parser::parser::{IsParser, Parser};
use std::marker::PhantomData;

/// What makes an output of another and of its span, or refuses with an error. Each closure `Fn(O, S) -> Result<U, R>` is
/// one, and so is a type of one's own that has an impl, which says in `gives` what is later known of the output.
pub trait TryMapper<O, S, U, R> {
    /// That it may be called. Where nothing is said, it may.
    ghost callable: { Self → Type 0 } = { λ mapper. ⊤ };

    /// What it may answer to a value and a span. Where nothing is said, nothing is known of it.
    ghost gives: { Self → O → S → Result U R → Type 0 } = { λ mapper value span answer. ⊤ };

    /// The output for a value and its span, or the error that refuses it.
    fn try_apply(&self, value: O, span: S) -> Result<U, R>
        requires { callable self.now }
        ensures { gives self.now value span result };
}

impl<O, S, U, R, F: Fn(O, S) -> Result<U, R>> TryMapper<O, S, U, R> for F {
    ghost callable = { λ f. F.IsAlwaysCallable f };

    ghost gives = { λ f value span result. F.post f value span result };

    #[inline]
    fn try_apply(&self, value: O, span: S) -> Result<U, R> {
        (*self)(value, span)
    }
}

/// A parser whose output goes through a mapper that may refuse it. See `try_map` and `try_map_by`.
#[derive(Drop)]
#[derive_where(Clone, Copy; A, F)]
pub struct TryMap<A, O, F, U> {
    pub parser: A,
    pub mapper: F,
    pub of: PhantomData<(O, U)>,
}

impl<I, O, U, E, A: IsParser<I, O, E>, F> IsParser<I, U, E> for TryMap<A, O, F, U> {}

impl<'src, I, O, U, E, A, F> Parser<'src, I, U, E> for TryMap<A, O, F, U>
where
    I: Input<'src>,
    U: Drop,
    E: ParserExtra<I>,
    A: Parser<'src, I, O, E>,
    F: TryMapper<O, I::Span, U, E::Error>,
{
    ghost use Rattle.chumsky_judge.specs.Tried.{TriesAlike, SameTryMapped};
    ghost use Rattle.chumsky_judge.specs.TriedLaws.{tries-alike};
    ghost use Rattle.chumsky_judge.specs.VettedLaws.{vetted-ends, vetted-agrees};
    ghost use Rattle.chumsky_judge.specs.JudgedLanguage.{unsaid_over, vetted_unsaid-accepts};

    ghost ready = { λ p. A.ready p.parser × F.callable p.mapper };

    ghost meaning = { λ p errors states. Vetted errors.merged ⊤ (ByTry I.Input errors (F.gives p.mapper)) (A.meaning p.parser errors states) };

    ghost steady = { λ p. A.steady p.parser × TriesAlike (A.same p.parser) E.Error.seen (F.gives p.mapper) };

    ghost same = { λ p. SameTryMapped (A.same p.parser) E.Error.seen (F.gives p.mapper) };

    ghost ends_after_start = { λ p. vetted-ends _ _ _ _ (A.ends_after_start p.parser) };

    ghost agrees = { λ p s. vetted-agrees _ _ _ _ (A.same p.parser) _ (A.agrees p.parser s.0) (tries-alike _ _ (A.same p.parser) (F.gives p.mapper) s.1) };

    ghost language = { λ p. unsaid_over (A.language p.parser) };

    ghost accepts = { λ p. vetted_unsaid-accepts _ _ _ _ (λ _. tt) (A.accepts p.parser) };

    #[inline]
    fn go_emit(&self, inp: &mut InputRef<'src, '_, I, E>) -> PResult<U> {
        attempt(self, inp)
    }

    #[inline]
    fn go_check(&self, inp: &mut InputRef<'src, '_, I, E>) -> PResult<()> {
        let output = attempt(self, inp)?;
        drop(output);
        Ok(())
    }
}

/// Runs the part with nothing kept, and calls the mapper on its output.
#[inline]
fn attempt<'src, I, O, U, E, A, F>(
    try_map: &TryMap<A, O, F, U>,
    inp: &mut InputRef<'src, '_, I, E>,
) -> PResult<U>
where
    I: Input<'src>,
    U: Drop,
    E: ParserExtra<I>,
    A: Parser<'src, I, O, E>,
    F: TryMapper<O, I::Span, U, E::Error>,
    requires part { A.ready try_map.now.parser }
    requires mapper { F.callable try_map.now.mapper }
    ensures ran { RunsAnyway I.Input E.Error.Error E.State.Inspector
        (⟦<TryMap<A, O, F, U> as Parser<'src, I, U, E>>⟧.meaning try_map.now) inp.old inp.new result }
    ensures lent { inp.new.state.ghost_name ≡ inp.old.state.ghost_name }
{
    let start = inp.cursor();
    let older = inp.take_kept();
    match try_map.parser.go_emit(inp) {
        Ok(value) => {
            let span = I::span(&start, &inp.cursor());
            match try_map.mapper.try_apply(value, span) {
                Ok(output) => {
                    inp.keep_before(older)?;
                    Ok(output)
                }
                Err(error) => {
                    inp.put_kept(older);
                    Err(inp.add_event(I::place(&start), error))
                }
            }
        }
        Err(Fault::Fail) => Err(fail_as_one(older, inp)),
        Err(Fault::Stop(stop)) => Err(Fault::Stop(stop)),
    }
}

impl<'src, I, O, U, E, A, F> Moving<'src, I, U, E> for TryMap<A, O, F, U>
where
    I: Input<'src>,
    U: Drop,
    E: ParserExtra<I>,
    A: Moving<'src, I, O, E>,
    F: TryMapper<O, I::Span, U, E::Error>,
{
    ghost use Rattle.chumsky_judge.specs.JudgedMoves.{vetted-moves};

    ghost moves = { λ p. A.moves p.parser };

    ghost moved = { λ p e. vetted-moves _ _ _ _ (A.moved p.parser e) };

    fn always_moves(&self) -> bool
        ensures { result ≡ A.moves self.now.parser }
    {
        self.parser.always_moves()
    }
}

/// Never refused for memory where no part is: `a.try_map(f)` and `a.try_map_by(f)`, under any errors: the mapper brings its
/// own.
pub fn try_map_is_never_out_of_memory<
    'src,
    I: Input<'src>,
    O,
    U: Drop,
    E: ParserExtra<I>,
    A: Parser<'src, I, O, E>,
    F: TryMapper<O, I::Span, U, E::Error>,
>(try_map: &TryMap<A, O, F, U>)
    ensures { let t = try_map.now in OutOnlyBy E.Error.Error E.State.Inspector
        (part (A.meaning t.parser) ∷ [])
        (⟦<TryMap<A, O, F, U> as Parser<'src, I, U, E>>⟧.meaning t) }
{}

/// When it is ready and steady, and which outputs are the same: `a.try_map(f)` and `a.try_map_by(f)`.
pub fn try_map_is_steady<
    'src,
    I: Input<'src>,
    O,
    U: Drop,
    E: ParserExtra<I>,
    A: Parser<'src, I, O, E>,
    F: TryMapper<O, I::Span, U, E::Error>,
>(try_map: &TryMap<A, O, F, U>)
    ensures ready { A.ready try_map.now.parser → F.callable try_map.now.mapper → ⟦<TryMap<A, O, F, U> as Parser<'src, I, U, E>>⟧.ready try_map.now }
    ensures steady { A.steady try_map.now.parser → TriesAlike (A.same try_map.now.parser) E.Error.seen (F.gives try_map.now.mapper) → ⟦<TryMap<A, O, F, U> as Parser<'src, I, U, E>>⟧.steady try_map.now }
    ensures same { (x y : U) → ⟦<TryMap<A, O, F, U> as Parser<'src, I, U, E>>⟧.same try_map.now x y → SameTryMapped (A.same try_map.now.parser) E.Error.seen (F.gives try_map.now.mapper) x y }
{}

/// A closure tests, picks and maps where it may be called.
pub fn closures_may_judge<
    O,
    S,
    U,
    R,
    F: Fn(&O) -> bool,
    G: Fn(O) -> Option<U>,
    H: Fn(O, S) -> Result<U, R>,
>(tester: &F, picker: &G, mapper: &H)
    ensures tester { F.IsAlwaysCallable tester.now → ⟦<F as Tester<O>>⟧.callable tester.now }
    ensures picker { G.IsAlwaysCallable picker.now → ⟦<G as Picker<O, U>>⟧.callable picker.now }
    ensures mapper { H.IsAlwaysCallable mapper.now → ⟦<H as TryMapper<O, S, U, R>>⟧.callable mapper.now }
{}
