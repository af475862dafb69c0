//! A parser whose output has to pass a test.
ghost use Rattle.std.specs.Prelude.{◌≡◌, Bool, ⊤, [], ◌∷◌};
ghost use Rattle.std.specs.Fn.{FnReturnsAt};
ghost use Rattle.chumsky_judge.specs.Calls.{RunsAnyway};
ghost use Rattle.chumsky_judge.specs.Vetted.{Vetted, ByTest, TestsAlike};
ghost use Rattle.chumsky_parser.specs.ByParts.{part, OutOnlyBy};

use crate::refuse::{fail_as_one, something_else};
use chumsky_input::error::Error;
use chumsky_input::extra::ParserExtra;
use chumsky_input::input::Input;
use chumsky_input::input_ref::InputRef;
use chumsky_input::inspector::Inspector;
use chumsky_input::stop::{Fault, PResult};
use chumsky_parser::moving::Moving;
use chumsky_parser::parser::{IsParser, Parser};

/// What tests an output. Each closure `Fn(&O) -> bool` is one, and so is a type of one's own that has an impl, which says
/// in `gives` what is later known of an output that passed:
///
/// ```text
/// pub struct BelowTen;
///
/// impl Tester<u64> for BelowTen {
///     ghost gives = { λ tester number passes. IsTrue passes → number < 10 };
///
///     fn passes(&self, value: &u64) -> bool {
///         *value < 10
///     }
/// }
/// ```
pub trait Tester<O> {
    /// That it may be called. Where nothing is said, it may.
    ghost callable: { Self → Type 0 } = { λ tester. ⊤ };

    /// What it may answer to a value. Where nothing is said, nothing is known of it.
    ghost gives: { Self → O → Bool → Type 0 } = { λ tester value passes. ⊤ };

    /// Whether a value passes.
    fn passes(&self, value: &O) -> bool
        requires { callable self.now }
        ensures { gives self.now value.now result };
}

impl<O, F: Fn(&O) -> bool> Tester<O> for F {
    ghost callable = { λ f. F.IsAlwaysCallable f };

    ghost gives = { λ f value result. FnReturnsAt F.Fn f value result };

    #[inline]
    fn passes(&self, value: &O) -> bool {
        (*self)(value)
    }
}

/// A parser whose output has to pass a test. See `filter` and `filter_by`.
#[derive(Clone, Copy, Drop)]
pub struct Filter<A, F> {
    pub parser: A,
    pub tester: F,
}

impl<I, O, E, A: IsParser<I, O, E>, F> IsParser<I, O, E> for Filter<A, F> {}

impl<
    'src,
    I: Input<'src>,
    O: Drop,
    E: ParserExtra<I>,
    A: Parser<'src, I, O, E>,
    F: Tester<O>,
> Parser<'src, I, O, E> for Filter<A, F> {
    ghost use Rattle.chumsky_judge.specs.Vetted.{TestsAlike};
    ghost use Rattle.chumsky_judge.specs.VettedLaws.{vetted-ends, vetted-agrees, tests-alike};
    ghost use Rattle.chumsky_judge.specs.JudgedLanguage.{unsaid_over, vetted_unsaid-accepts};

    ghost ready = { λ p. A.ready p.parser × F.callable p.tester };

    ghost meaning = { λ p errors states. Vetted errors.merged errors.takes_no_memory (ByTest I.Input errors (F.gives p.tester)) (A.meaning p.parser errors states) };

    ghost steady = { λ p. A.steady p.parser × TestsAlike (A.same p.parser) (F.gives p.tester) };

    ghost same = { λ p. A.same p.parser };

    ghost ends_after_start = { λ p. vetted-ends _ _ _ _ (A.ends_after_start p.parser) };

    ghost agrees = { λ p s. vetted-agrees _ _ _ _ (A.same p.parser) (A.same p.parser) (A.agrees p.parser s.0) (tests-alike _ _ (A.same p.parser) (F.gives p.tester) s.1) };

    ghost language = { λ p. unsaid_over (A.language p.parser) };

    ghost accepts = { λ p. vetted_unsaid-accepts _ _ _ _ (λ q. q.0) (A.accepts p.parser) };

    #[inline]
    fn go_emit(&self, inp: &mut InputRef<'src, '_, I, E>) -> PResult<O> {
        sift(self, inp)
    }

    #[inline]
    fn go_check(&self, inp: &mut InputRef<'src, '_, I, E>) -> PResult<()> {
        let value = sift(self, inp)?;
        drop(value);
        Ok(())
    }
}

/// Runs the part with nothing kept, and tests its output.
#[inline]
fn sift<'src, I, O, E, A, F>(
    filter: &Filter<A, F>,
    inp: &mut InputRef<'src, '_, I, E>,
) -> PResult<O>
where
    I: Input<'src>,
    O: Drop,
    E: ParserExtra<I>,
    A: Parser<'src, I, O, E>,
    F: Tester<O>,
    requires part { A.ready filter.now.parser }
    requires tester { F.callable filter.now.tester }
    ensures ran { RunsAnyway I.Input E.Error.Error E.State.Inspector
        (⟦<Filter<A, F> as Parser<'src, I, O, E>>⟧.meaning filter.now) inp.old inp.new result }
    ensures lent { inp.new.state.ghost_name ≡ inp.old.state.ghost_name }
{
    let start = inp.cursor();
    let older = inp.take_kept();
    match filter.parser.go_emit(inp) {
        Ok(value) => {
            if filter.tester.passes(&value) {
                inp.keep_before(older)?;
                return Ok(value);
            }
            inp.put_kept(older);
            let past = inp.cursor();
            Err(something_else(&start, &past, inp))
        }
        Err(Fault::Fail) => Err(fail_as_one(older, inp)),
        Err(Fault::Stop(stop)) => Err(Fault::Stop(stop)),
    }
}

impl<
    'src,
    I: Input<'src>,
    O: Drop,
    E: ParserExtra<I>,
    A: Moving<'src, I, O, E>,
    F: Tester<O>,
> Moving<'src, I, O, E> for Filter<A, F> {
    ghost use Rattle.chumsky_judge.specs.JudgedMoves.{vetted-moves};

    ghost moves = { λ p. A.moves p.parser };

    ghost moved = { λ p e. vetted-moves _ _ _ _ (A.moved p.parser e) };

    fn always_moves(&self) -> bool
        ensures { result ≡ A.moves self.now.parser }
    {
        self.parser.always_moves()
    }
}

/// Never refused for memory where no part is: `a.filter(f)` and `a.filter_by(f)`, under errors that take no memory: one is
/// built for a value that doesn't pass.
pub fn filter_is_never_out_of_memory<
    'src,
    I: Input<'src>,
    O: Drop,
    E: ParserExtra<I>,
    A: Parser<'src, I, O, E>,
    F: Tester<O>,
>(filter: &Filter<A, F>)
    ensures { let f = filter.now in E.Error.takes_no_memory → OutOnlyBy E.Error.Error E.State.Inspector
        (part (A.meaning f.parser) ∷ [])
        (⟦<Filter<A, F> as Parser<'src, I, O, E>>⟧.meaning f) }
{}

/// When it is ready and steady, and which outputs are the same: `a.filter(f)` and `a.filter_by(f)`.
pub fn filter_is_steady<
    'src,
    I: Input<'src>,
    O: Drop,
    E: ParserExtra<I>,
    A: Parser<'src, I, O, E>,
    F: Tester<O>,
>(filter: &Filter<A, F>)
    ensures ready { A.ready filter.now.parser → F.callable filter.now.tester → ⟦<Filter<A, F> as Parser<'src, I, O, E>>⟧.ready filter.now }
    ensures steady { A.steady filter.now.parser → TestsAlike (A.same filter.now.parser) (F.gives filter.now.tester) → ⟦<Filter<A, F> as Parser<'src, I, O, E>>⟧.steady filter.now }
    ensures same { (x y : O) → ⟦<Filter<A, F> as Parser<'src, I, O, E>>⟧.same filter.now x y → A.same filter.now.parser x y }
{}
