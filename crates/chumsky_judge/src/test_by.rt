//! A parser whose output has to pass a test, which says of it what is known by the word that was taken.
ghost use Rattle.std.specs.Prelude.{Bool, List};
ghost use Rattle.chumsky_judge.specs.Tested.{TestsByWord};
ghost use Rattle.chumsky_judge.specs.Vetted.{TestsAlike};

use crate::filter::{Filter, Tester};
use chumsky_input::extra::ParserExtra;
use chumsky_input::input::Input;
use chumsky_input::input_ref::InputRef;
use chumsky_input::stop::PResult;
use chumsky_parser::parser::{IsParser, Parser};

/// What tests an output of a part by the word that the part took: each output of a word passes, or none does.
pub trait WordTester<'src, I: Input<'src>, O, E: ParserExtra<I>, A: Parser<'src, I, O, E>>: Tester<
    O,
> {
    /// Whether a word passes.
    ghost tests: { Self → List I.Token → Bool };

    /// That is what it answers to each value of the word.
    ghost by_word: { (f : Self) (p : A) → TestsByWord (tests f) (A.language p).stands_for (Self.gives f) };
}

/// A parser whose output has to pass a test of the word. Its language is known: the words that pass. See `test_by`.
#[derive(Clone, Copy, Drop)]
pub struct TestBy<A, F> {
    pub tested: Filter<A, F>,
}

impl<I, O, E, A: IsParser<I, O, E>, F> IsParser<I, O, E> for TestBy<A, F> {}

impl<'src, I, O, E, A, F> Parser<'src, I, O, E> for TestBy<A, F>
where
    I: Input<'src>,
    O: Drop,
    E: ParserExtra<I>,
    A: Parser<'src, I, O, E>,
    F: WordTester<'src, I, O, E, A>,
{
    ghost use Rattle.chumsky_judge.specs.Tested.{tested_language, tested-accepts};
    ghost use Rattle.chumsky_judge.specs.Vetted.{Vetted, ByTest, TestsAlike};
    ghost use Rattle.chumsky_judge.specs.VettedLaws.{vetted-ends, vetted-agrees, tests-alike};

    ghost ready = { λ p. A.ready p.tested.parser × F.callable p.tested.tester };

    ghost meaning = { λ p errors states. Vetted errors.merged errors.takes_no_memory (ByTest I.Input errors (F.gives p.tested.tester)) (A.meaning p.tested.parser errors states) };

    ghost steady = { λ p. A.steady p.tested.parser × TestsAlike (A.same p.tested.parser) (F.gives p.tested.tester) };

    ghost same = { λ p. A.same p.tested.parser };

    ghost ends_after_start = { λ p. vetted-ends _ _ _ _ (A.ends_after_start p.tested.parser) };

    ghost agrees = { λ p s. vetted-agrees _ _ _ _ (A.same p.tested.parser) (A.same p.tested.parser) (A.agrees p.tested.parser s.0) (tests-alike _ _ (A.same p.tested.parser) (F.gives p.tested.tester) s.1) };

    ghost language = { λ p. tested_language (F.tests p.tested.tester) (A.language p.tested.parser) };

    ghost accepts = { λ p. tested-accepts _ _ _ (F.gives p.tested.tester) (F.tests p.tested.tester) (F.by_word p.tested.tester p.tested.parser) (A.accepts p.tested.parser) };

    #[inline(always)]
    fn go_emit(&self, inp: &mut InputRef<'src, '_, I, E>) -> PResult<O> {
        self.tested.go_emit(inp)
    }

    #[inline(always)]
    fn go_check(&self, inp: &mut InputRef<'src, '_, I, E>) -> PResult<()> {
        self.tested.go_check(inp)
    }
}

/// When it is ready and steady, and which outputs are the same: `a.test_by(f)`.
pub fn test_by_is_steady<
    'src,
    I: Input<'src>,
    O: Drop,
    E: ParserExtra<I>,
    A: Parser<'src, I, O, E>,
    F: WordTester<'src, I, O, E, A>,
>(test_by: &TestBy<A, F>)
    ensures ready { A.ready test_by.now.tested.parser → F.callable test_by.now.tested.tester → ⟦<TestBy<A, F> as Parser<'src, I, O, E>>⟧.ready test_by.now }
    ensures steady { A.steady test_by.now.tested.parser → TestsAlike (A.same test_by.now.tested.parser) (F.gives test_by.now.tested.tester) → ⟦<TestBy<A, F> as Parser<'src, I, O, E>>⟧.steady test_by.now }
    ensures same { (x y : O) → ⟦<TestBy<A, F> as Parser<'src, I, O, E>>⟧.same test_by.now x y → A.same test_by.now.tested.parser x y }
{}
