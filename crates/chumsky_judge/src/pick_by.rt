//! A parser whose output is picked, as is known by the word that was taken.
ghost use Rattle.std.specs.Prelude.{List, Option};
ghost use Rattle.chumsky_judge.specs.Picked.{PicksByWord};
ghost use Rattle.chumsky_judge.specs.Tried.{FilterMapsAlike, SameFilterMapped};

use crate::filter_map::{FilterMap, Picker};
use chumsky_input::extra::ParserExtra;
use chumsky_input::input::Input;
use chumsky_input::input_ref::InputRef;
use chumsky_input::stop::PResult;
use chumsky_parser::parser::{IsParser, Parser};

/// What picks an output of a part by the word that the part took: of each output of a word it makes one value, or answers
/// none.
pub trait WordPicker<
    'src,
    I: Input<'src>,
    O,
    U,
    E: ParserExtra<I>,
    A: Parser<'src, I, O, E>,
>: Picker<O, U> {
    /// What is picked of a word, or none.
    ghost picks: { Self → List I.Token → Option U };

    /// That is what it answers to each value of the word.
    ghost by_word: { (f : Self) (p : A) → PicksByWord (picks f) (A.language p).stands_for (Self.gives f) };
}

/// A parser whose output goes through a picker, which decides by the word. Its language is known: the words of which
/// something is picked. See `pick_by`.
#[derive(Drop)]
#[derive_where(Clone, Copy; A, F)]
pub struct PickBy<A, O, F, U> {
    pub picked: FilterMap<A, O, F, U>,
}

impl<I, O, U, E, A: IsParser<I, O, E>, F> IsParser<I, U, E> for PickBy<A, O, F, U> {}

impl<'src, I, O, U, E, A, F> Parser<'src, I, U, E> for PickBy<A, O, F, U>
where
    I: Input<'src>,
    U: Drop,
    E: ParserExtra<I>,
    A: Parser<'src, I, O, E>,
    F: WordPicker<'src, I, O, U, E, A>,
{
    ghost use Rattle.chumsky_judge.specs.Picked.{picked_language};
    ghost use Rattle.chumsky_judge.specs.PickedLaws.{picked-accepts};
    ghost use Rattle.chumsky_judge.specs.Tried.{ByPick, FilterMapsAlike, SameFilterMapped};
    ghost use Rattle.chumsky_judge.specs.TriedLaws.{picks-alike};
    ghost use Rattle.chumsky_judge.specs.Vetted.{Vetted};
    ghost use Rattle.chumsky_judge.specs.VettedLaws.{vetted-ends, vetted-agrees};

    ghost ready = { λ p. A.ready p.picked.parser × F.callable p.picked.picker };

    ghost meaning = { λ p errors states. Vetted errors.merged errors.takes_no_memory (ByPick I.Input errors (F.gives p.picked.picker)) (A.meaning p.picked.parser errors states) };

    ghost steady = { λ p. A.steady p.picked.parser × FilterMapsAlike (A.same p.picked.parser) (F.gives p.picked.picker) };

    ghost same = { λ p. SameFilterMapped (A.same p.picked.parser) (F.gives p.picked.picker) };

    ghost ends_after_start = { λ p. vetted-ends _ _ _ _ (A.ends_after_start p.picked.parser) };

    ghost agrees = { λ p s. vetted-agrees _ _ _ _ (A.same p.picked.parser) _ (A.agrees p.picked.parser s.0) (picks-alike _ _ (A.same p.picked.parser) (F.gives p.picked.picker) s.1) };

    ghost language = { λ p. picked_language (F.picks p.picked.picker) (A.language p.picked.parser) };

    ghost accepts = { λ p. picked-accepts _ _ _ (F.gives p.picked.picker) (F.picks p.picked.picker) (F.by_word p.picked.picker p.picked.parser) (A.accepts p.picked.parser) };

    #[inline(always)]
    fn go_emit(&self, inp: &mut InputRef<'src, '_, I, E>) -> PResult<U> {
        self.picked.go_emit(inp)
    }

    #[inline(always)]
    fn go_check(&self, inp: &mut InputRef<'src, '_, I, E>) -> PResult<()> {
        self.picked.go_check(inp)
    }
}

/// When it is ready and steady, and which outputs are the same: `a.pick_by(f)`.
pub fn pick_by_is_steady<
    'src,
    I: Input<'src>,
    O,
    U: Drop,
    E: ParserExtra<I>,
    A: Parser<'src, I, O, E>,
    F: WordPicker<'src, I, O, U, E, A>,
>(pick_by: &PickBy<A, O, F, U>)
    ensures ready { A.ready pick_by.now.picked.parser → F.callable pick_by.now.picked.picker → ⟦<PickBy<A, O, F, U> as Parser<'src, I, U, E>>⟧.ready pick_by.now }
    ensures steady { A.steady pick_by.now.picked.parser → FilterMapsAlike (A.same pick_by.now.picked.parser) (F.gives pick_by.now.picked.picker) → ⟦<PickBy<A, O, F, U> as Parser<'src, I, U, E>>⟧.steady pick_by.now }
    ensures same { (x y : U) → ⟦<PickBy<A, O, F, U> as Parser<'src, I, U, E>>⟧.same pick_by.now x y → SameFilterMapped (A.same pick_by.now.picked.parser) (F.gives pick_by.now.picked.picker) x y }
{}
