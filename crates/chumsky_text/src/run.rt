//! The longest run of tokens of a kind.
ghost use Rattle.std.specs.Prelude.{◌≡◌, false};

use crate::kind::Kind;
use crate::skip::{end_run, skip_run};
use chumsky_input::extra::ParserExtra;
use chumsky_input::input::SliceInput;
use chumsky_input::input_ref::InputRef;
use chumsky_input::stop::PResult;
use chumsky_parser::moving::Moving;
use chumsky_parser::parser::{IsParser, Parser};
use std::marker::PhantomData;

/// The longest run of tokens of a kind, be it empty. See `whitespace`.
#[derive(Drop)]
#[derive_where(Clone, Copy; K)]
pub struct Run<K, I, E> {
    pub kind: K,
    pub of: PhantomData<(I, E)>,
}

impl<'src, K, I: SliceInput<'src>, E> IsParser<I, I::Slice, E> for Run<K, I, E> {}

impl<'src, K: Kind<I::Token>, I: SliceInput<'src>, E: ParserExtra<I>> Parser<'src, I, I::Slice, E>
    for Run<K, I, E> {
    ghost use Rattle.std.specs.Prelude.{◌≡◌, ⊤};
    ghost use Rattle.chumsky_text.specs.TextRun.{MeansRun};
    ghost use Rattle.chumsky_text.specs.TextRunLaws.{run-ends, run-agrees};
    ghost use Rattle.chumsky_text.specs.TextLanguage.{run_language};
    ghost use Rattle.chumsky_text.specs.TextLanguageLaws.{run-accepts};

    ghost ready = { λ p. K.fits p.kind };

    ghost meaning = { λ p errors states. MeansRun I.Input (λ l i j w. I.slice_seen w ≡ I.slice_of l i j) errors states (K.holds p.kind) (K.wants p.kind) };

    ghost steady = { λ _. ⊤ };

    ghost same = { λ p v w. I.slice_seen v ≡ I.slice_seen w };

    ghost language = { λ p. run_language (λ l i j w. I.slice_seen w ≡ I.slice_of l i j) (K.holds p.kind) };

    ghost ends_after_start = { λ p. run-ends _ _ _ _ (K.holds p.kind) (K.wants p.kind) };

    ghost agrees = { λ p _. run-agrees _ _ _ _ (λ v w. I.slice_seen v ≡ I.slice_seen w) (λ ts i j v w e d. Prim.search (e, d)) (K.holds p.kind) (K.wants p.kind) };

    ghost accepts = { λ p. run-accepts _ _ _ _ (K.holds p.kind) (K.wants p.kind) };

    #[inline(always)]
    fn go_emit(&self, inp: &mut InputRef<'src, '_, I, E>) -> PResult<I::Slice> {
        let before = inp.cursor();
        skip_run(&self.kind, inp);
        let taken = inp.slice_since(&before);
        end_run(&self.kind, inp)?;
        Ok(taken)
    }

    #[inline(always)]
    fn go_check(&self, inp: &mut InputRef<'src, '_, I, E>) -> PResult<()> {
        skip_run(&self.kind, inp);
        end_run(&self.kind, inp)?;
        Ok(())
    }
}

impl<'src, K: Kind<I::Token>, I: SliceInput<'src>, E: ParserExtra<I>> Moving<'src, I, I::Slice, E>
    for Run<K, I, E> {
    ghost use Rattle.chumsky_parser.specs.ProgressLaws.{never};

    ghost moved = { λ _. never };

    fn always_moves(&self) -> bool
        ensures { result ≡ false }
    {
        false
    }
}

/// `whitespace()` and its like are ready where tokens may be tested, and steady.
pub fn run_is_steady<'src, K: Kind<I::Token>, I: SliceInput<'src>, E: ParserExtra<I>>(
    parser: &Run<K, I, E>,
)
    ensures ready { K.fits parser.now.kind → ⟦<Run<K, I, E> as Parser<'src, I, I::Slice, E>>⟧.ready parser.now }
    ensures steady { ⟦<Run<K, I, E> as Parser<'src, I, I::Slice, E>>⟧.steady parser.now }
    ensures same { (x y : I.Slice) → ⟦<Run<K, I, E> as Parser<'src, I, I::Slice, E>>⟧.same parser.now x y → I.slice_seen x ≡ I.slice_seen y }
{}
