//! All items, folded from a value.
ghost use Rattle.std.specs.Prelude.{◌≡◌, false};
ghost use Rattle.chumsky_parser.specs.Copied.{BothCopies};
ghost use Rattle.chumsky_folds.specs.Folding.{SameFolded};

use crate::folder::Folder;
use crate::from_left::fold_from_left;
use chumsky_input::extra::ParserExtra;
use chumsky_input::input::Input;
use chumsky_input::input_ref::InputRef;
use chumsky_input::stop::PResult;
use chumsky_items::pass::pass_all;
use chumsky_parser::iter::{IsIterParser, IterParser};
use chumsky_parser::moving::{Moving, MovingItems};
use chumsky_parser::parser::{IsParser, Parser};
use std::marker::PhantomData;

/// The items of a parser, folded from the left, from a value. See `fold` and `fold_by`.
#[derive(Drop)]
#[derive_where(Clone, Copy; F, A, B)]
pub struct Fold<F, A, B, O> {
    pub parser: A,
    pub init: B,
    pub folder: F,
    pub of: PhantomData<O>,
}

impl<I, O, E, A: IsIterParser<I, O, E>, B, F> IsParser<I, B, E> for Fold<F, A, B, O> {}

impl<
    'src,
    I: Input<'src>,
    O: Drop,
    E: ParserExtra<I>,
    A: IterParser<'src, I, O, E>,
    B: Clone + Drop,
    F: Folder<B, O>,
> Parser<'src, I, B, E> for Fold<F, A, B, O> {
    ghost use Rattle.chumsky_folds.specs.FoldsLanguage.{fold_language, fold-accepts};
    ghost use Rattle.chumsky_parser.specs.Copied.{BothCopies};
    ghost use Rattle.chumsky_folds.specs.Folding.{FoldsFromCopy, SameFolded};
    ghost use Rattle.chumsky_folds.specs.FoldingLaws.{folds_copy-ends, folds_copy-agree};

    ghost ready = { λ p. A.ready p.parser × F.callable p.folder };

    ghost meaning = { λ p errors states. FoldsFromCopy (λ s. A.gives p.parser (record { nonconsumption_is_ok = false }) s errors states) (A.begins p.parser errors states) (F.gives p.folder) (B.is_clone p.init) (B.is_infallible p.init) };

    ghost steady = { λ p. A.steady p.parser };

    ghost same = { λ p. SameFolded (BothCopies (B.is_clone p.init)) (A.same p.parser) (F.gives p.folder) };

    ghost ends_after_start = { λ p. folds_copy-ends _ _ (F.gives p.folder) (B.is_clone p.init) (B.is_infallible p.init) (A.ends_after_start p.parser (record { nonconsumption_is_ok = false })) };

    ghost agrees = { λ p s. folds_copy-agree _ _ (F.gives p.folder) (B.is_clone p.init) (B.is_infallible p.init) (A.same p.parser) (A.alike p.parser) (A.agrees p.parser s (record { nonconsumption_is_ok = false })) };

    ghost language = { λ p. fold_language (A.language p.parser) (F.gives p.folder) (B.is_clone p.init) (B.is_infallible p.init) };

    ghost accepts = { λ p. fold-accepts _ _ (F.gives p.folder) (A.language p.parser) (A.accepts p.parser (record { nonconsumption_is_ok = false })) (B.is_clone p.init) (B.is_infallible p.init) };

    #[inline(always)]
    fn go_emit(&self, inp: &mut InputRef<'src, '_, I, E>) -> PResult<B> {
        let first = self.init.clone()?;
        fold_from_left::<I, B, O, E, A, F>(first, &self.parser, &self.folder, inp)
    }

    #[inline(always)]
    fn go_check(&self, inp: &mut InputRef<'src, '_, I, E>) -> PResult<()> {
        pass_all::<B, I, O, E, A>(&self.parser, inp)
    }
}

impl<
    'src,
    I: Input<'src>,
    O: Drop,
    E: ParserExtra<I>,
    A: MovingItems<'src, I, O, E>,
    B: Clone + Drop,
    F: Folder<B, O>,
> Moving<'src, I, B, E> for Fold<F, A, B, O> {
    ghost use Rattle.chumsky_folds.specs.FoldsMove.{fold-moves};

    ghost moves = { λ p. A.first_moves p.parser };

    ghost moved = { λ p e. fold-moves _ _ (A.ends_after_start p.parser (record { nonconsumption_is_ok = false })) (F.gives p.folder) (B.is_clone p.init) (B.is_infallible p.init) (A.first_moved p.parser e (record { nonconsumption_is_ok = false })) };

    fn always_moves(&self) -> bool
        ensures { result ≡ A.first_moves self.now.parser }
    {
        self.parser.first_always_moves()
    }
}

/// When it is ready and steady, and which outputs are the same: `a.fold(init, f)` and `a.fold_by(init, f)`. Two outputs are
/// the same where they are left folds, from clones of `init`, of as many items that are the same.
pub fn fold_is_steady<
    'src,
    I: Input<'src>,
    O: Drop,
    E: ParserExtra<I>,
    A: IterParser<'src, I, O, E>,
    B: Clone + Drop,
    F: Folder<B, O>,
>(fold: &Fold<F, A, B, O>)
    ensures ready { A.ready fold.now.parser → F.callable fold.now.folder → ⟦<Fold<F, A, B, O> as Parser<'src, I, B, E>>⟧.ready fold.now }
    ensures steady { A.steady fold.now.parser → ⟦<Fold<F, A, B, O> as Parser<'src, I, B, E>>⟧.steady fold.now }
    ensures same { (x y : B) → ⟦<Fold<F, A, B, O> as Parser<'src, I, B, E>>⟧.same fold.now x y → SameFolded (BothCopies (B.is_clone fold.now.init)) (A.same fold.now.parser) (F.gives fold.now.folder) x y }
{}
