//! A parser and then items, folded from its output.
ghost use Rattle.std.specs.Prelude.{◌≡◌, false, ◌||◌};
ghost use Rattle.chumsky_folds.specs.Folding.{SameFolded};

use crate::folder::Folder;
use crate::from_left::fold_from_left;
use chumsky_input::extra::ParserExtra;
use chumsky_input::input::Input;
use chumsky_input::input_ref::InputRef;
use chumsky_input::stop::PResult;
use chumsky_items::pass::pass_all;
use chumsky_parser::iter::{IsIterParser, IterParser};
use chumsky_parser::moving::{Moving, MovingItems};
use chumsky_parser::parser::{IsParser, Parser};
use std::marker::PhantomData;

/// A parser, and then the items of another, folded from the left, from the first one's output. See `foldl` and `foldl_by`.
#[derive(Drop)]
#[derive_where(Clone, Copy; F, A, B)]
pub struct Foldl<F, A, B, U> {
    pub parser: A,
    pub items: B,
    pub folder: F,
    pub of: PhantomData<U>,
}

impl<I, O, U, E, A: IsParser<I, O, E>, B: IsIterParser<I, U, E>, F> IsParser<I, O, E>
    for Foldl<F, A, B, U> {}

impl<
    'src,
    I: Input<'src>,
    O: Drop,
    U: Drop,
    E: ParserExtra<I>,
    A: Parser<'src, I, O, E>,
    B: IterParser<'src, I, U, E>,
    F: Folder<O, U>,
> Parser<'src, I, O, E> for Foldl<F, A, B, U> {
    ghost use Rattle.chumsky_folds.specs.FoldsLanguage.{foldl_language, foldl-accepts};
    ghost use Rattle.chumsky_folds.specs.Folding.{FoldsFromPart, SameFolded};
    ghost use Rattle.chumsky_folds.specs.FoldingLaws.{folds_part-ends, folds_part-agree};

    ghost ready = { λ p. A.ready p.parser × B.ready p.items × F.callable p.folder };

    ghost meaning = { λ p errors states. FoldsFromPart (λ s. B.gives p.items (record { nonconsumption_is_ok = false }) s errors states) (B.begins p.items errors states) (F.gives p.folder) (A.meaning p.parser errors states) };

    ghost steady = { λ p. A.steady p.parser × B.steady p.items };

    ghost same = { λ p. SameFolded (A.same p.parser) (B.same p.items) (F.gives p.folder) };

    ghost ends_after_start = { λ p. folds_part-ends _ _ (F.gives p.folder) _ (B.ends_after_start p.items (record { nonconsumption_is_ok = false })) (A.ends_after_start p.parser) };

    ghost agrees = { λ p s. folds_part-agree _ _ (F.gives p.folder) _ (A.same p.parser) (B.same p.items) (B.alike p.items) (B.agrees p.items s.1 (record { nonconsumption_is_ok = false })) (A.agrees p.parser s.0) };

    ghost language = { λ p. foldl_language (B.language p.items) (F.gives p.folder) (A.language p.parser) };

    ghost accepts = { λ p. foldl-accepts _ _ (F.gives p.folder) (B.language p.items) (B.accepts p.items (record { nonconsumption_is_ok = false })) _ (A.language p.parser) (B.ends_after_start p.items (record { nonconsumption_is_ok = false })) (A.ends_after_start p.parser) (A.accepts p.parser) };

    #[inline(always)]
    fn go_emit(&self, inp: &mut InputRef<'src, '_, I, E>) -> PResult<O> {
        let first = self.parser.go_emit(inp)?;
        fold_from_left::<I, O, U, E, B, F>(first, &self.items, &self.folder, inp)
    }

    #[inline(always)]
    fn go_check(&self, inp: &mut InputRef<'src, '_, I, E>) -> PResult<()> {
        self.parser.go_check(inp)?;
        pass_all::<O, I, U, E, B>(&self.items, inp)
    }
}

impl<
    'src,
    I: Input<'src>,
    O: Drop,
    U: Drop,
    E: ParserExtra<I>,
    A: Moving<'src, I, O, E>,
    B: MovingItems<'src, I, U, E>,
    F: Folder<O, U>,
> Moving<'src, I, O, E> for Foldl<F, A, B, U> {
    ghost use Rattle.chumsky_folds.specs.FoldsMove.{foldl-moves};

    ghost moves = { λ p. A.moves p.parser || B.first_moves p.items };

    ghost moved = { λ p. foldl-moves _ _ (B.ends_after_start p.items (record { nonconsumption_is_ok = false })) (F.gives p.folder) _ (A.moves p.parser) (B.first_moves p.items) (A.ends_after_start p.parser) (A.moved p.parser) (λ e. B.first_moved p.items e (record { nonconsumption_is_ok = false })) };

    fn always_moves(&self) -> bool
        ensures { result ≡ (A.moves self.now.parser || B.first_moves self.now.items) }
    {
        self.parser.always_moves() || self.items.first_always_moves()
    }
}

/// When it is ready and steady, and which outputs are the same: `a.foldl(b, f)` and `a.foldl_by(b, f)`. Two outputs are the
/// same where they are left folds, from outputs of `a` that are the same, of as many items that are.
pub fn foldl_is_steady<
    'src,
    I: Input<'src>,
    O: Drop,
    U: Drop,
    E: ParserExtra<I>,
    A: Parser<'src, I, O, E>,
    B: IterParser<'src, I, U, E>,
    F: Folder<O, U>,
>(foldl: &Foldl<F, A, B, U>)
    ensures ready { A.ready foldl.now.parser → B.ready foldl.now.items → F.callable foldl.now.folder → ⟦<Foldl<F, A, B, U> as Parser<'src, I, O, E>>⟧.ready foldl.now }
    ensures steady { A.steady foldl.now.parser → B.steady foldl.now.items → ⟦<Foldl<F, A, B, U> as Parser<'src, I, O, E>>⟧.steady foldl.now }
    ensures same { (x y : O) → ⟦<Foldl<F, A, B, U> as Parser<'src, I, O, E>>⟧.same foldl.now x y → SameFolded (A.same foldl.now.parser) (B.same foldl.now.items) (F.gives foldl.now.folder) x y }
{}
