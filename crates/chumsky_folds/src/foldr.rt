//! Items and then a parser, folded from its output back.
ghost use Rattle.std.specs.Prelude.{◌≡◌, false, ◌||◌};
ghost use Rattle.std.proofs.Common.{sym, ◌∙◌};
ghost use Rattle.chumsky_folds.specs.FoldingBack.{FoldsRight, SameFoldedBack};

use crate::folder::RightFolder;
use chumsky_input::extra::ParserExtra;
use chumsky_input::input::Input;
use chumsky_input::input_ref::InputRef;
use chumsky_input::stop::PResult;
use chumsky_items::collect::Collect;
use chumsky_items::container::Container;
use chumsky_parser::iter::{IsIterParser, IterParser};
use chumsky_parser::moving::{Moving, MovingItems};
use chumsky_parser::parser::{IsParser, Parser};

/// The items of a parser, and then another parser, folded from the right, from the other one's output. See `foldr` and
/// `foldr_by`.
#[derive(Drop)]
#[derive_where(Clone, Copy; F, A, B)]
pub struct Foldr<F, A, B, O> {
    pub items: Collect<A, O, Vec<O>>,
    pub parser: B,
    pub folder: F,
}

impl<I, O, U, E, A: IsIterParser<I, O, E>, B: IsParser<I, U, E>, F> IsParser<I, U, E>
    for Foldr<F, A, B, O> {}

impl<
    'src,
    I: Input<'src>,
    O: Drop,
    U: Drop,
    E: ParserExtra<I>,
    A: IterParser<'src, I, O, E>,
    B: Parser<'src, I, U, E>,
    F: RightFolder<O, U>,
> Parser<'src, I, U, E> for Foldr<F, A, B, O> {
    ghost use Rattle.chumsky_folds.specs.FoldsLanguage.{foldr_language, foldr-accepts};
    ghost use Rattle.chumsky_folds.specs.FoldingBack.{FoldsBack, SameFoldedBack};
    ghost use Rattle.chumsky_folds.specs.FoldingBackLaws.{folds_back-ends, folds_back-agree};

    ghost ready = { λ p. A.ready p.items.parser × B.ready p.parser × F.callable p.folder };

    ghost meaning = { λ p errors states. FoldsBack (λ s. A.gives p.items.parser (record { nonconsumption_is_ok = false }) s errors states) (A.begins p.items.parser errors states) ⟦<Vec<O> as Container<O>>⟧.holds ⟦<Vec<O> as Container<O>>⟧.takes_no_memory (B.meaning p.parser errors states) (F.gives p.folder) };

    ghost steady = { λ p. A.steady p.items.parser × B.steady p.parser };

    ghost same = { λ p. SameFoldedBack (B.same p.parser) (A.same p.items.parser) (F.gives p.folder) };

    ghost ends_after_start = { λ p. folds_back-ends _ _ ⟦<Vec<O> as Container<O>>⟧.holds ⟦<Vec<O> as Container<O>>⟧.takes_no_memory _ (F.gives p.folder) (A.ends_after_start p.items.parser (record { nonconsumption_is_ok = false })) (B.ends_after_start p.parser) };

    ghost agrees = { λ p s. folds_back-agree _ _ ⟦<Vec<O> as Container<O>>⟧.holds ⟦<Vec<O> as Container<O>>⟧.takes_no_memory _ (F.gives p.folder) (λ xs ys v e d. sym e ∙ d) (A.same p.items.parser) (B.same p.parser) (A.alike p.items.parser) (A.agrees p.items.parser s.0 (record { nonconsumption_is_ok = false })) (B.agrees p.parser s.1) };

    ghost language = { λ p. foldr_language (A.language p.items.parser) (F.gives p.folder) ⟦<Vec<O> as Container<O>>⟧.takes_no_memory (B.language p.parser) };

    ghost accepts = { λ p. foldr-accepts _ _ ⟦<Vec<O> as Container<O>>⟧.holds ⟦<Vec<O> as Container<O>>⟧.takes_no_memory _ (F.gives p.folder) (A.language p.items.parser) (B.language p.parser) (λ xs ys v e d. sym e ∙ d) (A.ends_after_start p.items.parser (record { nonconsumption_is_ok = false })) (B.ends_after_start p.parser) (A.accepts p.items.parser (record { nonconsumption_is_ok = false })) (B.accepts p.parser) };

    #[inline(always)]
    fn go_emit(&self, inp: &mut InputRef<'src, '_, I, E>) -> PResult<U> {
        let items = self.items.go_emit(inp)?;
        let last = self.parser.go_emit(inp)?;
        Ok(fold_from_right(items, last, &self.folder))
    }

    #[inline(always)]
    fn go_check(&self, inp: &mut InputRef<'src, '_, I, E>) -> PResult<()> {
        self.items.go_check(inp)?;
        self.parser.go_check(inp)
    }
}

/// Takes each item into the accumulator, from the last one back.
#[inline]
fn fold_from_right<O: Drop, U, F: RightFolder<O, U>>(items: Vec<O>, last: U, folder: &F) -> U
    requires { F.callable folder.now }
    ensures { FoldsRight (F.gives folder.now) last items.items result }
{
    let mut left = items;
    let mut accumulator = last;
    while let Some(item) = left.pop() {
        accumulator = folder.step(item, accumulator);
    }
    accumulator
}

impl<
    'src,
    I: Input<'src>,
    O: Drop,
    U: Drop,
    E: ParserExtra<I>,
    A: MovingItems<'src, I, O, E>,
    B: Moving<'src, I, U, E>,
    F: RightFolder<O, U>,
> Moving<'src, I, U, E> for Foldr<F, A, B, O> {
    ghost use Rattle.chumsky_folds.specs.FoldsMove.{foldr-moves};

    ghost moves = { λ p. A.first_moves p.items.parser || B.moves p.parser };

    ghost moved = { λ p. foldr-moves _ _ (A.ends_after_start p.items.parser (record { nonconsumption_is_ok = false })) ⟦<Vec<O> as Container<O>>⟧.holds ⟦<Vec<O> as Container<O>>⟧.takes_no_memory _ (F.gives p.folder) (A.first_moves p.items.parser) (B.moves p.parser) (B.ends_after_start p.parser) (λ e. A.first_moved p.items.parser e (record { nonconsumption_is_ok = false })) (B.moved p.parser) };

    fn always_moves(&self) -> bool
        ensures { result ≡ (A.first_moves self.now.items.parser || B.moves self.now.parser) }
    {
        self.items.parser.first_always_moves() || self.parser.always_moves()
    }
}

/// When it is ready and steady, and which outputs are the same: `a.foldr(b, f)` and `a.foldr_by(b, f)`. Two outputs are the
/// same where they are right folds, from outputs of `b` that are the same, of as many items that are.
pub fn foldr_is_steady<
    'src,
    I: Input<'src>,
    O: Drop,
    U: Drop,
    E: ParserExtra<I>,
    A: IterParser<'src, I, O, E>,
    B: Parser<'src, I, U, E>,
    F: RightFolder<O, U>,
>(foldr: &Foldr<F, A, B, O>)
    ensures ready { A.ready foldr.now.items.parser → B.ready foldr.now.parser → F.callable foldr.now.folder → ⟦<Foldr<F, A, B, O> as Parser<'src, I, U, E>>⟧.ready foldr.now }
    ensures steady { A.steady foldr.now.items.parser → B.steady foldr.now.parser → ⟦<Foldr<F, A, B, O> as Parser<'src, I, U, E>>⟧.steady foldr.now }
    ensures same { (x y : U) → ⟦<Foldr<F, A, B, O> as Parser<'src, I, U, E>>⟧.same foldr.now x y → SameFoldedBack (B.same foldr.now.parser) (A.same foldr.now.items.parser) (F.gives foldr.now.folder) x y }
{}
