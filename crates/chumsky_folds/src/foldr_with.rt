//! Items and then a parser, folded from its output back by what is shown the run.
ghost use Rattle.std.specs.Prelude.{◌≡◌, true, false, IfOk, ◌||◌};
ghost use Rattle.chumsky_input.specs.Run.{Runs, with_value};
ghost use Rattle.chumsky_folds.specs.Placed.{HoldsPlaced};
ghost use Rattle.chumsky_folds.specs.Running.{DoesCollectPlaced, AllNotPast, OnlyState, FoldsItemsBack};
ghost use Rattle.chumsky_parser.specs.Showing.{OnlyAnswers};
ghost use Rattle.chumsky_folds.specs.FoldingBack.{SameFoldedBack};
ghost use Rattle.chumsky_folds.specs.FoldingShown.{SameTaken};
ghost use Rattle.chumsky_folds.specs.FoldingBackShown.{StepsBackShown};

use crate::folder_with::RightFolderWith;
use chumsky_input::extra::ParserExtra;
use chumsky_input::input::Input;
use chumsky_input::input_ref::InputRef;
use chumsky_input::stop::{Fault, PResult, Stop};
use chumsky_items::pass::pass_all;
use chumsky_parser::iter::{IsIterParser, IterParser, IterParserDebug};
use chumsky_parser::moving::{Moving, MovingItems};
use chumsky_parser::onward::next_item;
use chumsky_parser::parser::{IsParser, Parser};
use std::marker::PhantomData;

/// The items of a parser, and then another parser, folded from the right, from the other one's output, by a closure that is
/// shown the run. See `foldr_with`.
#[derive(Drop)]
#[derive_where(Clone, Copy; F, A, B)]
pub struct FoldrWith<F, A, B, O> {
    pub items: A,
    pub parser: B,
    pub folder: F,
    pub of: PhantomData<O>,
}

impl<I, O, U, E, A: IsIterParser<I, O, E>, B: IsParser<I, U, E>, F> IsParser<I, U, E>
    for FoldrWith<F, A, B, O> {}

impl<
    'src,
    I: Input<'src>,
    O: Drop,
    U: Drop,
    E: ParserExtra<I>,
    A: IterParser<'src, I, O, E>,
    B: Parser<'src, I, U, E>,
    F: RightFolderWith<'src, I, O, U, E>,
> Parser<'src, I, U, E> for FoldrWith<F, A, B, O> {
    ghost use Rattle.chumsky_parser.specs.Language.{of_unsaid};
    ghost use Rattle.std.proofs.Common.{sym, ◌∙◌};
    ghost use Rattle.chumsky_parser.specs.Showing.{OnlyAnswers};
    ghost use Rattle.chumsky_folds.specs.FoldingBack.{SameFoldedBack};
    ghost use Rattle.chumsky_folds.specs.FoldingShown.{SameTaken};
    ghost use Rattle.chumsky_folds.specs.FoldingBackShown.{FoldsBackShown, StepsBackShown};
    ghost use Rattle.chumsky_folds.specs.FoldingBackShownLaws.{folds_back_shown-ends, folds_back_shown-agree};

    ghost ready = { λ p. A.ready p.items × B.ready p.parser × F.callable p.folder };

    ghost meaning = { λ p errors states. FoldsBackShown (λ s. A.gives p.items (record { nonconsumption_is_ok = false }) s errors states) (A.begins p.items errors states) (HoldsPlaced I.Input) (F.gives p.folder states) (B.meaning p.parser errors states) };

    ghost steady = { λ p. A.steady p.items × B.steady p.parser × OnlyAnswers (F.gives p.folder E.State.Inspector) };

    ghost same = { λ p. SameFoldedBack (B.same p.parser) (SameTaken (A.same p.items)) (StepsBackShown (F.gives p.folder E.State.Inspector)) };

    ghost ends_after_start = { λ p. folds_back_shown-ends _ _ _ _ _ (A.ends_after_start p.items (record { nonconsumption_is_ok = false })) (B.ends_after_start p.parser) };

    ghost agrees = { λ p s. folds_back_shown-agree _ _ _ _ _ (λ xs ys v e d. sym e ∙ d) s.2 (A.same p.items) (B.same p.parser) (A.alike p.items) (A.agrees p.items s.0 (record { nonconsumption_is_ok = false })) (B.agrees p.parser s.1) };

    ghost accepts = { λ _. of_unsaid };

    #[inline(always)]
    fn go_emit(&self, inp: &mut InputRef<'src, '_, I, E>) -> PResult<U> {
        let items = collect_placed::<I, O, E, A>(&self.items, inp)?;
        let last = self.parser.go_emit(inp)?;
        Ok(fold_back_with::<I, O, U, E, F>(items, last, &self.folder, inp))
    }

    #[inline(always)]
    fn go_check(&self, inp: &mut InputRef<'src, '_, I, E>) -> PResult<()> {
        pass_all::<Vec<(O, I::Cursor)>, I, O, E, A>(&self.items, inp)?;
        self.parser.go_check(inp)
    }
}

/// All items, in order, each with the cursor before its step.
#[inline(always)]
fn collect_placed<'src, I: Input<'src>, O: Drop, E: ParserExtra<I>, A: IterParser<'src, I, O, E>>(
    parser: &A,
    inp: &mut InputRef<'src, '_, I, E>,
) -> PResult<Vec<(O, I::Cursor)>>
    requires { A.ready parser.now }
    ensures ran { Runs I.Input E.Error.Error E.State.Inspector (DoesCollectPlaced (A.begins parser.now) (A.gives parser.now) I.Input E.Error.Error E.State.Inspector) true inp.old inp.new (with_value result) }
    ensures within { IfOk result (λ v. AllNotPast I.Input E.Error.Error E.State.Inspector v.items inp.new) }
    ensures lent { inp.new.state.ghost_name ≡ inp.old.state.ghost_name }
{
    let mut state = parser.make_iter(inp)?;
    let mut items = Vec::new(inp.alloc());
    let mut count = 0usize;
    let debug = IterParserDebug {
        nonconsumption_is_ok: false,
    };
    loop {
        let before = inp.cursor();
        match next_item(parser, inp, &mut state, debug)? {
            None => return Ok(items),
            Some(item) => {
                if count == usize::MAX {
                    return Err(Fault::Stop(Stop::CountTooLarge));
                }
                count += 1;
                match items.push((item, before)) {
                    Ok(()) => {}
                    Err(_) => return Err(Fault::Stop(Stop::Memory)),
                }
            }
        }
    }
}

/// Takes each item into the accumulator, from the last one back, showing what the run took since its cursor.
#[inline(always)]
fn fold_back_with<
    'src,
    I: Input<'src>,
    O: Drop,
    U,
    E: ParserExtra<I>,
    F: RightFolderWith<'src, I, O, U, E>,
>(items: Vec<(O, I::Cursor)>, last: U, folder: &F, inp: &mut InputRef<'src, '_, I, E>) -> U
    requires callable { F.callable folder.now }
    requires within { AllNotPast I.Input E.Error.Error E.State.Inspector items.items inp.old }
    ensures folds { FoldsItemsBack I.Input E.Error.Error E.State.Inspector (F.gives folder.now E.State.Inspector) last items.items inp.old inp.new result }
    ensures moves { OnlyState I.Input E.Error.Error E.State.Inspector inp.old inp.new }
    ensures lent { inp.new.state.ghost_name ≡ inp.old.state.ghost_name }
{
    let mut left = items;
    let mut accumulator = last;
    while let Some(placed) = left.pop() {
        let (item, before) = placed;
        accumulator = folder.step_with(item, accumulator, &before, inp);
    }
    accumulator
}

impl<
    'src,
    I: Input<'src>,
    O: Drop,
    U: Drop,
    E: ParserExtra<I>,
    A: MovingItems<'src, I, O, E>,
    B: Moving<'src, I, U, E>,
    F: RightFolderWith<'src, I, O, U, E>,
> Moving<'src, I, U, E> for FoldrWith<F, A, B, O> {
    ghost use Rattle.chumsky_folds.specs.FoldsMove.{foldr_with-moves};

    ghost moves = { λ p. A.first_moves p.items || B.moves p.parser };

    ghost moved = { λ p. foldr_with-moves _ _ (A.ends_after_start p.items (record { nonconsumption_is_ok = false })) _ _ _ (A.first_moves p.items) (B.moves p.parser) (B.ends_after_start p.parser) (λ e. A.first_moved p.items e (record { nonconsumption_is_ok = false })) (B.moved p.parser) };

    fn always_moves(&self) -> bool
        ensures { result ≡ (A.first_moves self.now.items || B.moves self.now.parser) }
    {
        self.items.first_always_moves() || self.parser.always_moves()
    }
}

/// When it is ready and steady, and which outputs are the same: `a.foldr_with(b, f)`, where `f` gives one answer to each
/// item, accumulator and what it is shown, and leaves the state as it is. Two outputs are the same where they are right
/// folds, from outputs of `b` that are the same, of as many items that are, each shown one run.
pub fn foldr_with_is_steady<
    'src,
    I: Input<'src>,
    O: Drop,
    U: Drop,
    E: ParserExtra<I>,
    A: IterParser<'src, I, O, E>,
    B: Parser<'src, I, U, E>,
    F: RightFolderWith<'src, I, O, U, E>,
>(foldr: &FoldrWith<F, A, B, O>)
    ensures ready { A.ready foldr.now.items → B.ready foldr.now.parser → F.callable foldr.now.folder → ⟦<FoldrWith<F, A, B, O> as Parser<'src, I, U, E>>⟧.ready foldr.now }
    ensures steady { A.steady foldr.now.items → B.steady foldr.now.parser → OnlyAnswers (F.gives foldr.now.folder E.State.Inspector) → ⟦<FoldrWith<F, A, B, O> as Parser<'src, I, U, E>>⟧.steady foldr.now }
    ensures same { (x y : U) → ⟦<FoldrWith<F, A, B, O> as Parser<'src, I, U, E>>⟧.same foldr.now x y → SameFoldedBack (B.same foldr.now.parser) (SameTaken (A.same foldr.now.items)) (StepsBackShown (F.gives foldr.now.folder E.State.Inspector)) x y }
{}
