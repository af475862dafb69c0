//! A parser and then items, folded from its output by what is shown the run.
ghost use Rattle.std.specs.Prelude.{◌≡◌, true, false, ◌||◌};
ghost use Rattle.chumsky_input.specs.Run.{Runs, with_value};
ghost use Rattle.chumsky_folds.specs.Running.{DoesFoldShown, InTokens, NotPast};
ghost use Rattle.chumsky_parser.specs.Showing.{OnlyAnswers};
ghost use Rattle.chumsky_folds.specs.Folding.{SameFolded};
ghost use Rattle.chumsky_folds.specs.FoldingShown.{StepsShown, SameTaken};

use crate::folder_with::FolderWith;
use chumsky_input::extra::ParserExtra;
use chumsky_input::input::Input;
use chumsky_input::input_ref::InputRef;
use chumsky_input::stop::{Fault, PResult, Stop};
use chumsky_items::pass::pass_all;
use chumsky_parser::iter::{IsIterParser, IterParser, IterParserDebug};
use chumsky_parser::moving::{Moving, MovingItems};
use chumsky_parser::onward::next_item;
use chumsky_parser::parser::{IsParser, Parser};
use std::marker::PhantomData;

/// A parser, and then the items of another, folded from the left, from the first one's output, by a closure that is shown
/// the run. See `foldl_with`.
#[derive(Drop)]
#[derive_where(Clone, Copy; F, A, B)]
pub struct FoldlWith<F, A, B, U> {
    pub parser: A,
    pub items: B,
    pub folder: F,
    pub of: PhantomData<U>,
}

impl<I, O, U, E, A: IsParser<I, O, E>, B: IsIterParser<I, U, E>, F> IsParser<I, O, E>
    for FoldlWith<F, A, B, U> {}

impl<
    'src,
    I: Input<'src>,
    O: Drop,
    U: Drop,
    E: ParserExtra<I>,
    A: Parser<'src, I, O, E>,
    B: IterParser<'src, I, U, E>,
    F: FolderWith<'src, I, O, U, E>,
> Parser<'src, I, O, E> for FoldlWith<F, A, B, U> {
    ghost use Rattle.chumsky_parser.specs.Language.{of_unsaid};
    ghost use Rattle.chumsky_parser.specs.Showing.{OnlyAnswers};
    ghost use Rattle.chumsky_folds.specs.Folding.{SameFolded};
    ghost use Rattle.chumsky_folds.specs.FoldingShown.{FoldsShown, StepsShown, SameTaken};
    ghost use Rattle.chumsky_folds.specs.FoldingShownLaws.{folds_shown-ends, folds_shown-agree};

    ghost ready = { λ p. A.ready p.parser × B.ready p.items × F.callable p.folder };

    ghost meaning = { λ p errors states. FoldsShown (λ s. B.gives p.items (record { nonconsumption_is_ok = false }) s errors states) (B.begins p.items errors states) (F.gives p.folder states) (A.meaning p.parser errors states) };

    ghost steady = { λ p. A.steady p.parser × B.steady p.items × OnlyAnswers (F.gives p.folder E.State.Inspector) };

    ghost same = { λ p. SameFolded (A.same p.parser) (SameTaken (B.same p.items)) (StepsShown (F.gives p.folder E.State.Inspector)) };

    ghost ends_after_start = { λ p. folds_shown-ends _ _ _ _ (B.ends_after_start p.items (record { nonconsumption_is_ok = false })) (A.ends_after_start p.parser) };

    ghost agrees = { λ p s. folds_shown-agree _ _ _ _ s.2 (A.same p.parser) (B.same p.items) (B.alike p.items) (B.agrees p.items s.1 (record { nonconsumption_is_ok = false })) (A.agrees p.parser s.0) };

    ghost accepts = { λ _. of_unsaid };

    #[inline(always)]
    fn go_emit(&self, inp: &mut InputRef<'src, '_, I, E>) -> PResult<O> {
        let before = inp.cursor();
        let first = self.parser.go_emit(inp)?;
        fold_with::<I, O, U, E, B, F>(first, &before, &self.items, &self.folder, inp)
    }

    #[inline(always)]
    fn go_check(&self, inp: &mut InputRef<'src, '_, I, E>) -> PResult<()> {
        self.parser.go_check(inp)?;
        pass_all::<O, I, U, E, B>(&self.items, inp)
    }
}

/// Runs over all items, and takes each into the accumulator, which is first as given, showing what the run took since a
/// cursor.
#[inline(always)]
fn fold_with<
    'src,
    I: Input<'src>,
    B: Drop,
    O: Drop,
    E: ParserExtra<I>,
    A: IterParser<'src, I, O, E>,
    F: FolderWith<'src, I, B, O, E>,
>(
    first: B,
    since: &I::Cursor,
    parser: &A,
    folder: &F,
    inp: &mut InputRef<'src, '_, I, E>,
) -> PResult<B>
    requires ready { A.ready parser.now }
    requires callable { F.callable folder.now }
    requires tokens { InTokens I.Input E.Error.Error E.State.Inspector since.now inp.old }
    requires order { NotPast I.Input E.Error.Error E.State.Inspector since.now inp.old }
    ensures ran { Runs I.Input E.Error.Error E.State.Inspector (DoesFoldShown (A.begins parser.now) (A.gives parser.now) (F.gives folder.now) (I.place since.now) first E.Error.Error E.State.Inspector) true inp.old inp.new (with_value result) }
    ensures lent { inp.new.state.ghost_name ≡ inp.old.state.ghost_name }
{
    let mut state = parser.make_iter(inp)?;
    let mut accumulator = first;
    let mut count = 0usize;
    let debug = IterParserDebug {
        nonconsumption_is_ok: false,
    };
    loop {
        match next_item(parser, inp, &mut state, debug)? {
            None => return Ok(accumulator),
            Some(item) => {
                if count == usize::MAX {
                    return Err(Fault::Stop(Stop::CountTooLarge));
                }
                count += 1;
                accumulator = folder.step_with(accumulator, item, since, inp);
            }
        }
    }
}

impl<
    'src,
    I: Input<'src>,
    O: Drop,
    U: Drop,
    E: ParserExtra<I>,
    A: Moving<'src, I, O, E>,
    B: MovingItems<'src, I, U, E>,
    F: FolderWith<'src, I, O, U, E>,
> Moving<'src, I, O, E> for FoldlWith<F, A, B, U> {
    ghost use Rattle.chumsky_folds.specs.FoldsMove.{foldl_with-moves};

    ghost moves = { λ p. A.moves p.parser || B.first_moves p.items };

    ghost moved = { λ p. foldl_with-moves _ _ (B.ends_after_start p.items (record { nonconsumption_is_ok = false })) _ _ (A.moves p.parser) (B.first_moves p.items) (A.ends_after_start p.parser) (A.moved p.parser) (λ e. B.first_moved p.items e (record { nonconsumption_is_ok = false })) };

    fn always_moves(&self) -> bool
        ensures { result ≡ (A.moves self.now.parser || B.first_moves self.now.items) }
    {
        self.parser.always_moves() || self.items.first_always_moves()
    }
}

/// When it is ready and steady, and which outputs are the same: `a.foldl_with(b, f)`, where `f` gives one answer to each
/// accumulator, item and what it is shown, and leaves the state as it is. Two outputs are the same where they are left folds,
/// from outputs of `a` that are the same, of as many items that are, each shown one run.
pub fn foldl_with_is_steady<
    'src,
    I: Input<'src>,
    O: Drop,
    U: Drop,
    E: ParserExtra<I>,
    A: Parser<'src, I, O, E>,
    B: IterParser<'src, I, U, E>,
    F: FolderWith<'src, I, O, U, E>,
>(foldl: &FoldlWith<F, A, B, U>)
    ensures ready { A.ready foldl.now.parser → B.ready foldl.now.items → F.callable foldl.now.folder → ⟦<FoldlWith<F, A, B, U> as Parser<'src, I, O, E>>⟧.ready foldl.now }
    ensures steady { A.steady foldl.now.parser → B.steady foldl.now.items → OnlyAnswers (F.gives foldl.now.folder E.State.Inspector) → ⟦<FoldlWith<F, A, B, U> as Parser<'src, I, O, E>>⟧.steady foldl.now }
    ensures same { (x y : O) → ⟦<FoldlWith<F, A, B, U> as Parser<'src, I, O, E>>⟧.same foldl.now x y → SameFolded (A.same foldl.now.parser) (SameTaken (B.same foldl.now.items)) (StepsShown (F.gives foldl.now.folder E.State.Inspector)) x y }
{}
