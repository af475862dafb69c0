//! A parser and then items, folded from its output by what may refuse.
ghost use Rattle.std.specs.Prelude.{◌≡◌, true, false, Bool, ◌||◌};
ghost use Rattle.chumsky_input.specs.Run.{Runs, with_value};
ghost use Rattle.chumsky_parser.specs.Failure.{asked};
ghost use Rattle.chumsky_folds.specs.Running.{DoesFoldTrying, DoesFoldTried, InTokens, NotPast};
ghost use Rattle.chumsky_folds.specs.Folding.{SameFolded};
ghost use Rattle.chumsky_folds.specs.FoldingShown.{SameTaken};
ghost use Rattle.chumsky_folds.specs.FoldingTried.{StepsTried, TakesAlike};

use crate::folder_with::TryFolder;
use chumsky_input::error::Error;
use chumsky_input::extra::ParserExtra;
use chumsky_input::input::Input;
use chumsky_input::input_ref::InputRef;
use chumsky_input::stop::{Fault, PResult, Stop};
use chumsky_parser::iter::{IsIterParser, IterParser, IterParserDebug};
use chumsky_parser::moving::{Moving, MovingItems};
use chumsky_parser::onward::next_item;
use chumsky_parser::parser::{IsParser, Parser};
use std::marker::PhantomData;

/// A parser, and then the items of another, folded from the left, from the first one's output, by a closure that is shown
/// the run and may refuse. See `try_foldl`.
#[derive(Drop)]
#[derive_where(Clone, Copy; F, A, B)]
pub struct TryFoldl<F, A, B, U> {
    pub parser: A,
    pub items: B,
    pub folder: F,
    pub of: PhantomData<U>,
}

impl<I, O, U, E, A: IsParser<I, O, E>, B: IsIterParser<I, U, E>, F> IsParser<I, O, E>
    for TryFoldl<F, A, B, U> {}

impl<
    'src,
    I: Input<'src>,
    O: Drop,
    U: Drop,
    E: ParserExtra<I>,
    A: Parser<'src, I, O, E>,
    B: IterParser<'src, I, U, E>,
    F: TryFolder<'src, I, O, U, E>,
> Parser<'src, I, O, E> for TryFoldl<F, A, B, U> {
    ghost use Rattle.chumsky_parser.specs.Language.{of_unsaid};
    ghost use Rattle.chumsky_folds.specs.Folding.{SameFolded};
    ghost use Rattle.chumsky_folds.specs.FoldingShown.{SameTaken};
    ghost use Rattle.chumsky_folds.specs.FoldingTried.{FoldsTried, StepsTried, TakesAlike};
    ghost use Rattle.chumsky_folds.specs.FoldingTriedLaws.{folds_tried-ends, folds_tried-agree};

    ghost ready = { λ p. A.ready p.parser × B.ready p.items × F.callable p.folder };

    ghost meaning = { λ p errors states. FoldsTried (λ s. B.gives p.items (record { nonconsumption_is_ok = false }) s errors states) (B.begins p.items errors states) errors.seen (F.gives p.folder states) (A.meaning p.parser errors states) };

    ghost steady = { λ p. A.steady p.parser × B.steady p.items × TakesAlike E.Error.seen (F.gives p.folder E.State.Inspector) (A.same p.parser) (B.same p.items) };

    ghost same = { λ p. SameFolded (A.same p.parser) (SameTaken (B.same p.items)) (StepsTried (F.gives p.folder E.State.Inspector)) };

    ghost ends_after_start = { λ p. folds_tried-ends _ _ _ _ _ (B.ends_after_start p.items (record { nonconsumption_is_ok = false })) (A.ends_after_start p.parser) };

    ghost agrees = { λ p s. folds_tried-agree _ _ _ _ _ (A.same p.parser) (B.same p.items) (B.alike p.items) s.2 (B.agrees p.items s.1 (record { nonconsumption_is_ok = false })) (A.agrees p.parser s.0) };

    ghost accepts = { λ _. of_unsaid };

    #[inline]
    fn go_emit(&self, inp: &mut InputRef<'src, '_, I, E>) -> PResult<O> {
        run_try_foldl(self, inp)
    }

    #[inline]
    fn go_check(&self, inp: &mut InputRef<'src, '_, I, E>) -> PResult<()> {
        let output = run_try_foldl(self, inp)?;
        drop(output);
        Ok(())
    }
}

/// Runs the part for its value, and folds the items into it.
#[inline]
fn run_try_foldl<'src, I, O, U, E, A, B, F>(
    fold: &TryFoldl<F, A, B, U>,
    inp: &mut InputRef<'src, '_, I, E>,
) -> PResult<O>
where
    I: Input<'src>,
    O: Drop,
    U: Drop,
    E: ParserExtra<I>,
    A: Parser<'src, I, O, E>,
    B: IterParser<'src, I, U, E>,
    F: TryFolder<'src, I, O, U, E>,
    requires part { A.ready fold.now.parser }
    requires items { B.ready fold.now.items }
    requires callable { F.callable fold.now.folder }
    ensures ran { (w : Bool) → Runs I.Input E.Error.Error E.State.Inspector (DoesFoldTried F.gives A.meaning B.begins B.gives fold.now E.Error.Error E.State.Inspector) w inp.old inp.new (asked w result) }
    ensures lent { inp.new.state.ghost_name ≡ inp.old.state.ghost_name }
{
    let before = inp.cursor();
    let first = fold.parser.go_emit(inp)?;
    try_fold_with::<I, O, U, E, B, F>(first, &before, &fold.items, &fold.folder, inp)
}

/// Runs over all items, and takes each into the accumulator, which is first as given, until one is refused.
#[inline(always)]
fn try_fold_with<
    'src,
    I: Input<'src>,
    B: Drop,
    O: Drop,
    E: ParserExtra<I>,
    A: IterParser<'src, I, O, E>,
    F: TryFolder<'src, I, B, O, E>,
>(
    first: B,
    since: &I::Cursor,
    parser: &A,
    folder: &F,
    inp: &mut InputRef<'src, '_, I, E>,
) -> PResult<B>
    requires ready { A.ready parser.now }
    requires callable { F.callable folder.now }
    requires tokens { InTokens I.Input E.Error.Error E.State.Inspector since.now inp.old }
    requires order { NotPast I.Input E.Error.Error E.State.Inspector since.now inp.old }
    ensures ran { Runs I.Input E.Error.Error E.State.Inspector (DoesFoldTrying (A.begins parser.now) (A.gives parser.now) (F.gives folder.now) (I.place since.now) first E.Error.Error E.State.Inspector) true inp.old inp.new (with_value result) }
    ensures lent { inp.new.state.ghost_name ≡ inp.old.state.ghost_name }
{
    let mut state = parser.make_iter(inp)?;
    let mut accumulator = first;
    let mut count = 0usize;
    let debug = IterParserDebug {
        nonconsumption_is_ok: false,
    };
    loop {
        let before = inp.cursor();
        match next_item(parser, inp, &mut state, debug)? {
            None => return Ok(accumulator),
            Some(item) => {
                if count == usize::MAX {
                    return Err(Fault::Stop(Stop::CountTooLarge));
                }
                count += 1;
                match folder.try_step(accumulator, item, since, inp) {
                    Ok(next) => accumulator = next,
                    Err(error) => return Err(inp.add_event(I::place(&before), error)),
                }
            }
        }
    }
}

impl<
    'src,
    I: Input<'src>,
    O: Drop,
    U: Drop,
    E: ParserExtra<I>,
    A: Moving<'src, I, O, E>,
    B: MovingItems<'src, I, U, E>,
    F: TryFolder<'src, I, O, U, E>,
> Moving<'src, I, O, E> for TryFoldl<F, A, B, U> {
    ghost use Rattle.chumsky_folds.specs.FoldsMove.{try_foldl-moves};

    ghost moves = { λ p. A.moves p.parser || B.first_moves p.items };

    ghost moved = { λ p. try_foldl-moves _ _ (B.ends_after_start p.items (record { nonconsumption_is_ok = false })) _ _ _ (A.moves p.parser) (B.first_moves p.items) (A.ends_after_start p.parser) (A.moved p.parser) (λ e. B.first_moved p.items e (record { nonconsumption_is_ok = false })) };

    fn always_moves(&self) -> bool
        ensures { result ≡ (A.moves self.now.parser || B.first_moves self.now.items) }
    {
        self.parser.always_moves() || self.items.first_always_moves()
    }
}

/// When it is ready and steady, and which outputs are the same: `a.try_foldl(b, f)`, where `f` takes both of two items that
/// are the same, into accumulators that were folded alike, or refuses both with errors that count as one, and leaves one
/// state; it may change the state, since both paths call it.
pub fn try_foldl_is_steady<
    'src,
    I: Input<'src>,
    O: Drop,
    U: Drop,
    E: ParserExtra<I>,
    A: Parser<'src, I, O, E>,
    B: IterParser<'src, I, U, E>,
    F: TryFolder<'src, I, O, U, E>,
>(foldl: &TryFoldl<F, A, B, U>)
    ensures ready { A.ready foldl.now.parser → B.ready foldl.now.items → F.callable foldl.now.folder → ⟦<TryFoldl<F, A, B, U> as Parser<'src, I, O, E>>⟧.ready foldl.now }
    ensures steady { let p = foldl.now in A.steady p.parser → B.steady p.items → TakesAlike E.Error.seen (F.gives p.folder E.State.Inspector) (A.same p.parser) (B.same p.items) → ⟦<TryFoldl<F, A, B, U> as Parser<'src, I, O, E>>⟧.steady p }
    ensures same { (x y : O) → ⟦<TryFoldl<F, A, B, U> as Parser<'src, I, O, E>>⟧.same foldl.now x y → SameFolded (A.same foldl.now.parser) (SameTaken (B.same foldl.now.items)) (StepsTried (F.gives foldl.now.folder E.State.Inspector)) x y }
{}
