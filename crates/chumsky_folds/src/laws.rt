//! Laws of folds and of items with their numbers, each the contract of a function that does nothing.
ghost use Rattle.chumsky_folds.specs.Compared.{NumbersFromZero};
ghost use Rattle.chumsky_folds.specs.AsParsers.{FoldIsOfItems, FoldlIsOfItems, FoldrIsOfReverse, BlindFoldl, BlindAnywhere, BlindFoldr, UnrefusingFoldl};

use crate::enumerate::Enumerate;
use crate::fold::Fold;
use crate::folder::{Folder, RightFolder};
use crate::folder_with::{FolderWith, RightFolderWith, TryFolder};
use crate::foldl::Foldl;
use crate::foldl_with::FoldlWith;
use crate::foldr::Foldr;
use crate::foldr_with::FoldrWith;
use crate::try_foldl::TryFoldl;
use chumsky_input::extra::ParserExtra;
use chumsky_input::input::Input;
use chumsky_items::collect::Collect;
use chumsky_parser::iter::IterParser;
use chumsky_parser::parser::Parser;

/// `fold` gives the fold of what `collect` into a `Vec` gives: the items, each taken in order into a clone of the first
/// value; and where the one says yes so does the other, with the same end, state, events and emitted errors.
pub fn fold_is_the_fold_of_what_collect_gives<
    'src,
    I: Input<'src>,
    O: Drop,
    E: ParserExtra<I>,
    A: IterParser<'src, I, O, E>,
    B: Clone + Drop,
    F: Folder<B, O>,
>(fold: &Fold<F, A, B, O>)
    ensures { FoldIsOfItems E.Error.Error E.State.Inspector B.is_clone F.gives
        ⟦<Collect<A, O, Vec<O>> as Parser<'src, I, Vec<O>, E>>⟧.meaning
        ⟦<Fold<F, A, B, O> as Parser<'src, I, B, E>>⟧.meaning fold.now }
{}

/// `foldl` gives the fold of what its parser, and then `collect` of its items, give: the items, each taken in order into the
/// parser's output.
pub fn foldl_is_the_fold_of_what_collect_gives<
    'src,
    I: Input<'src>,
    O: Drop,
    U: Drop,
    E: ParserExtra<I>,
    A: Parser<'src, I, O, E>,
    B: IterParser<'src, I, U, E>,
    F: Folder<O, U>,
>(foldl: &Foldl<F, A, B, U>)
    ensures { FoldlIsOfItems E.Error.Error E.State.Inspector F.gives A.meaning
        ⟦<Collect<B, U, Vec<U>> as Parser<'src, I, Vec<U>, E>>⟧.meaning
        ⟦<Foldl<F, A, B, U> as Parser<'src, I, O, E>>⟧.meaning foldl.now }
{}

/// Where its folder takes no notice of the run and leaves the state, `foldl_with` has the outcomes of `foldl` by a folder with
/// the same answers: each of its outcomes is one of `foldl`, and the other way round from where a cursor is, if its parts end
/// where cursors are, as runs do. Closures answer only where cursors are; a folder that answers whatever it is shown needs no
/// cursor.
pub fn foldl_with_by_a_blind_folder_is_foldl<
    'src,
    I: Input<'src>,
    O: Drop,
    U: Drop,
    E: ParserExtra<I>,
    A: Parser<'src, I, O, E>,
    B: IterParser<'src, I, U, E>,
    F: FolderWith<'src, I, O, U, E>,
    G: Folder<O, U>,
>(foldl: &FoldlWith<F, A, B, U>, folder: &G)
    ensures cursors { BlindFoldl E.Error.Error E.State.Inspector F.gives G.gives A.meaning B.begins B.gives
        ⟦<FoldlWith<F, A, B, U> as Parser<'src, I, O, E>>⟧.meaning
        ⟦<Foldl<G, A, B, U> as Parser<'src, I, O, E>>⟧.meaning foldl.now folder.now I.Input }
    ensures anywhere { BlindAnywhere E.Error.Error E.State.Inspector F.gives G.gives A.meaning B.begins B.gives
        ⟦<FoldlWith<F, A, B, U> as Parser<'src, I, O, E>>⟧.meaning
        ⟦<Foldl<G, A, B, U> as Parser<'src, I, O, E>>⟧.meaning foldl.now folder.now }
{}

/// Where its folder never refuses an item, `try_foldl` has the outcomes of `foldl_with` by a folder with the same answers.
pub fn try_foldl_that_never_refuses_is_foldl_with<
    'src,
    I: Input<'src>,
    O: Drop,
    U: Drop,
    E: ParserExtra<I>,
    A: Parser<'src, I, O, E>,
    B: IterParser<'src, I, U, E>,
    F: TryFolder<'src, I, O, U, E>,
    G: FolderWith<'src, I, O, U, E>,
>(foldl: &TryFoldl<F, A, B, U>, folder: &G)
    ensures { UnrefusingFoldl E.Error.Error E.State.Inspector F.gives G.gives
        ⟦<TryFoldl<F, A, B, U> as Parser<'src, I, O, E>>⟧.meaning
        ⟦<FoldlWith<G, A, B, U> as Parser<'src, I, O, E>>⟧.meaning foldl.now folder.now }
{}

/// `foldr` gives the left fold of the items in reverse, as `collect` gives them, into the output of the parser after them.
pub fn foldr_is_the_fold_of_the_reverse<
    'src,
    I: Input<'src>,
    O: Drop,
    U: Drop,
    E: ParserExtra<I>,
    A: IterParser<'src, I, O, E>,
    B: Parser<'src, I, U, E>,
    F: RightFolder<O, U>,
>(foldr: &Foldr<F, A, B, O>)
    ensures { FoldrIsOfReverse E.Error.Error E.State.Inspector F.gives B.meaning
        ⟦<Collect<A, O, Vec<O>> as Parser<'src, I, Vec<O>, E>>⟧.meaning
        ⟦<Foldr<F, A, B, O> as Parser<'src, I, U, E>>⟧.meaning foldr.now }
{}

/// Where its folder takes no notice of the run and leaves the state, `foldr_with` has the outcomes of `foldr` by a folder with
/// the same answers: each of its outcomes is one of `foldr`, and the other way round from where a cursor is, if its parts end
/// where cursors are, as runs do.
pub fn foldr_with_by_a_blind_folder_is_foldr<
    'src,
    I: Input<'src>,
    O: Drop,
    U: Drop,
    E: ParserExtra<I>,
    A: IterParser<'src, I, O, E>,
    B: Parser<'src, I, U, E>,
    F: RightFolderWith<'src, I, O, U, E>,
    G: RightFolder<O, U>,
>(foldr: &FoldrWith<F, A, B, O>, folder: &G)
    ensures { BlindFoldr E.Error.Error E.State.Inspector I.Input F.gives G.gives A.begins A.gives B.meaning
        ⟦<FoldrWith<F, A, B, O> as Parser<'src, I, U, E>>⟧.meaning
        ⟦<Foldr<G, A, B, O> as Parser<'src, I, U, E>>⟧.meaning foldr.now folder.now }
{}

/// The items of `enumerate` have the numbers 0, 1, 2 and so on, in order.
pub fn enumerate_numbers_from_zero<
    'src,
    I: Input<'src>,
    O: Drop,
    E: ParserExtra<I>,
    A: IterParser<'src, I, O, E>,
>(collect: &Collect<Enumerate<A, O>, (usize, O), Vec<(usize, O)>>)
    ensures { NumbersFromZero (λ v. v.items) (⟦<Collect<Enumerate<A, O>, (usize, O), Vec<(usize, O)>> as Parser<'src, I, Vec<(usize, O)>, E>>⟧.meaning collect.now E.Error.Error E.State.Inspector) }
{}
