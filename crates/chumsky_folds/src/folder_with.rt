//! What makes one value of many, and is shown the run.
ghost use Rattle.std.specs.Prelude.{◌≡◌, ◌≤◌};
ghost use Rattle.chumsky_folds.specs.CalledWithTwo.{KeepsStateOfTwo, AnswersTwo};
ghost use Rattle.chumsky_folds.specs.Running.{InTokens, NotPast, OnlyState, AnswersSince};

use crate::folder::{Folder, RightFolder};
use chumsky_input::extra::ParserExtra;
use chumsky_input::input::Input;
use chumsky_input::input_ref::InputRef;
use chumsky_input::map_extra::MapExtra;
use std::alloc::Global;
use std::marker::PhantomData;

/// What takes one item more into an accumulator, from the left, and is shown the run: what `foldl_with` calls. Each closure
/// `Fn(A, O, &mut MapExtra<I, E>) -> A` is one.
pub trait FolderWith<'src, I: Input<'src>, A, O, E: ParserExtra<I>> {
    ghost use Rattle.chumsky_parser.specs.Showing.{Makes};

    /// That it may be called, and keeps the reference to the state.
    ghost callable: { Self → Type 0 };

    /// What it may give for an accumulator, an item and what it is shown, and the state that it may leave.
    ghost gives: { Self → Makes I I.Token I.Span E.State E.State.Mark E.Context (A × O) A };

    /// The accumulator with the item in it, shown what the run took since a cursor of its input.
    fn step_with(
        &self,
        accumulator: A,
        item: O,
        since: &I::Cursor,
        inp: &mut InputRef<'src, '_, I, E>,
    ) -> A
        requires callable { callable self.now }
        requires tokens { InTokens I.Input E.Error.Error E.State.Inspector since.now inp.old }
        requires order { NotPast I.Input E.Error.Error E.State.Inspector since.now inp.old }
        ensures gives { AnswersSince I.Input E.Error.Error E.State.Inspector (gives self.now E.State.Inspector (accumulator, item)) since.now inp.old inp.new result }
        ensures moves { OnlyState I.Input E.Error.Error E.State.Inspector inp.old inp.new }
        ensures lent { inp.new.state.ghost_name ≡ inp.old.state.ghost_name };
}

impl<'src, I, A, O, E, F> FolderWith<'src, I, A, O, E> for F
where
    I: Input<'src>,
    E: ParserExtra<I>,
    F: Fn(A, O, &mut MapExtra<'src, '_, I, E>) -> A,
{
    ghost callable = { λ f. KeepsStateOfTwo I.Input E.State.Inspector F.Fn f };

    ghost gives = { λ f states. AnswersTwo I.Input states F.Fn f };

    #[inline(always)]
    fn step_with(
        &self,
        accumulator: A,
        item: O,
        since: &I::Cursor,
        inp: &mut InputRef<'src, '_, I, E>,
    ) -> A {
        call_with_two(self, accumulator, item, since, inp)
    }
}

/// What takes one item more into an accumulator, from the right, and is shown the run: what `foldr_with` calls. Each closure
/// `Fn(O, A, &mut MapExtra<I, E>) -> A` is one.
pub trait RightFolderWith<'src, I: Input<'src>, O, A, E: ParserExtra<I>> {
    ghost use Rattle.chumsky_parser.specs.Showing.{Makes};

    /// That it may be called, and keeps the reference to the state.
    ghost callable: { Self → Type 0 };

    /// What it may give for an item, an accumulator and what it is shown, and the state that it may leave.
    ghost gives: { Self → Makes I I.Token I.Span E.State E.State.Mark E.Context (O × A) A };

    /// The accumulator with the item in it, shown what the run took since a cursor of its input.
    fn step_with(
        &self,
        item: O,
        accumulator: A,
        since: &I::Cursor,
        inp: &mut InputRef<'src, '_, I, E>,
    ) -> A
        requires callable { callable self.now }
        requires tokens { InTokens I.Input E.Error.Error E.State.Inspector since.now inp.old }
        requires order { NotPast I.Input E.Error.Error E.State.Inspector since.now inp.old }
        ensures gives { AnswersSince I.Input E.Error.Error E.State.Inspector (gives self.now E.State.Inspector (item, accumulator)) since.now inp.old inp.new result }
        ensures moves { OnlyState I.Input E.Error.Error E.State.Inspector inp.old inp.new }
        ensures lent { inp.new.state.ghost_name ≡ inp.old.state.ghost_name };
}

impl<'src, I, O, A, E, F> RightFolderWith<'src, I, O, A, E> for F
where
    I: Input<'src>,
    E: ParserExtra<I>,
    F: Fn(O, A, &mut MapExtra<'src, '_, I, E>) -> A,
{
    ghost callable = { λ f. KeepsStateOfTwo I.Input E.State.Inspector F.Fn f };

    ghost gives = { λ f states. AnswersTwo I.Input states F.Fn f };

    #[inline(always)]
    fn step_with(
        &self,
        item: O,
        accumulator: A,
        since: &I::Cursor,
        inp: &mut InputRef<'src, '_, I, E>,
    ) -> A {
        call_with_two(self, item, accumulator, since, inp)
    }
}

/// What takes one item more into an accumulator, or refuses it with an error, and is shown the run: what `try_foldl` calls.
/// Each closure `Fn(A, O, &mut MapExtra<I, E>) -> Result<A, Error>` is one.
pub trait TryFolder<'src, I: Input<'src>, A, O, E: ParserExtra<I>> {
    ghost use Rattle.std.specs.Prelude.{Result};
    ghost use Rattle.chumsky_parser.specs.Showing.{Makes};

    /// That it may be called, and keeps the reference to the state.
    ghost callable: { Self → Type 0 };

    /// What it may answer to an accumulator, an item and what it is shown, and the state that it may leave.
    ghost gives: { Self → Makes I I.Token I.Span E.State E.State.Mark E.Context (A × O) (Result A E.Error) };

    /// The accumulator with the item in it, or the error that refuses it, shown what the run took since a cursor of its
    /// input.
    fn try_step(
        &self,
        accumulator: A,
        item: O,
        since: &I::Cursor,
        inp: &mut InputRef<'src, '_, I, E>,
    ) -> Result<A, E::Error>
        requires callable { callable self.now }
        requires tokens { InTokens I.Input E.Error.Error E.State.Inspector since.now inp.old }
        requires order { NotPast I.Input E.Error.Error E.State.Inspector since.now inp.old }
        ensures gives { AnswersSince I.Input E.Error.Error E.State.Inspector (gives self.now E.State.Inspector (accumulator, item)) since.now inp.old inp.new result }
        ensures moves { OnlyState I.Input E.Error.Error E.State.Inspector inp.old inp.new }
        ensures lent { inp.new.state.ghost_name ≡ inp.old.state.ghost_name };
}

impl<'src, I, A, O, E, F> TryFolder<'src, I, A, O, E> for F
where
    I: Input<'src>,
    E: ParserExtra<I>,
    F: Fn(A, O, &mut MapExtra<'src, '_, I, E>) -> Result<A, E::Error>,
{
    ghost callable = { λ f. KeepsStateOfTwo I.Input E.State.Inspector F.Fn f };

    ghost gives = { λ f states. AnswersTwo I.Input states F.Fn f };

    #[inline(always)]
    fn try_step(
        &self,
        accumulator: A,
        item: O,
        since: &I::Cursor,
        inp: &mut InputRef<'src, '_, I, E>,
    ) -> Result<A, E::Error> {
        call_with_two(self, accumulator, item, since, inp)
    }
}

/// Calls a closure with two values and an extra over what the run took since a cursor of its input.
#[inline(always)]
fn call_with_two<'src, I, E, A, V, R, F>(
    closure: &F,
    first: A,
    second: V,
    since: &I::Cursor,
    inp: &mut InputRef<'src, '_, I, E>,
) -> R
where
    I: Input<'src>,
    E: ParserExtra<I>,
    F: Fn(A, V, &mut MapExtra<'src, '_, I, E>) -> R,
    requires callable { KeepsStateOfTwo I.Input E.State.Inspector F.Fn closure.now }
    requires tokens { InTokens I.Input E.Error.Error E.State.Inspector since.now inp.old }
    requires order { NotPast I.Input E.Error.Error E.State.Inspector since.now inp.old }
    ensures answers { AnswersSince I.Input E.Error.Error E.State.Inspector (AnswersTwo I.Input E.State.Inspector F.Fn closure.now (first, second)) since.now inp.old inp.new result }
    ensures moves { OnlyState I.Input E.Error.Error E.State.Inspector inp.old inp.new }
    ensures lent { inp.new.state.ghost_name ≡ inp.old.state.ghost_name }
{
    let (to, context, alloc) = (inp.cursor(), inp.ctx(), inp.alloc());
    show_two::<I, E, A, V, R, F>(
        closure,
        first,
        second,
        since,
        &to,
        &mut *inp.state,
        context,
        alloc,
    )
}

/// Calls a closure with two values and an extra that shows what lies between two cursors.
#[inline(always)]
fn show_two<'src, I, E, A, V, R, F>(
    closure: &F,
    first: A,
    second: V,
    from: &I::Cursor,
    to: &I::Cursor,
    state: &mut E::State,
    context: &E::Context,
    alloc: Global,
) -> R
where
    I: Input<'src>,
    E: ParserExtra<I>,
    F: Fn(A, V, &mut MapExtra<'src, '_, I, E>) -> R,
    requires callable { KeepsStateOfTwo I.Input E.State.Inspector F.Fn closure.now }
    requires tokens { I.cursor_tokens from.now ≡ I.cursor_tokens to.now }
    requires order { I.place from.now ≤ I.place to.now }
    ensures { AnswersTwo I.Input E.State.Inspector F.Fn closure.now (first, second)
        (record { tokens = I.cursor_tokens to.now; from = I.place from.now; to = I.place to.now; context = context.now; state = E.State.seen state.old })
        result (E.State.seen state.new) }
{
    let mut extra: MapExtra<'src, '_, I, E> = MapExtra {
        from: *from,
        to: *to,
        state,
        context,
        alloc,
        source: PhantomData,
    };
    let answer = closure(first, second, &mut extra);
    let MapExtra {
        from: _,
        to: _,
        state: lent,
        context: _,
        alloc: _,
        source: _,
    } = extra;
    let _last = &*lent;
    answer
}

/// A closure is a folder that may be called where it may be called at all, and one that is shown the run where it keeps the
/// reference to the state too.
pub fn closures_may_fold<'src, I, A, O, E, F, G, H, J, K>(
    left: &F,
    right: &G,
    left_with: &H,
    right_with: &J,
    trying: &K,
)
where
    I: Input<'src>,
    E: ParserExtra<I>,
    F: Fn(A, O) -> A,
    G: Fn(O, A) -> A,
    H: Fn(A, O, &mut MapExtra<'src, '_, I, E>) -> A,
    J: Fn(O, A, &mut MapExtra<'src, '_, I, E>) -> A,
    K: Fn(A, O, &mut MapExtra<'src, '_, I, E>) -> Result<A, E::Error>,
    ensures left { F.IsAlwaysCallable left.now → ⟦<F as Folder<A, O>>⟧.callable left.now }
    ensures right { G.IsAlwaysCallable right.now → ⟦<G as RightFolder<O, A>>⟧.callable right.now }
    ensures left_with { KeepsStateOfTwo I.Input E.State.Inspector H.Fn left_with.now → ⟦<H as FolderWith<'src, I, A, O, E>>⟧.callable left_with.now }
    ensures right_with { KeepsStateOfTwo I.Input E.State.Inspector J.Fn right_with.now → ⟦<J as RightFolderWith<'src, I, O, A, E>>⟧.callable right_with.now }
    ensures trying { KeepsStateOfTwo I.Input E.State.Inspector K.Fn trying.now → ⟦<K as TryFolder<'src, I, A, O, E>>⟧.callable trying.now }
{}
