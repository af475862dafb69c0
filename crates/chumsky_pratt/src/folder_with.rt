//! What makes one value of an infix operator and its operands, and is shown the run.
ghost use Rattle.std.specs.Prelude.{◌≡◌, ◌≤◌};
ghost use Rattle.chumsky_folds.specs.Running.{InTokens, NotPast, OnlyState, AnswersSince};
ghost use Rattle.chumsky_pratt.specs.CalledWithThree.{KeepsStateOfThree, AnswersThree};

use chumsky_input::extra::ParserExtra;
use chumsky_input::input::Input;
use chumsky_input::input_ref::InputRef;
use chumsky_input::map_extra::MapExtra;
use std::alloc::Global;
use std::marker::PhantomData;

/// What makes one value of an infix operator and its operands, and is shown the run: what `infix_with` calls. Each closure
/// `Fn(O, W, O, &mut MapExtra<I, E>) -> O` is one. What `prefix_with` calls is a `RightFolderWith` of the operator and its
/// operand, and what `postfix_with` calls a `FolderWith` of the operand and the operator.
pub trait InfixFolderWith<'src, I: Input<'src>, O, W, E: ParserExtra<I>> {
    ghost use Rattle.chumsky_parser.specs.Showing.{Makes};

    /// That it may be called, and keeps the reference to the state.
    ghost callable: { Self → Type 0 };

    /// What it may give for the operand before, the operator and the operand after it, and what it is shown, and the state
    /// that it may leave.
    ghost gives: { Self → Makes I I.Token I.Span E.State E.State.Mark E.Context (O × (W × O)) O };

    /// One value of them, shown what the run took since a cursor of its input.
    fn fold_with(
        &self,
        before: O,
        operator: W,
        after: O,
        since: &I::Cursor,
        inp: &mut InputRef<'src, '_, I, E>,
    ) -> O
        requires callable { callable self.now }
        requires tokens { InTokens I.Input E.Error.Error E.State.Inspector since.now inp.old }
        requires order { NotPast I.Input E.Error.Error E.State.Inspector since.now inp.old }
        ensures gives { AnswersSince I.Input E.Error.Error E.State.Inspector (gives self.now E.State.Inspector (before, (operator, after))) since.now inp.old inp.new result }
        ensures moves { OnlyState I.Input E.Error.Error E.State.Inspector inp.old inp.new }
        ensures lent { inp.new.state.ghost_name ≡ inp.old.state.ghost_name };
}

impl<'src, I, O, W, E, F> InfixFolderWith<'src, I, O, W, E> for F
where
    I: Input<'src>,
    E: ParserExtra<I>,
    F: Fn(O, W, O, &mut MapExtra<'src, '_, I, E>) -> O,
{
    ghost callable = { λ f. KeepsStateOfThree I.Input E.State.Inspector F.Fn f };

    ghost gives = { λ f states. AnswersThree I.Input states F.Fn f };

    #[inline(always)]
    fn fold_with(
        &self,
        before: O,
        operator: W,
        after: O,
        since: &I::Cursor,
        inp: &mut InputRef<'src, '_, I, E>,
    ) -> O {
        call_with_three(self, before, operator, after, since, inp)
    }
}

/// Calls a closure with three values and an extra over what the run took since a cursor of its input.
#[inline(always)]
fn call_with_three<'src, I, E, A, B, C, R, F>(
    closure: &F,
    first: A,
    second: B,
    third: C,
    since: &I::Cursor,
    inp: &mut InputRef<'src, '_, I, E>,
) -> R
where
    I: Input<'src>,
    E: ParserExtra<I>,
    F: Fn(A, B, C, &mut MapExtra<'src, '_, I, E>) -> R,
    requires callable { KeepsStateOfThree I.Input E.State.Inspector F.Fn closure.now }
    requires tokens { InTokens I.Input E.Error.Error E.State.Inspector since.now inp.old }
    requires order { NotPast I.Input E.Error.Error E.State.Inspector since.now inp.old }
    ensures answers { AnswersSince I.Input E.Error.Error E.State.Inspector (AnswersThree I.Input E.State.Inspector F.Fn closure.now (first, (second, third))) since.now inp.old inp.new result }
    ensures moves { OnlyState I.Input E.Error.Error E.State.Inspector inp.old inp.new }
    ensures lent { inp.new.state.ghost_name ≡ inp.old.state.ghost_name }
{
    let (to, context, alloc) = (inp.cursor(), inp.ctx(), inp.alloc());
    show_three::<I, E, A, B, C, R, F>(
        closure,
        first,
        second,
        third,
        since,
        &to,
        &mut *inp.state,
        context,
        alloc,
    )
}

/// Calls a closure with three values and an extra that shows what lies between two cursors.
#[inline(always)]
fn show_three<'src, I, E, A, B, C, R, F>(
    closure: &F,
    first: A,
    second: B,
    third: C,
    from: &I::Cursor,
    to: &I::Cursor,
    state: &mut E::State,
    context: &E::Context,
    alloc: Global,
) -> R
where
    I: Input<'src>,
    E: ParserExtra<I>,
    F: Fn(A, B, C, &mut MapExtra<'src, '_, I, E>) -> R,
    requires callable { KeepsStateOfThree I.Input E.State.Inspector F.Fn closure.now }
    requires tokens { I.cursor_tokens from.now ≡ I.cursor_tokens to.now }
    requires order { I.place from.now ≤ I.place to.now }
    ensures { AnswersThree I.Input E.State.Inspector F.Fn closure.now (first, (second, third))
        (record { tokens = I.cursor_tokens to.now; from = I.place from.now; to = I.place to.now; context = context.now; state = E.State.seen state.old })
        result (E.State.seen state.new) }
{
    let mut extra: MapExtra<'src, '_, I, E> = MapExtra {
        from: *from,
        to: *to,
        state,
        context,
        alloc,
        source: PhantomData,
    };
    let answer = closure(first, second, third, &mut extra);
    let MapExtra {
        from: _,
        to: _,
        state: lent,
        context: _,
        alloc: _,
        source: _,
    } = extra;
    let _last = &*lent;
    answer
}
