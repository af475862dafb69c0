//! Of what kind a frame or what comes next is, and its values once that is known. The steps match on the kind alone, so that
//! no values are taken out of an enum before a call.
ghost use Rattle.std.specs.Prelude.{◌≡◌, ◌∷◌, [], ◌++◌, Some};
ghost use Rattle.chumsky_pratt.specs.Kinds.{kind_of, last_waiting, waiting_of};

use crate::machine::{
    Frame, Heading, Holding, InfixFrame, Kind, PrefixFrame, Stack, Todo, Turning, Waiting,
};
use chumsky_input::stop::PResult;

/// Of what kind a frame is.
#[inline(always)]
pub(crate) fn waiting<A, B, C, M>(frame: &Frame<A, B, C, M>) -> Waiting
    ensures { result ≡ waiting_of frame.now }
{
    match frame {
        Frame::Before(_) => Waiting::Prefix,
        Frame::Between(_) => Waiting::Infix,
    }
}

/// What waits for the operand of a prefix operator.
#[inline(always)]
pub(crate) fn prefix_frame<A: Drop, B: Drop, C: Drop, M: Drop>(
    frame: Frame<A, B, C, M>,
) -> PrefixFrame<B, C, M>
    requires kind { waiting_of frame ≡ Waiting.Prefix }
    ensures { frame ≡ Frame.Before result }
{
    match frame {
        Frame::Before(p) => p,
        Frame::Between(_) => unreachable!(),
    }
}

/// What waits for the right operand of an infix operator.
#[inline(always)]
pub(crate) fn infix_frame<A: Drop, B: Drop, C: Drop, M: Drop>(
    frame: Frame<A, B, C, M>,
) -> InfixFrame<A, B, C, M>
    requires kind { waiting_of frame ≡ Waiting.Infix }
    ensures { frame ≡ Frame.Between result }
{
    match frame {
        Frame::Between(p) => p,
        Frame::Before(_) => unreachable!(),
    }
}

/// What kind of thing comes next.
#[inline(always)]
pub(crate) fn kind<A, C, M>(todo: &Todo<A, C, M>) -> Kind
    ensures { result ≡ kind_of todo.now }
{
    match todo {
        Todo::Begin(_) => Kind::Begin,
        Todo::Prefixes(_) => Kind::Prefixes,
        Todo::Value(_) => Kind::Value,
        Todo::Postfixes(_) => Kind::Postfixes,
        Todo::Infixes(_) => Kind::Infixes,
        Todo::Answer(_) => Kind::Answer,
    }
}

/// The least power of the expression that begins.
#[inline(always)]
pub(crate) fn beginning<A: Drop, C: Drop, M: Drop>(todo: Todo<A, C, M>) -> u32
    requires kind { kind_of todo ≡ Kind.Begin }
    ensures { todo ≡ Todo.Begin result }
{
    match todo {
        Todo::Begin(p) => p,
        _ => unreachable!(),
    }
}

/// The expression whose prefix operators are tried.
#[inline(always)]
pub(crate) fn heading<A: Drop, C: Drop, M: Drop>(todo: Todo<A, C, M>) -> Heading<C, M>
    requires kind { kind_of todo ≡ Kind.Prefixes }
    ensures { todo ≡ Todo.Prefixes result }
{
    match todo {
        Todo::Prefixes(p) => p,
        _ => unreachable!(),
    }
}

/// The expression with its value.
#[inline(always)]
pub(crate) fn holding<A: Drop, C: Drop, M: Drop>(todo: Todo<A, C, M>) -> Holding<A, C>
    requires kind { kind_of todo ≡ Kind.Value }
    ensures { todo ≡ Todo.Value result }
{
    match todo {
        Todo::Value(p) => p,
        _ => unreachable!(),
    }
}

/// The expression whose postfix operators are tried.
#[inline(always)]
pub(crate) fn turning<A: Drop, C: Drop, M: Drop>(todo: Todo<A, C, M>) -> Turning<A, C, M>
    requires kind { kind_of todo ≡ Kind.Postfixes }
    ensures { todo ≡ Todo.Postfixes result }
{
    match todo {
        Todo::Postfixes(p) => p,
        _ => unreachable!(),
    }
}

/// The expression whose infix operators are tried.
#[inline(always)]
pub(crate) fn chaining<A: Drop, C: Drop, M: Drop>(todo: Todo<A, C, M>) -> Turning<A, C, M>
    requires kind { kind_of todo ≡ Kind.Infixes }
    ensures { todo ≡ Todo.Infixes result }
{
    match todo {
        Todo::Infixes(p) => p,
        _ => unreachable!(),
    }
}

/// The answer.
#[inline(always)]
pub(crate) fn answered<A: Drop, C: Drop, M: Drop>(todo: Todo<A, C, M>) -> PResult<A>
    requires kind { kind_of todo ≡ Kind.Answer }
    ensures { todo ≡ Todo.Answer result }
{
    match todo {
        Todo::Answer(p) => p,
        _ => unreachable!(),
    }
}

/// For which operand the last frame waits.
#[inline(always)]
pub(crate) fn last<A, B, C, M>(stack: &Stack<A, B, C, M>) -> Option<Waiting>
    ensures { result ≡ last_waiting stack.now.items }
{
    match stack.last() {
        Some(frame) => Some(waiting(frame)),
        None => None,
    }
}

/// The last frame, which waits for the operand of a prefix operator.
#[inline(always)]
pub(crate) fn pop_prefix<A: Drop, B: Drop, C: Drop, M: Drop>(
    stack: &mut Stack<A, B, C, M>,
) -> PrefixFrame<B, C, M>
    requires kind { last_waiting stack.old.items ≡ Some Waiting.Prefix }
    ensures { stack.old.items ≡ stack.new.items ++ Frame.Before result ∷ [] }
{
    match stack.pop() {
        Some(frame) => prefix_frame(frame),
        None => unreachable!(),
    }
}

/// The last frame, which waits for the right operand of an infix operator.
#[inline(always)]
pub(crate) fn pop_infix<A: Drop, B: Drop, C: Drop, M: Drop>(
    stack: &mut Stack<A, B, C, M>,
) -> InfixFrame<A, B, C, M>
    requires kind { last_waiting stack.old.items ≡ Some Waiting.Infix }
    ensures { stack.old.items ≡ stack.new.items ++ Frame.Between result ∷ [] }
{
    match stack.pop() {
        Some(frame) => infix_frame(frame),
        None => unreachable!(),
    }
}
