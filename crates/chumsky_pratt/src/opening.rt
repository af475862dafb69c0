//! What comes next, opened: its values, and that they lead to the goal, in the words in which each step asks it.
ghost use Rattle.std.specs.Prelude.{◌≡◌, ◌≤◌, ◌∷◌, [], ◌++◌, reverse, IfOk, Some};
ghost use Rattle.chumsky_input.specs.Held.{held, marks};
ghost use Rattle.chumsky_folds.specs.Running.{InTokens, NotPast};
ghost use Rattle.chumsky_pratt.specs.Climbing.{MayGo};
ghost use Rattle.chumsky_pratt.specs.Kinds.{kind_of, last_waiting};

use crate::kinds::{
    answered, beginning, chaining, heading, holding, pop_infix, pop_prefix, turning,
};
use crate::machine::{
    Frame, Heading, Holding, InfixFrame, Kind, PrefixFrame, Stack, Todo, Turning, Waiting,
};
use crate::row::Operators;
use crate::way::Way;
use chumsky_input::extra::ParserExtra;
use chumsky_input::input::Input;
use chumsky_input::input_ref::InputRef;
use chumsky_input::inspector::Inspector;
use chumsky_input::stop::PResult;
use chumsky_parser::parser::Parser;

/// The least power of the expression that begins.
#[inline(always)]
pub(crate) fn open_begin<'src, I, O, E, P, R, A, B, D>(
    way: &D,
    atom: &P,
    operators: &R,
    stack: &Stack<A, B, I::Cursor, <E::State as Inspector<I>>::Mark>,
    todo: Todo<A, I::Cursor, <E::State as Inspector<I>>::Mark>,
    inp: &InputRef<'src, '_, I, E>,
) -> u32
where
    I: Input<'src>,
    E: ParserExtra<I>,
    P: Parser<'src, I, O, E>,
    R: Operators<'src, I, O, E>,
    A: Drop,
    B: Drop,
    D: Way<'src, I, O, E, P, R, A, B>,
    requires kind { kind_of todo ≡ Kind.Begin }
    requires may { MayGo I.Input E.Error.Error E.State.Inspector (P.meaning atom.now) (R.syntax operators.now) D.wanted D.shown D.found (reverse stack.now.items) inp.now todo }
    ensures is { todo ≡ Todo.Begin result }
    ensures may { MayGo I.Input E.Error.Error E.State.Inspector (P.meaning atom.now) (R.syntax operators.now) D.wanted D.shown D.found (reverse stack.now.items) inp.now (Todo.Begin result) }
{
    beginning(todo)
}

/// The expression whose prefix operators are tried.
#[inline(always)]
pub(crate) fn open_prefixes<'src, I, O, E, P, R, A, B, D>(
    way: &D,
    atom: &P,
    operators: &R,
    stack: &Stack<A, B, I::Cursor, <E::State as Inspector<I>>::Mark>,
    todo: Todo<A, I::Cursor, <E::State as Inspector<I>>::Mark>,
    inp: &InputRef<'src, '_, I, E>,
) -> Heading<I::Cursor, <E::State as Inspector<I>>::Mark>
where
    I: Input<'src>,
    E: ParserExtra<I>,
    P: Parser<'src, I, O, E>,
    R: Operators<'src, I, O, E>,
    A: Drop,
    B: Drop,
    D: Way<'src, I, O, E, P, R, A, B>,
    requires kind { kind_of todo ≡ Kind.Prefixes }
    requires may { MayGo I.Input E.Error.Error E.State.Inspector (P.meaning atom.now) (R.syntax operators.now) D.wanted D.shown D.found (reverse stack.now.items) inp.now todo }
    ensures is { todo ≡ Todo.Prefixes result }
    ensures may { MayGo I.Input E.Error.Error E.State.Inspector (P.meaning atom.now) (R.syntax operators.now) D.wanted D.shown D.found (reverse stack.now.items) inp.now (Todo.Prefixes result) }
{
    heading(todo)
}

/// The expression with its value.
#[inline(always)]
pub(crate) fn open_value<'src, I, O, E, P, R, A, B, D>(
    way: &D,
    atom: &P,
    operators: &R,
    stack: &Stack<A, B, I::Cursor, <E::State as Inspector<I>>::Mark>,
    todo: Todo<A, I::Cursor, <E::State as Inspector<I>>::Mark>,
    inp: &InputRef<'src, '_, I, E>,
) -> Holding<A, I::Cursor>
where
    I: Input<'src>,
    E: ParserExtra<I>,
    P: Parser<'src, I, O, E>,
    R: Operators<'src, I, O, E>,
    A: Drop,
    B: Drop,
    D: Way<'src, I, O, E, P, R, A, B>,
    requires kind { kind_of todo ≡ Kind.Value }
    requires may { MayGo I.Input E.Error.Error E.State.Inspector (P.meaning atom.now) (R.syntax operators.now) D.wanted D.shown D.found (reverse stack.now.items) inp.now todo }
    ensures is { todo ≡ Todo.Value result }
    ensures may { MayGo I.Input E.Error.Error E.State.Inspector (P.meaning atom.now) (R.syntax operators.now) D.wanted D.shown D.found (reverse stack.now.items) inp.now (Todo.Value result) }
{
    holding(todo)
}

/// The expression whose postfix operators are tried.
#[inline(always)]
pub(crate) fn open_postfixes<'src, I, O, E, P, R, A, B, D>(
    way: &D,
    atom: &P,
    operators: &R,
    stack: &Stack<A, B, I::Cursor, <E::State as Inspector<I>>::Mark>,
    todo: Todo<A, I::Cursor, <E::State as Inspector<I>>::Mark>,
    inp: &InputRef<'src, '_, I, E>,
) -> Turning<A, I::Cursor, <E::State as Inspector<I>>::Mark>
where
    I: Input<'src>,
    E: ParserExtra<I>,
    P: Parser<'src, I, O, E>,
    R: Operators<'src, I, O, E>,
    A: Drop,
    B: Drop,
    D: Way<'src, I, O, E, P, R, A, B>,
    requires kind { kind_of todo ≡ Kind.Postfixes }
    requires may { MayGo I.Input E.Error.Error E.State.Inspector (P.meaning atom.now) (R.syntax operators.now) D.wanted D.shown D.found (reverse stack.now.items) inp.now todo }
    ensures is { todo ≡ Todo.Postfixes result }
    ensures may { MayGo I.Input E.Error.Error E.State.Inspector (P.meaning atom.now) (R.syntax operators.now) D.wanted D.shown D.found (reverse stack.now.items) inp.now (Todo.Postfixes result) }
    ensures since { InTokens I.Input E.Error.Error E.State.Inspector result.level.start inp.now }
    ensures order { I.place result.level.start ≤ I.place result.before.cursor }
{
    turning(todo)
}

/// The expression whose infix operators are tried.
#[inline(always)]
pub(crate) fn open_infixes<'src, I, O, E, P, R, A, B, D>(
    way: &D,
    atom: &P,
    operators: &R,
    stack: &Stack<A, B, I::Cursor, <E::State as Inspector<I>>::Mark>,
    todo: Todo<A, I::Cursor, <E::State as Inspector<I>>::Mark>,
    inp: &InputRef<'src, '_, I, E>,
) -> Turning<A, I::Cursor, <E::State as Inspector<I>>::Mark>
where
    I: Input<'src>,
    E: ParserExtra<I>,
    P: Parser<'src, I, O, E>,
    R: Operators<'src, I, O, E>,
    A: Drop,
    B: Drop,
    D: Way<'src, I, O, E, P, R, A, B>,
    requires kind { kind_of todo ≡ Kind.Infixes }
    requires may { MayGo I.Input E.Error.Error E.State.Inspector (P.meaning atom.now) (R.syntax operators.now) D.wanted D.shown D.found (reverse stack.now.items) inp.now todo }
    ensures is { todo ≡ Todo.Infixes result }
    ensures may { MayGo I.Input E.Error.Error E.State.Inspector (P.meaning atom.now) (R.syntax operators.now) D.wanted D.shown D.found (reverse stack.now.items) inp.now (Todo.Infixes result) }
{
    chaining(todo)
}

/// The answer of the expression that was read last.
#[inline(always)]
pub(crate) fn open_answer<'src, I, O, E, P, R, A, B, D>(
    way: &D,
    atom: &P,
    operators: &R,
    stack: &Stack<A, B, I::Cursor, <E::State as Inspector<I>>::Mark>,
    todo: Todo<A, I::Cursor, <E::State as Inspector<I>>::Mark>,
    inp: &InputRef<'src, '_, I, E>,
) -> PResult<A>
where
    I: Input<'src>,
    E: ParserExtra<I>,
    P: Parser<'src, I, O, E>,
    R: Operators<'src, I, O, E>,
    A: Drop,
    B: Drop,
    D: Way<'src, I, O, E, P, R, A, B>,
    requires kind { kind_of todo ≡ Kind.Answer }
    requires may { MayGo I.Input E.Error.Error E.State.Inspector (P.meaning atom.now) (R.syntax operators.now) D.wanted D.shown D.found (reverse stack.now.items) inp.now todo }
    ensures is { todo ≡ Todo.Answer result }
    ensures may { MayGo I.Input E.Error.Error E.State.Inspector (P.meaning atom.now) (R.syntax operators.now) D.wanted D.shown D.found (reverse stack.now.items) inp.now (Todo.Answer result) }
{
    answered(todo)
}

/// The last frame, which waits for the operand of a prefix operator, and can be gone back from.
#[inline(always)]
pub(crate) fn take_prefix<'src, I, O, E, P, R, A, B, D>(
    way: &D,
    atom: &P,
    operators: &R,
    stack: &mut Stack<A, B, I::Cursor, <E::State as Inspector<I>>::Mark>,
    answer: &PResult<A>,
    inp: &InputRef<'src, '_, I, E>,
) -> PrefixFrame<B, I::Cursor, <E::State as Inspector<I>>::Mark>
where
    I: Input<'src>,
    E: ParserExtra<I>,
    P: Parser<'src, I, O, E>,
    R: Operators<'src, I, O, E>,
    A: Drop,
    B: Drop,
    D: Way<'src, I, O, E, P, R, A, B>,
    requires kind { last_waiting stack.old.items ≡ Some Waiting.Prefix }
    requires may { MayGo I.Input E.Error.Error E.State.Inspector (P.meaning atom.now) (R.syntax operators.now) D.wanted D.shown D.found (reverse stack.old.items) inp.now (Todo.Answer answer.now) }
    ensures is { stack.old.items ≡ stack.new.items ++ Frame.Before result ∷ [] }
    ensures tokens { (marks I.Input E.State.Inspector result.before).tokens ≡ (held I.Input E.Error.Error E.State.Inspector inp.now).tokens }
    ensures since { InTokens I.Input E.Error.Error E.State.Inspector result.level.start inp.now }
    ensures order { IfOk answer.now (λ _. NotPast I.Input E.Error.Error E.State.Inspector result.level.start inp.now) }
{
    pop_prefix(stack)
}

/// The last frame, which waits for the right operand of an infix operator, and can be gone back from.
#[inline(always)]
pub(crate) fn take_infix<'src, I, O, E, P, R, A, B, D>(
    way: &D,
    atom: &P,
    operators: &R,
    stack: &mut Stack<A, B, I::Cursor, <E::State as Inspector<I>>::Mark>,
    answer: &PResult<A>,
    inp: &InputRef<'src, '_, I, E>,
) -> InfixFrame<A, B, I::Cursor, <E::State as Inspector<I>>::Mark>
where
    I: Input<'src>,
    E: ParserExtra<I>,
    P: Parser<'src, I, O, E>,
    R: Operators<'src, I, O, E>,
    A: Drop,
    B: Drop,
    D: Way<'src, I, O, E, P, R, A, B>,
    requires kind { last_waiting stack.old.items ≡ Some Waiting.Infix }
    requires may { MayGo I.Input E.Error.Error E.State.Inspector (P.meaning atom.now) (R.syntax operators.now) D.wanted D.shown D.found (reverse stack.old.items) inp.now (Todo.Answer answer.now) }
    ensures is { stack.old.items ≡ stack.new.items ++ Frame.Between result ∷ [] }
    ensures tokens { (marks I.Input E.State.Inspector result.before).tokens ≡ (held I.Input E.Error.Error E.State.Inspector inp.now).tokens }
    ensures since { InTokens I.Input E.Error.Error E.State.Inspector result.level.start inp.now }
    ensures order { I.place result.level.start ≤ I.place result.before.cursor }
{
    pop_infix(stack)
}
