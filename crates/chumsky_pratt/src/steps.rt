//! The steps of reading an expression.
ghost use Rattle.std.specs.Prelude.{◌≡◌, ◌<◌, ◌≤◌, [], ◌∷◌, length, reverse, IfOk, IfErr, Some};
ghost use Rattle.chumsky_input.specs.Held.{held, marks};
ghost use Rattle.chumsky_folds.specs.Running.{InTokens, NotPast};
ghost use Rattle.chumsky_pratt.specs.Climbing.{MayGo, GoesOn, WaitsFor};
ghost use Rattle.chumsky_pratt.specs.Kinds.{answer_of};
ghost use Rattle.chumsky_pratt.specs.Operators.{bound_by};
ghost use Rattle.chumsky_pratt.specs.Showing.{TriesShown};
ghost use Rattle.chumsky_pratt.specs.Weight.{total, weights};

use crate::fixity::Fixity;
use crate::kinds::{kind, last};
use crate::machine::{
    Frame, Heading, Holding, InfixFrame, Kind, Open, PrefixFrame, Stack, Todo, Tried, Turning,
    Waiting,
};
use crate::opening::{
    open_answer, open_begin, open_infixes, open_postfixes, open_prefixes, open_value, take_infix,
    take_prefix,
};
use crate::operands::Operands;
use crate::row::Operators;
use crate::way::Way;
use chumsky_input::extra::ParserExtra;
use chumsky_input::input::Input;
use chumsky_input::input_ref::{Checkpoint, InputRef};
use chumsky_input::inspector::Inspector;
use chumsky_input::stop::{Fault, PResult, Stop};
use chumsky_parser::parser::Parser;

/// An operator is tried, and where it is not there, it is gone back from.
#[inline(always)]
fn attempt<'src, I, O, E, P, R, A, B, D>(
    way: &D,
    operators: &R,
    index: usize,
    before: &Checkpoint<I::Cursor, <E::State as Inspector<I>>::Mark>,
    inp: &mut InputRef<'src, '_, I, E>,
) -> Tried<B>
where
    I: Input<'src>,
    E: ParserExtra<I>,
    P: Parser<'src, I, O, E>,
    R: Operators<'src, I, O, E>,
    B: Drop,
    D: Way<'src, I, O, E, P, R, A, B>,
    requires operators { R.ready operators.now }
    requires there { index < (R.syntax operators.now).number }
    requires tokens { (marks I.Input E.State.Inspector before.now).tokens ≡ (held I.Input E.Error.Error E.State.Inspector inp.old).tokens }
    ensures tried { TriesShown I.Input E.Error.Error E.State.Inspector ((R.syntax operators.now).reads index) D.wanted D.found before.now inp.old inp.new result }
    ensures tokens { (held I.Input E.Error.Error E.State.Inspector inp.new).tokens ≡ (held I.Input E.Error.Error E.State.Inspector inp.old).tokens }
    ensures lent { inp.new.state.ghost_name ≡ inp.old.state.ghost_name }
{
    match way.operator(operators, index, inp) {
        Ok(found) => Tried::Read(found),
        Err(Fault::Stop(stop)) => Tried::Refused(stop),
        Err(Fault::Fail) => match inp.rewind(before) {
            Ok(()) => Tried::Absent,
            Err(_) => Tried::Refused(Stop::Memory),
        },
    }
}

/// An expression begins.
#[inline(always)]
fn begin<'src, I, O, E, P, R, A, B, D>(
    way: &D,
    atom: &P,
    operators: &R,
    stack: &mut Stack<A, B, I::Cursor, <E::State as Inspector<I>>::Mark>,
    least: u32,
    inp: &mut InputRef<'src, '_, I, E>,
) -> Todo<A, I::Cursor, <E::State as Inspector<I>>::Mark>
where
    I: Input<'src>,
    E: ParserExtra<I>,
    P: Parser<'src, I, O, E>,
    R: Operators<'src, I, O, E>,
    A: Drop,
    B: Drop,
    D: Way<'src, I, O, E, P, R, A, B>,
    requires atom { P.ready atom.now }
    requires operators { R.ready operators.now }
    requires may { MayGo I.Input E.Error.Error E.State.Inspector (P.meaning atom.now) (R.syntax operators.now) D.wanted D.shown D.found (reverse stack.old.items) inp.old (Todo.Begin least) }
    ensures goes { GoesOn I.Input E.Error.Error E.State.Inspector (P.meaning atom.now) (R.syntax operators.now) D.wanted D.shown D.found (reverse stack.old.items) inp.old (Todo.Begin least) (reverse stack.new.items) inp.new result }
    ensures lighter { let weight = total (R.syntax operators.now).number (length (I.cursor_tokens inp.old.cursor).list) I.Input in weight stack.new.items inp.new.cursor result < weight stack.old.items inp.old.cursor (Todo.Begin least) }
    ensures lent { inp.new.state.ghost_name ≡ inp.old.state.ghost_name }
{
    let start = inp.cursor();
    match inp.save() {
        Ok(before) => Todo::Prefixes(Heading {
            level: Open { least, start },
            before,
            next: 0,
        }),
        Err(_) => Todo::Answer(Err(Fault::Stop(Stop::Memory))),
    }
}

/// Prefix operators are tried from an index on; past the last one, an atom is read.
#[inline(always)]
fn try_prefixes<'src, I, O, E, P, R, A, B, D>(
    way: &D,
    atom: &P,
    operators: &R,
    stack: &mut Stack<A, B, I::Cursor, <E::State as Inspector<I>>::Mark>,
    mut head: Heading<I::Cursor, <E::State as Inspector<I>>::Mark>,
    inp: &mut InputRef<'src, '_, I, E>,
) -> Todo<A, I::Cursor, <E::State as Inspector<I>>::Mark>
where
    I: Input<'src>,
    E: ParserExtra<I>,
    P: Parser<'src, I, O, E>,
    R: Operators<'src, I, O, E>,
    A: Drop,
    B: Drop,
    D: Way<'src, I, O, E, P, R, A, B>,
    requires atom { P.ready atom.now }
    requires operators { R.ready operators.now }
    requires may { MayGo I.Input E.Error.Error E.State.Inspector (P.meaning atom.now) (R.syntax operators.now) D.wanted D.shown D.found (reverse stack.old.items) inp.old (Todo.Prefixes head) }
    ensures goes { GoesOn I.Input E.Error.Error E.State.Inspector (P.meaning atom.now) (R.syntax operators.now) D.wanted D.shown D.found (reverse stack.old.items) inp.old (Todo.Prefixes head) (reverse stack.new.items) inp.new result }
    ensures lighter { let weight = total (R.syntax operators.now).number (length (I.cursor_tokens inp.old.cursor).list) I.Input in weight stack.new.items inp.new.cursor result < weight stack.old.items inp.old.cursor (Todo.Prefixes head) }
    ensures lent { inp.new.state.ghost_name ≡ inp.old.state.ghost_name }
{
    'tries: loop {
        if head.next == operators.count() {
            return read_atom(way, atom, operators, stack, head, inp);
        }
        match operators.fixity(head.next) {
            Fixity::Prefix(power) => {
                let before = &head.before;
                match attempt::<I, O, E, P, R, A, B, D>(way, operators, head.next, before, inp) {
                    Tried::Read(found) => {
                        if I::place(&inp.cursor()) <= I::place(&head.level.start) {
                            return Todo::Answer(Err(Fault::Stop(Stop::NoProgress)));
                        }
                        let frame = PrefixFrame {
                            level: head.level,
                            found,
                            before: head.before,
                            next: head.next + 1,
                        };
                        return wait(stack, Frame::Before(frame), power);
                    }
                    Tried::Absent => head.next += 1,
                    Tried::Refused(stop) => return Todo::Answer(Err(Fault::Stop(stop))),
                }
            }
            Fixity::Postfix(_) => head.next += 1,
            Fixity::Infix(_, _, _) => head.next += 1,
        }
    }
}

/// An atom is read.
#[inline(always)]
fn read_atom<'src, I, O, E, P, R, A, B, D>(
    way: &D,
    atom: &P,
    operators: &R,
    stack: &mut Stack<A, B, I::Cursor, <E::State as Inspector<I>>::Mark>,
    head: Heading<I::Cursor, <E::State as Inspector<I>>::Mark>,
    inp: &mut InputRef<'src, '_, I, E>,
) -> Todo<A, I::Cursor, <E::State as Inspector<I>>::Mark>
where
    I: Input<'src>,
    E: ParserExtra<I>,
    P: Parser<'src, I, O, E>,
    R: Operators<'src, I, O, E>,
    A: Drop,
    B: Drop,
    D: Way<'src, I, O, E, P, R, A, B>,
    requires atom { P.ready atom.now }
    requires operators { R.ready operators.now }
    requires may { MayGo I.Input E.Error.Error E.State.Inspector (P.meaning atom.now) (R.syntax operators.now) D.wanted D.shown D.found (reverse stack.old.items) inp.old (Todo.Prefixes head) }
    requires last { head.next ≡ (R.syntax operators.now).number }
    ensures goes { GoesOn I.Input E.Error.Error E.State.Inspector (P.meaning atom.now) (R.syntax operators.now) D.wanted D.shown D.found (reverse stack.old.items) inp.old (Todo.Prefixes head) (reverse stack.new.items) inp.new result }
    ensures lighter { let weight = total (R.syntax operators.now).number (length (I.cursor_tokens inp.old.cursor).list) I.Input in weight stack.new.items inp.new.cursor result < weight stack.old.items inp.old.cursor (Todo.Prefixes head) }
    ensures lent { inp.new.state.ghost_name ≡ inp.old.state.ghost_name }
{
    match way.atom(atom, inp) {
        Ok(value) => Todo::Value(Holding {
            level: head.level,
            value,
            below: 131_072,
        }),
        Err(fault) => Todo::Answer(Err(fault)),
    }
}

/// A frame more, and then an operand of this power begins; or there is no memory for it.
#[inline(always)]
fn wait<A: Drop, B: Drop, C: Drop, M: Drop>(
    stack: &mut Stack<A, B, C, M>,
    frame: Frame<A, B, C, M>,
    power: u32,
) -> Todo<A, C, M>
    ensures { WaitsFor power frame stack.old.items stack.new.items result }
{
    match stack.push(frame) {
        Ok(()) => Todo::Begin(power),
        Err(_) => Todo::Answer(Err(Fault::Stop(Stop::Memory))),
    }
}

/// A value is there: operators after it are tried.
#[inline(always)]
fn after_value<'src, I, O, E, P, R, A, B, D>(
    way: &D,
    atom: &P,
    operators: &R,
    stack: &mut Stack<A, B, I::Cursor, <E::State as Inspector<I>>::Mark>,
    p: Holding<A, I::Cursor>,
    inp: &mut InputRef<'src, '_, I, E>,
) -> Todo<A, I::Cursor, <E::State as Inspector<I>>::Mark>
where
    I: Input<'src>,
    E: ParserExtra<I>,
    P: Parser<'src, I, O, E>,
    R: Operators<'src, I, O, E>,
    A: Drop,
    B: Drop,
    D: Way<'src, I, O, E, P, R, A, B>,
    requires atom { P.ready atom.now }
    requires operators { R.ready operators.now }
    requires may { MayGo I.Input E.Error.Error E.State.Inspector (P.meaning atom.now) (R.syntax operators.now) D.wanted D.shown D.found (reverse stack.old.items) inp.old (Todo.Value p) }
    ensures goes { GoesOn I.Input E.Error.Error E.State.Inspector (P.meaning atom.now) (R.syntax operators.now) D.wanted D.shown D.found (reverse stack.old.items) inp.old (Todo.Value p) (reverse stack.new.items) inp.new result }
    ensures lighter { let weight = total (R.syntax operators.now).number (length (I.cursor_tokens inp.old.cursor).list) I.Input in weight stack.new.items inp.new.cursor result < weight stack.old.items inp.old.cursor (Todo.Value p) }
    ensures lent { inp.new.state.ghost_name ≡ inp.old.state.ghost_name }
{
    let Holding {
        level,
        value,
        below,
    } = p;
    match inp.save() {
        Ok(before) => Todo::Postfixes(Turning {
            level,
            value,
            below,
            before,
            next: 0,
        }),
        Err(_) => Todo::Answer(Err(Fault::Stop(Stop::Memory))),
    }
}

/// Postfix operators are tried from an index on; past the last one, infix operators.
#[inline(always)]
fn try_postfixes<'src, I, O, E, P, R, A, B, D>(
    way: &D,
    atom: &P,
    operators: &R,
    stack: &mut Stack<A, B, I::Cursor, <E::State as Inspector<I>>::Mark>,
    mut turn: Turning<A, I::Cursor, <E::State as Inspector<I>>::Mark>,
    inp: &mut InputRef<'src, '_, I, E>,
) -> Todo<A, I::Cursor, <E::State as Inspector<I>>::Mark>
where
    I: Input<'src>,
    E: ParserExtra<I>,
    P: Parser<'src, I, O, E>,
    R: Operators<'src, I, O, E>,
    A: Drop,
    B: Drop,
    D: Way<'src, I, O, E, P, R, A, B>,
    requires atom { P.ready atom.now }
    requires operators { R.ready operators.now }
    requires may { MayGo I.Input E.Error.Error E.State.Inspector (P.meaning atom.now) (R.syntax operators.now) D.wanted D.shown D.found (reverse stack.old.items) inp.old (Todo.Postfixes turn) }
    requires since { InTokens I.Input E.Error.Error E.State.Inspector turn.level.start inp.old }
    requires order { I.place turn.level.start ≤ I.place turn.before.cursor }
    ensures goes { GoesOn I.Input E.Error.Error E.State.Inspector (P.meaning atom.now) (R.syntax operators.now) D.wanted D.shown D.found (reverse stack.old.items) inp.old (Todo.Postfixes turn) (reverse stack.new.items) inp.new result }
    ensures lighter { let weight = total (R.syntax operators.now).number (length (I.cursor_tokens inp.old.cursor).list) I.Input in weight stack.new.items inp.new.cursor result < weight stack.old.items inp.old.cursor (Todo.Postfixes turn) }
    ensures lent { inp.new.state.ghost_name ≡ inp.old.state.ghost_name }
{
    'tries: loop {
        if turn.next == operators.count() {
            turn.next = 0;
            return Todo::Infixes(turn);
        }
        match operators.fixity(turn.next) {
            Fixity::Postfix(power) => {
                if power < turn.level.least {
                    turn.next += 1;
                    continue 'tries;
                }
                let before = &turn.before;
                match attempt::<I, O, E, P, R, A, B, D>(way, operators, turn.next, before, inp) {
                    Tried::Read(found) => {
                        if I::place(&inp.cursor()) <= I::place(&turn.before.cursor) {
                            return Todo::Answer(Err(Fault::Stop(Stop::NoProgress)));
                        }
                        let operands = Operands::Before(turn.value);
                        let output = way.fold(operators, found, operands, &turn.level.start, inp);
                        return Todo::Value(Holding {
                            level: turn.level,
                            value: output,
                            below: turn.below,
                        });
                    }
                    Tried::Absent => turn.next += 1,
                    Tried::Refused(stop) => return Todo::Answer(Err(Fault::Stop(stop))),
                }
            }
            Fixity::Prefix(_) => turn.next += 1,
            Fixity::Infix(_, _, _) => turn.next += 1,
        }
    }
}

/// What bounds the powers of infix operators after one.
#[inline(always)]
fn bound_after(chains: bool, below: u32, left: u32) -> u32
    ensures { result ≡ bound_by chains below left }
{
    if chains { below } else { left }
}

/// Infix operators are tried from an index on; past the last one, the expression has its value.
#[inline(always)]
fn try_infixes<'src, I, O, E, P, R, A, B, D>(
    way: &D,
    atom: &P,
    operators: &R,
    stack: &mut Stack<A, B, I::Cursor, <E::State as Inspector<I>>::Mark>,
    mut turn: Turning<A, I::Cursor, <E::State as Inspector<I>>::Mark>,
    inp: &mut InputRef<'src, '_, I, E>,
) -> Todo<A, I::Cursor, <E::State as Inspector<I>>::Mark>
where
    I: Input<'src>,
    E: ParserExtra<I>,
    P: Parser<'src, I, O, E>,
    R: Operators<'src, I, O, E>,
    A: Drop,
    B: Drop,
    D: Way<'src, I, O, E, P, R, A, B>,
    requires atom { P.ready atom.now }
    requires operators { R.ready operators.now }
    requires may { MayGo I.Input E.Error.Error E.State.Inspector (P.meaning atom.now) (R.syntax operators.now) D.wanted D.shown D.found (reverse stack.old.items) inp.old (Todo.Infixes turn) }
    ensures goes { GoesOn I.Input E.Error.Error E.State.Inspector (P.meaning atom.now) (R.syntax operators.now) D.wanted D.shown D.found (reverse stack.old.items) inp.old (Todo.Infixes turn) (reverse stack.new.items) inp.new result }
    ensures lighter { let weight = total (R.syntax operators.now).number (length (I.cursor_tokens inp.old.cursor).list) I.Input in weight stack.new.items inp.new.cursor result < weight stack.old.items inp.old.cursor (Todo.Infixes turn) }
    ensures lent { inp.new.state.ghost_name ≡ inp.old.state.ghost_name }
{
    'tries: loop {
        if turn.next == operators.count() {
            return Todo::Answer(Ok(turn.value));
        }
        match operators.fixity(turn.next) {
            Fixity::Infix(left, right, chains) => {
                if left < turn.level.least {
                    turn.next += 1;
                    continue 'tries;
                }
                if turn.below <= left {
                    turn.next += 1;
                    continue 'tries;
                }
                let before = &turn.before;
                match attempt::<I, O, E, P, R, A, B, D>(way, operators, turn.next, before, inp) {
                    Tried::Read(found) => {
                        let then_below = bound_after(chains, turn.below, left);
                        if I::place(&inp.cursor()) <= I::place(&turn.level.start) {
                            return Todo::Answer(Err(Fault::Stop(Stop::NoProgress)));
                        }
                        let frame = InfixFrame {
                            level: turn.level,
                            found,
                            before: turn.before,
                            next: turn.next + 1,
                            value: turn.value,
                            below: turn.below,
                            then_below,
                        };
                        return wait(stack, Frame::Between(frame), right);
                    }
                    Tried::Absent => turn.next += 1,
                    Tried::Refused(stop) => return Todo::Answer(Err(Fault::Stop(stop))),
                }
            }
            Fixity::Prefix(_) => turn.next += 1,
            Fixity::Postfix(_) => turn.next += 1,
        }
    }
}

/// What waits last hears of its operand; where nothing waits, the answer is that of the whole.
#[inline(always)]
pub(crate) fn hear<'src, I, O, E, P, R, A, B, D>(
    way: &D,
    atom: &P,
    operators: &R,
    stack: &mut Stack<A, B, I::Cursor, <E::State as Inspector<I>>::Mark>,
    answer: PResult<A>,
    inp: &mut InputRef<'src, '_, I, E>,
) -> Result<Todo<A, I::Cursor, <E::State as Inspector<I>>::Mark>, PResult<A>>
where
    I: Input<'src>,
    E: ParserExtra<I>,
    P: Parser<'src, I, O, E>,
    R: Operators<'src, I, O, E>,
    A: Drop,
    B: Drop,
    D: Way<'src, I, O, E, P, R, A, B>,
    requires atom { P.ready atom.now }
    requires operators { R.ready operators.now }
    requires may { MayGo I.Input E.Error.Error E.State.Inspector (P.meaning atom.now) (R.syntax operators.now) D.wanted D.shown D.found (reverse stack.old.items) inp.old (Todo.Answer answer) }
    ensures goes { IfOk result (GoesOn I.Input E.Error.Error E.State.Inspector (P.meaning atom.now) (R.syntax operators.now) D.wanted D.shown D.found (reverse stack.old.items) inp.old (Todo.Answer answer) (reverse stack.new.items) inp.new) }
    ensures lighter { let weight = total (R.syntax operators.now).number (length (I.cursor_tokens inp.old.cursor).list) I.Input in
        IfOk result (λ next. weight stack.new.items inp.new.cursor next < weight stack.old.items inp.old.cursor (Todo.Answer answer)) }
    ensures ends { IfErr result (λ r. (Some answer ≡ Some r) × (stack.old.items ≡ []) × (held I.Input E.Error.Error E.State.Inspector inp.new ≡ held I.Input E.Error.Error E.State.Inspector inp.old)) }
    ensures lent { inp.new.state.ghost_name ≡ inp.old.state.ghost_name }
{
    match last(stack) {
        None => Err(answer),
        Some(Waiting::Prefix) => {
            let p = take_prefix(way, atom, operators, stack, &answer, inp);
            Ok(hear_prefix(way, atom, operators, stack, p, answer, inp))
        }
        Some(Waiting::Infix) => {
            let p = take_infix(way, atom, operators, stack, &answer, inp);
            Ok(hear_infix(way, atom, operators, stack, p, answer, inp))
        }
    }
}

/// An expression hears of the operand of a prefix operator.
#[inline(always)]
fn hear_prefix<'src, I, O, E, P, R, A, B, D>(
    way: &D,
    atom: &P,
    operators: &R,
    stack: &mut Stack<A, B, I::Cursor, <E::State as Inspector<I>>::Mark>,
    p: PrefixFrame<B, I::Cursor, <E::State as Inspector<I>>::Mark>,
    answer: PResult<A>,
    inp: &mut InputRef<'src, '_, I, E>,
) -> Todo<A, I::Cursor, <E::State as Inspector<I>>::Mark>
where
    I: Input<'src>,
    E: ParserExtra<I>,
    P: Parser<'src, I, O, E>,
    R: Operators<'src, I, O, E>,
    A: Drop,
    B: Drop,
    D: Way<'src, I, O, E, P, R, A, B>,
    requires atom { P.ready atom.now }
    requires operators { R.ready operators.now }
    requires tokens { (marks I.Input E.State.Inspector p.before).tokens ≡ (held I.Input E.Error.Error E.State.Inspector inp.old).tokens }
    requires since { InTokens I.Input E.Error.Error E.State.Inspector p.level.start inp.old }
    requires order { IfOk answer (λ _. NotPast I.Input E.Error.Error E.State.Inspector p.level.start inp.old) }
    ensures goes { GoesOn I.Input E.Error.Error E.State.Inspector (P.meaning atom.now) (R.syntax operators.now) D.wanted D.shown D.found
        (Frame.Before p ∷ reverse stack.old.items) inp.old (Todo.Answer answer) (reverse stack.new.items) inp.new result }
    ensures lighter { total (R.syntax operators.now).number (length (I.cursor_tokens inp.old.cursor).list) I.Input stack.new.items inp.new.cursor result
        < weights (R.syntax operators.now).number (length (I.cursor_tokens inp.old.cursor).list) I.Input (Frame.Before p ∷ stack.old.items) }
    ensures lent { inp.new.state.ghost_name ≡ inp.old.state.ghost_name }
{
    let PrefixFrame {
        level,
        found,
        before,
        next,
    } = p;
    match answer {
        Ok(operand) => {
            let output = way.fold(
                operators,
                found,
                Operands::After(operand),
                &level.start,
                inp,
            );
            Todo::Value(Holding {
                level,
                value: output,
                below: 131_072,
            })
        }
        Err(Fault::Stop(stop)) => Todo::Answer(Err(Fault::Stop(stop))),
        Err(Fault::Fail) => match inp.rewind(&before) {
            Ok(()) => Todo::Prefixes(Heading {
                level,
                before,
                next,
            }),
            Err(_) => Todo::Answer(Err(Fault::Stop(Stop::Memory))),
        },
    }
}

/// An expression hears of the right operand of an infix operator.
#[inline(always)]
fn hear_infix<'src, I, O, E, P, R, A, B, D>(
    way: &D,
    atom: &P,
    operators: &R,
    stack: &mut Stack<A, B, I::Cursor, <E::State as Inspector<I>>::Mark>,
    p: InfixFrame<A, B, I::Cursor, <E::State as Inspector<I>>::Mark>,
    answer: PResult<A>,
    inp: &mut InputRef<'src, '_, I, E>,
) -> Todo<A, I::Cursor, <E::State as Inspector<I>>::Mark>
where
    I: Input<'src>,
    E: ParserExtra<I>,
    P: Parser<'src, I, O, E>,
    R: Operators<'src, I, O, E>,
    A: Drop,
    B: Drop,
    D: Way<'src, I, O, E, P, R, A, B>,
    requires atom { P.ready atom.now }
    requires operators { R.ready operators.now }
    requires tokens { (marks I.Input E.State.Inspector p.before).tokens ≡ (held I.Input E.Error.Error E.State.Inspector inp.old).tokens }
    requires since { InTokens I.Input E.Error.Error E.State.Inspector p.level.start inp.old }
    requires order { I.place p.level.start ≤ I.place p.before.cursor }
    ensures goes { GoesOn I.Input E.Error.Error E.State.Inspector (P.meaning atom.now) (R.syntax operators.now) D.wanted D.shown D.found
        (Frame.Between p ∷ reverse stack.old.items) inp.old (Todo.Answer answer) (reverse stack.new.items) inp.new result }
    ensures lighter { total (R.syntax operators.now).number (length (I.cursor_tokens inp.old.cursor).list) I.Input stack.new.items inp.new.cursor result
        < weights (R.syntax operators.now).number (length (I.cursor_tokens inp.old.cursor).list) I.Input (Frame.Between p ∷ stack.old.items) }
    ensures lent { inp.new.state.ghost_name ≡ inp.old.state.ghost_name }
{
    let InfixFrame {
        level,
        found,
        before,
        next,
        value,
        below,
        then_below,
    } = p;
    match answer {
        Ok(operand) => {
            if I::place(&inp.cursor()) <= I::place(&before.cursor) {
                return Todo::Answer(Err(Fault::Stop(Stop::NoProgress)));
            }
            let output = way.fold(
                operators,
                found,
                Operands::Around(value, operand),
                &level.start,
                inp,
            );
            Todo::Value(Holding {
                level,
                value: output,
                below: then_below,
            })
        }
        Err(Fault::Stop(stop)) => Todo::Answer(Err(Fault::Stop(stop))),
        Err(Fault::Fail) => match inp.rewind(&before) {
            Ok(()) => Todo::Infixes(Turning {
                level,
                value,
                below,
                before,
                next,
            }),
            Err(_) => Todo::Answer(Err(Fault::Stop(Stop::Memory))),
        },
    }
}

/// What comes next is done.
#[inline(always)]
pub(crate) fn step<'src, I, O, E, P, R, A, B, D>(
    way: &D,
    atom: &P,
    operators: &R,
    stack: &mut Stack<A, B, I::Cursor, <E::State as Inspector<I>>::Mark>,
    todo: Todo<A, I::Cursor, <E::State as Inspector<I>>::Mark>,
    inp: &mut InputRef<'src, '_, I, E>,
) -> Result<Todo<A, I::Cursor, <E::State as Inspector<I>>::Mark>, PResult<A>>
where
    I: Input<'src>,
    E: ParserExtra<I>,
    P: Parser<'src, I, O, E>,
    R: Operators<'src, I, O, E>,
    A: Drop,
    B: Drop,
    D: Way<'src, I, O, E, P, R, A, B>,
    requires atom { P.ready atom.now }
    requires operators { R.ready operators.now }
    requires may { MayGo I.Input E.Error.Error E.State.Inspector (P.meaning atom.now) (R.syntax operators.now) D.wanted D.shown D.found (reverse stack.old.items) inp.old todo }
    ensures goes { IfOk result (GoesOn I.Input E.Error.Error E.State.Inspector (P.meaning atom.now) (R.syntax operators.now) D.wanted D.shown D.found (reverse stack.old.items) inp.old todo (reverse stack.new.items) inp.new) }
    ensures lighter { let weight = total (R.syntax operators.now).number (length (I.cursor_tokens inp.old.cursor).list) I.Input in
        IfOk result (λ next. weight stack.new.items inp.new.cursor next < weight stack.old.items inp.old.cursor todo) }
    ensures ends { IfErr result (λ r. (answer_of todo ≡ Some r) × (stack.old.items ≡ []) × (held I.Input E.Error.Error E.State.Inspector inp.new ≡ held I.Input E.Error.Error E.State.Inspector inp.old)) }
    ensures lent { inp.new.state.ghost_name ≡ inp.old.state.ghost_name }
{
    match kind(&todo) {
        Kind::Begin => {
            let least = open_begin(way, atom, operators, stack, todo, inp);
            Ok(begin(way, atom, operators, stack, least, inp))
        }
        Kind::Prefixes => {
            let head = open_prefixes(way, atom, operators, stack, todo, inp);
            Ok(try_prefixes(way, atom, operators, stack, head, inp))
        }
        Kind::Value => {
            let p = open_value(way, atom, operators, stack, todo, inp);
            Ok(after_value(way, atom, operators, stack, p, inp))
        }
        Kind::Postfixes => {
            let turn = open_postfixes(way, atom, operators, stack, todo, inp);
            Ok(try_postfixes(way, atom, operators, stack, turn, inp))
        }
        Kind::Infixes => {
            let turn = open_infixes(way, atom, operators, stack, todo, inp);
            Ok(try_infixes(way, atom, operators, stack, turn, inp))
        }
        Kind::Answer => {
            let answer = open_answer(way, atom, operators, stack, todo, inp);
            hear(way, atom, operators, stack, answer, inp)
        }
    }
}
