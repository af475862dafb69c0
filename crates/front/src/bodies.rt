//! What the functions of the grammar run. Each is handed the calls that stand in it, so that in the functions that call each other
//! no builder stands.
ghost use Rattle.std.specs.Prelude.{⊤};

use crate::leaves::{
    Between, DEEPEST, Extra, ItemEnd, Measured, Name, Operand, Run, Sign, Tokens, Tree, WrongItem,
    wrong_at,
};
use crate::syntax::Expression;
use crate::token::Token;
use chumsky::PResult;
use chumsky::combinator::{part_of, run_part};
use chumsky::container::Container;
use chumsky::pratt::{infix, left, prefix};
use chumsky::prelude::*;
use chumsky::recursive::{RunsUnder, Unsaid};
use std::alloc::{AllocError, Global};

/// Expressions, one after another, and how deep the deepest of them is.
#[derive(Drop)]
pub struct Expressions {
    pub items: Vec<Expression>,
    pub depth: usize,
}

impl Container<Tree> for Expressions {
    ghost holds = { λ _ _. ⊤ };

    ghost takes_no_memory = { ⊥ };

    fn new(alloc: Global) -> Expressions {
        Expressions {
            items: Vec::new(alloc),
            depth: 0,
        }
    }

    fn push(&mut self, tree: Tree) -> Result<(), AllocError> {
        let tree = tree?;
        self.depth = self.depth.max(tree.depth);
        self.items.push(tree.expression)?;
        Ok(())
    }
}

/// Arguments, and the span of their brackets.
#[derive(Drop)]
pub struct Arguments {
    list: Expressions,
    span: SimpleSpan,
}

/// How deep an expression is whose deepest part is so deep, where it may be.
fn depth_over(part: usize) -> Option<usize> {
    if part < DEEPEST { Some(part + 1) } else { None }
}

/// What stands in the place of an expression that would be too deep.
fn too_deep(span: SimpleSpan) -> Tree {
    Ok(Measured {
        expression: Expression::Wrong(span),
        depth: DEEPEST + 1,
    })
}

/// What a minus makes of its operand.
fn negative(alloc: Global, minus: SimpleSpan, operand: Tree) -> Tree {
    let operand = operand?;
    let span = SimpleSpan {
        start: minus.start,
        end: operand.expression.span().end,
    };
    let Some(depth) = depth_over(operand.depth) else {
        return too_deep(span);
    };
    let operand = Box::new(alloc, operand.expression)?;
    Ok(Measured {
        expression: Expression::Negative(operand, span),
        depth,
    })
}

/// What a sign makes of the operands on its sides.
fn binary(alloc: Global, left: Tree, sign: char, right: Tree) -> Tree {
    let left = left?;
    let right = right?;
    let span = SimpleSpan {
        start: left.expression.span().start,
        end: right.expression.span().end,
    };
    let Some(depth) = depth_over(left.depth.max(right.depth)) else {
        return too_deep(span);
    };
    let left = Box::new(alloc, left.expression)?;
    let right = Box::new(alloc, right.expression)?;
    Ok(Measured {
        expression: Expression::Binary(sign, left, right, span),
        depth,
    })
}

/// What arguments make of the callee before them.
fn called(alloc: Global, callee: Tree, arguments: Arguments) -> Tree {
    let callee = callee?;
    let span = SimpleSpan {
        start: callee.expression.span().start,
        end: arguments.span.end,
    };
    let Some(depth) = depth_over(callee.depth.max(arguments.list.depth)) else {
        return too_deep(span);
    };
    let callee = Box::new(alloc, callee.expression)?;
    Ok(Measured {
        expression: Expression::Call(callee, arguments.list.items, span),
        depth,
    })
}

/// A block of items.
fn block_of(list: Expressions, span: SimpleSpan) -> Tree {
    let Some(depth) = depth_over(list.depth) else {
        return too_deep(span);
    };
    Ok(Measured {
        expression: Expression::Block(list.items, span),
        depth,
    })
}

/// A name bound to a value, as an item with this span.
fn bound(alloc: Global, name: SimpleSpan, value: Tree, span: SimpleSpan) -> Tree {
    let value = value?;
    let Some(depth) = depth_over(value.depth) else {
        return too_deep(span);
    };
    let value = Box::new(alloc, value.expression)?;
    Ok(Measured {
        expression: Expression::Let(name, value, span),
        depth,
    })
}

/// Whether an expression would be too deep.
fn is_too_deep(tree: &Tree) -> bool {
    match tree {
        Ok(tree) => tree.depth > DEEPEST,
        Err(_) => false,
    }
}

/// Expressions in brackets, with a `,` between them and perhaps one at the end.
pub fn run_arguments<
    'src,
    P: IsParser<Tokens<'src>, Tree, Extra> + Parser<'src, Tokens<'src>, Tree, Extra>,
>(expression: &P, wanted: bool, inp: &mut Run<'src, '_>) -> PResult<Option<Arguments>>
    requires { P.ready expression.now }
    ensures { ⟦<Unsaid as RunsUnder<'src, Tokens<'src>, Arguments, Extra>>⟧.runs 0 wanted inp.old inp.new result }
{
    let list = expression
        .separated_by(part_of(Sign::Mark(',')))
        .allow_trailing()
        .collect::<Expressions>()
        .delimited_by(part_of(Sign::Arguments), part_of(Sign::Mark(')')))
        .map_with(|list, extra| Arguments {
            list,
            span: extra.span(),
        });
    run_part(&list, wanted, inp)
}

/// An operand, an expression in brackets, or a block of items.
pub fn run_atom<
    'src,
    P: IsParser<Tokens<'src>, Tree, Extra> + Parser<'src, Tokens<'src>, Tree, Extra>,
    Q: IsParser<Tokens<'src>, Expressions, Extra> + Parser<'src, Tokens<'src>, Expressions, Extra>,
>(expression: &P, items: &Q, wanted: bool, inp: &mut Run<'src, '_>) -> PResult<Option<Tree>>
    requires expression { P.ready expression.now }
    requires items { Q.ready items.now }
    ensures { ⟦<Unsaid as RunsUnder<'src, Tokens<'src>, Tree, Extra>>⟧.runs 0 wanted inp.old inp.new result }
{
    let bracketed = expression.delimited_by(part_of(Sign::Opening('(')), part_of(Sign::Mark(')')));
    let block = items
        .delimited_by(part_of(Sign::Opening('{')), part_of(Sign::Mark('}')))
        .map_with(|list: Expressions, extra| block_of(list, extra.span()));
    let atom = choice((part_of(Operand), bracketed, block));
    run_part(&atom, wanted, inp)
}

/// An atom, and any number of calls of it.
pub fn run_call<
    'src,
    P: IsParser<Tokens<'src>, Tree, Extra> + Parser<'src, Tokens<'src>, Tree, Extra>,
    Q: IsParser<Tokens<'src>, Arguments, Extra> + Parser<'src, Tokens<'src>, Arguments, Extra>,
>(atom: &P, arguments: &Q, wanted: bool, inp: &mut Run<'src, '_>) -> PResult<Option<Tree>>
    requires atom { P.ready atom.now }
    requires arguments { Q.ready arguments.now }
    ensures { ⟦<Unsaid as RunsUnder<'src, Tokens<'src>, Tree, Extra>>⟧.runs 0 wanted inp.old inp.new result }
{
    let alloc = inp.alloc();
    let call = atom.foldl(
        arguments.repeated(),
        |callee: Tree, arguments: Arguments| called(alloc, callee, arguments),
    );
    run_part(&call, wanted, inp)
}

/// Calls, with signs between and before them.
pub fn run_expression<
    'src,
    P: IsParser<Tokens<'src>, Tree, Extra> + Parser<'src, Tokens<'src>, Tree, Extra>,
>(call: &P, wanted: bool, inp: &mut Run<'src, '_>) -> PResult<Option<Tree>>
    requires { P.ready call.now }
    ensures { ⟦<Unsaid as RunsUnder<'src, Tokens<'src>, Tree, Extra>>⟧.runs 0 wanted inp.old inp.new result }
{
    let alloc = inp.alloc();
    let expression = call.pratt((
        prefix(
            3,
            part_of(Sign::Opening('-')),
            |minus: SimpleSpan, operand: Tree| { negative(alloc, minus, operand) },
        ),
        infix(
            left(2),
            part_of(Between('*', '/')),
            |left: Tree, sign: char, right: Tree| { binary(alloc, left, sign, right) },
        ),
        infix(
            left(1),
            part_of(Between('+', '-')),
            |left: Tree, sign: char, right: Tree| { binary(alloc, left, sign, right) },
        ),
    ));
    run_part(&expression, wanted, inp)
}

/// A binding, as `let a = 1`, or an expression, up to where an item ends.
pub fn run_item<
    'src,
    P: IsParser<Tokens<'src>, Tree, Extra> + Parser<'src, Tokens<'src>, Tree, Extra>,
>(expression: &P, wanted: bool, inp: &mut Run<'src, '_>) -> PResult<Option<Tree>>
    requires { P.ready expression.now }
    ensures { ⟦<Unsaid as RunsUnder<'src, Tokens<'src>, Tree, Extra>>⟧.runs 0 wanted inp.old inp.new result }
{
    let alloc = inp.alloc();
    let binding = just(Token::Let)
        .ignore_then(part_of(Name))
        .then_ignore(part_of(Sign::Mark('=')))
        .then(expression)
        .map_with(|(name, value): (SimpleSpan, Tree), extra| bound(
            alloc,
            name,
            value,
            extra.span(),
        ));
    let item = binding.or(expression).then_ignore(part_of(ItemEnd));
    run_part(&item, wanted, inp)
}

/// Items with a `;` between them, and perhaps one at the end. Where one is wrong or would be too deep, its error is emitted, and
/// what follows the next `;` is read.
pub fn run_items<
    'src,
    P: IsParser<Tokens<'src>, Tree, Extra> + Parser<'src, Tokens<'src>, Tree, Extra>,
>(item: &P, wanted: bool, inp: &mut Run<'src, '_>) -> PResult<Option<Expressions>>
    requires { P.ready item.now }
    ensures { ⟦<Unsaid as RunsUnder<'src, Tokens<'src>, Expressions, Extra>>⟧.runs 0 wanted inp.old inp.new result }
{
    let items = item
        .validate(|item: Tree, extra, emitter| {
            if is_too_deep(&item) {
                emitter.emit_message(extra.alloc(), extra.span(), "this item nests too deep");
                return wrong_at(extra.span());
            }
            item
        })
        .recover_with(via_parser(part_of(WrongItem)))
        .separated_by(part_of(Sign::Mark(';')))
        .allow_trailing()
        .collect::<Expressions>();
    run_part(&items, wanted, inp)
}
