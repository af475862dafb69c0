//! Tokens as a program.
ghost use Rattle.std.specs.Prelude.{◌≡◌, [], IfOk, IsTrue, is_some};

use crate::bodies::{
    Arguments, Expressions, run_arguments, run_atom, run_call, run_expression, run_item, run_items,
};
use crate::leaves::{Extra, Run, Tokens, Tree};
use crate::syntax::Expression;
use crate::token::Token;
use chumsky::prelude::*;
use chumsky::recursive::{RunsUnder, Unsaid};
use chumsky::{PResult, Stop};
use std::alloc::Global;

/// The arguments of a call.
#[cycle(program)]
fn arguments<'src>(
    inp: &mut Run<'src, '_>,
    wanted: bool,
    depth: usize,
) -> PResult<Option<Arguments>>
    ensures { ⟦<Unsaid as RunsUnder<'src, Tokens<'src>, Arguments, Extra>>⟧.runs depth wanted inp.old inp.new result }
{
    run_arguments(&recursive(expression, depth), wanted, inp)
}

/// An operand, an expression in brackets, or a block.
#[cycle(program)]
fn atom<'src>(inp: &mut Run<'src, '_>, wanted: bool, depth: usize) -> PResult<Option<Tree>>
    ensures { ⟦<Unsaid as RunsUnder<'src, Tokens<'src>, Tree, Extra>>⟧.runs depth wanted inp.old inp.new result }
{
    run_atom(
        &recursive(expression, depth),
        &recursive(items, depth),
        wanted,
        inp,
    )
}

/// An atom, or what is called, with its arguments.
#[cycle(program)]
fn call<'src>(inp: &mut Run<'src, '_>, wanted: bool, depth: usize) -> PResult<Option<Tree>>
    ensures { ⟦<Unsaid as RunsUnder<'src, Tokens<'src>, Tree, Extra>>⟧.runs depth wanted inp.old inp.new result }
{
    run_call(
        &recursive(atom, depth),
        &recursive(arguments, depth),
        wanted,
        inp,
    )
}

/// An expression.
#[cycle(program)]
fn expression<'src>(inp: &mut Run<'src, '_>, wanted: bool, depth: usize) -> PResult<Option<Tree>>
    ensures { ⟦<Unsaid as RunsUnder<'src, Tokens<'src>, Tree, Extra>>⟧.runs depth wanted inp.old inp.new result }
{
    run_expression(&recursive(call, depth), wanted, inp)
}

/// An item of a program or a block.
#[cycle(program)]
fn item<'src>(inp: &mut Run<'src, '_>, wanted: bool, depth: usize) -> PResult<Option<Tree>>
    ensures { ⟦<Unsaid as RunsUnder<'src, Tokens<'src>, Tree, Extra>>⟧.runs depth wanted inp.old inp.new result }
{
    run_item(&recursive(expression, depth), wanted, inp)
}

/// The items of a program or a block.
#[cycle(program)]
fn items<'src>(inp: &mut Run<'src, '_>, wanted: bool, depth: usize) -> PResult<Option<Expressions>>
    ensures { ⟦<Unsaid as RunsUnder<'src, Tokens<'src>, Expressions, Extra>>⟧.runs depth wanted inp.old inp.new result }
{
    run_items(&recursive(item, depth), wanted, inp)
}

/// How many calls may be open at once. One takes some 900 bytes of stack at most, so all of them fit into 256 kB, with the drop of a
/// tree in the innermost of them.
const DEPTH: usize = 200;

/// The items of the program that tokens are. Where more than two hundred calls would be open at once, as in tokens that
/// are nested more than some forty deep, the run is refused with `Stop::TooDeep`.
pub fn program_of(
    alloc: Global,
    tokens: &[Spanned<Token, SimpleSpan>],
    end: SimpleSpan,
) -> Result<ParseResult<Vec<Expression>, Rich<Token>>, Stop>
    ensures { IfOk result (λ parsed. parsed.errors.items ≡ [] → IsTrue (is_some parsed.output)) }
{
    let program = recursive::<_, _, _, Extra>(items, DEPTH).map(|list: Expressions| list.items);
    program.parse(alloc, split_spanned(tokens, end))
}
