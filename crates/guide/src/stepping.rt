//! A run of a grammar, taken step by step.
ghost use Rattle.std.specs.Prelude.{◌≡◌, true, ◌+◌, ◌-◌, ◌*◌, ◌<◌, ◌≤◌, length};
ghost use Rattle.chumsky_input.specs.Run.{Runs};
ghost use Rattle.chumsky_recursive.specs.Means.{acts_of, part_means};
ghost use Rattle.chumsky_rules.specs.Closed.{IsClosed};

use chumsky::PResult;
use chumsky::extra::ParserExtra;
use chumsky::input::{Input, InputRef};
use chumsky::prelude::*;
use chumsky::recursive::{Actions, Node, Stack, Todo, step};

/// Runs a node under a limit on open rules, and tells beside its answer how many nodes waited at most.
pub fn run_watched<'src, I: Input<'src>, E: ParserExtra<I>, A: Actions<'src, I, E>>(
    actions: &A,
    rules: &Rules,
    node: Node,
    limit: usize,
    inp: &mut InputRef<'src, '_, I, E>,
) -> (PResult<Option<A::Value>>, usize)
    requires closed { IsClosed rules.now (A.leaf_count actions.now) }
    requires ready { A.ready actions.now }
    requires node { node < length rules.now.nodes }
    requires limit { 0 < limit }
    ensures ran { Runs I.Input E.Error.Error E.State.Inspector (part_means I.Input E.Error.Error E.State.Inspector (acts_of A.Actions actions.now I.Input E.Error.Error E.State.Inspector) rules.now (limit - 1) node) true inp.old inp.new result.0 }
    ensures few { result.1 ≤ 1 + limit * length rules.now.nodes }
    ensures lent { inp.new.state.ghost_name ≡ inp.old.state.ghost_name }
{
    let mut stack = Stack::new(inp.alloc());
    let mut todo = Todo::Begin(node, limit - 1, true);
    let mut deepest = 0;
    'steps: loop {
        match step(actions, rules, &mut stack, todo, inp) {
            Ok(next) => todo = next,
            Err(answer) => return (answer, deepest),
        }
        deepest = deepest.max(stack.len());
    }
}
