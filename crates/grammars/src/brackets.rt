//! How deep balanced brackets go, by a rule.
ghost use Rattle.std.specs.Prelude.{◌≡◌, ℕ, ◌+◌, ◌-◌, ◌^◌, max, min, unwrap_or, [], IfOk, IfErr, ⊤};
ghost use Rattle.std.specs.Str.{chars};
ghost use Rattle.chumsky_input.specs.declared.stop.Stop.TheVariants as stop;
ghost use Rattle.chumsky.specs.Accepted.{Exactly};
ghost use Rattle.chumsky_grammars.specs.Compiled.{IsNode, IsOneRule};
ghost use Rattle.grammars.specs.Brackets.{IsBalanced, brackets};

use chumsky::Stop;
use chumsky::extra::EmptyText;
use chumsky::prelude::*;
use chumsky::recursive::{BuildError, Leaves, Node, Values};
use chumsky_grammars::exact::exact;
use std::alloc::{AllocError, Global};

/// The leaves, by number.
const OPENING: usize = 0;

const CLOSING: usize = 1;

/// Values are depths.
#[derive(Drop)]
struct Depths;

impl Values<SimpleSpan, EmptyErr> for Depths {
    type Value = usize;

    ghost pair_gives = { λ _ _ p v. v ≡ max p.0 p.1 };

    ghost option_gives = { λ _ o v. v ≡ unwrap_or o 0 };

    ghost map_gives = { λ _ _ v w. w ≡ min (v + 1) (2 ^ 64 - 1) };

    /// The greater of two.
    fn pair(
        &self,
        _alloc: Global,
        _number: usize,
        a: usize,
        b: usize,
    ) -> Result<usize, AllocError> {
        Ok(a.max(b))
    }

    /// Of nothing 0.
    fn option(&self, _alloc: Global, depth: Option<usize>) -> Result<usize, AllocError>
        ensures { IfOk result (λ v. v ≡ unwrap_or depth 0) }
    {
        Ok(depth.unwrap_or(0))
    }

    fn unit(&self, _alloc: Global) -> Result<usize, AllocError> {
        Ok(0)
    }

    /// One more than inside a pair.
    fn map(&self, _alloc: Global, _mapper: usize, inside: usize) -> Result<usize, AllocError> {
        Ok(inside.saturating_add(1))
    }

    fn list(&self, _alloc: Global, _items: Vec<usize>) -> Result<usize, AllocError>
        ensures { IfOk result (λ _. ⊤) }
    {
        Ok(0)
    }

    fn try_map(
        &self,
        _alloc: Global,
        _mapper: usize,
        depth: usize,
        _span: SimpleSpan,
    ) -> Result<Result<usize, EmptyErr>, AllocError> {
        Ok(Ok(depth))
    }
}

/// Nothing, or a pair of brackets and what follows it.
fn body(rules: &mut Rules, all: Recursive) -> Result<Node, BuildError>
    requires empty { rules.old.nodes ≡ [] }
    requires first { all ≡ 0 }
    ensures body { IfOk result (λ n. IsNode 2 brackets rules.new.nodes n) }
    ensures bodies { rules.new.bodies ≡ rules.old.bodies }
{
    let opening = rules.leaf(OPENING)?;
    let inside = rules.rule(all)?;
    let closing = rules.leaf(CLOSING)?;
    let closed = rules.then(inside, closing)?;
    let opened = rules.then(opening, closed)?;
    let pair = rules.map(opened, 0)?;
    let more = rules.then(pair, inside)?;
    rules.or_not(more)
}

/// The one rule.
fn bracket_rules(alloc: Global) -> Result<(Rules, Recursive), Stop>
    ensures rules { IfOk result (λ p. IsOneRule 2 brackets p.0 × (p.1 ≡ 0)) }
    ensures memory { IfErr result (λ why. why ≡ stop.Memory) }
{
    let mut rules = Rules::new(alloc);
    let Ok(all) = rules.declare() else {
        return Err(Stop::Memory);
    };
    let Ok(node) = body(&mut rules, all) else {
        return Err(Stop::Memory);
    };
    match rules.define(all, node) {
        Ok(()) => Ok((rules, all)),
        Err(_) => unreachable!(),
    }
}

/// How deep the brackets of a text go. Of a text that isn't balanced brackets there is no output.
pub fn parse_brackets(alloc: Global, text: &str) -> Result<ParseResult<usize, EmptyErr>, Stop>
    ensures { Exactly IsBalanced (chars text.now) result }
{
    let (rules, all) = bracket_rules(alloc)?;
    let Some(limit) = text.len().checked_add(1) else {
        return Err(Stop::Memory);
    };
    let leaves = [just::<_, _, EmptyText>('(').to(0), just(')').to(0)];
    let actions = Leaves {
        leaves: &leaves,
        values: Depths,
    };
    match close(&rules, all, &actions, limit) {
        Ok(grammar) => exact(grammar).parse(alloc, text),
        Err(_) => unreachable!(),
    }
}
