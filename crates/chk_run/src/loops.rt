//! The grammar `loops`: plus signs and pairs of brackets, one after another, with the same between the brackets.
ghost use Rattle.std.specs.Prelude.{◌≡◌, [], IfErr, IfOk, ⊤};
ghost use Rattle.chk_run.specs.Decided.{LacksRoom};
ghost use Rattle.chk_run.specs.Request.{IsAnswerTo};
ghost use Rattle.chk_run.specs.Rules.{HasLoops, MakesGrammar};

use crate::grammar::{Answer, Command, run_rules};
use crate::show::Refusal;
use chumsky::Stop;
use chumsky::extra::RichText;
use chumsky::prelude::*;
use chumsky::recursive::{BuildError, Leaves, Node, RecursiveError, Values};
use std::alloc::{AllocError, Global};

/// The leaves, by number.
const PLUS: usize = 0;

const OPENING: usize = 1;

const CLOSING: usize = 2;

/// What the rule and the leaves are called where they are shown.
pub(crate) const RULE_NAMES: [&str; 1] = ["loops"];

pub(crate) const LEAF_NAMES: [&str; 3] = ["'+'", "'['", "']'"];

/// Values are numbers of pairs. Where a sum is too large for a `usize`, it is the greatest.
#[derive(Drop)]
struct Pairs;

impl Values<SimpleSpan, Rich<char>> for Pairs {
    type Value = usize;

    fn pair(
        &self,
        _alloc: Global,
        _number: usize,
        a: usize,
        b: usize,
    ) -> Result<usize, AllocError> {
        Ok(a.saturating_add(b))
    }

    fn list(&self, _alloc: Global, items: Vec<usize>) -> Result<usize, AllocError>
        ensures { IfOk result (λ _. ⊤) }
    {
        let mut sum: usize = 0;
        for item in items.as_slice() {
            sum = sum.saturating_add(*item);
        }
        Ok(sum)
    }

    fn option(&self, _alloc: Global, pairs: Option<usize>) -> Result<usize, AllocError>
        ensures { IfOk result (λ _. ⊤) }
    {
        Ok(pairs.unwrap_or(0))
    }

    fn unit(&self, _alloc: Global) -> Result<usize, AllocError> {
        Ok(0)
    }

    fn map(&self, _alloc: Global, _mapper: usize, inside: usize) -> Result<usize, AllocError> {
        Ok(inside.saturating_add(1))
    }

    fn try_map(
        &self,
        _alloc: Global,
        _mapper: usize,
        pairs: usize,
        _span: SimpleSpan,
    ) -> Result<Result<usize, Rich<char>>, AllocError> {
        Ok(Ok(pairs))
    }
}

/// Plus signs and pairs, one after another.
fn body(rules: &mut Rules, loops: Recursive) -> Result<Node, BuildError>
    requires empty { rules.old.nodes ≡ [] }
    requires first { loops ≡ 0 }
    ensures nodes { IfOk result (HasLoops rules.new.nodes) }
    ensures bodies { rules.new.bodies ≡ rules.old.bodies }
{
    let plus = rules.leaf(PLUS)?;
    let opening = rules.leaf(OPENING)?;
    let inside = rules.rule(loops)?;
    let closing = rules.leaf(CLOSING)?;
    let closed = rules.then(inside, closing)?;
    let opened = rules.then(opening, closed)?;
    let pair = rules.map(opened, 0)?;
    let item = rules.choice(&[plus, pair])?;
    let all = rules.repeated(item, 0, None)?;
    Ok(all)
}

/// The one rule.
pub(crate) fn loops(rules: &mut Rules) -> Result<Recursive, RecursiveError>
    requires nodes { rules.old.nodes ≡ [] }
    requires bodies { rules.old.bodies ≡ [] }
    ensures { IfOk result (λ start. MakesGrammar rules.new start 3) }
{
    let loops = rules.declare()?;
    let all = body(rules, loops)?;
    rules.define(loops, all)?;
    Ok(loops)
}

/// How many pairs of brackets the text has.
pub fn run_loops(alloc: Global, command: Command, text: &str) -> Result<Answer<usize>, Refusal>
    ensures answered { IfOk result (λ answer. IsAnswerTo command answer) }
    ensures refused { IfErr result LacksRoom }
{
    let mut rules = Rules::new(alloc);
    let Ok(start) = loops(&mut rules) else {
        return Err(Refusal::Run(Stop::Memory));
    };
    let leaves = [
        just::<_, _, RichText>('+').to(0),
        just('[').to(0),
        just(']').to(0),
    ];
    let actions = Leaves {
        leaves: &leaves,
        values: Pairs,
    };
    run_rules(&rules, start, &actions, alloc, command, text)
}
