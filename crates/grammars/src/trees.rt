//! Digits in lists within one another, by rules.
ghost use Rattle.std.specs.Prelude.{◌≡◌, ℕ, [], IfOk, IfErr, ⊤};
ghost use Rattle.std.specs.Str.{chars};
ghost use Rattle.chumsky_input.specs.declared.stop.Stop.TheVariants as stop;
ghost use Rattle.chumsky.specs.Accepted.{Exactly};
ghost use Rattle.chumsky_grammars.specs.Compiled.{IsNode, IsOneRule};
ghost use Rattle.grammars.specs.Trees.{IsTree, tree_expression, kept, HoldsItems};

use chumsky::Stop;
use chumsky::combinator::Mapper;
use chumsky::extra::EmptyText;
use chumsky::prelude::*;
use chumsky::recursive::{BuildError, Leaves, Node, SepCfg, Values};
use chumsky_grammars::exact::exact;
use std::alloc::{AllocError, Global};

/// A digit, or a list of trees.
#[derive(Debug, Drop, PartialEq)]
pub enum Tree {
    Digit(char),
    List(Vec<Tree>),
}

/// The leaves, by number.
const DIGIT: usize = 0;

const OPENING: usize = 1;

const COMMA: usize = 2;

const CLOSING: usize = 3;

/// Any number of items, with a comma between each two.
const PLAIN: SepCfg = SepCfg {
    at_least: 0,
    at_most: None,
    allow_leading: false,
    allow_trailing: false,
};

/// Makes a tree of a character: of brackets and commas too, which no list keeps.
#[derive(Clone, Copy, Drop)]
struct ToDigit;

impl Mapper<char, Tree> for ToDigit {
    ghost use Rattle.grammars.specs.declared.trees.Tree.{Digit};

    ghost gives = { λ _ c tree. tree ≡ Digit c };

    fn apply(&self, c: char) -> Tree {
        Tree::Digit(c)
    }
}

/// Values are trees.
#[derive(Drop)]
struct Trees;

impl Values<SimpleSpan, EmptyErr> for Trees {
    type Value = Tree;

    ghost pair_gives = { λ _ _ p v. v ≡ kept p.0 p.1 };

    ghost list_gives = { λ _ items v. HoldsItems items v };

    /// The first, if it is a list, and else the second.
    fn pair(&self, _alloc: Global, _number: usize, a: Tree, b: Tree) -> Result<Tree, AllocError> {
        match a {
            Tree::Digit(_) => Ok(b),
            Tree::List(trees) => Ok(Tree::List(trees)),
        }
    }

    fn option(&self, _alloc: Global, _tree: Option<Tree>) -> Result<Tree, AllocError>
        ensures { IfOk result (λ _. ⊤) }
    {
        Ok(Tree::Digit('0'))
    }

    fn unit(&self, _alloc: Global) -> Result<Tree, AllocError> {
        Ok(Tree::Digit('0'))
    }

    fn map(&self, _alloc: Global, _mapper: usize, tree: Tree) -> Result<Tree, AllocError> {
        Ok(tree)
    }

    /// The list of them.
    fn list(&self, _alloc: Global, items: Vec<Tree>) -> Result<Tree, AllocError>
        ensures { IfOk result (λ v. HoldsItems items.items v) }
    {
        Ok(Tree::List(items))
    }

    fn try_map(
        &self,
        _alloc: Global,
        _mapper: usize,
        tree: Tree,
        _span: SimpleSpan,
    ) -> Result<Result<Tree, EmptyErr>, AllocError> {
        Ok(Ok(tree))
    }
}

/// A digit, or trees between brackets.
fn body(rules: &mut Rules, tree: Recursive) -> Result<Node, BuildError>
    requires empty { rules.old.nodes ≡ [] }
    requires first { tree ≡ 0 }
    ensures body { IfOk result (λ n. IsNode 4 tree_expression rules.new.nodes n) }
    ensures bodies { rules.new.bodies ≡ rules.old.bodies }
{
    let digit = rules.leaf(DIGIT)?;
    let opening = rules.leaf(OPENING)?;
    let comma = rules.leaf(COMMA)?;
    let closing = rules.leaf(CLOSING)?;
    let item = rules.rule(tree)?;
    let items = rules.separated_by(item, comma, PLAIN)?;
    let closed = rules.then(items, closing)?;
    let list = rules.then(opening, closed)?;
    rules.choice(&[digit, list])
}

/// The one rule.
fn tree_rules(alloc: Global) -> Result<(Rules, Recursive), Stop>
    ensures rules { IfOk result (λ p. IsOneRule 4 tree_expression p.0 × (p.1 ≡ 0)) }
    ensures memory { IfErr result (λ why. why ≡ stop.Memory) }
{
    let mut rules = Rules::new(alloc);
    let Ok(tree) = rules.declare() else {
        return Err(Stop::Memory);
    };
    let Ok(node) = body(&mut rules, tree) else {
        return Err(Stop::Memory);
    };
    match rules.define(tree, node) {
        Ok(()) => Ok((rules, tree)),
        Err(_) => unreachable!(),
    }
}

/// The tree that a text is, as `[1,[2,3],[]]`. Of another text there is no output.
pub fn parse_tree(alloc: Global, text: &str) -> Result<ParseResult<Tree, EmptyErr>, Stop>
    ensures { Exactly IsTree (chars text.now) result }
{
    let (rules, tree) = tree_rules(alloc)?;
    let Some(limit) = text.len().checked_add(1) else {
        return Err(Stop::Memory);
    };
    let leaves = [
        one_of::<_, _, EmptyText>("0123456789").map_by(ToDigit),
        one_of("[").map_by(ToDigit),
        one_of(",").map_by(ToDigit),
        one_of("]").map_by(ToDigit),
    ];
    let actions = Leaves {
        leaves: &leaves,
        values: Trees,
    };
    match close(&rules, tree, &actions, limit) {
        Ok(grammar) => exact(grammar).parse(alloc, text),
        Err(_) => unreachable!(),
    }
}
