//! Numbers in lists within one another, by a function that calls itself.
ghost use Rattle.std.specs.Prelude.{◌≡◌, false, None};
ghost use Rattle.std.specs.Str.{chars};
ghost use Rattle.chumsky.specs.Accepted.{ExactlyUnless};
ghost use Rattle.chumsky_exact.specs.Deep.{IsDeep};
ghost use Rattle.exact.specs.Trees.{IsTree, levels};

use chumsky::combinator::{Collect, DelimitedBy, Map, Mapper, Or, PickBy, SeparatedBy, run_part};
use chumsky::extra::EmptyText;
use chumsky::input::TextRef;
use chumsky::prelude::*;
use chumsky::primitive::Just;
use chumsky::recursive::{Body, Recursion, RunsUnder, recursive_as};
use chumsky::text::{DecimalOf, Int, Word};
use chumsky::{IsParser, PResult, Stop};
use chumsky_parser::parser::Parser;
use std::alloc::Global;

/// A number, or a list of trees.
#[derive(Debug, Drop, PartialEq)]
pub enum Tree {
    Number(u32),
    List(Vec<Tree>),
}

/// Makes a tree of a number.
#[derive(Clone, Copy, Drop)]
pub struct ToNumber;

impl Mapper<u32, Tree> for ToNumber {
    ghost use Rattle.exact.specs.declared.trees.Tree.{Number};

    ghost gives = { λ _ number tree. tree ≡ Number number };

    fn apply(&self, number: u32) -> Tree {
        Tree::Number(number)
    }
}

/// Makes a tree of a list of trees.
#[derive(Clone, Copy, Drop)]
pub struct ToList;

impl Mapper<Vec<Tree>, Tree> for ToList {
    ghost use Rattle.exact.specs.declared.trees.Tree.{List};

    ghost gives = { λ _ trees tree. tree ≡ List trees };

    fn apply(&self, trees: Vec<Tree>) -> Tree {
        Tree::List(trees)
    }
}

/// The parser of a number.
pub type NumberParser<'src> = Map<
    PickBy<Word<Int, &'src str, EmptyText>, &'src str, DecimalOf<u32>, u32>,
    u32,
    ToNumber,
    Tree,
>;

/// The parser of a list of what `P` takes.
pub type ListParser<'src, P> = Map<
    DelimitedBy<
        Collect<
            SeparatedBy<P, Just<char, &'src str, EmptyText>, Tree, char, &'src str, EmptyText>,
            Tree,
            Vec<Tree>,
        >,
        Just<char, &'src str, EmptyText>,
        Just<char, &'src str, EmptyText>,
        char,
        char,
    >,
    Vec<Tree>,
    ToList,
    Tree,
>;

/// The parser of a number, or of a list of what `P` takes.
pub type TreeOf<'src, P> = Or<NumberParser<'src>, ListParser<'src, P>>;

/// What the body of `any_tree` is.
#[derive(Drop)]
pub struct OfTree;

impl<'src, P: Parser<'src, &'src str, Tree, EmptyText>> Body<'src, &'src str, Tree, EmptyText, P>
    for OfTree {
    ghost use Rattle.std.specs.Prelude.{false, None};
    ghost use Rattle.chumsky_descent.specs.Body.{told};

    ghost body = { λ call. told ⟦<TreeOf<'src, P> as Parser<'src, &'src str, Tree, EmptyText>>⟧ (record {
      first = record { parser = record { picked = record { parser = record { kind = record { radix = 10 }; of = record {} }; picker = record { of = record {} }; of = record {} } }; mapper = record {}; of = record {} };
      second = record {
        parser = record {
          parser = record {
            parser = record { parser = call; separator = record { seq = 44; of = record {} }; at_least = 0; at_most = None; allow_leading = false; allow_trailing = false; of = record {} };
            of = record {};
          };
          opening = record { seq = 91; of = record {} };
          closing = record { seq = 93; of = record {} };
          of = record {};
        };
        mapper = record {};
        of = record {};
      };
    }) };
}

impl<'src> Recursion<'src, &'src str, Tree, EmptyText> for OfTree {
    ghost use Rattle.std.specs.Prelude.{codes};
    ghost use Rattle.chumsky_descent.specs.Exactly.{exactly};
    ghost use Rattle.chumsky_descent.specs.Lawful.{just-lawful, decimal-lawful, map-lawful, separated-lawful, between-lawful, or-lawful};
    ghost use Rattle.exact.specs.contracts.trees.OfTreeBodyRefStrTreeEmptyText.TheImpl.{ghosts, no_dict};
    ghost use denote.Builtin.{unit};
    ghost use Rattle.exact.specs.Trees.{trees};

    ghost says = { λ errors states. exactly (λ call. (ghosts unit call no_dict).body tt) errors states trees
        (λ call l h. or-lawful (map-lawful (decimal-lawful 32)) (map-lawful (between-lawful (just-lawful (codes "[") _ _ _ _ _ _) (separated-lawful h (just-lawful (codes ",") _ _ _ _ _ _)) (just-lawful (codes "]") _ _ _ _ _ _)))) };
}

/// The parser of a number that a `u32` holds.
pub fn number<'src>() -> NumberParser<'src>
    ensures { result.parser.picked.parser.kind.radix ≡ 10 }
{
    text::int(10)
        .pick_by(text::decimal::<u32>())
        .map_by(ToNumber)
}

/// The parser of trees in brackets, with a comma between each two.
pub fn list_of<'src, P: IsParser<&'src str, Tree, EmptyText>>(tree: P) -> ListParser<'src, P>
    ensures tree { result.parser.parser.parser.parser ≡ tree }
    ensures comma { result.parser.parser.parser.separator.seq ≡ 44 }
    ensures at_least { result.parser.parser.parser.at_least ≡ 0 }
    ensures at_most { result.parser.parser.parser.at_most ≡ None }
    ensures leading { result.parser.parser.parser.allow_leading ≡ false }
    ensures trailing { result.parser.parser.parser.allow_trailing ≡ false }
    ensures opening { result.parser.opening.seq ≡ 91 }
    ensures closing { result.parser.closing.seq ≡ 93 }
{
    let trees = tree.separated_by(just(',')).collect::<Vec<Tree>>();
    trees.delimited_by(just('['), just(']')).map_by(ToList)
}

/// A number, or a list of trees.
fn any_tree<'src>(
    inp: &mut TextRef<'src, '_, EmptyText>,
    wanted: bool,
    depth: usize,
) -> PResult<Option<Tree>>
    ensures { ⟦<OfTree as RunsUnder<'src, &'src str, Tree, EmptyText>>⟧.runs depth wanted inp.old inp.new result }
{
    let inner = recursive_as::<OfTree, _, _, _, _>(any_tree, depth);
    let number_or_list = number().or(list_of(inner));
    run_part(&number_or_list, wanted, inp)
}

/// Reads a number below 2^32, or a list of what it reads, as `[1,[2,30],[]]`, without blanks; of any other text there is no
/// output. A run is refused for memory; or with `TooDeep`, only where `limit` lists or more stand within one another, or of a text
/// of `limit` characters or more that is no tree.
pub fn parse_tree(
    alloc: Global,
    text: &str,
    limit: usize,
) -> Result<ParseResult<Tree, EmptyErr>, Stop>
    ensures { ExactlyUnless IsTree (chars text.now) (IsDeep IsTree levels limit (chars text.now)) result }
{
    recursive_as::<OfTree, _, _, _, EmptyText>(any_tree, limit).parse(alloc, text)
}
