//! Expressions as Lisp writes them, names and numbers in lists within one another, by a function that calls itself.
ghost use Rattle.std.specs.Prelude.{◌≡◌, ◌<◌, false, None};
ghost use Rattle.std.specs.Str.{chars};
ghost use Rattle.chumsky.specs.Accepted.{ExactlyUnless};
ghost use Rattle.chumsky_exact.specs.ReadBack.{GivesBack};
ghost use Rattle.chumsky_exact.specs.Deep.{IsDeep};
ghost use Rattle.exact.specs.Expressions.{Form, form_of, IsExpression, IsSound, HoldsExpression, levels, written};

use chumsky::combinator::{Collect, DelimitedBy, Map, Mapper, Or, SeparatedBy, run_part};
use chumsky::extra::EmptyText;
use chumsky::input::TextRef;
use chumsky::prelude::*;
use chumsky::primitive::Just;
use chumsky::recursive::{Body, Recursion, RunsUnder, recursive_as};
use chumsky::text::{AsciiIdent, Int, Word};
use chumsky::{IsParser, PResult, Stop};
use chumsky_parser::parser::Parser;
use std::alloc::Global;

/// A name, a number, or a list of expressions.
#[derive(Debug, Drop, PartialEq)]
pub enum Expression<'src> {
    Name(&'src str),
    /// A decimal number, as its text.
    Number(&'src str),
    List(Vec<Expression<'src>>),
}

/// Makes an expression of a name.
#[derive(Clone, Copy, Drop)]
pub struct ToName;

impl<'src> Mapper<&'src str, Expression<'src>> for ToName {
    ghost use Rattle.exact.specs.declared.expressions.Expression.{Name};

    ghost gives = { λ _ name expression. expression ≡ Name name };

    fn apply(&self, name: &'src str) -> Expression<'src> {
        Expression::Name(name)
    }
}

/// Makes an expression of a number.
#[derive(Clone, Copy, Drop)]
pub struct ToNumber;

impl<'src> Mapper<&'src str, Expression<'src>> for ToNumber {
    ghost use Rattle.exact.specs.declared.expressions.Expression.{Number};

    ghost gives = { λ _ number expression. expression ≡ Number number };

    fn apply(&self, number: &'src str) -> Expression<'src> {
        Expression::Number(number)
    }
}

/// Makes an expression of a list of expressions.
#[derive(Clone, Copy, Drop)]
pub struct ToList;

impl<'src> Mapper<Vec<Expression<'src>>, Expression<'src>> for ToList {
    ghost use Rattle.exact.specs.declared.expressions.Expression.{List};

    ghost gives = { λ _ expressions expression. expression ≡ List expressions };

    fn apply(&self, expressions: Vec<Expression<'src>>) -> Expression<'src> {
        Expression::List(expressions)
    }
}

/// The parser of a name.
pub type NameParser<'src> = Map<
    Word<AsciiIdent, &'src str, EmptyText>,
    &'src str,
    ToName,
    Expression<'src>,
>;

/// The parser of a number.
pub type NumberParser<'src> = Map<
    Word<Int, &'src str, EmptyText>,
    &'src str,
    ToNumber,
    Expression<'src>,
>;

/// The parser of a name or a number.
pub type AtomParser<'src> = Or<NameParser<'src>, NumberParser<'src>>;

/// The parser of a list of what `P` takes.
pub type ListParser<'src, P> = Map<
    DelimitedBy<
        Collect<
            SeparatedBy<
                P,
                Just<char, &'src str, EmptyText>,
                Expression<'src>,
                char,
                &'src str,
                EmptyText,
            >,
            Expression<'src>,
            Vec<Expression<'src>>,
        >,
        Just<char, &'src str, EmptyText>,
        Just<char, &'src str, EmptyText>,
        char,
        char,
    >,
    Vec<Expression<'src>>,
    ToList,
    Expression<'src>,
>;

/// The parser of an atom, or of a list of what `P` takes.
pub type ExpressionOf<'src, P> = Or<AtomParser<'src>, ListParser<'src, P>>;

/// What the body of `any_expression` is.
#[derive(Drop)]
pub struct OfExpression;

impl<'src, P: Parser<'src, &'src str, Expression<'src>, EmptyText>> Body<
    'src,
    &'src str,
    Expression<'src>,
    EmptyText,
    P,
> for OfExpression {
    ghost use Rattle.std.specs.Prelude.{false, None};
    ghost use Rattle.chumsky_descent.specs.Body.{told};

    ghost body = { λ call. told ⟦<ExpressionOf<'src, P> as Parser<'src, &'src str, Expression<'src>, EmptyText>>⟧ (record {
      first = record {
        first = record { parser = record { kind = record {}; of = record {} }; mapper = record {}; of = record {} };
        second = record { parser = record { kind = record { radix = 10 }; of = record {} }; mapper = record {}; of = record {} };
      };
      second = record {
        parser = record {
          parser = record {
            parser = record { parser = call; separator = record { seq = 32; of = record {} }; at_least = 0; at_most = None; allow_leading = false; allow_trailing = false; of = record {} };
            of = record {};
          };
          opening = record { seq = 40; of = record {} };
          closing = record { seq = 41; of = record {} };
          of = record {};
        };
        mapper = record {};
        of = record {};
      };
    }) };
}

impl<'src> Recursion<'src, &'src str, Expression<'src>, EmptyText> for OfExpression {
    ghost use Rattle.std.specs.Prelude.{codes};
    ghost use Rattle.chumsky_descent.specs.Exactly.{exactly};
    ghost use Rattle.chumsky_descent.specs.Lawful.{just-lawful, word-lawful, map-lawful, separated-lawful, between-lawful, or-lawful};
    ghost use Rattle.exact.specs.contracts.expressions.OfExpressionBodyRefStrExpressionEmptyText.TheImpl.{ghosts, no_dict};
    ghost use denote.Builtin.{unit};
    ghost use Rattle.exact.specs.Expressions.{expressions};

    ghost says = { λ errors states. exactly (λ call. (ghosts unit call no_dict).body tt) errors states expressions
        (λ call l h. or-lawful (or-lawful (map-lawful word-lawful) (map-lawful word-lawful)) (map-lawful (between-lawful (just-lawful (codes "(") _ _ _ _ _ _) (separated-lawful h (just-lawful (codes " ") _ _ _ _ _ _)) (just-lawful (codes ")") _ _ _ _ _ _)))) };
}

/// The parser of a name, letters and digits of ASCII and `_`, of which the first is no digit; or of a decimal number, without
/// zeros before it.
pub fn atom<'src>() -> AtomParser<'src>
    ensures { result.second.parser.kind.radix ≡ 10 }
{
    let name = text::ascii::ident().map_by(ToName);
    name.or(text::int(10).map_by(ToNumber))
}

/// The parser of expressions in round brackets, with a space between each two.
pub fn list_of<'src, P: IsParser<&'src str, Expression<'src>, EmptyText>>(
    expression: P,
) -> ListParser<'src, P>
    ensures expression { result.parser.parser.parser.parser ≡ expression }
    ensures space { result.parser.parser.parser.separator.seq ≡ 32 }
    ensures at_least { result.parser.parser.parser.at_least ≡ 0 }
    ensures at_most { result.parser.parser.parser.at_most ≡ None }
    ensures leading { result.parser.parser.parser.allow_leading ≡ false }
    ensures trailing { result.parser.parser.parser.allow_trailing ≡ false }
    ensures opening { result.parser.opening.seq ≡ 40 }
    ensures closing { result.parser.closing.seq ≡ 41 }
{
    let expressions = expression
        .separated_by(just(' '))
        .collect::<Vec<Expression<'src>>>();
    expressions
        .delimited_by(just('('), just(')'))
        .map_by(ToList)
}

/// An atom, or a list of expressions.
fn any_expression<'src>(
    inp: &mut TextRef<'src, '_, EmptyText>,
    wanted: bool,
    depth: usize,
) -> PResult<Option<Expression<'src>>>
    ensures { ⟦<OfExpression as RunsUnder<'src, &'src str, Expression<'src>, EmptyText>>⟧.runs depth wanted inp.old inp.new result }
{
    let inner = recursive_as::<OfExpression, _, _, _, _>(any_expression, depth);
    let atom_or_list = atom().or(list_of(inner));
    run_part(&atom_or_list, wanted, inp)
}

/// Reads a name, a decimal number, or a list of what it reads, as `(add 1 (double x) ())`: in round brackets, with one space between each
/// two. Of any other text there is no output. A run is refused for memory; or with `TooDeep`, only where `limit` lists or more stand
/// within one another, or of a text of `limit` characters or more that is no expression. What an expression is written as gives it
/// back, where fewer lists than `limit` stand within one another.
pub fn parse_expression<'src>(
    alloc: Global,
    text: &'src str,
    limit: usize,
) -> Result<ParseResult<Expression<'src>, EmptyErr>, Stop>
    ensures exact { ExactlyUnless HoldsExpression (chars text.now) (IsDeep IsExpression levels limit (chars text.now)) result }
    ensures read_back { (f : Form) → IsSound f → chars text.now ≡ written f → levels f < limit → GivesBack form_of f result }
{
    recursive_as::<OfExpression, _, _, _, EmptyText>(any_expression, limit).parse(alloc, text)
}
