//! S-expressions, by a function that calls itself, which says exactly which texts it reads.
ghost use Rattle.std.specs.Prelude.{◌≡◌, ◌≤◌, None, Some, length, IfOk, is_some};
ghost use Rattle.std.specs.Str.{chars};
ghost use Rattle.chumsky_input.specs.Run.{Runs};
ghost use Rattle.chumsky_combinator.specs.Part.{Onward};
ghost use Rattle.chumsky.specs.Accepted.{ExactlyUnless};
ghost use Rattle.s_expression.specs.Lisp.{HoldsLisp};

use crate::expression::{AfterQuote, Expression};
use crate::making::{ToList, ToQuoted};
use crate::pieces::{Atom, Fixed, Gap, LineAfter, comment};
use chumsky::combinator::{
    Collect, DelimitedBy, IgnoreThen, Map, Or, OrNot, Repeated, Then, ThenIgnore, run_part,
};
use chumsky::error::Error;
use chumsky::extra::EmptyText;
use chumsky::input::{Input, TextRef};
use chumsky::inspector::Inspector;
use chumsky::prelude::*;
use chumsky::primitive::End;
use chumsky::recursive::{Body, Called, Recursion, RunsUnder, recursive_as};
use chumsky::{PResult, Stop};
use chumsky_parser::parser::Parser;
use std::alloc::Global;
use std::marker::PhantomData;

/// The parser of what `P` takes, again and again, collected.
pub type Items<'src, P, C> = Collect<Repeated<P, Expression, &'src str, EmptyText>, Expression, C>;

/// The parser of a bracket that closes, after a gap.
pub type Closing<'src> = IgnoreThen<Gap, Fixed<'src>, ()>;

/// The parser of a list of what `P` takes.
pub type ListParser<'src, P> = Map<
    DelimitedBy<Items<'src, P, Vec<Expression>>, Fixed<'src>, Closing<'src>, char, char>,
    Vec<Expression>,
    ToList,
    Expression,
>;

/// A list of what a parser takes. Like the two below it is a parser with a name, so that the function that calls itself has few
/// types in it. Each is of any parsers in the place of its parts, and its laws are of theirs.
#[derive(Drop)]
pub struct ListOf<P> {
    pub item: P,
}

impl<'src, P: Parser<'src, &'src str, Expression, EmptyText>> Parser<
    'src,
    &'src str,
    Expression,
    EmptyText,
> for ListOf<P> {
    ghost use Rattle.std.specs.Prelude.{None, ⊤};
    ghost use Rattle.chumsky_parser.specs.IgnoringLaws.{ignoring_first-ends, between-ends};
    ghost use Rattle.chumsky_parser.specs.SequenceLanguage.{ignore_then-accepts, between-accepts};
    ghost use Rattle.chumsky_combinator.specs.MappedLaws.{mapped-ends};
    ghost use Rattle.chumsky_combinator.specs.MappedLanguage.{map-accepts};
    ghost use Rattle.chumsky_items.specs.ConsumersLaws.{collects-ends};
    ghost use Rattle.chumsky_items.specs.ListLanguage.{collects-accepts};
    ghost use Rattle.chumsky_items.specs.RepeatingLaws.{repeats-end};
    ghost use Rattle.chumsky_items.specs.RepeatedLanguage.{repeated-accepts};
    ghost use Rattle.s_expression.specs.LispLawful.{fixed-lawful, gap-lawful};

    ghost ready = { λ p. P.ready p.item };

    ghost meaning = { λ p. ⟦<ListParser<'src, P> as Parser<'src, &'src str, Expression, EmptyText>>⟧.meaning (record {
      parser = record {
        parser = record { parser = record { parser = p.item; at_least = 0; at_most = None; of = record {} }; of = record {} };
        opening = record { seq = 40; of = record {} };
        closing = record { first = record {}; second = record { seq = 41; of = record {} }; of = record {} };
        of = record {};
      };
      mapper = record {};
      of = record {};
    }) };

    ghost steady = { λ _. ⊥ };

    ghost same = { λ _ _ _. ⊤ };

    ghost language = { λ p. ⟦<ListParser<'src, P> as Parser<'src, &'src str, Expression, EmptyText>>⟧.language (record {
      parser = record {
        parser = record { parser = record { parser = p.item; at_least = 0; at_most = None; of = record {} }; of = record {} };
        opening = record { seq = 40; of = record {} };
        closing = record { first = record {}; second = record { seq = 41; of = record {} }; of = record {} };
        of = record {};
      };
      mapper = record {};
      of = record {};
    }) };

    ghost ends_after_start = { λ p. mapped-ends _ _ (between-ends _ _ _ (fixed-lawful 40).ends
        (collects-ends _ _ _ _ (repeats-end _ _ _ _ _ _ _ (P.ends_after_start p.item)))
        (ignoring_first-ends _ _ gap-lawful.ends (fixed-lawful 41).ends)) };

    ghost agrees = { λ _ never. absurd never };

    ghost accepts = { λ p. map-accepts _ _ (between-accepts _ _ _ (fixed-lawful 40).ends
        (collects-ends _ _ _ _ (repeats-end _ _ _ _ _ _ _ (P.ends_after_start p.item)))
        (ignoring_first-ends _ _ gap-lawful.ends (fixed-lawful 41).ends)
        (fixed-lawful 40).accepts
        (collects-accepts _ _ _ _ _ (repeated-accepts _ _ _ _ _ _ _ _ (P.ends_after_start p.item) (P.accepts p.item)))
        (ignore_then-accepts _ _ gap-lawful.ends (fixed-lawful 41).ends gap-lawful.accepts (fixed-lawful 41).accepts)) };

    fn go_emit(&self, inp: &mut TextRef<'src, '_, EmptyText>) -> PResult<Expression> {
        list_of(&self.item).go_emit(inp)
    }

    fn go_check(&self, inp: &mut TextRef<'src, '_, EmptyText>) -> PResult<()> {
        list_of(&self.item).go_check(inp)
    }
}

/// The parser of a quote and of what `P` takes.
pub type QuoteParser<'src, P> = IgnoreThen<
    Fixed<'src>,
    Map<Items<'src, P, AfterQuote>, AfterQuote, ToQuoted, Expression>,
    char,
>;

/// A quote, and an expression that a parser takes.
#[derive(Drop)]
pub struct QuoteOf<P> {
    pub item: P,
}

impl<'src, P: Parser<'src, &'src str, Expression, EmptyText>> Parser<
    'src,
    &'src str,
    Expression,
    EmptyText,
> for QuoteOf<P> {
    ghost use Rattle.std.specs.Prelude.{Some, ⊤};
    ghost use Rattle.chumsky_parser.specs.IgnoringLaws.{ignoring_first-ends};
    ghost use Rattle.chumsky_parser.specs.SequenceLanguage.{ignore_then-accepts};
    ghost use Rattle.chumsky_combinator.specs.MappedLaws.{mapped-ends};
    ghost use Rattle.chumsky_combinator.specs.MappedLanguage.{map-accepts};
    ghost use Rattle.chumsky_items.specs.ConsumersLaws.{collects-ends};
    ghost use Rattle.chumsky_items.specs.ListLanguage.{collects-accepts};
    ghost use Rattle.chumsky_items.specs.RepeatingLaws.{repeats-end};
    ghost use Rattle.chumsky_items.specs.RepeatedLanguage.{repeated-accepts};
    ghost use Rattle.s_expression.specs.LispLawful.{fixed-lawful};

    ghost ready = { λ p. P.ready p.item };

    ghost meaning = { λ p. ⟦<QuoteParser<'src, P> as Parser<'src, &'src str, Expression, EmptyText>>⟧.meaning (record {
      first = record { seq = 39; of = record {} };
      second = record {
        parser = record { parser = record { parser = p.item; at_least = 1; at_most = Some 1; of = record {} }; of = record {} };
        mapper = record {};
        of = record {};
      };
      of = record {};
    }) };

    ghost steady = { λ _. ⊥ };

    ghost same = { λ _ _ _. ⊤ };

    ghost language = { λ p. ⟦<QuoteParser<'src, P> as Parser<'src, &'src str, Expression, EmptyText>>⟧.language (record {
      first = record { seq = 39; of = record {} };
      second = record {
        parser = record { parser = record { parser = p.item; at_least = 1; at_most = Some 1; of = record {} }; of = record {} };
        mapper = record {};
        of = record {};
      };
      of = record {};
    }) };

    ghost ends_after_start = { λ p. ignoring_first-ends _ _ (fixed-lawful 39).ends
        (mapped-ends _ _ (collects-ends _ _ _ _ (repeats-end _ _ _ _ _ _ _ (P.ends_after_start p.item)))) };

    ghost agrees = { λ _ never. absurd never };

    ghost accepts = { λ p. ignore_then-accepts _ _ (fixed-lawful 39).ends
        (mapped-ends _ _ (collects-ends _ _ _ _ (repeats-end _ _ _ _ _ _ _ (P.ends_after_start p.item))))
        (fixed-lawful 39).accepts
        (map-accepts _ _ (collects-accepts _ _ _ _ _ (repeated-accepts _ _ _ _ _ _ _ _ (P.ends_after_start p.item) (P.accepts p.item)))) };

    fn go_emit(&self, inp: &mut TextRef<'src, '_, EmptyText>) -> PResult<Expression> {
        quote_of(&self.item).go_emit(inp)
    }

    fn go_check(&self, inp: &mut TextRef<'src, '_, EmptyText>) -> PResult<()> {
        quote_of(&self.item).go_check(inp)
    }
}

/// The parser of an expression after a gap, where `L` takes lists and `Q` what is quoted.
pub type ExpressionParser<L, Q> = IgnoreThen<Gap, Or<Atom, Or<L, Q>>, ()>;

/// An expression after a gap.
#[derive(Drop)]
pub struct ExpressionOf<L, Q> {
    pub list: L,
    pub quote: Q,
}

impl<
    'src,
    L: Parser<'src, &'src str, Expression, EmptyText>,
    Q: Parser<'src, &'src str, Expression, EmptyText>,
> Parser<'src, &'src str, Expression, EmptyText> for ExpressionOf<L, Q> {
    ghost use Rattle.std.specs.Prelude.{⊤};
    ghost use Rattle.chumsky_parser.specs.ChoiceLaws.{or_else-ends};
    ghost use Rattle.chumsky_parser.specs.ChoiceLanguage.{or-accepts};
    ghost use Rattle.chumsky_parser.specs.IgnoringLaws.{ignoring_first-ends};
    ghost use Rattle.chumsky_parser.specs.SequenceLanguage.{ignore_then-accepts};
    ghost use Rattle.s_expression.specs.LispLawful.{gap-lawful, atom-lawful};

    ghost ready = { λ p. L.ready p.list × Q.ready p.quote };

    ghost meaning = { λ p. ⟦<ExpressionParser<L, Q> as Parser<'src, &'src str, Expression, EmptyText>>⟧.meaning (record {
      first = record {};
      second = record { first = record {}; second = record { first = p.list; second = p.quote } };
      of = record {};
    }) };

    ghost steady = { λ _. ⊥ };

    ghost same = { λ _ _ _. ⊤ };

    ghost language = { λ p. ⟦<ExpressionParser<L, Q> as Parser<'src, &'src str, Expression, EmptyText>>⟧.language (record {
      first = record {};
      second = record { first = record {}; second = record { first = p.list; second = p.quote } };
      of = record {};
    }) };

    ghost ends_after_start = { λ p. ignoring_first-ends _ _ gap-lawful.ends
        (or_else-ends _ _ _ _ _ atom-lawful.ends (or_else-ends _ _ _ _ _ (L.ends_after_start p.list) (Q.ends_after_start p.quote))) };

    ghost agrees = { λ _ never. absurd never };

    ghost accepts = { λ p. ignore_then-accepts _ _ gap-lawful.ends
        (or_else-ends _ _ _ _ _ atom-lawful.ends (or_else-ends _ _ _ _ _ (L.ends_after_start p.list) (Q.ends_after_start p.quote)))
        gap-lawful.accepts
        (or-accepts _ _ (λ q. q.1) _ _ atom-lawful.accepts (or-accepts _ _ (λ q. q.1) _ _ (L.accepts p.list) (Q.accepts p.quote))) };

    fn go_emit(&self, inp: &mut TextRef<'src, '_, EmptyText>) -> PResult<Expression> {
        expression_of(&self.list, &self.quote).go_emit(inp)
    }

    fn go_check(&self, inp: &mut TextRef<'src, '_, EmptyText>) -> PResult<()> {
        expression_of(&self.list, &self.quote).go_check(inp)
    }
}

/// The parser of any expression, where `P` takes the expressions in it.
pub type AnyExpression<P> = ExpressionOf<ListOf<P>, QuoteOf<P>>;

/// The parser of what may stand after the last expression.
pub type Tail<'src> = Then<
    Then<Gap, OrNot<LineAfter<'src>>, (), Option<&'src str>>,
    End<&'src str, EmptyText>,
    ((), Option<&'src str>),
    (),
>;

/// What the body of `any_expression` is.
#[derive(Drop)]
pub struct OfExpression;

impl<'src, P: Parser<'src, &'src str, Expression, EmptyText>> Body<
    'src,
    &'src str,
    Expression,
    EmptyText,
    P,
> for OfExpression {
    ghost use Rattle.chumsky_descent.specs.Body.{told};

    ghost body = { λ call. told ⟦<AnyExpression<P> as Parser<'src, &'src str, Expression, EmptyText>>⟧ (record {
      list = record { item = call };
      quote = record { item = call };
    }) };
}

impl<'src> Recursion<'src, &'src str, Expression, EmptyText> for OfExpression {
    ghost use Rattle.chumsky_descent.specs.Exactly.{exactly};
    ghost use Rattle.chumsky_descent.specs.Lawful.{ignore_then-lawful, between-lawful, or-lawful, map-lawful, repeated-lawful};
    ghost use Rattle.s_expression.specs.contracts.exact_reader.OfExpressionBodyRefStrExpressionEmptyText.TheImpl.{ghosts, no_dict};
    ghost use denote.Builtin.{unit};
    ghost use Rattle.s_expression.specs.Calling.{any_expressions};
    ghost use Rattle.s_expression.specs.LispLawful.{fixed-lawful, gap-lawful, atom-lawful};

    ghost says = { λ errors states. exactly (λ call. (ghosts unit call no_dict).body tt) errors states any_expressions
        (λ call l h. ignore_then-lawful gap-lawful
        (or-lawful atom-lawful
        (or-lawful
        (map-lawful (between-lawful (fixed-lawful 40) (repeated-lawful h) (ignore_then-lawful gap-lawful (fixed-lawful 41))))
        (ignore_then-lawful (fixed-lawful 39) (map-lawful (repeated-lawful h)))))) };
}

/// The parser of a list of what a parser takes.
fn list_of<'src, P>(item: P) -> ListParser<'src, P>
    ensures item { result.parser.parser.parser.parser ≡ item }
    ensures at_least { result.parser.parser.parser.at_least ≡ 0 }
    ensures at_most { result.parser.parser.parser.at_most ≡ None }
    ensures opening { result.parser.opening.seq ≡ 40 }
    ensures closing { result.parser.closing.second.seq ≡ 41 }
{
    let items = Collect {
        parser: Repeated {
            parser: item,
            at_least: 0,
            at_most: None,
            of: PhantomData,
        },
        of: PhantomData,
    };
    let closing = IgnoreThen {
        first: Gap,
        second: just(')'),
        of: PhantomData,
    };
    Map {
        parser: DelimitedBy {
            parser: items,
            opening: just('('),
            closing,
            of: PhantomData,
        },
        mapper: ToList,
        of: PhantomData,
    }
}

/// The parser of a quote, and of what a parser takes.
fn quote_of<'src, P>(item: P) -> QuoteParser<'src, P>
    ensures quote { result.first.seq ≡ 39 }
    ensures item { result.second.parser.parser.parser ≡ item }
    ensures at_least { result.second.parser.parser.at_least ≡ 1 }
    ensures at_most { result.second.parser.parser.at_most ≡ Some 1 }
{
    let one = Collect {
        parser: Repeated {
            parser: item,
            at_least: 1,
            at_most: Some(1),
            of: PhantomData,
        },
        of: PhantomData,
    };
    IgnoreThen {
        first: just('\''),
        second: Map {
            parser: one,
            mapper: ToQuoted,
            of: PhantomData,
        },
        of: PhantomData,
    }
}

/// The parser of an expression after a gap.
fn expression_of<L, Q>(list: L, quote: Q) -> ExpressionParser<L, Q>
    ensures list { result.second.second.first ≡ list }
    ensures quote { result.second.second.second ≡ quote }
{
    IgnoreThen {
        first: Gap,
        second: Or {
            first: Atom,
            second: Or {
                first: list,
                second: quote,
            },
        },
        of: PhantomData,
    }
}

/// The parser of what may stand after the last expression: a gap, and perhaps a comment, before the end.
fn tail<'src>() -> Tail<'src>
    ensures { result.first.second.parser.first.seq ≡ 59 }
{
    Then {
        first: Then {
            first: Gap,
            second: OrNot { parser: comment() },
            of: PhantomData,
        },
        second: end(),
        of: PhantomData,
    }
}

/// Runs the parser of any expression, where `call` takes the expressions in it.
pub fn run_expression<'src, P: Parser<'src, &'src str, Expression, EmptyText> + Copy + Drop>(
    call: P,
    wanted: bool,
    inp: &mut TextRef<'src, '_, EmptyText>,
) -> PResult<Option<Expression>>
    requires { P.ready call }
    ensures ran { Runs ⟦<&'src str as Input<'src>>⟧ ⟦<EmptyErr as Error<&'src str>>⟧ ⟦<() as Inspector<&'src str>>⟧
        (Onward (⟦<AnyExpression<P> as Parser<'src, &'src str, Expression, EmptyText>>⟧.meaning (record {
          list = record { item = call };
          quote = record { item = call };
        }) ⟦<EmptyErr as Error<&'src str>>⟧ ⟦<() as Inspector<&'src str>>⟧)) wanted inp.old inp.new result }
    ensures as_wanted { IfOk result (λ value. is_some value ≡ wanted) }
    ensures lent { inp.new.state.ghost_name ≡ inp.old.state.ghost_name }
{
    let expression = ExpressionOf {
        list: ListOf { item: call },
        quote: QuoteOf { item: call },
    };
    run_part(&expression, wanted, inp)
}

/// An expression, after a gap.
fn any_expression<'src>(
    inp: &mut TextRef<'src, '_, EmptyText>,
    wanted: bool,
    depth: usize,
) -> PResult<Option<Expression>>
    ensures { ⟦<OfExpression as RunsUnder<'src, &'src str, Expression, EmptyText>>⟧.runs depth wanted inp.old inp.new result }
{
    let call: Called<_, OfExpression, _, _, _> = Called {
        function: any_expression,
        depth,
        of: PhantomData,
    };
    run_expression(call, wanted, inp)
}

/// Reads the expressions of a text. Of a text that is none there is no output. A run is refused for memory, or of a text of `limit`
/// characters or more.
pub fn parse_expressions(
    alloc: Global,
    text: &str,
    limit: usize,
) -> Result<ParseResult<Vec<Expression>, EmptyErr>, Stop>
    ensures { ExactlyUnless HoldsLisp (chars text.now) (limit ≤ length (chars text.now)) result }
{
    let expression = recursive_as::<OfExpression, _, _, _, EmptyText>(any_expression, limit);
    let all = Collect {
        parser: Repeated {
            parser: expression,
            at_least: 0,
            at_most: None,
            of: PhantomData,
        },
        of: PhantomData,
    };
    let whole: ThenIgnore<_, Tail<'_>, _> = ThenIgnore {
        first: all,
        second: tail(),
        of: PhantomData,
    };
    whole.parse(alloc, text)
}
