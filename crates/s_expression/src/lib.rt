//! S-expressions, as Lisp has them: symbols, numbers, strings, lists and quotes, to trees and to text again.
#![tactic(auto)]

ghost use Rattle.std.specs.Prelude.{◌≡◌, ◌≤◌, [], length, IfOk, IsTrue, is_some};
ghost use Rattle.std.specs.Str.{chars};
ghost use Rattle.chumsky.specs.Accepted.{ExactlyUnless};
ghost use Rattle.s_expression.specs.Lisp.{HoldsLisp};

pub mod exact_reader;
pub mod expression;
pub mod making;
pub mod pieces;

use crate::exact_reader::parse_expressions;
use crate::expression::AfterQuote;
pub use crate::expression::Expression;
use crate::making::atom_of;
use chumsky::combinator::{Part, part_of, run_part};
use chumsky::extra::RichText;
use chumsky::input::TextRef;
use chumsky::prelude::*;
use chumsky::primitive::Select;
use chumsky::recursive::{RunsUnder, Unsaid};
use chumsky::{PResult, Stop};
use std::alloc::{AllocError, Global};
use std::fmt;
use std::fmt::{Display, Formatter};

/// White space, and comments: what follows a `;` on its line.
#[derive(Clone, Copy)]
struct Gap;

impl<'src> IsParser<&'src str, (), RichText> for Gap {}

impl<'src> Part<'src, &'src str, (), RichText> for Gap {
    fn run(&self, wanted: bool, inp: &mut TextRef<'src, '_, RichText>) -> PResult<Option<()>> {
        let comment = just(';')
            .then(none_of("\n").repeated())
            .labelled("a comment");
        let gap = text::whitespace()
            .then(comment.then(text::whitespace()).repeated())
            .ignored();
        run_part(&gap, wanted, inp)
    }
}

/// A text between quotes, where `\n`, `\t`, `\"` and `\\` stand for the characters that Rust has by these names.
#[derive(Clone, Copy)]
struct Quotation;

impl<'src> IsParser<&'src str, String, RichText> for Quotation {}

impl<'src> Part<'src, &'src str, String, RichText> for Quotation {
    fn run(&self, wanted: bool, inp: &mut TextRef<'src, '_, RichText>) -> PResult<Option<String>> {
        let named: Select<_, &'src str, char, RichText> = select! {
            'n' => '\n',
            't' => '\t',
            '"' => '"',
            '\\' => '\\',
        };
        let escape = just('\\').ignore_then(named.labelled("an escape"));
        let text = none_of("\"\\").or(escape).repeated().collect::<String>();
        run_part(&text.delimited_by(just('"'), just('"')), wanted, inp)
    }
}

/// A symbol, a number or a text, with the gap after it.
#[derive(Clone, Copy)]
struct Atom;

impl<'src> IsParser<&'src str, Expression, RichText> for Atom {}

impl<'src> Part<'src, &'src str, Expression, RichText> for Atom {
    fn run(
        &self,
        wanted: bool,
        inp: &mut TextRef<'src, '_, RichText>,
    ) -> PResult<Option<Expression>> {
        let word = none_of("()'\"; \t\r\n")
            .repeated()
            .at_least(1)
            .collect::<String>()
            .map(|word: String| atom_of(word));
        let text = part_of(Quotation).map(Expression::Text);
        let atom = word.or(text).labelled("an atom");
        run_part(&atom.then_ignore(part_of(Gap)), wanted, inp)
    }
}

/// A bracket or a quote, with the gap after it.
#[derive(Clone, Copy)]
struct Mark(char);

impl<'src> IsParser<&'src str, char, RichText> for Mark {}

impl<'src> Part<'src, &'src str, char, RichText> for Mark {
    fn run(&self, wanted: bool, inp: &mut TextRef<'src, '_, RichText>) -> PResult<Option<char>> {
        run_part(&just(self.0).then_ignore(part_of(Gap)), wanted, inp)
    }
}

/// A list, from bracket to bracket.
#[cycle(lisp)]
fn list<'src>(
    inp: &mut TextRef<'src, '_, RichText>,
    wanted: bool,
    depth: usize,
) -> PResult<Option<Expression>>
    ensures { ⟦<Unsaid as RunsUnder<'src, &'src str, Expression, RichText>>⟧.runs depth wanted inp.old inp.new result }
{
    let items = recursive(nested, depth)
        .repeated()
        .collect::<Vec<_>>()
        .delimited_by(part_of(Mark('(')), part_of(Mark(')')));
    run_part(&items.map(Expression::List), wanted, inp)
}

/// A quote and an expression.
#[cycle(lisp)]
fn quote<'src>(
    inp: &mut TextRef<'src, '_, RichText>,
    wanted: bool,
    depth: usize,
) -> PResult<Option<Expression>>
    ensures { ⟦<Unsaid as RunsUnder<'src, &'src str, Expression, RichText>>⟧.runs depth wanted inp.old inp.new result }
{
    let inside = recursive(nested, depth)
        .repeated()
        .exactly(1)
        .collect::<AfterQuote>();
    let quote = part_of(Mark('\'')).ignore_then(inside);
    run_part(&quote.map(|quote: AfterQuote| quote.quoted), wanted, inp)
}

/// An atom, a list, or a quote and an expression.
#[cycle(lisp)]
fn nested<'src>(
    inp: &mut TextRef<'src, '_, RichText>,
    wanted: bool,
    depth: usize,
) -> PResult<Option<Expression>>
    ensures { ⟦<Unsaid as RunsUnder<'src, &'src str, Expression, RichText>>⟧.runs depth wanted inp.old inp.new result }
{
    let all = choice((
        part_of(Atom),
        recursive(list, depth),
        recursive(quote, depth),
    ));
    run_part(&all, wanted, inp)
}

/// How many calls may be open at once: two for each list and each quote, and two for the innermost expression. A call takes some
/// 650 bytes of stack, so all of them fit into 256 kB.
const DEPTH: usize = 302;

/// How many lists and quotes may stand within one another.
const LEVELS: usize = 150;

/// Reads the expressions of a text. One that is nested more than a hundred and fifty deep is refused with `Stop::TooDeep`.
///
/// A reader that keeps no errors tells whether the text is such, and which expressions it is. Only of a text that is none is it read
/// once more, by a reader that does, for what to say of it.
pub fn read_expressions(
    alloc: Global,
    text: &str,
) -> Result<ParseResult<Vec<Expression>, Rich<char>>, Stop>
    ensures exact { ExactlyUnless HoldsLisp (chars text.now) (151 ≤ length (chars text.now)) result }
    ensures told { IfOk result (λ parsed. parsed.errors.items ≡ [] → IsTrue (is_some parsed.output)) }
{
    let parsed = parse_expressions(alloc, text, LEVELS + 1)?;
    match parsed.into_output() {
        Some(expressions) => Ok(ParseResult {
            output: Some(expressions),
            errors: Vec::new(alloc),
        }),
        None => Ok(ParseResult {
            output: None,
            errors: errors_of(alloc, text)?,
        }),
    }
}

/// What is wrong with a text: one error at least.
fn errors_of(alloc: Global, text: &str) -> Result<Vec<Rich<char>>, AllocError>
    ensures { IfOk result (λ errors. errors.items ≡ [] → ⊥) }
{
    let all = recursive::<_, _, _, RichText>(nested, DEPTH).repeated();
    let mut errors = match part_of(Gap).ignore_then(all).check(alloc, text) {
        Ok(parsed) => parsed.into_errors(),
        Err(Stop::Memory) => return Err(AllocError),
        Err(_) => Vec::new(alloc),
    };
    if errors.is_empty() {
        let whole = SimpleSpan::from(0..text.len());
        errors.push(Rich::custom_in(alloc, whole, "these are no expressions")?)?;
    }
    Ok(errors)
}

/// An expression in one line.
impl Display for Expression {
    fn fmt<W: fmt::Write>(&self, f: &mut Formatter<W>) -> fmt::Result {
        match self {
            Expression::Symbol(name) => write!(f, "{name}"),
            Expression::Number(number) => write!(f, "{number}"),
            Expression::Text(text) => write_text(f, text.as_str()),
            Expression::Quoted(inside) => write!(f, "'{inside}"),
            Expression::List(items) => {
                write!(f, "(")?;
                for (index, item) in items.iter().enumerate() {
                    if index > 0 {
                        write!(f, " ")?;
                    }
                    write!(f, "{item}")?;
                }
                write!(f, ")")
            }
        }
    }
}

/// A text between quotes, with its escapes.
fn write_text<W: fmt::Write>(f: &mut Formatter<W>, text: &str) -> fmt::Result {
    write!(f, "\"")?;
    for character in text.chars() {
        match character {
            '\n' => write!(f, "\\n")?,
            '\t' => write!(f, "\\t")?,
            '"' => write!(f, "\\\"")?,
            '\\' => write!(f, "\\\\")?,
            _ => write!(f, "{character}")?,
        }
    }
    write!(f, "\"")
}
