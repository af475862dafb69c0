//! Statements, as `let x = 1 + 2; print x;`. Each that can't be read is an error, and the others stand.
ghost use Rattle.std.specs.Prelude.{◌≡◌, [], IfOk, IsTrue, is_some};

use crate::words::ToSome;
use chumsky::combinator::{Mapper, Part, Picker, part_of, run_part};
use chumsky::extra::RichText;
use chumsky::input::TextRef;
use chumsky::prelude::*;
use chumsky::recovery::Fallback;
use chumsky::{PResult, Stop};
use std::alloc::Global;

/// What is added up.
#[derive(Clone, Copy, Debug, PartialEq, Drop)]
pub enum Term<'src> {
    Number(u32),
    Name(&'src str),
}

/// A statement, with the terms of its sum.
#[derive(Debug, Drop)]
pub enum Statement<'src> {
    Let(&'src str, Vec<Term<'src>>),
    Print(Vec<Term<'src>>),
}

/// Makes a term of a name.
#[derive(Clone, Copy)]
struct ToName;

impl<'src> Mapper<&'src str, Term<'src>> for ToName {
    fn apply(&self, name: &'src str) -> Term<'src> {
        Term::Name(name)
    }
}

/// Makes a term of a number.
#[derive(Clone, Copy)]
struct ToNumber;

impl<'src> Mapper<u32, Term<'src>> for ToNumber {
    fn apply(&self, number: u32) -> Term<'src> {
        Term::Number(number)
    }
}

/// Makes a statement of a name and terms.
#[derive(Clone, Copy)]
struct ToLet;

impl<'src> Mapper<(&'src str, Vec<Term<'src>>), Statement<'src>> for ToLet {
    fn apply(&self, bound: (&'src str, Vec<Term<'src>>)) -> Statement<'src> {
        let (name, terms) = bound;
        Statement::Let(name, terms)
    }
}

/// Makes a statement of terms.
#[derive(Clone, Copy)]
struct ToPrint;

impl<'src> Mapper<Vec<Term<'src>>, Statement<'src>> for ToPrint {
    fn apply(&self, terms: Vec<Term<'src>>) -> Statement<'src> {
        Statement::Print(terms)
    }
}

/// Picks one word.
#[derive(Clone, Copy)]
struct Is(&'static str);

impl<'src> Picker<&'src str, ()> for Is {
    fn pick(&self, word: &'src str) -> Option<()> {
        if word == self.0 { Some(()) } else { None }
    }
}

/// Terms with a `+` between.
#[derive(Clone, Copy)]
struct Sum;

impl<'src> IsParser<&'src str, Vec<Term<'src>>, RichText> for Sum {}

impl<'src> Part<'src, &'src str, Vec<Term<'src>>, RichText> for Sum {
    fn run(
        &self,
        wanted: bool,
        inp: &mut TextRef<'src, '_, RichText>,
    ) -> PResult<Option<Vec<Term<'src>>>> {
        let number = text::int(10)
            .from_str::<u32>()
            .filter_map(|read| read.ok())
            .map_by(ToNumber);
        let name = text::ascii::ident().map_by(ToName);
        let term = number.or(name).labelled("a number or a name").padded();
        let sum = term.separated_by(just('+')).at_least(1);
        run_part(&sum.collect::<Vec<Term<'src>>>(), wanted, inp)
    }
}

/// A statement that is right, with its `;`.
#[derive(Clone, Copy)]
struct WholeStatement;

impl<'src> IsParser<&'src str, Statement<'src>, RichText> for WholeStatement {}

impl<'src> Part<'src, &'src str, Statement<'src>, RichText> for WholeStatement {
    fn run(
        &self,
        wanted: bool,
        inp: &mut TextRef<'src, '_, RichText>,
    ) -> PResult<Option<Statement<'src>>> {
        let name = text::ascii::ident().labelled("a name").padded();
        let binding = text::ascii::ident()
            .filter_map_by(Is("let"))
            .ignore_then(name)
            .then_ignore(just('='))
            .then(part_of(Sum))
            .map_by(ToLet);
        let print = text::ascii::ident()
            .filter_map_by(Is("print"))
            .ignore_then(part_of(Sum))
            .map_by(ToPrint);
        let statement = binding.or(print).labelled("a statement");
        run_part(&statement.then_ignore(just(';')), wanted, inp)
    }
}

/// What stands for a statement that can't be read.
#[derive(Clone, Copy)]
struct NoStatement;

impl<'src> Fallback<Option<Statement<'src>>> for NoStatement {
    fn fallback(&self) -> Option<Statement<'src>> {
        None
    }
}

/// A statement, or where it can't be read nothing, with an error: it ends at its `;`, or with the text.
#[derive(Clone, Copy)]
struct AnyStatement;

impl<'src> IsParser<&'src str, Option<Statement<'src>>, RichText> for AnyStatement {}

impl<'src> Part<'src, &'src str, Option<Statement<'src>>, RichText> for AnyStatement {
    fn run(
        &self,
        wanted: bool,
        inp: &mut TextRef<'src, '_, RichText>,
    ) -> PResult<Option<Option<Statement<'src>>>> {
        let to_its_end = skip_until(
            none_of(";").ignored(),
            just(';').ignored().or(end()),
            NoStatement,
        );
        let statement = part_of(WholeStatement)
            .map_by(ToSome)
            .recover_with(to_its_end);
        run_part(&any().rewind().ignore_then(statement), wanted, inp)
    }
}

/// The statements that are right, and an error for each other one, which ends at its `;`, or with the text.
pub fn parse_statements<'src>(
    alloc: Global,
    text: &'src str,
) -> Result<ParseResult<Vec<Statement<'src>>, Rich<char>>, Stop>
    ensures { IfOk result (λ parsed. parsed.errors.items ≡ [] → IsTrue (is_some parsed.output)) }
{
    let statements = part_of(AnyStatement)
        .then_ignore(text::whitespace())
        .repeated()
        .flatten()
        .collect::<Vec<Statement<'src>>>();
    text::whitespace()
        .ignore_then(statements)
        .parse(alloc, text)
}
