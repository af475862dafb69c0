//! Settings in sections, as INI files have them. A line that can't be read is an error of its own, and the lines after it are read.
ghost use Rattle.std.specs.Prelude.{◌≡◌, [], List, IfOk, IfErr, IsSomeAnd, IsTrue, is_some};
ghost use Rattle.std.specs.Str.{chars};
ghost use Rattle.chumsky_input.specs.declared.stop.Stop.TheVariants.{Memory};
ghost use Rattle.examples.specs.Ini.{Section, IsIni, HoldsIni};

use crate::sections::parse_sections;
pub use crate::sections::{Ini, Section};
use crate::words::{ToSome, Trimmed};
use chumsky::combinator::{Mapper, Part, part_of, run_part};
use chumsky::extra::RichText;
use chumsky::input::TextRef;
use chumsky::prelude::*;
use chumsky::{PResult, Stop};
use std::alloc::{AllocError, Global};
use std::fmt;
use std::fmt::{Display, Formatter};

/// White space, ends of lines too, and comments: what follows a `;` or a `#` on its line.
#[derive(Clone, Copy)]
struct Gap;

impl<'src> IsParser<&'src str, (), RichText> for Gap {}

impl<'src> Part<'src, &'src str, (), RichText> for Gap {
    fn run(&self, wanted: bool, inp: &mut TextRef<'src, '_, RichText>) -> PResult<Option<()>> {
        let comment = one_of(";#")
            .then(none_of("\n").repeated())
            .labelled("a comment");
        let gap = text::whitespace()
            .then(comment.then(text::whitespace()).repeated())
            .ignored();
        run_part(&gap, wanted, inp)
    }
}

/// A name: what stands before an `=` or a `]` on its line, without the spaces around it.
#[derive(Clone, Copy)]
struct Name;

impl<'src> IsParser<&'src str, &'src str, RichText> for Name {}

impl<'src> Part<'src, &'src str, &'src str, RichText> for Name {
    fn run(
        &self,
        wanted: bool,
        inp: &mut TextRef<'src, '_, RichText>,
    ) -> PResult<Option<&'src str>> {
        let name = none_of("=[];#\n")
            .repeated()
            .at_least(1)
            .to_slice()
            .map_by(Trimmed)
            .labelled("a name");
        run_part(&name, wanted, inp)
    }
}

/// The rest of a line that can't be read, and the gap after it, in place of a value.
#[derive(Clone, Copy)]
struct Skipped;

impl<'src, O: Copy> IsParser<&'src str, Option<O>, RichText> for Skipped {}

impl<'src, O: Copy> Part<'src, &'src str, Option<O>, RichText> for Skipped {
    fn run(
        &self,
        wanted: bool,
        inp: &mut TextRef<'src, '_, RichText>,
    ) -> PResult<Option<Option<O>>> {
        let rest = none_of("\n").repeated().then(part_of(Gap)).to(None);
        run_part(&rest, wanted, inp)
    }
}

/// A name and its value, which is the rest of the line without the spaces around it.
#[derive(Clone, Copy)]
struct Entry;

impl<'src> IsParser<&'src str, Option<(&'src str, &'src str)>, RichText> for Entry {}

impl<'src> Part<'src, &'src str, Option<(&'src str, &'src str)>, RichText> for Entry {
    fn run(
        &self,
        wanted: bool,
        inp: &mut TextRef<'src, '_, RichText>,
    ) -> PResult<Option<Option<(&'src str, &'src str)>>> {
        let rest = none_of("\n").repeated().to_slice().map_by(Trimmed);
        let entry = part_of(Name)
            .then_ignore(just('='))
            .then(rest)
            .then_ignore(part_of(Gap))
            .map_by(ToSome);
        let entry = none_of("[")
            .rewind()
            .ignore_then(entry.recover_with(via_parser(part_of(Skipped))));
        run_part(&entry, wanted, inp)
    }
}

/// The name of a section in brackets.
#[derive(Clone, Copy)]
struct Head;

impl<'src> IsParser<&'src str, Option<&'src str>, RichText> for Head {}

impl<'src> Part<'src, &'src str, Option<&'src str>, RichText> for Head {
    fn run(
        &self,
        wanted: bool,
        inp: &mut TextRef<'src, '_, RichText>,
    ) -> PResult<Option<Option<&'src str>>> {
        let head = part_of(Name)
            .delimited_by(just('[').labelled("a section"), just(']'))
            .then_ignore(part_of(Gap))
            .map_by(ToSome);
        let head = any()
            .rewind()
            .ignore_then(head.recover_with(via_parser(part_of(Skipped))));
        run_part(&head, wanted, inp)
    }
}

/// Makes a section of its name and its entries. Without a name there is none.
#[derive(Clone, Copy)]
struct ToSection;

impl<'src> Mapper<(Option<&'src str>, Section<'src>), Option<(&'src str, Section<'src>)>>
    for ToSection {
    fn apply(
        &self,
        headed: (Option<&'src str>, Section<'src>),
    ) -> Option<(&'src str, Section<'src>)> {
        let (name, entries) = headed;
        match name {
            Some(name) => Some((name, entries)),
            None => None,
        }
    }
}

/// The name of a section in brackets, and its entries.
#[derive(Clone, Copy)]
struct Headed;

impl<'src> IsParser<&'src str, Option<(&'src str, Section<'src>)>, RichText> for Headed {}

impl<'src> Part<'src, &'src str, Option<(&'src str, Section<'src>)>, RichText> for Headed {
    fn run(
        &self,
        wanted: bool,
        inp: &mut TextRef<'src, '_, RichText>,
    ) -> PResult<Option<Option<(&'src str, Section<'src>)>>> {
        let entries = part_of(Entry)
            .repeated()
            .flatten()
            .collect::<Section<'src>>();
        run_part(&part_of(Head).then(entries).map_by(ToSection), wanted, inp)
    }
}

/// Sections by name, each a map of names to values. Of two sections of one name, and of two values, the later stands. Each line
/// that can't be read is an error; where it should have been the name of a section, the entries below it are left out.
///
/// A reader that keeps no errors tells whether the text is such, and which sections it has. Only a text that is none is read once
/// more, by a reader that does, and goes on after each.
pub fn parse_ini<'src>(
    alloc: Global,
    text: &'src str,
) -> Result<ParseResult<Ini<'src>, Rich<char>>, Stop>
    ensures read { IfOk result (λ parsed. parsed.errors.items ≡ [] → IsSomeAnd parsed.output (λ ini. HoldsIni (chars text.now) ini)) }
    ensures quiet { IfOk result (λ parsed. (sections : List Section) → IsIni (chars text.now) sections → parsed.errors.items ≡ []) }
    ensures memory { IfErr result (λ stop. stop ≡ Memory) }
{
    let parsed = parse_sections(alloc, text)?;
    match parsed.into_output() {
        Some(ini) => Ok(ParseResult {
            output: Some(ini),
            errors: Vec::new(alloc),
        }),
        None => recovered(alloc, text),
    }
}

/// What can be read of a text that is no INI, and what is wrong with it: one error at least.
fn recovered<'src>(
    alloc: Global,
    text: &'src str,
) -> Result<ParseResult<Ini<'src>, Rich<char>>, Stop>
    ensures told { IfOk result (λ parsed. parsed.errors.items ≡ [] → ⊥) }
    ensures memory { IfErr result (λ stop. stop ≡ Memory) }
{
    let (output, errors) = match read_lines(alloc, text) {
        Ok(parsed) => parsed.into_output_errors(),
        Err(Stop::Memory) => return Err(Stop::Memory),
        Err(_) => (None, Vec::new(alloc)),
    };
    if errors.is_empty() {
        return Ok(ParseResult {
            output: None,
            errors: no_ini(alloc, text)?,
        });
    }
    Ok(ParseResult { output, errors })
}

/// Reads the sections of a text line by line. Each line that can't be read is an error, and those after it are read.
pub fn read_lines<'src>(
    alloc: Global,
    text: &'src str,
) -> Result<ParseResult<Ini<'src>, Rich<char>>, Stop>
    ensures { IfOk result (λ parsed. parsed.errors.items ≡ [] → IsTrue (is_some parsed.output)) }
{
    let sections = part_of(Headed).repeated().flatten().collect::<Ini<'src>>();
    part_of(Gap).ignore_then(sections).parse(alloc, text)
}

/// The error of a whole text.
fn no_ini(alloc: Global, text: &str) -> Result<Vec<Rich<char>>, AllocError>
    ensures { IfOk result (λ errors. errors.items ≡ [] → ⊥) }
{
    let mut errors = Vec::new(alloc);
    let whole = SimpleSpan::from(0..text.len());
    errors.push(Rich::custom_in(alloc, whole, "this is no INI")?)?;
    Ok(errors)
}

/// Sections as a text, in the order of their names.
#[derive(Clone, Copy)]
pub struct IniText<'a, 'src>(pub &'a Ini<'src>);

impl Display for IniText<'_, '_> {
    fn fmt<W: fmt::Write>(&self, f: &mut Formatter<W>) -> fmt::Result {
        for (name, section) in self.0.iter() {
            writeln!(f, "[{name}]")?;
            for (key, value) in section.iter() {
                writeln!(f, "{key} = {value}")?;
            }
        }
        Ok(())
    }
}
