//! Settings in sections, by a reader that keeps no errors, of which it is known exactly which texts it reads.
ghost use Rattle.std.specs.Prelude.{◌≡◌, None};
ghost use Rattle.std.specs.Str.{chars};
ghost use Rattle.examples.specs.Ini.{ReadsIni, marks_comment};

use crate::words::Trimmed;
use chumsky::combinator::{Collect, DelimitedBy, Map, Repeated, Then, ThenIgnore};
use chumsky::error::Error;
use chumsky::extra::EmptyText;
use chumsky::input::{Input, TextRef};
use chumsky::inspector::Inspector;
use chumsky::prelude::*;
use chumsky::primitive::Just;
use chumsky::text::{Kind, Lexeme, Run, Word, run_of, word_of};
use chumsky::util::Plain;
use chumsky::{IsParser, PResult, Stop};
use chumsky_parser::parser::Parser;
use std::alloc::Global;
use std::collections::BTreeMap;

/// The values of a section, by name.
pub type Section<'src> = BTreeMap<&'src str, &'src str>;

/// Sections by name.
pub type Ini<'src> = BTreeMap<&'src str, Section<'src>>;

/// The parser of one character.
pub type Fixed<'src> = Just<char, &'src str, EmptyText>;

/// The parser of a name, and of what a line has left, without the white space around it.
pub type NameParser<'src, K> = Map<Word<K, &'src str, EmptyText>, &'src str, Trimmed, &'src str>;

pub type LineParser<'src> = Map<Run<InLine, &'src str, EmptyText>, &'src str, Trimmed, &'src str>;

/// The parser of a gap.
pub type GapParser<'src> = Collect<
    Repeated<Word<InGap, &'src str, EmptyText>, &'src str, &'src str, EmptyText>,
    &'src str,
    (),
>;

/// The parser of an entry, with the gap after it.
pub type EntryParser<'src> = ThenIgnore<
    Then<
        ThenIgnore<NameParser<'src, EntryName>, Fixed<'src>, char>,
        LineParser<'src>,
        &'src str,
        &'src str,
    >,
    Gap,
    (),
>;

/// The parser of the head of a section, with the gap after it.
pub type HeadParser<'src> = ThenIgnore<
    DelimitedBy<NameParser<'src, InName>, Fixed<'src>, Fixed<'src>, char, char>,
    Gap,
    (),
>;

/// The parser of a section.
pub type HeadedParser<'src> = Then<
    Head,
    Collect<
        Repeated<Entry, (&'src str, &'src str), &'src str, EmptyText>,
        (&'src str, &'src str),
        Section<'src>,
    >,
    &'src str,
    Section<'src>,
>;

/// Characters of one line.
#[derive(Clone, Copy, Drop)]
pub struct InLine;

impl Kind<char> for InLine {
    ghost use Rattle.std.specs.Prelude.{[], ⊤};
    ghost use Rattle.examples.specs.Ini.{in_line};

    ghost fits = { λ _. ⊤ };

    ghost holds = { λ _. in_line };

    ghost wants = { λ _. [] };

    fn test(&self, token: &char) -> bool {
        *token != '\n'
    }

    fn expected(&self) -> Plain<'_> {
        Plain::Nothing
    }
}

/// Characters of a name.
#[derive(Clone, Copy, Drop)]
pub struct InName;

impl Kind<char> for InName {
    ghost use Rattle.std.specs.Prelude.{[], ⊤};
    ghost use Rattle.examples.specs.Ini.{in_name};

    ghost fits = { λ _. ⊤ };

    ghost holds = { λ _. in_name };

    ghost wants = { λ _. [] };

    fn test(&self, token: &char) -> bool {
        !matches!(*token, '=' | '[' | ']' | ';' | '#' | '\n')
    }

    fn expected(&self) -> Plain<'_> {
        Plain::Nothing
    }
}

impl Lexeme<char> for InName {
    type Rest = InName;

    ghost rest_after = { λ _ _. record {} };

    fn rest(&self, _first: &char) -> InName {
        InName
    }
}

/// What the name of an entry begins with: a character of a name that is no white space.
#[derive(Clone, Copy, Drop)]
pub struct EntryName;

impl Kind<char> for EntryName {
    ghost use Rattle.std.specs.Prelude.{[], ⊤};
    ghost use Rattle.examples.specs.Ini.{begins_entry};

    ghost fits = { λ _. ⊤ };

    ghost holds = { λ _. begins_entry };

    ghost wants = { λ _. [] };

    fn test(&self, token: &char) -> bool {
        InName.test(token) && !token.is_whitespace()
    }

    fn expected(&self) -> Plain<'_> {
        Plain::Nothing
    }
}

impl Lexeme<char> for EntryName {
    type Rest = InName;

    ghost rest_after = { λ _ _. record {} };

    fn rest(&self, _first: &char) -> InName {
        InName
    }
}

/// What a piece of a gap begins with: white space, or `;` or `#`.
#[derive(Clone, Copy, Drop)]
pub struct InGap;

impl Kind<char> for InGap {
    ghost use Rattle.std.specs.Prelude.{[], ⊤};
    ghost use Rattle.examples.specs.Ini.{begins_gap};

    ghost fits = { λ _. ⊤ };

    ghost holds = { λ _. begins_gap };

    ghost wants = { λ _. [] };

    fn test(&self, token: &char) -> bool {
        token.is_whitespace() || begins_comment(*token)
    }

    fn expected(&self) -> Plain<'_> {
        Plain::Nothing
    }
}

/// What goes on with a piece of a gap: the rest of its line, where it is a comment, and nothing else.
#[derive(Clone, Copy, Drop)]
pub struct AfterGap {
    pub comment: bool,
}

impl Kind<char> for AfterGap {
    ghost use Rattle.std.specs.Prelude.{[], ⊤, ◌&&◌};
    ghost use Rattle.examples.specs.Ini.{in_line};

    ghost fits = { λ _. ⊤ };

    ghost holds = { λ kind c. kind.comment && in_line c };

    ghost wants = { λ _. [] };

    fn test(&self, token: &char) -> bool {
        self.comment && *token != '\n'
    }

    fn expected(&self) -> Plain<'_> {
        Plain::Nothing
    }
}

impl Lexeme<char> for InGap {
    ghost use Rattle.examples.specs.Ini.{marks_comment};

    type Rest = AfterGap;

    ghost rest_after = { λ _ first. record { comment = marks_comment first } };

    fn rest(&self, first: &char) -> AfterGap {
        AfterGap {
            comment: begins_comment(*first),
        }
    }
}

/// Whether a comment begins so.
fn begins_comment(character: char) -> bool
    ensures { result ≡ marks_comment character }
{
    character == ';' || character == '#'
}

/// White space and comments: a parser with a name, as those below, so that what holds it is checked by its name alone.
#[derive(Clone, Copy, Drop)]
pub struct Gap;

impl<'src> IsParser<&'src str, (), EmptyText> for Gap {}

impl<'src> Parser<'src, &'src str, (), EmptyText> for Gap {
    ghost use Rattle.std.specs.Prelude.{None, ⊤};
    ghost use Rattle.examples.specs.IniReading.{gaps};
    ghost use Rattle.examples.specs.IniLawful.{gap-lawful};

    ghost ready = { λ _. ⊤ };

    ghost meaning = { λ _. ⟦<GapParser<'src> as Parser<'src, &'src str, (), EmptyText>>⟧.meaning (record { parser = record { parser = record { kind = record {}; of = record {} }; at_least = 0; at_most = None; of = record {} }; of = record {} }) };

    ghost steady = { λ _. ⊥ };

    ghost same = { λ _ _ _. ⊤ };

    ghost language = { λ _. gaps };

    ghost ends_after_start = { λ _. (gap-lawful).ends };

    ghost agrees = { λ _ never. absurd never };

    ghost accepts = { λ _. (gap-lawful).accepts };

    fn go_emit(&self, inp: &mut TextRef<'src, '_, EmptyText>) -> PResult<()> {
        gap_parser().go_emit(inp)
    }

    fn go_check(&self, inp: &mut TextRef<'src, '_, EmptyText>) -> PResult<()> {
        gap_parser().go_check(inp)
    }
}

/// A name and its value, which is the rest of the line.
#[derive(Clone, Copy, Drop)]
pub struct Entry;

impl<'src> IsParser<&'src str, (&'src str, &'src str), EmptyText> for Entry {}

impl<'src> Parser<'src, &'src str, (&'src str, &'src str), EmptyText> for Entry {
    ghost use Rattle.std.specs.Prelude.{⊤};
    ghost use Rattle.examples.specs.IniReading.{entries};
    ghost use Rattle.examples.specs.IniLawful.{entry-lawful};

    ghost ready = { λ _. ⊤ };

    ghost meaning = { λ _. ⟦<EntryParser<'src> as Parser<'src, &'src str, (&'src str, &'src str), EmptyText>>⟧.meaning (record {
      first = record {
        first = record { first = record { parser = record { kind = record {}; of = record {} }; mapper = record {}; of = record {} }; second = record { seq = 61; of = record {} }; of = record {} };
        second = record { parser = record { kind = record {}; of = record {} }; mapper = record {}; of = record {} };
        of = record {};
      };
      second = record {};
      of = record {};
    }) };

    ghost steady = { λ _. ⊥ };

    ghost same = { λ _ _ _. ⊤ };

    ghost language = { λ _. entries };

    ghost ends_after_start = { λ _. (entry-lawful).ends };

    ghost agrees = { λ _ never. absurd never };

    ghost accepts = { λ _. (entry-lawful).accepts };

    fn go_emit(&self, inp: &mut TextRef<'src, '_, EmptyText>) -> PResult<(&'src str, &'src str)> {
        entry_parser().go_emit(inp)
    }

    fn go_check(&self, inp: &mut TextRef<'src, '_, EmptyText>) -> PResult<()> {
        entry_parser().go_check(inp)
    }
}

/// The name of a section in brackets.
#[derive(Clone, Copy, Drop)]
pub struct Head;

impl<'src> IsParser<&'src str, &'src str, EmptyText> for Head {}

impl<'src> Parser<'src, &'src str, &'src str, EmptyText> for Head {
    ghost use Rattle.std.specs.Prelude.{⊤};
    ghost use Rattle.examples.specs.IniReading.{heads};
    ghost use Rattle.examples.specs.IniLawful.{head-lawful};

    ghost ready = { λ _. ⊤ };

    ghost meaning = { λ _. ⟦<HeadParser<'src> as Parser<'src, &'src str, &'src str, EmptyText>>⟧.meaning (record {
      first = record { parser = record { parser = record { kind = record {}; of = record {} }; mapper = record {}; of = record {} }; opening = record { seq = 91; of = record {} }; closing = record { seq = 93; of = record {} }; of = record {} };
      second = record {};
      of = record {};
    }) };

    ghost steady = { λ _. ⊥ };

    ghost same = { λ _ _ _. ⊤ };

    ghost language = { λ _. heads };

    ghost ends_after_start = { λ _. (head-lawful).ends };

    ghost agrees = { λ _ never. absurd never };

    ghost accepts = { λ _. (head-lawful).accepts };

    fn go_emit(&self, inp: &mut TextRef<'src, '_, EmptyText>) -> PResult<&'src str> {
        head_parser().go_emit(inp)
    }

    fn go_check(&self, inp: &mut TextRef<'src, '_, EmptyText>) -> PResult<()> {
        head_parser().go_check(inp)
    }
}

/// The name of a section, and its entries.
#[derive(Clone, Copy, Drop)]
pub struct Headed;

impl<'src> IsParser<&'src str, (&'src str, Section<'src>), EmptyText> for Headed {}

impl<'src> Parser<'src, &'src str, (&'src str, Section<'src>), EmptyText> for Headed {
    ghost use Rattle.std.specs.Prelude.{None, ⊤};
    ghost use Rattle.examples.specs.IniReading.{headed};
    ghost use Rattle.examples.specs.IniLawful.{headed-lawful};

    ghost ready = { λ _. ⊤ };

    ghost meaning = { λ _. ⟦<HeadedParser<'src> as Parser<'src, &'src str, (&'src str, Section<'src>), EmptyText>>⟧.meaning (record {
      first = record {};
      second = record { parser = record { parser = record {}; at_least = 0; at_most = None; of = record {} }; of = record {} };
      of = record {};
    }) };

    ghost steady = { λ _. ⊥ };

    ghost same = { λ _ _ _. ⊤ };

    ghost language = { λ _. headed };

    ghost ends_after_start = { λ _. (headed-lawful).ends };

    ghost agrees = { λ _ never. absurd never };

    ghost accepts = { λ _. (headed-lawful).accepts };

    fn go_emit(
        &self,
        inp: &mut TextRef<'src, '_, EmptyText>,
    ) -> PResult<(&'src str, Section<'src>)> {
        headed_parser().go_emit(inp)
    }

    fn go_check(&self, inp: &mut TextRef<'src, '_, EmptyText>) -> PResult<()> {
        headed_parser().go_check(inp)
    }
}

/// The parser of a gap.
fn gap_parser<'src>() -> GapParser<'src>
    ensures at_least { result.parser.at_least ≡ 0 }
    ensures at_most { result.parser.at_most ≡ None }
{
    word_of(InGap).repeated().collect::<()>()
}

/// The parser of an entry.
fn entry_parser<'src>() -> EntryParser<'src>
    ensures { result.first.first.second.seq ≡ 61 }
{
    let name = word_of(EntryName).map_by(Trimmed);
    let value = run_of(InLine).map_by(Trimmed);
    name.then_ignore(just('=')).then(value).then_ignore(Gap)
}

/// The parser of the head of a section.
fn head_parser<'src>() -> HeadParser<'src>
    ensures opening { result.first.opening.seq ≡ 91 }
    ensures closing { result.first.closing.seq ≡ 93 }
{
    let name = word_of(InName).map_by(Trimmed);
    name.delimited_by(just('['), just(']')).then_ignore(Gap)
}

/// The parser of a section.
fn headed_parser<'src>() -> HeadedParser<'src>
    ensures at_least { result.second.parser.at_least ≡ 0 }
    ensures at_most { result.second.parser.at_most ≡ None }
{
    Head.then(Entry.repeated().collect::<Section<'src>>())
}

/// The sections of a text. Of one that is no INI there is no output.
pub fn parse_sections<'src>(
    alloc: Global,
    text: &'src str,
) -> Result<ParseResult<Ini<'src>, EmptyErr>, Stop>
    ensures { ReadsIni (chars text.now) result }
{
    let sections = Headed.repeated().collect::<Ini<'src>>();
    Gap.ignore_then(sections).parse(alloc, text)
}
