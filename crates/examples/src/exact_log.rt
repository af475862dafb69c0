//! The lines of a log, by a reader that keeps no errors and says exactly which texts it reads.
ghost use Rattle.std.specs.Prelude.{◌≡◌};
ghost use Rattle.std.specs.Str.{chars};
ghost use Rattle.chumsky.specs.Accepted.{Exactly};
ghost use Rattle.examples.specs.Log.{HoldsLog};

use crate::digits::TwoDigits;
use crate::log_lines::{Level, Line, Named};
use crate::words::Trimmed;
use chumsky::Stop;
use chumsky::combinator::{IgnoreThen, Map, Mapper, PickBy, Then, ThenIgnore, ToSlice};
use chumsky::extra::EmptyText;
use chumsky::prelude::*;
use chumsky::primitive::Just;
use chumsky::text::{AsciiIdent, Digits, Kind, Lexeme, Run, Word, run_of, word_of};
use chumsky::util::Plain;
use std::alloc::Global;

/// Ends of lines: line feeds and returns.
#[derive(Clone, Copy)]
pub struct LineEnds;

impl Kind<char> for LineEnds {
    ghost use Rattle.std.specs.Prelude.{[], ⊤};
    ghost use Rattle.examples.specs.Log.{ends_line};

    ghost fits = { λ _. ⊤ };

    ghost holds = { λ _. ends_line };

    ghost wants = { λ _. [] };

    fn test(&self, token: &char) -> bool {
        *token == '\n' || *token == '\r'
    }

    fn expected(&self) -> Plain<'_> {
        Plain::Nothing
    }
}

impl Lexeme<char> for LineEnds {
    type Rest = LineEnds;

    ghost rest_after = { λ _ _. record {} };

    fn rest(&self, _first: &char) -> LineEnds {
        LineEnds
    }
}

/// Characters of one line.
#[derive(Clone, Copy)]
pub struct InLine;

impl Kind<char> for InLine {
    ghost use Rattle.std.specs.Prelude.{[], ⊤};
    ghost use Rattle.examples.specs.Log.{in_line};

    ghost fits = { λ _. ⊤ };

    ghost holds = { λ _. in_line };

    ghost wants = { λ _. [] };

    fn test(&self, token: &char) -> bool {
        *token != '\n' && *token != '\r'
    }

    fn expected(&self) -> Plain<'_> {
        Plain::Nothing
    }
}

/// White space within a line.
#[derive(Clone, Copy)]
pub struct Blank;

impl Kind<char> for Blank {
    ghost use Rattle.std.specs.Prelude.{[], ⊤};
    ghost use Rattle.examples.specs.LogPicks.{is_blank};

    ghost fits = { λ _. ⊤ };

    ghost holds = { λ _. is_blank };

    ghost wants = { λ _. [] };

    fn test(&self, token: &char) -> bool {
        *token != '\n' && *token != '\r' && token.is_whitespace()
    }

    fn expected(&self) -> Plain<'_> {
        Plain::Nothing
    }
}

/// What is no white space, and after it the characters of its line.
#[derive(Clone, Copy)]
pub struct Visible;

impl Kind<char> for Visible {
    ghost use Rattle.std.specs.Prelude.{[], ⊤};
    ghost use Rattle.std.specs.Char.{is_not_whitespace};

    ghost fits = { λ _. ⊤ };

    ghost holds = { λ _. is_not_whitespace };

    ghost wants = { λ _. [] };

    fn test(&self, token: &char) -> bool {
        !token.is_whitespace()
    }

    fn expected(&self) -> Plain<'_> {
        Plain::Nothing
    }
}

impl Lexeme<char> for Visible {
    type Rest = InLine;

    ghost rest_after = { λ _ _. record {} };

    fn rest(&self, _first: &char) -> InLine {
        InLine
    }
}

/// The parser of a number of two digits, of a character, and of a level.
pub type Field<'src> = PickBy<Word<Digits, &'src str, EmptyText>, &'src str, TwoDigits, u8>;

pub type Fixed<'src> = Just<char, &'src str, EmptyText>;

pub type LevelParser<'src> = PickBy<
    Word<AsciiIdent, &'src str, EmptyText>,
    &'src str,
    Named,
    Level,
>;

/// The parser of what a line has left, where that isn't blank.
pub type RestParser<'src> = Then<
    Run<Blank, &'src str, EmptyText>,
    Word<Visible, &'src str, EmptyText>,
    &'src str,
    &'src str,
>;

/// The parser of a message, after a space.
pub type MessageParser<'src> = IgnoreThen<
    Fixed<'src>,
    Map<ToSlice<RestParser<'src>, (&'src str, &'src str)>, &'src str, Trimmed, &'src str>,
    char,
>;

/// The parser of a time, of an hour, a minute and a second.
pub type TimeParser<'src> = Then<
    ThenIgnore<
        Then<ThenIgnore<Field<'src>, Fixed<'src>, char>, Field<'src>, u8, u8>,
        Fixed<'src>,
        char,
    >,
    Field<'src>,
    (u8, u8),
    u8,
>;

/// What a line is made of.
pub type LineParts<'src> = ((((u8, u8), u8), Level), &'src str);

/// The parser of a line.
pub type LineParser<'src> = Map<
    Then<
        Then<
            ThenIgnore<TimeParser<'src>, Fixed<'src>, char>,
            LevelParser<'src>,
            ((u8, u8), u8),
            Level,
        >,
        MessageParser<'src>,
        (((u8, u8), u8), Level),
        &'src str,
    >,
    LineParts<'src>,
    ToLine,
    Line<'src>,
>;

/// Makes a line.
#[derive(Clone, Copy)]
pub struct ToLine;

impl<'src> Mapper<LineParts<'src>, Line<'src>> for ToLine {
    ghost gives = { λ _ parts line. line ≡ record { time = (parts.0.0.0.0, parts.0.0.0.1, parts.0.0.1); level = parts.0.1; message = parts.1 } };

    fn apply(&self, parts: LineParts<'src>) -> Line<'src> {
        let ((((hour, minute), second), level), message) = parts;
        Line {
            time: (hour, minute, second),
            level,
            message,
        }
    }
}

/// The parser of two digits that make a number up to `most`.
fn field<'src>(most: u8) -> Field<'src>
    ensures radix { result.picked.parser.kind.radix ≡ 10 }
    ensures least { result.picked.picker.least ≡ 0 }
    ensures most { result.picked.picker.most ≡ most }
{
    text::digits(10).pick_by(TwoDigits { least: 0, most })
}

/// The parser of the rest of a line after a space, without the blanks around it.
fn message<'src>() -> MessageParser<'src>
    ensures { result.first.seq ≡ 32 }
{
    let rest = run_of(Blank).then(word_of(Visible)).to_slice();
    just(' ').ignore_then(rest.map_by(Trimmed))
}

/// The parser of a line, as `07:30:59 WARN disk almost full`.
fn line<'src>() -> LineParser<'src>
    ensures hour { result.parser.first.first.first.first.first.first.first.picked.parser.kind.radix ≡ 10 }
    ensures hour_from { result.parser.first.first.first.first.first.first.first.picked.picker.least ≡ 0 }
    ensures hour_to { result.parser.first.first.first.first.first.first.first.picked.picker.most ≡ 23 }
    ensures colon { result.parser.first.first.first.first.first.first.second.seq ≡ 58 }
    ensures minute { result.parser.first.first.first.first.first.second.picked.parser.kind.radix ≡ 10 }
    ensures minute_from { result.parser.first.first.first.first.first.second.picked.picker.least ≡ 0 }
    ensures minute_to { result.parser.first.first.first.first.first.second.picked.picker.most ≡ 59 }
    ensures other_colon { result.parser.first.first.first.first.second.seq ≡ 58 }
    ensures second { result.parser.first.first.first.second.picked.parser.kind.radix ≡ 10 }
    ensures second_from { result.parser.first.first.first.second.picked.picker.least ≡ 0 }
    ensures second_to { result.parser.first.first.first.second.picked.picker.most ≡ 59 }
    ensures space { result.parser.first.first.second.seq ≡ 32 }
    ensures other_space { result.parser.second.first.seq ≡ 32 }
{
    let hour = field(23).then_ignore(just(':'));
    let minute = hour.then(field(59)).then_ignore(just(':'));
    let time = minute.then(field(59)).then_ignore(just(' '));
    let level = text::ascii::ident().pick_by(Named);
    time.then(level).then(message()).map_by(ToLine)
}

/// The lines of a log, where each that isn't empty is right; otherwise there is no output.
pub fn parse_lines<'src>(
    alloc: Global,
    text: &'src str,
) -> Result<ParseResult<Vec<Line<'src>>, EmptyErr>, Stop>
    ensures { Exactly HoldsLog (chars text.now) result }
{
    let ends = word_of(LineEnds);
    let lines = line().separated_by(ends).allow_leading().allow_trailing();
    lines.collect::<Vec<Line>>().parse(alloc, text)
}
