//! Lines of a log. A line that can't be read is an error of its own, and the lines after it are read.
ghost use Rattle.std.specs.Prelude.{◌≡◌, [], IfOk, IsTrue, is_some};
ghost use Rattle.std.specs.Str.{chars, encode_utf8_all};
ghost use Rattle.chumsky_text.specs.Decimals.{slice-bytes};
ghost use Rattle.examples.specs.Log.{HoldsLog, ExactlyRecovers};
ghost use Rattle.examples.specs.LogPicks.{level_of, level-by_word};

use crate::digits::TwoDigits;
use crate::exact_log::parse_lines;
use crate::words::{ToSome, Trimmed};
use chumsky::combinator::{Part, Picker, WordPicker, part_of, run_part};
use chumsky::extra::{ParserExtra, RichText};
use chumsky::input::TextRef;
use chumsky::prelude::*;
use chumsky::text::{AsciiIdent, Word};
use chumsky::{PResult, Stop};
use std::alloc::{AllocError, Global};
use std::fmt;
use std::fmt::{Display, Formatter};

/// How grave it is.
#[derive(Clone, Copy, Debug, PartialEq)]
pub enum Level {
    Info,
    Warning,
    Error,
}

/// A line: when, how grave, and what.
#[derive(Clone, Copy, Debug, PartialEq)]
pub struct Line<'src> {
    /// Hours, minutes and seconds.
    pub time: (u8, u8, u8),
    pub level: Level,
    pub message: &'src str,
}

/// Picks the level of a name.
#[derive(Clone, Copy)]
pub struct Named;

impl<'src> Picker<&'src str, Level> for Named {
    ghost gives = { λ _ name picked. picked ≡ level_of name.now };

    fn pick(&self, name: &'src str) -> Option<Level> {
        match name {
            "INFO" => Some(Level::Info),
            "WARN" => Some(Level::Warning),
            "ERROR" => Some(Level::Error),
            _ => None,
        }
    }
}

impl<'src, E: ParserExtra<&'src str>> WordPicker<
    'src,
    &'src str,
    &'src str,
    Level,
    E,
    Word<AsciiIdent, &'src str, E>,
> for Named {
    ghost picks = { λ _ w. level_of (encode_utf8_all w) };

    ghost by_word = { λ f p w v x s g. level-by_word w v.now x (slice-bytes (λ t. t.now) w v s.1) g };
}

/// Picks a text that isn't empty.
#[derive(Clone, Copy)]
struct Said;

impl<'src> Picker<&'src str, &'src str> for Said {
    fn pick(&self, text: &'src str) -> Option<&'src str> {
        if text.is_empty() { None } else { Some(text) }
    }
}

/// A time, as `07:30:59`.
#[derive(Clone, Copy)]
struct Time;

impl<'src> IsParser<&'src str, (u8, u8, u8), RichText> for Time {}

impl<'src> Part<'src, &'src str, (u8, u8, u8), RichText> for Time {
    fn run(
        &self,
        wanted: bool,
        inp: &mut TextRef<'src, '_, RichText>,
    ) -> PResult<Option<(u8, u8, u8)>> {
        let hour = text::digits(10).filter_map_by(TwoDigits { least: 0, most: 23 });
        let minute = text::digits(10).filter_map_by(TwoDigits { least: 0, most: 59 });
        let second = text::digits(10).filter_map_by(TwoDigits { least: 0, most: 59 });
        let time = group((
            hour.labelled("an hour"),
            just(':'),
            minute.labelled("a minute"),
            just(':'),
            second.labelled("a second"),
        ));
        let time = time.map(|(hour, _, minute, _, second)| (hour, minute, second));
        run_part(&time, wanted, inp)
    }
}

/// The rest of a line after a blank, without the blanks around it.
#[derive(Clone, Copy)]
struct Message;

impl<'src> IsParser<&'src str, &'src str, RichText> for Message {}

impl<'src> Part<'src, &'src str, &'src str, RichText> for Message {
    fn run(
        &self,
        wanted: bool,
        inp: &mut TextRef<'src, '_, RichText>,
    ) -> PResult<Option<&'src str>> {
        let rest = none_of("\r\n").repeated().to_slice();
        let said = rest.map_by(Trimmed).filter_map_by(Said);
        let message = just(' ').ignore_then(said.labelled("a message"));
        run_part(&message.labelled("a message"), wanted, inp)
    }
}

/// A line that is right, as `07:30:59 WARN disk almost full`.
#[derive(Clone, Copy)]
struct WholeLine;

impl<'src> IsParser<&'src str, Line<'src>, RichText> for WholeLine {}

impl<'src> Part<'src, &'src str, Line<'src>, RichText> for WholeLine {
    fn run(
        &self,
        wanted: bool,
        inp: &mut TextRef<'src, '_, RichText>,
    ) -> PResult<Option<Line<'src>>> {
        let level = text::ascii::ident().filter_map_by(Named);
        let line = group((
            part_of(Time),
            just(' '),
            level.labelled("a level"),
            part_of(Message),
        ));
        let line = line.map(|(time, _, level, message)| Line {
            time,
            level,
            message,
        });
        run_part(&line, wanted, inp)
    }
}

/// A line. One that isn't right is an error, and is left out with all that stands on it.
#[derive(Clone, Copy)]
struct AnyLine;

impl<'src> IsParser<&'src str, Option<Line<'src>>, RichText> for AnyLine {}

impl<'src> Part<'src, &'src str, Option<Line<'src>>, RichText> for AnyLine {
    fn run(
        &self,
        wanted: bool,
        inp: &mut TextRef<'src, '_, RichText>,
    ) -> PResult<Option<Option<Line<'src>>>> {
        let to_its_end = via_parser(none_of("\r\n").repeated().to(None));
        let line = part_of(WholeLine).map_by(ToSome).recover_with(to_its_end);
        run_part(&line, wanted, inp)
    }
}

/// The lines that are right, and an error for each other line. Lines that are empty are passed over.
///
/// A reader that keeps no errors tells whether each line is right, and what the lines say. Only of a text in which one isn't is it
/// read once more, by a reader that goes on behind it.
pub fn parse_log<'src>(
    alloc: Global,
    text: &'src str,
) -> Result<ParseResult<Vec<Line<'src>>, Rich<char>>, Stop>
    ensures exact { ExactlyRecovers HoldsLog (chars text.now) result }
    ensures told { IfOk result (λ parsed. parsed.errors.items ≡ [] → IsTrue (is_some parsed.output)) }
{
    let parsed = parse_lines(alloc, text)?;
    match parsed.into_output() {
        Some(lines) => Ok(ParseResult {
            output: Some(lines),
            errors: Vec::new(alloc),
        }),
        None => Ok(read_on(alloc, text)?),
    }
}

/// The lines that are right, and what is wrong with the others: one error at least.
fn read_on<'src>(
    alloc: Global,
    text: &'src str,
) -> Result<ParseResult<Vec<Line<'src>>, Rich<char>>, AllocError>
    ensures { IfOk result (λ parsed. parsed.errors.items ≡ [] → ⊥) }
{
    let (output, mut errors) = match recover_lines(alloc, text) {
        Ok(parsed) => parsed.into_output_errors(),
        Err(Stop::Memory) => return Err(AllocError),
        Err(_) => (None, Vec::new(alloc)),
    };
    if errors.is_empty() {
        let whole = SimpleSpan::from(0..text.len());
        errors.push(Rich::custom_in(alloc, whole, "this is no log")?)?;
    }
    Ok(ParseResult { output, errors })
}

/// The same as `parse_log`, of which less is known: a reader that goes on behind a line that is wrong.
pub fn recover_lines<'src>(
    alloc: Global,
    text: &'src str,
) -> Result<ParseResult<Vec<Line<'src>>, Rich<char>>, Stop>
    ensures { IfOk result (λ parsed. parsed.errors.items ≡ [] → IsTrue (is_some parsed.output)) }
{
    let line = none_of("\r\n")
        .rewind()
        .ignore_then(part_of(AnyLine))
        .or_not()
        .map(|line: Option<Option<Line>>| line.flatten());
    line.separated_by(text::newline())
        .flatten()
        .collect::<Vec<_>>()
        .parse(alloc, text)
}

/// Lines as a text, gravest last in each: the message, the time and the level.
#[derive(Clone, Copy)]
pub struct LogText<'a, 'src>(pub &'a [Line<'src>]);

impl Display for LogText<'_, '_> {
    fn fmt<W: fmt::Write>(&self, f: &mut Formatter<W>) -> fmt::Result {
        for line in self.0 {
            let (hour, minute, second) = line.time;
            let level = match line.level {
                Level::Info => "info",
                Level::Warning => "warning",
                Level::Error => "error",
            };
            writeln!(
                f,
                "{level} at {hour:02}:{minute:02}:{second:02}: {}",
                line.message
            )?;
        }
        Ok(())
    }
}
