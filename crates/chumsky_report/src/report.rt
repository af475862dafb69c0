//! Errors as they are shown to people.
ghost use Rattle.std.specs.Prelude.{◌≡◌, Some, replicate};
ghost use Rattle.std.specs.Str.{IsCharBoundary};
ghost use Rattle.chumsky_input.specs.Display.{rich_text};
ghost use Rattle.chumsky_report.specs.Printed.{located_text, marks_text, named_text, onward_of};
ghost use Rattle.chumsky_report.specs.Report.{shown_span, text_at, report_text, token_report_text, byte_report_text};

use crate::index::Source;
use crate::line::{Place, characters};
use crate::message::Message;
use crate::window::{Below, Line, Window, window_of};
use chumsky_input::rich::Rich;
use chumsky_input::span::SimpleSpan;
use std::fmt;
use std::fmt::{Display, Formatter};

/// An error of a text, in three lines with no end at the last:
///
/// ```text
/// settings.conf:2:7: expected digit or end of input, found 'x'
/// port=8x
///       ^
/// ```
///
/// The first has the name of the text, the line and the column where the error's span begins, and what was expected and
/// found there, or the error's own message. The second is that line of the text. The third has a caret below each
/// character of the span on that line, and one where there is none. Below a tab stands a tab, so that carets align; a
/// character that is wider than others shifts them. Where the span has characters of later lines too, the carets go to the
/// end of the line, and `to line 4` follows them. Three or more characters that were expected and follow one another print
/// as a range, `'a' to 'f'`; the ten digits print as `digit`, as `text::digits` calls them. What a label says stands once: the
/// ten digits are left out beside the label `digit`, and the label `inline whitespace` beside `whitespace`.
///
/// Of a line of more than 160 characters, so many round the place are shown, with `…` where others are left out. Control
/// characters of the line show as signs, as `␛`, and those that show nothing or turn the direction of others as `�`: so no
/// text writes to the terminal, and each character has its column. Between quotes all of these are escaped. At the end of a
/// text the report points behind the last line that has something.
///
/// A text stands for itself, or for many errors a [`LineIndex`](crate::index::LineIndex) of it.
#[derive(Clone, Copy)]
pub struct Report<'a, S> {
    /// What the text is called, as the name of a file.
    pub name: &'a str,
    /// The text that was parsed.
    pub text: S,
    pub error: &'a Rich<char>,
}

impl<S: Source> Display for Report<'_, S> {
    ghost output = { λ r. report_text r.name.now (S.text r.text) r.error.now };

    fn fmt<W: fmt::Write>(&self, f: &mut Formatter<W>) -> fmt::Result {
        let span = shown_span(self.text, *self.error.span());
        write!(
            f,
            "{}",
            locate(self.name, &self.text, Message(self.error), span)
        )
    }
}

/// An error of a parser over the tokens of a text, in three lines as a `Report` has them. Its span is one of the text, as that
/// of a run over `SpannedTokens` is. The message is that of the error's own `Display`, where tokens print themselves between
/// single quotes:
///
/// ```text
/// sums.txt:2:7: expected ')' or ',', found 'let'
/// f(1, 2 let
///        ^^^
/// ```
#[derive_where(Clone, Copy; S)]
pub struct TokenReport<'a, T, S> {
    /// What the text is called, as the name of a file.
    pub name: &'a str,
    /// The text that the tokens were read from, or a `LineIndex` of it.
    pub text: S,
    pub error: &'a Rich<T>,
}

impl<T: Display, S: Source> Display for TokenReport<'_, T, S> {
    ghost output = { λ r. token_report_text T.output r.name.now (S.text r.text) r.error.now };

    fn fmt<W: fmt::Write>(&self, f: &mut Formatter<W>) -> fmt::Result {
        let span = shown_span(self.text, *self.error.span());
        write!(
            f,
            "{}",
            locate(self.name, &self.text, Printed(self.error), span)
        )
    }
}

/// An error as it prints by itself.
#[derive_where(Clone, Copy)]
struct Printed<'a, T>(&'a Rich<T>);

impl<T: Display> Display for Printed<'_, T> {
    ghost output = { λ e. rich_text T.output e.0.now };

    fn fmt<W: fmt::Write>(&self, f: &mut Formatter<W>) -> fmt::Result {
        write!(f, "{}", self.0)
    }
}

/// Where a span is shown: from the start of a character on; at the end of the text, behind the last line that has something.
fn shown_span<S: Source>(text: S, span: SimpleSpan) -> SimpleSpan
    ensures value { result ≡ shown_span (S.text text) span }
    ensures boundary { IsCharBoundary (S.text text) result.start }
{
    if span.start >= text.as_str().len() {
        let end = text.end();
        return SimpleSpan { start: end, end };
    }
    SimpleSpan {
        start: text.as_str().floor_char_boundary(span.start),
        end: span.end,
    }
}

/// A report whose places are known.
#[derive(Clone, Copy)]
struct Located<'a, M> {
    name: &'a str,
    place: Place,
    message: M,
    window: Window<'a>,
    /// How many of the characters that are shown belong to the span.
    marked: usize,
    /// The line of the span's last character.
    last_line: usize,
}

/// A report over a span.
fn locate<'a, S: Source, M: Display + Copy>(
    name: &'a str,
    text: &'a S,
    message: M,
    span: SimpleSpan,
) -> Located<'a, M>
    requires { IsCharBoundary (S.text text.now) span.start }
    ensures { located_text M.output result ≡ text_at name.now (S.text text.now) (M.output message) span }
{
    let window = window_of(text.as_str(), span.start);
    let shown = window.after.as_bytes();
    let (inside, _) = shown.split_at(span.end.saturating_sub(span.start).min(shown.len()));
    let last = span.end.min(text.as_str().len()).saturating_sub(1);
    Located {
        name,
        place: text.place(span.start),
        message,
        window,
        marked: characters(inside),
        last_line: text.place(last).line,
    }
}

impl<M: Display + Copy> Display for Located<'_, M> {
    ghost output = { λ r. located_text M.output r };

    fn fmt<W: fmt::Write>(&self, f: &mut Formatter<W>) -> fmt::Result {
        let place = Named(self.name, self.place);
        let message = self.message;
        let line = Line(self.window);
        let marks = Underline {
            window: self.window,
            marked: self.marked,
            onward: MoreLines(self.place.line, self.last_line),
        };
        write!(f, "{place}: {message}\n{line}\n{marks}")
    }
}

/// A place of a text that has a name.
#[derive(Clone, Copy)]
struct Named<'a>(&'a str, Place);

impl Display for Named<'_> {
    ghost output = { λ p. Some (named_text p.0.now p.1) };

    fn fmt<W: fmt::Write>(&self, f: &mut Formatter<W>) -> fmt::Result {
        let Place { line, column } = self.1;
        write!(f, "{}:{line}:{column}", self.0)
    }
}

/// What stands below the line.
#[derive(Clone, Copy)]
struct Underline<'a> {
    window: Window<'a>,
    /// How many of the characters that are shown belong to the span.
    marked: usize,
    onward: MoreLines,
}

impl Display for Underline<'_> {
    ghost output = { λ m. Some (marks_text m) };

    fn fmt<W: fmt::Write>(&self, f: &mut Formatter<W>) -> fmt::Result {
        let below = Below(self.window);
        let carets = Carets(self.marked.max(1));
        write!(f, "{below}{carets}{}", self.onward)
    }
}

/// Carets.
#[derive(Clone, Copy)]
struct Carets(usize);

impl Display for Carets {
    ghost output = { λ c. Some (replicate c.0 94) };

    fn fmt<W: fmt::Write>(&self, f: &mut Formatter<W>) -> fmt::Result {
        for _caret in 0..self.0 {
            write!(f, "^")?;
        }
        Ok(())
    }
}

/// To which line a span goes on, by its first line and its last, where these are two.
#[derive(Clone, Copy)]
struct MoreLines(usize, usize);

impl Display for MoreLines {
    ghost output = { λ o. Some (onward_of o.0 o.1) };

    fn fmt<W: fmt::Write>(&self, f: &mut Formatter<W>) -> fmt::Result {
        if self.1 <= self.0 {
            return Ok(());
        }
        write!(f, " to line {}", self.1)
    }
}

/// An error of bytes, in one line: the name, the offset where the error's span begins, in decimal and in hexadecimal, and
/// what was expected and found there, each byte in hexadecimal.
#[derive(Clone, Copy)]
pub struct ByteReport<'a> {
    /// What the bytes are called, as the name of a file.
    pub name: &'a str,
    pub error: &'a Rich<u8>,
}

impl Display for ByteReport<'_> {
    ghost output = { λ r. Some (byte_report_text r.name.now r.error.now) };

    fn fmt<W: fmt::Write>(&self, f: &mut Formatter<W>) -> fmt::Result {
        let offset = self.error.span().start;
        write!(
            f,
            "{}:{offset} (0x{:x}): {}",
            self.name,
            offset,
            Message(self.error)
        )
    }
}
