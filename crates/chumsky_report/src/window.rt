//! The part of a line that a report shows.
ghost use Rattle.std.specs.Prelude.{◌≡◌, ◌≤◌, Some, [], MatchOption, length, take, drop, reverse, min, nat_le, flat_map};
ghost use Rattle.std.specs.Str.{IsCharBoundary, IsUtf8, chars, encode_utf8_all};
ghost use Rattle.std.specs.Fmt.{WritesOnOk};
ghost use Rattle.chumsky_report.specs.Cut.{WithoutLast, WithoutFirst, CutsBehind, CutsAhead};
ghost use Rattle.chumsky_report.specs.Shown.{line_of, below_of};
ghost use Rattle.chumsky_report.specs.Window.{sign, signs, below, of_line, dots, below_dots, shown_ahead, line_text, below_line};

use crate::line::is_hidden;
use std::fmt;
use std::fmt::{Display, Formatter};

/// How many characters of a line are shown at most.
const WIDTH: usize = 160;

/// How many of them stand on each side of an offset, if the line has as many there.
const SIDE: usize = 80;

/// The characters of a line that are shown round an offset.
#[derive(Clone, Copy)]
pub struct Window<'a> {
    /// Those before the offset.
    before: &'a str,
    /// Whether these are all that stand there.
    all_before: bool,
    /// Those from the offset on.
    pub after: &'a str,
    /// Whether these are all that stand there.
    all_after: bool,
}

/// What is shown round an offset of a text.
pub fn window_of(text: &str, offset: usize) -> Window<'_>
    requires { IsCharBoundary text.now offset }
    ensures line { line_of result ≡ line_text text.now offset }
    ensures below { below_of result ≡ below_line text.now offset }
    ensures after { result.after.now ≡ encode_utf8_all (shown_ahead text.now offset) }
{
    let (before, after) = text.split_at(offset);
    let (_, near_before) = cut_behind(before, SIDE);
    let (_, near_after) = cut_ahead(after, SIDE);
    let (before, all_before) = last_characters(before, WIDTH - near_after);
    let (after, all_after) = first_characters(after, WIDTH - near_before);
    Window {
        before,
        all_before,
        after,
        all_after,
    }
}

/// The last characters of a text's last line, at most so many, and whether these are all.
fn last_characters(text: &str, most: usize) -> (&str, bool)
    ensures shown { chars result.0.now ≡ reverse (take most (of_line (reverse (chars text.now)))) }
    ensures all { result.1 ≡ nat_le (length (of_line (reverse (chars text.now)))) most }
{
    let (left, _) = cut_behind(text, most);
    let (_, shown) = text.split_at(left.len());
    match without_last(left) {
        None => (shown, true),
        Some(_) => (shown, false),
    }
}

/// The first characters of a text's first line, at most so many, and whether these are all.
fn first_characters(text: &str, most: usize) -> (&str, bool)
    ensures shown { chars result.0.now ≡ take most (of_line (chars text.now)) }
    ensures spelled { result.0.now ≡ encode_utf8_all (take most (of_line (chars text.now))) }
    ensures all { result.1 ≡ nat_le (length (of_line (chars text.now))) most }
{
    let (left, _) = cut_ahead(text, most);
    let (shown, _) = text.split_at(text.len() - left.len());
    match without_first(left) {
        None => (shown, true),
        Some(_) => (shown, false),
    }
}

/// A text without the last characters of its last line, at most so many, and how many these are.
fn cut_behind(text: &str, most: usize) -> (&str, usize)
    ensures left { CutsBehind text.now result.1 result.0.now }
    ensures count { result.1 ≡ min most (length (of_line (reverse (chars text.now)))) }
    ensures utf8 { IsUtf8 result.0.now }
{
    let mut left = text;
    for count in 0..most {
        match without_last(left) {
            Some(shorter) => left = shorter,
            None => return (left, count),
        }
    }
    (left, most)
}

/// A text without the first characters of its first line, at most so many, and how many these are.
fn cut_ahead(text: &str, most: usize) -> (&str, usize)
    ensures left { CutsAhead text.now result.1 result.0.now }
    ensures count { result.1 ≡ min most (length (of_line (chars text.now))) }
    ensures utf8 { IsUtf8 result.0.now }
{
    let mut left = text;
    for count in 0..most {
        match without_first(left) {
            Some(shorter) => left = shorter,
            None => return (left, count),
        }
    }
    (left, most)
}

/// A text without its last character, unless there is none or it ends a line.
fn without_last(text: &str) -> Option<&str>
    ensures { MatchOption result (of_line (reverse (chars text.now)) ≡ []) (λ left. WithoutLast text.now left.now) }
{
    let mut characters = text.chars();
    let Some(character) = characters.next_back() else {
        return None;
    };
    let left = characters.as_str();
    if character == '\n' { None } else { Some(left) }
}

/// A text without its first character, unless there is none or it ends a line.
fn without_first(text: &str) -> Option<&str>
    ensures { MatchOption result (of_line (chars text.now) ≡ []) (λ left. WithoutFirst text.now left.now) }
{
    let mut characters = text.chars();
    let Some(character) = characters.next() else {
        return None;
    };
    let left = characters.as_str();
    if character == '\n' { None } else { Some(left) }
}

/// The line, as far as it is shown.
#[derive(Clone, Copy)]
pub struct Line<'a>(pub Window<'a>);

impl Display for Line<'_> {
    ghost output = { λ l. Some (line_of l.0) };

    fn fmt<W: fmt::Write>(&self, f: &mut Formatter<W>) -> fmt::Result {
        let window = self.0;
        write_dots(f, window.all_before)?;
        write_signs(f, window.before)?;
        write_signs(f, window.after)?;
        write_dots(f, window.all_after)
    }
}

/// What stands below the line before the offset.
#[derive(Clone, Copy)]
pub struct Below<'a>(pub Window<'a>);

impl Display for Below<'_> {
    ghost output = { λ b. Some (below_of b.0) };

    fn fmt<W: fmt::Write>(&self, f: &mut Formatter<W>) -> fmt::Result {
        let window = self.0;
        if !window.all_before {
            write!(f, " ")?;
        }
        write_spaces(f, window.before)
    }
}

/// Writes three dots, one character, where that is not all.
fn write_dots<W: fmt::Write>(f: &mut Formatter<W>, all: bool) -> fmt::Result
    ensures { WritesOnOk W.write_str_gives f.old result (dots all) f.new }
{
    if all { Ok(()) } else { write!(f, "{}", '…') }
}

/// Writes the characters of a text, with signs for control characters and hidden ones.
fn write_signs<W: fmt::Write>(f: &mut Formatter<W>, text: &str) -> fmt::Result
    ensures { WritesOnOk W.write_str_gives f.old result (signs (chars text.now)) f.new }
{
    for character in text.chars() {
        write!(f, "{}", sign(character))?;
    }
    Ok(())
}

/// What stands for a character: a sign for a control character and for one that is hidden, but a space for a carriage return
/// and a tab for a tab.
fn sign(character: char) -> char
    ensures { result ≡ sign character }
{
    match character {
        '\t' => '\t',
        '\r' => ' ',
        '\0'..='\u{1f}' => char::from_u32(0x2400 + u32::from(character)).unwrap_or('\u{fffd}'),
        '\u{7f}' => '\u{2421}',
        '\u{80}'..='\u{9f}' => '\u{fffd}',
        _ if is_hidden(character) => '\u{fffd}',
        _ => character,
    }
}

/// Writes a space below each character of a text, and a tab below a tab.
fn write_spaces<W: fmt::Write>(f: &mut Formatter<W>, text: &str) -> fmt::Result
    ensures { WritesOnOk W.write_str_gives f.old result (flat_map below (chars text.now)) f.new }
{
    for character in text.chars() {
        let space = if character == '\t' { "\t" } else { " " };
        write!(f, "{space}")?;
    }
    Ok(())
}
