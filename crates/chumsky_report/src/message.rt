//! What an error says.
ghost use Rattle.std.specs.Prelude.{◌≡◌, ◌<◌, ◌≤◌, ◌∷◌, [], List, Option, Some, None, false, length, take, ◌^◌, ℕ};
ghost use Rattle.std.specs.Option.{option_copied};
ghost use Rattle.std.specs.Fmt.{WritesOnOk};
ghost use Rattle.chumsky_report.specs.Message.{character_text, character_word, byte_text, no_word, pattern_text, follows, following, item_length, run_word, run_text, item_text, is_label, wider_word, has_label, is_labelled, listed, items, found_text, message_text};

use crate::line::is_hidden;
use chumsky_input::rich::{Rich, RichPattern};
use std::fmt;
use std::fmt::{Display, Formatter};

/// A token that a message can show.
pub trait Symbol: Copy {
    ghost number: { Self → ℕ };

    ghost text: { Self → List ℕ };

    /// The word for all tokens from one to another, where there is one.
    ghost word: { Self → Self → Option (List ℕ) };

    /// The number of the token among those of its kind.
    fn number(self) -> u32
        ensures value { result ≡ number self }
        ensures bound { result < 2 ^ 24 };

    fn write<W: fmt::Write>(self, f: &mut Formatter<W>) -> fmt::Result
        ensures { WritesOnOk W.write_str_gives f.old result (text self) f.new };

    /// The word for all tokens from this one to the last, where there is one.
    fn word(self, last: Self) -> Option<&'static str>
        ensures { option_copied result ≡ word self last };
}

/// A character in quotes, as a program writes it.
#[derive(Clone, Copy)]
struct Quoted(char);

impl Display for Quoted {
    ghost output = { λ q. Some (character_text q.0) };

    fn fmt<W: fmt::Write>(&self, f: &mut Formatter<W>) -> fmt::Result {
        let character = self.0;
        match character {
            '\n' => write!(f, "'\\n'"),
            '\r' => write!(f, "'\\r'"),
            '\t' => write!(f, "'\\t'"),
            '\'' | '\\' => write!(f, "'\\{character}'"),
            _ if character.is_control() || is_hidden(character) => write!(
                f,
                "'\\u{{{:x}}}'",
                u32::from(character)
            ),
            _ => write!(f, "'{character}'"),
        }
    }
}

impl Symbol for char {
    ghost number = { λ c. c };

    ghost text = { character_text };

    ghost word = { character_word };

    fn number(self) -> u32 {
        u32::from(self)
    }

    fn write<W: fmt::Write>(self, f: &mut Formatter<W>) -> fmt::Result {
        write!(f, "{}", Quoted(self))
    }

    fn word(self, last: Self) -> Option<&'static str> {
        match (self, last) {
            ('0', '9') => Some("digit"),
            _ => None,
        }
    }
}

impl Symbol for u8 {
    ghost number = { λ b. b };

    ghost text = { byte_text };

    ghost word = { no_word };

    fn number(self) -> u32 {
        u32::from(self)
    }

    fn write<W: fmt::Write>(self, f: &mut Formatter<W>) -> fmt::Result {
        write!(f, "0x{self:02x}")
    }

    fn word(self, _last: Self) -> Option<&'static str> {
        None
    }
}

/// One thing that was expected.
#[derive_where(Clone, Copy)]
struct Pattern<'a, T>(&'a RichPattern<T>);

impl<T: Symbol> Display for Pattern<'_, T> {
    ghost output = { λ p. Some (pattern_text T.number T.text T.word p.0.now) };

    fn fmt<W: fmt::Write>(&self, f: &mut Formatter<W>) -> fmt::Result {
        match self.0 {
            RichPattern::Token(token) => token.write(f),
            RichPattern::Any => write!(f, "anything"),
            RichPattern::SomethingElse => write!(f, "something else"),
            RichPattern::EndOfInput => write!(f, "end of input"),
            RichPattern::Label(text) => write!(f, "{text}"),
        }
    }
}

/// Whether both are tokens, and the second is the next after the first.
fn follows<T: Symbol>(one: &RichPattern<T>, two: &RichPattern<T>) -> bool
    ensures { result ≡ follows T.number T.text T.word one.now two.now }
{
    match (one, two) {
        (RichPattern::Token(one), RichPattern::Token(two)) => two.number() == one.number() + 1,
        _ => false,
    }
}

/// How many patterns belong to the first item: three or more tokens that follow one another are one item.
fn item_length<T: Symbol>(patterns: &[RichPattern<T>]) -> usize
    ensures value { result ≡ item_length T.number T.text T.word patterns.now }
    ensures bound { result ≤ length patterns.now }
    ensures some { 0 < length patterns.now → 0 < result }
{
    let [first, others @ ..] = patterns else {
        return 0;
    };
    let following = following(first, others);
    if following < 2 { 1 } else { following + 1 }
}

/// How many patterns follow, each on the one before it.
fn following<T: Symbol>(first: &RichPattern<T>, others: &[RichPattern<T>]) -> usize
    ensures value { result ≡ following T.number T.text T.word first.now others.now }
    ensures bound { result ≤ length others.now }
{
    let mut last = first;
    let mut count: usize = 0;
    for other in others {
        if !follows(last, other) {
            break;
        }
        count += 1;
        last = other;
    }
    count
}

/// The word for all tokens from one to another, where there is one.
fn run_word<T: Symbol>(first: &RichPattern<T>, last: &RichPattern<T>) -> Option<&'static str>
    ensures { option_copied result ≡ run_word T.number T.text T.word first.now last.now }
{
    match (first, last) {
        (RichPattern::Token(first), RichPattern::Token(last)) => first.word(*last),
        _ => None,
    }
}

/// Whether a pattern is a label that says a word.
fn is_label<T: Symbol>(pattern: &RichPattern<T>, word: &str) -> bool
    ensures { result ≡ is_label T.number T.text T.word word.now pattern.now }
{
    match pattern {
        RichPattern::Label(text) => text.as_str() == word,
        _ => false,
    }
}

/// The word for what a label names and more, where there is one: white space within a line is white space.
fn wider_word<T: Symbol>(pattern: &RichPattern<T>) -> Option<&'static str>
    ensures { option_copied result ≡ wider_word T.number T.text T.word pattern.now }
{
    if is_label(pattern, "inline whitespace") {
        Some("whitespace")
    } else {
        None
    }
}

/// Whether one of the patterns is a label that says all that an item says.
fn is_labelled<T: Symbol>(patterns: &[RichPattern<T>], item: &[RichPattern<T>]) -> bool
    ensures { result ≡ is_labelled T.number T.text T.word patterns.now item.now }
{
    let word = match item {
        [] => None,
        [only] => wider_word(only),
        [first, .., last] => run_word(first, last),
    };
    match word {
        Some(word) => has_label(patterns, word),
        None => false,
    }
}

/// Whether one of the patterns is a label that says a word.
fn has_label<T: Symbol>(patterns: &[RichPattern<T>], word: &str) -> bool
    ensures { result ≡ has_label T.number T.text T.word patterns.now (Some word.now) }
{
    for pattern in patterns {
        if is_label(pattern, word) {
            return true;
        }
    }
    false
}

/// The rest of the patterns without the items at its front that a label says.
fn skip_labelled<'a, T: Symbol>(
    patterns: &[RichPattern<T>],
    rest: &'a [RichPattern<T>],
) -> &'a [RichPattern<T>]
    ensures items { items T.number T.text T.word patterns.now 0 result.now ≡ items T.number T.text T.word patterns.now 0 rest.now }
    ensures first { is_labelled T.number T.text T.word patterns.now (take (item_length T.number T.text T.word result.now) result.now) ≡ false }
    ensures bound { length result.now ≤ length rest.now }
{
    let mut rest = rest;
    while !rest.is_empty() {
        let (item, later) = rest.split_at(item_length(rest));
        if !is_labelled(patterns, item) {
            return rest;
        }
        rest = later;
    }
    rest
}

/// The first and the last pattern of a run.
#[derive_where(Clone, Copy)]
struct PatternRange<'a, T>(&'a RichPattern<T>, &'a RichPattern<T>);

impl<T: Symbol> Display for PatternRange<'_, T> {
    ghost output = { λ p. Some (run_text T.number T.text T.word p.0.now p.1.now) };

    fn fmt<W: fmt::Write>(&self, f: &mut Formatter<W>) -> fmt::Result {
        match run_word(self.0, self.1) {
            Some(word) => write!(f, "{word}"),
            None => write!(f, "{} to {}", Pattern(self.0), Pattern(self.1)),
        }
    }
}

/// An item of what was expected.
#[derive_where(Clone, Copy)]
struct PatternItem<'a, T>(&'a [RichPattern<T>]);

impl<T: Symbol> Display for PatternItem<'_, T> {
    ghost output = { λ p. Some (item_text T.number T.text T.word p.0.now) };

    fn fmt<W: fmt::Write>(&self, f: &mut Formatter<W>) -> fmt::Result {
        match self.0 {
            [] => Ok(()),
            [only] => write!(f, "{}", Pattern(only)),
            [first, .., last] => write!(f, "{}", PatternRange(first, last)),
        }
    }
}

/// All that was expected.
#[derive_where(Clone, Copy)]
struct Patterns<'a, T>(&'a [RichPattern<T>]);

impl<T: Symbol> Display for Patterns<'_, T> {
    ghost output = { λ p. Some (listed (items T.number T.text T.word p.0.now 0 p.0.now)) };

    fn fmt<W: fmt::Write>(&self, f: &mut Formatter<W>) -> fmt::Result {
        let all = skip_labelled(self.0, self.0);
        if all.is_empty() {
            return write!(f, "something else");
        }
        let (item, later) = all.split_at(item_length(all));
        write!(f, "{}", PatternItem(item))?;
        let mut rest = skip_labelled(self.0, later);
        while !rest.is_empty() {
            let (item, later) = rest.split_at(item_length(rest));
            let later = skip_labelled(self.0, later);
            let separator = if later.is_empty() { " or " } else { ", " };
            write!(f, "{separator}{}", PatternItem(item))?;
            rest = later;
        }
        Ok(())
    }
}

/// The token that was found, or the end of the input.
#[derive_where(Clone, Copy)]
struct Found<'a, T>(Option<&'a T>);

impl<T: Symbol> Display for Found<'_, T> {
    ghost output = { λ s. Some (found_text T.number T.text T.word (option_copied s.0)) };

    fn fmt<W: fmt::Write>(&self, f: &mut Formatter<W>) -> fmt::Result {
        match self.0 {
            Some(token) => token.write(f),
            None => write!(f, "end of input"),
        }
    }
}

/// What an error says, without its place: what was expected and what was found, or its own message.
#[derive_where(Clone, Copy)]
pub struct Message<'a, T>(pub &'a Rich<T>);

impl<T: Symbol> Display for Message<'_, T> {
    ghost output = { λ e. Some (message_text T.number T.text T.word e.0.now) };

    fn fmt<W: fmt::Write>(&self, f: &mut Formatter<W>) -> fmt::Result {
        match self.0.reason() {
            Some(message) => write!(f, "{message}"),
            None => {
                let patterns = Patterns(self.0.expected().as_slice());
                write!(f, "expected {patterns}, found {}", Found(self.0.found()))
            }
        }
    }
}
