//! Texts to print, which grow at both ends.
ghost use Rattle.std.specs.Prelude.{◌≡◌, ◌++◌, Some, IfOk, OnOk, flat_map};
ghost use Rattle.std.specs.Char.{encode_utf8};
ghost use Rattle.std.specs.Fmt.{HasWritten, IsPlainFormatter};
ghost use Rattle.chk_run.specs.Texts.{text_bytes};

use std::alloc::{AllocError, Global};
use std::collections::VecDeque;
use std::fmt;
use std::fmt::Display;

/// A text to print: a slice of the input, or characters.
#[derive(Drop)]
pub enum Text<'src> {
    Slice(&'src str),
    Made(VecDeque<char>),
}

impl Text<'_> {
    /// Its characters.
    pub fn into_chars(self, alloc: Global) -> Result<VecDeque<char>, AllocError>
        ensures { IfOk result (λ chars. flat_map encode_utf8 chars.items ≡ text_bytes self.entry) }
    {
        match self {
            Text::Slice(slice) => chars_of(alloc, slice),
            Text::Made(chars) => Ok(chars),
        }
    }

    /// The text, and then another one.
    pub fn join<'src>(self, alloc: Global, second: Text<'src>) -> Result<Text<'src>, AllocError>
        ensures { IfOk result (λ text. text_bytes text ≡ text_bytes self.entry ++ text_bytes second.entry) }
    {
        let first = self.into_chars(alloc)?;
        let second = second.into_chars(alloc)?;
        Ok(Text::Made(joined(first, second)?))
    }
}

/// The characters of a text.
fn chars_of(alloc: Global, text: &str) -> Result<VecDeque<char>, AllocError>
    ensures { IfOk result (λ all. flat_map encode_utf8 all.items ≡ text.now) }
{
    let mut all = VecDeque::new(alloc);
    for symbol in text.chars() {
        all.push_back(symbol)?;
    }
    Ok(all)
}

/// Characters, and then others. The fewer of the two are moved, so no character is moved more often than its text is at least
/// doubled.
fn joined(first: VecDeque<char>, second: VecDeque<char>) -> Result<VecDeque<char>, AllocError>
    ensures { IfOk result (λ all. all.items ≡ first.items ++ second.items) }
{
    let mut first = first;
    let mut second = second;
    if first.len() >= second.len() {
        first.append(&mut second)?;
        return Ok(first);
    }
    while let Some(last) = first.pop_back() {
        second.push_front(last)?;
    }
    Ok(second)
}

impl Display for Text<'_> {
    ghost output = { λ text. Some (text_bytes text) };

    fn fmt<W: fmt::Write>(&self, f: &mut fmt::Formatter<W>) -> fmt::Result {
        match self {
            Text::Slice(slice) => write!(f, "{slice}"),
            Text::Made(chars) => write_made(f, chars),
        }
    }
}

/// Writes characters that lie in a ring.
fn write_made<W: fmt::Write>(f: &mut fmt::Formatter<W>, chars: &VecDeque<char>) -> fmt::Result
    ensures { IsPlainFormatter f.old → OnOk result (HasWritten W.write_str_gives f.old (flat_map encode_utf8 chars.now.items) f.new) }
{
    let (front, back) = chars.as_slices();
    write_all(f, front)?;
    write_all(f, back)
}

/// Writes characters.
fn write_all<W: fmt::Write>(f: &mut fmt::Formatter<W>, chars: &[char]) -> fmt::Result
    ensures { IsPlainFormatter f.old → OnOk result (HasWritten W.write_str_gives f.old (flat_map encode_utf8 chars.now) f.new) }
{
    for symbol in chars {
        write!(f, "{symbol}")?;
    }
    Ok(())
}
