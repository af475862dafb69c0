//! Words, numbers and white space.
use chumsky::Stop;
use chumsky::extra::RichText;
use chumsky::prelude::*;
use chumsky::text::{AsciiIdent, Keyword, UnicodeIdent, Word};
use std::alloc::Global;

/// A name and its number, as `size = 10`.
pub fn setting<'src>(
    alloc: Global,
    line: &'src str,
) -> Result<ParseResult<(&'src str, &'src str), Rich<char>>, Stop> {
    let name = text::ascii::ident::<_, RichText>().padded();
    let value = text::int(10).padded();
    name.then_ignore(just('=')).then(value).parse(alloc, line)
}

/// The name after a `let`.
pub fn bound<'src>(
    alloc: Global,
    line: &'src str,
) -> Result<ParseResult<&'src str, Rich<char>>, Stop> {
    let binding = text::ascii::keyword::<_, RichText>("let")
        .padded()
        .ignore_then(text::ascii::ident());
    binding.parse(alloc, line)
}

/// A number that a byte holds.
pub fn byte(alloc: Global, line: &str) -> Result<ParseResult<u8, Rich<char>>, Stop> {
    let number = text::int::<_, RichText>(10)
        .from_str::<u8>()
        .filter_map(|read| read.ok())
        .labelled("a number below 256");
    number.parse(alloc, line)
}

/// A name, in memory of its own.
pub fn owned_name(alloc: Global, line: &str) -> Result<ParseResult<String, Rich<char>>, Stop> {
    let name = text::ascii::ident::<_, RichText>();
    name.map_in(|name, alloc| String::from_str(alloc, name))
        .parse(alloc, line)
}

/// The number of a month, by its name.
pub fn month(alloc: Global, line: &str) -> Result<ParseResult<u8, Rich<char>>, Stop> {
    let month = text::ascii::ident::<_, RichText>()
        .filter_map(|name: &str| match name {
            "Jan" => Some(1),
            "Feb" => Some(2),
            "Mar" => Some(3),
            _ => None,
        })
        .labelled("a month");
    month.parse(alloc, line)
}

/// An identifier of ASCII, and one of Unicode. Their types tell which is which.
pub fn identifiers<'src>() -> (
    Word<AsciiIdent, &'src str, RichText>,
    Word<UnicodeIdent, &'src str, RichText>,
) {
    (text::ascii::ident(), text::unicode::ident())
}

/// A keyword that is an identifier of ASCII, and one that is an identifier of Unicode.
pub fn keywords<'k, 'src>(
    word: &'k str,
) -> (
    Keyword<'k, AsciiIdent, &'src str, RichText>,
    Keyword<'k, UnicodeIdent, &'src str, RichText>,
) {
    (text::ascii::keyword(word), text::unicode::keyword(word))
}
