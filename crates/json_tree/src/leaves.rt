//! What JSON's values are made of: strings, numbers, words and marks, with the space around them.
ghost use Rattle.std.specs.Prelude.{[], ◌∷◌, ◌||◌, ◌==◌, ⊤, codes};
ghost use Rattle.chumsky_input.specs.Wanted.{Label};

use chumsky::PResult;
use chumsky::combinator::{Part, part_of, run_part};
use chumsky::extra::RichText;
use chumsky::input::TextRef;
use chumsky::prelude::*;
use chumsky::primitive::Select;
use chumsky::text::Kind;
use chumsky::util::Plain;
use exact::json_value::Json;
use std::char;

/// Spaces, tabs and ends of lines.
#[derive(Clone, Copy)]
struct Space;

impl Kind<char> for Space {
    ghost fits = { λ _. ⊤ };

    ghost holds = { λ _ c. (c == 32) || (c == 9) || (c == 13) || (c == 10) };

    ghost wants = { λ _. Label (codes "whitespace") ∷ [] };

    fn test(&self, token: &char) -> bool {
        *token == ' ' || *token == '\t' || *token == '\r' || *token == '\n'
    }

    fn expected(&self) -> Plain<'_> {
        Plain::Label("whitespace")
    }
}

/// Four hexadecimal digits: the number that they make.
#[derive(Clone, Copy)]
struct Unit;

impl<'src> IsParser<&'src str, u32, RichText> for Unit {}

impl<'src> Part<'src, &'src str, u32, RichText> for Unit {
    fn run(&self, wanted: bool, inp: &mut TextRef<'src, '_, RichText>) -> PResult<Option<u32>> {
        let digit = any()
            .filter_map(|digit: char| digit.to_digit(16))
            .labelled("a hexadecimal digit");
        let unit = digit.repeated().exactly(4).fold(
            0,
            |unit: u32, digit: u32| unit.wrapping_mul(16).wrapping_add(digit),
        );
        run_part(&unit, wanted, inp)
    }
}

/// The character that two units name together.
fn joined(high: u32, low: u32) -> Option<char> {
    char::from_u32(0x1_0000 + (high & 0x3FF) * 0x400 + (low & 0x3FF))
}

/// Past a `\u`, four digits that name a character; or eight, with another `\u` between them, of a character past the first
/// 65,536. Half of such a pair is no character.
#[derive(Clone, Copy)]
struct Numbered;

impl<'src> IsParser<&'src str, char, RichText> for Numbered {}

impl<'src> Part<'src, &'src str, char, RichText> for Numbered {
    fn run(&self, wanted: bool, inp: &mut TextRef<'src, '_, RichText>) -> PResult<Option<char>> {
        let high = part_of(Unit).filter(|unit: &u32| matches!(*unit, 0xD800..=0xDBFF));
        let low = part_of(Unit).filter(|unit: &u32| matches!(*unit, 0xDC00..=0xDFFF));
        let pair = high
            .then_ignore(just("\\u"))
            .then(low)
            .filter_map(|(high, low): (u32, u32)| joined(high, low));
        let single = part_of(Unit).filter_map(|unit: u32| char::from_u32(unit));
        run_part(&pair.or(single), wanted, inp)
    }
}

/// The character that stands for another after a `\`.
#[derive(Clone, Copy)]
struct Escaped;

impl<'src> IsParser<&'src str, char, RichText> for Escaped {}

impl<'src> Part<'src, &'src str, char, RichText> for Escaped {
    fn run(&self, wanted: bool, inp: &mut TextRef<'src, '_, RichText>) -> PResult<Option<char>> {
        let named: Select<_, &'src str, char, RichText> = select! {
            '"' => '"',
            '\\' => '\\',
            '/' => '/',
            'b' => '\u{8}',
            'f' => '\u{c}',
            'n' => '\n',
            'r' => '\r',
            't' => '\t',
        };
        let numbered = just('u').ignore_then(part_of(Numbered));
        run_part(&named.or(numbered).labelled("an escape"), wanted, inp)
    }
}

/// A string between quotes, as the text that it stands for.
#[derive(Clone, Copy)]
pub struct Quoted;

impl<'src> IsParser<&'src str, String, RichText> for Quoted {}

impl<'src> Part<'src, &'src str, String, RichText> for Quoted {
    fn run(&self, wanted: bool, inp: &mut TextRef<'src, '_, RichText>) -> PResult<Option<String>> {
        let plain = any()
            .filter(|c: &char| *c >= ' ' && *c != '"' && *c != '\\')
            .labelled("a character");
        let text = plain
            .or(just('\\').ignore_then(part_of(Escaped)))
            .repeated()
            .collect::<String>()
            .delimited_by(just('"'), just('"'));
        run_part(&text, wanted, inp)
    }
}

/// A number, as its text.
#[derive(Clone, Copy)]
struct Number;

impl<'src> IsParser<&'src str, String, RichText> for Number {}

impl<'src> Part<'src, &'src str, String, RichText> for Number {
    fn run(&self, wanted: bool, inp: &mut TextRef<'src, '_, RichText>) -> PResult<Option<String>> {
        let fraction = just('.').ignore_then(text::digits(10));
        let sign = one_of("+-").or_not();
        let exponent = one_of("eE").then(sign).ignore_then(text::digits(10));
        let number = group((
            just('-').or_not(),
            text::int(10),
            fraction.or_not(),
            exponent.or_not(),
        ));
        let all = any().repeated().collect::<String>();
        run_part(&all.nested_in(number.to_slice()), wanted, inp)
    }
}

/// A value that is no list and no object, with the space around it.
#[derive(Clone, Copy)]
pub struct Scalar;

impl<'src> IsParser<&'src str, Json, RichText> for Scalar {}

impl<'src> Part<'src, &'src str, Json, RichText> for Scalar {
    fn run(&self, wanted: bool, inp: &mut TextRef<'src, '_, RichText>) -> PResult<Option<Json>> {
        let scalar = choice((
            part_of(Quoted).map(Json::String).labelled("a string"),
            part_of(Number).map(Json::Number).labelled("a number"),
            just("null").map(|_| Json::Null),
            just("true").map(|_| Json::Bool(true)),
            just("false").map(|_| Json::Bool(false)),
        ));
        run_part(&scalar.padded_with(Space), wanted, inp)
    }
}

/// The name of a member and its colon, with the space around them.
#[derive(Clone, Copy)]
pub struct Name;

impl<'src> IsParser<&'src str, String, RichText> for Name {}

impl<'src> Part<'src, &'src str, String, RichText> for Name {
    fn run(&self, wanted: bool, inp: &mut TextRef<'src, '_, RichText>) -> PResult<Option<String>> {
        let name = part_of(Quoted).labelled("a string").padded_with(Space);
        run_part(&name.then_ignore(part_of(Mark(':'))), wanted, inp)
    }
}

/// A comma, a colon or a bracket, with the space around it.
#[derive(Clone, Copy)]
pub struct Mark(pub char);

impl<'src> IsParser<&'src str, char, RichText> for Mark {}

impl<'src> Part<'src, &'src str, char, RichText> for Mark {
    fn run(&self, wanted: bool, inp: &mut TextRef<'src, '_, RichText>) -> PResult<Option<char>> {
        run_part(&just(self.0).padded_with(Space), wanted, inp)
    }
}

/// Looks whether an item ends here: before a comma, a closing bracket or the end of the text. Else it is told that a comma or this
/// bracket was expected.
#[derive(Clone, Copy)]
pub struct ItemEnd(pub char);

impl<'src> IsParser<&'src str, (), RichText> for ItemEnd {}

impl<'src> Part<'src, &'src str, (), RichText> for ItemEnd {
    fn run(&self, wanted: bool, inp: &mut TextRef<'src, '_, RichText>) -> PResult<Option<()>> {
        let expected = if self.0 == ']' {
            "',' or ']'"
        } else {
            "',' or '}'"
        };
        let end = none_of(",]}").not().labelled(expected);
        run_part(&end, wanted, inp)
    }
}

/// What stands between two quotes, whatever follows a backslash in it.
#[derive(Clone, Copy)]
struct AnyString;

impl<'src> IsParser<&'src str, (), RichText> for AnyString {}

impl<'src> Part<'src, &'src str, (), RichText> for AnyString {
    fn run(&self, wanted: bool, inp: &mut TextRef<'src, '_, RichText>) -> PResult<Option<()>> {
        let inside = none_of("\"\\").or(just('\\').ignore_then(any())).repeated();
        let string = inside.delimited_by(just('"'), just('"'));
        run_part(&string, wanted, inp)
    }
}

/// An item that can't be read: what stands before a comma or a closing bracket, or nothing before a comma. Lists, objects and
/// strings in it are taken whole, lists and objects by their brackets alone, of which one in a string within them is one too;
/// where one in it isn't closed, there is no such item, so that no text is gone through once for each of its brackets.
#[derive(Clone, Copy)]
pub struct WrongItem;

impl<'src> IsParser<&'src str, (), RichText> for WrongItem {}

impl<'src> Part<'src, &'src str, (), RichText> for WrongItem {
    fn run(&self, wanted: bool, inp: &mut TextRef<'src, '_, RichText>) -> PResult<Option<()>> {
        let list = nested_delimiters('[', ']', [('{', '}')], |_: SimpleSpan| ());
        let object = nested_delimiters('{', '}', [('[', ']')], |_: SimpleSpan| ());
        let other = none_of(",[]{}\"").ignored();
        let one = choice((list, object, part_of(AnyString), other)).labelled("a value");
        let wrong = one.repeated().at_least(1).or(just(',').rewind().ignored());
        run_part(&wrong, wanted, inp)
    }
}
