//! Mapping by a value of a type of one's own.
ghost use Rattle.std.specs.Prelude.{◌≤◌, IfOk, IfSome};

use chumsky::Stop;
use chumsky::combinator::{Map, Mapper, Then};
use chumsky::extra::RichText;
use chumsky::prelude::*;
use chumsky::primitive::OneOf;
use std::alloc::Global;
use std::ops::RangeInclusive;

/// What a digit counts. Any other character counts nothing.
pub fn digit(character: char) -> u8
    ensures { result ≤ 9 }
{
    match character {
        '0'..='9' => character as u8 - b'0',
        _ => 0,
    }
}

/// Makes a number of two digits.
#[derive(Clone, Copy)]
pub struct Number;

impl Mapper<(char, char), u8> for Number {
    ghost gives = { λ _ _ number. number ≤ 99 };

    fn apply(&self, digits: (char, char)) -> u8 {
        let (tens, ones) = digits;
        digit(tens) * 10 + digit(ones)
    }
}

pub type Digit<'src> = OneOf<RangeInclusive<char>, &'src str, RichText>;

pub type TwoDigits<'src> = Map<
    Then<Digit<'src>, Digit<'src>, char, char>,
    (char, char),
    Number,
    u8,
>;

/// Two digits, as a number.
pub fn two_digits<'src>() -> TwoDigits<'src> {
    one_of('0'..='9').then(one_of('0'..='9')).map_by(Number)
}

/// A share of a hundred, as `07%`.
pub fn percent(alloc: Global, text: &str) -> Result<ParseResult<u8, Rich<char>>, Stop>
    ensures at_most { IfOk result (λ parsed. IfSome parsed.output (λ percent. percent ≤ 99)) }
{
    two_digits().then_ignore(just('%')).parse(alloc, text)
}
