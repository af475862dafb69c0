//! A number that has to be small enough.
ghost use Rattle.std.specs.Prelude.{◌<◌, IfOk, IfSome};

use crate::mapping::digit;
use chumsky::Stop;
use chumsky::combinator::Picker;
use chumsky::extra::RichText;
use chumsky::prelude::*;
use std::alloc::Global;
use std::num::ParseIntError;

/// A minute of an hour: two digits, below 60.
pub fn minute(alloc: Global, text: &str) -> Result<ParseResult<u8, Rich<char>>, Stop> {
    let digits = one_of::<_, _, RichText>('0'..='9').then(one_of('0'..='9'));
    digits
        .map(|(tens, ones)| digit(tens) * 10 + digit(ones))
        .filter(|minute| *minute < 60)
        .parse(alloc, text)
}

/// Picks what two digits make, below 60.
#[derive(Clone, Copy)]
pub struct BelowSixty;

impl Picker<(char, char), u8> for BelowSixty {
    ghost gives = { λ _ _ picked. IfSome picked (λ minute. minute < 60) };

    fn pick(&self, digits: (char, char)) -> Option<u8> {
        let (tens, ones) = digits;
        match digit(tens) * 10 + digit(ones) {
            minute if minute < 60 => Some(minute),
            _ => None,
        }
    }
}

/// How long a call may be, as `45m`.
pub fn minutes(alloc: Global, text: &str) -> Result<ParseResult<u8, Rich<char>>, Stop>
    ensures below { IfOk result (λ parsed. IfSome parsed.output (λ minutes. minutes < 60)) }
{
    one_of::<_, _, RichText>('0'..='9')
        .then(one_of('0'..='9'))
        .filter_map_by(BelowSixty)
        .then_ignore(just('m'))
        .parse(alloc, text)
}

/// A port, as `8080`.
pub fn port(alloc: Global, text: &str) -> Result<ParseResult<u16, Rich<char>>, Stop> {
    one_of::<_, _, RichText>('0'..='9')
        .repeated()
        .at_least(1)
        .collect::<String>()
        .from_str::<u16>()
        .filter_map(|port: Result<u16, ParseIntError>| port.ok())
        .parse(alloc, text)
}

/// A day of a month, as `31`.
pub fn day_of_month(alloc: Global, text: &str) -> Result<ParseResult<u8, Rich<char>>, Stop> {
    let number = text::digits::<_, RichText>(10).from_str::<u8>();
    number
        .try_map_in(|number: Result<u8, ParseIntError>, span, alloc| match number {
            Ok(day) if day >= 1 && day <= 31 => Ok(Ok(day)),
            _ => Ok(Err(Rich::custom_in(alloc, span, "no such day")?)),
        })
        .parse(alloc, text)
}

/// A share of a hundred. A larger number is an error, and counts as a hundred.
pub fn share(alloc: Global, text: &str) -> Result<ParseResult<u8, Rich<char>>, Stop> {
    let number = text::int::<_, RichText>(10).from_str::<u8>();
    number
        .validate(|number: Result<u8, ParseIntError>, extra, emitter| match number {
            Ok(share) if share <= 100 => share,
            _ => {
                emitter.emit_message(extra.alloc(), extra.span(), "a share is at most 100");
                100
            }
        })
        .parse(alloc, text)
}
