//! A date, as `2026-11-23`.
ghost use Rattle.std.specs.Prelude.{◌≤◌, IfOk, IfSome};
ghost use Rattle.std.specs.Str.{chars};
ghost use Rattle.chumsky.specs.Accepted.{Exactly};
ghost use Rattle.examples.specs.Date.{IsDate};

use crate::digits::{FourDigits, TwoDigits};
use chumsky::Stop;
use chumsky::extra::RichText;
use chumsky::prelude::*;
use std::alloc::Global;

/// A date.
#[derive(Clone, Copy, Debug, PartialEq)]
pub struct Date {
    pub year: u16,
    pub month: u8,
    pub day: u8,
}

/// A date, as `2026-11-23`. How many days that month has is not asked. Of digits that make no year, month or day all are in
/// the error's span, and of any text that is no date there is no output.
pub fn parse_date(alloc: Global, text: &str) -> Result<ParseResult<Date, Rich<char>>, Stop>
    ensures exact { Exactly IsDate (chars text.now) result }
    ensures month { IfOk result (λ parsed. IfSome parsed.output (λ date. (1 ≤ date.month) × (date.month ≤ 12))) }
    ensures day { IfOk result (λ parsed. IfSome parsed.output (λ date. (1 ≤ date.day) × (date.day ≤ 31))) }
{
    let year = text::digits::<_, RichText>(10).pick_by(FourDigits);
    let month = text::digits(10).pick_by(TwoDigits { least: 1, most: 12 });
    let day = text::digits(10).pick_by(TwoDigits { least: 1, most: 31 });
    group((
        year.labelled("a year"),
        just('-'),
        month.labelled("a month"),
        just('-'),
        day.labelled("a day"),
    ))
    .map(|(year, _, month, _, day)| Date { year, month, day })
    .parse(alloc, text)
}
