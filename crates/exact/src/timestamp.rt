//! Moments, as RFC 3339 has them.
ghost use Rattle.std.specs.Prelude.{◌≡◌};
ghost use Rattle.std.specs.Str.{chars};
ghost use Rattle.chumsky.specs.Accepted.{Exactly, NeverRefuses};
ghost use Rattle.exact.specs.Timestamp.{IsClock, IsTimestamp, signed_of};

use crate::date::{Date, FullDate};
use crate::fields::{Field, Fields, Mark, fields};
use chumsky::combinator::{
    ExactPart, IgnoreThen, Map, Mapper, OfExactPart, Or, OrNot, Then, ThenIgnore, To, exact_part,
    run_part,
};
use chumsky::extra::EmptyText;
use chumsky::input::TextRef;
use chumsky::prelude::*;
use chumsky::text::{Digits, Fixed, Word};
use chumsky::{PResult, Stop};
use chumsky_parser::parser::Parser;
use std::alloc::Global;

/// A time of day. A second of 60 is a leap second.
#[derive(Clone, Copy, Debug, PartialEq)]
pub struct Clock {
    pub hour: u32,
    pub minute: u32,
    pub second: u32,
}

/// How far a local time is ahead of UTC or behind it, in hours and minutes.
#[derive(Clone, Copy, Debug, PartialEq)]
pub enum Offset {
    Utc,
    Ahead(u32, u32),
    Behind(u32, u32),
}

/// A moment: a date, a time of day, the digits of a fraction of a second, if there are any, and how far both are from UTC.
#[derive(Clone, Copy, Debug, Drop)]
pub struct Timestamp<'src> {
    pub date: Date,
    pub clock: Clock,
    pub fraction: Option<&'src str>,
    pub offset: Offset,
}

/// Makes a time of day of its numbers.
#[derive(Clone, Copy, Drop)]
pub struct ToClock;

impl Mapper<((u32, u32), u32), Clock> for ToClock {
    ghost use Rattle.exact.specs.Timestamp.{clock_of};

    ghost gives = { λ _ numbers clock. clock ≡ clock_of numbers };

    fn apply(&self, numbers: ((u32, u32), u32)) -> Clock {
        let ((hour, minute), second) = numbers;
        Clock {
            hour,
            minute,
            second,
        }
    }
}

/// Makes an offset of its hours and minutes.
#[derive(Clone, Copy, Drop)]
pub struct ToOffset {
    pub is_ahead: bool,
}

impl Mapper<(u32, u32), Offset> for ToOffset {
    ghost use Rattle.exact.specs.Timestamp.{offset_of};

    ghost gives = { λ f numbers offset. offset ≡ offset_of f.is_ahead numbers };

    fn apply(&self, numbers: (u32, u32)) -> Offset {
        let (hours, minutes) = numbers;
        if self.is_ahead {
            Offset::Ahead(hours, minutes)
        } else {
            Offset::Behind(hours, minutes)
        }
    }
}

/// What is read of a moment.
pub type Read<'src> = (((Date, Clock), Option<&'src str>), Offset);

/// Makes a moment of what is read.
#[derive(Clone, Copy, Drop)]
pub struct ToTimestamp;

impl<'src> Mapper<Read<'src>, Timestamp<'src>> for ToTimestamp {
    ghost use Rattle.exact.specs.Timestamp.{timestamp_of};

    ghost gives = { λ _ read moment. moment ≡ timestamp_of read };

    fn apply(&self, read: Read<'src>) -> Timestamp<'src> {
        let (((date, clock), fraction), offset) = read;
        Timestamp {
            date,
            clock,
            fraction,
            offset,
        }
    }
}

/// The parser in `TimeOfDay`.
pub type ClockOf<'src> = Map<Fields<'src>, ((u32, u32), u32), ToClock, Clock>;

/// A time of day as `10:28:35`, as a part of a grammar.
#[derive(Clone, Copy, Drop)]
pub struct TimeOfDay;

impl<'src> IsParser<&'src str, Clock, EmptyText> for TimeOfDay {}

impl<'src> ExactPart<'src, &'src str, Clock, EmptyText> for TimeOfDay {
    ghost use Rattle.std.specs.Prelude.{codes};
    ghost use Rattle.std.proofs.Common.{refl, sym, subst};
    ghost use Rattle.chumsky_combinator.specs.Built.{map_of};
    ghost use Rattle.chumsky_descent.specs.Body.{told};
    ghost use Rattle.chumsky_descent.specs.ExactPart.{intended, intended-lawful};
    ghost use Rattle.chumsky_descent.specs.Lawful.{map-lawful, then-lawful, then_ignore-lawful, fixed-lawful, just-lawful};
    ghost use Rattle.chumsky_exact.specs.InTurn.{as_defined, as_parsed};
    ghost use Rattle.chumsky_exact.specs.Lexemes.{fixed, picked};
    ghost use Rattle.chumsky_exact.specs.Pieces.{unambiguous};
    ghost use Rattle.exact.specs.ThreeFields.{fields_of, nested, heard, read, written};
    ghost use Rattle.exact.specs.Timestamp.{clocks, hours, minutes, seconds};

    ghost told = { λ _. intended clocks (told ⟦<ClockOf<'src> as Parser<'src, &'src str, Clock, EmptyText>>⟧ (map_of (fields_of 58 hours minutes seconds) (record {}))) };

    ghost lawful = { λ _. intended-lawful
        (map-lawful (then-lawful (then_ignore-lawful (then-lawful (then_ignore-lawful
        (fixed-lawful 2 0 23) (just-lawful (codes ":") _ _ _ _ _ _))
        (fixed-lawful 2 0 59)) (just-lawful (codes ":") _ _ _ _ _ _))
        (fixed-lawful 2 0 60)))
        clocks {depth = 0} (record {
          said = refl;
          moves = λ e. refl;
          only = as_defined (read 58 hours minutes seconds);
          given = λ w clock s. subst (IsClock w) (sym s.2) (as_defined (heard 58 hours minutes seconds s.0) w s.1);
          each = as_parsed (written 58 hours minutes seconds);
          follows = λ rest f t. f;
          fails = λ ts i. absurd i;
          unambiguous = unambiguous (nested 58 hours minutes seconds (fixed (codes ":")) (picked 2 0 23) (picked 2 0 59) (picked 2 0 60)) refl;
          refused = λ k l. tt;
        }) };

    fn run(&self, wanted: bool, inp: &mut TextRef<'src, '_, EmptyText>) -> PResult<Option<Clock>> {
        let hour = Fixed {
            digits: 2,
            least: 0,
            most: 23,
        };
        let minute = Fixed {
            digits: 2,
            least: 0,
            most: 59,
        };
        let second = Fixed {
            digits: 2,
            least: 0,
            most: 60,
        };
        let clock = fields(':', hour, minute, second).map_by(ToClock);
        run_part(&clock, wanted, inp)
    }
}

/// The parser in `Fraction`.
pub type FractionOf<'src> = OrNot<IgnoreThen<Mark<'src>, Word<Digits, &'src str, EmptyText>, char>>;

/// Nothing, or a full stop and digits, as a part of a grammar.
#[derive(Clone, Copy, Drop)]
pub struct Fraction;

impl<'src> IsParser<&'src str, Option<&'src str>, EmptyText> for Fraction {}

impl<'src> ExactPart<'src, &'src str, Option<&'src str>, EmptyText> for Fraction {
    ghost use Rattle.std.specs.Prelude.{codes};
    ghost use Rattle.std.proofs.Common.{refl};
    ghost use Rattle.chumsky_combinator.specs.Built.{ignore_then_of};
    ghost use Rattle.chumsky_descent.specs.Body.{told};
    ghost use Rattle.chumsky_descent.specs.ExactPart.{intended, intended-lawful};
    ghost use Rattle.chumsky_descent.specs.Lawful.{ignore_then-lawful, or_not-lawful, just-lawful, word-lawful};
    ghost use Rattle.chumsky_exact.specs.Builders.{or_not_of, just_of, digits_of};
    ghost use Rattle.exact.specs.Timestamp.{fractions};
    ghost use Rattle.exact.specs.TimestampLaws.{fraction-is, fraction-text, text-fraction, fraction-ended};

    ghost told = { λ _. intended fractions (told ⟦<FractionOf<'src> as Parser<'src, &'src str, Option<&'src str>, EmptyText>>⟧ (or_not_of (ignore_then_of (just_of 46) (digits_of 10)))) };

    ghost lawful = { λ _. intended-lawful
        (or_not-lawful (ignore_then-lawful (just-lawful (codes ".") _ _ _ _ _ _) word-lawful))
        fractions {depth = 0} (record {
          said = refl;
          moves = λ e. e;
          only = fraction-text;
          given = fraction-is;
          each = text-fraction;
          follows = fraction-ended _;
          fails = λ ts i. absurd i;
          unambiguous = (tt, tt, λ w rest h f. tt);
          refused = λ k l. tt;
        }) };

    fn run(
        &self,
        wanted: bool,
        inp: &mut TextRef<'src, '_, EmptyText>,
    ) -> PResult<Option<Option<&'src str>>> {
        let digits = text::digits::<&str, EmptyText>(10);
        run_part(&just('.').ignore_then(digits).or_not(), wanted, inp)
    }
}

/// The parser in `HourMinute`.
pub type HourMinuteOf<'src> = Then<
    ThenIgnore<Field<'src>, Mark<'src>, char>,
    Field<'src>,
    u32,
    u32,
>;

/// Hours and minutes, as `02:00`, as a part of a grammar.
#[derive(Clone, Copy, Drop)]
pub struct HourMinute;

impl<'src> IsParser<&'src str, (u32, u32), EmptyText> for HourMinute {}

impl<'src> ExactPart<'src, &'src str, (u32, u32), EmptyText> for HourMinute {
    ghost use Rattle.std.specs.Prelude.{codes};
    ghost use Rattle.std.proofs.Common.{refl};
    ghost use Rattle.chumsky_descent.specs.Body.{told};
    ghost use Rattle.chumsky_descent.specs.ExactPart.{intended, intended-lawful};
    ghost use Rattle.chumsky_descent.specs.Lawful.{then-lawful, then_ignore-lawful, fixed-lawful, just-lawful};
    ghost use Rattle.chumsky_exact.specs.InTurn.{as_defined, as_parsed};
    ghost use Rattle.chumsky_exact.specs.Lexemes.{fixed, picked};
    ghost use Rattle.chumsky_exact.specs.Pieces.{unambiguous};
    ghost use Rattle.exact.specs.Timestamp.{hour_minutes, hour_minute_of};
    ghost use Rattle.exact.specs.TimestampLaws.{hour_minute_parts, hour_minute_heard, hour_minute_read, hour_minute_told};

    ghost told = { λ _. intended hour_minutes (told ⟦<HourMinuteOf<'src> as Parser<'src, &'src str, (u32, u32), EmptyText>>⟧ hour_minute_of) };

    ghost lawful = { λ _. intended-lawful
        (then-lawful (then_ignore-lawful (fixed-lawful 2 0 23) (just-lawful (codes ":") _ _ _ _ _ _)) (fixed-lawful 2 0 59))
        hour_minutes {depth = 0} (record {
          said = refl;
          moves = λ e. refl;
          only = as_defined hour_minute_read;
          given = λ w n s. as_defined (hour_minute_heard n) w s;
          each = as_parsed hour_minute_told;
          follows = λ rest f t. f;
          fails = λ ts i. absurd i;
          unambiguous = unambiguous (hour_minute_parts (picked 2 0 23) (fixed (codes ":")) (picked 2 0 59)) refl;
          refused = λ k l. tt;
        }) };

    fn run(
        &self,
        wanted: bool,
        inp: &mut TextRef<'src, '_, EmptyText>,
    ) -> PResult<Option<(u32, u32)>> {
        let hours = text::digits::<&str, EmptyText>(10).pick_by(Fixed {
            digits: 2,
            least: 0,
            most: 23,
        });
        let minutes = text::digits(10).pick_by(Fixed {
            digits: 2,
            least: 0,
            most: 59,
        });
        run_part(&hours.then_ignore(just(':')).then(minutes), wanted, inp)
    }
}

/// A sign, hours and minutes, as `+02:00`.
pub type Signed<'src> = Map<
    IgnoreThen<Mark<'src>, OfExactPart<HourMinute>, char>,
    (u32, u32),
    ToOffset,
    Offset,
>;

/// The parser in `FromUtc`.
pub type OffsetOf<'src> = Or<
    Or<To<Or<Mark<'src>, Mark<'src>>, char, Offset>, Signed<'src>>,
    Signed<'src>,
>;

/// A sign, and hours and minutes, ahead of UTC or behind it.
fn signed<'src>(sign: char, is_ahead: bool) -> Signed<'src>
    ensures { result ≡ signed_of sign is_ahead }
{
    just(sign)
        .ignore_then(exact_part(HourMinute))
        .map_by(ToOffset { is_ahead })
}

/// `Z`, or a sign, hours and minutes, as a part of a grammar.
#[derive(Clone, Copy, Drop)]
pub struct FromUtc;

impl<'src> IsParser<&'src str, Offset, EmptyText> for FromUtc {}

impl<'src> ExactPart<'src, &'src str, Offset, EmptyText> for FromUtc {
    ghost use Rattle.std.specs.Prelude.{codes};
    ghost use Rattle.std.proofs.Common.{refl, true, false};
    ghost use Rattle.chumsky_combinator.specs.Built.{or_of};
    ghost use Rattle.chumsky_descent.specs.Body.{told};
    ghost use Rattle.chumsky_descent.specs.ExactPart.{intended, part-lawful, intended-lawful};
    ghost use Rattle.chumsky_descent.specs.Lawful.{map-lawful, to-lawful, or-lawful, ignore_then-lawful, just-lawful};
    ghost use Rattle.chumsky_exact.specs.Builders.{to_of, just_of};
    ghost use Rattle.exact.specs.contracts.timestamp.HourMinuteExactPartRefStrTuple2U32U32EmptyText.TheImpl.Laws as hour_minute;
    ghost use Rattle.exact.specs.declared.timestamp.Offset.TheVariants.{Utc};
    ghost use Rattle.exact.specs.Timestamp.{offsets};
    ghost use Rattle.exact.specs.TimestampLaws.{offset-is, offset-text, text-offset, no_large, no_letter, no_plus};

    ghost told = { λ _. intended offsets (told ⟦<OffsetOf<'src> as Parser<'src, &'src str, Offset, EmptyText>>⟧
        (or_of (or_of (to_of (or_of (just_of 90) (just_of 122)) Utc) (signed_of 43 true)) (signed_of 45 false))) };

    ghost lawful = { λ _. intended-lawful
        (or-lawful (or-lawful
        (to-lawful (or-lawful (just-lawful (codes "Z") _ _ _ _ _ _) (just-lawful (codes "z") _ _ _ _ _ _)))
        (map-lawful (ignore_then-lawful (just-lawful (codes "+") _ _ _ _ _ _) (part-lawful (hour_minute.lawful.lawful (record {}))))))
        (map-lawful (ignore_then-lawful (just-lawful (codes "-") _ _ _ _ _ _) (part-lawful (hour_minute.lawful.lawful (record {}))))))
        offsets {depth = 0} (record {
          said = refl;
          moves = λ e. refl;
          only = offset-text;
          given = offset-is;
          each = text-offset;
          follows = λ rest f. (((tt, tt), f), f);
          fails = λ ts i. absurd i;
          unambiguous = (
            ((tt, tt, λ w rest h f. no_large 90 122 refl w rest h), (tt, tt, λ w rest h f. tt), λ w rest h f. no_letter w rest h),
            (tt, tt, λ w rest h f. tt),
            λ w rest h f. no_plus _ w rest h,
          );
          refused = λ k l. tt;
        }) };

    fn run(&self, wanted: bool, inp: &mut TextRef<'src, '_, EmptyText>) -> PResult<Option<Offset>> {
        let utc = just('Z').or(just('z')).to(Offset::Utc);
        let offset = utc.or(signed('+', true)).or(signed('-', false));
        run_part(&offset, wanted, inp)
    }
}

/// The parser in `TimeMark`.
pub type TimeMarkOf<'src> = Or<Mark<'src>, Mark<'src>>;

/// The `T` between a date and a time of day, large or small, as a part of a grammar.
#[derive(Clone, Copy, Drop)]
pub struct TimeMark;

impl<'src> IsParser<&'src str, char, EmptyText> for TimeMark {}

impl<'src> ExactPart<'src, &'src str, char, EmptyText> for TimeMark {
    ghost use Rattle.std.specs.Prelude.{codes};
    ghost use Rattle.std.proofs.Common.{refl};
    ghost use Rattle.chumsky_combinator.specs.Built.{or_of};
    ghost use Rattle.chumsky_descent.specs.Body.{told};
    ghost use Rattle.chumsky_descent.specs.ExactPart.{intended, intended-lawful};
    ghost use Rattle.chumsky_descent.specs.Lawful.{or-lawful, just-lawful};
    ghost use Rattle.chumsky_exact.specs.Builders.{just_of};
    ghost use Rattle.exact.specs.Timestamp.{time_marks};
    ghost use Rattle.exact.specs.TimestampLaws.{letter-is, is-letter, no_large};

    ghost told = { λ _. intended time_marks (told ⟦<TimeMarkOf<'src> as Parser<'src, &'src str, char, EmptyText>>⟧ (or_of (just_of 84) (just_of 116))) };

    ghost lawful = { λ _. intended-lawful
        (or-lawful (just-lawful (codes "T") _ _ _ _ _ _) (just-lawful (codes "t") _ _ _ _ _ _))
        time_marks {depth = 0} (record {
          said = refl;
          moves = λ e. refl;
          only = letter-is (codes "T") (codes "t");
          given = λ w mark s. tt;
          each = is-letter (codes "T") (codes "t");
          follows = λ rest f. (tt, tt);
          fails = λ ts i. absurd i;
          unambiguous = (tt, tt, λ w rest h f. no_large 84 116 refl w rest h);
          refused = λ k l. tt;
        }) };

    fn run(&self, wanted: bool, inp: &mut TextRef<'src, '_, EmptyText>) -> PResult<Option<char>> {
        run_part(&just('T').or(just('t')), wanted, inp)
    }
}

/// The moment that a text such as `2026-12-01T10:28:35.5+02:00` is, just as the grammar of RFC 3339 has it, with an hour below 24, a
/// minute below 60 and a second up to 60. What the RFC asks besides of days and leap seconds is not looked at: each month may have
/// 31 days, and each minute a second of 60, so `2026-02-31T10:28:60Z` is a moment. `-00:00`, an offset that isn't known, is
/// `Behind(0, 0)`. Of any other text there is no output. A run over a moment is never refused.
pub fn parse_timestamp<'src>(
    alloc: Global,
    text: &'src str,
) -> Result<ParseResult<Timestamp<'src>, EmptyErr>, Stop>
    ensures exact { Exactly IsTimestamp (chars text.now) result }
    ensures answered { NeverRefuses IsTimestamp (chars text.now) result }
{
    let day = exact_part(FullDate).then_ignore(exact_part(TimeMark));
    let local = day.then(exact_part(TimeOfDay)).then(exact_part(Fraction));
    let moment = local.then(exact_part(FromUtc));
    moment.map_by(ToTimestamp).parse(alloc, text)
}
