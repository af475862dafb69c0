//! Parts of a grammar, each known to the rest by a type of its own.
ghost use Rattle.std.specs.Prelude.{◌≤◌, IfOk, IfSome};
ghost use Rattle.chumsky.specs.Values.{GivesOnly};

use crate::mapping::{TwoDigits, digit, two_digits};
use chumsky::combinator::{OfPart, Or, Part, Then, ThenIgnore, To, part_of, run_part};
use chumsky::extra::RichText;
use chumsky::input::TextRef;
use chumsky::laws::steady::part_is_steady;
use chumsky::prelude::*;
use chumsky::primitive::Just;
use chumsky::{PResult, Stop};
use std::alloc::Global;

/// A price in cents, as `4.50`. Nothing is said of what it gives.
#[derive(Clone, Copy)]
pub struct Price;

impl<'src> IsParser<&'src str, u16, RichText> for Price {}

impl<'src> Part<'src, &'src str, u16, RichText> for Price {
    fn run(&self, wanted: bool, inp: &mut TextRef<'src, '_, RichText>) -> PResult<Option<u16>> {
        let price = one_of('0'..='9')
            .then_ignore(just('.'))
            .then(two_digits())
            .map(|(euros, cents)| digit(euros) as u16 * 100 + cents as u16);
        run_part(&price, wanted, inp)
    }
}

/// An hour, from `00` to `23`.
#[derive(Clone, Copy)]
pub struct Hour;

impl<'src> IsParser<&'src str, u8, RichText> for Hour {}

impl<'src> Part<'src, &'src str, u8, RichText> for Hour {
    ghost means = { λ _ _ _. GivesOnly (λ hour. hour ≤ 23) };

    fn run(&self, wanted: bool, inp: &mut TextRef<'src, '_, RichText>) -> PResult<Option<u8>> {
        let hour = one_of('0'..='1')
            .then(one_of('0'..='9'))
            .or(just('2').then(one_of('0'..='3')))
            .map(|(tens, ones)| (digit(tens) * 10 + digit(ones)).min(23));
        run_part(&hour, wanted, inp)
    }
}

type Colon<'src> = Just<char, &'src str, RichText>;

type HourAndMinute<'src> = Then<
    ThenIgnore<OfPart<Hour>, Colon<'src>, char>,
    TwoDigits<'src>,
    u8,
    u8,
>;

/// An hour and a minute, as `07:30`.
#[derive(Drop)]
pub struct Time<'src> {
    inside: HourAndMinute<'src>,
}

impl<'src> IsParser<&'src str, (u8, u8), RichText> for Time<'src> {}

impl<'src> Part<'src, &'src str, (u8, u8), RichText> for Time<'src> {
    ghost means = { λ time. ⟦<HourAndMinute<'src> as Parser<'src, &'src str, (u8, u8), RichText>>⟧.meaning time.inside };

    fn run(
        &self,
        wanted: bool,
        inp: &mut TextRef<'src, '_, RichText>,
    ) -> PResult<Option<(u8, u8)>> {
        run_part(&self.inside, wanted, inp)
    }
}

/// An hour and a minute, as `07:30`.
pub fn time_of_day<'src>() -> OfPart<Time<'src>> {
    part_of(Time {
        inside: part_of(Hour).then_ignore(just(':')).then(two_digits()),
    })
}

/// When a ticket is valid, and its price, as `07:30 4.50`.
pub fn ticket(alloc: Global, text: &str) -> Result<ParseResult<((u8, u8), u16), Rich<char>>, Stop>
    ensures hour { IfOk result (λ parsed. IfSome parsed.output (λ ticket. ticket.0.0 ≤ 23)) }
{
    time_of_day()
        .then_ignore(just(' '))
        .then(part_of(Price))
        .parse(alloc, text)
}

type Word<'src> = To<Just<&'static str, &'src str, RichText>, &'static str, bool>;

type EitherWord<'src> = Or<Word<'src>, Word<'src>>;

/// `on` or `off`.
#[derive(Drop)]
pub struct Switch<'src> {
    words: EitherWord<'src>,
}

impl<'src> IsParser<&'src str, bool, RichText> for Switch<'src> {}

impl<'src> Part<'src, &'src str, bool, RichText> for Switch<'src> {
    ghost means = { λ switch. ⟦<EitherWord<'src> as Parser<'src, &'src str, bool, RichText>>⟧.meaning switch.words };

    ghost alike = { λ switch. ⟦<EitherWord<'src> as Parser<'src, &'src str, bool, RichText>>⟧.same switch.words };

    fn run(&self, wanted: bool, inp: &mut TextRef<'src, '_, RichText>) -> PResult<Option<bool>> {
        run_part(&self.words, wanted, inp)
    }
}

/// `on` or `off`.
pub fn on_or_off<'src>() -> OfPart<Switch<'src>> {
    part_of(Switch {
        words: just("on").to(true).or(just("off").to(false)),
    })
}

/// A switch is steady: what is known of the parser in it is known of the part.
pub fn switch_is_steady<'src>(switch: &OfPart<Switch<'src>>)
    ensures { ⟦<OfPart<Switch<'src>> as Parser<'src, &'src str, bool, RichText>>⟧.steady switch.now }
{
    part_is_steady(switch, &switch.part.words);
}
