//! The leaves, each with the blanks around it.
ghost use Rattle.std.specs.Prelude.{◌≡◌, ◌<◌, ◌^◌, IfErr, OkIff, length, pos};
ghost use Rattle.std.specs.Str.Parse.{AllDigits, digits_value};

use crate::Wrong;
use chumsky::PResult;
use chumsky::combinator::{Part, run_part};
use chumsky::extra::RichText;
use chumsky::input::TextRef;
use chumsky::prelude::*;
use chumsky::span::Spanned;

/// What something comes to, or what can't be worked out in it.
pub(crate) type Worked = Result<i64, Wrong>;

/// A number.
#[derive(Clone, Copy)]
pub(crate) struct Number;

impl<'src> IsParser<&'src str, Worked, RichText> for Number {}

impl<'src> Part<'src, &'src str, Worked, RichText> for Number {
    fn run(&self, wanted: bool, inp: &mut TextRef<'src, '_, RichText>) -> PResult<Option<Worked>> {
        let number = text::digits(10)
            .spanned()
            .map(|digits: Spanned<&str, SimpleSpan>| read(digits));
        run_part(&number.labelled("a number").padded(), wanted, inp)
    }
}

/// The number that digits make, where an `i64` holds it.
fn read(digits: Spanned<&str, SimpleSpan>) -> Worked
    ensures number { AllDigits 10 digits.entry.inner.now → OkIff result ((0 < length digits.entry.inner.now) × (digits_value 10 digits.entry.inner.now < 2 ^ 63)) (pos (digits_value 10 digits.entry.inner.now)) }
    ensures at_the_digits { IfErr result (λ wrong. wrong.span ≡ digits.entry.span) }
{
    match digits.inner.parse::<i64>() {
        Ok(number) => Ok(number),
        Err(_) => Err(Wrong {
            message: "number too large",
            span: digits.span,
        }),
    }
}

/// One of some signs.
#[derive(Clone, Copy)]
pub(crate) struct Sign(pub(crate) &'static str);

impl<'src> IsParser<&'src str, Spanned<char, SimpleSpan>, RichText> for Sign {}

impl<'src> Part<'src, &'src str, Spanned<char, SimpleSpan>, RichText> for Sign {
    fn run(
        &self,
        wanted: bool,
        inp: &mut TextRef<'src, '_, RichText>,
    ) -> PResult<Option<Spanned<char, SimpleSpan>>> {
        run_part(&one_of(self.0).spanned().padded(), wanted, inp)
    }
}
