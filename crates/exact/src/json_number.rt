//! Numbers of JSON, as they are written.
ghost use Rattle.std.specs.Prelude.{◌≡◌, [], ◌∷◌};
ghost use Rattle.std.specs.Str.{chars};
ghost use Rattle.chumsky.specs.Accepted.{Exactly};
ghost use Rattle.exact.specs.JsonNumbers.{HoldsNumber};

use crate::owned::Owned;
use chumsky::combinator::{IgnoreThen, Or, OrNot, ThenIgnore, ToSlice};
use chumsky::error::Error;
use chumsky::extra::EmptyText;
use chumsky::input::{Input, TextRef};
use chumsky::inspector::Inspector;
use chumsky::prelude::*;
use chumsky::primitive::{Just, OneOf};
use chumsky::text::{Digits, Int, Word};
use chumsky::{IsParser, PResult, Stop};
use chumsky_parser::parser::Parser;
use std::alloc::Global;
use std::marker::PhantomData;

/// The parser of one character.
pub type This<'src> = Just<char, &'src str, EmptyText>;

/// The parser of one of two characters.
pub type OneOfTwo<'src> = OneOf<[char; 2], &'src str, EmptyText>;

/// The parser of digits.
pub type DigitsParser<'src> = Word<Digits, &'src str, EmptyText>;

/// The parser of a point and digits.
pub type FractionParser<'src> = IgnoreThen<This<'src>, DigitsParser<'src>, char>;

/// The parser of a letter, a sign or none, and digits.
pub type ExponentParser<'src> = IgnoreThen<
    IgnoreThen<OneOfTwo<'src>, OrNot<OneOfTwo<'src>>, char>,
    DigitsParser<'src>,
    Option<char>,
>;

/// The parser of a fraction and an exponent or none, or of an exponent alone.
pub type MoreParser<'src> = Or<
    ThenIgnore<FractionParser<'src>, OrNot<ExponentParser<'src>>, Option<&'src str>>,
    ExponentParser<'src>,
>;

/// The parser of a minus or none, and digits.
pub type WholeParser<'src> = IgnoreThen<
    OrNot<This<'src>>,
    Word<Int, &'src str, EmptyText>,
    Option<char>,
>;

/// The parser of a number.
pub type NumberParser<'src> = Owned<
    ToSlice<ThenIgnore<WholeParser<'src>, OrNot<MoreParser<'src>>, Option<&'src str>>, &'src str>,
    &'src str,
>;

/// The parser of a point and digits.
fn fraction<'src>() -> FractionParser<'src>
    ensures point { result.first.seq ≡ 46 }
    ensures radix { result.second.kind.radix ≡ 10 }
{
    just('.').ignore_then(text::digits(10))
}

/// The parser of a letter, a sign or none, and digits.
fn exponent<'src>() -> ExponentParser<'src>
    ensures letter { result.first.first.seq ≡ 101 ∷ 69 ∷ [] }
    ensures sign { result.first.second.parser.seq ≡ 43 ∷ 45 ∷ [] }
    ensures radix { result.second.kind.radix ≡ 10 }
{
    let sign = one_of(['+', '-']).or_not();
    one_of(['e', 'E'])
        .ignore_then(sign)
        .ignore_then(text::digits(10))
}

/// The parser of a number. Of a sequence it is known alone what may follow its last part, so what may be left out at the end is
/// one part.
fn number_parser<'src>() -> NumberParser<'src>
    ensures minus { result.parser.parser.first.first.parser.seq ≡ 45 }
    ensures radix { result.parser.parser.first.second.kind.radix ≡ 10 }
    ensures point { result.parser.parser.second.parser.first.first.first.seq ≡ 46 }
    ensures fraction { result.parser.parser.second.parser.first.first.second.kind.radix ≡ 10 }
    ensures letter { result.parser.parser.second.parser.first.second.parser.first.first.seq ≡ 101 ∷ 69 ∷ [] }
    ensures sign { result.parser.parser.second.parser.first.second.parser.first.second.parser.seq ≡ 43 ∷ 45 ∷ [] }
    ensures exponent { result.parser.parser.second.parser.first.second.parser.second.kind.radix ≡ 10 }
    ensures letter_alone { result.parser.parser.second.parser.second.first.first.seq ≡ 101 ∷ 69 ∷ [] }
    ensures sign_alone { result.parser.parser.second.parser.second.first.second.parser.seq ≡ 43 ∷ 45 ∷ [] }
    ensures exponent_alone { result.parser.parser.second.parser.second.second.kind.radix ≡ 10 }
{
    let whole = just('-').or_not().ignore_then(text::int(10));
    let pointed = fraction().then_ignore(exponent().or_not());
    let more = pointed.or(exponent());
    let number = whole.then_ignore(more.or_not());
    Owned {
        parser: number.to_slice(),
        of: PhantomData,
    }
}

/// The parser of numbers of JSON: a parser with a name, so that what holds it is checked by its name alone.
#[derive(Clone, Copy, Drop)]
pub struct Number;

impl<'src> IsParser<&'src str, String, EmptyText> for Number {}

impl<'src> Parser<'src, &'src str, String, EmptyText> for Number {
    ghost use Rattle.std.specs.Prelude.{⊤};
    ghost use Rattle.exact.specs.JsonNumbersLanguage.{number_meaning, number_language};
    ghost use Rattle.exact.specs.Lawfully.{number-lawful};

    ghost ready = { λ _. ⊤ };

    ghost meaning = { λ _ errors states. number_meaning ⟦<&'src str as Input<'src>>⟧ errors states };

    ghost steady = { λ _. ⊥ };

    ghost same = { λ _ _ _. ⊤ };

    ghost language = { λ _. number_language };

    ghost ends_after_start = { λ _. (number-lawful ⟦<&'src str as Input<'src>>⟧ ⟦<EmptyErr as Error<&'src str>>⟧ ⟦<() as Inspector<&'src str>>⟧).ends };

    ghost agrees = { λ _ never. absurd never };

    ghost accepts = { λ _. (number-lawful ⟦<&'src str as Input<'src>>⟧ ⟦<EmptyErr as Error<&'src str>>⟧ ⟦<() as Inspector<&'src str>>⟧).accepts };

    fn go_emit(&self, inp: &mut TextRef<'src, '_, EmptyText>) -> PResult<String> {
        number_parser().go_emit(inp)
    }

    fn go_check(&self, inp: &mut TextRef<'src, '_, EmptyText>) -> PResult<()> {
        number_parser().go_check(inp)
    }
}

/// Reads a number of JSON, as `-12.50e+3`, and gives it as it is written; of any other text there is no output. No zero stands
/// before another digit, and digits stand before a point, after it, and in an exponent.
pub fn parse_number_text(alloc: Global, text: &str) -> Result<ParseResult<String, EmptyErr>, Stop>
    ensures { Exactly HoldsNumber (chars text.now) result }
{
    Number.parse(alloc, text)
}
