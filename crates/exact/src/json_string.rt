//! Strings of JSON: plain characters and escapes between quotes.
ghost use Rattle.std.specs.Prelude.{◌≡◌, ◌<◌, ◌^◌, [], ◌∷◌, None, IfSome};
ghost use Rattle.std.specs.Str.{chars};
ghost use Rattle.chumsky.specs.Accepted.{Exactly};
ghost use Rattle.exact.specs.JsonStrings.{unit_of, HoldsString};
ghost use Rattle.exact.specs.JsonPicks.{digits_of};

use chumsky::combinator::{
    Collect, DelimitedBy, IgnoreThen, Map, Mapper, Or, PickBy, Picker, Repeated, Then, WordPicker,
};
use chumsky::extra::EmptyText;
use chumsky::input::TextRef;
use chumsky::prelude::*;
use chumsky::primitive::{Any, Just};
use chumsky::{IsParser, PResult, Stop};
use chumsky_parser::parser::Parser;
use std::alloc::Global;
use std::char;
use std::marker::PhantomData;

/// The parser of any character.
pub type One<'src> = Any<&'src str, EmptyText>;

/// The parser of some characters, as they stand.
pub type Text<'src, T> = Just<T, &'src str, EmptyText>;

/// Four characters.
pub type Digits = (((char, char), char), char);

/// The parser of any four characters.
pub type FourParser<'src> = Then<
    Then<Then<One<'src>, One<'src>, char, char>, One<'src>, (char, char), char>,
    One<'src>,
    ((char, char), char),
    char,
>;

/// Picks a character that stands for itself.
#[derive(Clone, Copy, Drop)]
pub struct Plain;

impl Picker<char, char> for Plain {
    ghost use Rattle.std.specs.Prelude.{◌≡◌};
    ghost use Rattle.exact.specs.JsonPicks.{plain_of};

    ghost gives = { λ _ character picked. picked ≡ plain_of character };

    fn pick(&self, character: char) -> Option<char> {
        if character < ' ' || character == '"' || character == '\\' {
            return None;
        }
        Some(character)
    }
}

impl<'src> WordPicker<'src, &'src str, char, char, EmptyText, One<'src>> for Plain {
    ghost use Rattle.exact.specs.JsonPicks.{plain_of, of_one};
    ghost use Rattle.exact.specs.JsonPicksLaws.{one-by_word};

    ghost picks = { λ _. of_one plain_of };

    ghost by_word = { λ f p w v x s g. one-by_word plain_of w v x s g };
}

/// Picks the character that a letter names after a backslash.
#[derive(Clone, Copy, Drop)]
pub struct Letter;

impl Picker<char, char> for Letter {
    ghost use Rattle.std.specs.Prelude.{◌≡◌};
    ghost use Rattle.exact.specs.JsonStrings.{escaped};

    ghost gives = { λ _ letter picked. picked ≡ escaped letter };

    fn pick(&self, letter: char) -> Option<char> {
        match letter {
            '"' | '\\' | '/' => Some(letter),
            'b' => Some('\u{8}'),
            'f' => Some('\u{c}'),
            'n' => Some('\n'),
            'r' => Some('\r'),
            't' => Some('\t'),
            _ => None,
        }
    }
}

impl<'src> WordPicker<'src, &'src str, char, char, EmptyText, One<'src>> for Letter {
    ghost use Rattle.exact.specs.JsonStrings.{escaped};
    ghost use Rattle.exact.specs.JsonPicks.{of_one};
    ghost use Rattle.exact.specs.JsonPicksLaws.{one-by_word};

    ghost picks = { λ _. of_one escaped };

    ghost by_word = { λ f p w v x s g. one-by_word escaped w v x s g };
}

/// The unit of UTF-16 that four hexadecimal digits write.
fn unit(digits: Digits) -> Option<u32>
    ensures value { result ≡ unit_of (digits_of digits) }
    ensures bound { IfSome result (λ unit. unit < 2 ^ 16) }
{
    let (((first, second), third), fourth) = digits;
    let first = first.to_digit(16)?;
    let second = second.to_digit(16)?;
    let third = third.to_digit(16)?;
    let fourth = fourth.to_digit(16)?;
    Some(((first * 16 + second) * 16 + third) * 16 + fourth)
}

/// Picks the character of a unit that is no half of a pair.
#[derive(Clone, Copy, Drop)]
pub struct Lone;

impl Picker<Digits, char> for Lone {
    ghost use Rattle.std.specs.Prelude.{◌≡◌};
    ghost use Rattle.exact.specs.JsonPicks.{digits_of, lone_of};

    ghost gives = { λ _ digits picked. picked ≡ lone_of (digits_of digits) };

    fn pick(&self, digits: Digits) -> Option<char> {
        match unit(digits) {
            Some(unit) => char::from_u32(unit),
            None => None,
        }
    }
}

impl<'src> WordPicker<'src, &'src str, Digits, char, EmptyText, FourParser<'src>> for Lone {
    ghost use Rattle.exact.specs.JsonPicks.{lone_of};
    ghost use Rattle.exact.specs.JsonPicksLaws.{four-by_word};

    ghost picks = { λ _. lone_of };

    ghost by_word = { λ f p w v x s g. four-by_word lone_of w v x s g };
}

/// Picks a unit that begins a pair.
#[derive(Clone, Copy, Drop)]
pub struct High;

impl Picker<Digits, u32> for High {
    ghost use Rattle.std.specs.Prelude.{◌≡◌};
    ghost use Rattle.exact.specs.JsonPicks.{digits_of, high_of};

    ghost gives = { λ _ digits picked. picked ≡ high_of (digits_of digits) };

    fn pick(&self, digits: Digits) -> Option<u32> {
        match unit(digits) {
            Some(unit) => {
                if 0xD800 <= unit && unit < 0xDC00 {
                    Some(unit)
                } else {
                    None
                }
            }
            None => None,
        }
    }
}

impl<'src> WordPicker<'src, &'src str, Digits, u32, EmptyText, FourParser<'src>> for High {
    ghost use Rattle.exact.specs.JsonPicks.{high_of};
    ghost use Rattle.exact.specs.JsonPicksLaws.{four-by_word};

    ghost picks = { λ _. high_of };

    ghost by_word = { λ f p w v x s g. four-by_word high_of w v x s g };
}

/// Picks a unit that ends a pair.
#[derive(Clone, Copy, Drop)]
pub struct Low;

impl Picker<Digits, u32> for Low {
    ghost use Rattle.std.specs.Prelude.{◌≡◌};
    ghost use Rattle.exact.specs.JsonPicks.{digits_of, low_of};

    ghost gives = { λ _ digits picked. picked ≡ low_of (digits_of digits) };

    fn pick(&self, digits: Digits) -> Option<u32> {
        match unit(digits) {
            Some(unit) => {
                if 0xDC00 <= unit && unit < 0xE000 {
                    Some(unit)
                } else {
                    None
                }
            }
            None => None,
        }
    }
}

impl<'src> WordPicker<'src, &'src str, Digits, u32, EmptyText, FourParser<'src>> for Low {
    ghost use Rattle.exact.specs.JsonPicks.{low_of};
    ghost use Rattle.exact.specs.JsonPicksLaws.{four-by_word};

    ghost picks = { λ _. low_of };

    ghost by_word = { λ f p w v x s g. four-by_word low_of w v x s g };
}

/// Makes the character of a pair.
#[derive(Clone, Copy, Drop)]
pub struct ToPair;

impl Mapper<(u32, u32), char> for ToPair {
    ghost use Rattle.exact.specs.JsonPicks.{JoinsPair};

    ghost gives = { λ _ units character. JoinsPair units.0 units.1 character };

    fn apply(&self, units: (u32, u32)) -> char {
        let (high, low) = units;
        if high < 0xD800 || 0xDC00 <= high || low < 0xDC00 || 0xE000 <= low {
            return char::REPLACEMENT_CHARACTER;
        }
        let code = 0x1_0000 + (high - 0xD800) * 0x400 + (low - 0xDC00);
        match char::from_u32(code) {
            Some(character) => character,
            None => char::REPLACEMENT_CHARACTER,
        }
    }
}

/// The parser of a character that stands for itself.
pub type PlainParser<'src> = PickBy<One<'src>, char, Plain, char>;

/// The parser of an escape by a letter.
pub type LetterParser<'src> = IgnoreThen<
    Text<'src, char>,
    PickBy<One<'src>, char, Letter, char>,
    char,
>;

/// The parser of a unit that a picker takes, as `\u0041`.
pub type UnitParser<'src, F, U> = IgnoreThen<
    Text<'src, [char; 2]>,
    PickBy<FourParser<'src>, Digits, F, U>,
    [char; 2],
>;

/// The parser of an escape by a pair.
pub type PairParser<'src> = Map<
    Then<UnitParser<'src, High, u32>, UnitParser<'src, Low, u32>, u32, u32>,
    (u32, u32),
    ToPair,
    char,
>;

/// The parser of what stands for a character of a string.
pub type PieceParser<'src> = Or<PlainParser<'src>, Or<LetterParser<'src>, Or<ByUnit, ByPair>>>;

/// The parser of a unit that a picker takes.
fn unit_by<'src, F: Picker<Digits, U>, U>(picker: F) -> UnitParser<'src, F, U>
    ensures beginning { result.first.seq ≡ 92 ∷ 117 ∷ [] }
    ensures picker { result.second.picked.picker ≡ picker }
{
    let four = any().then(any()).then(any()).then(any());
    just(['\\', 'u']).ignore_then(four.pick_by(picker))
}

/// The parser of an escape by a pair.
fn pair_parser<'src>() -> PairParser<'src>
    ensures high { result.parser.first.first.seq ≡ 92 ∷ 117 ∷ [] }
    ensures low { result.parser.second.first.seq ≡ 92 ∷ 117 ∷ [] }
{
    unit_by(High).then(unit_by(Low)).map_by(ToPair)
}

/// An escape by a unit that is no half of a pair: a parser with a name, as the two below, so that what holds it is checked by
/// its name alone.
#[derive(Clone, Copy, Drop)]
pub struct ByUnit;

impl<'src> IsParser<&'src str, char, EmptyText> for ByUnit {}

impl<'src> Parser<'src, &'src str, char, EmptyText> for ByUnit {
    ghost use Rattle.std.specs.Prelude.{[], ◌∷◌, ⊤};
    ghost use Rattle.exact.specs.JsonPicks.{lone_of};
    ghost use Rattle.exact.specs.JsonLawful.{unit-lawful};

    ghost ready = { λ _. ⊤ };

    ghost meaning = { λ _. ⟦<UnitParser<'src, Lone, char> as Parser<'src, &'src str, char, EmptyText>>⟧.meaning (record {
      first = record { seq = 92 ∷ 117 ∷ []; of = record {} };
      second = record {
        picked = record {
          parser = record {
            first = record { first = record { first = record { of = record {} }; second = record { of = record {} }; of = record {} }; second = record { of = record {} }; of = record {} };
            second = record { of = record {} };
            of = record {};
          };
          picker = record {};
          of = record {};
        };
      };
      of = record {};
    }) };

    ghost steady = { λ _. ⊥ };

    ghost same = { λ _ _ _. ⊤ };

    ghost language = { λ _. ⟦<UnitParser<'src, Lone, char> as Parser<'src, &'src str, char, EmptyText>>⟧.language (record {
      first = record { seq = 92 ∷ 117 ∷ []; of = record {} };
      second = record {
        picked = record {
          parser = record {
            first = record { first = record { first = record { of = record {} }; second = record { of = record {} }; of = record {} }; second = record { of = record {} }; of = record {} };
            second = record { of = record {} };
            of = record {};
          };
          picker = record {};
          of = record {};
        };
      };
      of = record {};
    }) };

    ghost ends_after_start = { λ _. (unit-lawful lone_of).ends };

    ghost agrees = { λ _ never. absurd never };

    ghost accepts = { λ _. (unit-lawful lone_of).accepts };

    fn go_emit(&self, inp: &mut TextRef<'src, '_, EmptyText>) -> PResult<char> {
        unit_by(Lone).go_emit(inp)
    }

    fn go_check(&self, inp: &mut TextRef<'src, '_, EmptyText>) -> PResult<()> {
        unit_by(Lone).go_check(inp)
    }
}

/// An escape by a pair of surrogates.
#[derive(Clone, Copy, Drop)]
pub struct ByPair;

impl<'src> IsParser<&'src str, char, EmptyText> for ByPair {}

impl<'src> Parser<'src, &'src str, char, EmptyText> for ByPair {
    ghost use Rattle.std.specs.Prelude.{[], ◌∷◌, ⊤};
    ghost use Rattle.exact.specs.JsonLawful.{pair-lawful};

    ghost ready = { λ _. ⊤ };

    ghost meaning = { λ _. ⟦<PairParser<'src> as Parser<'src, &'src str, char, EmptyText>>⟧.meaning (record {
      parser = record {
        first = record {
          first = record { seq = 92 ∷ 117 ∷ []; of = record {} };
          second = record {
            picked = record {
              parser = record {
                first = record { first = record { first = record { of = record {} }; second = record { of = record {} }; of = record {} }; second = record { of = record {} }; of = record {} };
                second = record { of = record {} };
                of = record {};
              };
              picker = record {};
              of = record {};
            };
          };
          of = record {};
        };
        second = record {
          first = record { seq = 92 ∷ 117 ∷ []; of = record {} };
          second = record {
            picked = record {
              parser = record {
                first = record { first = record { first = record { of = record {} }; second = record { of = record {} }; of = record {} }; second = record { of = record {} }; of = record {} };
                second = record { of = record {} };
                of = record {};
              };
              picker = record {};
              of = record {};
            };
          };
          of = record {};
        };
        of = record {};
      };
      mapper = record {};
      of = record {};
    }) };

    ghost steady = { λ _. ⊥ };

    ghost same = { λ _ _ _. ⊤ };

    ghost language = { λ _. ⟦<PairParser<'src> as Parser<'src, &'src str, char, EmptyText>>⟧.language (record {
      parser = record {
        first = record {
          first = record { seq = 92 ∷ 117 ∷ []; of = record {} };
          second = record {
            picked = record {
              parser = record {
                first = record { first = record { first = record { of = record {} }; second = record { of = record {} }; of = record {} }; second = record { of = record {} }; of = record {} };
                second = record { of = record {} };
                of = record {};
              };
              picker = record {};
              of = record {};
            };
          };
          of = record {};
        };
        second = record {
          first = record { seq = 92 ∷ 117 ∷ []; of = record {} };
          second = record {
            picked = record {
              parser = record {
                first = record { first = record { first = record { of = record {} }; second = record { of = record {} }; of = record {} }; second = record { of = record {} }; of = record {} };
                second = record { of = record {} };
                of = record {};
              };
              picker = record {};
              of = record {};
            };
          };
          of = record {};
        };
        of = record {};
      };
      mapper = record {};
      of = record {};
    }) };

    ghost ends_after_start = { λ _. (pair-lawful).ends };

    ghost agrees = { λ _ never. absurd never };

    ghost accepts = { λ _. (pair-lawful).accepts };

    fn go_emit(&self, inp: &mut TextRef<'src, '_, EmptyText>) -> PResult<char> {
        pair_parser().go_emit(inp)
    }

    fn go_check(&self, inp: &mut TextRef<'src, '_, EmptyText>) -> PResult<()> {
        pair_parser().go_check(inp)
    }
}

/// The parser of what stands for a character of a string.
fn piece_parser<'src>() -> PieceParser<'src>
    ensures { result.second.first.first.seq ≡ 92 }
{
    let letter = just('\\').ignore_then(any().pick_by(Letter));
    any().pick_by(Plain).or(letter.or(ByUnit.or(ByPair)))
}

/// What stands for a character of a string: a parser with a name, so that the check of what holds it reads its name alone.
#[derive(Clone, Copy, Drop)]
pub struct Piece;

impl<'src> IsParser<&'src str, char, EmptyText> for Piece {}

impl<'src> Parser<'src, &'src str, char, EmptyText> for Piece {
    ghost use Rattle.std.specs.Prelude.{[], ◌∷◌, ⊤};
    ghost use Rattle.exact.specs.JsonLawful.{piece-lawful};

    ghost ready = { λ _. ⊤ };

    ghost meaning = { λ _. ⟦<PieceParser<'src> as Parser<'src, &'src str, char, EmptyText>>⟧.meaning (record {
      first = record { picked = record { parser = record { of = record {} }; picker = record {}; of = record {} } };
      second = record {
        first = record {
          first = record { seq = 92; of = record {} };
          second = record { picked = record { parser = record { of = record {} }; picker = record {}; of = record {} } };
          of = record {};
        };
        second = record { first = record {}; second = record {} };
      };
    }) };

    ghost steady = { λ _. ⊥ };

    ghost same = { λ _ _ _. ⊤ };

    ghost language = { λ _. ⟦<PieceParser<'src> as Parser<'src, &'src str, char, EmptyText>>⟧.language (record {
      first = record { picked = record { parser = record { of = record {} }; picker = record {}; of = record {} } };
      second = record {
        first = record {
          first = record { seq = 92; of = record {} };
          second = record { picked = record { parser = record { of = record {} }; picker = record {}; of = record {} } };
          of = record {};
        };
        second = record { first = record {}; second = record {} };
      };
    }) };

    ghost ends_after_start = { λ _. (piece-lawful).ends };

    ghost agrees = { λ _ never. absurd never };

    ghost accepts = { λ _. (piece-lawful).accepts };

    fn go_emit(&self, inp: &mut TextRef<'src, '_, EmptyText>) -> PResult<char> {
        piece_parser().go_emit(inp)
    }

    fn go_check(&self, inp: &mut TextRef<'src, '_, EmptyText>) -> PResult<()> {
        piece_parser().go_check(inp)
    }
}

/// The parser of what a parser of characters takes, again and again, between quotes.
pub type QuotedParser<'src, C> = DelimitedBy<
    Collect<Repeated<C, char, &'src str, EmptyText>, char, String>,
    Text<'src, char>,
    Text<'src, char>,
    char,
    char,
>;

/// A string, of what a parser of its characters takes.
#[derive(Drop)]
pub struct StringOf<C> {
    pub piece: C,
}

impl<'src, C> IsParser<&'src str, String, EmptyText> for StringOf<C> {}

impl<'src, C: Parser<'src, &'src str, char, EmptyText>> Parser<'src, &'src str, String, EmptyText>
    for StringOf<C> {
    ghost use Rattle.std.specs.Prelude.{None, ⊤};
    ghost use Rattle.chumsky_parser.specs.IgnoringLaws.{between-ends};
    ghost use Rattle.chumsky_parser.specs.SequenceLanguage.{between-accepts};
    ghost use Rattle.chumsky_items.specs.ConsumersLaws.{collects-ends};
    ghost use Rattle.chumsky_items.specs.ListLanguage.{collects-accepts};
    ghost use Rattle.chumsky_items.specs.RepeatingLaws.{repeats-end};
    ghost use Rattle.chumsky_items.specs.RepeatedLanguage.{repeated-accepts};
    ghost use Rattle.exact.specs.JsonLawful.{letter-lawful};

    ghost ready = { λ p. C.ready p.piece };

    ghost meaning = { λ p. ⟦<QuotedParser<'src, C> as Parser<'src, &'src str, String, EmptyText>>⟧.meaning (record {
      parser = record { parser = record { parser = p.piece; at_least = 0; at_most = None; of = record {} }; of = record {} };
      opening = record { seq = 34; of = record {} };
      closing = record { seq = 34; of = record {} };
      of = record {};
    }) };

    ghost steady = { λ _. ⊥ };

    ghost same = { λ _ _ _. ⊤ };

    ghost language = { λ p. ⟦<QuotedParser<'src, C> as Parser<'src, &'src str, String, EmptyText>>⟧.language (record {
      parser = record { parser = record { parser = p.piece; at_least = 0; at_most = None; of = record {} }; of = record {} };
      opening = record { seq = 34; of = record {} };
      closing = record { seq = 34; of = record {} };
      of = record {};
    }) };

    ghost ends_after_start = { λ p. between-ends _ _ _ (letter-lawful 34).ends (collects-ends _ _ _ _ (repeats-end _ _ _ _ _ _ _ (C.ends_after_start p.piece))) (letter-lawful 34).ends };

    ghost agrees = { λ _ never. absurd never };

    ghost accepts = { λ p. between-accepts _ _ _ (letter-lawful 34).ends (collects-ends _ _ _ _ (repeats-end _ _ _ _ _ _ _ (C.ends_after_start p.piece))) (letter-lawful 34).ends
        (letter-lawful 34).accepts (collects-accepts _ _ _ _ _ (repeated-accepts _ _ _ _ _ _ _ _ (C.ends_after_start p.piece) (C.accepts p.piece))) (letter-lawful 34).accepts };

    fn go_emit(&self, inp: &mut TextRef<'src, '_, EmptyText>) -> PResult<String> {
        quoted(&self.piece).go_emit(inp)
    }

    fn go_check(&self, inp: &mut TextRef<'src, '_, EmptyText>) -> PResult<()> {
        quoted(&self.piece).go_check(inp)
    }
}

/// The parser of what a parser of characters takes, again and again, between quotes.
fn quoted<'src, C>(piece: C) -> QuotedParser<'src, C>
    ensures piece { result.parser.parser.parser ≡ piece }
    ensures at_least { result.parser.parser.at_least ≡ 0 }
    ensures at_most { result.parser.parser.at_most ≡ None }
    ensures opening { result.opening.seq ≡ 34 }
    ensures closing { result.closing.seq ≡ 34 }
{
    let pieces = Repeated {
        parser: piece,
        at_least: 0,
        at_most: None,
        of: PhantomData,
    };
    let string = pieces.collect::<String>();
    string.delimited_by(just('"'), just('"'))
}

/// Reads a string of JSON, as `"a\u0062\n"`, and gives its characters: plain ones, escapes by a letter and by a number, and pairs of
/// surrogates, of which half is none. Of any other text there is no output.
pub fn parse_string(alloc: Global, text: &str) -> Result<ParseResult<String, EmptyErr>, Stop>
    ensures { Exactly HoldsString (chars text.now) result }
{
    StringOf { piece: Piece }.parse(alloc, text)
}
