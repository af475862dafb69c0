//! A date.
ghost use Rattle.std.specs.Str.{chars};
ghost use Rattle.chumsky.specs.Accepted.{Exactly, NeverRefuses};
ghost use Rattle.exact.specs.Date.{IsDate};

use crate::fields::{Fields, fields};
use chumsky::combinator::{ExactPart, Map, Mapper, exact_part, run_part};
use chumsky::extra::EmptyText;
use chumsky::input::TextRef;
use chumsky::prelude::*;
use chumsky::text::Fixed;
use chumsky::{PResult, Stop};
use chumsky_parser::parser::Parser;
use std::alloc::Global;

/// A day of a month of a year.
#[derive(Clone, Copy, Debug, PartialEq)]
pub struct Date {
    pub year: u32,
    pub month: u32,
    pub day: u32,
}

/// Makes a date of its numbers.
#[derive(Clone, Copy, Drop)]
pub struct ToDate;

impl Mapper<((u32, u32), u32), Date> for ToDate {
    ghost use Rattle.std.specs.Prelude.{◌≡◌};
    ghost use Rattle.exact.specs.Date.{date_of};

    ghost gives = { λ _ numbers date. date ≡ date_of numbers };

    fn apply(&self, numbers: ((u32, u32), u32)) -> Date {
        let ((year, month), day) = numbers;
        Date { year, month, day }
    }
}

/// The parser in `FullDate`.
pub type DateOf<'src> = Map<Fields<'src>, ((u32, u32), u32), ToDate, Date>;

/// A date such as `2026-11-27`, where the month is from 1 to 12 and the day from 1 to 31, as a part of a grammar.
#[derive(Clone, Copy, Drop)]
pub struct FullDate;

impl<'src> IsParser<&'src str, Date, EmptyText> for FullDate {}

impl<'src> ExactPart<'src, &'src str, Date, EmptyText> for FullDate {
    ghost use Rattle.std.specs.Prelude.{codes};
    ghost use Rattle.std.proofs.Common.{refl, sym, subst};
    ghost use Rattle.chumsky_combinator.specs.Built.{map_of};
    ghost use Rattle.chumsky_descent.specs.Body.{told};
    ghost use Rattle.chumsky_descent.specs.ExactPart.{intended, intended-lawful};
    ghost use Rattle.chumsky_descent.specs.Lawful.{map-lawful, then-lawful, then_ignore-lawful, fixed-lawful, just-lawful};
    ghost use Rattle.chumsky_exact.specs.InTurn.{as_defined, as_parsed};
    ghost use Rattle.chumsky_exact.specs.Lexemes.{fixed, picked};
    ghost use Rattle.chumsky_exact.specs.Pieces.{unambiguous};
    ghost use Rattle.exact.specs.Date.{dates, years, months, days};
    ghost use Rattle.exact.specs.ThreeFields.{fields_of, nested, heard, read, written};

    ghost told = { λ _. intended dates (told ⟦<DateOf<'src> as Parser<'src, &'src str, Date, EmptyText>>⟧ (map_of (fields_of 45 years months days) (record {}))) };

    ghost lawful = { λ _. intended-lawful
        (map-lawful (then-lawful (then_ignore-lawful (then-lawful (then_ignore-lawful
        (fixed-lawful 4 0 9999) (just-lawful (codes "-") _ _ _ _ _ _))
        (fixed-lawful 2 1 12)) (just-lawful (codes "-") _ _ _ _ _ _))
        (fixed-lawful 2 1 31)))
        dates {depth = 0} (record {
          said = refl;
          moves = λ e. refl;
          only = as_defined (read 45 years months days);
          given = λ w date s. subst (IsDate w) (sym s.2) (as_defined (heard 45 years months days s.0) w s.1);
          each = as_parsed (written 45 years months days);
          follows = λ rest f t. f;
          fails = λ ts i. absurd i;
          unambiguous = unambiguous (nested 45 years months days (fixed (codes "-")) (picked 4 0 9999) (picked 2 1 12) (picked 2 1 31)) refl;
          refused = λ k l. tt;
        }) };

    fn run(&self, wanted: bool, inp: &mut TextRef<'src, '_, EmptyText>) -> PResult<Option<Date>> {
        let year = Fixed {
            digits: 4,
            least: 0,
            most: 9999,
        };
        let month = Fixed {
            digits: 2,
            least: 1,
            most: 12,
        };
        let day = Fixed {
            digits: 2,
            least: 1,
            most: 31,
        };
        let date = fields('-', year, month, day).map_by(ToDate);
        run_part(&date, wanted, inp)
    }
}

/// The date that a text such as `2026-11-27` is, where the month is from 1 to 12 and the day from 1 to 31; of any other text
/// there is no output. A run over a date is never refused.
pub fn parse_date(alloc: Global, text: &str) -> Result<ParseResult<Date, EmptyErr>, Stop>
    ensures exact { Exactly IsDate (chars text.now) result }
    ensures answered { NeverRefuses IsDate (chars text.now) result }
{
    exact_part(FullDate).parse(alloc, text)
}
