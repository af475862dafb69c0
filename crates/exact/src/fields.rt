//! Three numbers with a mark between each two, as dates and times of day have them.
ghost use Rattle.std.specs.Prelude.{◌≡◌};
ghost use Rattle.exact.specs.ThreeFields.{fields_of};

use chumsky::combinator::{PickBy, Then, ThenIgnore};
use chumsky::extra::EmptyText;
use chumsky::prelude::*;
use chumsky::primitive::Just;
use chumsky::text::{Digits, Fixed, Word};

/// A number of so many digits.
pub type Field<'src> = PickBy<Word<Digits, &'src str, EmptyText>, &'src str, Fixed, u32>;

/// A mark.
pub type Mark<'src> = Just<char, &'src str, EmptyText>;

/// Three numbers with a mark between each two.
pub type Fields<'src> = Then<
    ThenIgnore<
        Then<ThenIgnore<Field<'src>, Mark<'src>, char>, Field<'src>, u32, u32>,
        Mark<'src>,
        char,
    >,
    Field<'src>,
    (u32, u32),
    u32,
>;

/// Numbers of these, with the mark between each two.
pub fn fields<'src>(mark: char, first: Fixed, second: Fixed, third: Fixed) -> Fields<'src>
    ensures { result ≡ fields_of mark first second third }
{
    let first = text::digits::<&str, EmptyText>(10).pick_by(first);
    let second = text::digits(10).pick_by(second);
    let third = text::digits(10).pick_by(third);
    first
        .then_ignore(just(mark))
        .then(second)
        .then_ignore(just(mark))
        .then(third)
}
