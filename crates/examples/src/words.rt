//! Words that stand for values, texts without what is around them, and values that may be wanting.
ghost use Rattle.std.specs.Prelude.{◌≡◌};
ghost use Rattle.std.specs.Str.{trim};

use chumsky::combinator::{Mapper, To};
use chumsky::extra::RichText;
use chumsky::prelude::*;
use chumsky::primitive::Just;

/// A word that stands for a value.
pub type Word<'src, V> = To<Just<&'static str, &'src str, RichText>, &'static str, V>;

/// A word that stands for a value.
pub fn word<'src, V: Clone>(text: &'static str, value: V) -> Word<'src, V>
    ensures text { result.parser.seq ≡ text.entry }
    ensures value { result.value ≡ value }
{
    just(text).to(value)
}

/// The same text without the blanks around it.
#[derive(Clone, Copy)]
pub struct Trimmed;

impl<'src> Mapper<&'src str, &'src str> for Trimmed {
    ghost gives = { λ _ text trimmed. trimmed.now ≡ trim text.now };

    fn apply(&self, text: &'src str) -> &'src str {
        text.trim()
    }
}

/// A value that is there, beside those that a strategy stands for with `None`.
#[derive(Clone, Copy)]
pub struct ToSome;

impl<O> Mapper<O, Option<O>> for ToSome {
    fn apply(&self, value: O) -> Option<O> {
        Some(value)
    }
}
