//! A caller of each builder that takes a value of a named type in the place of a closure.
ghost use Rattle.std.specs.Prelude.{⊤};

use crate::builders::ToCapital;
use chumsky::Stop;
use chumsky::combinator::{
    Configurer, Folder, RepeatedCfg, RightFolder, Tester, TryConfigurer, TryMapper,
};
use chumsky::extra::RichText;
use chumsky::pratt::{
    InfixFolder, PostfixFolder, PrefixFolder, infix_by, left, postfix_by, prefix_by,
};
use chumsky::prelude::*;
use chumsky::primitive::{ContextMapper, map_ctx_by};
use std::alloc::Global;

type Answer<T> = Result<ParseResult<T, Rich<char>>, Stop>;

/// Tests that a character is a vowel.
#[derive(Clone, Copy)]
pub struct IsVowel;

impl Tester<char> for IsVowel {
    fn passes(&self, letter: &char) -> bool {
        matches!(*letter, 'a' | 'e' | 'i' | 'o' | 'u')
    }
}

/// A vowel.
pub fn vowel(alloc: Global, text: &str) -> Answer<char> {
    any::<_, RichText>().filter_by(IsVowel).parse(alloc, text)
}

/// Makes a digit its number. Of another character it makes an error with an empty message.
#[derive(Clone, Copy)]
pub struct ToNumber {
    pub alloc: Global,
}

impl TryMapper<char, SimpleSpan, u32, Rich<char>> for ToNumber {
    fn try_apply(&self, letter: char, span: SimpleSpan) -> Result<u32, Rich<char>> {
        match letter.to_digit(10) {
            Some(number) => Ok(number),
            None => Err(Rich::custom(span, String::new(self.alloc))),
        }
    }
}

/// A digit, as its number.
pub fn number(alloc: Global, text: &str) -> Answer<u32> {
    any::<_, RichText>()
        .try_map_by(ToNumber { alloc })
        .parse(alloc, text)
}

/// Keeps the greatest character, from either side.
#[derive(Clone, Copy)]
pub struct KeepGreatest;

impl Folder<char, char> for KeepGreatest {
    fn step(&self, greatest: char, letter: char) -> char {
        greatest.max(letter)
    }
}

impl RightFolder<char, char> for KeepGreatest {
    fn step(&self, letter: char, greatest: char) -> char {
        greatest.max(letter)
    }
}

/// The greatest character of a text, or a space.
pub fn greatest(alloc: Global, text: &str) -> Answer<char> {
    any::<_, RichText>()
        .repeated()
        .fold_by(' ', KeepGreatest)
        .parse(alloc, text)
}

/// The greatest character of a text that isn't empty.
pub fn greatest_of_some(alloc: Global, text: &str) -> Answer<char> {
    any::<_, RichText>()
        .foldl_by(any().repeated(), KeepGreatest)
        .parse(alloc, text)
}

/// The greatest character of a text that ends in a `.`.
pub fn greatest_of_a_sentence(alloc: Global, text: &str) -> Answer<char> {
    none_of::<_, _, RichText>(".")
        .repeated()
        .foldr_by(just('.'), KeepGreatest)
        .parse(alloc, text)
}

/// The letters of a text as capitals.
pub fn capitals(alloc: Global, text: &str) -> Answer<String> {
    any::<_, RichText>()
        .repeated()
        .map_items_by(ToCapital)
        .collect::<String>()
        .parse(alloc, text)
}

/// What operators make of numbers; a sum that is too large is the largest number.
#[derive(Clone, Copy)]
pub struct Saturating;

impl PrefixFolder<i32, char> for Saturating {
    fn fold_prefix(&self, _minus: char, number: i32) -> i32 {
        number.saturating_neg()
    }
}

impl PostfixFolder<i32, char> for Saturating {
    fn fold_postfix(&self, number: i32, _percent: char) -> i32 {
        number / 100
    }
}

impl InfixFolder<i32, char> for Saturating {
    fn fold_infix(&self, before: i32, _plus: char, after: i32) -> i32 {
        before.saturating_add(after)
    }
}

/// A sum of digits with signs, as `1+-2`.
pub fn sum(alloc: Global, text: &str) -> Answer<i32> {
    let digit = one_of::<_, _, RichText>('1'..='9').map(|digit| digit as i32 - '0' as i32);
    digit
        .pratt((
            prefix_by(2, just('-'), Saturating),
            postfix_by(3, just('%'), Saturating),
            infix_by(left(1), just('+'), Saturating),
        ))
        .parse(alloc, text)
}

/// Takes the context as how often a list goes round.
#[derive(Clone, Copy)]
pub struct AsOften;

impl Configurer<RepeatedCfg, usize> for AsOften {
    ghost gives = { λ _ _ _ _. ⊤ };

    fn configured(&self, config: RepeatedCfg, context: &usize) -> RepeatedCfg {
        config.exactly(*context)
    }
}

impl TryConfigurer<RepeatedCfg, usize, SimpleSpan, Rich<char>> for AsOften {
    ghost gives = { λ _ _ _ _ _. ⊤ };

    fn try_configured(
        &self,
        config: RepeatedCfg,
        context: &usize,
        _span: SimpleSpan,
    ) -> Result<RepeatedCfg, Rich<char>> {
        Ok(config.exactly(*context))
    }
}

/// A digit, and then an `x` so often.
pub fn as_often(alloc: Global, text: &str) -> Answer<usize> {
    let number = one_of::<_, _, RichText>('0'..='9').map(|digit: char| digit as usize % 16);
    let all = just('x').repeated().configure_by(AsOften).count();
    number.ignore_with_ctx(all).parse(alloc, text)
}

/// The same by a configurer that may refuse.
pub fn as_often_or_refused(alloc: Global, text: &str) -> Answer<usize> {
    let number = one_of::<_, _, RichText>('0'..='9').map(|digit: char| digit as usize % 16);
    let all = just('x').repeated().try_configure_by(AsOften).count();
    number.ignore_with_ctx(all).parse(alloc, text)
}

/// Makes a context one less.
#[derive(Clone, Copy)]
pub struct OneLess;

impl ContextMapper<usize, usize> for OneLess {
    ghost gives = { λ _ _ _. ⊤ };

    fn mapped(&self, context: &usize) -> usize {
        context.saturating_sub(1)
    }
}

/// A digit, and then one `x` fewer.
pub fn one_less_often(alloc: Global, text: &str) -> Answer<usize> {
    let number = one_of::<_, _, RichText>('0'..='9').map(|digit: char| digit as usize % 16);
    let all = just::<_, _, extra::Full<Rich<char>, (), usize>>('x')
        .repeated()
        .configure_by(AsOften)
        .count();
    number
        .ignore_with_ctx(map_ctx_by(OneLess, all))
        .parse(alloc, text)
}
