//! The words of a text as tokens, and a parser over these.
ghost use Rattle.std.specs.Prelude.{◌≡◌, refl};

use chumsky::Stop;
use chumsky::extra::{ParserExtra, RichText};
use chumsky::input::Pairs;
use chumsky::prelude::*;
use chumsky::util::SameClone;
use std::alloc::Global;
use std::num::ParseIntError;

/// A token of a sum.
#[derive(Clone, Copy, Debug, PartialEq, Drop)]
pub enum Token {
    Number(u32),
    Plus,
}

/// All of a token counts.
impl SameClone for Token {
    ghost use Rattle.guide.specs.declared.tokens.Token.{Token};

    ghost Seen = { Token };

    ghost seen = { λ token. token };

    ghost same = { ⟦<Token as PartialEq>⟧.eq };

    ghost clone_same = { λ x y e. e };

    ghost eq_same = { λ x y. refl };
}

/// `Err<Rich<Token>>` over tokens, as a type of its own.
pub struct RichTokens;

impl<'src> ParserExtra<&'src [Token]> for RichTokens {
    type Error = Rich<Token>;

    type State = ();

    type Context = ();
}

/// The tokens of a text, with any spaces after each.
pub fn tokens_of(alloc: Global, text: &str) -> Result<ParseResult<Vec<Token>, Rich<char>>, Stop> {
    let number = one_of::<_, &str, RichText>('0'..='9')
        .repeated()
        .at_least(1)
        .collect::<String>()
        .from_str::<u32>()
        .filter_map(|number: Result<u32, ParseIntError>| number.ok())
        .map(|number| Token::Number(number));
    let plus = just('+').to(Token::Plus);
    number
        .or(plus)
        .then_ignore(just(' ').repeated())
        .repeated()
        .collect::<Vec<_>>()
        .parse(alloc, text)
}

/// The sum that tokens say: numbers with a plus between.
pub fn sum_of(alloc: Global, tokens: &[Token]) -> Result<ParseResult<u32, Rich<Token>>, Stop> {
    let first = select! { Token::Number(number) => number };
    let other = select! { Token::Number(number) => number };
    let others = just::<_, &[Token], RichTokens>(Token::Plus)
        .ignore_then(other)
        .repeated();
    first
        .foldl(others, |sum: u32, number: u32| sum.wrapping_add(number))
        .parse(alloc, tokens)
}

/// Tokens that are paired with their spans, as an input.
pub type TokenPairs<'src> = MappedInput<'src, (Token, SimpleSpan), Pairs>;

/// The sum that such tokens say which a lexer has paired with their spans. An error stands where the text has it, at the end of the
/// tokens at `end`.
pub fn sum_of_pairs(
    alloc: Global,
    pairs: &[(Token, SimpleSpan)],
    end: SimpleSpan,
) -> Result<ParseResult<u32, Rich<Token>>, Stop> {
    let first = select! { Token::Number(number) => number };
    let other = select! { Token::Number(number) => number };
    let others = just::<_, TokenPairs, extra::Err<Rich<Token>>>(Token::Plus)
        .ignore_then(other)
        .repeated();
    first
        .foldl(others, |sum: u32, number: u32| sum.wrapping_add(number))
        .parse(alloc, map_input::<_, Pairs>(pairs, end))
}
