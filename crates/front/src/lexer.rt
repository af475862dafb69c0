//! A text as tokens.
ghost use Rattle.std.specs.Prelude.{◌≡◌, [], IfOk, IsTrue, is_some};

use crate::token::Token;
use chumsky::combinator::{Part, part_of, run_part};
use chumsky::extra::RichText;
use chumsky::input::TextRef;
use chumsky::prelude::*;
use chumsky::{PResult, Stop};
use std::alloc::Global;
use std::num::ParseIntError;

/// A comment: what follows `//` on its line, or what stands between `/*` and `*/`. One that isn't closed is an error, and goes
/// to the end of the text.
#[derive(Clone, Copy)]
struct Comment;

impl<'src> IsParser<&'src str, (), RichText> for Comment {}

impl<'src> Part<'src, &'src str, (), RichText> for Comment {
    fn run(&self, wanted: bool, inp: &mut TextRef<'src, '_, RichText>) -> PResult<Option<()>> {
        let line = just("//").then(none_of("\n").repeated()).ignored();
        let inside = any().and_is(just("*/").not()).repeated();
        let block = just("/*")
            .ignore_then(inside)
            .ignore_then(just("*/").or_not())
            .validate(|end: Option<&str>, extra, emitter| {
                if end.is_none() {
                    emitter.emit_message(extra.alloc(), extra.span(), "this comment isn't closed");
                }
            });
        run_part(&line.or(block), wanted, inp)
    }
}

/// White space and comments.
#[derive(Clone, Copy)]
struct Gap;

impl<'src> IsParser<&'src str, (), RichText> for Gap {}

impl<'src> Part<'src, &'src str, (), RichText> for Gap {
    fn run(&self, wanted: bool, inp: &mut TextRef<'src, '_, RichText>) -> PResult<Option<()>> {
        let comments = part_of(Comment).then(text::whitespace()).repeated();
        let gap = text::whitespace().then(comments).ignored();
        run_part(&gap, wanted, inp)
    }
}

/// A number. One that is too large is an error, and stands for 0.
#[derive(Clone, Copy)]
struct Number;

impl<'src> IsParser<&'src str, u64, RichText> for Number {}

impl<'src> Part<'src, &'src str, u64, RichText> for Number {
    fn run(&self, wanted: bool, inp: &mut TextRef<'src, '_, RichText>) -> PResult<Option<u64>> {
        let number = text::digits(10).from_str::<u64>().validate(|number: Result<
            u64,
            ParseIntError,
        >, extra, emitter| match number {
            Ok(number) => number,
            Err(_) => {
                emitter.emit_message(extra.alloc(), extra.span(), "this number is too large");
                0
            }
        });
        run_part(&number, wanted, inp)
    }
}

/// A text between quotes, on one line. One that isn't closed is an error, and goes to the end of the line.
#[derive(Clone, Copy)]
struct Quotation;

impl<'src> IsParser<&'src str, Token, RichText> for Quotation {}

impl<'src> Part<'src, &'src str, Token, RichText> for Quotation {
    fn run(&self, wanted: bool, inp: &mut TextRef<'src, '_, RichText>) -> PResult<Option<Token>> {
        let quotation = just('"')
            .ignore_then(none_of("\"\n").repeated())
            .ignore_then(just('"').or_not())
            .validate(|end: Option<char>, extra, emitter| {
                if end.is_none() {
                    emitter.emit_message(extra.alloc(), extra.span(), "this text isn't closed");
                }
                Token::Text
            });
        run_part(&quotation, wanted, inp)
    }
}

/// What a word is: a name, unless it is a keyword.
fn word_of(word: &str) -> Token {
    if word == "let" {
        Token::Let
    } else {
        Token::Name
    }
}

/// A token.
#[derive(Clone, Copy)]
struct AnyToken;

impl<'src> IsParser<&'src str, Token, RichText> for AnyToken {}

impl<'src> Part<'src, &'src str, Token, RichText> for AnyToken {
    fn run(&self, wanted: bool, inp: &mut TextRef<'src, '_, RichText>) -> PResult<Option<Token>> {
        let number = part_of(Number).map(|number| Token::Number(number));
        let word = text::ascii::ident().map(word_of);
        let sign = one_of("+-*/=,;(){}").map(|sign| Token::Sign(sign));
        run_part(
            &choice((number, word, part_of(Quotation), sign)),
            wanted,
            inp,
        )
    }
}

/// A token with its span, or none of a character that no token begins with, which is an error.
#[derive(Clone, Copy)]
struct Lexeme;

impl<'src> IsParser<&'src str, Option<Spanned<Token, SimpleSpan>>, RichText> for Lexeme {}

impl<'src> Part<'src, &'src str, Option<Spanned<Token, SimpleSpan>>, RichText> for Lexeme {
    fn run(
        &self,
        wanted: bool,
        inp: &mut TextRef<'src, '_, RichText>,
    ) -> PResult<Option<Option<Spanned<Token, SimpleSpan>>>> {
        let token = part_of(AnyToken).labelled("a token").spanned().map(Some);
        let other = any().map(|_| None);
        run_part(&token.recover_with(via_parser(other)), wanted, inp)
    }
}

/// The tokens of a text. What is wrong is an error, and the rest is read.
pub fn tokens_of(
    alloc: Global,
    text: &str,
) -> Result<ParseResult<Vec<Spanned<Token, SimpleSpan>>, Rich<char>>, Stop>
    ensures { IfOk result (λ parsed. parsed.errors.items ≡ [] → IsTrue (is_some parsed.output)) }
{
    let lexemes = part_of(Lexeme).then_ignore(part_of(Gap)).repeated();
    part_of(Gap)
        .ignore_then(lexemes.flatten().collect::<Vec<_>>())
        .parse(alloc, text)
}
