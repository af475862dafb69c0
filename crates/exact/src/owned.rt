//! A part of which the output is copied into a text.
use chumsky::extra::ParserExtra;
use chumsky::input::{Input, InputRef};
use chumsky::{IsParser, PResult};
use chumsky_parser::parser::Parser;
use std::convert::AsStr;
use std::marker::PhantomData;

/// A parser that gives, in place of a slice of the input, a text of its own with the same characters.
#[derive(Drop)]
#[derive_where(Clone, Copy; P)]
pub struct Owned<P, O> {
    pub parser: P,
    pub of: PhantomData<O>,
}

impl<I, O, E, P: IsParser<I, O, E>> IsParser<I, String, E> for Owned<P, O> {}

impl<'src, I: Input<'src>, O: AsStr + Drop, E: ParserExtra<I>, P: Parser<'src, I, O, E>> Parser<
    'src,
    I,
    String,
    E,
> for Owned<P, O> {
    ghost use Rattle.std.specs.Prelude.{◌≡◌, ⊤, string_bytes};
    ghost use Rattle.exact.specs.Owned.{Owns, owned_language, owns-ends, owned-accepts};

    ghost ready = { λ p. P.ready p.parser };

    ghost meaning = { λ p errors states. Owns (λ part text. string_bytes text ≡ O.text part) (P.meaning p.parser errors states) };

    ghost steady = { λ _. ⊥ };

    ghost same = { λ _ _ _. ⊤ };

    ghost language = { λ p. owned_language (λ part text. string_bytes text ≡ O.text part) (P.language p.parser) };

    ghost ends_after_start = { λ p. owns-ends _ _ (P.ends_after_start p.parser) };

    ghost agrees = { λ _ never. absurd never };

    ghost accepts = { λ p. owned-accepts _ _ (P.accepts p.parser) };

    fn go_emit(&self, inp: &mut InputRef<'src, '_, I, E>) -> PResult<String> {
        let part = self.parser.go_emit(inp)?;
        let text = String::from_str(inp.alloc(), part.as_str())?;
        Ok(text)
    }

    fn go_check(&self, inp: &mut InputRef<'src, '_, I, E>) -> PResult<()> {
        self.parser.go_check(inp)
    }
}
