//! A parser without its output.
ghost use Rattle.std.specs.Prelude.{◌≡◌, false};

use chumsky_input::extra::ParserExtra;
use chumsky_input::input::Input;
use chumsky_input::input_ref::InputRef;
use chumsky_input::stop::PResult;
use chumsky_parser::moving::Moving;
use chumsky_parser::parser::{IsParser, Parser};
use std::marker::PhantomData;

/// A parser without its output. See `ignored`.
#[derive(Drop)]
#[derive_where(Clone, Copy; A)]
pub struct Ignored<A, O> {
    pub parser: A,
    pub of: PhantomData<O>,
}

impl<I, O, E, A: IsParser<I, O, E>> IsParser<I, (), E> for Ignored<A, O> {}

impl<'src, I: Input<'src>, O, E: ParserExtra<I>, A: Parser<'src, I, O, E>> Parser<'src, I, (), E>
    for Ignored<A, O> {
    ghost use Rattle.chumsky_combinator.specs.MappedLanguage.{ignored_language, ignored-accepts};
    ghost use Rattle.chumsky_parser.specs.FailureLaws.{SameUnit};
    ghost use Rattle.chumsky_parser.specs.Ignoring.{Gives, IgnoringFirst};
    ghost use Rattle.chumsky_parser.specs.IgnoringLaws.{gives-ends, gives-agrees, ignoring_first-ends, ignoring_first-agrees};

    ghost ready = { λ p. A.ready p.parser };

    ghost meaning = { λ p errors states. IgnoringFirst (A.meaning p.parser errors states) (Gives tt) };

    ghost steady = { λ p. A.steady p.parser };

    ghost same = { λ _. SameUnit };

    ghost language = { λ p. ignored_language (A.language p.parser) };

    ghost ends_after_start = { λ p. ignoring_first-ends _ _ (A.ends_after_start p.parser) (gives-ends tt) };

    ghost agrees = { λ p s. ignoring_first-agrees _ _ (A.same p.parser) SameUnit (A.agrees p.parser s) (gives-agrees tt SameUnit tt) };

    ghost accepts = { λ p. ignored-accepts _ (A.accepts p.parser) };

    #[inline(always)]
    fn go_emit(&self, inp: &mut InputRef<'src, '_, I, E>) -> PResult<()> {
        self.parser.go_check(inp)
    }

    #[inline(always)]
    fn go_check(&self, inp: &mut InputRef<'src, '_, I, E>) -> PResult<()> {
        self.parser.go_check(inp)
    }
}

impl<'src, I: Input<'src>, O, E: ParserExtra<I>, A: Moving<'src, I, O, E>> Moving<'src, I, (), E>
    for Ignored<A, O> {
    ghost use Rattle.chumsky_parser.specs.IgnoringLaws.{gives-ends};
    ghost use Rattle.chumsky_parser.specs.ProgressLaws.{chained-first, asked-moves};

    ghost moves = { λ p. A.moves p.parser };

    ghost moved = { λ p e. chained-first _ _ (asked-moves false _ (A.moved p.parser e)) (λ _. gives-ends tt) };

    fn always_moves(&self) -> bool
        ensures { result ≡ A.moves self.now.parser }
    {
        self.parser.always_moves()
    }
}
