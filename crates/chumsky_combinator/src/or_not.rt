//! A parser whose part may be absent.
ghost use Rattle.std.specs.Prelude.{◌≡◌, false};

use chumsky_input::extra::ParserExtra;
use chumsky_input::input::Input;
use chumsky_input::input_ref::InputRef;
use chumsky_input::stop::{Fault, PResult};
use chumsky_parser::moving::Moving;
use chumsky_parser::parser::{IsParser, Parser};

/// A parser's output where it succeeds, and none where it fails. See `or_not`.
#[derive(Clone, Copy, Drop)]
pub struct OrNot<A> {
    pub parser: A,
}

impl<I, O, E, A: IsParser<I, O, E>> IsParser<I, Option<O>, E> for OrNot<A> {}

impl<'src, I: Input<'src>, O, E: ParserExtra<I>, A: Parser<'src, I, O, E>> Parser<
    'src,
    I,
    Option<O>,
    E,
> for OrNot<A> {
    ghost use Rattle.chumsky_combinator.specs.OptionalLanguage.{or_not_language, or_not-accepts};
    ghost use Rattle.chumsky_combinator.specs.Optional.{OrNone, SameOption};
    ghost use Rattle.chumsky_combinator.specs.OptionalLaws.{or_none-ends, or_none-agrees};

    ghost ready = { λ p. A.ready p.parser };

    ghost meaning = { λ p errors states. OrNone states.mark states.back states.takes_no_memory (A.meaning p.parser errors states) };

    ghost steady = { λ p. A.steady p.parser };

    ghost same = { λ p. SameOption (A.same p.parser) };

    ghost language = { λ p. or_not_language (A.language p.parser) };

    ghost ends_after_start = { λ p. or_none-ends _ _ _ _ (A.ends_after_start p.parser) };

    ghost agrees = { λ p s. or_none-agrees _ _ _ _ (A.same p.parser) (A.agrees p.parser s) };

    ghost accepts = { λ p. or_not-accepts _ _ (λ q. q.1) _ (A.accepts p.parser) };

    #[inline(always)]
    fn go_emit(&self, inp: &mut InputRef<'src, '_, I, E>) -> PResult<Option<O>> {
        let before = inp.save()?;
        match self.parser.go_emit(inp) {
            Ok(value) => Ok(Some(value)),
            Err(Fault::Stop(stop)) => Err(Fault::Stop(stop)),
            Err(Fault::Fail) => {
                inp.rewind(&before)?;
                Ok(None)
            }
        }
    }

    #[inline(always)]
    fn go_check(&self, inp: &mut InputRef<'src, '_, I, E>) -> PResult<()> {
        let before = inp.save()?;
        match self.parser.go_check(inp) {
            Ok(()) => Ok(()),
            Err(Fault::Stop(stop)) => Err(Fault::Stop(stop)),
            Err(Fault::Fail) => {
                inp.rewind(&before)?;
                Ok(())
            }
        }
    }
}

impl<'src, I: Input<'src>, O, E: ParserExtra<I>, A: Parser<'src, I, O, E>> Moving<
    'src,
    I,
    Option<O>,
    E,
> for OrNot<A> {
    ghost use Rattle.chumsky_parser.specs.ProgressLaws.{never};

    ghost moved = { λ _. never };

    fn always_moves(&self) -> bool
        ensures { result ≡ false }
    {
        false
    }
}
