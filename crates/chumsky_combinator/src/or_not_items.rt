//! A parser whose part may be absent, as items: one, or none.
ghost use Rattle.std.specs.Prelude.{◌≡◌, false};

use crate::or_not::OrNot;
use chumsky_input::extra::ParserExtra;
use chumsky_input::input::Input;
use chumsky_input::input_ref::InputRef;
use chumsky_input::stop::{Fault, PResult};
use chumsky_parser::iter::{IsIterParser, IterParser, IterParserDebug, Iterates};
use chumsky_parser::moving::MovingItems;
use chumsky_parser::parser::{IsParser, Parser};

impl<I, O, E, A: IsParser<I, O, E>> IsIterParser<I, O, E> for OrNot<A> {}

impl<A> Iterates for OrNot<A> {
    /// Whether the part was tried.
    type IterState = bool;
}

impl<'src, I: Input<'src>, O, E: ParserExtra<I>, A: Parser<'src, I, O, E>> IterParser<'src, I, O, E>
    for OrNot<A> {
    ghost use Rattle.chumsky_combinator.specs.AtMostOneLanguage.{at_most_one_language, at_most_one-accepts};
    ghost use Rattle.std.specs.Prelude.{Some, false};
    ghost use Rattle.chumsky_parser.specs.Chained.{Given};
    ghost use Rattle.chumsky_combinator.specs.AtMostOne.{AtMostOne};
    ghost use Rattle.chumsky_combinator.specs.AtMostOneLaws.{SameTried, at_most_one-end, at_most_one-agree};

    ghost ready = { λ p. A.ready p.parser };

    ghost may_step = { λ p _. A.ready p.parser };

    ghost begins = { λ _ errors states. Given (Some false) };

    ghost gives = { λ p d tried errors states. AtMostOne states.mark states.back states.takes_no_memory (A.meaning p.parser errors states) tried };

    ghost steady = { λ p. A.steady p.parser };

    ghost same = { λ p. A.same p.parser };

    ghost alike = { λ _. SameTried };

    ghost language = { λ p. at_most_one_language (A.language p.parser) };

    ghost ends_after_start = { λ p d. at_most_one-end _ _ _ _ (A.ends_after_start p.parser) };

    ghost agrees = { λ p s d. at_most_one-agree _ _ _ _ (A.same p.parser) (A.agrees p.parser s) };

    ghost accepts = { λ p d. at_most_one-accepts _ _ (λ q. q.1) _ (A.accepts p.parser) };

    #[inline]
    fn make_iter(&self, _inp: &mut InputRef<'src, '_, I, E>) -> PResult<bool> {
        Ok(false)
    }

    #[inline]
    fn next_emit(
        &self,
        inp: &mut InputRef<'src, '_, I, E>,
        state: &mut bool,
        _debug: IterParserDebug,
    ) -> PResult<Option<O>> {
        if *state {
            return Ok(None);
        }
        let before = inp.save()?;
        *state = true;
        match self.parser.go_emit(inp) {
            Ok(item) => Ok(Some(item)),
            Err(Fault::Stop(stop)) => Err(Fault::Stop(stop)),
            Err(Fault::Fail) => {
                inp.rewind(&before)?;
                Ok(None)
            }
        }
    }

    #[inline]
    fn next_check(
        &self,
        inp: &mut InputRef<'src, '_, I, E>,
        state: &mut bool,
        _debug: IterParserDebug,
    ) -> PResult<Option<()>> {
        if *state {
            return Ok(None);
        }
        let before = inp.save()?;
        *state = true;
        match self.parser.go_check(inp) {
            Ok(()) => Ok(Some(())),
            Err(Fault::Stop(stop)) => Err(Fault::Stop(stop)),
            Err(Fault::Fail) => {
                inp.rewind(&before)?;
                Ok(None)
            }
        }
    }
}

impl<'src, I: Input<'src>, O, E: ParserExtra<I>, A: Parser<'src, I, O, E>> MovingItems<
    'src,
    I,
    O,
    E,
> for OrNot<A> {
    ghost use Rattle.chumsky_parser.specs.ProgressLaws.{never};

    ghost first_moved = { λ _. never };

    fn first_always_moves(&self) -> bool
        ensures { result ≡ false }
    {
        false
    }
}
