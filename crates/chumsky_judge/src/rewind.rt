//! A parser that is only looked at.
ghost use Rattle.std.specs.Prelude.{◌≡◌, false};

use crate::refuse::fail_as_one;
use chumsky_input::extra::ParserExtra;
use chumsky_input::input::Input;
use chumsky_input::input_ref::InputRef;
use chumsky_input::stop::{Fault, PResult};
use chumsky_parser::moving::Moving;
use chumsky_parser::parser::{IsParser, Parser};

/// A parser that stands at its start again where it succeeds. See `rewind`.
#[derive(Clone, Copy, Drop)]
pub struct Rewind<A> {
    pub parser: A,
}

impl<I, O, E, A: IsParser<I, O, E>> IsParser<I, O, E> for Rewind<A> {}

impl<'src, I: Input<'src>, O: Drop, E: ParserExtra<I>, A: Parser<'src, I, O, E>> Parser<
    'src,
    I,
    O,
    E,
> for Rewind<A> {
    ghost use Rattle.chumsky_judge.specs.AndIs.{MeansRewind};
    ghost use Rattle.chumsky_judge.specs.AndIsLaws.{rewind-ends, rewind-agrees};
    ghost use Rattle.chumsky_judge.specs.JudgedLanguage.{rewind_language, rewind-accepts};

    ghost ready = { λ p. A.ready p.parser };

    ghost meaning = { λ p errors states. MeansRewind errors.merged (A.meaning p.parser errors states) };

    ghost steady = { λ p. A.steady p.parser };

    ghost same = { λ p. A.same p.parser };

    ghost ends_after_start = { λ p. rewind-ends _ _ (A.ends_after_start p.parser) };

    ghost agrees = { λ p s. rewind-agrees _ _ (A.same p.parser) (A.agrees p.parser s) };

    ghost language = { λ p. rewind_language (A.language p.parser) };

    ghost accepts = { λ p. rewind-accepts _ _ (A.accepts p.parser) };

    #[inline]
    fn go_emit(&self, inp: &mut InputRef<'src, '_, I, E>) -> PResult<O> {
        let start = inp.cursor();
        let older = inp.take_kept();
        match self.parser.go_emit(inp) {
            Ok(value) => {
                inp.move_to(start);
                if inp.keeps_past(I::place(&start)) {
                    inp.put_kept(older);
                    return Ok(value);
                }
                inp.keep_before(older)?;
                Ok(value)
            }
            Err(Fault::Fail) => Err(fail_as_one(older, inp)),
            Err(Fault::Stop(stop)) => Err(Fault::Stop(stop)),
        }
    }

    #[inline]
    fn go_check(&self, inp: &mut InputRef<'src, '_, I, E>) -> PResult<()> {
        let start = inp.cursor();
        let older = inp.take_kept();
        match self.parser.go_check(inp) {
            Ok(()) => {
                inp.move_to(start);
                if inp.keeps_past(I::place(&start)) {
                    inp.put_kept(older);
                    return Ok(());
                }
                inp.keep_before(older)?;
                Ok(())
            }
            Err(Fault::Fail) => Err(fail_as_one(older, inp)),
            Err(Fault::Stop(stop)) => Err(Fault::Stop(stop)),
        }
    }
}

impl<'src, I: Input<'src>, O: Drop, E: ParserExtra<I>, A: Parser<'src, I, O, E>> Moving<
    'src,
    I,
    O,
    E,
> for Rewind<A> {
    ghost use Rattle.chumsky_parser.specs.ProgressLaws.{never};

    ghost moved = { λ _. never };

    fn always_moves(&self) -> bool
        ensures { result ≡ false }
    {
        false
    }
}
