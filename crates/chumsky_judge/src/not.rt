//! A parser that must not succeed.
ghost use Rattle.std.specs.Prelude.{◌≡◌, false};
ghost use Rattle.chumsky_judge.specs.Calls.{RunsAnyway};
ghost use Rattle.chumsky_judge.specs.Not.{MeansNot};

use crate::refuse::something_else;
use chumsky_input::error::Error;
use chumsky_input::extra::ParserExtra;
use chumsky_input::input::Input;
use chumsky_input::input_ref::InputRef;
use chumsky_input::inspector::Inspector;
use chumsky_input::stop::{Fault, PResult};
use chumsky_parser::moving::Moving;
use chumsky_parser::parser::{IsParser, Parser};
use std::marker::PhantomData;

/// Says yes where another parser says no, and takes nothing. See `not`.
#[derive(Drop)]
#[derive_where(Clone, Copy; A)]
pub struct Not<A, O> {
    pub parser: A,
    pub of: PhantomData<O>,
}

impl<I, O, E, A: IsParser<I, O, E>> IsParser<I, (), E> for Not<A, O> {}

impl<'src, I: Input<'src>, O, E: ParserExtra<I>, A: Parser<'src, I, O, E>> Parser<'src, I, (), E>
    for Not<A, O> {
    ghost use Rattle.chumsky_parser.specs.FailureLaws.{SameUnit};
    ghost use Rattle.chumsky_judge.specs.NotLaws.{not-ends, not-agrees};
    ghost use Rattle.chumsky_judge.specs.JudgedLanguage.{not_language, not-accepts};

    ghost ready = { λ p. A.ready p.parser };

    ghost meaning = { λ p errors states. MeansNot I.Input errors states (A.meaning p.parser errors states) };

    ghost steady = { λ p. A.steady p.parser };

    ghost same = { λ p. SameUnit };

    ghost ends_after_start = { λ p. not-ends _ _ _ _ (A.ends_after_start p.parser) };

    ghost agrees = { λ p s. not-agrees _ _ _ _ (A.same p.parser) (A.agrees p.parser s) };

    ghost language = { λ p. not_language (A.language p.parser) };

    ghost accepts = { λ p. not-accepts _ _ _ _ (A.accepts p.parser) };

    #[inline]
    fn go_emit(&self, inp: &mut InputRef<'src, '_, I, E>) -> PResult<()> {
        deny(&self.parser, inp)
    }

    #[inline]
    fn go_check(&self, inp: &mut InputRef<'src, '_, I, E>) -> PResult<()> {
        deny(&self.parser, inp)
    }
}

/// Runs the part with nothing kept, goes back to the start, and keeps what was kept before.
#[inline]
fn deny<'src, I: Input<'src>, O, E: ParserExtra<I>, A: Parser<'src, I, O, E>>(
    part: &A,
    inp: &mut InputRef<'src, '_, I, E>,
) -> PResult<()>
    requires { A.ready part.now }
    ensures ran { RunsAnyway I.Input E.Error.Error E.State.Inspector
        (λ errors states. MeansNot I.Input errors states (A.meaning part.now errors states)) inp.old inp.new result }
    ensures lent { inp.new.state.ghost_name ≡ inp.old.state.ghost_name }
{
    let before = inp.save()?;
    let older = inp.take_kept();
    match part.go_check(inp) {
        Ok(()) => {
            let past = inp.cursor();
            inp.rewind(&before)?;
            inp.put_kept(older);
            Err(something_else(&before.cursor, &past, inp))
        }
        Err(Fault::Fail) => {
            inp.rewind(&before)?;
            inp.put_kept(older);
            Ok(())
        }
        Err(Fault::Stop(stop)) => Err(Fault::Stop(stop)),
    }
}

impl<'src, I: Input<'src>, O, E: ParserExtra<I>, A: Parser<'src, I, O, E>> Moving<'src, I, (), E>
    for Not<A, O> {
    ghost use Rattle.chumsky_parser.specs.ProgressLaws.{never};

    ghost moved = { λ _. never };

    fn always_moves(&self) -> bool
        ensures { result ≡ false }
    {
        false
    }
}

/// When it is ready and steady, and which outputs are the same: `a.not()`.
pub fn not_is_steady<'src, I: Input<'src>, O, E: ParserExtra<I>, A: Parser<'src, I, O, E>>(
    not: &Not<A, O>,
)
    ensures ready { A.ready not.now.parser → ⟦<Not<A, O> as Parser<'src, I, (), E>>⟧.ready not.now }
    ensures steady { A.steady not.now.parser → ⟦<Not<A, O> as Parser<'src, I, (), E>>⟧.steady not.now }
{}
