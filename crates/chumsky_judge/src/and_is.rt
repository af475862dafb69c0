//! Two parsers that both have to succeed at one place.
ghost use Rattle.std.specs.Prelude.{◌≡◌};

use crate::rewind::Rewind;
use chumsky_input::extra::ParserExtra;
use chumsky_input::input::Input;
use chumsky_input::input_ref::InputRef;
use chumsky_input::stop::{Fault, PResult};
use chumsky_parser::moving::Moving;
use chumsky_parser::parser::{IsParser, Parser};
use std::marker::PhantomData;

/// A parser that succeeds only where another one does too, from the same place. See `and_is`.
#[derive(Drop)]
#[derive_where(Clone, Copy; A, B)]
pub struct AndIs<A, B, U> {
    pub parser: A,
    pub other: B,
    pub of: PhantomData<U>,
}

impl<I, O, U, E, A: IsParser<I, O, E>, B: IsParser<I, U, E>> IsParser<I, O, E> for AndIs<A, B, U> {}

impl<'src, I, O, U, E, A, B> Parser<'src, I, O, E> for AndIs<A, B, U>
where
    I: Input<'src>,
    O: Drop,
    E: ParserExtra<I>,
    A: Parser<'src, I, O, E>,
    B: Parser<'src, I, U, E>,
{
    ghost use Rattle.chumsky_judge.specs.AndIs.{MeansAndIs};
    ghost use Rattle.chumsky_judge.specs.AndIsLaws.{and_is-ends, and_is-agrees};
    ghost use Rattle.chumsky_judge.specs.JudgedLanguage.{and_is_language, and_is-accepts};

    ghost ready = { λ p. A.ready p.parser × B.ready p.other };

    ghost meaning = { λ p errors states. MeansAndIs states.mark states.back states.takes_no_memory (A.meaning p.parser errors states) (B.meaning p.other errors states) };

    ghost steady = { λ p. A.steady p.parser × B.steady p.other };

    ghost same = { λ p. A.same p.parser };

    ghost ends_after_start = { λ p. and_is-ends _ _ _ _ _ (A.ends_after_start p.parser) (B.ends_after_start p.other) };

    ghost agrees = { λ p s. and_is-agrees _ _ _ _ _ (A.same p.parser) (B.same p.other) (A.agrees p.parser s.0) (B.agrees p.other s.1) };

    ghost language = { λ p. and_is_language (A.language p.parser) (B.language p.other) };

    ghost accepts = { λ p. and_is-accepts _ _ (λ q. q.1) _ _ (A.accepts p.parser) (B.accepts p.other) };

    #[inline]
    fn go_emit(&self, inp: &mut InputRef<'src, '_, I, E>) -> PResult<O> {
        let before = inp.save()?;
        match self.parser.go_emit(inp) {
            Ok(value) => {
                let end = inp.cursor();
                inp.move_to(before.cursor);
                self.other.go_check(inp)?;
                inp.move_to(end);
                Ok(value)
            }
            Err(Fault::Fail) => {
                inp.rewind(&before)?;
                Err(Fault::Fail)
            }
            Err(Fault::Stop(stop)) => Err(Fault::Stop(stop)),
        }
    }

    #[inline]
    fn go_check(&self, inp: &mut InputRef<'src, '_, I, E>) -> PResult<()> {
        let before = inp.save()?;
        match self.parser.go_check(inp) {
            Ok(()) => {
                let past = inp.cursor();
                inp.move_to(before.cursor);
                self.other.go_check(inp)?;
                inp.move_to(past);
                Ok(())
            }
            Err(Fault::Fail) => {
                inp.rewind(&before)?;
                Err(Fault::Fail)
            }
            Err(Fault::Stop(stop)) => Err(Fault::Stop(stop)),
        }
    }
}

/// It ends where its part ends; the other one is only looked at.
impl<'src, I, O, U, E, A, B> Moving<'src, I, O, E> for AndIs<A, B, U>
where
    I: Input<'src>,
    O: Drop,
    E: ParserExtra<I>,
    A: Moving<'src, I, O, E>,
    B: Parser<'src, I, U, E>,
{
    ghost use Rattle.chumsky_judge.specs.JudgedMoves.{and_is-moves};

    ghost moves = { λ p. A.moves p.parser };

    ghost moved = { λ p e. and_is-moves _ _ _ _ _ (A.moved p.parser e) };

    fn always_moves(&self) -> bool
        ensures { result ≡ A.moves self.now.parser }
    {
        self.parser.always_moves()
    }
}

/// When it is ready and steady, and which outputs are the same: `a.and_is(b)` and `a.rewind()`.
pub fn and_is_is_steady<
    'src,
    I: Input<'src>,
    O: Drop,
    U,
    E: ParserExtra<I>,
    A: Parser<'src, I, O, E>,
    B: Parser<'src, I, U, E>,
>(and_is: &AndIs<A, B, U>, rewind: &Rewind<A>)
    ensures ready_and_is { A.ready and_is.now.parser → B.ready and_is.now.other → ⟦<AndIs<A, B, U> as Parser<'src, I, O, E>>⟧.ready and_is.now }
    ensures ready_rewind { A.ready rewind.now.parser → ⟦<Rewind<A> as Parser<'src, I, O, E>>⟧.ready rewind.now }
    ensures and_is { A.steady and_is.now.parser → B.steady and_is.now.other → ⟦<AndIs<A, B, U> as Parser<'src, I, O, E>>⟧.steady and_is.now }
    ensures rewind { A.steady rewind.now.parser → ⟦<Rewind<A> as Parser<'src, I, O, E>>⟧.steady rewind.now }
    ensures same_and_is { (x y : O) → ⟦<AndIs<A, B, U> as Parser<'src, I, O, E>>⟧.same and_is.now x y → A.same and_is.now.parser x y }
    ensures same_rewind { (x y : O) → ⟦<Rewind<A> as Parser<'src, I, O, E>>⟧.same rewind.now x y → A.same rewind.now.parser x y }
{}
