//! An iterator over the items of a parser.
ghost use Rattle.std.specs.Prelude.{◌≡◌, ◌-◌, ◌^◌, false, IfSome};
ghost use Rattle.std.specs.Iterator.{UpTo, at_most};
ghost use Rattle.std.specs.Iterator.SizeHint.{IsWithinCount};
ghost use Rattle.chumsky_parse_iter.specs.Walk.{held_in, MayWalk, WalksOn, GivesCounted, BeginsWhole};
ghost use Rattle.chumsky_parse_iter.specs.Finish.{FinishesRun};

use crate::close::{Closed, close_from};
use crate::step::ask;
use chumsky_input::aside::Aside;
use chumsky_input::extra::ParserExtra;
use chumsky_input::input::{Input, Tokens};
use chumsky_input::stop::{Fault, PResult, Stop};
use chumsky_parser::iter::{IterParser, Iterates};
use chumsky_parser::result::ParseResult;
use std::alloc::Global;
use std::marker::PhantomData;
use std::mem;

/// What a run holds between its steps: where its cursor stands, its errors, its state and its context.
#[derive(Drop)]
pub struct Parts<C, X, S, K> {
    pub cursor: C,
    pub errors: Aside<X>,
    pub state: S,
    pub context: K,
    pub alloc: Global,
}

/// Whether an iteration was made, goes on or has ended, and how.
#[derive(Drop)]
pub enum Phase<S> {
    Unbegun,
    Running(S),
    Ended,
    Refused(Fault),
}

/// The items of a parser, one for each call of `next`. See `parse_iter`.
#[derive(Drop)]
pub struct ParseIter<'p, 'src, P: Iterates, I: Tokens, O, E: ParserExtra<I>, C> {
    parser: &'p P,
    parts: Parts<C, E::Error, E::State, E::Context>,
    phase: Phase<P::IterState>,
    given: usize,
    of: PhantomData<(&'src (), I, O)>,
}

/// What a step gives, and where the iteration stands after it.
fn settle<O: Drop, S: Drop>(
    answer: PResult<Option<(O, S)>>,
    phase: &mut Phase<S>,
    given: &mut usize,
) -> Option<O>
    ensures { GivesCounted given.old answer result phase.new given.new }
{
    match answer {
        Ok(Some((item, iteration))) => {
            if *given == usize::MAX {
                *phase = Phase::Refused(Fault::Stop(Stop::CountTooLarge));
                return None;
            }
            *given += 1;
            *phase = Phase::Running(iteration);
            Some(item)
        }
        Ok(None) => {
            *phase = Phase::Ended;
            None
        }
        Err(fault) => {
            *phase = Phase::Refused(fault);
            None
        }
    }
}

impl<'p, 'src, I, O, E, P, C> Iterator for ParseIter<'p, 'src, P, I, O, E, C>
where
    I: Input<'src, Cursor = C>,
    C: Copy,
    I::Token: 'src,
    O: Drop,
    E: ParserExtra<I>,
    E::State: Drop,
    E::Context: Drop,
    P: IterParser<'src, I, O, E>,
{
    type Item = O;

    ghost can_next = { λ w. MayWalk (P.ready w.parser.now) (P.may_step w.parser.now) w.phase };

    ghost next_gives = { λ w r v. (v.parser ≡ w.parser) × WalksOn E.Error.merged E.Error.takes_no_memory (P.begins w.parser.now E.Error.Error E.State.Inspector) (λ s. P.gives w.parser.now (record { nonconsumption_is_ok = false }) s E.Error.Error E.State.Inspector) w.phase (held_in I.Input E.Error.Error E.State.Inspector w.parts) w.given r v.phase (held_in I.Input E.Error.Error E.State.Inspector v.parts) v.given };

    ghost remaining = { λ w. at_most (2 ^ 64 - w.given) };

    fn next(&mut self) -> Option<O> {
        let answer = match mem::replace(&mut self.phase, Phase::Ended) {
            Phase::Unbegun => ask::<I, O, E, P>(self.parser, None, &mut self.parts),
            Phase::Running(iteration) => {
                ask::<I, O, E, P>(self.parser, Some(iteration), &mut self.parts)
            }
            Phase::Ended => return None,
            Phase::Refused(fault) => {
                self.phase = Phase::Refused(fault);
                return None;
            }
        };
        settle(answer, &mut self.phase, &mut self.given)
    }

    /// No item is promised: any step may be the last.
    #[inline]
    fn size_hint(&self) -> (usize, Option<usize>)
        ensures lower { IsWithinCount result.0 (at_most (2 ^ 64 - self.now.given)) }
        ensures upper { IfSome result.1 (UpTo (at_most (2 ^ 64 - self.now.given))) }
        ensures promises_none { result.0 ≡ 0 }
    {
        (0, None)
    }
}

impl<'p, 'src, P, I, O, E, C> ParseIter<'p, 'src, P, I, O, E, C>
where
    P: Iterates,
    I: Input<'src, Cursor = C>,
    C: Copy,
    I::Token: 'src,
    E: ParserExtra<I>,
    E::Context: Drop,
{
    /// The answer of the whole run, with `out` as its output, whatever number of items was taken. Where a step failed, the
    /// errors are those that were emitted and the furthest one last; else the end of input is asked for where the run
    /// stands, and a token there is a failure. A run that was refused is refused here too.
    pub fn finish<R: Drop>(self, out: R) -> Result<ParseResult<R, E::Error>, Stop>
    where
        E::State: Drop,
        ensures { (left : E.State) × FinishesRun I.Input E.Error.Error E.State.Inspector self.entry.phase self.entry.parts out left result }
    {
        self.finish_with_state(out).0
    }

    /// The same, and the state that the run left.
    pub fn finish_with_state<R: Drop>(
        self,
        out: R,
    ) -> (Result<ParseResult<R, E::Error>, Stop>, E::State)
        ensures { FinishesRun I.Input E.Error.Error E.State.Inspector self.entry.phase self.entry.parts out result.1 result.0 }
    {
        let ParseIter {
            parser: _,
            parts,
            phase,
            given: _,
            of: _,
        } = self;
        let Parts {
            cursor,
            errors,
            state,
            context,
            alloc,
        } = parts;
        let mut state = state;
        let Closed { answer, errors } = close_from::<I, E, P::IterState>(
            phase, cursor, errors, &mut state, &context, alloc,
        );
        match answer {
            Ok(_) => (
                Ok(ParseResult {
                    output: Some(out),
                    errors,
                }),
                state,
            ),
            Err(stop) => (Err(stop), state),
        }
    }
}

/// Makes the iterator over the items of `parser`, run over `input` from its start on a state of the caller's.
pub fn begin<'p, 'src, P, I, O, E>(
    parser: &'p P,
    alloc: Global,
    input: I,
    state: E::State,
) -> ParseIter<'p, 'src, P, I, O, E, I::Cursor>
where
    P: Iterates,
    I: Input<'src>,
    E: ParserExtra<I>,
    E::Context: Default,
    ensures parser { result.parser ≡ parser.entry }
    ensures parts { BeginsWhole I.Input E.Error.Error E.State.Inspector E.Context.is_default input state result.parts }
    ensures phase { result.phase ≡ Phase.Unbegun }
    ensures given { result.given ≡ 0 }
{
    ParseIter {
        parser,
        parts: Parts {
            cursor: input.begin(),
            errors: Aside {
                kept: None,
                emitted: Vec::new(alloc),
            },
            state,
            context: E::Context::default(),
            alloc,
        },
        phase: Phase::Unbegun,
        given: 0,
        of: PhantomData,
    }
}
