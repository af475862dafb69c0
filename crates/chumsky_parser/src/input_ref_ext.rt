//! Running a parser within a closure that is lent an `InputRef`.
ghost use Rattle.std.specs.Prelude.{◌≡◌, true, false};
ghost use Rattle.chumsky_input.specs.Held.{held};
ghost use Rattle.chumsky_input.specs.Aside.{GoesForward};
ghost use Rattle.chumsky_parser.specs.Apart.{RunsApart, handed_value, handed_check};

use crate::parser::Parser;
use chumsky_input::error::Error;
use chumsky_input::extra::ParserExtra;
use chumsky_input::input::Input;
use chumsky_input::input_ref::InputRef;
use chumsky_input::inspector::Inspector;
use chumsky_input::stop::{Failure, Fault, Stop};

/// Running parsers on an `InputRef`, as `inp.parse(any())`.
///
/// The parser runs from where the run stands. Where it says yes, its events count as one, the last error that it would
/// report. Where it fails, that error is handed out in place of being kept, and the cursor stays where the parser left
/// it. A `Failure::Stop` is to be passed on: nothing but the state is known after it, and the run notes the first one.
pub trait InputRefExt<'src, I: Input<'src>, O, E: ParserExtra<I>, P: Parser<'src, I, O, E>> {
    /// Runs a parser for its output.
    fn parse(&mut self, parser: P) -> Result<O, Failure<E::Error>>
        requires { P.ready parser };

    /// Runs a parser without its output.
    fn check(&mut self, parser: P) -> Result<(), Failure<E::Error>>
        requires { P.ready parser };
}

impl<'src, 'p, I, O, E, P> InputRefExt<'src, I, O, E, P> for InputRef<'src, 'p, I, E>
where
    I: Input<'src>,
    O: Drop,
    E: ParserExtra<I>,
    P: Parser<'src, I, O, E> + Drop,
{
    #[inline]
    fn parse(&mut self, parser: P) -> Result<O, Failure<E::Error>>
        requires { P.ready parser }
        ensures ran { RunsApart I.Input E.Error.Error E.State.Inspector
            (P.meaning parser E.Error.Error E.State.Inspector) true self.old self.new (handed_value E.Error.seen result) }
        ensures forward { GoesForward result (held I.Input E.Error.Error E.State.Inspector self.old) (held I.Input E.Error.Error E.State.Inspector self.new) }
        ensures lent { self.new.state.ghost_name ≡ self.old.state.ghost_name }
    {
        let older = self.take_kept();
        match parser.go_emit(self) {
            Ok(value) => match self.keep_before(older) {
                Ok(()) => Ok(value),
                Err(_) => Err(self.stop(Stop::Memory)),
            },
            Err(Fault::Fail) => Err(self.hand_out(older)),
            Err(Fault::Stop(stop)) => Err(self.stop(stop)),
        }
    }

    #[inline]
    fn check(&mut self, parser: P) -> Result<(), Failure<E::Error>>
        requires { P.ready parser }
        ensures ran { RunsApart I.Input E.Error.Error E.State.Inspector
            (P.meaning parser E.Error.Error E.State.Inspector) false self.old self.new (handed_check E.Error.seen result) }
        ensures forward { GoesForward result (held I.Input E.Error.Error E.State.Inspector self.old) (held I.Input E.Error.Error E.State.Inspector self.new) }
        ensures lent { self.new.state.ghost_name ≡ self.old.state.ghost_name }
    {
        let older = self.take_kept();
        match parser.go_check(self) {
            Ok(()) => match self.keep_before(older) {
                Ok(()) => Ok(()),
                Err(_) => Err(self.stop(Stop::Memory)),
            },
            Err(Fault::Fail) => Err(self.hand_out(older)),
            Err(Fault::Stop(stop)) => Err(self.stop(stop)),
        }
    }
}
