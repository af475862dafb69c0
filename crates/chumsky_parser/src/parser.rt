//! What a parser is.
ghost use Rattle.std.specs.Prelude.{◌≡◌, true, false};
ghost use Rattle.chumsky_input.specs.Run.{Runs, with_value, without_value};
ghost use Rattle.chumsky_parser.specs.ByParts.{NeverOut, NoRunOut};

use chumsky_input::extra::ParserExtra;
use chumsky_input::input::Input;
use chumsky_input::input_ref::InputRef;
use chumsky_input::stop::PResult;

/// Says of a type that it parses outputs `O` out of inputs `I` with the extra `E`, and no more.
///
/// Builders ask for this alone, and running a parser asks for `Parser`: so what a function builds costs its check little
/// until it is run. A parser type of one's own has builders and run forms once it has this impl, an empty one, beside
/// that of `Parser`.
pub trait IsParser<I, O, E> {}

/// A parser of outputs `O` over inputs `I`.
///
/// Both functions mean one relation, `meaning`: from where a run begins to the outcomes that it may have. `go_emit`
/// makes the output, `go_check` only says whether there is one.
pub trait Parser<'src, I: Input<'src>, O, E: ParserExtra<I>> {
    ghost use Rattle.chumsky_input.specs.Words.{Does};
    ghost use Rattle.chumsky_input.specs.Outcome.{EndsAfterStart, Agreeing};
    ghost use Rattle.chumsky_parser.specs.Language.{Language, Accepts, unsaid};

    /// That the parser may be run: its closures may be called.
    ghost ready: { Self → Type 0 };
    /// What a run may do.
    ghost meaning: { Self → Does I I.Token I.Span E.Error E.State E.State.Mark E.Context O };
    /// That the parser's closures answer alike each time.
    ghost steady: { Self → Type 0 };
    /// Which outputs count as the same.
    ghost same: { Self → O → O → Type 0 };
    /// Which texts it accepts, and with which values; by default nothing is said.
    ghost language: { Self → Language I.Token O } = { λ _. unsaid };

    /// Runs the parser for its output. On failure the errors are with `inp`, and its cursor is where the parser left it.
    fn go_emit(&self, inp: &mut InputRef<'src, '_, I, E>) -> PResult<O>
        requires { ready self.now }
        ensures ran { Runs I.Input E.Error.Error E.State.Inspector (meaning self.now E.Error.Error E.State.Inspector) true inp.old inp.new (with_value result) }
        ensures lent { inp.new.state.ghost_name ≡ inp.old.state.ghost_name };

    /// Runs the parser without its output: nothing is made for one.
    fn go_check(&self, inp: &mut InputRef<'src, '_, I, E>) -> PResult<()>
        requires { ready self.now }
        ensures ran { Runs I.Input E.Error.Error E.State.Inspector (meaning self.now E.Error.Error E.State.Inspector) false inp.old inp.new (without_value result) }
        ensures lent { inp.new.state.ghost_name ≡ inp.old.state.ghost_name };

    /// No answer ends before its start.
    ghost ends_after_start: { (p : Self) → EndsAfterStart (meaning p E.Error.Error E.State.Inspector) };

    /// Two answers of a steady parser agree, with an output or without.
    ghost agrees: { (p : Self) → steady p → Agreeing (same p) (meaning p E.Error.Error E.State.Inspector) (meaning p E.Error.Error E.State.Inspector) };

    /// What is said of its language holds.
    ghost accepts: { (p : Self) → Accepts (meaning p E.Error.Error E.State.Inspector) (language p) (E.Error.takes_no_memory × E.State.takes_no_memory) };
}

/// A run of a parser that is never refused for memory isn't either, for its value or without it, where errors take none: each
/// call of `go_emit` and `go_check` shows that it runs so.
pub fn a_run_is_never_out_of_memory<
    'src,
    I: Input<'src>,
    O,
    E: ParserExtra<I>,
    P: Parser<'src, I, O, E>,
>(parser: &P)
    ensures { NeverOut E.Error.Error E.State.Inspector (P.meaning parser.now) → E.Error.takes_no_memory →
        NoRunOut E.Error.Error E.State.Inspector (P.meaning parser.now) }
{}
