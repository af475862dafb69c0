//! What is parsed in the place of a parser that failed.
ghost use Rattle.std.specs.Prelude.{◌≡◌, true, false, None};
ghost use Rattle.chumsky_input.specs.Held.{held};
ghost use Rattle.chumsky_input.specs.Run.{Runs, with_value, without_value};

use chumsky_input::extra::ParserExtra;
use chumsky_input::input::Input;
use chumsky_input::input_ref::InputRef;
use chumsky_input::stop::PResult;

/// Says of a type that it recovers outputs `O` out of inputs `I` with the extra `E`, and no more: what `recover_with`
/// asks for.
pub trait IsStrategy<I, O, E> {}

/// How to go on where a parser of type `A` failed. See `recover_with`.
///
/// A strategy runs from where the failed parser began, with nothing kept. It neither emits that parser's error nor goes
/// back: both are done around it.
pub trait Strategy<'src, I: Input<'src>, O, E: ParserExtra<I>, A> {
    ghost use Rattle.chumsky_input.specs.Words.{Does};
    ghost use Rattle.chumsky_input.specs.Outcome.{EndsAfterStart, Agreeing};
    ghost use Rattle.chumsky_parser.specs.Language.{Language, Accepts, unsaid};

    /// That the strategy may be run for a parser: its closures may be called, and that parser, if it runs it.
    ghost ready: { Self → A → Type 0 };
    /// What a run for a parser may do.
    ghost helps: { Self → A → Does I I.Token I.Span E.Error E.State E.State.Mark E.Context O };
    /// That closures answer alike each time.
    ghost steady: { Self → A → Type 0 };
    /// Which outputs count as the same.
    ghost same: { Self → A → O → O → Type 0 };
    /// Which texts it accepts, and with which values; by default nothing is said.
    ghost language: { Self → A → Language I.Token O } = { λ _ _. unsaid };

    /// Gives an output in place of the parser's, which failed here.
    fn recover_emit(&self, parser: &A, inp: &mut InputRef<'src, '_, I, E>) -> PResult<O>
        requires ready { ready self.now parser.now }
        requires none_kept { (held I.Input E.Error.Error E.State.Inspector inp.old).kept ≡ None }
        ensures ran { Runs I.Input E.Error.Error E.State.Inspector
            (helps self.now parser.now E.Error.Error E.State.Inspector) true inp.old inp.new (with_value result) }
        ensures lent { inp.new.state.ghost_name ≡ inp.old.state.ghost_name };

    /// The same without the output.
    fn recover_check(&self, parser: &A, inp: &mut InputRef<'src, '_, I, E>) -> PResult<()>
        requires ready { ready self.now parser.now }
        requires none_kept { (held I.Input E.Error.Error E.State.Inspector inp.old).kept ≡ None }
        ensures ran { Runs I.Input E.Error.Error E.State.Inspector
            (helps self.now parser.now E.Error.Error E.State.Inspector) false inp.old inp.new (without_value result) }
        ensures lent { inp.new.state.ghost_name ≡ inp.old.state.ghost_name };

    /// No answer ends before its start.
    ghost ends_after_start: { (s : Self) (a : A) → EndsAfterStart (helps s a E.Error.Error E.State.Inspector) };

    /// Two answers of a steady strategy agree, with an output or without.
    ghost agrees: { (s : Self) (a : A) → steady s a → Agreeing (same s a) (helps s a E.Error.Error E.State.Inspector)
        (helps s a E.Error.Error E.State.Inspector) };

    /// What is said of its language holds. Where nothing is said: `ghost accepts = { λ _ _. of_unsaid };`.
    ghost accepts: { (s : Self) (a : A) → Accepts (helps s a E.Error.Error E.State.Inspector) (language s a) (E.Error.takes_no_memory × E.State.takes_no_memory) };
}
