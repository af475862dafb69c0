//! Whether parts run for their values.
ghost use Rattle.std.specs.Prelude.{◌≡◌, Bool, true, false, Option, Some, None};
ghost use Rattle.chumsky_set.specs.Doing.{RunsDoing};
ghost use Rattle.chumsky_set.specs.Passes.{shown_by};

use chumsky_input::extra::ParserExtra;
use chumsky_input::input::Input;
use chumsky_input::input_ref::InputRef;
use chumsky_input::stop::PResult;
use chumsky_parser::parser::Parser;

/// Whether values are wanted.
pub trait Mode {
    ghost wanted: { Bool };
}

/// Runs parsers as asked. What it gives of an output `O` is an `R`.
pub trait Runs<'src, I: Input<'src>, O, E: ParserExtra<I>, P: Parser<'src, I, O, E>, R>: Mode {
    ghost shown: { R → Option O };

    /// Runs one parser.
    fn go(&self, parser: &P, inp: &mut InputRef<'src, '_, I, E>) -> PResult<R>
        requires { P.ready parser.now }
        ensures ran { RunsDoing I.Input E.Error.Error E.State.Inspector
            (P.meaning parser.now) Self.wanted inp.old inp.new (shown_by shown result) }
        ensures lent { inp.new.state.ghost_name ≡ inp.old.state.ghost_name };
}

/// Runs parsers for their values.
#[derive(Clone, Copy)]
pub struct ForValue;

impl Mode for ForValue {
    ghost wanted = { true };
}

impl<'src, I: Input<'src>, O, E: ParserExtra<I>, P: Parser<'src, I, O, E>> Runs<'src, I, O, E, P, O>
    for ForValue {
    ghost shown = { λ v. Some v };

    #[inline]
    fn go(&self, parser: &P, inp: &mut InputRef<'src, '_, I, E>) -> PResult<O> {
        parser.go_emit(inp)
    }
}

/// Runs parsers without their values.
#[derive(Clone, Copy)]
pub struct WithoutValue;

impl Mode for WithoutValue {
    ghost wanted = { false };
}

impl<'src, I: Input<'src>, O, E: ParserExtra<I>, P: Parser<'src, I, O, E>> Runs<
    'src,
    I,
    O,
    E,
    P,
    (),
> for WithoutValue {
    ghost shown = { λ _. None };

    #[inline]
    fn go(&self, parser: &P, inp: &mut InputRef<'src, '_, I, E>) -> PResult<()> {
        parser.go_check(inp)
    }
}
