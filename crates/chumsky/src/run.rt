//! One run of a parser over a whole input.
ghost use Rattle.std.specs.Prelude.{◌≡◌, true, false, Some, None};
ghost use Rattle.chumsky_input.specs.Run.{Runs, with_value, without_value};
ghost use Rattle.chumsky.specs.Answer.{ParseGives, CheckGives, WholeRun};

use chumsky_input::extra::ParserExtra;
use chumsky_input::input::Input;
use chumsky_input::input_ref::{Finished, InputRef};
use chumsky_input::stop::{PResult, Stop};
use chumsky_parser::parser::Parser;
use chumsky_parser::result::ParseResult;
use chumsky_parser::settle::settle;
use chumsky_primitive::end::End;
use std::alloc::Global;
use std::marker::PhantomData;

/// The parser, and then the end of input.
#[inline]
fn whole_emit<'src, I: Input<'src>, O: Drop, E: ParserExtra<I>, P: Parser<'src, I, O, E>>(
    parser: &P,
    inp: &mut InputRef<'src, '_, I, E>,
) -> PResult<O>
    requires { P.ready parser.now }
    ensures ran { Runs I.Input E.Error.Error E.State.Inspector (WholeRun I.Input E.Error.Error E.State.Inspector (P.meaning parser.now E.Error.Error E.State.Inspector)) true inp.old inp.new (with_value result) }
    ensures lent { inp.new.state.ghost_name ≡ inp.old.state.ghost_name }
{
    let value = parser.go_emit(inp)?;
    let end: End<I, E> = End { of: PhantomData };
    end.go_check(inp)?;
    Ok(value)
}

/// The same without the output.
#[inline]
fn whole_check<'src, I: Input<'src>, O, E: ParserExtra<I>, P: Parser<'src, I, O, E>>(
    parser: &P,
    inp: &mut InputRef<'src, '_, I, E>,
) -> PResult<()>
    requires { P.ready parser.now }
    ensures ran { Runs I.Input E.Error.Error E.State.Inspector (WholeRun I.Input E.Error.Error E.State.Inspector (P.meaning parser.now E.Error.Error E.State.Inspector)) false inp.old inp.new (without_value result) }
    ensures lent { inp.new.state.ghost_name ≡ inp.old.state.ghost_name }
{
    parser.go_check(inp)?;
    let end: End<I, E> = End { of: PhantomData };
    end.go_check(inp)?;
    Ok(())
}

/// `ParserExt::parse_with_state`.
pub(crate) fn parse_with_state<
    'src,
    I: Input<'src>,
    O: Drop,
    E: ParserExtra<I>,
    P: Parser<'src, I, O, E>,
>(
    parser: &P,
    alloc: Global,
    input: I,
    state: &mut E::State,
) -> Result<ParseResult<O, E::Error>, Stop>
where
    E::Context: Default + Drop,
    I::Token: 'src,
    requires { P.ready parser.now }
    ensures { ParseGives I.Input E.Error.Error E.State.Inspector E.Context.is_default P.Parser parser.now (I.tokens input) (E.State.seen state.old) (E.State.seen state.new) result }
{
    let context = E::Context::default();
    let mut inp: InputRef<'src, '_, I, E> = InputRef::new(alloc, input, state, &context);
    let answer = whole_emit(parser, &mut inp);
    let output = settle(&mut inp, answer);
    let Finished {
        cursor: _,
        state: last,
        errors,
    } = inp.finish();
    let _last = &*last;
    match output {
        Ok(output) => Ok(ParseResult {
            output,
            errors: errors.emitted,
        }),
        Err(stop) => Err(stop),
    }
}

/// `ParserExt::check_with_state`.
pub(crate) fn check_with_state<
    'src,
    I: Input<'src>,
    O,
    E: ParserExtra<I>,
    P: Parser<'src, I, O, E>,
>(
    parser: &P,
    alloc: Global,
    input: I,
    state: &mut E::State,
) -> Result<ParseResult<(), E::Error>, Stop>
where
    E::Context: Default + Drop,
    I::Token: 'src,
    requires { P.ready parser.now }
    ensures { CheckGives I.Input E.Error.Error E.State.Inspector E.Context.is_default P.Parser parser.now (I.tokens input) (E.State.seen state.old) (E.State.seen state.new) result }
{
    let context = E::Context::default();
    let mut inp: InputRef<'src, '_, I, E> = InputRef::new(alloc, input, state, &context);
    let answer = whole_check(parser, &mut inp);
    let output = settle(&mut inp, answer);
    let Finished {
        cursor: _,
        state: last,
        errors,
    } = inp.finish();
    let _last = &*last;
    match output {
        Ok(output) => Ok(ParseResult {
            output,
            errors: errors.emitted,
        }),
        Err(stop) => Err(stop),
    }
}
