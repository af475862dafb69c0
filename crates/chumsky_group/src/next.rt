//! One more part after an answer.
ghost use Rattle.std.specs.Prelude.{◌≡◌};
ghost use Rattle.chumsky_group.specs.Next.{EmitsBeside, ChecksBeside};

use chumsky_input::extra::ParserExtra;
use chumsky_input::input::Input;
use chumsky_input::input_ref::InputRef;
use chumsky_input::stop::PResult;
use chumsky_parser::parser::Parser;

/// After a value, the next parser's beside it; after a failure nothing is run.
#[inline(always)]
pub(crate) fn emit_after<
    'src,
    I: Input<'src>,
    O: Drop,
    U,
    E: ParserExtra<I>,
    P: Parser<'src, I, U, E>,
>(before: PResult<O>, next: &P, inp: &mut InputRef<'src, '_, I, E>) -> PResult<(O, U)>
    requires { P.ready next.now }
    ensures ran { EmitsBeside I.Input E.Error.Error E.State.Inspector
        (P.meaning next.now) before inp.old inp.new result }
    ensures lent { inp.new.state.ghost_name ≡ inp.old.state.ghost_name }
{
    let before = before?;
    let value = next.go_emit(inp)?;
    Ok((before, value))
}

/// After a yes, whether the next parser says yes; after a failure nothing is run.
#[inline(always)]
pub(crate) fn check_after<'src, I: Input<'src>, U, E: ParserExtra<I>, P: Parser<'src, I, U, E>>(
    before: PResult<()>,
    next: &P,
    inp: &mut InputRef<'src, '_, I, E>,
) -> PResult<()>
    requires { P.ready next.now }
    ensures ran { ChecksBeside I.Input E.Error.Error E.State.Inspector
        (P.meaning next.now) before inp.old inp.new result }
    ensures lent { inp.new.state.ghost_name ≡ inp.old.state.ghost_name }
{
    before?;
    next.go_check(inp)
}
