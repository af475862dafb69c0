//! The next item of an iteration, and where it stands.
ghost use Rattle.std.specs.Prelude.{◌≡◌, ◌≤◌, true, IfOk, OnSome};
ghost use Rattle.chumsky_input.specs.Held.{held};
ghost use Rattle.chumsky_input.specs.Run.{Runs};
ghost use Rattle.chumsky_parser.specs.Items.{with_item};

use crate::iter::{IterParser, IterParserDebug};
use chumsky_input::extra::ParserExtra;
use chumsky_input::input::Input;
use chumsky_input::input_ref::InputRef;
use chumsky_input::stop::PResult;

/// The next item, or none at the end: a step of the parser, of which is known too that the run then stands in the same
/// input, and no earlier than before. So a loop that calls it can show the span of what its items took.
#[inline(always)]
pub fn next_item<'src, I: Input<'src>, O, E: ParserExtra<I>, A: IterParser<'src, I, O, E>>(
    parser: &A,
    inp: &mut InputRef<'src, '_, I, E>,
    state: &mut A::IterState,
    debug: IterParserDebug,
) -> PResult<Option<O>>
    requires { A.may_step parser.now state.old }
    ensures ran { Runs I.Input E.Error.Error E.State.Inspector (A.gives parser.now debug state.old E.Error.Error E.State.Inspector) true inp.old inp.new (with_item state.new result) }
    ensures may { IfOk result (λ o. OnSome o (A.may_step parser.now state.new)) }
    ensures tokens { (held I.Input E.Error.Error E.State.Inspector inp.new).tokens ≡ (held I.Input E.Error.Error E.State.Inspector inp.old).tokens }
    ensures onward { IfOk result (λ _. (held I.Input E.Error.Error E.State.Inspector inp.old).place ≤ (held I.Input E.Error.Error E.State.Inspector inp.new).place) }
    ensures lent { inp.new.state.ghost_name ≡ inp.old.state.ghost_name }
{
    parser.next_emit(inp, state, debug)
}
