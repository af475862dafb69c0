//! What the test of a token leads to: the token is taken, or gone back from.
ghost use Rattle.std.specs.Prelude.{◌≡◌};
ghost use Rattle.chumsky_primitive.specs.Tested.{MovesPast, GoesBackFrom, TellsState};

use chumsky_input::extra::ParserExtra;
use chumsky_input::input::Input;
use chumsky_input::input_ref::InputRef;
use chumsky_input::inspector::Inspector;
use chumsky_input::util::MaybeRef;
use std::alloc::AllocError;

/// Takes a token that lies ahead: the cursor moves past it, and the state is told.
#[inline]
pub fn take<'src, I: Input<'src>, E: ParserExtra<I>>(
    token: &I::Token,
    past: I::Cursor,
    inp: &mut InputRef<'src, '_, I, E>,
)
    ensures moves { MovesPast I.Input E.Error.Error E.State.Inspector token.now past inp.old inp.new }
    ensures lent { inp.new.state.ghost_name ≡ inp.old.state.ghost_name }
{
    inp.move_to(past);
    inp.state.on_token(token);
}

/// Goes back from what was found, as if it had been taken: the state is told of it first.
#[inline]
pub fn go_back_from<'src, I: Input<'src>, E: ParserExtra<I>>(
    found: &Option<MaybeRef<'src, I::Token>>,
    inp: &mut InputRef<'src, '_, I, E>,
) -> Result<(), AllocError>
    ensures back { GoesBackFrom I.Input E.Error.Error E.State.Inspector found.now inp.old inp.new result }
    ensures lent { inp.new.state.ghost_name ≡ inp.old.state.ghost_name }
{
    let before = inp.save()?;
    tell(found, inp);
    inp.rewind(&before)
}

/// Tells the state of what was found, if it is a token.
#[inline]
fn tell<'src, I: Input<'src>, E: ParserExtra<I>>(
    found: &Option<MaybeRef<'src, I::Token>>,
    inp: &mut InputRef<'src, '_, I, E>,
)
    ensures tells { TellsState I.Input E.Error.Error E.State.Inspector found.now inp.old inp.new }
    ensures lent { inp.new.state.ghost_name ≡ inp.old.state.ghost_name }
{
    match found {
        Some(token) => inp.state.on_token(token.get()),
        None => {}
    }
}
