//! Rounds over a row of parts, and the last pass.
ghost use Rattle.std.specs.Prelude.{◌≡◌};
ghost use Rattle.chumsky_set.specs.Doing.{RunsAnyOrder};
ghost use Rattle.chumsky_set.specs.Passes.{shown_by};

use crate::mode::Mode;
use crate::row::PartsRow;
use chumsky_input::extra::ParserExtra;
use chumsky_input::input::Input;
use chumsky_input::input_ref::InputRef;
use chumsky_input::stop::PResult;

/// Runs the parts of a row in any order.
#[inline]
pub fn in_any_order<
    'src,
    I: Input<'src>,
    E: ParserExtra<I>,
    D: Mode,
    V,
    S: Drop,
    R,
    M: PartsRow<'src, I, E, D, V, S, R>,
>(row: &M, slots: S, inp: &mut InputRef<'src, '_, I, E>) -> PResult<R>
    requires ready { M.ready row.now }
    requires fits { M.fits row.now slots }
    ensures ran { RunsAnyOrder I.Input E.Error.Error E.State.Inspector
        (M.passes row.now) (M.taken slots) D.wanted inp.old inp.new (shown_by M.shown result) }
    ensures lent { inp.new.state.ghost_name ≡ inp.old.state.ghost_name }
{
    let mut slots = slots;
    'rounds: loop {
        let more = row.round(&mut slots, inp)?;
        if !more {
            break 'rounds;
        }
    }
    row.last(slots, inp)
}
