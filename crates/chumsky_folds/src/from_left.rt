//! All items, folded from the left.
ghost use Rattle.std.specs.Prelude.{◌≡◌, true, ⊤};
ghost use Rattle.chumsky_input.specs.Run.{Runs, with_value};
ghost use Rattle.chumsky_folds.specs.Running.{DoesFold};

use crate::folder::Folder;
use chumsky_input::extra::ParserExtra;
use chumsky_input::input::Input;
use chumsky_input::input_ref::InputRef;
use chumsky_input::stop::{Fault, PResult, Stop};
use chumsky_parser::iter::{IterParser, IterParserDebug};

/// Runs over all items, and takes each into the accumulator, which is first as given.
#[inline(always)]
pub(crate) fn fold_from_left<
    'src,
    I: Input<'src>,
    B: Drop,
    O: Drop,
    E: ParserExtra<I>,
    A: IterParser<'src, I, O, E>,
    F: Folder<B, O>,
>(first: B, parser: &A, folder: &F, inp: &mut InputRef<'src, '_, I, E>) -> PResult<B>
    requires ready { A.ready parser.now }
    requires callable { F.callable folder.now }
    ensures ran { Runs I.Input E.Error.Error E.State.Inspector (DoesFold (A.begins parser.now) (A.gives parser.now) (F.gives folder.now) first E.Error.Error E.State.Inspector) true inp.old inp.new (with_value result) }
    ensures lent { inp.new.state.ghost_name ≡ inp.old.state.ghost_name }
{
    let mut state = parser.make_iter(inp)?;
    let mut accumulator = first;
    let mut count = 0usize;
    let debug = IterParserDebug {
        nonconsumption_is_ok: false,
    };
    loop {
        match parser.next_emit(inp, &mut state, debug)? {
            None => return Ok(accumulator),
            Some(item) => {
                if count == usize::MAX {
                    return Err(Fault::Stop(Stop::CountTooLarge));
                }
                count += 1;
                accumulator = folder.step(accumulator, item);
            }
        }
    }
}
