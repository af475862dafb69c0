//! Bodies of parts that take a token wherever they succeed.
ghost use Rattle.std.specs.Prelude.{◌≡◌, IfOk, is_some, true};
ghost use Rattle.chumsky_input.specs.Run.{Runs};
ghost use Rattle.chumsky_combinator.specs.Part.{Onward};
ghost use Rattle.chumsky.specs.Values.{Taking};

use chumsky_combinator::part::run_part;
use chumsky_input::extra::ParserExtra;
use chumsky_input::input::Input;
use chumsky_input::input_ref::InputRef;
use chumsky_input::stop::PResult;
use chumsky_parser::moving::Moving;

/// Runs a parser that takes a token wherever it succeeds as the body of a part, as `run_part` does, and says so of the part. An
/// `enum` of leaves whose `run` calls it, as `run_moving(&just('['), wanted, inp)`, needs to say no more of them than
/// `ghost means = { λ _ _ _. TakesAToken }` for `close_founded` to know that they move.
#[inline]
pub fn run_moving<'src, I: Input<'src>, O, E: ParserExtra<I>, P: Moving<'src, I, O, E>>(
    parser: &P,
    wanted: bool,
    inp: &mut InputRef<'src, '_, I, E>,
) -> PResult<Option<O>>
    requires ready { P.ready parser.now }
    requires moves { P.moves parser.now ≡ true }
    ensures ran { Runs I.Input E.Error.Error E.State.Inspector (Onward (Taking (P.meaning parser.now E.Error.Error E.State.Inspector))) wanted inp.old inp.new result }
    ensures as_wanted { IfOk result (λ value. is_some value ≡ wanted) }
    ensures lent { inp.new.state.ghost_name ≡ inp.old.state.ghost_name }
{
    run_part(parser, wanted, inp)
}
