//! Groups that are arrays.
ghost use Rattle.std.specs.Prelude.{◌≡◌, length, map};
ghost use Rattle.chumsky_parser.specs.ByParts.{OutOnlyByEach};
ghost use Rattle.std.specs.List.{All};
ghost use Rattle.chumsky_group.specs.InTurn.{SameVectors};

use crate::group::Group;
use arrayvec::ArrayVec;
use chumsky_input::extra::ParserExtra;
use chumsky_input::input::Input;
use chumsky_input::input_ref::InputRef;
use chumsky_input::stop::PResult;
use chumsky_parser::parser::{IsParser, Parser};

impl<I, O, E, P: IsParser<I, O, E>, const N: usize> IsParser<I, ArrayVec<O, N>, E>
    for Group<[P; N]> {}

impl<
    'src,
    I: Input<'src>,
    O: Default + Drop,
    E: ParserExtra<I>,
    P: Parser<'src, I, O, E>,
    const N: usize,
> Parser<'src, I, ArrayVec<O, N>, E> for Group<[P; N]> {
    ghost use Rattle.std.specs.Prelude.{map};
    ghost use Rattle.std.specs.List.{All};
    ghost use Rattle.chumsky_parser.specs.ChoiceLaws.{each-ends, each-agrees};
    ghost use Rattle.chumsky_group.specs.InTurn.{InTurn, SameVectors};
    ghost use Rattle.chumsky_group.specs.InTurnLaws.{in_turn-ends, in_turn-agrees};
    ghost use Rattle.chumsky_group.specs.InTurnLanguage.{in_turn_language, in_turn-accepts};

    ghost ready = { λ p. All P.ready p.parsers };

    ghost meaning = { λ p errors states. InTurn (map (λ q. P.meaning q errors states) p.parsers) };

    ghost steady = { λ p. All P.steady p.parsers };

    ghost same = { λ p. SameVectors (map P.same p.parsers) };

    ghost language = { λ p. in_turn_language P.language p.parsers };

    ghost ends_after_start = { λ p. in_turn-ends _ (each-ends _ P.ends_after_start p.parsers) };

    ghost agrees = { λ p s. in_turn-agrees _ _ (each-agrees _ P.steady P.same P.agrees p.parsers s) };

    ghost accepts = { λ p. in_turn-accepts _ P.language P.ends_after_start P.accepts p.parsers };

    #[inline]
    fn go_emit(&self, inp: &mut InputRef<'src, '_, I, E>) -> PResult<ArrayVec<O, N>> {
        let parsers = slice_of(&self.parsers);
        let mut outputs = ArrayVec::new();
        for parser in parsers {
            outputs.push(parser.go_emit(inp)?);
        }
        Ok(outputs)
    }

    #[inline]
    fn go_check(&self, inp: &mut InputRef<'src, '_, I, E>) -> PResult<()> {
        let parsers: &[P] = &self.parsers;
        for parser in parsers {
            parser.go_check(inp)?;
        }
        Ok(())
    }
}

/// The parsers of an array, which are `N`.
#[inline]
fn slice_of<P, const N: usize>(parsers: &[P; N]) -> &[P]
    ensures all { result.now ≡ parsers.now }
    ensures sized { length result.now ≡ N }
{
    parsers
}

/// Never refused for memory where no part is: `group` of the parsers of an array.
pub fn group_of_an_array_is_never_out_of_memory<
    'src,
    I: Input<'src>,
    O: Default + Drop,
    E: ParserExtra<I>,
    P: Parser<'src, I, O, E>,
    const N: usize,
>(group: &Group<[P; N]>)
    ensures { OutOnlyByEach E.Error.Error E.State.Inspector
        P.meaning group.now.parsers
        (⟦<Group<[P; N]> as Parser<'src, I, ArrayVec<O, N>, E>>⟧.meaning group.now) }
{}

/// When it is ready and steady, and which outputs are the same: a group of the parsers of an array.
pub fn group_of_an_array_is_steady<
    'src,
    I: Input<'src>,
    O: Default + Drop,
    E: ParserExtra<I>,
    P: Parser<'src, I, O, E>,
    const N: usize,
>(group: &Group<[P; N]>)
    ensures ready { All P.ready group.now.parsers → ⟦<Group<[P; N]> as Parser<'src, I, ArrayVec<O, N>, E>>⟧.ready group.now }
    ensures steady { All P.steady group.now.parsers → ⟦<Group<[P; N]> as Parser<'src, I, ArrayVec<O, N>, E>>⟧.steady group.now }
    ensures same { (x y : _) → ⟦<Group<[P; N]> as Parser<'src, I, ArrayVec<O, N>, E>>⟧.same group.now x y → SameVectors (map P.same group.now.parsers) x y }
{}
