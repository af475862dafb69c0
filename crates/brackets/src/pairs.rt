//! Pairs of brackets within one another, by a function that calls itself and is known to be steady.
ghost use Rattle.std.specs.Prelude.{◌≡◌, true};

use chumsky_combinator::delimited_by::DelimitedBy;
use chumsky_combinator::ignored::Ignored;
use chumsky_combinator::or_not::OrNot;
use chumsky_combinator::part::run_part;
use chumsky_descent::moving::MovingRecursion;
use chumsky_descent::recursive::{Recursion, RunsUnder, recursive_as};
use chumsky_input::extra::RichText;
use chumsky_input::input_ref::InputRef;
use chumsky_input::stop::PResult;
use chumsky_parser::moving::Moving;
use chumsky_parser::parser::Parser;
use chumsky_primitive::just::Just;
use chumsky_primitive::make::just;
use std::marker::PhantomData;

/// What the body of `pairs` means.
#[derive(Drop)]
pub struct OfPairs;

impl<'src> Recursion<'src, &'src str, (), RichText> for OfPairs {
    ghost use Rattle.std.specs.Prelude.{[], ◌∷◌};
    ghost use Rattle.chumsky_parser.specs.FailureLaws.{SameUnit};
    ghost use Rattle.chumsky_parser.specs.Ignoring.{Gives, IgnoringFirst, Between};
    ghost use Rattle.chumsky_parser.specs.IgnoringLaws.{gives-agrees, ignoring_first-agrees, between-agrees};
    ghost use Rattle.chumsky_primitive.specs.JustLaws.{just-agrees};
    ghost use Rattle.chumsky_combinator.specs.Optional.{OrNone};
    ghost use Rattle.chumsky_combinator.specs.OptionalLaws.{or_none-agrees};
    ghost use Rattle.chumsky_descent.specs.Calls.{Steady};

    ghost says = { λ errors states. Steady SameUnit
        (λ depth call. IgnoringFirst (Between
        (⟦<Just<char, &'src str, RichText> as Parser<'src, &'src str, char, RichText>>⟧.meaning (record { seq = 91; of = record {} }) errors states)
        (OrNone states.mark states.back states.takes_no_memory call)
        (⟦<Just<char, &'src str, RichText> as Parser<'src, &'src str, char, RichText>>⟧.meaning (record { seq = 93; of = record {} }) errors states)) (Gives tt))
        (λ depth call. ignoring_first-agrees _ _ _ SameUnit
        (between-agrees _ _ _ _ _ _ (just-agrees _ _ _ _ _ _ (91 ∷ [])) (or_none-agrees _ _ _ _ SameUnit call) (just-agrees _ _ _ _ _ _ (93 ∷ [])))
        (gives-agrees tt SameUnit tt)) };
}

/// A pair moves, whatever stands in it, since its first bracket does.
impl<'src> MovingRecursion<'src, &'src str, (), RichText> for OfPairs {
    ghost use Rattle.std.specs.Prelude.{true, false, [], ◌∷◌};
    ghost use Rattle.std.proofs.Common.{refl};
    ghost use Rattle.chumsky_parser.specs.IgnoringLaws.{gives-ends, between-ends};
    ghost use Rattle.chumsky_primitive.specs.JustLaws.{just-ends};
    ghost use Rattle.chumsky_combinator.specs.OptionalLaws.{or_none-ends};
    ghost use Rattle.chumsky_parser.specs.ProgressLaws.{never, between-moves, ignoring_first-moves};
    ghost use Rattle.chumsky_primitive.specs.PrimitivesMove.{just-moves};

    ghost moves = { true };

    ghost moved = { λ _ depth ends call. ignoring_first-moves _ _ true false
        (between-ends _ _ _ (just-ends _ _ _ _ _ _ (91 ∷ [])) (or_none-ends _ _ _ _ ends) (just-ends _ _ _ _ _ _ (93 ∷ []))) (gives-ends tt)
        (λ _. between-moves _ _ _ true false false (just-ends _ _ _ _ _ _ (91 ∷ [])) (or_none-ends _ _ _ _ ends) (just-ends _ _ _ _ _ _ (93 ∷ []))
        (λ _. just-moves _ _ _ _ _ _ (91 ∷ []) refl) never never refl)
        never refl };

    fn always_moves() -> bool
        ensures { result ≡ true }
    {
        true
    }
}

/// A pair of brackets, perhaps with another in it.
pub fn pairs<'src>(
    inp: &mut InputRef<'src, '_, &'src str, RichText>,
    wanted: bool,
    depth: usize,
) -> PResult<Option<()>>
    ensures { ⟦<OfPairs as RunsUnder<'src, &'src str, (), RichText>>⟧.runs depth wanted inp.old inp.new result }
{
    let pair = DelimitedBy {
        parser: OrNot {
            parser: recursive_as::<OfPairs, _, _, _, _>(pairs, depth),
        },
        opening: just('['),
        closing: just(']'),
        of: PhantomData,
    };
    run_part(
        &Ignored {
            parser: pair,
            of: PhantomData,
        },
        wanted,
        inp,
    )
}

/// Runs a parser that is steady.
pub fn run_steady<'src, P: Parser<'src, &'src str, (), RichText>>(
    parser: &P,
    inp: &mut InputRef<'src, '_, &'src str, RichText>,
) -> PResult<Option<()>>
    requires ready { P.ready parser.now }
    requires steady { P.steady parser.now }
{
    run_part(parser, true, inp)
}

/// A call of `pairs` is steady.
pub fn steady_pairs<'src>(
    inp: &mut InputRef<'src, '_, &'src str, RichText>,
    depth: usize,
) -> PResult<Option<()>> {
    run_steady(&recursive_as::<OfPairs, _, _, _, _>(pairs, depth), inp)
}

/// Runs a parser that moves.
pub fn run_moving<'src, P: Moving<'src, &'src str, (), RichText>>(
    parser: &P,
    inp: &mut InputRef<'src, '_, &'src str, RichText>,
) -> PResult<Option<()>>
    requires ready { P.ready parser.now }
    requires moves { P.moves parser.now ≡ true }
{
    run_part(parser, true, inp)
}

/// A call of `pairs` moves.
pub fn moving_pairs<'src>(
    inp: &mut InputRef<'src, '_, &'src str, RichText>,
    depth: usize,
) -> PResult<Option<()>> {
    run_moving(&recursive_as::<OfPairs, _, _, _, _>(pairs, depth), inp)
}
