//! Round brackets around square ones, and these around round ones: two functions that call each other.
use crate::pairs::run_steady;
use chumsky_combinator::delimited_by::DelimitedBy;
use chumsky_combinator::ignored::Ignored;
use chumsky_combinator::or_not::OrNot;
use chumsky_combinator::part::run_part;
use chumsky_descent::recursive::{Recursion, RunsUnder, recursive_as};
use chumsky_input::extra::RichText;
use chumsky_input::input_ref::InputRef;
use chumsky_input::stop::PResult;
use chumsky_parser::parser::Parser;
use chumsky_primitive::just::Just;
use chumsky_primitive::make::just;
use std::marker::PhantomData;

/// What the body of `round` means.
#[derive(Drop)]
pub struct OfRound;

/// What the body of `square` means.
#[derive(Drop)]
pub struct OfSquare;

impl<'src> Recursion<'src, &'src str, (), RichText> for OfRound {
    ghost use Rattle.std.specs.Prelude.{true};
    ghost use Rattle.std.specs.Prelude.{[], ◌∷◌};
    ghost use Rattle.chumsky_primitive.specs.JustLaws.{just-agrees};
    ghost use Rattle.brackets.specs.Shapes.{shapes};

    ghost says = { λ errors states. shapes states.mark states.back states.takes_no_memory
        (λ c. ⟦<Just<char, &'src str, RichText> as Parser<'src, &'src str, char, RichText>>⟧.meaning (record { seq = c; of = record {} }) errors states)
        _ (λ c. just-agrees _ _ _ _ _ _ (c ∷ [])) true };
}

impl<'src> Recursion<'src, &'src str, (), RichText> for OfSquare {
    ghost use Rattle.std.specs.Prelude.{false};
    ghost use Rattle.std.specs.Prelude.{[], ◌∷◌};
    ghost use Rattle.chumsky_primitive.specs.JustLaws.{just-agrees};
    ghost use Rattle.brackets.specs.Shapes.{shapes};

    ghost says = { λ errors states. shapes states.mark states.back states.takes_no_memory
        (λ c. ⟦<Just<char, &'src str, RichText> as Parser<'src, &'src str, char, RichText>>⟧.meaning (record { seq = c; of = record {} }) errors states)
        _ (λ c. just-agrees _ _ _ _ _ _ (c ∷ [])) false };
}

/// Round brackets, perhaps with square ones in them.
#[cycle(shapes)]
pub fn round<'src>(
    inp: &mut InputRef<'src, '_, &'src str, RichText>,
    wanted: bool,
    depth: usize,
) -> PResult<Option<()>>
    ensures { ⟦<OfRound as RunsUnder<'src, &'src str, (), RichText>>⟧.runs depth wanted inp.old inp.new result }
{
    let pair = DelimitedBy {
        parser: OrNot {
            parser: recursive_as::<OfSquare, _, _, _, _>(square, depth),
        },
        opening: just('('),
        closing: just(')'),
        of: PhantomData,
    };
    run_part(
        &Ignored {
            parser: pair,
            of: PhantomData,
        },
        wanted,
        inp,
    )
}

/// Square brackets, perhaps with round ones in them.
#[cycle(shapes)]
pub fn square<'src>(
    inp: &mut InputRef<'src, '_, &'src str, RichText>,
    wanted: bool,
    depth: usize,
) -> PResult<Option<()>>
    ensures { ⟦<OfSquare as RunsUnder<'src, &'src str, (), RichText>>⟧.runs depth wanted inp.old inp.new result }
{
    let pair = DelimitedBy {
        parser: OrNot {
            parser: recursive_as::<OfRound, _, _, _, _>(round, depth),
        },
        opening: just('['),
        closing: just(']'),
        of: PhantomData,
    };
    run_part(
        &Ignored {
            parser: pair,
            of: PhantomData,
        },
        wanted,
        inp,
    )
}

/// Both are steady.
pub fn steady_shapes<'src>(
    inp: &mut InputRef<'src, '_, &'src str, RichText>,
    depth: usize,
) -> PResult<Option<()>> {
    run_steady(&recursive_as::<OfRound, _, _, _, _>(round, depth), inp)?;
    run_steady(&recursive_as::<OfSquare, _, _, _, _>(square, depth), inp)
}
