//! Brackets within brackets, by functions that call themselves.
#![tactic(auto)]

pub mod mutual;
pub mod pairs;

use chumsky_combinator::delimited_by::DelimitedBy;
use chumsky_combinator::map::Map;
use chumsky_combinator::or_not::OrNot;
use chumsky_combinator::part::run_part;
use chumsky_descent::recursive::{RunsUnder, Unsaid, recursive};
use chumsky_input::extra::RichText;
use chumsky_input::input_ref::InputRef;
use chumsky_input::stop::PResult;
use chumsky_primitive::make::just;
use std::marker::PhantomData;

/// How deep the brackets go.
pub fn brackets<'src>(
    inp: &mut InputRef<'src, '_, &'src str, RichText>,
    wanted: bool,
    depth: usize,
) -> PResult<Option<usize>>
    ensures { ⟦<Unsaid as RunsUnder<'src, &'src str, usize, RichText>>⟧.runs depth wanted inp.old inp.new result }
{
    let inside = OrNot {
        parser: recursive(brackets, depth),
    };
    let pair = DelimitedBy {
        parser: inside,
        opening: just('['),
        closing: just(']'),
        of: PhantomData,
    };
    let depth = Map {
        parser: pair,
        mapper: |inside: Option<usize>| inside.unwrap_or(0).saturating_add(1),
        of: PhantomData,
    };
    run_part(&depth, wanted, inp)
}
