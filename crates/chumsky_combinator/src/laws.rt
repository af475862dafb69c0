//! Laws that compare parsers, each the contract of a function that does nothing.
ghost use Rattle.chumsky_combinator.specs.AsParsers.{AgreesOnSecond, OrAgreesByOne, MapsSameIfBlind, Regroups, Ungroups};
ghost use Rattle.chumsky_combinator.specs.Optional.{NeverSaysNo};

use crate::ignore_then::IgnoreThen;
use crate::map::{Map, Mapper};
use crate::map_with::{MapWith, MapperWith};
use crate::or::Or;
use crate::or_not::OrNot;
use crate::then::Then;
use chumsky_input::extra::ParserExtra;
use chumsky_input::input::Input;
use chumsky_parser::parser::Parser;

/// For steady parsers, where both answer, `a.then(b)` agrees with `a.ignore_then(b)`: the same verdict, end, errors and
/// state, and the second part of the pair is the output.
pub fn ignore_then_agrees_with_then<
    'src,
    I: Input<'src>,
    O: Drop,
    U,
    E: ParserExtra<I>,
    A: Parser<'src, I, O, E>,
    B: Parser<'src, I, U, E>,
>(a: &A, b: &B)
    ensures { A.steady a.now → B.steady b.now → AgreesOnSecond E.Error.Error E.State.Inspector (B.same b.now)
        ⟦<Then<A, B, O, U> as Parser<'src, I, (O, U), E>>⟧.meaning
        ⟦<IgnoreThen<A, B, O> as Parser<'src, I, U, E>>⟧.meaning a.now b.now }
{}

/// `a.or_not()` never fails.
pub fn or_not_never_says_no<'src, I: Input<'src>, O, E: ParserExtra<I>, A: Parser<'src, I, O, E>>(
    a: &A,
)
    ensures { NeverSaysNo
        (⟦<OrNot<A> as Parser<'src, I, Option<O>, E>>⟧.meaning (record { parser = a.now }) E.Error.Error E.State.Inspector) }
{}

/// Of two answers of a steady `a.or(b)`, from beginnings that differ at most in whether a value is wanted, one and the same
/// alternative stands in both, and their outputs are the same by what that one calls the same.
pub fn or_agrees_by_one_alternative<
    'src,
    I: Input<'src>,
    O,
    E: ParserExtra<I>,
    A: Parser<'src, I, O, E>,
    B: Parser<'src, I, O, E>,
>(first: &A, second: &B)
    ensures { A.steady first.now → B.steady second.now → OrAgreesByOne E.Error.Error E.State.Inspector
        A.same B.same A.meaning B.meaning ⟦<Or<A, B> as Parser<'src, I, O, E>>⟧.meaning first.now second.now }
{}

/// Where its mapper takes no notice of the run and leaves the state, `map_with` has the outcomes of `map` by a mapper with the
/// same answers.
pub fn map_with_by_a_blind_mapper_is_map<
    'src,
    I: Input<'src>,
    O,
    U,
    E: ParserExtra<I>,
    A: Parser<'src, I, O, E>,
    F: MapperWith<'src, I, O, U, E>,
    G: Mapper<O, U>,
>(map_with: &MapWith<A, O, F, U>, mapper: &G)
    ensures { MapsSameIfBlind E.Error.Error E.State.Inspector F.gives G.gives
        ⟦<MapWith<A, O, F, U> as Parser<'src, I, U, E>>⟧.meaning
        ⟦<Map<A, O, G, U> as Parser<'src, I, U, E>>⟧.meaning map_with.now mapper.now }
{}

/// `a.then(b).then(c)` has the outcomes of `a.then(b.then(c))`, up to the grouping of the pairs.
pub fn then_is_associative<
    'src,
    I: Input<'src>,
    O: Drop,
    U: Drop,
    V,
    E: ParserExtra<I>,
    A: Parser<'src, I, O, E>,
    B: Parser<'src, I, U, E>,
    C: Parser<'src, I, V, E>,
>(a: &A, b: &B, c: &C)
    ensures right { Regroups E.Error.Error E.State.Inspector
        ⟦<Then<Then<A, B, O, U>, C, (O, U), V> as Parser<'src, I, ((O, U), V), E>>⟧.meaning
        ⟦<Then<A, Then<B, C, U, V>, O, (U, V)> as Parser<'src, I, (O, (U, V)), E>>⟧.meaning a.now b.now c.now }
    ensures left { Ungroups E.Error.Error E.State.Inspector
        ⟦<Then<A, Then<B, C, U, V>, O, (U, V)> as Parser<'src, I, (O, (U, V)), E>>⟧.meaning
        ⟦<Then<Then<A, B, O, U>, C, (O, U), V> as Parser<'src, I, ((O, U), V), E>>⟧.meaning a.now b.now c.now }
{}
