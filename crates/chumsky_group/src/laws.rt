//! Laws that compare groups with sequences, each the contract of a function that does nothing.
ghost use Rattle.chumsky_combinator.specs.Built.{then_of};
ghost use Rattle.chumsky_combinator.specs.Compared.{DoesSame, DoesShown};
ghost use Rattle.chumsky_group.specs.Regrouped.{three_of_pairs, pairs_of_three};
ghost use Rattle.chumsky_group.specs.Paired.{group_of};

use crate::group::Group;
use chumsky_combinator::then::Then;
use chumsky_input::extra::ParserExtra;
use chumsky_input::input::Input;
use chumsky_parser::parser::Parser;

/// `group((a, b))` has the outcomes of `a.then(b)`, and no others.
pub fn group_of_two_is_then<
    'src,
    I: Input<'src>,
    O: Drop,
    U,
    E: ParserExtra<I>,
    A: Parser<'src, I, O, E>,
    B: Parser<'src, I, U, E>,
>(a: &A, b: &B)
    ensures { DoesSame E.Error.Error E.State.Inspector
        (⟦<Group<(A, B)> as Parser<'src, I, (O, U), E>>⟧.meaning (record { parsers = (a.now, b.now) }))
        (⟦<Then<A, B, O, U> as Parser<'src, I, (O, U), E>>⟧.meaning (then_of a.now b.now)) }
{}

/// `group((a, b, c))` has the outcomes of `a.then(b).then(c)`, which is `t`, and no others, up to the grouping of the values.
pub fn group_of_three_is_then_twice<
    'src,
    I: Input<'src>,
    O: Drop,
    U: Drop,
    V,
    E: ParserExtra<I>,
    A: Parser<'src, I, O, E>,
    B: Parser<'src, I, U, E>,
    C: Parser<'src, I, V, E>,
>(t: &Then<Then<A, B, O, U>, C, (O, U), V>)
    ensures grouped { DoesShown E.Error.Error E.State.Inspector three_of_pairs
        (⟦<Then<Then<A, B, O, U>, C, (O, U), V> as Parser<'src, I, ((O, U), V), E>>⟧.meaning t.now)
        (⟦<Group<(A, B, C)> as Parser<'src, I, (O, U, V), E>>⟧.meaning (group_of t.now)) }
    ensures paired { DoesShown E.Error.Error E.State.Inspector pairs_of_three
        (⟦<Group<(A, B, C)> as Parser<'src, I, (O, U, V), E>>⟧.meaning (group_of t.now))
        (⟦<Then<Then<A, B, O, U>, C, (O, U), V> as Parser<'src, I, ((O, U), V), E>>⟧.meaning t.now) }
{}
