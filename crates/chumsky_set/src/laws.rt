//! Laws of sets, each the contract of a function that does nothing.
ghost use Rattle.std.specs.Prelude.{◌+◌, length};
ghost use Rattle.chumsky_set.specs.Doing.{EachWithin, Set1Within, Set2Within, Set3Within, Set4Within, StoredWithin};

use crate::set::Set;
use arrayvec::ArrayVec;
use chumsky_input::extra::ParserExtra;
use chumsky_input::input::Input;
use chumsky_parser::parser::Parser;

/// A set of one to four parsers takes at most one round more than it has parsers before its last pass.
pub fn a_set_takes_at_most_one_round_more<
    'src,
    I: Input<'src>,
    O0: Drop,
    O1: Drop,
    O2: Drop,
    O3: Drop,
    E: ParserExtra<I>,
    P0: Parser<'src, I, O0, E>,
    P1: Parser<'src, I, O1, E>,
    P2: Parser<'src, I, O2, E>,
    P3: Parser<'src, I, O3, E>,
>(one: &Set<(P0,)>, two: &Set<(P0, P1)>, three: &Set<(P0, P1, P2)>, four: &Set<(P0, P1, P2, P3)>)
    ensures one { let t = one.now.parsers in Set1Within E.Error.Error E.State.Inspector 2
        (P0.meaning t.0)
        (⟦<Set<(P0,)> as Parser<'src, I, (O0,), E>>⟧.meaning one.now) }
    ensures two { let t = two.now.parsers in Set2Within E.Error.Error E.State.Inspector 3
        (P0.meaning t.0) (P1.meaning t.1)
        (⟦<Set<(P0, P1)> as Parser<'src, I, (O0, O1), E>>⟧.meaning two.now) }
    ensures three { let t = three.now.parsers in Set3Within E.Error.Error E.State.Inspector 4
        (P0.meaning t.0) (P1.meaning t.1) (P2.meaning t.2)
        (⟦<Set<(P0, P1, P2)> as Parser<'src, I, (O0, O1, O2), E>>⟧.meaning three.now) }
    ensures four { let t = four.now.parsers in Set4Within E.Error.Error E.State.Inspector 5
        (P0.meaning t.0) (P1.meaning t.1) (P2.meaning t.2) (P3.meaning t.3)
        (⟦<Set<(P0, P1, P2, P3)> as Parser<'src, I, (O0, O1, O2, O3), E>>⟧.meaning four.now) }
{}

/// A set of the parsers of a `Vec` or an array takes at most one round more than it has parsers before its last pass.
pub fn a_list_takes_at_most_one_round_more<
    'src,
    I: Input<'src>,
    O: Drop,
    U: Default + Drop,
    E: ParserExtra<I>,
    P: Parser<'src, I, O, E>,
    Q: Parser<'src, I, U, E>,
    const N: usize,
>(vec: &Set<Vec<P>>, array: &Set<[Q; N]>)
    ensures vec { EachWithin E.Error.Error E.State.Inspector (length vec.now.parsers.items + 1)
        P.meaning (λ v. v.items) vec.now.parsers.items
        (⟦<Set<Vec<P>> as Parser<'src, I, Vec<O>, E>>⟧.meaning vec.now) }
    ensures array { StoredWithin E.Error.Error E.State.Inspector (length array.now.parsers + 1)
        Q.meaning (λ v. v.items) array.now.parsers
        (⟦<Set<[Q; N]> as Parser<'src, I, ArrayVec<U, N>, E>>⟧.meaning array.now) }
{}
