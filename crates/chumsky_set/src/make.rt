//! The function that makes sets.
ghost use Rattle.std.specs.Prelude.{◌≡◌};

use crate::set::Set;

/// Each of some parsers once, in any order; the outputs are in the order of the parsers. They are a tuple of one to
/// four, whose outputs are a tuple; a `Vec`, whose outputs are a `Vec`; or an array `[P; N]`, whose outputs are an
/// `ArrayVec<O, N>`, full where the set succeeds.
///
/// In rounds, each parser that is not taken yet has its turn. One that succeeds and moves is taken for good; one that
/// fails, or succeeds where it began, is gone back from. After a round that takes none, what is left runs in order, and
/// its first failure is the whole's. So a parser that may be absent succeeds at last, where it is.
///
/// Over `cab`, `set((just('a'), just('b'), just('c')))` gives `('a', 'b', 'c')`; over `ba`,
/// `set([just('a'), just('b')])` gives an `ArrayVec` of `'a'` and `'b'`. What moved stays taken:
/// `set((just('a').or(just('b')), just('a')))` fails on `ab`, since its first parser takes the `a`.
///
/// Of many parsers each round tries all that are left, so their number counts squared.
///
/// What is taken stands in slots. A `Vec` asks for memory for them; an array doesn't, since its slots are an
/// `[Option<O>; N]` of the call's own. Its parsers run for their outputs in `check` too, which drops them. A set of an
/// array has the bound `[Option<O>; N]: Slots`: such an array fits in memory, as it does in each program that compiles.
/// Where `O` and `N` are known the check finds it by itself; a function that runs the set and is generic in one of them
/// names it as a bound.
#[inline]
pub fn set<T>(parsers: T) -> Set<T>
    ensures { result.parsers ≡ parsers }
{
    Set { parsers }
}
