//! What makes a group.
ghost use Rattle.std.specs.Prelude.{◌≡◌};

use crate::group::Group;

/// Parsers in turn, each from where the one before it ended; the output is all of theirs. The first failure is the
/// whole's, and what was made before it is dropped.
///
/// A tuple of one to eight parsers gives the tuple of their outputs: `group((any(), just("->"), any()))` gives `('a',
/// "->", 'b')` on `a->b`. An array of parsers, all of one type, gives an `ArrayVec` of that many items:
/// `group([just('a'), just('b')])`. It holds defaults until it is filled, so the outputs are `Default`; an array of no
/// parsers says yes and takes nothing. Neither asks for memory.
#[inline]
pub fn group<T>(parsers: T) -> Group<T>
    ensures { result ≡ record { parsers = parsers } }
{
    Group { parsers }
}
