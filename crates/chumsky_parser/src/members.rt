//! The members of a sequence, one by one.
ghost use Rattle.std.specs.Prelude.{◌≡◌, map};
ghost use Rattle.std.specs.Iterator.{YieldsFirstBy, item_count};
ghost use Rattle.chumsky_input.specs.Wanted.{wanted, Token};

use crate::container::Seq;
use chumsky_input::util::DefaultExpected;
use std::marker::PhantomData;

/// The members of a sequence as what was expected, in order.
#[derive(Drop)]
pub struct Members<'s, S, T> {
    pub seq: &'s S,
    pub at: usize,
    pub of: PhantomData<T>,
}

impl<'s, T: PartialEq, S: Seq<T>> Members<'s, S, T> {
    /// All the members.
    #[inline]
    pub fn of(seq: &'s S) -> Members<'s, S, T>
        ensures { S.members_from result.seq.now result.at ≡ S.members seq.now }
    {
        Members {
            seq,
            at: 0,
            of: PhantomData,
        }
    }
}

impl<'s, T: PartialEq + 's, S: Seq<T>> Iterator for Members<'s, S, T> {
    type Item = DefaultExpected<'s, T>;

    ghost next_gives = { YieldsFirstBy wanted (λ s. map Token (S.members_from s.seq.now s.at)) };

    ghost remaining = { item_count (λ s. map Token (S.members_from s.seq.now s.at)) };

    #[inline]
    fn next(&mut self) -> Option<DefaultExpected<'s, T>> {
        match self.seq.seq_at(self.at) {
            None => None,
            Some((token, next)) => {
                self.at = next;
                Some(DefaultExpected::Token(token))
            }
        }
    }

    #[inline]
    fn size_hint(&self) -> (usize, Option<usize>) {
        (0, self.seq.most_members())
    }
}
