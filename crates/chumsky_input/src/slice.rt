//! Slices of tokens as inputs.
ghost use Rattle.std.specs.Prelude.{◌≡◌, ◌+◌, ◌≤◌, List, ⊤, length, slice_get, slice_range, option_map, MatchOption, MatchResult};
ghost use Rattle.chumsky_input.specs.Layout.{list_layout};
ghost use Rattle.chumsky_input.specs.Maybe.{ref_value};

use crate::input::{BorrowInput, Input, SliceInput, Tokens, ValueInput};
use crate::same::SameClone;
use crate::span::SimpleSpan;
use crate::util::MaybeRef;
use std::alloc::AllocError;

/// A place in a slice.
pub struct SliceCursor<'src, T> {
    tokens: &'src [T],
    place: usize,
    ghost within: { place ≤ length tokens.now },
}

impl<'src, T> Clone for SliceCursor<'src, T> {
    ghost is_clone = { λ x y. y ≡ x };

    ghost is_infallible = { λ _. ⊤ };

    #[inline]
    fn clone(&self) -> Result<SliceCursor<'src, T>, AllocError> {
        Ok(*self)
    }
}

impl<'src, T> Copy for SliceCursor<'src, T> {}

impl<'src, T: Drop> Tokens for &'src [T] {
    type Token = T;

    type Span = SimpleSpan;
}

/// Offsets are indices.
impl<'src, T: Drop> Input<'src> for &'src [T] {
    type Cursor = SliceCursor<'src, T>;

    ghost tokens = { λ s. list_layout s.now };

    ghost cursor_tokens = { λ c. list_layout c.tokens.now };

    ghost place = { λ c. c.place };

    ghost span_between = { λ l i j. l.span i j };

    ghost within = { λ c. c.within };

    #[inline]
    fn begin(self) -> SliceCursor<'src, T> {
        let _count = self.len();
        SliceCursor {
            tokens: self,
            place: 0,
        }
    }

    #[inline]
    fn next_maybe(cursor: &mut SliceCursor<'src, T>) -> Option<MaybeRef<'src, T>> {
        match take(cursor) {
            None => None,
            Some(token) => Some(MaybeRef::Ref(token)),
        }
    }

    #[inline]
    fn place(cursor: &SliceCursor<'src, T>) -> usize {
        cursor.place
    }

    #[inline]
    fn span(from: &SliceCursor<'src, T>, to: &SliceCursor<'src, T>) -> SimpleSpan {
        SimpleSpan {
            start: from.place,
            end: to.place,
        }
    }
}

/// The token at a cursor where it lies, and the cursor moves past it; at the end none.
#[inline]
fn take<'src, T>(cursor: &mut SliceCursor<'src, T>) -> Option<&'src T>
    ensures token { option_map ref_value result ≡ slice_get cursor.old.tokens.now cursor.old.place }
    ensures tokens { cursor.new.tokens.now ≡ cursor.old.tokens.now }
    ensures moves { MatchOption result (cursor.new ≡ cursor.old) (λ _. cursor.new.place ≡ cursor.old.place + 1) }
{
    let tokens: &'src [T] = cursor.tokens;
    let place = cursor.place;
    if place >= tokens.len() {
        return None;
    }
    *cursor = SliceCursor {
        tokens,
        place: place + 1,
    };
    Some(&tokens[place])
}

impl<'src, T: Drop> BorrowInput<'src> for &'src [T] {
    #[inline]
    fn next_ref(cursor: &mut SliceCursor<'src, T>) -> Option<&'src T> {
        take(cursor)
    }
}

/// A token by value is a clone.
impl<'src, T: SameClone + Drop> ValueInput<'src> for &'src [T] {
    ghost Seen = { T.Seen };

    ghost seen = { T.seen };

    ghost takes_no_memory = { T.is_infallible };

    #[inline]
    fn value_of(token: &T) -> Result<T, AllocError> {
        token.clone()
    }
}

impl<'src, T: Drop> SliceInput<'src> for &'src [T] {
    type Slice = &'src [T];

    ghost SliceSeen = { List T };

    ghost slice_seen = { λ s. s.now };

    ghost slice_of = { λ l i j. slice_range l.list i j };

    #[inline]
    fn slice(from: &SliceCursor<'src, T>, to: &SliceCursor<'src, T>) -> &'src [T] {
        let tokens: &'src [T] = to.tokens;
        &tokens[from.place..to.place]
    }
}
