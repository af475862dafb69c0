//! Elements of a slice that are taken apart into tokens and their spans, as an input.
ghost use Rattle.std.specs.Prelude.{◌≡◌, ◌+◌, ◌≤◌, List, ⊤, length, map, slice_get, option_map, MatchOption};
ghost use Rattle.chumsky_input.specs.Layout.{inner, point, span_or, part_of, among_tokens};
ghost use Rattle.chumsky_input.specs.Mapped.{taken_apart, among_elements};
ghost use Rattle.chumsky_input.specs.Maybe.{ref_value};

use crate::input::{BorrowInput, Input, SliceInput, Tokens, ValueInput};
use crate::same::SameClone;
use crate::span::{SimpleSpan, Spanned};
use crate::util::MaybeRef;
use std::alloc::AllocError;
use std::marker::PhantomData;

/// Takes an element of a slice apart: the token in it, and where that stands in the text.
///
/// `Pairs` does so with a token and its span. A type of one's own, a marker, says by `apart` what its two functions give.
pub trait TakesApart<A> {
    ghost use Rattle.chumsky_input.specs.declared.span.Spanned.{Spanned};
    ghost use Rattle.chumsky_input.specs.declared.span.SimpleSpan.{SimpleSpan};

    type Token: Drop;

    /// The token of an element, with its span.
    ghost apart: { A → Spanned Self.Token SimpleSpan };

    /// The token in an element.
    fn token(element: &A) -> &Self::Token
        ensures { result.now ≡ (apart element.now).inner };

    /// Where it stands.
    fn span(element: &A) -> SimpleSpan
        ensures { result ≡ (apart element.now).span };
}

/// Takes pairs of a token and its span apart.
pub struct Pairs;

impl<T: Drop> TakesApart<(T, SimpleSpan)> for Pairs {
    type Token = T;

    ghost apart = { λ pair. record { inner = pair.0; span = pair.1 } };

    #[inline]
    fn token(element: &(T, SimpleSpan)) -> &T {
        &element.0
    }

    #[inline]
    fn span(element: &(T, SimpleSpan)) -> SimpleSpan {
        element.1
    }
}

/// Elements, each taken apart by `M`, and the span of the end of the text. See `map_input`.
#[derive_where(Clone, Copy)]
pub struct MappedInput<'src, A, M> {
    pub elements: &'src [A],
    pub end: SimpleSpan,
    pub by: PhantomData<M>,
}

/// Elements of a slice as an input of tokens with spans: `map_input::<_, Pairs>(lexed.as_slice(), end)`, where `lexed` holds pairs
/// of a token and its span. Errors at the end have the span `end`.
#[inline]
pub fn map_input<'src, A, M>(elements: &'src [A], end: SimpleSpan) -> MappedInput<'src, A, M>
    ensures elements { result.elements ≡ elements.entry }
    ensures end { result.end ≡ end }
{
    MappedInput {
        elements,
        end,
        by: PhantomData,
    }
}

/// A place among elements.
pub struct MappedCursor<'src, A, M> {
    elements: &'src [A],
    end: SimpleSpan,
    by: PhantomData<M>,
    place: usize,
    ghost within: { place ≤ length elements.now },
}

impl<'src, A, M> Clone for MappedCursor<'src, A, M> {
    ghost is_clone = { λ x y. y ≡ x };

    ghost is_infallible = { λ _. ⊤ };

    #[inline]
    fn clone(&self) -> Result<MappedCursor<'src, A, M>, AllocError> {
        Ok(*self)
    }
}

impl<'src, A, M> Copy for MappedCursor<'src, A, M> {}

impl<'src, A, M: TakesApart<A>> Tokens for MappedInput<'src, A, M> {
    type Token = M::Token;

    type Span = SimpleSpan;
}

/// Spans are those of `SpannedTokens`.
impl<'src, A, M: TakesApart<A>> Input<'src> for MappedInput<'src, A, M> {
    type Cursor = MappedCursor<'src, A, M>;

    ghost tokens = { λ s. taken_apart M.apart s.elements.now s.end };

    ghost cursor_tokens = { λ c. taken_apart M.apart c.elements.now c.end };

    ghost place = { λ c. c.place };

    ghost span_between = { λ l i j. l.span i j };

    ghost within = { λ c. among_elements M.apart c.elements.now c.place c.within };

    #[inline]
    fn begin(self) -> MappedCursor<'src, A, M> {
        let _count = self.elements.len();
        MappedCursor {
            elements: self.elements,
            end: self.end,
            by: PhantomData,
            place: 0,
        }
    }

    #[inline]
    fn next_maybe(cursor: &mut MappedCursor<'src, A, M>) -> Option<MaybeRef<'src, M::Token>> {
        match take(cursor) {
            None => None,
            Some(token) => Some(MaybeRef::Ref(token)),
        }
    }

    #[inline]
    fn place(cursor: &MappedCursor<'src, A, M>) -> usize {
        cursor.place
    }

    #[inline]
    fn span(from: &MappedCursor<'src, A, M>, to: &MappedCursor<'src, A, M>) -> SimpleSpan {
        if from.place < to.place {
            SimpleSpan {
                start: span_at(from, from.place).start,
                end: span_at(from, to.place - 1).end,
            }
        } else {
            point_at(from, from.place)
        }
    }
}

/// The span of the token at an index; past the last that of the end.
#[inline]
fn span_at<A, M: TakesApart<A>>(cursor: &MappedCursor<'_, A, M>, at: usize) -> SimpleSpan
    ensures { result ≡ span_or cursor.now.end (slice_get (map M.apart cursor.now.elements.now) at) }
{
    match cursor.elements.get(at) {
        Some(element) => M::span(element),
        None => cursor.end,
    }
}

/// The point where the token at an index begins; past the last the span of the end.
#[inline]
fn point_at<A, M: TakesApart<A>>(cursor: &MappedCursor<'_, A, M>, at: usize) -> SimpleSpan
    ensures { result ≡ point cursor.now.end (slice_get (map M.apart cursor.now.elements.now) at) }
{
    match cursor.elements.get(at) {
        Some(element) => {
            let start = M::span(element).start;
            SimpleSpan { start, end: start }
        }
        None => cursor.end,
    }
}

/// The token at a cursor where it lies, and the cursor moves past it; at the end none.
#[inline]
fn take<'src, A, M: TakesApart<A>>(cursor: &mut MappedCursor<'src, A, M>) -> Option<&'src M::Token>
    ensures token { option_map ref_value result ≡ slice_get (map inner (map M.apart cursor.old.elements.now)) cursor.old.place }
    ensures elements { cursor.new.elements.now ≡ cursor.old.elements.now }
    ensures end { cursor.new.end ≡ cursor.old.end }
    ensures moves { MatchOption result (cursor.new ≡ cursor.old) (λ _. cursor.new.place ≡ cursor.old.place + 1) }
{
    let elements: &'src [A] = cursor.elements;
    let place = cursor.place;
    match elements.get(place) {
        None => None,
        Some(element) => {
            *cursor = MappedCursor {
                elements,
                end: cursor.end,
                by: PhantomData,
                place: place + 1,
            };
            Some(M::token(element))
        }
    }
}

impl<'src, A, M: TakesApart<A>> BorrowInput<'src> for MappedInput<'src, A, M> {
    #[inline]
    fn next_ref(cursor: &mut MappedCursor<'src, A, M>) -> Option<&'src M::Token> {
        take(cursor)
    }
}

/// A token by value is a clone.
impl<'src, A, M: TakesApart<A>> ValueInput<'src> for MappedInput<'src, A, M>
where
    M::Token: SameClone,
{
    ghost Seen = { M.Token.SameClone.Seen };

    ghost seen = { M.Token.SameClone.seen };

    ghost takes_no_memory = { M.Token.SameClone.is_infallible };

    #[inline]
    fn value_of(token: &M::Token) -> Result<M::Token, AllocError> {
        token.clone()
    }
}

/// A part of the elements is an input too. Its end is the point where the next token begins. What counts of it are its tokens with
/// their spans, and its end.
impl<'src, A, M: TakesApart<A>> SliceInput<'src> for MappedInput<'src, A, M> {
    ghost use Rattle.chumsky_input.specs.declared.span.Spanned.{Spanned};
    ghost use Rattle.chumsky_input.specs.declared.span.SimpleSpan.{SimpleSpan};

    type Slice = MappedInput<'src, A, M>;

    ghost SliceSeen = { List (Spanned M.Token SimpleSpan) × SimpleSpan };

    ghost slice_seen = { λ s. (map M.apart s.elements.now, s.end) };

    ghost slice_of = { part_of };

    #[inline]
    fn slice(
        from: &MappedCursor<'src, A, M>,
        to: &MappedCursor<'src, A, M>,
    ) -> MappedInput<'src, A, M> {
        let elements: &'src [A] = to.elements;
        MappedInput {
            elements: &elements[from.place..to.place],
            end: point_at(to, to.place),
            by: PhantomData,
        }
    }
}
