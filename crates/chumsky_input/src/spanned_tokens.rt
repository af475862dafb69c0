//! Tokens with their spans as inputs: the spans of a run are those of the text that the tokens were read from.
ghost use Rattle.std.specs.Prelude.{◌≡◌, ◌+◌, ◌≤◌, List, ⊤, length, map, slice_get, option_map, MatchOption};
ghost use Rattle.chumsky_input.specs.Layout.{inner, point, span_or, token_layout, part_of, among_tokens};
ghost use Rattle.chumsky_input.specs.Maybe.{ref_value};

use crate::input::{BorrowInput, Input, SliceInput, Tokens, ValueInput};
use crate::same::SameClone;
use crate::span::{SimpleSpan, Spanned};
use crate::util::MaybeRef;
use std::alloc::AllocError;

/// Tokens with their spans, and the span of the end of the text.
#[derive_where(Clone, Copy)]
pub struct SpannedTokens<'src, T> {
    pub tokens: &'src [Spanned<T, SimpleSpan>],
    pub end: SimpleSpan,
}

/// What a lexer gave as an input: `parser.parse(alloc, split_spanned(tokens.as_slice(), end))`. Errors at the end have the span
/// `end`.
#[inline]
pub fn split_spanned<'src, T>(
    tokens: &'src [Spanned<T, SimpleSpan>],
    end: SimpleSpan,
) -> SpannedTokens<'src, T>
    ensures tokens { result.tokens ≡ tokens.entry }
    ensures end { result.end ≡ end }
{
    SpannedTokens { tokens, end }
}

/// A place among tokens with spans.
pub struct SpannedCursor<'src, T> {
    tokens: &'src [Spanned<T, SimpleSpan>],
    end: SimpleSpan,
    place: usize,
    ghost within: { place ≤ length tokens.now },
}

impl<'src, T> Clone for SpannedCursor<'src, T> {
    ghost is_clone = { λ x y. y ≡ x };

    ghost is_infallible = { λ _. ⊤ };

    #[inline]
    fn clone(&self) -> Result<SpannedCursor<'src, T>, AllocError> {
        Ok(*self)
    }
}

impl<'src, T> Copy for SpannedCursor<'src, T> {}

impl<'src, T: Drop> Tokens for SpannedTokens<'src, T> {
    type Token = T;

    type Span = SimpleSpan;
}

/// A span goes from the start of its first token to the end of its last. That of no token is the point where the next one begins,
/// and at the end the span that was given for it.
impl<'src, T: Drop> Input<'src> for SpannedTokens<'src, T> {
    type Cursor = SpannedCursor<'src, T>;

    ghost tokens = { λ s. token_layout s.tokens.now s.end };

    ghost cursor_tokens = { λ c. token_layout c.tokens.now c.end };

    ghost place = { λ c. c.place };

    ghost span_between = { λ l i j. l.span i j };

    ghost within = { λ c. among_tokens c.tokens.now c.place c.within };

    #[inline]
    fn begin(self) -> SpannedCursor<'src, T> {
        let _count = self.tokens.len();
        SpannedCursor {
            tokens: self.tokens,
            end: self.end,
            place: 0,
        }
    }

    #[inline]
    fn next_maybe(cursor: &mut SpannedCursor<'src, T>) -> Option<MaybeRef<'src, T>> {
        match take(cursor) {
            None => None,
            Some(token) => Some(MaybeRef::Ref(token)),
        }
    }

    #[inline]
    fn place(cursor: &SpannedCursor<'src, T>) -> usize {
        cursor.place
    }

    #[inline]
    fn span(from: &SpannedCursor<'src, T>, to: &SpannedCursor<'src, T>) -> SimpleSpan {
        if from.place < to.place {
            SimpleSpan {
                start: span_at(from.tokens, from.place, from.end).start,
                end: span_at(from.tokens, to.place - 1, from.end).end,
            }
        } else {
            point_at(from.tokens, from.place, from.end)
        }
    }
}

/// The span of the token at an index; past the last that of the end.
#[inline]
fn span_at<T>(tokens: &[Spanned<T, SimpleSpan>], at: usize, end: SimpleSpan) -> SimpleSpan
    ensures { result ≡ span_or end (slice_get tokens.now at) }
{
    match tokens.get(at) {
        Some(token) => token.span,
        None => end,
    }
}

/// The point where the token at an index begins; past the last the span of the end.
#[inline]
fn point_at<T>(tokens: &[Spanned<T, SimpleSpan>], at: usize, end: SimpleSpan) -> SimpleSpan
    ensures { result ≡ point end (slice_get tokens.now at) }
{
    match tokens.get(at) {
        Some(token) => SimpleSpan {
            start: token.span.start,
            end: token.span.start,
        },
        None => end,
    }
}

/// The token at a cursor where it lies, and the cursor moves past it; at the end none.
#[inline]
fn take<'src, T>(cursor: &mut SpannedCursor<'src, T>) -> Option<&'src T>
    ensures token { option_map ref_value result ≡ slice_get (map inner cursor.old.tokens.now) cursor.old.place }
    ensures tokens { cursor.new.tokens.now ≡ cursor.old.tokens.now }
    ensures end { cursor.new.end ≡ cursor.old.end }
    ensures moves { MatchOption result (cursor.new ≡ cursor.old) (λ _. cursor.new.place ≡ cursor.old.place + 1) }
{
    let tokens: &'src [Spanned<T, SimpleSpan>] = cursor.tokens;
    let place = cursor.place;
    if place >= tokens.len() {
        return None;
    }
    *cursor = SpannedCursor {
        tokens,
        end: cursor.end,
        place: place + 1,
    };
    Some(&tokens[place].inner)
}

impl<'src, T: Drop> BorrowInput<'src> for SpannedTokens<'src, T> {
    #[inline]
    fn next_ref(cursor: &mut SpannedCursor<'src, T>) -> Option<&'src T> {
        take(cursor)
    }
}

/// A token by value is a clone.
impl<'src, T: SameClone + Drop> ValueInput<'src> for SpannedTokens<'src, T> {
    ghost Seen = { T.Seen };

    ghost seen = { T.seen };

    ghost takes_no_memory = { T.is_infallible };

    #[inline]
    fn value_of(token: &T) -> Result<T, AllocError> {
        token.clone()
    }
}

/// A part of the tokens is an input too. Its end is the point where the next token begins. What counts of it are its tokens with
/// their spans, and its end.
impl<'src, T: Drop> SliceInput<'src> for SpannedTokens<'src, T> {
    ghost use Rattle.chumsky_input.specs.declared.span.Spanned.{Spanned};
    ghost use Rattle.chumsky_input.specs.declared.span.SimpleSpan.{SimpleSpan};

    type Slice = SpannedTokens<'src, T>;

    ghost SliceSeen = { List (Spanned T SimpleSpan) × SimpleSpan };

    ghost slice_seen = { λ s. (s.tokens.now, s.end) };

    ghost slice_of = { part_of };

    #[inline]
    fn slice(from: &SpannedCursor<'src, T>, to: &SpannedCursor<'src, T>) -> SpannedTokens<'src, T> {
        let tokens: &'src [Spanned<T, SimpleSpan>] = to.tokens;
        SpannedTokens {
            tokens: &tokens[from.place..to.place],
            end: point_at(tokens, to.place, to.end),
        }
    }
}
