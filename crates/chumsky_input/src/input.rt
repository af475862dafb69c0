//! Inputs: lists of tokens with offsets.
ghost use Rattle.std.specs.Prelude.{◌≡◌, ℕ, ◌+◌, ◌^◌, ◌≤◌, ◌<◌, List, length, slice_get, slice_range, Option, Some, None, MatchOption, MatchResult, option_map, ⊤, Ok};
ghost use Rattle.std.specs.Str.{chars, encode_utf8_all, IsUtf8, IsCharBoundary};
ghost use Rattle.chumsky_input.specs.Text.{text_place};
ghost use Rattle.chumsky_input.specs.Maybe.{maybe_value, ref_value};
ghost use Rattle.chumsky_input.specs.Cursors.{place_in_text};
ghost use Rattle.chumsky_input.specs.Layout.{Layout, text_layout};

use crate::span::SimpleSpan;
use crate::util::MaybeRef;
use std::alloc::AllocError;

/// What an input is made of: its tokens, and the spans of its parts.
pub trait Tokens {
    type Token: Drop;

    type Span: Drop;
}

/// A list of tokens, and cursors that stand at its places: before the first token, between two, or past the last.
pub trait Input<'src>: Tokens {
    type Cursor: Copy;

    /// The tokens of an input, and of the input that a cursor stands in.
    ghost tokens: { Self → Layout Self.Token };

    ghost cursor_tokens: { Self.Cursor → Layout Self.Token };
    /// The number of tokens before a cursor.
    ghost place: { Self.Cursor → ℕ };
    /// The span from one place to another.
    ghost span_between: { Layout Self.Token → ℕ → ℕ → Self.Span };

    /// The cursor before the first token. The tokens can be counted.
    fn begin(self) -> Self::Cursor
        ensures tokens { cursor_tokens result ≡ tokens self }
        ensures start { place result ≡ 0 }
        ensures count { length (tokens self).list < 2 ^ 64 };

    /// The token at a cursor, which moves past it; at the end none, and the cursor stays.
    fn next_maybe(cursor: &mut Self::Cursor) -> Option<MaybeRef<'src, Self::Token>>
        ensures token { option_map maybe_value result ≡ slice_get (cursor_tokens cursor.old).list (place cursor.old) }
        ensures tokens { cursor_tokens cursor.new ≡ cursor_tokens cursor.old }
        ensures moves { MatchOption result (cursor.new ≡ cursor.old) (λ _. place cursor.new ≡ place cursor.old + 1) };

    /// How many tokens stand before a cursor.
    fn place(cursor: &Self::Cursor) -> usize
        ensures { result ≡ place cursor.now };

    /// The span from one cursor to another.
    fn span(from: &Self::Cursor, to: &Self::Cursor) -> Self::Span
        requires { cursor_tokens to.now ≡ cursor_tokens from.now }
        ensures { result ≡ span_between (cursor_tokens from.now) (place from.now) (place to.now) };

    /// No cursor stands past the end.
    ghost within: { (c : Self.Cursor) → place c ≤ length (cursor_tokens c).list };
}

/// An input whose tokens can be had by value.
pub trait ValueInput<'src>: Input<'src> {
    /// What counts of a token.
    ghost Seen: { Type 0 };

    ghost seen: { Self.Token → Seen };
    /// That a token is had by value without a request for memory.
    ghost takes_no_memory: { Self.Token → Type 0 };

    /// A token by value.
    fn value_of(token: &Self::Token) -> Result<Self::Token, AllocError>
        ensures { MatchResult result (λ t. seen t ≡ seen token.now) (λ _. ¬ (takes_no_memory token.now)) };
}

/// An input whose tokens lie in it.
pub trait BorrowInput<'src>: Input<'src> {
    /// The token at a cursor where it lies, and the cursor moves past it; at the end none, and the cursor stays.
    fn next_ref(cursor: &mut Self::Cursor) -> Option<&'src Self::Token>
        ensures token { option_map ref_value result ≡ slice_get (Self.cursor_tokens cursor.old).list (Self.place cursor.old) }
        ensures tokens { Self.cursor_tokens cursor.new ≡ Self.cursor_tokens cursor.old }
        ensures moves { MatchOption result (cursor.new ≡ cursor.old) (λ _. Self.place cursor.new ≡ Self.place cursor.old + 1) };
}

/// An input that can be cut.
pub trait SliceInput<'src>: Input<'src> {
    type Slice: Copy;

    /// What counts of a slice.
    ghost SliceSeen: { Type 0 };

    ghost slice_seen: { Self.Slice → SliceSeen };
    /// What counts of the slice between two places.
    ghost slice_of: { Layout Self.Token → ℕ → ℕ → SliceSeen };

    /// The part of an input from one cursor to another, which is not before it.
    fn slice(from: &Self::Cursor, to: &Self::Cursor) -> Self::Slice
        requires same { Self.cursor_tokens to.now ≡ Self.cursor_tokens from.now }
        requires order { Self.place from.now ≤ Self.place to.now }
        ensures { slice_seen result ≡ slice_of (Self.cursor_tokens from.now) (Self.place from.now) (Self.place to.now) };
}

/// A place in a text.
pub struct TextCursor<'src> {
    text: &'src str,
    at: usize,
    place: usize,
    ghost utf8: { ∥ IsUtf8 text.now ∥₁ },
    ghost boundary: { IsCharBoundary text.now at },
    ghost count: { place ≡ text_place text.now at },
}

impl<'src> Clone for TextCursor<'src> {
    ghost is_clone = { λ x y. y ≡ x };

    ghost is_infallible = { λ _. ⊤ };

    #[inline]
    fn clone(&self) -> Result<TextCursor<'src>, AllocError> {
        Ok(*self)
    }
}

impl<'src> Copy for TextCursor<'src> {}

/// The tokens of a text are its characters.
impl<'src> Tokens for &'src str {
    type Token = char;

    type Span = SimpleSpan;
}

/// Offsets count bytes.
impl<'src> Input<'src> for &'src str {
    type Cursor = TextCursor<'src>;

    ghost tokens = { λ s. text_layout s.now };

    ghost cursor_tokens = { λ c. text_layout c.text.now };

    ghost place = { λ c. c.place };

    ghost span_between = { λ l i j. l.span i j };

    ghost within = { λ c. place_in_text c.text.now c.at c.place c.utf8 c.boundary c.count };

    #[inline]
    fn begin(self) -> TextCursor<'src> {
        let _count = self.as_bytes().len();
        TextCursor {
            text: self,
            at: 0,
            place: 0,
        }
    }

    // A byte below 128 is a character by itself: nothing is decoded.
    #[inline]
    fn next_maybe(cursor: &mut TextCursor<'src>) -> Option<MaybeRef<'src, char>> {
        let text: &'src str = cursor.text;
        let at = cursor.at;
        let place = cursor.place;
        let bytes = text.as_bytes();
        if at >= bytes.len() {
            return None;
        }
        let byte = bytes[at];
        if byte < 128 {
            *cursor = TextCursor {
                text,
                at: at + 1,
                place: place + 1,
            };
            return Some(MaybeRef::Val(byte as char));
        }
        decode(cursor)
    }

    #[inline]
    fn place(cursor: &TextCursor<'src>) -> usize {
        cursor.place
    }

    #[inline]
    fn span(from: &TextCursor<'src>, to: &TextCursor<'src>) -> SimpleSpan {
        SimpleSpan {
            start: from.at,
            end: to.at,
        }
    }
}

/// The character at a cursor, however many bytes it takes.
fn decode<'src>(cursor: &mut TextCursor<'src>) -> Option<MaybeRef<'src, char>>
    ensures token { option_map maybe_value result ≡ slice_get (chars cursor.old.text.now) cursor.old.place }
    ensures tokens { cursor.new.text.now ≡ cursor.old.text.now }
    ensures moves { MatchOption result (cursor.new ≡ cursor.old) (λ _. cursor.new.place ≡ cursor.old.place + 1) }
{
    let text: &'src str = cursor.text;
    let at = cursor.at;
    let place = cursor.place;
    let rest = &text[at..];
    let mut left = rest.chars();
    match left.next() {
        None => None,
        Some(c) => {
            let next = at + c.len_utf8();
            *cursor = TextCursor {
                text,
                at: next,
                place: place + 1,
            };
            Some(MaybeRef::Val(c))
        }
    }
}

impl<'src> ValueInput<'src> for &'src str {
    ghost Seen = { ℕ };

    ghost seen = { λ c. c };

    ghost takes_no_memory = { λ _. ⊤ };

    #[inline]
    fn value_of(token: &char) -> Result<char, AllocError>
        ensures { MatchResult result (λ t. t ≡ token.now) (λ _. ¬ ⊤) }
    {
        Ok(*token)
    }
}

/// What counts of a part of a text are its bytes.
impl<'src> SliceInput<'src> for &'src str {
    type Slice = &'src str;

    ghost SliceSeen = { List ℕ };

    ghost slice_seen = { λ s. s.now };

    ghost slice_of = { λ l i j. encode_utf8_all (slice_range l.list i j) };

    #[inline]
    fn slice(from: &TextCursor<'src>, to: &TextCursor<'src>) -> &'src str {
        let text: &'src str = to.text;
        let start = from.at;
        let end = to.at;
        &text[start..end]
    }
}
