//! A text at an offset, as an input: its spans are those of the text that it is a part of.
ghost use Rattle.std.specs.Prelude.{◌≡◌, ℕ, List, ⊤, MatchResult, slice_range};
ghost use Rattle.std.specs.Str.{encode_utf8_all};
ghost use Rattle.chumsky_input.specs.Cursors.{place_in_text};
ghost use Rattle.chumsky_input.specs.Layout.{text_layout};
ghost use Rattle.chumsky_input.specs.Mapped.{moved_by};

use crate::input::{Input, SliceInput, TextCursor, Tokens, ValueInput};
use crate::span::SimpleSpan;
use crate::util::MaybeRef;
use std::alloc::AllocError;

/// A text that begins at an offset, as a line of a file does. See `text_at`.
#[derive(Clone, Copy)]
pub struct OffsetText<'src> {
    pub offset: usize,
    pub text: &'src str,
}

/// A text as an input whose spans begin at an offset: of `text_at(8, "b=x")` the `x` stands at 10..11. So the errors of a line
/// point into its file, and a `Report` over the text of the file shows them. What would stand past `usize::MAX` stands there.
#[inline]
pub fn text_at(offset: usize, text: &str) -> OffsetText<'_>
    ensures offset { result.offset ≡ offset }
    ensures text { result.text.now ≡ text.now }
{
    OffsetText { offset, text }
}

/// A place in a text at an offset.
#[derive(Clone, Copy)]
pub struct OffsetCursor<'src> {
    offset: usize,
    within: TextCursor<'src>,
}

impl<'src> Tokens for OffsetText<'src> {
    type Token = char;

    type Span = SimpleSpan;
}

/// Offsets count bytes, and those of the text begin at its own.
impl<'src> Input<'src> for OffsetText<'src> {
    type Cursor = OffsetCursor<'src>;

    ghost tokens = { λ s. moved_by s.offset (text_layout s.text.now) };

    ghost cursor_tokens = { λ c. moved_by c.offset (⟦<&'src str as Input<'src>>⟧.cursor_tokens c.within) };

    ghost place = { λ c. ⟦<&'src str as Input<'src>>⟧.place c.within };

    ghost span_between = { λ l i j. l.span i j };

    ghost within = { λ c. let k = c.within in place_in_text k.text.now k.at k.place k.utf8 k.boundary k.count };

    #[inline]
    fn begin(self) -> OffsetCursor<'src> {
        OffsetCursor {
            offset: self.offset,
            within: self.text.begin(),
        }
    }

    #[inline]
    fn next_maybe(cursor: &mut OffsetCursor<'src>) -> Option<MaybeRef<'src, char>> {
        <&'src str as Input<'src>>::next_maybe(&mut cursor.within)
    }

    #[inline]
    fn place(cursor: &OffsetCursor<'src>) -> usize {
        <&'src str as Input<'src>>::place(&cursor.within)
    }

    #[inline]
    fn span(from: &OffsetCursor<'src>, to: &OffsetCursor<'src>) -> SimpleSpan {
        let span = <&'src str as Input<'src>>::span(&from.within, &to.within);
        SimpleSpan {
            start: from.offset.saturating_add(span.start),
            end: from.offset.saturating_add(span.end),
        }
    }
}

impl<'src> ValueInput<'src> for OffsetText<'src> {
    ghost Seen = { ℕ };

    ghost seen = { λ c. c };

    ghost takes_no_memory = { λ _. ⊤ };

    #[inline]
    fn value_of(token: &char) -> Result<char, AllocError>
        ensures { MatchResult result (λ t. t ≡ token.now) (λ _. ¬ ⊤) }
    {
        Ok(*token)
    }
}

/// A part of it is a text, which knows its offset no more. What counts of it are its bytes.
impl<'src> SliceInput<'src> for OffsetText<'src> {
    type Slice = &'src str;

    ghost SliceSeen = { List ℕ };

    ghost slice_seen = { λ s. s.now };

    ghost slice_of = { λ l i j. encode_utf8_all (slice_range l.list i j) };

    #[inline]
    fn slice(from: &OffsetCursor<'src>, to: &OffsetCursor<'src>) -> &'src str {
        <&'src str as SliceInput<'src>>::slice(&from.within, &to.within)
    }
}
