//! Ranges of the input.
ghost use Rattle.std.specs.Prelude.{◌≡◌, Some};
ghost use Rattle.chumsky_input.specs.Display.{span_text};

use std::fmt;
use std::fmt::{Debug, Display};
use std::ops::Range;

/// A range of offsets, from `start` up to `end`. Over a text an offset counts bytes, over a slice it is an index. It prints as
/// `4..5`.
#[derive(Clone, Copy, PartialEq, Eq)]
pub struct SimpleSpan {
    pub start: usize,
    pub end: usize,
}

impl From<Range<usize>> for SimpleSpan {
    ghost from_gives = { λ r s. s ≡ record { start = r.start; end = r.end } };

    #[inline]
    fn from(range: Range<usize>) -> SimpleSpan {
        SimpleSpan {
            start: range.start,
            end: range.end,
        }
    }
}

impl Display for SimpleSpan {
    ghost output = { λ s. Some (span_text s) };

    fn fmt<W: fmt::Write>(&self, f: &mut fmt::Formatter<W>) -> fmt::Result {
        write!(f, "{}..{}", self.start, self.end)
    }
}

impl Debug for SimpleSpan {
    ghost debug_output = { λ s. Some (span_text s) };

    fn fmt<W: fmt::Write>(&self, f: &mut fmt::Formatter<W>) -> fmt::Result {
        write!(f, "{}..{}", self.start, self.end)
    }
}

/// A value, and the span that it was read from.
#[derive(Clone, Copy, Debug, PartialEq, Eq, Drop)]
pub struct Spanned<T, S> {
    pub inner: T,
    pub span: S,
}
