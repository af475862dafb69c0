//! What a token of a text is, and an input whose slices can be compared with a text.
ghost use Rattle.std.specs.Prelude.{◌≡◌, Bool, List, ℕ, ◌||◌, ◌==◌, slice_range};
ghost use Rattle.std.specs.Char.{is_whitespace, is_ascii_whitespace};
ghost use Rattle.std.specs.Str.{bytes_eq, encode_utf8_all};
ghost use Rattle.chumsky_input.specs.Layout.{Layout};

use chumsky_input::input::SliceInput;
use chumsky_input::offset_text::OffsetText;

/// A token of a text: a `char`, or a byte, which stands for the character of its number below 128.
pub trait Char: Copy {
    /// The number of its character.
    ghost code: { Self → ℕ };

    /// Whether it is white space.
    ghost is_space: { Self → Bool };

    /// Whether it ends a line, by itself or before another one.
    ghost ends_line: { Self → Bool };

    fn to_char(&self) -> char
        ensures { result ≡ code self.now };

    /// White space: the `White_Space` of Unicode; of bytes only that of ASCII.
    fn is_whitespace(&self) -> bool
        ensures { result ≡ is_space self.now };

    /// Line feed, vertical tab, form feed or carriage return; of characters also next line (U+0085), line separator
    /// (U+2028) and paragraph separator (U+2029).
    fn is_newline(&self) -> bool
        ensures { result ≡ ends_line self.now };
}

impl Char for char {
    ghost code = { λ c. c };

    ghost is_space = { is_whitespace };

    ghost ends_line = { λ c. (c == 10) || (c == 11) || (c == 12) || (c == 13) || (c == 133) || (c == 8232) || (c == 8233) };

    #[inline]
    fn to_char(&self) -> char {
        *self
    }

    #[inline]
    fn is_whitespace(&self) -> bool {
        (*self).is_whitespace()
    }

    #[inline]
    fn is_newline(&self) -> bool {
        *self == '\n'
            || *self == '\u{B}'
            || *self == '\u{C}'
            || *self == '\r'
            || *self == '\u{85}'
            || *self == '\u{2028}'
            || *self == '\u{2029}'
    }
}

impl Char for u8 {
    ghost code = { λ b. b };

    ghost is_space = { is_ascii_whitespace };

    ghost ends_line = { λ b. (b == 10) || (b == 11) || (b == 12) || (b == 13) };

    #[inline]
    fn to_char(&self) -> char {
        char::from(*self)
    }

    #[inline]
    fn is_whitespace(&self) -> bool {
        self.is_ascii_whitespace()
    }

    #[inline]
    fn is_newline(&self) -> bool {
        *self == b'\n' || *self == 11 || *self == 12 || *self == b'\r'
    }
}

/// An input whose slices are compared with texts.
pub trait TextInput<'src>: SliceInput<'src> {
    /// Whether tokens are written with these bytes.
    ghost spells: { List ℕ → List Self.Token → Bool };

    /// Whether the slice is the text: `<&str>::is_text(&"let", "let")`.
    fn is_text(slice: &Self::Slice, text: &str) -> bool
        ensures { (l : Layout Self.Token) (i j : ℕ) → Self.slice_seen slice.now ≡ Self.slice_of l i j → result ≡ spells text.now (slice_range l.list i j) };
}

impl<'src> TextInput<'src> for &'src str {
    ghost spells = { λ text tokens. bytes_eq text (encode_utf8_all tokens) };

    #[inline]
    fn is_text(slice: &&'src str, text: &str) -> bool {
        *text == **slice
    }
}

impl<'src> TextInput<'src> for OffsetText<'src> {
    ghost spells = { λ text tokens. bytes_eq text (encode_utf8_all tokens) };

    #[inline]
    fn is_text(slice: &&'src str, text: &str) -> bool {
        *text == **slice
    }
}

impl<'src> TextInput<'src> for &'src [u8] {
    ghost spells = { bytes_eq };

    #[inline]
    fn is_text(slice: &&'src [u8], text: &str) -> bool {
        *text.as_bytes() == **slice
    }
}
