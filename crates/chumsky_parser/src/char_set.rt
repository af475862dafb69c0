//! Sets of characters that are tested by a bit.
ghost use Rattle.std.specs.Prelude.{◌≡◌, refl};
ghost use Rattle.std.specs.Str.{chars};
ghost use Rattle.chumsky_parser.specs.CharBits.{byte_bit, text_bits};
ghost use Rattle.chumsky_parser.specs.Members.{chars_from};

use crate::container::{Seq, has_char, most_chars, text_at};
use chumsky_input::util::MaybeRef;

/// The characters of a text, with a bit for each that lies below 128. See `chars_of`.
#[derive(Clone, Copy, Debug)]
pub struct CharSet<'a> {
    pub text: &'a str,
    bits: u128,
    ghost marked: { bits ≡ text_bits text.now },
}

/// The characters of a text as a set, whose bits are made once: `one_of(chars_of("+-*/"))` takes what `one_of("+-*/")` does,
/// and where that looks through the text for each token, it tests a bit for one below 128.
pub fn chars_of(text: &str) -> CharSet<'_>
    ensures { result.text.now ≡ text.now }
{
    CharSet {
        text,
        bits: bits_of(text),
    }
}

/// The bits of a text's bytes that lie below 128.
fn bits_of(text: &str) -> u128
    ensures { result ≡ text_bits text.now }
{
    let mut bits = 0;
    for byte in text.bytes() {
        bits |= bit_of(byte);
    }
    bits
}

/// The bit of a byte below 128, and none of another.
#[inline]
fn bit_of(byte: u8) -> u128
    ensures { result ≡ byte_bit byte }
{
    if byte < 128 { 1 << byte } else { 0 }
}

/// The members are the characters of the text, and marks count its bytes.
impl<'a> Seq<char> for CharSet<'a> {
    ghost members = { λ s. chars s.text.now };

    ghost members_from = { λ s i. chars_from s.text.now i };

    ghost all_from = { λ s. refl };

    #[inline]
    fn contains(&self, token: &char) -> bool {
        // The text's bytes tell the proof that it is UTF-8. Their value isn't used.
        let _bytes = self.text.as_bytes();
        let character = *token;
        if character < '\u{80}' {
            (self.bits >> (character as u32)) % 2 == 1
        } else {
            has_char(self.text, character)
        }
    }

    #[inline]
    fn seq_at(&self, at: usize) -> Option<(MaybeRef<'_, char>, usize)> {
        text_at(self.text, at)
    }

    #[inline]
    fn most_members(&self) -> Option<usize> {
        Some(most_chars(self.text))
    }
}
