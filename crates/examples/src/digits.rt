//! Numbers of so many digits.
ghost use Rattle.std.specs.Prelude.{◌≡◌, List};
ghost use Rattle.std.specs.Str.{encode_utf8_all};
ghost use Rattle.chumsky_text.specs.Decimals.{fixed_of, fixed-by_word, slice-bytes};

use chumsky::combinator::{Picker, WordPicker};
use chumsky::extra::{ParserExtra, RichText};
use chumsky::text::{Digits, Fixed, Word};

/// Picks the number that two digits make, where it lies between two bounds.
#[derive(Clone, Copy)]
pub struct TwoDigits {
    pub least: u8,
    pub most: u8,
}

impl<'src> Picker<&'src str, u8> for TwoDigits {
    ghost gives = { λ p digits picked. picked ≡ fixed_of 2 p.least p.most digits.now };

    fn pick(&self, digits: &'src str) -> Option<u8> {
        let fixed = Fixed {
            digits: 2,
            least: u32::from(self.least),
            most: u32::from(self.most),
        };
        match fixed.pick(digits) {
            Some(number) => Some(number as u8),
            None => None,
        }
    }
}

impl<'src, E: ParserExtra<&'src str>> WordPicker<
    'src,
    &'src str,
    &'src str,
    u8,
    E,
    Word<Digits, &'src str, E>,
> for TwoDigits {
    ghost picks = { λ p w. fixed_of 2 p.least p.most (encode_utf8_all w) };

    ghost by_word = { λ f p w v x s g. fixed-by_word 2 f.least f.most w v.now x (slice-bytes (λ t. t.now) w v s.1) g };
}

/// Picks the number that four digits make.
#[derive(Clone, Copy)]
pub struct FourDigits;

impl<'src> Picker<&'src str, u16> for FourDigits {
    ghost gives = { λ _ digits picked. picked ≡ fixed_of 4 0 9999 digits.now };

    fn pick(&self, digits: &'src str) -> Option<u16> {
        let fixed = Fixed {
            digits: 4,
            least: 0,
            most: 9999,
        };
        match fixed.pick(digits) {
            Some(number) => Some(number as u16),
            None => None,
        }
    }
}

impl<'src> WordPicker<'src, &'src str, &'src str, u16, RichText, Word<Digits, &'src str, RichText>>
    for FourDigits {
    ghost picks = { λ _ w. fixed_of 4 0 9999 (encode_utf8_all w) };

    ghost by_word = { λ f p w v x s g. fixed-by_word 4 0 9999 w v.now x (slice-bytes (λ t. t.now) w v s.1) g };
}
