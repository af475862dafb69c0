//! Numbers picked of the decimal digits that a part took.
ghost use Rattle.std.specs.Prelude.{◌≡◌};
ghost use Rattle.std.specs.Str.{encode_utf8_all};
ghost use Rattle.chumsky_text.specs.Decimals.{unsigned_of, unsigned-by_word, fixed_of, fixed-by_word, slice-bytes};

use crate::sliced::Sliced;
use chumsky_input::extra::ParserExtra;
use chumsky_judge::filter_map::Picker;
use chumsky_judge::pick_by::WordPicker;
use std::marker::PhantomData;

/// What picks the number that some digits write, where a `T` holds it. See `decimal`.
#[derive_where(Clone, Copy)]
pub struct DecimalOf<T> {
    pub of: PhantomData<T>,
}

/// What picks the number that some digits write, where a `T` holds it: `text::int(10).pick_by(text::decimal::<u32>())`.
pub fn decimal<T>() -> DecimalOf<T> {
    DecimalOf { of: PhantomData }
}

/// What picks a number of just so many digits within bounds: `Fixed { digits: 2, least: 1, most: 12 }` picks 7 of `07`, and
/// nothing of `7` and of `13`.
#[derive(Clone, Copy)]
pub struct Fixed {
    pub digits: usize,
    pub least: u32,
    pub most: u32,
}

impl<'src> Picker<&'src str, u32> for Fixed {
    ghost gives = { λ f digits picked. picked ≡ fixed_of f.digits f.least f.most digits.now };

    fn pick(&self, digits: &'src str) -> Option<u32> {
        if digits.len() != self.digits {
            return None;
        }
        match digits.parse::<u32>() {
            Ok(number) => {
                if self.least <= number && number <= self.most {
                    Some(number)
                } else {
                    None
                }
            }
            Err(_) => None,
        }
    }
}

impl<'src, A: Sliced<'src, &'src str, E>, E: ParserExtra<&'src str>> WordPicker<
    'src,
    &'src str,
    &'src str,
    u32,
    E,
    A,
> for Fixed {
    ghost picks = { λ f w. fixed_of f.digits f.least f.most (encode_utf8_all w) };

    ghost by_word = { λ f p w v x s g. fixed-by_word f.digits f.least f.most w v.now x (slice-bytes (λ t. t.now) w v (A.sliced p w v s)) g };
}

impl<'src> Picker<&'src str, u8> for DecimalOf<u8> {
    ghost gives = { λ _ digits picked. picked ≡ unsigned_of 8 digits.now };

    fn pick(&self, digits: &'src str) -> Option<u8> {
        digits.parse().ok()
    }
}

impl<'src, A: Sliced<'src, &'src str, E>, E: ParserExtra<&'src str>> WordPicker<
    'src,
    &'src str,
    &'src str,
    u8,
    E,
    A,
> for DecimalOf<u8> {
    ghost picks = { λ f w. unsigned_of 8 (encode_utf8_all w) };

    ghost by_word = { λ f p w v x s g. unsigned-by_word 8 w v.now x (slice-bytes (λ t. t.now) w v (A.sliced p w v s)) g };
}

impl<'src> Picker<&'src str, u16> for DecimalOf<u16> {
    ghost gives = { λ _ digits picked. picked ≡ unsigned_of 16 digits.now };

    fn pick(&self, digits: &'src str) -> Option<u16> {
        digits.parse().ok()
    }
}

impl<'src, A: Sliced<'src, &'src str, E>, E: ParserExtra<&'src str>> WordPicker<
    'src,
    &'src str,
    &'src str,
    u16,
    E,
    A,
> for DecimalOf<u16> {
    ghost picks = { λ f w. unsigned_of 16 (encode_utf8_all w) };

    ghost by_word = { λ f p w v x s g. unsigned-by_word 16 w v.now x (slice-bytes (λ t. t.now) w v (A.sliced p w v s)) g };
}

impl<'src> Picker<&'src str, u32> for DecimalOf<u32> {
    ghost gives = { λ _ digits picked. picked ≡ unsigned_of 32 digits.now };

    fn pick(&self, digits: &'src str) -> Option<u32> {
        digits.parse().ok()
    }
}

impl<'src, A: Sliced<'src, &'src str, E>, E: ParserExtra<&'src str>> WordPicker<
    'src,
    &'src str,
    &'src str,
    u32,
    E,
    A,
> for DecimalOf<u32> {
    ghost picks = { λ f w. unsigned_of 32 (encode_utf8_all w) };

    ghost by_word = { λ f p w v x s g. unsigned-by_word 32 w v.now x (slice-bytes (λ t. t.now) w v (A.sliced p w v s)) g };
}

impl<'src> Picker<&'src str, u64> for DecimalOf<u64> {
    ghost gives = { λ _ digits picked. picked ≡ unsigned_of 64 digits.now };

    fn pick(&self, digits: &'src str) -> Option<u64> {
        digits.parse().ok()
    }
}

impl<'src, A: Sliced<'src, &'src str, E>, E: ParserExtra<&'src str>> WordPicker<
    'src,
    &'src str,
    &'src str,
    u64,
    E,
    A,
> for DecimalOf<u64> {
    ghost picks = { λ f w. unsigned_of 64 (encode_utf8_all w) };

    ghost by_word = { λ f p w v x s g. unsigned-by_word 64 w v.now x (slice-bytes (λ t. t.now) w v (A.sliced p w v s)) g };
}
