//! Digits, and the numbers that are written with them.
ghost use Rattle.std.specs.Prelude.{◌≡◌, ◌≤◌, false, [], ◌∷◌, ◌==◌, cond, codes};
ghost use Rattle.std.specs.Char.{is_digit};
ghost use Rattle.chumsky_input.specs.Wanted.{Label};

use crate::chars::Char;
use crate::kind::{Kind, Lexeme};
use chumsky_input::util::Plain;

/// Digits of a radix, which is between 2 and 36. Letters of either case count as digits from ten on.
#[derive(Clone, Copy, Debug)]
pub struct Digits {
    pub radix: u32,
}

impl<T: Char> Kind<T> for Digits {
    ghost fits = { λ k. (2 ≤ k.radix) × (k.radix ≤ 36) };

    ghost holds = { λ k t. is_digit (T.code t) k.radix };

    ghost wants = { λ _. Label (codes "digit") ∷ [] };

    #[inline]
    fn test(&self, token: &T) -> bool {
        token.to_char().is_digit(self.radix)
    }

    #[inline]
    fn expected(&self) -> Plain<'_> {
        Plain::Label("digit")
    }
}

impl<T: Char> Lexeme<T> for Digits {
    type Rest = Digits;

    ghost rest_after = { λ k _. k };

    #[inline]
    fn rest(&self, _first: &T) -> Digits {
        *self
    }
}

/// The first digit of a number of a radix, which is between 2 and 36.
#[derive(Clone, Copy, Debug)]
pub struct Int {
    pub radix: u32,
}

impl<T: Char> Kind<T> for Int {
    ghost fits = { λ k. (2 ≤ k.radix) × (k.radix ≤ 36) };

    ghost holds = { λ k t. is_digit (T.code t) k.radix };

    ghost wants = { λ _. Label (codes "int") ∷ [] };

    #[inline]
    fn test(&self, token: &T) -> bool {
        token.to_char().is_digit(self.radix)
    }

    #[inline]
    fn expected(&self) -> Plain<'_> {
        Plain::Label("int")
    }
}

/// The digits after the first one of a number: none after a zero.
#[derive(Clone, Copy, Debug)]
pub struct IntRest {
    pub radix: u32,
    pub zero: bool,
}

impl<T: Char> Kind<T> for IntRest {
    ghost fits = { λ k. (2 ≤ k.radix) × (k.radix ≤ 36) };

    ghost holds = { λ k t. cond k.zero false (is_digit (T.code t) k.radix) };

    ghost wants = { λ k. cond k.zero [] (Label (codes "digit") ∷ []) };

    #[inline]
    fn test(&self, token: &T) -> bool {
        if self.zero {
            false
        } else {
            token.to_char().is_digit(self.radix)
        }
    }

    #[inline]
    fn expected(&self) -> Plain<'_> {
        if self.zero {
            Plain::Nothing
        } else {
            Plain::Label("digit")
        }
    }
}

impl<T: Char> Lexeme<T> for Int {
    type Rest = IntRest;

    ghost rest_after = { λ k t. record { radix = k.radix; zero = T.code t == 48 } };

    #[inline]
    fn rest(&self, first: &T) -> IntRest {
        IntRest {
            radix: self.radix,
            zero: first.to_char() == '0',
        }
    }
}
