//! Whole numbers are their own clones.
ghost use Rattle.std.specs.Prelude.{◌≡◌, ◌==◌, ℕ, ℤ, Bool, refl};
ghost use Rattle.std.specs.Ordering.{int_eq};

use crate::same::SameClone;

impl SameClone for u8 {
    ghost Seen = { ℕ };

    ghost seen = { λ x. x };

    ghost same = { λ x y. x == y };

    ghost bucket_of = { λ x. x };

    #[inline]
    fn bucket(&self) -> Option<u32> {
        Some(*self as u32)
    }

    ghost clone_same = { λ x y e. e };

    ghost eq_same = { λ x y. refl };
}

impl SameClone for u16 {
    ghost Seen = { ℕ };

    ghost seen = { λ x. x };

    ghost same = { λ x y. x == y };

    ghost clone_same = { λ x y e. e };

    ghost eq_same = { λ x y. refl };
}

impl SameClone for u32 {
    ghost Seen = { ℕ };

    ghost seen = { λ x. x };

    ghost same = { λ x y. x == y };

    ghost clone_same = { λ x y e. e };

    ghost eq_same = { λ x y. refl };
}

impl SameClone for u64 {
    ghost Seen = { ℕ };

    ghost seen = { λ x. x };

    ghost same = { λ x y. x == y };

    ghost clone_same = { λ x y e. e };

    ghost eq_same = { λ x y. refl };
}

impl SameClone for u128 {
    ghost Seen = { ℕ };

    ghost seen = { λ x. x };

    ghost same = { λ x y. x == y };

    ghost clone_same = { λ x y e. e };

    ghost eq_same = { λ x y. refl };
}

impl SameClone for usize {
    ghost Seen = { ℕ };

    ghost seen = { λ x. x };

    ghost same = { λ x y. x == y };

    ghost clone_same = { λ x y e. e };

    ghost eq_same = { λ x y. refl };
}

impl SameClone for i8 {
    ghost Seen = { ℤ };

    ghost seen = { λ x. x };

    ghost same = { int_eq };

    ghost clone_same = { λ x y e. e };

    ghost eq_same = { λ x y. refl };
}

impl SameClone for i16 {
    ghost Seen = { ℤ };

    ghost seen = { λ x. x };

    ghost same = { int_eq };

    ghost clone_same = { λ x y e. e };

    ghost eq_same = { λ x y. refl };
}

impl SameClone for i32 {
    ghost Seen = { ℤ };

    ghost seen = { λ x. x };

    ghost same = { int_eq };

    ghost clone_same = { λ x y e. e };

    ghost eq_same = { λ x y. refl };
}

impl SameClone for i64 {
    ghost Seen = { ℤ };

    ghost seen = { λ x. x };

    ghost same = { int_eq };

    ghost clone_same = { λ x y e. e };

    ghost eq_same = { λ x y. refl };
}

impl SameClone for i128 {
    ghost Seen = { ℤ };

    ghost seen = { λ x. x };

    ghost same = { int_eq };

    ghost clone_same = { λ x y e. e };

    ghost eq_same = { λ x y. refl };
}

impl SameClone for isize {
    ghost Seen = { ℤ };

    ghost seen = { λ x. x };

    ghost same = { int_eq };

    ghost clone_same = { λ x y e. e };

    ghost eq_same = { λ x y. refl };
}
