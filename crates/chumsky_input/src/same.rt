//! Values whose clones are as good as they.
ghost use Rattle.std.specs.Prelude.{◌≡◌, ◌==◌, ℕ, Bool, true, List, ◌&&◌, map, nat_eq, refl, string_bytes, ⊤, IfSome};
ghost use Rattle.std.specs.Cmp.Lexicographic.{pointwise};
ghost use Rattle.std.proofs.Math.Bool.{beq};
ghost use Rattle.chumsky_input.specs.Same.{IsBucket, map_same, pair_same, items_equal, both_equal};

/// A type whose clones contracts can't tell from their originals, and whose `==` looks at nothing else.
///
/// A `Vec` and its clone lie at two addresses, so two values that a reader calls the same need not be one value to a
/// prover. `seen` is what a contract sees of a value.
pub trait SameClone: Clone + PartialEq {
    /// What counts of a value.
    ghost Seen: { Type 0 };

    ghost seen: { Self → Seen };
    /// `==`, by what counts.
    ghost same: { Seen → Seen → Bool };

    /// The number of a value's bucket.
    ghost bucket_of: { Self → ℕ } = { λ _. 0 };

    /// The number of the value's bucket, by which values in two buckets are told apart with no comparison: two that are
    /// equal are in one, and others may be. None where the type has no quick answer, as by default.
    fn bucket(&self) -> Option<u32>
        ensures { IfSome result (IsBucket Self.eq bucket_of self.now) }
    {
        None
    }

    ghost clone_same: { (x y : Self) → Self.is_clone x y → seen y ≡ seen x };

    ghost eq_same: { (x y : Self) → Self.eq x y ≡ same (seen x) (seen y) };
}

impl SameClone for char {
    ghost Seen = { ℕ };

    ghost seen = { λ x. x };

    ghost same = { λ x y. x == y };

    ghost bucket_of = { λ x. x };

    #[inline]
    fn bucket(&self) -> Option<u32> {
        Some(*self as u32)
    }

    ghost clone_same = { λ x y e. e };

    ghost eq_same = { λ x y. refl };
}

impl SameClone for bool {
    ghost Seen = { Bool };

    ghost seen = { λ x. x };

    ghost same = { beq };

    ghost clone_same = { λ x y e. e };

    ghost eq_same = { λ x y. refl };
}

impl SameClone for () {
    ghost Seen = { ⊤ };

    ghost seen = { λ x. x };

    ghost same = { λ _ _. true };

    ghost clone_same = { λ x y e. e };

    ghost eq_same = { λ x y. refl };
}

/// A reference is copied, and the value that it points to counts.
impl<T: PartialEq> SameClone for &T {
    ghost Seen = { T };

    ghost seen = { λ x. x.now };

    ghost same = { T.eq };

    ghost clone_same = { λ x y e. Prim.search e };

    ghost eq_same = { λ x y. refl };
}

impl SameClone for &str {
    ghost Seen = { List ℕ };

    ghost seen = { λ x. x.now };

    ghost same = { pointwise nat_eq };

    ghost clone_same = { λ x y e. Prim.search e };

    ghost eq_same = { λ x y. refl };
}

impl<T: PartialEq> SameClone for &[T] {
    ghost Seen = { List T };

    ghost seen = { λ x. x.now };

    ghost same = { pointwise T.eq };

    ghost clone_same = { λ x y e. Prim.search e };

    ghost eq_same = { λ x y. refl };
}

/// The bytes count.
impl SameClone for String {
    ghost Seen = { List ℕ };

    ghost seen = { λ x. string_bytes x };

    ghost same = { pointwise nat_eq };

    ghost clone_same = { λ x y e. e };

    ghost eq_same = { λ x y. refl };
}

/// What counts is what counts of the items, in order.
impl<T: SameClone> SameClone for Vec<T> {
    ghost Seen = { List T.Seen };

    ghost seen = { λ x. map T.seen x.items };

    ghost same = { pointwise T.same };

    ghost clone_same = { λ x y e. map_same T.is_clone T.seen T.clone_same x.items y.items e.0 };

    ghost eq_same = { λ x y. items_equal T.eq T.same T.seen T.eq_same x.items y.items };
}

impl<A: SameClone, B: SameClone> SameClone for (A, B) {
    ghost Seen = { A.Seen × B.Seen };

    ghost seen = { λ x. (A.seen x.0, B.seen x.1) };

    ghost same = { λ x y. A.same x.0 y.0 && B.same x.1 y.1 };

    ghost clone_same = { λ x y e. pair_same (A.clone_same x.0 y.0 e.0) (B.clone_same x.1 y.1 e.1) };

    ghost eq_same = { λ x y. both_equal (A.eq_same x.0 y.0) (B.eq_same x.1 y.1) };
}

/// Two pairs count as equal where both of their parts do.
pub fn pairs_are_the_same_by_both_parts<A: SameClone, B: SameClone>(a: &(A, B), b: &(A, B))
    ensures { ⟦<(A, B) as SameClone>⟧.same (⟦<(A, B) as SameClone>⟧.seen a.now) (⟦<(A, B) as SameClone>⟧.seen b.now) ≡ (A.same (A.seen a.now.0) (A.seen b.now.0) && B.same (B.seen a.now.1) (B.seen b.now.1)) }
{}
