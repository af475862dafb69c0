//! What makes one value of many.
ghost use Rattle.std.specs.Prelude.{⊤};

/// What takes one item more into an accumulator, from the left: what `fold` and `foldl` call. Each closure `Fn(A, O) -> A`
/// is one, and so is a type of one's own that has an impl, which says in `gives` what is later known of the accumulator:
///
/// ```text
/// pub struct Sum;
///
/// impl Folder<u8, u8> for Sum {
///     ghost gives = { λ folder sum item after. after ≡ (sum + item) % 2 ^ 8 };
///
///     fn step(&self, sum: u8, item: u8) -> u8 {
///         sum.wrapping_add(item)
///     }
/// }
/// ```
pub trait Folder<A, O> {
    /// That it may be called. Where nothing is said, it may.
    ghost callable: { Self → Type 0 } = { λ folder. ⊤ };

    /// What it may give for an accumulator and an item. Where nothing is said, nothing is known of it.
    ghost gives: { Self → A → O → A → Type 0 } = { λ folder accumulator item after. ⊤ };

    /// The accumulator with the item in it.
    fn step(&self, accumulator: A, item: O) -> A
        requires { callable self.now }
        ensures { gives self.now accumulator item result };
}

impl<A, O, F: Fn(A, O) -> A> Folder<A, O> for F {
    ghost callable = { λ f. F.IsAlwaysCallable f };

    ghost gives = { λ f accumulator item result. F.post f accumulator item result };

    #[inline]
    fn step(&self, accumulator: A, item: O) -> A {
        (*self)(accumulator, item)
    }
}

/// What takes one item more into an accumulator, from the right: what `foldr` calls. Each closure `Fn(O, A) -> A` is one,
/// and so is a type of one's own that has an impl, as with `Folder`.
pub trait RightFolder<O, A> {
    /// That it may be called. Where nothing is said, it may.
    ghost callable: { Self → Type 0 } = { λ folder. ⊤ };

    /// What it may give for an item and an accumulator. Where nothing is said, nothing is known of it.
    ghost gives: { Self → O → A → A → Type 0 } = { λ folder item accumulator after. ⊤ };

    /// The accumulator with the item in it.
    fn step(&self, item: O, accumulator: A) -> A
        requires { callable self.now }
        ensures { gives self.now item accumulator result };
}

impl<O, A, F: Fn(O, A) -> A> RightFolder<O, A> for F {
    ghost callable = { λ f. F.IsAlwaysCallable f };

    ghost gives = { λ f item accumulator result. F.post f item accumulator result };

    #[inline]
    fn step(&self, item: O, accumulator: A) -> A {
        (*self)(item, accumulator)
    }
}
