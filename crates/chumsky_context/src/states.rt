//! States of a parser: `SimpleState` stays where the parser goes back, `RollbackState` is restored, `TruncateState` is cut.
ghost use Rattle.std.specs.Prelude.{◌≡◌, ⊤, ℕ, List, length, take, refl};
ghost use Rattle.std.proofs.Math.Seq.{take-length};

use chumsky_input::input::Tokens;
use chumsky_input::inspector::Inspector;
use chumsky_input::same::SameClone;
use std::alloc::AllocError;

/// A state that stays as it was written, also where the parser goes back: a count of all tokens that were tried.
#[derive(Clone, PartialEq, Default, Drop)]
pub struct SimpleState<T>(pub T);

impl<I: Tokens, T> Inspector<I> for SimpleState<T> {
    type Mark = ();

    ghost Seen = { T };

    ghost seen = { λ s. s.0 };

    ghost Marked = { ⊤ };

    ghost marked = { λ m. m };

    ghost after = { λ s t. s };

    ghost mark = { λ s. tt };

    ghost back = { λ s m. s };

    ghost takes_no_memory = { ⊤ };

    ghost goes_back = { λ s. refl };

    #[inline]
    fn on_token(&mut self, token: &I::Token) {}

    #[inline]
    fn on_save(&self) -> Result<(), AllocError> {
        Ok(())
    }

    #[inline]
    fn on_rewind(&mut self, saved: &()) -> Result<(), AllocError> {
        Ok(())
    }
}

/// A state that goes back where the parser does: what an alternative wrote is undone when it fails. A copy is made at each
/// save, so the value should be small.
#[derive(Clone, PartialEq, Default, Drop)]
pub struct RollbackState<T>(pub T);

impl<I: Tokens, T: SameClone + Drop> Inspector<I> for RollbackState<T> {
    type Mark = T;

    ghost Seen = { T.Seen };

    ghost seen = { λ s. T.seen s.0 };

    ghost Marked = { T.Seen };

    ghost marked = { λ m. T.seen m };

    ghost after = { λ s t. s };

    ghost mark = { λ s. s };

    ghost back = { λ s m. m };

    ghost takes_no_memory = { (x : T) → T.is_infallible x };

    ghost goes_back = { λ s. refl };

    #[inline]
    fn on_token(&mut self, token: &I::Token) {}

    #[inline]
    fn on_save(&self) -> Result<T, AllocError> {
        self.0.clone()
    }

    #[inline]
    fn on_rewind(&mut self, saved: &T) -> Result<(), AllocError> {
        self.0 = saved.clone()?;
        Ok(())
    }
}

/// A list that is cut, where the parser goes back, to as many items as it had: a table of symbols that grows, and loses those
/// of an alternative that failed. Nothing is copied. What an alternative removed doesn't come back.
#[derive(Clone, PartialEq, Drop)]
pub struct TruncateState<T>(pub Vec<T>);

impl<I: Tokens, T: Drop> Inspector<I> for TruncateState<T> {
    type Mark = usize;

    ghost Seen = { List T };

    ghost seen = { λ s. s.0.items };

    ghost Marked = { ℕ };

    ghost marked = { λ m. m };

    ghost after = { λ s t. s };

    ghost mark = { λ s. length s };

    ghost back = { λ s m. take m s };

    ghost takes_no_memory = { ⊤ };

    ghost goes_back = { λ s. take-length s };

    #[inline]
    fn on_token(&mut self, token: &I::Token) {}

    #[inline]
    fn on_save(&self) -> Result<usize, AllocError> {
        Ok(self.0.len())
    }

    #[inline]
    fn on_rewind(&mut self, saved: &usize) -> Result<(), AllocError> {
        self.0.truncate(*saved);
        Ok(())
    }
}
