//! States that show what a run did to them.
ghost use Rattle.std.specs.Prelude.{ℕ, ⊤, refl};

use chumsky::input::Tokens;
use chumsky::inspector::Inspector;
use std::alloc::AllocError;

/// A number that goes back where the parser does, and takes no notice of tokens.
#[derive(Clone, Copy, PartialEq, Eq, Default, Debug)]
pub struct Tally {
    pub count: u32,
}

impl<I: Tokens> Inspector<I> for Tally {
    type Mark = u32;

    ghost Seen = { ℕ };

    ghost seen = { λ s. s.count };

    ghost Marked = { ℕ };

    ghost marked = { λ m. m };

    ghost after = { λ s t. s };

    ghost mark = { λ s. s };

    ghost back = { λ s m. m };

    ghost takes_no_memory = { ⊤ };

    ghost goes_back = { λ s. refl };

    fn on_token(&mut self, token: &I::Token) {}

    fn on_save(&self) -> Result<u32, AllocError> {
        Ok(self.count)
    }

    fn on_rewind(&mut self, saved: &u32) -> Result<(), AllocError> {
        self.count = *saved;
        Ok(())
    }
}

/// A number that stays as it was written, also where the parser goes back.
#[derive(Clone, Copy, Default, Debug)]
pub struct Kept {
    pub count: u32,
}

impl<I: Tokens> Inspector<I> for Kept {
    type Mark = ();

    ghost Seen = { ℕ };

    ghost seen = { λ s. s.count };

    ghost Marked = { ⊤ };

    ghost marked = { λ m. m };

    ghost after = { λ s t. s };

    ghost mark = { λ s. tt };

    ghost back = { λ s m. s };

    ghost takes_no_memory = { ⊤ };

    ghost goes_back = { λ s. refl };

    fn on_token(&mut self, token: &I::Token) {}

    fn on_save(&self) -> Result<(), AllocError> {
        Ok(())
    }

    fn on_rewind(&mut self, saved: &()) -> Result<(), AllocError> {
        Ok(())
    }
}

/// A state that counts the tokens that it is told, and goes on counting where the parser goes back.
#[derive(Clone, Copy, Default, Debug)]
pub struct Told {
    pub tokens: u32,
}

impl<I: Tokens> Inspector<I> for Told {
    type Mark = ();

    ghost Seen = { ⊤ };

    ghost seen = { λ s. tt };

    ghost Marked = { ⊤ };

    ghost marked = { λ m. m };

    ghost after = { λ s t. s };

    ghost mark = { λ s. s };

    ghost back = { λ s m. s };

    ghost takes_no_memory = { ⊤ };

    ghost goes_back = { λ s. refl };

    fn on_token(&mut self, token: &I::Token) {
        self.tokens = self.tokens.saturating_add(1);
    }

    fn on_save(&self) -> Result<(), AllocError> {
        Ok(())
    }

    fn on_rewind(&mut self, saved: &()) -> Result<(), AllocError> {
        Ok(())
    }
}
