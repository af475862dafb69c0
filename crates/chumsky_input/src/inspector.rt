//! States of a parser.
ghost use Rattle.std.specs.Prelude.{◌≡◌, ⊤, refl, IfOk, OnOk, OnErr, IsOk};

use crate::input::Tokens;
use std::alloc::AllocError;

/// The state of a run over the inputs `I`: it is told of each token that is taken, and goes back where the parser does.
pub trait Inspector<I: Tokens> {
    /// What a state saves, to go back to.
    type Mark: Drop;

    /// What counts of a state, and of a mark.
    ghost Seen: { Type 0 };

    ghost seen: { Self → Seen };

    ghost Marked: { Type 0 };

    ghost marked: { Self.Mark → Marked };
    /// The state after a token, the mark of a state, and the state that a mark leads back to.
    ghost after: { Seen → I.Token → Seen };

    ghost mark: { Seen → Marked };

    ghost back: { Seen → Marked → Seen };
    /// That marks are made and gone back to without a request for memory.
    ghost takes_no_memory: { Type 0 };

    /// A token was taken. It is told even where the parser then goes back; a token that is only peeked at is not.
    fn on_token(&mut self, token: &I::Token)
        ensures { seen self.new ≡ after (seen self.old) token.now };

    /// A mark of the state as it is.
    fn on_save(&self) -> Result<Self::Mark, AllocError>
        ensures marks { IfOk result (λ m. marked m ≡ mark (seen self.now)) }
        ensures memory { takes_no_memory → IsOk result };

    /// The parser goes back to where the mark was made. A refused rewind leaves the state as it is.
    fn on_rewind(&mut self, saved: &Self::Mark) -> Result<(), AllocError>
        ensures goes { OnOk result (seen self.new ≡ back (seen self.old) (marked saved.now)) }
        ensures refused { OnErr result (self.new ≡ self.old) }
        ensures memory { takes_no_memory → IsOk result };

    /// A mark leads back to the state that it was made of.
    ghost goes_back: { (s : Seen) → back s (mark s) ≡ s };
}

/// No state.
impl<I: Tokens> Inspector<I> for () {
    type Mark = ();

    ghost Seen = { ⊤ };

    ghost seen = { λ s. s };

    ghost Marked = { ⊤ };

    ghost marked = { λ m. m };

    ghost after = { λ s t. s };

    ghost mark = { λ s. s };

    ghost back = { λ s m. s };

    ghost takes_no_memory = { ⊤ };

    ghost goes_back = { λ s. refl };

    #[inline]
    fn on_token(&mut self, token: &I::Token) {}

    #[inline]
    fn on_save(&self) -> Result<(), AllocError> {
        Ok(())
    }

    #[inline]
    fn on_rewind(&mut self, saved: &()) -> Result<(), AllocError> {
        Ok(())
    }
}
