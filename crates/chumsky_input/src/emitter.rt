//! Errors that a validator emits.
ghost use Rattle.std.specs.Prelude.{◌≡◌, ℕ, ◌++◌, ◌∷◌, List, [], true, false, ◌⊎◌, Some, None, IfSome, MatchResult};
ghost use Rattle.chumsky_input.specs.Rich.{IsMessage};
ghost use Rattle.chumsky_input.specs.declared.rich.Rich.{Rich};

use crate::rich::Rich;
use crate::span::SimpleSpan;
use std::alloc::{AllocError, Global};
use std::fmt::Display;

/// What a validator emits errors by.
///
/// `emit` gives no answer. Where the list of errors could not grow, that is remembered, and told when the errors are
/// taken out.
#[derive(Drop)]
pub struct Emitter<E> {
    pub errors: Vec<E>,
    pub refused: bool,
}

impl<E: Drop> Emitter<E> {
    /// An emitter that has emitted nothing.
    #[inline]
    pub fn new(alloc: Global) -> Emitter<E>
        ensures errors { result.errors.items ≡ [] }
        ensures refused { result.refused ≡ false }
    {
        Emitter {
            errors: Vec::new(alloc),
            refused: false,
        }
    }

    /// Emits an error, after those before it; or remembers that there was no memory for it.
    #[inline]
    pub fn emit(&mut self, error: E)
        ensures { ((self.new.errors.items ≡ self.old.errors.items ++ error ∷ []) × (self.new.refused ≡ self.old.refused)) ⊎ ((self.new.errors.items ≡ self.old.errors.items) × (self.new.refused ≡ true)) }
    {
        match self.errors.push(error) {
            Ok(()) => {}
            Err(_) => self.refused = true,
        }
    }

    /// The errors in order, unless there was no memory for one of them.
    #[inline]
    pub fn into_errors(self) -> Result<Vec<E>, AllocError>
        ensures { MatchResult result (λ errors. (errors ≡ self.errors) × (self.refused ≡ false)) (λ _. self.refused ≡ true) }
    {
        if self.refused {
            return Err(AllocError);
        }
        Ok(self.errors)
    }
}

impl<T: Drop> Emitter<Rich<T>> {
    /// Emits an error with a message of one's own, made of anything that prints, after the errors before it; or remembers that
    /// there was no memory for it: `emitter.emit_message(extra.alloc(), extra.span(), "no such day")`.
    pub fn emit_message<M: Display + Drop>(&mut self, alloc: Global, span: SimpleSpan, message: M)
        ensures { ((error : Rich T) × IsMessage error span (M.output message) × (self.new.errors.items ≡ self.old.errors.items ++ error ∷ []) × (self.new.refused ≡ self.old.refused)) ⊎ ((self.new.errors.items ≡ self.old.errors.items) × (self.new.refused ≡ true)) }
    {
        match Rich::custom_in(alloc, span, message) {
            Ok(error) => self.emit(error),
            Err(_) => self.refused = true,
        }
    }
}
