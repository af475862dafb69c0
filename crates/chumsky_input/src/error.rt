//! What errors say, and how two of them are merged.
ghost use Rattle.std.specs.Prelude.{◌≡◌, ◌≤◌, ⊤, List, Option, IfOk, IsOk, MatchOption, map, option_map, option_copied};
ghost use Rattle.std.specs.Iterator.{IsFinite, Drains};
ghost use Rattle.chumsky_input.specs.Keeping.{kept_event, KeepsEvent};
ghost use Rattle.chumsky_input.specs.Wanted.{Wanted, sole_wanted};
ghost use Rattle.chumsky_input.specs.Maybe.{maybe_value};

use crate::input::Tokens;
use crate::input_ref::{Located, One};
use crate::util::{Expectation, MaybeRef, Sole, lent};
use std::alloc::{AllocError, Global};

/// An error of parsers over the inputs `I`.
pub trait Error<I: Tokens>: Drop + Sized {
    /// What counts of an error.
    ghost Seen: { Type 0 };

    ghost seen: { Self → Seen };
    /// The error of an expectation, and the merge of two errors.
    ghost expectation: { List (Wanted I.Token) → Option I.Token → I.Span → Seen };

    ghost merged: { Seen → Seen → Seen };
    /// That errors are built and merged without a request for memory.
    ghost takes_no_memory: { Type 0 };

    /// The error where one of `expected` was expected and `found` was there, or the end of input.
    fn expected_found<'a, X: Iterator + Drop>(
        alloc: Global,
        expected: X,
        found: Option<MaybeRef<'a, I::Token>>,
        span: I::Span,
    ) -> Result<Self, AllocError>
    where
        X::Item: Expectation<I::Token> + Drop,
        requires can { X.can_next expected }
        requires ends { IsFinite (X.remaining expected) }
        ensures error { IfOk result (λ e. (xs : List X.Item) × Drains X.next_gives expected xs × (seen e ≡ expectation (map X.Item.expectation xs) (option_map maybe_value found.entry) span)) }
        ensures memory { takes_no_memory → IsOk result };

    /// One error of two that stand at the same place: `self` came first.
    fn merge(self, other: Self) -> Result<Self, AllocError>
        ensures error { IfOk result (λ e. seen e ≡ merged (seen self) (seen other)) }
        ensures memory { takes_no_memory → IsOk result };

    /// Keeps a failure at a place, not before that of the error that is kept, where at most one thing was expected: further
    /// on its error is kept in place of that one, and at the same place the two are merged. By default the error is built
    /// first. An error type that can take one more expectation where it lies does so here.
    #[inline(always)]
    fn keep_expected(
        kept: &mut Option<Located<Self>>,
        place: usize,
        alloc: Global,
        expected: &Sole<'_, I::Token>,
        found: Option<&I::Token>,
        span: I::Span,
    ) -> Result<(), AllocError>
        requires near { MatchOption kept.old ⊤ (λ older. older.place ≤ place) }
        ensures keeps { KeepsEvent merged takes_no_memory (record { place = place; error = expectation (sole_wanted expected.now) (option_copied found.entry) span }) (kept_event seen kept.old) (kept_event seen kept.new) result }
    {
        let one = One {
            left: expected.as_expected(),
        };
        let error = Self::expected_found(alloc, one, lent(found), span)?;
        match kept.take() {
            None => *kept = Some(Located { place, error }),
            Some(older) => {
                if older.place < place {
                    *kept = Some(Located { place, error });
                } else {
                    let error = older.error.merge(error)?;
                    *kept = Some(Located { place, error });
                }
            }
        }
        Ok(())
    }
}

/// An error that says nothing.
#[derive(Clone, Copy, Debug, PartialEq, Default)]
pub struct EmptyErr;

impl<I: Tokens> Error<I> for EmptyErr {
    ghost Seen = { ⊤ };

    ghost seen = { λ _. tt };

    ghost expectation = { λ _ _ _. tt };

    ghost merged = { λ a b. a };

    ghost takes_no_memory = { ⊤ };

    #[inline]
    fn expected_found<'a, X: Iterator + Drop>(
        alloc: Global,
        expected: X,
        found: Option<MaybeRef<'a, I::Token>>,
        span: I::Span,
    ) -> Result<Self, AllocError>
    where
        X::Item: Expectation<I::Token> + Drop,
        requires can { X.can_next expected }
        requires ends { IsFinite (X.remaining expected) }
        ensures error { IfOk result (λ e. (xs : List X.Item) × Drains X.next_gives expected xs × ◌≡◌ {A = ⊤} tt tt) }
        ensures memory { ⊤ → IsOk result }
    {
        for _ in expected {}
        Ok(EmptyErr)
    }

    #[inline]
    fn merge(self, other: Self) -> Result<Self, AllocError> {
        Ok(self)
    }
}
