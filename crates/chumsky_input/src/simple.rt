//! Errors that say where they stand, and at most what was found there.
ghost use Rattle.std.specs.Prelude.{◌≡◌, ⊤, List, IfOk, IsOk, map, option_map, option_copied};
ghost use Rattle.std.specs.Iterator.{IsFinite, Drains};
ghost use Rattle.chumsky_input.specs.Maybe.{maybe_value};
ghost use Rattle.chumsky_input.specs.Simple.{SimpleSeen, cheap_span, simple_span, simple_found, simple_seen, simple_expectation};

use crate::error::Error;
use crate::input::Tokens;
use crate::same::SameClone;
use crate::span::SimpleSpan;
use crate::util::{Expectation, MaybeRef, token_of};
use std::alloc::{AllocError, Global};

/// An error that says where it stands. Of several at one place the first stays.
#[derive(Clone, Copy, Debug, PartialEq, Eq)]
pub struct Cheap {
    span: SimpleSpan,
}

impl Cheap {
    /// An error that stands there: `Cheap::new(inp.span_since(&before))`.
    #[inline]
    pub fn new(span: SimpleSpan) -> Self
        ensures { cheap_span result ≡ span }
    {
        Cheap { span }
    }

    /// Where the error stands.
    #[inline]
    pub fn span(&self) -> &SimpleSpan
        ensures { result.now ≡ cheap_span self.now }
    {
        &self.span
    }
}

impl<I: Tokens<Span = SimpleSpan>> Error<I> for Cheap {
    ghost use Rattle.chumsky_input.specs.declared.span.SimpleSpan.{SimpleSpan};

    ghost Seen = { SimpleSpan };

    ghost seen = { cheap_span };

    ghost expectation = { λ _ _ span. span };

    ghost merged = { λ a b. a };

    ghost takes_no_memory = { ⊤ };

    #[inline]
    fn expected_found<'a, X: Iterator + Drop>(
        alloc: Global,
        expected: X,
        found: Option<MaybeRef<'a, I::Token>>,
        span: SimpleSpan,
    ) -> Result<Self, AllocError>
    where
        X::Item: Expectation<I::Token> + Drop,
        requires can { X.can_next expected }
        requires ends { IsFinite (X.remaining expected) }
        ensures error { IfOk result (λ e. (xs : List X.Item) × Drains X.next_gives expected xs × (cheap_span e ≡ span)) }
        ensures memory { ⊤ → IsOk result }
    {
        for _ in expected {}
        Ok(Cheap { span })
    }

    #[inline]
    fn merge(self, other: Self) -> Result<Self, AllocError> {
        Ok(Cheap { span: self.span })
    }
}

/// An error that says where it stands and what was found there. Of several at one place the first stays.
///
/// The found token is cloned where the input only lends it, so memory is asked for only where a clone of a token asks.
#[derive(Clone, Debug, PartialEq, Drop)]
pub struct Simple<T> {
    span: SimpleSpan,
    found: Option<T>,
}

impl<T> Simple<T> {
    /// An error that stands there, where that token was found, or the end of input: `Simple::new(Some('a'), span)`.
    #[inline]
    pub fn new(found: Option<T>, span: SimpleSpan) -> Self
        ensures span { simple_span result ≡ span }
        ensures found { simple_found result ≡ found }
    {
        Simple { span, found }
    }

    /// Where the error stands.
    #[inline]
    pub fn span(&self) -> &SimpleSpan
        ensures { result.now ≡ simple_span self.now }
    {
        &self.span
    }

    /// The token that was found. None at the end of input.
    #[inline]
    pub fn found(&self) -> Option<&T>
        ensures { option_copied result ≡ simple_found self.now }
    {
        self.found.as_ref()
    }
}

impl<T: SameClone + Drop, I: Tokens<Token = T, Span = SimpleSpan>> Error<I> for Simple<T> {
    ghost Seen = { SimpleSeen T.Seen };

    ghost seen = { simple_seen T.seen };

    ghost expectation = { λ _ found span. simple_expectation T.seen found span };

    ghost merged = { λ a b. a };

    ghost takes_no_memory = { (x : T) → T.is_infallible x };

    #[inline]
    fn expected_found<'a, X: Iterator + Drop>(
        alloc: Global,
        expected: X,
        found: Option<MaybeRef<'a, T>>,
        span: SimpleSpan,
    ) -> Result<Self, AllocError>
    where
        X::Item: Expectation<T> + Drop,
        requires can { X.can_next expected }
        requires ends { IsFinite (X.remaining expected) }
        ensures error { IfOk result (λ e. (xs : List X.Item) × Drains X.next_gives expected xs × (simple_seen T.seen e ≡ simple_expectation T.seen (option_map maybe_value found.entry) span)) }
        ensures memory { ((x : T) → T.is_infallible x) → IsOk result }
    {
        for _ in expected {}
        let found = match found {
            Some(token) => Some(token_of(token)?),
            None => None,
        };
        Ok(Simple { span, found })
    }

    #[inline]
    fn merge(self, other: Self) -> Result<Self, AllocError> {
        Ok(self)
    }
}
