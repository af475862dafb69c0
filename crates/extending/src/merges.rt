//! An error that shows how it came about.
ghost use Rattle.std.specs.Prelude.{◌≡◌, ℕ, List, IfOk, IsOk, map};
ghost use Rattle.std.specs.List.{filter_map};
ghost use Rattle.std.specs.Iterator.{IsFinite, Drains};
ghost use Rattle.chumsky_input.specs.Wanted.{named_token};
ghost use Rattle.extending.specs.Merges.{in_brackets};

use chumsky::DefaultExpected;
use chumsky::error::Error;
use chumsky::input::Tokens;
use chumsky::span::SimpleSpan;
use chumsky::util::{Expectation, MaybeRef};
use std::alloc::{AllocError, Global};

/// The tokens that were expected; `(a b)` for two errors `a` and `b` that were merged.
#[derive(Drop)]
pub struct Merges {
    pub text: Vec<char>,
}

impl<I: Tokens<Token = char, Span = SimpleSpan>> Error<I> for Merges {
    ghost Seen = { List ℕ };

    ghost seen = { λ e. e.text.items };

    ghost expectation = { λ expected _ _. filter_map named_token expected };

    ghost merged = { in_brackets };

    ghost takes_no_memory = { ⊥ };

    fn expected_found<'a, X: Iterator + Drop>(
        alloc: Global,
        expected: X,
        found: Option<MaybeRef<'a, char>>,
        span: SimpleSpan,
    ) -> Result<Self, AllocError>
    where
        X::Item: Expectation<char> + Drop,
        requires can { X.can_next expected }
        requires ends { IsFinite (X.remaining expected) }
        ensures error { IfOk result (λ e. (xs : List X.Item) × Drains X.next_gives expected xs × (e.text.items ≡ filter_map named_token (map X.Item.expectation xs))) }
        ensures memory { ⊥ → IsOk result }
    {
        let mut text = Vec::new(alloc);
        for item in expected {
            if let DefaultExpected::Token(token) = item.as_expected() {
                text.push(*token.get())?;
            }
        }
        Ok(Merges { text })
    }

    fn merge(self, other: Self) -> Result<Self, AllocError>
        ensures error { IfOk result (λ e. e.text.items ≡ in_brackets self.text.items other.text.items) }
        ensures memory { ⊥ → IsOk result }
    {
        let Merges { mut text } = self;
        text.insert(0, '(')?;
        text.push(' ')?;
        text.extend_from_slice(&other.text)?;
        text.push(')')?;
        Ok(Merges { text })
    }
}
