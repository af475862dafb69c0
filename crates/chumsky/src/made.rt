//! Parsers that are made of others, and have names of their own.
ghost use Rattle.std.specs.Prelude.{◌≡◌};

use chumsky_combinator::map::{Map, Mapper};
use chumsky_combinator::map_in::{MapIn, MapperIn};
use chumsky_combinator::then_ignore::ThenIgnore;
use chumsky_context::spanned::Spanned;
use chumsky_input::extra::ParserExtra;
use chumsky_input::input::Tokens;
use chumsky_input::span::Spanned as SpannedOutput;
use chumsky_items::repeated::Repeated;
use chumsky_judge::try_map::{TryMap, TryMapper};
use chumsky_primitive::any::Any;
use std::alloc::{AllocError, Global};
use std::convert::AsStr;
use std::marker::PhantomData;
use std::str;

/// A parser, and then all that is left of the input. See `lazy`.
pub type Lazy<A, I, E> = ThenIgnore<A, Repeated<Any<I, E>, <I as Tokens>::Token, I, E>, ()>;

/// A parser whose text is read as a value. See `from_str`.
pub type FromStr<A, O, U> = Map<A, O, ReadStr<U>, Result<U, <U as str::FromStr>::Err>>;

/// The mapper that reads a text as a value of a type, by that type's `FromStr`.
#[derive(Drop)]
#[derive_where(Clone, Copy)]
pub struct ReadStr<U> {
    pub of: PhantomData<U>,
}

impl<O: AsStr + Drop, U: str::FromStr> Mapper<O, Result<U, U::Err>> for ReadStr<U> {
    ghost gives = { λ mapper value result. U.from_str_gives (O.text value) result };

    #[inline]
    fn apply(&self, value: O) -> Result<U, U::Err> {
        U::from_str(value.as_str())
    }
}

/// A parser whose output goes through a mapper that is given its span too, asks for memory and may refuse it. See `try_map_in`.
pub type TryMapIn<A, O, F, U, I, E> = TryMap<
    MapIn<
        Spanned<A, O>,
        SpannedOutput<O, <I as Tokens>::Span>,
        AtSpan<F>,
        Result<U, <E as ParserExtra<I>>::Error>,
    >,
    Result<U, <E as ParserExtra<I>>::Error>,
    HandsOn,
    U,
>;

/// The mapper of a value with its span by a closure that is handed the two one by one, and the allocator of the run.
#[derive(Clone, Copy, Drop)]
pub struct AtSpan<F> {
    pub mapper: F,
}

impl<O, S, U, F: Fn(O, S, Global) -> Result<U, AllocError>> MapperIn<SpannedOutput<O, S>, U>
    for AtSpan<F> {
    ghost callable = { λ at_span. F.IsAlwaysCallable at_span.mapper };

    ghost gives = { λ at_span value answer. (alloc : _) × F.post at_span.mapper value.inner value.span alloc answer };

    #[inline]
    fn apply_in(&self, value: SpannedOutput<O, S>, alloc: Global) -> Result<U, AllocError> {
        (self.mapper)(value.inner, value.span, alloc)
    }
}

/// The mapper of a `Result` that answers just that: the value, or the error that refuses it.
#[derive(Clone, Copy)]
pub struct HandsOn;

impl<S: Drop, U, R> TryMapper<Result<U, R>, S, U, R> for HandsOn {
    ghost gives = { λ hands_on value span answer. answer ≡ value };

    #[inline]
    fn try_apply(&self, value: Result<U, R>, _span: S) -> Result<U, R> {
        value
    }
}
