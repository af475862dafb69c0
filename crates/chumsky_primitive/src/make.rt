//! The functions that make primitives.
ghost use Rattle.std.specs.Prelude.{◌≡◌};

use crate::any::Any;
use crate::any_ref::AnyRef;
use crate::custom::{Custom, Reader};
use crate::empty::Empty;
use crate::end::End;
use crate::just::Just;
use crate::none_of::NoneOf;
use crate::one_of::OneOf;
use crate::select::Select;
use crate::select_ref::SelectRef;
use chumsky_input::extra::ParserExtra;
use chumsky_input::input::{BorrowInput, Input, ValueInput};
use chumsky_input::input_ref::InputRef;
use chumsky_input::map_extra::MapExtra;
use chumsky_input::stop::Failure;
use std::marker::PhantomData;

/// Takes one token, whichever it is, and gives it: `any()` gives `'a'` of `a`. It fails at the end of input.
#[inline]
pub fn any<I, E>() -> Any<I, E> {
    Any { of: PhantomData }
}

/// Takes one token, whichever it is, and gives a reference to it where it lies in the input: over a slice `any_ref()` gives
/// `&7` of `[7]`. It fails at the end of input.
#[inline]
pub fn any_ref<I, E>() -> AnyRef<I, E> {
    AnyRef { of: PhantomData }
}

/// Says yes at the end of input, and fails at any token: `just('a').or_not().then_ignore(end())` fails on `b`, at 0..1.
/// `parse` and `check` run it after the parser.
#[inline]
pub fn end<I, E>() -> End<I, E> {
    End { of: PhantomData }
}

/// Takes the members of a sequence, one after another, and gives the sequence: `just("let")` gives `"let"` of `let`. Where
/// a member isn't there the error is at that place, and the cursor goes back to it: on `lex` a `t` was expected at 2..3.
#[inline]
pub fn just<T, I, E>(seq: T) -> Just<T, I, E>
    ensures { result.seq ≡ seq }
{
    Just {
        seq,
        of: PhantomData,
    }
}

/// Says yes everywhere, and takes nothing: `just("a").ignored().or(empty())` always succeeds.
#[inline]
pub fn empty<I, E>() -> Empty<I, E> {
    Empty { of: PhantomData }
}

/// Takes one token that is a member of a sequence, and gives it: `one_of("+-")` takes a sign. Where the next token is
/// none of them, or there is none, it takes nothing, and fails with each member expected, in order.
#[inline]
pub fn one_of<S, I, E>(seq: S) -> OneOf<S, I, E>
    ensures { result.seq ≡ seq }
{
    OneOf {
        seq,
        of: PhantomData,
    }
}

/// Takes one token that is no member of a sequence, and gives it: `none_of("\"\n")` takes what may stand in a string.
/// Where the next token is a member, or there is none, it takes nothing, and fails with something else expected.
#[inline]
pub fn none_of<S, I, E>(seq: S) -> NoneOf<S, I, E>
    ensures { result.seq ≡ seq }
{
    NoneOf {
        seq,
        of: PhantomData,
    }
}

/// Takes one token that the closure answers `Some` to, and gives what is in the `Some`; fails at any other token, and at
/// the end of input. The closure is given the token by value and an extra over it, and is called with and without an
/// output wanted; what it writes to the state stands where it answers `Some`. `select(|c: char, _| c.to_digit(10))` gives 7
/// of `7`. See the macro `select!`.
#[inline]
pub fn select<'src, F, I, O, E>(filter: F) -> Select<F, I, O, E>
where
    I: ValueInput<'src>,
    E: ParserExtra<I>,
    F: Fn(I::Token, &mut MapExtra<'src, '_, I, E>) -> Option<O>,
    ensures { result.filter ≡ filter }
{
    Select {
        filter,
        of: PhantomData,
    }
}

/// `select` over references: the closure is given a reference to the token where it lies in the input, and nothing is
/// cloned. See the macro `select_ref!`.
#[inline]
pub fn select_ref<'src, F, I, O, E>(filter: F) -> SelectRef<F, I, O, E>
where
    I: BorrowInput<'src>,
    I::Token: 'src,
    E: ParserExtra<I>,
    F: Fn(&'src I::Token, &mut MapExtra<'src, '_, I, E>) -> Option<O>,
    ensures { result.filter ≡ filter }
{
    SelectRef {
        filter,
        of: PhantomData,
    }
}

/// A parser given by a closure, which is called whether an output is wanted or not.
///
/// It succeeds where the closure gives a value, and ends where the closure left the cursor. An error of the closure
/// stands at the place where the parser began, and a stop is passed on. The closure is lent an input on which nothing
/// has failed yet: what it does counts after what was there before, and the failures of parsers that it runs count as
/// one. In Rattle a closure may not capture a parser whose type names the input's lifetime: make it inside, as
/// `inp.parse(any())`.
///
/// ```
/// custom(|inp| match inp.next()? {
///     Some(c) => Ok(c),
///     None => Err(Failure::Error(EmptyErr)),
/// })
/// ```
#[inline]
pub fn custom<'src, F, I, O, E>(closure: F) -> Custom<F, I, O, E>
where
    I: Input<'src>,
    I::Token: 'src,
    E: ParserExtra<I>,
    F: Fn(&mut InputRef<'src, '_, I, E>) -> Result<O, Failure<E::Error>>,
    ensures { result.reader ≡ closure }
{
    Custom {
        reader: closure,
        of: PhantomData,
    }
}

/// `custom` with a value of a type with an impl of `Reader`, as `custom_by(TwoTokens)`. The parser's type can then be written
/// down, its output may name a lifetime, and what is read is known where the parser is run.
#[inline]
pub fn custom_by<'src, F, I, O, E>(reader: F) -> Custom<F, I, O, E>
where
    I: Input<'src>,
    I::Token: 'src,
    E: ParserExtra<I>,
    F: Reader<'src, I, O, E>,
    ensures { result.reader ≡ reader }
{
    Custom {
        reader,
        of: PhantomData,
    }
}
