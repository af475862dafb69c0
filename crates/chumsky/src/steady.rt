//! Which parsers made of others are ready, and which are steady, each the contract of a function that does nothing, and what
//! is known of two outputs that count as the same.
ghost use Rattle.std.specs.Prelude.{◌≡◌, Result, Ok};
ghost use Rattle.chumsky_combinator.specs.Mapped.{SameMapped};
ghost use Rattle.chumsky_judge.specs.Tried.{TriesAlike, SameTryMapped};

use crate::made::{FromStr, Lazy, TryMapIn};
use chumsky_input::extra::ParserExtra;
use chumsky_input::input::{Input, ValueInput};
use chumsky_parser::parser::Parser;
use std::alloc::{AllocError, Global};
use std::convert::AsStr;
use std::str;

/// `a.lazy()`.
pub fn lazy_is_steady<
    'src,
    I: ValueInput<'src>,
    O: Drop,
    E: ParserExtra<I>,
    A: Parser<'src, I, O, E>,
>(lazy: &Lazy<A, I, E>)
    ensures ready { A.ready lazy.now.first → ⟦<Lazy<A, I, E> as Parser<'src, I, O, E>>⟧.ready lazy.now }
    ensures steady { A.steady lazy.now.first → ⟦<Lazy<A, I, E> as Parser<'src, I, O, E>>⟧.steady lazy.now }
    ensures same { (x y : O) → ⟦<Lazy<A, I, E> as Parser<'src, I, O, E>>⟧.same lazy.now x y → A.same lazy.now.first x y }
{}

/// `a.from_str::<U>()`.
pub fn from_str_is_steady<
    'src,
    I: Input<'src>,
    O: AsStr + Drop,
    U: str::FromStr,
    E: ParserExtra<I>,
    A: Parser<'src, I, O, E>,
>(from_str: &FromStr<A, O, U>)
    ensures ready { A.ready from_str.now.parser → ⟦<FromStr<A, O, U> as Parser<'src, I, Result<U, U::Err>, E>>⟧.ready from_str.now }
    ensures steady { A.steady from_str.now.parser → ⟦<FromStr<A, O, U> as Parser<'src, I, Result<U, U::Err>, E>>⟧.steady from_str.now }
    ensures same { (x y : Result U U.Err) → ⟦<FromStr<A, O, U> as Parser<'src, I, Result<U, U::Err>, E>>⟧.same from_str.now x y → SameMapped (A.same from_str.now.parser) (λ value read. U.from_str_gives (O.text value) read) x y }
{}

/// `a.try_map_in(f)`, where two results that `f` makes of values that are the same, at one span, are both values, or are errors
/// that count as one.
pub fn try_map_in_is_steady<
    'src,
    I: Input<'src>,
    O,
    U: Drop,
    E: ParserExtra<I>,
    A: Parser<'src, I, O, E>,
    F: Fn(O, I::Span, Global) -> Result<Result<U, E::Error>, AllocError>,
>(try_map_in: &TryMapIn<A, O, F, U, I, E>)
    ensures ready { A.ready try_map_in.now.parser.parser.parser → F.IsAlwaysCallable try_map_in.now.parser.mapper.mapper →
        ⟦<TryMapIn<A, O, F, U, I, E> as Parser<'src, I, U, E>>⟧.ready try_map_in.now }
    ensures steady { let p = try_map_in.now.parser.parser.parser in
        let made : O → I.Span → Result U E.Error → Type 0 = λ value span answer. (alloc : _) × F.post try_map_in.now.parser.mapper.mapper value span alloc (Ok answer) in
        A.steady p → TriesAlike (A.same p) E.Error.seen made →
        ⟦<TryMapIn<A, O, F, U, I, E> as Parser<'src, I, U, E>>⟧.steady try_map_in.now }
    ensures same { (x y : U) → ⟦<TryMapIn<A, O, F, U, I, E> as Parser<'src, I, U, E>>⟧.same try_map_in.now x y →
        SameTryMapped (A.same try_map_in.now.parser.parser.parser) E.Error.seen
        (λ value span answer. (alloc : _) × F.post try_map_in.now.parser.mapper.mapper value span alloc (Ok answer)) x y }
{}
