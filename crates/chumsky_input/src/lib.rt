//! What a run of a parser stands on: inputs, errors, states, and what is lent to a parser.
#![tactic(auto)]

pub mod aside;
mod display;
pub mod emitter;
pub mod error;
pub mod extra;
pub mod input;
pub mod input_ref;
pub mod inspector;
mod many;
pub mod map_extra;
pub mod mapped_input;
mod numbers;
pub mod offset_text;
pub mod rich;
pub mod same;
pub mod simple;
pub mod slice;
pub mod span;
pub mod spanned_tokens;
pub mod stop;
pub mod util;

use std::marker::PhantomData;

/// `Err<Rich<char>>` over a text, as a type of its own.
///
/// It says what `Err<Rich<char>>` says over `&str`. The check of a function that runs a parser takes less time with it,
/// since a type without parameters is looked up at no cost; and so with each below.
pub struct RichText;

/// `Err<Simple<char>>` over a text, as a type of its own.
pub struct SimpleText;

/// `Err<EmptyErr>` over a text, as a type of its own.
pub struct EmptyText;

/// `Err<Rich<u8>>` over a slice of bytes, as a type of its own.
pub struct RichBytes;

/// `Err<Rich<T>>` over tokens with spans, as a type of its own.
pub struct RichTokens<T>(PhantomData<T>);
