//! The types of a parser beside its input and its output.
use crate::error::{EmptyErr, Error};
use crate::input::Tokens;
use crate::inspector::Inspector;
use crate::rich::Rich;
use crate::same::SameClone;
use crate::simple::Simple;
use crate::spanned_tokens::SpannedTokens;
pub use crate::{EmptyText, RichBytes, RichText, RichTokens, SimpleText};
use std::marker::PhantomData;

/// The error, the state and the context of parsers over the inputs `I`.
pub trait ParserExtra<I: Tokens> {
    type Error: Error<I>;

    type State: Inspector<I>;

    type Context;
}

/// An extra of all three types.
pub struct Full<E, S, C>(PhantomData<(E, S, C)>);

impl<I: Tokens, E: Error<I>, S: Inspector<I>, C> ParserExtra<I> for Full<E, S, C> {
    type Error = E;

    type State = S;

    type Context = C;
}

/// No state, no context, and errors that say nothing.
pub type Default = Full<EmptyErr, (), ()>;

/// An error type alone.
pub type Err<E> = Full<E, (), ()>;

/// A state type alone.
pub type State<S> = Full<EmptyErr, S, ()>;

/// A context type alone.
pub type Context<C> = Full<EmptyErr, (), C>;

impl<'src> ParserExtra<&'src str> for RichText {
    type Error = Rich<char>;

    type State = ();

    type Context = ();
}

impl<'src> ParserExtra<&'src str> for SimpleText {
    type Error = Simple<char>;

    type State = ();

    type Context = ();
}

impl<'src> ParserExtra<&'src str> for EmptyText {
    type Error = EmptyErr;

    type State = ();

    type Context = ();
}

impl<'src> ParserExtra<&'src [u8]> for RichBytes {
    type Error = Rich<u8>;

    type State = ();

    type Context = ();
}

impl<'src, T: SameClone + Drop> ParserExtra<SpannedTokens<'src, T>> for RichTokens<T> {
    type Error = Rich<T>;

    type State = ();

    type Context = ();
}
