//! Small helpers that parsers and errors share.
ghost use Rattle.std.specs.Prelude.{◌≡◌, IfOk, IsOk, IsTrue, option_to_list, option_map, option_copied};
ghost use Rattle.std.specs.Cmp.{on_per};
ghost use Rattle.chumsky_input.specs.Maybe.{maybe_value, OwnsFreely};
ghost use Rattle.chumsky_input.specs.Wanted.{Wanted, wanted, wanted_map, unlabelled, label_text, maybe_wanted, owns_token, WantsFreely, plain_wanted, sole_wanted};

use crate::same::SameClone;
use std::alloc::AllocError;

/// A token, or a reference to one that lies in the input.
#[derive(Clone, Debug, Drop)]
pub enum MaybeRef<'a, T> {
    Ref(&'a T),
    Val(T),
}

impl<'a, T> MaybeRef<'a, T> {
    /// The token, wherever it lies.
    #[inline]
    pub fn get(&self) -> &T
        ensures { result.now ≡ maybe_value self.now }
    {
        match self {
            MaybeRef::Ref(token) => token,
            MaybeRef::Val(token) => token,
        }
    }
}

/// Two are equal where their tokens are, wherever these lie.
impl<'a, T: PartialEq> PartialEq for MaybeRef<'a, T> {
    ghost eq = { λ x y. T.eq (maybe_value x) (maybe_value y) };

    ghost laws = { on_per maybe_value T.laws };

    #[inline]
    fn eq(&self, other: &Self) -> bool {
        *self.get() == *other.get()
    }
}

/// A token of one's own, as it counts: one that is lent is cloned.
#[inline]
pub(crate) fn token_of<'a, T: SameClone>(token: MaybeRef<'a, T>) -> Result<T, AllocError>
    ensures token { IfOk result (λ t. T.seen t ≡ T.seen (maybe_value token.entry)) }
    ensures memory { OwnsFreely T.is_infallible token.entry → IsOk result }
{
    match token {
        MaybeRef::Ref(lent) => lent.clone(),
        MaybeRef::Val(owned) => Ok(owned),
    }
}

/// A token that is lent, as what was found.
#[inline(always)]
pub(crate) fn lent<'a, T>(token: Option<&'a T>) -> Option<MaybeRef<'a, T>>
    ensures { option_map maybe_value result ≡ option_copied token.entry }
{
    match token {
        Some(token) => Some(MaybeRef::Ref(token)),
        None => None,
    }
}

/// What was found, wherever its token lies.
#[inline(always)]
pub(crate) fn found_token<'f, 'a, T>(found: &'f Option<MaybeRef<'a, T>>) -> Option<&'f T>
    ensures { option_copied result ≡ option_map maybe_value found.now }
{
    match found {
        Some(token) => Some(token.get()),
        None => None,
    }
}

/// What a parser expected at a place.
#[derive(Clone, Debug, PartialEq, Drop)]
pub enum DefaultExpected<'a, T> {
    /// That token.
    Token(MaybeRef<'a, T>),
    /// Any token.
    Any,
    /// Some token that it didn't name.
    SomethingElse,
    /// No token would have done.
    NothingElse,
    EndOfInput,
}

impl<'a, T: SameClone> DefaultExpected<'a, T> {
    /// The same expectation with a token of its own, so that it outlives the input. A token that was lent is cloned.
    #[inline]
    pub fn into_owned<'b>(self) -> Result<DefaultExpected<'b, T>, AllocError>
        ensures expectation { IfOk result (λ e. wanted_map T.seen (wanted e) ≡ wanted_map T.seen (wanted self.entry)) }
        ensures owned { IfOk result (λ e. IsTrue (owns_token e)) }
        ensures memory { WantsFreely T.is_infallible self.entry → IsOk result }
    {
        match self {
            DefaultExpected::Token(token) => {
                Ok(DefaultExpected::Token(MaybeRef::Val(token_of(token)?)))
            }
            DefaultExpected::Any => Ok(DefaultExpected::Any),
            DefaultExpected::SomethingElse => Ok(DefaultExpected::SomethingElse),
            DefaultExpected::NothingElse => Ok(DefaultExpected::NothingElse),
            DefaultExpected::EndOfInput => Ok(DefaultExpected::EndOfInput),
        }
    }
}

/// What counts as one expectation: a `DefaultExpected` of any lifetime, or a label.
pub trait Expectation<T> {
    ghost expectation: { Self → Wanted T };

    /// The expectation, for errors that know no labels: what a label names is something else.
    fn as_expected(&self) -> DefaultExpected<'_, T>
        ensures { wanted result ≡ unlabelled (expectation self.now) };

    /// The text of a label. None of any other expectation.
    fn label(&self) -> Option<&str>
        ensures { option_copied result ≡ label_text (expectation self.now) };
}

impl<'a, T> Expectation<T> for DefaultExpected<'a, T> {
    ghost expectation = { wanted };

    #[inline]
    fn as_expected(&self) -> DefaultExpected<'_, T> {
        match self {
            DefaultExpected::Token(token) => DefaultExpected::Token(MaybeRef::Ref(token.get())),
            DefaultExpected::Any => DefaultExpected::Any,
            DefaultExpected::SomethingElse => DefaultExpected::SomethingElse,
            DefaultExpected::NothingElse => DefaultExpected::NothingElse,
            DefaultExpected::EndOfInput => DefaultExpected::EndOfInput,
        }
    }

    #[inline]
    fn label(&self) -> Option<&str> {
        None
    }
}

/// What a parser expected, or the label that names it: `MaybeLabel::Label("a month")`.
#[derive(Clone, Debug, PartialEq, Drop)]
pub enum MaybeLabel<'a, T> {
    Expected(DefaultExpected<'a, T>),
    Label(&'a str),
}

impl<'a, T> Expectation<T> for MaybeLabel<'a, T> {
    ghost expectation = { maybe_wanted };

    #[inline]
    fn as_expected(&self) -> DefaultExpected<'_, T> {
        match self {
            MaybeLabel::Expected(expected) => expected.as_expected(),
            MaybeLabel::Label(_) => DefaultExpected::SomethingElse,
        }
    }

    #[inline]
    fn label(&self) -> Option<&str> {
        match self {
            MaybeLabel::Expected(_) => None,
            MaybeLabel::Label(text) => Some(*text),
        }
    }
}

/// What was expected, where it is no token: `Plain::Label("a month")` is what that label names.
#[derive(Clone, Copy, Debug)]
pub enum Plain<'l> {
    Nothing,
    Any,
    SomethingElse,
    NothingElse,
    EndOfInput,
    Label(&'l str),
}

impl<'l> Plain<'l> {
    #[inline]
    pub fn as_expected<T>(self) -> Option<MaybeLabel<'l, T>>
        ensures { option_to_list (option_map maybe_wanted result) ≡ plain_wanted self.entry }
    {
        match self {
            Plain::Nothing => None,
            Plain::Any => Some(MaybeLabel::Expected(DefaultExpected::Any)),
            Plain::SomethingElse => Some(MaybeLabel::Expected(DefaultExpected::SomethingElse)),
            Plain::NothingElse => Some(MaybeLabel::Expected(DefaultExpected::NothingElse)),
            Plain::EndOfInput => Some(MaybeLabel::Expected(DefaultExpected::EndOfInput)),
            Plain::Label(text) => Some(MaybeLabel::Label(text)),
        }
    }
}

/// What alone was expected, or nothing: a token, where it lies, or what is none.
#[derive_where(Clone, Copy)]
pub enum Sole<'e, T> {
    Token(&'e T),
    Other(Plain<'e>),
}

impl<'e, T> Sole<'e, T> {
    #[inline(always)]
    pub fn as_expected(self) -> Option<MaybeLabel<'e, T>>
        ensures { option_to_list (option_map maybe_wanted result) ≡ sole_wanted self.entry }
    {
        match self {
            Sole::Token(token) => Some(MaybeLabel::Expected(DefaultExpected::Token(MaybeRef::Ref(
                token,
            )))),
            Sole::Other(what) => what.as_expected(),
        }
    }
}
