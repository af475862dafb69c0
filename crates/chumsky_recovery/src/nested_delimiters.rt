//! A text between two delimiters, in which other delimiters stand in pairs.
ghost use Rattle.std.specs.Prelude.{◌≡◌, ◌<◌, ◌∷◌, ◌++◌, [], Bool, Some, None, map, option_map, IfOk};
ghost use Rattle.chumsky_input.specs.Held.{held};
ghost use Rattle.chumsky_input.specs.Maybe.{maybe_value};
ghost use Rattle.chumsky_input.specs.OneCall.{FailsExpecting};
ghost use Rattle.chumsky_input.specs.Run.{Runs, with_value, without_value};
ghost use Rattle.chumsky_input.specs.Wanted as wanted;
ghost use Rattle.chumsky_recovery.specs.Nested.{has_token, role_among, role_found, TakesFitting, TakesNested};

use chumsky_combinator::ignore_then::IgnoreThen;
use chumsky_combinator::map::Map;
use chumsky_context::to_span::ToSpan;
use chumsky_input::extra::ParserExtra;
use chumsky_input::input::{Input, Tokens};
use chumsky_input::input_ref::InputRef;
use chumsky_input::stop::{Fault, PResult};
use chumsky_input::util::MaybeRef;
use chumsky_parser::container::Seq;
use chumsky_parser::members::Members;
use chumsky_parser::parser::{IsParser, Parser};
use chumsky_primitive::just::Just;
use std::alloc::AllocError;
use std::marker::PhantomData;

/// Takes tokens up to and with the one that closes a delimiter; delimiters between are taken in pairs. See
/// `nested_delimiters`.
#[derive(Drop)]
pub struct Closes<T, const N: usize, I, E> {
    pub start: T,
    pub end: T,
    pub others: [(T, T); N],
    pub of: PhantomData<(I, E)>,
}

impl<T: Clone, const N: usize, I, E> Clone for Closes<T, N, I, E> {
    ghost is_clone = { λ x y. T.is_clone x.start y.start × T.is_clone x.end y.end × ⟦<[(T, T); N] as Clone>⟧.is_clone x.others y.others };

    ghost is_infallible = { λ x. T.is_infallible x.start × T.is_infallible x.end × ⟦<[(T, T); N] as Clone>⟧.is_infallible x.others };

    fn clone(&self) -> Result<Closes<T, N, I, E>, AllocError> {
        Ok(Closes {
            start: self.start.clone()?,
            end: self.end.clone()?,
            others: self.others.clone()?,
            of: PhantomData,
        })
    }
}

/// What is between two delimiters, made an output of by its span.
pub type NestedDelimiters<T, const N: usize, I, S, F, O, E> = Map<
    ToSpan<IgnoreThen<Just<T, I, E>, Closes<T, N, I, E>, T>, ()>,
    S,
    F,
    O,
>;

/// Takes `start` and all tokens up to the `end` that closes it, where `start` and `end`, and each of the pairs `others`,
/// nest; other tokens are passed over. The output is what `fallback` makes of the span: `nested_delimiters('[', ']',
/// [('(', ')')], |span: SimpleSpan| span.end)` gives 5 of `[(x)]`, and fails on `[(]`, at 2..3, where a `)` was expected.
/// `via_parser` recovers by it. What is open is kept in a vector, so the run may be refused for memory.
#[inline]
pub fn nested_delimiters<T: Copy, const N: usize, I: Tokens, F, O, E>(
    start: T,
    end: T,
    others: [(T, T); N],
    fallback: F,
) -> NestedDelimiters<T, N, I, I::Span, F, O, E>
    ensures opening { result.parser.parser.first.seq ≡ start }
    ensures start { result.parser.parser.second.start ≡ start }
    ensures end { result.parser.parser.second.end ≡ end }
    ensures others { result.parser.parser.second.others ≡ others }
    ensures mapper { result.mapper ≡ fallback }
{
    let opening = Just {
        seq: start,
        of: PhantomData,
    };
    let closing = Closes {
        start,
        end,
        others,
        of: PhantomData,
    };
    let between = IgnoreThen {
        first: opening,
        second: closing,
        of: PhantomData,
    };
    Map {
        parser: ToSpan {
            parser: between,
            of: PhantomData,
        },
        mapper: fallback,
        of: PhantomData,
    }
}

/// What a token is to the delimiters that are open.
#[derive(Clone, Copy, Drop)]
pub enum Role<T> {
    /// It closes the innermost one.
    Closes,
    /// It opens one, which this delimiter closes.
    Opens(T),
    /// It is none.
    Other,
}

impl<T, const N: usize, I, E> IsParser<I, (), E> for Closes<T, N, I, E> {}

impl<'src, T, const N: usize, I: Input<'src>, E: ParserExtra<I>> Parser<'src, I, (), E>
    for Closes<T, N, I, E>
where
    T: Seq<I::Token> + Copy,
    I::Token: PartialEq,
{
    ghost use Rattle.chumsky_parser.specs.Language.{of_unsaid};
    ghost use Rattle.std.specs.Prelude.{⊤, ◌∷◌};
    ghost use Rattle.chumsky_parser.specs.FailureLaws.{SameUnit};
    ghost use Rattle.chumsky_parser.specs.Ignoring.{Gives, IgnoringFirst};
    ghost use Rattle.chumsky_parser.specs.IgnoringLaws.{gives-ends, gives-agrees, ignoring_first-ends, ignoring_first-agrees};
    ghost use Rattle.chumsky_recovery.specs.Nested.{has_token, TakesNested};
    ghost use Rattle.chumsky_recovery.specs.NestedLaws.{nested-ends, nested-agrees};

    ghost ready = { λ _. ⊤ };

    ghost meaning = { λ p errors states. IgnoringFirst (TakesNested I.Input errors states (has_token I.Token.eq T.members) T.members ((p.start, p.end) ∷ p.others) p.end) (Gives tt) };

    ghost steady = { λ _. ⊤ };

    ghost same = { λ _. SameUnit };

    ghost ends_after_start = { λ p. ignoring_first-ends _ _ (nested-ends _ _ _ _ _ _ p.end) (gives-ends tt) };

    ghost agrees = { λ p _. ignoring_first-agrees _ _ SameUnit SameUnit (nested-agrees _ _ _ _ _ _ p.end) (gives-agrees tt SameUnit tt) };

    ghost accepts = { λ _. of_unsaid };

    #[inline]
    fn go_emit(&self, inp: &mut InputRef<'src, '_, I, E>) -> PResult<()> {
        take_nested(self, inp)
    }

    #[inline]
    fn go_check(&self, inp: &mut InputRef<'src, '_, I, E>) -> PResult<()> {
        take_nested(self, inp)
    }
}

/// Takes tokens until nothing is open any more.
fn take_nested<'src, T, const N: usize, I: Input<'src>, E: ParserExtra<I>>(
    pairs: &Closes<T, N, I, E>,
    inp: &mut InputRef<'src, '_, I, E>,
) -> PResult<()>
where
    T: Seq<I::Token> + Copy,
    I::Token: PartialEq,
    ensures ran { (w : Bool) → Runs I.Input E.Error.Error E.State.Inspector
        (TakesNested I.Input E.Error.Error E.State.Inspector (has_token I.Token.eq T.members) T.members
        ((pairs.now.start, pairs.now.end) ∷ pairs.now.others) pairs.now.end) w inp.old inp.new (without_value result) }
    ensures lent { inp.new.state.ghost_name ≡ inp.old.state.ghost_name }
{
    let mut open: Vec<T> = Vec::new(inp.alloc());
    let mut innermost = pairs.end;
    loop {
        let role = take_fitting(pairs, &innermost, inp)?;
        match role {
            Role::Opens(closing) => {
                put(innermost, &mut open)?;
                innermost = closing;
            }
            Role::Closes => match open.pop() {
                Some(outer) => innermost = outer,
                None => return Ok(()),
            },
            Role::Other => {}
        }
    }
}

/// Puts a delimiter last.
fn put<T: Drop>(delimiter: T, delimiters: &mut Vec<T>) -> Result<(), AllocError>
    ensures { IfOk result (λ _. delimiters.new.items ≡ delimiters.old.items ++ delimiter ∷ []) }
{
    delimiters.push(delimiter)?;
    Ok(())
}

/// Takes the next token, if it fits, and says what it is; else goes back from it, and fails where the delimiter was
/// expected that closes the innermost one.
fn take_fitting<'src, T, const N: usize, I: Input<'src>, E: ParserExtra<I>>(
    pairs: &Closes<T, N, I, E>,
    innermost: &T,
    inp: &mut InputRef<'src, '_, I, E>,
) -> PResult<Role<T>>
where
    T: Seq<I::Token> + Copy,
    I::Token: PartialEq,
    ensures ran { (w : Bool) → Runs I.Input E.Error.Error E.State.Inspector
        (TakesFitting I.Input E.Error.Error E.State.Inspector (has_token I.Token.eq T.members) T.members
        ((pairs.now.start, pairs.now.end) ∷ pairs.now.others) innermost.now) w inp.old inp.new (with_value result) }
    ensures onward { IfOk result (λ _.
        (held I.Input E.Error.Error E.State.Inspector inp.old).place <
        (held I.Input E.Error.Error E.State.Inspector inp.new).place) }
    ensures lent { inp.new.state.ghost_name ≡ inp.old.state.ghost_name }
{
    let before = inp.save()?;
    let found = inp.next_maybe();
    let role = role_in(pairs, innermost, &found);
    match role {
        Some(fits) => Ok(fits),
        None => {
            let past = inp.cursor();
            inp.rewind(&before)?;
            Err(expect_closing(innermost, &before.cursor, &past, found, inp))
        }
    }
}

/// Fails where a delimiter was expected.
#[inline]
fn expect_closing<'src, S: Seq<I::Token>, I: Input<'src>, E: ParserExtra<I>>(
    closing: &S,
    from: &I::Cursor,
    past: &I::Cursor,
    found: Option<MaybeRef<'src, I::Token>>,
    inp: &mut InputRef<'src, '_, I, E>,
) -> Fault
where
    I::Token: PartialEq,
    requires { I.cursor_tokens past.now ≡ I.cursor_tokens from.now }
    ensures fails { FailsExpecting I.Input E.Error.Error E.State.Inspector (map wanted.Token
        (S.members closing.now)) found.entry from.now past.now inp.old inp.new result }
    ensures lent { inp.new.state.ghost_name ≡ inp.old.state.ghost_name }
{
    inp.expected_each(from, past, Members::of(closing), found)
}

/// What was found is to the delimiters; none where it does not fit.
fn role_in<'a, T: Seq<X> + Copy, X: PartialEq, const N: usize, I, E>(
    pairs: &Closes<T, N, I, E>,
    innermost: &T,
    found: &Option<MaybeRef<'a, X>>,
) -> Option<Role<T>>
    ensures { result ≡ role_found (has_token X.eq T.members)
        ((pairs.now.start, pairs.now.end) ∷ pairs.now.others) innermost.now (option_map maybe_value found.now) }
{
    match found {
        None => None,
        Some(token) => {
            if innermost.contains(token.get()) {
                return Some(Role::Closes);
            }
            if pairs.start.contains(token.get()) {
                return Some(Role::Opens(pairs.end));
            }
            if pairs.end.contains(token.get()) {
                return None;
            }
            role_in_others(&pairs.others, token.get())
        }
    }
}

/// What a token is to pairs of which none is the innermost.
fn role_in_others<T: Seq<X> + Copy, X: PartialEq>(others: &[(T, T)], token: &X) -> Option<Role<T>>
    ensures { result ≡ role_among (has_token X.eq T.members) others.now token.now }
{
    let mut rest = others;
    while let [pair, later @ ..] = rest {
        if pair.0.contains(token) {
            return Some(Role::Opens(pair.1));
        }
        if pair.1.contains(token) {
            return None;
        }
        rest = later;
    }
    Some(Role::Other)
}

/// What `nested_delimiters` takes after its first token is always ready and steady.
pub fn closes_is_steady<'src, T, const N: usize, I: Input<'src>, E: ParserExtra<I>>(
    closes: &Closes<T, N, I, E>,
)
where
    T: Seq<I::Token> + Copy,
    I::Token: PartialEq,
    ensures ready { ⟦<Closes<T, N, I, E> as Parser<'src, I, (), E>>⟧.ready closes.now }
    ensures steady { ⟦<Closes<T, N, I, E> as Parser<'src, I, (), E>>⟧.steady closes.now }
{}
