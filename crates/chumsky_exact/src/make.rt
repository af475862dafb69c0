//! What makes a length with what it stands before, a head with what stands under it, so many items, and a parser over the whole of an
//! input that another one gives.
ghost use Rattle.std.specs.Prelude.{◌≡◌};

use crate::nested::{Counted, Nested};
use crate::prefixed::{Headed, Prefixed};
use crate::so_many::SoMany;
use chumsky_context::ignore_with_ctx::IgnoreWithCtx;
use chumsky_context::nested_in::NestedIn;
use chumsky_context::then_with_ctx::ThenWithCtx;
use chumsky_input::extra::{Full, ParserExtra};
use chumsky_input::input::{Input, Tokens};
use chumsky_input::inspector::Inspector;
use chumsky_parser::parser::IsParser;
use std::marker::PhantomData;

/// Runs `length`, and then `then` with its output as the context, and gives the output of `then`, as
/// `length.ignore_with_ctx(then)` does. It is known which texts it accepts: `length` is a parser whose word decides its output, as a
/// `pick_by`, and `then` one of which that is known under each context, as `so_many(..)`. A text of bytes with its length in a byte
/// before it:
///
/// ```text
/// let length = any().pick_by(ToLength);
/// let text = prefixed(length, so_many(any()));
/// ```
///
/// on `3 a b c` gives `a b c`, and on `3 a b` any byte is expected at 3..3.
pub fn prefixed<L, T, U, O, I, E>(
    length: L,
    then: T,
) -> Prefixed<L, T, O, I, Full<E::Error, E::State, O>>
where
    I: Tokens,
    E: ParserExtra<I>,
    L: IsParser<I, O, E>,
    T: IsParser<I, U, Full<E::Error, E::State, O>>,
    ensures length { result.parts.parser ≡ length }
    ensures then { result.parts.then ≡ then }
{
    Prefixed {
        parts: IgnoreWithCtx {
            parser: length,
            then,
            of: PhantomData,
        },
    }
}

/// Runs both as `prefixed` does, and gives both outputs, as `head.then_with_ctx(then)` does: where the head of a packet says how many
/// records follow, `headed(head, so_many(record))` gives the head, and so many records.
pub fn headed<H, T, U, O, I, E>(head: H, then: T) -> Headed<H, T, O, I, Full<E::Error, E::State, O>>
where
    I: Tokens,
    E: ParserExtra<I>,
    H: IsParser<I, O, E>,
    T: IsParser<I, U, Full<E::Error, E::State, O>>,
    ensures head { result.parts.parser ≡ head }
    ensures then { result.parts.then ≡ then }
{
    Headed {
        parts: ThenWithCtx {
            parser: head,
            then,
            of: PhantomData,
        },
    }
}

/// Runs `item` as often as the context asks for, no fewer and no more, and collects the outputs: under the context `3usize`,
/// `so_many(any())` takes `abc` of `abcd`. It fails where an item does, with that failure. It does what
/// `item.repeated().configure(|c, context| c.exactly(..)).collect()` does; and where the item takes a token wherever it succeeds, it
/// is known which texts it accepts under each context.
pub fn so_many<P, O, C>(item: P) -> SoMany<P, O, C>
    ensures { result.item ≡ item }
{
    SoMany {
        item,
        of: PhantomData,
    }
}

/// Runs `outer` for its output, which is an input, and then `inner` over the whole of that input, and gives the output of `inner`, as
/// `inner.nested_in(outer)` does. It is known which texts it accepts: `outer` is a parser whose word decides its output, as a
/// `pick_by`, and `inner` one of which that is known. A number in quotes, where a text in quotes is one token:
///
/// ```text
/// let number = text::int(10).pick_by(text::decimal::<u32>());
/// let quoted = nested(number, any().pick_by(ToQuoted));
/// ```
///
/// on the token `"42"` gives 42, and on `"4x"` the error is at 1..2 of that text.
pub fn nested<'src, A, B, U, J, I, E>(
    inner: A,
    outer: B,
) -> Nested<A, B, J, J::Cursor, J::Token, J::Span, <E::State as Inspector<J>>::Mark>
where
    I: Tokens,
    J: Input<'src>,
    E: ParserExtra<I>,
    E::State: Inspector<J>,
    A: IsParser<J, U, Full<E::Error, E::State, E::Context>>,
    B: IsParser<I, J, E>,
    ensures inner { result.parts.parser ≡ inner }
    ensures outer { result.parts.outer.parser ≡ outer }
{
    Nested {
        parts: NestedIn {
            parser: inner,
            outer: Counted {
                parser: outer,
                of: PhantomData,
            },
            of: PhantomData,
        },
    }
}
