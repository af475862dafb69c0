//! When a length with what it stands before, a head with what stands under it, so many items, a parser that gives an input whose tokens
//! can be counted, and one over the whole of such an input are ready, and when they are steady, each the contract of a function that
//! does nothing: where their parts are. And what is known of two outputs that count as the same.
ghost use Rattle.chumsky_context.specs.Under.{SameAreEqual};
ghost use Rattle.chumsky_context.specs.Within.{SameOverBoth};
ghost use Rattle.chumsky_items.specs.Consumers.{SameContents};

use crate::context::{DecidedByWord, ParserUnder};
use crate::nested::{Counted, Nested};
use crate::prefixed::{Headed, Prefixed};
use crate::so_many::{HowMany, SoMany};
use chumsky_input::error::Error;
use chumsky_input::extra::{Full, ParserExtra};
use chumsky_input::input::Input;
use chumsky_input::inspector::Inspector;
use chumsky_items::container::Container;
use chumsky_parser::parser::Parser;

/// `prefixed` is steady where both parts are, and outputs of the length that are the same are equal. Its outputs that are the same
/// are so to the part that the length stands before.
pub fn prefixed_is_steady<'src, I, O, U, E, X, L, T>(prefixed: &Prefixed<L, T, O, I, X>)
where
    I: Input<'src>,
    I::Token: 'src,
    O: Drop,
    E: ParserExtra<I>,
    L: DecidedByWord<'src, I, O, E>,
    X: ParserExtra<I, Error = E::Error, State = E::State, Context = O>,
    T: ParserUnder<'src, I, U, X>,
    ensures ready { let p = prefixed.now.parts in L.ready p.parser → T.ready p.then → ⟦<Prefixed<L, T, O, I, X> as Parser<'src, I, U, E>>⟧.ready prefixed.now }
    ensures steady { let p = prefixed.now.parts in L.steady p.parser → T.steady p.then → SameAreEqual (L.same p.parser) → ⟦<Prefixed<L, T, O, I, X> as Parser<'src, I, U, E>>⟧.steady prefixed.now }
    ensures same { (x y : U) → ⟦<Prefixed<L, T, O, I, X> as Parser<'src, I, U, E>>⟧.same prefixed.now x y → T.same prefixed.now.parts.then x y }
{}

/// `headed` is steady where both parts are, and outputs of the head that are the same are equal. Its outputs that are the same are
/// so, each, to its part.
pub fn headed_is_steady<'src, I, O, U, E, X, H, T>(headed: &Headed<H, T, O, I, X>)
where
    I: Input<'src>,
    I::Token: 'src,
    O: Drop,
    E: ParserExtra<I>,
    H: DecidedByWord<'src, I, O, E>,
    X: ParserExtra<I, Error = E::Error, State = E::State, Context = O>,
    T: ParserUnder<'src, I, U, X>,
    ensures ready { let p = headed.now.parts in H.ready p.parser → T.ready p.then → ⟦<Headed<H, T, O, I, X> as Parser<'src, I, (O, U), E>>⟧.ready headed.now }
    ensures steady { let p = headed.now.parts in H.steady p.parser → T.steady p.then → SameAreEqual (H.same p.parser) → ⟦<Headed<H, T, O, I, X> as Parser<'src, I, (O, U), E>>⟧.steady headed.now }
    ensures same { let p = headed.now.parts in (x y : O × U) → ⟦<Headed<H, T, O, I, X> as Parser<'src, I, (O, U), E>>⟧.same headed.now x y → H.same p.parser x.0 y.0 × T.same p.then x.1 y.1 }
{}

/// `so_many` is steady where its item is. Two outputs are the same where they hold as many items, which are so to the item.
pub fn so_many_is_steady<'src, I, O, E, P, C>(so_many: &SoMany<P, O, C>)
where
    I: Input<'src>,
    O: Drop,
    E: ParserExtra<I>,
    E::Context: HowMany,
    P: Parser<'src, I, O, E>,
    C: Container<O> + Drop,
    ensures ready { P.ready so_many.now.item → ⟦<SoMany<P, O, C> as Parser<'src, I, C, E>>⟧.ready so_many.now }
    ensures steady { P.steady so_many.now.item → ⟦<SoMany<P, O, C> as Parser<'src, I, C, E>>⟧.steady so_many.now }
    ensures same { (x y : C) → ⟦<SoMany<P, O, C> as Parser<'src, I, C, E>>⟧.same so_many.now x y → SameContents (P.same so_many.now.item) C.holds x y }
{}

/// A parser that gives an input whose tokens can be counted is steady where the one in it is. Its outputs that are the same are so to
/// that one.
pub fn counted_is_steady<'src, I, J, E, B, C, T, S>(counted: &Counted<B, C, T, S>)
where
    I: Input<'src>,
    J: Input<'src, Cursor = C, Token = T, Span = S> + Copy,
    C: Copy,
    T: Drop,
    S: Drop,
    E: ParserExtra<I>,
    B: Parser<'src, I, J, E>,
    ensures ready { B.ready counted.now.parser → ⟦<Counted<B, C, T, S> as Parser<'src, I, J, E>>⟧.ready counted.now }
    ensures steady { B.steady counted.now.parser → ⟦<Counted<B, C, T, S> as Parser<'src, I, J, E>>⟧.steady counted.now }
    ensures same { (x y : J) → ⟦<Counted<B, C, T, S> as Parser<'src, I, J, E>>⟧.same counted.now x y → B.same counted.now.parser x y }
{}

/// `nested` is steady where both parts are, errors and states count as the same over both inputs alike, and outputs of the outer part
/// that are the same have the same tokens. Its outputs that are the same are so to the inner part.
pub fn nested_is_steady<'src, I, J, U, E, A, B, C, T, S, M>(nested: &Nested<A, B, J, C, T, S, M>)
where
    I: Input<'src>,
    I::Token: 'src,
    J: Input<'src, Cursor = C, Token = T, Span = S> + Copy,
    C: Copy,
    T: Drop + 'src,
    S: Drop,
    U: Drop,
    E: ParserExtra<I>,
    E::Error: Error<J>,
    E::State: Inspector<J, Mark = M>,
    M: Drop,
    A: Parser<'src, J, U, Full<E::Error, E::State, E::Context>>,
    B: DecidedByWord<'src, I, J, E>,
    ensures ready { let p = nested.now.parts in A.ready p.parser → B.ready p.outer.parser → ⟦<Nested<A, B, J, C, T, S, M> as Parser<'src, I, U, E>>⟧.ready nested.now }
    ensures steady { let p = nested.now.parts in A.steady p.parser → B.steady p.outer.parser
        → SameOverBoth J.Input ⟦<E::Error as Error<J>>⟧ ⟦<E::State as Inspector<J>>⟧ ⟦<E::Error as Error<I>>⟧ ⟦<E::State as Inspector<I>>⟧ (B.same p.outer.parser)
        → ⟦<Nested<A, B, J, C, T, S, M> as Parser<'src, I, U, E>>⟧.steady nested.now }
    ensures same { (x y : U) → ⟦<Nested<A, B, J, C, T, S, M> as Parser<'src, I, U, E>>⟧.same nested.now x y → A.same nested.now.parts.parser x y }
{}
