//! What holds of calls of functions and of parts that say which texts they take, each the contract of a function that does nothing.
ghost use Rattle.chumsky_parser.specs.ByParts.{NeverOut};
ghost use Rattle.chumsky_descent.specs.Calls.{MayCall, same_of, IsSteady};
ghost use Rattle.chumsky_descent.specs.Kept.{KeepsSparing};

use crate::exact_part::{ExactPart, OfExactPart};
use crate::recursive::{Called, Recursion};
use chumsky_input::extra::ParserExtra;
use chumsky_input::input::Input;
use chumsky_input::input_ref::InputRef;
use chumsky_input::stop::PResult;
use chumsky_parser::parser::Parser;

/// `recursive_as::<R, ..>(f, depth)` is ready where the function may be called, and does what is said of it. It is steady where its
/// marker says `Steady`, `Together` or `exactly`, and of what it is made of no more is asked.
pub fn recursive_is_steady<'src, F, R, I, O, E>(called: &Called<F, R, I, O, E>)
where
    I: Input<'src>,
    I::Token: 'src,
    O: Drop,
    E: ParserExtra<I>,
    R: Recursion<'src, I, O, E>,
    F: Fn(&mut InputRef<'src, '_, I, E>, bool, usize) -> PResult<Option<O>>,
    ensures ready { MayCall I.Input E.Error.Error E.State.Inspector F.Fn called.now.function (R.says E.Error.Error E.State.Inspector) called.now.depth →
        ⟦<Called<F, R, I, O, E> as Parser<'src, I, O, E>>⟧.ready called.now }
    ensures steady { IsSteady (R.says E.Error.Error E.State.Inspector) → ⟦<Called<F, R, I, O, E> as Parser<'src, I, O, E>>⟧.steady called.now }
    ensures same { (x y : O) → ⟦<Called<F, R, I, O, E> as Parser<'src, I, O, E>>⟧.same called.now x y → same_of (R.says E.Error.Error E.State.Inspector) x y }
{}

/// It is never refused for memory where its body isn't, as long as the calls in it aren't.
pub fn recursive_is_never_out_of_memory<'src, F, R, I, O, E>(called: &Called<F, R, I, O, E>)
where
    I: Input<'src>,
    I::Token: 'src,
    O: Drop,
    E: ParserExtra<I>,
    R: Recursion<'src, I, O, E>,
    F: Fn(&mut InputRef<'src, '_, I, E>, bool, usize) -> PResult<Option<O>>,
    ensures { KeepsSparing (R.says E.Error.Error E.State.Inspector) → NeverOut E.Error.Error E.State.Inspector
        (⟦<Called<F, R, I, O, E> as Parser<'src, I, O, E>>⟧.meaning called.now) }
{}

/// `exact_part(p)` is ready and steady, whatever stands in it.
pub fn exact_part_is_steady<
    'src,
    I: Input<'src>,
    O: Drop,
    E: ParserExtra<I>,
    P: ExactPart<'src, I, O, E>,
>(part: &OfExactPart<P>)
    ensures ready { ⟦<OfExactPart<P> as Parser<'src, I, O, E>>⟧.ready part.now }
    ensures steady { ⟦<OfExactPart<P> as Parser<'src, I, O, E>>⟧.steady part.now }
{}
