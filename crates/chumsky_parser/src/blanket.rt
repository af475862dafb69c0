//! Parsers by reference and in boxes, which do as the parser within.
ghost use Rattle.std.specs.Prelude.{◌≡◌};
ghost use Rattle.std.specs.Rc.{rc_value};

use crate::moving::Moving;
use crate::parser::{IsParser, Parser};
use chumsky_input::extra::ParserExtra;
use chumsky_input::input::Input;
use chumsky_input::input_ref::InputRef;
use chumsky_input::stop::PResult;
use std::rc::Rc;

impl<I, O, E, P: IsParser<I, O, E>> IsParser<I, O, E> for &P {}

impl<'src, I: Input<'src>, O, E: ParserExtra<I>, P: Parser<'src, I, O, E>> Parser<'src, I, O, E>
    for &P {
    ghost ready = { λ p. P.ready p.now };

    ghost meaning = { λ p. P.meaning p.now };

    ghost steady = { λ p. P.steady p.now };

    ghost same = { λ p. P.same p.now };

    ghost language = { λ p. P.language p.now };

    ghost ends_after_start = { λ p. P.ends_after_start p.now };

    ghost agrees = { λ p. P.agrees p.now };

    ghost accepts = { λ p. P.accepts p.now };

    #[inline]
    fn go_emit(&self, inp: &mut InputRef<'src, '_, I, E>) -> PResult<O> {
        P::go_emit(*self, inp)
    }

    #[inline]
    fn go_check(&self, inp: &mut InputRef<'src, '_, I, E>) -> PResult<()> {
        P::go_check(*self, inp)
    }
}

impl<I, O, E, P: IsParser<I, O, E>> IsParser<I, O, E> for Box<P> {}

impl<'src, I: Input<'src>, O, E: ParserExtra<I>, P: Parser<'src, I, O, E>> Parser<'src, I, O, E>
    for Box<P> {
    ghost ready = { λ p. P.ready p.value };

    ghost meaning = { λ p. P.meaning p.value };

    ghost steady = { λ p. P.steady p.value };

    ghost same = { λ p. P.same p.value };

    ghost language = { λ p. P.language p.value };

    ghost ends_after_start = { λ p. P.ends_after_start p.value };

    ghost agrees = { λ p. P.agrees p.value };

    ghost accepts = { λ p. P.accepts p.value };

    #[inline]
    fn go_emit(&self, inp: &mut InputRef<'src, '_, I, E>) -> PResult<O> {
        (**self).go_emit(inp)
    }

    #[inline]
    fn go_check(&self, inp: &mut InputRef<'src, '_, I, E>) -> PResult<()> {
        (**self).go_check(inp)
    }
}

impl<I, O, E, P: IsParser<I, O, E>> IsParser<I, O, E> for Rc<P> {}

impl<'src, I: Input<'src>, O, E: ParserExtra<I>, P: Parser<'src, I, O, E>> Parser<'src, I, O, E>
    for Rc<P> {
    ghost use Rattle.std.specs.Rc.{rc_value};

    ghost ready = { λ p. P.ready (rc_value p) };

    ghost meaning = { λ p. P.meaning (rc_value p) };

    ghost steady = { λ p. P.steady (rc_value p) };

    ghost same = { λ p. P.same (rc_value p) };

    ghost language = { λ p. P.language (rc_value p) };

    ghost ends_after_start = { λ p. P.ends_after_start (rc_value p) };

    ghost agrees = { λ p. P.agrees (rc_value p) };

    ghost accepts = { λ p. P.accepts (rc_value p) };

    #[inline]
    fn go_emit(&self, inp: &mut InputRef<'src, '_, I, E>) -> PResult<O> {
        self.as_ref().go_emit(inp)
    }

    #[inline]
    fn go_check(&self, inp: &mut InputRef<'src, '_, I, E>) -> PResult<()> {
        self.as_ref().go_check(inp)
    }
}

impl<'src, I: Input<'src>, O, E: ParserExtra<I>, P: Moving<'src, I, O, E>> Moving<'src, I, O, E>
    for &P {
    ghost moves = { λ p. P.moves p.now };

    ghost moved = { λ p. P.moved p.now };

    fn always_moves(&self) -> bool
        ensures { result ≡ P.moves self.now.now }
    {
        P::always_moves(*self)
    }
}

impl<'src, I: Input<'src>, O, E: ParserExtra<I>, P: Moving<'src, I, O, E>> Moving<'src, I, O, E>
    for Box<P> {
    ghost moves = { λ p. P.moves p.value };

    ghost moved = { λ p. P.moved p.value };

    fn always_moves(&self) -> bool
        ensures { result ≡ P.moves self.now.value }
    {
        (**self).always_moves()
    }
}

impl<'src, I: Input<'src>, O, E: ParserExtra<I>, P: Moving<'src, I, O, E>> Moving<'src, I, O, E>
    for Rc<P> {
    ghost use Rattle.std.specs.Rc.{rc_value};

    ghost moves = { λ p. P.moves (rc_value p) };

    ghost moved = { λ p. P.moved (rc_value p) };

    fn always_moves(&self) -> bool
        ensures { result ≡ P.moves (rc_value self.now) }
    {
        self.as_ref().always_moves()
    }
}

/// When it is ready and steady, and which outputs are the same: a parser by reference, in a `Box` and in an `Rc`.
pub fn by_reference_is_steady<
    'src,
    'a,
    I: Input<'src>,
    O,
    E: ParserExtra<I>,
    P: Parser<'src, I, O, E>,
>(reference: &&'a P, boxed: &Box<P>, counted: &Rc<P>)
    ensures ready_by_reference { P.ready reference.now.now → ⟦<&'a P as Parser<'src, I, O, E>>⟧.ready reference.now }
    ensures ready_boxed { P.ready boxed.now.value → ⟦<Box<P> as Parser<'src, I, O, E>>⟧.ready boxed.now }
    ensures ready_counted { P.ready (rc_value counted.now) → ⟦<Rc<P> as Parser<'src, I, O, E>>⟧.ready counted.now }
    ensures reference { P.steady reference.now.now → ⟦<&'a P as Parser<'src, I, O, E>>⟧.steady reference.now }
    ensures boxed { P.steady boxed.now.value → ⟦<Box<P> as Parser<'src, I, O, E>>⟧.steady boxed.now }
    ensures counted { P.steady (rc_value counted.now) → ⟦<Rc<P> as Parser<'src, I, O, E>>⟧.steady counted.now }
    ensures same_by_reference { (x y : O) → ⟦<&'a P as Parser<'src, I, O, E>>⟧.same reference.now x y → P.same reference.now.now x y }
    ensures same_boxed { (x y : O) → ⟦<Box<P> as Parser<'src, I, O, E>>⟧.same boxed.now x y → P.same boxed.now.value x y }
    ensures same_counted { (x y : O) → ⟦<Rc<P> as Parser<'src, I, O, E>>⟧.same counted.now x y → P.same (rc_value counted.now) x y }
{}
