//! Choice among the parsers of a slice.
ghost use Rattle.std.specs.Prelude.{◌≡◌, ◌≢◌, true, false, length, All, IfSome, MatchOption};
ghost use Rattle.std.specs.List.{IsFirstAndRest};
ghost use Rattle.chumsky_input.specs.Run.{with_value, without_value};
ghost use Rattle.chumsky_choice.specs.Next.{RunsAmong, RunsFirst, ExpectsNothing};

use crate::step::{check_next, emit_next};
use chumsky_input::extra::ParserExtra;
use chumsky_input::input::Input;
use chumsky_input::input_ref::InputRef;
use chumsky_input::stop::{Fault, PResult};
use chumsky_input::util::Plain;
use chumsky_parser::parser::Parser;

/// Runs the first of several parsers that doesn't fail; where there is none, fails with nothing expected.
#[inline(always)]
pub fn emit_among<'src, I: Input<'src>, O, E: ParserExtra<I>, P: Parser<'src, I, O, E>>(
    parsers: &[P],
    inp: &mut InputRef<'src, '_, I, E>,
) -> PResult<O>
    requires { All P.ready parsers.now }
    ensures ran { RunsAmong I.Input E.Error.Error E.State.Inspector
        P.meaning parsers.now true inp.old inp.new (with_value result) }
    ensures lent { inp.new.state.ghost_name ≡ inp.old.state.ghost_name }
{
    let Some((first, others)) = first_and_others::<I, O, E, P>(parsers) else {
        return Err(expect_nothing(inp));
    };
    if others.is_empty() {
        return first.go_emit(inp);
    }
    emit_several(first, others, inp)
}

/// The same without outputs.
#[inline(always)]
pub fn check_among<'src, I: Input<'src>, O, E: ParserExtra<I>, P: Parser<'src, I, O, E>>(
    parsers: &[P],
    inp: &mut InputRef<'src, '_, I, E>,
) -> PResult<()>
    requires { All P.ready parsers.now }
    ensures ran { RunsAmong I.Input E.Error.Error E.State.Inspector
        P.meaning parsers.now false inp.old inp.new (without_value result) }
    ensures lent { inp.new.state.ghost_name ≡ inp.old.state.ghost_name }
{
    let Some((first, others)) = first_and_others::<I, O, E, P>(parsers) else {
        return Err(expect_nothing(inp));
    };
    if others.is_empty() {
        return first.go_check(inp);
    }
    check_several(first, others, inp)
}

/// The first of some parsers, and the others.
#[inline]
fn first_and_others<'p, 'src, I: Input<'src>, O, E: ParserExtra<I>, P: Parser<'src, I, O, E>>(
    parsers: &'p [P],
) -> Option<(&'p P, &'p [P])>
    requires { All P.ready parsers.now }
    ensures cases { MatchOption result (length parsers.now ≡ 0) (λ p. IsFirstAndRest parsers.now p.0.now p.1.now) }
    ensures first { IfSome result (λ p. P.ready p.0.now) }
    ensures others { IfSome result (λ p. All P.ready p.1.now) }
{
    parsers.split_first()
}

/// Runs the first of two or more parsers that doesn't fail.
#[inline(always)]
fn emit_several<'src, I: Input<'src>, O, E: ParserExtra<I>, P: Parser<'src, I, O, E>>(
    first: &P,
    others: &[P],
    inp: &mut InputRef<'src, '_, I, E>,
) -> PResult<O>
    requires first { P.ready first.now }
    requires others { All P.ready others.now }
    requires several { length others.now ≢ 0 }
    ensures ran { RunsFirst I.Input E.Error.Error E.State.Inspector
        P.meaning first.now others.now true inp.old inp.new (with_value result) }
    ensures lent { inp.new.state.ghost_name ≡ inp.old.state.ghost_name }
{
    let before = inp.save()?;
    match first.go_emit(inp) {
        Ok(value) => return Ok(value),
        Err(Fault::Stop(stop)) => return Err(Fault::Stop(stop)),
        Err(Fault::Fail) => {}
    }
    for next in others {
        match emit_next(Err(Fault::Fail), next, inp, &before) {
            Ok(value) => return Ok(value),
            Err(Fault::Stop(stop)) => return Err(Fault::Stop(stop)),
            Err(Fault::Fail) => {}
        }
    }
    Err(Fault::Fail)
}

/// The same without outputs.
#[inline(always)]
fn check_several<'src, I: Input<'src>, O, E: ParserExtra<I>, P: Parser<'src, I, O, E>>(
    first: &P,
    others: &[P],
    inp: &mut InputRef<'src, '_, I, E>,
) -> PResult<()>
    requires first { P.ready first.now }
    requires others { All P.ready others.now }
    requires several { length others.now ≢ 0 }
    ensures ran { RunsFirst I.Input E.Error.Error E.State.Inspector
        P.meaning first.now others.now false inp.old inp.new (without_value result) }
    ensures lent { inp.new.state.ghost_name ≡ inp.old.state.ghost_name }
{
    let before = inp.save()?;
    match first.go_check(inp) {
        Ok(()) => return Ok(()),
        Err(Fault::Stop(stop)) => return Err(Fault::Stop(stop)),
        Err(Fault::Fail) => {}
    }
    for next in others {
        match check_next(Err(Fault::Fail), next, inp, &before) {
            Ok(()) => return Ok(()),
            Err(Fault::Stop(stop)) => return Err(Fault::Stop(stop)),
            Err(Fault::Fail) => {}
        }
    }
    Err(Fault::Fail)
}

/// Fails where nothing was expected.
fn expect_nothing<'src, I: Input<'src>, E: ParserExtra<I>>(
    inp: &mut InputRef<'src, '_, I, E>,
) -> Fault
    ensures fails { ExpectsNothing I.Input E.Error.Error E.State.Inspector inp.old inp.new result }
    ensures lent { inp.new.state.ghost_name ≡ inp.old.state.ghost_name }
{
    let here = inp.cursor();
    inp.expected(&here, &here, Plain::Nothing, None)
}
