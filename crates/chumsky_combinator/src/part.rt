//! Parts of a grammar, each known to its users by a type of its own.
ghost use Rattle.std.specs.Prelude.{◌≡◌, IfOk, is_some, ⊤, Bool, true, false};
ghost use Rattle.chumsky_input.specs.Run.{Runs};
ghost use Rattle.chumsky_combinator.specs.Part.{Onward};
ghost use Rattle.chumsky_combinator.specs.Compared.{DoesNoMore};

use chumsky_input::extra::ParserExtra;
use chumsky_input::input::Input;
use chumsky_input::input_ref::InputRef;
use chumsky_input::stop::PResult;
use chumsky_parser::moving::{MayStay, Moving};
use chumsky_parser::parser::{IsParser, Parser};

/// A part of a grammar: what it may do, and a body that runs a parser by `run_part`.
///
/// `part_of` makes a parser of it. The check of a grammar that has this part in it reads neither the body nor what stands
/// in it: to its users the part is one parser, however large it is.
pub trait Part<'src, I: Input<'src>, O, E: ParserExtra<I>> {
    ghost use Rattle.chumsky_input.specs.Words.{Does};

    /// What a run may do: the meaning of the parser in the body, or less. Where nothing is said, anything.
    ghost means: { Self → Does I I.Token I.Span E.Error E.State E.State.Mark E.Context O } = { λ p errors states b o. ⊤ };

    /// Which outputs count as the same. Where nothing is said, equal ones.
    ghost alike: { Self → O → O → Type 0 } = { λ p v w. v ≡ w };

    /// Runs the parser, for its output where one is wanted.
    fn run(&self, wanted: bool, inp: &mut InputRef<'src, '_, I, E>) -> PResult<Option<O>>
        ensures ran { Runs I.Input E.Error.Error E.State.Inspector
            (Onward (means self.now E.Error.Error E.State.Inspector)) wanted inp.old inp.new result }
        ensures as_wanted { IfOk result (λ value. is_some value ≡ wanted) }
        ensures lent { inp.new.state.ghost_name ≡ inp.old.state.ghost_name };
}

/// Runs a parser as the body of a part, for its output where one is wanted: `run_part(&hour, wanted, inp)` ends the body.
/// No failure is lost: a part keeps the furthest one as the parser in it does.
#[inline(always)]
pub fn run_part<'src, I: Input<'src>, O, E: ParserExtra<I>, P: Parser<'src, I, O, E>>(
    parser: &P,
    wanted: bool,
    inp: &mut InputRef<'src, '_, I, E>,
) -> PResult<Option<O>>
    requires { P.ready parser.now }
    ensures ran { Runs I.Input E.Error.Error E.State.Inspector
        (Onward (P.meaning parser.now E.Error.Error E.State.Inspector)) wanted inp.old inp.new result }
    ensures as_wanted { IfOk result (λ value. is_some value ≡ wanted) }
    ensures lent { inp.new.state.ghost_name ≡ inp.old.state.ghost_name }
{
    if wanted {
        match parser.go_emit(inp) {
            Ok(value) => Ok(Some(value)),
            Err(fault) => Err(fault),
        }
    } else {
        match parser.go_check(inp) {
            Ok(()) => Ok(None),
            Err(fault) => Err(fault),
        }
    }
}

/// A part of a grammar as a parser. See `part_of`.
#[derive(Drop)]
#[derive_where(Clone, Copy; P)]
pub struct OfPart<P> {
    pub part: P,
}

/// A part of a grammar as a parser: `part_of(Hour).then_ignore(just(':'))`, where the type `Hour` has an impl of `Part`.
#[inline]
pub fn part_of<P>(part: P) -> OfPart<P>
    ensures { result.part ≡ part }
{
    OfPart { part }
}

impl<I, O, E, P: IsParser<I, O, E>> IsParser<I, O, E> for OfPart<P> {}

impl<'src, I: Input<'src>, O: Drop, E: ParserExtra<I>, P: Part<'src, I, O, E>> Parser<'src, I, O, E>
    for OfPart<P> {
    ghost use Rattle.chumsky_parser.specs.Language.{of_unsaid};
    ghost use Rattle.chumsky_input.specs.Outcome.{Agreeing};
    ghost use Rattle.chumsky_combinator.specs.PartLaws.{onward-ends, onward-agrees};

    ghost ready = { λ p. ⊤ };

    ghost meaning = { λ p errors states. Onward (P.means p.part errors states) };

    ghost steady = { λ p. Agreeing (P.alike p.part) (P.means p.part E.Error.Error E.State.Inspector) (P.means p.part E.Error.Error E.State.Inspector) };

    ghost same = { λ p. P.alike p.part };

    ghost ends_after_start = { λ p. onward-ends _ };

    ghost agrees = { λ p s. onward-agrees _ _ s };

    ghost accepts = { λ _. of_unsaid };

    #[inline(always)]
    fn go_emit(&self, inp: &mut InputRef<'src, '_, I, E>) -> PResult<O> {
        match self.part.run(true, inp) {
            Ok(Some(value)) => Ok(value),
            Ok(None) => unreachable!(),
            Err(fault) => Err(fault),
        }
    }

    #[inline(always)]
    fn go_check(&self, inp: &mut InputRef<'src, '_, I, E>) -> PResult<()> {
        let _none = self.part.run(false, inp)?;
        Ok(())
    }
}

/// Whether a part of a grammar moves wherever it succeeds; see `Moving`.
pub trait MovingPart<'src, I: Input<'src>, O, E: ParserExtra<I>>: Part<'src, I, O, E> {
    ghost use Rattle.chumsky_parser.specs.Progress.{Moves};

    /// That each success ends past its start.
    ghost moves: { Self → Bool } = { λ _. false };

    /// Whether each success ends past its start.
    fn always_moves(&self) -> bool
        ensures { result ≡ moves self.now };

    /// It does, where that is said.
    ghost moved: { (p : Self) → moves p ≡ true → Moves (Self.means p E.Error.Error E.State.Inspector) };
}

impl<'src, I: Input<'src>, O: Drop, E: ParserExtra<I>, P: MovingPart<'src, I, O, E>> Moving<
    'src,
    I,
    O,
    E,
> for OfPart<P> {
    ghost use Rattle.chumsky_combinator.specs.PartLaws.{onward-moves};

    ghost moves = { λ p. P.moves p.part };

    ghost moved = { λ p e. onward-moves _ (P.moved p.part e) };

    fn always_moves(&self) -> bool
        ensures { result ≡ P.moves self.now.part }
    {
        self.part.always_moves()
    }
}

impl<'src, I: Input<'src>, O, E: ParserExtra<I>, P: MayStay + Part<'src, I, O, E>> MovingPart<
    'src,
    I,
    O,
    E,
> for P {
    ghost use Rattle.chumsky_parser.specs.ProgressLaws.{never};

    ghost moved = { λ _. never };

    fn always_moves(&self) -> bool {
        false
    }
}

/// `part_of(p)`, where `p` means no more than a steady parser, and outputs that are the same to that parser are alike to
/// `p`.
pub fn part_is_steady<
    'src,
    I: Input<'src>,
    O: Drop,
    E: ParserExtra<I>,
    A: Parser<'src, I, O, E>,
    P: Part<'src, I, O, E>,
>(part: &OfPart<P>, inside: &A)
    ensures ready { ⟦<OfPart<P> as Parser<'src, I, O, E>>⟧.ready part.now }
    ensures steady { let p = inside.now in
        A.steady p → DoesNoMore E.Error.Error E.State.Inspector (P.means part.now.part) (A.meaning p) →
        ((v w : O) → A.same p v w → P.alike part.now.part v w) →
        ⟦<OfPart<P> as Parser<'src, I, O, E>>⟧.steady part.now }
    ensures same { (x y : O) → ⟦<OfPart<P> as Parser<'src, I, O, E>>⟧.same part.now x y →
        P.alike part.now.part x y }
{}
