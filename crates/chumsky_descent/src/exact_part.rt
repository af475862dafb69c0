//! Parts of a grammar that say which texts they take.
ghost use Rattle.std.specs.Prelude.{◌≡◌, IfOk, is_some, ⊤, false};
ghost use Rattle.chumsky_input.specs.Run.{Runs};
ghost use Rattle.chumsky_combinator.specs.Part.{Onward};
ghost use Rattle.chumsky_descent.specs.Lawful.{AnyTwo};

use chumsky_input::extra::ParserExtra;
use chumsky_input::input::Input;
use chumsky_input::input_ref::InputRef;
use chumsky_input::stop::{Fault, PResult};
use chumsky_parser::moving::Moving;
use chumsky_parser::parser::{IsParser, Parser};

/// A part of a grammar, as `Part`, that also says which texts it takes, and with which values.
///
/// `exact_part` makes a parser of it, whose language is that of the parser in the body, or one that is intended. The check of
/// a function that has this part in it reads neither the body nor what stands in it: so a function that is too large to be
/// checked is cut, and what it accepts is said of the parts.
pub trait ExactPart<'src, I: Input<'src>, O, E: ParserExtra<I>> {
    ghost use Rattle.chumsky_descent.specs.Body.{Told};
    ghost use Rattle.chumsky_descent.specs.Lawful.{Lawful};

    /// The parser in the body, `told ⟦..⟧ ..`: what it may do, and its language; by `intended`, with words of one's own.
    ghost told: { Self → Told I I.Token I.Span E.Error E.State E.State.Mark E.Context O };

    /// Runs the parser, for its output where one is wanted.
    fn run(&self, wanted: bool, inp: &mut InputRef<'src, '_, I, E>) -> PResult<Option<O>>
        ensures ran { let part = told self.now in Runs I.Input E.Error.Error E.State.Inspector
            (Onward (part.meaning E.Error.Error E.State.Inspector)) wanted inp.old inp.new result }
        ensures as_wanted { IfOk result (λ value. is_some value ≡ wanted) }
        ensures lent { inp.new.state.ghost_name ≡ inp.old.state.ghost_name };

    /// It is as its language says: a `-lawful` for each combinator, in the order of the code.
    ghost lawful: { (p : Self) → let part = told p in Lawful (E.Error.takes_no_memory × E.State.takes_no_memory) (part.meaning E.Error.Error E.State.Inspector) part.language };
}

/// A part of a grammar that says which texts it takes, as a parser. See `exact_part`.
#[derive(Drop)]
#[derive_where(Clone, Copy; P)]
pub struct OfExactPart<P> {
    pub part: P,
}

/// A part of a grammar that says which texts it takes, as a parser.
///
/// `exact_part(Clock).then_ignore(just('Z'))`, where `Clock` is a struct with an impl of `ExactPart`.
#[inline]
pub fn exact_part<P>(part: P) -> OfExactPart<P>
    ensures { result.part ≡ part }
{
    OfExactPart { part }
}

impl<I, O, E, P: IsParser<I, O, E>> IsParser<I, O, E> for OfExactPart<P> {}

impl<'src, I: Input<'src>, O: Drop, E: ParserExtra<I>, P: ExactPart<'src, I, O, E>> Parser<
    'src,
    I,
    O,
    E,
> for OfExactPart<P> {
    ghost use Rattle.chumsky_descent.specs.ExactPart.{part-lawful};

    ghost ready = { λ p. ⊤ };

    ghost meaning = { λ p errors states. let part = P.told p.part in Onward (part.meaning errors states) };

    ghost steady = { λ p. ⊤ };

    ghost same = { λ p. AnyTwo };

    ghost language = { λ p. let part = P.told p.part in part.language };

    ghost ends_after_start = { λ p. let h = part-lawful (P.lawful p.part) in h.ends };

    ghost agrees = { λ p s. let h = part-lawful (P.lawful p.part) in h.agrees };

    ghost accepts = { λ p. let h = part-lawful (P.lawful p.part) in h.accepts };

    #[inline(always)]
    fn go_emit(&self, inp: &mut InputRef<'src, '_, I, E>) -> PResult<O> {
        match self.part.run(true, inp) {
            Ok(Some(value)) => Ok(value),
            Ok(None) => unreachable!(),
            Err(fault) => Err(fault),
        }
    }

    #[inline(always)]
    fn go_check(&self, inp: &mut InputRef<'src, '_, I, E>) -> PResult<()> {
        let _none = self.part.run(false, inp)?;
        Ok(())
    }
}

impl<'src, I: Input<'src>, O: Drop, E: ParserExtra<I>, P: ExactPart<'src, I, O, E>> Moving<
    'src,
    I,
    O,
    E,
> for OfExactPart<P> {
    ghost use Rattle.chumsky_parser.specs.ProgressLaws.{never};

    ghost moved = { λ _. never };

    fn always_moves(&self) -> bool
        ensures { result ≡ false }
    {
        false
    }
}
