//! A parser of expressions.
ghost use Rattle.std.specs.Prelude.{◌≡◌, ◌<◌};
ghost use Rattle.chumsky_pratt.specs.ExpressionLaws.{SameExpression};

use crate::machine::climb;
use crate::row::Operators;
use crate::way::{ForValue, WithoutValue};
use chumsky_input::extra::ParserExtra;
use chumsky_input::input::Input;
use chumsky_input::input_ref::InputRef;
use chumsky_input::stop::PResult;
use chumsky_parser::moving::Moving;
use chumsky_parser::parser::{IsParser, Parser};

/// A parser of expressions: atoms with operators between, before and after them. See `pratt`.
#[derive(Clone, Copy, Drop)]
pub struct Pratt<P, R> {
    pub atom: P,
    pub operators: R,
}

impl<I, O, E, P: IsParser<I, O, E>, R> IsParser<I, O, E> for Pratt<P, R> {}

impl<
    'src,
    I: Input<'src>,
    O: Drop,
    E: ParserExtra<I>,
    P: Parser<'src, I, O, E>,
    R: Operators<'src, I, O, E>,
> Parser<'src, I, O, E> for Pratt<P, R> {
    ghost use Rattle.chumsky_pratt.specs.Doing.{DoesExpression};
    ghost use Rattle.chumsky_pratt.specs.ExpressionLaws.{SameExpression, expression-end, expression-agree};
    ghost use Rattle.chumsky_pratt.specs.PrecedenceLanguage.{precedence_language};
    ghost use Rattle.chumsky_pratt.specs.PrecedenceLanguageLaws.{precedence-accepts};

    ghost ready = { λ p. P.ready p.atom × R.ready p.operators };

    ghost meaning = { λ p. DoesExpression (P.meaning p.atom) (R.syntax p.operators) };

    ghost steady = { λ p. P.steady p.atom × R.steady p.operators };

    ghost same = { λ p. SameExpression (P.same p.atom) (R.same p.operators) ((R.syntax p.operators).gives E.State.Inspector) };

    ghost language = { λ p. precedence_language (R.syntax p.operators).number (R.syntax p.operators).stands (P.language p.atom) (R.languages p.operators) };

    ghost ends_after_start = { λ p. expression-end _ (P.ends_after_start p.atom) (R.ends_after_start p.operators) 0 };

    ghost agrees = { λ p s. expression-agree _ (P.same p.atom) (R.same p.operators) (R.gives_one p.operators s.1) (P.agrees p.atom s.0) (R.agrees p.operators s.1) 0 };

    ghost accepts = { λ p. precedence-accepts (P.ends_after_start p.atom) (R.ends_after_start p.operators) (P.accepts p.atom) (R.each_operates p.operators) };

    #[inline]
    fn go_emit(&self, inp: &mut InputRef<'src, '_, I, E>) -> PResult<O> {
        climb(&ForValue, &self.atom, &self.operators, inp)
    }

    #[inline]
    fn go_check(&self, inp: &mut InputRef<'src, '_, I, E>) -> PResult<()> {
        climb(&WithoutValue, &self.atom, &self.operators, inp)
    }
}

/// An expression moves where its atom does: a prefix operator that takes nothing is refused.
impl<
    'src,
    I: Input<'src>,
    O: Drop,
    E: ParserExtra<I>,
    P: Moving<'src, I, O, E>,
    R: Operators<'src, I, O, E>,
> Moving<'src, I, O, E> for Pratt<P, R> {
    ghost use Rattle.chumsky_pratt.specs.ExpressionMoves.{expression-move};

    ghost moves = { λ p. P.moves p.atom };

    ghost moved = { λ p e. expression-move _ (P.ends_after_start p.atom) (R.ends_after_start p.operators) (P.moved p.atom e) 0 };

    fn always_moves(&self) -> bool
        ensures { result ≡ P.moves self.now.atom }
    {
        self.atom.always_moves()
    }
}

/// When it is ready and steady, and which outputs are the same: `a.pratt(..)`. Two outputs are the same where they are built
/// alike, from atoms that are the same, by operators that are.
pub fn pratt_is_steady<
    'src,
    I: Input<'src>,
    O: Drop,
    E: ParserExtra<I>,
    P: Parser<'src, I, O, E>,
    R: Operators<'src, I, O, E>,
>(pratt: &Pratt<P, R>)
    ensures ready { P.ready pratt.now.atom → R.ready pratt.now.operators → ⟦<Pratt<P, R> as Parser<'src, I, O, E>>⟧.ready pratt.now }
    ensures steady { P.steady pratt.now.atom → R.steady pratt.now.operators → ⟦<Pratt<P, R> as Parser<'src, I, O, E>>⟧.steady pratt.now }
    ensures same { (x y : O) → ⟦<Pratt<P, R> as Parser<'src, I, O, E>>⟧.same pratt.now x y → SameExpression (P.same pratt.now.atom) (R.same pratt.now.operators) ((R.syntax pratt.now.operators).gives E.State.Inspector) x y }
{}
