//! Which calls of functions move wherever they succeed.
ghost use Rattle.std.specs.Prelude.{◌≡◌, Bool, true, false};

use crate::recursive::{Called, Recursion, Unsaid};
use chumsky_input::extra::ParserExtra;
use chumsky_input::input::Input;
use chumsky_input::input_ref::InputRef;
use chumsky_input::stop::PResult;
use chumsky_parser::moving::{MayStay, Moving};

/// Whether a function that calls itself moves wherever it succeeds; see `Moving`. A marker that doesn't say so is `MayStay`, as
/// `Unsaid` is.
pub trait MovingRecursion<'src, I: Input<'src>, O, E: ParserExtra<I>>: Recursion<'src, I, O, E> {
    ghost use Rattle.chumsky_descent.specs.Kept.{KeepsMoving};

    /// That each success ends past its start.
    ghost moves: { Bool } = { false };

    /// Whether each success ends past its start.
    fn always_moves() -> bool
        ensures { result ≡ moves };

    /// Where a call does, so does the function.
    ghost moved: { moves ≡ true → KeepsMoving (Self.says E.Error.Error E.State.Inspector) };
}

impl MayStay for Unsaid {}

impl<
    'src,
    I: Input<'src>,
    O,
    E: ParserExtra<I>,
    R: MayStay + Recursion<'src, I, O, E>,
> MovingRecursion<'src, I, O, E> for R {
    ghost use Rattle.chumsky_parser.specs.ProgressLaws.{never};

    ghost moved = { never };

    fn always_moves() -> bool {
        false
    }
}

impl<'src, F, R, I, O, E> Moving<'src, I, O, E> for Called<F, R, I, O, E>
where
    I: Input<'src>,
    I::Token: 'src,
    O: Drop,
    E: ParserExtra<I>,
    R: MovingRecursion<'src, I, O, E>,
    F: Fn(&mut InputRef<'src, '_, I, E>, bool, usize) -> PResult<Option<O>>,
{
    ghost use Rattle.chumsky_descent.specs.Kept.{call-moves};

    ghost moves = { λ p. R.moves };

    ghost moved = { λ p e. call-moves (R.says _ _) (R.moved e) p.depth };

    fn always_moves(&self) -> bool
        ensures { result ≡ R.moves }
    {
        R::always_moves()
    }
}
