//! What the body of a function is, with any parser in the place of a call.
use chumsky_input::extra::ParserExtra;
use chumsky_input::input::Input;

/// Says of a marker what the body of a function is, with a parser `P` in the place of the function's call of itself.
///
/// An impl stands for each `P` that is a parser. It takes what it says from the type that the body has with `P` in it:
/// `told ⟦<PairOf<'src, P> as Parser<..>>⟧` of the body's parser as a value. The marker's `exactly` is made of it: so the body
/// is said once.
pub trait Body<'src, I: Input<'src>, O, E: ParserExtra<I>, P> {
    ghost use Rattle.chumsky_descent.specs.Body.{Told};

    /// What the body may do, and which texts it accepts, with which values.
    ghost body: { P → Told I I.Token I.Span E.Error E.State E.State.Mark E.Context O };
}
