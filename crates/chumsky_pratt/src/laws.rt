//! What is proved of any expressions.
ghost use Rattle.std.specs.Prelude.{◌≡◌, ◌<◌, ◌≤◌, ℕ};
ghost use Rattle.chumsky_pratt.specs.Doing.{syntax_of};
ghost use Rattle.chumsky_pratt.specs.Operators.{infix_fixity};
ghost use Rattle.chumsky_pratt.specs.Choices.{ReadsByChoice, TurnsByChoice};
ghost use Rattle.chumsky_pratt.specs.Alone.{AloneIsAtom};
ghost use Rattle.chumsky_pratt.specs.PrecedenceLaws.{power_of, left_power, StaysOut, GoesIn, StaysOutAfter, PassesOver, PassesOverUnder};

use crate::fixity::Associativity;
use crate::pratt::Pratt;
use crate::row::Operators;
use chumsky_input::extra::ParserExtra;
use chumsky_input::input::Input;
use chumsky_parser::parser::Parser;

/// Of two infix operators the one with the higher power binds first: the weaker is not tried in the right operand of the
/// stronger, and the stronger is tried in that of the weaker.
pub fn the_stronger_binds_first(weaker: Associativity, stronger: Associativity)
    requires { power_of weaker < power_of stronger }
    ensures out { StaysOut weaker stronger }
    ensures within { GoesIn stronger weaker }
{}

/// Of two left-associative operators of one power the first binds first; of two right-associative ones the second.
pub fn associativity_decides(power: u16)
    ensures left { StaysOut (Associativity.Left power) (Associativity.Left power) }
    ensures right { GoesIn (Associativity.Right power) (Associativity.Right power) }
{}

/// An infix operator too weak for an expression is passed over in it, wherever it might stand.
pub fn a_weak_operator_is_passed_over<
    'src,
    I: Input<'src>,
    O,
    E: ParserExtra<I>,
    P: Parser<'src, I, O, E>,
    R: Operators<'src, I, O, E>,
>(parser: &Pratt<P, R>)
    ensures { let s = syntax_of (P.meaning parser.now.atom) (R.syntax parser.now.operators) E.Error.Error E.State.Inspector in
        (i least : ℕ) (a : Associativity) → s.stands i ≡ infix_fixity a → left_power a < least → PassesOver s least i }
{}

/// After an operator of `none` no infix operator of its power, or of a higher one, is tried in the same expression.
pub fn none_does_not_chain(power: u16, next: Associativity)
    requires { power ≤ power_of next }
    ensures { StaysOutAfter next (Associativity.None power) }
{}

/// An infix operator past the bound of an expression is passed over in it, wherever it might stand.
pub fn an_operator_past_the_bound_is_passed_over<
    'src,
    I: Input<'src>,
    O,
    E: ParserExtra<I>,
    P: Parser<'src, I, O, E>,
    R: Operators<'src, I, O, E>,
>(parser: &Pratt<P, R>)
    ensures { let s = syntax_of (P.meaning parser.now.atom) (R.syntax parser.now.operators) E.Error.Error E.State.Inspector in
        (i below : ℕ) (a : Associativity) → s.stands i ≡ infix_fixity a → below ≤ left_power a → PassesOverUnder s below i }
{}

/// The value that an expression begins with is read as by an ordered choice: of each prefix operator with its operand, in
/// their order, and at last of an atom. So a failure of one stays when it is gone back from, and the next begins in the state
/// that going back leaves.
pub fn a_value_is_read_by_choice<
    'src,
    I: Input<'src>,
    O,
    E: ParserExtra<I>,
    P: Parser<'src, I, O, E>,
    R: Operators<'src, I, O, E>,
>(parser: &Pratt<P, R>)
    ensures { ReadsByChoice (syntax_of (P.meaning parser.now.atom) (R.syntax parser.now.operators) E.Error.Error E.State.Inspector) }
{}

/// What follows a value is read as by an ordered choice: of each postfix operator that is strong enough, of each infix
/// operator with its right operand that is strong enough and under the bound, and at last of nothing.
pub fn a_round_is_read_by_choice<
    'src,
    I: Input<'src>,
    O,
    E: ParserExtra<I>,
    P: Parser<'src, I, O, E>,
    R: Operators<'src, I, O, E>,
>(parser: &Pratt<P, R>)
    ensures { TurnsByChoice (syntax_of (P.meaning parser.now.atom) (R.syntax parser.now.operators) E.Error.Error E.State.Inspector) }
{}

/// Where no operator is found in the text, an answer of an expression is that of its atom, with its value, its end, the errors
/// that it emitted and its failures; before and after these stand those of the operators that were tried.
pub fn without_operators_an_expression_is_its_atom<
    'src,
    I: Input<'src>,
    O,
    E: ParserExtra<I>,
    P: Parser<'src, I, O, E>,
    R: Operators<'src, I, O, E>,
>(parser: &Pratt<P, R>)
    ensures { AloneIsAtom (syntax_of (P.meaning parser.now.atom) (R.syntax parser.now.operators) E.Error.Error E.State.Inspector) 0 }
{}
