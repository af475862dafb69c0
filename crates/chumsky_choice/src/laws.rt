//! Laws that compare choices, each the contract of a function that does nothing.
ghost use Rattle.std.specs.List.{All};
ghost use Rattle.chumsky_combinator.specs.Compared.{DoesNoMore};
ghost use Rattle.chumsky_combinator.specs.Standing.{SameByOneIn};
ghost use Rattle.chumsky_choice.specs.Alternatives.{StandsByOneIn, StandsByOneOf, SameByOneOf};
ghost use Rattle.chumsky_choice.specs.Repeated.{ors_of, choice_of, DoesNoMoreButMemory};

use crate::alternatives::Alternatives;
use crate::choice::Choice;
use chumsky_combinator::or::Or;
use chumsky_input::extra::ParserExtra;
use chumsky_input::input::Input;
use chumsky_parser::parser::Parser;

/// `choice((a, b, c))` has the outcomes of `a.or(b).or(c)`, refusals for memory aside, and no other. It takes one mark where
/// that takes two.
pub fn choice_is_repeated_or<
    'src,
    I: Input<'src>,
    O,
    E: ParserExtra<I>,
    A: Parser<'src, I, O, E>,
    B: Parser<'src, I, O, E>,
    C: Parser<'src, I, O, E>,
>(a: &A, b: &B, c: &C)
    ensures in_or { DoesNoMore E.Error.Error E.State.Inspector
        (⟦<Choice<(A, B, C)> as Parser<'src, I, O, E>>⟧.meaning (choice_of (a.now, b.now, c.now)))
        (⟦<Or<Or<A, B>, C> as Parser<'src, I, O, E>>⟧.meaning (ors_of a.now b.now c.now)) }
    ensures in_choice { DoesNoMoreButMemory E.Error.Error E.State.Inspector
        (⟦<Or<Or<A, B>, C> as Parser<'src, I, O, E>>⟧.meaning (ors_of a.now b.now c.now))
        (⟦<Choice<(A, B, C)> as Parser<'src, I, O, E>>⟧.meaning (choice_of (a.now, b.now, c.now))) }
{}

/// In each answer of a choice of one alternative, of two, and so on to eight, one alternative stands: those before it say no
/// and are gone back from, each to the choice's own beginning, and it says yes, or is the last.
pub fn one_alternative_stands<
    'src,
    I: Input<'src>,
    O,
    E: ParserExtra<I>,
    T: Alternatives<'src, I, O, E>,
>(choice: &T)
    ensures { StandsByOneIn E.Error.Error E.State.Inspector (T.meaning choice.now) (T.each_does choice.now) }
{}

/// The same of a slice, a `Vec` and an array of any length. Where it is empty the answer is no.
pub fn one_alternative_of_a_list_stands<
    'src,
    'p,
    I: Input<'src>,
    O,
    E: ParserExtra<I>,
    A: Parser<'src, I, O, E>,
    const N: usize,
>(slice: &Choice<&'p [A]>, vec: &Choice<Vec<A>>, array: &Choice<[A; N]>)
    ensures slice { StandsByOneOf E.Error.Error E.State.Inspector
        (⟦<Choice<&'p [A]> as Parser<'src, I, O, E>>⟧.meaning slice.now) A.meaning slice.now.parsers.now }
    ensures vec { StandsByOneOf E.Error.Error E.State.Inspector
        (⟦<Choice<Vec<A>> as Parser<'src, I, O, E>>⟧.meaning vec.now) A.meaning vec.now.parsers.items }
    ensures array { StandsByOneOf E.Error.Error E.State.Inspector
        (⟦<Choice<[A; N]> as Parser<'src, I, O, E>>⟧.meaning array.now) A.meaning array.now.parsers }
{}

/// Of two answers of a steady choice of one alternative, of two, and so on to eight, from beginnings that differ at most in
/// whether a value is wanted, one and the same alternative stands in both, and their outputs are the same by what that one
/// calls the same.
pub fn choice_agrees_by_one_alternative<
    'src,
    I: Input<'src>,
    O,
    E: ParserExtra<I>,
    T: Alternatives<'src, I, O, E>,
>(choice: &T)
    ensures { T.steady choice.now → SameByOneIn E.Error.Error E.State.Inspector
        (T.meaning choice.now) (T.each_same choice.now) (T.each_does choice.now) }
{}

/// The same of a slice, a `Vec` and an array of any length.
pub fn choice_of_a_list_agrees_by_one_alternative<
    'src,
    'p,
    I: Input<'src>,
    O,
    E: ParserExtra<I>,
    A: Parser<'src, I, O, E>,
    const N: usize,
>(slice: &Choice<&'p [A]>, vec: &Choice<Vec<A>>, array: &Choice<[A; N]>)
    ensures slice { All A.steady slice.now.parsers.now → SameByOneOf E.Error.Error E.State.Inspector
        (⟦<Choice<&'p [A]> as Parser<'src, I, O, E>>⟧.meaning slice.now) A.same A.meaning slice.now.parsers.now }
    ensures vec { All A.steady vec.now.parsers.items → SameByOneOf E.Error.Error E.State.Inspector
        (⟦<Choice<Vec<A>> as Parser<'src, I, O, E>>⟧.meaning vec.now) A.same A.meaning vec.now.parsers.items }
    ensures array { All A.steady array.now.parsers → SameByOneOf E.Error.Error E.State.Inspector
        (⟦<Choice<[A; N]> as Parser<'src, I, O, E>>⟧.meaning array.now) A.same A.meaning array.now.parsers }
{}
