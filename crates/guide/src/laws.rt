//! Laws called at parsers and at grammars.
ghost use Rattle.std.specs.Prelude.{◌≡◌, ◌≤◌};
ghost use Rattle.chumsky_combinator.specs.AsParsers.{AgreesOnSecond};
ghost use Rattle.chumsky_recursive.specs.Derives.{start_along};
ghost use Rattle.chumsky_recursive.specs.LimitLaws.{HasAnswers};

use chumsky::combinator::{IgnoreThen, Then};
use chumsky::extra::ParserExtra;
use chumsky::grammar_laws::{answers_stand_under_a_greater_limit, open_calls_never_go_back};
use chumsky::input::{Input, ValueInput};
use chumsky::laws::ignore_then_agrees_with_then;
use chumsky::laws::steady::any_is_steady;
use chumsky::prelude::*;
use chumsky::primitive::Any;
use chumsky::recursive::{Actions, Grammar};

/// A token past what a steady parser takes. Where both answer, `then` gives a pair and `ignore_then` the token, the second
/// of it, and they agree in all else. That is their law at a parser and `any`, which is steady too.
pub fn token_past<'src, I: ValueInput<'src>, O: Drop, E: ParserExtra<I>, A: Parser<'src, I, O, E>>(
    first: &A,
    second: &Any<I, E>,
)
    ensures { A.steady first.now → AgreesOnSecond E.Error.Error E.State.Inspector (⟦<Any<I, E> as Parser<'src, I, I::Token, E>>⟧.same second.now)
        ⟦<Then<A, Any<I, E>, O, I::Token> as Parser<'src, I, (O, I::Token), E>>⟧.meaning
        ⟦<IgnoreThen<A, Any<I, E>, O> as Parser<'src, I, I::Token, E>>⟧.meaning first.now second.now }
{
    any_is_steady(second);
    ignore_then_agrees_with_then(first, second);
}

/// A grammar under two limits. An answer under the lower one is an answer under the higher one too, and is derived there by rule
/// calls of which none begins before the call in whose body it stands: along the calls that are open the places never fall.
pub fn never_back_under_a_higher_limit<
    'src,
    'r,
    I: Input<'src>,
    E: ParserExtra<I>,
    A: Actions<'src, I, E>,
>(low: &Grammar<'r, A>, high: &Grammar<'r, A>)
    requires rules { high.now.rules.rules.now ≡ low.now.rules.rules.now }
    requires start { high.now.rules.start ≡ low.now.rules.start }
    requires actions { high.now.actions.now ≡ low.now.actions.now }
    requires limit { low.now.limit ≤ high.now.limit }
    ensures { HasAnswers (⟦<Grammar<'r, A> as Parser<'src, I, A::Value, E>>⟧.meaning low.now E.Error.Error E.State.Inspector)
        (start_along I.Input E.Error.Error E.State.Inspector A.Actions high.now (λ outer inner. outer ≤ inner)) }
{
    answers_stand_under_a_greater_limit::<I, E, A>(low, high);
    open_calls_never_go_back::<I, E, A>(high);
}
