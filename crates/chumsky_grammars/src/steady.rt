//! When an exact grammar is ready and steady, the contract of a function that does nothing: where its grammar is. And what is known
//! of two outputs that count as the same.
ghost use Rattle.std.specs.Prelude.{map};
ghost use Rattle.chumsky_grammars.specs.Compiled.{expressions_of};
ghost use Rattle.chumsky_grammars.specs.Leaves.{leaves_of};
ghost use Rattle.chumsky_grammars.specs.ValueMakes.{MapsDecide};

use crate::exact::{ExactGrammar, Judge};
use chumsky::recursive::{Grammar, Leaves, Moving, Values};
use chumsky_input::extra::ParserExtra;
use chumsky_input::input::Input;
use chumsky_parser::parser::Parser;

/// `exact(grammar)` and `exact_by(grammar, judge)` are ready where the grammar is, and its mappers that may refuse decide by the
/// word as the judge says; and steady where the grammar is. Outputs that are the same are so to the grammar.
pub fn exact_is_steady<'src, 'r, 'a, I, E, W, P, J>(
    exact: &ExactGrammar<Grammar<'r, Leaves<'a, P, W>>, J>,
)
where
    I: Input<'src>,
    E: ParserExtra<I>,
    W: Values<I::Span, E::Error>,
    P: Moving<'src, I, W::Value, E>,
    J: Judge<I::Token, W::Value>,
    ensures ready { let g = exact.now.grammar in ⟦<Grammar<'r, Leaves<'a, P, W>> as Parser<'src, I, W::Value, E>>⟧.ready g →
        MapsDecide W.Values g.actions.now.values (J.picks exact.now.judge) (leaves_of (map P.language g.actions.now.leaves.now)) (expressions_of g.rules.rules.now) →
        ⟦<ExactGrammar<Grammar<'r, Leaves<'a, P, W>>, J> as Parser<'src, I, W::Value, E>>⟧.ready exact.now }
    ensures steady { ⟦<Grammar<'r, Leaves<'a, P, W>> as Parser<'src, I, W::Value, E>>⟧.steady exact.now.grammar →
        ⟦<ExactGrammar<Grammar<'r, Leaves<'a, P, W>>, J> as Parser<'src, I, W::Value, E>>⟧.steady exact.now }
    ensures same { (x y : W.Value) → ⟦<ExactGrammar<Grammar<'r, Leaves<'a, P, W>>, J> as Parser<'src, I, W::Value, E>>⟧.same exact.now x y →
        ⟦<Grammar<'r, Leaves<'a, P, W>> as Parser<'src, I, W::Value, E>>⟧.same exact.now.grammar x y }
{}
