//! For what `parse` and `check` of well-founded rules are refused, as the contract of a function that does nothing.
ghost use Rattle.chumsky.specs.Answer.{ParseStopsAsLeaves, CheckStopsAsLeaves};
ghost use Rattle.chumsky_recursive.specs.Refused.{IsRefusedAsLeaves};

use chumsky_input::extra::ParserExtra;
use chumsky_input::input::Input;
use chumsky_input::stop::Stop;
use chumsky_parser::parser::Parser;
use chumsky_recursive::actions::Actions;
use chumsky_recursive::grammar::Grammar;

/// A grammar that `close_founded` made, over no more tokens than it was made for: where `parse` or `check` is refused, that is
/// for memory, or as a leaf of its rules is on these tokens.
pub fn founded_runs_are_refused_as_leaves<
    'src,
    'r,
    I: Input<'src>,
    E: ParserExtra<I>,
    A: Actions<'src, I, E>,
>(grammar: &Grammar<'r, A>, tokens: usize)
where
    E::Context: Default,
    requires stands { IsRefusedAsLeaves (λ n. A.leaf_meaning grammar.now.actions.now n E.Error.Error E.State.Inspector) grammar.now.rules.rules.now
        tokens (⟦<Grammar<'r, A> as Parser<'src, I, A::Value, E>>⟧.meaning grammar.now E.Error.Error E.State.Inspector) }
    ensures parse { ParseStopsAsLeaves I.Input E.Error.Error E.State.Inspector E.Context.is_default A.Actions ⟦<Grammar<'r, A> as Parser<'src, I, A::Value, E>>⟧ grammar.now tokens }
    ensures check { CheckStopsAsLeaves I.Input E.Error.Error E.State.Inspector E.Context.is_default A.Actions ⟦<Grammar<'r, A> as Parser<'src, I, A::Value, E>>⟧ grammar.now tokens }
{}
