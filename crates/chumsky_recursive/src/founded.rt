//! Grammars whose rules alone never refuse a run.
ghost use Rattle.std.specs.Prelude.{◌≡◌, ◌+◌, ◌*◌, length, IfOk, IfErr, ◌<◌, ◌≤◌, ◌^◌, true, false};
ghost use Rattle.chumsky_input.specs.Run.{Runs, with_value, without_value};
ghost use Rattle.chumsky_rules.specs.Founded.{IsOrder};
ghost use Rattle.chumsky_recursive.specs.Moving.{answers_of};
ghost use Rattle.chumsky_recursive.specs.Refused.{HaltsOnlyAsLeaves, FailsAsLeaves};
ghost use Rattle.chumsky_recursive.specs.Unfounded.{AreFounded, RefusesOrder, RefusesFounded};
ghost use Rattle.chumsky_recursive.specs.declared.founded.FoundedError.TheVariants as founded_error;

use crate::actions::Actions;
use crate::grammar::{Grammar, close};
use crate::laws::founded_grammars_are_refused_as_leaves;
use chumsky_input::extra::ParserExtra;
use chumsky_input::input::Input;
use chumsky_input::input_ref::InputRef;
use chumsky_input::stop::PResult;
use chumsky_parser::parser::Parser;
use chumsky_rules::errors::CloseError;
use chumsky_rules::founded::WellFounded;
use chumsky_rules::kinds::{Node, Recursive};
use chumsky_rules::rules::Rules;
use std::alloc::AllocError;

/// Why rules make no grammar that has a limit of its own: the first reason in this order.
#[derive(Clone, Copy, Debug, PartialEq, Eq)]
pub enum FoundedError {
    /// The rules can't run.
    Close(CloseError),
    /// A request for memory was refused.
    Memory,
    /// The least node that is used and is a list without a cap, of which a round may be empty.
    EmptyRound(Node),
    /// The least rule that may come to itself without moving.
    LeftCycle(Recursive),
    /// The limit for so many tokens is more than a `usize`.
    LimitTooLarge,
}

impl From<CloseError> for FoundedError {
    ghost from_gives = { λ e f. f ≡ founded_error.Close e };

    #[inline]
    fn from(error: CloseError) -> FoundedError {
        FoundedError::Close(error)
    }
}

impl From<AllocError> for FoundedError {
    ghost from_gives = { λ _ f. f ≡ founded_error.Memory };

    #[inline]
    fn from(_error: AllocError) -> FoundedError {
        FoundedError::Memory
    }
}

/// Makes a grammar of rules that are closed over the leaves of its actions and are well-founded, with the limit for inputs of
/// so many tokens: `close_founded(&rules, start, &actions, text.len())` makes one for a text. It asks for memory, and a refusal
/// changes nothing.
///
/// On each input of no more tokens, where no leaf is refused for anything but memory, no run is.
pub fn close_founded<'r, 'src, I: Input<'src>, E: ParserExtra<I>, A: Actions<'src, I, E>>(
    rules: &'r Rules,
    start: Recursive,
    actions: &'r A,
    tokens: usize,
) -> Result<Grammar<'r, A>, FoundedError>
    ensures rules { IfOk result (λ p. (p.rules.rules.now ≡ rules.now) × (p.rules.start ≡ start)) }
    ensures given { IfOk result (λ p. (p.actions.now ≡ actions.now) × (p.limit ≡ length rules.now.bodies * (tokens + 1))) }
    ensures ready { IfOk result (λ p. p.rules.leaves ≡ A.leaf_count p.actions.now) }
    ensures founded { IfOk result (λ p. AreFounded p.rules.rules.now (answers_of (A.leaf_may_be_empty p.actions.now) (A.leaf_count p.actions.now))) }
    ensures stands { IfOk result (λ p. HaltsOnlyAsLeaves E.Error.Error E.State.Inspector A.Actions p tokens (⟦<Grammar<'r, A> as Parser<'src, I, A::Value, E>>⟧.meaning p)) }
    ensures refused { IfErr result (RefusesFounded rules.now (answers_of (A.leaf_may_be_empty actions.now) (A.leaf_count actions.now)) start (A.leaf_count actions.now) tokens) }
{
    let mut grammar = match close::<I, E, A>(rules, start, actions, 0) {
        Ok(grammar) => grammar,
        Err(error) => return Err(FoundedError::Close(error)),
    };
    let order = match order_of::<I, E, A>(&grammar) {
        Ok(order) => order,
        Err(error) => return Err(error),
    };
    match limit_of(&grammar, tokens) {
        Ok(limit) => {
            grammar.limit = limit;
            founded_grammars_are_refused_as_leaves::<I, E, A>(&grammar, &order, tokens);
            Ok(grammar)
        }
        Err(error) => Err(error),
    }
}

/// The limit of these rules for so many tokens, if a `usize` holds it. There is a rule, the start, so it holds the tokens.
fn limit_of<'r, A>(grammar: &Grammar<'r, A>, tokens: usize) -> Result<usize, FoundedError>
    ensures limit { IfOk result (λ limit. limit ≡ length grammar.now.rules.rules.now.bodies * (tokens + 1)) }
    ensures few { IfOk result (λ _. tokens + 1 < 2 ^ 64) }
    ensures refused { IfErr result (λ e. (e ≡ FoundedError.LimitTooLarge) × (2 ^ 64 ≤ length grammar.now.rules.rules.now.bodies * (tokens + 1))) }
{
    match grammar.limit_for(tokens) {
        Some(limit) => Ok(limit),
        None => Err(FoundedError::LimitTooLarge),
    }
}

/// The rules in order, if they are well-founded.
fn order_of<'r, 'src, I: Input<'src>, E: ParserExtra<I>, A: Actions<'src, I, E>>(
    grammar: &Grammar<'r, A>,
) -> Result<Vec<Recursive>, FoundedError>
    requires ready { grammar.now.rules.leaves ≡ A.leaf_count grammar.now.actions.now }
    ensures founded { IfOk result (λ _. AreFounded grammar.now.rules.rules.now (answers_of (A.leaf_may_be_empty grammar.now.actions.now) (A.leaf_count grammar.now.actions.now))) }
    ensures order { IfOk result (λ v. IsOrder grammar.now.rules.rules.now (answers_of (A.leaf_may_be_empty grammar.now.actions.now) (A.leaf_count grammar.now.actions.now)) v.items) }
    ensures refused { IfErr result (RefusesOrder grammar.now.rules.rules.now (answers_of (A.leaf_may_be_empty grammar.now.actions.now) (A.leaf_count grammar.now.actions.now))) }
{
    match grammar.well_founded::<I, E>()? {
        WellFounded::EmptyRound(node) => Err(FoundedError::EmptyRound(node)),
        WellFounded::LeftCycle(rule) => Err(FoundedError::LeftCycle(rule)),
        WellFounded::Order(order) => Ok(order),
    }
}

/// Runs a grammar that `close_founded` made, for its output: on no more than so many tokens, it is refused for memory alone, or as
/// a leaf of its rules is on these tokens.
pub fn emit_founded<'r, 'src, I: Input<'src>, E: ParserExtra<I>, A: Actions<'src, I, E>>(
    grammar: &Grammar<'r, A>,
    tokens: usize,
    inp: &mut InputRef<'src, '_, I, E>,
) -> PResult<A::Value>
    requires ready { ⟦<Grammar<'r, A> as Parser<'src, I, A::Value, E>>⟧.ready grammar.now }
    requires stands { HaltsOnlyAsLeaves E.Error.Error E.State.Inspector A.Actions grammar.now tokens (⟦<Grammar<'r, A> as Parser<'src, I, A::Value, E>>⟧.meaning grammar.now) }
    requires few { length (I.cursor_tokens inp.old.cursor).list ≤ tokens }
    ensures ran { Runs I.Input E.Error.Error E.State.Inspector (⟦<Grammar<'r, A> as Parser<'src, I, A::Value, E>>⟧.meaning grammar.now E.Error.Error E.State.Inspector) true inp.old inp.new (with_value result) }
    ensures refused { IfErr result (FailsAsLeaves (λ n. A.leaf_meaning grammar.now.actions.now n E.Error.Error E.State.Inspector) grammar.now.rules.rules.now (I.cursor_tokens inp.old.cursor)) }
    ensures lent { inp.new.state.ghost_name ≡ inp.old.state.ghost_name }
{
    grammar.go_emit(inp)
}

/// Runs a grammar that `close_founded` made, without its output: on no more than so many tokens, it is refused for memory alone,
/// or as a leaf of its rules is on these tokens.
pub fn check_founded<'r, 'src, I: Input<'src>, E: ParserExtra<I>, A: Actions<'src, I, E>>(
    grammar: &Grammar<'r, A>,
    tokens: usize,
    inp: &mut InputRef<'src, '_, I, E>,
) -> PResult<()>
    requires ready { ⟦<Grammar<'r, A> as Parser<'src, I, A::Value, E>>⟧.ready grammar.now }
    requires stands { HaltsOnlyAsLeaves E.Error.Error E.State.Inspector A.Actions grammar.now tokens (⟦<Grammar<'r, A> as Parser<'src, I, A::Value, E>>⟧.meaning grammar.now) }
    requires few { length (I.cursor_tokens inp.old.cursor).list ≤ tokens }
    ensures ran { Runs I.Input E.Error.Error E.State.Inspector (⟦<Grammar<'r, A> as Parser<'src, I, A::Value, E>>⟧.meaning grammar.now E.Error.Error E.State.Inspector) false inp.old inp.new (without_value result) }
    ensures refused { IfErr result (FailsAsLeaves (λ n. A.leaf_meaning grammar.now.actions.now n E.Error.Error E.State.Inspector) grammar.now.rules.rules.now (I.cursor_tokens inp.old.cursor)) }
    ensures lent { inp.new.state.ghost_name ≡ inp.old.state.ghost_name }
{
    grammar.go_check(inp)
}
