//! Rules closed by calls of their own.
ghost use Rattle.std.specs.Prelude.{◌≡◌, ◌+◌, ◌*◌, length, IfOk, IfErr};
ghost use Rattle.chumsky_rules.specs.Closed.{RefusesToClose};
ghost use Rattle.chumsky_recursive.specs.Moving.{answers_of};
ghost use Rattle.chumsky_recursive.specs.Refused.{HaltsOnlyAsLeaves};
ghost use Rattle.chumsky_recursive.specs.Unfounded.{AreFounded, RefusesFounded};

use crate::actions::Actions;
use crate::founded::FoundedError;
use crate::grammar::Grammar;
use chumsky_input::extra::ParserExtra;
use chumsky_input::input::Input;
use chumsky_parser::parser::Parser;
use chumsky_rules::errors::CloseError;
use chumsky_rules::kinds::Recursive;
use chumsky_rules::rules::Rules;

/// Closing rules over the leaves of actions: `close` and `close_founded` as calls of rules.
pub trait CloseRules<'src, I: Input<'src>, E: ParserExtra<I>, A: Actions<'src, I, E>> {
    ghost use Rattle.chumsky_rules.specs.Tables.{Tables};

    /// The rules.
    ghost tables: { Self → Tables };

    /// Makes a grammar of closed rules with a limit of the caller's, as the function `close`: `rules.close(start, &actions, 100)`.
    fn close<'r>(
        &'r self,
        start: Recursive,
        actions: &'r A,
        limit: usize,
    ) -> Result<Grammar<'r, A>, CloseError>
        ensures rules { IfOk result (λ p. (p.rules.rules.now ≡ tables self.now) × (p.rules.start ≡ start)) }
        ensures given { IfOk result (λ p. (p.actions.now ≡ actions.now) × (p.limit ≡ limit)) }
        ensures ready { IfOk result (λ p. p.rules.leaves ≡ A.leaf_count p.actions.now) }
        ensures refused { IfErr result (RefusesToClose (tables self.now) start (A.leaf_count actions.now)) };

    /// Makes a grammar of well-founded rules with the limit for so many tokens, as the function `close_founded`:
    /// `rules.close_founded(start, &actions, text.len())`.
    fn close_founded<'r>(
        &'r self,
        start: Recursive,
        actions: &'r A,
        tokens: usize,
    ) -> Result<Grammar<'r, A>, FoundedError>
        ensures rules { IfOk result (λ p. (p.rules.rules.now ≡ tables self.now) × (p.rules.start ≡ start)) }
        ensures given { IfOk result (λ p. (p.actions.now ≡ actions.now) × (p.limit ≡ length (tables self.now).bodies * (tokens + 1))) }
        ensures ready { IfOk result (λ p. p.rules.leaves ≡ A.leaf_count p.actions.now) }
        ensures founded { IfOk result (λ p. AreFounded p.rules.rules.now (answers_of (A.leaf_may_be_empty p.actions.now) (A.leaf_count p.actions.now))) }
        ensures stands { IfOk result (λ p. HaltsOnlyAsLeaves E.Error.Error E.State.Inspector A.Actions p tokens (⟦<Grammar<'r, A> as Parser<'src, I, A::Value, E>>⟧.meaning p)) }
        ensures refused { IfErr result (RefusesFounded (tables self.now) (answers_of (A.leaf_may_be_empty actions.now) (A.leaf_count actions.now)) start (A.leaf_count actions.now) tokens) };
}

impl<'src, I: Input<'src>, E: ParserExtra<I>, A: Actions<'src, I, E>> CloseRules<'src, I, E, A>
    for Rules {
    ghost tables = { λ g. g };

    #[inline]
    fn close<'r>(
        &'r self,
        start: Recursive,
        actions: &'r A,
        limit: usize,
    ) -> Result<Grammar<'r, A>, CloseError> {
        crate::grammar::close::<I, E, A>(self, start, actions, limit)
    }

    #[inline]
    fn close_founded<'r>(
        &'r self,
        start: Recursive,
        actions: &'r A,
        tokens: usize,
    ) -> Result<Grammar<'r, A>, FoundedError> {
        crate::founded::close_founded::<I, E, A>(self, start, actions, tokens)
    }
}
