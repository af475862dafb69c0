//! A grammar by rules that has a language.
ghost use Rattle.std.specs.Prelude.{◌≡◌, ℕ, List, Option, None, false};

use chumsky::IsParser;
use chumsky::recursive::{Actions, Grammar, Leaves, Moving, Values};
use chumsky_input::extra::ParserExtra;
use chumsky_input::input::Input;
use chumsky_input::input_ref::InputRef;
use chumsky_input::stop::PResult;
use chumsky_parser::parser::Parser;

/// What is known of the mappers of `try_map`, which may refuse, of a grammar over tokens `T` with values `V`; see `exact_by`.
pub trait Judge<T, V> {
    /// What the mapper of a number makes of the word that its part took: a value, or nothing where it refuses. Where `None`, nothing
    /// is known of these mappers.
    ghost picks: { Self → Option (ℕ → List T → Option V) };
}

/// Nothing is known of the mappers that may refuse.
#[derive(Clone, Copy, Drop)]
pub struct Unjudged;

impl<T, V> Judge<T, V> for Unjudged {
    ghost picks = { λ _. None };
}

/// A grammar with the language of its start rule. It is a parser where its leaves stand in a list, and does what the grammar does;
/// and `parse` and `check` say of a text what the language says. See `exact` and `exact_by`.
#[derive(Drop)]
#[derive_where(Clone, Copy; G, J)]
pub struct ExactGrammar<G, J> {
    pub grammar: G,
    pub judge: J,
}

/// The grammar, with its language: `exact(grammar).parse(alloc, input)`. Nothing is said of rules with `try_map`.
#[inline]
pub fn exact<G>(grammar: G) -> ExactGrammar<G, Unjudged>
    ensures { result.grammar ≡ grammar }
{
    exact_by(grammar, Unjudged)
}

/// The grammar, with its language, where `try_map` decides by the word that its part took: a node `try_map` has the words of which
/// its mapper makes a value, as the judge says. That it does so has to be shown where the parser is run.
#[inline]
pub fn exact_by<G, J>(grammar: G, judge: J) -> ExactGrammar<G, J>
    ensures grammar { result.grammar ≡ grammar }
    ensures judge { result.judge ≡ judge }
{
    ExactGrammar { grammar, judge }
}

impl<
    'src,
    'r,
    'a,
    I: Input<'src>,
    E: ParserExtra<I>,
    W: Values<I::Span, E::Error>,
    P: Moving<'src, I, W::Value, E>,
    J: Judge<I::Token, W::Value>,
> IsParser<I, W::Value, E> for ExactGrammar<Grammar<'r, Leaves<'a, P, W>>, J> {}

impl<
    'src,
    'r,
    'a,
    I: Input<'src>,
    E: ParserExtra<I>,
    W: Values<I::Span, E::Error>,
    P: Moving<'src, I, W::Value, E>,
    J: Judge<I::Token, W::Value>,
> Parser<'src, I, W::Value, E> for ExactGrammar<Grammar<'r, Leaves<'a, P, W>>, J> {
    ghost use Rattle.std.specs.Prelude.{map, slice_get};
    ghost use Rattle.chumsky_recursive.specs.Means.{acts_of, call_means};
    ghost use Rattle.chumsky_recursive.specs.MeansLaws.{call-ends, call-agrees, by_try-alike};
    ghost use Rattle.chumsky_recursive.specs.InPlaceLaws.{in_place-ends, in_place-agrees};
    ghost use Rattle.chumsky_recursive.specs.LeavesLaws.{listed_leaf-ends};
    ghost use Rattle.chumsky_grammars.specs.Assured.{Assured, assured-ends, assured-agrees, decided-accepts};
    ghost use Rattle.chumsky_grammars.specs.Compiled.{expressions_of};
    ghost use Rattle.chumsky_grammars.specs.DecidingLaws.{by_try-decides};
    ghost use Rattle.chumsky_grammars.specs.Leaves.{leaves_of, leaves-accept};
    ghost use Rattle.chumsky_grammars.specs.RuleLanguage.{rule_language};
    ghost use Rattle.chumsky_grammars.specs.ValueMakes.{makes_by, MapsDecide};

    ghost ready = { λ p. ⟦<Grammar<'r, Leaves<'a, P, W>> as Parser<'src, I, W::Value, E>>⟧.ready p.grammar × MapsDecide W.Values p.grammar.actions.now.values (J.picks p.judge) (leaves_of (map P.language p.grammar.actions.now.leaves.now)) (expressions_of p.grammar.rules.rules.now) };

    ghost meaning = { λ p errors states. Assured (MapsDecide W.Values p.grammar.actions.now.values (J.picks p.judge) (leaves_of (map P.language p.grammar.actions.now.leaves.now)) (expressions_of p.grammar.rules.rules.now)) (call_means I.Input errors states (acts_of ⟦<Leaves<'a, P, W> as Actions<'src, I, E>>⟧ p.grammar.actions.now I.Input errors states) p.grammar.rules.rules.now p.grammar.limit p.grammar.rules.start) };

    ghost steady = { λ p. ⟦<Leaves<'a, P, W> as Actions<'src, I, E>>⟧.steady p.grammar.actions.now };

    ghost same = { λ p. W.same p.grammar.actions.now.values };

    ghost language = { λ p. rule_language (makes_by W.Values p.grammar.actions.now.values (J.picks p.judge)) (leaves_of (map P.language p.grammar.actions.now.leaves.now)) (expressions_of p.grammar.rules.rules.now) p.grammar.limit p.grammar.rules.start };

    ghost ends_after_start = { λ p. assured-ends _ _ (call-ends _ _ _ _ (record { leaf = λ n. in_place-ends _ (listed_leaf-ends _ P.ends_after_start (slice_get p.grammar.actions.now.leaves.now n)) }) p.grammar.rules.rules.now p.grammar.limit p.grammar.rules.start) };

    ghost agrees = { λ p s. assured-agrees _ _ (W.same p.grammar.actions.now.values) (call-agrees _ _ _ _ (W.same p.grammar.actions.now.values) (record { leaf = λ n. in_place-agrees _ (W.same p.grammar.actions.now.values) (s.answers n); pairs = s.makes.paired; options = s.makes.chosen; units = λ u v x y e. s.makes.made x y; maps = s.makes.mapped; lists = s.makes.listed; tries = λ f. by_try-alike _ _ (W.same p.grammar.actions.now.values) (W.try_gives p.grammar.actions.now.values f) (s.makes.tried f) }) p.grammar.rules.rules.now p.grammar.limit p.grammar.rules.start) };

    ghost accepts = { λ p. decided-accepts _ _ _ _ (J.picks p.judge) (leaves_of (map P.language p.grammar.actions.now.leaves.now)) (record { leaf = λ n. in_place-ends _ (listed_leaf-ends _ P.ends_after_start (slice_get p.grammar.actions.now.leaves.now n)) }) (leaves-accept _ P.language P.accepts p.grammar.actions.now.leaves.now) (W.try_gives p.grammar.actions.now.values) (λ f q s. by_try-decides _ _ q s (W.try_gives p.grammar.actions.now.values f)) p.grammar.rules.rules.now p.grammar.limit p.grammar.rules.start };

    #[inline(always)]
    fn go_emit(&self, inp: &mut InputRef<'src, '_, I, E>) -> PResult<W::Value> {
        self.grammar.go_emit(inp)
    }

    #[inline(always)]
    fn go_check(&self, inp: &mut InputRef<'src, '_, I, E>) -> PResult<()> {
        self.grammar.go_check(inp)
    }
}

/// It may be a leaf of another grammar, which takes it for a leaf that may succeed where it begins.
impl<
    'src,
    'r,
    'a,
    I: Input<'src>,
    E: ParserExtra<I>,
    W: Values<I::Span, E::Error>,
    P: Moving<'src, I, W::Value, E>,
    J: Judge<I::Token, W::Value>,
> Moving<'src, I, W::Value, E> for ExactGrammar<Grammar<'r, Leaves<'a, P, W>>, J> {
    ghost use Rattle.chumsky_parser.specs.ProgressLaws.{never};

    ghost moved = { λ _. never };

    fn always_moves(&self) -> bool
        ensures { result ≡ false }
    {
        false
    }
}
