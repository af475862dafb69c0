//! `TryIterConfigure`: items that are configured by the context, or refused.
ghost use Rattle.std.specs.Prelude.{◌≡◌, false};
ghost use Rattle.chumsky_context.specs.TriedItems.{TrySets, OneRuling};

use crate::config::Configurable;
use crate::config_iter::{ConfigIterParser, IsConfigIterParser};
use crate::configurer::TryConfigurer;
use chumsky_input::extra::ParserExtra;
use chumsky_input::input::{Input, Tokens};
use chumsky_input::input_ref::InputRef;
use chumsky_input::stop::PResult;
use chumsky_items::pass::pass_all;
use chumsky_parser::iter::{IsIterParser, IterParser, IterParserDebug, Iterates};
use chumsky_parser::moving::{Moving, MovingItems};
use chumsky_parser::parser::{IsParser, Parser};
use std::marker::PhantomData;

/// A parser of items that is configured by the context, once for each iteration, or refused with an error, which is then a
/// failure here. Where it stands as a parser of `()`, it passes over its items. See `try_configure`.
#[derive(Drop)]
#[derive_where(Clone, Copy; A, F)]
pub struct TryIterConfigure<A, F, O> {
    pub parser: A,
    pub configurer: F,
    pub of: PhantomData<O>,
}

impl<I, O, E, A: IsConfigIterParser<I, O, E>, F> IsIterParser<I, O, E>
    for TryIterConfigure<A, F, O> {}

impl<A: Iterates + Configurable, F, O> Iterates for TryIterConfigure<A, F, O> {
    /// The iteration of the items, and the configuration.
    type IterState = (A::IterState, A::Config);
}

impl<'src, I, O, E, A, F> IterParser<'src, I, O, E> for TryIterConfigure<A, F, O>
where
    I: Input<'src>,
    E: ParserExtra<I>,
    A: ConfigIterParser<'src, I, O, E>,
    F: TryConfigurer<A::Config, E::Context, I::Span, E::Error>,
{
    ghost use Rattle.chumsky_parser.specs.ItemsLanguage.{of_unsaid_items};
    ghost use Rattle.chumsky_context.specs.ConfiguredItems.{GivesBeside, AlikeBeside};
    ghost use Rattle.chumsky_context.specs.TriedItems.{TrySets, OneRuling, BeginsTried};
    ghost use Rattle.chumsky_context.specs.TriedItemsLaws.{tried-end, tried-agree};

    ghost ready = { λ p. A.ready p.parser × F.callable p.configurer };

    ghost may_step = { λ p s. A.may_step p.parser s.0 };

    ghost begins = { λ p errors states. BeginsTried I.Input errors (TrySets A.Config.is_default (F.gives p.configurer)) (A.begins p.parser errors states) };

    ghost gives = { λ p d s errors states. GivesBeside (λ c t. A.gives_cfg p.parser d c t errors states) s };

    ghost steady = { λ p. A.steady p.parser × OneRuling E.Error.seen (TrySets A.Config.is_default (F.gives p.configurer)) };

    ghost same = { λ p. A.same p.parser };

    ghost alike = { λ p. AlikeBeside (A.alike p.parser) };

    ghost ends_after_start = { λ p d. tried-end _ _ _ _ _ (A.IterParser.ends_after_start p.parser d).begin (A.ends_after_start_cfg p.parser d) };

    ghost agrees = { λ p s d. tried-agree _ _ _ _ _ s.1 (A.same p.parser) (A.alike p.parser) (A.IterParser.agrees p.parser s.0 d).begin (A.agrees_cfg p.parser s.0 d) };

    ghost accepts = { λ _ _. of_unsaid_items };

    fn make_iter(&self, inp: &mut InputRef<'src, '_, I, E>) -> PResult<(A::IterState, A::Config)> {
        let here = inp.cursor();
        let span = I::span(&here, &here);
        match self
            .configurer
            .try_configured(Default::default(), inp.ctx(), span)
        {
            Ok(config) => {
                let items = self.parser.make_iter(inp)?;
                Ok((items, config))
            }
            Err(error) => Err(inp.add_event(I::place(&here), error)),
        }
    }

    #[inline(always)]
    fn next_emit(
        &self,
        inp: &mut InputRef<'src, '_, I, E>,
        state: &mut (A::IterState, A::Config),
        debug: IterParserDebug,
    ) -> PResult<Option<O>> {
        self.parser
            .next_emit_cfg(inp, &mut state.0, &state.1, debug)
    }

    #[inline(always)]
    fn next_check(
        &self,
        inp: &mut InputRef<'src, '_, I, E>,
        state: &mut (A::IterState, A::Config),
        debug: IterParserDebug,
    ) -> PResult<Option<()>> {
        self.parser
            .next_check_cfg(inp, &mut state.0, &state.1, debug)
    }
}

impl<I, O, E, A: IsConfigIterParser<I, O, E>, F> IsParser<I, (), E> for TryIterConfigure<A, F, O> {}

impl<'src, I, O, E, A, F> Parser<'src, I, (), E> for TryIterConfigure<A, F, O>
where
    I: Input<'src>,
    O: Drop,
    E: ParserExtra<I>,
    A: ConfigIterParser<'src, I, O, E>,
    F: TryConfigurer<A::Config, E::Context, I::Span, E::Error>,
{
    ghost use Rattle.chumsky_parser.specs.Language.{of_unsaid};
    ghost use Rattle.std.specs.Prelude.{false};
    ghost use Rattle.chumsky_parser.specs.FailureLaws.{SameUnit};
    ghost use Rattle.chumsky_parser.specs.Ignoring.{Gives, IgnoringFirst};
    ghost use Rattle.chumsky_parser.specs.IgnoringLaws.{gives-ends, gives-agrees, ignoring_first-ends, ignoring_first-agrees};
    ghost use Rattle.chumsky_items.specs.Consumers.{Passes};
    ghost use Rattle.chumsky_items.specs.ConsumersLaws.{passes-ends, passes-agree};
    ghost use Rattle.chumsky_context.specs.ConfiguredItems.{GivesBeside, AlikeBeside};
    ghost use Rattle.chumsky_context.specs.TriedItems.{TrySets, OneRuling, BeginsTried};
    ghost use Rattle.chumsky_context.specs.TriedItemsLaws.{tried-end, tried-agree};

    ghost ready = { λ p. A.ready p.parser × F.callable p.configurer };

    ghost meaning = { λ p errors states. IgnoringFirst (Passes (GivesBeside (λ c t. A.gives_cfg p.parser (record { nonconsumption_is_ok = false }) c t errors states)) (BeginsTried I.Input errors (TrySets A.Config.is_default (F.gives p.configurer)) (A.begins p.parser errors states)) (Unit {0})) (Gives tt) };

    ghost steady = { λ p. A.steady p.parser × OneRuling E.Error.seen (TrySets A.Config.is_default (F.gives p.configurer)) };

    ghost same = { λ _. SameUnit };

    ghost ends_after_start = { λ p. ignoring_first-ends _ _ (passes-ends _ _ (Unit {0}) (tried-end _ _ _ _ _ (A.IterParser.ends_after_start p.parser (record { nonconsumption_is_ok = false })).begin (A.ends_after_start_cfg p.parser (record { nonconsumption_is_ok = false })))) (gives-ends tt) };

    ghost agrees = { λ p s. ignoring_first-agrees _ _ SameUnit SameUnit (passes-agree _ _ (A.same p.parser) (AlikeBeside (A.alike p.parser)) SameUnit (tried-agree _ _ _ _ _ s.1 (A.same p.parser) (A.alike p.parser) (A.IterParser.agrees p.parser s.0 (record { nonconsumption_is_ok = false })).begin (A.agrees_cfg p.parser s.0 (record { nonconsumption_is_ok = false })))) (gives-agrees tt SameUnit tt) };

    ghost accepts = { λ _. of_unsaid };

    #[inline(always)]
    fn go_emit(&self, inp: &mut InputRef<'src, '_, I, E>) -> PResult<()> {
        pass_all::<(), I, O, E, TryIterConfigure<A, F, O>>(self, inp)
    }

    #[inline(always)]
    fn go_check(&self, inp: &mut InputRef<'src, '_, I, E>) -> PResult<()> {
        pass_all::<(), I, O, E, TryIterConfigure<A, F, O>>(self, inp)
    }
}

impl<'src, I, O, E, A, F> MovingItems<'src, I, O, E> for TryIterConfigure<A, F, O>
where
    I: Input<'src>,
    E: ParserExtra<I>,
    A: ConfigIterParser<'src, I, O, E>,
    F: TryConfigurer<A::Config, E::Context, I::Span, E::Error>,
{
    ghost use Rattle.chumsky_parser.specs.ProgressLaws.{never};

    ghost first_moved = { λ _. never };

    fn first_always_moves(&self) -> bool
        ensures { result ≡ false }
    {
        false
    }
}

impl<'src, I, O, E, A, F> Moving<'src, I, (), E> for TryIterConfigure<A, F, O>
where
    I: Input<'src>,
    O: Drop,
    E: ParserExtra<I>,
    A: ConfigIterParser<'src, I, O, E>,
    F: TryConfigurer<A::Config, E::Context, I::Span, E::Error>,
{
    ghost use Rattle.chumsky_parser.specs.ProgressLaws.{never};

    ghost moved = { λ _. never };

    fn always_moves(&self) -> bool
        ensures { result ≡ false }
    {
        false
    }
}

/// `try_configure` is steady where its items are, and the configurer answers one context with one configuration, or with errors
/// that count as one. Items that are the same are so to the part.
pub fn try_configure_is_steady<'src, I, O, E, A, F>(items: &TryIterConfigure<A, F, O>)
where
    I: Input<'src>,
    E: ParserExtra<I>,
    A: ConfigIterParser<'src, I, O, E>,
    F: TryConfigurer<A::Config, E::Context, I::Span, E::Error>,
    ensures ready { A.ready items.now.parser → F.callable items.now.configurer → ⟦<TryIterConfigure<A, F, O> as IterParser<'src, I, O, E>>⟧.ready items.now }
    ensures steady { A.steady items.now.parser → OneRuling E.Error.seen (TrySets A.Config.is_default (F.gives items.now.configurer)) → ⟦<TryIterConfigure<A, F, O> as IterParser<'src, I, O, E>>⟧.steady items.now }
    ensures same { (x y : O) → ⟦<TryIterConfigure<A, F, O> as IterParser<'src, I, O, E>>⟧.same items.now x y → A.same items.now.parser x y }
{}

/// A list under `try_configure` that stands as a parser of `()` is steady where its items are, and the configurer answers one
/// context with one configuration, or with errors that count as one.
pub fn tried_list_is_steady<'src, I, O, E, A, F>(list: &TryIterConfigure<A, F, O>)
where
    I: Input<'src>,
    O: Drop,
    E: ParserExtra<I>,
    A: ConfigIterParser<'src, I, O, E>,
    F: TryConfigurer<A::Config, E::Context, I::Span, E::Error>,
    ensures ready { A.ready list.now.parser → F.callable list.now.configurer → ⟦<TryIterConfigure<A, F, O> as Parser<'src, I, (), E>>⟧.ready list.now }
    ensures steady { A.steady list.now.parser → OneRuling E.Error.seen (TrySets A.Config.is_default (F.gives list.now.configurer)) → ⟦<TryIterConfigure<A, F, O> as Parser<'src, I, (), E>>⟧.steady list.now }
{}
