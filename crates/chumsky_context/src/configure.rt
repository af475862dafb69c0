//! `Configure`: a parser that is configured by the context.
ghost use Rattle.std.specs.Prelude.{◌≡◌, false};
ghost use Rattle.chumsky_context.specs.Configured.{Sets, IsDeterministic, SameByConfig};

use crate::config::{ConfigParser, IsConfigParser};
use crate::configurer::Configurer;
use chumsky_input::extra::ParserExtra;
use chumsky_input::input::Input;
use chumsky_input::input_ref::InputRef;
use chumsky_input::stop::PResult;
use chumsky_parser::moving::Moving;
use chumsky_parser::parser::{IsParser, Parser};

/// A parser that is configured by the context at each run, on both paths. See `configure`.
#[derive(Clone, Copy, Drop)]
pub struct Configure<A, F> {
    pub parser: A,
    pub configurer: F,
}

impl<I, O, E, A: IsConfigParser<I, O, E>, F> IsParser<I, O, E> for Configure<A, F> {}

impl<'src, I, O, E, A, F> Parser<'src, I, O, E> for Configure<A, F>
where
    I: Input<'src>,
    E: ParserExtra<I>,
    A: ConfigParser<'src, I, O, E>,
    F: Configurer<A::Config, E::Context>,
{
    ghost use Rattle.chumsky_parser.specs.Language.{of_unsaid};
    ghost use Rattle.chumsky_context.specs.Configured.{Configured, Sets, IsDeterministic, SameByConfig};
    ghost use Rattle.chumsky_context.specs.ConfiguredLaws.{configured-ends, configured-agrees};

    ghost ready = { λ p. A.ready p.parser × F.callable p.configurer };

    ghost meaning = { λ p errors states. Configured (Sets A.Config.is_default (F.gives p.configurer)) (λ c. A.meaning p.parser c errors states) };

    ghost steady = { λ p. A.steady p.parser × IsDeterministic (Sets A.Config.is_default (F.gives p.configurer)) };

    ghost same = { λ p. SameByConfig (A.same p.parser) };

    ghost ends_after_start = { λ p. configured-ends _ _ (A.ends_after_start p.parser) };

    ghost agrees = { λ p s. configured-agrees _ _ s.1 (A.same p.parser) (A.agrees p.parser s.0) };

    ghost accepts = { λ _. of_unsaid };

    #[inline(always)]
    fn go_emit(&self, inp: &mut InputRef<'src, '_, I, E>) -> PResult<O> {
        let config = self.configurer.configured(Default::default(), inp.ctx());
        self.parser.go_emit_cfg(inp, config)
    }

    #[inline(always)]
    fn go_check(&self, inp: &mut InputRef<'src, '_, I, E>) -> PResult<()> {
        let config = self.configurer.configured(Default::default(), inp.ctx());
        self.parser.go_check_cfg(inp, config)
    }
}

impl<'src, I, O, E, A, F> Moving<'src, I, O, E> for Configure<A, F>
where
    I: Input<'src>,
    E: ParserExtra<I>,
    A: ConfigParser<'src, I, O, E>,
    F: Configurer<A::Config, E::Context>,
{
    ghost use Rattle.chumsky_parser.specs.ProgressLaws.{never};

    ghost moved = { λ _. never };

    fn always_moves(&self) -> bool
        ensures { result ≡ false }
    {
        false
    }
}

/// `configure` is steady where its part is, and the configurer makes one configuration under one context. Its outputs that are
/// the same are so to the part by some configuration.
pub fn configure_is_steady<'src, I, O, E, A, F>(parser: &Configure<A, F>)
where
    I: Input<'src>,
    E: ParserExtra<I>,
    A: ConfigParser<'src, I, O, E>,
    F: Configurer<A::Config, E::Context>,
    ensures ready { A.ready parser.now.parser → F.callable parser.now.configurer → ⟦<Configure<A, F> as Parser<'src, I, O, E>>⟧.ready parser.now }
    ensures steady { A.steady parser.now.parser → IsDeterministic (Sets A.Config.is_default (F.gives parser.now.configurer)) → ⟦<Configure<A, F> as Parser<'src, I, O, E>>⟧.steady parser.now }
    ensures same { (x y : O) → ⟦<Configure<A, F> as Parser<'src, I, O, E>>⟧.same parser.now x y → SameByConfig (A.same parser.now.parser) x y }
{}
