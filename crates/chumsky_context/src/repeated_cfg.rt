//! `RepeatedCfg`: `repeated` as many times as the context says.
ghost use Rattle.std.specs.Prelude.{◌≡◌, Some, None};
ghost use Rattle.chumsky_context.specs.Configured.{set_or, or_set};

use crate::config::Configurable;
use crate::config_iter::{ConfigIterParser, IsConfigIterParser};
use chumsky_input::extra::ParserExtra;
use chumsky_input::input::Input;
use chumsky_input::input_ref::InputRef;
use chumsky_input::stop::PResult;
use chumsky_items::repeated::Repeated;
use chumsky_parser::iter::{IterParser, IterParserDebug};
use chumsky_parser::parser::Parser;
use std::marker::PhantomData;

/// What `repeated` is configured by: the fewest and the most items, each where it is set.
#[derive(Default, Drop)]
pub struct RepeatedCfg {
    pub at_least: Option<usize>,
    pub at_most: Option<usize>,
}

impl RepeatedCfg {
    /// Sets the fewest items, in place of the parser's own: `any().repeated().configure(|c, n| c.at_least(*n))`.
    #[inline]
    pub fn at_least(self, at_least: usize) -> RepeatedCfg
        ensures { result ≡ record self { at_least = Some at_least } }
    {
        RepeatedCfg {
            at_least: Some(at_least),
            at_most: self.at_most,
        }
    }

    /// Sets the most items, in place of the parser's own.
    #[inline]
    pub fn at_most(self, at_most: usize) -> RepeatedCfg
        ensures { result ≡ record self { at_most = Some at_most } }
    {
        RepeatedCfg {
            at_least: self.at_least,
            at_most: Some(at_most),
        }
    }

    /// Sets the fewest and the most items to one number: `any().repeated().configure(|c, n| c.exactly(*n))`.
    #[inline]
    pub fn exactly(self, exactly: usize) -> RepeatedCfg
        ensures { result ≡ record { at_least = Some exactly; at_most = Some exactly } }
    {
        RepeatedCfg {
            at_least: Some(exactly),
            at_most: Some(exactly),
        }
    }
}

impl<A, O, I, E> Configurable for Repeated<A, O, I, E> {
    type Config = RepeatedCfg;
}

impl<I, O, E, A> IsConfigIterParser<I, O, E> for Repeated<A, O, I, E> {}

impl<'src, I: Input<'src>, O: Drop, E: ParserExtra<I>, A: Parser<'src, I, O, E>> ConfigIterParser<
    'src,
    I,
    O,
    E,
> for Repeated<A, O, I, E> {
    ghost use Rattle.chumsky_items.specs.Repeating.{Repeats};
    ghost use Rattle.chumsky_items.specs.RepeatingLaws.{repeats-end, repeats-agree};

    ghost gives_cfg = { λ p d c k errors states. Repeats states.mark states.back states.takes_no_memory (A.meaning p.parser errors states) d.nonconsumption_is_ok (set_or c.at_least p.at_least) (or_set c.at_most p.at_most) k };

    ghost ends_after_start_cfg = { λ p d c s. (repeats-end _ _ _ _ d.nonconsumption_is_ok (set_or c.at_least p.at_least) (or_set c.at_most p.at_most) (A.ends_after_start p.parser)).step s };

    ghost agrees_cfg = { λ p s d c i j e. (repeats-agree _ _ _ _ d.nonconsumption_is_ok (set_or c.at_least p.at_least) (or_set c.at_most p.at_most) (A.same p.parser) (A.agrees p.parser s)).step i j e };

    fn next_emit_cfg(
        &self,
        inp: &mut InputRef<'src, '_, I, E>,
        state: &mut usize,
        cfg: &RepeatedCfg,
        debug: IterParserDebug,
    ) -> PResult<Option<O>> {
        let list: Repeated<&A, O, I, E> = by_settings(self, cfg);
        list.next_emit(inp, state, debug)
    }

    fn next_check_cfg(
        &self,
        inp: &mut InputRef<'src, '_, I, E>,
        state: &mut usize,
        cfg: &RepeatedCfg,
        debug: IterParserDebug,
    ) -> PResult<Option<()>> {
        let list: Repeated<&A, O, I, E> = by_settings(self, cfg);
        list.next_check(inp, state, debug)
    }
}

/// Makes the list that has the settings of a configuration, and elsewhere those of `list`.
#[inline]
fn by_settings<'a, A, O, I, E>(
    list: &'a Repeated<A, O, I, E>,
    cfg: &RepeatedCfg,
) -> Repeated<&'a A, O, I, E>
    ensures parser { result.parser.now ≡ list.now.parser }
    ensures least { result.at_least ≡ set_or cfg.now.at_least list.now.at_least }
    ensures most { result.at_most ≡ or_set cfg.now.at_most list.now.at_most }
{
    Repeated {
        parser: &list.parser,
        at_least: cfg.at_least.unwrap_or(list.at_least),
        at_most: cfg.at_most.or(list.at_most),
        of: PhantomData,
    }
}
