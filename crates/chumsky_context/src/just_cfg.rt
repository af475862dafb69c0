//! `JustCfg`: `just` of a sequence that the context says.
ghost use Rattle.std.specs.Prelude.{◌≡◌, Some, None};
ghost use Rattle.chumsky_parser.specs.Copied.{BothCopies};
ghost use Rattle.chumsky_context.specs.Configured.{set_or};
ghost use Rattle.chumsky_context.specs.declared.just_cfg.JustCfg as config;

use crate::config::{ConfigParser, Configurable, IsConfigParser};
use chumsky_input::extra::ParserExtra;
use chumsky_input::input::Input;
use chumsky_input::input_ref::InputRef;
use chumsky_input::stop::PResult;
use chumsky_parser::container::{OrderedSeq, Seq};
use chumsky_parser::parser::Parser;
use chumsky_primitive::just::Just;
use std::marker::PhantomData;

/// What `just` is configured by: the sequence that it takes, where one is set.
#[derive(Drop)]
pub struct JustCfg<T> {
    pub seq: Option<T>,
}

impl<T> Default for JustCfg<T> {
    ghost is_default = { λ c. c ≡ record { seq = None } };

    #[inline]
    fn default() -> JustCfg<T> {
        JustCfg { seq: None }
    }
}

impl<T: Drop> JustCfg<T> {
    /// Sets the sequence that is taken, in place of the parser's own: `just('?').configure(|c, quote| c.seq(*quote))`.
    #[inline]
    pub fn seq(self, seq: T) -> JustCfg<T>
        ensures { result ≡ record { seq = Some seq } }
    {
        JustCfg { seq: Some(seq) }
    }
}

impl<T: Drop, I, E> Configurable for Just<T, I, E> {
    type Config = JustCfg<T>;
}

impl<T, I, E> IsConfigParser<I, T, E> for Just<T, I, E> {}

impl<'src, T, I, E> ConfigParser<'src, I, T, E> for Just<T, I, E>
where
    T: OrderedSeq<I::Token> + Clone + Drop,
    I: Input<'src>,
    I::Token: PartialEq,
    E: ParserExtra<I>,
{
    ghost use Rattle.std.specs.Prelude.{⊤};
    ghost use Rattle.chumsky_parser.specs.Copied.{BothCopies};
    ghost use Rattle.chumsky_primitive.specs.Just.{MeansJust};
    ghost use Rattle.chumsky_primitive.specs.JustLaws.{just-ends, just-agrees};
    ghost use Rattle.chumsky_context.specs.Configured.{set_or};

    ghost ready = { λ _. ⊤ };

    ghost meaning = { λ p c errors states. MeansJust I.Input I.Token.eq errors states (T.is_clone (set_or c.seq p.seq)) (T.is_infallible (set_or c.seq p.seq)) (T.members (set_or c.seq p.seq)) };

    ghost steady = { λ _. ⊤ };

    ghost same = { λ p c. BothCopies (T.is_clone (set_or c.seq p.seq)) };

    ghost ends_after_start = { λ p c. just-ends _ _ _ _ _ _ (T.members (set_or c.seq p.seq)) };

    ghost agrees = { λ p _ c. just-agrees _ _ _ _ _ _ (T.members (set_or c.seq p.seq)) };

    fn go_emit_cfg(&self, inp: &mut InputRef<'src, '_, I, E>, cfg: JustCfg<T>) -> PResult<T> {
        match cfg.seq {
            None => self.go_emit(inp),
            Some(seq) => {
                let just: Just<T, I, E> = Just {
                    seq,
                    of: PhantomData,
                };
                just.go_emit(inp)
            }
        }
    }

    fn go_check_cfg(&self, inp: &mut InputRef<'src, '_, I, E>, cfg: JustCfg<T>) -> PResult<()> {
        match cfg.seq {
            None => self.go_check(inp),
            Some(seq) => {
                let just: Just<T, I, E> = Just {
                    seq,
                    of: PhantomData,
                };
                just.go_check(inp)
            }
        }
    }
}

/// `just` is ready and steady by each configuration. Its outputs that are the same are clones of the sequence that is set, or of
/// its own.
pub fn configured_just_is_steady<'src, T, I, E>(just: &Just<T, I, E>)
where
    T: OrderedSeq<I::Token> + Clone + Drop,
    I: Input<'src>,
    I::Token: PartialEq,
    E: ParserExtra<I>,
    ensures ready { ⟦<Just<T, I, E> as ConfigParser<'src, I, T, E>>⟧.ready just.now }
    ensures steady { ⟦<Just<T, I, E> as ConfigParser<'src, I, T, E>>⟧.steady just.now }
    ensures same { (c : config.JustCfg T) (x y : T) → ⟦<Just<T, I, E> as ConfigParser<'src, I, T, E>>⟧.same just.now c x y → BothCopies (T.is_clone (set_or c.seq just.now.seq)) x y }
{}
