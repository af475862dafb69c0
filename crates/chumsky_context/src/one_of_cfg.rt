//! `OneOfCfg`: `one_of` of a sequence that the context says.
ghost use Rattle.std.specs.Prelude.{◌≡◌, Some, None, map};
ghost use Rattle.chumsky_input.specs.Wanted as wanted;
ghost use Rattle.chumsky_primitive.specs.OneOf.{among};
ghost use Rattle.chumsky_context.specs.declared.one_of_cfg.OneOfCfg as sequence;

use crate::config::{ConfigParser, Configurable, IsConfigParser};
use chumsky_input::extra::ParserExtra;
use chumsky_input::input::{Tokens, ValueInput};
use chumsky_input::input_ref::InputRef;
use chumsky_input::stop::PResult;
use chumsky_parser::container::Seq;
use chumsky_parser::parser::Parser;
use chumsky_primitive::one_of::OneOf;
use std::marker::PhantomData;

/// What `one_of` is configured by: the sequence that it takes a member of, where one is set.
#[derive(Drop)]
pub struct OneOfCfg<S> {
    pub seq: Option<S>,
}

impl<S> Default for OneOfCfg<S> {
    ghost is_default = { λ c. c ≡ record { seq = None } };

    #[inline]
    fn default() -> OneOfCfg<S> {
        OneOfCfg { seq: None }
    }
}

impl<S: Drop> OneOfCfg<S> {
    /// Sets the sequence that a member is taken of, in place of the parser's own.
    #[inline]
    pub fn seq(self, seq: S) -> OneOfCfg<S>
        ensures { result ≡ record { seq = Some seq } }
    {
        OneOfCfg { seq: Some(seq) }
    }
}

impl<S: Drop, I, E> Configurable for OneOf<S, I, E> {
    type Config = OneOfCfg<S>;
}

impl<S, I: Tokens, E> IsConfigParser<I, I::Token, E> for OneOf<S, I, E> {}

impl<'src, S, I, E> ConfigParser<'src, I, I::Token, E> for OneOf<S, I, E>
where
    S: Seq<I::Token> + Drop,
    I: ValueInput<'src>,
    I::Token: PartialEq,
    E: ParserExtra<I>,
{
    ghost use Rattle.std.specs.Prelude.{⊤};
    ghost use Rattle.chumsky_primitive.specs.OneOf.{MeansOneOf};
    ghost use Rattle.chumsky_primitive.specs.OneOfLaws.{tested-ends, tested-agrees};
    ghost use Rattle.chumsky_context.specs.Configured.{set_or};

    ghost ready = { λ _. ⊤ };

    ghost meaning = { λ p c errors states. MeansOneOf I.Input I.seen I.takes_no_memory errors states I.Token.eq (S.members (set_or c.seq p.seq)) };

    ghost steady = { λ _. ⊤ };

    ghost same = { λ _ _ v w. I.seen v ≡ I.seen w };

    ghost ends_after_start = { λ p c. tested-ends _ _ _ _ _ (map wanted.Token (S.members (set_or c.seq p.seq))) (among I.Token.eq (S.members (set_or c.seq p.seq))) };

    ghost agrees = { λ p _ c. tested-agrees _ _ _ _ _ (map wanted.Token (S.members (set_or c.seq p.seq))) (among I.Token.eq (S.members (set_or c.seq p.seq))) };

    fn go_emit_cfg(
        &self,
        inp: &mut InputRef<'src, '_, I, E>,
        cfg: OneOfCfg<S>,
    ) -> PResult<I::Token> {
        match cfg.seq {
            None => self.go_emit(inp),
            Some(seq) => {
                let one_of: OneOf<S, I, E> = OneOf {
                    seq,
                    of: PhantomData,
                };
                one_of.go_emit(inp)
            }
        }
    }

    fn go_check_cfg(&self, inp: &mut InputRef<'src, '_, I, E>, cfg: OneOfCfg<S>) -> PResult<()> {
        match cfg.seq {
            None => self.go_check(inp),
            Some(seq) => {
                let one_of: OneOf<S, I, E> = OneOf {
                    seq,
                    of: PhantomData,
                };
                one_of.go_check(inp)
            }
        }
    }
}

/// `one_of` is ready and steady by each configuration. Its outputs that are the same are seen alike.
pub fn configured_one_of_is_steady<'src, S, I, E>(one_of: &OneOf<S, I, E>)
where
    S: Seq<I::Token> + Drop,
    I: ValueInput<'src>,
    I::Token: PartialEq,
    E: ParserExtra<I>,
    ensures ready { ⟦<OneOf<S, I, E> as ConfigParser<'src, I, I::Token, E>>⟧.ready one_of.now }
    ensures steady { ⟦<OneOf<S, I, E> as ConfigParser<'src, I, I::Token, E>>⟧.steady one_of.now }
    ensures same { (c : sequence.OneOfCfg S) (x y : I.Token) → ⟦<OneOf<S, I, E> as ConfigParser<'src, I, I::Token, E>>⟧.same one_of.now c x y → I.seen x ≡ I.seen y }
{}
