//! Any token.
ghost use Rattle.std.specs.Prelude.{◌≡◌, true};
ghost use Rattle.chumsky_parser.specs.ByParts.{NeverOut};

use chumsky_input::extra::ParserExtra;
use chumsky_input::input::{Tokens, ValueInput};
use chumsky_input::input_ref::InputRef;
use chumsky_input::stop::{Fault, PResult, Stop};
use chumsky_input::util::Plain;
use chumsky_parser::moving::Moving;
use chumsky_parser::parser::{IsParser, Parser};
use std::marker::PhantomData;

/// Takes one token, whichever it is. See `any`.
#[derive(Drop)]
#[derive_where(Clone, Copy)]
pub struct Any<I, E> {
    pub of: PhantomData<(I, E)>,
}

impl<I: Tokens, E> IsParser<I, I::Token, E> for Any<I, E> {}

impl<'src, I: ValueInput<'src>, E: ParserExtra<I>> Parser<'src, I, I::Token, E> for Any<I, E> {
    ghost use Rattle.std.specs.Prelude.{◌≡◌, ⊤};
    ghost use Rattle.chumsky_primitive.specs.Any.{MeansAny, CountsAs};
    ghost use Rattle.chumsky_primitive.specs.AnyLaws.{any-ends, any-agrees, counts-same};
    ghost use Rattle.std.specs.Prelude.{true};
    ghost use Rattle.chumsky_primitive.specs.PrimitiveLanguage.{one_language};
    ghost use Rattle.chumsky_primitive.specs.PrimitiveLanguageLaws.{any-accepts};

    ghost ready = { λ _. ⊤ };

    ghost meaning = { λ _ errors states. MeansAny I.Input (CountsAs I.seen) I.takes_no_memory errors states };

    ghost steady = { λ _. ⊤ };

    ghost same = { λ _ v w. I.seen v ≡ I.seen w };

    ghost language = { λ _. one_language (λ t. true) (CountsAs I.seen) ((t : I.Token) → I.takes_no_memory t) };

    ghost ends_after_start = { λ _. any-ends _ _ _ _ _ };

    ghost agrees = { λ _ _. any-agrees _ _ _ _ _ _ (counts-same I.seen) };

    ghost accepts = { λ _. any-accepts _ _ _ _ _ };

    #[inline(always)]
    fn go_emit(&self, inp: &mut InputRef<'src, '_, I, E>) -> PResult<I::Token> {
        match inp.next() {
            Ok(Some(token)) => Ok(token),
            Ok(None) => {
                let here = inp.cursor();
                Err(inp.expected(&here, &here, Plain::Any, None))
            }
            Err(_) => Err(Fault::Stop(Stop::Memory)),
        }
    }

    #[inline(always)]
    fn go_check(&self, inp: &mut InputRef<'src, '_, I, E>) -> PResult<()> {
        if inp.advance() {
            return Ok(());
        }
        let here = inp.cursor();
        Err(inp.expected(&here, &here, Plain::Any, None))
    }
}

impl<'src, I: ValueInput<'src>, E: ParserExtra<I>> Moving<'src, I, I::Token, E> for Any<I, E> {
    ghost use Rattle.chumsky_primitive.specs.PrimitivesMove.{any-moves};

    ghost moves = { λ _. true };

    ghost moved = { λ _ _. any-moves _ _ _ _ _ };

    fn always_moves(&self) -> bool
        ensures { result ≡ true }
    {
        true
    }
}

/// Never refused for memory, where errors and states take none: `any()`, over tokens that are handed out without memory.
pub fn any_is_never_out_of_memory<'src, I: ValueInput<'src>, E: ParserExtra<I>>(any: &Any<I, E>)
    ensures { ((t : I.Token) → I.takes_no_memory t) → E.Error.takes_no_memory → NeverOut E.Error.Error E.State.Inspector
        (⟦<Any<I, E> as Parser<'src, I, I::Token, E>>⟧.meaning any.now) }
{}

/// `any()` is steady.
pub fn any_is_steady<'src, I: ValueInput<'src>, E: ParserExtra<I>>(parser: &Any<I, E>)
    ensures ready { ⟦<Any<I, E> as Parser<'src, I, I::Token, E>>⟧.ready parser.now }
    ensures steady { ⟦<Any<I, E> as Parser<'src, I, I::Token, E>>⟧.steady parser.now }
    ensures same { (x y : I.Token) → ⟦<Any<I, E> as Parser<'src, I, I::Token, E>>⟧.same parser.now x y → I.seen x ≡ I.seen y }
{}
