//! A token that is not in a sequence.
ghost use Rattle.std.specs.Prelude.{◌≡◌, [], ◌∷◌, option_map, true};
ghost use Rattle.std.specs.Option.{option_copied};
ghost use Rattle.chumsky_input.specs.Held.{held};
ghost use Rattle.chumsky_input.specs.Maybe.{maybe_value};
ghost use Rattle.chumsky_input.specs.OneCall.{FailsExpecting};
ghost use Rattle.chumsky_input.specs.Wanted as wanted;
ghost use Rattle.chumsky_primitive.specs.OneOf.{outside, FoundPasses};

use crate::tested::{go_back_from, take};
use chumsky_input::extra::ParserExtra;
use chumsky_input::input::{Input, Tokens, ValueInput};
use chumsky_input::input_ref::InputRef;
use chumsky_input::stop::{Fault, PResult};
use chumsky_input::util::{MaybeRef, Plain};
use chumsky_parser::container::Seq;
use chumsky_parser::moving::Moving;
use chumsky_parser::parser::{IsParser, Parser};
use std::marker::PhantomData;

/// Takes one token that is no member of a sequence. See `none_of`.
#[derive(Drop)]
#[derive_where(Clone, Copy; S)]
pub struct NoneOf<S, I, E> {
    pub seq: S,
    pub of: PhantomData<(I, E)>,
}

impl<S, I: Tokens, E> IsParser<I, I::Token, E> for NoneOf<S, I, E> {}

impl<'src, S: Seq<I::Token>, I: ValueInput<'src>, E: ParserExtra<I>> Parser<'src, I, I::Token, E>
    for NoneOf<S, I, E>
where
    I::Token: PartialEq,
{
    ghost use Rattle.std.specs.Prelude.{⊤};
    ghost use Rattle.chumsky_primitive.specs.OneOf.{MeansNoneOf};
    ghost use Rattle.chumsky_primitive.specs.OneOfLaws.{tested-ends, tested-agrees};
    ghost use Rattle.chumsky_primitive.specs.PrimitiveLanguage.{one_language};
    ghost use Rattle.chumsky_primitive.specs.PrimitiveLanguageLaws.{tested-accepts};
    ghost use Rattle.chumsky_primitive.specs.Any.{CountsAs};

    ghost ready = { λ _. ⊤ };

    ghost meaning = { λ p errors states. MeansNoneOf I.Input I.seen I.takes_no_memory errors states I.Token.eq (S.members p.seq) };

    ghost steady = { λ _. ⊤ };

    ghost same = { λ _ v w. I.seen v ≡ I.seen w };

    ghost language = { λ p. one_language (outside I.Token.eq (S.members p.seq)) (CountsAs I.seen) ((t : I.Token) → I.takes_no_memory t) };

    ghost ends_after_start = { λ p. tested-ends _ _ _ _ _ (wanted.SomethingElse ∷ []) (outside I.Token.eq (S.members p.seq)) };

    ghost agrees = { λ p _. tested-agrees _ _ _ _ _ (wanted.SomethingElse ∷ []) (outside I.Token.eq (S.members p.seq)) };

    ghost accepts = { λ p. tested-accepts _ _ _ _ _ (outside I.Token.eq (S.members p.seq)) _ };

    #[inline(always)]
    fn go_emit(&self, inp: &mut InputRef<'src, '_, I, E>) -> PResult<I::Token> {
        let mut past = inp.cursor();
        let found = I::next_maybe(&mut past);
        if let Some(token) = stranger(&self.seq, &found) {
            let value = I::value_of(token)?;
            take(token, past, inp);
            return Ok(value);
        }
        go_back_from(&found, inp)?;
        Err(expect_another(&past, found, inp))
    }

    #[inline(always)]
    fn go_check(&self, inp: &mut InputRef<'src, '_, I, E>) -> PResult<()> {
        let mut past = inp.cursor();
        let found = I::next_maybe(&mut past);
        if let Some(token) = stranger(&self.seq, &found) {
            take(token, past, inp);
            return Ok(());
        }
        go_back_from(&found, inp)?;
        Err(expect_another(&past, found, inp))
    }
}

/// What was found, if it is a token and no member.
#[inline]
fn stranger<'f, 'src, S: Seq<T>, T: PartialEq>(
    seq: &S,
    found: &'f Option<MaybeRef<'src, T>>,
) -> Option<&'f T>
    ensures { FoundPasses (outside T.eq (S.members seq.now)) (option_map maybe_value found.now) (option_copied result) }
{
    let token = found.as_ref()?.get();
    if seq.contains(token) {
        None
    } else {
        Some(token)
    }
}

/// Fails where something else was expected.
#[inline]
fn expect_another<'src, I: Input<'src>, E: ParserExtra<I>>(
    past: &I::Cursor,
    found: Option<MaybeRef<'src, I::Token>>,
    inp: &mut InputRef<'src, '_, I, E>,
) -> Fault
    requires { I.cursor_tokens past.now ≡ (held I.Input E.Error.Error E.State.Inspector inp.old).tokens }
    ensures fails { FailsExpecting I.Input E.Error.Error E.State.Inspector (wanted.SomethingElse ∷ []) found.entry inp.old.cursor past.now inp.old inp.new result }
    ensures lent { inp.new.state.ghost_name ≡ inp.old.state.ghost_name }
{
    let here = inp.cursor();
    inp.expected(&here, past, Plain::SomethingElse, found)
}

impl<'src, S: Seq<I::Token>, I: ValueInput<'src>, E: ParserExtra<I>> Moving<'src, I, I::Token, E>
    for NoneOf<S, I, E>
where
    I::Token: PartialEq,
{
    ghost use Rattle.chumsky_primitive.specs.PrimitivesMove.{tested-moves};

    ghost moves = { λ _. true };

    ghost moved = { λ _ _. tested-moves _ _ _ _ _ _ _ };

    fn always_moves(&self) -> bool
        ensures { result ≡ true }
    {
        true
    }
}
