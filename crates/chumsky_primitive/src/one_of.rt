//! A token that is in a sequence.
ghost use Rattle.std.specs.Prelude.{◌≡◌, map, option_map, true};
ghost use Rattle.std.specs.Option.{option_copied};
ghost use Rattle.chumsky_input.specs.Held.{held};
ghost use Rattle.chumsky_input.specs.Maybe.{maybe_value};
ghost use Rattle.chumsky_input.specs.OneCall.{FailsExpecting};
ghost use Rattle.chumsky_input.specs.Wanted as wanted;
ghost use Rattle.chumsky_primitive.specs.OneOf.{among, FoundPasses};
ghost use Rattle.chumsky_parser.specs.ByParts.{NeverOut};

use crate::none_of::NoneOf;
use crate::tested::{go_back_from, take};
use chumsky_input::extra::ParserExtra;
use chumsky_input::input::{Input, Tokens, ValueInput};
use chumsky_input::input_ref::InputRef;
use chumsky_input::stop::{Fault, PResult};
use chumsky_input::util::MaybeRef;
use chumsky_parser::container::Seq;
use chumsky_parser::members::Members;
use chumsky_parser::moving::Moving;
use chumsky_parser::parser::{IsParser, Parser};
use std::marker::PhantomData;

/// Takes one token that is a member of a sequence. See `one_of`.
#[derive(Drop)]
#[derive_where(Clone, Copy; S)]
pub struct OneOf<S, I, E> {
    pub seq: S,
    pub of: PhantomData<(I, E)>,
}

impl<S, I: Tokens, E> IsParser<I, I::Token, E> for OneOf<S, I, E> {}

impl<'src, S: Seq<I::Token>, I: ValueInput<'src>, E: ParserExtra<I>> Parser<'src, I, I::Token, E>
    for OneOf<S, I, E>
where
    I::Token: PartialEq,
{
    ghost use Rattle.std.specs.Prelude.{⊤};
    ghost use Rattle.chumsky_primitive.specs.OneOf.{MeansOneOf};
    ghost use Rattle.chumsky_primitive.specs.OneOfLaws.{tested-ends, tested-agrees};
    ghost use Rattle.chumsky_primitive.specs.PrimitiveLanguage.{one_language};
    ghost use Rattle.chumsky_primitive.specs.PrimitiveLanguageLaws.{tested-accepts};
    ghost use Rattle.chumsky_primitive.specs.Any.{CountsAs};

    ghost ready = { λ _. ⊤ };

    ghost meaning = { λ p errors states. MeansOneOf I.Input I.seen I.takes_no_memory errors states I.Token.eq (S.members p.seq) };

    ghost steady = { λ _. ⊤ };

    ghost same = { λ _ v w. I.seen v ≡ I.seen w };

    ghost language = { λ p. one_language (among I.Token.eq (S.members p.seq)) (CountsAs I.seen) ((t : I.Token) → I.takes_no_memory t) };

    ghost ends_after_start = { λ p. tested-ends _ _ _ _ _ (map wanted.Token (S.members p.seq)) (among I.Token.eq (S.members p.seq)) };

    ghost agrees = { λ p _. tested-agrees _ _ _ _ _ (map wanted.Token (S.members p.seq)) (among I.Token.eq (S.members p.seq)) };

    ghost accepts = { λ p. tested-accepts _ _ _ _ _ (among I.Token.eq (S.members p.seq)) _ };

    #[inline(always)]
    fn go_emit(&self, inp: &mut InputRef<'src, '_, I, E>) -> PResult<I::Token> {
        let mut past = inp.cursor();
        let found = I::next_maybe(&mut past);
        if let Some(token) = member(&self.seq, &found) {
            let value = I::value_of(token)?;
            take(token, past, inp);
            return Ok(value);
        }
        go_back_from(&found, inp)?;
        Err(expect_members(&self.seq, &past, found, inp))
    }

    #[inline(always)]
    fn go_check(&self, inp: &mut InputRef<'src, '_, I, E>) -> PResult<()> {
        let mut past = inp.cursor();
        let found = I::next_maybe(&mut past);
        if let Some(token) = member(&self.seq, &found) {
            take(token, past, inp);
            return Ok(());
        }
        go_back_from(&found, inp)?;
        Err(expect_members(&self.seq, &past, found, inp))
    }
}

/// What was found, if it is a member.
#[inline]
fn member<'f, 'src, S: Seq<T>, T: PartialEq>(
    seq: &S,
    found: &'f Option<MaybeRef<'src, T>>,
) -> Option<&'f T>
    ensures { FoundPasses (among T.eq (S.members seq.now)) (option_map maybe_value found.now) (option_copied result) }
{
    let token = found.as_ref()?.get();
    if seq.contains(token) {
        Some(token)
    } else {
        None
    }
}

/// Fails where each member was expected, in order.
#[inline]
fn expect_members<'src, S: Seq<I::Token>, I: Input<'src>, E: ParserExtra<I>>(
    seq: &S,
    past: &I::Cursor,
    found: Option<MaybeRef<'src, I::Token>>,
    inp: &mut InputRef<'src, '_, I, E>,
) -> Fault
where
    I::Token: PartialEq,
    requires { I.cursor_tokens past.now ≡ (held I.Input E.Error.Error E.State.Inspector inp.old).tokens }
    ensures fails { FailsExpecting I.Input E.Error.Error E.State.Inspector (map wanted.Token (S.members seq.now)) found.entry inp.old.cursor past.now inp.old inp.new result }
    ensures lent { inp.new.state.ghost_name ≡ inp.old.state.ghost_name }
{
    let here = inp.cursor();
    inp.expected_each(&here, past, Members::of(seq), found)
}

impl<'src, S: Seq<I::Token>, I: ValueInput<'src>, E: ParserExtra<I>> Moving<'src, I, I::Token, E>
    for OneOf<S, I, E>
where
    I::Token: PartialEq,
{
    ghost use Rattle.chumsky_primitive.specs.PrimitivesMove.{tested-moves};

    ghost moves = { λ _. true };

    ghost moved = { λ _ _. tested-moves _ _ _ _ _ _ _ };

    fn always_moves(&self) -> bool
        ensures { result ≡ true }
    {
        true
    }
}

/// Never refused for memory, where errors and states take none: `one_of(seq)` and `none_of(seq)`, over tokens that are handed
/// out without memory.
pub fn one_of_is_never_out_of_memory<
    'src,
    S: Seq<I::Token>,
    I: ValueInput<'src>,
    E: ParserExtra<I>,
>(one_of: &OneOf<S, I, E>, none_of: &NoneOf<S, I, E>)
where
    I::Token: PartialEq,
    ensures one_of { ((t : I.Token) → I.takes_no_memory t) → E.Error.takes_no_memory → E.State.takes_no_memory → NeverOut E.Error.Error E.State.Inspector
        (⟦<OneOf<S, I, E> as Parser<'src, I, I::Token, E>>⟧.meaning one_of.now) }
    ensures none_of { ((t : I.Token) → I.takes_no_memory t) → E.Error.takes_no_memory → E.State.takes_no_memory → NeverOut E.Error.Error E.State.Inspector
        (⟦<NoneOf<S, I, E> as Parser<'src, I, I::Token, E>>⟧.meaning none_of.now) }
{}

/// `one_of(seq)` and `none_of(seq)` are steady, whatever the sequence.
pub fn one_of_is_steady<'src, S: Seq<I::Token>, I: ValueInput<'src>, E: ParserExtra<I>>(
    one_of: &OneOf<S, I, E>,
    none_of: &NoneOf<S, I, E>,
)
where
    I::Token: PartialEq,
    ensures ready_one_of { ⟦<OneOf<S, I, E> as Parser<'src, I, I::Token, E>>⟧.ready one_of.now }
    ensures ready_none_of { ⟦<NoneOf<S, I, E> as Parser<'src, I, I::Token, E>>⟧.ready none_of.now }
    ensures one_of { ⟦<OneOf<S, I, E> as Parser<'src, I, I::Token, E>>⟧.steady one_of.now }
    ensures none_of { ⟦<NoneOf<S, I, E> as Parser<'src, I, I::Token, E>>⟧.steady none_of.now }
    ensures same_one { (x y : I.Token) → ⟦<OneOf<S, I, E> as Parser<'src, I, I::Token, E>>⟧.same one_of.now x y → I.seen x ≡ I.seen y }
    ensures same_other { (x y : I.Token) → ⟦<NoneOf<S, I, E> as Parser<'src, I, I::Token, E>>⟧.same none_of.now x y → I.seen x ≡ I.seen y }
{}
