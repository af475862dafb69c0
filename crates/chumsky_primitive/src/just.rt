//! A fixed sequence of tokens.
ghost use Rattle.std.specs.Prelude.{◌≡◌, Bool, option_map};
ghost use Rattle.chumsky_input.specs.Maybe.{maybe_value};
ghost use Rattle.chumsky_input.specs.Run.{Runs, without_value};
ghost use Rattle.chumsky_primitive.specs.Just.{is_member, MeansMember, MeansMembers};
ghost use Rattle.chumsky_parser.specs.ByParts.{NeverOut};

use chumsky_input::extra::ParserExtra;
use chumsky_input::input::Input;
use chumsky_input::input_ref::InputRef;
use chumsky_input::stop::PResult;
use chumsky_input::util::MaybeRef;
use chumsky_parser::container::{OrderedSeq, Seq};
use chumsky_parser::moving::Moving;
use chumsky_parser::parser::{IsParser, Parser};
use std::marker::PhantomData;

/// Takes the members of a sequence, one after another. See `just`.
#[derive(Drop)]
#[derive_where(Clone, Copy; T)]
pub struct Just<T, I, E> {
    pub seq: T,
    pub of: PhantomData<(I, E)>,
}

impl<T, I, E> IsParser<I, T, E> for Just<T, I, E> {}

impl<'src, T: OrderedSeq<I::Token> + Clone, I: Input<'src>, E: ParserExtra<I>> Parser<'src, I, T, E>
    for Just<T, I, E>
where
    I::Token: PartialEq,
{
    ghost use Rattle.std.specs.Prelude.{⊤};
    ghost use Rattle.chumsky_parser.specs.Copied.{BothCopies};
    ghost use Rattle.chumsky_primitive.specs.Just.{MeansJust};
    ghost use Rattle.chumsky_primitive.specs.JustLaws.{just-ends, just-agrees};
    ghost use Rattle.chumsky_primitive.specs.PrimitiveLanguage.{literal_language};
    ghost use Rattle.chumsky_primitive.specs.PrimitiveLanguageLaws.{just-accepts};

    ghost ready = { λ _. ⊤ };

    ghost meaning = { λ p errors states. MeansJust I.Input I.Token.eq errors states (T.is_clone p.seq) (T.is_infallible p.seq) (T.members p.seq) };

    ghost steady = { λ _. ⊤ };

    ghost same = { λ p. BothCopies (T.is_clone p.seq) };

    ghost language = { λ p. literal_language I.Token.eq (T.members p.seq) (T.is_clone p.seq) (T.is_infallible p.seq) };

    ghost ends_after_start = { λ p. just-ends _ _ _ _ _ _ (T.members p.seq) };

    ghost agrees = { λ p _. just-agrees _ _ _ _ _ _ (T.members p.seq) };

    ghost accepts = { λ p. just-accepts _ _ _ _ _ _ (T.members p.seq) };

    #[inline(always)]
    fn go_emit(&self, inp: &mut InputRef<'src, '_, I, E>) -> PResult<T> {
        take_members(&self.seq, inp)?;
        let seq = self.seq.clone()?;
        Ok(seq)
    }

    #[inline(always)]
    fn go_check(&self, inp: &mut InputRef<'src, '_, I, E>) -> PResult<()> {
        take_members(&self.seq, inp)
    }
}

/// Takes the members of a sequence, each where the former ended.
#[inline(always)]
fn take_members<'src, T: OrderedSeq<I::Token>, I: Input<'src>, E: ParserExtra<I>>(
    seq: &T,
    inp: &mut InputRef<'src, '_, I, E>,
) -> PResult<()>
where
    I::Token: PartialEq,
    ensures ran { (w : Bool) → Runs I.Input E.Error.Error E.State.Inspector (MeansMembers I.Input I.Token.eq E.Error.Error E.State.Inspector (T.members seq.now)) w inp.old inp.new (without_value result) }
    ensures lent { inp.new.state.ghost_name ≡ inp.old.state.ghost_name }
{
    let mut at = 0;
    while let Some((member, next)) = seq.seq_at(at) {
        take_member(member.get(), inp)?;
        at = next;
    }
    Ok(())
}

/// Takes the next token if it is a member; else goes back to before it, and fails there.
#[inline(always)]
fn take_member<'src, I: Input<'src>, E: ParserExtra<I>>(
    member: &I::Token,
    inp: &mut InputRef<'src, '_, I, E>,
) -> PResult<()>
where
    I::Token: PartialEq,
    ensures ran { (w : Bool) → Runs I.Input E.Error.Error E.State.Inspector (MeansMember I.Input I.Token.eq E.Error.Error E.State.Inspector member.now) w inp.old inp.new (without_value result) }
    ensures lent { inp.new.state.ghost_name ≡ inp.old.state.ghost_name }
{
    let before = inp.save()?;
    let found = inp.next_maybe();
    if is_there(member, &found) {
        return Ok(());
    }
    let past = inp.cursor();
    inp.rewind(&before)?;
    Err(inp.expected_token(&before.cursor, &past, member, found))
}

/// Whether what was found is a member.
#[inline(always)]
fn is_there<'a, T: PartialEq>(member: &T, found: &Option<MaybeRef<'a, T>>) -> bool
    ensures { result ≡ is_member T.eq member.now (option_map maybe_value found.now) }
{
    match found {
        Some(token) => *member == *token.get(),
        None => false,
    }
}

impl<'src, T: OrderedSeq<I::Token> + Clone, I: Input<'src>, E: ParserExtra<I>> Moving<'src, I, T, E>
    for Just<T, I, E>
where
    I::Token: PartialEq,
{
    ghost use Rattle.chumsky_primitive.specs.Just.{has_members};
    ghost use Rattle.chumsky_primitive.specs.PrimitivesMove.{just-moves};

    ghost moves = { λ p. has_members (T.members p.seq) };

    ghost moved = { λ p. just-moves _ _ _ _ _ _ (T.members p.seq) };

    fn always_moves(&self) -> bool
        ensures { result ≡ has_members (T.members self.now.seq) }
    {
        self.seq.seq_at(0).is_some()
    }
}

/// Never refused for memory, where errors and states take none: `just(seq)`, of a sequence whose clone takes no memory.
pub fn just_is_never_out_of_memory<
    'src,
    T: OrderedSeq<I::Token> + Clone,
    I: Input<'src>,
    E: ParserExtra<I>,
>(just: &Just<T, I, E>)
where
    I::Token: PartialEq,
    ensures { T.is_infallible just.now.seq → E.Error.takes_no_memory → E.State.takes_no_memory → NeverOut E.Error.Error E.State.Inspector
        (⟦<Just<T, I, E> as Parser<'src, I, T, E>>⟧.meaning just.now) }
{}

/// `just(seq)` is steady, whatever the sequence.
pub fn just_is_steady<'src, T: OrderedSeq<I::Token> + Clone, I: Input<'src>, E: ParserExtra<I>>(
    parser: &Just<T, I, E>,
)
where
    I::Token: PartialEq,
    ensures ready { ⟦<Just<T, I, E> as Parser<'src, I, T, E>>⟧.ready parser.now }
    ensures steady { ⟦<Just<T, I, E> as Parser<'src, I, T, E>>⟧.steady parser.now }
    ensures same { (x y : T) → ⟦<Just<T, I, E> as Parser<'src, I, T, E>>⟧.same parser.now x y → T.is_clone parser.now.seq x × T.is_clone parser.now.seq y }
{}
