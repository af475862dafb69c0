//! A token that a closure picks.
ghost use Rattle.std.specs.Prelude.{◌≡◌, Bool, true};
ghost use Rattle.chumsky_input.specs.Held.{held, marks};
ghost use Rattle.chumsky_input.specs.Run.{Runs};
ghost use Rattle.chumsky_input.specs.Extra.{KeepsState};
ghost use Rattle.chumsky_parser.specs.Failure.{asked};
ghost use Rattle.chumsky_primitive.specs.Select.{PicksValue, MeansSelect, MissesToken, PicksAlike, SamePicked};

use chumsky_input::extra::ParserExtra;
use chumsky_input::input::{Input, Tokens, ValueInput};
use chumsky_input::input_ref::{Checkpoint, InputRef};
use chumsky_input::inspector::Inspector;
use chumsky_input::map_extra::{MapExtra, call_with_extra};
use chumsky_input::stop::{Fault, PResult, Stop};
use chumsky_input::util::{MaybeRef, Plain};
use chumsky_parser::moving::Moving;
use chumsky_parser::parser::{IsParser, Parser};
use std::marker::PhantomData;

/// Takes one token that a closure answers `Some` to. See `select`.
#[derive(Drop)]
#[derive_where(Clone, Copy; F)]
pub struct Select<F, I, O, E> {
    pub filter: F,
    pub of: PhantomData<(I, O, E)>,
}

impl<I: Tokens, F, O, E> IsParser<I, O, E> for Select<F, I, O, E> {}

impl<'src, I, O, E, F> Parser<'src, I, O, E> for Select<F, I, O, E>
where
    I: ValueInput<'src>,
    O: Drop,
    E: ParserExtra<I>,
    F: Fn(I::Token, &mut MapExtra<'src, '_, I, E>) -> Option<O>,
{
    ghost use Rattle.chumsky_primitive.specs.Select.{PicksAlike, SamePicked};
    ghost use Rattle.chumsky_primitive.specs.SelectLaws.{select-ends, select-agrees};
    ghost use Rattle.chumsky_primitive.specs.PrimitiveLanguage.{some_token};
    ghost use Rattle.chumsky_primitive.specs.PrimitiveLanguageLaws.{select-accepts};

    ghost ready = { λ p. KeepsState I.Input E.State.Inspector F.Fn p.filter };

    ghost meaning = { λ p errors states. MeansSelect I.Input I.takes_no_memory errors states (PicksValue I.Input states I.seen F.Fn p.filter) };

    ghost steady = { λ p. PicksAlike (PicksValue I.Input E.State.Inspector I.seen F.Fn p.filter) };

    ghost same = { λ p. SamePicked (PicksValue I.Input E.State.Inspector I.seen F.Fn p.filter) };

    ghost language = { λ _. some_token ((t : I.Token) → I.takes_no_memory t) };

    ghost ends_after_start = { λ p. select-ends _ _ _ _ _ };

    ghost agrees = { λ p s. select-agrees _ _ _ _ _ s };

    ghost accepts = { λ p. select-accepts _ _ _ _ _ };

    #[inline]
    fn go_emit(&self, inp: &mut InputRef<'src, '_, I, E>) -> PResult<O> {
        pick(&self.filter, inp)
    }

    #[inline]
    fn go_check(&self, inp: &mut InputRef<'src, '_, I, E>) -> PResult<()> {
        let output = pick(&self.filter, inp)?;
        drop(output);
        Ok(())
    }
}

/// Takes the next token if the closure answers `Some` to it; else goes back to before it, and fails there.
#[inline]
fn pick<'src, I, O, E, F>(filter: &F, inp: &mut InputRef<'src, '_, I, E>) -> PResult<O>
where
    I: ValueInput<'src>,
    E: ParserExtra<I>,
    F: Fn(I::Token, &mut MapExtra<'src, '_, I, E>) -> Option<O>,
    requires { KeepsState I.Input E.State.Inspector F.Fn filter.now }
    ensures ran { (w : Bool) → Runs I.Input E.Error.Error E.State.Inspector (MeansSelect I.Input I.takes_no_memory E.Error.Error E.State.Inspector (PicksValue I.Input E.State.Inspector I.seen F.Fn filter.now)) w inp.old inp.new (asked w result) }
    ensures lent { inp.new.state.ghost_name ≡ inp.old.state.ghost_name }
{
    let before = inp.save()?;
    match inp.next_maybe() {
        None => {
            let here = inp.cursor();
            Err(inp.expected(&here, &here, Plain::SomethingElse, None))
        }
        Some(found) => {
            let token = I::value_of(found.get())?;
            match call_with_extra(filter, token, &before.cursor, inp) {
                Some(output) => Ok(output),
                None => Err(miss(&before, found, inp)),
            }
        }
    }
}

/// Goes back from a token that was not picked, and fails where it stood.
#[inline]
pub(crate) fn miss<'src, I: Input<'src>, E: ParserExtra<I>>(
    before: &Checkpoint<I::Cursor, <E::State as Inspector<I>>::Mark>,
    found: MaybeRef<'src, I::Token>,
    inp: &mut InputRef<'src, '_, I, E>,
) -> Fault
    requires { (marks I.Input E.State.Inspector before.now).tokens ≡ (held I.Input E.Error.Error E.State.Inspector inp.old).tokens }
    ensures misses { MissesToken I.Input E.Error.Error E.State.Inspector before.now found.entry inp.old inp.new result }
    ensures lent { inp.new.state.ghost_name ≡ inp.old.state.ghost_name }
{
    let past = inp.cursor();
    match inp.rewind(before) {
        Ok(_) => inp.expected(&before.cursor, &past, Plain::SomethingElse, Some(found)),
        Err(_) => Fault::Stop(Stop::Memory),
    }
}

impl<'src, I, O, E, F> Moving<'src, I, O, E> for Select<F, I, O, E>
where
    I: ValueInput<'src>,
    O: Drop,
    E: ParserExtra<I>,
    F: Fn(I::Token, &mut MapExtra<'src, '_, I, E>) -> Option<O>,
{
    ghost use Rattle.chumsky_primitive.specs.PrimitivesMove.{select-moves};

    ghost moves = { λ _. true };

    ghost moved = { λ _ _. select-moves _ _ _ _ _ };

    fn always_moves(&self) -> bool
        ensures { result ≡ true }
    {
        true
    }
}

/// `select` is steady where its closure gives each token and extra one verdict, and leaves one state.
pub fn select_is_steady<'src, I, O, E, F>(parser: &Select<F, I, O, E>)
where
    I: ValueInput<'src>,
    O: Drop,
    E: ParserExtra<I>,
    F: Fn(I::Token, &mut MapExtra<'src, '_, I, E>) -> Option<O>,
    ensures ready { KeepsState I.Input E.State.Inspector F.Fn parser.now.filter → ⟦<Select<F, I, O, E> as Parser<'src, I, O, E>>⟧.ready parser.now }
    ensures steady { PicksAlike (PicksValue I.Input E.State.Inspector I.seen F.Fn parser.now.filter) → ⟦<Select<F, I, O, E> as Parser<'src, I, O, E>>⟧.steady parser.now }
    ensures same { (x y : O) → ⟦<Select<F, I, O, E> as Parser<'src, I, O, E>>⟧.same parser.now x y → SamePicked (PicksValue I.Input E.State.Inspector I.seen F.Fn parser.now.filter) x y }
{}
