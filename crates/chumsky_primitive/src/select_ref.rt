//! A token that a closure picks, where it lies.
ghost use Rattle.std.specs.Prelude.{◌≡◌, Bool, ⊤, true};
ghost use Rattle.chumsky_input.specs.Run.{Runs};
ghost use Rattle.chumsky_input.specs.Extra.{KeepsState};
ghost use Rattle.chumsky_parser.specs.Failure.{asked};
ghost use Rattle.chumsky_primitive.specs.Select.{PicksRef, MeansSelect, PicksAlike, SamePicked};

use crate::select::miss;
use chumsky_input::extra::ParserExtra;
use chumsky_input::input::{BorrowInput, Tokens};
use chumsky_input::input_ref::InputRef;
use chumsky_input::map_extra::{MapExtra, call_with_extra};
use chumsky_input::stop::PResult;
use chumsky_input::util::{MaybeRef, Plain};
use chumsky_parser::moving::Moving;
use chumsky_parser::parser::{IsParser, Parser};
use std::marker::PhantomData;

/// Takes one token that a closure answers `Some` to, by a reference to it. See `select_ref`.
#[derive(Drop)]
#[derive_where(Clone, Copy; F)]
pub struct SelectRef<F, I, O, E> {
    pub filter: F,
    pub of: PhantomData<(I, O, E)>,
}

impl<I: Tokens, F, O, E> IsParser<I, O, E> for SelectRef<F, I, O, E> {}

impl<'src, I, O, E, F> Parser<'src, I, O, E> for SelectRef<F, I, O, E>
where
    I: BorrowInput<'src>,
    I::Token: 'src,
    O: Drop,
    E: ParserExtra<I>,
    F: Fn(&'src I::Token, &mut MapExtra<'src, '_, I, E>) -> Option<O>,
{
    ghost use Rattle.chumsky_primitive.specs.Select.{PicksAlike, SamePicked};
    ghost use Rattle.chumsky_primitive.specs.SelectLaws.{select-ends, select-agrees};
    ghost use Rattle.chumsky_primitive.specs.PrimitiveLanguage.{some_token};
    ghost use Rattle.chumsky_primitive.specs.PrimitiveLanguageLaws.{select-accepts};

    ghost ready = { λ p. KeepsState I.Input E.State.Inspector F.Fn p.filter };

    ghost meaning = { λ p errors states. MeansSelect I.Input (λ _. ⊤) errors states (PicksRef I.Input states F.Fn p.filter) };

    ghost steady = { λ p. PicksAlike (PicksRef I.Input E.State.Inspector F.Fn p.filter) };

    ghost same = { λ p. SamePicked (PicksRef I.Input E.State.Inspector F.Fn p.filter) };

    ghost language = { λ _. some_token (I.Token → ⊤) };

    ghost ends_after_start = { λ p. select-ends _ _ _ _ _ };

    ghost agrees = { λ p s. select-agrees _ _ _ _ _ s };

    ghost accepts = { λ p. select-accepts _ _ _ _ _ };

    #[inline]
    fn go_emit(&self, inp: &mut InputRef<'src, '_, I, E>) -> PResult<O> {
        pick_ref(&self.filter, inp)
    }

    #[inline]
    fn go_check(&self, inp: &mut InputRef<'src, '_, I, E>) -> PResult<()> {
        let output = pick_ref(&self.filter, inp)?;
        drop(output);
        Ok(())
    }
}

/// Takes the next token if the closure answers `Some` to it; else goes back to before it, and fails there.
#[inline]
fn pick_ref<'src, I, O, E, F>(filter: &F, inp: &mut InputRef<'src, '_, I, E>) -> PResult<O>
where
    I: BorrowInput<'src>,
    I::Token: 'src,
    E: ParserExtra<I>,
    F: Fn(&'src I::Token, &mut MapExtra<'src, '_, I, E>) -> Option<O>,
    requires { KeepsState I.Input E.State.Inspector F.Fn filter.now }
    ensures ran { (w : Bool) → Runs I.Input E.Error.Error E.State.Inspector (MeansSelect I.Input (λ _. ⊤) E.Error.Error E.State.Inspector (PicksRef I.Input E.State.Inspector F.Fn filter.now)) w inp.old inp.new (asked w result) }
    ensures lent { inp.new.state.ghost_name ≡ inp.old.state.ghost_name }
{
    let before = inp.save()?;
    match inp.next_ref() {
        None => {
            let here = inp.cursor();
            Err(inp.expected(&here, &here, Plain::SomethingElse, None))
        }
        Some(token) => match call_with_extra(filter, token, &before.cursor, inp) {
            Some(output) => Ok(output),
            None => Err(miss(&before, MaybeRef::Ref(token), inp)),
        },
    }
}

impl<'src, I, O, E, F> Moving<'src, I, O, E> for SelectRef<F, I, O, E>
where
    I: BorrowInput<'src>,
    I::Token: 'src,
    O: Drop,
    E: ParserExtra<I>,
    F: Fn(&'src I::Token, &mut MapExtra<'src, '_, I, E>) -> Option<O>,
{
    ghost use Rattle.chumsky_primitive.specs.PrimitivesMove.{select-moves};

    ghost moves = { λ _. true };

    ghost moved = { λ _ _. select-moves _ _ _ _ _ };

    fn always_moves(&self) -> bool
        ensures { result ≡ true }
    {
        true
    }
}

/// `select_ref` is steady where its closure gives each token and extra one verdict, and leaves one state.
pub fn select_ref_is_steady<'src, I, O, E, F>(parser: &SelectRef<F, I, O, E>)
where
    I: BorrowInput<'src>,
    I::Token: 'src,
    O: Drop,
    E: ParserExtra<I>,
    F: Fn(&'src I::Token, &mut MapExtra<'src, '_, I, E>) -> Option<O>,
    ensures ready { KeepsState I.Input E.State.Inspector F.Fn parser.now.filter → ⟦<SelectRef<F, I, O, E> as Parser<'src, I, O, E>>⟧.ready parser.now }
    ensures steady { PicksAlike (PicksRef I.Input E.State.Inspector F.Fn parser.now.filter) → ⟦<SelectRef<F, I, O, E> as Parser<'src, I, O, E>>⟧.steady parser.now }
    ensures same { (x y : O) → ⟦<SelectRef<F, I, O, E> as Parser<'src, I, O, E>>⟧.same parser.now x y → SamePicked (PicksRef I.Input E.State.Inspector F.Fn parser.now.filter) x y }
{}
