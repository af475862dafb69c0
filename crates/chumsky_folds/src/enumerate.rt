//! Items with their numbers.
ghost use Rattle.std.specs.Prelude.{◌≡◌, ℕ};
ghost use Rattle.chumsky_folds.specs.Enumerating.{SameNumbered};

use chumsky_input::extra::ParserExtra;
use chumsky_input::input::Input;
use chumsky_input::input_ref::InputRef;
use chumsky_input::stop::{Fault, PResult, Stop};
use chumsky_parser::iter::{IsIterParser, IterParser, IterParserDebug, Iterates};
use chumsky_parser::moving::MovingItems;
use std::marker::PhantomData;

/// The items of a parser, each with the number of items before it. See `enumerate`.
#[derive(Drop)]
#[derive_where(Clone, Copy; A)]
pub struct Enumerate<A, O> {
    pub parser: A,
    pub of: PhantomData<O>,
}

impl<I, O, E, A: IsIterParser<I, O, E>> IsIterParser<I, (usize, O), E> for Enumerate<A, O> {}

impl<A: Iterates, O> Iterates for Enumerate<A, O> {
    /// The number of items given, and the iteration inside.
    type IterState = (usize, A::IterState);
}

impl<'src, I: Input<'src>, O: Drop, E: ParserExtra<I>, A: IterParser<'src, I, O, E>> IterParser<
    'src,
    I,
    (usize, O),
    E,
> for Enumerate<A, O> {
    ghost use Rattle.chumsky_folds.specs.EnumeratedLanguage.{enumerated_language, enumerates-accepts};
    ghost use Rattle.chumsky_folds.specs.Enumerating.{BeginsAtZero, Enumerates, SameNumbered, AlikeNumbered};
    ghost use Rattle.chumsky_folds.specs.EnumeratingLaws.{enumerates-end, enumerates-agree};

    ghost ready = { λ p. A.ready p.parser };

    ghost may_step = { λ p s. A.may_step p.parser s.1 };

    ghost begins = { λ p errors states. BeginsAtZero (A.begins p.parser errors states) };

    ghost gives = { λ p d s errors states. Enumerates (λ t. A.gives p.parser d t errors states) s };

    ghost steady = { λ p. A.steady p.parser };

    ghost same = { λ p. SameNumbered (A.same p.parser) };

    ghost alike = { λ p. AlikeNumbered (A.alike p.parser) };

    ghost ends_after_start = { λ p d. enumerates-end _ _ (A.ends_after_start p.parser d) };

    ghost agrees = { λ p s d. enumerates-agree _ _ (A.same p.parser) (A.alike p.parser) (A.agrees p.parser s d) };

    ghost language = { λ p. enumerated_language (A.language p.parser) };

    ghost accepts = { λ p d. enumerates-accepts _ _ (A.language p.parser) (A.accepts p.parser d) };

    #[inline(always)]
    fn make_iter(&self, inp: &mut InputRef<'src, '_, I, E>) -> PResult<(usize, A::IterState)> {
        let inner = self.parser.make_iter(inp)?;
        Ok((0, inner))
    }

    #[inline(always)]
    fn next_emit(
        &self,
        inp: &mut InputRef<'src, '_, I, E>,
        state: &mut (usize, A::IterState),
        debug: IterParserDebug,
    ) -> PResult<Option<(usize, O)>> {
        match self.parser.next_emit(inp, &mut state.1, debug)? {
            None => Ok(None),
            Some(item) => {
                let number = state.0;
                if number == usize::MAX {
                    return Err(Fault::Stop(Stop::CountTooLarge));
                }
                state.0 = number + 1;
                Ok(Some((number, item)))
            }
        }
    }

    #[inline(always)]
    fn next_check(
        &self,
        inp: &mut InputRef<'src, '_, I, E>,
        state: &mut (usize, A::IterState),
        debug: IterParserDebug,
    ) -> PResult<Option<()>> {
        match self.parser.next_check(inp, &mut state.1, debug)? {
            None => Ok(None),
            Some(()) => {
                let number = state.0;
                if number == usize::MAX {
                    return Err(Fault::Stop(Stop::CountTooLarge));
                }
                state.0 = number + 1;
                Ok(Some(()))
            }
        }
    }
}

impl<'src, I: Input<'src>, O: Drop, E: ParserExtra<I>, A: MovingItems<'src, I, O, E>> MovingItems<
    'src,
    I,
    (usize, O),
    E,
> for Enumerate<A, O> {
    ghost use Rattle.chumsky_folds.specs.EnumeratingLaws.{enumerates-move};

    ghost first_moves = { λ p. A.first_moves p.parser };

    ghost first_moved = { λ p e d. enumerates-move _ _ (A.first_moved p.parser e d) };

    fn first_always_moves(&self) -> bool
        ensures { result ≡ A.first_moves self.now.parser }
    {
        self.parser.first_always_moves()
    }
}

/// When it is ready and steady, and which outputs are the same: `a.enumerate()`. Two of its items are the same where their
/// numbers are equal, and the items of `a` in them are the same.
pub fn enumerate_is_steady<
    'src,
    I: Input<'src>,
    O: Drop,
    E: ParserExtra<I>,
    A: IterParser<'src, I, O, E>,
>(enumerate: &Enumerate<A, O>)
    ensures ready { A.ready enumerate.now.parser → ⟦<Enumerate<A, O> as IterParser<'src, I, (usize, O), E>>⟧.ready enumerate.now }
    ensures steady { A.steady enumerate.now.parser → ⟦<Enumerate<A, O> as IterParser<'src, I, (usize, O), E>>⟧.steady enumerate.now }
    ensures same { (x y : ℕ × O) → ⟦<Enumerate<A, O> as IterParser<'src, I, (usize, O), E>>⟧.same enumerate.now x y → SameNumbered (A.same enumerate.now.parser) x y }
{}
