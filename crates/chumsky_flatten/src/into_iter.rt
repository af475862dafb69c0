//! The items of an output.
ghost use Rattle.std.specs.Prelude.{◌≡◌, ◌⊎◌, false};
ghost use Rattle.chumsky_flatten.specs.Collections.{MayIterate, SameItem, AsMany};

use chumsky_input::extra::ParserExtra;
use chumsky_input::input::Input;
use chumsky_input::input_ref::InputRef;
use chumsky_input::stop::PResult;
use chumsky_parser::iter::{IsIterParser, IterParser, IterParserDebug, Iterates};
use chumsky_parser::moving::{Moving, MovingItems};
use chumsky_parser::parser::{IsParser, Parser};
use std::marker::PhantomData;

/// The items of a parser's output. See `into_iter`.
#[derive(Drop)]
#[derive_where(Clone, Copy; A)]
pub struct IntoIter<A, O> {
    pub parser: A,
    pub of: PhantomData<O>,
}

impl<I, O: IntoIterator, E, A: IsParser<I, O, E>> IsIterParser<I, O::Item, E> for IntoIter<A, O> {}

impl<A, O: IntoIterator> Iterates for IntoIter<A, O> {
    /// The iterator over the output.
    type IterState = O::IntoIter;
}

impl<'src, I, O, E, A> IterParser<'src, I, O::Item, E> for IntoIter<A, O>
where
    I: Input<'src>,
    O: IntoIterator,
    O::Item: Drop,
    E: ParserExtra<I>,
    A: Parser<'src, I, O, E>,
{
    ghost use Rattle.chumsky_parser.specs.ItemsLanguage.{of_unsaid_items};
    ghost use Rattle.chumsky_flatten.specs.Collections.{MayIterate, SameRest, SameItem, AsMany};
    ghost use Rattle.chumsky_flatten.specs.IntoItems.{BeginsOver, GivesNext};
    ghost use Rattle.chumsky_flatten.specs.IntoItemsLaws.{into_items-end, into_items-agree};

    ghost ready = { λ p. A.ready p.parser × MayIterate O.into_iter_gives O.IntoIter.can_next };

    ghost may_step = { λ _ s. O.IntoIter.can_next s };

    ghost begins = { λ p errors states. BeginsOver O.into_iter_gives (A.meaning p.parser errors states) };

    ghost gives = { λ _ d s errors states. GivesNext O.IntoIter.next_gives s };

    ghost steady = { λ p. A.steady p.parser × AsMany O.into_iter_gives O.IntoIter.next_gives (A.same p.parser) };

    ghost same = { λ p. SameItem O.into_iter_gives O.IntoIter.next_gives (A.same p.parser) };

    ghost alike = { λ p. SameRest O.into_iter_gives O.IntoIter.next_gives (A.same p.parser) };

    ghost ends_after_start = { λ p d. into_items-end O.into_iter_gives O.IntoIter.next_gives _ (A.ends_after_start p.parser) };

    ghost agrees = { λ p s d. into_items-agree O.into_iter_gives O.IntoIter.next_gives _ (A.same p.parser) s.1 (A.agrees p.parser s.0) };

    ghost accepts = { λ _ _. of_unsaid_items };

    #[inline(always)]
    fn make_iter(&self, inp: &mut InputRef<'src, '_, I, E>) -> PResult<O::IntoIter> {
        let output = self.parser.go_emit(inp)?;
        Ok(output.into_iter())
    }

    #[inline(always)]
    fn next_emit(
        &self,
        _inp: &mut InputRef<'src, '_, I, E>,
        state: &mut O::IntoIter,
        _debug: IterParserDebug,
    ) -> PResult<Option<O::Item>> {
        Ok(state.next())
    }

    #[inline(always)]
    fn next_check(
        &self,
        _inp: &mut InputRef<'src, '_, I, E>,
        state: &mut O::IntoIter,
        _debug: IterParserDebug,
    ) -> PResult<Option<()>> {
        match state.next() {
            None => Ok(None),
            Some(item) => {
                drop(item);
                Ok(Some(()))
            }
        }
    }
}

impl<I, O: IntoIterator, E, A: IsParser<I, O, E>> IsParser<I, (), E> for IntoIter<A, O> {}

impl<'src, I: Input<'src>, O: IntoIterator, E: ParserExtra<I>, A: Parser<'src, I, O, E>> Parser<
    'src,
    I,
    (),
    E,
> for IntoIter<A, O> {
    ghost use Rattle.chumsky_parser.specs.FailureLaws.{SameUnit};
    ghost use Rattle.chumsky_parser.specs.Ignoring.{Gives, IgnoringFirst};
    ghost use Rattle.chumsky_parser.specs.IgnoringLaws.{gives-ends, gives-agrees, ignoring_first-ends, ignoring_first-agrees};
    ghost use Rattle.chumsky_combinator.specs.MappedLanguage.{ignored_language, ignored-accepts};

    ghost ready = { λ p. A.ready p.parser };

    ghost meaning = { λ p errors states. IgnoringFirst (A.meaning p.parser errors states) (Gives tt) };

    ghost steady = { λ p. A.steady p.parser };

    ghost same = { λ _. SameUnit };

    ghost language = { λ p. ignored_language (A.language p.parser) };

    ghost ends_after_start = { λ p. ignoring_first-ends _ _ (A.ends_after_start p.parser) (gives-ends tt) };

    ghost agrees = { λ p s. ignoring_first-agrees _ _ (A.same p.parser) SameUnit (A.agrees p.parser s) (gives-agrees tt SameUnit tt) };

    ghost accepts = { λ p. ignored-accepts _ (A.accepts p.parser) };

    #[inline(always)]
    fn go_emit(&self, inp: &mut InputRef<'src, '_, I, E>) -> PResult<()> {
        self.parser.go_check(inp)
    }

    #[inline(always)]
    fn go_check(&self, inp: &mut InputRef<'src, '_, I, E>) -> PResult<()> {
        self.parser.go_check(inp)
    }
}

/// The parser runs where the iteration is made.
impl<'src, I, O, E, A> MovingItems<'src, I, O::Item, E> for IntoIter<A, O>
where
    I: Input<'src>,
    O: IntoIterator,
    O::Item: Drop,
    E: ParserExtra<I>,
    A: Moving<'src, I, O, E>,
{
    ghost use Rattle.chumsky_flatten.specs.IntoItemsLaws.{into_items-move};

    ghost first_moves = { λ p. A.moves p.parser };

    ghost first_moved = { λ p e d. into_items-move O.into_iter_gives _ _ (A.moved p.parser e) };

    fn first_always_moves(&self) -> bool
        ensures { result ≡ A.moves self.now.parser }
    {
        self.parser.always_moves()
    }
}

impl<'src, I: Input<'src>, O: IntoIterator, E: ParserExtra<I>, A: Moving<'src, I, O, E>> Moving<
    'src,
    I,
    (),
    E,
> for IntoIter<A, O> {
    ghost use Rattle.chumsky_parser.specs.IgnoringLaws.{gives-ends};
    ghost use Rattle.chumsky_parser.specs.ProgressLaws.{chained-first, asked-moves};

    ghost moves = { λ p. A.moves p.parser };

    ghost moved = { λ p e. chained-first _ _ (asked-moves false _ (A.moved p.parser e)) (λ _. gives-ends tt) };

    fn always_moves(&self) -> bool
        ensures { result ≡ A.moves self.now.parser }
    {
        self.parser.always_moves()
    }
}

/// When it is ready and steady, and which outputs are the same: `a.into_iter()`, as a parser of items and as a plain parser.
/// Two of its items are the same where iterators give them that have given as many items of outputs of `a` that are the same.
pub fn into_iter_is_steady<'src, I, O, E, A>(into_iter: &IntoIter<A, O>)
where
    I: Input<'src>,
    O: IntoIterator,
    O::Item: Drop,
    E: ParserExtra<I>,
    A: Parser<'src, I, O, E>,
    ensures ready { A.ready into_iter.now.parser → MayIterate O.into_iter_gives O.IntoIter.can_next → ⟦<IntoIter<A, O> as IterParser<'src, I, O::Item, E>>⟧.ready into_iter.now }
    ensures ready_plain { A.ready into_iter.now.parser → ⟦<IntoIter<A, O> as Parser<'src, I, (), E>>⟧.ready into_iter.now }
    ensures plain { A.steady into_iter.now.parser → ⟦<IntoIter<A, O> as Parser<'src, I, (), E>>⟧.steady into_iter.now }
    ensures steady { A.steady into_iter.now.parser → AsMany O.into_iter_gives O.IntoIter.next_gives (A.same into_iter.now.parser) → ⟦<IntoIter<A, O> as IterParser<'src, I, O::Item, E>>⟧.steady into_iter.now }
    ensures same { (x : O.Item) (y : O.Item) → ⟦<IntoIter<A, O> as IterParser<'src, I, O::Item, E>>⟧.same into_iter.now x y → SameItem O.into_iter_gives O.IntoIter.next_gives (A.same into_iter.now.parser) x y }
{}
