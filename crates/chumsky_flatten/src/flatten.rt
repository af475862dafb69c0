//! The items of each item.
ghost use Rattle.std.specs.Prelude.{◌≡◌, true, false, None, Some, IfOk, IfSome, OnSome, MatchOption};
ghost use Rattle.std.specs.Option.{ForSome};
ghost use Rattle.chumsky_input.specs.Run.{Runs};
ghost use Rattle.chumsky_parser.specs.Items.{with_item};
ghost use Rattle.chumsky_flatten.specs.Collections.{MayIterate, SameItem, AsMany};
ghost use Rattle.chumsky_flatten.specs.Flattening.{with_rest};
ghost use Rattle.chumsky_flatten.specs.Running.{DoesInside, DoesFirstOfNext, DoesInHandOrNext};

use chumsky_input::extra::ParserExtra;
use chumsky_input::input::Input;
use chumsky_input::input_ref::InputRef;
use chumsky_input::stop::{Fault, PResult, Stop};
use chumsky_parser::iter::{IsIterParser, IterParser, IterParserDebug, Iterates};
use chumsky_parser::moving::MovingItems;
use std::marker::PhantomData;

/// The items of each item of a parser. See `flatten`.
#[derive(Drop)]
#[derive_where(Clone, Copy; A)]
pub struct Flatten<A, O> {
    pub parser: A,
    pub of: PhantomData<O>,
}

impl<I, O: IntoIterator, E, A: IsIterParser<I, O, E>> IsIterParser<I, O::Item, E>
    for Flatten<A, O> {}

impl<A: Iterates, O: IntoIterator> Iterates for Flatten<A, O> {
    /// The iteration inside, and the iterator over the collection in hand.
    type IterState = (A::IterState, Option<O::IntoIter>);
}

impl<'src, I, O, E, A> IterParser<'src, I, O::Item, E> for Flatten<A, O>
where
    I: Input<'src>,
    O: IntoIterator,
    O::Item: Drop,
    E: ParserExtra<I>,
    A: IterParser<'src, I, O, E>,
{
    ghost use Rattle.chumsky_parser.specs.ItemsLanguage.{of_unsaid_items};
    ghost use Rattle.chumsky_flatten.specs.Collections.{MayIterate, SameItem, AsMany};
    ghost use Rattle.chumsky_flatten.specs.Flattening.{BeginsInside, Flattens, AlikeInside};
    ghost use Rattle.chumsky_flatten.specs.FlatteningLaws.{flattens-end, flattens-agree};

    ghost ready = { λ p. A.ready p.parser × MayIterate O.into_iter_gives O.IntoIter.can_next };

    ghost may_step = { λ p s. A.may_step p.parser s.0 × ForSome s.1 O.IntoIter.can_next × MayIterate O.into_iter_gives O.IntoIter.can_next };

    ghost begins = { λ p errors states. BeginsInside (A.begins p.parser errors states) };

    ghost gives = { λ p d s errors states. Flattens states.mark states.back states.takes_no_memory O.into_iter_gives O.IntoIter.next_gives (λ t. A.gives p.parser (record { nonconsumption_is_ok = false }) t errors states) s };

    ghost steady = { λ p. A.steady p.parser × AsMany O.into_iter_gives O.IntoIter.next_gives (A.same p.parser) };

    ghost same = { λ p. SameItem O.into_iter_gives O.IntoIter.next_gives (A.same p.parser) };

    ghost alike = { λ p. AlikeInside O.into_iter_gives O.IntoIter.next_gives (A.alike p.parser) (A.same p.parser) };

    ghost ends_after_start = { λ p d. flattens-end E.State.mark E.State.back E.State.takes_no_memory O.into_iter_gives O.IntoIter.next_gives _ _ (A.ends_after_start p.parser (record { nonconsumption_is_ok = false })) };

    ghost agrees = { λ p s d. flattens-agree E.State.mark E.State.back E.State.takes_no_memory O.into_iter_gives O.IntoIter.next_gives _ _ (A.same p.parser) (A.alike p.parser) s.1 (A.agrees p.parser s.0 (record { nonconsumption_is_ok = false })) };

    ghost accepts = { λ _ _. of_unsaid_items };

    #[inline(always)]
    fn make_iter(
        &self,
        inp: &mut InputRef<'src, '_, I, E>,
    ) -> PResult<(A::IterState, Option<O::IntoIter>)> {
        let inner = self.parser.make_iter(inp)?;
        Ok((inner, None))
    }

    #[inline(always)]
    fn next_emit(
        &self,
        inp: &mut InputRef<'src, '_, I, E>,
        state: &mut (A::IterState, Option<O::IntoIter>),
        _debug: IterParserDebug,
    ) -> PResult<Option<O::Item>> {
        next_item::<I, O, E, A>(&self.parser, inp, state)
    }

    #[inline(always)]
    fn next_check(
        &self,
        inp: &mut InputRef<'src, '_, I, E>,
        state: &mut (A::IterState, Option<O::IntoIter>),
        _debug: IterParserDebug,
    ) -> PResult<Option<()>> {
        match next_item::<I, O, E, A>(&self.parser, inp, state)? {
            None => Ok(None),
            Some(item) => {
                drop(item);
                Ok(Some(()))
            }
        }
    }
}

/// The next item, made whether it is wanted or not.
#[inline(always)]
fn next_item<'src, I, O, E, A>(
    parser: &A,
    inp: &mut InputRef<'src, '_, I, E>,
    state: &mut (A::IterState, Option<O::IntoIter>),
) -> PResult<Option<O::Item>>
where
    I: Input<'src>,
    O: IntoIterator,
    O::Item: Drop,
    E: ParserExtra<I>,
    A: IterParser<'src, I, O, E>,
    requires inside { A.may_step parser.now state.old.0 }
    requires in_hand { ForSome state.old.1 O.IntoIter.can_next }
    requires collections { MayIterate O.into_iter_gives O.IntoIter.can_next }
    ensures ran { Runs I.Input E.Error.Error E.State.Inspector (DoesInHandOrNext (A.gives parser.now) O.into_iter_gives O.IntoIter.next_gives state.old.1 state.old.0 E.Error.Error E.State.Inspector) true inp.old inp.new (with_item state.new result) }
    ensures may { IfOk result (λ o. OnSome o (A.may_step parser.now state.new.0 × ForSome state.new.1 O.IntoIter.can_next)) }
    ensures lent { inp.new.state.ghost_name ≡ inp.old.state.ghost_name }
{
    if let Some(item) = next_in_hand(&mut state.1) {
        return Ok(Some(item));
    }
    match first_of_next::<I, O, E, A>(parser, inp, &mut state.0)? {
        None => Ok(None),
        Some((item, rest)) => {
            state.1 = Some(rest);
            Ok(Some(item))
        }
    }
}

/// The next item of the collection in hand, where there is one.
#[inline(always)]
fn next_in_hand<J: Iterator>(in_hand: &mut Option<J>) -> Option<J::Item>
    requires { ForSome in_hand.old J.can_next }
    ensures gives { MatchOption in_hand.old ((result ≡ None) × (in_hand.new ≡ None)) (λ j. (k : J) × J.next_gives j result k × (in_hand.new ≡ Some k)) }
    ensures may { OnSome result (ForSome in_hand.new J.can_next) }
{
    match in_hand {
        Some(rest) => rest.next(),
        None => None,
    }
}

/// The first item of the collections that follow, and the rest of its collection.
#[inline(always)]
fn first_of_next<'src, I, O, E, A>(
    parser: &A,
    inp: &mut InputRef<'src, '_, I, E>,
    inner: &mut A::IterState,
) -> PResult<Option<(O::Item, O::IntoIter)>>
where
    I: Input<'src>,
    O: IntoIterator,
    O::Item: Drop,
    E: ParserExtra<I>,
    A: IterParser<'src, I, O, E>,
    requires inside { A.may_step parser.now inner.old }
    requires collections { MayIterate O.into_iter_gives O.IntoIter.can_next }
    ensures ran { Runs I.Input E.Error.Error E.State.Inspector (DoesFirstOfNext (A.gives parser.now) O.into_iter_gives O.IntoIter.next_gives inner.old E.Error.Error E.State.Inspector) true inp.old inp.new (with_rest inner.new result) }
    ensures may { IfOk result (λ o. IfSome o (λ p. A.may_step parser.now inner.new × O.IntoIter.can_next p.1)) }
    ensures lent { inp.new.state.ghost_name ≡ inp.old.state.ghost_name }
{
    let mut passed = 0usize;
    loop {
        match step_inside::<I, O, E, A>(parser, inp, inner)? {
            None => return Ok(None),
            Some(collection) => {
                let mut rest = collection.into_iter();
                match rest.next() {
                    Some(item) => return Ok(Some((item, rest))),
                    None => {
                        if passed == usize::MAX {
                            return Err(Fault::Stop(Stop::CountTooLarge));
                        }
                        passed += 1;
                    }
                }
            }
        }
    }
}

/// A step of the items inside, for its value; gone back from where it fails.
#[inline(always)]
fn step_inside<'src, I, O, E, A>(
    parser: &A,
    inp: &mut InputRef<'src, '_, I, E>,
    inner: &mut A::IterState,
) -> PResult<Option<O>>
where
    I: Input<'src>,
    E: ParserExtra<I>,
    A: IterParser<'src, I, O, E>,
    requires { A.may_step parser.now inner.old }
    ensures ran { Runs I.Input E.Error.Error E.State.Inspector (DoesInside (A.gives parser.now) inner.old E.Error.Error E.State.Inspector) true inp.old inp.new (with_item inner.new result) }
    ensures may { IfOk result (λ o. OnSome o (A.may_step parser.now inner.new)) }
    ensures lent { inp.new.state.ghost_name ≡ inp.old.state.ghost_name }
{
    let before = inp.save()?;
    let debug = IterParserDebug {
        nonconsumption_is_ok: false,
    };
    match parser.next_emit(inp, inner, debug) {
        Ok(item) => Ok(item),
        Err(Fault::Stop(stop)) => Err(Fault::Stop(stop)),
        Err(Fault::Fail) => {
            inp.rewind(&before)?;
            Err(Fault::Fail)
        }
    }
}

/// Its first step begins with the first of the items inside.
impl<'src, I, O, E, A> MovingItems<'src, I, O::Item, E> for Flatten<A, O>
where
    I: Input<'src>,
    O: IntoIterator,
    O::Item: Drop,
    E: ParserExtra<I>,
    A: MovingItems<'src, I, O, E>,
{
    ghost use Rattle.chumsky_flatten.specs.FlatteningLaws.{flattens-move};

    ghost first_moves = { λ p. A.first_moves p.parser };

    ghost first_moved = { λ p e d. flattens-move E.State.mark E.State.back E.State.takes_no_memory O.into_iter_gives O.IntoIter.next_gives _ _ (A.ends_after_start p.parser (record { nonconsumption_is_ok = false })) (A.first_moved p.parser e (record { nonconsumption_is_ok = false })) };

    fn first_always_moves(&self) -> bool
        ensures { result ≡ A.first_moves self.now.parser }
    {
        self.parser.first_always_moves()
    }
}

/// When it is ready and steady, and which outputs are the same: `a.flatten()`. Two of its items are the same where iterators
/// give them that have given as many items of items of `a` that are the same.
pub fn flatten_is_steady<'src, I, O, E, A>(flatten: &Flatten<A, O>)
where
    I: Input<'src>,
    O: IntoIterator,
    O::Item: Drop,
    E: ParserExtra<I>,
    A: IterParser<'src, I, O, E>,
    ensures ready { A.ready flatten.now.parser → MayIterate O.into_iter_gives O.IntoIter.can_next → ⟦<Flatten<A, O> as IterParser<'src, I, O::Item, E>>⟧.ready flatten.now }
    ensures steady { A.steady flatten.now.parser → AsMany O.into_iter_gives O.IntoIter.next_gives (A.same flatten.now.parser) → ⟦<Flatten<A, O> as IterParser<'src, I, O::Item, E>>⟧.steady flatten.now }
    ensures same { (x : O.Item) (y : O.Item) → ⟦<Flatten<A, O> as IterParser<'src, I, O::Item, E>>⟧.same flatten.now x y → SameItem O.into_iter_gives O.IntoIter.next_gives (A.same flatten.now.parser) x y }
{}
