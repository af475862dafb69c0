//! Operators of one type in a slice, a `Vec` or an array, as a row.
ghost use Rattle.std.specs.Prelude.{◌≡◌, ◌<◌, true, false, length, All};
ghost use Rattle.chumsky_input.specs.Run.{Runs, with_value, without_value};
ghost use Rattle.chumsky_folds.specs.Running.{InTokens, NotPast, OnlyState, AnswersSince};
ghost use Rattle.chumsky_pratt.specs.Listed.{fixity_in, GivesIn, gives_in, reads_in, SameIn};

use crate::fixity::Fixity;
use crate::operands::Operands;
use crate::operator::{HasOutput, Operator};
use crate::row::{HasFound, Operators};
use chumsky_input::extra::ParserExtra;
use chumsky_input::input::Input;
use chumsky_input::input_ref::InputRef;
use chumsky_input::stop::PResult;
use std::convert::AsSlice;
use std::marker::PhantomData;

/// Operators of one type, in what lends them as a slice: a slice, a `Vec` or an array.
#[derive(Drop)]
#[derive_where(Clone, Copy; L)]
pub struct OperatorList<T, L> {
    pub operators: L,
    pub of: PhantomData<T>,
}

/// What is found of a list of operators: what was read of one, and its index.
#[derive(Drop)]
pub struct FoundAt<A> {
    pub index: usize,
    pub found: A,
}

/// How the operator of an index stands.
#[inline]
fn fixity_at<'src, I: Input<'src>, O, E: ParserExtra<I>, T: Operator<'src, I, O, E>>(
    operators: &[T],
    index: usize,
) -> Fixity
    requires { index < length operators.now }
    ensures { result ≡ fixity_in T.stands operators.now index }
{
    let operator = &operators[index];
    operator.fixity()
}

/// Reads the operator of an index.
#[inline]
fn emit_at<'src, I: Input<'src>, O, E: ParserExtra<I>, T: Operator<'src, I, O, E>>(
    operators: &[T],
    index: usize,
    inp: &mut InputRef<'src, '_, I, E>,
) -> PResult<FoundAt<T::Output>>
    requires ready { All T.ready operators.now }
    requires there { index < length operators.now }
    ensures ran { Runs I.Input E.Error.Error E.State.Inspector
        (reads_in T.reads operators.now index E.Error.Error E.State.Inspector)
        true inp.old inp.new (with_value result) }
    ensures lent { inp.new.state.ghost_name ≡ inp.old.state.ghost_name }
{
    let operator = &operators[index];
    let found = operator.read_emit(inp)?;
    Ok(FoundAt { index, found })
}

/// The same without its output.
#[inline]
fn check_at<'src, I: Input<'src>, O, E: ParserExtra<I>, T: Operator<'src, I, O, E>>(
    operators: &[T],
    index: usize,
    inp: &mut InputRef<'src, '_, I, E>,
) -> PResult<()>
    requires ready { All T.ready operators.now }
    requires there { index < length operators.now }
    ensures ran { Runs I.Input E.Error.Error E.State.Inspector
        (reads_in T.reads operators.now index E.Error.Error E.State.Inspector)
        false inp.old inp.new (without_value result) }
    ensures lent { inp.new.state.ghost_name ≡ inp.old.state.ghost_name }
{
    let operator = &operators[index];
    operator.read_check(inp)
}

/// One value of what was found and its operands; where no operator has its index, the first operand.
#[inline]
fn fold_at<'src, I: Input<'src>, O: Drop, E: ParserExtra<I>, T: Operator<'src, I, O, E>>(
    operators: &[T],
    found: FoundAt<T::Output>,
    operands: Operands<O>,
    since: &I::Cursor,
    inp: &mut InputRef<'src, '_, I, E>,
) -> O
    requires ready { All T.ready operators.now }
    requires tokens { InTokens I.Input E.Error.Error E.State.Inspector since.now inp.old }
    requires order { NotPast I.Input E.Error.Error E.State.Inspector since.now inp.old }
    ensures gives { AnswersSince I.Input E.Error.Error E.State.Inspector
        (GivesIn (λ t. T.gives t E.State.Inspector) operators.now (found, operands)) since.now inp.old inp.new result }
    ensures moves { OnlyState I.Input E.Error.Error E.State.Inspector inp.old inp.new }
    ensures lent { inp.new.state.ghost_name ≡ inp.old.state.ghost_name }
{
    let FoundAt { index, found } = found;
    match operators.get(index) {
        Some(operator) => operator.fold(found, operands, since, inp),
        None => operands.first(),
    }
}

impl<T: HasOutput, L> HasFound for OperatorList<T, L> {
    type Found = FoundAt<T::Output>;
}

impl<
    'src,
    I: Input<'src>,
    O: Drop,
    E: ParserExtra<I>,
    T: Operator<'src, I, O, E>,
    L: AsSlice<T>,
> Operators<'src, I, O, E> for OperatorList<T, L> {
    ghost use Rattle.chumsky_pratt.specs.Listed.{SameIn, reads_in-ends, reads_in-agree, gives_in-one};
    ghost use Rattle.chumsky_pratt.specs.ListedLanguage.{list_languages, list-operates};

    ghost ready = { λ p. All T.ready (L.items p.operators) };

    ghost syntax = { λ p. record {
      number = length (L.items p.operators);
      stands = fixity_in T.stands (L.items p.operators);
      reads = reads_in T.reads (L.items p.operators);
      gives = gives_in T.gives (L.items p.operators);
    } };

    ghost steady = { λ p. All T.steady (L.items p.operators) };

    ghost same = { λ p. SameIn T.same (L.items p.operators) };

    ghost languages = { λ p. list_languages T.language (L.items p.operators) };

    ghost ends_after_start = { λ p. reads_in-ends _ T.ends_after_start (L.items p.operators) };

    ghost agrees = { λ p s. reads_in-agree _ T.steady T.same T.agrees (L.items p.operators) s };

    ghost gives_one = { λ p s. gives_in-one _ T.steady T.gives_one (L.items p.operators) s };

    ghost each_operates = { λ p. list-operates T.operates (L.items p.operators) };

    #[inline]
    fn count(&self) -> usize {
        self.operators.as_slice().len()
    }

    #[inline]
    fn fixity(&self, index: usize) -> Fixity {
        fixity_at::<I, O, E, T>(self.operators.as_slice(), index)
    }

    #[inline]
    fn read_emit(
        &self,
        index: usize,
        inp: &mut InputRef<'src, '_, I, E>,
    ) -> PResult<FoundAt<T::Output>> {
        emit_at::<I, O, E, T>(self.operators.as_slice(), index, inp)
    }

    #[inline]
    fn read_check(&self, index: usize, inp: &mut InputRef<'src, '_, I, E>) -> PResult<()> {
        check_at::<I, O, E, T>(self.operators.as_slice(), index, inp)
    }

    #[inline]
    fn fold(
        &self,
        found: FoundAt<T::Output>,
        operands: Operands<O>,
        since: &I::Cursor,
        inp: &mut InputRef<'src, '_, I, E>,
    ) -> O
        requires ready { All T.ready (L.items self.now.operators) }
        requires tokens { InTokens I.Input E.Error.Error E.State.Inspector since.now inp.old }
        requires order { NotPast I.Input E.Error.Error E.State.Inspector since.now inp.old }
        ensures gives { AnswersSince I.Input E.Error.Error E.State.Inspector (gives_in T.gives (L.items self.now.operators) E.State.Inspector (found, operands)) since.now inp.old inp.new result }
        ensures moves { OnlyState I.Input E.Error.Error E.State.Inspector inp.old inp.new }
        ensures lent { inp.new.state.ghost_name ≡ inp.old.state.ghost_name }
    {
        fold_at::<I, O, E, T>(self.operators.as_slice(), found, operands, since, inp)
    }
}

/// When it is ready and steady, and which outputs are the same: operators of one type in a slice, a `Vec` or an array. What
/// is read of two is the same where both are one operator, which calls it so.
pub fn operators_of_a_list_are_steady<
    'src,
    I: Input<'src>,
    O: Drop,
    E: ParserExtra<I>,
    T: Operator<'src, I, O, E>,
    L: AsSlice<T>,
>(list: &OperatorList<T, L>)
    ensures ready { All T.ready (L.items list.now.operators) → ⟦<OperatorList<T, L> as Operators<'src, I, O, E>>⟧.ready list.now }
    ensures steady { All T.steady (L.items list.now.operators) → ⟦<OperatorList<T, L> as Operators<'src, I, O, E>>⟧.steady list.now }
    ensures same { (x y : _) → ⟦<OperatorList<T, L> as Operators<'src, I, O, E>>⟧.same list.now x y → SameIn T.same (L.items list.now.operators) x y }
{}
