//! Operators in a row.
ghost use Rattle.std.specs.Prelude.{◌≡◌, ◌<◌, ◌^◌, ℕ, true, false, zero, suc};
ghost use Rattle.chumsky_input.specs.Run.{Runs, with_value, without_value};
ghost use Rattle.chumsky_folds.specs.Running.{InTokens, NotPast, OnlyState, AnswersSince};
ghost use Rattle.chumsky_pratt.specs.Operators.{SameAnd};

use crate::fixity::Fixity;
use crate::operands::Operands;
use crate::operator::{HasOutput, Operator};
use chumsky_input::extra::ParserExtra;
use chumsky_input::input::Input;
use chumsky_input::input_ref::InputRef;
use chumsky_input::stop::PResult;

/// What is found of a row: which operator, and its output.
///
/// It stands by itself, and not in `Operators`, since it rests on the row's type alone.
pub trait HasFound {
    type Found: Drop;
}

/// Some operators in a row, by their index.
pub trait Operators<'src, I: Input<'src>, O, E: ParserExtra<I>>: HasFound {
    ghost use Rattle.chumsky_input.specs.Outcome.{EndsAfterStart, Agreeing};
    ghost use Rattle.chumsky_parser.specs.Showing.{OnlyAnswers};
    ghost use Rattle.chumsky_pratt.specs.Operators.{OperatorSyntax};
    ghost use Rattle.chumsky_pratt.specs.Operating.{OperatorLanguages, OperateAs, unsaid_languages};

    /// That their parsers may be run, and their folders called.
    ghost ready: { Self → Type 0 };
    /// How many they are, how each stands, what reading each may do, and what may be given for it.
    ghost syntax: { Self → OperatorSyntax I I.Token I.Span E.Error E.State E.State.Mark E.Context Self.Found O };
    /// That they answer alike each time.
    ghost steady: { Self → Type 0 };
    /// Which finds count as the same.
    ghost same: { Self → Self.Found → Self.Found → Type 0 };
    /// The language of each; by default nothing is said.
    ghost languages: { Self → OperatorLanguages I.Token O } = { λ _. unsaid_languages };

    /// How many they are.
    fn count(&self) -> usize
        requires { ready self.now }
        ensures { result ≡ (syntax self.now).number };

    /// How one stands.
    fn fixity(&self, index: usize) -> Fixity
        requires { index < (syntax self.now).number }
        ensures { result ≡ (syntax self.now).stands index };

    /// Reads one.
    fn read_emit(&self, index: usize, inp: &mut InputRef<'src, '_, I, E>) -> PResult<Self::Found>
        requires ready { ready self.now }
        requires there { index < (syntax self.now).number }
        ensures ran { Runs I.Input E.Error.Error E.State.Inspector ((syntax self.now).reads index E.Error.Error E.State.Inspector) true inp.old inp.new (with_value result) }
        ensures lent { inp.new.state.ghost_name ≡ inp.old.state.ghost_name };

    /// Reads one, without its output.
    fn read_check(&self, index: usize, inp: &mut InputRef<'src, '_, I, E>) -> PResult<()>
        requires ready { ready self.now }
        requires there { index < (syntax self.now).number }
        ensures ran { Runs I.Input E.Error.Error E.State.Inspector ((syntax self.now).reads index E.Error.Error E.State.Inspector) false inp.old inp.new (without_value result) }
        ensures lent { inp.new.state.ghost_name ≡ inp.old.state.ghost_name };

    /// One value of what was found and its operands, shown what the run took since a cursor of its input.
    fn fold(
        &self,
        found: Self::Found,
        operands: Operands<O>,
        since: &I::Cursor,
        inp: &mut InputRef<'src, '_, I, E>,
    ) -> O
        requires ready { ready self.now }
        requires tokens { InTokens I.Input E.Error.Error E.State.Inspector since.now inp.old }
        requires order { NotPast I.Input E.Error.Error E.State.Inspector since.now inp.old }
        ensures gives { AnswersSince I.Input E.Error.Error E.State.Inspector ((syntax self.now).gives E.State.Inspector (found, operands)) since.now inp.old inp.new result }
        ensures moves { OnlyState I.Input E.Error.Error E.State.Inspector inp.old inp.new }
        ensures lent { inp.new.state.ghost_name ≡ inp.old.state.ghost_name };

    /// No answer of reading one ends before its start.
    ghost ends_after_start: { (p : Self) (i : ℕ) → EndsAfterStart ((syntax p).reads i E.Error.Error E.State.Inspector) };

    /// Two answers of reading one of steady operators agree.
    ghost agrees: { (p : Self) → steady p → (i : ℕ) → Agreeing (same p) ((syntax p).reads i E.Error.Error E.State.Inspector) ((syntax p).reads i E.Error.Error E.State.Inspector) };

    /// Steady operators give one value for the same, and leave the state as it is.
    ghost gives_one: { (p : Self) → steady p → OnlyAnswers ((syntax p).gives E.State.Inspector) };

    /// What is said of each holds.
    ghost each_operates: { (p : Self) → OperateAs (λ i. (syntax p).reads i E.Error.Error E.State.Inspector) ((syntax p).gives E.State.Inspector) (languages p) };
}

/// What is found of an operator or of others.
#[derive(Drop)]
pub enum Found<A, B> {
    Here(A),
    There(B),
}

/// The last operator of a row.
#[derive(Clone, Copy, Drop)]
pub struct LastOperator<T> {
    pub operator: T,
}

/// An operator before others.
#[derive(Clone, Copy, Drop)]
pub struct OperatorAnd<T, R> {
    pub operator: T,
    pub others: R,
}

impl<T: HasOutput> HasFound for LastOperator<T> {
    type Found = T::Output;
}

impl<T: HasOutput, R: HasFound> HasFound for OperatorAnd<T, R> {
    type Found = Found<T::Output, R::Found>;
}

impl<'src, I: Input<'src>, O: Drop, E: ParserExtra<I>, T: Operator<'src, I, O, E>> Operators<
    'src,
    I,
    O,
    E,
> for LastOperator<T> {
    ghost use Rattle.chumsky_pratt.specs.Operating.{last_languages};
    ghost use Rattle.chumsky_pratt.specs.OperatingLaws.{last-operates};

    ghost ready = { λ p. T.ready p.operator };

    ghost syntax = { λ p. record {
      number = 1;
      stands = λ i. T.stands p.operator;
      reads = λ i. T.reads p.operator;
      gives = T.gives p.operator;
    } };

    ghost steady = { λ p. T.steady p.operator };

    ghost same = { λ p. T.same p.operator };

    ghost languages = { λ p. last_languages (T.language p.operator) };

    ghost ends_after_start = { λ p i. T.ends_after_start p.operator };

    ghost agrees = { λ p s i. T.agrees p.operator s };

    ghost gives_one = { λ p s. T.gives_one p.operator s };

    ghost each_operates = { λ p. last-operates (T.operates p.operator) };

    #[inline]
    fn count(&self) -> usize {
        1
    }

    #[inline]
    fn fixity(&self, _index: usize) -> Fixity {
        self.operator.fixity()
    }

    #[inline]
    fn read_emit(&self, _index: usize, inp: &mut InputRef<'src, '_, I, E>) -> PResult<T::Output> {
        self.operator.read_emit(inp)
    }

    #[inline]
    fn read_check(&self, _index: usize, inp: &mut InputRef<'src, '_, I, E>) -> PResult<()> {
        self.operator.read_check(inp)
    }

    #[inline]
    fn fold(
        &self,
        found: T::Output,
        operands: Operands<O>,
        since: &I::Cursor,
        inp: &mut InputRef<'src, '_, I, E>,
    ) -> O
        requires ready { T.ready self.now.operator }
        requires tokens { InTokens I.Input E.Error.Error E.State.Inspector since.now inp.old }
        requires order { NotPast I.Input E.Error.Error E.State.Inspector since.now inp.old }
        ensures gives { AnswersSince I.Input E.Error.Error E.State.Inspector (T.gives self.now.operator E.State.Inspector (found, operands)) since.now inp.old inp.new result }
        ensures moves { OnlyState I.Input E.Error.Error E.State.Inspector inp.old inp.new }
        ensures lent { inp.new.state.ghost_name ≡ inp.old.state.ghost_name }
    {
        self.operator.fold(found, operands, since, inp)
    }
}

impl<
    'src,
    I: Input<'src>,
    O: Drop,
    E: ParserExtra<I>,
    T: Operator<'src, I, O, E>,
    R: Operators<'src, I, O, E>,
> Operators<'src, I, O, E> for OperatorAnd<T, R> {
    ghost use Rattle.chumsky_pratt.specs.Operators.{fixity_and, GivesAnd, SameAnd, gives_and-one, reads-ends, reads-agree};
    ghost use Rattle.chumsky_pratt.specs.Doing.{reads_and};
    ghost use Rattle.chumsky_pratt.specs.Operating.{and_languages};
    ghost use Rattle.chumsky_pratt.specs.OperatingLaws.{row-operates};

    ghost ready = { λ p. T.ready p.operator × R.ready p.others × (suc (R.syntax p.others).number < 2 ^ 64) };

    ghost syntax = { λ p. record {
      number = suc (R.syntax p.others).number;
      stands = fixity_and (T.stands p.operator) (R.syntax p.others).stands;
      reads = reads_and (T.reads p.operator) (R.syntax p.others).reads;
      gives = λ states. GivesAnd (T.gives p.operator states) ((R.syntax p.others).gives states);
    } };

    ghost steady = { λ p. T.steady p.operator × R.steady p.others };

    ghost same = { λ p. SameAnd (T.same p.operator) (R.same p.others) };

    ghost languages = { λ p. and_languages (T.language p.operator) (R.languages p.others) };

    ghost ends_after_start = { λ p. reads-ends _ _ (T.ends_after_start p.operator) (R.ends_after_start p.others) };

    ghost agrees = { λ p s. reads-agree (T.same p.operator) (R.same p.others) _ _ (T.agrees p.operator s.0) (R.agrees p.others s.1) };

    ghost gives_one = { λ p s. gives_and-one _ _ (T.gives_one p.operator s.0) (R.gives_one p.others s.1) };

    ghost each_operates = { λ p. row-operates (T.operates p.operator) (R.each_operates p.others) };

    #[inline]
    fn count(&self) -> usize {
        self.others.count() + 1
    }

    #[inline]
    fn fixity(&self, index: usize) -> Fixity {
        if index == 0 {
            self.operator.fixity()
        } else {
            self.others.fixity(index - 1)
        }
    }

    #[inline]
    fn read_emit(
        &self,
        index: usize,
        inp: &mut InputRef<'src, '_, I, E>,
    ) -> PResult<Found<T::Output, R::Found>> {
        if index == 0 {
            let here = self.operator.read_emit(inp)?;
            return Ok(Found::Here(here));
        }
        let there = self.others.read_emit(index - 1, inp)?;
        Ok(Found::There(there))
    }

    #[inline]
    fn read_check(&self, index: usize, inp: &mut InputRef<'src, '_, I, E>) -> PResult<()> {
        if index == 0 {
            self.operator.read_check(inp)
        } else {
            self.others.read_check(index - 1, inp)
        }
    }

    #[inline]
    fn fold(
        &self,
        found: Found<T::Output, R::Found>,
        operands: Operands<O>,
        since: &I::Cursor,
        inp: &mut InputRef<'src, '_, I, E>,
    ) -> O
        requires ready { T.ready self.now.operator × R.ready self.now.others × (suc (R.syntax self.now.others).number < 2 ^ 64) }
        requires tokens { InTokens I.Input E.Error.Error E.State.Inspector since.now inp.old }
        requires order { NotPast I.Input E.Error.Error E.State.Inspector since.now inp.old }
        ensures gives { AnswersSince I.Input E.Error.Error E.State.Inspector (GivesAnd (T.gives self.now.operator E.State.Inspector) ((R.syntax self.now.others).gives E.State.Inspector) (found, operands)) since.now inp.old inp.new result }
        ensures moves { OnlyState I.Input E.Error.Error E.State.Inspector inp.old inp.new }
        ensures lent { inp.new.state.ghost_name ≡ inp.old.state.ghost_name }
    {
        match found {
            Found::Here(here) => self.operator.fold(here, operands, since, inp),
            Found::There(there) => self.others.fold(there, operands, since, inp),
        }
    }
}

/// When it is ready and steady, and which outputs are the same: operators in a row, as a tuple of them makes it. What is read
/// of two is the same where both are one operator, which calls it so.
pub fn operators_are_steady<
    'src,
    I: Input<'src>,
    O: Drop,
    E: ParserExtra<I>,
    T: Operator<'src, I, O, E>,
    R: Operators<'src, I, O, E>,
>(row: &OperatorAnd<T, R>, last: &LastOperator<T>)
    ensures ready { T.ready row.now.operator → R.ready row.now.others → suc (R.syntax row.now.others).number < 2 ^ 64 → ⟦<OperatorAnd<T, R> as Operators<'src, I, O, E>>⟧.ready row.now }
    ensures ready_last { T.ready last.now.operator → ⟦<LastOperator<T> as Operators<'src, I, O, E>>⟧.ready last.now }
    ensures steady { T.steady row.now.operator → R.steady row.now.others → ⟦<OperatorAnd<T, R> as Operators<'src, I, O, E>>⟧.steady row.now }
    ensures steady_last { T.steady last.now.operator → ⟦<LastOperator<T> as Operators<'src, I, O, E>>⟧.steady last.now }
    ensures same { (x y : _) → ⟦<OperatorAnd<T, R> as Operators<'src, I, O, E>>⟧.same row.now x y → SameAnd (T.same row.now.operator) (R.same row.now.others) x y }
    ensures same_last { (x y : _) → ⟦<LastOperator<T> as Operators<'src, I, O, E>>⟧.same last.now x y → T.same last.now.operator x y }
{}
