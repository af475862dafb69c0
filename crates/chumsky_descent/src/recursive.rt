//! A call of a function that runs a part of a grammar, as a parser.
ghost use Rattle.std.specs.Prelude.{◌≡◌, IfOk, is_some};
ghost use Rattle.chumsky_input.specs.Run.{Runs};
ghost use Rattle.chumsky_descent.specs.Calls.{MayCall, DoesCall};

use chumsky_input::error::Error;
use chumsky_input::extra::ParserExtra;
use chumsky_input::input::Input;
use chumsky_input::input_ref::InputRef;
use chumsky_input::inspector::Inspector;
use chumsky_input::stop::{Fault, PResult, Stop};
use chumsky_parser::parser::{IsParser, Parser};
use std::marker::PhantomData;

/// Says of a type, a marker, what the body of a function means that runs a part of a grammar: of what a call in it means.
///
/// `Nothing` is said by `Unsaid`, and where the impl is empty. `Means (λ depth call. ..)` says what the body may do.
/// `Steady same (λ depth call. ..) (λ depth call. ..)` says also which outputs count as the same, and that two answers of the
/// body agree where two of the call do; then `check` is known to agree with `parse`. `exactly` says which language the function
/// has: which texts it accepts, and with which values. It takes the body from an impl of `Body`, which stands for it.
pub trait Recursion<'src, I: Input<'src>, O, E: ParserExtra<I>> {
    ghost use Rattle.chumsky_descent.specs.Calls.{Says, Nothing};

    /// What is said of the function.
    ghost says: { Says I I.Token I.Span E.Error E.State E.State.Mark E.Context O } = { λ errors states. Nothing };
}

/// Says nothing of a function.
pub struct Unsaid;

impl<'src, I: Input<'src>, O, E: ParserExtra<I>> Recursion<'src, I, O, E> for Unsaid {}

/// What a function ensures of which a marker says what it means: the clause
/// `⟦<Unsaid as RunsUnder<'src, &'src str, Json, RichText>>⟧.runs depth wanted inp.old inp.new result`. A body that ends in
/// `run_part` shows it.
pub trait RunsUnder<'src, I: Input<'src>, O, E: ParserExtra<I>> {
    ghost use Rattle.chumsky_descent.specs.Calls.{IsRunUnder};

    /// Under a depth, from `old` to `new`, a part ran that means what is said, with a value where one is wanted.
    ghost runs: { IsRunUnder I E I.Token I.Span I.Cursor E.Error E.State E.Context E.State.Mark O };
}

impl<'src, I: Input<'src>, O, E: ParserExtra<I>, R: Recursion<'src, I, O, E>> RunsUnder<
    'src,
    I,
    O,
    E,
> for R {
    ghost use Rattle.chumsky_descent.specs.Calls.{DoesUnder, RunsPart};

    ghost runs = { λ depth wanted old new result. RunsPart I.Input E.Error.Error E.State.Inspector
        (DoesUnder (R.says E.Error.Error E.State.Inspector) depth) wanted old new result };
}

/// A call of a function under a depth. See `recursive`.
#[derive(Drop)]
#[derive_where(Clone, Copy; F)]
pub struct Called<F, R, I, O, E> {
    pub function: F,
    pub depth: usize,
    pub of: PhantomData<(R, I, O, E)>,
}

impl<F, R, I, O, E> IsParser<I, O, E> for Called<F, R, I, O, E> {}

impl<'src, F, R, I, O, E> Parser<'src, I, O, E> for Called<F, R, I, O, E>
where
    I: Input<'src>,
    I::Token: 'src,
    O: Drop,
    E: ParserExtra<I>,
    R: Recursion<'src, I, O, E>,
    F: Fn(&mut InputRef<'src, '_, I, E>, bool, usize) -> PResult<Option<O>>,
{
    ghost use Rattle.chumsky_descent.specs.CallLanguage.{language_of, does_call-accepts};
    ghost use Rattle.chumsky_descent.specs.Calls.{same_of, IsSteady};
    ghost use Rattle.chumsky_descent.specs.CallLaws.{does_call-ends, does_call-agrees};

    ghost ready = { λ p. MayCall I.Input E.Error.Error E.State.Inspector F.Fn p.function (R.says E.Error.Error E.State.Inspector) p.depth };

    ghost meaning = { λ p errors states. DoesCall (R.says errors states) p.depth };

    ghost steady = { λ p. IsSteady (R.says E.Error.Error E.State.Inspector) };

    ghost same = { λ p. same_of (R.says E.Error.Error E.State.Inspector) };

    ghost language = { λ p. language_of (R.says E.Error.Error E.State.Inspector) p.depth };

    ghost ends_after_start = { λ p. does_call-ends (R.says _ _) p.depth };

    ghost agrees = { λ p s. does_call-agrees (R.says _ _) s p.depth };

    ghost accepts = { λ p. does_call-accepts (R.says _ _) p.depth };

    #[inline]
    fn go_emit(&self, inp: &mut InputRef<'src, '_, I, E>) -> PResult<O> {
        match call(self, true, inp) {
            Ok(Some(value)) => Ok(value),
            Ok(None) => unreachable!(),
            Err(fault) => Err(fault),
        }
    }

    #[inline]
    fn go_check(&self, inp: &mut InputRef<'src, '_, I, E>) -> PResult<()> {
        let _none = call(self, false, inp)?;
        Ok(())
    }
}

/// Calls the function under one less of depth, for its output where one is wanted.
#[inline]
fn call<'src, F, R, I, O, E>(
    called: &Called<F, R, I, O, E>,
    wanted: bool,
    inp: &mut InputRef<'src, '_, I, E>,
) -> PResult<Option<O>>
where
    I: Input<'src>,
    E: ParserExtra<I>,
    R: Recursion<'src, I, O, E>,
    F: Fn(&mut InputRef<'src, '_, I, E>, bool, usize) -> PResult<Option<O>>,
    requires { MayCall I.Input E.Error.Error E.State.Inspector F.Fn called.now.function (R.says E.Error.Error E.State.Inspector) called.now.depth }
    ensures ran { Runs I.Input E.Error.Error E.State.Inspector (DoesCall (R.says E.Error.Error E.State.Inspector) called.now.depth) wanted inp.old inp.new result }
    ensures as_wanted { IfOk result (λ value. is_some value ≡ wanted) }
    ensures lent { inp.new.state.ghost_name ≡ inp.old.state.ghost_name }
{
    if called.depth == 0 {
        return Err(Fault::Stop(Stop::TooDeep));
    }
    (called.function)(inp, wanted, called.depth - 1)
}

/// The parser that calls a function under one less of depth: the function may be the one in whose body the call stands.
/// Where no depth is left, the run is refused with `Stop::TooDeep`.
///
/// `recursive(brackets, depth).delimited_by(just('['), just(']'))` in the body of `brackets`, which is lent a run, told whether
/// a value is wanted, and given a depth. From outside, `recursive::<_, _, _, RichText>(brackets, 1_000).parse(alloc, text)`.
#[inline]
pub fn recursive<F, I, O, E>(function: F, depth: usize) -> Called<F, Unsaid, I, O, E>
    ensures function { result.function ≡ function }
    ensures depth { result.depth ≡ depth }
{
    Called {
        function,
        depth,
        of: PhantomData,
    }
}

/// `recursive` of a function of which the marker `R` says what it means: `recursive_as::<OfPairs, _, _, _, _>(pairs, depth)`.
#[inline]
pub fn recursive_as<R, F, I, O, E>(function: F, depth: usize) -> Called<F, R, I, O, E>
    ensures function { result.function ≡ function }
    ensures depth { result.depth ≡ depth }
{
    Called {
        function,
        depth,
        of: PhantomData,
    }
}
