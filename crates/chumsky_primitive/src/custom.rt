//! A parser given by a reader, as by a closure.
ghost use Rattle.std.specs.Prelude.{◌≡◌, Bool, ⊤, false};
ghost use Rattle.chumsky_input.specs.Aside.{GoesForward};
ghost use Rattle.chumsky_input.specs.Held.{held};
ghost use Rattle.chumsky_input.specs.Run.{Runs};
ghost use Rattle.chumsky_parser.specs.Failure.{asked};
ghost use Rattle.chumsky_primitive.specs.Custom.{MayRun, Calls, MeansCustom, IsSteady, SameCalled};

use chumsky_input::error::Error;
use chumsky_input::extra::ParserExtra;
use chumsky_input::input::Input;
use chumsky_input::input_ref::InputRef;
use chumsky_input::inspector::Inspector;
use chumsky_input::stop::{Failure, Fault, PResult};
use chumsky_parser::moving::Moving;
use chumsky_parser::parser::{IsParser, Parser};
use std::marker::PhantomData;

/// What reads a value of a run that it is lent. Each closure
/// `Fn(&mut InputRef<I, E>) -> Result<O, Failure<E::Error>>` is one, and so is a type of one's own that has an impl, which
/// writes no clause:
///
/// ```text
/// pub struct TwoTokens;
///
/// impl<'src> Reader<'src, &'src str, Option<char>, RichText> for TwoTokens {
///     fn read(
///         &self,
///         inp: &mut InputRef<'src, '_, &'src str, RichText>,
///     ) -> Result<Option<char>, Failure<Rich<char>>> {
///         inp.next()?;
///         Ok(inp.next()?)
///     }
/// }
/// ```
///
/// After a value and after an error it stands where it began or further on, in the same tokens, under the same context, with
/// the older emitted errors before any new ones, and no parser that it ran has stopped; after a stop of one it answers that.
pub trait Reader<'src, I: Input<'src>, O, E: ParserExtra<I>> {
    ghost use Rattle.chumsky_primitive.specs.Custom.{ReadsBy};

    /// That it may be called. Where nothing is said, it may.
    ghost callable: { Self → Type 0 } = { λ reader. ⊤ };

    /// What it may do, from what is held where it begins: its answer, and what it leaves. Where nothing is said, anything
    /// that a reader may.
    ghost gives: { Self → ReadsBy I I.Token I.Span E.Error E.State E.State.Mark E.Context O } = { λ _ _ _ _ _ _. ⊤ };

    /// Reads on from where the run stands.
    fn read(&self, inp: &mut InputRef<'src, '_, I, E>) -> Result<O, Failure<E::Error>>
        requires { callable self.now }
        ensures gives { gives self.now E.Error.Error E.State.Inspector (held I.Input E.Error.Error E.State.Inspector inp.old) result (held I.Input E.Error.Error E.State.Inspector inp.new) }
        ensures forward { GoesForward result (held I.Input E.Error.Error E.State.Inspector inp.old) (held I.Input E.Error.Error E.State.Inspector inp.new) }
        ensures lent { inp.new.state.ghost_name ≡ inp.old.state.ghost_name };
}

impl<'src, I, O, E, F> Reader<'src, I, O, E> for F
where
    I: Input<'src>,
    I::Token: 'src,
    E: ParserExtra<I>,
    F: Fn(&mut InputRef<'src, '_, I, E>) -> Result<O, Failure<E::Error>>,
{
    ghost callable = { λ f. MayRun I.Input E.Error.Error E.State.Inspector F.Fn f };

    ghost gives = { λ f errors states. Calls I.Input errors states F.Fn f };

    #[inline(always)]
    fn read(&self, inp: &mut InputRef<'src, '_, I, E>) -> Result<O, Failure<E::Error>> {
        (*self)(inp)
    }
}

/// A parser given by a reader. See `custom` and `custom_by`.
#[derive(Drop)]
#[derive_where(Clone, Copy; F)]
pub struct Custom<F, I, O, E> {
    pub reader: F,
    pub of: PhantomData<(I, O, E)>,
}

impl<F, I, O, E> IsParser<I, O, E> for Custom<F, I, O, E> {}

impl<'src, F, I, O, E> Parser<'src, I, O, E> for Custom<F, I, O, E>
where
    I: Input<'src>,
    I::Token: 'src,
    O: Drop,
    E: ParserExtra<I>,
    F: Reader<'src, I, O, E>,
{
    ghost use Rattle.chumsky_parser.specs.Language.{of_unsaid};
    ghost use Rattle.chumsky_primitive.specs.Custom.{IsSteady, SameCalled};
    ghost use Rattle.chumsky_primitive.specs.CustomLaws.{custom-ends, custom-agrees};

    ghost ready = { λ p. F.callable p.reader };

    ghost meaning = { λ p errors states. MeansCustom errors.seen (F.gives p.reader errors states) };

    ghost steady = { λ p. IsSteady E.Error.seen (F.gives p.reader E.Error.Error E.State.Inspector) };

    ghost same = { λ p. SameCalled (F.gives p.reader E.Error.Error E.State.Inspector) };

    ghost ends_after_start = { λ p. custom-ends _ _ };

    ghost agrees = { λ p s. custom-agrees _ _ s };

    ghost accepts = { λ _. of_unsaid };

    #[inline]
    fn go_emit(&self, inp: &mut InputRef<'src, '_, I, E>) -> PResult<O> {
        call(self, inp)
    }

    #[inline]
    fn go_check(&self, inp: &mut InputRef<'src, '_, I, E>) -> PResult<()> {
        let value = call(self, inp)?;
        drop(value);
        Ok(())
    }
}

/// Lets the reader read on with nothing kept and nothing emitted, so that what it does is seen by itself, and
/// puts what was held before that.
#[inline]
fn call<'src, F, I, O, E>(
    parser: &Custom<F, I, O, E>,
    inp: &mut InputRef<'src, '_, I, E>,
) -> PResult<O>
where
    I: Input<'src>,
    O: Drop,
    E: ParserExtra<I>,
    F: Reader<'src, I, O, E>,
    requires { F.callable parser.now.reader }
    ensures ran { (wanted : Bool) → Runs I.Input E.Error.Error E.State.Inspector (MeansCustom E.Error.seen (F.gives parser.now.reader E.Error.Error E.State.Inspector)) wanted inp.old inp.new (asked wanted result) }
    ensures lent { inp.new.state.ghost_name ≡ inp.old.state.ghost_name }
{
    let start = inp.cursor();
    let context = inp.ctx();
    let older = inp.set_aside();
    match parser.reader.read(inp) {
        Ok(value) => {
            inp.bring_back(older)?;
            Ok(value)
        }
        Err(Failure::Error(error)) => {
            inp.bring_back(older)?;
            Err(inp.add_event(I::place(&start), error))
        }
        Err(Failure::Stop(stop)) => {
            inp.restore(start, context);
            Err(Fault::Stop(stop))
        }
    }
}

impl<'src, F, I, O, E> Moving<'src, I, O, E> for Custom<F, I, O, E>
where
    I: Input<'src>,
    I::Token: 'src,
    O: Drop,
    E: ParserExtra<I>,
    F: Reader<'src, I, O, E>,
{
    ghost use Rattle.chumsky_parser.specs.ProgressLaws.{never};

    ghost moved = { λ _. never };

    fn always_moves(&self) -> bool
        ensures { result ≡ false }
    {
        false
    }
}

/// `custom` and `custom_by` are steady where any two calls of the reader from one beginning end alike.
pub fn custom_is_steady<'src, F, I, O, E>(parser: &Custom<F, I, O, E>)
where
    I: Input<'src>,
    I::Token: 'src,
    O: Drop,
    E: ParserExtra<I>,
    F: Reader<'src, I, O, E>,
    ensures ready { F.callable parser.now.reader → ⟦<Custom<F, I, O, E> as Parser<'src, I, O, E>>⟧.ready parser.now }
    ensures steady { IsSteady E.Error.seen (F.gives parser.now.reader E.Error.Error E.State.Inspector) → ⟦<Custom<F, I, O, E> as Parser<'src, I, O, E>>⟧.steady parser.now }
    ensures same { (x y : O) → ⟦<Custom<F, I, O, E> as Parser<'src, I, O, E>>⟧.same parser.now x y → SameCalled (F.gives parser.now.reader E.Error.Error E.State.Inspector) x y }
{}

/// A closure reads where it may be called on every `InputRef`, keeps the reference to the state, goes forward, and passes on the
/// stop of a parser that it ran.
pub fn closures_may_read<'src, F, I, O, E>(reader: &F)
where
    I: Input<'src>,
    I::Token: 'src,
    E: ParserExtra<I>,
    F: Fn(&mut InputRef<'src, '_, I, E>) -> Result<O, Failure<E::Error>>,
    ensures { MayRun I.Input E.Error.Error E.State.Inspector F.Fn reader.now → ⟦<F as Reader<'src, I, O, E>>⟧.callable reader.now }
{}
