//! A closure that looks at what a parser took, and may emit errors.
ghost use Rattle.std.specs.Prelude.{◌≡◌, ◌≤◌, Some, [], MatchResult};
ghost use Rattle.chumsky_input.specs.Aside.{SameButErrors};
ghost use Rattle.chumsky_input.specs.Extra.{shown_from};
ghost use Rattle.chumsky_judge.specs.Calls.{Changes, RunsAnyway, SameButState};
ghost use Rattle.chumsky_judge.specs.Validated.{MayValidate, Validates, ByEmitter, MeansValidate, EmitsAfter, emitted_by, EmitsAlike, SameValidated};

use chumsky_input::aside::Aside;
use chumsky_input::emitter::Emitter;
use chumsky_input::error::Error;
use chumsky_input::extra::ParserExtra;
use chumsky_input::input::Input;
use chumsky_input::input_ref::InputRef;
use chumsky_input::inspector::Inspector;
use chumsky_input::map_extra::MapExtra;
use chumsky_input::stop::PResult;
use chumsky_parser::moving::Moving;
use chumsky_parser::parser::{IsParser, Parser};
use std::alloc::{AllocError, Global};
use std::marker::PhantomData;

/// A parser whose output goes through a closure that is shown the run and may emit errors. See `validate`.
#[derive(Drop)]
#[derive_where(Clone, Copy; A, F)]
pub struct Validate<A, O, F, U> {
    pub parser: A,
    pub validator: F,
    pub of: PhantomData<(O, U)>,
}

impl<I, O, U, E, A: IsParser<I, O, E>, F> IsParser<I, U, E> for Validate<A, O, F, U> {}

impl<'src, I, O, U, E, A, F> Parser<'src, I, U, E> for Validate<A, O, F, U>
where
    I: Input<'src>,
    U: Drop,
    E: ParserExtra<I>,
    A: Parser<'src, I, O, E>,
    F: Fn(O, &mut MapExtra<'src, '_, I, E>, &mut Emitter<E::Error>) -> U,
{
    ghost use Rattle.chumsky_judge.specs.Validated.{EmitsAlike, SameValidated};
    ghost use Rattle.chumsky_judge.specs.ValidatedLaws.{validated-ends, validated-agrees};
    ghost use Rattle.chumsky_judge.specs.ValidatedLanguage.{validated_language, validated-accepts};

    ghost ready = { λ p. A.ready p.parser × MayValidate I.Input E.State.Inspector F.Fn p.validator };

    ghost meaning = { λ p errors states. MeansValidate (ByEmitter I.Input states F.Fn p.validator errors.seen) (A.meaning p.parser errors states) };

    ghost steady = { λ p. A.steady p.parser × EmitsAlike (ByEmitter I.Input E.State.Inspector F.Fn p.validator E.Error.seen) (A.same p.parser) };

    ghost same = { λ p. SameValidated (ByEmitter I.Input E.State.Inspector F.Fn p.validator E.Error.seen) (A.same p.parser) };

    ghost ends_after_start = { λ p. validated-ends _ _ (A.ends_after_start p.parser) };

    ghost agrees = { λ p s. validated-agrees _ _ (A.same p.parser) (A.agrees p.parser s.0) s.1 };

    ghost language = { λ p. validated_language (ByEmitter I.Input E.State.Inspector F.Fn p.validator E.Error.seen) (A.language p.parser) };

    ghost accepts = { λ p. validated-accepts _ _ (A.accepts p.parser) };

    #[inline]
    fn go_emit(&self, inp: &mut InputRef<'src, '_, I, E>) -> PResult<U> {
        run_validator(self, inp)
    }

    #[inline]
    fn go_check(&self, inp: &mut InputRef<'src, '_, I, E>) -> PResult<()> {
        let output = run_validator(self, inp)?;
        drop(output);
        Ok(())
    }
}

/// Runs the part for its output, and calls the closure on it.
#[inline]
fn run_validator<'src, I, O, U, E, A, F>(
    validate: &Validate<A, O, F, U>,
    inp: &mut InputRef<'src, '_, I, E>,
) -> PResult<U>
where
    I: Input<'src>,
    U: Drop,
    E: ParserExtra<I>,
    A: Parser<'src, I, O, E>,
    F: Fn(O, &mut MapExtra<'src, '_, I, E>, &mut Emitter<E::Error>) -> U,
    requires part { A.ready validate.now.parser }
    requires validator { MayValidate I.Input E.State.Inspector F.Fn validate.now.validator }
    ensures ran { RunsAnyway I.Input E.Error.Error E.State.Inspector
        (⟦<Validate<A, O, F, U> as Parser<'src, I, U, E>>⟧.meaning validate.now) inp.old inp.new result }
    ensures lent { inp.new.state.ghost_name ≡ inp.old.state.ghost_name }
{
    let start = inp.cursor();
    let value = validate.parser.go_emit(inp)?;
    let (output, emitter) = call_with_emitter(&validate.validator, value, &start, inp);
    emit_all(emitter, inp)?;
    Ok(output)
}

/// Calls a validator with a value, an extra over what the run took since a cursor of its input, and an emitter that has
/// emitted nothing.
#[inline]
fn call_with_emitter<'src, I, E, O, U, F>(
    validator: &F,
    value: O,
    since: &I::Cursor,
    inp: &mut InputRef<'src, '_, I, E>,
) -> (U, Emitter<E::Error>)
where
    I: Input<'src>,
    E: ParserExtra<I>,
    F: Fn(O, &mut MapExtra<'src, '_, I, E>, &mut Emitter<E::Error>) -> U,
    requires callable { MayValidate I.Input E.State.Inspector F.Fn validator.now }
    requires tokens { I.cursor_tokens since.now ≡ I.cursor_tokens inp.old.cursor }
    requires order { I.place since.now ≤ I.place inp.old.cursor }
    ensures validates { Changes I.Input E.Error.Error E.State.Inspector
        (λ old new. Validates I.Input E.State.Inspector F.Fn validator.now value
        (shown_from (I.place since.now) old) result.0 new.state result.1)
        inp.old inp.new }
    ensures moves { Changes I.Input E.Error.Error E.State.Inspector SameButState inp.old inp.new }
    ensures lent { inp.new.state.ghost_name ≡ inp.old.state.ghost_name }
{
    let (to, context, alloc) = (inp.cursor(), inp.ctx(), inp.alloc());
    validate_shown::<I, E, O, U, F>(
        validator,
        value,
        since,
        &to,
        &mut *inp.state,
        context,
        alloc,
    )
}

/// Calls a validator with a value, an extra that shows what lies between two cursors, and an emitter that has emitted nothing.
#[inline]
fn validate_shown<'src, I, E, O, U, F>(
    validator: &F,
    value: O,
    from: &I::Cursor,
    to: &I::Cursor,
    state: &mut E::State,
    context: &E::Context,
    alloc: Global,
) -> (U, Emitter<E::Error>)
where
    I: Input<'src>,
    E: ParserExtra<I>,
    F: Fn(O, &mut MapExtra<'src, '_, I, E>, &mut Emitter<E::Error>) -> U,
    requires callable { MayValidate I.Input E.State.Inspector F.Fn validator.now }
    requires tokens { I.cursor_tokens from.now ≡ I.cursor_tokens to.now }
    requires order { I.place from.now ≤ I.place to.now }
    ensures { Validates I.Input E.State.Inspector F.Fn validator.now value
        (record { tokens = I.cursor_tokens to.now; from = I.place from.now; to = I.place to.now; context = context.now; state = E.State.seen state.old })
        result.0 (E.State.seen state.new) result.1 }
{
    let mut extra: MapExtra<'src, '_, I, E> = MapExtra {
        from: *from,
        to: *to,
        state,
        context,
        alloc,
        source: PhantomData,
    };
    let mut emitter = Emitter::new(alloc);
    let output = validator(value, &mut extra, &mut emitter);
    let MapExtra {
        from: _,
        to: _,
        state: lent,
        context: _,
        alloc: _,
        source: _,
    } = extra;
    let _last = &*lent;
    (output, emitter)
}

/// Emits what an emitter was given, after what is emitted already.
#[inline]
fn emit_all<'src, I: Input<'src>, E: ParserExtra<I>>(
    emitter: Emitter<E::Error>,
    inp: &mut InputRef<'src, '_, I, E>,
) -> Result<(), AllocError>
    ensures emits { let errors = emitted_by E.Error.seen emitter in Changes I.Input E.Error.Error E.State.Inspector
        (λ old new. MatchResult result (λ _. EmitsAfter errors old new) (λ _. (errors ≡ Some [] → ⊥) × SameButErrors old new))
        inp.old inp.new }
    ensures lent { inp.new.state.ghost_name ≡ inp.old.state.ghost_name }
{
    let errors = emitter.into_errors()?;
    if errors.is_empty() {
        return Ok(());
    }
    let older = inp.set_aside();
    inp.put_errors(Aside {
        kept: None,
        emitted: errors,
    });
    inp.bring_back(older)
}

impl<'src, I, O, U, E, A, F> Moving<'src, I, U, E> for Validate<A, O, F, U>
where
    I: Input<'src>,
    U: Drop,
    E: ParserExtra<I>,
    A: Moving<'src, I, O, E>,
    F: Fn(O, &mut MapExtra<'src, '_, I, E>, &mut Emitter<E::Error>) -> U,
{
    ghost use Rattle.chumsky_judge.specs.ValidatedLanguage.{validated-moves};

    ghost moves = { λ p. A.moves p.parser };

    ghost moved = { λ p e. validated-moves _ _ (A.moved p.parser e) };

    fn always_moves(&self) -> bool
        ensures { result ≡ A.moves self.now.parser }
    {
        self.parser.always_moves()
    }
}

/// When it is ready and steady, and which outputs are the same: `a.validate(f)`.
pub fn validate_is_steady<
    'src,
    I: Input<'src>,
    O,
    U: Drop,
    E: ParserExtra<I>,
    A: Parser<'src, I, O, E>,
    F: Fn(O, &mut MapExtra<'src, '_, I, E>, &mut Emitter<E::Error>) -> U,
>(validate: &Validate<A, O, F, U>)
    ensures ready { A.ready validate.now.parser → MayValidate I.Input E.State.Inspector F.Fn validate.now.validator → ⟦<Validate<A, O, F, U> as Parser<'src, I, U, E>>⟧.ready validate.now }
    ensures steady { A.steady validate.now.parser → EmitsAlike (ByEmitter I.Input E.State.Inspector F.Fn validate.now.validator E.Error.seen) (A.same validate.now.parser) → ⟦<Validate<A, O, F, U> as Parser<'src, I, U, E>>⟧.steady validate.now }
    ensures same { (x y : U) → ⟦<Validate<A, O, F, U> as Parser<'src, I, U, E>>⟧.same validate.now x y → SameValidated (ByEmitter I.Input E.State.Inspector F.Fn validate.now.validator E.Error.seen) (A.same validate.now.parser) x y }
{}
