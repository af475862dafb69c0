//! A parser that a label names.
ghost use Rattle.std.specs.Prelude.{◌≡◌, ◌<◌, IsTrue, MatchOption};
ghost use Rattle.chumsky_judge.specs.Calls.{Changes};
ghost use Rattle.chumsky_label.specs.Labelling.{LabelsSeen};
ghost use Rattle.chumsky_label.specs.Labelled.{RelabelsOrLoses, KeepsOrLoses};
ghost use Rattle.chumsky_judge.specs.MapErr.{MapsOnce};

use crate::label_error::LabelError;
use chumsky_input::extra::ParserExtra;
use chumsky_input::input::Input;
use chumsky_input::input_ref::{InputRef, Located};
use chumsky_input::stop::{Fault, PResult};
use chumsky_parser::moving::Moving;
use chumsky_parser::parser::{IsParser, Parser};
use std::alloc::AllocError;

/// A parser that a label names. See `labelled`.
#[derive(Clone, Copy, Drop)]
pub struct Labelled<A, L> {
    pub parser: A,
    pub label: L,
}

impl<I, O, E, A: IsParser<I, O, E>, L> IsParser<I, O, E> for Labelled<A, L> {}

impl<'src, I, O, E, A, L> Parser<'src, I, O, E> for Labelled<A, L>
where
    I: Input<'src>,
    O: Drop,
    E: ParserExtra<I>,
    E::Error: LabelError<I, L>,
    A: Parser<'src, I, O, E>,
{
    ghost use Rattle.chumsky_judge.specs.MapErr.{MapsOnce};
    ghost use Rattle.chumsky_label.specs.Labelled.{MeansLabelled};
    ghost use Rattle.chumsky_label.specs.LabelledLaws.{labelled-ends, labelled-agrees};
    ghost use Rattle.chumsky_label.specs.LabelledLanguage.{labelled_language, labelled-accepts};

    ghost ready = { λ p. A.ready p.parser };

    ghost meaning = { λ p errors states. MeansLabelled errors.merged (LabelsSeen errors.seen (E.Error.LabelError.labelled errors p.label)) E.Error.LabelError.labels_freely (A.meaning p.parser errors states) };

    ghost steady = { λ p. A.steady p.parser × MapsOnce (LabelsSeen E.Error.Error.seen (E.Error.LabelError.labelled E.Error.Error p.label)) };

    ghost same = { λ p. A.same p.parser };

    ghost ends_after_start = { λ p. labelled-ends _ _ _ _ (A.ends_after_start p.parser) };

    ghost agrees = { λ p s. labelled-agrees _ _ _ _ (A.same p.parser) s.1 (A.agrees p.parser s.0) };

    ghost language = { λ p. labelled_language E.Error.LabelError.labels_freely (A.language p.parser) };

    ghost accepts = { λ p. labelled-accepts _ _ _ _ (A.accepts p.parser) };

    #[inline]
    fn go_emit(&self, inp: &mut InputRef<'src, '_, I, E>) -> PResult<O> {
        let start = I::place(&inp.cursor());
        let older = inp.take_kept();
        match self.parser.go_emit(inp) {
            Ok(value) => {
                keep_labelled(&self.label, start, older, inp)?;
                Ok(value)
            }
            Err(Fault::Fail) => {
                keep_labelled(&self.label, start, older, inp)?;
                Err(Fault::Fail)
            }
            Err(Fault::Stop(stop)) => Err(Fault::Stop(stop)),
        }
    }

    #[inline]
    fn go_check(&self, inp: &mut InputRef<'src, '_, I, E>) -> PResult<()> {
        let start = I::place(&inp.cursor());
        let older = inp.take_kept();
        match self.parser.go_check(inp) {
            Ok(()) => {
                keep_labelled(&self.label, start, older, inp)?;
                Ok(())
            }
            Err(Fault::Fail) => {
                keep_labelled(&self.label, start, older, inp)?;
                Err(Fault::Fail)
            }
            Err(Fault::Stop(stop)) => Err(Fault::Stop(stop)),
        }
    }
}

/// Puts the label into the error that is kept, if that stands at the start and no older error hides it, and the older error
/// before it.
#[inline]
fn keep_labelled<'src, I: Input<'src>, E: ParserExtra<I>, L>(
    label: &L,
    start: usize,
    older: Option<Located<E::Error>>,
    inp: &mut InputRef<'src, '_, I, E>,
) -> Result<(), AllocError>
where
    E::Error: LabelError<I, L>,
    ensures keeps { Changes I.Input E.Error.Error E.State.Inspector
        (KeepsOrLoses E.Error.Error (E.Error.LabelError.labelled E.Error.Error label.now) E.Error.LabelError.labels_freely start older result)
        inp.old inp.new }
    ensures lent { inp.new.state.ghost_name ≡ inp.old.state.ghost_name }
{
    if lies_past(start, &older) {
        // The older error hides the one at the start, so no label is put into that.
        return inp.keep_before(older);
    }
    relabel(label, start, inp)?;
    inp.keep_before(older)
}

/// Whether there is an error past a place.
#[inline]
fn lies_past<X>(place: usize, error: &Option<Located<X>>) -> bool
    ensures past { IsTrue result → MatchOption error.now ⊥ (λ e. place < e.place) }
{
    match error {
        None => false,
        Some(error) => place < error.place,
    }
}

/// Puts the label into the error that is kept, if that stands at the start. A refusal loses it.
#[inline]
fn relabel<'src, I: Input<'src>, E: ParserExtra<I>, L>(
    label: &L,
    start: usize,
    inp: &mut InputRef<'src, '_, I, E>,
) -> Result<(), AllocError>
where
    E::Error: LabelError<I, L>,
    ensures labels { Changes I.Input E.Error.Error E.State.Inspector
        (RelabelsOrLoses E.Error.Error (E.Error.LabelError.labelled E.Error.Error label.now) E.Error.LabelError.labels_freely start result)
        inp.old inp.new }
    ensures lent { inp.new.state.ghost_name ≡ inp.old.state.ghost_name }
{
    match inp.take_kept() {
        None => Ok(()),
        Some(kept) => {
            let Located { place, error } = kept;
            if place == start {
                let told = error.label_with(inp.alloc(), label)?;
                inp.put_kept(Some(Located { place, error: told }));
            } else {
                inp.put_kept(Some(Located { place, error }));
            }
            Ok(())
        }
    }
}

impl<'src, I, O, E, A, L> Moving<'src, I, O, E> for Labelled<A, L>
where
    I: Input<'src>,
    O: Drop,
    E: ParserExtra<I>,
    E::Error: LabelError<I, L>,
    A: Moving<'src, I, O, E>,
{
    ghost use Rattle.chumsky_label.specs.LabelledLanguage.{labelled-moves};

    ghost moves = { λ p. A.moves p.parser };

    ghost moved = { λ p e. labelled-moves _ _ _ _ (A.moved p.parser e) };

    fn always_moves(&self) -> bool
        ensures { result ≡ A.moves self.now.parser }
    {
        self.parser.always_moves()
    }
}

/// `a.labelled(label)`: ready where `a` is, and steady where to each error there is one that the label makes of it.
pub fn labelled_is_steady<
    'src,
    I: Input<'src>,
    O: Drop,
    E: ParserExtra<I>,
    A: Parser<'src, I, O, E>,
    L,
>(parser: &Labelled<A, L>)
where
    E::Error: LabelError<I, L>,
    ensures ready { A.ready parser.now.parser → ⟦<Labelled<A, L> as Parser<'src, I, O, E>>⟧.ready parser.now }
    ensures steady { A.steady parser.now.parser → MapsOnce (LabelsSeen E.Error.Error.seen (E.Error.LabelError.labelled E.Error.Error parser.now.label)) → ⟦<Labelled<A, L> as Parser<'src, I, O, E>>⟧.steady parser.now }
    ensures same { (x y : O) → ⟦<Labelled<A, L> as Parser<'src, I, O, E>>⟧.same parser.now x y → A.same parser.now.parser x y }
{}
