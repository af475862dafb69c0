//! A parser whose failures are mapped by a closure that is shown the run.
ghost use Rattle.std.specs.Prelude.{◌≡◌, ◌≤◌};
ghost use Rattle.chumsky_input.specs.Extra.{KeepsState, MayAnswer, shown_from};
ghost use Rattle.chumsky_judge.specs.MapErr.{MapsShown, MapsKeptOf, MapsOnceShown};

use chumsky_input::error::Error;
use chumsky_input::extra::ParserExtra;
use chumsky_input::input::Input;
use chumsky_input::input_ref::{InputRef, Located};
use chumsky_input::inspector::Inspector;
use chumsky_input::map_extra::{MapExtra, call_with_extra};
use chumsky_input::stop::{Fault, PResult};
use chumsky_parser::moving::Moving;
use chumsky_parser::parser::{IsParser, Parser};

/// A parser whose failures are mapped by a closure that is shown the run. See `map_err_with`.
#[derive(Clone, Copy, Drop)]
pub struct MapErrWith<A, F> {
    pub parser: A,
    pub mapper: F,
}

impl<I, O, E, A: IsParser<I, O, E>, F> IsParser<I, O, E> for MapErrWith<A, F> {}

impl<'src, I, O, E, A, F> Parser<'src, I, O, E> for MapErrWith<A, F>
where
    I: Input<'src>,
    O: Drop,
    E: ParserExtra<I>,
    A: Parser<'src, I, O, E>,
    F: Fn(E::Error, &mut MapExtra<'src, '_, I, E>) -> E::Error,
{
    ghost use Rattle.chumsky_judge.specs.MapErr.{MapsOnceShown, MeansMapErr};
    ghost use Rattle.chumsky_judge.specs.MapErrLaws.{map_err-ends, map_err-agrees};
    ghost use Rattle.chumsky_judge.specs.JudgedLanguage.{map_err-accepts};

    ghost ready = { λ p. A.ready p.parser × KeepsState I.Input E.State.Inspector F.Fn p.mapper };

    ghost meaning = { λ p errors states. MeansMapErr errors.merged (MapsShown errors.seen (MayAnswer I.Input states F.Fn p.mapper)) (A.meaning p.parser errors states) };

    ghost steady = { λ p. A.steady p.parser × MapsOnceShown (MapsShown E.Error.seen (MayAnswer I.Input E.State.Inspector F.Fn p.mapper)) };

    ghost same = { λ p. A.same p.parser };

    ghost ends_after_start = { λ p. map_err-ends _ _ _ (A.ends_after_start p.parser) };

    ghost agrees = { λ p s. map_err-agrees _ _ _ (A.same p.parser) s.1 (A.agrees p.parser s.0) };

    ghost language = { λ p. A.language p.parser };

    ghost accepts = { λ p. map_err-accepts _ _ _ (A.accepts p.parser) };

    #[inline]
    fn go_emit(&self, inp: &mut InputRef<'src, '_, I, E>) -> PResult<O> {
        let start = inp.cursor();
        let older = inp.take_kept();
        match self.parser.go_emit(inp) {
            Ok(value) => {
                inp.keep_before(older)?;
                Ok(value)
            }
            Err(Fault::Fail) => Err(map_kept_with(&self.mapper, &start, older, inp)),
            Err(Fault::Stop(stop)) => Err(Fault::Stop(stop)),
        }
    }

    #[inline]
    fn go_check(&self, inp: &mut InputRef<'src, '_, I, E>) -> PResult<()> {
        let start = inp.cursor();
        let older = inp.take_kept();
        match self.parser.go_check(inp) {
            Ok(()) => {
                inp.keep_before(older)?;
                Ok(())
            }
            Err(Fault::Fail) => Err(map_kept_with(&self.mapper, &start, older, inp)),
            Err(Fault::Stop(stop)) => Err(Fault::Stop(stop)),
        }
    }
}

/// A failure of a part that ran with nothing kept: the error that it kept is mapped, after what was kept before.
#[inline]
fn map_kept_with<'src, I, E, F>(
    mapper: &F,
    start: &I::Cursor,
    older: Option<Located<E::Error>>,
    inp: &mut InputRef<'src, '_, I, E>,
) -> Fault
where
    I: Input<'src>,
    E: ParserExtra<I>,
    F: Fn(E::Error, &mut MapExtra<'src, '_, I, E>) -> E::Error,
    requires callable { KeepsState I.Input E.State.Inspector F.Fn mapper.now }
    requires tokens { I.cursor_tokens start.now ≡ I.cursor_tokens inp.old.cursor }
    requires order { I.place start.now ≤ I.place inp.old.cursor }
    ensures maps { MapsKeptOf I.Input E.Error.Error E.State.Inspector
        (λ held. MapsShown E.Error.seen (MayAnswer I.Input E.State.Inspector F.Fn mapper.now) (shown_from (I.place start.now) held))
        older inp.old inp.new result }
    ensures lent { inp.new.state.ghost_name ≡ inp.old.state.ghost_name }
{
    match inp.take_kept() {
        None => {
            inp.put_kept(older);
            Fault::Fail
        }
        Some(kept) => {
            let error = call_with_extra(mapper, kept.error, start, inp);
            inp.put_kept(older);
            inp.add_event(kept.place, error)
        }
    }
}

impl<'src, I, O, E, A, F> Moving<'src, I, O, E> for MapErrWith<A, F>
where
    I: Input<'src>,
    O: Drop,
    E: ParserExtra<I>,
    A: Moving<'src, I, O, E>,
    F: Fn(E::Error, &mut MapExtra<'src, '_, I, E>) -> E::Error,
{
    ghost use Rattle.chumsky_judge.specs.JudgedMoves.{map_err-moves};

    ghost moves = { λ p. A.moves p.parser };

    ghost moved = { λ p e. map_err-moves _ _ _ (A.moved p.parser e) };

    fn always_moves(&self) -> bool
        ensures { result ≡ A.moves self.now.parser }
    {
        self.parser.always_moves()
    }
}

/// When it is ready and steady, and which outputs are the same: `a.map_err_with(f)`, where `f` gives one error and leaves one
/// state, to each error and each run that it is shown.
pub fn map_err_with_is_steady<
    'src,
    I: Input<'src>,
    O: Drop,
    E: ParserExtra<I>,
    A: Parser<'src, I, O, E>,
    F: Fn(E::Error, &mut MapExtra<'src, '_, I, E>) -> E::Error,
>(map_err: &MapErrWith<A, F>)
    ensures ready { A.ready map_err.now.parser → KeepsState I.Input E.State.Inspector F.Fn map_err.now.mapper → ⟦<MapErrWith<A, F> as Parser<'src, I, O, E>>⟧.ready map_err.now }
    ensures steady { A.steady map_err.now.parser → MapsOnceShown (MapsShown E.Error.seen (MayAnswer I.Input E.State.Inspector F.Fn map_err.now.mapper)) → ⟦<MapErrWith<A, F> as Parser<'src, I, O, E>>⟧.steady map_err.now }
    ensures same { (x y : O) → ⟦<MapErrWith<A, F> as Parser<'src, I, O, E>>⟧.same map_err.now x y → A.same map_err.now.parser x y }
{}
