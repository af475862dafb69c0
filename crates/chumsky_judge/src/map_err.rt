//! A parser whose failures are mapped.
ghost use Rattle.std.specs.Prelude.{◌≡◌};
ghost use Rattle.chumsky_judge.specs.MapErr.{MapsSeen, MapsKeptOf, MapsOnce};

use chumsky_input::error::Error;
use chumsky_input::extra::ParserExtra;
use chumsky_input::input::Input;
use chumsky_input::input_ref::{InputRef, Located};
use chumsky_input::inspector::Inspector;
use chumsky_input::stop::{Fault, PResult};
use chumsky_parser::moving::Moving;
use chumsky_parser::parser::{IsParser, Parser};

/// A parser whose failures are mapped. See `map_err`.
#[derive(Clone, Copy, Drop)]
pub struct MapErr<A, F> {
    pub parser: A,
    pub mapper: F,
}

impl<I, O, E, A: IsParser<I, O, E>, F> IsParser<I, O, E> for MapErr<A, F> {}

impl<'src, I, O, E, A, F> Parser<'src, I, O, E> for MapErr<A, F>
where
    I: Input<'src>,
    O: Drop,
    E: ParserExtra<I>,
    A: Parser<'src, I, O, E>,
    F: Fn(E::Error) -> E::Error,
{
    ghost use Rattle.chumsky_judge.specs.MapErr.{MapsSeen, MapsOnce, Alone, MeansMapErr};
    ghost use Rattle.chumsky_judge.specs.MapErrLaws.{map_err-ends, map_err-agrees, alone-once};
    ghost use Rattle.chumsky_judge.specs.JudgedLanguage.{map_err-accepts};

    ghost ready = { λ p. A.ready p.parser × F.IsAlwaysCallable p.mapper };

    ghost meaning = { λ p errors states. MeansMapErr errors.merged (Alone (MapsSeen errors.seen (F.post p.mapper))) (A.meaning p.parser errors states) };

    ghost steady = { λ p. A.steady p.parser × MapsOnce (MapsSeen E.Error.seen (F.post p.mapper)) };

    ghost same = { λ p. A.same p.parser };

    ghost ends_after_start = { λ p. map_err-ends _ _ _ (A.ends_after_start p.parser) };

    ghost agrees = { λ p s. map_err-agrees _ _ _ (A.same p.parser) (alone-once s.1) (A.agrees p.parser s.0) };

    ghost language = { λ p. A.language p.parser };

    ghost accepts = { λ p. map_err-accepts _ _ _ (A.accepts p.parser) };

    #[inline]
    fn go_emit(&self, inp: &mut InputRef<'src, '_, I, E>) -> PResult<O> {
        let older = inp.take_kept();
        match self.parser.go_emit(inp) {
            Ok(value) => {
                inp.keep_before(older)?;
                Ok(value)
            }
            Err(Fault::Fail) => Err(map_kept(&self.mapper, older, inp)),
            Err(Fault::Stop(stop)) => Err(Fault::Stop(stop)),
        }
    }

    #[inline]
    fn go_check(&self, inp: &mut InputRef<'src, '_, I, E>) -> PResult<()> {
        let older = inp.take_kept();
        match self.parser.go_check(inp) {
            Ok(()) => {
                inp.keep_before(older)?;
                Ok(())
            }
            Err(Fault::Fail) => Err(map_kept(&self.mapper, older, inp)),
            Err(Fault::Stop(stop)) => Err(Fault::Stop(stop)),
        }
    }
}

/// A failure of a part that ran with nothing kept: the error that it kept is mapped, after what was kept before.
#[inline]
fn map_kept<'src, I: Input<'src>, E: ParserExtra<I>, F: Fn(E::Error) -> E::Error>(
    mapper: &F,
    older: Option<Located<E::Error>>,
    inp: &mut InputRef<'src, '_, I, E>,
) -> Fault
    requires { F.IsAlwaysCallable mapper.now }
    ensures maps { MapsKeptOf I.Input E.Error.Error E.State.Inspector
        (λ held e r s. MapsSeen E.Error.seen (F.post mapper.now) e r × (s ≡ held.state)) older inp.old inp.new result }
    ensures lent { inp.new.state.ghost_name ≡ inp.old.state.ghost_name }
{
    match inp.take_kept() {
        None => {
            inp.put_kept(older);
            Fault::Fail
        }
        Some(kept) => {
            let error = mapper(kept.error);
            inp.put_kept(older);
            inp.add_event(kept.place, error)
        }
    }
}

impl<'src, I, O, E, A, F> Moving<'src, I, O, E> for MapErr<A, F>
where
    I: Input<'src>,
    O: Drop,
    E: ParserExtra<I>,
    A: Moving<'src, I, O, E>,
    F: Fn(E::Error) -> E::Error,
{
    ghost use Rattle.chumsky_judge.specs.JudgedMoves.{map_err-moves};

    ghost moves = { λ p. A.moves p.parser };

    ghost moved = { λ p e. map_err-moves _ _ _ (A.moved p.parser e) };

    fn always_moves(&self) -> bool
        ensures { result ≡ A.moves self.now.parser }
    {
        self.parser.always_moves()
    }
}

/// When it is ready and steady, and which outputs are the same: `a.map_err(f)`, where `f` gives one error to each, by what
/// counts of them.
pub fn map_err_is_steady<
    'src,
    I: Input<'src>,
    O: Drop,
    E: ParserExtra<I>,
    A: Parser<'src, I, O, E>,
    F: Fn(E::Error) -> E::Error,
>(map_err: &MapErr<A, F>)
    ensures ready { A.ready map_err.now.parser → F.IsAlwaysCallable map_err.now.mapper → ⟦<MapErr<A, F> as Parser<'src, I, O, E>>⟧.ready map_err.now }
    ensures steady { A.steady map_err.now.parser → MapsOnce (MapsSeen E.Error.seen (F.post map_err.now.mapper)) → ⟦<MapErr<A, F> as Parser<'src, I, O, E>>⟧.steady map_err.now }
    ensures same { (x y : O) → ⟦<MapErr<A, F> as Parser<'src, I, O, E>>⟧.same map_err.now x y → A.same map_err.now.parser x y }
{}
