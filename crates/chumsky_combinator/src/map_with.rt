//! Output mappers that are shown the run.
ghost use Rattle.std.specs.Prelude.{◌≡◌, ◌≤◌};
ghost use Rattle.chumsky_input.specs.Extra.{KeepsState, MayAnswer, shown_from};
ghost use Rattle.chumsky_input.specs.Held.{held};
ghost use Rattle.chumsky_parser.specs.Showing.{OnlyAnswers, SameShown};

use crate::map::Mapper;
use chumsky_input::extra::ParserExtra;
use chumsky_input::input::Input;
use chumsky_input::input_ref::InputRef;
use chumsky_input::map_extra::{MapExtra, call_with_extra};
use chumsky_input::stop::PResult;
use chumsky_parser::moving::Moving;
use chumsky_parser::parser::{IsParser, Parser};
use std::marker::PhantomData;

/// What makes an output of another and of what it is shown of the run. Each closure `Fn(O, &mut MapExtra<I, E>) -> U` is one.
pub trait MapperWith<'src, I: Input<'src>, O, U, E: ParserExtra<I>> {
    ghost use Rattle.chumsky_parser.specs.Showing.{Makes};

    /// That it may be called, and keeps the reference to the state.
    ghost callable: { Self → Type 0 };

    /// What it may give for a value and what it is shown, and the state that it may leave.
    ghost gives: { Self → Makes I I.Token I.Span E.State E.State.Mark E.Context O U };

    /// The output for a value, shown what the run took since a cursor of its input.
    fn apply_with(&self, value: O, since: &I::Cursor, inp: &mut InputRef<'src, '_, I, E>) -> U
        requires callable { callable self.now }
        requires tokens { I.cursor_tokens since.now ≡ (held I.Input E.Error.Error E.State.Inspector inp.old).tokens }
        requires order { I.place since.now ≤ (held I.Input E.Error.Error E.State.Inspector inp.old).place }
        ensures gives { let new = held I.Input E.Error.Error E.State.Inspector inp.new in
            let old = held I.Input E.Error.Error E.State.Inspector inp.old in
            gives self.now E.State.Inspector value (shown_from (I.place since.now) old) result new.state }
        ensures moves { let new = held I.Input E.Error.Error E.State.Inspector inp.new in
            new ≡ record (held I.Input E.Error.Error E.State.Inspector inp.old) { state = new.state } }
        ensures lent { inp.new.state.ghost_name ≡ inp.old.state.ghost_name };
}

impl<'src, I, O, U, E, F> MapperWith<'src, I, O, U, E> for F
where
    I: Input<'src>,
    E: ParserExtra<I>,
    F: Fn(O, &mut MapExtra<'src, '_, I, E>) -> U,
{
    ghost callable = { λ f. KeepsState I.Input E.State.Inspector F.Fn f };

    ghost gives = { λ f states. MayAnswer I.Input states F.Fn f };

    #[inline(always)]
    fn apply_with(&self, value: O, since: &I::Cursor, inp: &mut InputRef<'src, '_, I, E>) -> U {
        call_with_extra(self, value, since, inp)
    }
}

/// A parser whose output goes through a closure that is shown the run. See `map_with`.
#[derive(Drop)]
#[derive_where(Clone, Copy; A, F)]
pub struct MapWith<A, O, F, U> {
    pub parser: A,
    pub mapper: F,
    pub of: PhantomData<(O, U)>,
}

impl<I, O, U, E, A: IsParser<I, O, E>, F> IsParser<I, U, E> for MapWith<A, O, F, U> {}

impl<'src, I, O, U, E, A, F> Parser<'src, I, U, E> for MapWith<A, O, F, U>
where
    I: Input<'src>,
    E: ParserExtra<I>,
    A: Parser<'src, I, O, E>,
    F: MapperWith<'src, I, O, U, E>,
{
    ghost use Rattle.chumsky_combinator.specs.MappedWithLanguage.{map_with_language, map_with-accepts};
    ghost use Rattle.chumsky_parser.specs.Showing.{OnlyAnswers, SameShown};
    ghost use Rattle.chumsky_combinator.specs.MappedWith.{MappedWith};
    ghost use Rattle.chumsky_combinator.specs.MappedWithLaws.{mapped_with-ends, mapped_with-agrees};

    ghost ready = { λ p. A.ready p.parser × F.callable p.mapper };

    ghost meaning = { λ p errors states. MappedWith (F.gives p.mapper states) (A.meaning p.parser errors states) };

    ghost steady = { λ p. A.steady p.parser × OnlyAnswers (F.gives p.mapper E.State.Inspector) };

    ghost same = { λ p. SameShown (F.gives p.mapper E.State.Inspector) (A.same p.parser) };

    ghost language = { λ p. map_with_language (F.gives p.mapper E.State.Inspector) (A.language p.parser) };

    ghost ends_after_start = { λ p. mapped_with-ends _ _ (A.ends_after_start p.parser) };

    ghost agrees = { λ p s. mapped_with-agrees _ s.1 (A.same p.parser) _ (A.agrees p.parser s.0) };

    ghost accepts = { λ p. map_with-accepts _ _ (A.accepts p.parser) };

    #[inline(always)]
    fn go_emit(&self, inp: &mut InputRef<'src, '_, I, E>) -> PResult<U> {
        let before = inp.cursor();
        let value = self.parser.go_emit(inp)?;
        Ok(self.mapper.apply_with(value, &before, inp))
    }

    #[inline(always)]
    fn go_check(&self, inp: &mut InputRef<'src, '_, I, E>) -> PResult<()> {
        self.parser.go_check(inp)
    }
}

impl<'src, I, O, U, E, A, F> Moving<'src, I, U, E> for MapWith<A, O, F, U>
where
    I: Input<'src>,
    E: ParserExtra<I>,
    A: Moving<'src, I, O, E>,
    F: MapperWith<'src, I, O, U, E>,
{
    ghost use Rattle.chumsky_combinator.specs.MappedWithLaws.{mapped_with-moves};

    ghost moves = { λ p. A.moves p.parser };

    ghost moved = { λ p e. mapped_with-moves _ _ (A.moved p.parser e) };

    fn always_moves(&self) -> bool
        ensures { result ≡ A.moves self.now.parser }
    {
        self.parser.always_moves()
    }
}

/// When it is ready and steady, and which outputs are the same: `a.map_with(f)`, where `f` gives one answer to each value and
/// each run that it is shown, and leaves the state as it is.
pub fn map_with_is_steady<
    'src,
    I: Input<'src>,
    O,
    U,
    E: ParserExtra<I>,
    A: Parser<'src, I, O, E>,
    F: MapperWith<'src, I, O, U, E>,
>(map_with: &MapWith<A, O, F, U>)
    ensures ready { let p = map_with.now in A.ready p.parser → F.callable p.mapper →
        ⟦<MapWith<A, O, F, U> as Parser<'src, I, U, E>>⟧.ready p }
    ensures steady { let p = map_with.now in
        A.steady p.parser → OnlyAnswers (F.gives p.mapper E.State.Inspector) →
        ⟦<MapWith<A, O, F, U> as Parser<'src, I, U, E>>⟧.steady p }
    ensures same { let p = map_with.now in (x y : U) →
        ⟦<MapWith<A, O, F, U> as Parser<'src, I, U, E>>⟧.same p x y →
        SameShown (F.gives p.mapper E.State.Inspector) (A.same p.parser) x y }
{}

/// A closure maps where it may be called, and one that is shown the run where it keeps the reference to the state too.
pub fn closures_may_map<'src, I, O, U, E, F, G>(mapper: &F, mapper_with: &G)
where
    I: Input<'src>,
    E: ParserExtra<I>,
    F: Fn(O) -> U,
    G: Fn(O, &mut MapExtra<'src, '_, I, E>) -> U,
    ensures mapper { F.IsAlwaysCallable mapper.now → ⟦<F as Mapper<O, U>>⟧.callable mapper.now }
    ensures mapper_with { KeepsState I.Input E.State.Inspector G.Fn mapper_with.now →
        ⟦<G as MapperWith<'src, I, O, U, E>>⟧.callable mapper_with.now }
{}
