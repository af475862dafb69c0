//! Output mappers that ask for memory.
ghost use Rattle.std.specs.Prelude.{◌≡◌, ⊤, Result};
ghost use Rattle.std.specs.declared.alloc.AllocError.{AllocError};
ghost use Rattle.chumsky_combinator.specs.Mapped.{SameMapped};
ghost use Rattle.chumsky_combinator.specs.MappedIn.{GivesOk};

use chumsky_input::extra::ParserExtra;
use chumsky_input::input::Input;
use chumsky_input::input_ref::InputRef;
use chumsky_input::stop::PResult;
use chumsky_parser::moving::Moving;
use chumsky_parser::parser::{IsParser, Parser};
use std::alloc::{AllocError, Global};
use std::marker::PhantomData;

/// What makes an output of another by the allocator of the run, or answers that there is no memory for it. Each closure
/// `Fn(O, Global) -> Result<U, AllocError>` is one, and so is a type of one's own that has an impl, which says in `gives`
/// what is later known of the output.
pub trait MapperIn<O, U> {
    /// That it may be called. Where nothing is said, it may.
    ghost callable: { Self → Type 0 } = { λ mapper. ⊤ };

    /// What it may answer to a value. Where nothing is said, nothing is known of it.
    ghost gives: { Self → O → Result U AllocError → Type 0 } = { λ mapper value answer. ⊤ };

    /// The output for a value, made by this allocator.
    fn apply_in(&self, value: O, alloc: Global) -> Result<U, AllocError>
        requires { callable self.now }
        ensures { gives self.now value result };
}

impl<O, U, F: Fn(O, Global) -> Result<U, AllocError>> MapperIn<O, U> for F {
    ghost callable = { λ f. F.IsAlwaysCallable f };

    ghost gives = { λ f value answer. (alloc : _) × F.post f value alloc answer };

    #[inline]
    fn apply_in(&self, value: O, alloc: Global) -> Result<U, AllocError> {
        (*self)(value, alloc)
    }
}

/// A parser whose output goes through a mapper that asks for memory. See `map_in` and `map_in_by`.
#[derive(Drop)]
#[derive_where(Clone, Copy; A, F)]
pub struct MapIn<A, O, F, U> {
    pub parser: A,
    pub mapper: F,
    pub of: PhantomData<(O, U)>,
}

impl<I, O, U, E, A: IsParser<I, O, E>, F> IsParser<I, U, E> for MapIn<A, O, F, U> {}

impl<
    'src,
    I: Input<'src>,
    O,
    U,
    E: ParserExtra<I>,
    A: Parser<'src, I, O, E>,
    F: MapperIn<O, U>,
> Parser<'src, I, U, E> for MapIn<A, O, F, U> {
    ghost use Rattle.chumsky_combinator.specs.Mapped.{SameMapped};
    ghost use Rattle.chumsky_combinator.specs.MappedIn.{GivesOk, MappedIn, map_in_language};
    ghost use Rattle.chumsky_combinator.specs.MappedInLaws.{mapped_in-ends, mapped_in-agrees, map_in-accepts};

    ghost ready = { λ p. A.ready p.parser × F.callable p.mapper };

    ghost meaning = { λ p errors states. MappedIn (F.gives p.mapper) (A.meaning p.parser errors states) };

    ghost steady = { λ p. A.steady p.parser };

    ghost same = { λ p. SameMapped (A.same p.parser) (GivesOk (F.gives p.mapper)) };

    ghost language = { λ p. map_in_language (F.gives p.mapper) (A.language p.parser) };

    ghost ends_after_start = { λ p. mapped_in-ends (F.gives p.mapper) _ (A.ends_after_start p.parser) };

    ghost agrees = { λ p s. mapped_in-agrees (F.gives p.mapper) _ (A.same p.parser) (A.agrees p.parser s) };

    ghost accepts = { λ p. map_in-accepts (F.gives p.mapper) _ (A.accepts p.parser) };

    #[inline(always)]
    fn go_emit(&self, inp: &mut InputRef<'src, '_, I, E>) -> PResult<U> {
        let value = self.parser.go_emit(inp)?;
        let output = self.mapper.apply_in(value, inp.alloc())?;
        Ok(output)
    }

    #[inline(always)]
    fn go_check(&self, inp: &mut InputRef<'src, '_, I, E>) -> PResult<()> {
        self.parser.go_check(inp)
    }
}

impl<
    'src,
    I: Input<'src>,
    O,
    U,
    E: ParserExtra<I>,
    A: Moving<'src, I, O, E>,
    F: MapperIn<O, U>,
> Moving<'src, I, U, E> for MapIn<A, O, F, U> {
    ghost use Rattle.chumsky_combinator.specs.MappedInLaws.{mapped_in-moves};

    ghost moves = { λ p. A.moves p.parser };

    ghost moved = { λ p e. mapped_in-moves (F.gives p.mapper) _ (A.moved p.parser e) };

    fn always_moves(&self) -> bool
        ensures { result ≡ A.moves self.now.parser }
    {
        self.parser.always_moves()
    }
}

/// When it is ready and steady, and which outputs are the same: `a.map_in(f)` and `a.map_in_by(f)`. Two outputs are the
/// same where `f` may give them for values that are.
pub fn map_in_is_steady<
    'src,
    I: Input<'src>,
    O,
    U,
    E: ParserExtra<I>,
    A: Parser<'src, I, O, E>,
    F: MapperIn<O, U>,
>(map_in: &MapIn<A, O, F, U>)
    ensures ready { A.ready map_in.now.parser → F.callable map_in.now.mapper →
        ⟦<MapIn<A, O, F, U> as Parser<'src, I, U, E>>⟧.ready map_in.now }
    ensures steady { A.steady map_in.now.parser →
        ⟦<MapIn<A, O, F, U> as Parser<'src, I, U, E>>⟧.steady map_in.now }
    ensures same { (x y : U) → ⟦<MapIn<A, O, F, U> as Parser<'src, I, U, E>>⟧.same map_in.now x y →
        SameMapped (A.same map_in.now.parser) (GivesOk (F.gives map_in.now.mapper)) x y }
{}

/// A closure that asks for memory maps where it may be called.
pub fn closures_may_map_in<O, U, F: Fn(O, Global) -> Result<U, AllocError>>(mapper: &F)
    ensures { F.IsAlwaysCallable mapper.now → ⟦<F as MapperIn<O, U>>⟧.callable mapper.now }
{}
