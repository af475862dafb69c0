//! Output mappers.
ghost use Rattle.std.specs.Prelude.{◌≡◌, ⊤, [], ◌∷◌, map};
ghost use Rattle.chumsky_parser.specs.ByParts.{part, OutOnlyBy};
ghost use Rattle.chumsky_combinator.specs.Mapped.{SameMapped};

use chumsky_input::extra::ParserExtra;
use chumsky_input::input::Input;
use chumsky_input::input_ref::InputRef;
use chumsky_input::stop::PResult;
use chumsky_parser::moving::Moving;
use chumsky_parser::parser::{IsParser, Parser};
use std::marker::PhantomData;

/// What makes an output of another. Each closure `Fn(O) -> U` is one, and so is a type of one's own that has an impl,
/// which says in `gives` what is later known of the output:
///
/// ```text
/// pub struct ToNumber;
///
/// impl Mapper<(char, char), u8> for ToNumber {
///     ghost gives = { λ mapper digits number. number ≤ 99 };
///
///     fn apply(&self, value: (char, char)) -> u8 {
///         two_digits(value)
///     }
/// }
/// ```
pub trait Mapper<O, U> {
    /// That it may be called. Where nothing is said, it may.
    ghost callable: { Self → Type 0 } = { λ mapper. ⊤ };

    /// What it may give for a value. Where nothing is said, nothing is known of it.
    ghost gives: { Self → O → U → Type 0 } = { λ mapper value output. ⊤ };

    /// The output for a value.
    fn apply(&self, value: O) -> U
        requires { callable self.now }
        ensures { gives self.now value result };
}

impl<O, U, F: Fn(O) -> U> Mapper<O, U> for F {
    ghost callable = { λ f. F.IsAlwaysCallable f };

    ghost gives = { λ f value result. F.post f value result };

    #[inline]
    fn apply(&self, value: O) -> U {
        (*self)(value)
    }
}

/// A parser whose output goes through a mapper. See `map` and `map_by`.
#[derive(Drop)]
#[derive_where(Clone, Copy; A, F)]
pub struct Map<A, O, F, U> {
    pub parser: A,
    pub mapper: F,
    pub of: PhantomData<(O, U)>,
}

impl<I, O, U, E, A: IsParser<I, O, E>, F> IsParser<I, U, E> for Map<A, O, F, U> {}

impl<
    'src,
    I: Input<'src>,
    O,
    U,
    E: ParserExtra<I>,
    A: Parser<'src, I, O, E>,
    F: Mapper<O, U>,
> Parser<'src, I, U, E> for Map<A, O, F, U> {
    ghost use Rattle.chumsky_combinator.specs.MappedLanguage.{map_language, map-accepts};
    ghost use Rattle.chumsky_combinator.specs.Mapped.{Mapped, SameMapped};
    ghost use Rattle.chumsky_combinator.specs.MappedLaws.{mapped-ends, mapped-agrees};

    ghost ready = { λ p. A.ready p.parser × F.callable p.mapper };

    ghost meaning = { λ p errors states. Mapped (F.gives p.mapper) (A.meaning p.parser errors states) };

    ghost steady = { λ p. A.steady p.parser };

    ghost same = { λ p. SameMapped (A.same p.parser) (F.gives p.mapper) };

    ghost language = { λ p. map_language (F.gives p.mapper) (A.language p.parser) };

    ghost ends_after_start = { λ p. mapped-ends (F.gives p.mapper) _ (A.ends_after_start p.parser) };

    ghost agrees = { λ p s. mapped-agrees (F.gives p.mapper) _ (A.same p.parser) (A.agrees p.parser s) };

    ghost accepts = { λ p. map-accepts (F.gives p.mapper) _ (A.accepts p.parser) };

    #[inline(always)]
    fn go_emit(&self, inp: &mut InputRef<'src, '_, I, E>) -> PResult<U> {
        let value = self.parser.go_emit(inp)?;
        Ok(self.mapper.apply(value))
    }

    #[inline(always)]
    fn go_check(&self, inp: &mut InputRef<'src, '_, I, E>) -> PResult<()> {
        self.parser.go_check(inp)
    }
}

impl<
    'src,
    I: Input<'src>,
    O,
    U,
    E: ParserExtra<I>,
    A: Moving<'src, I, O, E>,
    F: Mapper<O, U>,
> Moving<'src, I, U, E> for Map<A, O, F, U> {
    ghost use Rattle.chumsky_combinator.specs.MappedLaws.{mapped-moves};

    ghost moves = { λ p. A.moves p.parser };

    ghost moved = { λ p e. mapped-moves (F.gives p.mapper) _ (A.moved p.parser e) };

    fn always_moves(&self) -> bool
        ensures { result ≡ A.moves self.now.parser }
    {
        self.parser.always_moves()
    }
}

/// Never refused for memory where no part is: `a.map(f)` and `a.map_by(f)`.
pub fn map_is_never_out_of_memory<
    'src,
    I: Input<'src>,
    O,
    U,
    E: ParserExtra<I>,
    A: Parser<'src, I, O, E>,
    F: Mapper<O, U>,
>(map: &Map<A, O, F, U>)
    ensures { let m = map.now in OutOnlyBy E.Error.Error E.State.Inspector
        (part (A.meaning m.parser) ∷ [])
        (⟦<Map<A, O, F, U> as Parser<'src, I, U, E>>⟧.meaning m) }
{}

/// When it is ready and steady, and which outputs are the same: `a.map(f)` and `a.map_by(f)`. Two outputs are the same
/// where `f` may give them for values that are.
pub fn map_is_steady<
    'src,
    I: Input<'src>,
    O,
    U,
    E: ParserExtra<I>,
    A: Parser<'src, I, O, E>,
    F: Mapper<O, U>,
>(map: &Map<A, O, F, U>)
    ensures ready { A.ready map.now.parser → F.callable map.now.mapper →
        ⟦<Map<A, O, F, U> as Parser<'src, I, U, E>>⟧.ready map.now }
    ensures steady { A.steady map.now.parser →
        ⟦<Map<A, O, F, U> as Parser<'src, I, U, E>>⟧.steady map.now }
    ensures same { (x y : U) → ⟦<Map<A, O, F, U> as Parser<'src, I, U, E>>⟧.same map.now x y →
        SameMapped (A.same map.now.parser) (F.gives map.now.mapper) x y }
{}
