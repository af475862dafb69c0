//! A parser with a value in place of its output.
ghost use Rattle.std.specs.Prelude.{◌≡◌, false, [], ◌∷◌};
ghost use Rattle.chumsky_parser.specs.ByParts.{part, OutOnlyBy};

use crate::ignored::Ignored;
use chumsky_input::extra::ParserExtra;
use chumsky_input::input::Input;
use chumsky_input::input_ref::InputRef;
use chumsky_input::stop::PResult;
use chumsky_parser::moving::Moving;
use chumsky_parser::parser::{IsParser, Parser};
use std::marker::PhantomData;

/// A parser with a value in place of its output. See `to`.
#[derive(Drop)]
#[derive_where(Clone, Copy; A, U)]
pub struct To<A, O, U> {
    pub parser: A,
    pub value: U,
    pub of: PhantomData<O>,
}

impl<I, O, U, E, A: IsParser<I, O, E>> IsParser<I, U, E> for To<A, O, U> {}

impl<'src, I: Input<'src>, O, U: Clone, E: ParserExtra<I>, A: Parser<'src, I, O, E>> Parser<
    'src,
    I,
    U,
    E,
> for To<A, O, U> {
    ghost use Rattle.chumsky_combinator.specs.MappedLanguage.{to_language, to-accepts};
    ghost use Rattle.chumsky_parser.specs.Copied.{GivesCopy, BothCopies};
    ghost use Rattle.chumsky_parser.specs.Ignoring.{IgnoringFirst};
    ghost use Rattle.chumsky_parser.specs.IgnoringLaws.{copy-ends, copy-agrees, ignoring_first-ends, ignoring_first-agrees};

    ghost ready = { λ p. A.ready p.parser };

    ghost meaning = { λ p errors states. IgnoringFirst (A.meaning p.parser errors states) (GivesCopy (U.is_clone p.value) (U.is_infallible p.value)) };

    ghost steady = { λ p. A.steady p.parser };

    ghost same = { λ p. BothCopies (U.is_clone p.value) };

    ghost language = { λ p. to_language (U.is_clone p.value) (U.is_infallible p.value) (A.language p.parser) };

    ghost ends_after_start = { λ p. ignoring_first-ends _ _ (A.ends_after_start p.parser) (copy-ends (U.is_clone p.value) (U.is_infallible p.value)) };

    ghost agrees = { λ p s. ignoring_first-agrees _ _ (A.same p.parser) (BothCopies (U.is_clone p.value)) (A.agrees p.parser s) (copy-agrees (U.is_clone p.value) (U.is_infallible p.value)) };

    ghost accepts = { λ p. to-accepts _ (U.is_clone p.value) (U.is_infallible p.value) (A.accepts p.parser) };

    #[inline(always)]
    fn go_emit(&self, inp: &mut InputRef<'src, '_, I, E>) -> PResult<U> {
        self.parser.go_check(inp)?;
        let value = self.value.clone()?;
        Ok(value)
    }

    #[inline(always)]
    fn go_check(&self, inp: &mut InputRef<'src, '_, I, E>) -> PResult<()> {
        self.parser.go_check(inp)
    }
}

impl<'src, I: Input<'src>, O, U: Clone, E: ParserExtra<I>, A: Moving<'src, I, O, E>> Moving<
    'src,
    I,
    U,
    E,
> for To<A, O, U> {
    ghost use Rattle.chumsky_parser.specs.IgnoringLaws.{copy-ends};
    ghost use Rattle.chumsky_parser.specs.ProgressLaws.{chained-first, asked-moves};

    ghost moves = { λ p. A.moves p.parser };

    ghost moved = { λ p e. chained-first _ _ (asked-moves false _ (A.moved p.parser e)) (λ _. copy-ends (U.is_clone p.value) (U.is_infallible p.value)) };

    fn always_moves(&self) -> bool
        ensures { result ≡ A.moves self.now.parser }
    {
        self.parser.always_moves()
    }
}

/// Never refused for memory where no part is: `a.to(v)`, of a value whose clone takes no memory, and `a.ignored()`.
pub fn to_is_never_out_of_memory<
    'src,
    I: Input<'src>,
    O,
    U: Clone,
    E: ParserExtra<I>,
    A: Parser<'src, I, O, E>,
>(to: &To<A, O, U>, ignored: &Ignored<A, O>)
    ensures to { let t = to.now in U.is_infallible t.value → OutOnlyBy E.Error.Error E.State.Inspector
        (part (A.meaning t.parser) ∷ [])
        (⟦<To<A, O, U> as Parser<'src, I, U, E>>⟧.meaning t) }
    ensures ignored { let i = ignored.now in OutOnlyBy E.Error.Error E.State.Inspector
        (part (A.meaning i.parser) ∷ [])
        (⟦<Ignored<A, O> as Parser<'src, I, (), E>>⟧.meaning i) }
{}

/// When it is ready and steady, and which outputs are the same: `a.to(v)` and `a.ignored()`.
pub fn to_is_steady<'src, I: Input<'src>, O, U: Clone, E: ParserExtra<I>, A: Parser<'src, I, O, E>>(
    to: &To<A, O, U>,
    ignored: &Ignored<A, O>,
)
    ensures ready_to { A.ready to.now.parser → ⟦<To<A, O, U> as Parser<'src, I, U, E>>⟧.ready to.now }
    ensures ready_ignored { A.ready ignored.now.parser →
        ⟦<Ignored<A, O> as Parser<'src, I, (), E>>⟧.ready ignored.now }
    ensures to { A.steady to.now.parser → ⟦<To<A, O, U> as Parser<'src, I, U, E>>⟧.steady to.now }
    ensures ignored { A.steady ignored.now.parser →
        ⟦<Ignored<A, O> as Parser<'src, I, (), E>>⟧.steady ignored.now }
    ensures same { (x y : U) → ⟦<To<A, O, U> as Parser<'src, I, U, E>>⟧.same to.now x y →
        U.is_clone to.now.value x × U.is_clone to.now.value y }
{}
