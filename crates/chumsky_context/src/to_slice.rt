//! `ToSlice`: the part of the input that a parser took.
ghost use Rattle.std.specs.Prelude.{◌≡◌, [], ◌∷◌};
ghost use Rattle.chumsky_parser.specs.ByParts.{part, OutOnlyBy};

use chumsky_input::extra::ParserExtra;
use chumsky_input::input::SliceInput;
use chumsky_input::input_ref::InputRef;
use chumsky_input::stop::PResult;
use chumsky_parser::moving::Moving;
use chumsky_parser::parser::{IsParser, Parser};
use std::marker::PhantomData;

/// A parser that gives the part of the input that its part took, which runs without its output. See `to_slice`.
#[derive(Drop)]
#[derive_where(Clone, Copy; A)]
pub struct ToSlice<A, O> {
    pub parser: A,
    pub of: PhantomData<O>,
}

impl<'src, I: SliceInput<'src>, O, E, A: IsParser<I, O, E>> IsParser<I, I::Slice, E>
    for ToSlice<A, O> {}

impl<'src, I: SliceInput<'src>, O, E: ParserExtra<I>, A: Parser<'src, I, O, E>> Parser<
    'src,
    I,
    I::Slice,
    E,
> for ToSlice<A, O> {
    ghost use Rattle.std.specs.Prelude.{◌≡◌};
    ghost use Rattle.chumsky_context.specs.Covered.{Covers};
    ghost use Rattle.chumsky_context.specs.CoveredLaws.{covers-ends, covers-agree};
    ghost use Rattle.chumsky_context.specs.CoveredLanguage.{covered_language, covers-accepts};

    ghost ready = { λ p. A.ready p.parser };

    ghost meaning = { λ p errors states. Covers (λ l i j w. I.slice_seen w ≡ I.slice_of l i j) (A.meaning p.parser errors states) };

    ghost steady = { λ p. A.steady p.parser };

    ghost same = { λ p v w. I.slice_seen v ≡ I.slice_seen w };

    ghost ends_after_start = { λ p. covers-ends _ _ (A.ends_after_start p.parser) };

    ghost agrees = { λ p s. covers-agree _ _ (A.same p.parser) (λ v w. I.slice_seen v ≡ I.slice_seen w) (λ ts i j v w e d. Prim.search (e, d)) (A.agrees p.parser s) };

    ghost language = { λ p. covered_language (λ l i j w. I.slice_seen w ≡ I.slice_of l i j) (A.language p.parser) };

    ghost accepts = { λ p. covers-accepts _ _ (A.accepts p.parser) };

    #[inline(always)]
    fn go_emit(&self, inp: &mut InputRef<'src, '_, I, E>) -> PResult<I::Slice> {
        let before = inp.cursor();
        self.parser.go_check(inp)?;
        Ok(inp.slice_since(&before))
    }

    #[inline(always)]
    fn go_check(&self, inp: &mut InputRef<'src, '_, I, E>) -> PResult<()> {
        self.parser.go_check(inp)
    }
}

impl<'src, I, O, E, A> Moving<'src, I, I::Slice, E> for ToSlice<A, O>
where
    I: SliceInput<'src>,
    E: ParserExtra<I>,
    A: Moving<'src, I, O, E>,
{
    ghost use Rattle.chumsky_context.specs.CoveredLanguage.{covers-move};

    ghost moves = { λ p. A.moves p.parser };

    ghost moved = { λ p e. covers-move _ _ (A.moved p.parser e) };

    fn always_moves(&self) -> bool
        ensures { result ≡ A.moves self.now.parser }
    {
        self.parser.always_moves()
    }
}

/// Never refused for memory where no part is: `a.to_slice()`.
pub fn to_slice_is_never_out_of_memory<'src, I, O, E, A>(to_slice: &ToSlice<A, O>)
where
    I: SliceInput<'src>,
    E: ParserExtra<I>,
    A: Parser<'src, I, O, E>,
    ensures { let t = to_slice.now in OutOnlyBy E.Error.Error E.State.Inspector
        (part (A.meaning t.parser) ∷ [])
        (⟦<ToSlice<A, O> as Parser<'src, I, I::Slice, E>>⟧.meaning t) }
{}

/// `to_slice` is steady where its part is. Its outputs that are the same are seen alike.
pub fn to_slice_is_steady<'src, I, O, E, A>(parser: &ToSlice<A, O>)
where
    I: SliceInput<'src>,
    E: ParserExtra<I>,
    A: Parser<'src, I, O, E>,
    ensures ready { A.ready parser.now.parser → ⟦<ToSlice<A, O> as Parser<'src, I, I::Slice, E>>⟧.ready parser.now }
    ensures steady { A.steady parser.now.parser → ⟦<ToSlice<A, O> as Parser<'src, I, I::Slice, E>>⟧.steady parser.now }
    ensures same { (x y : I.Slice) → ⟦<ToSlice<A, O> as Parser<'src, I, I::Slice, E>>⟧.same parser.now x y → I.slice_seen x ≡ I.slice_seen y }
{}
