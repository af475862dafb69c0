//! A parser between an opening and a closing one.
ghost use Rattle.std.specs.Prelude.{◌≡◌, ◌||◌, [], ◌∷◌};
ghost use Rattle.chumsky_parser.specs.ByParts.{part, OutOnlyBy};

use crate::padded_by::PaddedBy;
use chumsky_input::extra::ParserExtra;
use chumsky_input::input::Input;
use chumsky_input::input_ref::InputRef;
use chumsky_input::stop::PResult;
use chumsky_parser::moving::Moving;
use chumsky_parser::parser::{IsParser, Parser};
use std::marker::PhantomData;

/// A parser between an opening and a closing one, for its own output. See `delimited_by`.
#[derive(Drop)]
#[derive_where(Clone, Copy; A, B, C)]
pub struct DelimitedBy<A, B, C, U, V> {
    pub parser: A,
    pub opening: B,
    pub closing: C,
    pub of: PhantomData<(U, V)>,
}

impl<I, O, U, V, E, A: IsParser<I, O, E>, B: IsParser<I, U, E>, C: IsParser<I, V, E>> IsParser<
    I,
    O,
    E,
> for DelimitedBy<A, B, C, U, V> {}

impl<
    'src,
    I: Input<'src>,
    O: Drop,
    U,
    V,
    E: ParserExtra<I>,
    A: Parser<'src, I, O, E>,
    B: Parser<'src, I, U, E>,
    C: Parser<'src, I, V, E>,
> Parser<'src, I, O, E> for DelimitedBy<A, B, C, U, V> {
    ghost use Rattle.chumsky_parser.specs.SequenceLanguage.{between_language, between-accepts};
    ghost use Rattle.chumsky_parser.specs.Ignoring.{Between};
    ghost use Rattle.chumsky_parser.specs.IgnoringLaws.{between-ends, between-agrees};

    ghost ready = { λ p. A.ready p.parser × B.ready p.opening × C.ready p.closing };

    ghost meaning = { λ p errors states. Between (B.meaning p.opening errors states) (A.meaning p.parser errors states) (C.meaning p.closing errors states) };

    ghost steady = { λ p. A.steady p.parser × B.steady p.opening × C.steady p.closing };

    ghost same = { λ p. A.same p.parser };

    ghost language = { λ p. between_language (B.language p.opening) (A.language p.parser) (C.language p.closing) };

    ghost ends_after_start = { λ p. between-ends _ _ _ (B.ends_after_start p.opening) (A.ends_after_start p.parser) (C.ends_after_start p.closing) };

    ghost agrees = { λ p s. between-agrees _ _ _ (B.same p.opening) (A.same p.parser) (C.same p.closing) (B.agrees p.opening s.1) (A.agrees p.parser s.0) (C.agrees p.closing s.2) };

    ghost accepts = { λ p. between-accepts _ _ _ (B.ends_after_start p.opening) (A.ends_after_start p.parser) (C.ends_after_start p.closing) (B.accepts p.opening) (A.accepts p.parser) (C.accepts p.closing) };

    #[inline(always)]
    fn go_emit(&self, inp: &mut InputRef<'src, '_, I, E>) -> PResult<O> {
        self.opening.go_check(inp)?;
        let value = self.parser.go_emit(inp)?;
        self.closing.go_check(inp)?;
        Ok(value)
    }

    #[inline(always)]
    fn go_check(&self, inp: &mut InputRef<'src, '_, I, E>) -> PResult<()> {
        self.opening.go_check(inp)?;
        self.parser.go_check(inp)?;
        self.closing.go_check(inp)
    }
}

impl<
    'src,
    I: Input<'src>,
    O: Drop,
    U,
    V,
    E: ParserExtra<I>,
    A: Moving<'src, I, O, E>,
    B: Moving<'src, I, U, E>,
    C: Moving<'src, I, V, E>,
> Moving<'src, I, O, E> for DelimitedBy<A, B, C, U, V> {
    ghost use Rattle.chumsky_parser.specs.ProgressLaws.{between-moves};

    ghost moves = { λ p. B.moves p.opening || (A.moves p.parser || C.moves p.closing) };

    ghost moved = { λ p. between-moves _ _ _ (B.moves p.opening) (A.moves p.parser) (C.moves p.closing) (B.ends_after_start p.opening) (A.ends_after_start p.parser) (C.ends_after_start p.closing) (B.moved p.opening) (A.moved p.parser) (C.moved p.closing) };

    fn always_moves(&self) -> bool
        ensures { result ≡ (B.moves self.now.opening || (A.moves self.now.parser || C.moves self.now.closing)) }
    {
        self.opening.always_moves() || (self.parser.always_moves() || self.closing.always_moves())
    }
}

/// Never refused for memory where no part is: `a.delimited_by(b, c)` and `a.padded_by(b)`.
pub fn delimited_by_is_never_out_of_memory<
    'src,
    I: Input<'src>,
    O: Drop,
    U,
    V,
    E: ParserExtra<I>,
    A: Parser<'src, I, O, E>,
    B: Parser<'src, I, U, E>,
    C: Parser<'src, I, V, E>,
>(delimited_by: &DelimitedBy<A, B, C, U, V>, padded_by: &PaddedBy<A, B, U>)
    ensures delimited { let d = delimited_by.now in OutOnlyBy E.Error.Error E.State.Inspector
        (part (A.meaning d.parser) ∷ part (B.meaning d.opening) ∷ part (C.meaning d.closing) ∷ [])
        (⟦<DelimitedBy<A, B, C, U, V> as Parser<'src, I, O, E>>⟧.meaning d) }
    ensures padded_by { let p = padded_by.now in OutOnlyBy E.Error.Error E.State.Inspector
        (part (A.meaning p.parser) ∷ part (B.meaning p.padding) ∷ [])
        (⟦<PaddedBy<A, B, U> as Parser<'src, I, O, E>>⟧.meaning p) }
{}

/// When it is ready and steady, and which outputs are the same: `a.delimited_by(b, c)` and `a.padded_by(b)`.
pub fn delimited_by_is_steady<
    'src,
    I: Input<'src>,
    O: Drop,
    U,
    V,
    E: ParserExtra<I>,
    A: Parser<'src, I, O, E>,
    B: Parser<'src, I, U, E>,
    C: Parser<'src, I, V, E>,
>(delimited_by: &DelimitedBy<A, B, C, U, V>, padded_by: &PaddedBy<A, B, U>)
    ensures ready_delimited_by { let p = delimited_by.now in
        A.ready p.parser → B.ready p.opening → C.ready p.closing →
        ⟦<DelimitedBy<A, B, C, U, V> as Parser<'src, I, O, E>>⟧.ready p }
    ensures ready_padded_by { let p = padded_by.now in A.ready p.parser → B.ready p.padding →
        ⟦<PaddedBy<A, B, U> as Parser<'src, I, O, E>>⟧.ready p }
    ensures delimited_by { let p = delimited_by.now in
        A.steady p.parser → B.steady p.opening → C.steady p.closing →
        ⟦<DelimitedBy<A, B, C, U, V> as Parser<'src, I, O, E>>⟧.steady p }
    ensures padded_by { let p = padded_by.now in A.steady p.parser → B.steady p.padding →
        ⟦<PaddedBy<A, B, U> as Parser<'src, I, O, E>>⟧.steady p }
    ensures same_delimited { (x y : O) →
        ⟦<DelimitedBy<A, B, C, U, V> as Parser<'src, I, O, E>>⟧.same delimited_by.now x y →
        A.same delimited_by.now.parser x y }
    ensures same_padded { (x y : O) → ⟦<PaddedBy<A, B, U> as Parser<'src, I, O, E>>⟧.same padded_by.now x y →
        A.same padded_by.now.parser x y }
{}
