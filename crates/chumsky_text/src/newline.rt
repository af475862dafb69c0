//! The end of a line.
ghost use Rattle.std.specs.Prelude.{◌≡◌, true};

use crate::kind::Lexeme;
use crate::skip::{expect_here, take_first, take_one};
use chumsky_input::extra::ParserExtra;
use chumsky_input::input::SliceInput;
use chumsky_input::input_ref::InputRef;
use chumsky_input::stop::PResult;
use chumsky_parser::moving::Moving;
use chumsky_parser::parser::{IsParser, Parser};
use std::marker::PhantomData;

/// A token of one kind, and at most one more that may follow it. See `newline`.
#[derive(Drop)]
#[derive_where(Clone, Copy; K)]
pub struct Newline<K, I, E> {
    pub kind: K,
    pub of: PhantomData<(I, E)>,
}

impl<'src, K, I: SliceInput<'src>, E> IsParser<I, I::Slice, E> for Newline<K, I, E> {}

impl<'src, K: Lexeme<I::Token>, I: SliceInput<'src>, E: ParserExtra<I>> Parser<'src, I, I::Slice, E>
    for Newline<K, I, E> {
    ghost use Rattle.std.specs.Prelude.{⊤};
    ghost use Rattle.chumsky_text.specs.TextRun.{MeansNewline};
    ghost use Rattle.chumsky_text.specs.TextRunLaws.{newline-ends, newline-agrees};
    ghost use Rattle.chumsky_text.specs.TextLanguage.{newline_language};
    ghost use Rattle.chumsky_text.specs.TextLanguageLaws.{newline-accepts};

    ghost ready = { λ p. K.fits p.kind };

    ghost meaning = { λ p errors states. MeansNewline I.Input (λ l i j w. I.slice_seen w ≡ I.slice_of l i j) errors states (K.holds p.kind) (λ t. K.Rest.holds (K.rest_after p.kind t)) (K.wants p.kind) };

    ghost steady = { λ _. ⊤ };

    ghost same = { λ p v w. I.slice_seen v ≡ I.slice_seen w };

    ghost language = { λ p. newline_language (λ l i j w. I.slice_seen w ≡ I.slice_of l i j) (K.holds p.kind) (λ t. K.Rest.holds (K.rest_after p.kind t)) };

    ghost ends_after_start = { λ p. newline-ends _ _ _ _ (K.holds p.kind) (λ t. K.Rest.holds (K.rest_after p.kind t)) (K.wants p.kind) };

    ghost agrees = { λ p _. newline-agrees _ _ _ _ (λ v w. I.slice_seen v ≡ I.slice_seen w) (λ ts i j v w e d. Prim.search (e, d)) (K.holds p.kind) (λ t. K.Rest.holds (K.rest_after p.kind t)) (K.wants p.kind) };

    ghost accepts = { λ p. newline-accepts _ _ _ _ (K.holds p.kind) (λ t. K.Rest.holds (K.rest_after p.kind t)) (K.wants p.kind) };

    #[inline]
    fn go_emit(&self, inp: &mut InputRef<'src, '_, I, E>) -> PResult<I::Slice> {
        let before = inp.cursor();
        match take_first(&self.kind, inp) {
            None => Err(expect_here(self.kind.expected(), inp)),
            Some(rest) => {
                let _more = take_one(&rest, inp);
                Ok(inp.slice_since(&before))
            }
        }
    }

    #[inline]
    fn go_check(&self, inp: &mut InputRef<'src, '_, I, E>) -> PResult<()> {
        match take_first(&self.kind, inp) {
            None => Err(expect_here(self.kind.expected(), inp)),
            Some(rest) => {
                let _one = take_one(&rest, inp);
                Ok(())
            }
        }
    }
}

impl<'src, I, E, K> Moving<'src, I, I::Slice, E> for Newline<K, I, E>
where
    I: SliceInput<'src>,
    E: ParserExtra<I>,
    K: Lexeme<I::Token>,
{
    ghost use Rattle.chumsky_text.specs.TextRunLaws.{newline-moves};
    ghost use Rattle.chumsky_text.specs.TextLanguageLaws.{no_or-moves};

    ghost moves = { λ _. true };

    ghost moved = { λ p _. no_or-moves _ (newline-moves _ _ _ _ (K.holds p.kind) (λ t. K.Rest.holds (K.rest_after p.kind t)) (K.wants p.kind)) };

    fn always_moves(&self) -> bool
        ensures { result ≡ true }
    {
        true
    }
}

/// `newline()` is ready, and steady.
pub fn newline_is_steady<'src, K: Lexeme<I::Token>, I: SliceInput<'src>, E: ParserExtra<I>>(
    parser: &Newline<K, I, E>,
)
    ensures ready { K.fits parser.now.kind → ⟦<Newline<K, I, E> as Parser<'src, I, I::Slice, E>>⟧.ready parser.now }
    ensures steady { ⟦<Newline<K, I, E> as Parser<'src, I, I::Slice, E>>⟧.steady parser.now }
    ensures same { (x y : I.Slice) → ⟦<Newline<K, I, E> as Parser<'src, I, I::Slice, E>>⟧.same parser.now x y → I.slice_seen x ≡ I.slice_seen y }
{}
