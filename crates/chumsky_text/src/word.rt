//! A first token of one kind, and the longest run after it.
ghost use Rattle.std.specs.Prelude.{◌≡◌, true};

use crate::kind::Lexeme;
use crate::skip::{end_run, expect_here, skip_run, take_first};
use chumsky_input::extra::ParserExtra;
use chumsky_input::input::SliceInput;
use chumsky_input::input_ref::InputRef;
use chumsky_input::stop::PResult;
use chumsky_parser::moving::Moving;
use chumsky_parser::parser::{IsParser, Parser};
use std::marker::PhantomData;

/// A token of one kind, and the longest run of tokens that may follow it. See `int` and `ident`.
#[derive(Drop)]
#[derive_where(Clone, Copy; K)]
pub struct Word<K, I, E> {
    pub kind: K,
    pub of: PhantomData<(I, E)>,
}

impl<'src, K, I: SliceInput<'src>, E> IsParser<I, I::Slice, E> for Word<K, I, E> {}

impl<'src, K: Lexeme<I::Token>, I: SliceInput<'src>, E: ParserExtra<I>> Parser<'src, I, I::Slice, E>
    for Word<K, I, E> {
    ghost use Rattle.std.specs.Prelude.{⊤};
    ghost use Rattle.chumsky_text.specs.TextRun.{MeansWord};
    ghost use Rattle.chumsky_text.specs.TextRunLaws.{word-ends, word-agrees};
    ghost use Rattle.chumsky_text.specs.TextLanguage.{word_language};
    ghost use Rattle.chumsky_text.specs.TextLanguageLaws.{word-accepts};

    ghost ready = { λ p. K.fits p.kind };

    ghost meaning = { λ p errors states. MeansWord I.Input (λ l i j w. I.slice_seen w ≡ I.slice_of l i j) errors states (K.holds p.kind) (λ t. K.Rest.holds (K.rest_after p.kind t)) (K.wants p.kind) (λ t. K.Rest.wants (K.rest_after p.kind t)) };

    ghost steady = { λ _. ⊤ };

    ghost same = { λ p v w. I.slice_seen v ≡ I.slice_seen w };

    ghost language = { λ p. word_language (λ l i j w. I.slice_seen w ≡ I.slice_of l i j) (K.holds p.kind) (λ t. K.Rest.holds (K.rest_after p.kind t)) };

    ghost ends_after_start = { λ p. word-ends _ _ _ _ (K.holds p.kind) (λ t. K.Rest.holds (K.rest_after p.kind t)) (K.wants p.kind) (λ t. K.Rest.wants (K.rest_after p.kind t)) };

    ghost agrees = { λ p _. word-agrees _ _ _ _ (λ v w. I.slice_seen v ≡ I.slice_seen w) (λ ts i j v w e d. Prim.search (e, d)) (K.holds p.kind) (λ t. K.Rest.holds (K.rest_after p.kind t)) (K.wants p.kind) (λ t. K.Rest.wants (K.rest_after p.kind t)) };

    ghost accepts = { λ p. word-accepts _ _ _ _ (K.holds p.kind) (λ t. K.Rest.holds (K.rest_after p.kind t)) (K.wants p.kind) (λ t. K.Rest.wants (K.rest_after p.kind t)) };

    #[inline(always)]
    fn go_emit(&self, inp: &mut InputRef<'src, '_, I, E>) -> PResult<I::Slice> {
        let before = inp.cursor();
        match take_first(&self.kind, inp) {
            None => Err(expect_here(self.kind.expected(), inp)),
            Some(rest) => {
                skip_run(&rest, inp);
                let taken = inp.slice_since(&before);
                end_run(&rest, inp)?;
                Ok(taken)
            }
        }
    }

    #[inline(always)]
    fn go_check(&self, inp: &mut InputRef<'src, '_, I, E>) -> PResult<()> {
        match take_first(&self.kind, inp) {
            None => Err(expect_here(self.kind.expected(), inp)),
            Some(rest) => {
                skip_run(&rest, inp);
                end_run(&rest, inp)?;
                Ok(())
            }
        }
    }
}

impl<'src, I, E, K> Moving<'src, I, I::Slice, E> for Word<K, I, E>
where
    I: SliceInput<'src>,
    E: ParserExtra<I>,
    K: Lexeme<I::Token>,
{
    ghost use Rattle.chumsky_text.specs.TextRunLaws.{word-moves};
    ghost use Rattle.chumsky_text.specs.TextLanguageLaws.{no_or-moves};

    ghost moves = { λ _. true };

    ghost moved = { λ p _. no_or-moves _ (word-moves _ _ _ _ (K.holds p.kind) (λ t. K.Rest.holds (K.rest_after p.kind t)) (K.wants p.kind) (λ t. K.Rest.wants (K.rest_after p.kind t))) };

    fn always_moves(&self) -> bool
        ensures { result ≡ true }
    {
        true
    }
}

/// `int(radix)` and `digits(radix)` are ready where the radix is from 2 to 36, and identifiers always; they are steady.
pub fn word_is_steady<'src, K: Lexeme<I::Token>, I: SliceInput<'src>, E: ParserExtra<I>>(
    parser: &Word<K, I, E>,
)
    ensures ready { K.fits parser.now.kind → ⟦<Word<K, I, E> as Parser<'src, I, I::Slice, E>>⟧.ready parser.now }
    ensures steady { ⟦<Word<K, I, E> as Parser<'src, I, I::Slice, E>>⟧.steady parser.now }
    ensures same { (x y : I.Slice) → ⟦<Word<K, I, E> as Parser<'src, I, I::Slice, E>>⟧.same parser.now x y → I.slice_seen x ≡ I.slice_seen y }
{}
