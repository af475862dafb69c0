//! A word that is spelled out.
ghost use Rattle.std.specs.Prelude.{◌≡◌, true};
ghost use Rattle.chumsky_input.specs.Wanted.{Label};

use crate::chars::TextInput;
use crate::kind::Lexeme;
use crate::skip::{expect_here, expect_since, skip_run, take_first};
use chumsky_input::extra::ParserExtra;
use chumsky_input::input_ref::InputRef;
use chumsky_input::stop::PResult;
use chumsky_input::util::Plain;
use chumsky_parser::moving::Moving;
use chumsky_parser::parser::{IsParser, Parser};
use std::marker::PhantomData;

/// An identifier that is this word. See `keyword`.
#[derive(Drop)]
#[derive_where(Clone, Copy; K)]
pub struct Keyword<'k, K, I, E> {
    pub word: &'k str,
    pub kind: K,
    pub of: PhantomData<(I, E)>,
}

impl<'src, 'k, K, I: TextInput<'src>, E> IsParser<I, I::Slice, E> for Keyword<'k, K, I, E> {}

impl<'src, 'k, K: Lexeme<I::Token>, I: TextInput<'src>, E: ParserExtra<I>> Parser<
    'src,
    I,
    I::Slice,
    E,
> for Keyword<'k, K, I, E> {
    ghost use Rattle.std.specs.Prelude.{⊤, [], ◌∷◌};
    ghost use Rattle.chumsky_text.specs.TextRun.{MeansKeyword};
    ghost use Rattle.chumsky_text.specs.TextRunLaws.{keyword-ends, keyword-agrees};
    ghost use Rattle.chumsky_text.specs.TextLanguage.{keyword_language};
    ghost use Rattle.chumsky_text.specs.TextLanguageLaws.{keyword-accepts};

    ghost ready = { λ p. K.fits p.kind };

    ghost meaning = { λ p errors states. MeansKeyword I.Input (λ l i j w. I.slice_seen w ≡ I.slice_of l i j) errors states (I.spells p.word.now) (K.holds p.kind) (λ t. K.Rest.holds (K.rest_after p.kind t)) (Label p.word.now ∷ []) };

    ghost steady = { λ _. ⊤ };

    ghost same = { λ p v w. I.slice_seen v ≡ I.slice_seen w };

    ghost language = { λ p. keyword_language (λ l i j w. I.slice_seen w ≡ I.slice_of l i j) (I.spells p.word.now) (K.holds p.kind) (λ t. K.Rest.holds (K.rest_after p.kind t)) };

    ghost ends_after_start = { λ p. keyword-ends _ _ _ _ (I.spells p.word.now) (K.holds p.kind) (λ t. K.Rest.holds (K.rest_after p.kind t)) (Label p.word.now ∷ []) };

    ghost agrees = { λ p _. keyword-agrees _ _ _ _ (λ v w. I.slice_seen v ≡ I.slice_seen w) (λ ts i j v w e d. Prim.search (e, d)) (I.spells p.word.now) (K.holds p.kind) (λ t. K.Rest.holds (K.rest_after p.kind t)) (Label p.word.now ∷ []) };

    ghost accepts = { λ p. keyword-accepts _ _ _ _ (K.holds p.kind) (λ t. K.Rest.holds (K.rest_after p.kind t)) (Label p.word.now ∷ []) (I.spells p.word.now) };

    #[inline]
    fn go_emit(&self, inp: &mut InputRef<'src, '_, I, E>) -> PResult<I::Slice> {
        let before = inp.cursor();
        match take_first(&self.kind, inp) {
            None => Err(expect_here(Plain::Label(self.word), inp)),
            Some(rest) => {
                skip_run(&rest, inp);
                let taken = inp.slice_since(&before);
                if I::is_text(&taken, self.word) {
                    Ok(taken)
                } else {
                    Err(expect_since(Plain::Label(self.word), &before, inp))
                }
            }
        }
    }

    #[inline]
    fn go_check(&self, inp: &mut InputRef<'src, '_, I, E>) -> PResult<()> {
        let before = inp.cursor();
        match take_first(&self.kind, inp) {
            None => Err(expect_here(Plain::Label(self.word), inp)),
            Some(rest) => {
                skip_run(&rest, inp);
                let spelled = inp.slice_since(&before);
                if I::is_text(&spelled, self.word) {
                    Ok(())
                } else {
                    Err(expect_since(Plain::Label(self.word), &before, inp))
                }
            }
        }
    }
}

impl<'src, 'k, I, E, K> Moving<'src, I, I::Slice, E> for Keyword<'k, K, I, E>
where
    I: TextInput<'src>,
    E: ParserExtra<I>,
    K: Lexeme<I::Token>,
{
    ghost use Rattle.chumsky_text.specs.TextRunLaws.{keyword-moves};
    ghost use Rattle.chumsky_text.specs.TextLanguageLaws.{no_or-moves};

    ghost moves = { λ _. true };

    ghost moved = { λ p _. no_or-moves _ (keyword-moves _ _ _ _ (I.spells p.word.now) (K.holds p.kind) (λ t. K.Rest.holds (K.rest_after p.kind t)) _) };

    fn always_moves(&self) -> bool
        ensures { result ≡ true }
    {
        true
    }
}

/// `keyword(word)` is ready, and steady.
pub fn keyword_is_steady<'src, 'k, K: Lexeme<I::Token>, I: TextInput<'src>, E: ParserExtra<I>>(
    parser: &Keyword<'k, K, I, E>,
)
    ensures ready { K.fits parser.now.kind → ⟦<Keyword<'k, K, I, E> as Parser<'src, I, I::Slice, E>>⟧.ready parser.now }
    ensures steady { ⟦<Keyword<'k, K, I, E> as Parser<'src, I, I::Slice, E>>⟧.steady parser.now }
    ensures same { (x y : I.Slice) → ⟦<Keyword<'k, K, I, E> as Parser<'src, I, I::Slice, E>>⟧.same parser.now x y → I.slice_seen x ≡ I.slice_seen y }
{}
