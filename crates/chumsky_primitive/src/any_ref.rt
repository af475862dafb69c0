//! Any token, where it lies.
ghost use Rattle.std.specs.Prelude.{◌≡◌, true};
ghost use Rattle.std.specs.Borrow.{Bor};

use chumsky_input::extra::ParserExtra;
use chumsky_input::input::BorrowInput;
use chumsky_input::input_ref::InputRef;
use chumsky_input::stop::PResult;
use chumsky_input::util::Plain;
use chumsky_parser::moving::Moving;
use chumsky_parser::parser::{IsParser, Parser};
use std::marker::PhantomData;

/// Takes one token, whichever it is, and gives a reference to it. See `any_ref`.
#[derive(Drop)]
#[derive_where(Clone, Copy)]
pub struct AnyRef<I, E> {
    pub of: PhantomData<(I, E)>,
}

impl<'src, I: BorrowInput<'src>, E> IsParser<I, &'src I::Token, E> for AnyRef<I, E> {}

impl<'src, I: BorrowInput<'src>, E: ParserExtra<I>> Parser<'src, I, &'src I::Token, E>
    for AnyRef<I, E> {
    ghost use Rattle.std.specs.Prelude.{◌≡◌, ⊤};
    ghost use Rattle.chumsky_primitive.specs.Any.{MeansAny, PointsTo};
    ghost use Rattle.chumsky_primitive.specs.AnyLaws.{any-ends, any-agrees, points-same};
    ghost use Rattle.std.specs.Prelude.{true};
    ghost use Rattle.chumsky_primitive.specs.PrimitiveLanguage.{one_language};
    ghost use Rattle.chumsky_primitive.specs.PrimitiveLanguageLaws.{any-accepts};

    ghost ready = { λ _. ⊤ };

    ghost meaning = { λ _ errors states. MeansAny I.Input PointsTo (λ _. ⊤) errors states };

    ghost steady = { λ _. ⊤ };

    ghost same = { λ _ v w. v.now ≡ w.now };

    ghost language = { λ _. one_language (λ t. true) PointsTo (I.Token → ⊤) };

    ghost ends_after_start = { λ _. any-ends _ _ _ _ _ };

    ghost agrees = { λ _ _. any-agrees _ _ _ _ _ _ points-same };

    ghost accepts = { λ _. any-accepts _ _ _ _ _ };

    #[inline(always)]
    fn go_emit(&self, inp: &mut InputRef<'src, '_, I, E>) -> PResult<&'src I::Token> {
        match inp.next_ref() {
            Some(token) => Ok(token),
            None => {
                let here = inp.cursor();
                Err(inp.expected(&here, &here, Plain::Any, None))
            }
        }
    }

    #[inline(always)]
    fn go_check(&self, inp: &mut InputRef<'src, '_, I, E>) -> PResult<()> {
        if inp.advance() {
            return Ok(());
        }
        let here = inp.cursor();
        Err(inp.expected(&here, &here, Plain::Any, None))
    }
}

impl<'src, I: BorrowInput<'src>, E: ParserExtra<I>> Moving<'src, I, &'src I::Token, E>
    for AnyRef<I, E> {
    ghost use Rattle.chumsky_primitive.specs.PrimitivesMove.{any-moves};

    ghost moves = { λ _. true };

    ghost moved = { λ _ _. any-moves _ _ _ _ _ };

    fn always_moves(&self) -> bool
        ensures { result ≡ true }
    {
        true
    }
}

/// `any_ref()` is steady.
pub fn any_ref_is_steady<'src, I: BorrowInput<'src>, E: ParserExtra<I>>(parser: &AnyRef<I, E>)
where
    I::Token: 'src,
    ensures ready { ⟦<AnyRef<I, E> as Parser<'src, I, &'src I::Token, E>>⟧.ready parser.now }
    ensures steady { ⟦<AnyRef<I, E> as Parser<'src, I, &'src I::Token, E>>⟧.steady parser.now }
    ensures same { (x y : Bor I.Token) → ⟦<AnyRef<I, E> as Parser<'src, I, &'src I::Token, E>>⟧.same parser.now x y → x.now ≡ y.now }
{}
