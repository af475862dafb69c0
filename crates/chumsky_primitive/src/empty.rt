//! Nothing at all.
ghost use Rattle.std.specs.Prelude.{◌≡◌, false};

use chumsky_input::extra::ParserExtra;
use chumsky_input::input::Input;
use chumsky_input::input_ref::InputRef;
use chumsky_input::stop::PResult;
use chumsky_parser::moving::Moving;
use chumsky_parser::parser::{IsParser, Parser};
use std::marker::PhantomData;

/// Says yes everywhere, and takes nothing. See `empty`.
#[derive(Drop)]
#[derive_where(Clone, Copy)]
pub struct Empty<I, E> {
    pub of: PhantomData<(I, E)>,
}

impl<I, E> IsParser<I, (), E> for Empty<I, E> {}

impl<'src, I: Input<'src>, E: ParserExtra<I>> Parser<'src, I, (), E> for Empty<I, E> {
    ghost use Rattle.std.specs.Prelude.{⊤};
    ghost use Rattle.chumsky_parser.specs.FailureLaws.{SameUnit};
    ghost use Rattle.chumsky_primitive.specs.Empty.{MeansEmpty};
    ghost use Rattle.chumsky_primitive.specs.EmptyLaws.{empty-ends, empty-agrees};
    ghost use Rattle.chumsky_primitive.specs.PrimitiveLanguage.{nothing_language};
    ghost use Rattle.chumsky_primitive.specs.PrimitiveLanguageLaws.{empty-accepts};

    ghost ready = { λ _. ⊤ };

    ghost meaning = { λ _ errors states. MeansEmpty };

    ghost steady = { λ _. ⊤ };

    ghost same = { λ _. SameUnit };

    ghost language = { λ _. nothing_language };

    ghost ends_after_start = { λ _. empty-ends };

    ghost agrees = { λ _ _. empty-agrees };

    ghost accepts = { λ _. empty-accepts };

    #[inline]
    fn go_emit(&self, inp: &mut InputRef<'src, '_, I, E>) -> PResult<()> {
        Ok(())
    }

    #[inline]
    fn go_check(&self, inp: &mut InputRef<'src, '_, I, E>) -> PResult<()> {
        Ok(())
    }
}

impl<'src, I: Input<'src>, E: ParserExtra<I>> Moving<'src, I, (), E> for Empty<I, E> {
    ghost use Rattle.chumsky_parser.specs.ProgressLaws.{never};

    ghost moved = { λ _. never };

    fn always_moves(&self) -> bool
        ensures { result ≡ false }
    {
        false
    }
}
