//! Another parser in the place of one that failed.
ghost use Rattle.std.specs.Prelude.{◌≡◌};

use crate::strategy::{IsStrategy, Strategy};
use chumsky_input::extra::ParserExtra;
use chumsky_input::input::Input;
use chumsky_input::input_ref::InputRef;
use chumsky_input::stop::PResult;
use chumsky_parser::parser::{IsParser, Parser};

/// Another parser in the place of one that failed. See `via_parser`.
#[derive(Clone, Copy, Drop)]
pub struct ViaParser<P> {
    pub parser: P,
}

/// Recovers by running `parser` where the failed parser began: `a.recover_with(via_parser(any()))` gives `'b'` of `b`, and the
/// error of `a`, an `a` expected at 0..1. It fails as `parser` does.
#[inline]
pub fn via_parser<P>(parser: P) -> ViaParser<P>
    ensures parser { result.parser ≡ parser }
{
    ViaParser { parser }
}

impl<I, O, E, P: IsParser<I, O, E>> IsStrategy<I, O, E> for ViaParser<P> {}

impl<'src, I: Input<'src>, O, E: ParserExtra<I>, A, P: Parser<'src, I, O, E>> Strategy<
    'src,
    I,
    O,
    E,
    A,
> for ViaParser<P> {
    ghost ready = { λ s a. P.ready s.parser };

    ghost helps = { λ s a. P.meaning s.parser };

    ghost steady = { λ s a. P.steady s.parser };

    ghost same = { λ s a. P.same s.parser };

    ghost language = { λ s a. P.language s.parser };

    ghost ends_after_start = { λ s a. P.ends_after_start s.parser };

    ghost agrees = { λ s a t. P.agrees s.parser t };

    ghost accepts = { λ s a. P.accepts s.parser };

    #[inline]
    fn recover_emit(&self, parser: &A, inp: &mut InputRef<'src, '_, I, E>) -> PResult<O> {
        self.parser.go_emit(inp)
    }

    #[inline]
    fn recover_check(&self, parser: &A, inp: &mut InputRef<'src, '_, I, E>) -> PResult<()> {
        self.parser.go_check(inp)
    }
}

/// `via_parser(p)` is ready and steady where `p` is.
pub fn via_parser_is_steady<
    'src,
    I: Input<'src>,
    O,
    E: ParserExtra<I>,
    A,
    P: Parser<'src, I, O, E>,
>(strategy: &ViaParser<P>, parser: &A)
    ensures ready { P.ready strategy.now.parser →
        ⟦<ViaParser<P> as Strategy<'src, I, O, E, A>>⟧.ready strategy.now parser.now }
    ensures steady { P.steady strategy.now.parser →
        ⟦<ViaParser<P> as Strategy<'src, I, O, E, A>>⟧.steady strategy.now parser.now }
    ensures same { (x y : O) → ⟦<ViaParser<P> as Strategy<'src, I, O, E, A>>⟧.same strategy.now parser.now x y →
        P.same strategy.now.parser x y }
{}
