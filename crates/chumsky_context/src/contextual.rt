//! `Contextual`: a parser that the context can turn off.
ghost use Rattle.std.specs.Prelude.{Bool, ◌≡◌};

use crate::config::{ConfigParser, Configurable, IsConfigParser};
use chumsky_input::extra::ParserExtra;
use chumsky_input::input::Input;
use chumsky_input::input_ref::InputRef;
use chumsky_input::stop::PResult;
use chumsky_input::util::Plain;
use chumsky_parser::moving::Moving;
use chumsky_parser::parser::{IsParser, Parser};

/// A parser that a configuration can turn off. Where it is off it fails here, and expects nothing else. See `contextual`.
#[derive(Clone, Copy, Drop)]
pub struct Contextual<A> {
    pub inner: A,
}

impl<I, O, E, A: IsParser<I, O, E>> IsParser<I, O, E> for Contextual<A> {}

impl<'src, I: Input<'src>, O, E: ParserExtra<I>, A: Parser<'src, I, O, E>> Parser<'src, I, O, E>
    for Contextual<A> {
    ghost ready = { λ p. A.ready p.inner };

    ghost meaning = { λ p. A.meaning p.inner };

    ghost steady = { λ p. A.steady p.inner };

    ghost same = { λ p. A.same p.inner };

    ghost ends_after_start = { λ p. A.ends_after_start p.inner };

    ghost agrees = { λ p. A.agrees p.inner };

    ghost language = { λ p. A.language p.inner };

    ghost accepts = { λ p. A.accepts p.inner };

    #[inline(always)]
    fn go_emit(&self, inp: &mut InputRef<'src, '_, I, E>) -> PResult<O> {
        self.inner.go_emit(inp)
    }

    #[inline(always)]
    fn go_check(&self, inp: &mut InputRef<'src, '_, I, E>) -> PResult<()> {
        self.inner.go_check(inp)
    }
}

impl<A> Configurable for Contextual<A> {
    /// Whether the parser is on.
    type Config = bool;
}

impl<I, O, E, A: IsParser<I, O, E>> IsConfigParser<I, O, E> for Contextual<A> {}

impl<'src, I: Input<'src>, O, E: ParserExtra<I>, A: Parser<'src, I, O, E>> ConfigParser<
    'src,
    I,
    O,
    E,
> for Contextual<A> {
    ghost use Rattle.chumsky_context.specs.Contextual.{WhereOn};
    ghost use Rattle.chumsky_context.specs.ContextualLaws.{where_on-ends, where_on-agrees};

    ghost ready = { λ p. A.ready p.inner };

    ghost meaning = { λ p on errors states. WhereOn I.Input errors on (A.meaning p.inner errors states) };

    ghost steady = { λ p. A.steady p.inner };

    ghost same = { λ p _. A.same p.inner };

    ghost ends_after_start = { λ p on. where_on-ends _ _ on _ (A.ends_after_start p.inner) };

    ghost agrees = { λ p s on. where_on-agrees _ _ on _ (A.same p.inner) (A.agrees p.inner s) };

    fn go_emit_cfg(&self, inp: &mut InputRef<'src, '_, I, E>, cfg: bool) -> PResult<O> {
        if cfg {
            return self.inner.go_emit(inp);
        }
        let here = inp.cursor();
        Err(inp.expected(&here, &here, Plain::NothingElse, None))
    }

    fn go_check_cfg(&self, inp: &mut InputRef<'src, '_, I, E>, cfg: bool) -> PResult<()> {
        if cfg {
            return self.inner.go_check(inp);
        }
        let here = inp.cursor();
        Err(inp.expected(&here, &here, Plain::NothingElse, None))
    }
}

impl<'src, I: Input<'src>, O, E: ParserExtra<I>, A: Moving<'src, I, O, E>> Moving<'src, I, O, E>
    for Contextual<A> {
    ghost moves = { λ p. A.moves p.inner };

    ghost moved = { λ p. A.moved p.inner };

    fn always_moves(&self) -> bool
        ensures { result ≡ A.moves self.now.inner }
    {
        self.inner.always_moves()
    }
}

/// `contextual` is steady where its part is, configured or not. Its outputs that are the same are so to the part.
pub fn contextual_is_steady<'src, I, O, E, A>(parser: &Contextual<A>)
where
    I: Input<'src>,
    E: ParserExtra<I>,
    A: Parser<'src, I, O, E>,
    ensures ready { A.ready parser.now.inner → ⟦<Contextual<A> as Parser<'src, I, O, E>>⟧.ready parser.now }
    ensures ready_configured { A.ready parser.now.inner → ⟦<Contextual<A> as ConfigParser<'src, I, O, E>>⟧.ready parser.now }
    ensures steady { A.steady parser.now.inner → ⟦<Contextual<A> as Parser<'src, I, O, E>>⟧.steady parser.now }
    ensures configured { A.steady parser.now.inner → ⟦<Contextual<A> as ConfigParser<'src, I, O, E>>⟧.steady parser.now }
    ensures same { (x y : O) → ⟦<Contextual<A> as Parser<'src, I, O, E>>⟧.same parser.now x y → A.same parser.now.inner x y }
    ensures same_configured { (on : Bool) (x y : O) → ⟦<Contextual<A> as ConfigParser<'src, I, O, E>>⟧.same parser.now on x y → A.same parser.now.inner x y }
{}
