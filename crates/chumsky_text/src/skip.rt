//! The loops that texts are read by.
ghost use Rattle.std.specs.Prelude.{◌≡◌, MatchResult, None};
ghost use Rattle.chumsky_input.specs.declared.stop.Fault.TheVariants.{Fail, Stop};
ghost use Rattle.chumsky_input.specs.declared.stop.Stop.TheVariants.{Memory};
ghost use Rattle.chumsky_input.specs.Wanted.{plain_wanted};
ghost use Rattle.chumsky_parser.specs.Failure.{expects};
ghost use Rattle.chumsky_judge.specs.Calls.{Changes, FailsWith};
ghost use Rattle.chumsky_text.specs.Leading.{ran_on, expected_at, StepsBy, BeginsBy, EndsRun, is_empty};

use crate::kind::{Kind, Lexeme};
use chumsky_input::extra::ParserExtra;
use chumsky_input::input::Input;
use chumsky_input::input_ref::InputRef;
use chumsky_input::inspector::Inspector;
use chumsky_input::stop::Fault;
use chumsky_input::util::Plain;
use std::alloc::AllocError;

/// Takes the longest run of tokens of a kind. The state is told of each, and of no other.
#[inline(always)]
pub(crate) fn skip_run<'src, K: Kind<I::Token>, I: Input<'src>, E: ParserExtra<I>>(
    kind: &K,
    inp: &mut InputRef<'src, '_, I, E>,
)
    requires { K.fits kind.now }
    ensures moves { Changes I.Input E.Error.Error E.State.Inspector
        (λ old new. new ≡ ran_on E.State.after (K.holds kind.now) old) inp.old inp.new }
    ensures lent { inp.new.state.ghost_name ≡ inp.old.state.ghost_name }
{
    while take_one(kind, inp) {}
}

/// Takes the next token if it is of the kind, and says whether it was.
#[inline(always)]
pub(crate) fn take_one<'src, K: Kind<I::Token>, I: Input<'src>, E: ParserExtra<I>>(
    kind: &K,
    inp: &mut InputRef<'src, '_, I, E>,
) -> bool
    requires { K.fits kind.now }
    ensures takes { Changes I.Input E.Error.Error E.State.Inspector
        (StepsBy E.State.after (K.holds kind.now) result) inp.old inp.new }
    ensures lent { inp.new.state.ghost_name ≡ inp.old.state.ghost_name }
{
    let mut past = inp.cursor();
    match I::next_maybe(&mut past) {
        None => false,
        Some(token) => {
            if kind.test(token.get()) {
                take(token.get(), past, inp);
                true
            } else {
                false
            }
        }
    }
}

/// Takes the next token if it is of the kind, and says what may follow it.
#[inline(always)]
pub(crate) fn take_first<'src, K: Lexeme<I::Token>, I: Input<'src>, E: ParserExtra<I>>(
    kind: &K,
    inp: &mut InputRef<'src, '_, I, E>,
) -> Option<K::Rest>
    requires { K.fits kind.now }
    ensures takes { Changes I.Input E.Error.Error E.State.Inspector
        (BeginsBy E.State.after (K.holds kind.now) (λ t. K.rest_after kind.now t) K.Rest.fits result) inp.old inp.new }
    ensures lent { inp.new.state.ghost_name ≡ inp.old.state.ghost_name }
{
    let mut past = inp.cursor();
    let first = I::next_maybe(&mut past)?;
    if !kind.test(first.get()) {
        return None;
    }
    let rest = kind.rest(first.get());
    take(first.get(), past, inp);
    Some(rest)
}

/// Takes a token that lies ahead: the cursor moves past it, and the state is told.
#[inline(always)]
fn take<'src, I: Input<'src>, E: ParserExtra<I>>(
    token: &I::Token,
    past: I::Cursor,
    inp: &mut InputRef<'src, '_, I, E>,
)
    ensures moves { Changes I.Input E.Error.Error E.State.Inspector
        (λ old new. new ≡ record old { tokens = I.cursor_tokens past; place = I.place past; state = E.State.after old.state token.now })
        inp.old inp.new }
    ensures lent { inp.new.state.ghost_name ≡ inp.old.state.ghost_name }
{
    inp.move_to(past);
    inp.state.on_token(token);
}

/// A failure where this was expected at the next token, with its span.
#[inline]
pub(crate) fn expect_here<'src, I: Input<'src>, E: ParserExtra<I>>(
    what: Plain<'_>,
    inp: &mut InputRef<'src, '_, I, E>,
) -> Fault
    ensures fails { FailsWith I.Input E.Error.Error E.State.Inspector
        (expected_at I.Input E.Error.Error (plain_wanted what.entry) (I.cursor_tokens inp.old.cursor) (I.place inp.old.cursor))
        inp.old inp.new result }
    ensures lent { inp.new.state.ghost_name ≡ inp.old.state.ghost_name }
{
    let here = inp.cursor();
    let mut past = here;
    let found = I::next_maybe(&mut past);
    inp.expected(&here, &past, what, found)
}

/// A failure where this was expected from an earlier place to here, of which no one token is named as found.
#[inline]
pub(crate) fn expect_since<'src, I: Input<'src>, E: ParserExtra<I>>(
    what: Plain<'_>,
    from: &I::Cursor,
    inp: &mut InputRef<'src, '_, I, E>,
) -> Fault
    requires { I.cursor_tokens inp.now.cursor ≡ I.cursor_tokens from.now }
    ensures fails { FailsWith I.Input E.Error.Error E.State.Inspector
        (expects I.Input E.Error.Error (I.cursor_tokens from.now) (plain_wanted what.entry) None (I.place from.now) (I.place inp.old.cursor))
        inp.old inp.new result }
    ensures lent { inp.new.state.ghost_name ≡ inp.old.state.ghost_name }
{
    let end = inp.cursor();
    inp.expected(from, &end, what, None)
}

/// Ends a run: what would have gone on was expected here, unless its kind expects nothing.
#[inline]
pub(crate) fn end_run<'src, K: Kind<I::Token>, I: Input<'src>, E: ParserExtra<I>>(
    kind: &K,
    inp: &mut InputRef<'src, '_, I, E>,
) -> Result<(), AllocError>
    ensures ends { let ends = EndsRun I.Input E.Error.Error (K.wants kind.now) in Changes I.Input E.Error.Error E.State.Inspector
        (λ old new. MatchResult result (λ _. ends old new Fail) (λ _. ends old new (Stop Memory))) inp.old inp.new }
    ensures lent { inp.new.state.ghost_name ≡ inp.old.state.ghost_name }
{
    let what = kind.expected();
    if is_nothing::<I::Token>(what) {
        return Ok(());
    }
    match expect_here(what, inp) {
        Fault::Fail => Ok(()),
        Fault::Stop(_stop) => Err(AllocError),
    }
}

/// Whether it says that nothing is expected.
#[inline]
fn is_nothing<T>(what: Plain<'_>) -> bool
    ensures { result ≡ is_empty (plain_wanted {T = T} what.entry) }
{
    match what {
        Plain::Nothing => true,
        Plain::Any => false,
        Plain::SomethingElse => false,
        Plain::NothingElse => false,
        Plain::EndOfInput => false,
        Plain::Label(_) => false,
    }
}
