//! The end of input.
ghost use Rattle.std.specs.Prelude.{◌≡◌, false};
ghost use Rattle.chumsky_parser.specs.ByParts.{NeverOut};

use crate::empty::Empty;
use chumsky_input::extra::ParserExtra;
use chumsky_input::input::Input;
use chumsky_input::input_ref::InputRef;
use chumsky_input::stop::PResult;
use chumsky_input::util::Plain;
use chumsky_parser::moving::Moving;
use chumsky_parser::parser::{IsParser, Parser};
use std::marker::PhantomData;

/// Says yes at the end of input alone. See `end`.
#[derive(Drop)]
#[derive_where(Clone, Copy)]
pub struct End<I, E> {
    pub of: PhantomData<(I, E)>,
}

impl<I, E> IsParser<I, (), E> for End<I, E> {}

impl<'src, I: Input<'src>, E: ParserExtra<I>> Parser<'src, I, (), E> for End<I, E> {
    ghost use Rattle.std.specs.Prelude.{⊤};
    ghost use Rattle.chumsky_parser.specs.FailureLaws.{SameUnit};
    ghost use Rattle.chumsky_primitive.specs.End.{MeansEnd};
    ghost use Rattle.chumsky_primitive.specs.EndLanguage.{end_language, end-accepts};
    ghost use Rattle.chumsky_primitive.specs.EndLaws.{end-ends, end-agrees};

    ghost ready = { λ _. ⊤ };

    ghost meaning = { λ _ errors states. MeansEnd I.Input errors states };

    ghost steady = { λ _. ⊤ };

    ghost same = { λ _. SameUnit };

    ghost language = { λ _. end_language };

    ghost ends_after_start = { λ _. end-ends _ _ _ };

    ghost agrees = { λ _ _. end-agrees _ _ _ };

    ghost accepts = { λ _. end-accepts _ _ _ };

    #[inline]
    fn go_emit(&self, inp: &mut InputRef<'src, '_, I, E>) -> PResult<()> {
        let before = inp.save()?;
        match inp.next_maybe() {
            None => Ok(()),
            Some(token) => {
                let past = inp.cursor();
                inp.rewind(&before)?;
                Err(inp.expected(&before.cursor, &past, Plain::EndOfInput, Some(token)))
            }
        }
    }

    #[inline]
    fn go_check(&self, inp: &mut InputRef<'src, '_, I, E>) -> PResult<()> {
        let before = inp.save()?;
        match inp.next_maybe() {
            None => Ok(()),
            Some(token) => {
                let past = inp.cursor();
                inp.rewind(&before)?;
                Err(inp.expected(&before.cursor, &past, Plain::EndOfInput, Some(token)))
            }
        }
    }
}

impl<'src, I: Input<'src>, E: ParserExtra<I>> Moving<'src, I, (), E> for End<I, E> {
    ghost use Rattle.chumsky_parser.specs.ProgressLaws.{never};

    ghost moved = { λ _. never };

    fn always_moves(&self) -> bool
        ensures { result ≡ false }
    {
        false
    }
}

/// Never refused for memory, where errors and states take none: `end()` and `empty()`.
pub fn end_is_never_out_of_memory<'src, I: Input<'src>, E: ParserExtra<I>>(
    end: &End<I, E>,
    empty: &Empty<I, E>,
)
    ensures end { E.Error.takes_no_memory → E.State.takes_no_memory → NeverOut E.Error.Error E.State.Inspector
        (⟦<End<I, E> as Parser<'src, I, (), E>>⟧.meaning end.now) }
    ensures empty { NeverOut E.Error.Error E.State.Inspector
        (⟦<Empty<I, E> as Parser<'src, I, (), E>>⟧.meaning empty.now) }
{}

/// `end()` and `empty()` are steady.
pub fn end_is_steady<'src, I: Input<'src>, E: ParserExtra<I>>(end: &End<I, E>, empty: &Empty<I, E>)
    ensures ready_end { ⟦<End<I, E> as Parser<'src, I, (), E>>⟧.ready end.now }
    ensures ready_empty { ⟦<Empty<I, E> as Parser<'src, I, (), E>>⟧.ready empty.now }
    ensures end { ⟦<End<I, E> as Parser<'src, I, (), E>>⟧.steady end.now }
    ensures empty { ⟦<Empty<I, E> as Parser<'src, I, (), E>>⟧.steady empty.now }
{}
