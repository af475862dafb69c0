//! For what a run asks for memory whose parser is never refused for it.
ghost use Rattle.chumsky_parser.specs.ByParts.{NeverOut};
ghost use Rattle.chumsky.specs.Answer.{LacksMemoryOnlyOfNo};

use chumsky_context::states::{RollbackState, SimpleState, TruncateState};
use chumsky_input::error::{EmptyErr, Error};
use chumsky_input::extra::ParserExtra;
use chumsky_input::input::{Input, Tokens};
use chumsky_input::inspector::Inspector;
use chumsky_input::same::SameClone;
use chumsky_input::simple::{Cheap, Simple};
use chumsky_input::span::SimpleSpan;
use chumsky_items::container::Container;
use chumsky_label::label_error::LabelError;
use chumsky_parser::parser::Parser;

/// Where a parser is never refused for memory, and errors and the state take none, `parse` and `check` are refused for memory only
/// where the run failed: its errors go into a list. A run that succeeds without emitting an error asks for none.
///
/// What `parse` and `check` ensure names the outcome of the whole run, and says that a refusal is one by it. So of an answer
/// `Err(Stop::Memory)` this law concludes that the verdict of that outcome is a no.
pub fn memory_is_wanted_only_for_errors<
    'src,
    I: Input<'src>,
    O,
    E: ParserExtra<I>,
    P: Parser<'src, I, O, E>,
>(parser: &P)
    ensures { NeverOut E.Error.Error E.State.Inspector (P.meaning parser.now) → E.Error.takes_no_memory → E.State.takes_no_memory → LacksMemoryOnlyOfNo I.Input E.Error.Error E.State.Inspector (P.meaning parser.now) }
{}

/// What takes no memory: errors that say where they stand, and at most what was found, where a clone of a token takes none, and
/// their labels; states that hold nothing, that stay, or that are cut, and one that is restored, where a clone of its value takes
/// none; and a container that drops its items.
pub fn these_take_no_memory<T: SameClone + Drop, I: Tokens<Token = T, Span = SimpleSpan>, L>()
    ensures empty { ⟦<EmptyErr as Error<I>>⟧.takes_no_memory }
    ensures cheap { ⟦<Cheap as Error<I>>⟧.takes_no_memory }
    ensures simple { ((x : T) → T.is_infallible x) → ⟦<Simple<T> as Error<I>>⟧.takes_no_memory }
    ensures labels_of_empty { ⟦<EmptyErr as LabelError<I, L>>⟧.labels_freely }
    ensures labels_of_cheap { ⟦<Cheap as LabelError<I, L>>⟧.labels_freely }
    ensures labels_of_simple { ⟦<Simple<T> as LabelError<I, L>>⟧.labels_freely }
    ensures no_state { ⟦<() as Inspector<I>>⟧.takes_no_memory }
    ensures simple_state { ⟦<SimpleState<T> as Inspector<I>>⟧.takes_no_memory }
    ensures truncate_state { ⟦<TruncateState<T> as Inspector<I>>⟧.takes_no_memory }
    ensures rollback_state { ((x : T) → T.is_infallible x) → ⟦<RollbackState<T> as Inspector<I>>⟧.takes_no_memory }
    ensures no_container { ⟦<() as Container<T>>⟧.takes_no_memory }
{}
