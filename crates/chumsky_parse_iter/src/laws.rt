//! What is known of runs that give their items one after another, each the contract of a function that does nothing.
ghost use Rattle.std.specs.Prelude.{List, Option};
ghost use Rattle.chumsky_parse_iter.specs.Walk.{MayWalk};
ghost use Rattle.chumsky_parse_iter.specs.Finish.{Called, StaysNone, FinishAnswers, GivesStartOf, GivesAsMany};

use crate::parse_iter::ParseIter;
use chumsky_input::extra::ParserExtra;
use chumsky_input::input::Input;
use chumsky_items::collect::Collect;
use chumsky_parser::iter::IterParser;
use chumsky_parser::parser::Parser;

/// A run may be asked for an item where its parser is ready, or the iteration that it goes on with may be asked; and after the
/// end, a failure or a refusal in any case.
pub fn run_may_be_asked<'p, 'src, I, O, E, P, C>(run: &ParseIter<'p, 'src, P, I, O, E, C>)
where
    I: Input<'src, Cursor = C>,
    I::Token: 'src,
    C: Copy,
    O: Drop,
    E: ParserExtra<I>,
    E::State: Drop,
    E::Context: Drop,
    P: IterParser<'src, I, O, E>,
    ensures { MayWalk (P.ready run.now.parser.now) (P.may_step run.now.parser.now) run.now.phase → ⟦<ParseIter<'p, 'src, P, I, O, E, C> as Iterator>⟧.can_next run.now }
{}

/// Once a run gives no item, it never gives one again.
pub fn once_none_is_given_none_is_any_more<'p, 'src, I, O, E, P, C>(
    run: &ParseIter<'p, 'src, P, I, O, E, C>,
    last: &ParseIter<'p, 'src, P, I, O, E, C>,
)
where
    I: Input<'src, Cursor = C>,
    I::Token: 'src,
    C: Copy,
    O: Drop,
    E: ParserExtra<I>,
    E::State: Drop,
    E::Context: Drop,
    P: IterParser<'src, I, O, E>,
    ensures { (gave : List (Option O)) → Called ⟦<ParseIter<'p, 'src, P, I, O, E, C> as Iterator>⟧.next_gives run.now gave last.now → StaysNone gave }
{}

/// `finish` answers the whole run, whatever number of items was taken. Let a run be as `parse_iter` makes it, and let it be
/// asked for items n times. Then what `finish` answers is one outcome, from the start of the input, of the iteration made,
/// the items that were given, in order, and the end of input: its errors are those emitted and, after a failure, the furthest
/// one last.
pub fn finish_answers_the_whole<'p, 'src, I, O, E, P, C, R>(
    run: &ParseIter<'p, 'src, P, I, O, E, C>,
    last: &ParseIter<'p, 'src, P, I, O, E, C>,
)
where
    I: Input<'src, Cursor = C>,
    I::Token: 'src,
    C: Copy,
    O: Drop,
    E: ParserExtra<I>,
    E::State: Drop,
    E::Context: Drop,
    P: IterParser<'src, I, O, E>,
    ensures { FinishAnswers I.Input E.Error.Error E.State.Inspector P.begins P.gives
        ⟦<ParseIter<'p, 'src, P, I, O, E, C> as Iterator>⟧.next_gives R run.now last.now }
{}

/// The items that a run of a steady parser gave are the first of those that `collect` of the same parser gives from where the
/// run began, in order, each the same as the parser counts them; and once none was given, there is no item any more. Where the
/// run has ended, they are as many.
pub fn items_are_the_first_of_those_that_collect_gives<'p, 'src, I, O, E, P, C>(
    run: &ParseIter<'p, 'src, P, I, O, E, C>,
    last: &ParseIter<'p, 'src, P, I, O, E, C>,
)
where
    I: Input<'src, Cursor = C>,
    I::Token: 'src,
    C: Copy,
    O: Drop,
    E: ParserExtra<I>,
    E::State: Drop,
    E::Context: Drop,
    P: IterParser<'src, I, O, E>,
    ensures first { GivesStartOf I.Input E.Error.Error E.State.Inspector P.steady
        ⟦<ParseIter<'p, 'src, P, I, O, E, C> as Iterator>⟧.next_gives
        ⟦<Collect<P, O, Vec<O>> as Parser<'src, I, Vec<O>, E>>⟧.meaning run.now last.now P.same }
    ensures all { GivesAsMany I.Input E.Error.Error E.State.Inspector P.steady
        ⟦<ParseIter<'p, 'src, P, I, O, E, C> as Iterator>⟧.next_gives
        ⟦<Collect<P, O, Vec<O>> as Parser<'src, I, Vec<O>, E>>⟧.meaning run.now last.now }
{}
