//! What is asked of a grammar, and what it answers: one tree of parsers serves both commands. And how rules are run.
ghost use Rattle.std.specs.Prelude.{◌≡◌, All, IfErr, IfOk, length, true};
ghost use Rattle.std.specs.List.{AllByRecursion};
ghost use Rattle.chk_run.specs.Decided.{HaltWhereDecided, IsDecided, LacksRoom};
ghost use Rattle.chk_run.specs.Request.{IsAnswerTo};
ghost use Rattle.chk_run.specs.Rules.{MakesGrammar};

use crate::show::Refusal;
use chumsky::extra::{ParserExtra, RichText};
use chumsky::grammar_laws::founded_runs_are_refused_as_leaves;
use chumsky::prelude::*;
use chumsky::recursive::{Leaves, Moving, Values};
use std::alloc::Global;

/// What the program is to do with its input.
#[derive(Clone, Copy)]
pub enum Command {
    /// To print its output, or its errors.
    Parse,
    /// To print whether it is right, or its errors.
    Check,
}

/// What a run answers.
pub enum Answer<O> {
    Parsed(ParseResult<O, Rich<char>>),
    Checked(ParseResult<(), Rich<char>>),
}

/// Parsers of which it is known of each text whether they accept it are refused for memory alone.
fn decided_parsers_are_refused_for_memory<
    'src,
    I: Input<'src>,
    O,
    E: ParserExtra<I>,
    P: Parser<'src, I, O, E>,
>()
    ensures { HaltWhereDecided (λ p. P.meaning p E.Error.Error E.State.Inspector) P.language }
{}

/// Runs rules that make a grammar over a text. The run is refused for memory, or where no `usize` holds the limit for so long a
/// text.
pub fn run_rules<'a, 'src, P, W>(
    rules: &'a Rules,
    start: Recursive,
    actions: &'a Leaves<'_, P, W>,
    alloc: Global,
    command: Command,
    text: &'src str,
) -> Result<Answer<W::Value>, Refusal>
where
    W: Values<SimpleSpan, Rich<char>>,
    P: Moving<'src, &'src str, W::Value, RichText>,
    requires ready { All P.ready actions.now.leaves.now }
    requires decided { AllByRecursion (λ p. IsDecided (P.language p)) actions.now.leaves.now }
    requires moving { AllByRecursion (λ p. P.moves p ≡ true) actions.now.leaves.now }
    requires made { MakesGrammar rules.now start (length actions.now.leaves.now) }
    ensures answered { IfOk result (λ answer. IsAnswerTo command answer) }
    ensures refused { IfErr result LacksRoom }
{
    let grammar = match rules.close_founded(start, actions, text.len()) {
        Ok(grammar) => grammar,
        Err(error) => return Err(Refusal::Rules(error)),
    };
    decided_parsers_are_refused_for_memory::<&str, W::Value, RichText, P>();
    founded_runs_are_refused_as_leaves::<&str, RichText, _>(&grammar, text.len());
    match command {
        Command::Parse => Ok(Answer::Parsed(grammar.parse(alloc, text)?)),
        Command::Check => Ok(Answer::Checked(grammar.check(alloc, text)?)),
    }
}
