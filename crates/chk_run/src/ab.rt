//! The grammar `ab`: an `a` and a `b`, or a `b` and any character.
ghost use Rattle.std.specs.Prelude.{◌≡◌, IfErr, IfOk};
ghost use Rattle.std.specs.Str.{chars};
ghost use Rattle.chumsky_input.specs.declared.stop.Stop.TheVariants.{Memory};
ghost use Rattle.chk_run.specs.Ab.{AnswersAb};

use crate::grammar::{Answer, Command};
use chumsky::Stop;
use chumsky::extra::RichText;
use chumsky::prelude::*;
use std::alloc::Global;

/// The two characters of the text, where it is of two such characters. It is refused for memory alone.
pub fn run_ab(alloc: Global, command: Command, text: &str) -> Result<Answer<(char, char)>, Stop>
    ensures answered { IfOk result (λ answer. AnswersAb command (chars text.now) answer) }
    ensures refused { IfErr result (λ stop. stop ≡ Memory) }
{
    let parser = just::<_, _, RichText>('a')
        .then(just('b'))
        .or(just('b').then(any()));
    match command {
        Command::Parse => Ok(Answer::Parsed(parser.parse(alloc, text)?)),
        Command::Check => Ok(Answer::Checked(parser.check(alloc, text)?)),
    }
}
