//! The grammar `list`: numbers in brackets, with commas between them. A comma may stand after the last one too.
ghost use Rattle.std.specs.Prelude.{◌≡◌, IfErr, IfOk};
ghost use Rattle.std.specs.Str.{chars};
ghost use Rattle.chumsky_input.specs.declared.stop.Stop.TheVariants.{Memory};
ghost use Rattle.chk_run.specs.Numbers.{AnswersList};

use crate::grammar::{Answer, Command};
use chumsky::Stop;
use chumsky::extra::RichText;
use chumsky::prelude::*;
use std::alloc::Global;

/// The digits of each number, where the text is of such numbers. It is refused for memory alone.
pub fn run_list<'src>(
    alloc: Global,
    command: Command,
    text: &'src str,
) -> Result<Answer<Vec<&'src str>>, Stop>
    ensures answered { IfOk result (λ answer. AnswersList command (chars text.now) answer) }
    ensures refused { IfErr result (λ stop. stop ≡ Memory) }
{
    let digits = one_of("0123456789").repeated();
    let number = one_of::<_, _, RichText>("0123456789")
        .then(digits)
        .to_slice();
    let list = number.separated_by(just(',')).allow_trailing();
    let parser = list.collect::<Vec<_>>().delimited_by(just('['), just(']'));
    match command {
        Command::Parse => Ok(Answer::Parsed(parser.parse(alloc, text)?)),
        Command::Check => Ok(Answer::Checked(parser.check(alloc, text)?)),
    }
}
