//! Formulas whose operators stand in a list, with powers that the caller chooses.
ghost use Rattle.std.specs.Prelude.{◌≡◌, true, All, Some, length};
ghost use Rattle.std.specs.Str.{chars};
ghost use Rattle.chumsky.specs.Accepted.{AnswersText, Exactly};
ghost use Rattle.chumsky_pratt.specs.Listed.{fixity_in};
ghost use Rattle.chumsky_pratt.specs.ListedLanguage.{list_languages};
ghost use Rattle.chumsky_pratt.specs.PrecedenceLanguage.{precedence_language};
ghost use Rattle.formulas.specs.Ranked.{joined, IsRankedFormula};
ghost use Rattle.formulas.specs.Truth.{truth};

use chumsky::Stop;
use chumsky::extra::EmptyText;
use chumsky::pratt::{InfixFolder, Operator, infix_by, left};
use chumsky::prelude::*;
use std::alloc::Global;

/// What stands between two truths.
#[derive(Clone, Copy, Drop)]
pub enum Connective {
    And,
    Or,
}

impl InfixFolder<bool, char> for Connective {
    ghost gives = { λ connective before operator after output. output ≡ joined connective before after };

    fn fold_infix(&self, before: bool, _operator: char, after: bool) -> bool {
        match *self {
            Connective::And => before && after,
            Connective::Or => before || after,
        }
    }
}

/// What an expression of these operators comes to, over a `t` or an `f`.
fn parse_listed<'src, T: Operator<'src, &'src str, bool, EmptyText>>(
    alloc: Global,
    text: &'src str,
    operators: &[T],
) -> Result<ParseResult<bool, EmptyErr>, Stop>
    requires { All T.ready operators.now }
    ensures { (list_languages T.language operators.now).said ≡ true → AnswersText Some (precedence_language (length operators.now) (fixity_in T.stands operators.now) truth (list_languages T.language operators.now)) (chars text.now) ⊥ result }
{
    let truth = just::<_, &str, EmptyText>('t')
        .to(true)
        .or(just('f').to(false));
    truth.pratt(operators).parse(alloc, text)
}

/// What a formula comes to whose `&` is of one power and whose `|` of another: of `t|f&f` it is `true` where the `&` is of the higher
/// one, and else `false`. Of two operators of one power the first binds first. Of any other text there is no output.
pub fn parse_ranked_formula(
    alloc: Global,
    text: &str,
    and: u16,
    or: u16,
) -> Result<ParseResult<bool, EmptyErr>, Stop>
    ensures { Exactly (IsRankedFormula and or) (chars text.now) result }
{
    let connectives = [
        infix_by(left(and), just('&'), Connective::And),
        infix_by(left(or), just('|'), Connective::Or),
    ];
    parse_listed(alloc, text, &connectives)
}
