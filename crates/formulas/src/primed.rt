//! Formulas in which the opposite of a part is marked behind it, by a postfix operator.
ghost use Rattle.std.specs.Prelude.{◌≡◌};
ghost use Rattle.std.specs.Str.{chars};
ghost use Rattle.chumsky.specs.Accepted.{Exactly};
ghost use Rattle.formulas.specs.Primed.{IsPrimedFormula};

use crate::{Both, Opposite};
use chumsky::Stop;
use chumsky::extra::EmptyText;
use chumsky::pratt::{PostfixFolder, infix_by, left, postfix_by};
use chumsky::prelude::*;
use std::alloc::Global;

impl PostfixFolder<bool, char> for Opposite {
    ghost use Rattle.std.specs.Prelude.{not};

    ghost gives = { λ _ operand operator output. output ≡ not operand };

    fn fold_postfix(&self, operand: bool, _operator: char) -> bool {
        !operand
    }
}

/// What a formula comes to in which a `'` stands behind what it gives the opposite of, as `t&f'&t''`, and binds before an `&`. Of any
/// other text there is no output.
pub fn parse_primed_formula(alloc: Global, text: &str) -> Result<ParseResult<bool, EmptyErr>, Stop>
    ensures { Exactly IsPrimedFormula (chars text.now) result }
{
    let truth = just::<_, &str, EmptyText>('t')
        .to(true)
        .or(just('f').to(false));
    let formula = truth.pratt((
        postfix_by(2, just('\''), Opposite),
        infix_by(left(1), just('&'), Both),
    ));
    formula.parse(alloc, text)
}
