//! Formulas of `t` and `f`, by operators of three powers, without brackets and with them, by a postfix operator, and by a list of operators
//! whose powers are chosen; their contracts say exactly which texts are accepted.
#![tactic(auto)]

pub mod nested;
pub mod primed;
pub mod ranked;

ghost use Rattle.std.specs.Prelude.{◌≡◌};
ghost use Rattle.std.specs.Str.{chars};
ghost use Rattle.chumsky.specs.Accepted.{Exactly};
ghost use Rattle.formulas.specs.Formula.{IsFormula};

use chumsky::Stop;
use chumsky::extra::EmptyText;
use chumsky::pratt::{InfixFolder, PrefixFolder, infix_by, left, prefix_by};
use chumsky::prelude::*;
use std::alloc::Global;

/// What a `!` makes of what follows it.
#[derive(Clone, Copy, Drop)]
pub struct Opposite;

impl PrefixFolder<bool, char> for Opposite {
    ghost use Rattle.std.specs.Prelude.{not};

    ghost gives = { λ _ operator operand output. output ≡ not operand };

    fn fold_prefix(&self, _operator: char, operand: bool) -> bool {
        !operand
    }
}

/// What an `&` makes of what stands around it.
#[derive(Clone, Copy, Drop)]
pub struct Both;

impl InfixFolder<bool, char> for Both {
    ghost use Rattle.std.specs.Prelude.{◌&&◌};

    ghost gives = { λ _ before operator after output. output ≡ (before && after) };

    fn fold_infix(&self, before: bool, _operator: char, after: bool) -> bool {
        before && after
    }
}

/// What an `|` makes of what stands around it.
#[derive(Clone, Copy, Drop)]
pub struct OneOfBoth;

impl InfixFolder<bool, char> for OneOfBoth {
    ghost use Rattle.std.specs.Prelude.{◌||◌};

    ghost gives = { λ _ before operator after output. output ≡ (before || after) };

    fn fold_infix(&self, before: bool, _operator: char, after: bool) -> bool {
        before || after
    }
}

/// What a formula comes to, as `t&!f|f`, in which a `!` binds before an `&`, and that before an `|`. Of any other text there is no
/// output.
pub fn parse_formula(alloc: Global, text: &str) -> Result<ParseResult<bool, EmptyErr>, Stop>
    ensures { Exactly IsFormula (chars text.now) result }
{
    let truth = just::<_, &str, EmptyText>('t')
        .to(true)
        .or(just('f').to(false));
    let formula = truth.pratt((
        prefix_by(3, just('!'), Opposite),
        infix_by(left(2), just('&'), Both),
        infix_by(left(1), just('|'), OneOfBoth),
    ));
    formula.parse(alloc, text)
}
