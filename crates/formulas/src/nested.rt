//! Formulas with brackets, by operators in a function that calls itself.
ghost use Rattle.std.specs.Prelude.{◌≡◌, ◌≤◌, true, false};
ghost use Rattle.std.specs.Str.{chars};
ghost use Rattle.chumsky.specs.Accepted.{ExactlyUnless};
ghost use Rattle.chumsky_pratt.specs.declared.fixity.Associativity.TheVariants.{Left};
ghost use Rattle.formulas.specs.Formula.{IsNestedFormula, nesting};

use crate::{Both, OneOfBoth, Opposite};
use chumsky::combinator::{DelimitedBy, Or, To, run_part};
use chumsky::extra::EmptyText;
use chumsky::input::TextRef;
use chumsky::pratt::{Infix, LastOperator, OperatorAnd, Pratt, Prefix, infix_by, left, prefix_by};
use chumsky::prelude::*;
use chumsky::primitive::Just;
use chumsky::recursive::{Body, Recursion, RunsUnder, recursive_as};
use chumsky::{IsParser, PResult, Stop};
use chumsky_parser::parser::Parser;
use std::alloc::Global;

/// The parser of a character.
pub type Character<'src> = Just<char, &'src str, EmptyText>;

/// The parser of a `t` or an `f`.
pub type TruthParser<'src> = Or<To<Character<'src>, char, bool>, To<Character<'src>, char, bool>>;

/// The parser of a `t`, an `f`, or what `P` takes, in brackets.
pub type AtomOf<'src, P> = Or<
    TruthParser<'src>,
    DelimitedBy<P, Character<'src>, Character<'src>, char, char>,
>;

/// The operators of formulas.
pub type FormulaOperators<'src> = OperatorAnd<
    Prefix<Character<'src>, Opposite, bool, char>,
    OperatorAnd<
        Infix<Character<'src>, Both, bool, char>,
        LastOperator<Infix<Character<'src>, OneOfBoth, bool, char>>,
    >,
>;

/// The parser of formulas, in which what `P` takes may stand in brackets.
pub type FormulaOf<'src, P> = Pratt<AtomOf<'src, P>, FormulaOperators<'src>>;

/// What the body of `any_formula` is.
#[derive(Drop)]
pub struct OfFormula;

impl<'src, P: Parser<'src, &'src str, bool, EmptyText>> Body<'src, &'src str, bool, EmptyText, P>
    for OfFormula {
    ghost use Rattle.chumsky_descent.specs.Body.{told};
    ghost use Rattle.std.specs.Prelude.{true, false};
    ghost use Rattle.chumsky_pratt.specs.declared.fixity.Associativity.TheVariants.{Left};

    ghost body = { λ call. told ⟦<FormulaOf<'src, P> as Parser<'src, &'src str, bool, EmptyText>>⟧ (record {
      atom = record {
        first = record {
          first = record { parser = record { seq = 116; of = record {} }; value = true; of = record {} };
          second = record { parser = record { seq = 102; of = record {} }; value = false; of = record {} };
        };
        second = record { parser = call; opening = record { seq = 40; of = record {} }; closing = record { seq = 41; of = record {} }; of = record {} };
      };
      operators = record {
        operator = record { power = 3; parser = record { seq = 33; of = record {} }; folder = record {}; of = record {} };
        others = record {
          operator = record { associativity = Left 2; parser = record { seq = 38; of = record {} }; folder = record {}; of = record {} };
          others = record { operator = record { associativity = Left 1; parser = record { seq = 124; of = record {} }; folder = record {}; of = record {} } };
        };
      };
    }) };
}

impl<'src> Recursion<'src, &'src str, bool, EmptyText> for OfFormula {
    ghost use Rattle.std.proofs.Common.{◌∙◌, sym};
    ghost use Rattle.std.specs.Prelude.{codes};
    ghost use Rattle.chumsky_descent.specs.Exactly.{exactly};
    ghost use Rattle.chumsky_descent.specs.Lawful.{just-lawful, to-lawful, between-lawful, or-lawful};
    ghost use Rattle.chumsky_descent.specs.OperatorsLawful.{prefix-lawful, infix-lawful, last-lawful, and-lawful, pratt-lawful};
    ghost use Rattle.formulas.specs.contracts.nested.OfFormulaBodyRefStrBoolEmptyText.TheImpl.{ghosts, no_dict};
    ghost use denote.Builtin.{unit};
    ghost use Rattle.formulas.specs.Nested.{nested_formulas};

    ghost says = { λ errors states. exactly (λ call. (ghosts unit call no_dict).body tt) errors states nested_formulas
        (λ call l h. pratt-lawful
        (or-lawful (or-lawful (to-lawful (just-lawful (codes "t") _ _ _ _ _ _)) (to-lawful (just-lawful (codes "f") _ _ _ _ _ _)))
        (between-lawful (just-lawful (codes "(") _ _ _ _ _ _) h (just-lawful (codes ")") _ _ _ _ _ _)))
        (and-lawful (prefix-lawful (just-lawful (codes "!") _ _ _ _ _ _) (λ w a z u m n. m ∙ sym n))
        (and-lawful (infix-lawful (just-lawful (codes "&") _ _ _ _ _ _) (λ a w b z u m n. m ∙ sym n))
        (last-lawful (infix-lawful (just-lawful (codes "|") _ _ _ _ _ _) (λ a w b z u m n. m ∙ sym n)))))) };
}

/// The parser of formulas, in which what a parser takes may stand in brackets.
pub fn formula_of<'src, P: IsParser<&'src str, bool, EmptyText>>(inner: P) -> FormulaOf<'src, P>
    ensures holds { result.atom.first.first.parser.seq ≡ 116 }
    ensures held { result.atom.first.first.value ≡ true }
    ensures fails { result.atom.first.second.parser.seq ≡ 102 }
    ensures failed { result.atom.first.second.value ≡ false }
    ensures inner { result.atom.second.parser ≡ inner }
    ensures opening { result.atom.second.opening.seq ≡ 40 }
    ensures closing { result.atom.second.closing.seq ≡ 41 }
    ensures opposite { result.operators.operator.parser.seq ≡ 33 }
    ensures power { result.operators.operator.power ≡ 3 }
    ensures both { result.operators.others.operator.parser.seq ≡ 38 }
    ensures both_stand { result.operators.others.operator.associativity ≡ Left 2 }
    ensures one { result.operators.others.others.operator.parser.seq ≡ 124 }
    ensures one_stands { result.operators.others.others.operator.associativity ≡ Left 1 }
{
    let truth = just::<_, &str, EmptyText>('t')
        .to(true)
        .or(just('f').to(false));
    truth.or(inner.delimited_by(just('('), just(')'))).pratt((
        prefix_by(3, just('!'), Opposite),
        infix_by(left(2), just('&'), Both),
        infix_by(left(1), just('|'), OneOfBoth),
    ))
}

/// A formula, perhaps with brackets.
fn any_formula<'src>(
    inp: &mut TextRef<'src, '_, EmptyText>,
    wanted: bool,
    depth: usize,
) -> PResult<Option<bool>>
    ensures { ⟦<OfFormula as RunsUnder<'src, &'src str, bool, EmptyText>>⟧.runs depth wanted inp.old inp.new result }
{
    let formula = formula_of(recursive_as::<OfFormula, _, _, _, _>(any_formula, depth));
    run_part(&formula, wanted, inp)
}

/// What a formula with brackets comes to, as `!(t|f)&t`, in which a `!` binds before an `&`, and that before an `|`. Of any other
/// text there is no output. A run is refused for memory; or with `TooDeep`, only of a text whose brackets are nested so deep that
/// somewhere `limit` are open at once, or more.
pub fn parse_nested_formula(
    alloc: Global,
    text: &str,
    limit: usize,
) -> Result<ParseResult<bool, EmptyErr>, Stop>
    ensures { ExactlyUnless IsNestedFormula (chars text.now) (limit ≤ nesting (chars text.now)) result }
{
    recursive_as::<OfFormula, _, _, _, EmptyText>(any_formula, limit).parse(alloc, text)
}
