//! What is known of a choice of each width: the law of `Alternatives`, with the list of alternatives spelled out.
ghost use Rattle.std.specs.Prelude.{[], ◌∷◌};
ghost use Rattle.chumsky_choice.specs.Alternatives.{StandsByOneIn};

use chumsky::Parser;
use chumsky::extra::ParserExtra;
use chumsky::input::Input;
use chumsky::laws::one_alternative_stands;
use chumsky::primitive::Choice;

/// In each answer of a choice one of its own members stands, whatever its width.
pub fn one_member_stands<
    'src,
    I: Input<'src>,
    O,
    E: ParserExtra<I>,
    A: Parser<'src, I, O, E>,
    B: Parser<'src, I, O, E>,
    C: Parser<'src, I, O, E>,
    D: Parser<'src, I, O, E>,
    F: Parser<'src, I, O, E>,
    G: Parser<'src, I, O, E>,
    H: Parser<'src, I, O, E>,
    J: Parser<'src, I, O, E>,
>(
    two: &Choice<(A, B)>,
    three: &Choice<(A, B, C)>,
    four: &Choice<(A, B, C, D)>,
    five: &Choice<(A, B, C, D, F)>,
    six: &Choice<(A, B, C, D, F, G)>,
    seven: &Choice<(A, B, C, D, F, G, H)>,
    eight: &Choice<(A, B, C, D, F, G, H, J)>,
)
    ensures two { StandsByOneIn E.Error.Error E.State.Inspector (⟦<Choice<(A, B)> as Parser<'src, I, O, E>>⟧.meaning two.now)
        (A.meaning two.now.parsers.0 ∷ B.meaning two.now.parsers.1 ∷ []) }
    ensures three { StandsByOneIn E.Error.Error E.State.Inspector (⟦<Choice<(A, B, C)> as Parser<'src, I, O, E>>⟧.meaning three.now)
        (A.meaning three.now.parsers.0 ∷ B.meaning three.now.parsers.1 ∷ C.meaning three.now.parsers.2 ∷ []) }
    ensures four { StandsByOneIn E.Error.Error E.State.Inspector (⟦<Choice<(A, B, C, D)> as Parser<'src, I, O, E>>⟧.meaning four.now)
        (A.meaning four.now.parsers.0 ∷ B.meaning four.now.parsers.1 ∷ C.meaning four.now.parsers.2 ∷ D.meaning four.now.parsers.3 ∷ []) }
    ensures five { StandsByOneIn E.Error.Error E.State.Inspector (⟦<Choice<(A, B, C, D, F)> as Parser<'src, I, O, E>>⟧.meaning five.now)
        (A.meaning five.now.parsers.0 ∷ B.meaning five.now.parsers.1 ∷ C.meaning five.now.parsers.2 ∷ D.meaning five.now.parsers.3 ∷ F.meaning five.now.parsers.4 ∷ []) }
    ensures six { StandsByOneIn E.Error.Error E.State.Inspector (⟦<Choice<(A, B, C, D, F, G)> as Parser<'src, I, O, E>>⟧.meaning six.now)
        (A.meaning six.now.parsers.0 ∷ B.meaning six.now.parsers.1 ∷ C.meaning six.now.parsers.2 ∷ D.meaning six.now.parsers.3 ∷ F.meaning six.now.parsers.4 ∷ G.meaning six.now.parsers.5 ∷ []) }
    ensures seven { StandsByOneIn E.Error.Error E.State.Inspector (⟦<Choice<(A, B, C, D, F, G, H)> as Parser<'src, I, O, E>>⟧.meaning seven.now)
        (A.meaning seven.now.parsers.0 ∷ B.meaning seven.now.parsers.1 ∷ C.meaning seven.now.parsers.2 ∷ D.meaning seven.now.parsers.3 ∷ F.meaning seven.now.parsers.4 ∷ G.meaning seven.now.parsers.5 ∷ H.meaning seven.now.parsers.6 ∷ []) }
    ensures eight { StandsByOneIn E.Error.Error E.State.Inspector (⟦<Choice<(A, B, C, D, F, G, H, J)> as Parser<'src, I, O, E>>⟧.meaning eight.now)
        (A.meaning eight.now.parsers.0 ∷ B.meaning eight.now.parsers.1 ∷ C.meaning eight.now.parsers.2 ∷ D.meaning eight.now.parsers.3 ∷ F.meaning eight.now.parsers.4 ∷ G.meaning eight.now.parsers.5 ∷ H.meaning eight.now.parsers.6 ∷ J.meaning eight.now.parsers.7 ∷ []) }
{
    one_alternative_stands(two);
    one_alternative_stands(three);
    one_alternative_stands(four);
    one_alternative_stands(five);
    one_alternative_stands(six);
    one_alternative_stands(seven);
    one_alternative_stands(eight);
}
