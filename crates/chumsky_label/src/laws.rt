//! A law that compares a labelled parser with its part, the contract of a function that does nothing.
ghost use Rattle.chumsky_label.specs.Labelled.{AnswersButEvents, EachAnswered};

use crate::label_error::LabelError;
use crate::labelled::Labelled;
use chumsky_input::extra::ParserExtra;
use chumsky_input::input::Input;
use chumsky_parser::parser::Parser;

/// `a.labelled(label)` answers as `a` does: the same verdict, output, end, state and emitted errors. Of its failures the
/// one that counts is kept, where it stood. And to each answer of `a` there is one of `a.labelled(label)`.
pub fn labelled_answers_as_its_part<
    'src,
    I: Input<'src>,
    O: Drop,
    E: ParserExtra<I>,
    A: Parser<'src, I, O, E>,
    L,
>(labelled: &Labelled<A, L>)
where
    E::Error: LabelError<I, L>,
    ensures of_part { AnswersButEvents E.Error.merged (A.meaning labelled.now.parser E.Error.Error E.State.Inspector) (⟦<Labelled<A, L> as Parser<'src, I, O, E>>⟧.meaning labelled.now E.Error.Error E.State.Inspector) }
    ensures each { EachAnswered E.Error.merged (A.meaning labelled.now.parser E.Error.Error E.State.Inspector) (⟦<Labelled<A, L> as Parser<'src, I, O, E>>⟧.meaning labelled.now E.Error.Error E.State.Inspector) E.Error.seen }
{}
