//! `DecidedByWord` and `ParserUnder`: what is known of a parser whose output is the context of another, and of that other.
use chumsky_input::extra::ParserExtra;
use chumsky_input::input::Input;
use chumsky_judge::pick_by::{PickBy, WordPicker};
use chumsky_parser::parser::Parser;

/// A parser whose output is decided by the word that it took, as a number is by its digits. So where that output is the context of
/// another parser, it is known under which one that runs. Each `pick_by` is such a parser.
pub trait DecidedByWord<'src, I: Input<'src>, O, E: ParserExtra<I>>: Parser<'src, I, O, E> {
    ghost use Rattle.std.specs.Prelude.{List, Option};
    ghost use Rattle.chumsky_exact.specs.Contexts.{IsDecided};

    /// Which output a word decides, if any.
    ghost decides: { Self → List I.Token → Option O };

    /// Each word that is accepted decides one, and stands for no other.
    ghost by_word: { (p : Self) → IsDecided (Self.language p) (decides p) };
}

impl<'src, I, O, U, E, A, F> DecidedByWord<'src, I, U, E> for PickBy<A, O, F, U>
where
    I: Input<'src>,
    U: Drop,
    E: ParserExtra<I>,
    A: Parser<'src, I, O, E>,
    F: WordPicker<'src, I, O, U, E, A>,
{
    ghost decides = { λ p. F.picks p.picked.picker };

    ghost by_word = { λ p. record { some = λ w i. i.1; one = λ w v i. i.1 } };
}

/// A parser that asks its context, of which it is known which texts it accepts under each.
pub trait ParserUnder<'src, I: Input<'src>, O, E: ParserExtra<I>>: Parser<'src, I, O, E> {
    ghost use Rattle.chumsky_exact.specs.Contexts.{LanguageUnder, AcceptsUnder};

    /// Which texts it accepts under a context, and with which values.
    ghost language_under: { Self → LanguageUnder E.Context I.Token O };

    /// What is said of its language holds under each context.
    ghost accepts_under: { (p : Self) → AcceptsUnder (Self.meaning p E.Error.Error E.State.Inspector) (language_under p) (E.Error.takes_no_memory × E.State.takes_no_memory) };
}
