//! What says of a parser that its successes move.
ghost use Rattle.std.specs.Prelude.{◌≡◌, Bool, true, false};

use crate::iter::IterParser;
use crate::parser::Parser;
use chumsky_input::extra::ParserExtra;
use chumsky_input::input::Input;

/// Whether a parser moves wherever it succeeds: `just("a")` does, and `just("a").or_not()` does not. Of one that answers no,
/// nothing is known.
///
/// A parser type of one's own that is a leaf of a grammar, and says nothing, has an impl as this, in a crate that names
/// `chumsky_parser` too:
///
/// ```text
/// impl<'src> Moving<'src, &'src str, char, RichText> for MyParser {
///     ghost use Rattle.chumsky_parser.specs.ProgressLaws.{never};
///
///     ghost moved = { λ _. never };
///
///     fn always_moves(&self) -> bool {
///         false
///     }
/// }
/// ```
pub trait Moving<'src, I: Input<'src>, O, E: ParserExtra<I>>: Parser<'src, I, O, E> {
    ghost use Rattle.chumsky_parser.specs.Progress.{Moves};

    /// That each success ends past its start.
    ghost moves: { Self → Bool } = { λ _. false };

    /// Whether each success ends past its start.
    fn always_moves(&self) -> bool
        ensures { result ≡ moves self.now };

    /// It does, where that is said.
    ghost moved: { (p : Self) → moves p ≡ true → Moves (Self.meaning p E.Error.Error E.State.Inspector) };
}

/// Whether the first step of each iteration moves wherever it succeeds: that of `just("a").repeated().at_least(1)` does, and
/// that of `just("a").repeated()` does not, since it may give no item. Of items that answer no, nothing is known.
pub trait MovingItems<'src, I: Input<'src>, O, E: ParserExtra<I>>: IterParser<'src, I, O, E> {
    ghost use Rattle.chumsky_parser.specs.Progress.{ItemsMove};
    ghost use Rattle.chumsky_parser.specs.declared.iter.IterParserDebug.{IterParserDebug};

    /// That each first step that succeeds ends past its start.
    ghost first_moves: { Self → Bool } = { λ _. false };

    /// Whether each first step that succeeds ends past its start.
    fn first_always_moves(&self) -> bool
        ensures { result ≡ first_moves self.now };

    /// It does, where that is said.
    ghost first_moved: { (p : Self) → first_moves p ≡ true → (d : IterParserDebug) → ItemsMove (Self.begins p E.Error.Error E.State.Inspector) (λ s. Self.gives p d s E.Error.Error E.State.Inspector) };
}

/// Says of a part of a grammar, or of the marker of a function that calls itself, that it may succeed where it begins:
/// `impl MayStay for MyPart {}`.
pub trait MayStay {}
