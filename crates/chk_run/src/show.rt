//! How errors print.
ghost use Rattle.std.specs.Prelude.{◌≡◌, Some};
ghost use Rattle.std.specs.Option.{option_copied};
ghost use Rattle.chk_run.specs.declared.show.Refusal.TheVariants as reason;
ghost use Rattle.chk_run.specs.Show.{is_plain, symbol_text, pattern_text, patterns_text, found_text, error_text, items_text, stop_text, rules_text, refusal_text};

use chumsky::Stop;
use chumsky::error::{Rich, RichPattern};
use chumsky::recursive::FoundedError;
use std::fmt;
use std::fmt::Display;

/// A character: between quotes if it is printable ASCII, else by its number.
#[derive(Clone, Copy)]
pub struct Symbol(pub char);

impl Display for Symbol {
    ghost output = { λ s. Some (symbol_text s.0) };

    fn fmt<W: fmt::Write>(&self, f: &mut fmt::Formatter<W>) -> fmt::Result {
        let symbol = self.0;
        if is_plain(symbol) {
            write!(f, "'{symbol}'")
        } else {
            write!(f, "U+{:04X}", u32::from(symbol))
        }
    }
}

/// Whether a character is printable ASCII.
fn is_plain(symbol: char) -> bool
    ensures { result ≡ is_plain symbol }
{
    matches!(symbol, ' '..='~')
}

/// Something that was expected.
#[derive(Clone, Copy)]
struct Pattern<'a>(&'a RichPattern<char>);

impl Display for Pattern<'_> {
    ghost output = { λ p. Some (pattern_text p.0.now) };

    fn fmt<W: fmt::Write>(&self, f: &mut fmt::Formatter<W>) -> fmt::Result {
        match self.0 {
            RichPattern::Token(token) => write!(f, "{}", Symbol(*token)),
            RichPattern::Any => write!(f, "any"),
            RichPattern::SomethingElse => write!(f, "something else"),
            RichPattern::EndOfInput => write!(f, "end of input"),
            RichPattern::Label(text) => write!(f, "{text}"),
        }
    }
}

/// All that was expected, or that nothing was.
#[derive(Clone, Copy)]
struct Patterns<'a>(&'a [RichPattern<char>]);

impl Display for Patterns<'_> {
    ghost output = { λ p. Some (patterns_text p.0.now) };

    fn fmt<W: fmt::Write>(&self, f: &mut fmt::Formatter<W>) -> fmt::Result {
        let [first, others @ ..] = self.0 else {
            return write!(f, "nothing");
        };
        write!(f, "{}", Pattern(first))?;
        for other in others {
            write!(f, ", {}", Pattern(other))?;
        }
        Ok(())
    }
}

/// What was found: a character, or the end of the input.
#[derive(Clone, Copy)]
struct Found<'a>(Option<&'a char>);

impl Display for Found<'_> {
    ghost output = { λ s. Some (found_text (option_copied s.0)) };

    fn fmt<W: fmt::Write>(&self, f: &mut fmt::Formatter<W>) -> fmt::Result {
        match self.0 {
            Some(found) => write!(f, "{}", Symbol(*found)),
            None => write!(f, "end"),
        }
    }
}

/// An error, as the text of one line.
#[derive(Clone, Copy)]
pub struct ErrorLine<'a>(pub &'a Rich<char>);

impl Display for ErrorLine<'_> {
    ghost output = { λ e. Some (error_text e.0.now) };

    fn fmt<W: fmt::Write>(&self, f: &mut fmt::Formatter<W>) -> fmt::Result {
        let error = self.0;
        let span = *error.span();
        write!(f, "error {}..{} ", span.start, span.end)?;
        match error.reason() {
            Some(message) => write!(f, "{message}"),
            None => {
                let patterns = Patterns(error.expected().as_slice());
                write!(f, "expected {patterns} found {}", Found(error.found()))
            }
        }
    }
}

/// That a list is right, and then each of its items after a space.
#[derive(Clone, Copy)]
pub struct Items<'a, 'src>(pub &'a [&'src str]);

impl Display for Items<'_, '_> {
    ghost output = { λ s. Some (items_text s.0.now) };

    fn fmt<W: fmt::Write>(&self, f: &mut fmt::Formatter<W>) -> fmt::Result {
        write!(f, "ok")?;
        for item in self.0 {
            write!(f, " {item}")?;
        }
        Ok(())
    }
}

/// The name of a reason why a run is refused.
fn stop_name(stop: Stop) -> &'static str
    ensures { result.now ≡ stop_text stop }
{
    match stop {
        Stop::Memory => "Memory",
        Stop::NoProgress => "NoProgress",
        Stop::TooDeep => "TooDeep",
        Stop::CountTooLarge => "CountTooLarge",
    }
}

/// The name of a reason why rules make no grammar.
fn rules_name(error: FoundedError) -> &'static str
    ensures { result.now ≡ rules_text error }
{
    match error {
        FoundedError::Close(_) => "Close",
        FoundedError::Memory => "Memory",
        FoundedError::EmptyRound(_) => "EmptyRound",
        FoundedError::LeftCycle(_) => "LeftCycle",
        FoundedError::LimitTooLarge => "LimitTooLarge",
    }
}

/// Why there is no answer.
#[derive(Clone, Copy)]
pub enum Refusal {
    /// The run was refused.
    Run(Stop),
    /// The rules make no grammar.
    Rules(FoundedError),
}

impl From<Stop> for Refusal {
    ghost from_gives = { λ stop refusal. refusal ≡ reason.Run stop };

    fn from(stop: Stop) -> Refusal {
        Refusal::Run(stop)
    }
}

/// The name of a refusal.
pub fn refusal_name(refusal: Refusal) -> &'static str
    ensures { result.now ≡ refusal_text refusal }
{
    match refusal {
        Refusal::Run(stop) => stop_name(stop),
        Refusal::Rules(error) => rules_name(error),
    }
}
