//! How a `Rich` prints.
ghost use Rattle.std.specs.Option.{option_copied};
ghost use Rattle.chumsky_input.specs.Display.{pattern_text, patterns_text, found_text, rich_text};

use crate::rich::{Rich, RichPattern};
use std::fmt;
use std::fmt::Display;

/// A token between single quotes, as it prints itself; `any`, `something else` or `end of input`; the text of a label.
impl<T: Display> Display for RichPattern<T> {
    ghost output = { λ p. pattern_text T.output p };

    fn fmt<W: fmt::Write>(&self, f: &mut fmt::Formatter<W>) -> fmt::Result {
        match self {
            RichPattern::Token(token) => write!(f, "'{token}'"),
            RichPattern::Any => write!(f, "any"),
            RichPattern::SomethingElse => write!(f, "something else"),
            RichPattern::EndOfInput => write!(f, "end of input"),
            RichPattern::Label(text) => write!(f, "{text}"),
        }
    }
}

/// All that was expected.
#[derive_where(Clone, Copy)]
struct Patterns<'a, T>(&'a [RichPattern<T>]);

impl<T: Display> Display for Patterns<'_, T> {
    ghost output = { λ p. patterns_text T.output p.0.now };

    fn fmt<W: fmt::Write>(&self, f: &mut fmt::Formatter<W>) -> fmt::Result {
        let [first, others @ ..] = self.0 else {
            return write!(f, "something else");
        };
        write!(f, "{first}")?;
        let mut rest = others;
        while let [pattern, later @ ..] = rest {
            let separator = if later.is_empty() { " or " } else { ", " };
            write!(f, "{separator}{pattern}")?;
            rest = later;
        }
        Ok(())
    }
}

/// The token that was found, or the end of the input.
#[derive_where(Clone, Copy)]
struct Found<'a, T>(Option<&'a T>);

impl<T: Display> Display for Found<'_, T> {
    ghost output = { λ s. found_text T.output (option_copied s.0) };

    fn fmt<W: fmt::Write>(&self, f: &mut fmt::Formatter<W>) -> fmt::Result {
        match self.0 {
            Some(token) => write!(f, "'{token}'"),
            None => write!(f, "end of input"),
        }
    }
}

/// `expected 'a', 'b' or any, found 'c'`, or the message of a custom error. Where nothing was expected, that is `something
/// else`, and after the last token `end of input` is found. Tokens print themselves, within single quotes. The span isn't
/// printed.
impl<T: Display> Display for Rich<T> {
    ghost output = { λ e. rich_text T.output e };

    fn fmt<W: fmt::Write>(&self, f: &mut fmt::Formatter<W>) -> fmt::Result {
        match self.reason() {
            Some(message) => write!(f, "{message}"),
            None => {
                let patterns = Patterns(self.expected().as_slice());
                write!(f, "expected {patterns}, found {}", Found(self.found()))
            }
        }
    }
}
