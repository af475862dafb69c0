//! What rules, leaves and nodes are called.
ghost use Rattle.std.specs.Prelude.{◌≡◌, ◌-◌, Some, codes};
ghost use Rattle.std.specs.Option.{option_map};
ghost use Rattle.chumsky_debug.specs.Names.{least_of, name_text, times_text};

use crate::debug::DebugInfo;
use std::fmt;
use std::fmt::{Display, Formatter};

/// The name at a place of a list, or else a word and the place.
#[derive(Clone, Copy)]
pub(crate) struct Name<'a> {
    pub(crate) names: &'a [&'a str],
    pub(crate) word: &'static str,
    pub(crate) place: usize,
}

impl Display for Name<'_> {
    ghost output = { λ n. Some (name_text n.names.now n.word.now n.place) };

    fn fmt<W: fmt::Write>(&self, f: &mut Formatter<W>) -> fmt::Result {
        match self.names.get(self.place) {
            Some(name) => write!(f, "{name}"),
            None => write!(f, "{}{}", self.word, self.place),
        }
    }
}

impl Name<'_> {
    /// How many characters it has.
    pub(crate) fn length(self) -> usize {
        match self.names.get(self.place) {
            Some(name) => name.chars().count(),
            None => self.word.len().saturating_add(20),
        }
    }

    /// Writes it between the tags of an element.
    pub(crate) fn write_escaped<W: fmt::Write>(self, f: &mut Formatter<W>) -> fmt::Result {
        match self.names.get(self.place) {
            Some(name) => write_escaped(f, name),
            None => write!(f, "{}{}", self.word, self.place),
        }
    }
}

/// Writes a text between the tags of an element: what would begin a tag or an entity is one.
fn write_escaped<W: fmt::Write>(f: &mut Formatter<W>, text: &str) -> fmt::Result {
    for character in text.chars() {
        match character {
            '<' => write!(f, "&lt;")?,
            '>' => write!(f, "&gt;")?,
            '&' => write!(f, "&amp;")?,
            _ => write!(f, "{character}")?,
        }
    }
    Ok(())
}

/// What a rule is called.
pub(crate) fn rule_name<'a>(info: DebugInfo<'a>, rule: usize) -> Name<'a>
    ensures names { result.names.now ≡ info.entry.rule_names.now }
    ensures word { result.word.now ≡ codes "rule" }
    ensures place { result.place ≡ rule }
{
    Name {
        names: info.rule_names,
        word: "rule",
        place: rule,
    }
}

/// What a leaf is called.
pub(crate) fn leaf_name<'a>(info: DebugInfo<'a>, leaf: usize) -> Name<'a>
    ensures names { result.names.now ≡ info.entry.leaf_names.now }
    ensures word { result.word.now ≡ codes "leaf" }
    ensures place { result.place ≡ leaf }
{
    Name {
        names: info.leaf_names,
        word: "leaf",
        place: leaf,
    }
}

/// How often an item stands, as what follows it: `*`, `+`, `?`, or its bounds in braces.
#[derive(Clone, Copy)]
pub(crate) struct Times {
    pub(crate) at_least: usize,
    pub(crate) at_most: Option<usize>,
}

impl Times {
    /// Bounds. Where the cap is below the least number, it is that number too.
    pub(crate) fn of(at_least: usize, at_most: Option<usize>) -> Times
        ensures least { result.at_least ≡ least_of at_least at_most }
        ensures most { result.at_most ≡ at_most }
    {
        match at_most {
            Some(most) => Times {
                at_least: at_least.min(most),
                at_most,
            },
            None => Times { at_least, at_most },
        }
    }

    /// The bounds of the items after the first.
    pub(crate) fn after_first(self) -> Times
        ensures least { result.at_least ≡ self.at_least - 1 }
        ensures most { result.at_most ≡ option_map (λ most. most - 1) self.at_most }
    {
        let at_most = match self.at_most {
            Some(most) => Some(most.saturating_sub(1)),
            None => None,
        };
        Times {
            at_least: self.at_least.saturating_sub(1),
            at_most,
        }
    }
}

impl Display for Times {
    ghost output = { λ t. Some (times_text t.at_least t.at_most) };

    fn fmt<W: fmt::Write>(&self, f: &mut Formatter<W>) -> fmt::Result {
        match (self.at_least, self.at_most) {
            (0, None) => write!(f, "*"),
            (1, None) => write!(f, "+"),
            (least, None) => write!(f, "{{{least},}}"),
            (0, Some(1)) => write!(f, "?"),
            (least, Some(most)) if least == most => write!(f, "{{{most}}}"),
            (least, Some(most)) => write!(f, "{{{least},{most}}}"),
        }
    }
}
