//! A line of settings, as `port = 8080`.
ghost use Rattle.std.specs.Prelude.{◌≡◌};
ghost use Rattle.std.specs.Str.{chars};
ghost use Rattle.chumsky.specs.Accepted.{Exactly};
ghost use Rattle.chumsky_exact.specs.Table.{IsOfTable};
ghost use Rattle.examples.specs.Setting.{IsSetting, keys, switches};

use crate::words::{Word, word};
use chumsky::Stop;
use chumsky::combinator::Mapper;
use chumsky::extra::RichText;
use chumsky::prelude::*;
use chumsky::primitive::Choice;
use chumsky_parser::parser::Parser;
use std::alloc::Global;

/// What may be set.
#[derive(Clone, Copy, Debug, PartialEq)]
pub enum Key {
    Host,
    Port,
    User,
    Group,
    Root,
    Index,
    Log,
    Level,
    Cache,
    Timeout,
    Retries,
    Verbose,
}

/// What it is set to.
#[derive(Clone, Copy, Debug, PartialEq)]
pub enum Value {
    Switch(bool),
    Number(u16),
}

/// A line of settings.
#[derive(Clone, Copy, Debug, PartialEq)]
pub struct Setting {
    pub key: Key,
    pub value: Value,
}

/// Makes a value of a number.
#[derive(Clone, Copy)]
struct ToNumber;

impl Mapper<u16, Value> for ToNumber {
    ghost use Rattle.examples.specs.declared.setting.Value.TheVariants.{Number};

    ghost gives = { λ _ number value. value ≡ Number number };

    fn apply(&self, number: u16) -> Value {
        Value::Number(number)
    }
}

/// One of twelve keywords.
fn keyword<'src>() -> Choice<[Word<'src, Key>; 12]>
    ensures { IsOfTable (⟦<Choice<[Word<'src, Key>; 12]> as Parser<'src, &'src str, Key, RichText>>⟧.language result) keys }
{
    choice([
        word("host", Key::Host),
        word("port", Key::Port),
        word("user", Key::User),
        word("group", Key::Group),
        word("root", Key::Root),
        word("index", Key::Index),
        word("log", Key::Log),
        word("level", Key::Level),
        word("cache", Key::Cache),
        word("timeout", Key::Timeout),
        word("retries", Key::Retries),
        word("verbose", Key::Verbose),
    ])
}

/// `true` or `false`.
fn switch<'src>() -> Choice<[Word<'src, Value>; 2]>
    ensures { IsOfTable (⟦<Choice<[Word<'src, Value>; 2]> as Parser<'src, &'src str, Value, RichText>>⟧.language result) switches }
{
    choice([
        word("true", Value::Switch(true)),
        word("false", Value::Switch(false)),
    ])
}

/// A line such as `port = 8080` or `verbose = true`: one of the twelve keys, and a switch or a number of four digits at most. Of
/// any other text there is no output.
pub fn parse_setting(alloc: Global, text: &str) -> Result<ParseResult<Setting, Rich<char>>, Stop>
    ensures { Exactly IsSetting (chars text.now) result }
{
    let digits = one_of("0123456789").repeated().at_least(1).at_most(4);
    let number = digits.to_slice().pick_by(text::decimal::<u16>());
    let value = switch().or(number.map_by(ToNumber));
    group((keyword(), just(" = "), value))
        .map(|(key, _, value)| Setting { key, value })
        .parse(alloc, text)
}
