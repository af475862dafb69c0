//! The grammar `settings`: lines of a name, `=` and a value. A value is a number, a name, or values in brackets, with commas
//! between them and maybe one after the last.
ghost use Rattle.std.specs.Prelude.{◌≡◌, [], ◌++◌, All, IfErr, IfOk, None, flat_map, decimal, length, true, ⊤, IsOk};
ghost use Rattle.std.specs.Char.{encode_utf8};
ghost use Rattle.chk_run.specs.Decided.{IsDecided, LacksRoom};
ghost use Rattle.chk_run.specs.Settings.{InBrackets, Printed, ReadsNumber};
ghost use Rattle.chk_run.specs.Request.{IsAnswerTo};
ghost use Rattle.chk_run.specs.Rules.{HasSettings, HasValue, MakesGrammar, first_nodes, list_nodes};
ghost use Rattle.chk_run.specs.Texts.{text_bytes};

use crate::grammar::{Answer, Command, run_rules};
use crate::show::Refusal;
use crate::texts::Text;
use chumsky::Stop;
use chumsky::combinator::{Map, Mapper, Repeated, ToSlice};
use chumsky::extra::RichText;
use chumsky::prelude::*;
use chumsky::primitive::{Just, OneOf};
use chumsky::recursive::{BuildError, Leaves, Moving, Node, RecursiveError, SepCfg, Values};
use either::Either;
use std::alloc::{AllocError, Global};
use std::collections::VecDeque;
use std::marker::PhantomData;
use std::ops::RangeInclusive;

/// The leaves, by number.
const NAME: usize = 0;

const DIGITS: usize = 1;

const EQUALS: usize = 2;

const LINE_END: usize = 3;

const OPENING: usize = 4;

const COMMA: usize = 5;

const CLOSING: usize = 6;

/// What the rules and the leaves are called where they are shown. `#xA` is a line end.
pub(crate) const RULE_NAMES: [&str; 2] = ["settings", "value"];

pub(crate) const LEAF_NAMES: [&str; 7] = ["[a-z]+", "[0-9]+", "'='", "#xA", "'['", "','", "']'"];

/// The mappers, by number: what is printed of a name before its value, of a value in brackets, and of all values in brackets.
const SETTING: usize = 0;

const ITEM: usize = 1;

const LIST: usize = 2;

/// The fallible mapper: what is printed of digits.
const NUMBER: usize = 0;

/// Values are texts to print, which grow at both ends, so that lists within one another are not copied from level to level. That
/// of a name is the slice of the input that it was read from, until a mapper makes another of it; that of a mark, as `=`, is
/// empty.
#[derive(Drop)]
struct Texts<'src> {
    of: PhantomData<&'src str>,
}

impl<'src> Values<SimpleSpan, Rich<char>> for Texts<'src> {
    type Value = Text<'src>;

    ghost pair_gives = { λ _ _ p text. text_bytes text ≡ text_bytes p.0 ++ text_bytes p.1 };

    ghost map_gives = { λ _ mapper value text. Printed mapper (text_bytes value) (text_bytes text) };

    ghost list_gives = { λ _ items text. text_bytes text ≡ flat_map text_bytes items };

    ghost try_gives = { λ _ _ digits span r. ReadsNumber (text_bytes digits) span r };

    fn pair(
        &self,
        alloc: Global,
        _number: usize,
        first: Text<'src>,
        second: Text<'src>,
    ) -> Result<Text<'src>, AllocError> {
        first.join(alloc, second)
    }

    fn option(&self, _alloc: Global, text: Option<Text<'src>>) -> Result<Text<'src>, AllocError>
        ensures gives { IfOk result (λ _. ⊤) }
        ensures memory { ⊥ → IsOk result }
    {
        Ok(text.unwrap_or(Text::Slice("")))
    }

    fn unit(&self, _alloc: Global) -> Result<Text<'src>, AllocError> {
        Ok(Text::Slice(""))
    }

    fn map(
        &self,
        alloc: Global,
        mapper: usize,
        text: Text<'src>,
    ) -> Result<Text<'src>, AllocError> {
        printed(alloc, mapper, text)
    }

    fn list(&self, alloc: Global, items: Vec<Text<'src>>) -> Result<Text<'src>, AllocError>
        ensures gives { IfOk result (λ text. text_bytes text ≡ flat_map text_bytes items.entry.items) }
        ensures memory { ⊥ → IsOk result }
    {
        let mut text = Text::Slice("");
        for item in items {
            text = text.join(alloc, item)?;
        }
        Ok(text)
    }

    fn try_map(
        &self,
        alloc: Global,
        _mapper: usize,
        digits: Text<'src>,
        span: SimpleSpan,
    ) -> Result<Result<Text<'src>, Rich<char>>, AllocError> {
        let digits = format!(in alloc; "{digits}")?;
        match digits.as_str().parse::<u64>() {
            Ok(number) => Ok(Ok(decimal(alloc, number)?)),
            Err(_) => Ok(Err(Rich::custom_in(alloc, span, "number too large")?)),
        }
    }
}

/// A number in digits.
fn decimal<'src>(alloc: Global, number: u64) -> Result<Text<'src>, AllocError>
    ensures { IfOk result (λ text. text_bytes text ≡ decimal number) }
{
    let digits = format!(in alloc; "{number}")?;
    Ok(Text::Made(Text::Slice(digits.as_str()).into_chars(alloc)?))
}

/// What the mapper of a number prints of a text.
fn printed<'src>(alloc: Global, mapper: usize, text: Text<'src>) -> Result<Text<'src>, AllocError>
    ensures { IfOk result (λ made. Printed mapper (text_bytes text.entry) (text_bytes made)) }
{
    let mut chars = text.into_chars(alloc)?;
    match mapper {
        SETTING => {
            chars.push_front(' ')?;
            chars.push_back('=')?;
            Ok(Text::Made(chars))
        }
        ITEM => {
            chars.push_back(',')?;
            Ok(Text::Made(chars))
        }
        _ => in_brackets(chars),
    }
}

/// Items that end in a comma each, in brackets and without the last comma.
fn in_brackets<'src>(items: VecDeque<char>) -> Result<Text<'src>, AllocError>
    ensures { IfOk result (λ text. InBrackets (flat_map encode_utf8 items.items) (text_bytes text)) }
{
    let mut inside = items;
    match inside.pop_back() {
        Some(_) => {
            inside.push_front('[')?;
            inside.push_back(']')?;
            Ok(Text::Made(inside))
        }
        None => Ok(Text::Slice("[]")),
    }
}

/// Any number of values, with commas between them and maybe one after the last.
const VALUES: SepCfg = SepCfg {
    at_least: 0,
    at_most: None,
    allow_leading: false,
    allow_trailing: true,
};

/// Values in brackets.
fn list(rules: &mut Rules, value: Recursive) -> Result<Node, BuildError>
    requires before { rules.old.nodes ≡ first_nodes }
    requires called { value ≡ 1 }
    ensures nodes { IfOk result (λ n. (rules.new.nodes ≡ first_nodes ++ list_nodes) × (n ≡ 11)) }
    ensures bodies { rules.new.bodies ≡ rules.old.bodies }
{
    let opening = rules.leaf(OPENING)?;
    let inside = rules.rule(value)?;
    let item = rules.map(inside, ITEM)?;
    let comma = rules.leaf(COMMA)?;
    let items = rules.separated_by(item, comma, VALUES)?;
    let closing = rules.leaf(CLOSING)?;
    let closed = rules.then(items, closing)?;
    let opened = rules.then(opening, closed)?;
    rules.map(opened, LIST)
}

/// A number, a name, or values in brackets.
fn any_value(rules: &mut Rules, value: Recursive) -> Result<Node, BuildError>
    requires empty { rules.old.nodes ≡ [] }
    requires called { value ≡ 1 }
    ensures nodes { IfOk result (λ n. HasValue rules.new.nodes × (n ≡ 12)) }
    ensures bodies { rules.new.bodies ≡ rules.old.bodies }
{
    let digits = rules.leaf(DIGITS)?;
    let number = rules.try_map(digits, NUMBER)?;
    let name = rules.leaf(NAME)?;
    let list = list(rules, value)?;
    let any = rules.choice(&[number, name, list])?;
    Ok(any)
}

/// Any number of lines, each a name, `=` and a value.
fn lines(rules: &mut Rules, value: Recursive) -> Result<Node, BuildError>
    requires before { HasValue rules.old.nodes }
    requires called { value ≡ 1 }
    ensures nodes { IfOk result (λ n. HasSettings rules.new.nodes × (n ≡ 21)) }
    ensures bodies { rules.new.bodies ≡ rules.old.bodies }
{
    let name = rules.leaf(NAME)?;
    let named = rules.map(name, SETTING)?;
    let equals = rules.leaf(EQUALS)?;
    let given = rules.rule(value)?;
    let line_end = rules.leaf(LINE_END)?;
    let ended = rules.then(given, line_end)?;
    let valued = rules.then(equals, ended)?;
    let line = rules.then(named, valued)?;
    let all = rules.repeated(line, 0, None)?;
    Ok(all)
}

/// The rules of the lines and of their values.
pub(crate) fn settings(rules: &mut Rules) -> Result<Recursive, RecursiveError>
    requires nodes { rules.old.nodes ≡ [] }
    requires bodies { rules.old.bodies ≡ [] }
    ensures { IfOk result (λ start. MakesGrammar rules.new start 7) }
{
    let settings = rules.declare()?;
    let value = rules.declare()?;
    let any = any_value(rules, value)?;
    rules.define(value, any)?;
    let lines = lines(rules, value)?;
    rules.define(settings, lines)?;
    Ok(settings)
}

/// The slice of a name or of digits, as a text to print.
#[derive(Clone, Copy)]
struct Taken;

impl<'src> Mapper<&'src str, Text<'src>> for Taken {
    fn apply(&self, slice: &'src str) -> Text<'src> {
        Text::Slice(slice)
    }
}

type Characters<'src> = OneOf<RangeInclusive<char>, &'src str, RichText>;

type Word<'src> = Map<
    ToSlice<Repeated<Characters<'src>, char, &'src str, RichText>, ()>,
    &'src str,
    Taken,
    Text<'src>,
>;

/// One of these characters or more.
fn word<'src>(characters: RangeInclusive<char>) -> Word<'src>
    ensures least { result.parser.parser.at_least ≡ 1 }
    ensures most { result.parser.parser.at_most ≡ None }
{
    one_of(characters)
        .repeated()
        .at_least(1)
        .to_slice()
        .map_by(Taken)
}

/// The text of a mark, which is empty.
#[derive(Clone, Copy)]
struct Unsaid;

impl<'src> Mapper<char, Text<'src>> for Unsaid {
    fn apply(&self, _mark: char) -> Text<'src> {
        Text::Slice("")
    }
}

type Mark<'src> = Map<Just<char, &'src str, RichText>, char, Unsaid, Text<'src>>;

/// A character that says no more than that it is there.
fn mark<'src>(mark: char) -> Mark<'src> {
    just(mark).map_by(Unsaid)
}

/// The settings of the text, by these leaves.
fn run_over<
    'src,
    P: Moving<'src, &'src str, Text<'src>, RichText>,
    Q: Moving<'src, &'src str, Text<'src>, RichText>,
>(
    rules: &Rules,
    start: Recursive,
    leaves: &[Either<P, Q>],
    alloc: Global,
    command: Command,
    text: &'src str,
) -> Result<Answer<Text<'src>>, Refusal>
    requires ready { All ⟦<Either<P, Q> as Parser<'src, &'src str, Text<'src>, RichText>>⟧.ready leaves.now }
    requires decided { All (λ p. IsDecided (⟦<Either<P, Q> as Parser<'src, &'src str, Text<'src>, RichText>>⟧.language p)) leaves.now }
    requires moving { All (λ p. ⟦<Either<P, Q> as Moving<'src, &'src str, Text<'src>, RichText>>⟧.moves p ≡ true) leaves.now }
    requires made { MakesGrammar rules.now start (length leaves.now) }
    ensures answered { IfOk result (λ answer. IsAnswerTo command answer) }
    ensures refused { IfErr result LacksRoom }
{
    let actions = Leaves {
        leaves,
        values: Texts { of: PhantomData },
    };
    run_rules(rules, start, &actions, alloc, command, text)
}

/// The settings of the text, as they are printed.
pub fn run_settings<'src>(
    alloc: Global,
    command: Command,
    text: &'src str,
) -> Result<Answer<Text<'src>>, Refusal>
    ensures answered { IfOk result (λ answer. IsAnswerTo command answer) }
    ensures refused { IfErr result LacksRoom }
{
    let mut rules = Rules::new(alloc);
    let Ok(start) = settings(&mut rules) else {
        return Err(Refusal::Run(Stop::Memory));
    };
    let leaves = [
        Either::Left(word('a'..='z')),
        Either::Left(word('0'..='9')),
        Either::Right(mark('=')),
        Either::Right(mark('\n')),
        Either::Right(mark('[')),
        Either::Right(mark(',')),
        Either::Right(mark(']')),
    ];
    run_over(&rules, start, &leaves, alloc, command, text)
}
