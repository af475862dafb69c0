//! JSON to a tree, with errors for people, and the tree as text again.
#![tactic(auto)]

ghost use Rattle.std.specs.Prelude.{◌≡◌, ◌⊎◌, ◌+◌, ◌-◌, ◌^◌, min, [], IfOk, IfErr, IsTrue, MatchOption, is_some};
ghost use Rattle.std.specs.Str.{chars};
ghost use Rattle.chumsky.specs.Accepted.{ExactlyUnless};
ghost use Rattle.chumsky_input.specs.declared.stop.Stop.TheVariants as why;
ghost use Rattle.chumsky_exact.specs.Deep.{IsDeep};
ghost use Rattle.exact.specs.JsonForms.{HoldsJson, IsJson};
ghost use Rattle.exact.specs.JsonLevels as json;

pub mod leaves;
pub mod tree;

use crate::leaves::{ItemEnd, Mark, Name, Scalar, WrongItem};
pub use crate::tree::JsonText;
use chumsky::combinator::{Part, part_of, run_part};
use chumsky::extra::{ParserExtra, RichText};
use chumsky::input::{InputRef, TextRef};
use chumsky::prelude::*;
use chumsky::recursive::{RunsUnder, Unsaid};
use chumsky::{PResult, Stop};
use exact::json::parse_json;
pub use exact::json_value::Json;
use std::alloc::{AllocError, Global};

/// A list, of the parser of its items. Where one is wrong, its error is emitted, and `null` stands for it. Like `run_object`, it
/// stands apart from the functions that call each other, since in these each call is dear to check, and it is generic in the input
/// and the extra, as a function that takes a parser over a text has to be.
fn run_list<'src, I, E, V>(
    value: V,
    wanted: bool,
    inp: &mut InputRef<'src, '_, I, E>,
) -> PResult<Option<Json>>
where
    I: Input<'src>,
    I::Token: 'src,
    E: ParserExtra<I>,
    V: IsParser<I, Json, E> + Parser<'src, I, Json, E> + Drop,
    Mark: IsParser<I, char, E> + Part<'src, I, char, E>,
    ItemEnd: IsParser<I, (), E> + Part<'src, I, (), E>,
    WrongItem: IsParser<I, (), E> + Part<'src, I, (), E>,
    requires { V.ready value }
    ensures { ⟦<Unsaid as RunsUnder<'src, I, Json, E>>⟧.runs 0 wanted inp.old inp.new result }
{
    let items = value
        .then_ignore(part_of(ItemEnd(']')))
        .recover_with(via_parser(part_of(WrongItem).map(|_| Json::Null)))
        .separated_by(part_of(Mark(',')))
        .collect::<Vec<_>>()
        .delimited_by(part_of(Mark('[')), part_of(Mark(']')));
    run_part(&items.map(Json::Array), wanted, inp)
}

/// An object, of the parser of its values. Where a member is wrong, its error is emitted, and it is left out.
fn run_object<'src, I, E, V>(
    value: V,
    wanted: bool,
    inp: &mut InputRef<'src, '_, I, E>,
) -> PResult<Option<Json>>
where
    I: Input<'src>,
    I::Token: 'src,
    E: ParserExtra<I>,
    V: IsParser<I, Json, E> + Parser<'src, I, Json, E> + Drop,
    Name: IsParser<I, String, E> + Part<'src, I, String, E>,
    Mark: IsParser<I, char, E> + Part<'src, I, char, E>,
    ItemEnd: IsParser<I, (), E> + Part<'src, I, (), E>,
    WrongItem: IsParser<I, (), E> + Part<'src, I, (), E>,
    requires { V.ready value }
    ensures { ⟦<Unsaid as RunsUnder<'src, I, Json, E>>⟧.runs 0 wanted inp.old inp.new result }
{
    let members = part_of(Name)
        .then(value)
        .then_ignore(part_of(ItemEnd('}')))
        .map(Some)
        .recover_with(via_parser(part_of(WrongItem).map(|_| None)))
        .separated_by(part_of(Mark(',')))
        .flatten()
        .collect::<Vec<_>>()
        .delimited_by(part_of(Mark('{')), part_of(Mark('}')));
    run_part(&members.map(Json::Object), wanted, inp)
}

/// A list.
#[cycle(json)]
fn list<'src>(
    inp: &mut TextRef<'src, '_, RichText>,
    wanted: bool,
    depth: usize,
) -> PResult<Option<Json>>
    ensures { ⟦<Unsaid as RunsUnder<'src, &'src str, Json, RichText>>⟧.runs depth wanted inp.old inp.new result }
{
    run_list(recursive(value, depth), wanted, inp)
}

/// An object.
#[cycle(json)]
fn object<'src>(
    inp: &mut TextRef<'src, '_, RichText>,
    wanted: bool,
    depth: usize,
) -> PResult<Option<Json>>
    ensures { ⟦<Unsaid as RunsUnder<'src, &'src str, Json, RichText>>⟧.runs depth wanted inp.old inp.new result }
{
    run_object(recursive(value, depth), wanted, inp)
}

/// A value.
#[cycle(json)]
fn value<'src>(
    inp: &mut TextRef<'src, '_, RichText>,
    wanted: bool,
    depth: usize,
) -> PResult<Option<Json>>
    ensures { ⟦<Unsaid as RunsUnder<'src, &'src str, Json, RichText>>⟧.runs depth wanted inp.old inp.new result }
{
    let json = choice((
        part_of(Scalar),
        recursive(list, depth),
        recursive(object, depth),
    ));
    run_part(&json, wanted, inp)
}

/// How many lists and objects may stand within one another. Where a text is wrong, one takes some 2 kB of stack, so all of them
/// fit into 256 kB.
const LEVELS: usize = 100;

/// How many calls may be open at once: two for each list and each object, and two for the innermost value.
fn calls(levels: usize) -> usize {
    levels.saturating_mul(2).saturating_add(2)
}

/// Reads a value. One that is nested more than a hundred deep is refused with `Stop::TooDeep`.
pub fn read_json(alloc: Global, text: &str) -> Result<ParseResult<Json, Rich<char>>, Stop>
    ensures exact { ExactlyUnless HoldsJson (chars text.now) (IsDeep IsJson json.levels 101 (chars text.now)) result }
    ensures told { IfOk result (λ parsed. parsed.errors.items ≡ [] → IsTrue (is_some parsed.output)) }
{
    read_json_within(alloc, text, LEVELS)
}

/// Reads a value. One with more than so many lists and objects within one another is refused with `Stop::TooDeep`. Where the text
/// is wrong, each takes some 2 kB of stack.
///
/// A reader that keeps no errors tells whether the text is JSON, and which value it is. Only of a text that is none is it read
/// once more, by a reader that does, for what to say of it.
pub fn read_json_within(
    alloc: Global,
    text: &str,
    levels: usize,
) -> Result<ParseResult<Json, Rich<char>>, Stop>
    ensures exact { ExactlyUnless HoldsJson (chars text.now) (IsDeep IsJson json.levels (min (levels + 1) (2 ^ 64 - 1)) (chars text.now)) result }
    ensures told { IfOk result (λ parsed. parsed.errors.items ≡ [] → IsTrue (is_some parsed.output)) }
{
    let parsed = parse_json(alloc, text, levels.saturating_add(1))?;
    match parsed.into_output() {
        Some(json) => Ok(ParseResult {
            output: Some(json),
            errors: Vec::new(alloc),
        }),
        None => Ok(ParseResult {
            output: None,
            errors: read_around_errors(alloc, text, levels)?.into_errors(),
        }),
    }
}

/// Reads a value of which some may be wrong: `[1, nul, {"a": 2, b: 3}]` is `[1,null,{"a":2}]`, beside an error for each item and
/// each member that can't be read. `null` stands for such an item, and such a member is left out. There is no value where a bracket
/// or a quote isn't closed, where an item is missing before a closing bracket, and where the text goes on after the value; nor
/// always where a string with a bracket stands in a list or an object behind which its item goes on wrong, as in `[["]"] 1, 2]`.
/// It is refused where `read_json` is.
pub fn recover_json(alloc: Global, text: &str) -> Result<ParseResult<Json, Rich<char>>, Stop>
    ensures right { IfOk result (λ parsed. (json : Json) → HoldsJson (chars text.now) json → parsed.errors.items ≡ []) }
    ensures exact { IfOk result (λ parsed. parsed.errors.items ≡ [] → MatchOption parsed.output ⊥ (HoldsJson (chars text.now))) }
    ensures refused { IfErr result (λ stop. (stop ≡ why.Memory) ⊎ IsDeep IsJson json.levels 101 (chars text.now)) }
{
    let parsed = parse_json(alloc, text, LEVELS + 1)?;
    match parsed.into_output() {
        Some(json) => Ok(ParseResult {
            output: Some(json),
            errors: Vec::new(alloc),
        }),
        None => Ok(read_around_errors(alloc, text, LEVELS)?),
    }
}

/// What is read of a text that is not JSON, and what is wrong with it: one error at least.
fn read_around_errors(
    alloc: Global,
    text: &str,
    levels: usize,
) -> Result<ParseResult<Json, Rich<char>>, AllocError>
    ensures { IfOk result (λ parsed. parsed.errors.items ≡ [] → ⊥) }
{
    let parsed = recursive::<_, _, _, RichText>(value, calls(levels)).parse(alloc, text);
    let (output, mut errors) = match parsed {
        Ok(parsed) => parsed.into_output_errors(),
        Err(Stop::Memory) => return Err(AllocError),
        Err(_) => (None, Vec::new(alloc)),
    };
    if errors.is_empty() {
        let whole = SimpleSpan::from(0..text.len());
        errors.push(Rich::custom_in(alloc, whole, "this is not JSON")?)?;
    }
    Ok(ParseResult { output, errors })
}

/// The errors of a text, without its value.
pub fn check_json(alloc: Global, text: &str) -> Result<ParseResult<(), Rich<char>>, Stop>
    ensures { IfOk result (λ parsed. parsed.errors.items ≡ [] → IsTrue (is_some parsed.output)) }
{
    recursive::<_, _, _, RichText>(value, calls(LEVELS)).check(alloc, text)
}
