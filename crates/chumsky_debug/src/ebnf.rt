//! Rules as EBNF.
ghost use Rattle.std.specs.Prelude.{◌≡◌, Some, slice_get};
ghost use Rattle.std.specs.Fmt.{WritesOnOk};
ghost use Rattle.chumsky_debug.specs.Ebnf.{body_at, body_line, choice_text, ebnf_text, items_text, kind_text, level_of, list_text, node_line, node_text, open_text, part_text, rest_text, rule_line};

use crate::debug::DebugInfo;
use crate::lines::{has_line, kind_of};
use crate::names::{Times, leaf_name, rule_name};
use chumsky_rules::kinds::{Node, NodeKind, SepCfg};
use chumsky_rules::rules::Rules;
use std::fmt;
use std::fmt::{Display, Formatter};

/// Rules as EBNF in the notation of the W3C's recommendation of XML, a line for each rule: `list ::= '[' (item (',' item)*)? ']'`.
///
/// Alternatives are tried in their order. Bounds stand in braces, as `{2,5}`, and `!a` and `&a` say that `a` fails and succeeds there,
/// without reading anything, as in parsing expression grammars; `()` reads nothing, and `!()` fails. A node that would be printed at
/// more than one place has a line of its own, under the name `node7`, unless it is a leaf or a call. So what is printed is no longer than
/// the rules are large, but for names. Mappers aren't shown.
///
/// Nodes within one another are printed by calls that go as deep, up to the calls of rules.
#[derive(Clone, Copy)]
pub struct Ebnf<'a> {
    pub info: DebugInfo<'a>,
}

impl Display for Ebnf<'_> {
    ghost output = { λ e. Some (ebnf_text e.info) };

    fn fmt<W: fmt::Write>(&self, f: &mut Formatter<W>) -> fmt::Result {
        let rules = self.info.rules;
        for rule in 0..rules.bodies().len() {
            write_rule(f, self.info, rule)?;
        }
        for node in 0..rules.nodes().len() {
            write_line(f, self.info, node)?;
        }
        Ok(())
    }
}

/// The line of a rule.
fn write_rule<W: fmt::Write>(f: &mut Formatter<W>, info: DebugInfo<'_>, rule: usize) -> fmt::Result
    ensures { WritesOnOk W.write_str_gives f.old result (rule_line info.entry rule) f.new }
{
    let body = body_of(info.rules, rule);
    write_body(f, info, rule, body)
}

/// The body of a rule, if it has one.
fn body_of(rules: &Rules, rule: usize) -> Option<Node>
    ensures { result ≡ body_at (slice_get rules.now.bodies rule) }
{
    match rules.bodies().get(rule).copied() {
        Some(body) => body,
        None => None,
    }
}

/// The line of a rule that has this body.
fn write_body<W: fmt::Write>(
    f: &mut Formatter<W>,
    info: DebugInfo<'_>,
    rule: usize,
    body: Option<Node>,
) -> fmt::Result
    ensures { WritesOnOk W.write_str_gives f.old result (body_line info.entry rule body) f.new }
{
    let name = rule_name(info, rule);
    match body {
        Some(body) => {
            write!(f, "{name} ::= ")?;
            write_at(f, info, info.rules.nodes().len(), body, ALTERNATIVES)?;
            write!(f, "\n")
        }
        None => write!(f, "{name} ::= /* undefined */\n"),
    }
}

/// The line of a node that has one.
fn write_line<W: fmt::Write>(f: &mut Formatter<W>, info: DebugInfo<'_>, node: usize) -> fmt::Result
    ensures { WritesOnOk W.write_str_gives f.old result (node_line info.entry node) f.new }
{
    if !has_line(info.rules, node) {
        return Ok(());
    }
    write!(f, "node{node} ::= ")?;
    write_node(f, info, info.rules.nodes().len(), node, ALTERNATIVES)?;
    write!(f, "\n")
}

/// How tightly what is printed holds together: alternatives the least.
const ALTERNATIVES: usize = 0;

const SEQUENCE: usize = 1;

const PREFIXED: usize = 2;

const SUFFIXED: usize = 3;

const ATOM: usize = 4;

/// How tightly what is printed of a kind holds together.
fn level_of(kind: &NodeKind) -> usize
    ensures { result ≡ level_of kind.now }
{
    match kind {
        NodeKind::Choice(_) => ALTERNATIVES,
        NodeKind::Then(_, _, _) => SEQUENCE,
        NodeKind::SeparatedBy(_, _, _) => SEQUENCE,
        NodeKind::AndIs(_, _) => SEQUENCE,
        NodeKind::Not(_) => PREFIXED,
        NodeKind::Rewind(_) => PREFIXED,
        NodeKind::Repeated(_, _, _) => SUFFIXED,
        NodeKind::OrNot(_) => SUFFIXED,
        NodeKind::Leaf(_) => ATOM,
        NodeKind::Rule(_) => ATOM,
        NodeKind::Map(_, _) => ATOM,
        NodeKind::TryMap(_, _) => ATOM,
    }
}

/// A part.
#[cycle(ebnf)]
fn write_at<W: fmt::Write>(
    f: &mut Formatter<W>,
    info: DebugInfo<'_>,
    bound: usize,
    part: Node,
    level: usize,
) -> fmt::Result
    ensures { WritesOnOk W.write_str_gives f.old result (part_text info.entry bound level part) f.new }
{
    write_part(f, info, bound, part.number(), level)
}

/// A part: by its name where it has a line of its own.
#[cycle(ebnf)]
fn write_part<W: fmt::Write>(
    f: &mut Formatter<W>,
    info: DebugInfo<'_>,
    bound: usize,
    node: usize,
    level: usize,
) -> fmt::Result
    ensures { WritesOnOk W.write_str_gives f.old result (part_text info.entry bound level node) f.new }
{
    if has_line(info.rules, node) {
        return write!(f, "node{node}");
    }
    write_node(f, info, bound, node, level)
}

/// A node, whose parts are less than so many deep.
#[cycle(ebnf)]
fn write_node<W: fmt::Write>(
    f: &mut Formatter<W>,
    info: DebugInfo<'_>,
    bound: usize,
    node: usize,
    level: usize,
) -> fmt::Result
    ensures { WritesOnOk W.write_str_gives f.old result (node_text info.entry bound level node) f.new }
{
    if bound == 0 {
        return Ok(());
    }
    match kind_of(info.rules, node) {
        Some(kind) => write_enclosed(f, info, bound - 1, kind, level),
        None => Ok(()),
    }
}

/// A node of a kind, in brackets where it doesn't hold together as tightly as it has to.
#[cycle(ebnf)]
fn write_enclosed<W: fmt::Write>(
    f: &mut Formatter<W>,
    info: DebugInfo<'_>,
    bound: usize,
    kind: &NodeKind,
    level: usize,
) -> fmt::Result
    ensures { WritesOnOk W.write_str_gives f.old result (kind_text (part_text info.entry bound) info.entry level (Some kind.now)) f.new }
{
    if level_of(kind) < level {
        write!(f, "(")?;
        write_kind(f, info, bound, kind, level)?;
        write!(f, ")")
    } else {
        write_kind(f, info, bound, kind, level)
    }
}

/// A node of a kind, without brackets.
#[cycle(ebnf)]
fn write_kind<W: fmt::Write>(
    f: &mut Formatter<W>,
    info: DebugInfo<'_>,
    bound: usize,
    kind: &NodeKind,
    level: usize,
) -> fmt::Result
    ensures { WritesOnOk W.write_str_gives f.old result (open_text (part_text info.entry bound) info.entry level kind.now) f.new }
{
    match kind {
        NodeKind::Leaf(leaf) => write!(f, "{}", leaf_name(info, *leaf)),
        NodeKind::Rule(rule) => write!(f, "{}", rule_name(info, rule.number())),
        NodeKind::Then(a, b, _) => {
            write_at(f, info, bound, *a, SEQUENCE)?;
            write!(f, " ")?;
            write_at(f, info, bound, *b, SEQUENCE)
        }
        NodeKind::Choice(parts) => write_choice(f, info, bound, parts),
        NodeKind::Repeated(a, at_least, at_most) => {
            write_at(f, info, bound, *a, ATOM)?;
            write!(f, "{}", Times::of(*at_least, *at_most))
        }
        NodeKind::SeparatedBy(a, b, config) => write_list(f, info, bound, *a, *b, *config),
        NodeKind::OrNot(a) => {
            write_at(f, info, bound, *a, ATOM)?;
            write!(f, "?")
        }
        NodeKind::Not(a) => {
            write!(f, "!")?;
            write_at(f, info, bound, *a, PREFIXED)
        }
        NodeKind::AndIs(a, b) => {
            write!(f, "&")?;
            write_at(f, info, bound, *b, PREFIXED)?;
            write!(f, " ")?;
            write_at(f, info, bound, *a, SEQUENCE)
        }
        NodeKind::Rewind(a) => {
            write!(f, "&")?;
            write_at(f, info, bound, *a, PREFIXED)
        }
        NodeKind::Map(a, _) => write_at(f, info, bound, *a, level),
        NodeKind::TryMap(a, _) => write_at(f, info, bound, *a, level),
    }
}

/// Alternatives. Without any, what always fails.
#[cycle(ebnf)]
fn write_choice<W: fmt::Write>(
    f: &mut Formatter<W>,
    info: DebugInfo<'_>,
    bound: usize,
    parts: &[Node],
) -> fmt::Result
    ensures { WritesOnOk W.write_str_gives f.old result (choice_text (part_text info.entry bound) parts.now) f.new }
{
    let [first, others @ ..] = parts else {
        return write!(f, "!()");
    };
    write_at(f, info, bound, *first, SEQUENCE)?;
    for other in others {
        write!(f, " | ")?;
        write_at(f, info, bound, *other, SEQUENCE)?;
    }
    Ok(())
}

/// A list with separators: where one may stand before the first item, then the items, which may be absent where there may be none.
#[cycle(ebnf)]
fn write_list<W: fmt::Write>(
    f: &mut Formatter<W>,
    info: DebugInfo<'_>,
    bound: usize,
    item: Node,
    separator: Node,
    config: SepCfg,
) -> fmt::Result
    ensures { WritesOnOk W.write_str_gives f.old result (list_text (part_text info.entry bound) item separator config) f.new }
{
    if config.at_most == Some(0) {
        return write!(f, "()");
    }
    if config.allow_leading {
        write_at(f, info, bound, separator, ATOM)?;
        write!(f, "? ")?;
    }
    if config.at_least == 0 {
        write!(f, "(")?;
        write_items(f, info, bound, item, separator, config)?;
        write!(f, ")?")
    } else {
        write_items(f, info, bound, item, separator, config)
    }
}

/// An item, the others with the separator before each, and where one may stand after the last, that.
#[cycle(ebnf)]
fn write_items<W: fmt::Write>(
    f: &mut Formatter<W>,
    info: DebugInfo<'_>,
    bound: usize,
    item: Node,
    separator: Node,
    config: SepCfg,
) -> fmt::Result
    ensures { WritesOnOk W.write_str_gives f.old result (items_text (part_text info.entry bound) item separator config) f.new }
{
    write_at(f, info, bound, item, SEQUENCE)?;
    if config.at_most != Some(1) {
        write_others(f, info, bound, item, separator, config)?;
    }
    if config.allow_trailing {
        write!(f, " ")?;
        write_at(f, info, bound, separator, ATOM)?;
        write!(f, "?")?;
    }
    Ok(())
}

/// The items after the first.
#[cycle(ebnf)]
fn write_others<W: fmt::Write>(
    f: &mut Formatter<W>,
    info: DebugInfo<'_>,
    bound: usize,
    item: Node,
    separator: Node,
    config: SepCfg,
) -> fmt::Result
    ensures { WritesOnOk W.write_str_gives f.old result (rest_text (part_text info.entry bound) item separator config) f.new }
{
    write!(f, " (")?;
    write_at(f, info, bound, separator, SEQUENCE)?;
    write!(f, " ")?;
    write_at(f, info, bound, item, SEQUENCE)?;
    let others = Times::of(config.at_least, config.at_most).after_first();
    write!(f, "){others}")
}
