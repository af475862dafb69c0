//! Which nodes have lines of their own.
ghost use Rattle.std.specs.Prelude.{◌≡◌, ◌≤◌, min, IfNone, IfSome, Some, length, slice_get};
ghost use Rattle.std.specs.List.{sum_by};
ghost use Rattle.chumsky_debug.specs.Lines.{called, bodies_at, count_of, has_line, is_named, places_at, places_in};

use chumsky_rules::kinds::{Node, NodeKind};
use chumsky_rules::rules::Rules;

/// What the node of a number does, if there is one.
pub(crate) fn kind_of<'a>(rules: &'a Rules, node: usize) -> Option<&'a NodeKind>
    ensures some { IfSome result (λ kind. slice_get rules.now.nodes node ≡ Some kind.now) }
    ensures none { IfNone result (length rules.now.nodes ≤ node) }
{
    let nodes = rules.nodes();
    if node < nodes.len() {
        Some(&nodes[node])
    } else {
        None
    }
}

/// Whether a node is printed by a name: a leaf or a call, or a mapper of one. It looks through so many nodes.
#[cycle(named)]
fn is_named(rules: &Rules, bound: usize, node: usize) -> bool
    ensures { result ≡ is_named rules.now.nodes bound node }
{
    if bound == 0 {
        return false;
    }
    match kind_of(rules, node) {
        Some(kind) => is_called(rules, bound - 1, kind),
        None => false,
    }
}

#[cycle(named)]
fn is_called(rules: &Rules, bound: usize, kind: &NodeKind) -> bool
    ensures { result ≡ called (is_named rules.now.nodes bound) (Some kind.now) }
{
    match kind {
        NodeKind::Leaf(_) => true,
        NodeKind::Rule(_) => true,
        NodeKind::Map(part, _) => is_named(rules, bound, part.number()),
        NodeKind::TryMap(part, _) => is_named(rules, bound, part.number()),
        _ => false,
    }
}

/// Whether a node has a line of its own: it stands at more than one place, and has no name.
pub(crate) fn has_line(rules: &Rules, node: usize) -> bool
    ensures { result ≡ has_line rules.now node }
{
    !is_named(rules, rules.nodes().len(), node) && places(rules, node) == 2
}

/// At how many places a node stands, where two are as good as more.
fn places(rules: &Rules, node: usize) -> usize
    ensures { result ≡ min 2 (places_at rules.now node) }
{
    let mut found: usize = 0;
    for kind in rules.nodes() {
        found = (found + places_in(kind, node)).min(2);
    }
    for body in rules.bodies() {
        found = (found + is_body(*body, node)).min(2);
    }
    found
}

fn is_body(body: Option<Node>, node: usize) -> usize
    ensures value { result ≡ bodies_at node body }
    ensures bound { result ≤ 1 }
{
    match body {
        Some(body) => is_node(body, node),
        None => 0,
    }
}

/// One where the part is the node, and else none.
fn is_node(part: Node, node: usize) -> usize
    ensures value { result ≡ count_of node part }
    ensures bound { result ≤ 1 }
{
    if part.number() == node { 1 } else { 0 }
}

/// At how many places of a kind a node stands, where two are as good as more: in a list with separators each part does at two.
fn places_in(kind: &NodeKind, node: usize) -> usize
    ensures value { result ≡ min 2 (places_in node kind.now) }
    ensures bound { result ≤ 2 }
{
    match kind {
        NodeKind::Leaf(_) => 0,
        NodeKind::Rule(_) => 0,
        NodeKind::Then(a, b, _) => is_node(*a, node) + is_node(*b, node),
        NodeKind::Choice(v) => among(v, node),
        NodeKind::Repeated(a, _, _) => is_node(*a, node),
        NodeKind::SeparatedBy(a, b, _) => (2 * is_node(*a, node) + 2 * is_node(*b, node)).min(2),
        NodeKind::OrNot(a) => is_node(*a, node),
        NodeKind::Not(a) => is_node(*a, node),
        NodeKind::AndIs(a, b) => is_node(*a, node) + is_node(*b, node),
        NodeKind::Rewind(a) => is_node(*a, node),
        NodeKind::Map(a, _) => is_node(*a, node),
        NodeKind::TryMap(a, _) => is_node(*a, node),
    }
}

/// At how many places of a choice a node stands, where two are as good as more.
fn among(parts: &[Node], node: usize) -> usize
    ensures value { result ≡ min 2 (sum_by (count_of node) parts.now) }
    ensures bound { result ≤ 2 }
{
    let mut found: usize = 0;
    for part in parts {
        found = (found + is_node(*part, node)).min(2);
    }
    found
}
