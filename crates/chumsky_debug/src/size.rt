//! How large nodes are drawn.
use crate::debug::DebugInfo;
use crate::names::{Name, leaf_name, rule_name};
use chumsky_rules::kinds::{Node, NodeKind, SepCfg};
use std::alloc::{AllocError, Global};

/// How far a drawing goes to the right of where its track begins, above the track and below it.
#[derive(Clone, Copy)]
pub(crate) struct Size {
    pub(crate) width: usize,
    pub(crate) up: usize,
    pub(crate) down: usize,
}

/// The room between two tracks, and the radius of bends.
pub(crate) const GAP: usize = 10;

/// What a track takes at the side of a part that others lie above or below: two bends.
pub(crate) const SIDE: usize = 20;

/// How far a box goes above its track and below it.
pub(crate) const HALF_BOX: usize = 11;

/// How wide a character is drawn.
const CHARACTER: usize = 9;

/// What is drawn where nothing is known: a track.
const TRACK: Size = Size {
    width: SIDE,
    up: HALF_BOX,
    down: HALF_BOX,
};

/// The sizes of all nodes, each of those before it.
pub(crate) fn sizes(alloc: Global, info: DebugInfo<'_>) -> Result<Vec<Size>, AllocError> {
    let mut sizes = Vec::new(alloc);
    for kind in info.rules.nodes() {
        sizes.push(size_of(info, kind, sizes.as_slice()))?;
    }
    Ok(sizes)
}

/// The size of a node.
pub(crate) fn node_size(sizes: &[Size], node: Node) -> Size {
    match sizes.get(node.number()) {
        Some(size) => *size,
        None => TRACK,
    }
}

/// The size of a kind of node, by the sizes of its parts.
fn size_of(info: DebugInfo<'_>, kind: &NodeKind, sizes: &[Size]) -> Size {
    match kind {
        NodeKind::Leaf(leaf) => box_size(leaf_name(info, *leaf)),
        NodeKind::Rule(rule) => box_size(rule_name(info, rule.number())),
        NodeKind::Then(a, b, _) => beside(node_size(sizes, *a), node_size(sizes, *b)),
        NodeKind::Choice(parts) => choice_size(parts, sizes),
        NodeKind::Repeated(a, at_least, at_most) => {
            repeated_size(node_size(sizes, *a), *at_least, *at_most)
        }
        NodeKind::SeparatedBy(a, b, config) => {
            list_size(node_size(sizes, *a), node_size(sizes, *b), *config)
        }
        NodeKind::OrNot(a) => optional_size(node_size(sizes, *a)),
        NodeKind::Not(a) => framed_size(node_size(sizes, *a)),
        NodeKind::AndIs(a, b) => beside(framed_size(node_size(sizes, *b)), node_size(sizes, *a)),
        NodeKind::Rewind(a) => framed_size(node_size(sizes, *a)),
        NodeKind::Map(a, _) => node_size(sizes, *a),
        NodeKind::TryMap(a, _) => node_size(sizes, *a),
    }
}

/// How wide the box of a name is.
pub(crate) fn box_width(name: Name<'_>) -> usize {
    name.length().saturating_mul(CHARACTER).saturating_add(SIDE)
}

/// A box, with a track at either side.
fn box_size(name: Name<'_>) -> Size {
    Size {
        width: box_width(name).saturating_add(2 * GAP),
        up: HALF_BOX,
        down: HALF_BOX,
    }
}

/// One after the other.
fn beside(first: Size, second: Size) -> Size {
    Size {
        width: first.width.saturating_add(second.width),
        up: first.up.max(second.up),
        down: first.down.max(second.down),
    }
}

/// A part between bends.
fn between_bends(part: Size) -> Size {
    Size {
        width: part.width.saturating_add(2 * SIDE),
        up: part.up,
        down: part.down,
    }
}

/// A part with a track above it.
pub(crate) fn optional_size(part: Size) -> Size {
    let mut size = between_bends(part);
    size.up = part.up.saturating_add(2 * GAP);
    size
}

/// A part in a frame, with a word above it.
pub(crate) fn framed_size(part: Size) -> Size {
    let mut size = between_bends(part);
    size.up = part.up.saturating_add(SIDE);
    size.down = part.down.saturating_add(GAP);
    size
}

/// How far the track of an alternative lies below that of the one before it.
pub(crate) fn step_down(before: Size, part: Size) -> usize {
    before.down.saturating_add(GAP).saturating_add(part.up)
}

/// Alternatives below one another.
fn choice_size(parts: &[Node], sizes: &[Size]) -> Size {
    let [first, others @ ..] = parts else {
        return TRACK;
    };
    let mut size = node_size(sizes, *first);
    for part in others {
        let part = node_size(sizes, *part);
        size.down = step_down(size, part).saturating_add(part.down);
        size.width = size.width.max(part.width);
    }
    between_bends(size)
}

/// Whether a list may have more than one item.
pub(crate) fn goes_round(at_most: Option<usize>) -> bool {
    match at_most {
        Some(most) => most > 1,
        None => true,
    }
}

/// Whether the bounds of a list are written below it.
pub(crate) fn has_bounds(at_least: usize, at_most: Option<usize>) -> bool {
    match at_most {
        Some(most) => at_least > 1 || most != 1,
        None => at_least > 1,
    }
}

/// What the bounds of a list take below it.
fn bounds_height(at_least: usize, at_most: Option<usize>) -> usize {
    if has_bounds(at_least, at_most) {
        SIDE
    } else {
        0
    }
}

/// A part with a track back below it, and one past it where it may be absent.
fn repeated_size(part: Size, at_least: usize, at_most: Option<usize>) -> Size {
    let past = if at_least == 0 { 2 * GAP } else { 0 };
    let back = if goes_round(at_most) { 2 * GAP } else { 0 };
    Size {
        width: part.width.saturating_add(2 * SIDE),
        up: part.up.saturating_add(past),
        down: part
            .down
            .saturating_add(back)
            .saturating_add(bounds_height(at_least, at_most)),
    }
}

/// Items with a separator on the track back.
pub(crate) fn items_size(item: Size, separator: Size, config: SepCfg) -> Size {
    let mut size = item;
    if goes_round(config.at_most) {
        size.width = item.width.max(separator.width);
        size.down = step_down(item, separator).saturating_add(separator.down);
    }
    let height = bounds_height(config.at_least, config.at_most);
    size.down = size.down.saturating_add(height);
    between_bends(size)
}

/// Items, and a separator after the last where one may stand there.
pub(crate) fn trailed_size(item: Size, separator: Size, config: SepCfg) -> Size {
    let items = items_size(item, separator, config);
    if config.allow_trailing {
        beside(items, optional_size(separator))
    } else {
        items
    }
}

/// A list with separators.
fn list_size(item: Size, separator: Size, config: SepCfg) -> Size {
    let mut size = trailed_size(item, separator, config);
    if config.at_least == 0 {
        size.up = size.up.saturating_add(2 * GAP);
    }
    if config.allow_leading {
        beside(optional_size(separator), size)
    } else {
        size
    }
}
