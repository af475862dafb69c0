//! Rules as a railroad diagram.
use crate::debug::DebugInfo;
use crate::names::{leaf_name, rule_name};
use crate::size::{
    GAP, HALF_BOX, SIDE, Size, framed_size, goes_round, items_size, node_size, optional_size,
    step_down, trailed_size,
};
use crate::tracks::{Back, Bounds, Branch, Frame, NameBox, Past, Straight, side};
use chumsky_rules::kinds::{Node, NodeKind, SepCfg};
use std::fmt;
use std::fmt::{Display, Formatter};

/// Rules as a railroad diagram, a file of SVG: a row for each rule, whose track goes from left to right, through leaves with round
/// ends and rules with corners. Where tracks part, the upper one of alternatives is tried first; a list goes back below itself, by
/// way of its separator. In a frame stands what must fail there (`not`) or succeed there (`ahead`), without reading anything.
///
/// Each node is drawn once, and placed wherever it stands. Nodes within one another take no stack.
#[derive(Drop)]
pub struct RailroadSvg<'a> {
    pub info: DebugInfo<'a>,
    pub(crate) sizes: Vec<Size>,
}

/// What boxes, tracks and texts look like.
const STYLE: &str =
    "<style>svg{background:#fff}path{fill:none;stroke:#333;stroke-width:2}rect{fill:#eef3fb;stroke:#333;stroke-width:2}rect.frame{fill:none;stroke-dasharray:4}text{font:14px monospace;text-anchor:middle}text.note{font-size:12px;text-anchor:start}text.rule{font-weight:bold;text-anchor:start}</style>";

/// The room above a row, for the name of its rule, and below it.
const ABOVE: usize = 30;

const BELOW: usize = 20;

impl Display for RailroadSvg<'_> {
    fn fmt<W: fmt::Write>(&self, f: &mut Formatter<W>) -> fmt::Result {
        let (width, height) = self.extent();
        write!(
            f,
            "<svg xmlns=\"http://www.w3.org/2000/svg\" width=\"{width}\" "
        )?;
        write!(f, "height=\"{height}\" viewBox=\"0 0 {width} ")?;
        write!(f, "{height}\">\n{STYLE}\n<defs>\n")?;
        for (number, kind) in self.info.rules.nodes().iter().enumerate() {
            write!(f, "<g id=\"n{number}\">")?;
            self.write_kind(f, kind)?;
            write!(f, "</g>\n")?;
        }
        write!(f, "</defs>\n")?;
        self.write_rows(f)?;
        write!(f, "</svg>\n")
    }
}

/// A part, placed so far to the right and below.
#[derive(Clone, Copy)]
struct Placed {
    part: Node,
    right: usize,
    down: usize,
}

impl Display for Placed {
    fn fmt<W: fmt::Write>(&self, f: &mut Formatter<W>) -> fmt::Result {
        let (right, down) = (self.right, self.down);
        write!(
            f,
            "<use href=\"#n{}\" x=\"{right}\" y=\"{down}\"/>",
            self.part.number()
        )
    }
}

/// A part on the line.
fn on_line(part: Node, right: usize) -> Placed {
    Placed {
        part,
        right,
        down: 0,
    }
}

impl RailroadSvg<'_> {
    fn size(&self, node: Node) -> Size {
        node_size(self.sizes.as_slice(), node)
    }

    /// The width and the height of all rows.
    fn extent(&self) -> (usize, usize) {
        let mut width: usize = 0;
        let mut height: usize = 0;
        for body in self.info.rules.bodies() {
            if let Some(body) = body {
                let size = self.size(*body);
                width = width.max(size.width);
                height = height.saturating_add(row_height(size));
            }
        }
        (width.saturating_add(4 * SIDE), height)
    }

    /// The row of each rule that has a body, one below the other.
    fn write_rows<W: fmt::Write>(&self, f: &mut Formatter<W>) -> fmt::Result {
        let mut top: usize = 0;
        for (rule, body) in self.info.rules.bodies().iter().enumerate() {
            if let Some(body) = body {
                self.write_row(f, rule, *body, top)?;
                top = top.saturating_add(row_height(self.size(*body)));
            }
        }
        Ok(())
    }

    /// The name of a rule and its body, between two bars.
    fn write_row<W: fmt::Write>(
        &self,
        f: &mut Formatter<W>,
        rule: usize,
        body: Node,
        top: usize,
    ) -> fmt::Result {
        let size = self.size(body);
        let line = top.saturating_add(ABOVE).saturating_add(size.up);
        let end = size.width.saturating_add(2 * SIDE);
        let bar = line.saturating_sub(GAP);
        write!(
            f,
            "<text class=\"rule\" x=\"20\" y=\"{}\">",
            top.saturating_add(SIDE)
        )?;
        rule_name(self.info, rule).write_escaped(f)?;
        write!(f, "</text>\n<path d=\"M20 {bar}v20M20 {line}h20")?;
        write!(
            f,
            "M{end} {line}h20M{} {bar}v20\"/>\n",
            end.saturating_add(SIDE)
        )?;
        let body = Placed {
            part: body,
            right: 2 * SIDE,
            down: line,
        };
        write!(f, "{body}\n")
    }

    /// A node of a kind, whose track begins where lines begin.
    fn write_kind<W: fmt::Write>(&self, f: &mut Formatter<W>, kind: &NodeKind) -> fmt::Result {
        match kind {
            NodeKind::Leaf(leaf) => {
                let name = leaf_name(self.info, *leaf);
                write!(
                    f,
                    "{}",
                    NameBox {
                        name,
                        is_leaf: true
                    }
                )
            }
            NodeKind::Rule(rule) => {
                let name = rule_name(self.info, rule.number());
                write!(
                    f,
                    "{}",
                    NameBox {
                        name,
                        is_leaf: false
                    }
                )
            }
            NodeKind::Then(a, b, _) => {
                let right = self.size(*a).width;
                write!(f, "{}{}", on_line(*a, 0), on_line(*b, right))
            }
            NodeKind::Choice(parts) => self.write_choice(f, parts),
            NodeKind::Repeated(a, at_least, at_most) => {
                self.write_repeated(f, *a, *at_least, *at_most)
            }
            NodeKind::SeparatedBy(a, b, config) => self.write_list(f, *a, *b, *config),
            NodeKind::OrNot(a) => self.write_optional(f, *a, 0),
            NodeKind::Not(a) => self.write_framed(f, *a, "not"),
            NodeKind::Rewind(a) => self.write_framed(f, *a, "ahead"),
            NodeKind::AndIs(a, b) => {
                self.write_framed(f, *b, "ahead")?;
                let right = framed_size(self.size(*b)).width;
                write!(f, "{}", on_line(*a, right))
            }
            NodeKind::Map(a, _) => write!(f, "{}", on_line(*a, 0)),
            NodeKind::TryMap(a, _) => write!(f, "{}", on_line(*a, 0)),
        }
    }

    /// A part in a frame.
    fn write_framed<W: fmt::Write>(
        &self,
        f: &mut Formatter<W>,
        part: Node,
        word: &'static str,
    ) -> fmt::Result {
        let frame = Frame {
            part: self.size(part),
            word,
        };
        write!(f, "{frame}{}", on_line(part, SIDE))
    }

    /// A part with a track past it, so far to the right.
    fn write_optional<W: fmt::Write>(
        &self,
        f: &mut Formatter<W>,
        part: Node,
        right: usize,
    ) -> fmt::Result {
        let size = self.size(part);
        let inside = right.saturating_add(SIDE);
        let past = Past {
            from: right,
            width: size.width.saturating_add(2 * SIDE),
            up: size.up,
        };
        let end = side(inside.saturating_add(size.width));
        write!(f, "{past}{}{}{end}", side(right), on_line(part, inside))
    }

    /// Alternatives below one another. Without any, a track that ends.
    fn write_choice<W: fmt::Write>(&self, f: &mut Formatter<W>, parts: &[Node]) -> fmt::Result {
        let [first, others @ ..] = parts else {
            return write!(f, "<path d=\"M0 0h10M10 -10v20\"/>");
        };
        let inner = self.widest(parts);
        let end = inner.saturating_add(SIDE);
        write!(f, "{}{}", side(0), side(end))?;
        self.write_alternative(f, *first, end, 0)?;
        let mut before = self.size(*first);
        let mut down: usize = 0;
        for part in others {
            let size = self.size(*part);
            down = down.saturating_add(step_down(before, size));
            let branch = Branch {
                width: end.saturating_add(SIDE),
                down,
            };
            write!(f, "{branch}")?;
            self.write_alternative(f, *part, end, down)?;
            before = size;
        }
        Ok(())
    }

    /// The width of the widest of some parts.
    fn widest(&self, parts: &[Node]) -> usize {
        let mut width = 0;
        for part in parts {
            width = width.max(self.size(*part).width);
        }
        width
    }

    /// An alternative so far below the line, and the track from its end to where all end.
    fn write_alternative<W: fmt::Write>(
        &self,
        f: &mut Formatter<W>,
        part: Node,
        end: usize,
        down: usize,
    ) -> fmt::Result {
        let part_end = self.size(part).width.saturating_add(SIDE);
        let rest = Straight {
            from: part_end,
            to: end,
            height: down,
        };
        let alternative = Placed {
            part,
            right: SIDE,
            down,
        };
        write!(f, "{alternative}{rest}")
    }

    /// A part with a track back, and one past it where it may be absent.
    fn write_repeated<W: fmt::Write>(
        &self,
        f: &mut Formatter<W>,
        part: Node,
        at_least: usize,
        at_most: Option<usize>,
    ) -> fmt::Result {
        let size = self.size(part);
        let mut down = size.down;
        write!(f, "{}{}", side(0), on_line(part, SIDE))?;
        write!(f, "{}", side(size.width.saturating_add(SIDE)))?;
        if at_least == 0 {
            let past = Past {
                from: 0,
                width: size.width.saturating_add(2 * SIDE),
                up: size.up,
            };
            write!(f, "{past}")?;
        }
        if goes_round(at_most) {
            let back = Back {
                from: SIDE,
                width: size.width,
                down: size.down.saturating_add(GAP),
                gap: 0,
            };
            write!(f, "{back}")?;
            down = down.saturating_add(2 * GAP);
        }
        let bounds = Bounds {
            at_least,
            at_most,
            from: SIDE,
            down: down.saturating_add(SIDE),
        };
        write!(f, "{bounds}")
    }

    /// A list with separators.
    fn write_list<W: fmt::Write>(
        &self,
        f: &mut Formatter<W>,
        item: Node,
        separator: Node,
        config: SepCfg,
    ) -> fmt::Result {
        let mut right = 0;
        let optional = optional_size(self.size(separator)).width;
        if config.allow_leading {
            self.write_optional(f, separator, 0)?;
            right = optional;
        }
        if config.at_least == 0 {
            let size = trailed_size(self.size(item), self.size(separator), config);
            let past = Past {
                from: right,
                width: size.width,
                up: size.up,
            };
            write!(f, "{past}")?;
        }
        self.write_items(f, item, separator, config, right)?;
        if config.allow_trailing {
            let items = items_size(self.size(item), self.size(separator), config);
            self.write_optional(f, separator, right.saturating_add(items.width))?;
        }
        Ok(())
    }

    /// Items with a separator on the track back, so far to the right.
    fn write_items<W: fmt::Write>(
        &self,
        f: &mut Formatter<W>,
        item: Node,
        separator: Node,
        config: SepCfg,
        right: usize,
    ) -> fmt::Result {
        let (size, between) = (self.size(item), self.size(separator));
        let all = items_size(size, between, config);
        let inside = right.saturating_add(SIDE);
        let end = right.saturating_add(all.width).saturating_sub(SIDE);
        let rest = Straight {
            from: inside.saturating_add(size.width),
            to: end,
            height: 0,
        };
        write!(
            f,
            "{}{}{rest}{}",
            side(right),
            on_line(item, inside),
            side(end)
        )?;
        if goes_round(config.at_most) {
            let down = step_down(size, between);
            let back = Back {
                from: inside,
                width: end.saturating_sub(inside),
                down,
                gap: between.width,
            };
            let separator = Placed {
                part: separator,
                right: inside,
                down,
            };
            write!(f, "{back}{separator}")?;
        }
        let bounds = Bounds {
            at_least: config.at_least,
            at_most: config.at_most,
            from: inside,
            down: all.down,
        };
        write!(f, "{bounds}")
    }
}

/// How high a row is.
fn row_height(size: Size) -> usize {
    let height = size.up.saturating_add(size.down);
    height.saturating_add(ABOVE + BELOW)
}
