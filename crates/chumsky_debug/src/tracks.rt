//! Tracks, and what is drawn on them, as elements of SVG.
use crate::names::{Name, Times};
use crate::size::{GAP, HALF_BOX, SIDE, Size, box_width, has_bounds};
use std::fmt;
use std::fmt::{Display, Formatter};

/// A track at a height, from one place to another.
#[derive(Clone, Copy)]
pub(crate) struct Straight {
    pub(crate) from: usize,
    pub(crate) to: usize,
    pub(crate) height: usize,
}

impl Display for Straight {
    fn fmt<W: fmt::Write>(&self, f: &mut Formatter<W>) -> fmt::Result {
        write!(
            f,
            "<path d=\"M{} {}H{}\"/>",
            self.from, self.height, self.to
        )
    }
}

/// A track at the side of a part, as wide as two bends.
pub(crate) fn side(from: usize) -> Straight {
    Straight {
        from,
        to: from.saturating_add(SIDE),
        height: 0,
    }
}

/// A track past what lies so far above the line.
#[derive(Clone, Copy)]
pub(crate) struct Past {
    pub(crate) from: usize,
    pub(crate) width: usize,
    pub(crate) up: usize,
}

impl Display for Past {
    fn fmt<W: fmt::Write>(&self, f: &mut Formatter<W>) -> fmt::Result {
        let straight = self.width.saturating_sub(2 * SIDE);
        write!(
            f,
            "<path d=\"M{} 0q10 0 10 -10v-{}q0 -10 10 -10",
            self.from, self.up
        )?;
        write!(f, "h{straight}q10 0 10 10v{}q0 10 10 10\"/>", self.up)
    }
}

/// Tracks from the line to so far below it, and back to it at the other end.
#[derive(Clone, Copy)]
pub(crate) struct Branch {
    pub(crate) width: usize,
    pub(crate) down: usize,
}

impl Display for Branch {
    fn fmt<W: fmt::Write>(&self, f: &mut Formatter<W>) -> fmt::Result {
        let end = self.width.saturating_sub(SIDE);
        let straight = self.down.saturating_sub(2 * GAP);
        write!(f, "<path d=\"M0 0q10 0 10 10v{straight}q0 10 10 10")?;
        write!(
            f,
            "M{end} {}q10 0 10 -10v-{straight}q0 -10 10 -10\"/>",
            self.down
        )
    }
}

/// Tracks from the end of what is so wide to so far below it, to the left, and back to its beginning, where a gap is left for something
/// on the way.
#[derive(Clone, Copy)]
pub(crate) struct Back {
    pub(crate) from: usize,
    pub(crate) width: usize,
    pub(crate) down: usize,
    pub(crate) gap: usize,
}

impl Display for Back {
    fn fmt<W: fmt::Write>(&self, f: &mut Formatter<W>) -> fmt::Result {
        let end = self.from.saturating_add(self.width);
        let straight = self.down.saturating_sub(2 * GAP);
        let rest = self.width.saturating_sub(self.gap);
        write!(
            f,
            "<path d=\"M{end} 0q10 0 10 10v{straight}q0 10 -10 10h-{rest}"
        )?;
        write!(
            f,
            "M{} {}q-10 0 -10 -10v-{straight}q0 -10 10 -10\"/>",
            self.from, self.down
        )
    }
}

/// The box of a name, with a track at either side: with round ends for a leaf.
#[derive(Clone, Copy)]
pub(crate) struct NameBox<'a> {
    pub(crate) name: Name<'a>,
    pub(crate) is_leaf: bool,
}

impl Display for NameBox<'_> {
    fn fmt<W: fmt::Write>(&self, f: &mut Formatter<W>) -> fmt::Result {
        let width = box_width(self.name);
        let radius = if self.is_leaf { HALF_BOX } else { 0 };
        let end = width.saturating_add(GAP);
        write!(f, "<path d=\"M0 0h10M{end} 0h10\"/>")?;
        write!(
            f,
            "<rect x=\"10\" y=\"-11\" width=\"{width}\" height=\"22\" rx=\"{radius}\"/>"
        )?;
        let middle = (width / 2).saturating_add(GAP);
        write!(f, "<text x=\"{middle}\" y=\"5\">")?;
        self.name.write_escaped(f)?;
        write!(f, "</text>")
    }
}

/// A frame around a part that begins behind a bend, with a word above it.
#[derive(Clone, Copy)]
pub(crate) struct Frame {
    pub(crate) part: Size,
    pub(crate) word: &'static str,
}

impl Display for Frame {
    fn fmt<W: fmt::Write>(&self, f: &mut Formatter<W>) -> fmt::Result {
        let Size { width, up, down } = self.part;
        let top = up.saturating_add(GAP / 2);
        let height = up.saturating_add(down).saturating_add(GAP);
        write!(f, "{}{}", side(0), side(width.saturating_add(SIDE)))?;
        write!(
            f,
            "<rect class=\"frame\" x=\"15\" y=\"-{top}\" width=\"{}\" ",
            width.saturating_add(GAP)
        )?;
        write!(f, "height=\"{height}\" rx=\"5\"/>")?;
        let above = top.saturating_add(4);
        write!(
            f,
            "<text class=\"note\" x=\"15\" y=\"-{above}\">{}</text>",
            self.word
        )
    }
}

/// The bounds of a list, where they are written: so far below the line.
#[derive(Clone, Copy)]
pub(crate) struct Bounds {
    pub(crate) at_least: usize,
    pub(crate) at_most: Option<usize>,
    pub(crate) from: usize,
    pub(crate) down: usize,
}

impl Display for Bounds {
    fn fmt<W: fmt::Write>(&self, f: &mut Formatter<W>) -> fmt::Result {
        if !has_bounds(self.at_least, self.at_most) {
            return Ok(());
        }
        let times = Times::of(self.at_least, self.at_most);
        let base = self.down.saturating_sub(5);
        write!(
            f,
            "<text class=\"note\" x=\"{}\" y=\"{base}\">{times}</text>",
            self.from
        )
    }
}
