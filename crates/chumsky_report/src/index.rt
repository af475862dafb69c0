//! An index of a text's lines.
ghost use Rattle.std.specs.Prelude.{◌≡◌, ℕ, List, IfOk};
ghost use Rattle.std.specs.Str.{IsCharBoundary};
ghost use Rattle.chumsky_report.specs.Line.{line_number, column_number, text_end};
ghost use Rattle.chumsky_report.specs.Place.{IsPlace, ArePlaces};

use crate::line::{Place, place_from, place_of, text_end};
use std::alloc::{AllocError, Global};

/// A text that errors are reported of: a `&str`, or a `&LineIndex`.
pub trait Source: Copy {
    ghost text: { Self → List ℕ };

    /// The text itself.
    fn as_str(&self) -> &str
        ensures { result.now ≡ text self.now };

    /// The place of a byte offset. An offset past the end stands for the end.
    fn place(&self, offset: usize) -> Place
        ensures { IsPlace (text self.now) offset result };

    /// Where the text ends, but for the line feeds and carriage returns at its end.
    fn end(&self) -> usize
        ensures value { result ≡ text_end (text self.now) }
        ensures boundary { IsCharBoundary (text self.now) result };
}

impl Source for &str {
    ghost text = { λ text. text.now };

    fn as_str(&self) -> &str {
        *self
    }

    fn place(&self, offset: usize) -> Place {
        place_of(*self, offset)
    }

    fn end(&self) -> usize {
        text_end(*self)
    }
}

/// Of how many bytes one is indexed.
const STEP: usize = 1024;

/// A text with the places of some of its bytes, for many errors: a [`Report`](crate::report::Report) over it finds its lines
/// and columns without a look at all that stands before.
#[derive(Drop)]
pub struct LineIndex<'a> {
    text: &'a str,
    end: usize,
    places: Vec<Place>,
    ghost ends: { end ≡ text_end text.now },
    ghost cut: { IsCharBoundary text.now end },
    ghost indexed: { ArePlaces text.now places.items },
}

impl<'a> LineIndex<'a> {
    /// The index of a text, which takes three words for each 1,024 bytes.
    pub fn new(alloc: Global, text: &'a str) -> Result<LineIndex<'a>, AllocError>
        ensures { IfOk result (λ index. index.text.now ≡ text.now) }
    {
        let places = places(alloc, text)?;
        Ok(LineIndex {
            text,
            end: text_end(text),
            places,
        })
    }
}

/// The place of every 1,024th byte.
fn places(alloc: Global, text: &str) -> Result<Vec<Place>, AllocError>
    ensures { IfOk result (λ places. ArePlaces text.now places.items) }
{
    let mut places = Vec::new(alloc);
    let mut place = Place { line: 1, column: 1 };
    let mut at = 0;
    while text.len() - at >= STEP {
        places.push(place)?;
        place = place_from(text, place, at, at + STEP);
        at += STEP;
    }
    places.push(place)?;
    Ok(places)
}

impl Source for &LineIndex<'_> {
    ghost text = { λ index. index.now.text.now };

    fn as_str(&self) -> &str {
        self.text
    }

    fn place(&self, offset: usize) -> Place {
        let offset = offset.min(self.text.len());
        let step = offset / STEP;
        match self.places.get(step) {
            Some(place) => place_from(self.text, *place, step * STEP, offset),
            None => place_of(self.text, offset),
        }
    }

    fn end(&self) -> usize {
        self.end
    }
}
