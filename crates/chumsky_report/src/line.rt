//! Lines and columns of a text.
ghost use Rattle.std.specs.Prelude.{◌≡◌, ◌+◌, ◌^◌, ◌<◌, ◌≤◌, length};
ghost use Rattle.std.specs.Str.{IsCharBoundary};
ghost use Rattle.chumsky_report.specs.Line.{characters, line_number, column_number, text_end, is_hidden};
ghost use Rattle.chumsky_report.specs.Place.{IsPlace, place_after};

/// Where an offset of a text stands. Both numbers count from one.
#[derive(Clone, Copy, PartialEq, Eq)]
pub struct Place {
    /// One more than the number of line ends before the offset. A line ends with `\n`.
    pub line: usize,
    /// One more than the number of characters after the last line end before the offset.
    pub column: usize,
}

/// The place of a byte offset: of `place_of("ab\nc", 4)` the line is 2 and the column 2. An offset past the end stands for
/// the end.
pub fn place_of(text: &str, offset: usize) -> Place
    ensures line { result.line ≡ line_number text.now offset }
    ensures column { result.column ≡ column_number text.now offset }
{
    let start = Place { line: 1, column: 1 };
    place_from(text, start, 0, offset)
}

/// The place of an offset, from that of an offset before it.
pub fn place_from(text: &str, place: Place, from: usize, offset: usize) -> Place
    requires before { from ≤ offset }
    requires within { from ≤ length text.now }
    requires place { IsPlace text.now from place }
    ensures { IsPlace text.now offset result }
{
    let bytes = text.as_bytes();
    let mut place = place;
    for index in from..offset.min(bytes.len()) {
        place = place_after(place, bytes[index]);
    }
    place
}

/// The place after a byte that stands at a place.
fn place_after(place: Place, byte: u8) -> Place
    requires line { place.line < 2 ^ 63 + 1 }
    requires column { place.column < 2 ^ 63 + 1 }
    ensures { result ≡ place_after place byte }
{
    match byte {
        b'\n' => Place {
            line: place.line + 1,
            column: 1,
        },
        0x80..=0xBF => place,
        _ => Place {
            line: place.line,
            column: place.column + 1,
        },
    }
}

/// How many characters begin in the bytes.
pub fn characters(bytes: &[u8]) -> usize
    ensures value { result ≡ characters bytes.now }
    ensures bound { result ≤ length bytes.now }
{
    let mut count: usize = 0;
    for byte in bytes {
        if *byte < 0x80 || *byte >= 0xC0 {
            count += 1;
        }
    }
    count
}

/// Where a text ends, but for the line feeds and carriage returns at its end.
pub fn text_end(text: &str) -> usize
    ensures value { result ≡ text_end text.now }
    ensures boundary { IsCharBoundary text.now result }
{
    let bytes = text.as_bytes();
    let mut end = bytes.len();
    while end > 0 && matches!(bytes[end - 1], b'\n' | b'\r') {
        end -= 1;
    }
    end
}

/// Whether a character shows nothing, or turns the direction in which others show: it has width zero, separates lines or
/// paragraphs, sets a direction, or is the byte order mark.
pub(crate) fn is_hidden(character: char) -> bool
    ensures { result ≡ is_hidden character }
{
    match character {
        '\u{200b}'..='\u{200f}' => true,
        '\u{2028}'..='\u{202e}' => true,
        '\u{2060}'..='\u{206f}' => true,
        '\u{61c}' | '\u{feff}' => true,
        _ => false,
    }
}
