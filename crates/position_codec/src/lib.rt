//! Places in a text: from the line and character of LSP 3.17 to the offset in bytes, and the offsets at which lines start.
#![tactic(auto)]

ghost use Rattle.std.specs.Prelude.{◌≡◌, ◌≤◌, IfOk};
ghost use Rattle.std.specs.Str.{chars};
ghost use Rattle.position_codec.specs.Position.{units, lines, offset_at, starts};
ghost use Rattle.position_codec.specs.Walk.{past, ends_line, starts_between};

mod spot;

use message_body::Memory;
pub use spot::{Advance, Spot};
use std::alloc::Global;

/// How the characters of a line are counted: LSP 3.17, `PositionEncodingKind`.
#[derive(Clone, Copy, Debug, PartialEq, Eq)]
pub enum Encoding {
    /// By bytes of UTF-8.
    Utf8,
    /// By code units of UTF-16.
    Utf16,
    /// By characters.
    Utf32,
}

/// The offset, in bytes, of the place at this line and character (LSP 3.17, `Position`), both counted from 0.
///
/// A character past the end of its line stands for that end, one inside a character for the beginning of that character, and a line past the last for the end of the text.
pub fn offset_of(text: &str, encoding: Encoding, line: u32, character: u32) -> usize
    ensures { result ≡ offset_at encoding line character (lines (chars text.now)) }
{
    let whole = text.len();
    let mut place = Place {
        line,
        left: character,
        returned: false,
    };
    let mut offset = 0;
    for c in text.chars() {
        match place.past(encoding, c) {
            Some(next) => place = next,
            None => return offset,
        }
        offset += c.len_utf8();
    }
    whole
}

/// The offsets, in bytes, at which the lines of the text start: one more than there are ends of lines.
pub fn line_starts(alloc: Global, text: &str) -> Result<Vec<usize>, Memory>
    ensures { IfOk result (λ found. found.items ≡ starts 0 (lines (chars text.now))) }
{
    // The length of the text bounds the offsets.
    let _size = text.len();
    let mut starts = Vec::new(alloc);
    let mut offset = 0;
    // The first line starts as one does behind the end of another.
    let mut previous = '\n';
    for c in text.chars() {
        if starts_between(previous, c) {
            starts.push(offset)?;
        }
        offset += c.len_utf8();
        previous = c;
    }
    if ends_line(previous) {
        starts.push(offset)?;
    }
    Ok(starts)
}

/// A place that is sought, as it is seen from a place before it in the text.
#[derive(Clone, Copy)]
struct Place {
    /// The lines that end before it.
    line: u32,
    /// The units before it, in its line.
    left: u32,
    /// Did the character before this place end a line by `\r`?
    returned: bool,
}

impl Place {
    /// The place as it is seen from behind the next character, if it is not before that character.
    fn past(self, encoding: Encoding, c: char) -> Option<Place>
        ensures { result ≡ past encoding self c }
    {
        if self.returned && c == '\n' {
            return Some(Place {
                line: self.line,
                left: self.left,
                returned: false,
            });
        }
        if self.line > 0 {
            let line = if ends_line(c) {
                self.line - 1
            } else {
                self.line
            };
            return Some(Place {
                line,
                left: self.left,
                returned: c == '\r',
            });
        }
        let units = units(encoding, c);
        if ends_line(c) || self.left < units {
            return None;
        }
        Some(Place {
            line: 0,
            left: self.left - units,
            returned: false,
        })
    }
}

fn units(encoding: Encoding, c: char) -> u32
    ensures units { result ≡ units encoding c }
    ensures few { result ≤ 4 }
{
    match encoding {
        Encoding::Utf8 => c.len_utf8() as u32,
        Encoding::Utf16 => if (c as u32) < 0x1_0000 { 1 } else { 2 },
        Encoding::Utf32 => 1,
    }
}

fn ends_line(c: char) -> bool
    ensures { result ≡ ends_line c }
{
    c == '\n' || c == '\r'
}

/// Does a line start between these two characters?
fn starts_between(previous: char, c: char) -> bool
    ensures { result ≡ starts_between previous c }
{
    previous == '\n' || (previous == '\r' && c != '\n')
}
