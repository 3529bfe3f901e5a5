//! How far a text was read, by its lines and units.
ghost use Rattle.std.specs.Prelude.{◌≡◌, ◌⊎◌, ◌≤◌, ◌<◌, ◌+◌, ◌*◌, ◌^◌, length, true, false, IfSome, IfNone};
ghost use Rattle.std.specs.Str.{chars};
ghost use Rattle.position_codec.specs.Spots.{Advances, ahead, spot_first, spot_past, spot_behind, spot_after};

use crate::{Encoding, ends_line, units};

/// A place between two characters of a text, as one who reads it from the front knows it.
#[derive(Clone, Copy, Debug, PartialEq, Eq)]
pub struct Spot {
    /// The lines that end before it.
    pub line: u64,
    /// The units before it, in its line.
    pub column: u64,
    /// Does the character before it end a line by `\r`?
    pub returned: bool,
}

/// How far one came in a text.
#[derive(Clone, Copy, Debug)]
pub struct Advance {
    /// The bytes that were passed.
    pub offset: usize,
    /// The spot behind them.
    pub spot: Spot,
    /// Is the place that was sought before the end of the next character?
    pub stopped: bool,
}

// An advance ends behind so many bytes.
const MOST: usize = 512;

impl Spot {
    /// The one in front of a text.
    pub fn first() -> Spot
        ensures { result ≡ spot_first }
    {
        Spot {
            line: 0,
            column: 0,
            returned: false,
        }
    }

    /// Is the place at this line and character not before the spot?
    pub fn is_before(self, line: u32, character: u32) -> bool
        ensures { result ≡ ahead self line character }
    {
        let line = u64::from(line);
        self.line < line || (self.line == line && self.column <= u64::from(character))
    }

    // The spot behind one character more; none where a count has no room.
    fn past(self, encoding: Encoding, c: char) -> Option<Spot>
        ensures some { IfSome result (λ s. s ≡ spot_past encoding self c) }
        ensures few { IfSome result (λ s. s.line + s.column ≤ self.line + self.column + 4) }
        ensures none { IfNone result (2 ^ 64 ≤ self.line + self.column + 4) }
    {
        if self.returned && c == '\n' {
            return Some(Spot {
                line: self.line,
                column: self.column,
                returned: false,
            });
        }
        if ends_line(c) {
            let line = self.line.checked_add(1)?;
            return Some(Spot {
                line,
                column: 0,
                returned: c == '\r',
            });
        }
        let column = self.column.checked_add(u64::from(units(encoding, c)))?;
        Some(Spot {
            line: self.line,
            column,
            returned: false,
        })
    }

    /// Goes on from here in the text that follows, up to the place at this line and character, which isn't before the spot.
    ///
    /// It stops there, at the end of the text, or behind some hundred bytes. None where a count has no room.
    pub fn advance(
        self,
        encoding: Encoding,
        line: u32,
        character: u32,
        text: &str,
    ) -> Option<Advance>
        requires { ahead self line character ≡ true }
        ensures some { IfSome result (λ a. Advances encoding self line character text.now a) }
        ensures none { IfNone result (2 ^ 64 ≤ self.line + self.column + 4 * length text.now + 4) }
    {
        self.advance_within(encoding, line, character, text, MOST)
    }

    /// Goes on from here as `advance` does, but stops only at the place or at the end of the text.
    pub fn advance_to(
        self,
        encoding: Encoding,
        line: u32,
        character: u32,
        text: &str,
    ) -> Option<Advance>
        requires { ahead self line character ≡ true }
        ensures some { IfSome result (λ a. Advances encoding self line character text.now a) }
        ensures whole { IfSome result (λ a. a.stopped ≡ false → a.offset ≡ length text.now) }
        ensures none { IfNone result (2 ^ 64 ≤ self.line + self.column + 4 * length text.now + 4) }
    {
        self.advance_within(encoding, line, character, text, usize::MAX)
    }

    // Goes on from here, and stops at the place, at the end of the text, or behind the most bytes.
    fn advance_within(
        self,
        encoding: Encoding,
        line: u32,
        character: u32,
        text: &str,
        most: usize,
    ) -> Option<Advance>
        requires ahead { ahead self line character ≡ true }
        requires most { 0 < most }
        ensures some { IfSome result (λ a. Advances encoding self line character text.now a) }
        ensures whole { IfSome result (λ a. a.stopped ≡ false → (a.offset ≡ length text.now) ⊎ (most ≤ a.offset)) }
        ensures none { IfNone result (2 ^ 64 ≤ self.line + self.column + 4 * length text.now + 4) }
    {
        // The length of the text bounds the offset.
        let _size = text.len();
        let mut spot = self;
        let mut offset = 0;
        for c in text.chars() {
            if offset >= most {
                return Some(Advance {
                    offset,
                    spot,
                    stopped: false,
                });
            }
            let next = spot.past(encoding, c)?;
            if !next.is_before(line, character) {
                return Some(Advance {
                    offset,
                    spot,
                    stopped: true,
                });
            }
            offset += c.len_utf8();
            spot = next;
        }
        Some(Advance {
            offset,
            spot,
            stopped: false,
        })
    }

    /// The spot behind a text that is read from here on. None where a count has no room.
    pub fn behind(self, encoding: Encoding, text: &str) -> Option<Spot>
        ensures some { IfSome result (λ s. s ≡ spot_behind encoding self (chars text.now)) }
    {
        let mut spot = self;
        for c in text.chars() {
            spot = spot.past(encoding, c)?;
        }
        Some(spot)
    }

    /// The spot where one comes from here by a text that leads to the other spot from a first one, which returned where this one did.
    /// None where a count has no room.
    pub fn after(self, other: Spot) -> Option<Spot>
        ensures some { IfSome result (λ s. s ≡ spot_after self other) }
        ensures none { IfNone result (2 ^ 64 ≤ self.line + other.line + self.column + other.column) }
    {
        let line = self.line.checked_add(other.line)?;
        let column = if other.line == 0 {
            self.column.checked_add(other.column)?
        } else {
            other.column
        };
        Some(Spot {
            line,
            column,
            returned: other.returned,
        })
    }
}
