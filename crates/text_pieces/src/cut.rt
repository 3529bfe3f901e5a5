//! Where a place is in a list of pieces.
ghost use Rattle.std.specs.Prelude.{◌≡◌, true, IfOk};
ghost use Rattle.doc_text.specs.Changes.{offset_in, place_in};
ghost use Rattle.doc_text.specs.declared.change.Extent.TheVariants.{Part};
ghost use Rattle.text_pieces.specs.Pieces.{text_of, cut_at, cut_before, IsCut};

use crate::piece::Piece;
use doc_text::{Position, Range};
use message_body::Memory;
use position_codec::{Encoding, Spot};

/// A place in a list of pieces: behind so many bytes of the piece of this index, or at the end, where there is no such piece.
#[derive(Clone, Copy, Debug)]
pub struct Cut {
    pub index: usize,
    pub offset: usize,
}

impl Cut {
    fn is_before(self, other: Cut) -> bool
        ensures { result ≡ cut_before self other }
    {
        self.index < other.index || (self.index == other.index && self.offset < other.offset)
    }
}

/// Where the place is. It takes time linear in the number of pieces, and in the length of one.
pub fn find(pieces: &[Piece], encoding: Encoding, place: Position) -> Result<Cut, Memory>
    ensures at { IfOk result (λ cut. cut_at pieces.now cut ≡ offset_in encoding place (text_of pieces.now)) }
    ensures is { IfOk result (λ cut. IsCut pieces.now cut) }
{
    let mut spot = Spot::first();
    for index in 0..pieces.len() {
        let piece = &pieces[index];
        let Some(next) = piece.pass(encoding, spot) else {
            return Err(Memory)
        };
        if !next.is_before(place.line, place.character) {
            let text = piece.as_str();
            let advance = spot.advance_to(encoding, place.line, place.character, text);
            let Some(advance) = advance else {
                return Err(Memory)
            };
            return Ok(Cut {
                index,
                offset: advance.offset,
            });
        }
        spot = next;
    }
    Ok(Cut {
        index: pieces.len(),
        offset: 0,
    })
}

// Whether two places are one.
fn is_one(place: Position, other: Position) -> bool
    ensures { result ≡ true → place ≡ other }
{
    place.line == other.line && place.character == other.character
}

/// Where the range starts and ends. An end before the start stands for the start.
pub fn find_range(pieces: &[Piece], encoding: Encoding, range: Range) -> Result<(Cut, Cut), Memory>
    ensures start { IfOk result (λ cuts. cut_at pieces.now cuts.0 ≡ (place_in encoding (Part range) (text_of pieces.now)).0) }
    ensures end { IfOk result (λ cuts. cut_at pieces.now cuts.1 ≡ (place_in encoding (Part range) (text_of pieces.now)).1) }
    ensures start_is { IfOk result (λ cuts. IsCut pieces.now cuts.0) }
    ensures end_is { IfOk result (λ cuts. IsCut pieces.now cuts.1) }
{
    let start = find(pieces, encoding, range.start)?;
    if is_one(range.start, range.end) {
        return Ok((start, start));
    }
    let end = find(pieces, encoding, range.end)?;
    if end.is_before(start) {
        Ok((start, start))
    } else {
        Ok((start, end))
    }
}
