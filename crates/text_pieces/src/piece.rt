//! A piece of a text, which knows what it adds to a place.
ghost use Rattle.std.specs.Prelude.{◌≡◌, false, true, IfOk, IfSome, IsUtf8};
ghost use Rattle.std.specs.Str.{chars};
ghost use Rattle.position_codec.specs.Spots.{spot_at, spot_behind};
ghost use Rattle.text_pieces.specs.Pieces.{text_of};
ghost use Rattle.text_pieces.specs.Sums.{sums_of};

use crate::sums::Sums;
use message_body::Memory;
use position_codec::{Encoding, Spot};
use std::alloc::Global;
use std::marker::Model;
use std::sync::Arc;

/// A piece of a text, which contracts see as its bytes. Texts share their pieces.
#[derive(Drop)]
pub struct Piece {
    text: Arc<String, Global>,
    /// By what the spots count.
    encoding: Encoding,
    /// Where the piece leads from the first spot of a text.
    fresh: Spot,
    /// Where it leads from there behind a `\r`, to which a `\n` at its head belongs.
    returned: Spot,
    sums: Sums,
}

impl Model for Piece {
    ghost use Rattle.std.specs.Prelude.{ℕ, List};
    ghost use Rattle.std.specs.Arc.{arc_value};
    ghost use Rattle.text_pieces.specs.Counts.{IsMeasured};

    ghost Value = { List ℕ };

    ghost view = { λ p. (arc_value p.text).bytes.items };

    ghost invariant = { λ p. IsMeasured p.encoding (arc_value p.text).bytes.items p.fresh p.returned p.sums };
}

// Where a text leads from behind a `\r`, where it leads from the first spot to this one: to the same, if it doesn't begin with a `\n`.
fn behind_return(encoding: Encoding, text: &str, fresh: Spot) -> Option<Spot>
    ensures { fresh ≡ spot_behind encoding (spot_at 0 0 false) (chars text.now) → IfSome result (λ s. s ≡ spot_behind encoding (spot_at 0 0 true) (chars text.now)) }
{
    if let Some((byte, _)) = text.as_bytes().split_first() {
        if *byte != b'\n' {
            return Some(fresh);
        }
    }
    let returned = Spot {
        line: 0,
        column: 0,
        returned: true,
    };
    returned.behind(encoding, text)
}

impl Piece {
    /// A piece of this text, counted by the encoding. The time is linear in the text.
    pub fn new(alloc: Global, encoding: Encoding, text: &str) -> Result<Piece, Memory>
        ensures { IfOk result (λ piece. piece ≡ text.now) }
    {
        let Some(fresh) = Spot::first().behind(encoding, text) else {
            return Err(Memory)
        };
        let Some(returned) = behind_return(encoding, text, fresh) else {
            return Err(Memory)
        };
        let Some(sums) = Sums::of(text.as_bytes()) else {
            return Err(Memory)
        };
        let text = Arc::new(alloc, String::from_str(alloc, text)?)?;
        Ok(Piece {
            text,
            encoding,
            fresh,
            returned,
            sums,
        })
    }

    /// The piece's text.
    pub fn as_str(&self) -> &str
        ensures text { result.now ≡ self.now }
        ensures utf8 { IsUtf8 self.now }
    {
        self.text.as_str()
    }

    /// The sums of the piece's bytes.
    pub fn sums(&self) -> Sums
        ensures { result ≡ sums_of self.now }
    {
        self.sums
    }

    /// The same piece, without a copy of its text.
    pub fn share(&self) -> Result<Piece, Memory>
        ensures { IfOk result (λ piece. piece ≡ self.now) }
    {
        Ok(Piece {
            text: Arc::try_clone(&self.text)?,
            encoding: self.encoding,
            fresh: self.fresh,
            returned: self.returned,
            sums: self.sums,
        })
    }

    /// The same piece, counted by the encoding.
    pub fn counted(&self, alloc: Global, encoding: Encoding) -> Result<Piece, Memory>
        ensures { IfOk result (λ piece. piece ≡ self.now) }
    {
        if self.encoding == encoding {
            self.share()
        } else {
            Piece::new(alloc, encoding, self.as_str())
        }
    }

    /// The spot behind the piece, where this one is in front of it. It takes constant time by the encoding that the piece counts by.
    pub fn pass(&self, encoding: Encoding, spot: Spot) -> Option<Spot>
        ensures some { IfSome result (λ next. next ≡ spot_behind encoding spot (chars self.now)) }
        ensures utf8 { IsUtf8 self.now }
    {
        let text = self.text.as_str();
        if self.encoding != encoding {
            return spot.behind(encoding, text);
        }
        if spot.returned {
            spot.after(self.returned)
        } else {
            spot.after(self.fresh)
        }
    }
}

/// How many bytes the pieces have together, which are a text; the greatest number where there are more.
pub fn length(pieces: &[Piece]) -> usize
    ensures { IsUtf8 (text_of pieces.now) }
{
    let mut length: usize = 0;
    for piece in pieces {
        length = length.saturating_add(piece.as_str().len());
    }
    length
}
