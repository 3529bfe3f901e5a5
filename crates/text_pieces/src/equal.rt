//! Whether two lists of pieces have the same text.
ghost use Rattle.std.specs.Prelude.{◌≡◌, [], true, false, bytes_eq, IfSome};
ghost use Rattle.text_pieces.specs.Rests.{rest_text};
ghost use Rattle.text_pieces.specs.Pieces.{text_of};
ghost use Rattle.text_pieces.specs.Sums.{sums_of};

use crate::piece::Piece;
use crate::sums::Sums;

/// What is left of a text in pieces, of which some is passed.
#[derive(Clone, Copy)]
struct Rest<'a> {
    /// What is left of the piece that is read.
    piece: &'a [u8],
    behind: &'a [Piece],
}

impl<'a> Rest<'a> {
    // Goes on to the next piece that isn't empty, where this one is at its end.
    fn fill(&mut self)
        ensures text { rest_text self.new ≡ rest_text self.old }
        ensures filled { self.new.piece.now ≡ [] → rest_text self.new ≡ [] }
    {
        while self.piece.is_empty() {
            let Some((next, behind)) = self.behind.split_first() else {
                return;
            };
            self.piece = next.as_str().as_bytes();
            self.behind = behind;
        }
    }
}

// The sums of a text in pieces; none where they are too great.
fn sums(pieces: &[Piece]) -> Option<Sums>
    ensures { IfSome result (λ sums. sums ≡ sums_of (text_of pieces.now)) }
{
    let mut sums = Sums::none();
    for piece in pieces {
        sums = sums.before(piece.sums())?;
    }
    Some(sums)
}

// Whether the sums tell the two apart.
fn differ(left: &[Piece], right: &[Piece]) -> bool
    ensures { result ≡ true → bytes_eq (text_of left.now) (text_of right.now) ≡ false }
{
    let (Some(left), Some(right)) = (sums(left), sums(right)) else {
        return false
    };
    left.length != right.length || left.total != right.total || left.weighted != right.weighted
}

// Whether the two have the same bytes, by a look at them.
fn same(left: &[Piece], right: &[Piece]) -> bool
    ensures { result ≡ bytes_eq (text_of left.now) (text_of right.now) }
{
    let mut left = Rest {
        piece: b"".as_slice(),
        behind: left,
    };
    let mut right = Rest {
        piece: b"".as_slice(),
        behind: right,
    };
    loop {
        left.fill();
        right.fill();
        let count = left.piece.len().min(right.piece.len());
        if count == 0 {
            return left.piece.is_empty() && right.piece.is_empty();
        }
        let (left_front, left_rest) = left.piece.split_at(count);
        let (right_front, right_rest) = right.piece.split_at(count);
        if left_front != right_front {
            return false;
        }
        left.piece = left_rest;
        right.piece = right_rest;
    }
}

/// Whether the two have the same bytes. It takes no memory. The time is linear in the number of the pieces, and in the bytes where the
/// two have the same sums, as texts seldom do that differ by a small change.
pub fn equal(left: &[Piece], right: &[Piece]) -> bool
    ensures { result ≡ bytes_eq (text_of left.now) (text_of right.now) }
{
    !differ(left, right) && same(left, right)
}
