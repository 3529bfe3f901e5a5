//! How long the pieces of a text are.

/// In a short text no new piece is longer.
const SHORT_MOST: usize = 4096;

/// In a long text no new piece is longer than so many times the root of the text's length.
const ROOTS: usize = 4;

/// The least length of a new piece is this part of the greatest.
const LEAST_PART: usize = 4;

/// How long new pieces are in a text of some length.
///
/// In a text of n bytes a new piece has at least √n and at most 4 √n bytes, and more in a short text. So a text of n bytes has some √n
/// pieces, whatever changes led to it. Those made while it had more bytes are not shorter than √n, so there are at most √n of them.
/// Those made while it had m / 4 to m bytes have about m bytes together, and each at least half of √m, so there are at most about 2 √m
/// of them; and the sum of √m over m = n, n / 4, n / 16 and so on is 2 √n. A text that has shrunk may have longer pieces than a new one.
/// A change cuts those that it touches.
#[derive(Clone, Copy)]
pub struct Limits {
    /// No new piece is longer.
    pub most: usize,
    /// What is longer is cut behind so many bytes, or up to three fewer.
    pub usual: usize,
    /// What is shorter is joined with a piece beside it.
    pub least: usize,
}

impl Limits {
    /// The limits in a text of so many bytes.
    pub fn of(length: usize) -> Limits {
        let most = SHORT_MOST.max(ROOTS * length.isqrt());
        let least = most / LEAST_PART;
        Limits {
            most,
            usual: most - least,
            least,
        }
    }
}
