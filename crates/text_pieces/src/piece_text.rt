//! A text that is kept in pieces.
ghost use Rattle.std.specs.Prelude.{◌≡◌, ◌++◌, IfOk, IsUtf8};
ghost use Rattle.doc_text.specs.Changes.{changed_all};
ghost use Rattle.text_pieces.specs.Pieces.{text_of};

use crate::builder::add_pieces;
use crate::change::{change_all, share};
use crate::equal::equal;
use crate::limits::Limits;
use crate::order::go_one_way;
use crate::piece::{Piece, length};
use doc_text::json_span::Tape;
use doc_text::{ChangeFault, ContentChange, DocText, Text, changes};
use message_body::{Body, Memory};
use position_codec::Encoding;
use std::alloc::Global;
use std::marker::Model;

// From so many changes on, a walk through a text of usual length costs less than each by itself.
const MANY: usize = 128;

/// The text of a document, kept in pieces that are longer in a longer text.
///
/// A small change in a text of n bytes takes some √n short steps, and reads and writes a few pieces of some √n bytes, or of 4,096 in a
/// short text; `Limits` says why that stays so. A text and its copies share the pieces that they have in common. Positions may count by
/// another encoding from one call to the next; a change of it reads the text once.
#[derive(Drop)]
pub struct PieceText {
    pieces: Vec<Piece>,
}

impl Model for PieceText {
    ghost use Rattle.std.specs.Prelude.{ℕ, List};
    ghost use Rattle.text_pieces.specs.Pieces.{text_of};

    ghost Value = { List ℕ };

    ghost view = { λ t. text_of t.pieces.items };
}

// The whole text of pieces.
fn whole(alloc: Global, pieces: &[Piece]) -> Result<Vec<u8>, Memory>
    ensures ok { IfOk result (λ bytes. bytes.items ≡ text_of pieces.now) }
    ensures utf8 { IsUtf8 (text_of pieces.now) }
{
    let mut bytes = Vec::with_capacity(alloc, length(pieces))?;
    for piece in pieces {
        bytes.extend_from_slice(piece.as_str().as_bytes())?;
    }
    Ok(bytes)
}

// The pieces of a whole text behind changes, by a walk through the text.
fn change_whole(
    alloc: Global,
    encoding: Encoding,
    pieces: &[Piece],
    changes: &[ContentChange],
) -> Result<Vec<Piece>, Memory>
    ensures { IfOk result (λ after. text_of after.items ≡ changed_all encoding changes.now (text_of pieces.now)) }
{
    let bytes = whole(alloc, pieces)?;
    let text = DocText::new(alloc, bytes.as_slice())?;
    let after = text.behind(alloc, encoding, changes)?;
    let mut made = Vec::new(alloc);
    let limits = Limits::of(after.as_str().len());
    add_pieces(alloc, encoding, limits, after.as_str(), &mut made)?;
    Ok(made)
}

impl PieceText {
    // The pieces behind changes: many that go one way are made in one walk through the text, and others one by one.
    fn behind(
        &self,
        alloc: Global,
        encoding: Encoding,
        changes: &[ContentChange],
    ) -> Result<Vec<Piece>, Memory>
        ensures { IfOk result (λ after. text_of after.items ≡ changed_all encoding changes.now self.now) }
    {
        if changes.len() >= MANY && go_one_way(changes) {
            change_whole(alloc, encoding, self.pieces.as_slice(), changes)
        } else {
            change_all(alloc, encoding, self.pieces.as_slice(), changes)
        }
    }
}

impl Text for PieceText {
    ghost bytes = { λ t. t };

    fn new(alloc: Global, text: &[u8]) -> Result<Self, Memory> {
        let text = std::str::from_utf8(text).unwrap();
        let mut pieces = Vec::new(alloc);
        let limits = Limits::of(text.len());
        add_pieces(alloc, Encoding::Utf16, limits, text, &mut pieces)?;
        Ok(PieceText { pieces })
    }

    fn whole(&self, alloc: Global) -> Result<Body, Memory> {
        Ok(Body::new(whole(alloc, self.pieces.as_slice())?))
    }

    fn equals(&self, other: &Self) -> bool {
        equal(self.pieces.as_slice(), other.pieces.as_slice())
    }

    fn apply(
        &mut self,
        alloc: Global,
        encoding: Encoding,
        tape: &Tape,
        changes: u32,
    ) -> Result<(), ChangeFault> {
        let text = self.changed(alloc, encoding, tape, changes)?;
        *self = text;
        Ok(())
    }

    fn changed(
        &self,
        alloc: Global,
        encoding: Encoding,
        tape: &Tape,
        changes: u32,
    ) -> Result<Self, ChangeFault> {
        let changes = doc_text::changes(alloc, tape, changes)?;
        let pieces = self.behind(alloc, encoding, changes.as_slice())?;
        Ok(PieceText { pieces })
    }

    fn copy(&self, alloc: Global) -> Result<Self, Memory> {
        Ok(PieceText {
            pieces: share(alloc, self.pieces.as_slice())?,
        })
    }
}
