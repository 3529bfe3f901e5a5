//! A text that is put together of pieces and of new parts.
ghost use Rattle.std.specs.Prelude.{◌≡◌, ◌++◌, [], IfOk, OnOk};
ghost use Rattle.text_pieces.specs.Pieces.{text_of, builder_text};

use crate::limits::Limits;
use crate::piece::Piece;
use message_body::Memory;
use position_codec::Encoding;
use std::alloc::Global;

/// Puts a text behind pieces, cut into further ones by the limits. The time is linear in the text.
pub fn add_pieces(
    alloc: Global,
    encoding: Encoding,
    limits: Limits,
    text: &str,
    pieces: &mut Vec<Piece>,
) -> Result<(), Memory>
    ensures { OnOk result (text_of pieces.new.items ≡ text_of pieces.old.items ++ text.now) }
{
    let mut rest = text;
    while rest.len() > limits.most {
        let at = rest.floor_char_boundary(limits.usual);
        if at == 0 {
            break;
        }
        let (piece, behind) = rest.split_at(at);
        pieces.push(Piece::new(alloc, encoding, piece)?)?;
        rest = behind;
    }
    if !rest.is_empty() {
        pieces.push(Piece::new(alloc, encoding, rest)?)?;
    }
    Ok(())
}

/// What was put together so far.
#[derive(Drop)]
pub struct Builder {
    encoding: Encoding,
    limits: Limits,
    pieces: Vec<Piece>,
    /// What isn't yet cut into pieces.
    uncut: String,
}

impl Builder {
    /// Nothing, with room for so many pieces.
    pub fn new(
        alloc: Global,
        encoding: Encoding,
        limits: Limits,
        count: usize,
    ) -> Result<Builder, Memory>
        ensures { IfOk result (λ builder. builder_text builder ≡ []) }
    {
        Ok(Builder {
            encoding,
            limits,
            pieces: Vec::with_capacity(alloc, count)?,
            uncut: String::new(alloc),
        })
    }

    /// Puts a text behind what was built.
    pub fn push_str(&mut self, text: &str) -> Result<(), Memory>
        ensures { OnOk result (builder_text self.new ≡ builder_text self.old ++ text.now) }
    {
        self.uncut.push_str(text)?;
        Ok(())
    }

    /// Puts a piece behind what was built, and shares it where what isn't yet cut is long enough to stand by itself.
    pub fn push_piece(&mut self, alloc: Global, piece: &Piece) -> Result<(), Memory>
        ensures { OnOk result (builder_text self.new ≡ builder_text self.old ++ piece.now) }
    {
        if !self.uncut.is_empty() && self.uncut.len() < self.limits.least {
            return self.push_str(piece.as_str());
        }
        self.close(alloc)?;
        self.pieces.push(piece.counted(alloc, self.encoding)?)?;
        Ok(())
    }

    // Joins what is uncut with the last piece.
    fn join_last(&mut self, alloc: Global) -> Result<(), Memory>
        ensures { OnOk result (builder_text self.new ≡ builder_text self.old) }
    {
        let Some(last) = self.pieces.pop() else {
            return Ok(())
        };
        let mut joined = String::from_str(alloc, last.as_str())?;
        joined.push_str(self.uncut.as_str())?;
        self.uncut = joined;
        Ok(())
    }

    // Cuts what is uncut into pieces.
    fn close(&mut self, alloc: Global) -> Result<(), Memory>
        ensures text { OnOk result (builder_text self.new ≡ builder_text self.old) }
        ensures closed { OnOk result (self.new.uncut.bytes.items ≡ []) }
    {
        if self.uncut.is_empty() {
            return Ok(());
        }
        if self.uncut.len() < self.limits.least {
            self.join_last(alloc)?;
        }
        let text = self.uncut.as_str();
        add_pieces(alloc, self.encoding, self.limits, text, &mut self.pieces)?;
        self.uncut.clear();
        Ok(())
    }

    /// The pieces of what was built.
    pub fn finish(mut self, alloc: Global) -> Result<Vec<Piece>, Memory>
        ensures { IfOk result (λ pieces. text_of pieces.items ≡ builder_text self) }
    {
        self.close(alloc)?;
        Ok(self.pieces)
    }
}
