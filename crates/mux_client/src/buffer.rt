// What a copy reads into.
ghost use Rattle.std.specs.Prelude.{◌≤◌, vec_len};
ghost use Rattle.mux_client.specs.Pieces.{CamePiece};

use crate::pieces::{Piece, read_piece};
use outside_io::Source;
use std::alloc::{AllocError, Global};

// The most bytes of one read.
const PIECE: usize = 65_536;

/// What a copy reads into, 4,096 bytes at least.
#[derive(Drop)]
pub struct Buffer {
    pub bytes: Vec<u8>,
    ghost room: { 4096 ≤ vec_len bytes },
}

impl Buffer {
    /// A buffer of 65,536 bytes.
    pub fn new(alloc: Global) -> Result<Buffer, AllocError> {
        Ok(Buffer {
            bytes: vec![in alloc; 0u8; PIECE]?,
        })
    }

    /// Reads what comes next to the front of the buffer.
    pub fn read<S: Source>(&mut self, source: &mut S) -> Piece
        ensures came { CamePiece (S.taken source.old) (S.taken source.new) (S.left source.old) (S.left source.new) (S.faults source.old)
            (S.faults source.new) self.new.bytes.items result }
        ensures later { S.faults source.old ≤ S.faults source.new }
    {
        read_piece(source, self.bytes.as_mut_slice())
    }
}
