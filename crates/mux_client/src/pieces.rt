// One read and one whole write, by what became of them.
ghost use Rattle.std.specs.Prelude.{◌≡◌, ◌<◌, ◌≤◌, length};
ghost use Rattle.mux_client.specs.Pieces.{CameByte, CamePiece, Went};

use outside_io::{ReadFault, Sink, Source, write_whole};

/// What one read gave.
#[derive(Clone, Copy, Debug, PartialEq, Eq)]
pub enum Piece {
    /// So many bytes at the front of the buffer, at least one.
    Bytes(usize),
    /// The source ended.
    End,
    Failed,
}

/// Reads what comes next into a buffer that isn't empty.
#[tactic(auto, using(crate::proofs::Passing::came_none))]
pub fn read_piece<S: Source>(source: &mut S, buffer: &mut [u8]) -> Piece
    requires { 0 < length buffer.old }
    ensures came { CamePiece (S.taken source.old) (S.taken source.new) (S.left source.old) (S.left source.new) (S.faults source.old)
        (S.faults source.new) buffer.new result }
    ensures later { S.faults source.old ≤ S.faults source.new }
{
    match source.read(buffer) {
        Ok(0) => Piece::End,
        Ok(count) => Piece::Bytes(count),
        Err(ReadFault::Failed) => Piece::Failed,
    }
}

/// What a read of one byte gave.
#[derive(Clone, Copy, Debug, PartialEq, Eq)]
pub enum NextByte {
    Byte(u8),
    /// The source ended.
    End,
    Failed,
}

/// Reads the next byte.
pub fn read_byte<S: Source>(source: &mut S) -> NextByte
    ensures came { CameByte (S.taken source.old) (S.taken source.new) (S.left source.old) (S.left source.new) (S.faults source.old)
        (S.faults source.new) result }
    ensures later { S.faults source.old ≤ S.faults source.new }
{
    let mut byte = [0u8; 1];
    match read_piece(source, &mut byte) {
        Piece::Bytes(_) => NextByte::Byte(byte[0]),
        Piece::End => NextByte::End,
        Piece::Failed => NextByte::Failed,
    }
}

/// Writes all of these bytes, and says whether it could.
#[tactic(auto, using(crate::proofs::Passing::went_whole, crate::proofs::Passing::went_part))]
pub fn write_piece<K: Sink>(sink: &mut K, bytes: &[u8]) -> bool
    ensures wrote { Went (K.written sink.old) (K.written sink.new) (K.faults sink.old) (K.faults sink.new) bytes.now result }
{
    match write_whole(sink, bytes) {
        Ok(()) => true,
        Err(_) => false,
    }
}
