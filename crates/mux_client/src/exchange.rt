// One request that is sent on a link, and the link's first frame (LSP 3.17, Base Protocol).
ghost use Rattle.std.specs.Prelude.{◌≡◌, ◌≤◌, ◌++◌, ◌∷◌, [], ℕ, List, length, true, IfOk};
ghost use Rattle.base_frame.specs.Reader.{Stands};
ghost use Rattle.outside_io.specs.Sessions.{session_of};
ghost use Rattle.mux_client.specs.Answers.{Exchanged, TakenFirst, anything, nothing};

use crate::fault::ClientFault;
use crate::pieces::{NextByte, read_byte, write_piece};
use base_frame::{FrameReader, Next, frame};
use message_body::Body;
use outside_io::{Sink, Source};
use std::alloc::Global;

// Feeds a byte, and says whether there was memory for it.
fn feed_byte(reader: &mut FrameReader, byte: u8) -> bool
    ensures limit { reader.new.limit ≡ reader.old.limit }
    ensures fed { result ≡ true → (fed : List ℕ) (given : List (List ℕ)) → Stands reader.old fed given → Stands reader.new (fed ++ byte ∷ []) given }
{
    reader.feed(&[byte]).is_ok()
}

// Takes the first frame off a source, and no byte behind it.
//
// It reads a byte at a time, since what stands behind the frame belongs to who reads the source next.
fn take_frame<S: Source>(alloc: Global, limit: u32, source: &mut S) -> Result<Body, ClientFault>
    ensures first { TakenFirst limit (S.taken source.old) (S.taken source.new) (S.left source.old) (S.left source.new) (S.faults source.old)
        (S.faults source.new) result }
    ensures fits { IfOk result (λ answer. length answer ≤ limit) }
{
    let mut reader = FrameReader::new(alloc, limit);
    for _ in 0..u64::MAX {
        let byte = match read_byte(source) {
            NextByte::Byte(byte) => byte,
            NextByte::End => return Err(ClientFault::Answer),
            NextByte::Failed => return Err(ClientFault::Link),
        };
        if !feed_byte(&mut reader, byte) {
            return Err(ClientFault::Memory);
        }
        match reader.next() {
            Next::Frame(body) => return Ok(body),
            Next::NotYet => {}
            Next::BadFrame(_, _) => return Err(ClientFault::Answer),
        }
    }
    // No memory holds so many bytes of one frame.
    Err(ClientFault::Memory)
}

/// Sends a request as a frame, and takes the first frame of at most `limit` bytes that comes back.
///
/// The frame is taken off the source a byte at a time, and no byte behind it.
#[tactic(auto, using(crate::proofs::Exchanging::unsent, crate::proofs::Exchanging::unwritten, crate::proofs::Exchanging::awaited))]
pub fn exchange<S: Source, K: Sink>(
    alloc: Global,
    limit: u32,
    request: &[u8],
    source: &mut S,
    sink: &mut K,
) -> Result<Body, ClientFault>
    ensures exchanged { Exchanged limit request.now anything nothing (session_of S.taken S.left S.faults K.written K.faults source.old sink.old)
        (session_of S.taken S.left S.faults K.written K.faults source.new sink.new) result }
    ensures fits { IfOk result (λ answer. length answer ≤ limit) }
{
    let Ok(bytes) = frame(alloc, request) else {
        return Err(ClientFault::Memory);
    };
    if !write_piece(sink, bytes.bytes()) {
        return Err(ClientFault::Link);
    }
    take_frame(alloc, limit, source)
}
