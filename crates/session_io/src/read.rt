// How a session is read: the frames of a source are posted, and then how it ended.
ghost use Rattle.std.specs.Prelude.{◌≡◌, ◌<◌, ℕ, List, [], ◌∷◌, ◌++◌, length, true, MatchBool};
ghost use Rattle.base_frame.specs.Reader.{Stands};
ghost use Rattle.session_io.specs.Reads.{PostedFrames, ReadAs, ReadFrames, why_of};

use crate::part::{Core, End};
use base_frame::{FrameReader, Next, frames_law};
use lane_queue::{LaneIn, Posted};
use message_body::Body;
use mux_history::Why;
use outside_io::Source;
use std::alloc::Global;
use std::sync::Wait;

// How many bytes one read takes at most.
const READ_BYTES: usize = 65_536;

/// What stands behind the frames that were posted: neither a frame nor a fault, or a fault; or the posting was cut off.
#[derive(Clone, Copy, Debug, PartialEq, Eq)]
pub enum Frames {
    Short,
    Bad,
    Cut,
}

/// Why the reading of a session stopped.
#[derive(Clone, Copy, Debug, PartialEq, Eq)]
pub enum Stop {
    /// The source ended, a read failed, or its bytes aren't frames.
    Ended(Why),
    /// The writing part ended the session.
    Told(End),
    /// Memory ran out, or the core goes on no more.
    Cut,
}

fn post<R: Wait>(rt: &R, inn: &mut LaneIn, item: Posted) -> bool
    ensures queue { inn.new.queue ≡ inn.old.queue }
    ensures posts { MatchBool result (inn.new.pushed ≡ inn.old.pushed ++ item ∷ []) (inn.new.pushed ≡ inn.old.pushed) }
{
    inn.push(rt, item).is_ok()
}

fn post_body<R: Wait>(rt: &R, inn: &mut LaneIn, body: Body) -> bool
    ensures queue { inn.new.queue ≡ inn.old.queue }
    ensures posts { MatchBool result (inn.new.pushed ≡ inn.old.pushed ++ Posted.Body body ∷ []) (inn.new.pushed ≡ inn.old.pushed) }
{
    post(rt, inn, Posted::Body(body))
}

// Posts the contents that a reader has ready.
fn post_frames<R: Wait, C: Core>(
    rt: &R,
    core: &C,
    reader: &mut FrameReader,
    inn: &mut LaneIn,
) -> Frames
    ensures queue { inn.new.queue ≡ inn.old.queue }
    ensures posted { PostedFrames reader.old reader.new inn.old.pushed inn.new.pushed result }
{
    for _ in rt.forever() {
        match reader.next() {
            Next::Frame(body) => {
                if !post_body(rt, inn, body) {
                    return Frames::Cut;
                }
            }
            Next::NotYet => return Frames::Short,
            Next::BadFrame(_, _) => return Frames::Bad,
        }
        if !core.pump(rt) {
            return Frames::Cut;
        }
    }
    unreachable!()
}

fn feed_piece(reader: &mut FrameReader, piece: &[u8]) -> bool
    ensures limit { reader.new.limit ≡ reader.old.limit }
    ensures fed { result ≡ true → (fed : List ℕ) (given : List (List ℕ)) → Stands reader.old fed given → Stands reader.new (fed ++ piece.now) given }
{
    reader.feed(piece).is_ok()
}

// Reads a source to its end, by pieces that fit the buffer, and posts the contents of its frames.
fn read_frames<R: Wait, C: Core, S: Source>(
    rt: &R,
    alloc: Global,
    limit: u32,
    core: &C,
    source: &mut S,
    buf: &mut [u8],
    inn: &mut LaneIn,
) -> Stop
    requires { 0 < length buf.old }
    ensures queue { inn.new.queue ≡ inn.old.queue }
    ensures read { ReadFrames limit (S.taken source.old) (S.taken source.new) (S.left source.new) (S.faults source.old)
        (S.faults source.new) inn.old.pushed inn.new.pushed result }
{
    frames_law();
    let mut reader = FrameReader::new(alloc, limit);
    for _ in rt.forever() {
        let count = match source.read(buf) {
            Ok(0) => return Stop::Ended(Why::End),
            Ok(count) => count,
            Err(_) => return Stop::Ended(Why::ReadFault),
        };
        if let Some(end) = core.ended() {
            return Stop::Told(end);
        }
        if !feed_piece(&mut reader, &buf[..count]) {
            return Stop::Cut;
        }
        match post_frames(rt, core, &mut reader, inn) {
            Frames::Short => {}
            Frames::Bad => return Stop::Ended(Why::BadFrame),
            Frames::Cut => return Stop::Cut,
        }
    }
    unreachable!()
}

// How a session that stopped so is said to have ended. One that its writing part ended was closed, or it was over before:
// then what is posted is no cause, as nothing that comes behind a failed write is.
fn why_of(stop: Stop) -> Option<Why>
    ensures { result ≡ why_of stop }
{
    match stop {
        Stop::Ended(why) => Some(why),
        Stop::Told(End::Closed) => Some(Why::End),
        Stop::Told(End::Done) => Some(Why::WriteFault),
        Stop::Cut => None,
    }
}

/// Reads a session: posts the contents of the source's frames of at most `limit` bytes, each as soon as it is whole, and
/// then how the session ended. Cut says that something wasn't posted.
///
/// It reads 65,536 bytes at a time at most, and keeps no more than one frame beside them.
#[tactic(auto, using(crate::proofs::Reading::read_nothing))]
pub fn read_session<R: Wait, C: Core, S: Source>(
    rt: &R,
    alloc: Global,
    limit: u32,
    core: &C,
    source: &mut S,
    inn: &mut LaneIn,
) -> Stop
    ensures queue { inn.new.queue ≡ inn.old.queue }
    ensures read { ReadAs limit (S.taken source.old) (S.taken source.new) (S.left source.new) (S.faults source.old)
        (S.faults source.new) inn.old.pushed inn.new.pushed result }
{
    let mut buf = Vec::new(alloc);
    if buf.resize(READ_BYTES, 0).is_err() || !core.begins() {
        return Stop::Cut;
    }
    let stop = read_frames(rt, alloc, limit, core, source, buf.as_mut_slice(), inn);
    let Some(why) = why_of(stop) else {
        return Stop::Cut
    };
    if !post(rt, inn, Posted::Ended(why)) {
        return Stop::Cut;
    }
    stop
}
