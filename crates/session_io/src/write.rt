// How a session is written: the frames of the bodies that are ordered.
ghost use Rattle.std.specs.Prelude.{◌≡◌, ◌≤◌, [], ◌∷◌, ◌++◌, MatchBool, IfSome, IfNone, None, false, true, if◌then◌else◌};
ghost use Rattle.session_io.specs.Writes.{WroteFrame, WroteFront, WroteAs, WroteOrder};

use crate::part::Core;
use base_frame::frame;
use lane_queue::{LaneOut, Order, Side};
use outside_io::{Sink, write_whole};
use std::alloc::Global;
use std::sync::Wait;

// How many bytes are written before the core takes what was said of them.
const KEPT_BYTES: usize = 1_048_576;

fn put_side<R: Wait>(rt: &R, out: &mut LaneOut, item: Side) -> bool
    ensures queue { out.new.sides.queue ≡ out.old.sides.queue }
    ensures orders { out.new.orders ≡ out.old.orders }
    ensures items { MatchBool result (out.new.sides.pushed ≡ out.old.sides.pushed ++ item ∷ []) (out.new.sides.pushed ≡ out.old.sides.pushed) }
{
    out.push(rt, item).is_ok()
}

// Writes the frame of a body, and says whether it is whole; None where memory ran out.
#[tactic(auto, using(crate::proofs::Writing::frame_whole, crate::proofs::Writing::frame_cut))]
fn write_frame<K: Sink>(alloc: Global, sink: &mut K, body: &[u8]) -> Option<bool>
    ensures some { IfSome result (λ whole. WroteFrame body.now (K.written sink.old) (K.written sink.new) (K.faults sink.old) (K.faults sink.new) whole) }
    ensures none { IfNone result ((K.written sink.new ≡ K.written sink.old) × (K.faults sink.old ≤ K.faults sink.new)) }
{
    let Ok(bytes) = frame(alloc, body) else {
        return None;
    };
    match write_whole(sink, bytes.bytes()) {
        Ok(()) => Some(true),
        Err(_) => Some(false),
    }
}

// Closes a sink whose write failed; what was written stays.
fn close_if<K: Sink>(sink: &mut K, broke: bool)
    ensures kept { K.written sink.new ≡ K.written sink.old }
    ensures later { K.faults sink.old ≤ K.faults sink.new }
{
    if broke {
        sink.close();
    }
}

/// How the writing of a session ended.
#[derive(Drop)]
pub struct Wrote {
    /// The order that ended it.
    pub end: Option<Order>,
    /// Was it said that a write failed?
    pub broke: bool,
    /// Did memory run out, or go the core on no more?
    pub cut: bool,
}

impl Wrote {
    // Memory ran out, or the core goes on no more.
    fn cut_off(broke: bool) -> Wrote
        ensures { result ≡ record { end = None; broke = broke; cut = true } }
    {
        Wrote {
            end: None,
            broke,
            cut: true,
        }
    }
}

// Writes a body, and says what became of it; None where memory ran out.
#[tactic(auto, using(crate::proofs::Writing::front_none, crate::proofs::Writing::front_some, crate::proofs::Writing::closed_frame))]
fn write_body<R: Wait, K: Sink>(
    rt: &R,
    alloc: Global,
    sink: &mut K,
    out: &mut LaneOut,
    body: &[u8],
) -> Option<bool>
    ensures queue { out.new.sides.queue ≡ out.old.sides.queue }
    ensures orders { out.new.orders ≡ out.old.orders }
    ensures some { IfSome result (λ whole. WroteFrame body.now (K.written sink.old) (K.written sink.new) (K.faults sink.old) (K.faults sink.new) whole
        × (out.new.sides.pushed ≡ out.old.sides.pushed ++ (if whole then Side.Wrote else Side.Broke) ∷ [])) }
    ensures none { IfNone result (WroteFront body.now (K.written sink.old) (K.written sink.new) (K.faults sink.old) (K.faults sink.new)
        × (out.new.sides.pushed ≡ out.old.sides.pushed)) }
{
    let whole = write_frame(alloc, sink, body)?;
    let item = if whole { Side::Wrote } else { Side::Broke };
    close_if(sink, !whole);
    if put_side(rt, out, item) {
        Some(whole)
    } else {
        None
    }
}

// Writes the body of an order, where no write failed before; gives whether one has failed by now.
fn write_order<R: Wait, K: Sink>(
    rt: &R,
    alloc: Global,
    sink: &mut K,
    out: &mut LaneOut,
    body: &[u8],
    broke: bool,
) -> Option<bool>
    ensures queue { out.new.sides.queue ≡ out.old.sides.queue }
    ensures orders { out.new.orders ≡ out.old.orders }
    ensures some { IfSome result (λ now. WroteOrder body.now (K.written sink.old) (K.written sink.new) (K.faults sink.old)
        (K.faults sink.new) out.old.sides.pushed out.new.sides.pushed broke now) }
    ensures none { IfNone result (WroteFront body.now (K.written sink.old) (K.written sink.new) (K.faults sink.old) (K.faults sink.new) × (broke ≡ false)
        × (out.new.sides.pushed ≡ out.old.sides.pushed)) }
{
    if broke {
        return Some(true);
    }
    let whole = write_body(rt, alloc, sink, out, body)?;
    Some(!whole)
}

// Has the core take what was said of the bodies, where a MiB was written since it last did. False says that it goes on no
// more. So a peer that is sent much, and takes it, isn't taken for one that is slow.
fn keep_up<R: Wait, C: Core>(rt: &R, core: &C, written: &mut usize) -> bool {
    if *written < KEPT_BYTES {
        return true;
    }
    *written = 0;
    core.pump(rt)
}

// Has the core go on, and sleeps until there may be an order. False says that it goes on no more.
fn wait<R: Wait, C: Core>(rt: &R, core: &C) -> bool {
    if !core.pump(rt) {
        return false;
    }
    core.sleep(rt);
    true
}

/// Writes a session: the frames of the bodies that are ordered, one after the other, until another order ends it. Of each
/// it says `Wrote`, or `Broke` where its write failed; then it closes the sink and drops the bodies behind it.
///
/// It keeps no more than one frame. The core takes what was said each time that no order is there, and behind the body with
/// which a MiB was written since it last did.
pub fn write_session<R: Wait, C: Core, K: Sink>(
    rt: &R,
    alloc: Global,
    core: &C,
    sink: &mut K,
    out: &mut LaneOut,
) -> Wrote
    ensures queues { (out.new.orders.queue ≡ out.old.orders.queue) × (out.new.sides.queue ≡ out.old.sides.queue) }
    ensures wrote { WroteAs (K.written sink.old) (K.written sink.new) (K.faults sink.old)
        (K.faults sink.new) out.old.orders.taken out.new.orders.taken out.old.sides.pushed out.new.sides.pushed result }
{
    let mut broke = false;
    let mut written = 0;
    for _ in rt.forever() {
        if !keep_up(rt, core, &mut written) {
            return Wrote::cut_off(broke);
        }
        match out.take(rt) {
            None => {
                written = 0;
                if !wait(rt, core) {
                    return Wrote::cut_off(broke);
                }
            }
            Some(Order::Body(body)) => {
                written = written.saturating_add(body.bytes().len());
                match write_order(rt, alloc, sink, out, body.bytes(), broke) {
                    Some(now) => broke = now,
                    None => return Wrote::cut_off(false),
                }
            }
            Some(order) => {
                return Wrote {
                    end: Some(order),
                    broke,
                    cut: false,
                };
            }
        }
    }
    unreachable!()
}
