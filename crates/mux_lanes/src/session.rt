// One session of a link or of a program, whose reading part and writing part go side by side.
ghost use Rattle.std.specs.Prelude.{◌≡◌, ◌↔◌, ◌≤◌, MatchOption, Some, true};
ghost use Rattle.session_io.specs.declared.part.End.{End};
ghost use Rattle.std.specs.Thread.{IsSync};
ghost use Rattle.session_io.specs.Reads.{ReadAs};
ghost use Rattle.session_io.specs.Writes.{WroteAs};
ghost use Rattle.mux_lanes.specs.Runs.{IsWhole, order_of};
ghost use Rattle.mux_lanes.specs.Lanes.{IsSameLane};

use crate::meeting::Meeting;
use crate::switchboard::Switchboard;
use lane_desk::Naming;
use lane_lists::{LaneName, Order};
use lane_queue::{LaneIn, LaneOut};
use mux_steps::Steps;
use outside_io::{Sink, Source};
use session_io::{Core, End, Stop, Wrote, read_session, write_session};
use std::alloc::Global;
use std::sync::{OnceLock, Wait};
use std::thread;
use std::thread::Threads;

// The core, as the two parts of one session see it.
#[derive(Drop)]
struct SessionDesk<'a, K: Steps + Drop, N: Naming> {
    board: &'a Switchboard<K, N>,
    lane: LaneName,
    parts: Meeting,
    end: OnceLock<End>,
}

impl<'a, K: Steps + Drop, N: Naming> Core for SessionDesk<'a, K, N> {
    fn begins(&self) -> bool {
        self.parts.meet()
    }

    fn pump<R: Wait>(&self, rt: &R) -> bool {
        self.board.pump(rt, self.lane)
    }

    fn sleep<R: Wait>(&self, rt: &R) {
        self.board.wait(rt, self.lane);
    }

    fn ended(&self) -> Option<End> {
        self.end.get().copied()
    }
}

// How the writing part was ordered to end; none where it was cut off.
fn end_of(wrote: &Wrote) -> Option<End>
    ensures { MatchOption result ((end : End) → wrote.now.end ≡ Some (order_of end) → ⊥) (λ end. wrote.now.end ≡ Some (order_of end)) }
{
    match &wrote.end {
        Some(Order::Close) => Some(End::Closed),
        Some(Order::Done) => Some(End::Done),
        _ => None,
    }
}

/// Whether neither part was cut off, and both agree on how the session ended.
pub fn is_whole(stop: Stop, wrote: &Wrote) -> bool
    ensures { (result ≡ true) ↔ IsWhole stop wrote.now }
{
    let Some(end) = end_of(wrote) else {
        return false;
    };
    if wrote.cut {
        return false;
    }
    match stop {
        Stop::Ended(_) => true,
        Stop::Told(told) => told == end,
        Stop::Cut => false,
    }
}

// What the reading part leaves.
#[derive(Drop)]
struct ReadPart<S> {
    source: S,
    inn: LaneIn,
    stop: Stop,
}

// Reads the session, and has the core take what was posted.
fn read_part<K: Steps + Drop, N: Naming, S: Source + Drop, R: Wait>(
    rt: &R,
    alloc: Global,
    limit: u32,
    desk: &SessionDesk<'_, K, N>,
    source: S,
    inn: LaneIn,
) -> ReadPart<S>
    ensures queue { result.inn.queue ≡ inn.queue }
    ensures read { ReadAs limit (S.taken source) (S.taken result.source) (S.left result.source) (S.faults source)
        (S.faults result.source) inn.pushed result.inn.pushed result.stop }
{
    let mut source = source;
    let mut inn = inn;
    let stop = read_session(rt, alloc, limit, desk, &mut source, &mut inn);
    if stop == Stop::Cut || !desk.pump(rt) {
        desk.board.fail(rt);
    }
    ReadPart { source, inn, stop }
}

// What the writing part leaves.
#[derive(Drop)]
struct WrittenPart<S> {
    sink: S,
    out: LaneOut,
    wrote: Wrote,
}

// Tells the reading part how the session ended.
fn tell<K: Steps + Drop, N: Naming, R: Wait>(rt: &R, desk: &SessionDesk<'_, K, N>, wrote: &Wrote) {
    match end_of(wrote) {
        Some(end) if desk.end.set(rt, end).is_ok() => {}
        _ => desk.board.fail(rt),
    }
}

// Tells a sink whose session it is written in.
fn heed<K: Steps + Drop, N: Naming, S: Sink, R: Wait>(
    rt: &R,
    desk: &SessionDesk<'_, K, N>,
    sink: &mut S,
    out: &LaneOut,
)
    ensures written { S.written sink.new ≡ S.written sink.old }
    ensures faults { S.faults sink.new ≡ S.faults sink.old }
{
    match out.ending() {
        Ok(ending) => sink.heed(ending),
        Err(_) => desk.board.fail(rt),
    }
}

// Writes the session, and closes the sink.
#[tactic(auto, using(crate::proofs::Sessions::closed_behind))]
fn write_part<K: Steps + Drop, N: Naming, S: Sink + Drop, R: Wait>(
    rt: &R,
    alloc: Global,
    desk: &SessionDesk<'_, K, N>,
    sink: S,
    out: LaneOut,
) -> WrittenPart<S>
    ensures queues { (result.out.orders.queue ≡ out.orders.queue) × (result.out.sides.queue ≡ out.sides.queue) }
    ensures wrote { WroteAs (S.written sink) (S.written result.sink) (S.faults sink)
        (S.faults result.sink) out.orders.taken result.out.orders.taken out.sides.pushed result.out.sides.pushed result.wrote }
{
    let mut sink = sink;
    let mut out = out;
    if !desk.begins() {
        desk.board.fail(rt);
    }
    heed(rt, desk, &mut sink, &out);
    let wrote = write_session(rt, alloc, desk, &mut sink, &mut out);
    tell(rt, desk, &wrote);
    sink.close();
    WrittenPart { sink, out, wrote }
}

/// What a lane reads and writes.
#[derive(Drop)]
pub struct Link<I, O> {
    pub source: I,
    pub sink: O,
}

/// The ends of a lane's queues that the lane itself holds.
#[derive(Drop)]
pub struct Ends {
    pub inn: LaneIn,
    pub out: LaneOut,
}

/// What a session leaves.
#[derive(Drop)]
pub struct Ran<I, O> {
    pub link: Link<I, O>,
    pub ends: Ends,
    pub stop: Stop,
    pub wrote: Wrote,
}

/// Reads and writes a session side by side, until it is ordered to end or its source ends. Then it has closed the sink.
///
/// Where no thread can be made for the writing part, nothing is read, and the core goes on no more.
pub fn run_session<
    K: Steps + Drop + Send,
    N: Naming + Send + Sync,
    I: Source + Send + Drop,
    O: Sink + Send + Drop,
    R: Threads + Wait + Sync,
>(
    rt: &R,
    alloc: Global,
    board: &Switchboard<K, N>,
    lane: LaneName,
    limit: u32,
    link: Link<I, O>,
    ends: Ends,
) -> Ran<I, O>
    ensures queues { IsSameLane ends result.ends }
    ensures read { ReadAs limit (I.taken link.source) (I.taken result.link.source) (I.left result.link.source) (I.faults link.source)
        (I.faults result.link.source) ends.inn.pushed result.ends.inn.pushed result.stop }
    ensures wrote { WroteAs (O.written link.sink) (O.written result.link.sink) (O.faults link.sink)
        (O.faults result.link.sink) ends.out.orders.taken result.ends.out.orders.taken ends.out.sides.pushed result.ends.out.sides.pushed result.wrote }
{
    let desk = SessionDesk {
        board,
        lane,
        parts: Meeting::new(2),
        end: OnceLock::new(),
    };
    let desk = &desk;
    let Link { source, sink } = link;
    let Ends { inn, out } = ends;
    let (written, read) = thread::join(
        rt,
        move || -> WrittenPart<O>
            requires { IsSync R.row }
            ensures queues { (result.out.orders.queue ≡ out.orders.queue) × (result.out.sides.queue ≡ out.sides.queue) }
            ensures wrote { WroteAs (O.written sink) (O.written result.sink) (O.faults sink)
                (O.faults result.sink) out.orders.taken result.out.orders.taken out.sides.pushed result.out.sides.pushed result.wrote }
        { write_part(rt, alloc, desk, sink, out) },
        move || -> ReadPart<I>
            ensures queue { result.inn.queue ≡ inn.queue }
            ensures read { ReadAs limit (I.taken source) (I.taken result.source) (I.left result.source) (I.faults source)
                (I.faults result.source) inn.pushed result.inn.pushed result.stop }
        { read_part(rt, alloc, limit, desk, source, inn) },
    );
    let ReadPart { source, inn, stop } = read;
    let WrittenPart { sink, out, wrote } = written;
    Ran {
        link: Link { source, sink },
        ends: Ends { inn, out },
        stop,
        wrote,
    }
}
