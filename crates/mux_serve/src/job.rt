// A lane with what it serves, and the work of one lane or of many side by side.
ghost use Rattle.std.specs.Prelude.{◌≡◌, ◌<◌, ℕ, None, Some, length, slice_index_or};
ghost use Rattle.mux_lanes.specs.declared.session.Ends.{Ends};
ghost use Rattle.mux_serve.specs.Jobs.{BerthRan, PortRan};

use lane_desk::Naming;
use mux_lanes::{Ends, LaneEnd, Meeting, Switchboard, editor_lane, server_lane};
use mux_steps::Steps;
use outside_io::{Berth, Port};
use std::alloc::Global;
use std::sync::Wait;
use std::thread;
use std::thread::Threads;

/// A lane: the port or the berth that it serves, its ends, and how its work ended.
#[derive(Drop)]
pub struct LaneJob<P> {
    pub outside: P,
    /// Its number among the lanes of ports, or of berths.
    pub number: u32,
    /// None of a lane that wasn't made yet, or that was settled.
    pub ends: Option<Ends>,
    pub end: LaneEnd,
}

impl<P> LaneJob<P> {
    /// A lane that isn't made yet.
    pub fn new(outside: P) -> LaneJob<P>
        ensures { result ≡ record { outside = outside; number = 0; ends = None; end = LaneEnd.Over } }
    {
        LaneJob {
            outside,
            number: 0,
            ends: None,
            end: LaneEnd::Over,
        }
    }
}

/// Begins a lane beside all others; where one of these can't, the core goes on no more.
pub fn begin<K: Steps + Drop, N: Naming, R: Wait>(
    rt: &R,
    board: &Switchboard<K, N>,
    lanes: &Meeting,
) {
    if !lanes.meet() {
        board.fail(rt);
    }
}

/// Runs the lane of a port. One without ends makes the core go on no more.
pub fn run_port<
    K: Steps + Drop + Send,
    N: Naming + Send + Sync,
    P: Port + Drop,
    R: Threads + Wait + Sync,
>(rt: &R, alloc: Global, board: &Switchboard<K, N>, limit: u32, job: &mut LaneJob<P>)
    ensures { (e : Ends) → job.old.ends ≡ Some e → PortRan P.sessions P.links P.faults limit job.old job.new e }
{
    let Some(ends) = job.ends.take() else {
        board.fail(rt);
        return;
    };
    let left = editor_lane(rt, alloc, board, job.number, limit, &mut job.outside, ends);
    job.ends = Some(left.ends);
    job.end = left.end;
}

/// Runs the lanes of ports, each in a thread of its own, once all lanes have begun.
pub fn run_ports<
    K: Steps + Drop + Send,
    N: Naming + Send + Sync,
    P: Port + Send + Drop,
    R: Threads + Wait + Sync,
>(
    rt: &R,
    alloc: Global,
    board: &Switchboard<K, N>,
    lanes: &Meeting,
    limit: u32,
    jobs: &mut [LaneJob<P>],
)
    ensures len { length jobs.new ≡ length jobs.old }
    ensures ran { (i : ℕ) (d : _) (e : Ends) → i < length jobs.old → (slice_index_or jobs.old i d).ends ≡ Some e
        → PortRan P.sessions P.links P.faults limit (slice_index_or jobs.old i d) (slice_index_or jobs.new i d) e }
{
    let count = jobs.len().max(1);
    thread::for_each_mut(
        rt,
        jobs,
        count,
        &|_: usize, job: &mut LaneJob<P>|
            ensures { (e : Ends) → job.entry.now.ends ≡ Some e → PortRan P.sessions P.links P.faults limit job.entry.now job.exit.now e }
        {
            begin(rt, board, lanes);
            run_port(rt, alloc, board, limit, job)
        },
    );
}

/// Runs the lane of a berth. One without ends makes the core go on no more.
pub fn run_berth<
    K: Steps + Drop + Send,
    N: Naming + Send + Sync,
    B: Berth + Drop,
    R: Threads + Wait + Sync,
>(
    rt: &R,
    alloc: Global,
    board: &Switchboard<K, N>,
    limit: u32,
    commands: &[Vec<String>],
    job: &mut LaneJob<B>,
)
    ensures { (e : Ends) → job.old.ends ≡ Some e → BerthRan B.runs B.left B.faults limit job.old job.new e }
{
    let Some(ends) = job.ends.take() else {
        board.fail(rt);
        return;
    };
    let left = server_lane(
        rt,
        alloc,
        board,
        job.number,
        limit,
        commands,
        &mut job.outside,
        ends,
    );
    job.ends = Some(left.ends);
    job.end = left.end;
}

/// Runs the lanes of berths, each in a thread of its own, once all lanes have begun.
pub fn run_berths<
    K: Steps + Drop + Send,
    N: Naming + Send + Sync,
    B: Berth + Send + Drop,
    R: Threads + Wait + Sync,
>(
    rt: &R,
    alloc: Global,
    board: &Switchboard<K, N>,
    lanes: &Meeting,
    limit: u32,
    commands: &[Vec<String>],
    jobs: &mut [LaneJob<B>],
)
    ensures len { length jobs.new ≡ length jobs.old }
    ensures ran { (i : ℕ) (d : _) (e : Ends) → i < length jobs.old → (slice_index_or jobs.old i d).ends ≡ Some e
        → BerthRan B.runs B.left B.faults limit (slice_index_or jobs.old i d) (slice_index_or jobs.new i d) e }
{
    let count = jobs.len().max(1);
    thread::for_each_mut(
        rt,
        jobs,
        count,
        &|_: usize, job: &mut LaneJob<B>|
            ensures { (e : Ends) → job.entry.now.ends ≡ Some e → BerthRan B.runs B.left B.faults limit job.entry.now job.exit.now e }
        {
            begin(rt, board, lanes);
            run_berth(rt, alloc, board, limit, commands, job)
        },
    );
}
