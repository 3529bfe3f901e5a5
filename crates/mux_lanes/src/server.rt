// The lane of a berth's programs.
ghost use Rattle.std.specs.Prelude.{◌≡◌, ◌≢◌, ◌+◌, ◌<◌, ◌≤◌, [], ◌∷◌, ◌++◌, ◌⊎◌, Err, IfErr, IfOk, OnOk, OnErr, IsErrOf};
ghost use Rattle.outside_io.specs.Faults.{Rose};
ghost use Rattle.outside_io.specs.Sessions.{session_of};
ghost use Rattle.outside_io.specs.Told.{append_to, prepend_to};
ghost use Rattle.lane_desk.specs.Stops.{WasDone};
ghost use Rattle.mux_lanes.specs.Lanes.{CutLink, IsSameLane, RanAs, Takes, WholeLink, standing};
ghost use Rattle.mux_lanes.specs.Starts.{Begun, CutBegun, CutStart, RefusedAs, WholeStart};

use crate::lane_end::{Lane, LaneEnd, Served};
use crate::post::post;
use crate::session::{Ends, Link, Ran, is_whole, run_session};
use crate::switchboard::Switchboard;
use lane_desk::Naming;
use lane_lists::{LaneName, Order, Posted};
use lane_queue::LaneOut;
use mux_steps::Steps;
use outside_io::{Berth, StartFault};
use std::alloc::Global;
use std::sync::Wait;
use std::thread::Threads;

// Starts the program of these words in a folder, or in the berth's own where none is named.
fn start<B: Berth>(
    berth: &mut B,
    words: &[String],
    folder: Option<&str>,
) -> Result<Link<B::In, B::Out>, StartFault>
    ensures run { IfOk result (λ link. B.left berth.old ≡ prepend_to
        (session_of B.In.Source.taken B.In.Source.left B.In.Source.faults B.Out.Sink.written B.Out.Sink.faults link.source link.sink ∷ []) (B.left berth.new)) }
    ensures held { OnOk result (B.held berth.new ≡ B.held berth.old + 1) }
    ensures none { OnErr result (B.left berth.new ≡ B.left berth.old) }
    ensures failed { IsErrOf result StartFault.Failed → Rose (B.faults berth.old) (B.faults berth.new) }
    ensures runs { B.runs berth.new ≡ B.runs berth.old }
    ensures later { B.faults berth.old ≤ B.faults berth.new }
{
    let mut source = None;
    let mut sink = None;
    berth.start(words, folder, &mut source, &mut sink)?;
    match (source, sink) {
        (Some(source), Some(sink)) => Ok(Link { source, sink }),
        _ => unreachable!(),
    }
}

// Hands a run back.
fn finish<B: Berth>(berth: &mut B, link: Link<B::In, B::Out>)
    requires { 0 < B.held berth.old }
    ensures run { B.runs berth.new
        ≡ append_to (B.runs berth.old)
        (session_of B.In.Source.taken B.In.Source.left B.In.Source.faults B.Out.Sink.written B.Out.Sink.faults link.source link.sink ∷ []) }
    ensures left { B.left berth.new ≡ B.left berth.old }
    ensures later { B.faults berth.old ≤ B.faults berth.new }
{
    let mut source = Some(link.source);
    let mut sink = Some(link.sink);
    berth.finish(&mut source, &mut sink);
}

// The words of a server's command; none of one that isn't there.
fn words_of(commands: &[Vec<String>], server: Option<u32>) -> &[String] {
    match server.and_then(|place| commands.get(place as usize)) {
        Some(words) => words.as_slice(),
        None => &[],
    }
}

// Takes the next order, and sleeps until there is one. An error says how a lane ends that waits for a start. Where a stop is
// done no more orders come, so what was ordered before is there.
fn next_order<K: Steps + Drop, N: Naming, R: Wait>(
    rt: &R,
    board: &Switchboard<K, N>,
    lane: LaneName,
    out: &mut LaneOut,
) -> Result<Order, LaneEnd>
    ensures queue { out.new.orders.queue ≡ out.old.orders.queue }
    ensures sides { out.new.sides ≡ out.old.sides }
    ensures order { IfOk result (λ x. out.new.orders.taken ≡ out.old.orders.taken ++ x ∷ []) }
    ensures none { OnErr result (out.new.orders.taken ≡ out.old.orders.taken) }
    ensures ends { IfErr result (λ end. (end ≡ LaneEnd.Stopped) ⊎ (end ≡ LaneEnd.Over)) }
    ensures stopped { result ≡ Err LaneEnd.Stopped → WasDone K.stands K.stops N.editors N.servers }
{
    for _ in rt.forever() {
        if let Some(order) = out.take(rt) {
            return Ok(order);
        }
        match board.look(rt, lane) {
            None => board.wait(rt, lane),
            Some(LaneEnd::Stopped) => return out.take(rt).ok_or(LaneEnd::Stopped),
            Some(end) => return Err(end),
        }
    }
    unreachable!()
}

// Says that a start's program couldn't be started, and takes the order that ends it.
fn refuse_start<K: Steps + Drop, N: Naming, R: Wait>(
    rt: &R,
    board: &Switchboard<K, N>,
    lane: LaneName,
    ends: &mut Ends,
) -> bool
    ensures lane { IsSameLane ends.old ends.new }
    ensures sides { ends.new.out.sides ≡ ends.old.out.sides }
    ensures refused { RefusedAs ends.old.inn.pushed ends.new.inn.pushed ends.old.out.orders.taken ends.new.out.orders.taken result }
{
    if !post(rt, board, &mut ends.inn, Posted::NoStart) {
        return false;
    }
    match next_order(rt, board, lane, &mut ends.out) {
        Ok(Order::Close) => true,
        Ok(Order::Done) => true,
        _ => {
            board.fail(rt);
            false
        }
    }
}

// Runs the session of a program that was started, and hands the run back.
fn serve_run<K: Steps + Drop + Send, N: Naming + Send + Sync, B: Berth, R: Threads + Wait + Sync>(
    rt: &R,
    alloc: Global,
    board: &Switchboard<K, N>,
    lane: LaneName,
    limit: u32,
    berth: &mut B,
    link: Link<B::In, B::Out>,
    ends: Ends,
) -> Served
    requires { 0 < B.held berth.old }
    ensures lane { IsSameLane ends result.ends }
    ensures turn { Takes (WholeLink Posted.Up limit) (CutLink Posted.Up limit)
        (record (standing B.runs B.left B.faults berth.old ends) {
          left = prepend_to
              (session_of B.In.Source.taken B.In.Source.left B.In.Source.faults B.Out.Sink.written B.Out.Sink.faults link.source link.sink ∷ [])
              (B.left berth.old);
        }) (standing B.runs B.left B.faults berth.new result.ends) result.is_whole }
{
    let mut ends = ends;
    if !post(rt, board, &mut ends.inn, Posted::Up) {
        finish(berth, link);
        return Served {
            ends,
            is_whole: false,
        };
    }
    let ran = run_session(rt, alloc, board, lane, limit, link, ends);
    let Ran {
        link,
        ends,
        stop,
        wrote,
    } = ran;
    finish(berth, link);
    let is_whole = is_whole(stop, &wrote);
    Served { ends, is_whole }
}

// Starts the program of a start, in its folder, and runs its session, or says that it couldn't be started.
fn serve_start<K: Steps + Drop + Send, N: Naming + Send + Sync, B: Berth, R: Threads + Wait + Sync>(
    rt: &R,
    alloc: Global,
    board: &Switchboard<K, N>,
    lane: LaneName,
    limit: u32,
    words: &[String],
    folder: Option<&str>,
    berth: &mut B,
    ends: Ends,
) -> Served
    ensures lane { IsSameLane ends result.ends }
    ensures turn { Takes (WholeStart limit) (CutStart limit) (standing B.runs B.left B.faults berth.old ends)
        (standing B.runs B.left B.faults berth.new result.ends) result.is_whole }
{
    let mut ends = ends;
    match start(berth, words, folder) {
        Ok(link) => serve_run(rt, alloc, board, lane, limit, berth, link, ends),
        Err(StartFault::Failed) => {
            let is_whole = refuse_start(rt, board, lane, &mut ends);
            Served { ends, is_whole }
        }
        Err(StartFault::Memory) => {
            board.fail(rt);
            Served {
                ends,
                is_whole: false,
            }
        }
    }
}

// Starts the program that the core says of a start, where it says, and runs its session, or says that it couldn't be started.
fn serve_begun<K: Steps + Drop + Send, N: Naming + Send + Sync, B: Berth, R: Threads + Wait + Sync>(
    rt: &R,
    alloc: Global,
    board: &Switchboard<K, N>,
    lane: LaneName,
    limit: u32,
    commands: &[Vec<String>],
    start: u64,
    berth: &mut B,
    ends: Ends,
) -> Served
    ensures lane { IsSameLane ends result.ends }
    ensures turn { Takes (WholeStart limit) (CutStart limit) (standing B.runs B.left B.faults berth.old ends)
        (standing B.runs B.left B.faults berth.new result.ends) result.is_whole }
{
    let words = words_of(commands, board.server_of(rt, start));
    match board.folder_of(rt, start) {
        Ok(folder) => {
            let folder = folder.as_deref();
            serve_start(rt, alloc, board, lane, limit, words, folder, berth, ends)
        }
        Err(_) => {
            board.fail(rt);
            Served {
                ends,
                is_whole: false,
            }
        }
    }
}

/// Waits for the order to begin a start, runs its program in a berth, and waits for the next one. It posts that the program
/// is up, then the contents of the frames that it reads, of at most `limit` bytes, and how it ended, and writes what is
/// ordered meanwhile; or that it couldn't be started. A start is run with the command at its server's place, or with no
/// words where there is none, in the folder that the core says.
pub fn server_lane<
    K: Steps + Drop + Send,
    N: Naming + Send + Sync,
    B: Berth,
    R: Threads + Wait + Sync,
>(
    rt: &R,
    alloc: Global,
    board: &Switchboard<K, N>,
    lane: u32,
    limit: u32,
    commands: &[Vec<String>],
    berth: &mut B,
    ends: Ends,
) -> Lane
    ensures lane { IsSameLane ends result.ends }
    ensures ran { RanAs (Begun (WholeStart limit)) (CutBegun limit) (standing B.runs B.left B.faults berth.old ends)
        (standing B.runs B.left B.faults berth.new result.ends) result.end }
    ensures goes_on { result.end ≢ LaneEnd.Through }
    ensures stopped { result.end ≡ LaneEnd.Stopped → WasDone K.stands K.stops N.editors N.servers }
{
    let name = LaneName::Server(lane);
    let mut ends = ends;
    for _ in rt.forever() {
        match next_order(rt, board, name, &mut ends.out) {
            Err(end) => return Lane { ends, end },
            Ok(Order::Begin(start)) => {
                let served = serve_begun(
                    rt, alloc, board, name, limit, commands, start, berth, ends,
                );
                ends = served.ends;
                if !served.is_whole {
                    board.fail(rt);
                    return Lane {
                        ends,
                        end: LaneEnd::Cut,
                    };
                }
            }
            Ok(_) => {
                board.fail(rt);
                return Lane {
                    ends,
                    end: LaneEnd::Cut,
                };
            }
        }
    }
    unreachable!()
}
