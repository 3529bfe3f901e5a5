// The daemon's threads over a core, from the queues of its lanes to how its work ended.
ghost use Rattle.std.specs.Prelude.{◌≡◌, ◌≢◌, ◌+◌, ◌≤◌, [], Some, length, map, not, slice_get, ℕ, false, true};
ghost use Rattle.outside_io.specs.Faults.{Rose};
ghost use Rattle.lane_desk.specs.Desks.{Faulted, TooMany, ids};
ghost use Rattle.mux_lanes.specs.declared.session.Ends.{Ends};
ghost use Rattle.mux_serve.specs.Jobs.{AllThrough};
ghost use Rattle.mux_daemon.specs.Opens.{OpenedLanes, SameLanes};
ghost use Rattle.mux_daemon.specs.Settles.{LanesPaired, LanesSettled};
ghost use Rattle.mux_daemon.specs.Rans.{HasSession, LanesRan, LanesWhole, NoneCut, AreOver};
ghost use Rattle.mux_daemon.specs.Served.{FinishedAs, LeftAs, ServedAs, is_end};
ghost use Rattle.outside_io.specs.contracts.memory.port.MemPortPort.TheImpl as mem;

use crate::open::{Hubs, Lanes, open_lanes};
use crate::settle::settle_lanes;
use lane_desk::{Closed, Deck, Naming};
use mux_lanes::{Ends, LaneEnd, Switchboard};
use mux_serve::{Editors, LaneJob, Others, Ran, run_lanes};
use mux_steps::{StepFault, Steps};
use outside_io::{Berth, Clock, MemPort, Port};
use std::alloc::Global;
use std::marker::Brand;
use std::sync::Wait;
use std::thread::Threads;

/// How a daemon's work ended.
#[derive(Clone, Copy, Debug, PartialEq, Eq)]
pub enum Answer {
    /// A stop is done: an editor of a port asked for it, since the own link didn't join, and its request was answered.
    Stopped,
    /// Each port was closed. Then, each of their editors having gone, the daemon's own link joined, the last of all, and a stop
    /// is done.
    PortsClosed,
    /// Memory ran out, or something was cut off.
    Memory,
    /// The journal's append failed.
    Journal,
    /// The causes and outs would number more than 2^63 - 1.
    Numbers,
}

/// What a daemon's work leaves.
#[derive(Drop)]
pub struct Served<K, P, B, C> {
    pub answer: Answer,
    pub core: K,
    pub lanes: Lanes<P, B, C>,
}

// What the lanes left.
#[derive(Drop)]
struct RanLanes<P, B, C> {
    lanes: Lanes<P, B, C>,
    // Each port was closed, and the own lane was run then.
    closed: bool,
}

// Runs all lanes.
fn run_board<
    K: Steps + Drop + Send,
    N: Naming + Send + Sync,
    P: Port + Send + Drop,
    B: Berth + Send + Drop,
    C: Clock + Send + Drop,
    R: Threads + Wait + Sync,
>(
    rt: &R,
    alloc: Global,
    board: &Switchboard<K, N>,
    limit: u32,
    commands: &[Vec<String>],
    lanes: Lanes<P, B, C>,
) -> RanLanes<P, B, C>
    requires clock { (e : Ends) × (lanes.clock.ends ≡ Some e) }
    requires own { lanes.own.end ≡ LaneEnd.Over }
    ensures ran { LanesRan P.sessions P.links P.faults B.runs B.left B.faults C.given C.left limit lanes result.lanes }
    ensures through { result.closed ≡ true → AllThrough result.lanes.ports.items }
{
    let Lanes {
        ports,
        own,
        berths,
        clock,
    } = lanes;
    let LaneJob {
        outside,
        number,
        ends,
        end: _,
    } = clock;
    let Some(Ends { inn, out }) = ends else {
        unreachable!()
    };
    let ran = run_lanes(
        rt, alloc, board, limit, commands, ports, own, berths, outside, inn,
    );
    let Ran { editors, others } = ran;
    let Editors { ports, own, closed } = editors;
    let Others {
        berths,
        clock,
        ticks,
        ticker,
    } = others;
    let clock = LaneJob {
        outside: clock,
        number,
        ends: Some(Ends { inn: ticks, out }),
        end: ticker,
    };
    RanLanes {
        lanes: Lanes {
            ports,
            own,
            berths,
            clock,
        },
        closed,
    }
}

// What a deck and its lanes left.
#[derive(Drop)]
struct RanDeck<K: Steps + Drop, P, B, C> {
    left: Closed<K>,
    lanes: Lanes<P, B, C>,
    closed: bool,
}

// Runs all lanes over a deck, and gives the deck up; where memory runs out no lane is run.
fn run_deck<
    K: Steps + Drop + Send,
    N: Naming + Send + Sync,
    P: Port + Send + Drop,
    B: Berth + Send + Drop,
    C: Clock + Send + Drop,
    R: Threads + Wait + Sync,
>(
    rt: &R,
    alloc: Global,
    deck: Deck<K, N>,
    editors: u32,
    servers: u32,
    limit: u32,
    commands: &[Vec<String>],
    lanes: Lanes<P, B, C>,
) -> RanDeck<K, P, B, C>
    requires clock { (e : Ends) × (lanes.clock.ends ≡ Some e) }
    requires over { AreOver lanes }
    ensures ran { LanesRan P.sessions P.links P.faults B.runs B.left B.faults C.given C.left limit lanes result.lanes }
    ensures through { result.closed ≡ true → AllThrough result.lanes.ports.items }
    ensures kept { LeftAs K.stands (TooMany K.stands K.allows K.passes) K.stops N.editors N.servers result.left.core
        result.left.ends.items result.left.spent result.left.done result.left.no_editor result.left.own_last result.left.why }
    ensures ready { result.left.spent ≡ false → K.spent result.left.core ≡ false }
    ensures goes { result.left.done ≡ true → result.left.spent ≡ false }
    ensures queues { map ids result.left.ends.items ≡ N.queues }
    ensures faults { Faulted N.before (K.faults result.left.core) (K.spent result.left.core) result.left.why }
{
    match Switchboard::new(alloc, deck, editors, servers) {
        Ok(board) => {
            let ran = run_board(rt, alloc, &board, limit, commands, lanes);
            RanDeck {
                left: board.close().close(),
                lanes: ran.lanes,
                closed: ran.closed,
            }
        }
        Err(deck) => RanDeck {
            left: deck.close(),
            lanes,
            closed: false,
        },
    }
}

// Whether no lane was cut off.
fn none_cut<P>(jobs: &[LaneJob<P>]) -> bool
    ensures { result ≡ true → NoneCut jobs.now }
{
    for job in jobs {
        if job.end == LaneEnd::Cut {
            return false;
        }
    }
    true
}

// Whether a port in memory got a link back.
#[tactic(auto, using(crate::proofs::Own::has_one))]
fn has_session(port: &MemPort) -> bool
    ensures some { result ≡ true → HasSession port.now }
    ensures none { result ≡ false → mem.ghosts.sessions port.now ≡ Some [] }
{
    port.session(0).is_some()
}

// Whether no lane was cut off.
fn are_whole<P, B, C>(lanes: &Lanes<P, B, C>) -> bool
    ensures { result ≡ true → LanesWhole lanes.now }
{
    none_cut(lanes.ports.as_slice())
        && none_cut(lanes.berths.as_slice())
        && lanes.own.end != LaneEnd::Cut
        && lanes.clock.end != LaneEnd::Cut
}

// How the work ended, by the fault of the last step, and by whether the work was done, whether behind closed ports, and whether the
// own port got a link back.
fn answer_of(why: Option<StepFault>, is_done: bool, is_closed: bool, has_own: bool) -> Answer
    ensures journal { result ≡ Answer.Journal → why ≡ Some StepFault.Journal }
    ensures numbers { result ≡ Answer.Numbers → why ≡ Some StepFault.Numbers }
    ensures done { is_end result ≡ true → is_done ≡ true }
    ensures closed { result ≡ Answer.PortsClosed → is_closed ≡ true }
    ensures stopped { result ≡ Answer.Stopped → has_own ≡ false }
{
    match why {
        Some(StepFault::Journal) => Answer::Journal,
        Some(StepFault::Numbers) => Answer::Numbers,
        _ if !is_done => Answer::Memory,
        _ if is_closed => Answer::PortsClosed,
        _ if has_own => Answer::Memory,
        _ => Answer::Stopped,
    }
}

// Joins the queues of the lanes, and says how the work ended.
fn finish<K: Steps + Drop, P: Drop, B: Drop, C: Drop, R: Wait>(
    rt: &R,
    left: Closed<K>,
    lanes: Lanes<P, B, C>,
    closed: bool,
) -> Served<K, P, B, C>
    requires { LanesPaired lanes left.ends.items }
    ensures core { result.core ≡ left.core }
    ensures same { SameLanes lanes result.lanes }
    ensures finished { FinishedAs lanes left.ends.items left.done left.no_editor closed left.own_last result.lanes result.answer }
    ensures journal { result.answer ≡ Answer.Journal → left.why ≡ Some StepFault.Journal }
    ensures numbers { result.answer ≡ Answer.Numbers → left.why ≡ Some StepFault.Numbers }
{
    let mut lanes = lanes;
    let Closed {
        core,
        ends,
        spent: _,
        why,
        done,
        no_editor,
        own_last,
    } = left;
    let is_whole = are_whole(&lanes);
    let none_left = settle_lanes(rt, &mut lanes, ends);
    let is_done = done && no_editor && none_left && is_whole;
    let has_own = has_session(&lanes.own.outside);
    let answer = answer_of(why, is_done, closed && own_last && has_own, has_own);
    Served {
        answer,
        core,
        lanes,
    }
}

// Serves over a deck that is named by the queues.
fn named<
    K: Steps + Drop + Send,
    N: Naming + Send + Sync,
    P: Port + Send + Drop,
    B: Berth + Send + Drop,
    C: Clock + Send + Drop,
    R: Threads + Wait + Sync,
>(
    rt: &R,
    alloc: Global,
    core: K,
    limit: u32,
    commands: &[Vec<String>],
    lanes: Lanes<P, B, C>,
    hubs: Hubs,
) -> Served<K, P, B, C>
    requires core { K.stands core [] }
    requires ready { K.spent core ≡ false }
    requires opened { OpenedLanes lanes hubs }
    requires over { AreOver lanes }
    requires clock { (e : Ends) × (lanes.clock.ends ≡ Some e) }
    requires queues { map ids hubs.ends.items ≡ N.queues }
    requires counts { (hubs.editors ≡ N.editors) × (hubs.servers ≡ N.servers) × (K.faults core ≡ N.before) }
    ensures served { ServedAs K.stands (TooMany K.stands K.allows K.passes) K.stops P.sessions P.links P.faults B.runs B.left B.faults C.given C.left limit
        result.core lanes result.lanes result.answer }
    ensures ready { is_end result.answer ≡ true → K.spent result.core ≡ false }
    ensures journal { result.answer ≡ Answer.Journal → Rose (K.faults core) (K.faults result.core) }
    ensures numbers { result.answer ≡ Answer.Numbers → K.spent result.core ≡ true }
    ensures later { K.faults core ≤ K.faults result.core }
{
    let Hubs {
        ends,
        editors,
        servers,
    } = hubs;
    let deck: Deck<K, N> = match Deck::new(alloc, core, editors, servers, ends) {
        Ok(deck) => deck,
        Err((core, _)) => {
            return Served {
                answer: Answer::Memory,
                core,
                lanes,
            };
        }
    };
    let ran = run_deck(rt, alloc, deck, editors, servers, limit, commands, lanes);
    finish(rt, ran.left, ran.lanes, ran.closed)
}

/// Runs the daemon's threads over a core: the lanes of these ports and berths and of a clock, and behind the ports, where each
/// was closed, the own link, which asks the core to stop. A start gets the words of its server's command, and none where its
/// server has no place in `commands`. A content of a frame that is read has at most `limit` bytes; a longer one is a fault of
/// its link, and above 268,435,456 bytes the core takes no body.
///
/// It returns when each lane has ended, which is where a stop is done or the core goes on no more. It answers `Stopped` where a
/// stop is done for which an editor of a port asked; `PortsClosed` where each port was closed, and the own link, the last to
/// join, found no editor there, and a stop is done; `Journal` and `Numbers` where a step of the core had this fault; and
/// `Memory` in every other case.
pub fn serve_core<
    K: Steps + Drop + Send,
    P: Port + Send + Drop,
    B: Berth + Send + Drop,
    C: Clock + Send + Drop,
    R: Threads + Wait + Sync,
>(
    rt: &R,
    alloc: Global,
    core: K,
    limit: u32,
    commands: &[Vec<String>],
    lanes: Lanes<P, B, C>,
) -> Served<K, P, B, C>
    requires core { K.stands core [] }
    requires ready { K.spent core ≡ false }
    ensures served { ServedAs K.stands (TooMany K.stands K.allows K.passes) K.stops P.sessions P.links P.faults B.runs B.left B.faults C.given C.left limit
        result.core lanes result.lanes result.answer }
    ensures ready { is_end result.answer ≡ true → K.spent result.core ≡ false }
    ensures journal { result.answer ≡ Answer.Journal → Rose (K.faults core) (K.faults result.core) }
    ensures numbers { result.answer ≡ Answer.Numbers → K.spent result.core ≡ true }
    ensures later { K.faults core ≤ K.faults result.core }
{
    let mut lanes = lanes;
    let Some(hubs) = open_lanes(alloc, &mut lanes) else {
        return Served {
            answer: Answer::Memory,
            core,
            lanes,
        };
    };
    named::<K, Brand, P, B, C, R>(rt, alloc, core, limit, commands, lanes, hubs)
}
