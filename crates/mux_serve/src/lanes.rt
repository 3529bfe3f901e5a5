// All lanes side by side, and the daemon's own link behind the ports'.
ghost use Rattle.std.specs.Prelude.{◌≡◌, Some, false, true};
ghost use Rattle.std.specs.Thread.{IsSync};
ghost use Rattle.mux_lanes.specs.declared.session.Ends.{Ends};
ghost use Rattle.mux_lanes.specs.Ticks.{TickedAs};
ghost use Rattle.outside_io.specs.contracts.memory.port.MemPortPort.TheImpl as port;
ghost use Rattle.mux_serve.specs.Jobs.{AllBerthsRan, AllPortsRan, AllThrough, PortRan};

use crate::job::{LaneJob, begin, run_berths, run_port, run_ports};
use lane_desk::Naming;
use lane_queue::LaneIn;
use mux_lanes::{LaneEnd, Meeting, Switchboard, ticker_lane};
use mux_steps::Steps;
use outside_io::{Berth, Clock, MemPort, Port};
use std::alloc::Global;
use std::sync::Wait;
use std::thread;
use std::thread::Threads;

// Whether each lane came through.
fn all_through<P>(jobs: &[LaneJob<P>]) -> bool
    ensures { result ≡ true → AllThrough jobs.now }
{
    for job in jobs {
        if job.end != LaneEnd::Through {
            return false;
        }
    }
    true
}

// Runs the lanes of the ports.
fn run_links<
    K: Steps + Drop + Send,
    N: Naming + Send + Sync,
    P: Port + Send + Drop,
    R: Threads + Wait + Sync,
>(
    rt: &R,
    alloc: Global,
    board: &Switchboard<K, N>,
    lanes: &Meeting,
    limit: u32,
    ports: Vec<LaneJob<P>>,
) -> Vec<LaneJob<P>>
    ensures { AllPortsRan P.sessions P.links P.faults limit ports.items result.items }
{
    let mut ports = ports;
    run_ports(rt, alloc, board, lanes, limit, ports.as_mut_slice());
    ports
}

/// What the lanes of editors left.
#[derive(Drop)]
pub struct Editors<P> {
    pub ports: Vec<LaneJob<P>>,
    pub own: LaneJob<MemPort>,
    /// Each port was closed, and the own lane was run then.
    pub closed: bool,
}

// Runs the lanes of the ports, and behind them, where each of them came through, the own one.
fn run_editors<
    K: Steps + Drop + Send,
    N: Naming + Send + Sync,
    P: Port + Send + Drop,
    R: Threads + Wait + Sync,
>(
    rt: &R,
    alloc: Global,
    board: &Switchboard<K, N>,
    lanes: &Meeting,
    limit: u32,
    ports: Vec<LaneJob<P>>,
    own: LaneJob<MemPort>,
) -> Editors<P>
    ensures ports { AllPortsRan P.sessions P.links P.faults limit ports.items result.ports.items }
    ensures through { result.closed ≡ true → AllThrough result.ports.items }
    ensures own { (e : Ends) → result.closed ≡ true → own.ends ≡ Some e
        → PortRan port.ghosts.sessions port.ghosts.links port.ghosts.faults limit own result.own e }
    ensures kept { result.closed ≡ false → result.own ≡ own }
{
    let mut own = own;
    let ports = run_links(rt, alloc, board, lanes, limit, ports);
    if !all_through(ports.as_slice()) {
        return Editors {
            ports,
            own,
            closed: false,
        };
    }
    run_port(rt, alloc, board, limit, &mut own);
    Editors {
        ports,
        own,
        closed: true,
    }
}

/// What the lanes of servers and of the clock left.
#[derive(Drop)]
pub struct Others<B, C> {
    pub berths: Vec<LaneJob<B>>,
    pub clock: C,
    pub ticks: LaneIn,
    /// How the clock's lane ended.
    pub ticker: LaneEnd,
}

// What the lane of the clock leaves.
#[derive(Drop)]
struct Ticked<C> {
    clock: C,
    ticks: LaneIn,
    end: LaneEnd,
}

// Runs the lane of a clock.
fn run_clock<K: Steps + Drop, N: Naming, C: Clock + Drop, R: Wait>(
    rt: &R,
    board: &Switchboard<K, N>,
    lanes: &Meeting,
    clock: C,
    ticks: LaneIn,
) -> Ticked<C>
    ensures queue { result.ticks.queue ≡ ticks.queue }
    ensures ticked { TickedAs (C.given clock) (C.given result.clock) (C.left clock) (C.left result.clock) ticks.pushed result.ticks.pushed result.end }
{
    let mut clock = clock;
    let mut ticks = ticks;
    begin(rt, board, lanes);
    let end = ticker_lane(rt, board, &mut clock, &mut ticks);
    Ticked { clock, ticks, end }
}

// Runs the lanes of the berths.
fn run_servers<
    K: Steps + Drop + Send,
    N: Naming + Send + Sync,
    B: Berth + Send + Drop,
    R: Threads + Wait + Sync,
>(
    rt: &R,
    alloc: Global,
    board: &Switchboard<K, N>,
    lanes: &Meeting,
    limit: u32,
    commands: &[Vec<String>],
    berths: Vec<LaneJob<B>>,
) -> Vec<LaneJob<B>>
    ensures { AllBerthsRan B.runs B.left B.faults limit berths.items result.items }
{
    let mut berths = berths;
    run_berths(
        rt,
        alloc,
        board,
        lanes,
        limit,
        commands,
        berths.as_mut_slice(),
    );
    berths
}

// Runs the lanes of the berths and of the clock.
fn run_others<
    K: Steps + Drop + Send,
    N: Naming + Send + Sync,
    B: Berth + Send + Drop,
    C: Clock + Send + Drop,
    R: Threads + Wait + Sync,
>(
    rt: &R,
    alloc: Global,
    board: &Switchboard<K, N>,
    lanes: &Meeting,
    limit: u32,
    commands: &[Vec<String>],
    berths: Vec<LaneJob<B>>,
    clock: C,
    ticks: LaneIn,
) -> Others<B, C>
    ensures berths { AllBerthsRan B.runs B.left B.faults limit berths.items result.berths.items }
    ensures queue { result.ticks.queue ≡ ticks.queue }
    ensures ticked { TickedAs (C.given clock) (C.given result.clock) (C.left clock) (C.left result.clock) ticks.pushed result.ticks.pushed result.ticker }
{
    let (berths, ticked) = thread::join(
        rt,
        move || -> Vec<LaneJob<B>>
            requires { IsSync R.row }
            ensures { AllBerthsRan B.runs B.left B.faults limit berths.items result.items }
        { run_servers(rt, alloc, board, lanes, limit, commands, berths) },
        move || -> Ticked<C>
            ensures queue { result.ticks.queue ≡ ticks.queue }
            ensures ticked { TickedAs (C.given clock) (C.given result.clock) (C.left clock) (C.left result.clock) ticks.pushed result.ticks.pushed result.end }
        { run_clock(rt, board, lanes, clock, ticks) },
    );
    let Ticked { clock, ticks, end } = ticked;
    Others {
        berths,
        clock,
        ticks,
        ticker: end,
    }
}

/// What all lanes left.
#[derive(Drop)]
pub struct Ran<P, B, C> {
    pub editors: Editors<P>,
    pub others: Others<B, C>,
}

/// Runs all lanes side by side, each in a thread of its own: of these ports, of these berths, and of the clock. Where each
/// port was closed, the own lane is run behind those of the ports.
///
/// The own lane has the number behind those of the ports. Where the system can't make all threads, the core goes on no more.
pub fn run_lanes<
    K: Steps + Drop + Send,
    N: Naming + Send + Sync,
    P: Port + Send + Drop,
    B: Berth + Send + Drop,
    C: Clock + Send + Drop,
    R: Threads + Wait + Sync,
>(
    rt: &R,
    alloc: Global,
    board: &Switchboard<K, N>,
    limit: u32,
    commands: &[Vec<String>],
    ports: Vec<LaneJob<P>>,
    own: LaneJob<MemPort>,
    berths: Vec<LaneJob<B>>,
    clock: C,
    ticks: LaneIn,
) -> Ran<P, B, C>
    ensures ports { AllPortsRan P.sessions P.links P.faults limit ports.items result.editors.ports.items }
    ensures through { result.editors.closed ≡ true → AllThrough result.editors.ports.items }
    ensures own { (e : Ends) → result.editors.closed ≡ true → own.ends ≡ Some e
        → PortRan port.ghosts.sessions port.ghosts.links port.ghosts.faults limit own result.editors.own e }
    ensures kept { result.editors.closed ≡ false → result.editors.own ≡ own }
    ensures berths { AllBerthsRan B.runs B.left B.faults limit berths.items result.others.berths.items }
    ensures queue { result.others.ticks.queue ≡ ticks.queue }
    ensures ticked { TickedAs (C.given clock) (C.given result.others.clock) (C.left clock) (C.left result.others.clock)
        ticks.pushed result.others.ticks.pushed result.others.ticker }
{
    let lanes = Meeting::new(
        (ports.len() as u64)
            .saturating_add(berths.len() as u64)
            .saturating_add(1),
    );
    let lanes = &lanes;
    let (editors, others) = thread::join(
        rt,
        move || -> Editors<P>
            requires { IsSync R.row }
            ensures ports { AllPortsRan P.sessions P.links P.faults limit ports.items result.ports.items }
            ensures through { result.closed ≡ true → AllThrough result.ports.items }
            ensures own { (e : Ends) → result.closed ≡ true → own.ends ≡ Some e
                → PortRan port.ghosts.sessions port.ghosts.links port.ghosts.faults limit own result.own e }
            ensures kept { result.closed ≡ false → result.own ≡ own }
        { run_editors(rt, alloc, board, lanes, limit, ports, own) },
        move || -> Others<B, C>
            ensures berths { AllBerthsRan B.runs B.left B.faults limit berths.items result.berths.items }
            ensures queue { result.ticks.queue ≡ ticks.queue }
            ensures ticked { TickedAs (C.given clock) (C.given result.clock) (C.left clock) (C.left result.clock)
                ticks.pushed result.ticks.pushed result.ticker }
        {
            run_others(
                rt, alloc, board, lanes, limit, commands, berths, clock, ticks,
            )
        },
    );
    Ran { editors, others }
}
