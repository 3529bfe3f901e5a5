// The daemon of some settings.
ghost use Rattle.std.specs.Prelude.{◌≡◌, ◌≤◌, [], IfOk};
ghost use Rattle.mux_hub.specs.Hubs.{Tells};
ghost use Rattle.serve_program.specs.Daemons.{CameOfPorts, CameOfSettings, LanesOf, outsides};

use crate::fault::{ServeFault, fault_of};
use message_body::Memory;
use mux_config::Config;
use mux_service::{LaneJob, Lanes, own_port, serve};
use mux_steps::Journal;
use outside_io::{Berth, Clock, Door, DoorFault, Port};
use settled_hub::{Settled, hub_of};
use std::alloc::Global;
use std::sync::Wait;
use std::thread::Threads;

/// What a daemon leaves.
#[derive(Drop)]
pub struct Ended<P, B, C, J> {
    pub result: Result<(), ServeFault>,
    pub journal: J,
    /// The lanes of its ports, of its own link, of berths and of the clock; none where it didn't begin to serve.
    pub lanes: Option<Lanes<P, B, C>>,
}

// A lane for each of these, in their order.
fn jobs_of<P: Drop>(alloc: Global, served: Vec<P>) -> Result<Vec<LaneJob<P>>, Memory>
    ensures { IfOk result (λ jobs. outsides jobs.items ≡ served.items) }
{
    let mut jobs = Vec::new(alloc);
    for one in served {
        jobs.push(LaneJob::new(one))?;
    }
    Ok(jobs)
}

// The lanes of a daemon.
fn lanes_of<P: Port + Drop, B: Berth + Drop, C: Clock + Drop>(
    alloc: Global,
    ports: Vec<P>,
    berths: Vec<B>,
    clock: C,
) -> Result<Lanes<P, B, C>, Memory>
    ensures { IfOk result (LanesOf ports.items berths.items clock) }
{
    Ok(Lanes {
        ports: jobs_of(alloc, ports)?,
        own: LaneJob::new(own_port(alloc)?),
        berths: jobs_of(alloc, berths)?,
        clock: LaneJob::new(clock),
    })
}

// Serves at these ports.
fn serve_ports<
    R: Threads + Wait + Sync,
    P: Port + Send + Drop,
    B: Berth + Send + Drop,
    C: Clock + Send + Drop,
    J: Journal + Send + Drop,
>(
    rt: &R,
    alloc: Global,
    config: Config,
    ports: Vec<P>,
    berths: Vec<B>,
    clock: C,
    journal: J,
) -> Ended<P, B, C, J>
    requires { Tells (J.told journal) [] }
    ensures came { CameOfPorts J.told J.faults P.sessions P.links B.runs B.left B.faults C.given C.left config journal result.journal
        ports.items berths.items clock result.lanes result.result }
    ensures later { J.faults journal ≤ J.faults result.journal }
{
    let Ok(lanes) = lanes_of(alloc, ports, berths, clock) else {
        return Ended {
            result: Err(ServeFault::Memory),
            journal,
            lanes: None,
        };
    };
    let settled = match hub_of(alloc, config, journal) {
        Ok(settled) => settled,
        Err(journal) => {
            return Ended {
                result: Err(ServeFault::Memory),
                journal,
                lanes: None,
            };
        }
    };
    let Settled {
        hub,
        content,
        commands,
    } = settled;
    let left = serve(rt, alloc, hub, content, commands.as_slice(), lanes);
    Ended {
        result: fault_of(left.answer),
        journal: left.journal,
        lanes: Some(left.lanes),
    }
}

/// Runs the daemon of these settings: opens their place for their number of links, and serves at all ports that the door gave, in
/// these berths and by this clock, until a stop is done, each port is closed, or a fault.
pub fn serve_by<
    R: Threads + Wait + Sync,
    D: Door,
    B: Berth + Send + Drop,
    C: Clock + Send + Drop,
    J: Journal + Send + Drop,
>(
    rt: &R,
    alloc: Global,
    config: Config,
    door: &mut D,
    berths: Vec<B>,
    clock: C,
    journal: J,
) -> Ended<D::Port, B, C, J>
    requires { Tells (J.told journal) [] }
    ensures came { CameOfSettings D.calls D.left D.faults J.told J.faults D.Port.Port.sessions D.Port.Port.links D.Port.Port.faults B.runs B.left B.faults
        C.given C.left config door.old door.new journal result.journal berths.items clock result.lanes result.result }
    ensures later { J.faults journal ≤ J.faults result.journal }
{
    let mut ports = Vec::new(alloc);
    match door.open(&config.place, config.links, &mut ports) {
        Ok(()) => serve_ports(rt, alloc, config, ports, berths, clock, journal),
        Err(DoorFault::Failed) => Ended {
            result: Err(ServeFault::Door),
            journal,
            lanes: None,
        },
        Err(DoorFault::Memory) => Ended {
            result: Err(ServeFault::Memory),
            journal,
            lanes: None,
        },
    }
}
