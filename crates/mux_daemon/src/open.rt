// The queues that lanes begin with.
ghost use Rattle.std.specs.Prelude.{◌≡◌, ◌+◌, [], IfSome, OnOk, Some, length};
ghost use Rattle.mux_lanes.specs.declared.session.Ends.{Ends};
ghost use Rattle.mux_daemon.specs.Rans.{AreOver};
ghost use Rattle.mux_daemon.specs.Opens.{AreOpened, Opened, OpenedLanes, SameLanes, SameOutsides};

use lane_queue::{HubEnds, Lane};
use message_body::Memory;
use mux_lanes::{Ends, LaneEnd};
use mux_serve::LaneJob;
use outside_io::MemPort;
use std::alloc::Global;

/// All lanes of a daemon: of its ports, of its own link, of its berths, and of its clock.
#[derive(Drop)]
pub struct Lanes<P, B, C> {
    pub ports: Vec<LaneJob<P>>,
    /// The link that asks the core to stop, where each port was closed.
    pub own: LaneJob<MemPort>,
    pub berths: Vec<LaneJob<B>>,
    pub clock: LaneJob<C>,
}

// Gives a lane its number and the ends of new queues, and puts the other ends behind those of the lanes before.
fn open_job<P: Drop>(
    alloc: Global,
    job: &mut LaneJob<P>,
    number: u32,
    hubs: &mut Vec<HubEnds>,
) -> Result<(), Memory>
    ensures outside { job.new.outside ≡ job.old.outside }
    ensures opened { OnOk result (Opened hubs.old.items hubs.new.items job.new) }
{
    let (inn, out, hub) = Lane::new(alloc)?;
    hubs.push(hub)?;
    job.number = number;
    job.ends = Some(Ends { inn, out });
    job.end = LaneEnd::Over;
    Ok(())
}

// The same for each of these lanes, in their order; none where memory runs out, or they are too many. Their number.
fn open_jobs<P: Drop>(
    alloc: Global,
    jobs: &mut Vec<LaneJob<P>>,
    hubs: &mut Vec<HubEnds>,
) -> Option<u32>
    ensures same { SameOutsides jobs.old.items jobs.new.items }
    ensures opened { IfSome result (λ count. (count ≡ length jobs.old.items) × AreOpened count hubs.old.items hubs.new.items jobs.new.items) }
{
    let count = jobs.len();
    let mut number: u32 = 0;
    for at in 0..count {
        if open_job(alloc, &mut jobs[at], number, hubs).is_err() {
            return None;
        }
        let Some(next) = number.checked_add(1) else {
            return None;
        };
        number = next;
    }
    Some(number)
}

/// The ends of all lanes that the deck holds, and how many lanes of editors and of servers there are.
#[derive(Drop)]
pub struct Hubs {
    pub ends: Vec<HubEnds>,
    pub editors: u32,
    pub servers: u32,
}

/// Opens all lanes; none where memory runs out, or they are too many.
pub fn open_lanes<P: Drop, B: Drop, C: Drop>(
    alloc: Global,
    lanes: &mut Lanes<P, B, C>,
) -> Option<Hubs>
    ensures same { SameLanes lanes.old lanes.new }
    ensures opened { IfSome result (λ hubs. OpenedLanes lanes.new hubs) }
    ensures over { IfSome result (λ hubs. AreOver lanes.new) }
    ensures clock { IfSome result (λ hubs. (e : Ends) × (lanes.new.clock.ends ≡ Some e)) }
{
    let mut ends = Vec::new(alloc);
    let Some(ports) = open_jobs(alloc, &mut lanes.ports, &mut ends) else {
        return None;
    };
    if open_job(alloc, &mut lanes.own, ports, &mut ends).is_err() {
        return None;
    }
    let Some(editors) = ports.checked_add(1) else {
        return None;
    };
    let Some(servers) = open_jobs(alloc, &mut lanes.berths, &mut ends) else {
        return None;
    };
    if open_job(alloc, &mut lanes.clock, 0, &mut ends).is_err() {
        return None;
    }
    Some(Hubs {
        ends,
        editors,
        servers,
    })
}
