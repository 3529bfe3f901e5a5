// The queues of lanes, joined behind them.
ghost use Rattle.std.specs.Prelude.{◌≡◌, ◌+◌, ◌≤◌, [], IfSome, OnOk, Some, length, slice_get, ℕ, true};
ghost use Rattle.mux_lanes.specs.declared.session.Ends.{Ends};
ghost use Rattle.lane_queue.specs.Ends.{HubSide};
ghost use Rattle.mux_daemon.specs.Opens.{IsPair, SameLanes, SameOutsides};
ghost use Rattle.mux_daemon.specs.Settles.{AreSettled, ArePairs, IsSettled, LanesPaired, LanesSettled};

use crate::open::Lanes;
use lane_queue::{HubEnds, settle};
use mux_serve::LaneJob;
use std::sync::Wait;

// Joins the queues of a lane. Whether no order is left there.
fn settle_job<P: Drop, R: Wait>(rt: &R, job: &mut LaneJob<P>, hub: HubEnds) -> bool
    requires { (e : Ends) → job.old.ends ≡ Some e → IsPair e hub }
    ensures same { job.new.outside ≡ job.old.outside }
    ensures settled { (e : Ends) → job.old.ends ≡ Some e → IsSettled e hub result }
{
    let Some(ends) = job.ends.take() else {
        return false;
    };
    settle(rt, ends.inn, ends.out, hub).orders_left() == 0
}

// The same of a lane whose ends are the last ones.
fn settle_last<P: Drop, R: Wait>(rt: &R, job: &mut LaneJob<P>, hubs: &mut Vec<HubEnds>) -> bool
    requires { (e : Ends) (hub : HubSide) (i : ℕ) → job.old.ends ≡ Some e → i + 1 ≡ length hubs.old.items
        → slice_get hubs.old.items i ≡ Some hub → IsPair e hub }
    ensures same { job.new.outside ≡ job.old.outside }
    ensures settled { (e : Ends) (hub : HubSide) (i : ℕ) → job.old.ends ≡ Some e → i + 1 ≡ length hubs.old.items
        → slice_get hubs.old.items i ≡ Some hub → IsSettled e hub result }
    ensures left { 1 ≤ length hubs.old.items → length hubs.new.items + 1 ≡ length hubs.old.items }
    ensures front { (i : ℕ) (hub : HubSide) → slice_get hubs.new.items i ≡ Some hub → slice_get hubs.old.items i ≡ Some hub }
{
    let Some(hub) = hubs.pop() else {
        return false;
    };
    settle_job(rt, job, hub)
}

// The same of these lanes, whose ends are the last ones.
fn settle_jobs<P: Drop, R: Wait>(
    rt: &R,
    jobs: &mut Vec<LaneJob<P>>,
    hubs: &mut Vec<HubEnds>,
) -> bool
    requires pairs { ArePairs jobs.old.items hubs.old.items }
    requires enough { length jobs.old.items ≤ length hubs.old.items }
    ensures same { SameOutsides jobs.old.items jobs.new.items }
    ensures settled { AreSettled jobs.old.items hubs.old.items result }
    ensures left { length hubs.new.items + length jobs.old.items ≡ length hubs.old.items }
    ensures front { (i : ℕ) (hub : HubSide) → slice_get hubs.new.items i ≡ Some hub → slice_get hubs.old.items i ≡ Some hub }
{
    let count = jobs.len();
    let mut none_left = true;
    for done in 0..count {
        let is_empty = settle_last(rt, &mut jobs[count - 1 - done], hubs);
        none_left = none_left && is_empty;
    }
    none_left
}

/// Joins the queues of all lanes. Whether no order is left in any.
pub fn settle_lanes<P: Drop, B: Drop, C: Drop, R: Wait>(
    rt: &R,
    lanes: &mut Lanes<P, B, C>,
    hubs: Vec<HubEnds>,
) -> bool
    requires { LanesPaired lanes.old hubs.items }
    ensures same { SameLanes lanes.old lanes.new }
    ensures settled { LanesSettled lanes.old hubs.items result }
{
    let mut hubs = hubs;
    let clock = settle_last(rt, &mut lanes.clock, &mut hubs);
    let berths = settle_jobs(rt, &mut lanes.berths, &mut hubs);
    let own = settle_last(rt, &mut lanes.own, &mut hubs);
    let ports = settle_jobs(rt, &mut lanes.ports, &mut hubs);
    clock && berths && own && ports
}
