// The lane of the clock.
ghost use Rattle.std.specs.Prelude.{◌≡◌};
ghost use Rattle.lane_desk.specs.Stops.{WasDone};
ghost use Rattle.mux_lanes.specs.Ticks.{TickedAs};

use crate::lane_end::LaneEnd;
use crate::post::post;
use crate::switchboard::Switchboard;
use lane_desk::Naming;
use lane_lists::{LaneName, Posted};
use lane_queue::LaneIn;
use mux_steps::Steps;
use outside_io::Clock;
use std::sync::Wait;

/// Posts a tick for each moment of a clock, until no moment follows, a stop is done, or the core goes on no
/// more.
pub fn ticker_lane<K: Steps + Drop, N: Naming, C: Clock, R: Wait>(
    rt: &R,
    board: &Switchboard<K, N>,
    clock: &mut C,
    inn: &mut LaneIn,
) -> LaneEnd
    ensures queue { inn.new.queue ≡ inn.old.queue }
    ensures ticked { TickedAs (C.given clock.old) (C.given clock.new) (C.left clock.old) (C.left clock.new) inn.old.pushed inn.new.pushed result }
    ensures stopped { result ≡ LaneEnd.Stopped → WasDone K.stands K.stops N.editors N.servers }
{
    for _ in rt.forever() {
        let Some(moment) = clock.next() else {
            return LaneEnd::Through;
        };
        if !post(rt, board, inn, Posted::Tick(moment)) {
            return LaneEnd::Cut;
        }
        if let Some(end) = board.look(rt, LaneName::Ticker) {
            return end;
        }
    }
    unreachable!()
}
