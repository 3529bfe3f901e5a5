// The lane of a port's links.
ghost use Rattle.std.specs.Prelude.{◌≡◌, ◌+◌, ◌<◌, ◌≤◌, ◌⊎◌, [], ◌∷◌, IfOk, OnOk, OnErr, IsErrOf, IfSome};
ghost use Rattle.outside_io.specs.Faults.{Rose};
ghost use Rattle.outside_io.specs.Sessions.{session_of};
ghost use Rattle.outside_io.specs.Told.{append_to, prepend_to};
ghost use Rattle.lane_desk.specs.Stops.{WasDone};
ghost use Rattle.mux_lanes.specs.Lanes.{CutLink, IsSameLane, RanAs, Takes, WholeLink, standing};

use crate::lane_end::{Lane, LaneEnd, Served};
use crate::post::post;
use crate::session::{Ends, Link, Ran, is_whole, run_session};
use crate::switchboard::Switchboard;
use lane_desk::Naming;
use lane_lists::{LaneName, Posted};
use mux_steps::Steps;
use outside_io::{Arrival, Port};
use std::alloc::Global;
use std::sync::Wait;
use std::thread::Threads;

// The next link of a port, or how none came.
fn next_link<P: Port>(port: &mut P) -> Result<Link<P::In, P::Out>, Arrival>
    ensures link { IfOk result (λ link. P.links port.old ≡ prepend_to
        (session_of P.In.Source.taken P.In.Source.left P.In.Source.faults P.Out.Sink.written P.Out.Sink.faults link.source link.sink ∷ []) (P.links port.new)) }
    ensures held { OnOk result (P.held port.new ≡ P.held port.old + 1) }
    ensures none { OnErr result (P.links port.new ≡ P.links port.old) }
    ensures closed { IsErrOf result Arrival.Closed → IfSome (P.links port.old) (λ left. left ≡ []) ⊎ Rose (P.faults port.old) (P.faults port.new) }
    ensures sessions { P.sessions port.new ≡ P.sessions port.old }
    ensures later { P.faults port.old ≤ P.faults port.new }
{
    let mut source = None;
    let mut sink = None;
    match port.accept(&mut source, &mut sink) {
        Arrival::Link => {}
        none => return Err(none),
    }
    match (source, sink) {
        (Some(source), Some(sink)) => Ok(Link { source, sink }),
        _ => unreachable!(),
    }
}

// Hands a link back.
fn hang_up<P: Port>(port: &mut P, link: Link<P::In, P::Out>)
    requires { 0 < P.held port.old }
    ensures session { P.sessions port.new
        ≡ append_to (P.sessions port.old)
        (session_of P.In.Source.taken P.In.Source.left P.In.Source.faults P.Out.Sink.written P.Out.Sink.faults link.source link.sink ∷ []) }
    ensures links { P.links port.new ≡ P.links port.old }
    ensures later { P.faults port.old ≤ P.faults port.new }
{
    let mut source = Some(link.source);
    let mut sink = Some(link.sink);
    port.hang_up(&mut source, &mut sink);
}

// Runs the session of a link that came, and hands the link back.
fn serve_link<K: Steps + Drop + Send, N: Naming + Send + Sync, P: Port, R: Threads + Wait + Sync>(
    rt: &R,
    alloc: Global,
    board: &Switchboard<K, N>,
    lane: LaneName,
    limit: u32,
    port: &mut P,
    link: Link<P::In, P::Out>,
    ends: Ends,
) -> Served
    requires { 0 < P.held port.old }
    ensures lane { IsSameLane ends result.ends }
    ensures turn { Takes (WholeLink Posted.Link limit) (CutLink Posted.Link limit)
        (record (standing P.sessions P.links P.faults port.old ends) {
          left = prepend_to
              (session_of P.In.Source.taken P.In.Source.left P.In.Source.faults P.Out.Sink.written P.Out.Sink.faults link.source link.sink ∷ [])
              (P.links port.old);
        }) (standing P.sessions P.links P.faults port.new result.ends) result.is_whole }
{
    let mut ends = ends;
    if !post(rt, board, &mut ends.inn, Posted::Link) {
        hang_up(port, link);
        return Served {
            ends,
            is_whole: false,
        };
    }
    let ran = run_session(rt, alloc, board, lane, limit, link, ends);
    let Ran {
        link,
        ends,
        stop,
        wrote,
    } = ran;
    hang_up(port, link);
    let is_whole = is_whole(stop, &wrote);
    Served { ends, is_whole }
}

/// Accepts the links of a port one after the other, and runs the session of each: posts its link, then the contents of the
/// frames that it reads, of at most `limit` bytes, and how it ended, and writes what is ordered meanwhile.
pub fn editor_lane<
    K: Steps + Drop + Send,
    N: Naming + Send + Sync,
    P: Port,
    R: Threads + Wait + Sync,
>(
    rt: &R,
    alloc: Global,
    board: &Switchboard<K, N>,
    lane: u32,
    limit: u32,
    port: &mut P,
    ends: Ends,
) -> Lane
    ensures lane { IsSameLane ends result.ends }
    ensures ran { RanAs (WholeLink Posted.Link limit) (CutLink Posted.Link limit) (standing P.sessions P.links P.faults port.old ends)
        (standing P.sessions P.links P.faults port.new result.ends) result.end }
    ensures closed { result.end ≡ LaneEnd.Through → IfSome (P.links port.new) (λ left. left ≡ []) ⊎ Rose (P.faults port.old) (P.faults port.new) }
    ensures stopped { result.end ≡ LaneEnd.Stopped → WasDone K.stands K.stops N.editors N.servers }
{
    let name = LaneName::Editor(lane);
    let mut ends = ends;
    for _ in rt.forever() {
        if let Some(end) = board.look(rt, name) {
            return Lane { ends, end };
        }
        match next_link(port) {
            Ok(link) => {
                let served = serve_link(rt, alloc, board, name, limit, port, link, ends);
                ends = served.ends;
                if !served.is_whole {
                    board.fail(rt);
                    return Lane {
                        ends,
                        end: LaneEnd::Cut,
                    };
                }
            }
            Err(Arrival::Closed) => {
                return Lane {
                    ends,
                    end: LaneEnd::Through,
                };
            }
            Err(_) => {}
        }
    }
    unreachable!()
}
