// The daemon's threads over a hub.
ghost use Rattle.std.specs.Prelude.{◌≡◌, ◌≤◌, false, [], IfOk};
ghost use Rattle.outside_io.specs.Faults.{Rose};
ghost use Rattle.mux_hub.specs.Hubs.{HubView, HubStands};
ghost use Rattle.mux_service.specs.Services.{AsksStop, LanesServed};

use crate::named::{Named, NamedHub};
use base_frame::frame;
use message_body::Memory;
use mux_daemon::{Answer, Lanes, Served, events_law, serve_core, served_law};
use mux_hub::Hub;
use mux_steps::Journal;
use outside_io::{Berth, Clock, MemPort, MemSink, MemSource, Port};
use std::alloc::Global;
use std::marker::Brand;
use std::sync::Wait;
use std::thread::Threads;

// The request of the daemon's own link.
const STOP: &[u8] = b"{\"jsonrpc\":\"2.0\",\"id\":1,\"method\":\"lspmux/stop\"}";

/// The port of the daemon's own link, which asks for a stop, once. It is served where each port was closed.
pub fn own_port(alloc: Global) -> Result<MemPort, Memory>
    ensures { IfOk result AsksStop }
{
    let request = frame(alloc, STOP)?;
    let bytes = Vec::from_slice(alloc, request.bytes())?;
    let source = MemSource::new(bytes, Vec::new(alloc), None);
    let sink = MemSink::new(alloc, Vec::new(alloc), None);
    let mut links = Vec::new(alloc);
    links.push((source, sink))?;
    Ok(MemPort::new(alloc, links))
}

/// What a daemon's work leaves.
#[derive(Drop)]
pub struct Left<J, P, B, C> {
    pub answer: Answer,
    pub journal: J,
    pub lanes: Lanes<P, B, C>,
}

// Serves over a hub whose settings are named.
fn serve_named<
    J: Journal + Send + Drop,
    N: Named + Send + Sync,
    P: Port + Send + Drop,
    B: Berth + Send + Drop,
    C: Clock + Send + Drop,
    R: Threads + Wait + Sync,
>(
    rt: &R,
    alloc: Global,
    hub: Hub<J>,
    content: u32,
    commands: &[Vec<String>],
    lanes: Lanes<P, B, C>,
) -> Left<J, P, B, C>
    requires settings { hub.settings ≡ N.settings }
    requires stands { HubStands J.told hub [] }
    requires ready { hub.spent ≡ false }
    ensures served { LanesServed J.told P.sessions P.links B.runs B.left B.faults C.given C.left content N.settings
        result.journal lanes result.lanes result.answer }
    ensures journal { result.answer ≡ Answer.Journal → Rose (J.faults hub.journal) (J.faults result.journal) }
    ensures later { J.faults hub.journal ≤ J.faults result.journal }
{
    served_law::<NamedHub<J, N>, P, B, C>();
    events_law::<NamedHub<J, N>, P, B, C>();
    let core = NamedHub::<J, N>::new(hub);
    let served = serve_core(rt, alloc, core, content, commands, lanes);
    let Served {
        answer,
        core,
        lanes,
    } = served;
    let hub = core.into_hub();
    hub.sessions_law();
    let journal = hub.close();
    Left {
        answer,
        journal,
        lanes,
    }
}

/// Runs a daemon over a hub that has taken no step: accepts the links of editors at the ports of these lanes, runs servers'
/// programs in their berths, and ticks by their clock, until a stop is done, each port is closed, or the hub goes on no more. A
/// start gets the words of its server, at the server's place in `commands`. A content of a frame that is read has at most
/// `content` bytes.
///
/// Where each port was closed the own link is served, which asks for a stop (`own_port`).
pub fn serve<
    J: Journal + Send + Drop,
    P: Port + Send + Drop,
    B: Berth + Send + Drop,
    C: Clock + Send + Drop,
    R: Threads + Wait + Sync,
>(
    rt: &R,
    alloc: Global,
    hub: Hub<J>,
    content: u32,
    commands: &[Vec<String>],
    lanes: Lanes<P, B, C>,
) -> Left<J, P, B, C>
    requires stands { HubStands J.told hub [] }
    requires ready { hub.spent ≡ false }
    ensures served { LanesServed J.told P.sessions P.links B.runs B.left B.faults C.given C.left content hub.settings
        result.journal lanes result.lanes result.answer }
    ensures journal { result.answer ≡ Answer.Journal → Rose (J.faults hub.journal) (J.faults result.journal) }
    ensures later { J.faults hub.journal ≤ J.faults result.journal }
{
    serve_named::<J, Brand, P, B, C, R>(rt, alloc, hub, content, commands, lanes)
}
