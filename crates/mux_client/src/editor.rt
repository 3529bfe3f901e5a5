// An editor's end: its input goes to the daemon's link, and the link to its output.
ghost use Rattle.std.specs.Prelude.{◌≡◌, ◌≤◌, ℕ, List, None, option_map};
ghost use Rattle.outside_io.specs.Doors.{address_of};
ghost use Rattle.outside_io.specs.Faults.{Rose};
ghost use Rattle.outside_io.specs.Sessions.{Session, session_of};
ghost use Rattle.mux_client.specs.Complete.{IsDone, OffersLink, SaysOpened, Stays};
ghost use Rattle.mux_client.specs.Dials.{AtPort, Called, Dialled, door_state, port_state};
ghost use Rattle.mux_client.specs.Runs.{Carried};

use crate::buffer::Buffer;
use crate::copies::copy_both;
use crate::dialling::{Link, NoLink, dial, hang_up, take_link};
use crate::fault::ClientFault;
use crate::handshake::open_server;
use mux_config::Config;
use outside_io::{Door, Port, Sink, Source};
use std::alloc::Global;
use std::sync::Wait;
use std::thread::Threads;

// Says which server is meant, where one is named, and copies both ways.
#[tactic(auto, using(crate::proofs::Carrying::carried_none, crate::proofs::Carrying::carried_unopened, crate::proofs::Carrying::carried_plain, crate::proofs::Carrying::carried_opened))]
fn carry<
    R: Threads + Wait + Sync,
    S: Source + Send + Drop,
    K: Sink + Send + Drop,
    I: Source + Send + Drop,
    O: Sink + Send + Drop,
>(
    rt: &R,
    alloc: Global,
    limit: u32,
    server: Option<&str>,
    link: &mut Link<S, K>,
    input: &mut I,
    output: &mut O,
) -> Result<(), ClientFault>
    requires { limit ≤ 268435456 }
    ensures { Carried limit (option_map (λ name. name.now) server.entry)
        (session_of I.taken I.left I.faults O.written O.faults input.old output.old)
        (session_of I.taken I.left I.faults O.written O.faults input.new output.new)
        (session_of S.taken S.left S.faults K.written K.faults link.old.source link.old.sink)
        (session_of S.taken S.left S.faults K.written K.faults link.new.source link.new.sink) result }
{
    let Ok(mut typed) = Buffer::new(alloc) else {
        return Err(ClientFault::Memory);
    };
    let Ok(mut heard) = Buffer::new(alloc) else {
        return Err(ClientFault::Memory);
    };
    match server {
        None => copy_both(rt, &mut typed, &mut heard, link, input, output),
        Some(name) => {
            open_server(alloc, limit, name, &mut link.source, &mut link.sink)?;
            copy_both(rt, &mut typed, &mut heard, link, input, output)
        }
    }
}

// Takes a port's link, carries over it, and hands it back.
#[tactic(auto, using(crate::proofs::Dials::at_none, crate::proofs::Dials::at_link))]
fn carry_at<R: Threads + Wait + Sync, P: Port, I: Source + Send + Drop, O: Sink + Send + Drop>(
    rt: &R,
    alloc: Global,
    limit: u32,
    server: Option<&str>,
    port: &mut P,
    input: &mut I,
    output: &mut O,
) -> Result<(), ClientFault>
    requires { limit ≤ 268435456 }
    ensures { AtPort (port_state P.sessions P.links P.held P.faults port.old) (port_state P.sessions P.links P.held P.faults port.new)
        (session_of I.taken I.left I.faults O.written O.faults input.new output.new
        ≡ session_of I.taken I.left I.faults O.written O.faults input.old output.old)
        (Carried limit (option_map (λ name. name.now) server.entry) (session_of I.taken I.left I.faults O.written O.faults input.old output.old)
        (session_of I.taken I.left I.faults O.written O.faults input.new output.new)) result }
{
    let mut link = match take_link(port) {
        Ok(link) => link,
        Err(NoLink) => return Err(ClientFault::Answer),
    };
    let carried = carry(rt, alloc, limit, server, &mut link, input, output);
    hang_up(port, link);
    carried
}

// Dials a place, and carries over its link. The port is left there.
#[tactic(auto, using(crate::proofs::Dials::called_so, crate::proofs::Dials::dialled_none, crate::proofs::Dials::dialled_given))]
fn carry_from<R: Threads + Wait + Sync, D: Door, I: Source + Send + Drop, O: Sink + Send + Drop>(
    rt: &R,
    alloc: Global,
    config: &Config,
    server: Option<&str>,
    door: &mut D,
    port: &mut Option<D::Port>,
    input: &mut I,
    output: &mut O,
) -> Result<(), ClientFault>
    requires { port.old ≡ None }
    ensures called { Called (address_of config.now.place) (D.calls door.old) (D.calls door.new) result }
    ensures ran { Dialled (door_state D.left D.faults door.old) (door_state D.left D.faults door.new)
        (option_map (port_state D.Port.Port.sessions D.Port.Port.links D.Port.Port.held D.Port.Port.faults) port.new)
        (session_of I.taken I.left I.faults O.written O.faults input.new output.new
        ≡ session_of I.taken I.left I.faults O.written O.faults input.old output.old)
        (Carried config.now.content (option_map (λ name. name.now) server.entry)
        (session_of I.taken I.left I.faults O.written O.faults input.old output.old)
        (session_of I.taken I.left I.faults O.written O.faults input.new output.new)) result }
{
    dial(door, &config.place, port)?;
    match port {
        Some(port) => carry_at(rt, alloc, config.content, server, port, input, output),
        None => unreachable!(),
    }
}

/// Joins an editor to the daemon: dials the settings' place, names the server that is meant, where one is, and copies the input
/// to the link and the link to the output, side by side, until both have ended. The dialled port is left in `port`, and has its
/// link back. Ok says that the input and the link ended.
///
/// With a server's name the request `lspmux/open` is sent first, and nothing is read of the input before the link's first
/// frame, which is to be its result. The copy of the input closes the link as it ends, so that the other copy ends too where a
/// closed link's reads end; where the link ends first, the input's copy goes on until the input ends. Each copy has a buffer of
/// 65,536 bytes.
pub fn client<R: Threads + Wait + Sync, D: Door, I: Source + Send + Drop, O: Sink + Send + Drop>(
    rt: &R,
    alloc: Global,
    config: &Config,
    server: Option<&str>,
    door: &mut D,
    port: &mut Option<D::Port>,
    input: &mut I,
    output: &mut O,
) -> Result<(), ClientFault>
    requires { port.old ≡ None }
    ensures called { Called (address_of config.now.place) (D.calls door.old) (D.calls door.new) result }
    ensures ran { Dialled (door_state D.left D.faults door.old) (door_state D.left D.faults door.new)
        (option_map (port_state D.Port.Port.sessions D.Port.Port.links D.Port.Port.held D.Port.Port.faults) port.new)
        (session_of I.taken I.left I.faults O.written O.faults input.new output.new
        ≡ session_of I.taken I.left I.faults O.written O.faults input.old output.old)
        (Carried config.now.content (option_map (λ name. name.now) server.entry)
        (session_of I.taken I.left I.faults O.written O.faults input.old output.old)
        (session_of I.taken I.left I.faults O.written O.faults input.new output.new)) result }
    ensures complete { (link : Session) (bytes : List ℕ) → OffersLink (door_state D.left D.faults door.old) link bytes
        → SaysOpened config.now.content (option_map (λ name. name.now) server.entry) bytes → ¬ Rose (D.faults door.old) (D.faults door.new)
        → ¬ Rose (I.faults input.old) (I.faults input.new) → ¬ Rose (O.faults output.old) (O.faults output.new)
        → Stays (option_map (port_state D.Port.Port.sessions D.Port.Port.links D.Port.Port.held D.Port.Port.faults) port.new) link → IsDone result }
{
    carry_from(rt, alloc, config, server, door, port, input, output)
}
