// A door to places on this machine.
ghost use Rattle.std.specs.Prelude.{◌≡◌, ℕ, ◌≤◌, List, ◌++◌, length, All, IfOk, OnErr, Option, None};
ghost use Rattle.outside_io.specs.Doors.{Call, PortTold};
ghost use Rattle.outside_io.specs.Faults.{Rose};

use crate::link_over::LinkOver;
use crate::listener::Listener;
use crate::notes::Notes;
use crate::place;
use crate::place::Opened;
use crate::port::RealPort;
use crate::reason::words_on;
use crate::socket_file::SocketFile;
use log::warn;
use outside_io::{Door, DoorFault, Place, Port};
use std::alloc::Global;
use std::io;
use std::io::ErrorKind;
use std::time::Duration;

// How many milliseconds an accept waits for a link.
const ACCEPT_MILLIS: u64 = 200;

/// A door to Unix sockets, to TCP ports of the loopback address, and to the standard input and output, which are one link.
///
/// A socket's file is its user's alone, and a lock lies beside it, in the file of its name and `.lock`. Where the file is
/// there and nobody listens it is removed first; where somebody listens, or the file is none of a socket of this user,
/// `open` fails. Each call that fails is noted. With the door the files end that it made; the locks' files stay. `dial` wants a socket's file of this user,
/// and gives no standard streams.
#[derive(Drop)]
pub struct RealDoor {
    rt: HostRuntime,
    alloc: Global,
    notes: Notes,
    // The files of the sockets that were opened.
    files: Vec<SocketFile>,
    // What is told where the next link that is dialled is over.
    over: Option<LinkOver>,
    faults: u64,
    // The system's words on the last call that failed.
    reason: String,
}

impl RealDoor {
    /// A door of which no call failed yet. The first link that is dialled tells `over` where it is over.
    pub fn new(rt: HostRuntime, notes: Notes, over: Option<LinkOver>) -> RealDoor
        ensures { ⟦<RealDoor as Door>⟧.faults result ≡ 0 }
    {
        let alloc = rt.alloc();
        RealDoor {
            rt,
            alloc,
            notes,
            files: Vec::new(alloc),
            over,
            faults: 0,
            reason: String::new(alloc),
        }
    }

    // Why a call gives nothing.
    fn fault(&mut self, error: &io::Error) -> DoorFault
        ensures failed { result ≡ DoorFault.Failed → Rose self.old.faults self.new.faults }
        ensures later { self.old.faults ≤ self.new.faults }
    {
        if error.kind() == ErrorKind::OutOfMemory {
            return DoorFault::Memory;
        }
        self.faults = self.faults.saturating_add(1);
        self.reason = words_on(self.alloc, error);
        DoorFault::Failed
    }

    fn note_unopened(&self, place: &Place, error: &io::Error) {
        match place {
            Place::Unix(path) => warn!(self.notes; "links can't come at {path}: {error}"),
            Place::Tcp(port) =>
                warn!(self.notes; "links can't come at the TCP port {port}: {error}"),
            Place::Streams =>
                warn!(self.notes; "no link can come at the standard input and output: {error}"),
        }
    }

    fn note_unreached(&self, place: &Place, error: &io::Error) {
        match place {
            Place::Unix(path) => {
                warn!(self.notes; "no daemon is reached at {path}: {error}; `lspmux serve` starts one");
            }
            Place::Tcp(port) => {
                warn!(self.notes; "no daemon is reached at the TCP port {port}: {error}; `lspmux serve` starts one");
            }
            Place::Streams => {
                warn!(self.notes; "no daemon is reached at the standard input and output: {error}");
            }
        }
    }
}

/// The ports of a place, and the file of its socket.
type Given = (Vec<RealPort>, Option<SocketFile>);

// So many ports of one listener.
fn ports_of(
    rt: HostRuntime,
    alloc: Global,
    notes: Notes,
    listener: &Listener,
    n: u32,
) -> io::Result<Vec<RealPort>>
    ensures fresh { IfOk result (λ ports. All (λ port. ⟦<RealPort as Port>⟧.faults port ≡ 0) ports.items) }
    ensures count { IfOk result (λ ports. length ports.items ≡ n) }
{
    let mut ports = Vec::with_capacity(alloc, n as usize)?;
    for _ in 0..n {
        ports.push_reserved(RealPort::listening(rt, listener.share()?, notes));
    }
    Ok(ports)
}

// The one port of the standard input and output, where any is wanted.
fn port_of_streams(
    rt: HostRuntime,
    alloc: Global,
    notes: Notes,
    n: u32,
) -> io::Result<Vec<RealPort>>
    ensures fresh { IfOk result (λ ports. All (λ port. ⟦<RealPort as Port>⟧.faults port ≡ 0) ports.items) }
    ensures count { IfOk result (λ ports. length ports.items ≤ n) }
{
    let mut ports = Vec::new(alloc);
    if n > 0 {
        ports.push(RealPort::streaming(rt, notes, LinkOver::new(alloc)?))?;
    }
    Ok(ports)
}

// Opens a place, and gives so many ports of it.
fn open_ports(
    rt: HostRuntime,
    alloc: Global,
    notes: Notes,
    place: &Place,
    n: u32,
) -> io::Result<Given>
    ensures fresh { IfOk result (λ opened. All (λ port. ⟦<RealPort as Port>⟧.faults port ≡ 0) opened.0.items) }
    ensures count { IfOk result (λ opened. length opened.0.items ≤ n) }
{
    let Some(opened) = place::open(&rt, alloc, place)? else {
        return Ok((port_of_streams(rt, alloc, notes, n)?, None));
    };
    let Opened { listener, file } = opened;
    let listener = listener.limited(Duration::from_millis(ACCEPT_MILLIS))?;
    let ports = ports_of(rt, alloc, notes, &listener, n)?;
    Ok((ports, file))
}

impl Door for RealDoor {
    type Port = RealPort;

    ghost calls = { λ _. None };

    ghost left = { λ _. None };

    ghost faults = { λ d. d.faults };

    #[tactic(auto, using(crate::proofs::Gifts::gave_untold))]
    fn open(&mut self, place: &Place, n: u32, ports: &mut Vec<RealPort>) -> Result<(), DoorFault> {
        self.files.reserve(1)?;
        let opened = match open_ports(self.rt, self.alloc, self.notes, place, n) {
            Ok(opened) => opened,
            Err(error) => {
                self.note_unopened(place, &error);
                return Err(self.fault(&error));
            }
        };
        let (mut given, file) = opened;
        ports.append(&mut given)?;
        if let Some(file) = file {
            self.files.push_reserved(file);
        }
        Ok(())
    }

    fn dial(&mut self, place: &Place, port: &mut Option<RealPort>) -> Result<(), DoorFault> {
        match place::dial(&self.rt, place) {
            Ok(wire) => {
                *port = Some(RealPort::dialled(self.rt, wire, self.over.take(), self.notes));
                Ok(())
            }
            Err(error) => {
                self.note_unreached(place, &error);
                Err(self.fault(&error))
            }
        }
    }

    fn reason(&self) -> &str {
        self.reason.as_str()
    }
}
