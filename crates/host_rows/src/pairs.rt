// Places that are opened, and links to them.
ghost use Rattle.std.specs.Prelude.{◌<◌, IfOk, IfSome, OnOk};

use log::LevelFilter;
use outside_io::{Arrival, Door, Place, Port, Sink, Source, write_whole};
use real_host::{LinkInput, LinkOutput, Notes, Reading, RealDoor, RealPort, Writing};
use std::fs;
use std::net::TcpListener;
use std::test::Fail;
use std::time::Instant;

// A link's halves.
pub(crate) type Link = (Reading<LinkInput>, Writing<LinkOutput>);

// Notes of nothing.
pub(crate) fn quiet(rt: HostRuntime) -> Notes {
    Notes::new(rt, LevelFilter::Off)
}

// A link between two ports, seen from both sides.
#[derive(Drop)]
pub(crate) struct Pair {
    pub(crate) door: RealDoor,
    pub(crate) port: RealPort,
    // The link that was dialled, and the one that was accepted for it.
    pub(crate) near: Link,
    pub(crate) far: Link,
}

pub(crate) fn holds(is_so: bool, what: &str) -> Result<(), Fail> {
    if is_so { Ok(()) } else { Err(Fail::new(what)) }
}

// How many milliseconds have passed since.
pub(crate) fn passed(rt: HostRuntime, since: Instant) -> Result<u64, Fail> {
    let passed = since.elapsed(&rt)?;
    Ok(u64::try_from(passed.as_millis()).unwrap_or(u64::MAX))
}

// The place of a socket's file, behind which nothing lies.
pub(crate) fn unix(rt: HostRuntime, path: &str) -> Result<Place, Fail> {
    remove(rt, path)?;
    Ok(Place::Unix(String::from_str(rt.alloc(), path)?))
}

// Removes a socket's file and the lock beside it.
pub(crate) fn remove(rt: HostRuntime, path: &str) -> Result<(), Fail> {
    let lock = format!(in rt.alloc(); "{path}.lock")?;
    let _ = fs::remove_file(&rt, path);
    let _ = fs::remove_file(&rt, lock.as_str());
    Ok(())
}

// A port of TCP that was free a moment ago.
pub(crate) fn tcp(rt: HostRuntime) -> Result<Place, Fail> {
    let listener = TcpListener::bind(&rt, "127.0.0.1:0")?;
    Ok(Place::Tcp(listener.local_addr()?.port()))
}

// The one port of a place.
pub(crate) fn open(rt: HostRuntime, door: &mut RealDoor, place: &Place) -> Result<RealPort, Fail> {
    let mut ports = Vec::new(rt.alloc());
    if door.open(place, 1, &mut ports).is_err() {
        return Err(Fail::new("the place isn't opened"));
    }
    match ports.pop() {
        Some(port) => Ok(port),
        None => Err(Fail::new("no port was given")),
    }
}

// A port of a dialled place.
pub(crate) fn dial(door: &mut RealDoor, place: &Place) -> Result<RealPort, Fail> {
    let mut port = None;
    match (door.dial(place, &mut port), port) {
        (Ok(()), Some(port)) => Ok(port),
        _ => Err(Fail::new("the place isn't dialled")),
    }
}

// The link that waits at a port, if one does.
pub(crate) fn waiting(port: &mut RealPort) -> Option<Link>
    ensures { IfSome result (λ _. 0 < ⟦<RealPort as Port>⟧.held port.new) }
{
    let (mut source, mut sink) = (None, None);
    if port.accept(&mut source, &mut sink) != Arrival::Link {
        return None;
    }
    match (source, sink) {
        (Some(source), Some(sink)) => Some((source, sink)),
        _ => None,
    }
}

// The same, which has to be there.
pub(crate) fn next_link(port: &mut RealPort) -> Result<Link, Fail>
    ensures { OnOk result (0 < ⟦<RealPort as Port>⟧.held port.new) }
{
    match waiting(port) {
        Some(link) => Ok(link),
        None => Err(Fail::new("no link came")),
    }
}

// What an accept finds that finds no link.
pub(crate) fn nobody(port: &mut RealPort) -> Arrival {
    let (mut source, mut sink) = (None, None);
    port.accept(&mut source, &mut sink)
}

// A link from a door to a port, seen from both sides.
pub(crate) fn joined(
    door: &mut RealDoor,
    port: &mut RealPort,
    place: &Place,
) -> Result<(Link, Link), Fail>
    ensures { OnOk result (0 < ⟦<RealPort as Port>⟧.held port.new) }
{
    let near = next_link(&mut dial(door, place)?)?;
    Ok((near, next_link(port)?))
}

// Opens a place and dials it.
pub(crate) fn pair_at(rt: HostRuntime, place: &Place) -> Result<Pair, Fail>
    ensures { IfOk result (λ pair. 0 < ⟦<RealPort as Port>⟧.held pair.port) }
{
    let mut door = RealDoor::new(rt, quiet(rt), None);
    let mut port = open(rt, &mut door, place)?;
    let (near, far) = joined(&mut door, &mut port, place)?;
    Ok(Pair {
        door,
        port,
        near,
        far,
    })
}

// What the next read gives is this.
pub(crate) fn reads<S: Source>(source: &mut S, text: &[u8]) -> bool {
    let mut buf = [0u8; 64];
    match source.read(&mut buf) {
        Ok(count) => &buf[..count] == text,
        Err(_) => false,
    }
}

// A text that is written at one end is what the next read gives at the other.
pub(crate) fn says<K: Sink, S: Source>(sink: &mut K, source: &mut S, text: &[u8]) -> bool {
    write_whole(sink, text).is_ok() && reads(source, text)
}

// The next read finds the end.
pub(crate) fn ends<S: Source>(source: &mut S) -> bool {
    reads(source, b"")
}
