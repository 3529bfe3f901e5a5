// Two editors and a server, each of which waits until it was sent what it is due.
use crate::memory::{After, one, outside, run};
use base_frame::frame;
use mux_service::Lanes;
use outside_io::{Gate, MemBerth, MemPort, MemSink, MemSource, Meter, SetClock};
use std::alloc::Global;
use std::sync::Wait;
use std::test::Fail;
use std::thread::Threads;

pub(crate) const INITIALIZE: &str =
    "{\"jsonrpc\":\"2.0\",\"id\":0,\"method\":\"initialize\",\"params\":{\"processId\":null,\"rootUri\":\"file:///w\",\"capabilities\":{}}}";

pub(crate) const RESULT: &str = "{\"jsonrpc\":\"2.0\",\"id\":1,\"result\":{\"capabilities\":{}}}";

// How many bytes an editor is sent: its result in a frame.
pub(crate) const TO_EDITOR: u64 = 75;

// How many bytes the server is sent: `initialize`, `initialized` and `shutdown`, each in a frame.
pub(crate) const TO_SERVER: u64 = 322;

// How long a read waits for a meter.
pub(crate) const TURNS: u64 = 100_000_000;

pub(crate) type Link = (MemSource, MemSink);

// A peer that says this message. Its second read waits until a meter shows so many bytes; what it is sent raises the other meter.
fn peer(
    alloc: Global,
    message: &str,
    waits: &Meter,
    bytes: u64,
    raises: &Meter,
) -> Result<Link, Fail> {
    let said = frame(alloc, message.as_bytes())?;
    let gate = Gate {
        read: 1,
        meter: waits.share()?,
        bytes,
        turns: TURNS,
    };
    let source = MemSource::new(said.bytes().to_vec(alloc)?, Vec::new(alloc), Some(gate));
    let sink = MemSink::new(alloc, Vec::new(alloc), Some(raises.share()?));
    Ok((source, sink))
}

// Two ports of one link each.
fn ports(alloc: Global) -> Result<Vec<MemPort>, Fail> {
    let first = Meter::new(alloc)?;
    let second = Meter::new(alloc)?;
    let near = peer(alloc, INITIALIZE, &second, TO_EDITOR, &first)?;
    let far = peer(alloc, INITIALIZE, &first, TO_EDITOR, &second)?;
    let mut ports = one(alloc, MemPort::new(alloc, one(alloc, near)?))?;
    ports.push(MemPort::new(alloc, one(alloc, far)?))?;
    Ok(ports)
}

// A berth with one run.
fn berth(alloc: Global) -> Result<MemBerth, Fail> {
    let sent = Meter::new(alloc)?;
    let run = peer(alloc, RESULT, &sent, TO_SERVER, &sent)?;
    Ok(MemBerth::new(alloc, one(alloc, run)?, Vec::new(alloc)))
}

// Runs `serve` there.
fn serve<R: Threads + Wait + Sync>(threads: &R, alloc: Global) -> Result<After, Fail> {
    let berths = one(alloc, berth(alloc)?)?;
    let outside = outside(alloc, ports(alloc)?, berths, Vec::new(alloc));
    run(threads, alloc, &["serve"], outside)
}

// Prints what a peer was sent.
fn show(rt: HostRuntime, name: &str, session: Option<&Link>) -> Result<(), Fail> {
    let Some((_, sink)) = session else {
        return Err(Fail::new("a session is missing"));
    };
    let sent = std::str::from_utf8(sink.bytes())?;
    println!(rt; "{name} {}: {sent}", sent.len())?;
    Ok(())
}

fn show_lanes(rt: HostRuntime, lanes: &Lanes<MemPort, MemBerth, SetClock>) -> Result<(), Fail> {
    for job in &lanes.ports {
        show(rt, "editor", job.outside.session(0))?;
    }
    for job in &lanes.berths {
        show(rt, "server", job.outside.run(0))?;
    }
    Ok(())
}

/// Prints the status, and what each was sent.
pub(crate) fn play<R: Threads + Wait + Sync>(threads: &R, rt: HostRuntime) -> Result<(), Fail> {
    let left = serve(threads, rt.alloc())?;
    println!(rt; "status {}", left.status)?;
    match &left.lanes {
        Some(lanes) => show_lanes(rt, lanes),
        None => Err(Fail::new("nothing was served")),
    }
}
