// Links over Unix sockets and loopback TCP.
ghost use Rattle.std.specs.Prelude.{◌<◌};

use crate::pairs::{
    Link, Pair, dial, ends, holds, next_link, nobody, open, pair_at, passed, quiet, reads, remove,
    says, tcp, unix, waiting,
};
use outside_io::{Arrival, Door, Place, Port, Sink, write_whole};
use real_host::{LinkInput, LinkOutput, Reading, RealDoor, RealPort, Writing};
use std::test::Fail;
use std::thread;
use std::thread::Threads;
use std::time::{Duration, Instant};

// An accept waits, and finds nobody.
fn finds_nobody(rt: HostRuntime, port: &mut RealPort) -> Result<(), Fail> {
    let start = Instant::now(&rt)?;
    holds(nobody(port) == Arrival::Nobody, "somebody came")?;
    holds(passed(rt, start)? >= 150, "an accept doesn't wait")
}

// Words go both ways, and the end of one side is the end of the other.
fn talk(near: Link, far: Link) -> Result<(), Fail> {
    let (mut to, mut from) = near;
    let (mut inn, mut out) = far;
    holds(says(&mut from, &mut inn, b"word"), "there")?;
    holds(says(&mut out, &mut to, b"answer"), "back")?;
    out.close();
    holds(ends(&mut inn) && ends(&mut to), "both halves end")
}

// A link of a dialled port, which is closed behind it.
fn try_words(rt: HostRuntime, place: &Place) -> Result<(), Fail> {
    let mut door = RealDoor::new(rt, quiet(rt), None);
    let mut port = open(rt, &mut door, place)?;
    finds_nobody(rt, &mut port)?;
    let mut dialled = dial(&mut door, place)?;
    let near = next_link(&mut dialled)?;
    talk(near, next_link(&mut port)?)?;
    holds(
        nobody(&mut dialled) == Arrival::Closed,
        "a second link came",
    )
}

// Hangs up at a link whose peer sent what nobody read.
fn hang_up_unread(rt: HostRuntime, port: &mut RealPort, far: Link)
    requires { 0 < ⟦<RealPort as Port>⟧.held port.old }
{
    thread::sleep(&rt, Duration::from_millis(50));
    let (source, sink) = far;
    let (mut inn, mut out) = (Some(source), Some(sink));
    port.hang_up(&mut inn, &mut out);
}

// A peer that sent what nobody read gets what was written to it, and then the end.
fn try_unread(rt: HostRuntime, place: &Place) -> Result<(), Fail> {
    let Pair {
        door,
        mut port,
        near,
        mut far,
    } = pair_at(rt, place)?;
    let (mut to, mut from) = near;
    holds(write_whole(&mut from, b"unread").is_ok(), "a write failed")?;
    holds(
        write_whole(&mut far.1, b"answer").is_ok(),
        "an answer failed",
    )?;
    hang_up_unread(rt, &mut port, far);
    holds(reads(&mut to, b"answer"), "the answer was lost")?;
    holds(ends(&mut to), "the link doesn't end")?;
    drop(door);
    Ok(())
}

// Whether the next read of a half finds the end.
fn has_end(source: Reading<LinkInput>) -> bool {
    let mut source = source;
    ends(&mut source)
}

// Closes a half in half a second.
fn close_later(rt: HostRuntime, sink: Writing<LinkOutput>) {
    let mut sink = sink;
    thread::sleep(&rt, Duration::from_millis(500));
    sink.close();
}

// Whether a read of one half ends as another thread closes the other half, in half a second.
fn is_woken<R: Threads + Sync>(threads: &R, rt: HostRuntime, far: Link) -> bool {
    let (source, sink) = far;
    let (ended, _) = thread::join(
        threads,
        move || has_end(source),
        move || close_later(rt, sink),
    );
    ended
}

// A read of an accepted link waits for longer than an accept does, and ends where another thread closes the other half.
fn try_wake<R: Threads + Sync>(threads: &R, rt: HostRuntime, place: &Place) -> Result<(), Fail> {
    let Pair {
        door,
        port,
        near,
        far,
    } = pair_at(rt, place)?;
    let start = Instant::now(&rt)?;
    holds(is_woken(threads, rt, far), "the read failed")?;
    holds(passed(rt, start)? >= 500, "the read ended too early")?;
    drop((door, port, near));
    Ok(())
}

// Greets the link that waits at a port. None where no link does.
fn greets_one(port: &mut RealPort) -> Option<bool> {
    let (source, mut sink) = waiting(port)?;
    let greeted = write_whole(&mut sink, b"hello").is_ok();
    drop(source);
    Some(greeted)
}

// Greets the next link of a port. Whether one came within some seconds.
fn greets(port: RealPort) -> bool {
    let mut port = port;
    for _ in 0..50 {
        if let Some(greeted) = greets_one(&mut port) {
            return greeted;
        }
    }
    false
}

// Whether both ports greet a link, each in a thread.
fn both_greet<R: Threads + Sync>(threads: &R, ports: (RealPort, RealPort)) -> bool {
    let (first, second) = ports;
    let (a, b) = thread::join(threads, move || greets(first), move || greets(second));
    a && b
}

// The two ports of a place.
fn open_two(
    rt: HostRuntime,
    door: &mut RealDoor,
    place: &Place,
) -> Result<(RealPort, RealPort), Fail> {
    let mut ports = Vec::new(rt.alloc());
    if door.open(place, 2, &mut ports).is_err() {
        return Err(Fail::new("the place isn't opened"));
    }
    match (ports.pop(), ports.pop()) {
        (Some(first), Some(second)) => Ok((first, second)),
        _ => Err(Fail::new("not two ports")),
    }
}

// Two ports of one place, in two threads, take two links.
fn try_ports<R: Threads + Sync>(threads: &R, rt: HostRuntime, place: &Place) -> Result<(), Fail> {
    let mut door = RealDoor::new(rt, quiet(rt), None);
    let ports = open_two(rt, &mut door, place)?;
    let (mut to, _from) = next_link(&mut dial(&mut door, place)?)?;
    let (mut other, _from) = next_link(&mut dial(&mut door, place)?)?;
    holds(both_greet(threads, ports), "a port took no link")?;
    holds(
        reads(&mut to, b"hello") && reads(&mut other, b"hello"),
        "no greeting",
    )
}

pub(crate) fn a_unix_socket<R: Threads + Sync>(threads: &R, rt: HostRuntime) -> Result<(), Fail> {
    let place = unix(rt, "words.sock")?;
    try_words(rt, &place)?;
    try_unread(rt, &place)?;
    try_wake(threads, rt, &place)?;
    try_ports(threads, rt, &place)?;
    remove(rt, "words.sock")
}

pub(crate) fn a_tcp_port<R: Threads + Sync>(threads: &R, rt: HostRuntime) -> Result<(), Fail> {
    let place = tcp(rt)?;
    try_words(rt, &place)?;
    try_unread(rt, &place)?;
    try_wake(threads, rt, &place)?;
    try_ports(threads, rt, &place)
}
