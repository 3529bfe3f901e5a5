// Writes whose peer takes nothing, or little.
use crate::pairs::{Link, Pair, holds, pair_at, passed, remove, tcp, unix};
use outside_io::{Endings, Place, Sink, Source, write_whole};
use real_host::{LinkInput, Reading};
use std::test::Fail;
use std::thread;
use std::thread::Threads;
use std::time::{Duration, Instant};

// More than the system keeps between the two sides of a link.
const MUCH: usize = 16_000_000;

fn much(rt: HostRuntime) -> Result<Vec<u8>, Fail> {
    let mut bytes = Vec::new(rt.alloc());
    bytes.resize(MUCH, b'x')?;
    Ok(bytes)
}

// Reads to the end, and says how many bytes came. Between the reads, each of up to 4,096 bytes, lie so many milliseconds.
fn read_all(rt: HostRuntime, source: &mut Reading<LinkInput>, pause: u64) -> u64 {
    let mut buf = [0u8; 4096];
    let mut all = 0u64;
    for _ in 0..1_000_000 {
        match source.read(&mut buf) {
            Ok(0) | Err(_) => break,
            Ok(count) => all = all.saturating_add(count as u64),
        }
        if pause > 0 {
            thread::sleep(&rt, Duration::from_millis(pause));
        }
    }
    all
}

// A link that the other side opened, in a session whose end this orders.
fn session(rt: HostRuntime, place: &Place) -> Result<(Pair, Endings), Fail> {
    let mut pair = pair_at(rt, place)?;
    let endings = Endings::new(rt.alloc())?;
    pair.far.1.heed(endings.of_session(0)?);
    Ok((pair, endings))
}

// Writes all to a link and closes it. Whether all of it was taken.
fn write_all(link: Link, bytes: &[u8]) -> bool {
    let (source, mut sink) = link;
    let whole = write_whole(&mut sink, bytes).is_ok();
    sink.close();
    drop(source);
    whole
}

// Waits for so many milliseconds, and then reads all, with this pause between the reads.
fn read_late(rt: HostRuntime, link: Link, wait: u64, pause: u64) -> u64 {
    let (mut source, sink) = link;
    thread::sleep(&rt, Duration::from_millis(wait));
    let all = read_all(rt, &mut source, pause);
    drop(sink);
    all
}

// Much is written at one side of a link, while the other reads it late, and with a pause between its reads. Whether all was taken, and how
// many bytes came.
fn carry<R: Threads + Sync>(
    threads: &R,
    rt: HostRuntime,
    link: (Link, Link),
    wait: u64,
    pause: u64,
) -> Result<(bool, u64), Fail> {
    let bytes = much(rt)?;
    let (near, far) = link;
    Ok(thread::join(
        threads,
        move || -> bool { write_all(far, bytes.as_slice()) },
        move || -> u64 { read_late(rt, near, wait, pause) },
    ))
}

// A peer that reads nothing for longer than two limits gets all in the end.
fn try_late<R: Threads + Sync>(threads: &R, rt: HostRuntime, place: &Place) -> Result<(), Fail> {
    let (pair, endings) = session(rt, place)?;
    let (whole, count) = carry(threads, rt, (pair.near, pair.far), 2_500, 0)?;
    drop(endings);
    holds(whole, "the write was cut off")?;
    holds(count == MUCH as u64, "bytes are missing")
}

// Whether a write to a link fails, and so does the next one.
fn is_cut_off(link: Link, bytes: &[u8]) -> bool {
    let (source, mut sink) = link;
    let cut = write_whole(&mut sink, bytes).is_err();
    let later = sink.write(b"x").is_err();
    drop(source);
    cut && later
}

// Orders the end of a session in some seconds.
fn order_later(rt: HostRuntime, endings: Endings) {
    thread::sleep(&rt, Duration::from_millis(2_500));
    endings.raise();
}

// Whether a write to a peer that reads nothing is cut off, where the end of its session is ordered later.
fn is_cut_off_later<R: Threads + Sync>(
    threads: &R,
    rt: HostRuntime,
    far: Link,
    endings: Endings,
) -> Result<bool, Fail> {
    let bytes = much(rt)?;
    let (cut, _) = thread::join(
        threads,
        move || -> bool { is_cut_off(far, bytes.as_slice()) },
        move || order_later(rt, endings),
    );
    Ok(cut)
}

// A write to a peer that reads nothing fails two seconds after the end of its session was ordered, and so does each later one.
fn try_never<R: Threads + Sync>(threads: &R, rt: HostRuntime, place: &Place) -> Result<(), Fail> {
    let (pair, endings) = session(rt, place)?;
    let start = Instant::now(&rt)?;
    let cut = is_cut_off_later(threads, rt, pair.far, endings)?;
    drop((pair.door, pair.port, pair.near));
    holds(cut, "the write wasn't cut off")?;
    holds(passed(rt, start)? >= 4_500, "it was cut off too early")
}

// A peer that takes a little at a time doesn't hold a write whose session was ordered to end.
fn try_little<R: Threads + Sync>(threads: &R, rt: HostRuntime, place: &Place) -> Result<(), Fail> {
    let (pair, endings) = session(rt, place)?;
    endings.raise();
    let (whole, _) = carry(threads, rt, (pair.near, pair.far), 0, 20)?;
    holds(!whole, "the write wasn't cut off")
}

pub(crate) fn a_peer_that_reads_late_over_unix<R: Threads + Sync>(
    threads: &R,
    rt: HostRuntime,
) -> Result<(), Fail> {
    try_late(threads, rt, &unix(rt, "late.sock")?)?;
    remove(rt, "late.sock")
}

pub(crate) fn a_peer_that_reads_late_over_tcp<R: Threads + Sync>(
    threads: &R,
    rt: HostRuntime,
) -> Result<(), Fail> {
    try_late(threads, rt, &tcp(rt)?)
}

pub(crate) fn a_peer_that_never_reads_over_unix<R: Threads + Sync>(
    threads: &R,
    rt: HostRuntime,
) -> Result<(), Fail> {
    try_never(threads, rt, &unix(rt, "never.sock")?)?;
    remove(rt, "never.sock")
}

pub(crate) fn a_peer_that_never_reads_over_tcp<R: Threads + Sync>(
    threads: &R,
    rt: HostRuntime,
) -> Result<(), Fail> {
    try_never(threads, rt, &tcp(rt)?)
}

pub(crate) fn a_peer_that_reads_little<R: Threads + Sync>(
    threads: &R,
    rt: HostRuntime,
) -> Result<(), Fail> {
    try_little(threads, rt, &unix(rt, "little.sock")?)?;
    remove(rt, "little.sock")
}
