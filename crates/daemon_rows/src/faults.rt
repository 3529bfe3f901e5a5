// Sessions whose bytes come and go one at a time, and each read or write of which fails in turn.
use crate::left::{Left, serve, tell};
use crate::peers::{OneByOne, Peers, Taker};
use crate::sides::{HOVER, START, STOP, gate, metered_port, one, times, two};
use outside_io::{Gate, MemSink, MemSource, Meter};
use std::alloc::Global;
use std::sync::Wait;
use std::test::Fail;
use std::thread::Threads;

type Peer = (OneByOne, Taker);

// Which of a peer's calls fails.
#[derive(Clone, Copy)]
enum Fails {
    Read(u64),
    Write(u64),
}

// The read that fails, if it is one.
fn failed_read(alloc: Global, fails: Fails) -> Result<Vec<u64>, Fail> {
    match fails {
        Fails::Read(number) => Ok(one(alloc, number)?),
        Fails::Write(_) => Ok(Vec::new(alloc)),
    }
}

// The write that fails, if it is one.
fn failed_write(alloc: Global, fails: Fails) -> Result<Vec<u64>, Fail> {
    match fails {
        Fails::Read(_) => Ok(Vec::new(alloc)),
        Fails::Write(number) => Ok(one(alloc, number)?),
    }
}

// A sink that takes one byte at each write, of which these fail. What is written to it raises a meter.
fn taker(alloc: Global, fails: Vec<u64>, raises: &Meter) -> Result<Taker, Fail> {
    let says = MemSink::new(alloc, Vec::new(alloc), None);
    let waits = MemSource::new(Vec::new(alloc), Vec::new(alloc), None);
    let kept = MemSink::new(alloc, fails, Some(raises.share()?));
    Ok(Taker::new(says, waits, kept))
}

// A sink whose first write raises one meter, and then waits until another one shows so many bytes.
fn slow_taker(
    alloc: Global,
    begun: &Meter,
    waits: Option<Gate>,
    raises: &Meter,
) -> Result<Taker, Fail> {
    let says = MemSink::new(alloc, Vec::new(alloc), Some(begun.share()?));
    let waits = MemSource::new(Vec::new(alloc), Vec::new(alloc), waits);
    let kept = MemSink::new(alloc, Vec::new(alloc), Some(raises.share()?));
    Ok(Taker::new(says, waits, kept))
}

// A source that gives these bytes, one at a time. One read of it may wait.
fn source(alloc: Global, bytes: &[u8], waits: Option<Gate>) -> Result<OneByOne, Fail> {
    let inner = MemSource::new(bytes.to_vec(alloc)?, Vec::new(alloc), waits);
    Ok(OneByOne::new(inner))
}

// A peer that says these bytes, one at a time, and takes one byte at each write. One read of it may wait.
fn peer(alloc: Global, bytes: &[u8], waits: Option<Gate>, raises: &Meter) -> Result<Peer, Fail> {
    let source = source(alloc, bytes, waits)?;
    Ok((source, taker(alloc, Vec::new(alloc), raises)?))
}

// The same without waiting, with one call that fails.
fn failing(alloc: Global, bytes: &[u8], fails: Fails, raises: &Meter) -> Result<Peer, Fail> {
    let numbers = failed_read(alloc, fails)?;
    let source = OneByOne::new(MemSource::new(bytes.to_vec(alloc)?, numbers, None));
    Ok((source, taker(alloc, failed_write(alloc, fails)?, raises)?))
}

// Such a peer for each of these calls.
fn failing_each(
    alloc: Global,
    bytes: &[u8],
    calls: &[Fails],
    raises: &Meter,
) -> Result<Vec<Peer>, Fail> {
    let mut all = Vec::new(alloc);
    for fails in calls {
        all.push(failing(alloc, bytes, *fails, raises)?)?;
    }
    Ok(all)
}

// Serves these ports and one berth of these programs. The own link asks for a stop once its gate opens; what is written to it
// raises a meter.
fn serve_peers<R: Threads + Wait + Sync>(
    threads: &R,
    alloc: Global,
    ports: Vec<Peers>,
    programs: Vec<Peer>,
    waits: Option<Gate>,
    own: &Meter,
) -> Result<Left, Fail> {
    let berths = one(alloc, Peers::new(alloc, programs))?;
    let own = metered_port(alloc, STOP, waits, own)?;
    Ok(serve(threads, alloc, ports, own, berths, Vec::new(alloc))?)
}

// The bytes of one `hover`.
const WHOLE: usize = 26;

// What is written to a peer that says these bytes, one call of which fails: of whole bodies read, or up to the failed write.
fn wanted(bytes: &[u8], fails: Fails) -> usize {
    match fails {
        Fails::Read(number) => {
            let count = (number as usize).min(bytes.len());
            count.saturating_sub(count % WHOLE)
        }
        Fails::Write(number) => (number as usize).min(bytes.len()),
    }
}

// The same of all these peers.
fn wanted_of_all(bytes: &[u8], calls: &[Fails]) -> usize {
    let mut all: usize = 0;
    for fails in calls {
        all = all.saturating_add(wanted(bytes, *fails));
    }
    all
}

// Each read and each write of these bytes and one more, in turn.
fn all_calls(alloc: Global, bytes: &[u8]) -> Result<Vec<Fails>, Fail> {
    let mut all = Vec::new(alloc);
    for number in 0..=bytes.len() {
        all.push(Fails::Read(number as u64))?;
        all.push(Fails::Write(number as u64))?;
    }
    all.push(Fails::Read((bytes.len() as u64).saturating_add(1)))?;
    Ok(all)
}

pub fn links_fail_at_each_call<R: Threads + Wait + Sync>(
    threads: &R,
    rt: HostRuntime,
) -> Result<(), Fail> {
    let alloc = rt.alloc();
    let meter = Meter::new(alloc)?;
    let bytes = times(alloc, HOVER, 2)?;
    let calls = all_calls(alloc, bytes.as_slice())?;
    let links = failing_each(alloc, bytes.as_slice(), calls.as_slice(), &meter)?;
    let ports = one(alloc, Peers::new(alloc, links))?;
    let left = serve_peers(threads, alloc, ports, Vec::new(alloc), None, &meter)?;
    tell(rt, "links fail at each call", &left)
}

// Serves an editor that asks for as many starts as there are programs, and goes when they were written so much.
fn serve_programs<R: Threads + Wait + Sync>(
    threads: &R,
    alloc: Global,
    programs: Vec<Peer>,
    meter: &Meter,
    until: usize,
) -> Result<Left, Fail> {
    let own = Meter::new(alloc)?;
    let asks = times(alloc, START, programs.len())?;
    let waits = gate(asks.len(), meter, until)?;
    let asking = one(alloc, peer(alloc, asks.as_slice(), waits, &own)?)?;
    let ports = one(alloc, Peers::new(alloc, asking))?;
    serve_peers(
        threads,
        alloc,
        ports,
        programs,
        gate(0, meter, until)?,
        &own,
    )
}

pub fn programs_fail_at_each_call<R: Threads + Wait + Sync>(
    threads: &R,
    rt: HostRuntime,
) -> Result<(), Fail> {
    let alloc = rt.alloc();
    let meter = Meter::new(alloc)?;
    let calls = all_calls(alloc, HOVER)?;
    let programs = failing_each(alloc, HOVER, calls.as_slice(), &meter)?;
    let until = wanted_of_all(HOVER, calls.as_slice());
    let left = serve_programs(threads, alloc, programs, &meter, until)?;
    tell(rt, "programs fail at each call", &left)
}

// An editor that asks for a start and says `hover` a hundred times, once the other one's first write began.
fn busy(alloc: Global, begun: &Meter, raises: &Meter) -> Result<Peer, Fail> {
    let mut bytes = START.to_vec(alloc)?;
    bytes.extend_from_slice(times(alloc, HOVER, 100)?.as_slice())?;
    peer(alloc, bytes.as_slice(), gate(0, begun, 1)?, raises)
}

// The ports of two editors, of which the first one's first write waits until the meter shows so many bytes.
fn slow_and_busy(
    alloc: Global,
    others: &Meter,
    until: usize,
    own: &Meter,
) -> Result<Vec<Peers>, Fail> {
    let begun = Meter::new(alloc)?;
    let sink = slow_taker(alloc, &begun, gate(0, others, until)?, own)?;
    let slow = one(alloc, (source(alloc, HOVER, None)?, sink))?;
    let busy = one(alloc, busy(alloc, &begun, others)?)?;
    Ok(two(alloc, Peers::new(alloc, slow), Peers::new(alloc, busy))?)
}

// An editor whose first write waits until another editor and a program were written all that they said.
pub fn a_peer_that_stops_reading_stops_no_other<R: Threads + Wait + Sync>(
    threads: &R,
    rt: HostRuntime,
) -> Result<(), Fail> {
    let alloc = rt.alloc();
    let others = Meter::new(alloc)?;
    let own = Meter::new(alloc)?;
    let until = HOVER.len().saturating_mul(101);
    let ports = slow_and_busy(alloc, &others, until, &own)?;
    let stop = gate(HOVER.len(), &own, HOVER.len().saturating_add(STOP.len()))?;
    let programs = one(alloc, peer(alloc, HOVER, stop, &others)?)?;
    let waits = gate(0, &others, until)?;
    let left = serve_peers(threads, alloc, ports, programs, waits, &own)?;
    tell(rt, "a peer that stops reading stops no other", &left)
}
