// The daemon's threads, to their answer.
use crate::left::{Left, serve, tell, tell_asked, tell_clock};
use crate::sides::{
    HOVER, START, STOP, berth, gate, metered, metered_port, one, plain, plain_port, plain_ports,
    port, times, two,
};
use outside_io::{MemBerth, MemPort, Meter};
use std::alloc::{AllocError, Global};
use std::sync::Wait;
use std::test::Fail;
use std::thread::Threads;

// Serves these ports, with an own link that asks for a stop, and with a clock of one moment.
fn serve_ports<R: Threads + Wait + Sync>(
    threads: &R,
    alloc: Global,
    ports: Vec<MemPort>,
) -> Result<Left, AllocError> {
    let own = plain_port(alloc, &[STOP])?;
    let berths: Vec<MemBerth> = Vec::new(alloc);
    serve(threads, alloc, ports, own, berths, one(alloc, 3)?)
}

pub fn closed_ports_end_the_work<R: Threads + Wait + Sync>(
    threads: &R,
    rt: HostRuntime,
) -> Result<(), Fail> {
    let ports = plain_ports(rt.alloc(), &[&[HOVER, b"", HOVER], &[b""]])?;
    let left = serve_ports(threads, rt.alloc(), ports)?;
    tell(rt, "closed ports end the work", &left)?;
    tell_clock(rt, &left)
}

pub fn without_ports_there_is_the_own_link_alone<R: Threads + Wait + Sync>(
    threads: &R,
    rt: HostRuntime,
) -> Result<(), Fail> {
    let left = serve_ports(threads, rt.alloc(), Vec::new(rt.alloc()))?;
    tell(rt, "without ports there is the own link alone", &left)
}

// A port whose link says `hover`, with the read of this number only once the first meter shows as much. What is written to it
// raises the second.
fn waiting(alloc: Global, read: usize, waits: &Meter, raises: &Meter) -> Result<MemPort, Fail> {
    metered_port(alloc, HOVER, gate(read, waits, HOVER.len())?, raises)
}

pub fn each_of_two_waits_for_the_other<R: Threads + Wait + Sync>(
    threads: &R,
    rt: HostRuntime,
) -> Result<(), Fail> {
    let alloc = rt.alloc();
    let first = Meter::new(alloc)?;
    let second = Meter::new(alloc)?;
    let waits = waiting(alloc, 0, &second, &first)?;
    let goes_on = waiting(alloc, 1, &first, &second)?;
    let left = serve_ports(threads, alloc, two(alloc, waits, goes_on)?)?;
    tell(rt, "each of two waits for the other", &left)
}

pub fn a_failed_write_ends_its_session_alone<R: Threads + Wait + Sync>(
    threads: &R,
    rt: HostRuntime,
) -> Result<(), Fail> {
    let alloc = rt.alloc();
    let fails = plain(alloc, HOVER, one(alloc, 0)?)?;
    let ports = two(alloc, port(alloc, fails)?, plain_port(alloc, &[HOVER])?)?;
    let left = serve_ports(threads, alloc, ports)?;
    tell(rt, "a failed write ends its session alone", &left)
}

pub fn many_editors_at_once<R: Threads + Wait + Sync>(
    threads: &R,
    rt: HostRuntime,
) -> Result<(), Fail> {
    let links: &[&[u8]] = &[HOVER];
    let ports = plain_ports(rt.alloc(), &[links; 32])?;
    let left = serve_ports(threads, rt.alloc(), ports)?;
    tell(rt, "many editors at once", &left)
}

// A port of so many links, each of which says `hover`.
fn long_port(alloc: Global, count: usize) -> Result<MemPort, AllocError> {
    let mut all = Vec::new(alloc);
    for _ in 0..count {
        all.push(plain(alloc, HOVER, Vec::new(alloc))?)?;
    }
    Ok(MemPort::new(alloc, all))
}

pub fn a_thousand_links_one_after_the_other<R: Threads + Wait + Sync>(
    threads: &R,
    rt: HostRuntime,
) -> Result<(), Fail> {
    let ports = one(rt.alloc(), long_port(rt.alloc(), 1000)?)?;
    let left = serve_ports(threads, rt.alloc(), ports)?;
    tell(rt, "a thousand links one after the other", &left)
}

// An editor asks for a stop, and a berth has no program.
pub fn a_stop_ends_the_work<R: Threads + Wait + Sync>(
    threads: &R,
    rt: HostRuntime,
) -> Result<(), Fail> {
    let alloc = rt.alloc();
    let ports = plain_ports(alloc, &[&[STOP]])?;
    let idle = MemBerth::new(alloc, Vec::new(alloc), Vec::new(alloc));
    let own = plain_port(alloc, &[STOP])?;
    let berths = one(alloc, idle)?;
    let left = serve(threads, alloc, ports, own, berths, one(alloc, 3)?)?;
    tell(rt, "a stop ends the work", &left)
}

// So many berths of a program each, which goes when the own link, which asks for a stop, was answered.
fn programs(
    alloc: Global,
    count: usize,
    raises: &Meter,
    own: &Meter,
) -> Result<Vec<MemBerth>, Fail> {
    let mut berths = Vec::new(alloc);
    for _ in 0..count {
        let run = metered(alloc, HOVER, gate(1, own, STOP.len())?, raises)?;
        berths.push(berth(alloc, run, Vec::new(alloc))?)?;
    }
    Ok(berths)
}

// Serves one editor, which asks for so many starts, and goes when all programs were written what they said.
fn serve_starts<R: Threads + Wait + Sync>(
    threads: &R,
    alloc: Global,
    starts: usize,
    berths: Vec<MemBerth>,
    programs: &Meter,
    own: &Meter,
) -> Result<Left, Fail> {
    let until = berths.len().saturating_mul(HOVER.len());
    let bytes = times(alloc, START, starts)?;
    let asks = metered_port(alloc, bytes.as_slice(), gate(1, programs, until)?, own)?;
    let stops = metered_port(alloc, STOP, gate(0, programs, until)?, own)?;
    Ok(serve(
        threads,
        alloc,
        one(alloc, asks)?,
        stops,
        berths,
        one(alloc, 3)?,
    )?)
}

pub fn sixteen_starts_are_up_until_a_stop<R: Threads + Wait + Sync>(
    threads: &R,
    rt: HostRuntime,
) -> Result<(), Fail> {
    let alloc = rt.alloc();
    let all = Meter::new(alloc)?;
    let own = Meter::new(alloc)?;
    let berths = programs(alloc, 16, &all, &own)?;
    let left = serve_starts(threads, alloc, 16, berths, &all, &own)?;
    tell(rt, "sixteen starts are up until a stop", &left)
}

pub fn a_start_that_fails_makes_room<R: Threads + Wait + Sync>(
    threads: &R,
    rt: HostRuntime,
) -> Result<(), Fail> {
    let alloc = rt.alloc();
    let program = Meter::new(alloc)?;
    let own = Meter::new(alloc)?;
    let run = metered(alloc, HOVER, gate(1, &own, STOP.len())?, &program)?;
    let berths = one(alloc, berth(alloc, run, one(alloc, 0)?)?)?;
    let left = serve_starts(threads, alloc, 2, berths, &program, &own)?;
    tell(rt, "a start that fails makes room", &left)?;
    tell_asked(rt, &left)
}

// 32 editors, of which the first asks for 16 starts, and none goes before so many bytes were written.
fn editors(alloc: Global, all: &Meter, until: usize) -> Result<Vec<MemPort>, Fail> {
    let mut first = HOVER.to_vec(alloc)?;
    first.extend_from_slice(times(alloc, START, 16)?.as_slice())?;
    let mut ports = Vec::new(alloc);
    for number in 0..32 {
        let says = if number == 0 { first.as_slice() } else { HOVER };
        ports.push(metered_port(alloc, says, gate(1, all, until)?, all)?)?;
    }
    Ok(ports)
}

// 32 editors and 16 starts, of which none goes before each was written what it said.
pub fn editors_and_starts_are_there_at_once<R: Threads + Wait + Sync>(
    threads: &R,
    rt: HostRuntime,
) -> Result<(), Fail> {
    let alloc = rt.alloc();
    let all = Meter::new(alloc)?;
    let own = Meter::new(alloc)?;
    let until = HOVER.len().saturating_mul(48);
    let ports = editors(alloc, &all, until)?;
    let berths = programs(alloc, 16, &all, &own)?;
    let stops = metered_port(alloc, STOP, gate(0, &all, until)?, &own)?;
    let left = serve(threads, alloc, ports, stops, berths, one(alloc, 3)?)?;
    tell(rt, "editors and starts are there at once", &left)
}
