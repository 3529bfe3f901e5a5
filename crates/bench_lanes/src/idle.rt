// Lanes that have nothing to do until the standard input ends.
ghost use Rattle.std.specs.Prelude.{◌≡◌, None};

use crate::{LIMIT, own};
use lane_echo::Echo;
use mux_daemon::{Answer, Lanes, serve_core};
use mux_serve::LaneJob;
use outside_io::{Arrival, MemBerth, Port, ReadFault, SetClock, Source, SureSink};
use std::alloc::Global;
use std::io::{Read, Stdin};
use std::sync::Wait;
use std::thread::Threads;

// A link that says nothing until then.
#[derive(Drop)]
struct Silent {
    inner: Stdin,
    faults: u64,
}

impl Source for Silent {
    ghost taken = { λ _. None };

    ghost left = { λ _. None };

    ghost faults = { λ s. s.faults };

    fn read(&mut self, buf: &mut [u8]) -> Result<usize, ReadFault> {
        match self.inner.read(buf) {
            Ok(count) => Ok(count),
            Err(_) => {
                self.faults = self.faults.saturating_add(1);
                Err(ReadFault::Failed)
            }
        }
    }
}

// A port that has one such link.
#[derive(Drop)]
struct Quiet {
    link: Option<Silent>,
    out: u64,
}

impl Port for Quiet {
    type In = Silent;

    type Out = SureSink;

    ghost sessions = { λ _. None };

    ghost links = { λ _. None };

    ghost held = { λ p. p.out };

    ghost faults = { λ _. 0 };

    fn accept(&mut self, inn: &mut Option<Silent>, out: &mut Option<SureSink>) -> Arrival {
        let Some(count) = self.out.checked_add(1) else {
            return Arrival::Closed;
        };
        match self.link.take() {
            Some(source) => {
                *inn = Some(source);
                *out = Some(SureSink::new());
                self.out = count;
                Arrival::Link
            }
            None => Arrival::Closed,
        }
    }

    fn hang_up(&mut self, inn: &mut Option<Silent>, out: &mut Option<SureSink>) {
        self.out -= 1;
        *inn = None;
        *out = None;
    }
}

// A berth in which nothing is started.
pub fn berths(alloc: Global, count: u64) -> Option<Vec<LaneJob<MemBerth>>> {
    let mut lanes = Vec::new(alloc);
    for _ in 0..count {
        let berth = MemBerth::new(alloc, Vec::new(alloc), Vec::new(alloc));
        lanes.push(LaneJob::new(berth)).ok()?;
    }
    Some(lanes)
}

/// Serves so many ports of a silent link and so many berths until the standard input ends; how many editors joined.
pub fn run_idle<R: Threads + Wait + Sync>(
    rt: &R,
    alloc: Global,
    inputs: Vec<Stdin>,
    starts: u64,
) -> Option<u64> {
    let mut ports = Vec::new(alloc);
    for inner in inputs {
        let link = Some(Silent { inner, faults: 0 });
        ports.push(LaneJob::new(Quiet { link, out: 0 })).ok()?;
    }
    let lanes = Lanes {
        ports,
        own: own(alloc)?,
        berths: berths(alloc, starts)?,
        clock: LaneJob::new(SetClock::new(Vec::new(alloc))),
    };
    let served = serve_core(rt, alloc, Echo::new(alloc), LIMIT, &[], lanes);
    if served.answer != Answer::PortsClosed {
        return None;
    }
    Some(served.core.joined())
}
