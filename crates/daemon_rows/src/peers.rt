// Links and programs for tests: their bytes come and go one at a time, and a write may wait.
ghost use Rattle.std.specs.Prelude.{◌≡◌, None};

use crate::left::Kept;
use outside_io::{
    Arrival, Berth, MemSink, MemSource, Port, ReadFault, Sink, Source, StartFault, WriteFault,
};
use std::alloc::Global;
use std::collections::VecDeque;

/// A source that gives one byte at each read.
#[derive(Drop)]
pub struct OneByOne {
    inner: MemSource,
    faults: u64,
}

impl OneByOne {
    pub fn new(inner: MemSource) -> OneByOne {
        OneByOne { inner, faults: 0 }
    }
}

impl Source for OneByOne {
    ghost taken = { λ _. None };

    ghost left = { λ _. None };

    ghost faults = { λ s. s.faults };

    fn read(&mut self, buf: &mut [u8]) -> Result<usize, ReadFault> {
        let most = buf.len().min(1);
        match self.inner.read(&mut buf[..most]) {
            Ok(count) => Ok(count),
            Err(_) => {
                self.faults = self.faults.saturating_add(1);
                Err(ReadFault::Failed)
            }
        }
    }
}

/// A sink that takes one byte at each write. Before a write it says so to one sink, and takes a read of a source, which may wait or
/// fail.
#[derive(Drop)]
pub struct Taker {
    says: MemSink,
    waits: MemSource,
    kept: MemSink,
    faults: u64,
}

impl Taker {
    pub fn new(says: MemSink, waits: MemSource, kept: MemSink) -> Taker {
        Taker {
            says,
            waits,
            kept,
            faults: 0,
        }
    }

    // What one write takes; none where it fails, or takes nothing of a piece that isn't empty.
    fn take(&mut self, bytes: &[u8]) -> Option<usize>
        ensures { self.new.faults ≡ self.old.faults }
    {
        let mut one = [0u8; 1];
        let most = bytes.len().min(1);
        self.says.write(&one).ok()?;
        self.waits.read(&mut one).ok()?;
        let count = self.kept.write(&bytes[..most]).ok()?;
        if (count > 0 || bytes.is_empty()) && count <= bytes.len() {
            Some(count)
        } else {
            None
        }
    }
}

impl Sink for Taker {
    ghost written = { λ _. None };

    ghost faults = { λ s. s.faults };

    fn write(&mut self, bytes: &[u8]) -> Result<usize, WriteFault> {
        match self.take(bytes) {
            Some(count) if count <= bytes.len() && (count > 0 || bytes.is_empty()) => Ok(count),
            _ => {
                self.faults = self.faults.saturating_add(1);
                Err(WriteFault::Failed)
            }
        }
    }

    fn close(&mut self) {}
}

/// Where such links come from, and where such programs are started, in order.
#[derive(Drop)]
pub struct Peers {
    left: VecDeque<(OneByOne, Taker)>,
    back: Vec<(OneByOne, Taker)>,
    out: u64,
    faults: u64,
}

impl Peers {
    pub fn new(alloc: Global, peers: Vec<(OneByOne, Taker)>) -> Peers {
        Peers {
            left: VecDeque::from(peers),
            back: Vec::new(alloc),
            out: 0,
            faults: 0,
        }
    }
}

impl Kept for Peers {
    // In the order in which they were handed back.
    fn written(&self, number: usize) -> Option<usize> {
        Some(self.back.get(number)?.1.kept.bytes().len())
    }
}

impl Port for Peers {
    type In = OneByOne;

    type Out = Taker;

    ghost sessions = { λ _. None };

    ghost links = { λ _. None };

    ghost held = { λ p. p.out };

    ghost faults = { λ p. p.faults };

    fn accept(&mut self, inn: &mut Option<OneByOne>, out: &mut Option<Taker>) -> Arrival {
        let Some(count) = self.out.checked_add(1) else {
            return Arrival::Closed;
        };
        match self.left.pop_front() {
            Some((source, sink)) => {
                *inn = Some(source);
                *out = Some(sink);
                self.out = count;
                Arrival::Link
            }
            None => Arrival::Closed,
        }
    }

    fn hang_up(&mut self, inn: &mut Option<OneByOne>, out: &mut Option<Taker>) {
        self.out -= 1;
        if let (Some(source), Some(sink)) = (inn.take(), out.take()) {
            let _ = self.back.push((source, sink));
        }
    }
}

impl Berth for Peers {
    type In = OneByOne;

    type Out = Taker;

    ghost runs = { λ _. None };

    ghost left = { λ _. None };

    ghost asked = { λ _. None };

    ghost held = { λ b. b.out };

    ghost faults = { λ b. b.faults };

    fn start(
        &mut self,
        _words: &[String],
        _folder: Option<&str>,
        inn: &mut Option<OneByOne>,
        out: &mut Option<Taker>,
    ) -> Result<(), StartFault> {
        let Some(count) = self.out.checked_add(1) else {
            return Err(StartFault::Memory);
        };
        match self.left.pop_front() {
            Some((source, sink)) => {
                *inn = Some(source);
                *out = Some(sink);
                self.out = count;
                Ok(())
            }
            None => {
                self.faults = self.faults.saturating_add(1);
                Err(StartFault::Failed)
            }
        }
    }

    fn finish(&mut self, inn: &mut Option<OneByOne>, out: &mut Option<Taker>) {
        self.out -= 1;
        if let (Some(source), Some(sink)) = (inn.take(), out.take()) {
            let _ = self.back.push((source, sink));
        }
    }
}
