// A source and a sink that move a few bytes at a time.
ghost use Rattle.std.specs.Prelude.{◌≡◌, ℕ, ◌≤◌, ◌<◌, length, take, OnErr};

use crate::ending::Ending;
use crate::sink::{Sink, WriteFault};
use crate::source::{ReadFault, Source};

/// A source whose reads give at most `most` bytes.
///
/// It tells what the one within tells, and has its count of faults.
#[derive(Drop)]
pub struct Drip<S> {
    source: S,
    most: usize,
    ghost some: { 1 ≤ most },
}

impl<S: Source> Drip<S> {
    /// A source that gives what `source` gives, at most `most` bytes at a time.
    pub fn new(source: S, most: usize) -> Drip<S>
        requires { 1 ≤ most }
        ensures taken { ⟦<Drip<S> as Source>⟧.taken result ≡ S.taken source }
        ensures left { ⟦<Drip<S> as Source>⟧.left result ≡ S.left source }
        ensures faults { ⟦<Drip<S> as Source>⟧.faults result ≡ S.faults source }
    {
        Drip { source, most }
    }

    /// The source within.
    pub fn into_inner(self) -> S
        ensures taken { S.taken result ≡ ⟦<Drip<S> as Source>⟧.taken self }
        ensures left { S.left result ≡ ⟦<Drip<S> as Source>⟧.left self }
        ensures faults { S.faults result ≡ ⟦<Drip<S> as Source>⟧.faults self }
    {
        self.source
    }
}

impl<S: Source> Source for Drip<S> {
    ghost taken = { λ s. S.taken s.source };

    ghost left = { λ s. S.left s.source };

    ghost faults = { λ s. S.faults s.source };

    fn read(&mut self, buf: &mut [u8]) -> Result<usize, ReadFault> {
        let most = self.most.min(buf.len());
        self.source.read(&mut buf[..most])
    }
}

/// A sink whose writes take at most `most` bytes.
///
/// It tells what the one within tells, and has its count of faults.
#[derive(Drop)]
pub struct Sip<S> {
    sink: S,
    most: usize,
    ghost some: { 1 ≤ most },
}

impl<S: Sink> Sip<S> {
    /// A sink that writes to `sink`, at most `most` bytes at a time.
    pub fn new(sink: S, most: usize) -> Sip<S>
        requires { 1 ≤ most }
        ensures written { ⟦<Sip<S> as Sink>⟧.written result ≡ S.written sink }
        ensures faults { ⟦<Sip<S> as Sink>⟧.faults result ≡ S.faults sink }
    {
        Sip { sink, most }
    }

    /// The sink within.
    pub fn into_inner(self) -> S
        ensures written { S.written result ≡ ⟦<Sip<S> as Sink>⟧.written self }
        ensures faults { S.faults result ≡ ⟦<Sip<S> as Sink>⟧.faults self }
    {
        self.sink
    }
}

impl<S: Sink> Sink for Sip<S> {
    ghost written = { λ s. S.written s.sink };

    ghost faults = { λ s. S.faults s.sink };

    fn heed(&mut self, ending: Ending) {
        self.sink.heed(ending);
    }

    fn write(&mut self, bytes: &[u8]) -> Result<usize, WriteFault> {
        let most = self.most.min(bytes.len());
        self.sink.write(&bytes[..most])
    }

    fn close(&mut self) {
        self.sink.close();
    }
}
