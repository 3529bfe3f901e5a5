// A source and a sink that never fail.
ghost use Rattle.std.specs.Prelude.{◌≡◌, ℕ, ◌≤◌, List, length, take, drop, ◌++◌, Some, None, []};

use crate::memory::source::give;
use crate::sink::{Sink, WriteFault};
use crate::source::{ReadFault, Source};

/// A source over bytes in memory that never fails.
#[derive(Drop)]
pub struct SureSource {
    bytes: Vec<u8>,
    at: usize,
    ghost in_range: { at ≤ length bytes.items },
}

impl SureSource {
    /// A source that gives these bytes and then its end.
    pub fn new(bytes: Vec<u8>) -> SureSource
        ensures left { ⟦<SureSource as Source>⟧.left result ≡ Some bytes.items }
        ensures taken { ⟦<SureSource as Source>⟧.taken result ≡ Some [] }
    {
        SureSource { bytes, at: 0 }
    }
}

impl Source for SureSource {
    ghost taken = { λ s. Some (take s.at s.bytes.items) };

    ghost left = { λ s. Some (drop s.at s.bytes.items) };

    ghost faults = { λ _. 0 };

    #[tactic(auto, using(crate::proofs::Growth::given_left, crate::proofs::Growth::given_taken))]
    fn read(&mut self, buf: &mut [u8]) -> Result<usize, ReadFault> {
        let count = give(&self.bytes[self.at..], buf);
        self.at += count;
        Ok(count)
    }
}

/// A sink that takes every byte, keeps none and tells none.
#[derive(Clone, Copy, Debug, PartialEq, Eq)]
pub struct SureSink;

impl SureSink {
    /// A sink whose writes all succeed.
    pub fn new() -> SureSink {
        SureSink
    }
}

impl Sink for SureSink {
    ghost written = { λ _. None };

    ghost faults = { λ _. 0 };

    fn write(&mut self, bytes: &[u8]) -> Result<usize, WriteFault> {
        Ok(bytes.len())
    }

    fn close(&mut self) {}
}
