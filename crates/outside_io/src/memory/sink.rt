// A sink in memory.
ghost use Rattle.std.specs.Prelude.{◌≡◌, ℕ, ◌≤◌, List, length, take, ◌++◌, Some, []};

use crate::meter::Meter;
use crate::sink::{Sink, WriteFault};
use std::alloc::Global;

/// A sink that keeps its bytes in memory.
///
/// The writes whose numbers, from 0, stand in `fails` fail, and so does one that finds no memory. A meter is raised by
/// the bytes that were taken.
#[derive(Drop)]
pub struct MemSink {
    bytes: Vec<u8>,
    fails: Vec<u64>,
    meter: Option<Meter>,
    calls: u64,
    faults: u64,
}

impl MemSink {
    /// A sink that has no bytes yet. Writes are numbered from 0; those in `fails` fail. What is
    /// written is counted by `meter`.
    pub fn new(alloc: Global, fails: Vec<u64>, meter: Option<Meter>) -> MemSink
        ensures written { ⟦<MemSink as Sink>⟧.written result ≡ Some [] }
        ensures faults { ⟦<MemSink as Sink>⟧.faults result ≡ 0 }
    {
        MemSink {
            bytes: Vec::new(alloc),
            fails,
            meter,
            calls: 0,
            faults: 0,
        }
    }

    /// The bytes written.
    pub fn bytes(&self) -> &[u8]
        ensures { ⟦<MemSink as Sink>⟧.written self.now ≡ Some result.now }
    {
        self.bytes.as_slice()
    }
}

impl Sink for MemSink {
    ghost written = { λ s. Some s.bytes.items };

    ghost faults = { λ s. s.faults };

    fn write(&mut self, bytes: &[u8]) -> Result<usize, WriteFault> {
        let fails = self.fails.contains(&self.calls);
        self.calls = self.calls.saturating_add(1);
        if fails || self.bytes.extend_from_slice(bytes).is_err() {
            self.faults = self.faults.saturating_add(1);
            return Err(WriteFault::Failed);
        }
        if let Some(meter) = &self.meter {
            meter.add(bytes.len() as u64);
        }
        Ok(bytes.len())
    }

    fn close(&mut self) {}
}
