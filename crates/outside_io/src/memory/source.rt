// A source in memory.
ghost use Rattle.std.specs.Prelude.{◌≡◌, ℕ, ◌≤◌, List, length, take, drop, ◌++◌, min, Some, [], IfSome};

use crate::meter::Gate;
use crate::source::{ReadFault, Source};

// Copies the front of `from` to the front of `buf`, and says how much.
pub(crate) fn give(from: &[u8], buf: &mut [u8]) -> usize
    ensures count { result ≡ min (length from.now) (length buf.old) }
    ensures front { take result buf.new ≡ take result from.now }
{
    let count = from.len().min(buf.len());
    buf[..count].copy_from_slice(&from[..count]);
    count
}

/// A source over bytes in memory.
///
/// The reads whose numbers, from 0, stand in `fails` fail, and so does one whose gate stays shut.
#[derive(Drop)]
pub struct MemSource {
    bytes: Vec<u8>,
    at: usize,
    fails: Vec<u64>,
    gate: Option<Gate>,
    calls: u64,
    faults: u64,
    ghost in_range: { at ≤ length bytes.items },
}

impl MemSource {
    /// A source that gives these bytes and then its end. Reads are numbered from 0; those in
    /// `fails` fail.
    pub fn new(bytes: Vec<u8>, fails: Vec<u64>, gate: Option<Gate>) -> MemSource
        ensures left { ⟦<MemSource as Source>⟧.left result ≡ Some bytes.items }
        ensures taken { ⟦<MemSource as Source>⟧.taken result ≡ Some [] }
        ensures faults { ⟦<MemSource as Source>⟧.faults result ≡ 0 }
    {
        MemSource {
            bytes,
            at: 0,
            fails,
            gate,
            calls: 0,
            faults: 0,
        }
    }

    /// The bytes that reads gave.
    pub fn taken(&self) -> &[u8]
        ensures { ⟦<MemSource as Source>⟧.taken self.now ≡ Some result.now }
    {
        &self.bytes[..self.at]
    }

    // Whether this call of `read` fails.
    fn fails(&self) -> bool {
        if self.fails.contains(&self.calls) {
            return true;
        }
        match &self.gate {
            Some(gate) => gate.read == self.calls && !gate.opens(),
            None => false,
        }
    }
}

impl Source for MemSource {
    ghost taken = { λ s. Some (take s.at s.bytes.items) };

    ghost left = { λ s. Some (drop s.at s.bytes.items) };

    ghost faults = { λ s. s.faults };

    #[tactic(auto, using(crate::proofs::Growth::given_left, crate::proofs::Growth::given_taken))]
    fn read(&mut self, buf: &mut [u8]) -> Result<usize, ReadFault> {
        let fails = self.fails();
        self.calls = self.calls.saturating_add(1);
        if fails {
            self.faults = self.faults.saturating_add(1);
            return Err(ReadFault::Failed);
        }
        let count = give(&self.bytes[self.at..], buf);
        self.at += count;
        Ok(count)
    }
}
