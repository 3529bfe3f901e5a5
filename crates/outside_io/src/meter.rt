// A number that two threads share, and a gate that waits for it.

use std::alloc::{AllocError, AllocFailed, Global};
use std::sync::Arc;
use std::sync::atomic::{AtomicU64, Ordering};
use std::thread;

/// Memory was wanted.
#[derive(Clone, Copy, Debug, PartialEq, Eq)]
pub struct Memory;

impl From<AllocError> for Memory {
    fn from(_: AllocError) -> Memory {
        Memory
    }
}

impl<T: Drop> From<AllocFailed<T>> for Memory {
    fn from(_: AllocFailed<T>) -> Memory {
        Memory
    }
}

/// The number of bytes that a sink in memory took, which any thread may read.
#[derive(Drop)]
pub struct Meter {
    count: Arc<AtomicU64, Global>,
}

impl Meter {
    /// A meter that shows 0.
    pub fn new(alloc: Global) -> Result<Meter, Memory> {
        let count = Arc::new(alloc, AtomicU64::new(0))?;
        Ok(Meter { count })
    }

    /// Another owner of the same number.
    pub fn share(&self) -> Result<Meter, Memory> {
        let count = Arc::try_clone(&self.count)?;
        Ok(Meter { count })
    }

    pub(crate) fn add(&self, bytes: u64) {
        self.count.fetch_add(bytes, Ordering::SeqCst);
    }

    pub(crate) fn shown(&self) -> u64 {
        self.count.load(Ordering::SeqCst)
    }
}

/// What a read of a source in memory waits for.
///
/// The read of number `read`, from 0, waits until the meter shows at least `bytes`, for at most `turns` turns, in each
/// of which other threads may run; then it fails.
#[derive(Drop)]
pub struct Gate {
    pub read: u64,
    pub meter: Meter,
    pub bytes: u64,
    pub turns: u64,
}

impl Gate {
    /// Waits, and says whether the meter shows enough.
    pub(crate) fn opens(&self) -> bool {
        for _ in 0..self.turns {
            if self.meter.shown() >= self.bytes {
                return true;
            }
            thread::yield_now();
        }
        self.meter.shown() >= self.bytes
    }
}
