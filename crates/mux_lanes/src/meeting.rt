// Threads that go side by side, each of which waits as it begins until all of them have begun.
use std::sync::atomic::{AtomicU64, Ordering};
use std::thread;

// How often a thread lets others go on before it takes it that one of them couldn't be made.
const TURNS: u64 = 10_000_000;

/// Threads that are to go side by side.
///
/// Where the system can't make a thread, its call runs behind another's, which may wait for it without end. So each of them
/// comes here first.
#[derive(Drop)]
pub struct Meeting {
    expected: u64,
    came: AtomicU64,
}

impl Meeting {
    /// A meeting of so many threads.
    pub fn new(expected: u64) -> Meeting {
        Meeting {
            expected,
            came: AtomicU64::new(0),
        }
    }

    // Whether all came.
    fn is_full(&self) -> bool {
        self.came.load(Ordering::SeqCst) >= self.expected
    }

    /// Comes, and waits until all others came. False says that one of them didn't for 10,000,000 turns of the processor: no
    /// thread could be made for it.
    pub fn meet(&self) -> bool {
        self.came.fetch_add(1, Ordering::SeqCst);
        for _ in 0..TURNS {
            if self.is_full() {
                return true;
            }
            thread::yield_now();
        }
        self.is_full()
    }
}
