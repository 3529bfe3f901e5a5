// How long a sink waits for a peer that takes nothing.
use outside_io::Ending;
use std::thread;
use std::time::{Duration, Instant};

// How many seconds a sink still writes once it saw that the end of its session was ordered.
const LAST_SECONDS: u64 = 2;

// How many milliseconds lie before a write is made again.
const PAUSE_MILLIS: u64 = 5;

/// Whether a sink still waits for its peer: as long as its session goes on, and for two seconds more.
#[derive(Drop)]
pub(crate) struct Patience {
    rt: HostRuntime,
    session: Option<Ending>,
    // When the session was first seen to be ordered to end.
    ordered: Option<Instant>,
}

impl Patience {
    /// Without a session, for as long as it takes.
    pub(crate) fn endless(rt: HostRuntime) -> Patience {
        Patience {
            rt,
            session: None,
            ordered: None,
        }
    }

    /// From now on by this session.
    pub(crate) fn heed(&mut self, session: Ending) {
        self.session = Some(session);
        self.ordered = None;
    }

    fn is_ordered(&self) -> bool {
        match &self.session {
            Some(session) => session.is_ordered(),
            None => false,
        }
    }

    /// Whether it is over. Where the clock can't be read, it is over with the order.
    pub(crate) fn is_over(&mut self) -> bool {
        if !self.is_ordered() {
            return false;
        }
        let Ok(now) = Instant::now(&self.rt) else {
            return true;
        };
        match self.ordered {
            Some(ordered) => now.duration_since(ordered) >= Duration::from_secs(LAST_SECONDS),
            None => {
                self.ordered = Some(now);
                false
            }
        }
    }

    /// Waits for a moment before a write is made again, for a stream that doesn't wait itself.
    pub(crate) fn pause(&self) {
        thread::sleep(&self.rt, Duration::from_millis(PAUSE_MILLIS));
    }
}
