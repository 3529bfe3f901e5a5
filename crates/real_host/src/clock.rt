// The clock of this machine.
ghost use Rattle.std.specs.Prelude.{◌≡◌, ◌≤◌, ℕ, List, Option, None};

use outside_io::Clock;
use std::time::{Duration, Instant};
use std::{io, thread};

/// A clock that gives the seconds since it was made, one moment each second. It has no end, and its moments never fall:
/// where the system's clock can't be read it gives the moment behind the last one.
#[derive(Drop)]
pub struct RealClock {
    rt: HostRuntime,
    start: Instant,
    last: u64,
}

impl RealClock {
    /// A clock that starts now.
    pub fn new(rt: HostRuntime) -> io::Result<RealClock> {
        let start = Instant::now(&rt)?;
        Ok(RealClock { rt, start, last: 0 })
    }

    // The seconds that have passed.
    fn moment(&mut self) -> u64
        ensures last { self.new.last ≡ result }
        ensures rises { self.old.last ≤ result }
    {
        let passed = match self.start.elapsed(&self.rt) {
            Ok(passed) => passed.as_secs(),
            Err(_) => self.last.saturating_add(1),
        };
        self.last = self.last.max(passed);
        self.last
    }
}

impl Clock for RealClock {
    ghost given = { λ _. None };

    ghost left = { λ _. None };

    fn next(&mut self) -> Option<u64> {
        thread::sleep(&self.rt, Duration::from_secs(1));
        Some(self.moment())
    }
}
