// A clock of set moments.
ghost use Rattle.std.specs.Prelude.{◌≡◌, ℕ, ◌≤◌, List, [], ◌∷◌, length, take, drop, IfSome, IfNone, Option, Some};

use crate::clock::Clock;

/// A clock that gives its moments in order, without waiting.
#[derive(Drop)]
pub struct SetClock {
    moments: Vec<u64>,
    at: usize,
    ghost in_range: { at ≤ length moments.items },
}

impl SetClock {
    /// A clock that gives these moments, in seconds, in this order, and then none.
    pub fn new(moments: Vec<u64>) -> SetClock
        ensures given { ⟦<SetClock as Clock>⟧.given result ≡ Some [] }
        ensures left { ⟦<SetClock as Clock>⟧.left result ≡ Some moments.items }
    {
        SetClock { moments, at: 0 }
    }
}

impl Clock for SetClock {
    ghost given = { λ c. Some (take c.at c.moments.items) };

    ghost left = { λ c. Some (drop c.at c.moments.items) };

    fn next(&mut self) -> Option<u64> {
        let moment = *self.moments.get(self.at)?;
        self.at += 1;
        Some(moment)
    }
}
