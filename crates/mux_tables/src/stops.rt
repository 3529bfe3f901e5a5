// Starts that were sent `shutdown`.
ghost use Rattle.std.specs.Prelude.{◌≡◌, ◌<◌, ◌++◌, ◌∷◌, ℕ, List, IfOk, OnOk};
ghost use Rattle.std.specs.List.{AllByRecursion};
ghost use Rattle.event_model.specs.Event.{Event};
ghost use Rattle.event_model.specs.Settings.{Settings};
ghost use Rattle.group_laws.specs.group_rows.specs.Ticks.{overdue_of};
ghost use Rattle.group_words.specs.Placing.{is_since};
ghost use Rattle.mux_tables.specs.Stands.{Stands, unstopped};
ghost use Rattle.mux_tables.specs.Stops.{awaited_stop};

use crate::seats::later;
use crate::tables::Tables;
use message_body::Memory;
use std::alloc::Global;

// The answer of this start is awaited from now on, which goes to its place among the others, by a bisection.
pub fn begin_stop(stopping: &mut Vec<u64>, s: u64) -> Result<(), Memory>
    ensures { (low high : List ℕ) → stopping.old.items ≡ low ++ high → AllByRecursion (λ n. n < s) low → AllByRecursion (λ n. s < n) high
        → OnOk result (stopping.new.items ≡ low ++ s ∷ high) }
{
    let at = stopping.partition_point(|n| *n < s);
    stopping.insert(at, s)?;
    Ok(())
}

// And not any more.
pub fn end_stop(stopping: &mut Vec<u64>, s: u64)
    ensures { stopping.new.items ≡ unstopped s stopping.old.items }
{
    stopping.retain(|n| s != *n);
}

// There is such a moment, and it lies this many seconds back.
fn is_since(limit: u64, now: u64, moment: Option<u64>) -> bool
    ensures { result ≡ is_since limit now moment }
{
    match moment {
        None => false,
        Some(moment) => moment as u128 + limit as u128 <= now as u128,
    }
}

impl Tables {
    // The moment at which this start was sent `shutdown`, as long as the answer is awaited.
    fn stop(&self, s: u64) -> Option<u64>
        ensures { (settings : Settings) (events : List Event) → Stands settings self.now events → result ≡ awaited_stop s events }
    {
        let place = self.last(s)?;
        let (_, moment) = self.lasts[place].life.stopping()?;
        Some(moment)
    }

    /// X7: the starts, rising, whose answer to `shutdown` is awaited for `grace` seconds or more, where the time becomes this many
    /// seconds.
    pub fn overdue(&self, alloc: Global, now: u64, grace: u64) -> Result<Vec<u64>, Memory>
        ensures { (settings : Settings) (before : List Event) → settings.limits.grace ≡ grace → Stands settings self.now before
            → IfOk result (λ late. late.items ≡ overdue_of settings before now) }
    {
        let now = later(self.course.time, now);
        let mut late = Vec::from_slice(alloc, self.origins.stopping.as_slice())?;
        late.retain(|s| is_since(grace, now, self.stop(*s)));
        Ok(late)
    }
}
