// Which causes can come.
ghost use Rattle.std.specs.Prelude.{◌≡◌, List, nat_le};
ghost use Rattle.event_model.specs.Event.{Event};
ghost use Rattle.event_model.specs.Phases.{backlog_of, desk_of, is_linked};
ghost use Rattle.event_model.specs.Settings.{Settings};
ghost use Rattle.event_model.specs.Stages.{life_of, may_start, runs};
ghost use Rattle.mux_causes.specs.Backlogs.{BacklogsStand};
ghost use Rattle.mux_turns.specs.mux_model.specs.Fits.{fits_behind};
ghost use Rattle.mux_turns.specs.mux_tables.specs.Stands.{Stands};

use crate::backlogs::Backlogs;
use mux_history::Cause;
use mux_turns::mux_tables::{Start, Tables};

// Whether the link of an editor isn't gone.
fn is_linked(tables: &Tables, e: u64) -> bool
    ensures { (settings : Settings) (events : List Event) → Stands settings tables.now events → result ≡ is_linked (desk_of e events).phase }
{
    tables.phase(e).is_linked()
}

// Whether so many bytes are on their way to an editor.
#[tactic(auto, using(crate::proofs::Counting::owed_some, crate::proofs::Counting::owed_none))]
fn is_owed(backlogs: &Backlogs, e: u64, bytes: u64) -> bool
    ensures { (events : List Event) → BacklogsStand backlogs.now events → result ≡ nat_le bytes (backlog_of e events) }
{
    match backlogs.count(e) {
        Some(count) => bytes <= count,
        None => bytes == 0,
    }
}

// Whether the program of a start may yet run, or fail to.
fn awaits(start: &Start) -> bool
    ensures { result ≡ may_start (record { stage = start.now.life.stage; started = start.now.started }) }
{
    start.life.stage().may_begin() && !start.started
}

// Whether it runs.
fn is_up(start: &Start) -> bool
    ensures { result ≡ runs (record { stage = start.now.life.stage; started = start.now.started }) }
{
    start.started && !start.life.stage().is_ended()
}

// The same of the start of a number; one that is no group's last is over.
fn may_start(tables: &Tables, s: u64) -> bool
    ensures { (settings : Settings) (events : List Event) → Stands settings tables.now events → result ≡ may_start (life_of s events) }
{
    match tables.last(s) {
        Some(g) => awaits(&tables.lasts[g]),
        None => false,
    }
}

fn runs(tables: &Tables, s: u64) -> bool
    ensures { (settings : Settings) (events : List Event) → Stands settings tables.now events → result ≡ runs (life_of s events) }
{
    match tables.last(s) {
        Some(g) => is_up(&tables.lasts[g]),
        None => false,
    }
}

/// E1: whether this cause can come now.
pub fn fits(tables: &Tables, backlogs: &Backlogs, cause: &Cause) -> bool
    ensures { (settings : Settings) (events : List Event) → Stands settings tables.now events → BacklogsStand backlogs.now events
        → result ≡ fits_behind events cause.now }
{
    match cause {
        Cause::Joined(e) => *e == tables.editors.count(),
        Cause::FromEditor(e, _) => is_linked(tables, *e),
        Cause::EditorGone(e, _) => is_linked(tables, *e),
        Cause::Drained(e, bytes) => is_linked(tables, *e) && is_owed(backlogs, *e, *bytes),
        Cause::Started(s) => may_start(tables, *s),
        Cause::StartFailed(s) => may_start(tables, *s),
        Cause::FromServer(s, _) => runs(tables, *s),
        Cause::ServerGone(s) => runs(tables, *s),
        Cause::Tick(_) => true,
    }
}
