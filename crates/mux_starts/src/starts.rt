//! The daemon's `initialize` to a start whose program runs.
ghost use Rattle.std.specs.Prelude.{◌≡◌, ◌<◌, ℕ, List, [], map, Some, length, OnOk, slice_get, true};
ghost use Rattle.event_model.specs.Does.{Does, Done};
ghost use Rattle.event_model.specs.Event.{Event, behind, with_cause};
ghost use Rattle.event_model.specs.Settings.{Settings};
ghost use Rattle.mux_turns.specs.group_facts.specs.Facts.{Known};
ghost use Rattle.mux_turns.specs.group_facts.specs.Settled.{Settled};
ghost use Rattle.group_rows.specs.Rows.{begin_in, row_of};
ghost use Rattle.group_words.specs.declared.kept.Kept.{Kept};
ghost use Rattle.group_words.specs.Houses.{groups_of};
ghost use Rattle.mux_history.specs.declared.cause.Cause.TheVariants.{Started};
ghost use Rattle.mux_model.specs.Fits.{fits_behind};
ghost use Rattle.mux_starts.specs.Openings.{IsOpening, is_spawning};
ghost use Rattle.mux_tables.specs.declared.tables.Start.{Start};
ghost use Rattle.mux_tables.specs.Documents.{AllStand, DocumentsStand, Owed, nothing_owed};
ghost use Rattle.mux_tables.specs.Stands.{Stands, number_in};

use event_model::Stage;
use message_body::Memory;
use mux_history::Outs;
use mux_tables::Tables;
use mux_turns::opening;
use std::alloc::Global;

// Whether a start's program is awaited.
fn is_spawning(stage: Stage) -> bool
    ensures { result ≡ is_spawning stage }
{
    matches!(stage, Stage::Spawning)
}

// A start's program runs: it is sent the daemon's `initialize`, of the group's key and of what is declared.
fn begin(tables: &Tables, alloc: Global, outs: &mut Outs, g: usize) -> Result<(), Memory>
    requires { g < length tables.now.lasts.items }
    ensures does { (settings : Settings) (before : List Event) (s : ℕ) → slice_get (map number_in tables.now.lasts.items) g ≡ Some s → outs.old ≡ []
        → (z : Start) → slice_get tables.now.lasts.items g ≡ Some z → ((x : Kept) → slice_get (groups_of settings before) z.life.group ≡ Some x → IsOpening x)
        → OnOk result (Does (λ t events. Stands settings t events) (begin_in settings before s z.life.group)
        (with_cause before (Started s)) tables.now outs.old tables.now outs.new) }
    ensures documents { (settings : Settings) (owed : Owed) (before : List Event) (s : ℕ) → outs.old ≡ []
        → (z : Start) → slice_get tables.now.lasts.items g ≡ Some z → ((x : Kept) → slice_get (groups_of settings before) z.life.group ≡ Some x → IsOpening x)
        → Stands settings tables.now (behind (with_cause before (Started s)) outs.old)
        → DocumentsStand settings owed tables.now (behind (with_cause before (Started s)) outs.old)
        → OnOk result (DocumentsStand settings owed tables.now (behind (with_cause before (Started s)) outs.new)) }
{
    match tables.kept(tables.group_number(g)) {
        None => Ok(()),
        Some(kept) => {
            let text = opening(alloc, kept)?;
            tables.notify(outs, g, text)?;
            Ok(())
        }
    }
}

// The program of the group's last start runs: the start is sent `initialize`, where its program was awaited.
fn start_at(tables: &mut Tables, alloc: Global, outs: &mut Outs, g: usize) -> Result<(), Memory>
    requires { g < length tables.old.lasts.items }
    ensures requests { tables.new.requests ≡ tables.old.requests }
    ensures versions { tables.new.versions ≡ tables.old.versions }
    ensures does { (settings : Settings) (before : List Event) (s : ℕ) → slice_get (map number_in tables.old.lasts.items) g ≡ Some s → outs.old ≡ []
        → Known settings before → Settled settings before → Stands settings tables.old before → DocumentsStand settings nothing_owed tables.old before
        → OnOk result (Done (λ k events. AllStand settings k events) (row_of settings before (Started s))
        (with_cause before (Started s)) [] (tables.new, nothing_owed) outs.new) }
{
    let awaited = is_spawning(tables.stage(g));
    tables.hear_started(g);
    if !awaited {
        return Ok(());
    }
    begin(tables, alloc, outs, g)?;
    Ok(())
}

/// A start's program runs: where it was awaited, the start is sent the daemon's `initialize` (LSP 3.17, Initialize Request); where it
/// is to end already, nothing.
pub fn take_started(
    tables: &mut Tables,
    alloc: Global,
    outs: &mut Outs,
    s: u64,
) -> Result<(), Memory>
    ensures requests { tables.new.requests ≡ tables.old.requests }
    ensures versions { tables.new.versions ≡ tables.old.versions }
    ensures does { (settings : Settings) (before : List Event) → outs.old ≡ [] → Known settings before → Settled settings before
        → fits_behind before (Started s) ≡ true → Stands settings tables.old before → DocumentsStand settings nothing_owed tables.old before
        → OnOk result (Done (λ k events. AllStand settings k events) (row_of settings before (Started s))
        (with_cause before (Started s)) [] (tables.new, nothing_owed) outs.new) }
{
    match tables.last(s) {
        None => Ok(()),
        Some(g) => {
            start_at(tables, alloc, outs, g)?;
            Ok(())
        }
    }
}
