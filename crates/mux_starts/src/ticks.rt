//! X7: groups without editors end, and programs that don't answer `shutdown`.
ghost use Rattle.std.specs.Prelude.{◌≡◌, List, [], OnOk};
ghost use Rattle.event_model.specs.declared.stage.Stage.TheVariants.{Stopping};
ghost use Rattle.event_model.specs.Does.{Does, Done};
ghost use Rattle.event_model.specs.Event.{Event, behind, with_cause};
ghost use Rattle.event_model.specs.Row.{each, send};
ghost use Rattle.event_model.specs.Settings.{Settings};
ghost use Rattle.event_model.specs.Stages.{life_of};
ghost use Rattle.mux_turns.specs.group_facts.specs.Facts.{Known};
ghost use Rattle.group_rows.specs.Rows.{row_of};
ghost use Rattle.group_rows.specs.Ticks.{is_stopping};
ghost use Rattle.mux_history.specs.declared.cause.Cause.TheVariants.{Tick};
ghost use Rattle.mux_history.specs.declared.out.Out.TheVariants.{EndServer};
ghost use Rattle.mux_starts.specs.Stops.{AreStopping};
ghost use Rattle.mux_tables.specs.Documents.{AllStand, DocumentsStand, nothing_owed};
ghost use Rattle.mux_tables.specs.Stands.{Stands};

use event_model::Stage;
use message_body::Memory;
use mux_history::Outs;
use mux_tables::Tables;
use mux_turns::{end_groups, stage_at};
use std::alloc::Global;

// Whether its answer to `shutdown` is awaited.
fn is_stopping(stage: Stage) -> bool
    ensures { result ≡ is_stopping stage }
{
    matches!(stage, Stage::Stopping)
}

// The program of a start that was sent `shutdown` is to be ended.
fn end_program(tables: &mut Tables, outs: &mut Outs, s: u64) -> Result<(), Memory>
    ensures requests { tables.new.requests ≡ tables.old.requests }
    ensures versions { tables.new.versions ≡ tables.old.versions }
    ensures does { (settings : Settings) (base : List Event) → (life_of s (behind base outs.old)).stage ≡ Stopping
        → OnOk result (Does (λ k events. AllStand settings k events)
        (send (EndServer s)) base (tables.old, nothing_owed) outs.old (tables.new, nothing_owed) outs.new) }
{
    match tables.last(s) {
        None => Ok(()),
        Some(g) => {
            if is_stopping(stage_at(tables, g)) {
                tables.end(outs, g)?;
            }
            Ok(())
        }
    }
}

// The programs of these starts, one after the other.
fn end_programs(tables: &mut Tables, outs: &mut Outs, starts: &[u64]) -> Result<(), Memory>
    ensures requests { tables.new.requests ≡ tables.old.requests }
    ensures versions { tables.new.versions ≡ tables.old.versions }
    ensures does { (settings : Settings) (base : List Event) → AreStopping (behind base outs.old) starts.now
        → OnOk result (Does (λ k events. AllStand settings k events)
        (each (λ s. send (EndServer s)) starts.now) base (tables.old, nothing_owed) outs.old (tables.new, nothing_owed) outs.new) }
{
    for s in starts {
        end_program(tables, outs, *s)?;
    }
    Ok(())
}

/// X7: the time becomes this many seconds, unless it is later. The groups, rising, that have no editor for as long as they may end:
/// the last start of each is sent `shutdown` where it is ready, and its program is to be ended where it gave no result yet. Then the
/// programs are to be ended, rising, of the starts that were sent `shutdown` before and didn't answer for `grace` seconds.
pub fn take_tick(
    tables: &mut Tables,
    alloc: Global,
    outs: &mut Outs,
    now: u64,
    grace: u64,
) -> Result<(), Memory>
    ensures requests { tables.new.requests ≡ tables.old.requests }
    ensures versions { tables.new.versions ≡ tables.old.versions }
    ensures does { (settings : Settings) (before : List Event) → outs.old ≡ [] → settings.limits.grace ≡ grace → Known settings before
        → Stands settings tables.old before → DocumentsStand settings nothing_owed tables.old before
        → OnOk result (Done (λ k events. AllStand settings k events) (row_of settings before (Tick now))
        (with_cause before (Tick now)) [] (tables.new, nothing_owed) outs.new) }
{
    let late = tables.overdue(alloc, now, grace)?;
    let due = tables.hear_tick(now)?;
    end_groups(tables, alloc, outs, &due)?;
    end_programs(tables, outs, &late)?;
    Ok(())
}
