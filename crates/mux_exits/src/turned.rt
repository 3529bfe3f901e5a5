//! X3: the editors of a group that ends with the program of its last start.
ghost use Rattle.std.specs.Prelude.{◌≡◌, ◌<◌, ℕ, List, Some, length, OnOk};
ghost use Rattle.std.specs.List.{All};
ghost use Rattle.event_model.specs.Does.{Does};
ghost use Rattle.event_model.specs.Event.{Event, behind};
ghost use Rattle.event_model.specs.Row.{each};
ghost use Rattle.event_model.specs.Settings.{Settings};
ghost use Rattle.group_rows.specs.ExitRows.{turn_out};
ghost use Rattle.group_words.specs.Houses.{home_of};
ghost use Rattle.mux_exits.specs.Partings.{AreHome};
ghost use Rattle.mux_starts.specs.Refusing.{IsUnready};
ghost use Rattle.mux_tables.specs.Documents.{AllStand, nothing_owed};
ghost use Rattle.mux_turns.specs.Initials.{AllHoused};
ghost use Rattle.mux_turns.specs.Welcomes.{AllAsking};

use message_body::Memory;
use mux_history::Outs;
use mux_starts::part;
use mux_tables::Tables;
use mux_turns::refuse_initialize;
use std::alloc::Global;

// The `initialize` of an editor of the group of this number fails where it waits, what waits of it is refused, and its link is to be ended.
fn turn_out(
    tables: &mut Tables,
    alloc: Global,
    outs: &mut Outs,
    g: u64,
    e: u64,
) -> Result<(), Memory>
    requires { e < length tables.old.editors }
    ensures requests { tables.new.requests ≡ tables.old.requests }
    ensures versions { tables.new.versions ≡ tables.old.versions }
    ensures lasts { tables.new.lasts ≡ tables.old.lasts }
    ensures count { OnOk result (length tables.new.editors ≡ length tables.old.editors) }
    ensures does { (settings : Settings) (base : List Event) → IsUnready g tables.old.lasts.items
        → AllAsking (behind base outs.old) → AllHoused settings (behind base outs.old) → home_of settings e (behind base outs.old) ≡ Some g
        → OnOk result (Does (λ k events. AllStand settings k events)
        (turn_out settings g e) base (tables.old, nothing_owed) outs.old (tables.new, nothing_owed) outs.new) }
{
    refuse_initialize(tables, alloc, outs, e)?;
    part(tables, alloc, outs, g, e)?;
    Ok(())
}

/// X3: each of these editors of a group, whose last start isn't ready, is turned out.
pub fn turn_out_all(
    tables: &mut Tables,
    alloc: Global,
    outs: &mut Outs,
    g: u64,
    editors: &[u64],
) -> Result<(), Memory>
    requires { All (λ e. e < length tables.old.editors) editors.now }
    ensures requests { tables.new.requests ≡ tables.old.requests }
    ensures versions { tables.new.versions ≡ tables.old.versions }
    ensures lasts { tables.new.lasts ≡ tables.old.lasts }
    ensures does { (settings : Settings) (base : List Event) → IsUnready g tables.old.lasts.items
        → AllAsking (behind base outs.old) → AllHoused settings (behind base outs.old) → AreHome settings (behind base outs.old) g editors.now
        → OnOk result (Does (λ k events. AllStand settings k events)
        (each (turn_out settings g) editors.now) base (tables.old, nothing_owed) outs.old (tables.new, nothing_owed) outs.new) }
{
    for e in editors {
        turn_out(tables, alloc, outs, g, *e)?;
    }
    Ok(())
}
