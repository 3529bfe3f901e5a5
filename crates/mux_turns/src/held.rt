//! E6, E9, S2, S3 and X3: what waits of an editor is refused.
ghost use Rattle.std.specs.Prelude.{◌≡◌, List, OnOk};
ghost use Rattle.std.specs.List.{AllByRecursion};
ghost use Rattle.event_model.specs.Does.{Does};
ghost use Rattle.event_model.specs.Event.{Event, behind};
ghost use Rattle.event_model.specs.Row.{each};
ghost use Rattle.event_model.specs.Settings.{Settings};
ghost use Rattle.group_facts.specs.group_rows.specs.Waiting.{refuse_held};
ghost use Rattle.mux_tables.specs.Documents.{DocumentsStand, Owed};
ghost use Rattle.mux_tables.specs.Stands.{Stands};
ghost use Rattle.mux_turns.specs.Initials.{IsNamed, refuse_id};
ghost use Rattle.mux_turns.specs.Welcomes.{Informs};

use crate::initials::refuse_id;
use message_body::{Body, Memory};
use mux_history::Outs;
use mux_tables::Tables;
use std::alloc::Global;

/// What is open under each of these ids at an editor fails.
pub fn refuse_ids(
    tables: &mut Tables,
    alloc: Global,
    outs: &mut Outs,
    e: u64,
    ids: &[Body],
) -> Result<(), Memory>
    ensures requests { tables.new.requests ≡ tables.old.requests }
    ensures versions { tables.new.versions ≡ tables.old.versions }
    ensures lasts { tables.new.lasts ≡ tables.old.lasts }
    ensures editors { tables.new.editors ≡ tables.old.editors }
    ensures same { tables.new.documents ≡ tables.old.documents }
    ensures told { OnOk result (Informs outs.old outs.new) }
    ensures does { (settings : Settings) (base : List Event) → AllByRecursion IsNamed ids.now
        → OnOk result (Does (λ t events. Stands settings t events) (each (refuse_id e) ids.now) base tables.old outs.old tables.new outs.new) }
    ensures documents { (settings : Settings) (owed : Owed) (base : List Event) → DocumentsStand settings owed tables.old (behind base outs.old)
        → OnOk result (DocumentsStand settings owed tables.new (behind base outs.new)) }
{
    for id in ids {
        refuse_id(tables, alloc, outs, e, id.bytes())?;
    }
    Ok(())
}

/// Each request of the editor that waits in the group of this number is refused, in the order in which they came.
pub fn refuse_held(
    tables: &mut Tables,
    alloc: Global,
    outs: &mut Outs,
    g: u64,
    e: u64,
) -> Result<(), Memory>
    ensures requests { tables.new.requests ≡ tables.old.requests }
    ensures versions { tables.new.versions ≡ tables.old.versions }
    ensures lasts { tables.new.lasts ≡ tables.old.lasts }
    ensures editors { tables.new.editors ≡ tables.old.editors }
    ensures same { tables.new.documents ≡ tables.old.documents }
    ensures told { OnOk result (Informs outs.old outs.new) }
    ensures does { (settings : Settings) (base : List Event)
        → OnOk result (Does (λ t events. Stands settings t events) (refuse_held settings g e) base tables.old outs.old tables.new outs.new) }
    ensures documents { (settings : Settings) (owed : Owed) (base : List Event) → DocumentsStand settings owed tables.old (behind base outs.old)
        → OnOk result (DocumentsStand settings owed tables.new (behind base outs.new)) }
{
    let ids = tables.waiting_ids(g, e)?;
    refuse_ids(tables, alloc, outs, e, &ids)?;
    Ok(())
}
