//! E6 and X3: the `initialize` of an editor that waits fails.
ghost use Rattle.std.specs.Prelude.{◌≡◌, ◌<◌, List, length, OnOk};
ghost use Rattle.event_model.specs.Does.{Does};
ghost use Rattle.event_model.specs.Event.{Event, behind};
ghost use Rattle.event_model.specs.Phases.{is_waiting};
ghost use Rattle.event_model.specs.Settings.{Settings};
ghost use Rattle.group_facts.specs.group_rows.specs.StopRows.{refuse_initialize};
ghost use Rattle.mux_tables.specs.Documents.{DocumentsStand, Owed};
ghost use Rattle.mux_tables.specs.Stands.{Stands};
ghost use Rattle.mux_turns.specs.Initials.{AllHoused, IsNamed, refuse_id};
ghost use Rattle.mux_turns.specs.Welcomes.{AllAsking, Informs};

use event_model::Phase;
use message_body::Memory;
use mux_history::Outs;
use mux_tables::Tables;
use rpc_message::{ErrorCode, error_answer};
use std::alloc::Global;

/// What is open under this id at an editor fails.
pub fn refuse_id(
    tables: &mut Tables,
    alloc: Global,
    outs: &mut Outs,
    e: u64,
    id: &[u8],
) -> Result<(), Memory>
    ensures requests { tables.new.requests ≡ tables.old.requests }
    ensures versions { tables.new.versions ≡ tables.old.versions }
    ensures lasts { tables.new.lasts ≡ tables.old.lasts }
    ensures editors { tables.new.editors ≡ tables.old.editors }
    ensures same { tables.new.documents ≡ tables.old.documents }
    ensures told { OnOk result (Informs outs.old outs.new) }
    ensures does { (settings : Settings) (base : List Event) → IsNamed id.now
        → OnOk result (Does (λ t events. Stands settings t events) (refuse_id e id.now) base tables.old outs.old tables.new outs.new) }
    ensures documents { (settings : Settings) (owed : Owed) (base : List Event) → DocumentsStand settings owed tables.old (behind base outs.old)
        → OnOk result (DocumentsStand settings owed tables.new (behind base outs.new)) }
{
    let text = error_answer(alloc, id, ErrorCode::RequestFailed)?;
    tables.answer(outs, e, id, text)?;
    Ok(())
}

// It waits for the answer to its `initialize`.
fn is_waiting(phase: Phase) -> bool
    ensures { result ≡ is_waiting phase }
{
    matches!(phase, Phase::Waiting)
}

/// Its `initialize` does, where it waits.
pub fn refuse_initialize(
    tables: &mut Tables,
    alloc: Global,
    outs: &mut Outs,
    e: u64,
) -> Result<(), Memory>
    requires { e < length tables.old.editors }
    ensures requests { tables.new.requests ≡ tables.old.requests }
    ensures versions { tables.new.versions ≡ tables.old.versions }
    ensures lasts { tables.new.lasts ≡ tables.old.lasts }
    ensures editors { tables.new.editors ≡ tables.old.editors }
    ensures does { (settings : Settings) (base : List Event) → AllAsking (behind base outs.old) → AllHoused settings (behind base outs.old)
        → OnOk result (Does (λ t events. Stands settings t events) (refuse_initialize e) base tables.old outs.old tables.new outs.new) }
    ensures documents { (settings : Settings) (owed : Owed) (base : List Event) → DocumentsStand settings owed tables.old (behind base outs.old)
        → OnOk result (DocumentsStand settings owed tables.new (behind base outs.new)) }
{
    if !is_waiting(tables.phase(e)) {
        return Ok(());
    }
    match tables.initialize_id(e) {
        None => Ok(()),
        Some(id) => {
            let own = id.copy(alloc)?;
            refuse_id(tables, alloc, outs, e, own.bytes())?;
            Ok(())
        }
    }
}
