//! X1 and X2: editors are told what they lose.
ghost use Rattle.std.specs.Prelude.{◌≡◌, ◌<◌, ℕ, List, None, length, IfOk, IsUtf8, OnOk};
ghost use Rattle.std.specs.List.{AllByRecursion};
ghost use Rattle.event_model.specs.Does.{Does};
ghost use Rattle.event_model.specs.Event.{Event, behind};
ghost use Rattle.event_model.specs.Row.{each};
ghost use Rattle.event_model.specs.Settings.{Settings};
ghost use Rattle.group_rows.specs.Asks.{asking_of};
ghost use Rattle.group_rows.specs.ExitRows.{empty_text};
ghost use Rattle.group_rows.specs.Live.{unregister_text};
ghost use Rattle.mux_exits.specs.Losses.{CanLose, IsInside, loss_row};
ghost use Rattle.mux_tables.specs.Documents.{AllStand, nothing_owed};
ghost use Rattle.mux_turns.specs.Calls.{IsCall};

use crate::losses::Loss;
use group_rows::registrations::Registration;
use message_body::{Body, Memory};
use mux_history::Outs;
use mux_tables::Tables;
use mux_turns::{call_unregistered_any, quoted, refuse_id};
use rpc_message::notification;
use std::alloc::Global;

// The notification that of the document of this URI there are no diagnostics (LSP 3.17, Publish Diagnostics).
fn empty_text(alloc: Global, uri: &[u8]) -> Result<Body, Memory>
    ensures { IsUtf8 uri.now → IfOk result (λ body. body ≡ empty_text uri.now) }
{
    let uri = quoted(alloc, uri)?;
    let mut params = Vec::new(alloc);
    params.extend_from_slice("{\"uri\":".as_bytes())?;
    params.extend_from_slice(uri.bytes())?;
    params.extend_from_slice(",\"diagnostics\":[]}".as_bytes())?;
    notification(
        alloc,
        "textDocument/publishDiagnostics",
        Some(params.as_slice()),
    )
}

// One is told what it loses.
fn tell_loss(
    tables: &mut Tables,
    alloc: Global,
    outs: &mut Outs,
    loss: Loss,
    live: &[Registration],
) -> Result<(), Memory>
    requires { IsInside (length tables.old.editors) loss }
    ensures requests { tables.new.requests ≡ tables.old.requests }
    ensures versions { tables.new.versions ≡ tables.old.versions }
    ensures lasts { tables.new.lasts ≡ tables.old.lasts }
    ensures count { OnOk result (length tables.new.editors ≡ length tables.old.editors) }
    ensures does { (settings : Settings) (base : List Event) → IsCall (unregister_text live.now) → CanLose (behind base outs.old) loss
        → ((s : ℕ) → (asking_of settings s (behind base outs.old)).asker ≡ None)
        → OnOk result (Does (λ k events. AllStand settings k events)
        (loss_row live.now loss) base (tables.old, nothing_owed) outs.old (tables.new, nothing_owed) outs.new) }
{
    match loss {
        Loss::Refused(e, id) => {
            refuse_id(tables, alloc, outs, e, id.bytes())?;
            Ok(())
        }
        Loss::Told(e, text) => {
            tables.tell(outs, e, text)?;
            Ok(())
        }
        Loss::Unregistered(e) => {
            call_unregistered_any(tables, alloc, outs, e, live)?;
            Ok(())
        }
        Loss::Emptied(e, uri) => {
            let text = empty_text(alloc, uri.bytes())?;
            tables.show(outs, e, uri.bytes(), true, text)?;
            Ok(())
        }
    }
}

/// X1 and X2: editors are told what they lose, in turn; these are registered at the start that ended.
pub fn tell_losses(
    tables: &mut Tables,
    alloc: Global,
    outs: &mut Outs,
    losses: Vec<Loss>,
    live: &[Registration],
) -> Result<(), Memory>
    requires { AllByRecursion (IsInside (length tables.old.editors)) losses.items }
    ensures requests { tables.new.requests ≡ tables.old.requests }
    ensures versions { tables.new.versions ≡ tables.old.versions }
    ensures lasts { tables.new.lasts ≡ tables.old.lasts }
    ensures count { OnOk result (length tables.new.editors ≡ length tables.old.editors) }
    ensures does { (settings : Settings) (base : List Event) → IsCall (unregister_text live.now)
        → AllByRecursion (CanLose (behind base outs.old)) losses.items
        → ((s : ℕ) → (asking_of settings s (behind base outs.old)).asker ≡ None)
        → OnOk result (Does (λ k events. AllStand settings k events) (each (loss_row live.now) losses.items) base
        (tables.old, nothing_owed) outs.old (tables.new, nothing_owed) outs.new) }
{
    for loss in losses {
        tell_loss(tables, alloc, outs, loss, live)?;
    }
    Ok(())
}
