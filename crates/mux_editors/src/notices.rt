//! E12 to E15: what an editor says by a notification.
ghost use Rattle.std.specs.Prelude.{◌≡◌, ◌<◌, ℕ, List, [], Option, Some, true, false, bytes_eq, codes, length, OnOk};
ghost use Rattle.mux_editors.specs.Running.{running_row};
ghost use Rattle.event_model.specs.Row.{◌⨾◌};
ghost use Rattle.document_model.specs.Sayings.{saying_by};
ghost use Rattle.event_model.specs.Does.{Done};
ghost use Rattle.event_model.specs.Event.{Event, with_cause};
ghost use Rattle.event_model.specs.Phases.{desk_of, is_served};
ghost use Rattle.event_model.specs.Settings.{Settings};
ghost use Rattle.event_model.specs.Spawns.{start_of};
ghost use Rattle.group_rows.specs.Rows.{document_row};
ghost use Rattle.group_words.specs.Houses.{home_of};
ghost use Rattle.json_text.specs.Json.{Json};
ghost use Rattle.mux_history.specs.declared.cause.Cause.TheVariants.{FromEditor};
ghost use Rattle.mux_tables.specs.Documents.{AllStand, DocumentsStand, nothing_owed};
ghost use Rattle.mux_tables.specs.Stands.{Stands};
ghost use Rattle.rpc_message.specs.Message.{message_of, notification};
ghost use Rattle.rpc_message.specs.Parsed.{IsRead};
ghost use Rattle.mux_turns.specs.group_facts.specs.Facts.{Meant};
ghost use Rattle.mux_turns.specs.group_facts.specs.Settled.{Settled};

use crate::passed::ready_at;
use crate::running::{begin, may_begin};
use crate::shows::show_opened;
use event_model::Phase;
use message_body::Memory;
use mux_history::Outs;
use mux_tables::Tables;
use rpc_message::Message;
use std::alloc::Global;

/// E12 to E15: a notification that doesn't go on, other than `exit`, comes from an editor that is served, in a group that has a start.
/// Where it opens, changes or closes a document, and the start is ready, the start is told so, and where it opens one, the editor is shown
/// the last list of diagnostics of that, where it isn't empty and fits; another one gives nothing.
pub fn take_notice(
    tables: &mut Tables,
    alloc: Global,
    outs: &mut Outs,
    e: u64,
    message: &Message,
) -> Result<(), Memory>
    requires { e < length tables.old.editors }
    ensures requests { tables.new.requests ≡ tables.old.requests }
    ensures versions { tables.new.versions ≡ tables.old.versions }
    ensures does { (settings : Settings) (before : List Event) (body method : List ℕ) (params : Option Json) (g s : ℕ) → IsRead message.now body
        → message_of body ≡ notification method params → bytes_eq (codes "exit") method ≡ false → is_served (desk_of e before).phase ≡ true
        → home_of settings e before ≡ Some g → start_of g before ≡ Some s → outs.old ≡ [] → Meant before → Settled settings before → Stands settings tables.old before
        → DocumentsStand settings nothing_owed tables.old before
        → OnOk result (Done (λ k events. AllStand settings k events)
        (running_row settings before e (message_of body) ⨾ document_row settings before e body (saying_by method params))
        (with_cause before (FromEditor e body)) [] (tables.new, nothing_owed) outs.new) }
{
    let begins = may_begin(tables, e);
    let ready = ready_at(tables, e);
    let owed = tables.hear_notice(alloc, e, Phase::Running, message)?;
    begin(tables, alloc, outs, e, begins)?;
    tables.pay(outs, owed)?;
    match ready {
        None => Ok(()),
        Some(g) => {
            show_opened(tables, alloc, outs, g, e, message)?;
            Ok(())
        }
    }
}
