//! E3: requests of an editor under an id that is open.
ghost use Rattle.std.specs.Prelude.{◌≡◌, ◌<◌, ◌&&◌, ℕ, List, [], Option, false, true, codes, length, OnOk};
ghost use Rattle.event_model.specs.Does.{Done};
ghost use Rattle.event_model.specs.Event.{Event, requests, with_cause};
ghost use Rattle.event_model.specs.Phases.{desk_of, is_begun, is_served};
ghost use Rattle.event_model.specs.Requests.{open_of};
ghost use Rattle.event_model.specs.Settings.{Settings};
ghost use Rattle.mux_turns.specs.group_facts.specs.Built.{doubles, is_standard};
ghost use Rattle.group_rows.specs.Rows.{asks_lspmux, closing_row};
ghost use Rattle.group_words.specs.Houses.{is_doubled};
ghost use Rattle.json_text.specs.Json.{Json};
ghost use Rattle.lsp_method.specs.Class.{class_of};
ghost use Rattle.lsp_method.specs.declared.variants.Origin.TheVariants.{Editor};
ghost use Rattle.mux_history.specs.declared.cause.Cause.TheVariants.{FromEditor};
ghost use Rattle.mux_tables.specs.Documents.{AllStand, DocumentsStand, nothing_owed};
ghost use Rattle.mux_tables.specs.Stands.{Stands};
ghost use Rattle.rpc_message.specs.Message.{Id, message_of, request};
ghost use Rattle.rpc_message.specs.Parsed.{IsRead};
ghost use Rattle.mux_turns.specs.group_facts.specs.Settled.{Settled};

use crate::parting::end_link;
use crate::quiet::phase_of;
use event_model::Phase;
use lsp_method::Class;
use message_body::Memory;
use mux_history::Outs;
use mux_members::class_in;
use mux_tables::Tables;
use mux_turns::{depart, leaving};
use rpc_message::Message;
use std::alloc::Global;

// A `shutdown` of an editor that is served ends its link: its documents are closed by the message, and it has none when its link is
// to be ended.
fn end_served(tables: &mut Tables, alloc: Global, outs: &mut Outs, e: u64) -> Result<(), Memory>
    requires { e < length tables.old.editors }
    ensures requests { tables.new.requests ≡ tables.old.requests }
    ensures versions { tables.new.versions ≡ tables.old.versions }
    ensures does { (settings : Settings) (before : List Event) (body : List ℕ) → requests (codes "shutdown") (message_of body) ≡ true
        → is_served (desk_of e before).phase ≡ true → outs.old ≡ []
        → Stands settings tables.old before → DocumentsStand settings nothing_owed tables.old before
        → OnOk result (Done (λ k events. AllStand settings k events) (closing_row settings before e)
        (with_cause before (FromEditor e body)) [] (tables.new, nothing_owed) outs.new) }
{
    let left = leaving(tables, e)?;
    let owed = tables.hear_shutdown(alloc, e)?;
    tables.close(alloc, outs, e)?;
    depart(tables, alloc, outs, &left, owed)?;
    Ok(())
}

/// E3: a request of the standard, a second `initialize` too, comes under an id that is open: its editor's link is to be ended, and the
/// editor leaves. Which of the two an answer under this id would be for, nobody could tell (JSON-RPC 2.0, section 4).
pub fn take_doubled(
    tables: &mut Tables,
    alloc: Global,
    outs: &mut Outs,
    e: u64,
    message: &Message,
) -> Result<(), Memory>
    requires { e < length tables.old.editors }
    ensures requests { tables.new.requests ≡ tables.old.requests }
    ensures versions { tables.new.versions ≡ tables.old.versions }
    ensures does { (settings : Settings) (before : List Event) (body method : List ℕ) (id : Id) (params : Option Json) → IsRead message.now body
        → message_of body ≡ request id method params → is_standard (class_of method Editor false) ≡ true
        → doubles (desk_of e before).phase id (open_of e before) ≡ true → outs.old ≡ []
        → Settled settings before → Stands settings tables.old before → DocumentsStand settings nothing_owed tables.old before
        → OnOk result (Done (λ k events. AllStand settings k events) (closing_row settings before e)
        (with_cause before (FromEditor e body)) [] (tables.new, nothing_owed) outs.new) }
{
    let phase = phase_of(tables, e);
    if !phase.is_served() {
        end_link(tables, alloc, outs, e, phase)?;
        return Ok(());
    }
    match class_in(message) {
        Class::Shutdown => {
            end_served(tables, alloc, outs, e)?;
            Ok(())
        }
        _ => {
            end_link(tables, alloc, outs, e, Phase::Running)?;
            Ok(())
        }
    }
}

/// E3: a request of the multiplexer's own comes under an id that is open, from an editor that has begun: its link is to be ended, and it
/// leaves.
pub fn take_doubled_own(
    tables: &mut Tables,
    alloc: Global,
    outs: &mut Outs,
    e: u64,
) -> Result<(), Memory>
    requires { e < length tables.old.editors }
    ensures requests { tables.new.requests ≡ tables.old.requests }
    ensures versions { tables.new.versions ≡ tables.old.versions }
    ensures does { (settings : Settings) (before : List Event) (body : List ℕ) → asks_lspmux (message_of body) ≡ true
        → (is_begun (desk_of e before).phase && is_doubled before e (message_of body)) ≡ true → outs.old ≡ []
        → Stands settings tables.old before → DocumentsStand settings nothing_owed tables.old before
        → OnOk result (Done (λ k events. AllStand settings k events) (closing_row settings before e)
        (with_cause before (FromEditor e body)) [] (tables.new, nothing_owed) outs.new) }
{
    let phase = phase_of(tables, e);
    end_link(tables, alloc, outs, e, phase)?;
    Ok(())
}
