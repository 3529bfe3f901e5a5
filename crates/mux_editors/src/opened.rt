//! E4: which server an editor means.
ghost use Rattle.std.specs.Prelude.{◌≡◌, ◌<◌, ℕ, List, [], Option, true, codes, length, OnOk};
ghost use Rattle.event_model.specs.declared.phase.Phase.TheVariants.{Waiting};
ghost use Rattle.event_model.specs.Does.{Does, Done};
ghost use Rattle.event_model.specs.Event.{Event, behind, requests, with_cause};
ghost use Rattle.event_model.specs.Phases.{desk_of};
ghost use Rattle.event_model.specs.Settings.{Settings};
ghost use Rattle.group_rows.specs.Rows.{named_row, open_row};
ghost use Rattle.group_words.specs.Houses.{is_first_open};
ghost use Rattle.json_text.specs.Json.{Json};
ghost use Rattle.mux_history.specs.declared.cause.Cause.TheVariants.{FromEditor};
ghost use Rattle.mux_tables.specs.Documents.{AllStand, DocumentsStand, Owed, nothing_owed};
ghost use Rattle.mux_tables.specs.Stands.{Stands};
ghost use Rattle.rpc_message.specs.Message.{Id, Message as Meaning, message_of, request};
ghost use Rattle.rpc_message.specs.Parsed.{IsRead};

use crate::quiet::phase_of;
use event_model::{Phase, Server};
use group_keys::server_asked;
use message_body::Memory;
use mux_history::Outs;
use mux_tables::Tables;
use mux_turns::refuse;
use rpc_message::{ErrorCode, Message, ok_reply};
use std::alloc::Global;

// Whether an `lspmux/open` of an editor in this phase is the first one of a new editor.
fn is_first(tables: &Tables, e: u64, phase: Phase) -> bool
    requires { e < length tables.now.editors }
    ensures { (settings : Settings) (before : List Event) (m : Meaning) → requests (codes "lspmux/open") m ≡ true → phase ≡ (desk_of e before).phase
        → Stands settings tables.now before → result ≡ is_first_open settings.servers before e m }
{
    match phase {
        Phase::New => !tables.is_opened(e),
        _ => false,
    }
}

// The answer to it, where it names this server, or none.
fn answer_named(
    tables: &mut Tables,
    alloc: Global,
    outs: &mut Outs,
    e: u64,
    message: &Message,
    server: Option<u32>,
) -> Result<(), Memory>
    ensures requests { tables.new.requests ≡ tables.old.requests }
    ensures versions { tables.new.versions ≡ tables.old.versions }
    ensures does { (settings : Settings) (base : List Event) (body method : List ℕ) (id : Id) (params : Option Json) → IsRead message.now body
        → message_of body ≡ request id method params → ((desk_of e (behind base outs.old)).phase ≡ Waiting → ⊥)
        → OnOk result (Does (λ t events. Stands settings t events) (named_row e body server) base tables.old outs.old tables.new outs.new) }
    ensures documents { (settings : Settings) (owed : Owed) (base : List Event) → DocumentsStand settings owed tables.old (behind base outs.old)
        → OnOk result (DocumentsStand settings owed tables.new (behind base outs.new)) }
{
    match server {
        Some(_) => {
            let id = message.id_bytes();
            let text = ok_reply(alloc, id, b"null")?;
            tables.answer(outs, e, id, text)?;
            Ok(())
        }
        None => {
            refuse(tables, alloc, outs, e, message, ErrorCode::InvalidParams)?;
            Ok(())
        }
    }
}

/// E4: `lspmux/open` comes from an editor, under an id that isn't open where it has begun. The first one of a new editor says which server
/// is meant, where it names one; else it is refused, and so is each other one.
pub fn take_open(
    tables: &mut Tables,
    alloc: Global,
    servers: &[Server],
    outs: &mut Outs,
    e: u64,
    message: &Message,
) -> Result<(), Memory>
    requires { e < length tables.old.editors }
    ensures requests { tables.new.requests ≡ tables.old.requests }
    ensures versions { tables.new.versions ≡ tables.old.versions }
    ensures does { (settings : Settings) (before : List Event) (body : List ℕ) → IsRead message.now body
        → requests (codes "lspmux/open") (message_of body) ≡ true → settings.servers ≡ servers.now → outs.old ≡ []
        → Stands settings tables.old before → DocumentsStand settings nothing_owed tables.old before
        → OnOk result (Done (λ k events. AllStand settings k events) (open_row settings before e body (message_of body))
        (with_cause before (FromEditor e body)) [] (tables.new, nothing_owed) outs.new) }
{
    let phase = phase_of(tables, e);
    if is_first(tables, e, phase) {
        let server = server_asked(alloc, servers, message)?;
        tables.hear_open(e, server);
        answer_named(tables, alloc, outs, e, message, server)?;
        Ok(())
    } else {
        tables.hear_editor(e, phase);
        refuse(tables, alloc, outs, e, message, ErrorCode::InvalidRequest)?;
        Ok(())
    }
}
