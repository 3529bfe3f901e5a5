//! E10: an editor's request, sent on or refused.
ghost use Rattle.std.specs.Prelude.{◌≡◌, ◌<◌, ℕ, List, [], Option, Some, true, false, length, map, IfNone, IfOk, IfSome, OnOk, slice_get};
ghost use Rattle.mux_turns.specs.group_facts.specs.Why.{IsQuestion};
ghost use Rattle.std.specs.List.{AllByRecursion};
ghost use Rattle.mux_editors.specs.Running.{Begun, running_row};
ghost use Rattle.event_model.specs.declared.stage.Stage.TheVariants.{Ready};
ghost use Rattle.event_model.specs.Does.{Alike, Does, Done};
ghost use Rattle.event_model.specs.Event.{Event, with_cause};
ghost use Rattle.event_model.specs.Members.{params_of};
ghost use Rattle.event_model.specs.Phases.{desk_of, is_served, makes_running};
ghost use Rattle.event_model.specs.Row.{◌⨾◌};
ghost use Rattle.event_model.specs.Settings.{Settings};
ghost use Rattle.group_rows.specs.Reserved.{reserves};
ghost use Rattle.group_rows.specs.Rows.{forward, may_wait, request_row, sync_row};
ghost use Rattle.group_rows.specs.Waiting.{is_for_start, is_restarting, waiting_of};
ghost use Rattle.group_words.specs.Houses.{home_of, is_doubled};
ghost use Rattle.json_text.specs.Json.{Json};
ghost use Rattle.lsp_method.specs.Class.{class_of};
ghost use Rattle.lsp_method.specs.declared.variants.Origin.TheVariants.{Editor};
ghost use Rattle.mux_history.specs.declared.cause.Cause.TheVariants.{FromEditor};
ghost use Rattle.mux_model.specs.Built.{is_other};
ghost use Rattle.mux_tables.specs.declared.tables.Start.{Start};
ghost use Rattle.mux_tables.specs.Documents.{AllStand, DocumentsStand, nothing_owed};
ghost use Rattle.mux_tables.specs.mux_waits.specs.held_requests.specs.Tables.{takes};
ghost use Rattle.mux_tables.specs.mux_waits.specs.Rows.{held_of};
ghost use Rattle.mux_tables.specs.Stands.{Stands, number_in};
ghost use Rattle.mux_turns.specs.Waits.{waiting_row};
ghost use Rattle.rpc_message.specs.Message.{Id, message_of, request};
ghost use Rattle.rpc_message.specs.Parsed.{IsRead};
ghost use Rattle.mux_turns.specs.group_facts.specs.Facts.{Meant};
ghost use Rattle.mux_turns.specs.group_facts.specs.Settled.{Settled};

use crate::running::{begin, hear_running, may_begin};
use event_model::Phase;
use message_body::{Body, Memory};
use mux_history::Outs;
use mux_tables::Tables;
use mux_turns::{asked_at, forwarded_text, refuse_request, refuse_reserved, reserves, token_text};
use rpc_message::Message;
use std::alloc::Global;

// The request goes to the group's last start, which takes it, under the next number, with the daemon's tokens, and behind a sync.
fn send_on(
    tables: &mut Tables,
    alloc: Global,
    outs: &mut Outs,
    g: usize,
    e: u64,
    message: &Message,
) -> Result<(), Memory>
    requires group { g < length tables.old.lasts.items }
    requires takes { (x : Start) → slice_get tables.old.lasts.items g ≡ Some x → (x.life.stage ≡ Ready) × (x.ids.next < x.ids.limit) }
    ensures requests { tables.new.requests ≡ tables.old.requests }
    ensures versions { tables.new.versions ≡ tables.old.versions }
    ensures does { (settings : Settings) (before : List Event) (body method : List ℕ) (id : Id) (params : Option Json) (s : ℕ) → IsRead message.now body
        → message_of body ≡ request id method params → is_other (class_of method Editor false) ≡ true → AllByRecursion (IsQuestion e) outs.old
        → slice_get (map number_in tables.old.lasts.items) g ≡ Some s → (x : Start) → slice_get tables.old.lasts.items g ≡ Some x
        → OnOk result (Does (λ k events. AllStand settings k events) (sync_row settings before x.life.group s e ⨾ forward settings s body) (with_cause before (FromEditor e body))
        (tables.old, nothing_owed) outs.old (tables.new, nothing_owed) outs.new) }
{
    let n = tables.next_number(g);
    let text = forwarded_text(alloc, message, n)?;
    let id = Body::new(Vec::from_slice(alloc, message.id_bytes())?);
    let work = token_text(alloc, message, "workDoneToken")?;
    let partial = token_text(alloc, message, "partialResultToken")?;
    tables.ask(alloc, outs, g, e, id, work, partial, text)?;
    Ok(())
}

// E10: the number of the editor's group, where its last start isn't ready, and one more request of the editor may wait there.
fn room_for(tables: &Tables, e: u64, message: &Message) -> Option<u64>
    ensures held { IfSome result (λ g. (settings : Settings) (before : List Event) (body : List ℕ) → IsRead message.now body → Stands settings tables.now before
        → (home_of settings e before ≡ Some g) × (is_restarting g before ≡ true) × (takes e (length body) (waiting_of settings g before) ≡ true)) }
    ensures full { IfNone result ((settings : Settings) (before : List Event) (body : List ℕ) → IsRead message.now body → Settled settings before
        → is_served (desk_of e before).phase ≡ true → Stands settings tables.now before
        → (g : ℕ) → home_of settings e before ≡ Some g → may_wait settings before e body g ≡ false) }
    ensures room { IfSome result (λ g. takes e (length message.now.doc.bytes) (held_of g tables.now.origins.waiting) ≡ true) }
{
    let place = tables.place(e)?;
    if tables.stage(place).is_ready() {
        return None;
    }
    let g = tables.group_number(place);
    if tables.may_hold(g, e, message.bytes().len()) {
        Some(g)
    } else {
        None
    }
}

// E10: the request waits in its group, whose last start isn't ready.
fn keep_back(
    tables: &mut Tables,
    alloc: Global,
    outs: &mut Outs,
    g: u64,
    e: u64,
    message: &Message,
) -> Result<(), Memory>
    requires editor { e < length tables.old.editors }
    requires room { takes e (length message.now.doc.bytes) (held_of g tables.old.origins.waiting) ≡ true }
    ensures requests { tables.new.requests ≡ tables.old.requests }
    ensures versions { tables.new.versions ≡ tables.old.versions }
    ensures begun { (settings : Settings) (before : List Event) (body method : List ℕ) (id : Id) (params : Option Json) → IsRead message.now body
        → message_of body ≡ request id method params → is_for_start before e body (message_of body) ≡ true → home_of settings e before ≡ Some g
        → is_restarting g before ≡ true → is_served (desk_of e before).phase ≡ true → makes_running (message_of body) ≡ true → outs.old ≡ []
        → Meant before → Settled settings before → Stands settings tables.old before → DocumentsStand settings nothing_owed tables.old before
        → OnOk result (Begun settings before e body nothing_owed tables.new outs.new) }
{
    let id = Body::new(Vec::from_slice(alloc, message.id_bytes())?);
    let body = Body::new(Vec::from_slice(alloc, message.bytes())?);
    let begins = may_begin(tables, e);
    tables.hold(g, e, Phase::Running, id, body)?;
    begin(tables, alloc, outs, e, begins)?;
    Ok(())
}

// E10: no start takes the request: it waits, or is answered with an error (LSP 3.17, RequestFailed).
fn take_untaken(
    tables: &mut Tables,
    alloc: Global,
    outs: &mut Outs,
    e: u64,
    message: &Message,
) -> Result<(), Memory>
    requires { e < length tables.old.editors }
    ensures requests { tables.new.requests ≡ tables.old.requests }
    ensures versions { tables.new.versions ≡ tables.old.versions }
    ensures does { (settings : Settings) (before : List Event) (body method : List ℕ) (id : Id) (params : Option Json) → IsRead message.now body
        → message_of body ≡ request id method params → is_other (class_of method Editor false) ≡ true → is_served (desk_of e before).phase ≡ true
        → is_doubled before e (message_of body) ≡ false → reserves (params_of body) ≡ false
        → Alike (request_row settings before e body) (waiting_row settings before e body) → outs.old ≡ [] → Meant before
        → Settled settings before → Stands settings tables.old before → DocumentsStand settings nothing_owed tables.old before
        → OnOk result (Done (λ k events. AllStand settings k events) (running_row settings before e (message_of body) ⨾ request_row settings before e body)
        (with_cause before (FromEditor e body)) [] (tables.new, nothing_owed) outs.new) }
{
    match room_for(tables, e, message) {
        Some(g) => {
            keep_back(tables, alloc, outs, g, e, message)?;
            Ok(())
        }
        None => {
            hear_running(tables, alloc, outs, e)?;
            refuse_request(tables, alloc, outs, e, message)?;
            Ok(())
        }
    }
}

/// E10: a request of class Other comes from an editor that is served, under no id that is open. Where it has a token that might be the
/// daemon's it is answered with an error (JSON-RPC 2.0, section 5.1: Invalid params). Else, where the last start of its group is ready and
/// has a number left, the request goes there under the next number, with the daemon's tokens in the place of its own, behind a sync. Where
/// that start isn't ready it waits, as long as so many of the editor's may; else it is answered with an error (LSP 3.17, RequestFailed).
pub fn take_request(
    tables: &mut Tables,
    alloc: Global,
    outs: &mut Outs,
    e: u64,
    message: &Message,
) -> Result<(), Memory>
    requires { e < length tables.old.editors }
    ensures requests { tables.new.requests ≡ tables.old.requests }
    ensures versions { tables.new.versions ≡ tables.old.versions }
    ensures does { (settings : Settings) (before : List Event) (body method : List ℕ) (id : Id) (params : Option Json) → IsRead message.now body
        → message_of body ≡ request id method params → is_other (class_of method Editor false) ≡ true → is_served (desk_of e before).phase ≡ true
        → is_doubled before e (message_of body) ≡ false → outs.old ≡ [] → Meant before
        → Settled settings before → Stands settings tables.old before → DocumentsStand settings nothing_owed tables.old before
        → OnOk result (Done (λ k events. AllStand settings k events) (running_row settings before e (message_of body) ⨾ request_row settings before e body)
        (with_cause before (FromEditor e body)) [] (tables.new, nothing_owed) outs.new) }
{
    let reserved = reserves(alloc, message)?;
    if reserved {
        hear_running(tables, alloc, outs, e)?;
        refuse_reserved(tables, alloc, outs, e, message)?;
        return Ok(());
    }
    match asked_at(tables, e) {
        None => {
            take_untaken(tables, alloc, outs, e, message)?;
            Ok(())
        }
        Some(g) => {
            hear_running(tables, alloc, outs, e)?;
            send_on(tables, alloc, outs, g, e, message)?;
            Ok(())
        }
    }
}
