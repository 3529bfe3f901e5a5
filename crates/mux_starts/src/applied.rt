//! V3: a start asks an editor to apply an edit (LSP 3.17, ApplyWorkspaceEdit Request).
ghost use Rattle.std.specs.Prelude.{◌≡◌, ◌<◌, ℕ, List, [], Option, None, Some, IfOk, OnOk, decimal, false, length, map, true, slice_get};
ghost use Rattle.event_model.specs.declared.stage.Stage.TheVariants.{Ready};
ghost use Rattle.event_model.specs.Does.{Does, Done};
ghost use Rattle.event_model.specs.Event.{Event, behind, with_cause};
ghost use Rattle.event_model.specs.Phases.{desk_of, is_running};
ghost use Rattle.event_model.specs.Row.{send};
ghost use Rattle.event_model.specs.Settings.{Settings};
ghost use Rattle.mux_turns.specs.group_facts.specs.Facts.{Meant};
ghost use Rattle.group_rows.specs.Answers.{agreed_version, stamp_at};
ghost use Rattle.group_rows.specs.AskRows.{ask_edit, edited, is_edit};
ghost use Rattle.group_rows.specs.Asks.{asking_of, is_patient, is_single, is_taken};
ghost use Rattle.group_rows.specs.Created.{is_creating};
ghost use Rattle.json_text.specs.Json.{Json};
ghost use Rattle.mux_history.specs.declared.cause.Cause.TheVariants.{FromServer};
ghost use Rattle.mux_history.specs.declared.out.Out.TheVariants.{ToServer};
ghost use Rattle.mux_tables.specs.declared.tables.Start.{Start};
ghost use Rattle.mux_tables.specs.Documents.{AllStand, DocumentsStand, nothing_owed};
ghost use Rattle.mux_tables.specs.Puts.{IsAtWork, IsNextAsk};
ghost use Rattle.mux_tables.specs.Stands.{Stands, number_in};
ghost use Rattle.response_route.specs.Asked.{asked_text, not_applied};
ghost use Rattle.response_route.specs.Edits.{Renaming};
ghost use Rattle.response_route.specs.Versions.{stamp_of, version_now};
ghost use Rattle.rpc_message.specs.Message.{Id, id_bytes, message_of, request};
ghost use Rattle.rpc_message.specs.Parsed.{IsRead};
ghost use Rattle.rpc_message.specs.Texts.{ok_text};

use itoa::Buffer;
use message_body::{Body, Memory};
use mux_history::Outs;
use mux_tables::Tables;
use response_route::{Mapping, Versions, asked};
use rpc_message::{Message, ok_reply};
use std::alloc::Global;

// Whether this is the method of the request.
fn is_edit(method: &[u8]) -> bool
    ensures { result ≡ is_edit method.now }
{
    "workspace/applyEdit".as_bytes() == method
}

/// Whether a request asks for an edit.
pub fn asks_edit(message: &Message) -> bool
    ensures { (body method : List ℕ) (id : Id) (params : Option Json) → IsRead message.now body → message_of body ≡ request id method params
        → result ≡ is_edit method }
{
    match message.method() {
        Some(method) => is_edit(method),
        None => false,
    }
}

// The group's last start is told that its edit wasn't applied (LSP 3.17, ApplyWorkspaceEditResult).
fn refuse_edit(
    tables: &Tables,
    alloc: Global,
    outs: &mut Outs,
    g: usize,
    message: &Message,
) -> Result<(), Memory>
    requires { g < length tables.now.lasts.items }
    ensures does { (settings : Settings) (base : List Event) (body method : List ℕ) (id : Id) (params : Option Json) (s : ℕ)
        → IsRead message.now body → message_of body ≡ request id method params
        → slice_get (map number_in tables.now.lasts.items) g ≡ Some s
        → is_taken (Some id) (asking_of settings s (behind base outs.old)) ≡ false
        → OnOk result (Does (λ k events. AllStand settings k events) (send (ToServer s (ok_text (id_bytes body) not_applied))) base
        (tables.now, nothing_owed) outs.old (tables.now, nothing_owed) outs.new) }
{
    let refusal = b"{\"applied\":false,\"failureReason\":\"Content modified\"}";
    let text = ok_reply(alloc, message.id_bytes(), refusal)?;
    tables.respond(outs, g, text)?;
    Ok(())
}

// The request under this number, with these versions of documents in place of the start's.
fn edit_text(
    alloc: Global,
    message: &Message,
    n: u64,
    now: &Versions,
) -> Result<Option<Body>, Memory>
    ensures { (body : List ℕ) (r : Renaming) → IsRead message.now body
        → ((u digits : List ℕ) → version_now digits (stamp_of u now.now) None ≡ r u digits)
        → IfOk result (λ text. text ≡ asked_text r body (decimal n)) }
{
    let mut digits = Buffer::new();
    let mapping = Mapping { now, noted: None };
    asked(alloc, message, digits.format(n).as_bytes(), mapping)
}

// An editor is sent the edit under its next number, or, where there is none that it can apply, the group's last start is told so.
fn send_edit(
    tables: &mut Tables,
    alloc: Global,
    outs: &mut Outs,
    g: usize,
    e: u64,
    message: &Message,
    text: Option<Body>,
) -> Result<(), Memory>
    requires group { g < length tables.old.lasts.items }
    requires editor { e < length tables.old.editors }
    ensures requests { tables.new.requests ≡ tables.old.requests }
    ensures versions { tables.new.versions ≡ tables.old.versions }
    ensures does { (settings : Settings) (base : List Event) (body method : List ℕ) (id : Id) (params : Option Json) (s : ℕ) (x : Start)
        → IsRead message.now body → message_of body ≡ request id method params → is_creating method ≡ false
        → slice_get tables.old.lasts.items g ≡ Some x → x.life.stage ≡ Ready → slice_get (map number_in tables.old.lasts.items) g ≡ Some s
        → is_running (desk_of e (behind base outs.old)).phase ≡ true → IsAtWork settings s id (id_bytes body) (behind base outs.old)
        → ((w : List ℕ) → text ≡ Some w → (given : Option Json) × IsNextAsk e (behind base outs.old) method given w)
        → OnOk result (Does (λ k events. AllStand settings k events) (edited s body e text) base
        (tables.old, nothing_owed) outs.old (tables.new, nothing_owed) outs.new) }
{
    match text {
        None => {
            refuse_edit(tables, alloc, outs, g, message)?;
            Ok(())
        }
        Some(text) => {
            tables.put_text(alloc, outs, g, e, message, text)?;
            Ok(())
        }
    }
}

// V3: an editor that runs is asked under its next number, while one is left, with these versions of its documents.
fn ask_edit(
    tables: &mut Tables,
    alloc: Global,
    outs: &mut Outs,
    g: usize,
    e: u64,
    message: &Message,
    now: &Versions,
) -> Result<(), Memory>
    requires group { g < length tables.old.lasts.items }
    requires editor { e < length tables.old.editors }
    ensures requests { tables.new.requests ≡ tables.old.requests }
    ensures versions { tables.new.versions ≡ tables.old.versions }
    ensures does { (settings : Settings) (before base : List Event) (body method : List ℕ) (id : Id) (params : Option Json) (s : ℕ) (x : Start)
        → IsRead message.now body → message_of body ≡ request id method params → is_creating method ≡ false
        → slice_get tables.old.lasts.items g ≡ Some x → x.life.stage ≡ Ready → slice_get (map number_in tables.old.lasts.items) g ≡ Some s
        → is_running (desk_of e (behind base outs.old)).phase ≡ true → IsAtWork settings s id (id_bytes body) (behind base outs.old)
        → Meant before → ((u : List ℕ) → stamp_of u now.now ≡ stamp_at agreed_version settings s e before u)
        → OnOk result (Does (λ k events. AllStand settings k events) (ask_edit settings before s body e) base
        (tables.old, nothing_owed) outs.old (tables.new, nothing_owed) outs.new) }
{
    let Some(n) = tables.next_ask(e) else {
        return Ok(());
    };
    let text = edit_text(alloc, message, n, now)?;
    send_edit(tables, alloc, outs, g, e, message, text)?;
    Ok(())
}

/// V3: a request that asks for an edit comes from the group's last start, which is ready, under the id of no open ask: an editor that runs
/// is asked, with its own versions of documents in place of the start's; where one of these stands for no text that the editor has, the
/// start is told that the edit wasn't applied. It takes time in the bytes of the message, and in how many documents the editor has open.
pub fn take_edit(
    tables: &mut Tables,
    alloc: Global,
    outs: &mut Outs,
    g: usize,
    e: u64,
    message: &Message,
) -> Result<(), Memory>
    requires group { g < length tables.old.lasts.items }
    requires editor { e < length tables.old.editors }
    ensures requests { tables.new.requests ≡ tables.old.requests }
    ensures versions { tables.new.versions ≡ tables.old.versions }
    ensures does { (settings : Settings) (before : List Event) (body method : List ℕ) (id : Id) (params : Option Json) (s : ℕ) (x : Start)
        → IsRead message.now body → message_of body ≡ request id method params → is_single method ≡ true → is_patient method ≡ false
        → is_taken (Some id) (asking_of settings s before) ≡ false → is_running (desk_of e before).phase ≡ true → outs.old ≡ []
        → slice_get tables.old.lasts.items g ≡ Some x → x.life.stage ≡ Ready → slice_get (map number_in tables.old.lasts.items) g ≡ Some s
        → Meant before → Stands settings tables.old before → DocumentsStand settings nothing_owed tables.old before
        → OnOk result (Done (λ k events. AllStand settings k events) (ask_edit settings before s body e)
        (with_cause before (FromServer s body)) [] (tables.new, nothing_owed) outs.new) }
{
    let now = tables.versions(alloc, g, e)?;
    tables.hear_answer(g, None);
    ask_edit(tables, alloc, outs, g, e, message, &now)?;
    Ok(())
}
