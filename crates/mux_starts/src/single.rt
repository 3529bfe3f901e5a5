//! S11 and S12: what a start asks of one editor, whose answer goes back to it.
ghost use Rattle.std.specs.Prelude.{◌≡◌, ◌<◌, ℕ, List, [], Option, Some, IfOk, IfSome, OnOk, false, length, map, true, slice_get};
ghost use Rattle.event_model.specs.declared.stage.Stage.TheVariants.{Ready};
ghost use Rattle.event_model.specs.Does.{Does, Done};
ghost use Rattle.event_model.specs.Event.{Event, behind, with_cause};
ghost use Rattle.event_model.specs.Phases.{desk_of, is_running};
ghost use Rattle.event_model.specs.Row.{nothing, send};
ghost use Rattle.event_model.specs.Settings.{Settings};
ghost use Rattle.mux_turns.specs.group_facts.specs.Facts.{Meant};
ghost use Rattle.group_rows.specs.AskRows.{ask, ask_in_focus, focused_row, in_focus, lowest_row};
ghost use Rattle.group_rows.specs.Asks.{asking_of, first_in, has_running, is_patient, is_single, is_taken, running_in};
ghost use Rattle.group_rows.specs.Forwarded.{forwarding_of};
ghost use Rattle.json_text.specs.Json.{Json};
ghost use Rattle.mux_history.specs.declared.cause.Cause.TheVariants.{FromServer};
ghost use Rattle.mux_history.specs.declared.out.Out.TheVariants.{ToServer};
ghost use Rattle.mux_tables.specs.declared.tables.Start.{Start};
ghost use Rattle.mux_tables.specs.Documents.{AllStand, DocumentsStand, nothing_owed};
ghost use Rattle.mux_tables.specs.Stands.{Stands, number_in};
ghost use Rattle.rpc_message.specs.Message.{Id, id_bytes, message_of, request};
ghost use Rattle.rpc_message.specs.Parsed.{IsRead};
ghost use Rattle.rpc_message.specs.Texts.{error_text, request_failed};

use crate::applied::{asks_edit, take_edit};
use message_body::Memory;
use mux_history::Outs;
use mux_tables::Tables;
use rpc_message::{ErrorCode, Message, error_answer};
use std::alloc::Global;

// The first of these editors.
fn lowest(numbers: &[u64]) -> Option<u64>
    ensures { result ≡ first_in numbers.now }
{
    numbers.first().copied()
}

// A request comes from the group's last start, which is ready, under the id of no open ask: an editor that runs is asked it alone.
fn ask_alone(
    tables: &mut Tables,
    alloc: Global,
    outs: &mut Outs,
    g: usize,
    e: u64,
    message: &Message,
) -> Result<(), Memory>
    requires group { g < length tables.old.lasts.items }
    requires editor { e < length tables.old.editors }
    ensures requests { tables.new.requests ≡ tables.old.requests }
    ensures versions { tables.new.versions ≡ tables.old.versions }
    ensures does { (settings : Settings) (before : List Event) (body method : List ℕ) (id : Id) (params : Option Json) (s : ℕ) (x : Start)
        → IsRead message.now body → message_of body ≡ request id method params → is_single method ≡ true
        → (is_patient method ≡ true → has_running settings before s ≡ true)
        → is_taken (Some id) (asking_of settings s before) ≡ false → is_running (desk_of e before).phase ≡ true → outs.old ≡ []
        → slice_get tables.old.lasts.items g ≡ Some x → x.life.stage ≡ Ready → slice_get (map number_in tables.old.lasts.items) g ≡ Some s
        → Stands settings tables.old before → DocumentsStand settings nothing_owed tables.old before
        → OnOk result (Done (λ k events. AllStand settings k events) (ask body e)
        (with_cause before (FromServer s body)) [] (tables.new, nothing_owed) outs.new) }
{
    tables.hear_answer(g, None);
    tables.put(alloc, outs, g, e, message)?;
    Ok(())
}

/// S12: a request of class Lowest comes from the group's last start, which is ready, under the id of no open ask: the lowest editor of the
/// group that runs is asked. Where none runs nothing is sent, and the request waits until one does. It takes time in the bytes of the message,
/// and in how many editors there are.
pub fn take_lowest(
    tables: &mut Tables,
    alloc: Global,
    outs: &mut Outs,
    g: usize,
    message: &Message,
) -> Result<(), Memory>
    requires { g < length tables.old.lasts.items }
    ensures requests { tables.new.requests ≡ tables.old.requests }
    ensures versions { tables.new.versions ≡ tables.old.versions }
    ensures does { (settings : Settings) (before : List Event) (body method : List ℕ) (id : Id) (params : Option Json) (s : ℕ) (x : Start)
        → IsRead message.now body → message_of body ≡ request id method params → is_patient method ≡ true
        → is_taken (Some id) (asking_of settings s before) ≡ false → outs.old ≡ []
        → slice_get tables.old.lasts.items g ≡ Some x → x.life.stage ≡ Ready → slice_get (map number_in tables.old.lasts.items) g ≡ Some s
        → Stands settings tables.old before → DocumentsStand settings nothing_owed tables.old before
        → OnOk result (Done (λ k events. AllStand settings k events) (lowest_row settings before x.life.group body)
        (with_cause before (FromServer s body)) [] (tables.new, nothing_owed) outs.new) }
{
    let group = tables.group_number(g);
    let numbers = tables.running(group)?;
    match lowest(&numbers) {
        None => {
            tables.park(alloc, g, message)?;
            Ok(())
        }
        Some(e) => {
            ask_alone(tables, alloc, outs, g, e, message)?;
            Ok(())
        }
    }
}

// S11: of the editors of the group that run, the one whose request at the start is the last of those that are open, else the lowest.
fn in_focus(tables: &Tables, g: usize) -> Result<Option<u64>, Memory>
    requires { g < length tables.now.lasts.items }
    ensures inside { IfOk result (λ o. IfSome o (λ e. e < length tables.now.editors)) }
    ensures focus { (settings : Settings) (before : List Event) (s : ℕ) (x : Start) → slice_get tables.now.lasts.items g ≡ Some x
        → slice_get (map number_in tables.now.lasts.items) g ≡ Some s → Stands settings tables.now before
        → IfOk result (λ o. o ≡ in_focus (running_in settings x.life.group before) (forwarding_of settings s before).open_requests) }
{
    let group = tables.group_number(g);
    let numbers = tables.running(group)?;
    match tables.last_among(g, &numbers) {
        Some(e) => Ok(Some(e)),
        None => Ok(lowest(&numbers)),
    }
}

// The request of the group's last start is refused (LSP 3.17, RequestFailed).
fn deny(
    tables: &Tables,
    alloc: Global,
    outs: &mut Outs,
    g: usize,
    message: &Message,
) -> Result<(), Memory>
    requires { g < length tables.now.lasts.items }
    ensures does { (settings : Settings) (base : List Event) (body method : List ℕ) (id : Id) (params : Option Json) (s : ℕ)
        → IsRead message.now body → message_of body ≡ request id method params
        → slice_get (map number_in tables.now.lasts.items) g ≡ Some s
        → is_taken (Some id) (asking_of settings s (behind base outs.old)) ≡ false
        → OnOk result (Does (λ k events. AllStand settings k events) (send (ToServer s (error_text (id_bytes body) request_failed))) base
        (tables.now, nothing_owed) outs.old (tables.now, nothing_owed) outs.new) }
{
    let text = error_answer(alloc, message.id_bytes(), ErrorCode::RequestFailed)?;
    tables.respond(outs, g, text)?;
    Ok(())
}

// S11 with V3: the editor in focus is asked: where it is to apply an edit, with its own versions of documents.
fn ask_in_focus(
    tables: &mut Tables,
    alloc: Global,
    outs: &mut Outs,
    g: usize,
    e: u64,
    message: &Message,
) -> Result<(), Memory>
    requires group { g < length tables.old.lasts.items }
    requires editor { e < length tables.old.editors }
    ensures requests { tables.new.requests ≡ tables.old.requests }
    ensures versions { tables.new.versions ≡ tables.old.versions }
    ensures does { (settings : Settings) (before : List Event) (body method : List ℕ) (id : Id) (params : Option Json) (s : ℕ) (x : Start)
        → IsRead message.now body → message_of body ≡ request id method params → is_single method ≡ true → is_patient method ≡ false
        → is_taken (Some id) (asking_of settings s before) ≡ false → is_running (desk_of e before).phase ≡ true → outs.old ≡ []
        → slice_get tables.old.lasts.items g ≡ Some x → x.life.stage ≡ Ready → slice_get (map number_in tables.old.lasts.items) g ≡ Some s
        → Meant before → Stands settings tables.old before → DocumentsStand settings nothing_owed tables.old before
        → OnOk result (Done (λ k events. AllStand settings k events) (ask_in_focus settings before s body method e)
        (with_cause before (FromServer s body)) [] (tables.new, nothing_owed) outs.new) }
{
    if asks_edit(message) {
        take_edit(tables, alloc, outs, g, e, message)?;
        Ok(())
    } else {
        ask_alone(tables, alloc, outs, g, e, message)?;
        Ok(())
    }
}

/// S11 with V3: a request of class Focused comes from the group's last start, which is ready, under the id of no open ask: the editor in
/// focus is asked, and where it is to apply an edit, with its own versions of documents; where one of these stands for no text that it has,
/// the start is told that the edit wasn't applied. Where no editor runs the request is refused. It takes time in the bytes of the message,
/// in how many editors there are, in how many requests are open there, and for an edit in how many documents the editor has open.
pub fn take_focused(
    tables: &mut Tables,
    alloc: Global,
    outs: &mut Outs,
    g: usize,
    message: &Message,
) -> Result<(), Memory>
    requires { g < length tables.old.lasts.items }
    ensures requests { tables.new.requests ≡ tables.old.requests }
    ensures versions { tables.new.versions ≡ tables.old.versions }
    ensures does { (settings : Settings) (before : List Event) (body method : List ℕ) (id : Id) (params : Option Json) (s : ℕ) (x : Start)
        → IsRead message.now body → message_of body ≡ request id method params → is_single method ≡ true → is_patient method ≡ false
        → is_taken (Some id) (asking_of settings s before) ≡ false → outs.old ≡ []
        → slice_get tables.old.lasts.items g ≡ Some x → x.life.stage ≡ Ready → slice_get (map number_in tables.old.lasts.items) g ≡ Some s
        → Meant before → Stands settings tables.old before → DocumentsStand settings nothing_owed tables.old before
        → OnOk result (Done (λ k events. AllStand settings k events) (focused_row settings before x.life.group s body method)
        (with_cause before (FromServer s body)) [] (tables.new, nothing_owed) outs.new) }
{
    let focus = in_focus(tables, g)?;
    match focus {
        None => {
            tables.hear_answer(g, None);
            deny(tables, alloc, outs, g, message)?;
            Ok(())
        }
        Some(e) => {
            ask_in_focus(tables, alloc, outs, g, e, message)?;
            Ok(())
        }
    }
}

/// A request comes from the group's last start, which is ready, under the id of what it asked already: it gives nothing.
pub fn take_repeated(tables: &mut Tables, g: usize)
    requires { g < length tables.old.lasts.items }
    ensures requests { tables.new.requests ≡ tables.old.requests }
    ensures versions { tables.new.versions ≡ tables.old.versions }
    ensures does { (settings : Settings) (before : List Event) (body method : List ℕ) (id : Id) (params : Option Json) (s : ℕ) (x : Start)
        → message_of body ≡ request id method params → is_taken (Some id) (asking_of settings s before) ≡ true
        → slice_get tables.old.lasts.items g ≡ Some x → x.life.stage ≡ Ready
        → slice_get (map number_in tables.old.lasts.items) g ≡ Some s
        → Stands settings tables.old before → DocumentsStand settings nothing_owed tables.old before
        → Done (λ k events. AllStand settings k events) nothing (with_cause before (FromServer s body)) [] (tables.new, nothing_owed) [] }
{
    tables.hear_answer(g, None);
}
