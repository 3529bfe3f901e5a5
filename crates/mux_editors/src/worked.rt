//! E11: an editor cancels the work of a request of its own, or of a token that it accepted (LSP 3.17, Work Done Progress, Cancelling).
ghost use Rattle.std.specs.Prelude.{◌≡◌, ◌<◌, ℕ, List, [], Option, Some, true, codes, length, map, IfOk, IfSome, OnOk, slice_get};
ghost use Rattle.mux_editors.specs.Running.{running_row};
ghost use Rattle.mux_editors.specs.Works.{Goes, IsCancel, Works};
ghost use Rattle.event_model.specs.Does.{Does, Done};
ghost use Rattle.event_model.specs.Event.{Event, with_cause};
ghost use Rattle.event_model.specs.Phases.{desk_of, is_served};
ghost use Rattle.event_model.specs.Row.{send, ◌⨾◌};
ghost use Rattle.event_model.specs.Settings.{Settings};
ghost use Rattle.group_rows.specs.CreatedRows.{work_row};
ghost use Rattle.group_rows.specs.Tokens.{mark_text, marked_text, work_mark};
ghost use Rattle.json_text.specs.Json.{Json};
ghost use Rattle.mux_history.specs.declared.cause.Cause.TheVariants.{FromEditor};
ghost use Rattle.mux_history.specs.declared.out.Out.TheVariants.{ToServer};
ghost use Rattle.mux_tables.specs.Documents.{AllStand, DocumentsStand, nothing_owed};
ghost use Rattle.mux_tables.specs.Stands.{Stands, number_in};
ghost use Rattle.rpc_message.specs.Message.{message_of, notification};
ghost use Rattle.rpc_message.specs.Parsed.{IsRead};
ghost use Rattle.mux_turns.specs.group_facts.specs.Facts.{Meant};
ghost use Rattle.mux_turns.specs.group_facts.specs.Settled.{Settled};

use crate::cancelled::Target;
use crate::passed::ready_at;
use crate::running::hear_running;
use message_body::{Body, Memory};
use mux_history::Outs;
use mux_members::cancelled_token;
use mux_tables::Tables;
use mux_turns::{created_mark, mark_text, marked_text};
use rpc_message::Message;
use std::alloc::Global;

/// A notification as it goes to the last start of the group in a place.
#[derive(Debug, Drop)]
pub struct Work {
    pub group: usize,
    pub text: Body,
}

// The open request of an editor whose work a notification cancels, at the last start of the editor's group, which is ready.
fn worked(tables: &Tables, e: u64, message: &Message) -> Result<Option<Target>, Memory>
    ensures inside { IfOk result (λ found. IfSome found (λ x. x.group < length tables.now.lasts.items)) }
    ensures works { (settings : Settings) (before : List Event) (body method : List ℕ) (params : Option Json) → IsRead message.now body
        → message_of body ≡ notification method params → Stands settings tables.now before
        → IfOk result (λ found. Works settings before e body params (map number_in tables.now.lasts.items) found) }
{
    let Some(token) = cancelled_token(message) else {
        return Ok(None)
    };
    let Some(group) = ready_at(tables, e) else {
        return Ok(None)
    };
    match tables.worked(group, e, token)? {
        Some(number) => Ok(Some(Target { group, number })),
        None => Ok(None),
    }
}

// The notification with the daemon's token of the request's work.
fn request_work(alloc: Global, message: &Message, request: Target) -> Result<Work, Memory>
    ensures group { IfOk result (λ w. w.group ≡ request.group) }
    ensures text { (body : List ℕ) (params : Option Json) → IsRead message.now body
        → message_of body ≡ notification (codes "window/workDoneProgress/cancel") params
        → IfOk result (λ w. w.text ≡ marked_text (mark_text (work_mark request.number)) body) }
    ensures cancels { (body : List ℕ) (params : Option Json) → IsRead message.now body
        → message_of body ≡ notification (codes "window/workDoneProgress/cancel") params → IfOk result (λ w. IsCancel w.text) }
{
    let token = mark_text(alloc, 2 * u64::from(request.number))?;
    let text = marked_text(alloc, message, &token)?;
    Ok(Work {
        group: request.group,
        text,
    })
}

// The notification with the start's own bytes, where it names a token that the editor accepted, of the last start of its group, which is
// ready.
fn created_work(
    tables: &Tables,
    alloc: Global,
    e: u64,
    message: &Message,
) -> Result<Option<Work>, Memory>
    ensures inside { IfOk result (λ found. IfSome found (λ x. x.group < length tables.now.lasts.items)) }
    ensures goes { (settings : Settings) (before : List Event) (body : List ℕ) (params : Option Json) → IsRead message.now body
        → message_of body ≡ notification (codes "window/workDoneProgress/cancel") params → Stands settings tables.now before
        → Works settings before e body params (map number_in tables.now.lasts.items) None
        → IfOk result (Goes settings before e body params (map number_in tables.now.lasts.items)) }
{
    let Some(group) = ready_at(tables, e) else {
        return Ok(None)
    };
    let Some(k) = created_mark(alloc, message, tables.start_number(group))? else {
        return Ok(None)
    };
    if !tables.has_taken(group, k, e) {
        return Ok(None);
    }
    match tables.created_text(group, k) {
        None => Ok(None),
        Some(token) => {
            let text = marked_text(alloc, message, token.bytes())?;
            Ok(Some(Work { group, text }))
        }
    }
}

// The notification as it goes to a start, where it does.
fn work_of(
    tables: &Tables,
    alloc: Global,
    e: u64,
    message: &Message,
) -> Result<Option<Work>, Memory>
    ensures inside { IfOk result (λ found. IfSome found (λ x. x.group < length tables.now.lasts.items)) }
    ensures goes { (settings : Settings) (before : List Event) (body : List ℕ) (params : Option Json) → IsRead message.now body
        → message_of body ≡ notification (codes "window/workDoneProgress/cancel") params → Stands settings tables.now before
        → IfOk result (Goes settings before e body params (map number_in tables.now.lasts.items)) }
{
    match worked(tables, e, message)? {
        Some(request) => Ok(Some(request_work(alloc, message, request)?)),
        None => created_work(tables, alloc, e, message),
    }
}

// The notification goes to the group's last start.
fn pass_work(tables: &Tables, outs: &mut Outs, work: Work) -> Result<(), Memory>
    requires { work.group < length tables.now.lasts.items }
    ensures does { (settings : Settings) (base : List Event) (params : Option Json) (s : ℕ)
        → message_of work.text ≡ notification (codes "window/workDoneProgress/cancel") params → slice_get (map number_in tables.now.lasts.items) work.group ≡ Some s
        → OnOk result (Does (λ k events. AllStand settings k events) (send (ToServer s work.text)) base
        (tables.now, nothing_owed) outs.old (tables.now, nothing_owed) outs.new) }
{
    tables.notify(outs, work.group, work.text)?;
    Ok(())
}

/// E11: a `window/workDoneProgress/cancel` comes from an editor that is served. Where it names the work token of an open request of the
/// editor at the last start of its group, which is ready, it goes there with the daemon's token; where it names the daemon's token of one
/// that the editor accepted and that lives there, with the start's own; else it gives nothing. It takes time in the message, and in how
/// many requests are open at the start.
pub fn take_work_cancel(
    tables: &mut Tables,
    alloc: Global,
    outs: &mut Outs,
    e: u64,
    message: &Message,
) -> Result<(), Memory>
    requires { e < length tables.old.editors }
    ensures requests { tables.new.requests ≡ tables.old.requests }
    ensures versions { tables.new.versions ≡ tables.old.versions }
    ensures does { (settings : Settings) (before : List Event) (body : List ℕ) (params : Option Json) → IsRead message.now body
        → message_of body ≡ notification (codes "window/workDoneProgress/cancel") params → is_served (desk_of e before).phase ≡ true
        → outs.old ≡ [] → Meant before → Settled settings before → Stands settings tables.old before → DocumentsStand settings nothing_owed tables.old before
        → OnOk result (Done (λ k events. AllStand settings k events) (running_row settings before e (message_of body) ⨾ work_row settings before e body params)
        (with_cause before (FromEditor e body)) [] (tables.new, nothing_owed) outs.new) }
{
    let work = work_of(tables, alloc, e, message)?;
    hear_running(tables, alloc, outs, e)?;
    match work {
        None => Ok(()),
        Some(work) => {
            pass_work(tables, outs, work)?;
            Ok(())
        }
    }
}
