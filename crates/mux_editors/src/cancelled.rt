//! E11: an editor cancels a request of its own.
ghost use Rattle.std.specs.Prelude.{◌≡◌, ◌<◌, ℕ, List, [], Option, Some, true, codes, length, map, option_copied, option_map, IfOk, IfSome, MatchOption, OnOk, slice_get};
ghost use Rattle.mux_editors.specs.Running.{running_row};
ghost use Rattle.event_model.specs.Does.{Does, Done};
ghost use Rattle.event_model.specs.Event.{Event, behind, with_cause};
ghost use Rattle.event_model.specs.Phases.{desk_of, is_served};
ghost use Rattle.event_model.specs.Row.{send, ◌⨾◌};
ghost use Rattle.event_model.specs.Settings.{Settings};
ghost use Rattle.mux_turns.specs.group_facts.specs.Facts.{AllForwarded, Known};
ghost use Rattle.group_rows.specs.Cancelling.{cancelling_row, id_puts, number_called, numbered_text};
ghost use Rattle.group_rows.specs.Rows.{cancel_row};
ghost use Rattle.group_rows.specs.Waiting.{cancelled_text, named_id};
ghost use Rattle.json_nodes.specs.At.{Found};
ghost use Rattle.json_text.specs.Changes.{edits_of};
ghost use Rattle.json_text.specs.Json.{Json};
ghost use Rattle.json_text.specs.Replace.{Rise};
ghost use Rattle.mux_editors.specs.Cancels.{HaveIds};
ghost use Rattle.mux_history.specs.declared.cause.Cause.TheVariants.{FromEditor};
ghost use Rattle.mux_history.specs.declared.out.Out.TheVariants.{ToEditor, ToServer};
ghost use Rattle.mux_tables.specs.Documents.{AllStand, DocumentsStand, Owed, nothing_owed};
ghost use Rattle.mux_tables.specs.mux_waits.specs.held_requests.specs.declared.request.Request.{Request as Waits};
ghost use Rattle.mux_turns.specs.Initials.{IsNamed};
ghost use Rattle.mux_editors.specs.Cancels.{Names, waiting_there};
ghost use Rattle.mux_tables.specs.Stands.{Stands, forwarded_of, number_in};
ghost use Rattle.rpc_message.specs.Message.{Id, message_of, notification};
ghost use Rattle.rpc_message.specs.Parsed.{IsRead};
ghost use Rattle.rpc_message.specs.ValueTexts.{IsIdText};
ghost use Rattle.mux_turns.specs.group_facts.specs.Settled.{Settled};

use crate::running::hear_running;
use itoa::Buffer;
use json_nodes::Put;
use json_span::Tape;
use json_text::Change;
use message_body::{Body, Memory};
use mux_history::Outs;
use mux_members::cancelled_id;
use mux_tables::Tables;
use mux_tables::id_rewrite::IdTable;
use mux_tables::mux_waits::held_requests::Request;
use mux_turns::stage_at;
use rpc_message::{ErrorCode, Message, error_answer};
use std::alloc::Global;

/// What a cancel names: a request that is open at the last start of a group, which is ready, and wasn't cancelled.
#[derive(Clone, Copy, Debug)]
pub struct Target {
    /// The place of the group.
    pub group: usize,
    pub number: u32,
}

// The number of the open request of an editor under an id, where it wasn't cancelled.
fn uncancelled(ids: &IdTable, e: u64, id: &[u8]) -> Option<u32>
    ensures { (i : Id) → IsIdText i id.now → HaveIds (map forwarded_of ids.now.requests) → result ≡ number_called e i (map forwarded_of ids.now.requests) }
{
    let number = ids.find(e, id)?;
    let pending = ids.get(number)?;
    if pending.cancelled {
        None
    } else {
        Some(number)
    }
}

// What a `$/cancelRequest` of an editor names.
fn named(tables: &Tables, e: u64, message: &Message) -> Option<Target>
    ensures inside { IfSome result (λ x. x.group < length tables.now.lasts.items) }
    ensures names { (settings : Settings) (before : List Event) (body method : List ℕ) (params : Option Json) → IsRead message.now body
        → message_of body ≡ notification method params → AllForwarded settings before → Stands settings tables.now before
        → Names settings before e body params (map number_in tables.now.lasts.items) result }
{
    let id = cancelled_id(message)?;
    let group = tables.place(e)?;
    if stage_at(tables, group).is_ready() {
        let number = uncancelled(&tables.lasts[group].ids, e, id)?;
        Some(Target { group, number })
    } else {
        None
    }
}

// The changes that give each `id` of params another text.
fn id_changes(
    alloc: Global,
    tape: &Tape,
    params: Option<u32>,
    text: &[u8],
) -> Result<Vec<Change>, Memory>
    requires { MatchOption params (Unit {0}) (λ node. node < length tape.now.nodes) }
    ensures edits { (o : Option Json) → Found tape.now o params → IfOk result (λ changes. edits_of changes.items ≡ id_puts text.now o) }
    ensures rise { IfOk result (λ changes. Rise tape.now.bytes (edits_of changes.items)) }
{
    let name = "id";
    match params {
        Some(node) => tape.puts(alloc, node, &[Put { name, text }]),
        None => Ok(Vec::new(alloc)),
    }
}

// A notification with a number in place of each `id` of its params, and all else as it came.
fn renumbered(alloc: Global, message: &Message, n: u32) -> Result<Body, Memory>
    ensures { (body method : List ℕ) (params : Option Json) → IsRead message.now body → message_of body ≡ notification method params
        → IfOk result (λ text. text ≡ numbered_text n body) }
{
    let mut digits = Buffer::new();
    let text = digits.format(n);
    let changes = id_changes(alloc, message.tape(), message.params(), text.as_bytes())?;
    message.with_cuts(alloc, &changes)
}

// The cancel goes to the group's last start, under the number of its request.
fn pass_cancel(
    tables: &mut Tables,
    alloc: Global,
    outs: &mut Outs,
    g: usize,
    n: u32,
    message: &Message,
) -> Result<(), Memory>
    requires { g < length tables.old.lasts.items }
    ensures requests { tables.new.requests ≡ tables.old.requests }
    ensures versions { tables.new.versions ≡ tables.old.versions }
    ensures does { (settings : Settings) (base : List Event) (body : List ℕ) (params : Option Json) (id : Id) (s : ℕ) → IsRead message.now body
        → message_of body ≡ notification (codes "$/cancelRequest") params → named_id params ≡ Some id
        → slice_get (map number_in tables.old.lasts.items) g ≡ Some s
        → OnOk result (Does (λ k events. AllStand settings k events) (send (ToServer s (numbered_text n body))) base
        (tables.old, nothing_owed) outs.old (tables.new, nothing_owed) outs.new) }
{
    let text = renumbered(alloc, message, n)?;
    tables.cancel(outs, g, n, text)?;
    Ok(())
}

// The request that a cancel names, where it waits in its editor's group.
fn waiting_named<'a>(tables: &'a Tables, e: u64, message: &Message) -> Option<&'a Request>
    ensures { (settings : Settings) (before : List Event) (body method : List ℕ) (params : Option Json) → IsRead message.now body
        → message_of body ≡ notification method params → Stands settings tables.now before
        → option_copied result ≡ waiting_there settings before e params }
{
    let id = cancelled_id(message)?;
    let g = tables.home(e)?;
    tables.waiting_under(g, e, id)
}

// Its id.
fn waits_under(
    tables: &Tables,
    alloc: Global,
    e: u64,
    message: &Message,
) -> Result<Option<Body>, Memory>
    ensures { (settings : Settings) (before : List Event) (body method : List ℕ) (params : Option Json) → IsRead message.now body
        → message_of body ≡ notification method params → Stands settings tables.now before
        → IfOk result (λ id. id ≡ option_map (λ (r : Waits). r.id) (waiting_there settings before e params)) }
{
    match waiting_named(tables, e, message) {
        Some(request) => {
            let own = request.id.copy(alloc)?;
            Ok(Some(own))
        }
        None => Ok(None),
    }
}

// A request of an editor that waits is answered, and waits no more (LSP 3.17, Cancellation Support, RequestCancelled).
fn cancel_waiting(
    tables: &mut Tables,
    alloc: Global,
    outs: &mut Outs,
    e: u64,
    id: &[u8],
) -> Result<(), Memory>
    ensures requests { tables.new.requests ≡ tables.old.requests }
    ensures versions { tables.new.versions ≡ tables.old.versions }
    ensures does { (settings : Settings) (base : List Event) → IsNamed id.now
        → OnOk result (Does (λ t events. Stands settings t events) (send (ToEditor e (cancelled_text id.now))) base tables.old outs.old tables.new outs.new) }
    ensures documents { (settings : Settings) (owed : Owed) (base : List Event) → DocumentsStand settings owed tables.old (behind base outs.old)
        → OnOk result (DocumentsStand settings owed tables.new (behind base outs.new)) }
{
    let text = error_answer(alloc, id, ErrorCode::RequestCancelled)?;
    tables.answer(outs, e, id, text)?;
    Ok(())
}

// The cancel goes on where it names a request at the group's last start.
fn pass_named(
    tables: &mut Tables,
    alloc: Global,
    outs: &mut Outs,
    request: Option<Target>,
    message: &Message,
) -> Result<(), Memory>
    requires { IfSome request (λ x. x.group < length tables.old.lasts.items) }
    ensures requests { tables.new.requests ≡ tables.old.requests }
    ensures versions { tables.new.versions ≡ tables.old.versions }
    ensures does { (settings : Settings) (before base : List Event) (e : ℕ) (body : List ℕ) (params : Option Json) → IsRead message.now body
        → message_of body ≡ notification (codes "$/cancelRequest") params → Names settings before e body params (map number_in tables.old.lasts.items) request
        → OnOk result (Does (λ k events. AllStand settings k events) (cancelling_row settings before e body params) base
        (tables.old, nothing_owed) outs.old (tables.new, nothing_owed) outs.new) }
{
    match request {
        None => Ok(()),
        Some(request) => {
            pass_cancel(tables, alloc, outs, request.group, request.number, message)?;
            Ok(())
        }
    }
}

/// E11: a `$/cancelRequest` comes from an editor that is served. Where it names a request of the editor that waits, that is answered with
/// an error (LSP 3.17, RequestCancelled). Where it names an open request of the editor that wasn't cancelled, at the last start of its
/// group, it goes there under the request's number; else it gives nothing (LSP 3.17, Cancellation Support). The time is that of two
/// look-ups, and linear in the message.
pub fn take_cancel(
    tables: &mut Tables,
    alloc: Global,
    outs: &mut Outs,
    e: u64,
    message: &Message,
) -> Result<(), Memory>
    requires { e < length tables.old.editors }
    ensures requests { tables.new.requests ≡ tables.old.requests }
    ensures versions { tables.new.versions ≡ tables.old.versions }
    ensures does { (settings : Settings) (before : List Event) (body : List ℕ) (params : Option Json) → IsRead message.now body
        → message_of body ≡ notification (codes "$/cancelRequest") params → is_served (desk_of e before).phase ≡ true
        → outs.old ≡ [] → Known settings before → Settled settings before → Stands settings tables.old before → DocumentsStand settings nothing_owed tables.old before
        → OnOk result (Done (λ k events. AllStand settings k events) (running_row settings before e (message_of body) ⨾ cancel_row settings before e body params)
        (with_cause before (FromEditor e body)) [] (tables.new, nothing_owed) outs.new) }
{
    let waits = waits_under(tables, alloc, e, message)?;
    let request = named(tables, e, message);
    hear_running(tables, alloc, outs, e)?;
    match waits {
        Some(id) => {
            cancel_waiting(tables, alloc, outs, e, id.bytes())?;
            Ok(())
        }
        None => {
            pass_named(tables, alloc, outs, request, message)?;
            Ok(())
        }
    }
}
