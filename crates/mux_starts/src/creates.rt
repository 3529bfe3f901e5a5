//! S8: a start creates a token for progress (LSP 3.17, Work Done Progress, Server Initiated Progress); and which editors S13 tells of one.
ghost use Rattle.std.specs.Prelude.{◌≡◌, ◌<◌, ◌^◌, ℕ, List, [], None, Option, Some, IfOk, OnOk, false, filter, find, length, map, true, slice_get};
ghost use Rattle.std.specs.List.{All, AllByRecursion};
ghost use Rattle.event_model.specs.declared.stage.Stage.TheVariants.{Ready};
ghost use Rattle.event_model.specs.Does.{Does, Done};
ghost use Rattle.event_model.specs.Event.{Event, behind, with_cause};
ghost use Rattle.event_model.specs.Phases.{desk_of, is_running};
ghost use Rattle.event_model.specs.Row.{each};
ghost use Rattle.event_model.specs.Settings.{Settings};
ghost use Rattle.group_rows.specs.Asks.{asking_of, is_taken};
ghost use Rattle.group_rows.specs.Created.{Token, created_of, has_accepted, is_numbered};
ghost use Rattle.group_rows.specs.CreatedRows.{create_row, offer};
ghost use Rattle.json_text.specs.Json.{Json};
ghost use Rattle.lsp_method.specs.Class.{class_of};
ghost use Rattle.lsp_method.specs.declared.variants.Class.TheVariants.{Create};
ghost use Rattle.lsp_method.specs.declared.variants.Origin.TheVariants.{Server};
ghost use Rattle.mux_history.specs.declared.cause.Cause.TheVariants.{FromServer};
ghost use Rattle.mux_starts.specs.Creates.{AreApart, Creates, Dues};
ghost use Rattle.mux_tables.specs.declared.tables.Start.{Start};
ghost use Rattle.mux_tables.specs.Documents.{AllStand, DocumentsStand, nothing_owed};
ghost use Rattle.mux_tables.specs.Stands.{Stands, number_in};
ghost use Rattle.mux_turns.specs.Creates.{AreSmall, Unasked};
ghost use Rattle.mux_turns.specs.group_facts.specs.Settled.{Settled};
ghost use Rattle.rpc_message.specs.Message.{Id, message_of, notification, request};
ghost use Rattle.rpc_message.specs.Parsed.{IsRead};

use crate::registered::{accept, decline};
use message_body::{Body, Memory};
use mux_history::Outs;
use mux_members::{cancelled_token, token};
use mux_tables::Tables;
use mux_turns::{is_reserved, offer};
use rpc_message::Message;
use std::alloc::Global;

/// A live token of a start, and the editors that are to hear of it.
#[derive(Debug, Drop)]
pub struct Due {
    pub token: u64,
    pub editors: Vec<u64>,
}

// The text of the token that a request of the group's last start creates, where it may be created.
fn new_token(
    tables: &Tables,
    alloc: Global,
    g: usize,
    message: &Message,
) -> Result<Option<Body>, Memory>
    requires { g < length tables.now.lasts.items }
    ensures { (settings : Settings) (before : List Event) (body method : List ℕ) (id : Id) (params : Option Json) (x : Start)
        → IsRead message.now body → message_of body ≡ request id method params → slice_get tables.now.lasts.items g ≡ Some x
        → Stands settings tables.now before → IfOk result (Creates body (created_of settings x.life.start before)) }
{
    let Some(token) = token(message, "token") else {
        return Ok(None)
    };
    if tables.is_created(g, token) {
        return Ok(None);
    }
    let reserved = is_reserved(alloc, message, "token")?;
    if reserved {
        return Ok(None);
    }
    Ok(Some(Body::new(Vec::from_slice(alloc, token)?)))
}

// Each of these editors, which run, is asked to take a token that lives, in this order.
fn offer_each(
    tables: &mut Tables,
    alloc: Global,
    outs: &mut Outs,
    g: usize,
    numbers: &[u64],
    k: u64,
) -> Result<(), Memory>
    requires group { g < length tables.old.lasts.items }
    requires editors { All (λ e. e < length tables.old.editors) numbers.now }
    ensures requests { tables.new.requests ≡ tables.old.requests }
    ensures versions { tables.new.versions ≡ tables.old.versions }
    ensures low { k < 2 ^ 64 }
    ensures does { (settings : Settings) (base : List Event) (x : Start) (token : Token) → slice_get tables.old.lasts.items g ≡ Some x
        → AreApart numbers.now → AllByRecursion (λ e. is_running (desk_of e (behind base outs.old)).phase ≡ true) numbers.now
        → ((s : ℕ) → (asking_of settings s (behind base outs.old)).asker ≡ None)
        → find (is_numbered k) (created_of settings x.life.start (behind base outs.old)).tokens ≡ Some token
        → AllByRecursion (λ e. Unasked e k (created_of settings x.life.start (behind base outs.old)).takings) numbers.now
        → AreSmall settings (behind base outs.old)
        → OnOk result (Does (λ u events. AllStand settings u events) (each (λ e. offer x.life.start e token) numbers.now) base
        (tables.old, nothing_owed) outs.old (tables.new, nothing_owed) outs.new) }
{
    for e in numbers {
        offer(tables, alloc, outs, g, *e, k)?;
    }
    Ok(())
}

/// S8: a request of class Create comes from the group's last start, which is ready, under the id of no open ask. Where it names a token that
/// doesn't live, and that doesn't begin as the daemon's do, it is granted, and each editor of the group that runs is asked, rising, to take
/// that token. Else it is refused. It takes time in the message and in how many editors there are.
pub fn take_create(
    tables: &mut Tables,
    alloc: Global,
    outs: &mut Outs,
    g: usize,
    message: &Message,
) -> Result<(), Memory>
    requires { g < length tables.old.lasts.items }
    ensures requests { tables.new.requests ≡ tables.old.requests }
    ensures versions { tables.new.versions ≡ tables.old.versions }
    ensures does { (settings : Settings) (before : List Event) (body method : List ℕ) (id : Id) (params : Option Json) (s : ℕ) (x : Start)
        → IsRead message.now body → message_of body ≡ request id method params → class_of method Server false ≡ Create
        → is_taken (Some id) (asking_of settings s before) ≡ false → outs.old ≡ []
        → slice_get tables.old.lasts.items g ≡ Some x → x.life.stage ≡ Ready → slice_get (map number_in tables.old.lasts.items) g ≡ Some s
        → Settled settings before → Stands settings tables.old before → DocumentsStand settings nothing_owed tables.old before
        → OnOk result (Done (λ k events. AllStand settings k events) (create_row settings before x.life.group s body)
        (with_cause before (FromServer s body)) [] (tables.new, nothing_owed) outs.new) }
{
    let group = tables.group_number(g);
    let numbers = tables.running(group)?;
    let found = new_token(tables, alloc, g, message)?;
    match found {
        None => {
            tables.hear_answer(g, None);
            decline(tables, alloc, outs, g, message)?;
            Ok(())
        }
        Some(token) => {
            let k = tables.create(g, token)?;
            accept(tables, alloc, outs, g, message)?;
            offer_each(tables, alloc, outs, g, &numbers, k)?;
            Ok(())
        }
    }
}

// Those of these editors that accepted a token of the group's last start, in this order.
fn takers(
    tables: &Tables,
    alloc: Global,
    g: usize,
    k: u64,
    numbers: &[u64],
) -> Result<Vec<u64>, Memory>
    requires { g < length tables.now.lasts.items }
    ensures { (settings : Settings) (before : List Event) (x : Start) → slice_get tables.now.lasts.items g ≡ Some x
        → Stands settings tables.now before
        → IfOk result (λ es. es.items ≡ filter (λ e. has_accepted e k (created_of settings x.life.start before)) numbers.now) }
{
    let mut all = Vec::new(alloc);
    for e in numbers {
        if tables.has_taken(g, k, *e) {
            all.push(*e)?;
        }
    }
    Ok(all)
}

/// S13: the live token of the group's last start that a notification tells of, and the editors of the group that run and accepted it,
/// rising.
pub fn due_of(
    tables: &Tables,
    alloc: Global,
    g: usize,
    message: &Message,
) -> Result<Option<Due>, Memory>
    requires { g < length tables.now.lasts.items }
    ensures { (settings : Settings) (before : List Event) (body method : List ℕ) (params : Option Json) (x : Start)
        → IsRead message.now body → message_of body ≡ notification method params → slice_get tables.now.lasts.items g ≡ Some x
        → Stands settings tables.now before → IfOk result (Dues settings before x.life.group x.life.start params) }
{
    let Some(token) = cancelled_token(message) else {
        return Ok(None)
    };
    let Some(k) = tables.created_as(g, token) else {
        return Ok(None)
    };
    let numbers = tables.running(tables.group_number(g))?;
    let editors = takers(tables, alloc, g, k, &numbers)?;
    Ok(Some(Due { token: k, editors }))
}
