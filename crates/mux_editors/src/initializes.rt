//! E7 as a whole entry: an editor's `initialize` (LSP 3.17, Initialize Request).
ghost use Rattle.std.specs.Prelude.{◌≡◌, ◌<◌, ◌≤◌, ℕ, List, [], Option, true, length, IfOk, OnOk, MatchOption, option_copied, slice_get};
ghost use Rattle.std.specs.Option.{option_and_then};
ghost use Rattle.event_model.specs.declared.settings.Server.{Server};
ghost use Rattle.event_model.specs.Does.{Does, Done};
ghost use Rattle.event_model.specs.Event.{Event, with_cause};
ghost use Rattle.event_model.specs.Phases.{desk_of};
ghost use Rattle.event_model.specs.Settings.{Settings};
ghost use Rattle.mux_turns.specs.group_facts.specs.Facts.{Known, Results};
ghost use Rattle.mux_turns.specs.group_facts.specs.Settled.{Settled};
ghost use Rattle.group_words.specs.declared.placed.Placed.TheVariants.{Joins};
ghost use Rattle.group_words.specs.Houses.{groups_of, placed_for, places, server_for};
ghost use Rattle.group_words.specs.Rows.{initialize_row, placed_row};
ghost use Rattle.json_text.specs.Json.{Json};
ghost use Rattle.mux_turns.specs.group_facts.specs.Ceilings.{HaveCeilings};
ghost use Rattle.mux_history.specs.declared.cause.Cause.TheVariants.{FromEditor};
ghost use Rattle.mux_tables.specs.Documents.{AllStand, DocumentsStand, nothing_owed};
ghost use Rattle.mux_tables.specs.Stands.{Stands};
ghost use Rattle.rpc_message.specs.Message.{Id, message_of, request};
ghost use Rattle.rpc_message.specs.Parsed.{IsRead};

use event_model::Server;
use group_keys::{key_of, offered};
use group_words::Placed;
use message_body::{Body, Memory};
use mux_history::Outs;
use mux_tables::Tables;
use mux_turns::{bytes_of, found, replace, turn_away, welcome};
use rpc_message::Message;
use std::alloc::Global;

// The capabilities beyond which no editor's are passed on to a server, where it has some.
fn ceiling(servers: &[Server], n: u32) -> Option<&[u8]>
    ensures is { option_copied result ≡ option_and_then (λ (x : Server). x.ceiling) (slice_get servers.now n) }
    ensures fits { HaveCeilings servers.now → MatchOption result (Unit {0}) (λ c. length c.now ≤ 268435456) }
{
    match servers.get(n as usize) {
        Some(server) => bytes_of(&server.ceiling),
        None => None,
    }
}

// The editor is placed, by the server that it means, and what it asks and offers.
fn seat(
    tables: &mut Tables,
    alloc: Global,
    servers: &[Server],
    server: u32,
    e: u64,
    message: &Message,
) -> Result<Placed, Memory>
    requires editor { e < length tables.old.editors }
    requires ceilings { HaveCeilings servers.now }
    ensures count { length tables.new.editors ≡ length tables.old.editors }
    ensures requests { tables.new.requests ≡ tables.old.requests }
    ensures versions { tables.new.versions ≡ tables.old.versions }
    ensures moves { (settings : Settings) (before : List Event) (body method : List ℕ) (id : Id) (params : Option Json) → IsRead message.now body
        → message_of body ≡ request id method params → places (desk_of e before).phase (message_of body) ≡ true → settings.servers ≡ servers.now
        → server_for settings e before ≡ server → Stands settings tables.old before → DocumentsStand settings nothing_owed tables.old before
        → IfOk result (λ p. (p ≡ placed_for settings before e body (groups_of settings before))
        × AllStand settings (tables.new, nothing_owed) (with_cause before (FromEditor e body))) }
{
    let id = Body::new(Vec::from_slice(alloc, message.id_bytes())?);
    let key = key_of(alloc, message, server)?;
    let capabilities = offered(message);
    if capabilities.len() > 268_435_456 {
        return Err(Memory);
    }
    match tables.hear_initialize(e, id, key, capabilities, ceiling(servers, server)) {
        Ok(placed) => Ok(placed),
        Err(_) => Err(Memory),
    }
}

// It joins this group: it waits, or is answered where the group's last start is ready.
fn join(
    tables: &mut Tables,
    alloc: Global,
    outs: &mut Outs,
    e: u64,
    message: &Message,
    g: u64,
) -> Result<(), Memory>
    requires { e < length tables.old.editors }
    ensures requests { tables.new.requests ≡ tables.old.requests }
    ensures versions { tables.new.versions ≡ tables.old.versions }
    ensures does { (settings : Settings) (before : List Event) (body method : List ℕ) (id : Id) (params : Option Json) → IsRead message.now body
        → message_of body ≡ request id method params → places (desk_of e before).phase (message_of body) ≡ true → Results before → outs.old ≡ []
        → AllStand settings (tables.old, nothing_owed) (with_cause before (FromEditor e body))
        → OnOk result (Does (λ k events. AllStand settings k events) (placed_row e body before (Joins g)) (with_cause before (FromEditor e body))
        (tables.old, nothing_owed) outs.old (tables.new, nothing_owed) outs.new) }
{
    match tables.place_of(g) {
        None => Ok(()),
        Some(place) => {
            if !tables.stage(place).is_ready() {
                return Ok(());
            }
            welcome(tables, alloc, outs, e, message, place)?;
            Ok(())
        }
    }
}

/// E7: an editor's `initialize` comes. The editor joins the group of its key, which has the server that it means, that takes it, and is
/// answered where that group's last start is ready; or a group is founded for it, perhaps in place of one that has no editor; or it is
/// turned away.
pub fn take_initialize(
    tables: &mut Tables,
    alloc: Global,
    servers: &[Server],
    default: u32,
    outs: &mut Outs,
    e: u64,
    message: &Message,
) -> Result<(), Memory>
    requires editor { e < length tables.old.editors }
    requires limit { 2 ≤ tables.old.requests }
    requires versions { 1 ≤ tables.old.versions }
    requires ceilings { HaveCeilings servers.now }
    ensures requests { tables.new.requests ≡ tables.old.requests }
    ensures versions { tables.new.versions ≡ tables.old.versions }
    ensures does { (settings : Settings) (before : List Event) (body method : List ℕ) (id : Id) (params : Option Json) → IsRead message.now body
        → message_of body ≡ request id method params → places (desk_of e before).phase (message_of body) ≡ true → settings.servers ≡ servers.now
        → settings.default ≡ default → outs.old ≡ [] → Known settings before → Settled settings before
        → Stands settings tables.old before → DocumentsStand settings nothing_owed tables.old before
        → OnOk result (Done (λ k events. AllStand settings k events) (initialize_row settings before e body)
        (with_cause before (FromEditor e body)) [] (tables.new, nothing_owed) outs.new) }
{
    let server = tables.server(e, default);
    let placed = seat(tables, alloc, servers, server, e, message)?;
    match placed {
        Placed::Joins(g) => {
            join(tables, alloc, outs, e, message, g)?;
            Ok(())
        }
        Placed::New(n) => {
            found(tables, alloc, outs, n)?;
            Ok(())
        }
        Placed::Evicts(idle, n) => {
            replace(tables, alloc, outs, idle, n)?;
            Ok(())
        }
        Placed::TooMany => {
            turn_away(tables, alloc, outs, e, message)?;
            Ok(())
        }
    }
}
