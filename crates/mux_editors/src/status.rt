//! E5: what `lspmux/status` is answered with.
ghost use Rattle.std.specs.Prelude.{◌≡◌, ◌<◌, ◌++◌, ◌&&◌, ℕ, List, [], Some, false, true, codes, flat_map, length, map, slice_get, IfOk, OnOk};
ghost use Rattle.std.specs.List.{AllByRecursion};
ghost use Rattle.capability_meet.specs.Parts.{bracketed};
ghost use Rattle.event_model.specs.Does.{Done};
ghost use Rattle.event_model.specs.Event.{Event, requests, with_cause};
ghost use Rattle.event_model.specs.Phases.{desk_of, is_begun};
ghost use Rattle.event_model.specs.Settings.{Settings};
ghost use Rattle.mux_turns.specs.group_facts.specs.Settled.{Settled};
ghost use Rattle.group_rows.specs.Rows.{status_row};
ghost use Rattle.group_rows.specs.Status.{item_at, item_in, item_text, items_of, name_text, number_text, numbers_text, server_of, state_text, status_text};
ghost use Rattle.group_words.specs.Houses.{is_doubled};
ghost use Rattle.mux_editors.specs.Tellings.{Runs};
ghost use Rattle.mux_history.specs.declared.cause.Cause.TheVariants.{FromEditor};
ghost use Rattle.mux_tables.specs.Documents.{AllStand, DocumentsStand, nothing_owed};
ghost use Rattle.mux_tables.specs.Stands.{Stands, number_in};
ghost use Rattle.rpc_message.specs.Message.{message_of};
ghost use Rattle.rpc_message.specs.Parsed.{IsRead};

use crate::quiet::phase_of;
use event_model::{Server, Stage};
use itoa::Buffer;
use json_span::quote;
use message_body::{Body, Memory};
use mux_history::Outs;
use mux_tables::Tables;
use mux_turns::add_comma;
use rpc_message::{Message, ok_reply};
use std::alloc::Global;

// A number.
#[tactic(auto, using(crate::proofs::Telling::number_written))]
fn number_text(alloc: Global, n: u64) -> Result<Body, Memory>
    ensures { IfOk result (λ body. body ≡ number_text n) }
{
    let mut digits = Buffer::new();
    Ok(Body::new(Vec::from_slice(alloc, digits.format(n).as_bytes())?))
}

// A list of these parts.
#[tactic(auto, using(crate::proofs::Telling::left_next, crate::proofs::Telling::left_none))]
fn bracketed(alloc: Global, parts: &[Body]) -> Result<Body, Memory>
    ensures { IfOk result (λ body. body ≡ bracketed parts.now) }
{
    let mut text = Vec::new(alloc);
    text.push(b'[')?;
    let mut started = false;
    for part in parts {
        add_comma(&mut text, started)?;
        text.extend_from_slice(part.bytes())?;
        started = true;
    }
    text.push(b']')?;
    Ok(Body::new(text))
}

// A list of numbers.
fn numbers_text(alloc: Global, numbers: &[u64]) -> Result<Body, Memory>
    ensures { IfOk result (λ body. body ≡ numbers_text numbers.now) }
{
    let mut parts = Vec::new(alloc);
    for n in numbers {
        parts.push(number_text(alloc, *n)?)?;
    }
    bracketed(alloc, parts.as_slice())
}

// The name of a server.
#[tactic(auto, using(crate::proofs::Telling::name_spelt, crate::proofs::Telling::name_unspelt))]
fn name_text(alloc: Global, name: &[u8]) -> Result<Body, Memory>
    ensures { IfOk result (λ body. body ≡ name_text name.now) }
{
    match std::str::from_utf8(name) {
        Ok(_) => quote(alloc, name),
        Err(_) => quote(alloc, b""),
    }
}

// Where a start stands.
fn add_state(text: &mut Vec<u8>, stage: Stage) -> Result<(), Memory>
    ensures { OnOk result (text.new.items ≡ text.old.items ++ state_text stage) }
{
    match stage {
        Stage::Spawning => Ok(text.extend_from_slice("\"spawning\"".as_bytes())?),
        Stage::Initializing => Ok(text.extend_from_slice("\"initializing\"".as_bytes())?),
        _ => Ok(text.extend_from_slice("\"ready\"".as_bytes())?),
    }
}

// A name, and what stands behind it.
fn add(text: &mut Vec<u8>, name: &str, value: &[u8]) -> Result<(), Memory>
    ensures { OnOk result (text.new.items ≡ text.old.items ++ name.now ++ value.now) }
{
    text.extend_from_slice(name.as_bytes())?;
    text.extend_from_slice(value)?;
    Ok(())
}

// What is told of a group, by its parts.
fn item_text(
    alloc: Global,
    group: u64,
    name: &[u8],
    start: u64,
    stage: Stage,
    editors: &[u64],
    asked: u64,
) -> Result<Body, Memory>
    ensures { IfOk result (λ body. body ≡ item_text (record { group = group; server = name.now; start = start; stage = stage; editors = editors.now; asked = asked })) }
{
    let group = number_text(alloc, group)?;
    let name = name_text(alloc, name)?;
    let start = number_text(alloc, start)?;
    let editors = numbers_text(alloc, editors)?;
    let asked = number_text(alloc, asked)?;
    let mut text = Vec::new(alloc);
    add(&mut text, "{\"group\":", group.bytes())?;
    add(&mut text, ",\"server\":", name.bytes())?;
    add(&mut text, ",\"start\":", start.bytes())?;
    text.extend_from_slice(",\"state\":".as_bytes())?;
    add_state(&mut text, stage)?;
    add(&mut text, ",\"editors\":", editors.bytes())?;
    add(&mut text, ",\"open\":", asked.bytes())?;
    text.push(b'}')?;
    Ok(Body::new(text))
}

// The name of a group's server.
fn server_name<'a>(tables: &Tables, servers: &'a [Server], g: u64) -> &'a [u8]
    ensures { (settings : Settings) (before : List Event) → settings.servers ≡ servers.now → Stands settings tables.now before
        → result.now ≡ server_of settings before g }
{
    let Some(kept) = tables.kept(g) else {
        return b"";
    };
    match servers.get(kept.key.server as usize) {
        Some(server) => server.name.bytes(),
        None => b"",
    }
}

// What is told of the group of this number, which is in this place.
fn item(
    alloc: Global,
    tables: &Tables,
    servers: &[Server],
    g: u64,
    place: usize,
) -> Result<Body, Memory>
    requires { place < length tables.now.lasts.items }
    ensures { (settings : Settings) (before : List Event) (s : ℕ) → settings.servers ≡ servers.now → slice_get (map number_in tables.now.lasts.items) place ≡ Some s → Stands settings tables.now before
        → IfOk result (λ body. body ≡ item_text (item_at settings before g s)) }
{
    let editors = tables.members(g)?;
    let asked = tables.asked(place)?;
    item_text(
        alloc,
        g,
        server_name(tables, servers, g),
        tables.start_number(place),
        tables.stage(place),
        editors.as_slice(),
        asked,
    )
}

// What is told of the group of this number, where it has a start; that of one that lives didn't end.
fn add_item(
    alloc: Global,
    tables: &Tables,
    servers: &[Server],
    items: &mut Vec<Body>,
    g: u64,
) -> Result<(), Memory>
    ensures { (settings : Settings) (before : List Event) → settings.servers ≡ servers.now → Runs g before → Stands settings tables.now before
        → OnOk result (items.new.items ≡ items.old.items ++ map item_text (item_in settings before g)) }
{
    match tables.place_of(g) {
        None => Ok(()),
        Some(place) => {
            items.push(item(alloc, tables, servers, g, place)?)?;
            Ok(())
        }
    }
}

// What is told of these groups.
fn items(
    alloc: Global,
    tables: &Tables,
    servers: &[Server],
    groups: &[u64],
) -> Result<Vec<Body>, Memory>
    ensures { (settings : Settings) (before : List Event) → settings.servers ≡ servers.now → AllByRecursion (λ g. Runs g before) groups.now
        → Stands settings tables.now before → IfOk result (λ items. items.items ≡ map item_text (flat_map (item_in settings before) groups.now)) }
{
    let mut items = Vec::new(alloc);
    for g in groups {
        add_item(alloc, tables, servers, &mut items, *g)?;
    }
    Ok(items)
}

// What is told of groups, each told by one of these.
fn groups_text(alloc: Global, items: &[Body]) -> Result<Body, Memory>
    ensures { IfOk result (λ body. body ≡ codes "{\"groups\":" ++ bracketed items.now ++ codes "}") }
{
    let list = bracketed(alloc, items)?;
    let mut text = Vec::new(alloc);
    text.extend_from_slice("{\"groups\":".as_bytes())?;
    text.extend_from_slice(list.bytes())?;
    text.extend_from_slice("}".as_bytes())?;
    Ok(Body::new(text))
}

// What is told of all live groups.
fn status_text(alloc: Global, tables: &Tables, servers: &[Server]) -> Result<Body, Memory>
    ensures { (settings : Settings) (before : List Event) → settings.servers ≡ servers.now → Settled settings before
        → Stands settings tables.now before → IfOk result (λ body. body ≡ status_text (items_of settings before)) }
{
    let groups = tables.live_groups()?;
    let items = items(alloc, tables, servers, groups.as_slice())?;
    let told = groups_text(alloc, items.as_slice())?;
    Ok(told)
}

/// E5: `lspmux/status` comes from an editor, under an id that isn't open where it has begun: it is told of each live group, by a walk over
/// the live groups, the editors that are linked, for each group, and the open requests of the groups' last starts.
pub fn take_status(
    tables: &mut Tables,
    alloc: Global,
    servers: &[Server],
    outs: &mut Outs,
    e: u64,
    message: &Message,
) -> Result<(), Memory>
    requires { e < length tables.old.editors }
    ensures requests { tables.new.requests ≡ tables.old.requests }
    ensures versions { tables.new.versions ≡ tables.old.versions }
    ensures does { (settings : Settings) (before : List Event) (body : List ℕ) → IsRead message.now body
        → requests (codes "lspmux/status") (message_of body) ≡ true → (is_begun (desk_of e before).phase && is_doubled before e (message_of body)) ≡ false
        → settings.servers ≡ servers.now → outs.old ≡ [] → Settled settings before
        → Stands settings tables.old before → DocumentsStand settings nothing_owed tables.old before
        → OnOk result (Done (λ k events. AllStand settings k events) (status_row settings before e body)
        (with_cause before (FromEditor e body)) [] (tables.new, nothing_owed) outs.new) }
{
    let told = status_text(alloc, tables, servers)?;
    let phase = phase_of(tables, e);
    tables.hear_editor(e, phase);
    let id = message.id_bytes();
    let text = ok_reply(alloc, id, told.bytes())?;
    tables.answer(outs, e, id, text)?;
    Ok(())
}
