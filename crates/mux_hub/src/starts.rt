// The servers and the folders of the starts.
ghost use Rattle.std.specs.Prelude.{◌≡◌, ◌++◌, ◌∷◌, [], List, IfOk, OnOk, option_copied, option_map, slice_get, string_bytes};
ghost use Rattle.event_model.specs.Event.{Event, behind, said};
ghost use Rattle.event_model.specs.Settings.{Settings};
ghost use Rattle.group_words.specs.Houses.{groups_of};
ghost use Rattle.mux_hub.specs.Starts.{SameServers, folder_at, folder_in, server_in, servers_of};
ghost use Rattle.mux_causes.specs.mux_tables.specs.Stands.{Stands};

use group_words::Kept;
use message_body::Memory;
use mux_causes::mux_tables::Tables;
use mux_history::{Out, Outs};
use start_folder::path_of;
use std::alloc::Global;

// The place of the server that the starts of a group run.
fn server_in(tables: &Tables, default: u32, group: u64) -> u32
    ensures { (settings : Settings) (events : List Event) → Stands settings tables.now events
        → result ≡ server_in default (slice_get (groups_of settings events) group) }
{
    match tables.kept(group) {
        Some(kept) => kept.key.server,
        None => default,
    }
}

// The folder of the starts of a group: that of the first of its folders.
fn folder_in(alloc: Global, group: Option<&Kept>) -> Result<Option<String>, Memory>
    ensures { IfOk result (λ folder. option_map string_bytes folder ≡ folder_in (option_copied group.entry)) }
{
    let Some(kept) = group else {
        return Ok(None);
    };
    match kept.key.folders.first() {
        Some((uri, _name)) => path_of(alloc, uri.bytes()),
        None => Ok(None),
    }
}

/// The folder in which a start's program is to run: that of the first folder of its group.
pub fn folder_of(alloc: Global, tables: &Tables, start: u64) -> Result<Option<String>, Memory>
    ensures { (settings : Settings) (events : List Event) → Stands settings tables.now events
        → IfOk result (λ folder. option_map string_bytes folder ≡ folder_at settings events start) }
{
    match tables.origin(start) {
        Some(group) => folder_in(alloc, tables.kept(group)),
        None => Ok(None),
    }
}

// One out of an entry: the server of a start that it spawns comes behind those of the others.
fn note_spawn(
    servers: &mut Vec<u32>,
    tables: &Tables,
    default: u32,
    out: &Out,
) -> Result<(), Memory>
    ensures { (settings : Settings) (base now : List Event) → settings.default ≡ default → Stands settings tables.now now
        → SameServers settings base now → servers.old.items ≡ servers_of settings base
        → OnOk result (servers.new.items ≡ servers_of settings (base ++ said out.now ∷ [])) }
{
    if let Out::Spawn(_, group) = out {
        servers.push(server_in(tables, default, *group))?;
    }
    Ok(())
}

/// The servers of the starts that an entry spawns come behind those of the others.
pub fn note_spawns(
    servers: &mut Vec<u32>,
    tables: &Tables,
    default: u32,
    outs: &Outs,
) -> Result<(), Memory>
    ensures { (settings : Settings) (base : List Event) → settings.default ≡ default → Stands settings tables.now (behind base outs.now)
        → servers.old.items ≡ servers_of settings base → OnOk result (servers.new.items ≡ servers_of settings (behind base outs.now)) }
{
    for out in outs.as_slice() {
        note_spawn(servers, tables, default, out)?;
    }
    Ok(())
}
