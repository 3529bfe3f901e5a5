//! The settings that a document says, and those that hold without one.
ghost use Rattle.std.specs.Prelude.{◌≡◌, ◌+◌, ◌≤◌, IfOk, Some, None, codes, option_and_then, option_copied, option_map, string_bytes};
ghost use Rattle.outside_io.specs.Doors.{address_of};
ghost use Rattle.toml.specs.Data.{as_str, get_member};
ghost use Rattle.toml.specs.View.{table_view};
ghost use Rattle.mux_config.specs.Answers.{Answers, chosen};
ghost use Rattle.mux_config.specs.Chosen.{built_in, chosen_of, default_at, limits_at, names_before, number_at, place_at};
ghost use Rattle.mux_config.specs.Settings.{count, fault_of, place_in, servers_in};

use crate::config::Config;
use crate::fault::ConfigFault;
use crate::first::{First, Sort};
use crate::keys::{bounds, note_all, servers};
use crate::servers::{commands_of, servers_of};
use crate::values::{member, number, place_in};
use event_model::{Limits, Server};
use message_body::{Body, Memory};
use outside_io::Place;
use std::alloc::{AllocError, Global};
use toml::Table;

// The number of a key, or its default.
fn number_at(table: &Table, key: &str) -> u32
    ensures { result ≡ number_at (table_view table.now) key.now }
{
    let Some(span) = bounds(key) else {
        return 0;
    };
    match member(table, key) {
        Some(value) => number(value, span.low, span.high).unwrap_or(span.default),
        None => span.default,
    }
}

// The place that is said.
fn said_place(alloc: Global, table: &Table) -> Result<Option<Place>, AllocError>
    ensures { IfOk result (λ place. option_map address_of place ≡ option_and_then place_in (get_member (codes "place") (table_view table.now))) }
{
    match member(table, "place") {
        Some(value) => place_in(alloc, value),
        None => Ok(None),
    }
}

// The place, or the default one.
fn place_at(alloc: Global, table: &Table) -> Result<Place, AllocError>
    ensures { IfOk result (λ place. address_of place ≡ place_at (table_view table.now)) }
{
    match said_place(alloc, table)? {
        Some(place) => Ok(place),
        None => Ok(Place::Unix(String::from_str(alloc, "/tmp/lspmux.sock")?)),
    }
}

fn limits_at(table: &Table) -> Limits
    ensures { result ≡ limits_at (table_view table.now) }
{
    Limits {
        groups: number_at(table, "groups"),
        restarts: number_at(table, "restarts"),
        idle: u64::from(number_at(table, "idle")),
        grace: u64::from(number_at(table, "grace")),
        backlog: u64::from(number_at(table, "backlog")),
        requests: number_at(table, "requests"),
        versions: number_at(table, "versions"),
    }
}

// The name of the server that is meant where an editor names none.
fn wanted(table: &Table) -> Option<&str>
    ensures { option_copied result ≡ option_and_then as_str (get_member (codes "default") (table_view table.now)) }
{
    member(table, "default")?.as_str()
}

// How many names stand before a name.
fn names_before(servers: &Table, wanted: &str) -> u32
    requires { count (table_view servers.now) ≤ 1024 }
    ensures { result ≡ names_before wanted.now (table_view servers.now) }
{
    let mut before = 0;
    for (name, _server) in servers.iter() {
        if name.as_str() == wanted {
            return before;
        }
        before += 1;
    }
    before
}

// The place of the server that is meant where an editor names none.
fn default_at(table: &Table, servers: &Table) -> u32
    requires { count (table_view servers.now) ≤ 1024 }
    ensures { result ≡ default_at (table_view table.now) (table_view servers.now) }
{
    match wanted(table) {
        Some(name) => names_before(servers, name),
        None => 0,
    }
}

// The servers of settings with no fault.
fn kept_servers(table: &Table) -> &Table
    requires { fault_of (table_view table.now) ≡ None }
    ensures servers { servers_in (table_view table.now) ≡ Some (table_view result.now) }
    ensures few { count (table_view result.now) ≤ 1024 }
{
    servers(table).unwrap()
}

// What settings with no fault say.
fn config_of(alloc: Global, table: &Table) -> Result<Config, AllocError>
    requires { fault_of (table_view table.now) ≡ None }
    ensures { IfOk result (λ config. chosen config ≡ chosen_of (table_view table.now)) }
{
    let servers = kept_servers(table);
    let place = place_at(alloc, table)?;
    let named = servers_of(alloc, servers)?;
    let commands = commands_of(alloc, servers)?;
    Ok(Config {
        place,
        links: number_at(table, "links"),
        content: number_at(table, "content"),
        limits: limits_at(table),
        default: default_at(table, servers),
        servers: named,
        commands,
    })
}

// The first fault of a table.
fn fault_in(alloc: Global, table: &Table) -> Result<Option<(Sort, String)>, AllocError>
    ensures { IfOk result (λ fault. option_map (λ p. record { sort = p.0; path = string_bytes p.1 }) fault ≡ fault_of (table_view table.now)) }
{
    let mut first = First::new();
    note_all(alloc, &mut first, table)?;
    Ok(first.fault())
}

impl Config {
    /// Reads settings: a TOML document (TOML 1.1) in UTF-8. Where it has faults, the least unknown path is told, else the least
    /// missing one, else the least one out of range. Each fault costs the time of its path.
    pub fn read(alloc: Global, bytes: &[u8]) -> Result<Config, ConfigFault>
        ensures { Answers bytes.now result }
    {
        let table = match toml::table_from_slice(alloc, bytes) {
            Ok(table) => table,
            Err(fault) if fault.is_memory() => return Err(ConfigFault::Memory),
            Err(_) => return Err(ConfigFault::NotToml),
        };
        match fault_in(alloc, &table)? {
            Some((Sort::Unknown, path)) => Err(ConfigFault::Unknown(path)),
            Some((Sort::Missing, path)) => Err(ConfigFault::Missing(path)),
            Some((Sort::Range, path)) => Err(ConfigFault::Range(path)),
            None => Ok(config_of(alloc, &table)?),
        }
    }

    /// The defaults, with one server `main` whose command is `rust-analyzer`.
    pub fn built_in(alloc: Global) -> Result<Config, Memory>
        ensures { IfOk result (λ config. chosen config ≡ chosen_of built_in) }
    {
        let name = Body::new(b"main".to_vec(alloc)?);
        let program = String::from_str(alloc, "rust-analyzer")?;
        Ok(Config {
            place: Place::Unix(String::from_str(alloc, "/tmp/lspmux.sock")?),
            links: 32,
            content: 67_108_864,
            limits: Limits {
                groups: 8,
                restarts: 5,
                idle: 300,
                grace: 5,
                backlog: 134_217_728,
                requests: 2_147_483_647,
                versions: 2_147_483_647,
            },
            default: 0,
            servers: vec![in alloc;
                Server {
                    name,
                    ceiling: None
                },
            ]?,
            commands: vec![in alloc; vec![in alloc; program]?]?,
        })
    }
}
