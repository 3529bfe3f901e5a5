//! The keys at the top of the settings.
ghost use Rattle.std.specs.Prelude.{◌≡◌, IfOk, codes, is_some, option_and_then, option_map};
ghost use Rattle.toml.specs.Data.{get_member};
ghost use Rattle.toml.specs.View.{table_view, view};
ghost use Rattle.mux_config.specs.Faults.{first_in};
ghost use Rattle.mux_config.specs.Settings.{are_servers, bounds_of, fault_at, faults_in_servers, faults_of, is_server, missing_unless, says_servers, servers_in, top_faults, wrong_at, wrong_number};

use crate::first::{First, Sort};
use crate::servers::{note_servers, range_unless};
use crate::values::{member, number, place_in};
use std::alloc::{AllocError, Global};
use toml::{Table, Value};

/// The range of a setting that is a number, and its default.
#[derive(Clone, Copy, Debug)]
pub struct Span {
    pub low: u32,
    pub high: u32,
    pub default: u32,
}

/// The range of a key that is a number.
pub fn bounds(key: &str) -> Option<Span>
    ensures { result ≡ bounds_of key.now }
{
    let (low, high, default) = match key {
        "links" => (1, 32, 32),
        "groups" => (1, 16, 8),
        "restarts" => (0, 1_000, 5),
        "idle" => (0, 86_400, 300),
        "grace" => (0, 3_600, 5),
        "content" => (1_024, 268_435_456, 67_108_864),
        "backlog" => (1_024, 1_073_741_824, 134_217_728),
        "requests" => (3, 2_147_483_647, 2_147_483_647),
        "versions" => (2, 2_147_483_647, 2_147_483_647),
        _ => return None,
    };
    Some(Span { low, high, default })
}

/// The table of servers.
pub fn servers(table: &Table) -> Option<&Table>
    ensures { option_map (λ servers. table_view servers.now) result ≡ servers_in (table_view table.now) }
{
    member(table, "server")?.as_table()
}

// Whether there is a server of this name.
fn has_server(table: &Table, name: &str) -> bool
    ensures { result ≡ is_some (option_and_then (λ servers. get_member name.now servers) (servers_in (table_view table.now))) }
{
    match servers(table) {
        Some(servers) => member(servers, name).is_some(),
        None => false,
    }
}

// Whether a value is the name of a server.
fn is_server(table: &Table, value: &Value) -> bool
    ensures { result ≡ is_server (table_view table.now) (view value.now) }
{
    match value.as_str() {
        Some(name) => has_server(table, name),
        None => false,
    }
}

// Whether a value is a table of at most 1,024 servers.
#[tactic(auto, using(crate::proofs::Tables::counted))]
fn are_servers(value: &Value) -> bool
    ensures { result ≡ are_servers (view value.now) }
{
    match value.as_table() {
        Some(servers) => servers.len() <= 1_024,
        None => false,
    }
}

// What is wrong with the value of a key that is a number, if anything.
fn wrong_number(key: &str, value: &Value) -> Option<Sort>
    ensures { result ≡ wrong_number (bounds_of key.now) (view value.now) }
{
    let Some(span) = bounds(key) else {
        return Some(Sort::Unknown);
    };
    range_unless(number(value, span.low, span.high).is_some())
}

// What is wrong with a key at the top, if anything.
fn wrong(alloc: Global, table: &Table, key: &str, value: &Value) -> Result<Option<Sort>, AllocError>
    ensures { IfOk result (λ wrong. wrong ≡ wrong_at (table_view table.now) key.now (view value.now)) }
{
    match key {
        "place" => Ok(range_unless(place_in(alloc, value)?.is_some())),
        "default" => Ok(range_unless(is_server(table, value))),
        "server" => Ok(range_unless(are_servers(value))),
        _ => Ok(wrong_number(key, value)),
    }
}

// Whether something is said of servers: an empty table says nothing.
#[tactic(auto, using(crate::proofs::Tables::counted))]
fn says_servers(table: &Table) -> bool
    ensures { result ≡ says_servers (get_member (codes "server") (table_view table.now)) }
{
    let Some(value) = member(table, "server") else {
        return false;
    };
    match value.as_table() {
        Some(servers) => !servers.is_empty(),
        None => true,
    }
}

// Notes what is wrong with a key at the top.
fn note_key(
    alloc: Global,
    first: &mut First,
    table: &Table,
    key: &str,
    value: &Value,
) -> Result<(), AllocError>
    ensures { IfOk result (λ _. first.new ≡ first_in first.old (fault_at key.now (wrong_at (table_view table.now) key.now (view value.now)))) }
{
    if let Some(sort) = wrong(alloc, table, key, value)? {
        first.note(sort, String::from_str(alloc, key)?);
    }
    Ok(())
}

// Notes what is wrong with the keys at the top.
fn note_keys(alloc: Global, first: &mut First, table: &Table) -> Result<(), AllocError>
    ensures { IfOk result (λ _. first.new ≡ first_in first.old (top_faults (table_view table.now) (table_view table.now))) }
{
    for (key, value) in table.iter() {
        note_key(alloc, first, table, key.as_str(), value)?;
    }
    Ok(())
}

// Notes that no server is there.
fn note_missing(alloc: Global, first: &mut First, table: &Table) -> Result<(), AllocError>
    ensures { IfOk result (λ _. first.new
        ≡ first_in first.old (missing_unless (says_servers (get_member (codes "server") (table_view table.now))) (codes "server"))) }
{
    if !says_servers(table) {
        first.note(Sort::Missing, String::from_str(alloc, "server")?);
    }
    Ok(())
}

// Notes what is wrong with the servers, if there is a table of them.
fn note_within(alloc: Global, first: &mut First, table: &Table) -> Result<(), AllocError>
    ensures { IfOk result (λ _. first.new ≡ first_in first.old (faults_in_servers (servers_in (table_view table.now)))) }
{
    match servers(table) {
        Some(servers) => note_servers(alloc, first, servers),
        None => Ok(()),
    }
}

/// Notes what is wrong with the settings.
pub fn note_all(alloc: Global, first: &mut First, table: &Table) -> Result<(), AllocError>
    ensures { IfOk result (λ _. first.new ≡ first_in first.old (faults_of (table_view table.now))) }
{
    note_keys(alloc, first, table)?;
    note_missing(alloc, first, table)?;
    note_within(alloc, first, table)
}
