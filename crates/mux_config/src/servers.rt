//! The servers of the settings.
ghost use Rattle.std.specs.Prelude.{◌≡◌, IfOk, IsUtf8, codes, is_some, map, option_and_then, option_copied, option_map, string_bytes};
ghost use Rattle.std.specs.Ordering.{nat_cmp};
ghost use Rattle.std.specs.Cmp.Lexicographic.{slice_cmp};
ghost use Rattle.std.specs.List.{AllByRecursion};
ghost use Rattle.std.specs.List.Sorted.{IsStrictlySortedBy};
ghost use Rattle.toml.specs.Data.{as_str, get, get_member, table};
ghost use Rattle.toml.specs.View.{items_view, table_view, view};
ghost use Rattle.mux_config.specs.Chosen.{command_of, commands_of, names_of, server_of, servers_of, strings_of};
ghost use Rattle.mux_config.specs.Faults.{first_in};
ghost use Rattle.mux_config.specs.Settings.{key_faults, key_path, keys_faults, missing_unless, range_unless, server_faults, server_path, servers_faults, wrong_key};

use crate::first::{First, Sort};
use crate::values::{is_ceiling, is_command, member};
use event_model::Server;
use message_body::Body;
use std::alloc::{AllocError, Global};
use toml::{Table, Value};

// The path of a server.
fn server_path(alloc: Global, name: &str) -> Result<String, AllocError>
    ensures { IfOk result (λ path. string_bytes path ≡ server_path name.now) }
{
    let mut path = String::from_str(alloc, "server.")?;
    path.push_str(name)?;
    Ok(path)
}

// The path of a server's key.
fn key_path(alloc: Global, name: &str, key: &str) -> Result<String, AllocError>
    ensures { IfOk result (λ path. string_bytes path ≡ key_path name.now key.now) }
{
    let mut path = server_path(alloc, name)?;
    path.push_str(".")?;
    path.push_str(key)?;
    Ok(path)
}

/// A fault of range, unless the value fits.
pub fn range_unless(fits: bool) -> Option<Sort>
    ensures { result ≡ range_unless fits }
{
    if fits { None } else { Some(Sort::Range) }
}

// What is wrong with a server's key, if anything.
fn wrong(alloc: Global, key: &str, value: &Value) -> Result<Option<Sort>, AllocError>
    ensures { IfOk result (λ wrong. wrong ≡ wrong_key key.now (view value.now)) }
{
    match key {
        "command" => Ok(range_unless(is_command(value))),
        "ceiling" => Ok(range_unless(is_ceiling(alloc, value)?)),
        _ => Ok(Some(Sort::Unknown)),
    }
}

// Notes what is wrong with a server's key.
fn note_key(
    alloc: Global,
    first: &mut First,
    name: &str,
    key: &str,
    value: &Value,
) -> Result<(), AllocError>
    ensures { IfOk result (λ _. first.new ≡ first_in first.old (key_faults name.now key.now (view value.now))) }
{
    if let Some(sort) = wrong(alloc, key, value)? {
        first.note(sort, key_path(alloc, name, key)?);
    }
    Ok(())
}

// Notes what is wrong with a server's keys.
fn note_keys(alloc: Global, first: &mut First, name: &str, keys: &Table) -> Result<(), AllocError>
    ensures { IfOk result (λ _. first.new ≡ first_in first.old (keys_faults name.now (table_view keys.now))) }
{
    for (key, value) in keys.iter() {
        note_key(alloc, first, name, key.as_str(), value)?;
    }
    Ok(())
}

// Notes that a server has no command.
fn note_missing(
    alloc: Global,
    first: &mut First,
    name: &str,
    keys: &Table,
) -> Result<(), AllocError>
    ensures { IfOk result (λ _. first.new
        ≡ first_in first.old (missing_unless (is_some (get_member (codes "command") (table_view keys.now))) (key_path name.now (codes "command")))) }
{
    if member(keys, "command").is_none() {
        first.note(Sort::Missing, key_path(alloc, name, "command")?);
    }
    Ok(())
}

// Notes what is wrong with the table of one server.
fn note_table(alloc: Global, first: &mut First, name: &str, keys: &Table) -> Result<(), AllocError>
    ensures { IfOk result (λ _. first.new ≡ first_in first.old (server_faults name.now (table (table_view keys.now)))) }
{
    note_keys(alloc, first, name, keys)?;
    note_missing(alloc, first, name, keys)
}

// Notes what is wrong with one server.
fn note_server(
    alloc: Global,
    first: &mut First,
    name: &str,
    server: &Value,
) -> Result<(), AllocError>
    ensures { IfOk result (λ _. first.new ≡ first_in first.old (server_faults name.now (view server.now))) }
{
    match server.as_table() {
        Some(keys) => note_table(alloc, first, name, keys)?,
        None => first.note(Sort::Range, server_path(alloc, name)?),
    }
    Ok(())
}

/// Notes what is wrong with the servers.
pub fn note_servers(alloc: Global, first: &mut First, servers: &Table) -> Result<(), AllocError>
    ensures { IfOk result (λ _. first.new ≡ first_in first.old (servers_faults (table_view servers.now))) }
{
    for (name, server) in servers.iter() {
        note_server(alloc, first, name.as_str(), server)?;
    }
    Ok(())
}

fn body(alloc: Global, text: &str) -> Result<Body, AllocError>
    ensures { IfOk result (λ body. body ≡ text.now) }
{
    Ok(Body::new(text.as_bytes().to_vec(alloc)?))
}

// The value of a server's key.
fn key_value<'a>(server: &'a Value, key: &str) -> Option<&'a Value>
    ensures { option_map (λ v. view v.now) result ≡ get key.now (view server.now) }
{
    member(server.as_table()?, key)
}

// The text of a server's ceiling.
fn ceiling_text(server: &Value) -> Option<&str>
    ensures { option_copied result ≡ option_and_then as_str (get (codes "ceiling") (view server.now)) }
{
    key_value(server, "ceiling")?.as_str()
}

fn ceiling(alloc: Global, server: &Value) -> Result<Option<Body>, AllocError>
    ensures { IfOk result (λ ceiling. ceiling ≡ option_and_then as_str (get (codes "ceiling") (view server.now))) }
{
    match ceiling_text(server) {
        Some(text) => Ok(Some(body(alloc, text)?)),
        None => Ok(None),
    }
}

// A server, by its name and its settings.
fn server(alloc: Global, name: &str, server: &Value) -> Result<Server, AllocError>
    ensures server { IfOk result (λ s. s ≡ server_of name.now (view server.now)) }
    ensures text { IsUtf8 name.now }
{
    Ok(Server {
        name: body(alloc, name)?,
        ceiling: ceiling(alloc, server)?,
    })
}

/// The servers in byte order of their names.
pub fn servers_of(alloc: Global, table: &Table) -> Result<Vec<Server>, AllocError>
    ensures servers { IfOk result (λ servers. servers.items ≡ servers_of (table_view table.now)) }
    ensures texts { IfOk result (λ servers. AllByRecursion IsUtf8 (names_of servers.items)) }
    ensures ascend { IfOk result (λ servers. IsStrictlySortedBy (slice_cmp nat_cmp) (names_of servers.items)) }
{
    let mut servers = Vec::new(alloc);
    for (name, value) in table.iter() {
        servers.push(server(alloc, name.as_str(), value)?)?;
    }
    Ok(servers)
}

// The strings among some values.
fn strings(alloc: Global, values: &[Value]) -> Result<Vec<String>, AllocError>
    ensures { IfOk result (λ words. map string_bytes words.items ≡ strings_of (items_view values.now)) }
{
    let mut words = Vec::new(alloc);
    for value in values {
        if let Some(text) = value.as_str() {
            words.push(String::from_str(alloc, text)?)?;
        }
    }
    Ok(words)
}

// The words of a server's command.
fn command(alloc: Global, server: &Value) -> Result<Vec<String>, AllocError>
    ensures { IfOk result (λ words. map string_bytes words.items ≡ command_of (view server.now)) }
{
    match key_value(server, "command").and_then(Value::as_array) {
        Some(words) => strings(alloc, words.as_slice()),
        None => Ok(Vec::new(alloc)),
    }
}

/// The command of each server.
pub fn commands_of(alloc: Global, table: &Table) -> Result<Vec<Vec<String>>, AllocError>
    ensures { IfOk result (λ commands. map (λ words. map string_bytes words.items) commands.items ≡ commands_of (table_view table.now)) }
{
    let mut commands = Vec::new(alloc);
    for (_name, value) in table.iter() {
        commands.push(command(alloc, value)?)?;
    }
    Ok(commands)
}
