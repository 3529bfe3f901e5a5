//! S6, S7 and L2: the requests by which editors are told of registrations (LSP 3.17, Register Capability and Unregister Capability).
ghost use Rattle.std.specs.Prelude.{◌≡◌, ◌++◌, IfOk, OnOk};
ghost use Rattle.group_facts.specs.group_rows.specs.Live.{register_params, register_text, unregister_params, unregister_text, unregistration};

use crate::greeting::add_comma;
use group_facts::registrations::Registration;
use message_body::{Body, Memory};
use rpc_message::request;
use std::alloc::Global;

// The params that register these, as they came.
fn register_params(alloc: Global, items: &[Registration]) -> Result<Vec<u8>, Memory>
    ensures { IfOk result (λ text. text.items ≡ register_params items.now) }
{
    let mut text = Vec::new(alloc);
    text.extend_from_slice("{\"registrations\":".as_bytes())?;
    text.push(b'[')?;
    let mut started = false;
    for item in items {
        add_comma(&mut text, started)?;
        text.extend_from_slice(item.item.bytes())?;
        started = true;
    }
    text.push(b']')?;
    text.extend_from_slice("}".as_bytes())?;
    Ok(text)
}

// That one is taken back, with its id and its method as they came.
fn add_unregistration(text: &mut Vec<u8>, item: &Registration) -> Result<(), Memory>
    ensures { OnOk result (text.new.items ≡ text.old.items ++ unregistration item.now) }
{
    text.extend_from_slice("{\"id\":".as_bytes())?;
    text.extend_from_slice(item.id.bytes())?;
    text.extend_from_slice(",\"method\":".as_bytes())?;
    text.extend_from_slice(item.method.bytes())?;
    text.extend_from_slice("}".as_bytes())?;
    Ok(())
}

// The params that take these back; the name of the list is misspelled so in LSP 3.17.
fn unregister_params(alloc: Global, items: &[Registration]) -> Result<Vec<u8>, Memory>
    ensures { IfOk result (λ text. text.items ≡ unregister_params items.now) }
{
    let mut text = Vec::new(alloc);
    text.extend_from_slice("{\"unregisterations\":".as_bytes())?;
    text.push(b'[')?;
    let mut started = false;
    for item in items {
        add_comma(&mut text, started)?;
        add_unregistration(&mut text, item)?;
        started = true;
    }
    text.push(b']')?;
    text.extend_from_slice("}".as_bytes())?;
    Ok(text)
}

/// The request of this number that registers these, as they came.
pub fn register_text(alloc: Global, items: &[Registration], n: u64) -> Result<Body, Memory>
    ensures { IfOk result (λ body. body ≡ register_text items.now n) }
{
    let params = register_params(alloc, items)?;
    request(
        alloc,
        n as u128,
        "client/registerCapability",
        Some(params.as_slice()),
    )
}

/// The request of this number that takes these back.
pub fn unregister_text(alloc: Global, items: &[Registration], n: u64) -> Result<Body, Memory>
    ensures { IfOk result (λ body. body ≡ unregister_text items.now n) }
{
    let params = unregister_params(alloc, items)?;
    request(
        alloc,
        n as u128,
        "client/unregisterCapability",
        Some(params.as_slice()),
    )
}
