//! The key of the group for which an editor asks, and what the editor offers.
ghost use Rattle.std.specs.Prelude.{◌≡◌, ℕ, List, map, true, is_some, IfOk, Option, option_map};
ghost use Rattle.event_model.specs.Members.{options_of, params_of};
ghost use Rattle.group_words.specs.Houses.{folders_of, normal_of, offered};
ghost use Rattle.json_text.specs.Tree.{tree_of};
ghost use Rattle.rpc_message.specs.Parsed.{IsRead};

use crate::folders::{folders_of, normal_forms};
use group_words::Key;
use message_body::{Body, Memory};
use mux_members::{is_object, member, member_bytes};
use rpc_message::Message;
use std::alloc::Global;

// The bytes that may be there, kept.
fn kept(alloc: Global, bytes: Option<&[u8]>) -> Result<Option<Body>, Memory>
    ensures { IfOk result (λ body. body ≡ option_map (λ b. b.now) bytes.entry) }
{
    match bytes {
        Some(bytes) => Ok(Some(Body::new(Vec::from_slice(alloc, bytes)?))),
        None => Ok(None),
    }
}

/// The key of the group for which an `initialize` asks: the server that is meant, the folders, and the options.
pub fn key_of(alloc: Global, message: &Message, server: u32) -> Result<Key, Memory>
    ensures { (body : List ℕ) → IsRead message.now body
        → IfOk result (λ key. key ≡ record {
          server = server;
          folders = folders_of (params_of body);
          normal = map normal_of (folders_of (params_of body));
          options = options_of body;
        }) }
{
    let tape = message.tape();
    let params = member(tape, Some(tape.root()), "params");
    let folders = folders_of(alloc, tape, params)?;
    let normal = normal_forms(alloc, folders.as_slice())?;
    let options = kept(alloc, member_bytes(tape, params, "initializationOptions"))?;
    Ok(Key {
        server,
        folders,
        normal,
        options,
    })
}

/// The capabilities that an `initialize` offers, as they came (LSP 3.17, ClientCapabilities); an object without members where they
/// are no object.
pub fn offered<'a>(message: &'a Message) -> &'a [u8]
    ensures bytes { (body : List ℕ) → IsRead message.now body → result.now ≡ offered body }
    ensures text { (body : List ℕ) → IsRead message.now body → is_some (tree_of result.now) ≡ true }
{
    let tape = message.tape();
    let params = member(tape, Some(tape.root()), "params");
    if !is_object(tape, member(tape, params, "capabilities")) {
        return "{}".as_bytes();
    }
    match member_bytes(tape, params, "capabilities") {
        Some(bytes) => bytes,
        None => "{}".as_bytes(),
    }
}
