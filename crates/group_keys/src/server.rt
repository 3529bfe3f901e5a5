//! The server that an `lspmux/open` names.
ghost use Rattle.std.specs.Prelude.{◌≡◌, ℕ, List, Option, Some, encode_utf8_all, IfOk, option_map};
ghost use Rattle.group_words.specs.Houses.{place_named, server_asked, server_named};
ghost use Rattle.rpc_message.specs.Parsed.{IsRead};

use event_model::Server;
use message_body::{Body, Memory};
use mux_members::{member, string};
use rpc_message::Message;
use std::alloc::Global;

// The place of the first server of this name.
fn place_named(servers: &[Server], name: &[u8]) -> Option<usize>
    ensures { result ≡ place_named name.now servers.now }
{
    servers
        .iter()
        .position(|server| server.name.bytes() == name)
}

// The same, in 32 bits.
fn server_named(servers: &[Server], name: Option<Body>) -> Result<Option<u32>, Memory>
    ensures { (cs : Option (List ℕ)) → name ≡ option_map encode_utf8_all cs → IfOk result (λ place. place ≡ server_named servers.now cs) }
{
    let Some(name) = name else {
        return Ok(None);
    };
    match place_named(servers, name.bytes()) {
        None => Ok(None),
        Some(place) if place < 4_294_967_296 => Ok(Some(place as u32)),
        Some(_) => Err(Memory),
    }
}

/// E4: the place of the server that the params of a request name, compared by characters; none where they name no server. The time is that
/// of a walk over the names of the servers.
pub fn server_asked(
    alloc: Global,
    servers: &[Server],
    message: &Message,
) -> Result<Option<u32>, Memory>
    ensures { (body : List ℕ) → IsRead message.now body → IfOk result (λ place. place ≡ server_asked servers.now body) }
{
    let tape = message.tape();
    let params = member(tape, Some(tape.root()), "params");
    let name = string(alloc, tape, params, "server")?;
    let place = server_named(servers, name)?;
    Ok(place)
}
