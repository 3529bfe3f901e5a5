// Which server a link is for: the request `lspmux/open`, and its answer.
ghost use Rattle.std.specs.Prelude.{◌≡◌, ◌≤◌, length, IfOk};
ghost use Rattle.outside_io.specs.Sessions.{session_of};
ghost use Rattle.mux_client.specs.Answers.{Exchanged};
ghost use Rattle.mux_client.specs.Replies.{Says};
ghost use Rattle.mux_client.specs.Requests.{IsRefusal, IsResult, open_id, open_text};

use crate::exchange::exchange;
use crate::fault::ClientFault;
use crate::reply::{Reply, read_reply};
use message_body::{Body, Memory};
use outside_io::{Sink, Source};
use rpc_message::json_span::quote;
use std::alloc::Global;

// The request that names a server.
fn open_request(alloc: Global, name: &str) -> Result<Body, Memory>
    ensures { IfOk result (λ body. body ≡ open_text name.now) }
{
    let name = quote(alloc, name.as_bytes())?;
    let mut text = Vec::new(alloc);
    text.extend_from_slice(
        "{\"jsonrpc\":\"2.0\",\"id\":\"lspmux:open\",\"method\":\"lspmux/open\",\"params\":{\"server\":".as_bytes(),
    )?;
    text.extend_from_slice(name.bytes())?;
    text.extend_from_slice("}}".as_bytes())?;
    Ok(Body::new(text))
}

// What a frame's content says of that request.
fn open_reply(alloc: Global, content: &[u8]) -> Result<Reply, Memory>
    requires { length content.now ≤ 268435456 }
    ensures { IfOk result (λ reply. Says open_id content.now reply) }
{
    read_reply(alloc, content, b"\"lspmux:open\"")
}

/// Tells the daemon at the other end of a link which server is meant, and takes the link's first frame of at most `limit` bytes,
/// where it is the result of that request.
///
/// It answers `Refused` where the frame is the request's error, `Answer` where the link's bytes are faulty, the link ends before
/// a frame, or the frame says something else, and `Link` where a read or a write failed. No byte is read behind the frame.
#[tactic(auto, using(crate::proofs::Opening::opened_result, crate::proofs::Opening::opened_refusal, crate::proofs::Opening::opened_other, crate::proofs::Opening::opened_unread, crate::proofs::Opening::opened_none, crate::proofs::Opening::opened_unsent))]
pub fn open_server<S: Source, K: Sink>(
    alloc: Global,
    limit: u32,
    name: &str,
    source: &mut S,
    sink: &mut K,
) -> Result<Body, ClientFault>
    requires { limit ≤ 268435456 }
    ensures { Exchanged limit (open_text name.now) (IsResult open_id) (IsRefusal open_id)
        (session_of S.taken S.left S.faults K.written K.faults source.old sink.old)
        (session_of S.taken S.left S.faults K.written K.faults source.new sink.new) result }
{
    let Ok(request) = open_request(alloc, name) else {
        return Err(ClientFault::Memory);
    };
    let answer = exchange(alloc, limit, request.bytes(), source, sink)?;
    let Ok(reply) = open_reply(alloc, answer.bytes()) else {
        return Err(ClientFault::Memory);
    };
    match reply {
        Reply::Result(_) => Ok(answer),
        Reply::Refusal => Err(ClientFault::Refused),
        Reply::Other => Err(ClientFault::Answer),
    }
}
