// What a frame answers.
ghost use Rattle.std.specs.Prelude.{◌≡◌, ◌≤◌, ℕ, List, length, codes, bytes_eq, false, IfOk};
ghost use Rattle.rpc_message.specs.Message.{Id};
ghost use Rattle.rpc_message.specs.Parsed.{IsRead};
ghost use Rattle.rpc_message.specs.ValueTexts.{IsIdText};
ghost use Rattle.mux_client.specs.Replies.{Says, SaysSort, reply_sort};

use message_body::{Body, Memory};
use rpc_message::{Malformed, Message, Sort, same_id};
use std::alloc::Global;

/// What a frame's content says of a request.
#[derive(Debug, Drop)]
pub enum Reply {
    /// It is the request's result, with these bytes.
    Result(Body),
    /// It is the request's error.
    Refusal,
    /// It is something else.
    Other,
}

/// The same without the result.
#[derive(Clone, Copy, Debug, PartialEq, Eq)]
pub enum ReplySort {
    Result,
    Refusal,
    Other,
}

// What a message of this class says of the request whose id it has.
fn reply_sort(sort: Sort) -> ReplySort
    ensures { result ≡ reply_sort sort }
{
    match sort {
        Sort::Result => ReplySort::Result,
        Sort::Error => ReplySort::Refusal,
        Sort::Request | Sort::Notification => ReplySort::Other,
    }
}

// What a message says of the request of this id, which isn't written as null.
fn sort_of_reply(message: &Message<'_>, id: &[u8]) -> ReplySort
    ensures { (asked : Id) (bytes : List ℕ) → IsIdText asked id.now → bytes_eq (codes "null") id.now ≡ false → IsRead message.now bytes
        → SaysSort asked bytes result }
{
    if same_id(message.id_bytes(), id) {
        reply_sort(message.sort())
    } else {
        ReplySort::Other
    }
}

// The same, with the result's bytes.
fn reply_of(alloc: Global, message: &Message<'_>, id: &[u8]) -> Result<Reply, Memory>
    ensures { (asked : Id) (bytes : List ℕ) → IsIdText asked id.now → bytes_eq (codes "null") id.now ≡ false → IsRead message.now bytes
        → IfOk result (λ reply. Says asked bytes reply) }
{
    match sort_of_reply(message, id) {
        ReplySort::Result => {
            let value = Vec::from_slice(alloc, message.result_bytes())?;
            Ok(Reply::Result(Body::new(value)))
        }
        ReplySort::Refusal => Ok(Reply::Refusal),
        ReplySort::Other => Ok(Reply::Other),
    }
}

/// What a frame's content says of the request of this id, which isn't written as null. Its cost is linear in the content.
#[tactic(auto, using(crate::proofs::Replying::unread_json, crate::proofs::Replying::unread_message))]
pub fn read_reply(alloc: Global, content: &[u8], id: &[u8]) -> Result<Reply, Memory>
    requires { length content.now ≤ 268435456 }
    ensures { (asked : Id) → IsIdText asked id.now → bytes_eq (codes "null") id.now ≡ false → IfOk result (λ reply. Says asked content.now reply) }
{
    match Message::read(alloc, content) {
        Ok(message) => reply_of(alloc, &message, id),
        Err(Malformed::NotJson) => Ok(Reply::Other),
        Err(Malformed::NotMessage) => Ok(Reply::Other),
        Err(Malformed::Memory) => Err(Memory),
    }
}
