//! E10, E11 and S13: tokens for progress of editors' requests, and the daemon's own in their place (LSP 3.17, Work Done Progress and
//! Partial Result Progress).
ghost use Rattle.std.specs.Prelude.{◌≡◌, ◌<◌, ◌++◌, ℕ, List, true, false, codes, length, IfOk, MatchOption, Option};
ghost use Rattle.group_facts.specs.group_rows.specs.Tokens.{forwarded_text, mark_edits, mark_text, marked_text};
ghost use Rattle.group_facts.specs.group_rows.specs.Forwarded.{token_in};
ghost use Rattle.group_facts.specs.group_rows.specs.Reserved.{begins_as_mark, is_reserved, reserves};
ghost use Rattle.std.specs.Str.{chars};
ghost use Rattle.event_model.specs.Members.{named_of, params_of};
ghost use Rattle.json_nodes.specs.At.{At, Found};
ghost use Rattle.json_nodes.specs.Puts.{put_edits};
ghost use Rattle.json_text.specs.Changes.{edits_of};
ghost use Rattle.json_text.specs.Json.{Json};
ghost use Rattle.json_text.specs.Replace.{Rise};
ghost use Rattle.group_facts.specs.mux_members.specs.Finds.{is_ascii};
ghost use Rattle.mux_tables.specs.Tokens.{MarksAt};
ghost use Rattle.mux_turns.specs.Tokens.{WritesMark, one_token, tokens_for, two_tokens};
ghost use Rattle.rpc_message.specs.Message.{Id, message_of, notification, request};
ghost use Rattle.rpc_message.specs.Parsed.{IsRead};

use crate::answered::{read, writes};
use group_facts::mux_members::{named_token, text, token};
use itoa::Buffer;
use json_nodes::Put;
use json_span::Tape;
use json_text::Change;
use message_body::{Body, Memory};
use rpc_message::Message;
use std::alloc::Global;

// What stands behind the front of the daemon's tokens, where these characters begin with it.
fn behind_front(cs: &[u8]) -> Option<&[u8]>
    ensures { MatchOption result (begins_as_mark cs.now ≡ false) (λ rest. cs.now ≡ codes "lspmux:" ++ rest.now) }
{
    if cs.len() < 7 {
        return None;
    }
    let (front, rest) = cs.split_at(7);
    if front == "lspmux:".as_bytes() {
        Some(rest)
    } else {
        None
    }
}

// Whether characters begin as those of the daemon's tokens do.
fn begins_as_mark(cs: &[u8]) -> bool
    ensures { result ≡ begins_as_mark cs.now }
{
    behind_front(cs).is_some()
}

// The number of the daemon's token that has these characters.
fn mark_in(cs: &[u8]) -> Option<u64>
    ensures { WritesMark cs.now result }
{
    let digits = behind_front(cs)?;
    let k = read(digits)?;
    if writes(digits, k) { Some(k) } else { None }
}

/// Whether a token of this name might be the daemon's.
pub fn is_reserved(alloc: Global, message: &Message, name: &str) -> Result<bool, Memory>
    ensures { is_ascii name.now ≡ true → (body method : List ℕ) (id : Id) (params : Option Json) → IsRead message.now body
        → message_of body ≡ request id method params → IfOk result (λ reserved. reserved ≡ is_reserved (named_of name.now (params_of body))) }
{
    let token = text(alloc, message, name)?;
    match token {
        Some(cs) => Ok(begins_as_mark(cs.bytes())),
        None => Ok(false),
    }
}

/// E10: whether a request has a token that might be the daemon's.
pub fn reserves(alloc: Global, message: &Message) -> Result<bool, Memory>
    ensures { (body method : List ℕ) (id : Id) (params : Option Json) → IsRead message.now body → message_of body ≡ request id method params
        → IfOk result (λ reserved. reserved ≡ reserves (params_of body)) }
{
    let work = is_reserved(alloc, message, "workDoneToken")?;
    let partial = is_reserved(alloc, message, "partialResultToken")?;
    Ok(work || partial)
}

/// S13: the number of the daemon's token that a notification names, where it names one.
pub fn marked(alloc: Global, message: &Message) -> Result<Option<u64>, Memory>
    ensures { (body method : List ℕ) (params : Option Json) → IsRead message.now body → message_of body ≡ notification method params
        → IfOk result (λ k. MarksAt (named_of (codes "token") params) k) }
{
    let token = text(alloc, message, "token")?;
    match token {
        Some(cs) => Ok(mark_in(cs.bytes())),
        None => Ok(None),
    }
}

/// The text of the daemon's token of a number.
pub fn mark_text(alloc: Global, k: u64) -> Result<Vec<u8>, Memory>
    ensures { IfOk result (λ text. text.items ≡ mark_text k) }
{
    let mut text = Vec::new(alloc);
    let mut digits = Buffer::new();
    text.extend_from_slice("\"lspmux:".as_bytes())?;
    text.extend_from_slice(digits.format(k).as_bytes())?;
    text.extend_from_slice("\"".as_bytes())?;
    Ok(text)
}

// The changes that put the daemon's token of this number in the place of each token of a name.
fn put_one(alloc: Global, tape: &Tape, node: u32, name: &str, k: u64) -> Result<Vec<Change>, Memory>
    requires { node < length tape.now.nodes }
    ensures { (t : Json) → At tape.now node t → IfOk result (λ changes. edits_of changes.items ≡ put_edits (one_token (chars name.now) k) t) }
{
    let text = mark_text(alloc, k)?;
    let changes = tape.puts(alloc, node, &[Put { name, text: &text }])?;
    Ok(changes)
}

// The changes that put these two in the place of each token of a request.
fn put_both(
    alloc: Global,
    tape: &Tape,
    node: u32,
    work: &[u8],
    partial: &[u8],
) -> Result<Vec<Change>, Memory>
    requires { node < length tape.now.nodes }
    ensures { (t : Json) → At tape.now node t → IfOk result (λ changes. edits_of changes.items ≡ put_edits (two_tokens work.now partial.now) t) }
{
    let done = Put {
        name: "workDoneToken",
        text: work,
    };
    let results = Put {
        name: "partialResultToken",
        text: partial,
    };
    tape.puts(alloc, node, &[done, results])
}

// The changes that put the daemon's tokens in the place of those that request n has.
fn put_marks(
    alloc: Global,
    tape: &Tape,
    node: u32,
    n: u32,
    work: bool,
    partial: bool,
) -> Result<Vec<Change>, Memory>
    requires { node < length tape.now.nodes }
    ensures { (t : Json) → At tape.now node t → IfOk result (λ changes. edits_of changes.items ≡ put_edits (tokens_for work partial n) t) }
{
    let k = 2 * u64::from(n);
    if work {
        if partial {
            let first = mark_text(alloc, k)?;
            let second = mark_text(alloc, k + 1)?;
            put_both(alloc, tape, node, &first, &second)
        } else {
            put_one(alloc, tape, node, "workDoneToken", k)
        }
    } else if partial {
        put_one(alloc, tape, node, "partialResultToken", k + 1)
    } else {
        Ok(Vec::new(alloc))
    }
}

/// E10: the text of a token of a request, where it has one.
pub fn token_text(alloc: Global, message: &Message, name: &str) -> Result<Option<Body>, Memory>
    ensures { is_ascii name.now ≡ true → (body method : List ℕ) (id : Id) (params : Option Json) → IsRead message.now body
        → message_of body ≡ request id method params → IfOk result (λ text. text ≡ token_in name.now body) }
{
    match token(message, name) {
        Some(bytes) => {
            let text = Vec::from_slice(alloc, bytes)?;
            Ok(Some(Body::new(text)))
        }
        None => Ok(None),
    }
}

/// E10: a request as it goes to a start: under this number, with the daemon's tokens, and all else as it came.
pub fn forwarded_text(alloc: Global, message: &Message, n: u32) -> Result<Body, Memory>
    ensures { (body method : List ℕ) (id : Id) (params : Option Json) → IsRead message.now body → message_of body ≡ request id method params
        → IfOk result (λ text. text ≡ forwarded_text n body) }
{
    let _body = message.bytes();
    let mut digits = Buffer::new();
    let id = digits.format(n).as_bytes();
    match message.params() {
        None => message.with_id(alloc, id),
        Some(node) => {
            let tape = message.tape();
            let work = named_token(tape, Some(node), "workDoneToken");
            let partial = named_token(tape, Some(node), "partialResultToken");
            let changes = put_marks(alloc, tape, node, n, work, partial)?;
            message.with_changes(alloc, id, changes)
        }
    }
}

// The changes that give each `token` of params another text.
fn token_changes(
    alloc: Global,
    tape: &Tape,
    params: Option<u32>,
    text: &[u8],
) -> Result<Vec<Change>, Memory>
    requires { MatchOption params (Unit {0}) (λ node. node < length tape.now.nodes) }
    ensures edits { (o : Option Json) → Found tape.now o params → IfOk result (λ changes. edits_of changes.items ≡ mark_edits text.now o) }
    ensures rise { IfOk result (λ changes. Rise tape.now.bytes (edits_of changes.items)) }
{
    let name = "token";
    match params {
        Some(node) => tape.puts(alloc, node, &[Put { name, text }]),
        None => Ok(Vec::new(alloc)),
    }
}

/// E11 and S13: a notification with this text in place of each `token` of its params, and all else as it came.
pub fn marked_text(alloc: Global, message: &Message, text: &[u8]) -> Result<Body, Memory>
    ensures { (body method : List ℕ) (params : Option Json) → IsRead message.now body → message_of body ≡ notification method params
        → IfOk result (λ told. told ≡ marked_text text.now body) }
{
    let changes = token_changes(alloc, message.tape(), message.params(), text)?;
    message.with_cuts(alloc, &changes)
}
