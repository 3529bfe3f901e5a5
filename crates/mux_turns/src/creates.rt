//! S8, S13, E11, E19 and L2: tokens that starts create, and the daemon's own in their place (LSP 3.17, Work Done Progress, Server
//! Initiated Progress).
ghost use Rattle.std.specs.Prelude.{◌≡◌, ◌<◌, ℕ, List, None, Option, Some, length, true, bytes_eq, codes, IfOk, OnOk, slice_get};
ghost use Rattle.event_model.specs.Does.{Does};
ghost use Rattle.event_model.specs.Event.{Event, behind};
ghost use Rattle.event_model.specs.Members.{named_of};
ghost use Rattle.event_model.specs.Phases.{desk_of, is_running};
ghost use Rattle.event_model.specs.Settings.{Settings};
ghost use Rattle.group_facts.specs.group_rows.specs.Asks.{asking_of};
ghost use Rattle.group_facts.specs.group_rows.specs.Created.{Token, created_text, is_begin, is_end};
ghost use Rattle.group_facts.specs.group_rows.specs.CreatedRows.{create_params, create_text, offer};
ghost use Rattle.group_facts.specs.group_rows.specs.Tokens.{marked_text};
ghost use Rattle.json_text.specs.Json.{Json};
ghost use Rattle.mux_tables.specs.declared.tables.Start.{Start};
ghost use Rattle.mux_tables.specs.Documents.{AllStand, Owed};
ghost use Rattle.mux_tables.specs.mux_tokens.specs.progress_route.specs.Tables as table;
ghost use Rattle.mux_turns.specs.Creates.{CanOffer, CreatedAt, WritesCreated, created_front};
ghost use Rattle.rpc_message.specs.Message.{message_of, notification};
ghost use Rattle.rpc_message.specs.Parsed.{IsRead};

use crate::answered::{read, writes};
use crate::tokens::marked_text;
use group_facts::mux_members::{member, string, text};
use itoa::Buffer;
use message_body::{Body, Memory};
use mux_history::Outs;
use mux_tables::Tables;
use mux_tables::mux_tokens::Kind;
use rpc_message::{Message, request};
use std::alloc::Global;

// The most bytes of a body of a cause.
const MOST: usize = 268_435_456;

// What the daemon's tokens of a start begin with.
fn created_front(alloc: Global, s: u64) -> Result<Vec<u8>, Memory>
    ensures { IfOk result (λ cs. cs.items ≡ created_front s) }
{
    let mut cs = Vec::new(alloc);
    let mut digits = Buffer::new();
    cs.extend_from_slice("lspmux:".as_bytes())?;
    cs.extend_from_slice(digits.format(s).as_bytes())?;
    cs.extend_from_slice(":".as_bytes())?;
    Ok(cs)
}

// The number of the daemon's token of a start that has these characters. `front` is what those of that start begin with.
fn created_in(front: &[u8], cs: &[u8]) -> Option<u64>
    ensures { (s : ℕ) → front.now ≡ created_front s → WritesCreated s cs.now result }
{
    let digits = cs.strip_prefix(front)?;
    let k = read(digits)?;
    if writes(digits, k) { Some(k) } else { None }
}

/// E11: the number of the daemon's token of a start that a notification names, where it names one.
pub fn created_mark(alloc: Global, message: &Message, s: u64) -> Result<Option<u64>, Memory>
    ensures { (body method : List ℕ) (params : Option Json) → IsRead message.now body → message_of body ≡ notification method params
        → IfOk result (λ k. CreatedAt s (named_of (codes "token") params) k) }
{
    let token = text(alloc, message, "token")?;
    match token {
        Some(cs) => {
            let front = created_front(alloc, s)?;
            Ok(created_in(&front, cs.bytes()))
        }
        None => Ok(None),
    }
}

/// The text of the daemon's token of a start and a number.
pub fn created_text(alloc: Global, s: u64, k: u64) -> Result<Vec<u8>, Memory>
    ensures { IfOk result (λ text. text.items ≡ created_text s k) }
{
    let mut text = Vec::new(alloc);
    let mut start = Buffer::new();
    let mut number = Buffer::new();
    text.extend_from_slice("\"lspmux:".as_bytes())?;
    text.extend_from_slice(start.format(s).as_bytes())?;
    text.extend_from_slice(":".as_bytes())?;
    text.extend_from_slice(number.format(k).as_bytes())?;
    text.extend_from_slice("\"".as_bytes())?;
    Ok(text)
}

// The params that name the daemon's token of a start and a number.
fn create_params(alloc: Global, s: u64, k: u64) -> Result<Vec<u8>, Memory>
    ensures { IfOk result (λ params. params.items ≡ create_params s k) }
{
    let token = created_text(alloc, s, k)?;
    let mut params = Vec::new(alloc);
    params.extend_from_slice("{\"token\":".as_bytes())?;
    params.extend_from_slice(&token)?;
    params.extend_from_slice("}".as_bytes())?;
    Ok(params)
}

// The request of number n by which an editor is asked to take the token of number k of a start.
fn create_text(alloc: Global, s: u64, k: u64, n: u64) -> Result<Body, Memory>
    ensures { IfOk result (λ body. body ≡ create_text s k n) }
{
    let params = create_params(alloc, s, k)?;
    request(
        alloc,
        n as u128,
        "window/workDoneProgress/create",
        Some(params.as_slice()),
    )
}

/// S8 and L2: an editor that runs is asked to take a live token of the group's last start, under its next number, while one below 2^64
/// is left. No request is at work that one editor answers. Where the answer is an error the tables stand for nothing any more.
pub fn offer(
    tables: &mut Tables,
    alloc: Global,
    outs: &mut Outs,
    g: usize,
    e: u64,
    k: u64,
) -> Result<(), Memory>
    requires group { g < length tables.old.lasts.items }
    requires editor { e < length tables.old.editors }
    ensures requests { tables.new.requests ≡ tables.old.requests }
    ensures versions { tables.new.versions ≡ tables.old.versions }
    ensures lasts { tables.new.lasts ≡ tables.old.lasts }
    ensures count { OnOk result (length tables.new.editors ≡ length tables.old.editors) }
    ensures does { (settings : Settings) (owed : Owed) (base : List Event) (x : Start) (token : Token) → slice_get tables.old.lasts.items g ≡ Some x
        → is_running (desk_of e (behind base outs.old)).phase ≡ true → ((s : ℕ) → (asking_of settings s (behind base outs.old)).asker ≡ None)
        → CanOffer settings x.life.start e k token (behind base outs.old)
        → OnOk result (Does (λ u events. AllStand settings u events)
        (offer x.life.start e token) base (tables.old, owed) outs.old (tables.new, owed) outs.new) }
{
    let Some(n) = tables.next_ask(e) else {
        return Ok(());
    };
    let text = create_text(alloc, tables.start_number(g), k, n)?;
    tables.offer(outs, g, e, k, text)?;
    Ok(())
}

// What a kind says.
fn kind_named(cs: &[u8]) -> Kind
    ensures begin { table.is_begin result ≡ bytes_eq (codes "begin") cs.now }
    ensures end { table.is_end result ≡ bytes_eq (codes "end") cs.now }
{
    if cs == "begin".as_bytes() {
        Kind::Begin
    } else if cs == "end".as_bytes() {
        Kind::End
    } else {
        Kind::Other
    }
}

/// S13: what a notification says of the progress of its token, by the `kind` of its `value`.
pub fn kind_of(alloc: Global, message: &Message) -> Result<Kind, Memory>
    ensures { (body method : List ℕ) (params : Option Json) → IsRead message.now body → message_of body ≡ notification method params
        → IfOk result (λ kind. (table.is_begin kind ≡ is_begin params) × (table.is_end kind ≡ is_end params)) }
{
    let tape = message.tape();
    let value = member(tape, message.params(), "value");
    let kind = string(alloc, tape, value, "kind")?;
    match kind {
        None => Ok(Kind::Other),
        Some(cs) => Ok(kind_named(cs.bytes())),
    }
}

/// S13: a notification of a start as editors are told it: with the daemon's token in the place of each `token` of its params.
pub fn told_text(alloc: Global, message: &Message, s: u64, k: u64) -> Result<Body, Memory>
    ensures { (body method : List ℕ) (params : Option Json) → IsRead message.now body → message_of body ≡ notification method params
        → IfOk result (λ text. text ≡ marked_text (created_text s k) body) }
{
    let token = created_text(alloc, s, k)?;
    marked_text(alloc, message, &token)
}

/// E19: the same of a body that was held. It was read as it came, so that only memory can fail.
pub fn held_text(alloc: Global, body: &Body, s: u64, k: u64) -> Result<Body, Memory>
    ensures { (method : List ℕ) (params : Option Json) → message_of body.now ≡ notification method params
        → IfOk result (λ text. text ≡ marked_text (created_text s k) body.now) }
{
    let bytes = body.bytes();
    if bytes.len() > MOST {
        return Err(Memory);
    }
    match Message::read(alloc, bytes) {
        Ok(message) => told_text(alloc, &message, s, k),
        Err(_) => Err(Memory),
    }
}
