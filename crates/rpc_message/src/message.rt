//! A body that is a message of JSON-RPC 2.0, and its parts.
ghost use Rattle.std.specs.Prelude.{◌≡◌, ◌≤◌, ◌<◌, ℕ, List, length, codes, option_map, Some, IfErr, IfOk, MatchOption};
ghost use Rattle.json_text.specs.Changes.{edits_of};
ghost use Rattle.json_text.specs.Replace.{replace, Rise};
ghost use Rattle.json_text.specs.Tree.{tree_of};
ghost use Rattle.json_span.specs.json_nodes.specs.At.{Found};
ghost use Rattle.json_span.specs.json_nodes.specs.Values.{doc_of};
ghost use Rattle.rpc_message.specs.Changed.{changed_text, id_edits};
ghost use Rattle.rpc_message.specs.Envelopes.{Tells};
ghost use Rattle.rpc_message.specs.Message.{Message as Meaning, id_bytes, message_of, place_in, result_bytes};
ghost use Rattle.rpc_message.specs.Parsed.{FoundBare, FoundResultOf, IsRead, error_in, error_of, method_of, params_in, params_of, result_in};
ghost use Rattle.rpc_message.specs.Sorts.{Refuses, sort_of};
ghost use Rattle.rpc_message.specs.Texts.{with_id_text};

use crate::envelope::{Envelope, envelope_in};
use crate::parts::{member_bytes, member_span, with_id_change};
use crate::sort::{Malformed, Sort};
use json_span::json_nodes::Values;
use json_span::{JsonFault, Tape};
use json_text::message_body::{Body, Memory};
use json_text::{Change, Span, splice};
use std::alloc::Global;
use std::marker::Model;

/// A body that is a message, with its values and what they are.
#[derive(Drop)]
pub struct Message<'a> {
    tape: Tape<'a>,
    envelope: Envelope,
    method: Option<Body>,
}

impl<'a> Model for Message<'a> {
    ghost use Rattle.rpc_message.specs.Parsed.{Parsed, IsRead};

    ghost Value = { Parsed };

    ghost view = { λ m. record { doc = m.tape; envelope = m.envelope; method = m.method } };

    ghost invariant = { λ m. IsRead (record { doc = m.tape; envelope = m.envelope; method = m.method }) m.tape.bytes };
}

// The characters of a message's method, in UTF-8, where it has one.
fn decoded_method(alloc: Global, values: Values, envelope: Envelope) -> Result<Option<Body>, Memory>
    requires { (m : Meaning) × Tells (doc_of values) envelope m }
    ensures { (m : Meaning) → Tells (doc_of values.entry) envelope m → IfOk result (λ name. name ≡ method_of m) }
{
    match envelope {
        Envelope::Request { method, .. } | Envelope::Notification { method, .. } => Ok(Some(
            values.text(alloc, method)?,
        )),
        Envelope::Outcome { .. } | Envelope::Failure { .. } => Ok(None),
    }
}

impl<'a> Message<'a> {
    /// Reads a body. It is taken just where it is a message, unless memory runs out.
    pub fn read(alloc: Global, bytes: &'a [u8]) -> Result<Message<'a>, Malformed>
        requires { length bytes.now ≤ 268435456 }
        ensures ok { IfOk result (λ m. IsRead m bytes.now) }
        ensures refused { IfErr result (λ e. Refuses e (message_of bytes.now)) }
    {
        let tape = match Tape::read(alloc, bytes) {
            Ok(tape) => tape,
            Err(JsonFault::Memory) => return Err(Malformed::Memory),
            Err(JsonFault::Syntax(_)) => return Err(Malformed::NotJson),
            Err(JsonFault::TooDeep(_)) => return Err(Malformed::NotJson),
        };
        let envelope = match envelope_in(alloc, tape.values()) {
            Ok(Some(envelope)) => envelope,
            Ok(None) => return Err(Malformed::NotMessage),
            Err(Memory) => return Err(Malformed::Memory),
        };
        match decoded_method(alloc, tape.values(), envelope) {
            Ok(method) => Ok(Message {
                tape,
                envelope,
                method,
            }),
            Err(Memory) => Err(Malformed::Memory),
        }
    }

    /// Its class.
    pub fn sort(&self) -> Sort
        ensures { (bytes : List ℕ) → IsRead self.now bytes → sort_of (message_of bytes) ≡ Some result }
    {
        match self.envelope {
            Envelope::Request { .. } => Sort::Request,
            Envelope::Notification { .. } => Sort::Notification,
            Envelope::Outcome { .. } => Sort::Result,
            Envelope::Failure { .. } => Sort::Error,
        }
    }

    /// Which of its values say what it is.
    pub fn envelope(&self) -> Envelope
        ensures { result ≡ self.now.envelope }
    {
        self.envelope
    }

    /// The body, with its values.
    pub fn tape(&self) -> &Tape<'a>
        ensures { result.now ≡ self.now.doc }
    {
        &self.tape
    }

    /// The body's bytes, as they came.
    pub fn bytes(&self) -> &'a [u8]
        ensures bytes { result.now ≡ self.now.doc.bytes }
        ensures read { IsRead self.now result.now }
    {
        self.tape.bytes()
    }

    /// Where its id stands, with the quotation marks of a string; none just where it has no member `id`.
    pub fn id(&self) -> Option<Span>
        ensures { (bytes : List ℕ) → IsRead self.now bytes → result ≡ place_in (codes "id") (tree_of bytes) }
    {
        member_span(self.tape.values(), "id")
    }

    /// The bytes of its id, as they came; `null` where it has none.
    pub fn id_bytes(&self) -> &[u8]
        ensures { (bytes : List ℕ) → IsRead self.now bytes → result.now ≡ id_bytes bytes }
    {
        member_bytes(self.tape.values(), "id")
    }

    /// The characters of its method, in UTF-8; none where it is a response.
    pub fn method(&self) -> Option<&[u8]>
        ensures { (bytes : List ℕ) → IsRead self.now bytes → option_map (λ b. b.now) result ≡ method_of (message_of bytes) }
    {
        match &self.method {
            Some(method) => Some(method.bytes()),
            None => None,
        }
    }

    /// The number of its params, which is that of its object's member `params`; none where it has none, or they are null.
    pub fn params(&self) -> Option<u32>
        ensures member { (bytes : List ℕ) (read : IsRead self.now bytes) → Found self.now.doc (params_in (message_of bytes) read.tree) result }
        ensures value { (bytes : List ℕ) → IsRead self.now bytes → FoundBare self.now.doc (params_of (message_of bytes)) result }
        ensures inside { MatchOption result (Unit {0}) (λ node. node < length self.now.doc.nodes) }
    {
        match self.envelope {
            Envelope::Request { params, .. } | Envelope::Notification { params, .. } => params,
            Envelope::Outcome { .. } | Envelope::Failure { .. } => None,
        }
    }

    /// The number of its result, which is that of its object's member `result`; none where it has no such member, which reads
    /// as null, and where it is no response with a result. A result that is null has a number.
    pub fn result(&self) -> Option<u32>
        ensures member { (bytes : List ℕ) (read : IsRead self.now bytes) → Found self.now.doc (result_in (message_of bytes) read.tree) result }
        ensures value { (bytes : List ℕ) → IsRead self.now bytes → FoundResultOf self.now.doc (message_of bytes) result }
        ensures inside { MatchOption result (Unit {0}) (λ node. node < length self.now.doc.nodes) }
    {
        match self.envelope {
            Envelope::Outcome { value, .. } => value,
            _ => None,
        }
    }

    /// The bytes of its member `result`, as they came; `null` where it has none.
    pub fn result_bytes(&self) -> &[u8]
        ensures { (bytes : List ℕ) → IsRead self.now bytes → result.now ≡ result_bytes bytes }
    {
        member_bytes(self.tape.values(), "result")
    }

    /// The number of its error, which is that of its object's member `error`; none where it is no response with an error.
    pub fn error(&self) -> Option<u32>
        ensures member { (bytes : List ℕ) (read : IsRead self.now bytes) → Found self.now.doc (error_in (message_of bytes) read.tree) result }
        ensures value { (bytes : List ℕ) → IsRead self.now bytes → FoundBare self.now.doc (error_of (message_of bytes)) result }
        ensures inside { MatchOption result (Unit {0}) (λ node. node < length self.now.doc.nodes) }
    {
        match self.envelope {
            Envelope::Failure { error, .. } => Some(error),
            _ => None,
        }
    }

    /// The body with another id, and all else as it came; unchanged where it has none.
    pub fn with_id(&self, alloc: Global, id: &[u8]) -> Result<Body, Memory>
        ensures { (bytes : List ℕ) → IsRead self.now bytes → IfOk result (λ body. body ≡ with_id_text bytes id.now) }
    {
        self.with_changes(alloc, id, Vec::new(alloc))
    }

    /// The body with each change made, and all else as it came; the places rise and don't overlap.
    pub fn with_cuts(&self, alloc: Global, changes: &[Change]) -> Result<Body, Memory>
        requires { Rise self.now.doc.bytes (edits_of changes.now) }
        ensures { (bytes : List ℕ) → IsRead self.now bytes → IfOk result (λ body. body ≡ replace bytes (edits_of changes.now)) }
    {
        splice(alloc, self.tape.bytes(), changes)
    }

    /// The body with another id and with each change made, and all else as it came; it gets no id where it has none. The places
    /// rise and don't overlap, and the id stands in front of all of them or behind them. Its cost is linear in the body, the
    /// number of changes and the new texts.
    pub fn with_changes(
        &self,
        alloc: Global,
        id: &[u8],
        changes: Vec<Change>,
    ) -> Result<Body, Memory>
        requires { Rise self.now.doc.bytes (id_edits self.now.doc.bytes id.now (edits_of changes.items)) }
        ensures { (bytes : List ℕ) → IsRead self.now bytes → IfOk result (λ body. body ≡ changed_text bytes id.now (edits_of changes.items)) }
    {
        let changes = with_id_change(alloc, self.id(), id, changes)?;
        splice(alloc, self.tape.bytes(), &changes)
    }
}
