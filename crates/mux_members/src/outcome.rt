//! What the routing table reads in a response with a result.
ghost use Rattle.std.specs.Prelude.{◌≡◌, ℕ, List, codes, Option, Some};
ghost use Rattle.json_text.specs.Json.{Json};
ghost use Rattle.json_nodes.specs.At.{Found};
ghost use Rattle.rpc_message.specs.Message.{Id, message_of, response_id};
ghost use Rattle.rpc_message.specs.Message.{result as outcome_of};
ghost use Rattle.rpc_message.specs.Parsed.{IsRead};
ghost use Rattle.mux_model.specs.Documents.{encoding_in};
ghost use Rattle.mux_model.specs.event_model.specs.Members.{has_version, has_versions, listed, reads_versions};
ghost use Rattle.mux_model.specs.event_model.specs.Stages.{is_first_result};
ghost use Rattle.mux_members.specs.Results.{any_edit_versioned, any_versioned, is_one, value_encoding, value_reads_versions};

use crate::envelope::{outcome_id, outcome_value};
use crate::look::{bytes, first_item, is_array, is_integer, is_text, member, next_value, spells};
use position_codec::Encoding;
use rpc_message::Message;
use rpc_message::json_span::Tape;

// Whether a response's id is the integer 1.
fn is_one(tape: &Tape, node: Option<u32>) -> bool
    ensures { (t : Json) (id : Option Id) → Found tape.now (Some t) node → response_id t ≡ Some id → result ≡ is_one id }
{
    bytes(tape, node) == "1".as_bytes()
}

/// Whether it is a result under the number 1, which the `initialize` of the multiplexer's own has.
pub fn is_first_result(m: &Message) -> bool
    ensures { (bytes : List ℕ) → IsRead m.now bytes → result ≡ is_first_result (message_of bytes) }
{
    match outcome_id(m) {
        Some(id) => is_one(m.tape(), Some(id)),
        None => false,
    }
}

// Whether a text document identifier has a version (LSP 3.17, OptionalVersionedTextDocumentIdentifier).
fn has_version(tape: &Tape, document: Option<u32>) -> bool
    ensures { (o : Option Json) → Found tape.now o document → result ≡ has_version o }
{
    is_text(tape, member(tape, document, "uri"))
        && is_integer(tape, member(tape, document, "version"))
}

// Whether one of a list of document changes has a version (LSP 3.17, TextDocumentEdit).
fn any_versioned(tape: &Tape, changes: Option<u32>) -> bool
    ensures { (o : Option Json) → Found tape.now o changes → result ≡ any_versioned (listed o) }
{
    let mut next = first_item(tape, changes);
    while let Some(change) = next {
        if has_version(tape, member(tape, Some(change), "textDocument")) {
            return true;
        }
        next = next_value(tape, change);
    }
    false
}

// Whether a workspace edit has versions (LSP 3.17, WorkspaceEdit).
fn has_versions(tape: &Tape, edit: Option<u32>) -> bool
    ensures { (o : Option Json) → Found tape.now o edit → result ≡ has_versions o }
{
    any_versioned(tape, member(tape, edit, "documentChanges"))
}

// Whether the `edit` of one of a list of code actions has versions (LSP 3.17, CodeAction).
fn any_edit_versioned(tape: &Tape, actions: Option<u32>) -> bool
    ensures { (o : Option Json) → Found tape.now o actions → result ≡ any_edit_versioned (listed o) }
{
    let mut next = first_item(tape, actions);
    while let Some(action) = next {
        if has_versions(tape, member(tape, Some(action), "edit")) {
            return true;
        }
        next = next_value(tape, action);
    }
    false
}

// Whether versions are read in a value: in itself, in its `edit`, or in the `edit` of one of its items.
fn value_reads_versions(tape: &Tape, value: Option<u32>) -> bool
    ensures { (o : Option Json) → Found tape.now o value → result ≡ value_reads_versions o }
{
    if is_array(tape, value) {
        any_edit_versioned(tape, value)
    } else {
        has_versions(tape, value) || has_versions(tape, member(tape, value, "edit"))
    }
}

/// Whether versions of documents are read in a result: in itself, in its `edit`, or in the `edit` of one of its items
/// (LSP 3.17, WorkspaceEdit and CodeAction).
pub fn reads_versions(m: &Message) -> bool
    ensures { (bytes : List ℕ) (id : Option Id) (value : Json) → IsRead m.now bytes → message_of bytes ≡ outcome_of id value → result ≡ reads_versions value }
{
    value_reads_versions(m.tape(), outcome_value(m))
}

// How positions count, by a result's capabilities.
fn value_encoding(tape: &Tape, value: Option<u32>) -> Encoding
    ensures { (o : Option Json) → Found tape.now o value → result ≡ value_encoding o }
{
    let name = member(
        tape,
        member(tape, value, "capabilities"),
        "positionEncoding",
    );
    if !is_text(tape, name) {
        Encoding::Utf16
    } else if spells(tape, name, "utf-8") {
        Encoding::Utf8
    } else if spells(tape, name, "utf-32") {
        Encoding::Utf32
    } else {
        Encoding::Utf16
    }
}

/// How positions count, as a result of `initialize` says, and else by units of UTF-16 (LSP 3.17, PositionEncodingKind).
pub fn encoding(m: &Message) -> Encoding
    ensures { (bytes : List ℕ) (id : Option Id) (value : Json) → IsRead m.now bytes → message_of bytes ≡ outcome_of id value → result ≡ encoding_in value }
{
    value_encoding(m.tape(), outcome_value(m))
}
