//! The documents of a result whose versions are read (LSP 3.17, WorkspaceEdit and CodeAction), by their nodes.
ghost use Rattle.std.specs.Prelude.{◌≡◌, ◌<◌, ◌++◌, ℕ, List, Option, Some, [], codes, flat_map, if◌then◌else◌, length, IfOk, OnOk, MatchOption};
ghost use Rattle.json_text.specs.Json.{Json};
ghost use Rattle.json_text.specs.Named.{named_in};
ghost use Rattle.json_nodes.specs.At.{At, Found};
ghost use Rattle.document_model.specs.doc_text.specs.Found.{Rest};
ghost use Rattle.rpc_message.specs.Message.{is_integer_value, is_string_value};
ghost use Rattle.event_model.specs.Members.{has_version};
ghost use Rattle.response_route.specs.Edits.{action_documents, change_documents, documents_of, in_front, object_documents, versioned, workspace_documents};
ghost use Rattle.response_route.specs.Reading.{Stand};

use json_text::Kind;
use message_body::Memory;
use rpc_message::{Tape, is_integer};
use std::alloc::Global;

// Whether a value is there and a string.
fn is_string_value(tape: &Tape, node: Option<u32>) -> bool
    ensures { (o : Option Json) → Found tape.now o node → result ≡ is_string_value o }
{
    matches!(tape.maybe_kind(node), Some(Kind::Text))
}

// Whether a value is there and an integer.
fn is_integer_value(tape: &Tape, node: Option<u32>) -> bool
    ensures { (o : Option Json) → Found tape.now o node → result ≡ is_integer_value o }
{
    let Some(node) = tape.within(node) else {
        return false
    };
    match tape.kind(node) {
        Kind::Number => is_integer(tape.values().bytes(node)),
        _ => false,
    }
}

// Whether a document has a version (LSP 3.17, OptionalVersionedTextDocumentIdentifier).
fn has_version(tape: &Tape, document: u32) -> bool
    requires { document < length tape.now.nodes }
    ensures { (t : Json) → At tape.now document t → result ≡ has_version (Some t) }
{
    is_string_value(tape, tape.member(document, "uri"))
        && is_integer_value(tape, tape.member(document, "version"))
}

// Takes in a document, where it has a version.
fn add_document(tape: &Tape, document: u32, documents: &mut Vec<u32>) -> Result<(), Memory>
    requires { document < length tape.now.nodes }
    ensures { (t : Json) (js : List Json) → At tape.now document t → Stand tape.now documents.old.items js
        → OnOk result (Stand tape.now documents.new.items (js ++ versioned (Some t))) }
{
    if has_version(tape, document) {
        documents.push(document)?;
    }
    Ok(())
}

// Takes in that of one of `documentChanges`.
fn add_change(tape: &Tape, change: u32, documents: &mut Vec<u32>) -> Result<(), Memory>
    requires { change < length tape.now.nodes }
    ensures { (t : Json) (js : List Json) → At tape.now change t → Stand tape.now documents.old.items js
        → OnOk result (Stand tape.now documents.new.items (js ++ change_documents t)) }
{
    match tape.member(change, "textDocument") {
        Some(document) => add_document(tape, document, documents),
        None => Ok(()),
    }
}

// Takes in those of a list of document changes, from one on.
fn add_changes(tape: &Tape, first: Option<u32>, documents: &mut Vec<u32>) -> Result<(), Memory>
    requires { MatchOption first (Unit {0}) (λ item. item < length tape.now.nodes) }
    ensures { (ts js : List Json) → Rest tape.now first ts → Stand tape.now documents.old.items js
        → OnOk result (Stand tape.now documents.new.items (js ++ flat_map change_documents ts)) }
{
    let mut next = first;
    while let Some(change) = next {
        add_change(tape, change, documents)?;
        next = tape.next(change);
    }
    Ok(())
}

// Takes in those of a WorkspaceEdit.
fn add_workspace(tape: &Tape, edit: u32, documents: &mut Vec<u32>) -> Result<(), Memory>
    requires { edit < length tape.now.nodes }
    ensures { (t : Json) (js : List Json) → At tape.now edit t → Stand tape.now documents.old.items js
        → OnOk result (Stand tape.now documents.new.items (js ++ workspace_documents (Some t))) }
{
    let Some(list) = tape.member(edit, "documentChanges") else {
        return Ok(())
    };
    match tape.kind(list) {
        Kind::Array => add_changes(tape, tape.first(list), documents),
        _ => Ok(()),
    }
}

// Takes in those of a CodeAction.
fn add_action(tape: &Tape, action: u32, documents: &mut Vec<u32>) -> Result<(), Memory>
    requires { action < length tape.now.nodes }
    ensures { (t : Json) (js : List Json) → At tape.now action t → Stand tape.now documents.old.items js
        → OnOk result (Stand tape.now documents.new.items (js ++ action_documents t)) }
{
    match tape.member(action, "edit") {
        Some(edit) => add_workspace(tape, edit, documents),
        None => Ok(()),
    }
}

// Takes in those of a list of code actions, from one on.
fn add_actions(tape: &Tape, first: Option<u32>, documents: &mut Vec<u32>) -> Result<(), Memory>
    requires { MatchOption first (Unit {0}) (λ item. item < length tape.now.nodes) }
    ensures { (ts js : List Json) → Rest tape.now first ts → Stand tape.now documents.old.items js
        → OnOk result (Stand tape.now documents.new.items (js ++ flat_map action_documents ts)) }
{
    let mut next = first;
    while let Some(action) = next {
        add_action(tape, action, documents)?;
        next = tape.next(action);
    }
    Ok(())
}

// Whether the member `documentChanges` of an object stands in front of its `edit`, or one of them isn't there.
fn in_front(tape: &Tape, node: u32) -> bool
    requires { node < length tape.now.nodes }
    ensures { (t : Json) → At tape.now node t → result ≡ in_front (named_in (codes "documentChanges") t) (named_in (codes "edit") t) }
{
    match (
        tape.member(node, "documentChanges"),
        tape.member(node, "edit"),
    ) {
        (Some(changes), Some(edit)) => tape.span(changes).to <= tape.span(edit).from,
        _ => true,
    }
}

// Takes in those of an object, which is read as a WorkspaceEdit and as a CodeAction.
fn add_object(tape: &Tape, node: u32, documents: &mut Vec<u32>) -> Result<(), Memory>
    requires { node < length tape.now.nodes }
    ensures { (t : Json) (js : List Json) → At tape.now node t → Stand tape.now documents.old.items js
        → OnOk result (Stand tape.now documents.new.items (js ++ object_documents t)) }
{
    if in_front(tape, node) {
        add_workspace(tape, node, documents)?;
        add_action(tape, node, documents)
    } else {
        add_action(tape, node, documents)?;
        add_workspace(tape, node, documents)
    }
}

// Takes in those of a result.
fn add_documents(tape: &Tape, node: u32, documents: &mut Vec<u32>) -> Result<(), Memory>
    requires { node < length tape.now.nodes }
    ensures { (t : Json) (js : List Json) → At tape.now node t → Stand tape.now documents.old.items js
        → OnOk result (Stand tape.now documents.new.items (js ++ documents_of t)) }
{
    match tape.kind(node) {
        Kind::Object => add_object(tape, node, documents),
        Kind::Array => add_actions(tape, tape.first(node), documents),
        _ => Ok(()),
    }
}

/// The nodes of a result's documents that have versions, in the order of their places. The time is linear in the result.
pub fn documents_of(alloc: Global, tape: &Tape, node: u32) -> Result<Vec<u32>, Memory>
    requires { node < length tape.now.nodes }
    ensures { (t : Json) → At tape.now node t → IfOk result (λ documents. Stand tape.now documents.items (documents_of t)) }
{
    let mut documents = Vec::new(alloc);
    add_documents(tape, node, &mut documents)?;
    Ok(documents)
}

/// The nodes of the documents that have versions in the `edit` of an object, in the order of their places. The time is linear in it.
pub fn action_documents(alloc: Global, tape: &Tape, node: u32) -> Result<Vec<u32>, Memory>
    requires { node < length tape.now.nodes }
    ensures { (t : Json) → At tape.now node t → IfOk result (λ documents. Stand tape.now documents.items (action_documents t)) }
{
    let mut documents = Vec::new(alloc);
    add_action(tape, node, &mut documents)?;
    Ok(documents)
}
