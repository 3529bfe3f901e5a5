//! The changes that put an editor's versions of documents in place of its start's.
ghost use Rattle.std.specs.Prelude.{◌≡◌, ◌<◌, ◌++◌, ℕ, List, Option, Some, None, codes, if◌then◌else◌, length, option_map, IfOk, MatchOption};
ghost use Rattle.std.specs.Option.{option_and_then};
ghost use Rattle.json_text.specs.Changes.{edits_of};
ghost use Rattle.json_text.specs.Json.{Json};
ghost use Rattle.json_text.specs.Named.{named_in};
ghost use Rattle.json_nodes.specs.At.{At, Found};
ghost use Rattle.json_nodes.specs.Puts.{put_edits};
ghost use Rattle.rpc_message.specs.Message.{is_integer};
ghost use Rattle.document_model.specs.doc_text.specs.Changes.{string_text};
ghost use Rattle.document_model.specs.Notices.{integer_text, new_version};
ghost use Rattle.response_route.specs.Edits.{Renaming, all_edits, document_edits, renamed};
ghost use Rattle.response_route.specs.Reading.{Extends, Gives, Stand};
ghost use Rattle.response_route.specs.Versions.{Means};

use crate::fault::EditFault;
use crate::mapping::Mapping;
use json_nodes::Put;
use json_text::{Change, Kind};
use message_body::{Body, Memory};
use rpc_message::{Tape, is_integer};
use std::alloc::Global;

// The characters of a value that may be there, where it is a string, in UTF-8.
fn string(alloc: Global, tape: &Tape, node: Option<u32>) -> Result<Option<Body>, Memory>
    requires { MatchOption node (Unit {0}) (λ n. n < length tape.now.nodes) }
    ensures { (o : Option Json) → Found tape.now o node → IfOk result (λ text. text ≡ option_and_then string_text o) }
{
    let Some(node) = node else { return Ok(None) };
    match tape.kind(node) {
        Kind::Text => {
            let text = tape.text(alloc, node)?;
            Ok(Some(text))
        }
        _ => Ok(None),
    }
}

// A number's text, where it is an integer.
fn whole(number: &[u8]) -> Option<&[u8]>
    ensures { option_map (λ b. b.now) result ≡ (if is_integer number.now then Some number.now else None) }
{
    if is_integer(number) {
        Some(number)
    } else {
        None
    }
}

// The text of a value that may be there, where it is an integer.
fn integer<'a>(tape: &'a Tape, node: Option<u32>) -> Option<&'a [u8]>
    requires { MatchOption node (Unit {0}) (λ n. n < length tape.now.nodes) }
    ensures { (o : Option Json) → Found tape.now o node → option_map (λ b. b.now) result ≡ option_and_then integer_text o }
{
    let node = node?;
    match tape.kind(node) {
        Kind::Number => whole(tape.values().bytes(node)),
        _ => None,
    }
}

// The changes that put this text in place of a document's version; none is a refusal.
fn put_version(
    alloc: Global,
    tape: &Tape,
    document: u32,
    text: Option<&[u8]>,
) -> Result<Vec<Change>, EditFault>
    requires { document < length tape.now.nodes }
    ensures { (t : Json) → At tape.now document t
        → Gives result (option_map (λ text. put_edits (new_version text) t) (option_map (λ b. b.now) text.entry)) }
{
    let Some(text) = text else {
        return Err(EditFault::Modified)
    };
    let name = "version";
    let changes = tape.puts(alloc, document, &[Put { name, text }])?;
    Ok(changes)
}

// The changes of a document of this URI.
fn versioned_changes(
    alloc: Global,
    tape: &Tape,
    document: u32,
    uri: &[u8],
    mapping: Mapping,
) -> Result<Vec<Change>, EditFault>
    requires { document < length tape.now.nodes }
    ensures { (r : Renaming) (t : Json) → Means mapping.entry r → At tape.now document t
        → Gives result (renamed r t (Some uri.now) (option_and_then integer_text (named_in (codes "version") t))) }
{
    match integer(tape, tape.member(document, "version")) {
        Some(digits) => put_version(alloc, tape, document, mapping.text(uri, digits)),
        None => Ok(Vec::new(alloc)),
    }
}

// The changes of one document.
fn document_changes(
    alloc: Global,
    tape: &Tape,
    document: u32,
    mapping: Mapping,
) -> Result<Vec<Change>, EditFault>
    requires { document < length tape.now.nodes }
    ensures { (r : Renaming) (t : Json) → Means mapping.entry r → At tape.now document t → Gives result (document_edits r t) }
{
    let uri = string(alloc, tape, tape.member(document, "uri"))?;
    match uri {
        Some(uri) => versioned_changes(alloc, tape, document, uri.bytes(), mapping),
        None => Ok(Vec::new(alloc)),
    }
}

// Puts the changes of a document behind others.
fn add_changes(
    alloc: Global,
    tape: &Tape,
    document: u32,
    mapping: Mapping,
    changes: &mut Vec<Change>,
) -> Result<(), EditFault>
    ensures { (r : Renaming) (t : Json) → Means mapping.entry r → At tape.now document t
        → Extends result (edits_of changes.old.items) (edits_of changes.new.items) (document_edits r t) }
{
    let Some(document) = tape.within(Some(document)) else {
        return Ok(())
    };
    let mut more = document_changes(alloc, tape, document, mapping)?;
    changes.append(&mut more)?;
    Ok(())
}

/// The changes of a result's documents, which are named by their nodes: each version gives way to the editor's. A version costs its
/// document's bytes, and a look-up that compares URIs as often as the logarithm of what is open.
pub fn changes_of(
    alloc: Global,
    tape: &Tape,
    documents: &[u32],
    mapping: Mapping,
) -> Result<Vec<Change>, EditFault>
    ensures { (r : Renaming) (js : List Json) → Means mapping.entry r → Stand tape.now documents.now js → Gives result (all_edits r js) }
{
    let mut changes = Vec::new(alloc);
    for document in documents {
        add_changes(alloc, tape, *document, mapping, &mut changes)?;
    }
    Ok(changes)
}
