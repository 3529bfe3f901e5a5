//! What a didChange says (LSP 3.17, DidChangeTextDocumentParams), and the same with another version.
ghost use Rattle.std.specs.Prelude.{◌≡◌, ◌<◌, length, codes, IfOk, MatchOption, Option, Some, None, if◌then◌else◌};
ghost use Rattle.std.specs.Option.{option_and_then};
ghost use Rattle.json_text.specs.Changes.{edits_of};
ghost use Rattle.json_text.specs.Json.{Json};
ghost use Rattle.json_text.specs.Named.{named_in};
ghost use Rattle.json_text.specs.Replace.{Rise};
ghost use Rattle.json_nodes.specs.At.{At, Found};
ghost use Rattle.document_table.specs.rpc_message.specs.Message.{is_integer};
ghost use Rattle.document_table.specs.doc_text.specs.Changes.{string_text};
ghost use Rattle.document_table.specs.document_model.specs.Notices.{did_change, document_in, edits_in, integer_text, with_version};
ghost use Rattle.focus_switch.specs.Noted.{FoundChange, made};

use document_table::json_span::Tape;
use document_table::rpc_message::is_integer;
use json_nodes::Put;
use json_text::{Change as BodyChange, Kind, splice};
use message_body::{Body, Memory};
use std::alloc::Global;

/// What a didChange says.
#[derive(Debug, Drop)]
pub struct Change {
    /// The characters of the document's URI, in UTF-8.
    pub uri: Body,
    /// The version's bytes.
    pub version: Body,
    /// The node of the list of changes.
    pub changes: u32,
}

// The characters of a value that may be there, where it is a string, in UTF-8.
fn string(alloc: Global, tape: &Tape, node: Option<u32>) -> Result<Option<Body>, Memory>
    requires { MatchOption node (Unit {0}) (λ n. n < length tape.now.nodes) }
    ensures { (o : Option Json) → Found tape.now o node → IfOk result (λ text. text ≡ option_and_then string_text o) }
{
    let Some(node) = node else { return Ok(None) };
    match tape.kind(node) {
        Kind::Text => {
            let text = tape.text(alloc, node)?;
            Ok(Some(text))
        }
        _ => Ok(None),
    }
}

// The bytes of a number, where it is an integer.
fn whole(alloc: Global, number: &[u8]) -> Result<Option<Body>, Memory>
    ensures { IfOk result (λ text. text ≡ (if is_integer number.now then Some number.now else None)) }
{
    if is_integer(number) {
        let bytes = Vec::from_slice(alloc, number)?;
        Ok(Some(Body::new(bytes)))
    } else {
        Ok(None)
    }
}

// The bytes of a value that may be there, where it is an integer.
fn integer(alloc: Global, tape: &Tape, node: Option<u32>) -> Result<Option<Body>, Memory>
    requires { MatchOption node (Unit {0}) (λ n. n < length tape.now.nodes) }
    ensures { (o : Option Json) → Found tape.now o node → IfOk result (λ text. text ≡ option_and_then integer_text o) }
{
    let Some(node) = node else { return Ok(None) };
    match tape.kind(node) {
        Kind::Number => whole(alloc, tape.values().bytes(node)),
        _ => Ok(None),
    }
}

// The params of a message, and the document that they name.
fn document(tape: &Tape) -> (Option<u32>, Option<u32>)
    ensures params { (t : Json) → At tape.now 0 t → Found tape.now (named_in (codes "params") t) result.0 }
    ensures document { (t : Json) → At tape.now 0 t → Found tape.now (document_in t) result.1 }
    ensures params_inside { MatchOption result.0 (Unit {0}) (λ n. n < length tape.now.nodes) }
    ensures document_inside { MatchOption result.1 (Unit {0}) (λ n. n < length tape.now.nodes) }
{
    let params = tape.member(tape.root(), "params");
    (params, tape.maybe_member(params, "textDocument"))
}

/// What a message says as a didChange; nothing where it has not the shape of one.
pub fn did_change(alloc: Global, tape: &Tape) -> Result<Option<Change>, Memory>
    ensures shape { (t : Json) → At tape.now 0 t → IfOk result (λ change. FoundChange tape.now (did_change t) change) }
    ensures inside { IfOk result (λ change. MatchOption change (Unit {0}) (λ c. c.changes < length tape.now.nodes)) }
{
    let (params, document) = document(tape);
    let changes = tape.maybe_member(params, "contentChanges");
    let uri = string(alloc, tape, tape.maybe_member(document, "uri"))?;
    let version = integer(alloc, tape, tape.maybe_member(document, "version"))?;
    Ok(change_of(uri, version, changes))
}

fn change_of(uri: Option<Body>, version: Option<Body>, changes: Option<u32>) -> Option<Change>
    ensures { result ≡ made uri version changes }
{
    match (uri, version, changes) {
        (Some(uri), Some(version), Some(changes)) => Some(Change {
            uri,
            version,
            changes,
        }),
        _ => None,
    }
}

/// The message with another version of its document, and all else as it came.
pub fn with_version(alloc: Global, tape: &Tape, version: u32) -> Result<Body, Memory>
    ensures { (t : Json) → At tape.now 0 t → IfOk result (λ body. body ≡ with_version version tape.now.bytes t) }
{
    let (_, document) = document(tape);
    let mut number = itoa::Buffer::new();
    let text = number.format(version);
    let changes = version_changes(alloc, tape, document, text.as_bytes())?;
    splice(alloc, tape.bytes(), &changes)
}

// The changes that give each version of a document another text.
fn version_changes(
    alloc: Global,
    tape: &Tape,
    document: Option<u32>,
    text: &[u8],
) -> Result<Vec<BodyChange>, Memory>
    requires { MatchOption document (Unit {0}) (λ n. n < length tape.now.nodes) }
    ensures edits { (o : Option Json) → Found tape.now o document → IfOk result (λ changes. edits_of changes.items ≡ edits_in text.now o) }
    ensures rise { IfOk result (λ changes. Rise tape.now.bytes (edits_of changes.items)) }
{
    let name = "version";
    match document {
        Some(node) => tape.puts(alloc, node, &[Put { name, text }]),
        None => Ok(Vec::new(alloc)),
    }
}
