//! What an editor's notification says of a document (LSP 3.17, Text Document Synchronization).
ghost use Rattle.std.specs.Prelude.{◌≡◌, ◌||◌, ℕ, List, bytes_eq, true, IfOk, Option, Some};
ghost use Rattle.json_text.specs.declared.span.Span.{Span};
ghost use Rattle.json_text.specs.Json.{Json, string};
ghost use Rattle.json_nodes.specs.At.{Found};
ghost use Rattle.rpc_message.specs.Message.{message_of};
ghost use Rattle.rpc_message.specs.Parsed.{IsRead};
ghost use Rattle.mux_model.specs.Sayings.{changing_by, closing, closing_by, integer_at, opening, opening_by, saying_by, saying_of, speaks, string_at};
ghost use Rattle.mux_members.specs.Finds.{is_ascii};
ghost use Rattle.mux_members.specs.Notices.{AreTexts, IsTextIf, Says, is_of_documents, is_whole, uri_opened};

use crate::envelope::{notification_method, notification_params};
use crate::look::{bytes, is_integer, is_text, member, spells};
use message_body::{Body, Memory};
use rpc_message::Message;
use rpc_message::json_span::Tape;
use std::alloc::Global;

/// What a notification says of a document.
#[derive(Debug, Drop)]
pub enum Notice {
    /// A document is opened: the characters of its URI, its language, the digits of its version, and its text.
    Opens {
        uri: Body,
        language: Body,
        version: Body,
        text: Body,
    },
    /// A document is changed.
    Changes,
    /// The document of this URI is closed.
    Closes(Body),
    /// It says nothing of a document, or lacks a part.
    Nothing,
}

/// The characters of a member, where it is a string, in UTF-8.
pub fn string(
    alloc: Global,
    tape: &Tape,
    node: Option<u32>,
    name: &str,
) -> Result<Option<Body>, Memory>
    ensures said { is_ascii name.now ≡ true → (o : Option Json) → Found tape.now o node → IfOk result (λ text. text ≡ string_at name.now o) }
    ensures utf8 { is_ascii name.now ≡ true → (o : Option Json) → Found tape.now o node → IfOk result (λ text. IsTextIf text) }
{
    let member = member(tape, node, name);
    match tape.within(member) {
        Some(inside) if is_text(tape, member) => {
            let text = tape.text(alloc, inside)?;
            Ok(Some(text))
        }
        _ => Ok(None),
    }
}

// The digits of a member, where it is an integer.
fn integer(
    alloc: Global,
    tape: &Tape,
    node: Option<u32>,
    name: &str,
) -> Result<Option<Body>, Memory>
    ensures { is_ascii name.now ≡ true → (o : Option Json) → Found tape.now o node → IfOk result (λ digits. digits ≡ integer_at name.now o) }
{
    let member = member(tape, node, name);
    if is_integer(tape, member) {
        let digits = Vec::from_slice(alloc, bytes(tape, member))?;
        Ok(Some(Body::new(digits)))
    } else {
        Ok(None)
    }
}

// What the parts of an opening make.
fn opening(
    uri: Option<Body>,
    language: Option<Body>,
    version: Option<Body>,
    text: Option<Body>,
) -> Notice
    ensures said { Says result (opening uri language version text) }
    ensures utf8 { IsTextIf uri → IsTextIf language → IsTextIf text → AreTexts result }
{
    match (uri, language, version, text) {
        (Some(uri), Some(language), Some(version), Some(text)) => Notice::Opens {
            uri,
            language,
            version,
            text,
        },
        _ => Notice::Nothing,
    }
}

// What the part of a closing makes.
fn closing(uri: Option<Body>) -> Notice
    ensures said { Says result (closing uri) }
    ensures utf8 { IsTextIf uri → AreTexts result }
{
    match uri {
        Some(uri) => Notice::Closes(uri),
        None => Notice::Nothing,
    }
}

// A didOpen, by its document (LSP 3.17, TextDocumentItem).
fn opens(alloc: Global, tape: &Tape, document: Option<u32>) -> Result<Notice, Memory>
    ensures said { (o : Option Json) → Found tape.now o document → IfOk result (λ notice. Says notice (opening_by o)) }
    ensures utf8 { (o : Option Json) → Found tape.now o document → IfOk result (λ notice. AreTexts notice) }
{
    let uri = string(alloc, tape, document, "uri")?;
    let language = string(alloc, tape, document, "languageId")?;
    let version = integer(alloc, tape, document, "version")?;
    let text = string(alloc, tape, document, "text")?;
    Ok(opening(uri, language, version, text))
}

// A didChange, by its document and its changes (LSP 3.17, VersionedTextDocumentIdentifier).
fn changes(tape: &Tape, document: Option<u32>, changes: Option<u32>) -> Notice
    ensures said { (o cs : Option Json) → Found tape.now o document → Found tape.now cs changes → Says result (changing_by o cs) }
    ensures utf8 { AreTexts result }
{
    if is_text(tape, member(tape, document, "uri"))
        && is_integer(tape, member(tape, document, "version"))
        && changes.is_some()
    {
        Notice::Changes
    } else {
        Notice::Nothing
    }
}

// A didClose, by its document (LSP 3.17, TextDocumentIdentifier).
fn closes(alloc: Global, tape: &Tape, document: Option<u32>) -> Result<Notice, Memory>
    ensures said { (o : Option Json) → Found tape.now o document → IfOk result (λ notice. Says notice (closing_by o)) }
    ensures utf8 { (o : Option Json) → Found tape.now o document → IfOk result (λ notice. AreTexts notice) }
{
    let uri = string(alloc, tape, document, "uri")?;
    Ok(closing(uri))
}

// Whether a string has the characters of one of two names.
fn spells_either(tape: &Tape, node: Option<u32>, first: &str, second: &str) -> bool
    ensures { is_ascii first.now ≡ true → is_ascii second.now ≡ true → (s : Span) (cs : List ℕ) → Found tape.now (Some (string s cs)) node
        → result ≡ (bytes_eq first.now cs || bytes_eq second.now cs) }
{
    spells(tape, node, first) || spells(tape, node, second)
}

// Whether a method is one of the three by which an editor opens, changes and closes documents.
fn is_of_documents(tape: &Tape, method: Option<u32>) -> bool
    ensures { (s : Span) (cs : List ℕ) → Found tape.now (Some (string s cs)) method → result ≡ is_of_documents cs }
{
    spells(tape, method, "textDocument/didOpen")
        || spells_either(
            tape,
            method,
            "textDocument/didChange",
            "textDocument/didClose",
        )
}

/// Whether it is a notification of one of the three methods by which an editor opens, changes and closes documents.
pub fn speaks(m: &Message) -> bool
    ensures { (bytes : List ℕ) → IsRead m.now bytes → result ≡ speaks (saying_of (message_of bytes)) }
{
    match notification_method(m) {
        Some(method) => is_of_documents(m.tape(), Some(method)),
        None => false,
    }
}

// What a notification of a method says, by its params.
fn said(
    alloc: Global,
    tape: &Tape,
    method: Option<u32>,
    params: Option<u32>,
) -> Result<Notice, Memory>
    ensures said { (s : Span) (cs : List ℕ) (o : Option Json) → Found tape.now (Some (string s cs)) method → Found tape.now o params
        → IfOk result (λ notice. Says notice (saying_by cs o)) }
    ensures utf8 { (o : Option Json) → Found tape.now o params → IfOk result (λ notice. AreTexts notice) }
{
    let document = member(tape, params, "textDocument");
    if spells(tape, method, "textDocument/didOpen") {
        opens(alloc, tape, document)
    } else if spells(tape, method, "textDocument/didChange") {
        Ok(changes(tape, document, member(tape, params, "contentChanges")))
    } else if spells(tape, method, "textDocument/didClose") {
        closes(alloc, tape, document)
    } else {
        Ok(Notice::Nothing)
    }
}

/// What a notification says of a document: that it is opened, changed or closed.
pub fn notice_in(alloc: Global, m: &Message) -> Result<Notice, Memory>
    ensures said { (bytes : List ℕ) → IsRead m.now bytes → IfOk result (λ notice. Says notice (saying_of (message_of bytes))) }
    ensures utf8 { IfOk result (λ notice. AreTexts notice) }
{
    // The body is a text, so the characters of its strings are.
    let _bytes = m.bytes();
    let method = notification_method(m);
    if method.is_none() {
        return Ok(Notice::Nothing);
    }
    said(alloc, m.tape(), method, notification_params(m))
}

// Whether a document that is opened has a language, a version and a text (LSP 3.17, TextDocumentItem).
fn is_whole(tape: &Tape, document: Option<u32>) -> bool
    ensures { (o : Option Json) → Found tape.now o document → result ≡ is_whole o }
{
    is_text(tape, member(tape, document, "languageId"))
        && is_integer(tape, member(tape, document, "version"))
        && is_text(tape, member(tape, document, "text"))
}

// The URI of a document that is opened, where it has all its parts.
fn uri_in(alloc: Global, tape: &Tape, document: Option<u32>) -> Result<Option<Body>, Memory>
    ensures { (o : Option Json) → Found tape.now o document → IfOk result (λ uri. uri ≡ uri_opened (opening_by o)) }
{
    if is_whole(tape, document) {
        string(alloc, tape, document, "uri")
    } else {
        Ok(None)
    }
}

// The same of a notification of a method, by its params.
fn uri_said(
    alloc: Global,
    tape: &Tape,
    method: Option<u32>,
    params: Option<u32>,
) -> Result<Option<Body>, Memory>
    ensures { (s : Span) (cs : List ℕ) (o : Option Json) → Found tape.now (Some (string s cs)) method → Found tape.now o params
        → IfOk result (λ uri. uri ≡ uri_opened (saying_by cs o)) }
{
    if spells(tape, method, "textDocument/didOpen") {
        uri_in(alloc, tape, member(tape, params, "textDocument"))
    } else {
        Ok(None)
    }
}

/// E12: the URI of the document that a notification opens, where it opens one. Its text isn't copied.
pub fn opened_uri(alloc: Global, m: &Message) -> Result<Option<Body>, Memory>
    ensures { (bytes : List ℕ) → IsRead m.now bytes → IfOk result (λ uri. uri ≡ uri_opened (saying_of (message_of bytes))) }
{
    let method = notification_method(m);
    if method.is_none() {
        return Ok(None);
    }
    uri_said(alloc, m.tape(), method, notification_params(m))
}
