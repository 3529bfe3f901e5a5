//! The notifications on a document that are written (LSP 3.17, Text Document Synchronization).
ghost use Rattle.std.specs.Prelude.{◌≡◌, ◌++◌, ◌<◌, ◌^◌, IfOk, OnOk};
ghost use Rattle.json.specs.Print.{quoted};
ghost use Rattle.document_table.specs.document_model.specs.Bodies.{close_text, full_text, open_text};

use document_table::json_span::quote;
use message_body::{Body, Memory};
use std::alloc::Global;

// Behind what is written, these bytes and a text as a JSON string.
fn add_string(alloc: Global, written: &mut Vec<u8>, before: &str, text: &str) -> Result<(), Memory>
    ensures { OnOk result (written.new.items ≡ written.old.items ++ before.now ++ quoted text.now) }
{
    let string = quote(alloc, text.as_bytes())?;
    written.extend_from_slice(before.as_bytes())?;
    written.extend_from_slice(string.bytes())?;
    Ok(())
}

// The beginning of a notification on a document, up to its URI.
fn begun(alloc: Global, head: &str, uri: &str) -> Result<Vec<u8>, Memory>
    ensures { IfOk result (λ written. written.items ≡ head.now ++ quoted uri.now) }
{
    let mut written = Vec::new(alloc);
    add_string(alloc, &mut written, head, uri)?;
    Ok(written)
}

/// didOpen, with version 1.
pub fn open_text(alloc: Global, uri: &str, language: &str, text: &str) -> Result<Body, Memory>
    ensures { IfOk result (λ body. body ≡ open_text uri.now language.now text.now) }
{
    let mut written = begun(
        alloc,
        "{\"jsonrpc\":\"2.0\",\"method\":\"textDocument/didOpen\",\"params\":{\"textDocument\":{\"uri\":",
        uri,
    )?;
    add_string(alloc, &mut written, ",\"languageId\":", language)?;
    add_string(alloc, &mut written, ",\"version\":1,\"text\":", text)?;
    written.extend_from_slice("}}}".as_bytes())?;
    Ok(Body::new(written))
}

/// didChange, with the whole text.
pub fn full_text(alloc: Global, uri: &str, version: u32, text: &str) -> Result<Body, Memory>
    ensures { IfOk result (λ body. body ≡ full_text uri.now version text.now) }
{
    let mut written = begun(
        alloc,
        "{\"jsonrpc\":\"2.0\",\"method\":\"textDocument/didChange\",\"params\":{\"textDocument\":{\"uri\":",
        uri,
    )?;
    written.extend_from_slice(",\"version\":".as_bytes())?;
    written.extend_from_slice(itoa::Buffer::new().format(version).as_bytes())?;
    add_string(
        alloc,
        &mut written,
        "},\"contentChanges\":[{\"text\":",
        text,
    )?;
    written.extend_from_slice("}]}}".as_bytes())?;
    Ok(Body::new(written))
}

/// didClose.
pub fn close_text(alloc: Global, uri: &str) -> Result<Body, Memory>
    ensures { IfOk result (λ body. body ≡ close_text uri.now) }
{
    let mut written = begun(
        alloc,
        "{\"jsonrpc\":\"2.0\",\"method\":\"textDocument/didClose\",\"params\":{\"textDocument\":{\"uri\":",
        uri,
    )?;
    written.extend_from_slice("}}}".as_bytes())?;
    Ok(Body::new(written))
}
