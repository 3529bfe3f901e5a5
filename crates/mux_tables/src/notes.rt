// The versions of an editor's documents, as they are noted where a request goes on, and read at its answer (V1).
ghost use Rattle.std.specs.Prelude.{◌≡◌, ℕ, List, Some, bytes_eq, if◌then◌else◌, map, IfOk, OnOk, slice_get};
ghost use Rattle.focus_switch.specs.Documents.{Documents};
ghost use Rattle.focus_switch.specs.Versions.{versions_of};
ghost use Rattle.id_rewrite.specs.response_route.specs.Versions.{stamp_of};
ghost use Rattle.mux_tables.specs.Notes.{StampsAt, agreed_in, now_version, stamp_from, stamp_in};

use focus_switch::{Agreement, DocumentVersion, Shared};
use id_rewrite::response_route::{Stamp, Versions};
use message_body::Memory;
use std::alloc::Global;
use text_pieces::PieceText;

// The start's version of a document, where it has the document as the editor does.
fn agreed_in(agreement: Agreement) -> Option<u32>
    ensures { result ≡ agreed_in agreement }
{
    match agreement {
        Agreement::Agrees { held, .. } => Some(held),
        _ => None,
    }
}

// A document's versions, with the start's only where it has the document as the editor does.
fn now_version(documents: &Shared<PieceText>, e: u64, document: DocumentVersion) -> DocumentVersion
    ensures { result ≡ now_version e documents.now document }
{
    let held = agreed_in(documents.agrees(e, document.uri.bytes()));
    DocumentVersion {
        uri: document.uri,
        held,
        version: document.version,
    }
}

// These are the versions of a document from now on.
fn put(alloc: Global, stamps: &mut Versions, document: DocumentVersion) -> Result<(), Memory>
    ensures { OnOk result ((u : List ℕ) → stamp_of u stamps.new ≡ (if bytes_eq u document.uri then Some (stamp_from document) else stamp_of u stamps.old)) }
{
    let held = document.held;
    let version = document.version;
    stamps.put(alloc, document.uri.bytes(), Stamp { held, version })
}

// The versions of these documents, by their URIs; of one URI the first.
fn stamps(alloc: Global, versions: Vec<DocumentVersion>) -> Result<Versions, Memory>
    ensures { IfOk result (λ stamps. (u : List ℕ) → stamp_of u stamps ≡ stamp_in u versions.items) }
{
    let mut left = versions;
    let mut stamps = Versions::new(alloc);
    while let Some(document) = left.pop() {
        put(alloc, &mut stamps, document)?;
    }
    Ok(stamps)
}

// The same, with the start's version of each only where it has the document as the editor does.
fn now_stamps(
    alloc: Global,
    documents: &Shared<PieceText>,
    e: u64,
    versions: Vec<DocumentVersion>,
) -> Result<Versions, Memory>
    ensures { IfOk result (λ stamps. (u : List ℕ) → stamp_of u stamps ≡ stamp_in u (map (now_version e documents.now) versions.items)) }
{
    let mut left = versions;
    let mut stamps = Versions::new(alloc);
    while let Some(document) = left.pop() {
        put(alloc, &mut stamps, now_version(documents, e, document))?;
    }
    Ok(stamps)
}

// The versions that the start of a group has of an editor's documents, and the editor's own.
pub fn noted(
    alloc: Global,
    documents: &[Shared<PieceText>],
    g: usize,
    e: u64,
) -> Result<Versions, Memory>
    ensures { IfOk result (λ stamps. StampsAt stamps (versions_of e) (slice_get documents.now g)) }
{
    let Some(shared) = documents.get(g) else {
        return Ok(Versions::new(alloc))
    };
    let versions = shared.versions_of(alloc, e)?;
    stamps(alloc, versions)
}

// The same, with the start's version only where it has the document as the editor does.
pub fn current(
    alloc: Global,
    documents: &[Shared<PieceText>],
    g: usize,
    e: u64,
) -> Result<Versions, Memory>
    ensures { IfOk result (λ stamps. StampsAt stamps (λ d. map (now_version e d) (versions_of e d)) (slice_get documents.now g)) }
{
    let Some(shared) = documents.get(g) else {
        return Ok(Versions::new(alloc))
    };
    let versions = shared.versions_of(alloc, e)?;
    now_stamps(alloc, shared, e, versions)
}
