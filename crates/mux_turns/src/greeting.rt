//! The `initialize` that the daemon sends to the starts of a group, and what editors are shown of its result (LSP 3.17, Initialize Request).
ghost use Rattle.std.specs.Prelude.{◌≡◌, ◌++◌, IfOk, IsUtf8, OnOk, Option, option_map};
ghost use Rattle.capability_meet.specs.Parts.{comma};
ghost use Rattle.group_words.specs.Rows.{folder_text, folders_text, initialize_of, is_true, root_of, shown_of, wants_folders};
ghost use Rattle.json.specs.Print.{quoted};
ghost use Rattle.json_nodes.specs.Nodes.{kind_of};
ghost use Rattle.json_text.specs.Json.{Json};
ghost use Rattle.group_facts.specs.Settled.{AreUtf8};

use capability_meet::{CapFault, shown};
use group_words::Kept;
use json_span::{JsonFault, Tape, quote};
use json_text::Kind;
use message_body::{Body, Memory};
use rpc_message::initialize;
use std::alloc::Global;

/// A text, which is UTF-8, as a JSON string.
pub fn quoted(alloc: Global, text: &[u8]) -> Result<Body, Memory>
    ensures { IsUtf8 text.now → IfOk result (λ body. body ≡ quoted text.now) }
{
    match std::str::from_utf8(text) {
        Ok(_) => quote(alloc, text),
        Err(_) => Ok(Body::new(Vec::new(alloc))),
    }
}

// The root: the first folder's uri, or null.
fn root_of(alloc: Global, folders: &[(Body, Body)]) -> Result<Body, Memory>
    ensures { AreUtf8 folders.now → IfOk result (λ body. body ≡ root_of folders.now) }
{
    match folders {
        [] => Ok(Body::new(Vec::from_slice(alloc, "null".as_bytes())?)),
        [folder, ..] => quoted(alloc, folder.0.bytes()),
    }
}

/// A comma, where something stands in front.
pub fn add_comma(text: &mut Vec<u8>, started: bool) -> Result<(), Memory>
    ensures { OnOk result (text.new.items ≡ text.old.items ++ comma started) }
{
    if started {
        text.push(b',')?;
    }
    Ok(())
}

// A folder (LSP 3.17, WorkspaceFolder).
fn add_folder(alloc: Global, text: &mut Vec<u8>, folder: &(Body, Body)) -> Result<(), Memory>
    ensures { IsUtf8 folder.now.0 → IsUtf8 folder.now.1 → OnOk result (text.new.items ≡ text.old.items ++ folder_text folder.now) }
{
    let uri = quoted(alloc, folder.0.bytes())?;
    let name = quoted(alloc, folder.1.bytes())?;
    text.extend_from_slice("{\"uri\":".as_bytes())?;
    text.extend_from_slice(uri.bytes())?;
    text.extend_from_slice(",\"name\":".as_bytes())?;
    text.extend_from_slice(name.bytes())?;
    text.extend_from_slice("}".as_bytes())?;
    Ok(())
}

/// The list of folders (LSP 3.17, WorkspaceFolder), or null where there is none.
pub fn folders_text(alloc: Global, folders: &[(Body, Body)]) -> Result<Vec<u8>, Memory>
    ensures { AreUtf8 folders.now → IfOk result (λ text. text.items ≡ folders_text folders.now) }
{
    let mut text = Vec::new(alloc);
    if folders.is_empty() {
        text.extend_from_slice("null".as_bytes())?;
        return Ok(text);
    }
    text.push(b'[')?;
    let mut started = false;
    for folder in folders {
        add_comma(&mut text, started)?;
        add_folder(alloc, &mut text, folder)?;
        started = true;
    }
    text.push(b']')?;
    Ok(text)
}

// Whether a value of this kind is the word `true`.
fn is_true(kind: Option<Kind>) -> bool
    ensures { (o : Option Json) → kind ≡ option_map kind_of o → result ≡ is_true o }
{
    matches!(kind, Some(Kind::True))
}

// Whether folders are declared (LSP 3.17, WorkspaceClientCapabilities).
fn wants_folders(alloc: Global, declared: &[u8]) -> Result<bool, Memory>
    ensures { IfOk result (λ wants. wants ≡ wants_folders declared.now) }
{
    if declared.len() > 268_435_456 {
        return Err(Memory);
    }
    let tape = match Tape::read(alloc, declared) {
        Ok(tape) => tape,
        Err(JsonFault::Memory) => return Err(Memory),
        Err(JsonFault::Syntax(_)) => return Ok(false),
        Err(JsonFault::TooDeep(_)) => return Ok(false),
    };
    let workspace = tape.maybe_member(Some(tape.root()), "workspace");
    let folders = tape.maybe_member(workspace, "workspaceFolders");
    Ok(is_true(tape.maybe_kind(folders)))
}

/// The bytes of a body that may be there.
pub fn bytes_of(body: &Option<Body>) -> Option<&[u8]>
    ensures { option_map (λ b. b.now) result ≡ body.now }
{
    match body {
        Some(body) => Some(body.bytes()),
        None => None,
    }
}

/// The `initialize` to the starts of a group: with its key's root, options and folders, and with what is declared.
pub fn opening(alloc: Global, kept: &Kept) -> Result<Body, Memory>
    ensures { AreUtf8 kept.now.key.folders → IfOk result (λ body. body ≡ initialize_of kept.now) }
{
    let root = root_of(alloc, &kept.key.folders)?;
    let options = bytes_of(&kept.key.options);
    let declared = kept.declared.bytes();
    if !wants_folders(alloc, declared)? {
        return initialize(alloc, root.bytes(), options, declared, None);
    }
    let folders = folders_text(alloc, &kept.key.folders)?;
    initialize(
        alloc,
        root.bytes(),
        options,
        declared,
        Some(folders.as_slice()),
    )
}

/// What editors are shown of the bytes of a start's result; nothing where they are no JSON text. Bytes longer than 268,435,456 are
/// answered as out of memory.
pub fn shown_of(alloc: Global, answer: &[u8]) -> Result<Body, Memory>
    ensures { IfOk result (λ body. body ≡ shown_of answer.now) }
{
    if answer.len() > 268_435_456 {
        return Err(Memory);
    }
    match shown(alloc, answer) {
        Ok(body) => Ok(body),
        Err(CapFault::NotJson) => Ok(Body::new(Vec::new(alloc))),
        Err(CapFault::Memory) => Err(Memory),
    }
}
