//! The folders that an `initialize` names (LSP 3.17, InitializeParams and WorkspaceFolder).
ghost use Rattle.std.specs.Prelude.{◌≡◌, ◌++◌, ℕ, List, Option, codes, encode_utf8_all, map, IfOk, IsUtf8, OnOk, option_map};
ghost use Rattle.mux_members.specs.Notices.{IsTextIf};
ghost use Rattle.event_model.specs.Members.{listed, named_of, string_of};
ghost use Rattle.group_keys.specs.Uris.{AreTexts};
ghost use Rattle.group_words.specs.Houses.{folder_of, folders_in, folders_of, given_or, normal_of, normalised, without_slash};
ghost use Rattle.json_nodes.specs.At.{Found};
ghost use Rattle.json_text.specs.Json.{Json};

use json_span::Tape;
use message_body::{Body, Memory};
use mux_members::{first_item, member, next_value, string};
use std::alloc::Global;
use url::{ParseError, Url};

// A folder's name: its uri, where it has none.
fn named(alloc: Global, uri: &Body, name: Option<Body>) -> Result<Body, Memory>
    ensures { IfOk result (λ body. body ≡ given_or name uri.now) }
{
    match name {
        Some(name) => Ok(name),
        None => Ok(Body::new(Vec::from_slice(alloc, uri.bytes())?)),
    }
}

// One folder more, where it has a uri.
fn add(
    alloc: Global,
    folders: &mut Vec<(Body, Body)>,
    uri: Option<Body>,
    name: Option<Body>,
) -> Result<(), Memory>
    ensures adds { (u n : Option (List ℕ)) → uri ≡ option_map encode_utf8_all u → name ≡ option_map encode_utf8_all n
        → OnOk result (folders.new.items ≡ folders.old.items ++ folder_of u n) }
    ensures texts { AreTexts folders.old.items → IsTextIf uri → OnOk result (AreTexts folders.new.items) }
{
    match uri {
        None => Ok(()),
        Some(uri) => {
            let name = named(alloc, &uri, name)?;
            folders.push((uri, name))?;
            Ok(())
        }
    }
}

// The folder that a value says, where it says one.
fn add_folder(
    alloc: Global,
    tape: &Tape,
    folders: &mut Vec<(Body, Body)>,
    node: Option<u32>,
) -> Result<(), Memory>
    ensures adds { (o : Option Json) → Found tape.now o node
        → OnOk result (folders.new.items ≡ folders.old.items ++ folder_of (string_of (named_of (codes "uri") o)) (string_of (named_of (codes "name") o))) }
    ensures texts { (o : Option Json) → Found tape.now o node → AreTexts folders.old.items → OnOk result (AreTexts folders.new.items) }
{
    let uri = string(alloc, tape, node, "uri")?;
    let name = string(alloc, tape, node, "name")?;
    add(alloc, folders, uri, name)?;
    Ok(())
}

// The folders of a list.
fn folders_in(alloc: Global, tape: &Tape, list: Option<u32>) -> Result<Vec<(Body, Body)>, Memory>
    ensures items { (o : Option Json) → Found tape.now o list → IfOk result (λ folders. folders.items ≡ folders_in (listed o)) }
    ensures texts { (o : Option Json) → Found tape.now o list → IfOk result (λ folders. AreTexts folders.items) }
{
    let mut folders = Vec::new(alloc);
    let mut next = first_item(tape, list);
    while let Some(folder) = next {
        add_folder(alloc, tape, &mut folders, Some(folder))?;
        next = next_value(tape, folder);
    }
    Ok(folders)
}

/// The folders that params name, each with its uri and its name: those of `workspaceFolders`, else `rootUri`.
pub fn folders_of(
    alloc: Global,
    tape: &Tape,
    params: Option<u32>,
) -> Result<Vec<(Body, Body)>, Memory>
    ensures folders { (o : Option Json) → Found tape.now o params → IfOk result (λ folders. folders.items ≡ folders_of o) }
    ensures texts { (o : Option Json) → Found tape.now o params → IfOk result (λ folders. AreTexts folders.items) }
{
    let mut folders = folders_in(alloc, tape, member(tape, params, "workspaceFolders"))?;
    if folders.is_empty() {
        let root = string(alloc, tape, params, "rootUri")?;
        add(alloc, &mut folders, root, None)?;
    }
    Ok(folders)
}

// A uri without its trailing slash.
fn without_slash(uri: &[u8]) -> &[u8]
    ensures { result.now ≡ without_slash uri.now }
{
    let count = uri.len();
    if count > 0 && uri[count - 1] == b'/' {
        &uri[..count - 1]
    } else {
        uri
    }
}

// The normal form of a URI: of a text of at most 65,536 bytes that is a URL, the URL as it is written (URL Standard, sections 4.4 and
// 4.5); else the text.
fn normalised(alloc: Global, text: &str) -> Result<Vec<u8>, Memory>
    ensures { IfOk result (λ form. form.items ≡ normalised text.now) }
{
    if text.len() > 65_536 {
        return Ok(Vec::from_slice(alloc, text.as_bytes())?);
    }
    match Url::parse(alloc, text) {
        Ok(url) => Ok(Vec::from_slice(alloc, url.as_str().as_bytes())?),
        Err(ParseError::OutOfMemory | ParseError::Overflow) => Err(Memory),
        Err(_) => Ok(Vec::from_slice(alloc, text.as_bytes())?),
    }
}

// The normal form of a folder. Bytes that are no text stay as they are but for the slash.
fn normal_form(alloc: Global, uri: &[u8]) -> Result<Body, Memory>
    ensures { IsUtf8 uri.now → IfOk result (λ form. form ≡ without_slash (normalised uri.now)) }
{
    let form = match std::str::from_utf8(uri) {
        Ok(text) => normalised(alloc, text)?,
        Err(_) => Vec::from_slice(alloc, uri)?,
    };
    Ok(Body::new(Vec::from_slice(alloc, without_slash(&form))?))
}

/// The normal forms of folders, in time that is linear in their URIs.
pub fn normal_forms(alloc: Global, folders: &[(Body, Body)]) -> Result<Vec<Body>, Memory>
    ensures { AreTexts folders.now → IfOk result (λ forms. forms.items ≡ map normal_of folders.now) }
{
    let mut forms = Vec::new(alloc);
    for folder in folders {
        forms.push(normal_form(alloc, folder.0.bytes())?)?;
    }
    Ok(forms)
}
