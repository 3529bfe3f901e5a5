//! How a last list is shown to an editor.
ghost use Rattle.std.specs.Prelude.{◌≡◌, ◌<◌, ℕ, List, Option, Some, length, option_map, IfOk, MatchOption};
ghost use Rattle.json_text.specs.Changes.{edits_of};
ghost use Rattle.json_text.specs.Json.{Json};
ghost use Rattle.json_text.specs.Replace.{Rise, replace};
ghost use Rattle.json_nodes.specs.At.{At, Found};
ghost use Rattle.json_nodes.specs.Values.{doc_of};
ghost use Rattle.document_model.specs.Notices.{edits_in};
ghost use Rattle.mux_members.specs.rpc_message.specs.Parsed.{IsRead};
ghost use Rattle.diagnostics_route.specs.Shown.{edits_by, plain_edits, shown_text};

use crate::last_list::Version;
use crate::reading::{copy_of, version_in};
use crate::without::{write_part, write_without};
use json_nodes::{Put, Values};
use json_text::{Change, splice};
use message_body::{Body, Memory};
use mux_members::json_span::Tape;
use mux_members::member;
use mux_members::rpc_message::Message;
use std::alloc::Global;

// The changes that give each version of params another text.
fn own_changes(
    alloc: Global,
    tape: &Tape,
    params: Option<u32>,
    text: &[u8],
) -> Result<Vec<Change>, Memory>
    requires { MatchOption params (Unit {0}) (λ node. node < length tape.now.nodes) }
    ensures edits { (o : Option Json) → Found tape.now o params → IfOk result (λ changes. edits_of changes.items ≡ edits_in text.now o) }
    ensures rise { IfOk result (λ changes. Rise tape.now.bytes (edits_of changes.items)) }
{
    let name = "version";
    match params {
        Some(node) => tape.puts(alloc, node, &[Put { name, text }]),
        None => Ok(Vec::new(alloc)),
    }
}

// A text in which each version of params has another text.
fn own_text(alloc: Global, tape: &Tape, params: Option<u32>, text: &[u8]) -> Result<Body, Memory>
    requires { MatchOption params (Unit {0}) (λ node. node < length tape.now.nodes) }
    ensures { (o : Option Json) → Found tape.now o params → IfOk result (λ body. body ≡ replace tape.now.bytes (edits_in text.now o)) }
{
    let changes = own_changes(alloc, tape, params, text)?;
    splice(alloc, tape.bytes(), &changes)
}

// A text whose params, which are this value, are written without a version.
fn plain_at(alloc: Global, values: Values, node: u32) -> Result<Body, Memory>
    requires { node < length values.nodes.now }
    ensures { (t : Json) → At (doc_of values.entry) node t
        → IfOk result (λ body. body ≡ replace (doc_of values.entry).bytes (plain_edits (doc_of values.entry).bytes (Some t))) }
{
    let span = values.span(node);
    let mut out = Vec::new(alloc);
    write_part(&mut out, values.bytes, 0, span.from)?;
    write_without(&mut out, values, node, "version")?;
    write_part(&mut out, values.bytes, span.to, values.bytes.len())?;
    Ok(Body::new(out))
}

// The same of params that may be there.
fn plain_text(alloc: Global, tape: &Tape, params: Option<u32>) -> Result<Body, Memory>
    requires { MatchOption params (Unit {0}) (λ node. node < length tape.now.nodes) }
    ensures { (o : Option Json) → Found tape.now o params → IfOk result (λ body. body ≡ replace tape.now.bytes (plain_edits tape.now.bytes o)) }
{
    match params {
        Some(node) => plain_at(alloc, tape.values(), node),
        None => copy_of(alloc, tape),
    }
}

// A list of a version as it is shown.
fn text_by(
    alloc: Global,
    tape: &Tape,
    params: Option<u32>,
    version: &Version,
    own: Option<&[u8]>,
) -> Result<Body, Memory>
    requires { MatchOption params (Unit {0}) (λ node. node < length tape.now.nodes) }
    ensures { (o : Option Json) → Found tape.now o params
        → IfOk result (λ text. text ≡ replace tape.now.bytes (edits_by (option_map (λ b. b.now) own.entry) version.now tape.now.bytes o)) }
{
    match own {
        Some(text) => match version {
            Version::Integer(_) => own_text(alloc, tape, params, text),
            Version::Absent | Version::Null | Version::Other => copy_of(alloc, tape),
        },
        None => match version {
            Version::Absent => copy_of(alloc, tape),
            Version::Null | Version::Integer(_) | Version::Other => plain_text(alloc, tape, params),
        },
    }
}

/// S15: a list as it is shown to an editor, by the editor's own version of the document, where that is open there. An integer version
/// gives way to the editor's; where the document isn't open there, params are written without a version; all else is as it came. It
/// is one cut for each version, and one pass over the body.
pub fn shown(alloc: Global, message: &Message, own: Option<&[u8]>) -> Result<Body, Memory>
    ensures { (body : List ℕ) → IsRead message.now body → IfOk result (λ text. text ≡ shown_text (option_map (λ b. b.now) own.entry) body) }
{
    let tape = message.tape();
    let params = tape.within(member(tape, Some(tape.root()), "params"));
    let version = version_in(alloc, tape, params)?;
    text_by(alloc, tape, params, &version, own)
}
