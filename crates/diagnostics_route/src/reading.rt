//! What a `textDocument/publishDiagnostics` says.
ghost use Rattle.std.specs.Prelude.{◌≡◌, ◌<◌, ℕ, List, Option, Some, codes, length, IfOk};
ghost use Rattle.json_text.specs.Json.{Json};
ghost use Rattle.json_nodes.specs.At.{At, Found};
ghost use Rattle.mux_members.specs.Finds.{is_array_value};
ghost use Rattle.mux_members.specs.Members.{named_of};
ghost use Rattle.mux_members.specs.rpc_message.specs.Parsed.{IsRead};
ghost use Rattle.diagnostics_route.specs.Published.{digits_version, is_empty, list_of, published, published_in, version_in, version_of};

use crate::last_list::{LastList, Version};
use json_text::Kind;
use message_body::{Body, Memory};
use mux_members::json_span::Tape;
use mux_members::rpc_message::{Message, is_integer};
use mux_members::{first_item, member, string};
use std::alloc::Global;

// A number as a version.
fn digits_version(alloc: Global, digits: &[u8]) -> Result<Version, Memory>
    ensures { IfOk result (λ version. version ≡ digits_version digits.now) }
{
    if is_integer(digits) {
        Ok(Version::Integer(Body::new(Vec::from_slice(alloc, digits)?)))
    } else {
        Ok(Version::Other)
    }
}

// A value as a version.
fn version_at(alloc: Global, tape: &Tape, node: u32) -> Result<Version, Memory>
    requires { node < length tape.now.nodes }
    ensures { (t : Json) → At tape.now node t → IfOk result (λ version. version ≡ version_of (Some t)) }
{
    match tape.kind(node) {
        Kind::Null => Ok(Version::Null),
        Kind::Number => digits_version(alloc, tape.values().bytes(node)),
        Kind::False | Kind::True | Kind::Text | Kind::Array | Kind::Object => Ok(Version::Other),
    }
}

// The same of a value that may be there.
fn version_of(alloc: Global, tape: &Tape, node: Option<u32>) -> Result<Version, Memory>
    ensures { (o : Option Json) → Found tape.now o node → IfOk result (λ version. version ≡ version_of o) }
{
    match tape.within(node) {
        Some(inside) => version_at(alloc, tape, inside),
        None => Ok(Version::Absent),
    }
}

/// What params say of a version.
pub fn version_in(alloc: Global, tape: &Tape, params: Option<u32>) -> Result<Version, Memory>
    ensures { (o : Option Json) → Found tape.now o params → IfOk result (λ version. version ≡ version_in o) }
{
    version_of(alloc, tape, member(tape, params, "version"))
}

// Whether a value is an array.
fn is_array(tape: &Tape, node: Option<u32>) -> bool
    ensures { (o : Option Json) → Found tape.now o node → result ≡ is_array_value o }
{
    matches!(tape.maybe_kind(node), Some(Kind::Array))
}

// Whether params have an array of diagnostics.
fn has_list(tape: &Tape, params: Option<u32>) -> bool
    ensures { (o : Option Json) → Found tape.now o params → result ≡ is_array_value (named_of (codes "diagnostics") o) }
{
    is_array(tape, member(tape, params, "diagnostics"))
}

// Whether it has no items.
fn is_empty(tape: &Tape, params: Option<u32>) -> bool
    ensures { (o : Option Json) → Found tape.now o params → result ≡ is_empty o }
{
    match first_item(tape, member(tape, params, "diagnostics")) {
        Some(_) => false,
        None => true,
    }
}

/// A copy of a text.
pub fn copy_of(alloc: Global, tape: &Tape) -> Result<Body, Memory>
    ensures { IfOk result (λ body. body ≡ tape.now.bytes) }
{
    Ok(Body::new(Vec::from_slice(alloc, tape.bytes())?))
}

// The list of a document.
fn list_of(
    alloc: Global,
    tape: &Tape,
    params: Option<u32>,
    uri: Body,
    place: u128,
) -> Result<LastList, Memory>
    ensures { (o : Option Json) → Found tape.now o params → IfOk result (λ list. list ≡ list_of place tape.now.bytes o uri) }
{
    let body = copy_of(alloc, tape)?;
    let version = version_in(alloc, tape, params)?;
    let empty = is_empty(tape, params);
    Ok(LastList {
        uri,
        body,
        place,
        version,
        empty,
    })
}

// The list that params give.
fn published_in(
    alloc: Global,
    tape: &Tape,
    params: Option<u32>,
    place: u128,
) -> Result<Option<LastList>, Memory>
    ensures { (o : Option Json) → Found tape.now o params → IfOk result (λ list. list ≡ published_in place tape.now.bytes o) }
{
    if !has_list(tape, params) {
        return Ok(None);
    }
    match string(alloc, tape, params, "uri")? {
        Some(uri) => Ok(Some(list_of(alloc, tape, params, uri, place)?)),
        None => Ok(None),
    }
}

/// S15: the list that a notification gives, where it has a string uri and an array of diagnostics; None where it isn't so. `place` is
/// how many notifications on documents the start had been sent when it came. The body is copied once.
pub fn published(alloc: Global, message: &Message, place: u128) -> Result<Option<LastList>, Memory>
    ensures { (body : List ℕ) → IsRead message.now body → IfOk result (λ list. list ≡ published place body) }
{
    let tape = message.tape();
    let params = member(tape, Some(tape.root()), "params");
    published_in(alloc, tape, params, place)
}
