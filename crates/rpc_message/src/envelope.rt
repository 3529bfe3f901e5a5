//! What a body is, by the members of its object (JSON-RPC 2.0, sections 4 and 5; LSP 3.17, Base Protocol).
ghost use Rattle.std.specs.Prelude.{◌≡◌, ◌<◌, length, true, is_some, IfOk, IfSome, MatchOption, Option, None, Some};
ghost use Rattle.json_text.specs.Json.{Json};
ghost use Rattle.json_span.specs.json_nodes.specs.At.{At, Found};
ghost use Rattle.json_span.specs.json_nodes.specs.Values.{doc_of};
ghost use Rattle.rpc_message.specs.Envelopes.{AreMembers, IsMadeOf, TellsIf, by_names, is_enveloped, not_null};
ghost use Rattle.rpc_message.specs.Message.{are_params, answered, id_of, is_error, is_integer, is_integer_value, is_string_value, is_two, message_in, response_id};

use crate::id::is_integer;
use crate::names::names_once;
use json_span::json_nodes::Values;
use json_span::spells_text;
use json_text::Kind;
use json_text::message_body::Memory;
use std::alloc::Global;

/// What a message is: which of its values are its id, its method, its params, its result and its error, by their numbers. Params
/// that are null count as absent.
#[derive(Clone, Copy, Debug)]
pub enum Envelope {
    Request {
        id: u32,
        method: u32,
        params: Option<u32>,
    },
    Notification {
        method: u32,
        params: Option<u32>,
    },
    /// A response with a result.
    Outcome {
        id: u32,
        value: Option<u32>,
    },
    /// A response with an error.
    Failure {
        id: u32,
        error: u32,
    },
}

// Whether a value is an id.
fn is_id(values: Values, node: u32) -> bool
    requires { node < length values.nodes.now }
    ensures { (t : Json) → At (doc_of values.entry) node t → result ≡ is_some (id_of t) }
{
    match values.kind(node) {
        Kind::Number => is_integer(values.bytes(node)),
        Kind::Text => true,
        _ => false,
    }
}

// Whether a value is the id of a response.
fn is_response_id(values: Values, node: u32) -> bool
    requires { node < length values.nodes.now }
    ensures { (t : Json) → At (doc_of values.entry) node t → result ≡ is_some (response_id t) }
{
    match values.kind(node) {
        Kind::Number => is_integer(values.bytes(node)),
        Kind::Text | Kind::Null => true,
        _ => false,
    }
}

// Whether a member is the string "2.0".
fn is_two(values: Values, node: Option<u32>) -> bool
    requires { MatchOption node (Unit {0}) (λ n. n < length values.nodes.now) }
    ensures { (o : Option Json) → Found (doc_of values.entry) o node → result ≡ is_two o }
{
    let Some(node) = node else { return false };
    match values.kind(node) {
        Kind::Text => spells_text(values.string(node), "2.0"),
        _ => false,
    }
}

// Whether a member may be params.
fn are_params(values: Values, node: Option<u32>) -> bool
    requires { MatchOption node (Unit {0}) (λ n. n < length values.nodes.now) }
    ensures { (o : Option Json) → Found (doc_of values.entry) o node → result ≡ are_params o }
{
    matches!(
        values.maybe_kind(node),
        None | Some(Kind::Null | Kind::Array | Kind::Object)
    )
}

// A member that is there and not null.
fn not_null(values: Values, node: Option<u32>) -> Option<u32>
    requires { MatchOption node (Unit {0}) (λ n. n < length values.nodes.now) }
    ensures found { (o : Option Json) → Found (doc_of values.entry) o node → Found (doc_of values.entry) (not_null o) result }
    ensures inside { MatchOption result (Unit {0}) (λ n. n < length values.entry.nodes.now) }
{
    let node = node?;
    match values.kind(node) {
        Kind::Null => None,
        _ => Some(node),
    }
}

// Whether a member is an integer.
fn is_integer_value(values: Values, node: Option<u32>) -> bool
    requires { MatchOption node (Unit {0}) (λ n. n < length values.nodes.now) }
    ensures { (o : Option Json) → Found (doc_of values.entry) o node → result ≡ is_integer_value o }
{
    let Some(node) = node else { return false };
    match values.kind(node) {
        Kind::Number => is_integer(values.bytes(node)),
        _ => false,
    }
}

// Whether a member is a string.
fn is_string_value(values: Values, node: Option<u32>) -> bool
    requires { MatchOption node (Unit {0}) (λ n. n < length values.nodes.now) }
    ensures { (o : Option Json) → Found (doc_of values.entry) o node → result ≡ is_string_value o }
{
    matches!(values.maybe_kind(node), Some(Kind::Text))
}

// Whether a value is an error: an object with an integer `code` and a string `message`.
fn is_error(values: Values, node: u32) -> bool
    requires { node < length values.nodes.now }
    ensures { (t : Json) → At (doc_of values.entry) node t → result ≡ is_error t }
{
    is_integer_value(values, values.member(node, "code"))
        && is_string_value(values, values.member(node, "message"))
}

// Whether a body is an object without doubled names that says `"jsonrpc": "2.0"`.
fn is_enveloped(alloc: Global, values: Values) -> Result<bool, Memory>
    requires { 0 < length values.nodes.now }
    ensures { (j : Json) → At (doc_of values.entry) 0 j → IfOk result (λ answer. answer ≡ is_enveloped j) }
{
    match values.kind(0) {
        Kind::Object => {
            let once = names_once(alloc, values, 0)?;
            Ok(once && is_two(values, values.member(0, "jsonrpc")))
        }
        _ => Ok(false),
    }
}

// A body with a method.
fn called(values: Values, method: u32, id: Option<u32>, params: Option<u32>) -> Option<Envelope>
    requires method { method < length values.nodes.now }
    requires id { MatchOption id (Unit {0}) (λ n. n < length values.nodes.now) }
    requires params { MatchOption params (Unit {0}) (λ n. n < length values.nodes.now) }
    ensures members { (m : Json) (i p f v : Option Json) → At (doc_of values.entry) method m → Found (doc_of values.entry) i id
        → Found (doc_of values.entry) p params → IfSome result (λ e. IsMadeOf (doc_of values.entry) (Some m) i p f v e) }
    ensures tells { (m : Json) (i p f v : Option Json) → At (doc_of values.entry) method m → Found (doc_of values.entry) i id
        → Found (doc_of values.entry) p params → TellsIf (doc_of values.entry) result (by_names (Some m) i p f v) }
{
    if !is_string_value(values, Some(method)) || !are_params(values, params) {
        return None;
    }
    let params = not_null(values, params);
    match id {
        Some(id) if is_id(values, id) => Some(Envelope::Request { id, method, params }),
        Some(_) => None,
        None => Some(Envelope::Notification { method, params }),
    }
}

// A body without a method.
fn answered(
    values: Values,
    id: Option<u32>,
    failure: Option<u32>,
    value: Option<u32>,
) -> Option<Envelope>
    requires id { MatchOption id (Unit {0}) (λ n. n < length values.nodes.now) }
    requires failure { MatchOption failure (Unit {0}) (λ n. n < length values.nodes.now) }
    requires value { MatchOption value (Unit {0}) (λ n. n < length values.nodes.now) }
    ensures members { (i p f v : Option Json) → Found (doc_of values.entry) i id → Found (doc_of values.entry) f failure
        → Found (doc_of values.entry) v value → IfSome result (λ e. IsMadeOf (doc_of values.entry) None i p f v e) }
    ensures tells { (i f v : Option Json) → Found (doc_of values.entry) i id → Found (doc_of values.entry) f failure
        → Found (doc_of values.entry) v value → TellsIf (doc_of values.entry) result (answered i f v) }
{
    let id = id?;
    if !is_response_id(values, id) {
        return None;
    }
    match not_null(values, failure) {
        None => Some(Envelope::Outcome { id, value }),
        Some(error) if is_error(values, error) && not_null(values, value).is_none() => Some(
            Envelope::Failure { id, error },
        ),
        Some(_) => None,
    }
}

// What a body is that is enveloped so.
fn by_members(values: Values) -> Option<Envelope>
    requires { 0 < length values.nodes.now }
    ensures members { (j : Json) → At (doc_of values.entry) 0 j → IfSome result (λ e. AreMembers (doc_of values.entry) j e) }
    ensures tells { (j : Json) → At (doc_of values.entry) 0 j → is_enveloped j ≡ true → TellsIf (doc_of values.entry) result (message_in (Some j)) }
{
    let id = values.member(0, "id");
    match values.member(0, "method") {
        Some(method) => called(values, method, id, values.member(0, "params")),
        None => answered(
            values,
            id,
            values.member(0, "error"),
            values.member(0, "result"),
        ),
    }
}

/// What a body is, by the nodes of its values; none where it is no message.
pub fn envelope_in(alloc: Global, values: Values) -> Result<Option<Envelope>, Memory>
    requires { 0 < length values.nodes.now }
    ensures members { (j : Json) → At (doc_of values.entry) 0 j → IfOk result (λ envelope. IfSome envelope (λ e. AreMembers (doc_of values.entry) j e)) }
    ensures tells { (j : Json) → At (doc_of values.entry) 0 j → IfOk result (λ envelope. TellsIf (doc_of values.entry) envelope (message_in (Some j))) }
{
    if is_enveloped(alloc, values)? {
        Ok(by_members(values))
    } else {
        Ok(None)
    }
}
