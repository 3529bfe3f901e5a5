//! The parts of a body that are passed on as they came: its id and its result; and the change of its id.
ghost use Rattle.std.specs.Prelude.{◌≡◌, ◌<◌, length, IfOk, MatchOption};
ghost use Rattle.std.specs.Str.{chars};
ghost use Rattle.json_text.specs.Changes.{edits_of};
ghost use Rattle.json_text.specs.Json.{Json};
ghost use Rattle.json_text.specs.Named.{named_in};
ghost use Rattle.json_text.specs.Tree.{tree_of};
ghost use Rattle.json_span.specs.json_nodes.specs.At.{Found};
ghost use Rattle.json_span.specs.json_nodes.specs.Doc.{Holds};
ghost use Rattle.json_span.specs.json_nodes.specs.Values.{doc_of};
ghost use Rattle.rpc_message.specs.Changed.{beside, id_edits_at, is_in_front};
ghost use Rattle.rpc_message.specs.Message.{member_bytes, place_in};

use json_span::json_nodes::Values;
use json_text::message_body::{Body, Memory};
use json_text::{Change, Span};
use std::alloc::Global;

// The member of this name, in a body that is an object.
fn root_member(values: Values, name: &str) -> Option<u32>
    ensures member { (j : Json) → Holds (doc_of values.entry) j → Found (doc_of values.entry) (named_in (chars name.now) j) result }
    ensures inside { MatchOption result (Unit {0}) (λ node. node < length values.entry.nodes.now) }
{
    values.maybe_member(Some(0), name)
}

/// Where the last member of this name stands, in a body that is an object; none where it has none.
pub fn member_span(values: Values, name: &str) -> Option<Span>
    ensures { (j : Json) → Holds (doc_of values.entry) j → result ≡ place_in (chars name.now) (tree_of (doc_of values.entry).bytes) }
{
    match root_member(values, name) {
        Some(node) => Some(values.span(node)),
        None => None,
    }
}

/// The bytes of the last member of this name, in a body that is an object; `null` where it has none.
pub fn member_bytes<'a>(values: Values<'a>, name: &str) -> &'a [u8]
    ensures { (j : Json) → Holds (doc_of values.entry) j → result.now ≡ member_bytes (chars name.now) (doc_of values.entry).bytes }
{
    match root_member(values, name) {
        Some(node) => values.bytes(node),
        None => "null".as_bytes(),
    }
}

// These changes and one more, whose place stands in front of all of theirs or behind them.
fn beside(change: Change, changes: Vec<Change>) -> Result<Vec<Change>, Memory>
    ensures { IfOk result (λ all. edits_of all.items ≡ beside (record { span = change.span; text = change.text }) (edits_of changes.items)) }
{
    let mut changes = changes;
    if is_in_front(change.span, &changes) {
        changes.insert(0, change)?;
    } else {
        changes.push(change)?;
    }
    Ok(changes)
}

/// These changes and that of the id, where it has a place.
pub fn with_id_change(
    alloc: Global,
    place: Option<Span>,
    id: &[u8],
    changes: Vec<Change>,
) -> Result<Vec<Change>, Memory>
    ensures { IfOk result (λ all. edits_of all.items ≡ id_edits_at id.now (edits_of changes.items) place) }
{
    let Some(span) = place else {
        return Ok(changes)
    };
    let text = Body::new(Vec::from_slice(alloc, id)?);
    beside(Change { span, text }, changes)
}

// Whether a place ends before that of the first change begins.
fn is_in_front(place: Span, changes: &[Change]) -> bool
    ensures { result ≡ is_in_front place (edits_of changes.now) }
{
    match changes.first() {
        Some(next) => place.to <= next.span.from,
        None => true,
    }
}
