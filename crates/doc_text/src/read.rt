//! The changes that a message lists, read from its tape.
ghost use Rattle.std.specs.Prelude.{◌≡◌, ◌<◌, ℕ, List, length, MatchOption};
ghost use Rattle.std.specs.Str.{chars};
ghost use Rattle.json_text.specs.Json.{Json};
ghost use Rattle.json_text.specs.Named.{named_in};
ghost use Rattle.json_span.specs.json_nodes.specs.At.{At};
ghost use Rattle.doc_text.specs.Changes.{coordinate, position_of, position_in, range_of, extent_of, string_text, text_of, change_of, changes_of, all_changes};
ghost use Rattle.doc_text.specs.Found.{Gives, Rest};

use crate::change::{ContentChange, Extent, Position, Range};
use crate::doc_text::DocText;
use crate::fault::ChangeFault;
use crate::number::unsigned;
use json_span::{Tape, decode};
use json_text::Kind;
use std::alloc::Global;

// The member of a position: a number of lines or of units.
fn coordinate(tape: &Tape, position: u32, name: &str) -> Option<u32>
    requires { position < length tape.now.nodes }
    ensures { (t : Json) → At tape.now position t → result ≡ coordinate (named_in (chars name.now) t) }
{
    let node = tape.member(position, name)?;
    match tape.kind(node) {
        Kind::Number => unsigned(tape.values().bytes(node)),
        _ => None,
    }
}

fn position(tape: &Tape, node: u32) -> Option<Position>
    requires { node < length tape.now.nodes }
    ensures { (t : Json) → At tape.now node t → result ≡ position_of t }
{
    let line = coordinate(tape, node, "line")?;
    let character = coordinate(tape, node, "character")?;
    Some(Position { line, character })
}

// An end of a range.
fn end_of_range(tape: &Tape, range: u32, name: &str) -> Option<Position>
    requires { range < length tape.now.nodes }
    ensures { (t : Json) → At tape.now range t → result ≡ position_in (named_in (chars name.now) t) }
{
    let node = tape.member(range, name)?;
    position(tape, node)
}

fn range(tape: &Tape, node: u32) -> Option<Range>
    requires { node < length tape.now.nodes }
    ensures { (t : Json) → At tape.now node t → result ≡ range_of t }
{
    let start = end_of_range(tape, node, "start")?;
    let end = end_of_range(tape, node, "end")?;
    Some(Range { start, end })
}

// What a change replaces, where it has no `range` or one of the right shape.
fn extent(tape: &Tape, change: u32) -> Option<Extent>
    requires { change < length tape.now.nodes }
    ensures { (t : Json) → At tape.now change t → result ≡ extent_of t }
{
    match tape.member(change, "range") {
        None => Some(Extent::Whole),
        Some(node) => {
            let part = range(tape, node)?;
            Some(Extent::Part(part))
        }
    }
}

// The text of a string's node.
fn string_text(alloc: Global, tape: &Tape, node: u32) -> Result<DocText, ChangeFault>
    requires { node < length tape.now.nodes }
    ensures { (t : Json) → At tape.now node t → Gives (λ text. text) result (string_text t) }
{
    match tape.kind(node) {
        Kind::Text => {
            let decoded = decode(alloc, tape.values().string(node))?;
            DocText::from_utf8(decoded)
        }
        _ => Err(ChangeFault::BadShape),
    }
}

// The text of a change.
fn text(alloc: Global, tape: &Tape, change: u32) -> Result<DocText, ChangeFault>
    requires { change < length tape.now.nodes }
    ensures { (t : Json) → At tape.now change t → Gives (λ text. text) result (text_of t) }
{
    match tape.member(change, "text") {
        None => Err(ChangeFault::BadShape),
        Some(node) => string_text(alloc, tape, node),
    }
}

fn change(alloc: Global, tape: &Tape, item: u32) -> Result<ContentChange, ChangeFault>
    requires { item < length tape.now.nodes }
    ensures { (t : Json) → At tape.now item t → Gives (λ change. change) result (change_of t) }
{
    let Some(extent) = extent(tape, item) else {
        return Err(ChangeFault::BadShape)
    };
    let text = text(alloc, tape, item)?;
    Ok(ContentChange { extent, text })
}

// The changes from an item on.
fn items(alloc: Global, tape: &Tape, first: Option<u32>) -> Result<Vec<ContentChange>, ChangeFault>
    requires { MatchOption first (Unit {0}) (λ item. item < length tape.now.nodes) }
    ensures { (js : List Json) → Rest tape.now first js → Gives (λ changes. changes.items) result (all_changes js) }
{
    let mut changes = Vec::new(alloc);
    let mut next = first;
    while let Some(item) = next {
        let read = change(alloc, tape, item)?;
        changes.push(read)?;
        next = tape.next(item);
    }
    Ok(changes)
}

/// The changes that a node lists: an array of objects, each with a string `text`, and with a range of two positions or none.
pub fn changes(alloc: Global, tape: &Tape, node: u32) -> Result<Vec<ContentChange>, ChangeFault>
    requires { node < length tape.now.nodes }
    ensures { (t : Json) → At tape.now node t → Gives (λ changes. changes.items) result (changes_of t) }
{
    match tape.kind(node) {
        Kind::Array => items(alloc, tape, tape.first(node)),
        _ => Err(ChangeFault::BadShape),
    }
}
