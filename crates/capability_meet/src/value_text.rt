// A text of a value, such that two values say the same just where their texts are equal.
ghost use Rattle.std.specs.Prelude.{◌≡◌, ◌<◌, ◌++◌, [], ℕ, List, length, IfOk, OnOk};
ghost use Rattle.std.specs.FinMap.Entries.{put};
ghost use Rattle.json_text.specs.declared.span.Span.{Span};
ghost use Rattle.json_text.specs.Json.{Items, Json, Members, array, number, object, string};
ghost use Rattle.json_text.specs.String.{SpellsCharacters};
ghost use Rattle.json_nodes.specs.At.{At};
ghost use Rattle.json_nodes.specs.Doc.{Doc};
ghost use Rattle.json_nodes.specs.Values.{doc_of};
ghost use Rattle.capability_meet.specs.NamedValues.{AreBetween, ArePairs, HasText};
ghost use Rattle.capability_meet.specs.ValueText.{Pair, by_name, marked, pairs_text, pairs_with, value_text};

use crate::parts::write;
use json_nodes::Values;
use json_span::decode;
use json_text::Kind;
use message_body::Memory;
use std::alloc::Global;
use std::collections::BTreeMap;

/// The text of a value. It takes n log n comparisons of n names, and memory for the names of the objects that are open.
pub fn value_text(alloc: Global, values: Values, node: u32) -> Result<Vec<u8>, Memory>
    requires { node < length values.nodes.now }
    ensures { (t : Json) → At (doc_of values.entry) node t → IfOk result (λ text. text.items ≡ value_text t) }
{
    let mut text = Vec::new(alloc);
    write_text(&mut text, values, node)?;
    Ok(text)
}

// Writes the text of a value.
#[cycle(text)]
fn write_text(out: &mut Vec<u8>, values: Values, node: u32) -> Result<(), Memory>
    requires { node < length values.nodes.now }
    ensures { (t : Json) → At (doc_of values.entry) node t → OnOk result (out.new.items ≡ out.old.items ++ value_text t) }
{
    match values.kind(node) {
        Kind::Null => write(out, b"n"),
        Kind::False => write(out, b"f"),
        Kind::True => write(out, b"t"),
        Kind::Number => write_number(out, values, node),
        Kind::Text => write_string(out, values, node),
        Kind::Array => write_items(out, values, node),
        Kind::Object => write_object(out, values, node),
    }
}

fn write_number(out: &mut Vec<u8>, values: Values, node: u32) -> Result<(), Memory>
    requires { node < length values.nodes.now }
    ensures { (s : Span) (ds : List ℕ) → At (doc_of values.entry) node (number s ds)
        → OnOk result (out.new.items ≡ out.old.items ++ value_text (number s ds)) }
{
    write(out, b"0")?;
    write_marked(out, values.bytes(node))
}

fn write_string(out: &mut Vec<u8>, values: Values, node: u32) -> Result<(), Memory>
    requires { node < length values.nodes.now }
    ensures { (s : Span) (cs : List ℕ) → At (doc_of values.entry) node (string s cs)
        → OnOk result (out.new.items ≡ out.old.items ++ value_text (string s cs)) }
{
    let characters = decode(*out.allocator(), values.string(node))?;
    write(out, b"\"")?;
    write_marked(out, characters.as_slice())
}

// Writes bytes, a 1 in front of each, and a 0 behind all.
fn write_marked(out: &mut Vec<u8>, bytes: &[u8]) -> Result<(), Memory>
    ensures { OnOk result (out.new.items ≡ out.old.items ++ marked bytes.now) }
{
    for byte in bytes {
        out.push(1)?;
        out.push(*byte)?;
    }
    out.push(0)?;
    Ok(())
}

#[cycle(text)]
fn write_items(out: &mut Vec<u8>, values: Values, node: u32) -> Result<(), Memory>
    requires { node < length values.nodes.now }
    ensures { (s : Span) (js : Items) → At (doc_of values.entry) node (array s js)
        → OnOk result (out.new.items ≡ out.old.items ++ value_text (array s js)) }
{
    write(out, b"[")?;
    let mut next = values.first(node);
    while let Some(item) = next {
        write(out, b"\x01")?;
        write_text(out, values, item)?;
        next = values.next(item);
    }
    write(out, b"\0")
}

#[cycle(text)]
fn write_object(out: &mut Vec<u8>, values: Values, node: u32) -> Result<(), Memory>
    requires { node < length values.nodes.now }
    ensures { (s : Span) (ms : Members) → At (doc_of values.entry) node (object s ms)
        → OnOk result (out.new.items ≡ out.old.items ++ value_text (object s ms)) }
{
    let last = last_members(*out.allocator(), values, node)?;
    write(out, b"{")?;
    write_pairs(out, values, node, &last)
}

// Writes pairs of names and values that are in the value of this number, a 1 in front of each, and a 0 behind all.
#[cycle(text)]
fn write_pairs(
    out: &mut Vec<u8>,
    values: Values,
    node: u32,
    last: &BTreeMap<Vec<u8>, u32>,
) -> Result<(), Memory>
    requires node { node < length values.nodes.now }
    requires inside { AreBetween node (length values.nodes.now) last.now.entries }
    ensures { (ps : List Pair) → ArePairs (doc_of values.entry) last.now.entries ps
        → OnOk result (out.new.items ≡ out.old.items ++ pairs_text ps) }
{
    for (name, member) in last {
        write(out, b"\x01")?;
        write_marked(out, name.as_slice())?;
        write_text(out, values, *member)?;
    }
    write(out, b"\0")
}

// The last members of an object by their names.
fn last_members(alloc: Global, values: Values, node: u32) -> Result<BTreeMap<Vec<u8>, u32>, Memory>
    requires { node < length values.nodes.now }
    ensures inside { IfOk result (λ last. AreBetween node (length values.entry.nodes.now) last.entries) }
    ensures pairs { (s : Span) (ms : Members) → At (doc_of values.entry) node (object s ms)
        → IfOk result (λ last. ArePairs (doc_of values.entry) last.entries (pairs_with [] ms)) }
{
    let mut last = BTreeMap::new(alloc);
    let mut next = values.first(node);
    while let Some(member) = next {
        keep(alloc, &mut last, values.name(member), member)?;
        next = values.next(member);
    }
    Ok(last)
}

// Keeps a member under the name that these bytes spell.
fn keep(
    alloc: Global,
    last: &mut BTreeMap<Vec<u8>, u32>,
    raw: &[u8],
    member: u32,
) -> Result<(), Memory>
    ensures inside { (low high : ℕ) → low < member → member < high → AreBetween low high last.old.entries
        → OnOk result (AreBetween low high last.new.entries) }
    ensures pairs { (doc : Doc) (cs text : List ℕ) (ps : List Pair) → SpellsCharacters cs raw.now → HasText doc member text
        → ArePairs doc last.old.entries ps → OnOk result (ArePairs doc last.new.entries (put by_name cs text ps)) }
{
    let name = decode(alloc, raw)?;
    last.insert(name, member)?;
    Ok(())
}
