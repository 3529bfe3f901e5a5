//! A value without the members of a name, written behind other bytes.
ghost use Rattle.std.specs.Prelude.{◌≡◌, ◌<◌, ◌++◌, ℕ, List, length, false, None, Some, IfOk, OnOk};
ghost use Rattle.std.specs.List.{slice_get};
ghost use Rattle.std.specs.Str.{chars};
ghost use Rattle.json_text.specs.declared.span.Span.{Span};
ghost use Rattle.json_text.specs.Json.{Json, Members, member, object};
ghost use Rattle.json_nodes.specs.At.{At, ChildAt};
ghost use Rattle.json_nodes.specs.Same.{drop_members};
ghost use Rattle.json_nodes.specs.Texts.{between, member_names};
ghost use Rattle.json_nodes.specs.Values.{doc_of};
ghost use Rattle.capability_meet.specs.Parts.{comma, listed};
ghost use Rattle.capability_meet.specs.Shown.{other_pairs, without};

use json_nodes::json_token::spells_text;
use json_nodes::{Values, part};
use json_text::Span;
use message_body::Memory;

// Where the name of a member stands, with its quotation marks; the member is that of this value.
fn name_place(values: Values, node: u32) -> Span
    requires { node < length values.nodes.now }
    ensures { (k n : ℕ) (s p : Span) (ms rest : Members) (cs : List ℕ) (u : Json) → ChildAt (doc_of values.entry) k (object s ms) n node u
        → drop_members n ms ≡ member p cs u rest → result ≡ p }
{
    let name = values.nodes[node as usize].name;
    Span {
        from: name.from as usize,
        to: name.to as usize,
    }
}

// Writes bytes behind what was written.
fn write(out: &mut Vec<u8>, bytes: &[u8]) -> Result<(), Memory>
    ensures { OnOk result (out.new.items ≡ out.old.items ++ bytes.now) }
{
    out.extend_from_slice(bytes)?;
    Ok(())
}

/// Writes the bytes from one place to another.
pub fn write_part(out: &mut Vec<u8>, bytes: &[u8], from: usize, to: usize) -> Result<(), Memory>
    ensures { OnOk result (out.new.items ≡ out.old.items ++ between from to bytes.now) }
{
    write(out, part(bytes, from, to))
}

// Writes a comma, where something stands in front.
fn write_comma(out: &mut Vec<u8>, started: bool) -> Result<(), Memory>
    ensures { OnOk result (out.new.items ≡ out.old.items ++ comma started) }
{
    if started { write(out, b",") } else { Ok(()) }
}

// Writes one pair if it has another name; the answer says whether one is written by now.
fn write_other_pair(
    out: &mut Vec<u8>,
    started: bool,
    values: Values,
    node: u32,
    name: &str,
) -> Result<bool, Memory>
    requires { node < length values.nodes.now }
    ensures { (k n : ℕ) (s p : Span) (ms rest : Members) (cs : List ℕ) (u : Json) → ChildAt (doc_of values.entry) k (object s ms) n node u
        → slice_get (member_names ms) n ≡ Some cs → drop_members n ms ≡ member p cs u rest
        → IfOk result (λ now. out.new.items ++ listed now (other_pairs (doc_of values.entry).bytes (chars name.now) None rest)
        ≡ out.old.items ++ listed started (other_pairs (doc_of values.entry).bytes (chars name.now) None (member p cs u rest))) }
{
    if spells_text(values.name(node), name) {
        return Ok(started);
    }
    let from = name_place(values, node).from;
    let to = values.span(node).to;
    write_comma(out, started)?;
    write_part(out, values.bytes, from, to)?;
    Ok(true)
}

// Writes the pairs of an object that have other names.
fn write_other_pairs(out: &mut Vec<u8>, values: Values, node: u32, name: &str) -> Result<(), Memory>
    requires { node < length values.nodes.now }
    ensures { (s : Span) (ms : Members) → At (doc_of values.entry) node (object s ms)
        → OnOk result (out.new.items ≡ out.old.items ++ listed false (other_pairs (doc_of values.entry).bytes (chars name.now) None ms)) }
{
    let mut started = false;
    let mut next = values.first(node);
    while let Some(pair) = next {
        started = write_other_pair(out, started, values, pair, name)?;
        next = values.next(pair);
    }
    Ok(())
}

/// Writes a value without the members of this name: an object that has one as the bytes of its other pairs, joined with commas, in
/// braces; all else as it came.
pub fn write_without(out: &mut Vec<u8>, values: Values, node: u32, name: &str) -> Result<(), Memory>
    requires { node < length values.nodes.now }
    ensures { (t : Json) → At (doc_of values.entry) node t
        → OnOk result (out.new.items ≡ out.old.items ++ without (doc_of values.entry).bytes (chars name.now) None t) }
{
    if values.member(node, name).is_some() {
        write(out, b"{")?;
        write_other_pairs(out, values, node, name)?;
        write(out, b"}")
    } else {
        let span = values.span(node);
        write_part(out, values.bytes, span.from, span.to)
    }
}
