// Values written with no white space between tokens.
ghost use Rattle.std.specs.Prelude.{◌≡◌, ◌<◌, ◌++◌, ◌∷◌, [], ℕ, List, length, false, OnOk};
ghost use Rattle.json_text.specs.declared.span.Span.{Span};
ghost use Rattle.json_text.specs.Json.{Items, Json, Members, array, member, object};
ghost use Rattle.json_nodes.specs.At.{At, ChildAt};
ghost use Rattle.json_nodes.specs.Same.{drop_members};
ghost use Rattle.capability_meet.specs.Compact.{compact, compact_items, compact_members, name_text};
ghost use Rattle.capability_meet.specs.Parts.{listed};
ghost use Rattle.json_nodes.specs.Values.{doc_of};

use crate::parts::{name_place, write, write_comma};
use json_nodes::{Values, part};
use json_text::Kind;
use message_body::Memory;

// Writes a value.
#[cycle(compact)]
pub fn write_compact(out: &mut Vec<u8>, values: Values, node: u32) -> Result<(), Memory>
    requires { node < length values.nodes.now }
    ensures { (t : Json) → At (doc_of values.entry) node t → OnOk result (out.new.items ≡ out.old.items ++ compact (doc_of values.entry).bytes t) }
{
    match values.kind(node) {
        Kind::Array => write_array(out, values, node),
        Kind::Object => write_object(out, values, node),
        _ => write(out, values.bytes(node)),
    }
}

#[cycle(compact)]
fn write_array(out: &mut Vec<u8>, values: Values, node: u32) -> Result<(), Memory>
    requires { node < length values.nodes.now }
    ensures { (s : Span) (js : Items) → At (doc_of values.entry) node (array s js)
        → OnOk result (out.new.items ≡ out.old.items ++ compact (doc_of values.entry).bytes (array s js)) }
{
    write(out, b"[")?;
    write_items(out, values, node)?;
    write(out, b"]")
}

#[cycle(compact)]
fn write_items(out: &mut Vec<u8>, values: Values, node: u32) -> Result<(), Memory>
    requires { node < length values.nodes.now }
    ensures { (s : Span) (js : Items) → At (doc_of values.entry) node (array s js)
        → OnOk result (out.new.items ≡ out.old.items ++ listed false (compact_items (doc_of values.entry).bytes js)) }
{
    let mut started = false;
    let mut next = values.first(node);
    while let Some(item) = next {
        write_comma(out, started)?;
        write_compact(out, values, item)?;
        started = true;
        next = values.next(item);
    }
    Ok(())
}

#[cycle(compact)]
fn write_object(out: &mut Vec<u8>, values: Values, node: u32) -> Result<(), Memory>
    requires { node < length values.nodes.now }
    ensures { (s : Span) (ms : Members) → At (doc_of values.entry) node (object s ms)
        → OnOk result (out.new.items ≡ out.old.items ++ compact (doc_of values.entry).bytes (object s ms)) }
{
    write(out, b"{")?;
    write_members(out, values, node)?;
    write(out, b"}")
}

#[cycle(compact)]
fn write_members(out: &mut Vec<u8>, values: Values, node: u32) -> Result<(), Memory>
    requires { node < length values.nodes.now }
    ensures { (s : Span) (ms : Members) → At (doc_of values.entry) node (object s ms)
        → OnOk result (out.new.items ≡ out.old.items ++ listed false (compact_members (doc_of values.entry).bytes ms)) }
{
    let mut started = false;
    let mut next = values.first(node);
    while let Some(pair) = next {
        write_comma(out, started)?;
        write_name(out, values, pair)?;
        write_compact(out, values, pair)?;
        started = true;
        next = values.next(pair);
    }
    Ok(())
}

// Writes the name of a member, with its quotation marks, and a colon.
pub fn write_name(out: &mut Vec<u8>, values: Values, node: u32) -> Result<(), Memory>
    requires { node < length values.nodes.now }
    ensures { (k n : ℕ) (s p : Span) (ms rest : Members) (cs : List ℕ) (u : Json) → ChildAt (doc_of values.entry) k (object s ms) n node u
        → drop_members n ms ≡ member p cs u rest → OnOk result (out.new.items
        ≡ (out.old.items ++ name_text (doc_of values.entry).bytes p cs) ++ 58 ∷ []) }
{
    let place = name_place(values, node);
    write(out, part(values.bytes, place.from, place.to))?;
    write(out, b":")
}
