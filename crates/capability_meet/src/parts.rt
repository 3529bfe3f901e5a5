// Parts of a text, and how they are written.
ghost use Rattle.std.specs.Prelude.{◌≡◌, ◌<◌, ◌++◌, ℕ, List, length, OnOk, Some};
ghost use Rattle.json_text.specs.declared.span.Span.{Span};
ghost use Rattle.json_text.specs.Json.{Json, Members, member, object};
ghost use Rattle.json_nodes.specs.At.{ChildAt};
ghost use Rattle.json_nodes.specs.Same.{drop_members};
ghost use Rattle.capability_meet.specs.Parts.{comma, window};
ghost use Rattle.json_nodes.specs.Values.{doc_of};

use json_nodes::{Values, part};
use json_text::{Change, Span};
use message_body::Memory;

// Where the name of a member stands, with its quotation marks; the member is that of this value.
pub fn name_place(values: Values, node: u32) -> Span
    requires { node < length values.nodes.now }
    ensures { (k n : ℕ) (s p : Span) (ms rest : Members) (cs : List ℕ) (u : Json) → ChildAt (doc_of values.entry) k (object s ms) n node u
        → drop_members n ms ≡ member p cs u rest → result ≡ p }
{
    let name = values.nodes[node as usize].name;
    Span {
        from: name.from as usize,
        to: name.to as usize,
    }
}

// Writes bytes behind what was written.
pub fn write(out: &mut Vec<u8>, bytes: &[u8]) -> Result<(), Memory>
    ensures { OnOk result (out.new.items ≡ out.old.items ++ bytes.now) }
{
    out.extend_from_slice(bytes)?;
    Ok(())
}

// Writes a comma, where something stands in front.
pub fn write_comma(out: &mut Vec<u8>, started: bool) -> Result<(), Memory>
    ensures { OnOk result (out.new.items ≡ out.old.items ++ comma started) }
{
    if started { write(out, b",") } else { Ok(()) }
}

// Writes the bytes from one place to another, with a change made that lies there.
pub fn write_window(
    out: &mut Vec<u8>,
    bytes: &[u8],
    from: usize,
    to: usize,
    change: &Option<Change>,
) -> Result<(), Memory>
    ensures { OnOk result (out.new.items ≡ out.old.items ++ window bytes.now change.now from to) }
{
    match change {
        Some(change) => write_changed(out, bytes, from, to, change),
        None => write(out, part(bytes, from, to)),
    }
}

// The same with a change.
fn write_changed(
    out: &mut Vec<u8>,
    bytes: &[u8],
    from: usize,
    to: usize,
    change: &Change,
) -> Result<(), Memory>
    ensures { OnOk result (out.new.items ≡ out.old.items ++ window bytes.now (Some change.now) from to) }
{
    if change.span.from < from || to < change.span.to {
        return write(out, part(bytes, from, to));
    }
    write(out, part(bytes, from, change.span.from))?;
    write(out, change.text.bytes())?;
    write(out, part(bytes, change.span.to, to))
}
