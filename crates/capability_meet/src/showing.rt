//! What editors are shown of an initialize result.
ghost use Rattle.std.specs.Prelude.{◌≡◌, ◌≤◌, ◌<◌, ◌++◌, ℕ, List, length, false, IfOk, OnOk, MatchOption, Option, Some};
ghost use Rattle.std.specs.List.{slice_get};
ghost use Rattle.std.specs.Option.{option_map};
ghost use Rattle.std.specs.Str.{chars};
ghost use Rattle.json_text.specs.declared.span.Span.{Span};
ghost use Rattle.json_text.specs.Json.{Json, Members, member, object};
ghost use Rattle.json_text.specs.Tree.{tree_of};
ghost use Rattle.json_nodes.specs.At.{At, ChildAt, Found};
ghost use Rattle.json_nodes.specs.Same.{drop_members};
ghost use Rattle.json_nodes.specs.Texts.{member_names};
ghost use Rattle.capability_meet.specs.Answers.{Answers};
ghost use Rattle.capability_meet.specs.Parts.{listed};
ghost use Rattle.capability_meet.specs.Shown.{change_of, other_pairs, shown_text, without};
ghost use Rattle.json_nodes.specs.Values.{doc_of};

use crate::fault::{CapFault, read};
use crate::parts::{name_place, write, write_comma, write_window};
use json_nodes::Values;
use json_nodes::json_token::spells_text;
use json_text::Change;
use message_body::{Body, Memory};
use std::alloc::Global;

/// An initialize result (LSP 3.17, InitializeResult) as editors are shown it: without the members
/// `capabilities.notebookDocumentSync` and `capabilities.workspace.workspaceFolders`.
///
/// The last `capabilities` and the last `workspace` count, and all pairs of a name go. An object that loses a member is
/// written as the bytes of its other pairs, joined with commas, in braces; all else stays as it came. The time is linear.
pub fn shown(alloc: Global, answer: &[u8]) -> Result<Body, CapFault>
    requires { length answer.now ≤ 268435456 }
    ensures { Answers result (option_map (shown_text answer.now) (tree_of answer.now)) }
{
    let tape = read(alloc, answer)?;
    Ok(Body::new(shown_in(alloc, tape.values(), tape.root())?))
}

fn shown_in(alloc: Global, values: Values, root: u32) -> Result<Vec<u8>, Memory>
    requires { root < length values.nodes.now }
    ensures { (t : Json) → At (doc_of values.entry) root t → IfOk result (λ out. out.items ≡ shown_text (doc_of values.entry).bytes t) }
{
    let capabilities = values.maybe_member(Some(root), "capabilities");
    let workspace = values.maybe_member(capabilities, "workspace");
    let inner = change_without(alloc, values, workspace, "workspaceFolders", &None)?;
    let change = change_without(alloc, values, capabilities, "notebookDocumentSync", &inner)?;
    let mut out = Vec::new(alloc);
    write_window(&mut out, values.bytes, 0, values.bytes.len(), &change)?;
    Ok(out)
}

// A value, where it is there, and its text without the members of this name.
fn change_without(
    alloc: Global,
    values: Values,
    node: Option<u32>,
    name: &str,
    change: &Option<Change>,
) -> Result<Option<Change>, Memory>
    requires { MatchOption node (Unit {0}) (λ n. n < length values.nodes.now) }
    ensures { (o : Option Json) → Found (doc_of values.entry) o node
        → IfOk result (λ written. written ≡ option_map (change_of (without (doc_of values.entry).bytes (chars name.now) change.now)) o) }
{
    let Some(node) = node else { return Ok(None) };
    let mut out = Vec::new(alloc);
    write_without(&mut out, values, node, name, change)?;
    Ok(Some(Change {
        span: values.span(node),
        text: Body::new(out),
    }))
}

// Writes a value without the members of this name.
fn write_without(
    out: &mut Vec<u8>,
    values: Values,
    node: u32,
    name: &str,
    change: &Option<Change>,
) -> Result<(), Memory>
    requires { node < length values.nodes.now }
    ensures { (t : Json) → At (doc_of values.entry) node t
        → OnOk result (out.new.items ≡ out.old.items ++ without (doc_of values.entry).bytes (chars name.now) change.now t) }
{
    if values.member(node, name).is_some() {
        write(out, b"{")?;
        write_other_pairs(out, values, node, name, change)?;
        write(out, b"}")
    } else {
        let span = values.span(node);
        write_window(out, values.bytes, span.from, span.to, change)
    }
}

// Writes the pairs of an object that have other names.
fn write_other_pairs(
    out: &mut Vec<u8>,
    values: Values,
    node: u32,
    name: &str,
    change: &Option<Change>,
) -> Result<(), Memory>
    requires { node < length values.nodes.now }
    ensures { (s : Span) (ms : Members) → At (doc_of values.entry) node (object s ms)
        → OnOk result (out.new.items ≡ out.old.items ++ listed false (other_pairs (doc_of values.entry).bytes (chars name.now) change.now ms)) }
{
    let mut started = false;
    let mut next = values.first(node);
    while let Some(pair) = next {
        started = write_other_pair(out, started, values, pair, name, change)?;
        next = values.next(pair);
    }
    Ok(())
}

// Writes one pair if it has another name; the answer says whether one is written by now.
fn write_other_pair(
    out: &mut Vec<u8>,
    started: bool,
    values: Values,
    node: u32,
    name: &str,
    change: &Option<Change>,
) -> Result<bool, Memory>
    requires { node < length values.nodes.now }
    ensures { (k n : ℕ) (s p : Span) (ms rest : Members) (cs : List ℕ) (u : Json) → ChildAt (doc_of values.entry) k (object s ms) n node u
        → slice_get (member_names ms) n ≡ Some cs → drop_members n ms ≡ member p cs u rest
        → IfOk result (λ now. out.new.items ++ listed now (other_pairs (doc_of values.entry).bytes (chars name.now) change.now rest)
        ≡ out.old.items ++ listed started (other_pairs (doc_of values.entry).bytes (chars name.now) change.now (member p cs u rest))) }
{
    if spells_text(values.name(node), name) {
        return Ok(started);
    }
    let from = name_place(values, node).from;
    let to = values.span(node).to;
    write_comma(out, started)?;
    write_window(out, values.bytes, from, to, change)?;
    Ok(true)
}
