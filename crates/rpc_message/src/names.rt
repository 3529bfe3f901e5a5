//! Whether the members of an object have names of their own.
ghost use Rattle.std.specs.Prelude.{◌≡◌, ◌<◌, ◌||◌, ℕ, List, bytes_eq, length, not, IfOk, MatchOption, OnOk};
ghost use Rattle.json_text.specs.declared.span.Span.{Span};
ghost use Rattle.json_text.specs.Json.{Members, object};
ghost use Rattle.json_text.specs.String.{SpellsCharacters};
ghost use Rattle.json_span.specs.json_nodes.specs.At.{At};
ghost use Rattle.json_span.specs.json_nodes.specs.Values.{doc_of};
ghost use Rattle.rpc_message.specs.Message.{no_name_twice};
ghost use Rattle.rpc_message.specs.Names.{has_name};

use json_span::decode;
use json_span::json_nodes::Values;
use json_text::message_body::Memory;
use std::alloc::Global;
use std::collections::BTreeSet;

// Objects of up to so many members are searched pair by pair, which takes no memory.
const FEW: usize = 16;

/// Whether no two members of an object have one name. It takes n log n comparisons of n names, whatever the names are.
pub fn names_once(alloc: Global, values: Values, node: u32) -> Result<bool, Memory>
    requires { node < length values.nodes.now }
    ensures { (s : Span) (ms : Members) → At (doc_of values.entry) node (object s ms) → IfOk result (λ once. once ≡ no_name_twice ms) }
{
    if has_few(values, node) {
        Ok(few_names_once(values, node))
    } else {
        many_names_once(alloc, values, node)
    }
}

// Whether an object has few members.
fn has_few(values: Values, node: u32) -> bool
    requires { node < length values.nodes.now }
{
    let mut next = values.first(node);
    for _ in 0..FEW {
        let Some(member) = next else { return true };
        next = values.next(member);
    }
    next.is_none()
}

// The same, each name against those behind it.
fn few_names_once(values: Values, node: u32) -> bool
    requires { node < length values.nodes.now }
    ensures { (s : Span) (ms : Members) → At (doc_of values.entry) node (object s ms) → result ≡ no_name_twice ms }
{
    let mut next = values.first(node);
    while let Some(member) = next {
        let following = values.next(member);
        if values.is_named_again(member, following) {
            return false;
        }
        next = following;
    }
    true
}

// The same, each name against those before it, which are kept in order.
fn many_names_once(alloc: Global, values: Values, node: u32) -> Result<bool, Memory>
    requires { node < length values.nodes.now }
    ensures { (s : Span) (ms : Members) → At (doc_of values.entry) node (object s ms) → IfOk result (λ once. once ≡ no_name_twice ms) }
{
    let mut names = BTreeSet::new(alloc);
    let mut next = values.first(node);
    while let Some(member) = next {
        if !add_name(alloc, &mut names, values.name(member))? {
            return Ok(false);
        }
        next = values.next(member);
    }
    Ok(true)
}

// Adds the name that these bytes spell to the names so far, and says whether it is new.
fn add_name(alloc: Global, names: &mut BTreeSet<Vec<u8>>, raw: &[u8]) -> Result<bool, Memory>
    ensures new { (cs : List ℕ) → SpellsCharacters cs raw.now → IfOk result (λ is_new. is_new ≡ not (has_name names.old cs)) }
    ensures names { (cs : List ℕ) → SpellsCharacters cs raw.now
        → OnOk result ((ds : List ℕ) → has_name names.new ds ≡ (bytes_eq cs ds || has_name names.old ds)) }
{
    let name = decode(alloc, raw)?;
    Ok(names.insert(name)?)
}
