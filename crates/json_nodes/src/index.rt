ghost use Rattle.json_nodes.specs.At.{At, ChildAt, Found};
ghost use Rattle.json_nodes.specs.Index.{IsIndexed, KeepsLast, is_number, number_of};
ghost use Rattle.json_nodes.specs.Same.{drop_members, has_name};
ghost use Rattle.json_nodes.specs.Texts.{names};
ghost use Rattle.json_nodes.specs.Values.{doc_of};
ghost use Rattle.json_text.specs.declared.span.Span.{Span};
ghost use Rattle.json_text.specs.Json.{Json, Members, object};
ghost use Rattle.json_text.specs.Named.{named};
ghost use Rattle.json_text.specs.String.{SpellsCharacters};
ghost use Rattle.std.specs.Prelude.{◌≡◌, ◌+◌, ◌<◌, ℕ, List, length, cond, not, bytes_eq, IfOk, IfSome, IsSomeAnd, OnOk, MatchOption, Some};
ghost use Rattle.std.specs.List.{slice_get};

use crate::values::Values;
use json_token::decode;
use message_body::Memory;
use std::alloc::Global;
use std::collections::BTreeMap;

// Objects of up to so many members are searched from the first on, which takes no memory.
const FEW: usize = 8;

/// An object of a text with the values of the last members of its names, by the names' characters in UTF-8. Those are not kept where
/// the object has few members, or where there was no memory for them: its members are then searched one by one.
#[derive(Drop)]
pub struct Indexed<'a> {
    pub values: Values<'a>,
    pub node: u32,
    alloc: Global,
    last: Option<BTreeMap<Vec<u8>, u32>>,
}

impl<'a> Indexed<'a> {
    /// An object with its members by their names. It takes n log n comparisons of n names, and memory for a copy of each.
    pub fn new(alloc: Global, values: Values<'a>, node: u32) -> Indexed<'a>
        requires { node < length values.nodes.now }
        ensures indexed { IsIndexed result }
        ensures values { result.values ≡ values.entry }
        ensures node { result.node ≡ node }
    {
        let last = many_by_name(alloc, values, node);
        Indexed {
            values,
            node,
            alloc,
            last,
        }
    }

    /// The last member whose name is spelled so. Where the names are kept it takes log n comparisons of n names, else n.
    pub fn last_named(&self, raw: &[u8]) -> Option<u32>
        requires node { self.now.node < length self.now.values.nodes.now }
        requires indexed { IsIndexed self.now }
        ensures named { (s : Span) (ms : Members) (cs : List ℕ) → At (doc_of self.now.values) self.now.node (object s ms) → SpellsCharacters cs raw.now
            → Found (doc_of self.now.values) (named cs ms) result }
        ensures inside { MatchOption result (Unit {0}) (λ member. member < length self.now.values.nodes.now) }
    {
        match self.kept(raw) {
            Some(found) => self.values.within(found),
            None => self.values.last_spelled(raw, self.values.first(self.node)),
        }
    }

    /// Whether a member is the last one of its name. The cost is that of `last_named`.
    pub fn is_last(&self, member: u32) -> bool
        requires node { self.now.node < length self.now.values.nodes.now }
        requires indexed { IsIndexed self.now }
        requires member { member < length self.now.values.nodes.now }
        ensures { (n : ℕ) (s : Span) (u : Json) (ms : Members) (cs : List ℕ)
            → ChildAt (doc_of self.now.values) self.now.node (object s ms) n member u
            → slice_get (names (object s ms)) n ≡ Some cs → result ≡ not (has_name cs (drop_members (n + 1) ms)) }
    {
        let values = self.values;
        match self.kept(values.name(member)) {
            Some(found) => is_number(found, member),
            None => !values.is_named_again(member, values.next(member)),
        }
    }

    // What is kept under a name that is spelled so, where the names are kept.
    fn kept(&self, raw: &[u8]) -> Option<Option<u32>>
        ensures { (cs : List ℕ) → SpellsCharacters cs raw.now → IfSome result (λ found. IsSomeAnd self.now.last (λ last. found ≡ number_of last cs)) }
    {
        match &self.last {
            Some(last) => number_of(self.alloc, last, raw),
            None => None,
        }
    }
}

// Whether the number is this one.
fn is_number(found: Option<u32>, member: u32) -> bool
    ensures { result ≡ is_number found member }
{
    match found {
        Some(number) => number == member,
        None => false,
    }
}

// Whether an object has few members.
fn has_few(values: Values, node: u32) -> bool
    requires { node < length values.nodes.now }
{
    let mut next = values.first(node);
    for _ in 0..FEW {
        let Some(member) = next else { return true };
        next = values.next(member);
    }
    next.is_none()
}

// The last members of an object by their names, if it has many and there is memory for them.
fn many_by_name(alloc: Global, values: Values, node: u32) -> Option<BTreeMap<Vec<u8>, u32>>
    requires { node < length values.nodes.now }
    ensures { IfSome result (λ last. KeepsLast last (doc_of values.entry) node) }
{
    if has_few(values, node) {
        return None;
    }
    last_members(alloc, values, node).ok()
}

// What is kept under a name that is spelled so; none where there is no memory for the name.
fn number_of(alloc: Global, last: &BTreeMap<Vec<u8>, u32>, raw: &[u8]) -> Option<Option<u32>>
    ensures { (cs : List ℕ) → SpellsCharacters cs raw.now → IfSome result (λ found. found ≡ number_of last.now cs) }
{
    let Ok(name) = decode(alloc, raw) else {
        return None
    };
    Some(last.get(name.as_slice()).copied())
}

// The last members of an object by their names.
fn last_members(alloc: Global, values: Values, node: u32) -> Result<BTreeMap<Vec<u8>, u32>, Memory>
    requires { node < length values.nodes.now }
    ensures { IfOk result (λ last. KeepsLast last (doc_of values.entry) node) }
{
    let mut last = BTreeMap::new(alloc);
    let mut next = values.first(node);
    while let Some(member) = next {
        keep(alloc, &mut last, values.name(member), member)?;
        next = values.next(member);
    }
    Ok(last)
}

// Keeps a member under the name that these bytes spell.
fn keep(
    alloc: Global,
    last: &mut BTreeMap<Vec<u8>, u32>,
    raw: &[u8],
    member: u32,
) -> Result<(), Memory>
    ensures { (cs : List ℕ) → SpellsCharacters cs raw.now → OnOk result ((ds : List ℕ)
        → number_of last.new ds ≡ cond (bytes_eq ds cs) (Some member) (number_of last.old ds)) }
{
    let name = decode(alloc, raw)?;
    last.insert(name, member)?;
    Ok(())
}
