ghost use Rattle.json_nodes.specs.At.{At, ChildAt};
ghost use Rattle.json_nodes.specs.Index.{IsIndexed};
ghost use Rattle.json_nodes.specs.Same.{drop_members, has_name, if_some, names_within, same, same_items, same_kind, same_members};
ghost use Rattle.json_nodes.specs.SameTree.{Same};
ghost use Rattle.json_nodes.specs.Values.{OfArrays, OfObjects, OfValues, bytes_at, doc_of};
ghost use Rattle.json_nodes.specs.Texts.{names};
ghost use Rattle.json_text.specs.Bare.{bare};
ghost use Rattle.json_text.specs.declared.span.Span.{Span};
ghost use Rattle.json_text.specs.Json.{Items, Json, Members, array, object};
ghost use Rattle.json_text.specs.Named.{named};
ghost use Rattle.std.specs.Prelude.{◌≡◌, ◌+◌, ◌<◌, ◌↔◌, ◌||◌, ℕ, List, length, bytes_eq, true, IsTrue, Some};
ghost use Rattle.std.specs.List.{slice_get};

use crate::index::Indexed;
use crate::values::Values;
use json_text::Kind;
use json_token::same_characters;
use std::alloc::Global;

impl<'a> Values<'a> {
    /// Whether two values say the same: numbers by their text, strings by their characters, arrays item by item, and objects by
    /// name, in any order, where the last member of a name counts.
    ///
    /// The time is linear in the two where they are the same bytes. Else it takes n log n comparisons of n names in all, and memory for
    /// the names of the objects that are open; where there is none, the members of an object are looked up one by one.
    pub fn same(self, alloc: Global, node: u32, right: Values, other: u32) -> bool
        requires node { node < length self.nodes.now }
        requires other { other < length right.nodes.now }
        ensures test { (t u : Json) → At (doc_of self.entry) node t → At (doc_of right.entry) other u → result ≡ same t u }
        ensures relation { (t u : Json) → At (doc_of self.entry) node t → At (doc_of right.entry) other u → (IsTrue result ↔ Same t u) }
    {
        self.same_bytes(node, right, other) || same_values(alloc, self, node, right, other)
    }

    /// Whether two values are the same bytes, so that they say the same. The time is linear in them.
    pub fn same_bytes(self, node: u32, right: Values, other: u32) -> bool
        requires node { node < length self.nodes.now }
        requires other { other < length right.nodes.now }
        ensures test { OfValues self.entry node right.entry other (λ t u. result
            ≡ bytes_eq (bytes_at (doc_of self.entry) t) (bytes_at (doc_of right.entry) u)) }
        ensures says { (t u : Json) → At (doc_of self.entry) node t → At (doc_of right.entry) other u → result ≡ true → bare t ≡ bare u }
    {
        self.bytes(node) == right.bytes(other)
    }
}

#[cycle(same)]
fn same_values(alloc: Global, left: Values, node: u32, right: Values, other: u32) -> bool
    requires node { node < length left.nodes.now }
    requires other { other < length right.nodes.now }
    ensures { (t u : Json) → At (doc_of left.entry) node t → At (doc_of right.entry) other u → result ≡ same t u }
{
    let kind = left.kind(node);
    if !same_kind(kind, right.kind(other)) {
        return false;
    }
    match kind {
        Kind::Null | Kind::False | Kind::True => true,
        Kind::Number => left.bytes(node) == right.bytes(other),
        Kind::Text => same_characters(left.string(node), right.string(other)),
        Kind::Array => same_items(alloc, left, node, right, other),
        Kind::Object => same_objects(alloc, left, node, right, other),
    }
}

// Whether two objects have the same names, and of each name last members that say the same.
#[cycle(same)]
fn same_objects(alloc: Global, left: Values, node: u32, right: Values, other: u32) -> bool
    requires node { node < length left.nodes.now }
    requires other { other < length right.nodes.now }
    ensures { (s r : Span) (ms ns : Members) → At (doc_of left.entry) node (object s ms) → At (doc_of right.entry) other (object r ns)
        → result ≡ same (object s ms) (object r ns) }
{
    let left = Indexed::new(alloc, left, node);
    let right = Indexed::new(alloc, right, other);
    same_members(alloc, &left, &right) && names_within(&right, &left)
}

// Whether two arrays have the same items.
#[cycle(same)]
fn same_items(alloc: Global, left: Values, node: u32, right: Values, other: u32) -> bool
    requires node { node < length left.nodes.now }
    requires other { other < length right.nodes.now }
    ensures { OfArrays left.entry node right.entry other (λ js ks. result ≡ same_items js ks) }
{
    let mut next = left.first(node);
    let mut beside = right.first(other);
    while let Some(item) = next {
        let Some(twin) = beside else { return false };
        if !same_values(alloc, left, item, right, twin) {
            return false;
        }
        next = left.next(item);
        beside = right.next(twin);
    }
    beside.is_none()
}

// Whether each member of an object, unless a later one has its name, says the same as the last one of its name in another.
#[cycle(same)]
fn same_members(alloc: Global, left: &Indexed, right: &Indexed) -> bool
    requires node { left.now.node < length left.now.values.nodes.now }
    requires left { IsIndexed left.now }
    requires other { right.now.node < length right.now.values.nodes.now }
    requires right { IsIndexed right.now }
    ensures { OfObjects left.now.values left.now.node right.now.values right.now.node (λ ms ns. result ≡ same_members ms ns) }
{
    let mut next = left.values.first(left.node);
    while let Some(member) = next {
        if !same_member(alloc, left, member, right) {
            return false;
        }
        next = left.values.next(member);
    }
    true
}

// The same for one member.
#[cycle(same)]
fn same_member(alloc: Global, left: &Indexed, member: u32, right: &Indexed) -> bool
    requires node { left.now.node < length left.now.values.nodes.now }
    requires left { IsIndexed left.now }
    requires member { member < length left.now.values.nodes.now }
    requires other { right.now.node < length right.now.values.nodes.now }
    requires right { IsIndexed right.now }
    ensures { (n : ℕ) (s r : Span) (u : Json) (ms ns : Members) (cs : List ℕ)
        → ChildAt (doc_of left.now.values) left.now.node (object s ms) n member u → slice_get (names (object s ms)) n ≡ Some cs
        → At (doc_of right.now.values) right.now.node (object r ns)
        → result ≡ (has_name cs (drop_members (n + 1) ms) || if_some (named cs ns) (λ v. same u v)) }
{
    if !left.is_last(member) {
        return true;
    }
    match right.last_named(left.values.name(member)) {
        Some(twin) => same_values(alloc, left.values, member, right.values, twin),
        None => false,
    }
}

// Whether each name in an object is one in another.
fn names_within(left: &Indexed, right: &Indexed) -> bool
    requires node { left.now.node < length left.now.values.nodes.now }
    requires other { right.now.node < length right.now.values.nodes.now }
    requires right { IsIndexed right.now }
    ensures { OfObjects left.now.values left.now.node right.now.values right.now.node (λ ms ns. result ≡ names_within ms ns) }
{
    let mut next = left.values.first(left.node);
    while let Some(member) = next {
        if right.last_named(left.values.name(member)).is_none() {
            return false;
        }
        next = left.values.next(member);
    }
    true
}

// Whether two values of these kinds may be the same.
fn same_kind(kind: Kind, other: Kind) -> bool
    ensures { result ≡ same_kind kind other }
{
    matches!(
        (kind, other),
        (Kind::Null, Kind::Null)
            | (Kind::False, Kind::False)
            | (Kind::True, Kind::True)
            | (Kind::Number, Kind::Number)
            | (Kind::Text, Kind::Text)
            | (Kind::Array, Kind::Array)
            | (Kind::Object, Kind::Object)
    )
}
