// The order of capabilities.
ghost use Rattle.std.specs.Prelude.{◌≡◌, ◌+◌, ◌<◌, ◌||◌, ℕ, List, length, true, MatchOption, Some};
ghost use Rattle.std.specs.List.{slice_get};
ghost use Rattle.json_text.specs.declared.span.Span.{Span};
ghost use Rattle.json_text.specs.Json.{Items, Json, Members, array, object};
ghost use Rattle.json_text.specs.Named.{named};
ghost use Rattle.json_nodes.specs.At.{At, ChildAt, FoundChild};
ghost use Rattle.json_nodes.specs.Index.{IsIndexed};
ghost use Rattle.json_nodes.specs.Same.{drop_members, has_name, if_some};
ghost use Rattle.json_nodes.specs.Texts.{names};
ghost use Rattle.capability_meet.specs.IndexedArray.{IsIndexedArray};
ghost use Rattle.capability_meet.specs.Order.{below, is_among, is_least, items_below, members_below};
ghost use Rattle.json_nodes.specs.Values.{OfArrays, OfObjects, doc_of};

use crate::indexed_array::IndexedArray;
use crate::kinds::{Pair, pair_of};
use json_nodes::{Indexed, Values};
use json_span::Tape;
use json_text::Kind;
use std::alloc::Global;

/// Whether a value of one text is below a value of another in the order of capabilities (LSP 3.17, Initialize Request).
///
/// Absent, null and false are the least values. True is below true. An object is below an object if each of its members is
/// below the other's member of that name, where the last member of a name counts. An array is below an array if each of its
/// items says the same as some item of the other. Any other value is below a value that says the same.
///
/// It takes n log n comparisons of n names and items in all, and memory for the names and the items of what is open; where there is
/// none, members and items are looked up one by one.
pub fn below(a: &Tape, x: u32, b: &Tape, y: u32) -> bool
    requires node { x < length a.now.nodes }
    requires other { y < length b.now.nodes }
    ensures { (t u : Json) → At a.now x t → At b.now y u → result ≡ below t u }
{
    let left = a.values();
    let right = b.values();
    left.same_bytes(x, right, y) || values_below(a.allocator(), left, x, right, y)
}

#[cycle(below)]
fn values_below(alloc: Global, left: Values, node: u32, right: Values, other: u32) -> bool
    requires node { node < length left.nodes.now }
    requires other { other < length right.nodes.now }
    ensures { (t u : Json) → At (doc_of left.entry) node t → At (doc_of right.entry) other u → result ≡ below t u }
{
    match pair_of(left.kind(node), right.kind(other)) {
        Pair::Least => true,
        Pair::Arrays => items_below(alloc, left, node, right, other),
        Pair::Objects => objects_below(alloc, left, node, right, other),
        Pair::Others => left.same(alloc, node, right, other),
    }
}

// Whether each item of an array says the same as some item of another.
fn items_below(alloc: Global, left: Values, node: u32, right: Values, other: u32) -> bool
    requires node { node < length left.nodes.now }
    requires other { other < length right.nodes.now }
    ensures { OfArrays left.entry node right.entry other (λ js ks. result ≡ items_below js ks) }
{
    let right = IndexedArray::new(alloc, right, other);
    items_among(alloc, left, node, &right)
}

// The same where the other comes with the texts of its items.
fn items_among(alloc: Global, left: Values, node: u32, right: &IndexedArray) -> bool
    requires node { node < length left.nodes.now }
    requires other { right.now.node < length right.now.values.nodes.now }
    requires right { IsIndexedArray right.now }
    ensures { OfArrays left.entry node right.now.values right.now.node (λ js ks. result ≡ items_below js ks) }
{
    let mut next = left.first(node);
    let mut beside = right.values.first(right.node);
    while let Some(item) = next {
        if !is_beside_or_among(alloc, left, item, right, beside) {
            return false;
        }
        next = left.next(item);
        beside = right.values.maybe_next(beside);
    }
    true
}

// Whether a value says the same as this item of an array, or as some item of it.
fn is_beside_or_among(
    alloc: Global,
    left: Values,
    node: u32,
    right: &IndexedArray,
    beside: Option<u32>,
) -> bool
    requires node { node < length left.nodes.now }
    requires beside { MatchOption beside (Unit {0}) (λ m. m < length right.now.values.nodes.now) }
    requires other { right.now.node < length right.now.values.nodes.now }
    requires right { IsIndexedArray right.now }
    ensures { (t : Json) (r : Span) (ks : Items) (n : ℕ) → At (doc_of left.entry) node t
        → At (doc_of right.now.values) right.now.node (array r ks)
        → FoundChild (doc_of right.now.values) right.now.node (array r ks) n beside → result ≡ is_among t ks }
{
    if let Some(item) = beside {
        if left.same(alloc, node, right.values, item) {
            return true;
        }
    }
    right.has(left, node)
}

// Whether a value says the same as some item of an array.
pub fn is_among(alloc: Global, left: Values, node: u32, right: Values, other: u32) -> bool
    requires node { node < length left.nodes.now }
    requires other { other < length right.nodes.now }
    ensures { (t : Json) (r : Span) (ks : Items) → At (doc_of left.entry) node t → At (doc_of right.entry) other (array r ks) → result ≡ is_among t ks }
{
    let mut next = right.first(other);
    while let Some(item) = next {
        if left.same(alloc, node, right, item) {
            return true;
        }
        next = right.next(item);
    }
    false
}

// Whether each member of an object, unless a later one has its name, is below the last one of its name in another.
#[cycle(below)]
fn objects_below(alloc: Global, left: Values, node: u32, right: Values, other: u32) -> bool
    requires node { node < length left.nodes.now }
    requires other { other < length right.nodes.now }
    ensures { OfObjects left.entry node right.entry other (λ ms ns. result ≡ members_below ms ns) }
{
    let left = Indexed::new(alloc, left, node);
    let right = Indexed::new(alloc, right, other);
    members_below(alloc, &left, &right)
}

// The same for two objects with their members by their names.
#[cycle(below)]
fn members_below(alloc: Global, left: &Indexed, right: &Indexed) -> bool
    requires node { left.now.node < length left.now.values.nodes.now }
    requires left { IsIndexed left.now }
    requires other { right.now.node < length right.now.values.nodes.now }
    requires right { IsIndexed right.now }
    ensures { OfObjects left.now.values left.now.node right.now.values right.now.node (λ ms ns. result ≡ members_below ms ns) }
{
    let mut next = left.values.first(left.node);
    while let Some(member) = next {
        if !member_below(alloc, left, member, right) {
            return false;
        }
        next = left.values.next(member);
    }
    true
}

// The same for one member.
#[cycle(below)]
fn member_below(alloc: Global, left: &Indexed, member: u32, right: &Indexed) -> bool
    requires node { left.now.node < length left.now.values.nodes.now }
    requires left { IsIndexed left.now }
    requires member { member < length left.now.values.nodes.now }
    requires other { right.now.node < length right.now.values.nodes.now }
    requires right { IsIndexed right.now }
    ensures { (n : ℕ) (s r : Span) (u : Json) (ms ns : Members) (cs : List ℕ)
        → ChildAt (doc_of left.now.values) left.now.node (object s ms) n member u → slice_get (names (object s ms)) n ≡ Some cs
        → At (doc_of right.now.values) right.now.node (object r ns)
        → result ≡ (has_name cs (drop_members (n + 1) ms) || (is_least u || if_some (named cs ns) (λ v. below u v))) }
{
    if !left.is_last(member) {
        return true;
    }
    if is_least(left.values, member) {
        return true;
    }
    match right.last_named(left.values.name(member)) {
        Some(twin) => values_below(alloc, left.values, member, right.values, twin),
        None => false,
    }
}

// Whether a value is null or false.
fn is_least(values: Values, node: u32) -> bool
    requires { node < length values.nodes.now }
    ensures { (t : Json) → At (doc_of values.entry) node t → result ≡ is_least t }
{
    matches!(values.kind(node), Kind::Null | Kind::False)
}
