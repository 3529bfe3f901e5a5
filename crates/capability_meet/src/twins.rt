// What the values of one text have in common with those of another.
ghost use Rattle.std.specs.Prelude.{◌≡◌, ◌<◌, ◌+◌, ℕ, List, length, MatchOption, Some};
ghost use Rattle.std.specs.List.{slice_get};
ghost use Rattle.std.specs.Str.{chars};
ghost use Rattle.json_text.specs.declared.span.Span.{Span};
ghost use Rattle.json_text.specs.Json.{Json, Members, object};
ghost use Rattle.json_text.specs.Named.{named_in};
ghost use Rattle.json_nodes.specs.At.{At, ChildAt, Found};
ghost use Rattle.json_nodes.specs.Index.{IsIndexed};
ghost use Rattle.json_nodes.specs.Same.{drop_members, if_some};
ghost use Rattle.json_nodes.specs.Texts.{member_names};
ghost use Rattle.capability_meet.specs.Meet.{if_meets, meets};
ghost use Rattle.capability_meet.specs.OnePass.{twin_at};
ghost use Rattle.json_nodes.specs.Values.{OfValues, doc_of};

use crate::kinds::{Pair, pair_of};
use crate::spot::{Spot, is_left_out};
use json_nodes::{Indexed, Values};
use std::alloc::Global;

// Whether two values have more in common than the least value.
pub fn meets(alloc: Global, left: Values, node: u32, right: Values, other: u32) -> bool
    requires node { node < length left.nodes.now }
    requires other { other < length right.nodes.now }
    ensures { (t u : Json) → At (doc_of left.entry) node t → At (doc_of right.entry) other u → result ≡ meets t u }
{
    match pair_of(left.kind(node), right.kind(other)) {
        Pair::Least => false,
        Pair::Arrays => true,
        Pair::Objects => true,
        Pair::Others => left.same(alloc, node, right, other),
    }
}

// What a member is met with.
pub fn twin_of(
    alloc: Global,
    left: &Indexed,
    member: u32,
    right: &Indexed,
    spot: Spot,
) -> Option<u32>
    requires node { left.now.node < length left.now.values.nodes.now }
    requires left { IsIndexed left.now }
    requires member { member < length left.now.values.nodes.now }
    requires other { right.now.node < length right.now.values.nodes.now }
    requires right { IsIndexed right.now }
    ensures twin { (n : ℕ) (s r : Span) (ms ns : Members) (cs : List ℕ) (u : Json)
        → ChildAt (doc_of left.now.values) left.now.node (object s ms) n member u → slice_get (member_names ms) n ≡ Some cs
        → At (doc_of right.now.values) right.now.node (object r ns)
        → Found (doc_of right.now.values) (twin_at spot cs u (drop_members (n + 1) ms) ns) result }
    ensures inside { MatchOption result (Unit {0}) (λ m. m < length right.now.values.nodes.now) }
{
    if !left.is_last(member) {
        return None;
    }
    let name = left.values.name(member);
    if is_left_out(spot, name) {
        return None;
    }
    match right.last_named(name) {
        Some(twin) => if_meets(alloc, left.values, member, right.values, twin),
        None => None,
    }
}

// A value of the other, where the two have something in common.
pub fn if_meets(alloc: Global, left: Values, node: u32, right: Values, other: u32) -> Option<u32>
    requires node { node < length left.nodes.now }
    requires other { other < length right.nodes.now }
    ensures twin { (t u : Json) → At (doc_of left.entry) node t → At (doc_of right.entry) other u → Found (doc_of right.entry) (if_meets t (Some u)) result }
    ensures inside { MatchOption result (Unit {0}) (λ m. m < length right.entry.nodes.now) }
{
    if meets(alloc, left, node, right, other) {
        Some(other)
    } else {
        None
    }
}

// Whether two objects have something in common under this name.
pub fn named_meets(alloc: Global, left: &Indexed, right: &Indexed, name: &str) -> bool
    requires node { left.now.node < length left.now.values.nodes.now }
    requires other { right.now.node < length right.now.values.nodes.now }
    ensures { OfValues left.now.values left.now.node right.now.values right.now.node (λ t u. result
        ≡ if_some (named_in (chars name.now) t) (λ j. if_some (named_in (chars name.now) u) (λ k. meets j k))) }
{
    let Some(mine) = left.values.member(left.node, name) else {
        return false
    };
    match right.values.member(right.node, name) {
        Some(twin) => meets(alloc, left.values, mine, right.values, twin),
        None => false,
    }
}
