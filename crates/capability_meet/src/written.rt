// What two values have in common, written.
ghost use Rattle.std.specs.Prelude.{◌≡◌, ◌<◌, ◌+◌, ◌++◌, ◌∷◌, [], ℕ, List, length, true, false, IfOk, OnOk, Some, if◌then◌else◌};
ghost use Rattle.std.specs.List.{slice_get};
ghost use Rattle.std.specs.Str.{chars};
ghost use Rattle.json_text.specs.declared.span.Span.{Span};
ghost use Rattle.json_text.specs.Json.{Items, Json, Members, array, item, member, object};
ghost use Rattle.json_nodes.specs.At.{At, ChildAt};
ghost use Rattle.json_nodes.specs.Index.{IsIndexed};
ghost use Rattle.json_nodes.specs.Same.{drop_members};
ghost use Rattle.json_nodes.specs.Texts.{member_names};
ghost use Rattle.capability_meet.specs.declared.spot.Spot.TheVariants as spot;
ghost use Rattle.capability_meet.specs.IndexedArray.{IsIndexedArray};
ghost use Rattle.capability_meet.specs.Meet.{meets, named_meets};
ghost use Rattle.capability_meet.specs.OnePass.{items_met, pairs_at, required, text_at};
ghost use Rattle.capability_meet.specs.Parts.{listed};
ghost use Rattle.json_nodes.specs.Values.{OfArrays, OfObjects, OfValues, doc_of};

use crate::compact::{write_compact, write_name};
use crate::indexed_array::IndexedArray;
use crate::kinds::{Pair, pair_of};
use crate::parts::{write, write_comma};
use crate::spot::{Spot, spot_of};
use crate::twins::{named_meets, twin_of};
use json_nodes::{Indexed, Values};
use message_body::Memory;

// Writes what two values have in common that have more in common than the least value.
#[cycle(met)]
pub fn write_met(
    out: &mut Vec<u8>,
    left: Values,
    node: u32,
    right: Values,
    other: u32,
    spot: Spot,
) -> Result<(), Memory>
    requires node { node < length left.nodes.now }
    requires other { other < length right.nodes.now }
    ensures { OfValues left.entry node right.entry other (λ t u. meets t u ≡ true
        → OnOk result (out.new.items ≡ out.old.items ++ text_at (doc_of left.entry).bytes spot t u)) }
{
    match pair_of(left.kind(node), right.kind(other)) {
        Pair::Least => Ok(()),
        Pair::Arrays => write_array(out, left, node, right, other),
        Pair::Objects => write_object(out, left, node, right, other, spot),
        Pair::Others => write_compact(out, left, node),
    }
}

fn write_array(
    out: &mut Vec<u8>,
    left: Values,
    node: u32,
    right: Values,
    other: u32,
) -> Result<(), Memory>
    requires node { node < length left.nodes.now }
    requires other { other < length right.nodes.now }
    ensures { (s r : Span) (js ks : Items) → At (doc_of left.entry) node (array s js) → At (doc_of right.entry) other (array r ks)
        → OnOk result (out.new.items ≡ out.old.items ++ text_at (doc_of left.entry).bytes spot.Elsewhere (array s js) (array r ks)) }
{
    let right = IndexedArray::new(*out.allocator(), right, other);
    write(out, b"[")?;
    write_items(out, left, node, &right)?;
    write(out, b"]")
}

// Writes the items of an array that say the same as some item of another.
fn write_items(
    out: &mut Vec<u8>,
    left: Values,
    node: u32,
    right: &IndexedArray,
) -> Result<(), Memory>
    requires node { node < length left.nodes.now }
    requires other { right.now.node < length right.now.values.nodes.now }
    requires right { IsIndexedArray right.now }
    ensures { OfArrays left.entry node right.now.values right.now.node (λ js ks. OnOk result (out.new.items
        ≡ out.old.items ++ listed false (items_met (doc_of left.entry).bytes js ks))) }
{
    let mut started = false;
    let mut next = left.first(node);
    while let Some(item) = next {
        started = write_item(out, started, left, item, right)?;
        next = left.next(item);
    }
    Ok(())
}

// Writes one item, if it says the same as some item of the other; the answer says whether one is written by now.
fn write_item(
    out: &mut Vec<u8>,
    started: bool,
    left: Values,
    node: u32,
    right: &IndexedArray,
) -> Result<bool, Memory>
    requires node { node < length left.nodes.now }
    requires other { right.now.node < length right.now.values.nodes.now }
    requires right { IsIndexedArray right.now }
    ensures { (r : Span) (u : Json) (rest ks : Items) → At (doc_of left.entry) node u → At (doc_of right.now.values) right.now.node (array r ks)
        → IfOk result (λ now. out.new.items ++ listed now (items_met (doc_of left.entry).bytes rest ks)
        ≡ out.old.items ++ listed started (items_met (doc_of left.entry).bytes (item u rest) ks)) }
{
    if !right.has(left, node) {
        return Ok(started);
    }
    write_comma(out, started)?;
    write_compact(out, left, node)?;
    Ok(true)
}

#[cycle(met)]
fn write_object(
    out: &mut Vec<u8>,
    left: Values,
    node: u32,
    right: Values,
    other: u32,
    spot: Spot,
) -> Result<(), Memory>
    requires node { node < length left.nodes.now }
    requires other { other < length right.nodes.now }
    ensures { (s r : Span) (ms ns : Members) → At (doc_of left.entry) node (object s ms) → At (doc_of right.entry) other (object r ns)
        → OnOk result (out.new.items ≡ out.old.items ++ text_at (doc_of left.entry).bytes spot (object s ms) (object r ns)) }
{
    let alloc = *out.allocator();
    let left = Indexed::new(alloc, left, node);
    let right = Indexed::new(alloc, right, other);
    write(out, b"{")?;
    let started = write_pairs(out, &left, &right, spot)?;
    write_lacking(out, started, &left, &right, spot)?;
    write(out, b"}")
}

// Writes the pairs of what two objects have in common; the answer says whether there are such.
#[cycle(met)]
fn write_pairs(
    out: &mut Vec<u8>,
    left: &Indexed,
    right: &Indexed,
    spot: Spot,
) -> Result<bool, Memory>
    requires node { left.now.node < length left.now.values.nodes.now }
    requires left { IsIndexed left.now }
    requires other { right.now.node < length right.now.values.nodes.now }
    requires right { IsIndexed right.now }
    ensures { (s r : Span) (ms ns : Members) (more : List (List ℕ)) → At (doc_of left.now.values) left.now.node (object s ms)
        → At (doc_of right.now.values) right.now.node (object r ns)
        → IfOk result (λ now. out.new.items ++ listed now more
        ≡ out.old.items ++ listed false (pairs_at (doc_of left.now.values).bytes spot ms ns ++ more)) }
{
    let mut started = false;
    let mut next = left.values.first(left.node);
    while let Some(pair) = next {
        started = write_pair(out, started, left, pair, right, spot)?;
        next = left.values.next(pair);
    }
    Ok(started)
}

// Writes one pair, if the two have it in common; the answer says whether one is written by now.
#[cycle(met)]
fn write_pair(
    out: &mut Vec<u8>,
    started: bool,
    left: &Indexed,
    pair: u32,
    right: &Indexed,
    spot: Spot,
) -> Result<bool, Memory>
    requires node { left.now.node < length left.now.values.nodes.now }
    requires left { IsIndexed left.now }
    requires pair { pair < length left.now.values.nodes.now }
    requires other { right.now.node < length right.now.values.nodes.now }
    requires right { IsIndexed right.now }
    ensures { (n : ℕ) (s p r : Span) (ms rest ns : Members) (cs : List ℕ) (u : Json) (more : List (List ℕ))
        → ChildAt (doc_of left.now.values) left.now.node (object s ms) n pair u → slice_get (member_names ms) n ≡ Some cs
        → drop_members n ms ≡ member p cs u rest → rest ≡ drop_members (n + 1) ms
        → At (doc_of right.now.values) right.now.node (object r ns)
        → IfOk result (λ now. out.new.items ++ listed now (pairs_at (doc_of left.now.values).bytes spot rest ns ++ more)
        ≡ out.old.items ++ listed started (pairs_at (doc_of left.now.values).bytes spot (member p cs u rest) ns ++ more)) }
{
    let Some(twin) = twin_of(*out.allocator(), left, pair, right, spot) else {
        return Ok(started)
    };
    write_comma(out, started)?;
    write_name(out, left.values, pair)?;
    let inner = spot_of(spot, left.values.name(pair));
    write_met(out, left.values, pair, right.values, twin, inner)?;
    Ok(true)
}

// Writes what has to be there and isn't.
fn write_lacking(
    out: &mut Vec<u8>,
    started: bool,
    left: &Indexed,
    right: &Indexed,
    spot: Spot,
) -> Result<(), Memory>
    requires node { left.now.node < length left.now.values.nodes.now }
    requires other { right.now.node < length right.now.values.nodes.now }
    ensures { OfObjects left.now.values left.now.node right.now.values right.now.node (λ ms ns. OnOk result (out.new.items
        ≡ out.old.items ++ listed started (required spot ms ns))) }
{
    match spot {
        Spot::ShowDocument => {
            write_required(out, started, left, right, "support", b"\"support\":false")
        },
        Spot::StaleRequestSupport => {
            write_required(out, started, left, right, "cancel", b"\"cancel\":false")
        },
        _ => Ok(()),
    }
}

// Writes a pair, where two objects have nothing in common under this name.
fn write_required(
    out: &mut Vec<u8>,
    started: bool,
    left: &Indexed,
    right: &Indexed,
    name: &str,
    pair: &[u8],
) -> Result<(), Memory>
    requires node { left.now.node < length left.now.values.nodes.now }
    requires other { right.now.node < length right.now.values.nodes.now }
    ensures { OfObjects left.now.values left.now.node right.now.values right.now.node (λ ms ns. OnOk result (out.new.items
        ≡ out.old.items ++ listed started (if named_meets (chars name.now) ms ns then [] else (pair.now ∷ [])))) }
{
    if named_meets(*out.allocator(), left, right, name) {
        return Ok(());
    }
    write_comma(out, started)?;
    write(out, pair)
}
