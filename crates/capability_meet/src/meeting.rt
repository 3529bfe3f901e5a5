//! What two capabilities have in common.
ghost use Rattle.std.specs.Prelude.{◌≡◌, ◌≤◌, ◌<◌, length, IfOk, MatchOption};
ghost use Rattle.capability_meet.specs.Answers.{Answers};
ghost use Rattle.capability_meet.specs.DeclaredTree.{declared_of};
ghost use Rattle.capability_meet.specs.MeetTree.{meet_of};
ghost use Rattle.capability_meet.specs.OnePass.{met_at, whole_at};
ghost use Rattle.json_nodes.specs.Values.{OfValues, doc_of};

use crate::fault::{CapFault, read};
use crate::parts::write;
use crate::spot::Spot;
use crate::twins::meets;
use crate::written::write_met;
use json_nodes::Values;
use message_body::{Body, Memory};
use std::alloc::Global;

/// What two capabilities have in common (LSP 3.17, Initialize Request), written with no white space between tokens, in the
/// order of the first and with its bytes.
///
/// Objects keep the members whose common part isn't least; of several pairs of a name the last counts, and it stands at its
/// own place. Arrays keep the first's items that say the same as some item of the second. Values that say the same stay.
/// All else is least, and a least whole is `{}`.
///
/// It takes n log n comparisons of n names and items in all. It answers `NotJson` just where one of the two is no JSON text that
/// nests at most 1,024 deep.
pub fn meet(alloc: Global, a: &[u8], b: &[u8]) -> Result<Body, CapFault>
    requires first { length a.now ≤ 268435456 }
    requires second { length b.now ≤ 268435456 }
    ensures { Answers result (meet_of a.now b.now) }
{
    meet_at(alloc, a, b, Spot::Elsewhere)
}

/// The client capabilities that are declared to a server (LSP 3.17, ClientCapabilities), in three steps: what they have in
/// common with a ceiling, or with themselves; then without the members `notebookDocument` and `offsetEncoding` at the top
/// level; then with what the standard requires put back: an object `window.showDocument` without `support` gets
/// `"support":false` at its end, and an object `general.staleRequestSupport` without `cancel` gets `"cancel":false`.
///
/// It is the greatest of what is below both and has neither of the two members that are left out (`declared_text_is_greatest`):
/// what is put back is least, so the order doesn't see it. The three steps are taken in one pass; the cost is that of `meet`.
pub fn declared(
    alloc: Global,
    capabilities: &[u8],
    ceiling: Option<&[u8]>,
) -> Result<Body, CapFault>
    requires capabilities { length capabilities.now ≤ 268435456 }
    requires ceiling { MatchOption ceiling (Unit {0}) (λ c. length c.now ≤ 268435456) }
    ensures { MatchOption ceiling.entry (Answers result (declared_of capabilities.now capabilities.now))
        (λ c. Answers result (declared_of capabilities.now c.now)) }
{
    match ceiling {
        Some(ceiling) => declared_under(alloc, capabilities, ceiling),
        None => declared_under(alloc, capabilities, capabilities),
    }
}

fn declared_under(alloc: Global, capabilities: &[u8], ceiling: &[u8]) -> Result<Body, CapFault>
    requires capabilities { length capabilities.now ≤ 268435456 }
    requires ceiling { length ceiling.now ≤ 268435456 }
    ensures { Answers result (declared_of capabilities.now ceiling.now) }
{
    meet_at(alloc, capabilities, ceiling, Spot::Top)
}

// What is declared of two capabilities that stand at this place.

fn meet_at(alloc: Global, a: &[u8], b: &[u8], spot: Spot) -> Result<Body, CapFault>
    requires first { length a.now ≤ 268435456 }
    requires second { length b.now ≤ 268435456 }
    ensures { Answers result (met_at spot a.now b.now) }
{
    let left = read(alloc, a)?;
    let right = read(alloc, b)?;
    let text = write_whole(
        alloc,
        left.values(),
        left.root(),
        right.values(),
        right.root(),
        spot,
    )?;
    Ok(Body::new(text))
}

fn write_whole(
    alloc: Global,
    left: Values,
    node: u32,
    right: Values,
    other: u32,
    spot: Spot,
) -> Result<Vec<u8>, Memory>
    requires node { node < length left.nodes.now }
    requires other { other < length right.nodes.now }
    ensures { OfValues left.entry node right.entry other (λ t u. IfOk result (λ out. out.items ≡ whole_at (doc_of left.entry).bytes spot t u)) }
{
    let mut out = Vec::new(alloc);
    if meets(alloc, left, node, right, other) {
        write_met(&mut out, left, node, right, other, spot)?;
    } else {
        write(&mut out, b"{}")?;
    }
    Ok(out)
}
