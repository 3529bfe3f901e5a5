//! The editors that the outs of an entry go to.
ghost use Rattle.std.specs.Prelude.{◌≡◌, fold, IfOk, OnOk};
ghost use Rattle.mux_slow.specs.Told.{told_in, told_next};

use message_body::Memory;
use mux_history::{Out, Outs};
use std::alloc::Global;
use std::collections::BTreeSet;

// The editor of one out, if it is a body to one, comes to those before.
fn add_told(told: &mut BTreeSet<u64>, out: &Out) -> Result<(), Memory>
    ensures { OnOk result (told.new.keys ≡ told_next told.old.keys out.now) }
{
    if let Out::ToEditor(e, _) = out {
        told.insert(*e)?;
    }
    Ok(())
}

// Those of all of them.
fn told_by(alloc: Global, outs: &Outs) -> Result<BTreeSet<u64>, Memory>
    ensures { IfOk result (λ told. told.keys ≡ told_in outs.now) }
{
    let mut told = BTreeSet::new(alloc);
    for out in outs.as_slice() {
        add_told(&mut told, out)?;
    }
    Ok(told)
}

/// The editors to which these go, rising, each once, in time n log n in their number.
pub fn told_in(alloc: Global, outs: &Outs) -> Result<Vec<u64>, Memory>
    ensures { IfOk result (λ told. told.items ≡ told_in outs.now) }
{
    let told = told_by(alloc, outs)?;
    let mut numbers = Vec::new(alloc);
    for e in &told {
        numbers.push(*e)?;
    }
    Ok(numbers)
}
