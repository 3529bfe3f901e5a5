//! The daemon over an outside in memory, also where a call of it fails, what it notes of refused settings, and the deck of a hub on one thread. It prints what came.
#![tactic(auto)]

mod deck;
mod faults;
mod memory;
mod notes;
mod session;
mod threads;

use std::test::Fail;

fn main(rt: HostRuntime) -> Result<(), Fail> {
    threads::play(&rt, rt)?;
    faults::play(&rt, rt)?;
    notes::play(&rt, rt)?;
    deck::play(&rt, rt)
}
