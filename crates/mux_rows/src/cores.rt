// The hub, used as any core of the multiplexer.
ghost use Rattle.std.specs.Prelude.{◌≤◌, IfOk, length};
ghost use Rattle.mux_history.specs.Cores.{body_length};

use crate::session::built_in;
use drive_program::Hub;
use message_body::Body;
use mux_history::Cause;
use mux_steps::{MemJournal, Steps};
use std::alloc::Global;
use std::test::Fail;

// Steps a core by a cause, and tells how many outs it gives; or that the cause can't come, or the fault.
fn step<K: Steps>(rt: HostRuntime, core: &mut K, cause: Cause) -> Result<(), Fail>
    requires { body_length cause ≤ 268435456 }
{
    if !core.fits(&cause) {
        println!(rt; "it can't come")?;
        return Ok(());
    }
    match core.step(cause) {
        Ok(outs) => println!(rt; "{} outs", outs.len())?,
        Err(fault) => println!(rt; "{fault:?}")?,
    }
    Ok(())
}

// Tells the number of the next editor, the servers of the first two starts, and whether a request to stop was answered.
fn tell<K: Steps>(rt: HostRuntime, core: &K) -> Result<(), Fail> {
    let (next, stopped) = (core.next_editor(), core.stopped());
    let (first, second) = (core.server_of(0), core.server_of(1));
    println!(rt; "next editor {next}, servers {first:?} {second:?}, stopped {stopped}")?;
    Ok(())
}

// A hub without servers, over a journal that fails at these appends.
fn core(alloc: Global, fails: Vec<u64>) -> Result<Hub<MemJournal>, Fail> {
    let mut limits = built_in();
    limits.requests = 4;
    limits.versions = 4;
    match Hub::new(
        alloc,
        limits,
        Vec::new(alloc),
        0,
        MemJournal::new(alloc, fails),
    ) {
        Ok(hub) => Ok(hub),
        Err(_journal) => Err(Fail::new("no hub")),
    }
}

// The first editor says this.
fn said(alloc: Global, text: &str) -> Result<Cause, Fail>
    requires { length text.now ≤ 268435456 }
    ensures { IfOk result (λ cause. body_length cause ≤ 268435456) }
{
    let body = Body::new(Vec::from_slice(alloc, text.as_bytes())?);
    Ok(Cause::FromEditor(0, body))
}

pub fn a_hub_is_a_core(rt: HostRuntime) -> Result<(), Fail> {
    println!(rt; "a hub is a core")?;
    let mut hub = core(rt.alloc(), Vec::new(rt.alloc()))?;
    tell(rt, &hub)?;
    step(rt, &mut hub, Cause::Joined(1))?;
    step(rt, &mut hub, Cause::Joined(0))?;
    tell(rt, &hub)?;
    let stop = said(
        rt.alloc(),
        "{\"jsonrpc\":\"2.0\",\"id\":1,\"method\":\"lspmux/stop\"}",
    )?;
    step(rt, &mut hub, stop)?;
    tell(rt, &hub)?;
    step(rt, &mut hub, Cause::Tick(1))?;
    tell(rt, &hub)
}

pub fn a_start_that_failed_is_renewed_once(rt: HostRuntime) -> Result<(), Fail> {
    println!(rt; "a start that failed is renewed once")?;
    let mut hub = core(rt.alloc(), Vec::new(rt.alloc()))?;
    step(rt, &mut hub, Cause::Joined(0))?;
    let initialize = said(
        rt.alloc(),
        "{\"jsonrpc\":\"2.0\",\"id\":1,\"method\":\"initialize\",\"params\":{}}",
    )?;
    step(rt, &mut hub, initialize)?;
    tell(rt, &hub)?;
    step(rt, &mut hub, Cause::StartFailed(0))?;
    tell(rt, &hub)?;
    step(rt, &mut hub, Cause::StartFailed(0))
}

pub fn a_core_whose_journal_failed_is_spent(rt: HostRuntime) -> Result<(), Fail> {
    println!(rt; "a core whose journal failed is spent")?;
    let mut hub = core(rt.alloc(), vec![in rt.alloc(); 0]?)?;
    step(rt, &mut hub, Cause::Joined(0))?;
    step(rt, &mut hub, Cause::Tick(1))?;
    println!(rt; "{} entries", hub.close().entries().len())?;
    Ok(())
}
