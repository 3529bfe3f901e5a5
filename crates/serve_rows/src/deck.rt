// A hub behind the deck takes what is posted before a stop, and what the clock gives.
ghost use Rattle.std.specs.Prelude.{◌≡◌, [], IfSome, false};
ghost use Rattle.mux_hub.specs.Hubs.{HubStands};

use crate::session::{Ran, run};
use drive_text::LineJournal;
use lane_lists::Order;
use message_body::Body;
use mux_config::Config;
use mux_hub::Hub;
use mux_steps::Journal;
use outside_io::{MemSink, SetClock};
use settled_hub::{Settled, hub_of};
use std::alloc::Global;
use std::sync::Wait;
use std::test::Fail;

const HOVER: &[u8] =
    b"{\"jsonrpc\":\"2.0\",\"id\":1,\"method\":\"textDocument/hover\",\"params\":{}}";

// A hub without a history by the built-in settings, which writes its journal as lines.
fn hub(alloc: Global) -> Option<Hub<LineJournal<MemSink>>>
    ensures stands { IfSome result (λ hub. HubStands ⟦<LineJournal<MemSink> as Journal>⟧.told hub []) }
    ensures ready { IfSome result (λ hub. hub.spent ≡ false) }
{
    let config = Config::built_in(alloc).ok()?;
    let journal = LineJournal::new(alloc, MemSink::new(alloc, Vec::new(alloc), None));
    match hub_of(alloc, config, journal) {
        Ok(settled) => {
            let Settled { hub, .. } = settled;
            Some(hub)
        }
        Err(_journal) => None,
    }
}

// The moments of the clock.
fn moments(alloc: Global) -> Result<Vec<u64>, Fail> {
    let mut moments = Vec::new(alloc);
    moments.push(3)?;
    moments.push(5)?;
    Ok(moments)
}

// What came of a session: what the editor is to be sent, and the journal.
#[derive(Drop)]
struct Said {
    order: Option<Order>,
    journal: LineJournal<MemSink>,
}

// An editor comes and asks too early, and then the clock gives its moments.
fn speak<R: Wait>(waits: &R, alloc: Global, body: Body, clock: SetClock) -> Option<Said> {
    let Ran { core, order } = run(waits, alloc, hub(alloc)?, body, clock)?;
    Some(Said {
        order,
        journal: core.close(),
    })
}

// The body that is to be sent.
fn body_of(order: &Option<Order>) -> Result<&str, Fail> {
    match order {
        Some(Order::Body(body)) => Ok(std::str::from_utf8(body.bytes())?),
        _ => Err(Fail::new("nothing is ordered")),
    }
}

/// Prints what an editor is sent that asks too early, and the journal.
pub(crate) fn play<R: Wait>(waits: &R, rt: HostRuntime) -> Result<(), Fail> {
    let alloc = rt.alloc();
    let body = Body::new(HOVER.to_vec(alloc)?);
    let Some(said) = speak(waits, alloc, body, SetClock::new(moments(alloc)?)) else {
        return Err(Fail::new("no session"));
    };
    println!(rt; "ordered {}", body_of(&said.order)?)?;
    print!(rt; "{}", std::str::from_utf8(said.journal.sink.bytes())?)?;
    Ok(())
}
