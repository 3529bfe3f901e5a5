// Causes, driven.
ghost use Rattle.std.specs.List.{AllByRecursion};
ghost use Rattle.std.specs.Prelude.{◌≡◌, ◌≤◌, [], false, IsErrOf};
ghost use Rattle.mux_history.specs.Cores.{body_length};
ghost use Rattle.drive_text.specs.Made.{made};
ghost use Rattle.mux_hub.specs.Hubs.{HubStands};
ghost use Rattle.outside_io.specs.Faults.{Rose};
ghost use Rattle.make_program.specs.Runs.{Driven, stop_of};

use crate::counts::Counts;
use drive_program::{Hub, Refusal, StepFault, Stop};
use drive_text::make_causes;
use mux_history::Cause;
use mux_steps::Journal;
use std::alloc::Global;

// Why a run stops where a step has a fault.
fn stop_of(fault: StepFault) -> Stop
    ensures { result ≡ stop_of fault }
{
    match fault {
        StepFault::Memory | StepFault::Spent => Stop::Memory,
        StepFault::Journal => Stop::Journal,
        StepFault::Numbers => Stop::Numbers,
    }
}

// Steps the hub by these causes, one behind the other, and counts the entries. A cause that can't come is refused by its number,
// counted from 1.
fn drive_causes<J: Journal>(hub: &mut Hub<J>, causes: Vec<Cause>) -> Result<Counts, Stop>
    requires stands { HubStands J.told hub.old [] }
    requires ready { hub.old.spent ≡ false }
    requires small { AllByRecursion (λ cause. body_length cause ≤ 268435456) causes.items }
    ensures driven { Driven J.told hub.old.settings causes.items hub.new result }
    ensures settings { hub.new.settings ≡ hub.old.settings }
    ensures journal { IsErrOf result Stop.Journal → Rose (J.faults hub.old.journal) (J.faults hub.new.journal) }
{
    let mut counts = Counts::new();
    for cause in causes {
        if !hub.fits(&cause) {
            return Err(Stop::Refused(counts.causes + 1, Refusal::Absent));
        }
        let outs = match hub.step(cause) {
            Ok(outs) => outs,
            Err(fault) => return Err(stop_of(fault)),
        };
        counts = counts.with_entry(&outs);
    }
    Ok(counts)
}

/// Steps a hub without a history by the made input with `count` turns, drawn from `seed`, and counts the entries.
#[tactic(auto, using(crate::proofs::Driving::undriven))]
pub fn drive_made<J: Journal>(
    alloc: Global,
    hub: &mut Hub<J>,
    count: u32,
    seed: u64,
) -> Result<Counts, Stop>
    requires stands { HubStands J.told hub.old [] }
    requires ready { hub.old.spent ≡ false }
    ensures driven { Driven J.told hub.old.settings (made count seed) hub.new result }
    ensures settings { hub.new.settings ≡ hub.old.settings }
    ensures journal { IsErrOf result Stop.Journal → Rose (J.faults hub.old.journal) (J.faults hub.new.journal) }
{
    match make_causes(alloc, count, seed) {
        Ok(causes) => drive_causes(hub, causes),
        Err(_) => Err(Stop::Memory),
    }
}
