// One line: read, stepped, and its outs written.
ghost use Rattle.std.specs.Prelude.{◌≡◌, ℕ, ◌≤◌, Ok, Err, false, true, IsTrue, IfOk, OnOk, IfErr, OnErr, IsErrOf, List};
ghost use Rattle.outside_io.specs.Faults.{Rose};
ghost use Rattle.mux_history.specs.declared.entry.Entry.{Entry};
ghost use Rattle.mux_history.specs.Cores.{body_length};
ghost use Rattle.mux_hub.specs.Hubs.{HubView, HubStands};
ghost use Rattle.mux_model.specs.Fits.{fits};
ghost use Rattle.drive_program.specs.Runs.{reading_bytes};
ghost use Rattle.drive_program.specs.Steps.{IsTaken, IsTooMany, LineTaken, LineLeft};
ghost use Rattle.drive_program.specs.Faults.{LeavesWritten};
ghost use Rattle.drive_program.specs.declared.refusal.Refusal.{Refusal};

use crate::refusal::{Refusal, refusal_of};
use drive_text::{cause_of_line, write_outs};
use message_body::Memory;
use mux_history::Cause;
use mux_hub::{Hub, StepFault};
use mux_steps::Journal;
use outside_io::{Cut, Sink, write_whole};
use std::alloc::Global;

/// Why a line wasn't taken and answered.
#[derive(Clone, Copy, Debug, PartialEq, Eq)]
pub enum TakeFault {
    /// Memory was wanted.
    Memory,
    /// The journal's append failed.
    Journal,
    /// The causes and outs would be more than 2^63 - 1.
    Numbers,
    /// A write to the output failed.
    Output,
    /// The line is refused.
    Refused(Refusal),
}

impl From<Memory> for TakeFault {
    ghost use Rattle.std.specs.Prelude.{◌≡◌};
    ghost use Rattle.drive_program.specs.declared.step.TakeFault.TheVariants as take_fault;

    ghost from_gives = { λ _ e. e ≡ take_fault.Memory };

    fn from(_: Memory) -> Self {
        TakeFault::Memory
    }
}

impl From<StepFault> for TakeFault {
    ghost use Rattle.std.specs.Prelude.{◌≡◌};
    ghost use Rattle.drive_program.specs.Faults.{take_fault_of};

    ghost from_gives = { λ fault e. e ≡ take_fault_of fault };

    fn from(fault: StepFault) -> Self {
        match fault {
            StepFault::Memory | StepFault::Spent => TakeFault::Memory,
            StepFault::Journal => TakeFault::Journal,
            StepFault::Numbers => TakeFault::Numbers,
        }
    }
}

impl From<Cut> for TakeFault {
    ghost use Rattle.std.specs.Prelude.{◌≡◌};
    ghost use Rattle.drive_program.specs.declared.step.TakeFault.TheVariants as take_fault;

    ghost from_gives = { λ _ e. e ≡ take_fault.Output };

    fn from(_: Cut) -> Self {
        TakeFault::Output
    }
}

#[tactic(auto, unfolding(crate::specs::Runs::reading_bytes))]
// The cause that a line writes, or why the line is refused. The line isn't kept beside its body.
fn read_line<J: Journal>(
    alloc: Global,
    line: Vec<u8>,
    hub: &Hub<J>,
    content: u32,
) -> Result<Result<Cause, Refusal>, Memory>
    requires ready { hub.now.spent ≡ false }
    ensures reads { (history : List Entry) → HubStands J.told hub.now history → IfOk result (λ read. read ≡ reading_bytes content history line.items) }
    ensures fits { (history : List Entry) → HubStands J.told hub.now history → IfOk result (λ read. IfOk read (λ cause. IsTrue (fits history cause))) }
    ensures small { IfOk result (λ read. IfOk read (λ cause. body_length cause ≤ content)) }
{
    let read = cause_of_line(alloc, &line, content)?;
    drop(line);
    let Some(cause) = read else {
        return Ok(Err(Refusal::Form));
    };
    match refusal_of(&cause, hub) {
        Some(refusal) => Ok(Err(refusal)),
        None => Ok(Ok(cause)),
    }
}

/// Reads a line, whose body has at most `content` bytes, steps the hub and writes the outs.
pub fn take_line<J: Journal, O: Sink>(
    alloc: Global,
    line: Vec<u8>,
    hub: &mut Hub<J>,
    output: &mut O,
    content: u32,
) -> Result<(), TakeFault>
    requires ready { hub.old.spent ≡ false }
    requires small { content ≤ 268435456 }
    ensures taken { (history : List Entry) → HubStands J.told hub.old history
        → OnOk result (LineTaken J.told content history line.items hub.old hub.new (O.written output.old) (O.written output.new)) }
    ensures refused { (history : List Entry) (r : Refusal) → HubStands J.told hub.old history → IsErrOf result (TakeFault.Refused r)
        → reading_bytes content history line.items ≡ Err r }
    ensures entry { (history : List Entry) → HubStands J.told hub.old history → IsErrOf result TakeFault.Journal → IsTaken content history line.items }
    ensures numbers { (history : List Entry) → HubStands J.told hub.old history → IsErrOf result TakeFault.Numbers → IsTooMany content hub.old.settings history line.items }
    ensures left { (history : List Entry) → HubStands J.told hub.old history
        → OnErr result (LineLeft J.told content history line.items hub.old hub.new (O.written output.old) (O.written output.new)) }
    ensures kept { (history : List Entry) → HubStands J.told hub.old history
        → IfErr result (λ fault. LeavesWritten fault → HubStands J.told hub.new history × (O.written output.new ≡ O.written output.old)) }
    ensures settings { hub.new.settings ≡ hub.old.settings }
    ensures ready { OnOk result (hub.new.spent ≡ false) }
    ensures journal { IsErrOf result TakeFault.Journal → Rose (J.faults hub.old.journal) (J.faults hub.new.journal) }
    ensures output { IsErrOf result TakeFault.Output → Rose (O.faults output.old) (O.faults output.new) }
    ensures journal_later { J.faults hub.old.journal ≤ J.faults hub.new.journal }
    ensures output_later { O.faults output.old ≤ O.faults output.new }
{
    let cause = match read_line(alloc, line, hub, content)? {
        Ok(cause) => cause,
        Err(refusal) => return Err(TakeFault::Refused(refusal)),
    };
    let outs = hub.step(cause)?;
    let text = write_outs(alloc, &outs)?;
    write_whole(output, text.bytes())?;
    Ok(())
}
