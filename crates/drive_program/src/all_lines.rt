// All lines of an input.
ghost use Rattle.std.specs.Prelude.{◌≡◌, ℕ, ◌≤◌, [], false, OnOk, IsErrOf, IfSome};
ghost use Rattle.outside_io.specs.Faults.{Rose};
ghost use Rattle.mux_hub.specs.Hubs.{HubView, HubStands};
ghost use Rattle.drive_program.specs.Stops.{Driven};

use crate::buffer::Buffer;
use crate::line::{InputLine, next_line};
use crate::step::take_line;
use crate::stop::{Stop, fault_at, stop_at};
use mux_hub::Hub;
use mux_steps::Journal;
use outside_io::{Sink, Source};
use std::alloc::Global;

/// Takes the lines of the input, one by one, and writes their outs, up to the end or the first stop. A body has at most `content`
/// bytes.
pub fn drive<J: Journal, I: Source, O: Sink>(
    alloc: Global,
    hub: &mut Hub<J>,
    content: u32,
    input: &mut I,
    output: &mut O,
) -> Result<(), Stop>
    requires wide { 13 ≤ content }
    requires small { content ≤ 268435456 }
    requires stands { HubStands J.told hub.old [] }
    requires ready { hub.old.spent ≡ false }
    ensures driven { Driven J.told content hub.old.settings (I.left input.old) (I.left input.new) (O.written output.old) (O.written output.new) hub.new result }
    ensures settings { hub.new.settings ≡ hub.old.settings }
    ensures end { OnOk result (IfSome (I.left input.new) (λ bytes. bytes ≡ [])) }
    ensures journal { IsErrOf result Stop.Journal → Rose (J.faults hub.old.journal) (J.faults hub.new.journal) }
    ensures input { IsErrOf result Stop.Input → Rose (I.faults input.old) (I.faults input.new) }
    ensures output { IsErrOf result Stop.Output → Rose (O.faults output.old) (O.faults output.new) }
    ensures journal_later { J.faults hub.old.journal ≤ J.faults hub.new.journal }
    ensures input_later { I.faults input.old ≤ I.faults input.new }
    ensures output_later { O.faults output.old ≤ O.faults output.new }
{
    let mut buffer = Buffer::new(alloc)?;
    let mut taken: u64 = 0;
    'lines: loop {
        let line = match next_line(alloc, input, &mut buffer, content) {
            Ok(Some(line)) => line,
            Ok(None) => return Ok(()),
            Err(stop) => return Err(stop_at(taken + 1, stop)),
        };
        let InputLine { bytes, is_last } = line;
        if let Err(fault) = take_line(alloc, bytes, hub, output, content) {
            return Err(fault_at(taken + 1, fault));
        }
        if is_last {
            return Ok(());
        }
        taken += 1;
    }
}
