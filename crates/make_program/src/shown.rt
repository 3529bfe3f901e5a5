// A text on the output, and the status of its writing.
ghost use Rattle.std.specs.Prelude.{◌≡◌, ◌≤◌, IsErrOf};
ghost use Rattle.outside_io.specs.Faults.{Rose};
ghost use Rattle.program_settings.specs.Lines.{Reported};
ghost use Rattle.make_program.specs.Shown.{Shows, ended_line, ended_status};

use drive_program::{Stop, report};
use outside_io::{Sink, write_whole};
use std::alloc::Global;

/// Writes a text.
#[tactic(auto, using(crate::proofs::Writing::front_of))]
pub fn write_text<O: Sink>(output: &mut O, text: &[u8]) -> Result<(), Stop>
    ensures shows { Shows text.now (O.written output.old) (O.written output.new) result }
    ensures output { IsErrOf result Stop.Output → Rose (O.faults output.old) (O.faults output.new) }
    ensures later { O.faults output.old ≤ O.faults output.new }
{
    match write_whole(output, text) {
        Ok(()) => Ok(()),
        Err(_cut) => Err(Stop::Output),
    }
}

/// Writes the fault line of what a run came to, and gives its status: 0, or that of the stop.
#[tactic(auto, using(crate::proofs::Writing::said_nothing))]
pub fn finish<O: Sink>(alloc: Global, output: &mut O, ended: Result<(), Stop>) -> u8
    ensures reported { Reported result (ended_status ended) (O.written output.old) (O.written output.new) (ended_line ended)
        (Rose (O.faults output.old) (O.faults output.new)) }
    ensures later { O.faults output.old ≤ O.faults output.new }
{
    match ended {
        Ok(()) => 0,
        Err(stop) => report(alloc, output, stop),
    }
}
