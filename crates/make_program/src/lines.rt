// The lines of a made input, written.
ghost use Rattle.std.specs.Prelude.{◌≡◌, ◌≤◌, IfOk, IsErrOf};
ghost use Rattle.drive_text.specs.Made.{made};
ghost use Rattle.outside_io.specs.Faults.{Rose};
ghost use Rattle.make_program.specs.Shown.{Shows, cause_text, causes_text};

use crate::shown::write_text;
use drive_program::Stop;
use drive_text::{make_causes, write_cause_line};
use message_body::Memory;
use mux_history::Cause;
use outside_io::Sink;
use std::alloc::Global;

// The line of a cause, with its line feed.
fn line_of(alloc: Global, cause: &Cause) -> Result<Vec<u8>, Memory>
    ensures { IfOk result (λ text. text.items ≡ cause_text cause.now) }
{
    let line = write_cause_line(alloc, cause)?;
    let mut text = Vec::from_slice(alloc, line.bytes())?;
    text.push(b'\n')?;
    Ok(text)
}

// Writes the line of a cause.
#[tactic(auto, using(crate::proofs::Writing::no_front))]
fn write_cause<O: Sink>(alloc: Global, output: &mut O, cause: &Cause) -> Result<(), Stop>
    ensures shows { Shows (cause_text cause.now) (O.written output.old) (O.written output.new) result }
    ensures output { IsErrOf result Stop.Output → Rose (O.faults output.old) (O.faults output.new) }
    ensures later { O.faults output.old ≤ O.faults output.new }
{
    let Ok(text) = line_of(alloc, cause) else {
        return Err(Stop::Memory);
    };
    write_text(output, &text)
}

/// Writes the lines of the made input with `count` turns, drawn from `seed`, each with its line feed.
#[tactic(auto, using(crate::proofs::Writing::no_front, crate::proofs::Writing::nothing_written))]
pub fn write_lines<O: Sink>(
    alloc: Global,
    output: &mut O,
    count: u32,
    seed: u64,
) -> Result<(), Stop>
    ensures shows { Shows (causes_text (made count seed)) (O.written output.old) (O.written output.new) result }
    ensures output { IsErrOf result Stop.Output → Rose (O.faults output.old) (O.faults output.new) }
    ensures later { O.faults output.old ≤ O.faults output.new }
{
    let Ok(causes) = make_causes(alloc, count, seed) else {
        return Err(Stop::Memory);
    };
    for cause in causes {
        if let Err(stop) = write_cause(alloc, output, &cause) {
            return Err(stop);
        }
    }
    Ok(())
}
