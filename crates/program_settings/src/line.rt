// Fault lines on the output.
ghost use Rattle.std.specs.Prelude.{◌≡◌, ◌≤◌};
ghost use Rattle.outside_io.specs.Faults.{Rose};
ghost use Rattle.program_settings.specs.Lines.{Reported, Wrote, line_of, settings_status};

use crate::fault::SettingsFault;
use outside_io::{Sink, write_whole};
use std::alloc::Global;

/// Writes a fault line. Its own fault changes no status.
pub fn write_line<O: Sink>(output: &mut O, line: &[u8])
    ensures wrote { Wrote (O.written output.old) (O.written output.new) line.now (Rose (O.faults output.old) (O.faults output.new)) }
    ensures later { O.faults output.old ≤ O.faults output.new }
{
    let _ = write_whole(output, line);
}

fn status(fault: &SettingsFault) -> u8
    ensures { result ≡ settings_status fault.now }
{
    match fault {
        SettingsFault::Memory => 5,
        _ => 3,
    }
}

/// Writes the fault line of refused settings and gives the status: 3, or 5 where memory was wanted, also for the line.
pub fn refuse<O: Sink>(alloc: Global, output: &mut O, fault: &SettingsFault) -> u8
    ensures reported { Reported result (settings_status fault.now) (O.written output.old) (O.written output.new) (line_of fault.now) (Rose (O.faults output.old) (O.faults output.new)) }
    ensures later { O.faults output.old ≤ O.faults output.new }
{
    let Ok(text) = fault.line(alloc) else {
        return 5;
    };
    write_line(output, text.as_bytes());
    status(fault)
}
