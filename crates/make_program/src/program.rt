// The command `make`.
ghost use Rattle.std.specs.Prelude.{◌≡◌, ◌⊎◌, ◌≤◌, [], IsErrOf, Ok};
ghost use Rattle.drive_text.specs.Made.{made};
ghost use Rattle.mux_hub.specs.Hubs.{Tells};
ghost use Rattle.outside_io.specs.Faults.{Rose};
ghost use Rattle.settled_hub.specs.Settings.{hub_settings};
ghost use Rattle.make_program.specs.Counts.{summary_line};
ghost use Rattle.make_program.specs.Program.{Made, Ran, Undisturbed};
ghost use Rattle.make_program.specs.Shown.{Shown, Shows, causes_text};

use crate::causes::drive_made;
use crate::counts::Counts;
use crate::lines::write_lines;
use crate::shown::{finish, write_text};
use drive_program::{Stop, report};
use mux_config::Config;
use mux_steps::Journal;
use outside_io::Sink;
use settled_hub::{Settled, hub_of};
use std::alloc::Global;

// Drives one hub by these settings over the made input, behind the journal, which comes back.
fn run<J: Journal + Drop>(
    alloc: Global,
    config: Config,
    journal: J,
    count: u32,
    seed: u64,
) -> (J, Result<Counts, Stop>)
    requires { Tells (J.told journal) [] }
    ensures ran { Ran J.told (hub_settings config) result.0 (made count seed) result.1 }
    ensures journal { IsErrOf result.1 Stop.Journal → Rose (J.faults journal) (J.faults result.0) }
{
    let settled = match hub_of(alloc, config, journal) {
        Ok(settled) => settled,
        Err(journal) => return (journal, Err(Stop::Memory)),
    };
    let Settled {
        mut hub,
        content: _,
        commands: _,
    } = settled;
    let result = drive_made(alloc, &mut hub, count, seed);
    hub.sessions_law();
    (hub.close(), result)
}

#[tactic(auto, using(crate::proofs::Writing::no_front))]
fn write_counts<O: Sink>(alloc: Global, output: &mut O, counts: Counts) -> Result<(), Stop>
    ensures shows { Shows (summary_line counts) (O.written output.old) (O.written output.new) result }
    ensures output { IsErrOf result Stop.Output → Rose (O.faults output.old) (O.faults output.new) }
    ensures later { O.faults output.old ≤ O.faults output.new }
{
    let Ok(line) = counts.line(alloc) else {
        return Err(Stop::Memory);
    };
    write_text(output, line.as_bytes())
}

// Writes the line of the counts, and gives the status.
fn show<O: Sink>(alloc: Global, output: &mut O, counts: Counts) -> u8
    ensures { Shown (summary_line counts) (O.written output.old) (O.written output.new) (Rose (O.faults output.old) (O.faults output.new)) result }
{
    let ended = write_counts(alloc, output, counts);
    finish(alloc, output, ended)
}

/// Drives one hub by these settings over the made input with `count` turns, drawn from `seed`, and writes the line of what its
/// history counts. The journal that is handed in comes back, and the status: 0, or that of a stop, whose fault line was written
/// (`Stop`).
pub fn make_command<J: Journal + Drop, O: Sink>(
    alloc: Global,
    config: Config,
    journal: J,
    count: u32,
    seed: u64,
    output: &mut O,
) -> (J, u8)
    requires { Tells (J.told journal) [] }
    ensures made { Made J.told (hub_settings config) result.0 (made count seed) (O.written output.old) (O.written output.new)
        (Rose (O.faults output.old) (O.faults output.new)) result.1 }
    ensures journal_only { result.1 ≡ 6 → Rose (J.faults journal) (J.faults result.0) }
    ensures complete { Undisturbed (hub_settings config) (made count seed) (Rose (J.faults journal) (J.faults result.0))
        (Rose (O.faults output.old) (O.faults output.new)) → (result.1 ≡ 0) ⊎ (result.1 ≡ 5) }
{
    let (journal, counted) = run(alloc, config, journal, count, seed);
    match counted {
        Ok(counts) => (journal, show(alloc, output, counts)),
        Err(stop) => (journal, report(alloc, output, stop)),
    }
}

/// Writes the lines of the made input with `count` turns, drawn from `seed`, and gives the status: 0, or 5 where memory was wanted
/// and 8 where the output failed, without a line.
pub fn make_lines_command<O: Sink>(alloc: Global, count: u32, seed: u64, output: &mut O) -> u8
    ensures { Shown (causes_text (made count seed)) (O.written output.old) (O.written output.new)
        (Rose (O.faults output.old) (O.faults output.new)) result }
{
    let ended = write_lines(alloc, output, count, seed);
    finish(alloc, output, ended)
}
