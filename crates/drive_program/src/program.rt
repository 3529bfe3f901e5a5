// The command `drive`.
ghost use Rattle.std.specs.Prelude.{◌≡◌, ℕ, ◌≤◌, [], ◌⊎◌, OnOk, IsErrOf, IfSome};
ghost use Rattle.outside_io.specs.Faults.{Rose};
ghost use Rattle.mux_hub.specs.Hubs.{HubView, HubStands, Tells};
ghost use Rattle.settled_hub.specs.Settings.{hub_settings};
ghost use Rattle.drive_program.specs.Program.{Ran, Drove, IsStatus, Undisturbed};

use crate::all_lines::drive;
use crate::reports::report;
use crate::stop::Stop;
use mux_config::Config;
use mux_steps::Journal;
use outside_io::{Sink, Source};
use settled_hub::{Settled, hub_of};
use std::alloc::Global;

// Drives one hub over the journal, which comes back.
fn run<J: Journal + Drop, I: Source, O: Sink>(
    alloc: Global,
    config: Config,
    journal: J,
    input: &mut I,
    output: &mut O,
) -> (J, Result<(), Stop>)
    requires { Tells (J.told journal) [] }
    ensures ran { Ran J.told config.content (hub_settings config) result.0 (I.left input.old) (I.left input.new) (O.written output.old) (O.written output.new) result.1 }
    ensures end { OnOk result.1 (IfSome (I.left input.new) (λ bytes. bytes ≡ [])) }
    ensures journal { IsErrOf result.1 Stop.Journal → Rose (J.faults journal) (J.faults result.0) }
    ensures input { IsErrOf result.1 Stop.Input → Rose (I.faults input.old) (I.faults input.new) }
    ensures output { IsErrOf result.1 Stop.Output → Rose (O.faults output.old) (O.faults output.new) }
    ensures output_later { O.faults output.old ≤ O.faults output.new }
{
    let settled = match hub_of(alloc, config, journal) {
        Ok(settled) => settled,
        Err(journal) => return (journal, Err(Stop::Memory)),
    };
    let Settled {
        mut hub,
        content,
        commands: _,
    } = settled;
    let result = drive(alloc, &mut hub, content, input, output);
    hub.sessions_law();
    (hub.close(), result)
}

/// Reads cause lines from the input, steps one hub by these settings, and writes out lines to the output. The journal that is
/// handed in comes back, and the status: 0 at the end of the input, or that of a stop, whose fault line was written (`Stop`).
pub fn drive_command<J: Journal + Drop, I: Source, O: Sink>(
    alloc: Global,
    config: Config,
    journal: J,
    input: &mut I,
    output: &mut O,
) -> (J, u8)
    requires { Tells (J.told journal) [] }
    ensures drove { Drove J.told config.content (hub_settings config) result.0 (I.left input.old) (I.left input.new) (O.written output.old)
        (O.written output.new) (Rose (O.faults output.old) (O.faults output.new)) result.1 }
    ensures read_to_the_end { result.1 ≡ 0 → IfSome (I.left input.new) (λ bytes. bytes ≡ []) }
    ensures journal_only { result.1 ≡ 6 → Rose (J.faults journal) (J.faults result.0) }
    ensures input_only { result.1 ≡ 7 → Rose (I.faults input.old) (I.faults input.new) }
    ensures output_only { result.1 ≡ 8 → Rose (O.faults output.old) (O.faults output.new) }
    ensures answers { IsStatus result.1 }
    ensures complete { Undisturbed config.content (hub_settings config) (I.left input.old) (Rose (J.faults journal) (J.faults result.0))
        (Rose (I.faults input.old) (I.faults input.new)) (Rose (O.faults output.old) (O.faults output.new)) → (result.1 ≡ 0) ⊎ (result.1 ≡ 5) }
{
    let (journal, result) = run(alloc, config, journal, input, output);
    match result {
        Ok(()) => (journal, 0),
        Err(stop) => (journal, report(alloc, output, stop)),
    }
}
