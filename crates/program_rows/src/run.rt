// The command is run on an input.
ghost use Rattle.std.specs.Prelude.{[]};
ghost use Rattle.mux_hub.specs.Hubs.{Tells};

use crate::input::{Input, letters};
use drive_program::drive_command;
use mux_config::Config;
use mux_steps::{DropJournal, Journal, MemJournal};
use outside_io::{MemSink, MemSource};
use std::alloc::{AllocError, Global};
use std::test::Fail;

// A run: the journal, the status, and what was written.
#[derive(Drop)]
struct Ran<J> {
    journal: J,
    status: u8,
    output: MemSink,
}

/// The number of a call that fails, as a list.
pub fn fails(alloc: Global, call: Option<u64>) -> Result<Vec<u64>, AllocError> {
    let mut fails = Vec::new(alloc);
    if let Some(number) = call {
        fails.push(number)?;
    }
    Ok(fails)
}

// Runs the command by the built-in settings.
fn driven<J: Journal + Drop>(alloc: Global, journal: J, input: &Input) -> Result<Ran<J>, Fail>
    requires { Tells (J.told journal) [] }
{
    let config = Config::built_in(alloc)?;
    let bytes = Vec::from_slice(alloc, input.bytes())?;
    let mut source = MemSource::new(bytes, fails(alloc, input.read)?, None);
    let mut output = MemSink::new(alloc, fails(alloc, input.write)?, None);
    let (journal, status) = drive_command(alloc, config, journal, &mut source, &mut output);
    Ok(Ran {
        journal,
        status,
        output,
    })
}

// Runs it over a journal that keeps its entries.
fn kept(alloc: Global, input: &Input) -> Result<Ran<MemJournal>, Fail> {
    let journal = MemJournal::new(alloc, fails(alloc, input.append)?);
    driven(alloc, journal, input)
}

// Whether a journal that drops its entries makes no difference.
fn is_same(alloc: Global, input: &Input, ran: &Ran<MemJournal>) -> Result<bool, Fail> {
    if input.append.is_some() {
        return Ok(true);
    }
    let dropped = driven(alloc, DropJournal::new(), input)?;
    Ok(dropped.status == ran.status && dropped.output.bytes() == ran.output.bytes())
}

// Writes what a run wrote, its status, and how many entries were kept.
fn tell(rt: HostRuntime, name: &str, ran: &Ran<MemJournal>) -> Result<(), Fail> {
    let Ok(outs) = str::from_utf8(ran.output.bytes()) else {
        return Err(Fail::new("outs that are no text"));
    };
    let letters = letters(rt.alloc())?;
    let outs = outs.replace(rt.alloc(), letters.as_str(), "LETTERS")?;
    let entries = ran.journal.entries().len();
    print!(rt;
        "run {name}\n{}= status {}, {entries} entries\n",
        outs.as_str(),
        ran.status
    )?;
    Ok(())
}

/// Runs the command on an input over both journals.
pub fn run(rt: HostRuntime, input: &Input) -> Result<(), Fail> {
    let ran = kept(rt.alloc(), input)?;
    if !is_same(rt.alloc(), input, &ran)? {
        return Err(Fail::new("over another journal it differs"));
    }
    tell(rt, input.name.as_str(), &ran)
}
