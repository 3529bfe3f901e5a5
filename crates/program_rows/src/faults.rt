// An input, with each of its appends, reads and writes failing in turn.
use crate::input::Input;
use crate::run::fails;
use drive_program::drive_command;
use mux_config::Config;
use mux_steps::MemJournal;
use outside_io::{Drip, MemSink, MemSource, Sink, Sip, Source};
use std::alloc::Global;
use std::test::Fail;

// More calls of one kind than a run makes.
const MOST_CALLS: u64 = 100_000;

// Calls of one kind, one of which fails.
#[derive(Clone, Copy, PartialEq, Eq)]
enum Calls {
    Appends,
    Reads,
    Writes,
}

impl Calls {
    // The status of a run in which one of them fails.
    fn status(self) -> u8 {
        match self {
            Calls::Appends => 6,
            Calls::Reads => 7,
            Calls::Writes => 8,
        }
    }

    // The number of the call that fails, where it is one of `other`.
    fn among(self, other: Calls, number: u64) -> Option<u64> {
        if self == other { Some(number) } else { None }
    }
}

// How a run ended, and how many entries were kept.
#[derive(Clone, Copy)]
struct Ended {
    status: u8,
    entries: usize,
}

// How many runs ended by the call that failed, and how many entries were kept in these and in the one behind them, in which none failed.
#[derive(Clone, Copy)]
struct Sums {
    runs: u64,
    entries: usize,
}

fn driven<I: Source + Drop, O: Sink + Drop>(
    alloc: Global,
    append: Option<u64>,
    mut input: I,
    mut output: O,
) -> Result<Ended, Fail> {
    let journal = MemJournal::new(alloc, fails(alloc, append)?);
    let config = Config::built_in(alloc)?;
    let (journal, status) = drive_command(alloc, config, journal, &mut input, &mut output);
    let entries = journal.entries().len();
    Ok(Ended { status, entries })
}

// Runs the command on the input with the call of this number failing, whole pieces or a byte at a time.
fn run_failing(
    alloc: Global,
    input: &Input,
    is_narrow: bool,
    calls: Calls,
    number: u64,
) -> Result<Ended, Fail> {
    let append = calls.among(Calls::Appends, number);
    let bytes = Vec::from_slice(alloc, input.bytes())?;
    let reads = fails(alloc, calls.among(Calls::Reads, number))?;
    let writes = fails(alloc, calls.among(Calls::Writes, number))?;
    let source = MemSource::new(bytes, reads, None);
    let sink = MemSink::new(alloc, writes, None);
    if is_narrow {
        driven(alloc, append, Drip::new(source, 1), Sip::new(sink, 1))
    } else {
        driven(alloc, append, source, sink)
    }
}

// Lets the calls of one kind fail in turn, until none is left.
fn fail_each(alloc: Global, input: &Input, is_narrow: bool, calls: Calls) -> Result<Sums, Fail> {
    let mut entries = 0usize;
    for number in 0..MOST_CALLS {
        let ended = run_failing(alloc, input, is_narrow, calls, number)?;
        entries = entries.saturating_add(ended.entries);
        if ended.status == 0 {
            return Ok(Sums {
                runs: number,
                entries,
            });
        }
        if ended.status != calls.status() {
            return Err(Fail::new("another status than the call's that failed"));
        }
    }
    Err(Fail::new("calls without end"))
}

/// Prints, for each kind of call, how many runs ended by it and how many entries they kept.
pub fn each(rt: HostRuntime, input: &Input) -> Result<(), Fail> {
    let alloc = rt.alloc();
    let name = input.name.as_str();
    let appends = fail_each(alloc, input, false, Calls::Appends)?;
    let reads = fail_each(alloc, input, false, Calls::Reads)?;
    let writes = fail_each(alloc, input, false, Calls::Writes)?;
    println!(rt;
        "each {name}: {} appends {}, {} reads {}, {} writes {}",
        appends.runs, appends.entries, reads.runs, reads.entries, writes.runs, writes.entries
    )?;
    let reads = fail_each(alloc, input, true, Calls::Reads)?;
    let writes = fail_each(alloc, input, true, Calls::Writes)?;
    println!(rt;
        "each {name}, a byte at a time: {} reads {}, {} writes {}",
        reads.runs, reads.entries, writes.runs, writes.entries
    )?;
    Ok(())
}
