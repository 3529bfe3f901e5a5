// The program over an outside in memory.
ghost use Rattle.std.specs.Prelude.{[]};
ghost use Rattle.mux_hub.specs.Hubs.{Tells};

use lspmux_program::{Left, Outside, lspmux};
use mux_steps::{Journal, MemJournal};
use outside_io::{MemBerth, MemDoor, MemFolder, MemPort, MemSink, MemSource, SetClock};
use std::alloc::Global;
use std::sync::Wait;
use std::test::Fail;
use std::thread::Threads;

pub(crate) type Memory = Outside<
    MemDoor,
    MemBerth,
    SetClock,
    MemJournal,
    MemFolder,
    MemSource,
    MemSink,
    MemSink,
>;

pub(crate) type After = Left<
    MemDoor,
    MemPort,
    MemBerth,
    SetClock,
    MemJournal,
    MemFolder,
    MemSource,
    MemSink,
    MemSink,
>;

/// A list of this one.
pub(crate) fn one<T: Drop>(alloc: Global, item: T) -> Result<Vec<T>, Fail> {
    let mut all = Vec::new(alloc);
    all.push(item)?;
    Ok(all)
}

/// An outside with these ports, berths and files, whose streams are empty.
pub(crate) fn outside(
    alloc: Global,
    ports: Vec<MemPort>,
    berths: Vec<MemBerth>,
    files: Vec<(String, Vec<u8>)>,
) -> Memory
    ensures { Tells (⟦<MemJournal as Journal>⟧.told result.journal) [] }
{
    Outside {
        door: MemDoor::new(alloc, ports, Vec::new(alloc)),
        berths,
        clock: SetClock::new(Vec::new(alloc)),
        journal: MemJournal::new(alloc, Vec::new(alloc)),
        folder: MemFolder::new(files),
        input: MemSource::new(Vec::new(alloc), Vec::new(alloc), None),
        output: MemSink::new(alloc, Vec::new(alloc), None),
        notes: MemSink::new(alloc, Vec::new(alloc), None),
    }
}

fn texts_of(alloc: Global, words: &[&str]) -> Result<Vec<String>, Fail> {
    let mut texts = Vec::new(alloc);
    for word in words {
        texts.push(String::from_str(alloc, *word)?)?;
    }
    Ok(texts)
}

/// Runs these words there.
pub(crate) fn run<R: Threads + Wait + Sync>(
    threads: &R,
    alloc: Global,
    words: &[&str],
    outside: Memory,
) -> Result<After, Fail>
    requires { Tells (⟦<MemJournal as Journal>⟧.told outside.journal) [] }
{
    let texts = texts_of(alloc, words)?;
    Ok(lspmux(threads, alloc, texts.as_slice(), outside))
}
