// Programs.
use crate::pairs::{ends, holds, passed, quiet, reads, says};
use outside_io::{Berth, Endings, Sink, Source, StartFault, write_whole};
use real_host::{ProgramInput, ProgramOutput, Reading, RealBerth, Writing};
use std::alloc::Global;
use std::fs;
use std::test::Fail;
use std::time::Instant;

type Run = (Reading<ProgramOutput>, Writing<ProgramInput>);

fn words(alloc: Global, all: &[&str]) -> Result<Vec<String>, Fail> {
    let mut words = Vec::new(alloc);
    for word in all {
        words.push(String::from_str(alloc, word)?)?;
    }
    Ok(words)
}

// Starts the program of these words.
fn start(rt: HostRuntime, all: &[&str]) -> Result<Run, Fail> {
    start_in(rt, all, None)
}

// Starts the program of these words in a folder.
fn start_in(rt: HostRuntime, all: &[&str], folder: Option<&str>) -> Result<Run, Fail> {
    let words = words(rt.alloc(), all)?;
    let (mut source, mut sink) = (None, None);
    let mut berth = RealBerth::new(rt, quiet(rt));
    let started = berth.start(words.as_slice(), folder, &mut source, &mut sink);
    match (started, source, sink) {
        (Ok(()), Some(source), Some(sink)) => Ok((source, sink)),
        _ => Err(Fail::new("the program doesn't start")),
    }
}

// Whether the system has the number of a program still, as it has where nobody waited for its end.
fn is_there(rt: HostRuntime, id: u32) -> Result<bool, Fail> {
    let path = format!(in rt.alloc(); "/proc/{id}")?;
    Ok(fs::exists(&rt, path.as_str())?)
}

pub(crate) fn a_program_that_hears_its_end(rt: HostRuntime) -> Result<(), Fail> {
    let (mut inn, mut out) = start(rt, &["cat"])?;
    let id = out.inner().id();
    holds(says(&mut out, &mut inn, b"word"), "no echo")?;
    out.close();
    holds(ends(&mut inn), "its output doesn't end")?;
    holds(!is_there(rt, id)?, "it is there still")
}

// What a program started has the output still, for longer than a test may take.
pub(crate) fn a_program_whose_child_stays(rt: HostRuntime) -> Result<(), Fail> {
    let (mut inn, mut out) = start(rt, &["sh", "-c", "sleep 90 2>/dev/null & exec cat"])?;
    holds(says(&mut out, &mut inn, b"word"), "no echo")?;
    out.close();
    holds(ends(&mut inn), "its output doesn't end")
}

pub(crate) fn a_program_that_ignores_its_end(rt: HostRuntime) -> Result<(), Fail> {
    let (mut inn, mut out) = start(rt, &["sleep", "1000"])?;
    let id = out.inner().id();
    let start = Instant::now(&rt)?;
    out.close();
    holds(ends(&mut inn), "its output doesn't end")?;
    holds(passed(rt, start)? >= 1_900, "it had less than two seconds")?;
    holds(!is_there(rt, id)?, "it is there still")
}

// Whether a long write to a program that reads nothing fails.
fn is_cut_off(rt: HostRuntime, out: &mut Writing<ProgramInput>) -> Result<bool, Fail> {
    let mut bytes = Vec::new(rt.alloc());
    bytes.resize(4_000_000, b'x')?;
    Ok(write_whole(out, bytes.as_slice()).is_err())
}

// A write to it fails once the end of its session was ordered, and a run that nobody ends is gone when it is dropped.
pub(crate) fn a_program_that_reads_nothing(rt: HostRuntime) -> Result<(), Fail> {
    let (inn, mut out) = start(rt, &["sleep", "1000"])?;
    let id = out.inner().id();
    let endings = Endings::new(rt.alloc())?;
    out.heed(endings.of_session(0)?);
    endings.raise_all();
    let start = Instant::now(&rt)?;
    holds(is_cut_off(rt, &mut out)?, "it took all")?;
    holds(passed(rt, start)? >= 1_900, "it was cut off too early")?;
    drop((inn, out));
    holds(!is_there(rt, id)?, "it is there still")
}

// Whether these words start nothing.
fn starts_nothing(berth: &mut RealBerth, words: &[String]) -> bool {
    let (mut source, mut sink) = (None, None);
    berth.start(words, None, &mut source, &mut sink) == Err(StartFault::Failed)
}

pub(crate) fn no_program(rt: HostRuntime) -> Result<(), Fail> {
    let mut berth = RealBerth::new(rt, quiet(rt));
    let absent = words(rt.alloc(), &["no-such-program"])?;
    holds(
        starts_nothing(&mut berth, absent.as_slice()),
        "an absent program started",
    )?;
    holds(!berth.reason().is_empty(), "no reason")?;
    holds(
        starts_nothing(&mut berth, &[]),
        "no words started a program",
    )
}

// A shell that is started isn't the first, so it reads no start file of its own.
pub(crate) fn the_level_of_a_shell(rt: HostRuntime) -> Result<(), Fail> {
    let (mut inn, _out) = start(rt, &["printenv", "SHLVL"])?;
    let mut buf = [0u8; 64];
    let Ok(count) = inn.read(&mut buf) else {
        return Err(Fail::new("a read failed"));
    };
    holds(count >= 2 && buf[0] != b'0', "no level")
}

// A program runs in the folder that is named, or in ours where there is no such folder.
pub(crate) fn the_folder_of_a_program(rt: HostRuntime) -> Result<(), Fail> {
    let (mut inn, _out) = start_in(rt, &["pwd"], Some("/proc"))?;
    holds(reads(&mut inn, b"/proc\n"), "another folder")?;
    let (mut inn, _out) = start_in(rt, &["pwd"], Some("/no-such-folder"))?;
    let mut buf = [0u8; 64];
    holds(inn.read(&mut buf) != Ok(0), "no folder")
}
