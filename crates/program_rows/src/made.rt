// Made inputs, counted and written.
use crate::run::fails;
use make_program::{make_command, make_lines_command};
use mux_config::Config;
use mux_steps::MemJournal;
use outside_io::MemSink;
use std::test::Fail;

// Writes what a run wrote, and its status.
fn tell(rt: HostRuntime, name: &str, output: &MemSink, status: u8) -> Result<(), Fail> {
    let text = std::str::from_utf8(output.bytes())?;
    print!(rt; "run {name}\n{text}= status {status}")?;
    Ok(())
}

/// Counts a made input of one draw, over a journal whose append of this number may fail.
pub fn count(rt: HostRuntime, name: &str, append: Option<u64>) -> Result<(), Fail> {
    let alloc = rt.alloc();
    let config = Config::built_in(alloc)?;
    let journal = MemJournal::new(alloc, fails(alloc, append)?);
    let mut output = MemSink::new(alloc, fails(alloc, None)?, None);
    let (journal, status) = make_command(alloc, config, journal, 1, 0, &mut output);
    tell(rt, name, &output, status)?;
    println!(rt; ", {} entries", journal.entries().len())?;
    Ok(())
}

/// Writes a made input of one draw, to an output whose write of this number may fail.
pub fn write(rt: HostRuntime, name: &str, write: Option<u64>) -> Result<(), Fail> {
    let alloc = rt.alloc();
    let mut output = MemSink::new(alloc, fails(alloc, write)?, None);
    let status = make_lines_command(alloc, 1, 0, &mut output);
    tell(rt, name, &output, status)?;
    println!(rt)?;
    Ok(())
}
