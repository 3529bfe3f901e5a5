// What a person is told of settings that are refused.
use crate::memory::{After, one, outside, run};
use outside_io::MemSink;
use std::alloc::Global;
use std::sync::Wait;
use std::test::Fail;
use std::thread::Threads;

// Settings that are refused.
const REFUSED: &str = "links = 0
links = 33
groups = 17
restarts = 1001
idle = -1
grace = true
content = 1023
backlog = 1
requests = 2
versions = 1
place = 'here'
default = 'none'
server = 1
server.main = 1
server.main.command = 'words'
server.main.ceiling = '[]'
size = 1
=
";

// What stands behind each of them.
const SERVER: &str = "\n[server.other]\ncommand = ['words']\n";

fn text_of(sink: &MemSink) -> Result<&str, Fail> {
    Ok(std::str::from_utf8(sink.bytes())?)
}

fn show(rt: HostRuntime, left: &After) -> Result<(), Fail> {
    print!(rt;
        "{} {}{}",
        left.status,
        text_of(&left.output)?,
        text_of(&left.notes)?
    )?;
    Ok(())
}

// The settings in a file: this line, and a server.
fn file_of(alloc: Global, line: &str) -> Result<(String, Vec<u8>), Fail> {
    let mut bytes = line.as_bytes().to_vec(alloc)?;
    bytes.extend_from_slice(SERVER.as_bytes())?;
    Ok((String::from_str(alloc, "lspmux.toml")?, bytes))
}

fn ask<R: Threads + Wait + Sync>(
    threads: &R,
    rt: HostRuntime,
    file: (String, Vec<u8>),
) -> Result<(), Fail> {
    let alloc = rt.alloc();
    let outside = outside(alloc, Vec::new(alloc), Vec::new(alloc), one(alloc, file)?);
    let left = run(
        threads,
        alloc,
        &["status", "--config", "lspmux.toml"],
        outside,
    )?;
    show(rt, &left)
}

/// Prints the status, the fault line and the note of each.
pub(crate) fn play<R: Threads + Wait + Sync>(threads: &R, rt: HostRuntime) -> Result<(), Fail> {
    for line in REFUSED.lines() {
        ask(threads, rt, file_of(rt.alloc(), line)?)?;
    }
    let unnamed = (
        String::from_str(rt.alloc(), "another")?,
        Vec::new(rt.alloc()),
    );
    ask(threads, rt, unnamed)
}
