//! Starts itself, as the daemon `lspmux` on a socket in its folder, as a small language server, and as what asks the daemon, and
//! speaks with the daemon as two editors. It prints what came.
#![tactic(auto)]

mod daemon;
mod editor;
mod frames;
mod server;

use crate::daemon::{ask, ended, own_path, start, write_settings};
use crate::editor::Editor;
use std::process::ExitCode;
use std::sync::Wait;
use std::test::Fail;
use std::thread::Threads;

// Two editors with a text each, of which one has the server end.
fn two_editors(rt: HostRuntime) -> Result<(Editor, Editor), Fail> {
    let mut first = Editor::link(rt, "first")?;
    first.begin()?;
    first.open("a")?;
    first.hover()?;
    let mut second = Editor::link(rt, "second")?;
    second.begin()?;
    second.open("b")?;
    second.hover()?;
    first.hover()?;
    second.end_server()?;
    second.hover()?;
    first.hover()?;
    Ok((first, second))
}

// An editor on a daemon that has just been started.
fn one_editor(rt: HostRuntime) -> Result<Editor, Fail> {
    let mut third = Editor::link(rt, "third")?;
    third.begin()?;
    third.open("c")?;
    third.hover()?;
    Ok(third)
}

// A daemon is stopped, and one that was killed starts again at once.
fn play(rt: HostRuntime) -> Result<(), Fail> {
    let path = own_path(rt)?;
    let program = path.as_str();
    write_settings(rt, program)?;
    let mut daemon = start(rt, program)?;
    let (mut first, mut second) = two_editors(rt)?;
    ask(rt, program, "status")?;
    ask(rt, program, "stop")?;
    first.closed()?;
    second.closed()?;
    ended(rt, &mut daemon)?;
    let mut killed = start(rt, program)?;
    let mut third = one_editor(rt)?;
    killed.kill()?;
    killed.wait()?;
    third.closed()?;
    let mut last = start(rt, program)?;
    one_editor(rt)?;
    ask(rt, program, "stop")?;
    ended(rt, &mut last)
}

// In the part that the first word names.
fn part<R: Threads + Wait + Sync>(threads: &R, rt: HostRuntime) -> Result<u8, Fail> {
    let words = lspmux_host::words(&rt)?;
    match words.first().map(String::as_str) {
        None => {
            play(rt)?;
            Ok(0)
        }
        Some("server") => {
            server::serve(rt)?;
            Ok(0)
        }
        Some(_) => Ok(lspmux_host::run(threads, rt, words.as_slice())),
    }
}

fn main(rt: HostRuntime) -> Result<ExitCode, Fail> {
    Ok(ExitCode::from(part(&rt, rt)?))
}
