// Files, the clock and the standard streams.
use crate::pairs::{dial, holds, next_link, open, quiet, reads, remove, unix};
use outside_io::{Clock, Folder, FolderFault, Sink, Source};
use real_host::{Input, LinkOver, Reading, RealClock, RealDoor, RealFolder, Standard, Writing};
use std::fs;
use std::test::Fail;

pub(crate) fn a_folder(rt: HostRuntime) -> Result<(), Fail> {
    fs::write(&rt, "rows.txt", "text")?;
    let mut folder = RealFolder::new(rt);
    let read = folder.read("rows.txt", 4);
    holds(
        read.is_ok_and(|bytes| bytes.as_slice() == b"text".as_slice()),
        "the file isn't read",
    )?;
    for (path, most) in [
        ("rows.txt", 3),
        ("absent.txt", 9),
        (".", 9),
        ("/dev/null", 9),
    ] {
        let read = folder.read(path, most);
        holds(
            read.is_err_and(|fault| fault == FolderFault::Failed),
            "a file is read that is too long, or is no plain file",
        )?;
    }
    fs::remove_file(&rt, "rows.txt")?;
    Ok(())
}

pub(crate) fn a_clock(rt: HostRuntime) -> Result<(), Fail> {
    let mut clock = RealClock::new(rt)?;
    let moments = (clock.next(), clock.next());
    let (Some(first), Some(second)) = moments else {
        return Err(Fail::new("the clock ended"));
    };
    holds(first >= 1 && second > first, "a moment is too early")
}

// The standard input ends where the link is over, also where it never ends itself.
pub(crate) fn an_input_ends_with_its_link(rt: HostRuntime) -> Result<(), Fail> {
    let place = unix(rt, "input.sock")?;
    let over = LinkOver::new(rt.alloc())?;
    let mut door = RealDoor::new(rt, quiet(rt), Some(over.share()?));
    let mut port = open(rt, &mut door, &place)?;
    let (mut source, _sink) = next_link(&mut dial(&mut door, &place)?)?;
    let (_source, mut sink) = next_link(&mut port)?;
    sink.close();
    holds(reads(&mut source, b""), "the link doesn't end")?;
    let mut input = Reading::new(Input::new(rt.stdin(), over));
    holds(reads(&mut input, b""), "the input doesn't end")?;
    drop(door);
    remove(rt, "input.sock")
}

pub(crate) fn an_output_and_notes(rt: HostRuntime) -> Result<(), Fail> {
    let mut output = Writing::new(rt, Standard::Output(rt.stdout()));
    let mut notes = Writing::new(rt, Standard::Error(rt.stderr()));
    holds(output.write(b"") == Ok(0), "the output failed")?;
    holds(notes.write(b"") == Ok(0), "the notes failed")
}
