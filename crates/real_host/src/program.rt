// A program that runs, and its streams.
use crate::writing::Channel;
use std::alloc::Global;
use std::env::{Env, FillError};
use std::io::{ErrorKind, Read, Write};
use std::net::Shutdown;
use std::os::fd::OwnedFd;
use std::os::unix::net::UnixStream;
use std::process::{Child, Command, Stdio};
use std::time::Duration;
use std::{fs, io, thread};

// How many seconds a write waits until the program takes something.
const WRITE_SECONDS: u64 = 1;

// How often a program is asked whether it has ended by itself, and how many milliseconds lie between: two seconds in all.
const LOOKS: u32 = 100;

const LOOK_MILLIS: u64 = 20;

// Where shells count how deep they lie in one another.
const SHELL_LEVEL: &str = "SHLVL";

/// What a program writes.
#[derive(Drop)]
pub struct ProgramOutput {
    stream: UnixStream,
}

impl Read for ProgramOutput {
    fn read(&mut self, buf: &mut [u8]) -> io::Result<usize> {
        self.stream.read(buf)
    }
}

/// A program, and what it reads.
///
/// Its end closes what it reads, gives the program two seconds and then kills it. Then the output has an end too, also where
/// a program that this one started has it still. A program whose input is dropped without an end is killed at once.
pub struct ProgramInput {
    rt: HostRuntime,
    child: Child,
    stream: UnixStream,
    // Another end of its output.
    output: UnixStream,
    is_ended: bool,
}

impl ProgramInput {
    /// The program's number.
    pub fn id(&self) -> u32 {
        self.child.id()
    }

    // Whether the program has ended by itself. One that can't be asked has.
    fn has_ended(&mut self) -> bool {
        !matches!(self.child.try_wait(), Ok(None))
    }

    // Waits until the program has ended, for two seconds at most.
    fn ends_itself(&mut self) -> bool {
        for _ in 0..LOOKS {
            if self.has_ended() {
                return true;
            }
            thread::sleep(&self.rt, Duration::from_millis(LOOK_MILLIS));
        }
        self.has_ended()
    }
}

// A program that nobody ended is killed at once.
impl Drop for ProgramInput {
    fn drop(self) {
        let ProgramInput {
            rt: _,
            child,
            stream,
            output,
            is_ended,
        } = self;
        let mut child = child;
        if !is_ended {
            let _ = child.kill();
            let _ = child.wait();
        }
        drop(stream);
        drop(output);
    }
}

impl Write for ProgramInput {
    fn write(&mut self, bytes: &[u8]) -> io::Result<usize> {
        self.stream.write(bytes)
    }

    fn flush(&mut self) -> io::Result<()> {
        Ok(())
    }
}

impl Channel for ProgramInput {
    fn end(&mut self) {
        if self.is_ended {
            return;
        }
        self.is_ended = true;
        let _ = self.stream.shutdown(Shutdown::Both);
        if !self.ends_itself() {
            let _ = self.child.kill();
            let _ = self.child.wait();
        }
        let _ = self.output.shutdown(Shutdown::Both);
    }
}

// A pair of streams: ours, and the program's.
fn pair(rt: &HostRuntime) -> io::Result<(UnixStream, Stdio)> {
    let (ours, theirs) = UnixStream::pair(rt)?;
    Ok((ours, Stdio::from(OwnedFd::from(theirs))))
}

// Whether a shell that is started would take itself for the first. It then reads a start file of its own where its input is
// a socket, and what that file prints would stand before the program's first byte.
fn lacks_shell_level(rt: &HostRuntime) -> bool {
    let mut level = [0u8; 2];
    match rt.var(SHELL_LEVEL, &mut level) {
        Ok(count) => matches!(&level[..count], b"" | b"0"),
        Err(FillError::NotPresent) => true,
        Err(FillError::TooLong) => false,
    }
}

// Whether there is a folder of this path.
fn is_folder(rt: &HostRuntime, path: &str) -> bool {
    match fs::metadata(rt, path) {
        Ok(found) => found.is_dir(),
        Err(_) => false,
    }
}

// The command of these words, which runs in this folder, or in this program's where it is none, and reads and writes these
// streams. What it writes to the standard error goes where this program's does.
fn command(
    rt: &HostRuntime,
    alloc: Global,
    words: &[String],
    folder: Option<&str>,
    input: Stdio,
    output: Stdio,
) -> io::Result<Command> {
    let Some((program, arguments)) = words.split_first() else {
        return Err(io::Error::from(ErrorKind::InvalidInput));
    };
    let mut command = Command::new(alloc, program.as_str())?;
    for argument in arguments {
        command.arg(argument.as_str())?;
    }
    if lacks_shell_level(rt) {
        command.env(SHELL_LEVEL, "1")?;
    }
    if let Some(path) = folder
        && is_folder(rt, path)
    {
        command.current_dir(path)?;
    }
    command.stdin(input);
    command.stdout(output);
    Ok(command)
}

/// Starts the program of these words in a folder, or in this program's where there is no such folder. Its streams are
/// pairs of sockets: these have limits on writes and can be shut under whoever reads them, which pipes have not.
pub(crate) fn start(
    rt: &HostRuntime,
    alloc: Global,
    words: &[String],
    folder: Option<&str>,
) -> io::Result<(ProgramOutput, ProgramInput)> {
    let (input, theirs_in) = pair(rt)?;
    let (output, theirs_out) = pair(rt)?;
    input.set_write_timeout(Some(Duration::from_secs(WRITE_SECONDS)))?;
    let other = output.try_clone()?;
    let mut command = command(rt, alloc, words, folder, theirs_in, theirs_out)?;
    let child = command.spawn(rt)?;
    Ok((
        ProgramOutput { stream: output },
        ProgramInput {
            rt: *rt,
            child,
            stream: input,
            output: other,
            is_ended: false,
        },
    ))
}
