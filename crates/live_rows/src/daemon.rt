// This program, started as the daemon and as what speaks with it.
use std::alloc::Global;
use std::process::{Child, Command, Stdio};
use std::test::Fail;
use std::time::{Duration, Instant};
use std::{fs, thread};

/// The daemon's socket, in the folder in which this program was started.
pub(crate) const SOCKET: &str = "socket";

const SETTINGS: &str = "settings.toml";

// How long a daemon whose servers end has until it is gone behind a stop, in milliseconds.
const STOP_MILLIS: u64 = 4_000;

// Between two looks at it.
const LOOK_MILLIS: u64 = 10;

/// This program's own path.
pub(crate) fn own_path(rt: HostRuntime) -> Result<String, Fail> {
    let Some(path) = std::env::args(&rt)?.next() else {
        return Err(Fail::new("no path of its own"));
    };
    Ok(path)
}

/// Writes the settings: a socket, and as the one server this program.
pub(crate) fn write_settings(rt: HostRuntime, program: &str) -> Result<(), Fail> {
    let text = format!(in rt.alloc();
        "place = \"unix:{SOCKET}\"\n[server.main]\ncommand = [\"{program}\", \"server\"]\n"
    )?;
    fs::write(&rt, SETTINGS, text.as_bytes())?;
    Ok(())
}

// This program with a word of the daemon's.
fn command(alloc: Global, program: &str, word: &str) -> Result<Command, Fail> {
    let mut command = Command::new(alloc, program)?;
    command.arg(word)?;
    command.arg("--config")?;
    command.arg(SETTINGS)?;
    command.stdin(Stdio::null());
    Ok(command)
}

/// Starts the daemon.
pub(crate) fn start(rt: HostRuntime, program: &str) -> Result<Child, Fail> {
    Ok(command(rt.alloc(), program, "serve")?.spawn(&rt)?)
}

/// Asks the daemon, by `status` or `stop`; what it writes stands among what this program writes. Prints the status.
pub(crate) fn ask(rt: HostRuntime, program: &str, word: &str) -> Result<(), Fail> {
    let status = command(rt.alloc(), program, word)?.status(&rt)?;
    println!(rt; "{word} {}", status.code().unwrap_or(-1))?;
    Ok(())
}

// Whether it ends in this time.
fn ends_within(rt: HostRuntime, daemon: &mut Child, millis: u64) -> Result<bool, Fail> {
    let start = Instant::now(&rt)?;
    let most = Duration::from_millis(millis);
    for _ in 0..millis {
        if daemon.try_wait()?.is_some() {
            return Ok(start.elapsed(&rt)? <= most);
        }
        thread::sleep(&rt, Duration::from_millis(LOOK_MILLIS));
    }
    Ok(false)
}

/// Prints whether a daemon that was asked to stop ends in time.
pub(crate) fn ended(rt: HostRuntime, daemon: &mut Child) -> Result<(), Fail> {
    let is_ended = ends_within(rt, daemon, STOP_MILLIS)?;
    let what = if is_ended { "ended" } else { "is there still" };
    println!(rt; "the daemon {what}")?;
    Ok(())
}
