// Notes for the user.
ghost use Rattle.std.specs.Prelude.{None};

use libc::net::{POLLOUT, poll};
use libc::types::pollfd;
use log::kv::Source;
use log::span::Spans;
use log::{LevelFilter, Line, Log, Metadata, Record};
use std::alloc::AllocError;
use std::fmt::Display;
use std::io::Write;
use std::os::fd::AsRawFd;

// The most bytes of a note with its line feed. A pipe that is ready takes so many at once.
const MOST: usize = 4_096;

/// Notes for the user: lines of at most 4,096 bytes on the standard error. A note is dropped where the standard error doesn't
/// take it at once, so none holds up whoever writes it.
#[derive(Clone, Copy, Drop)]
pub struct Notes {
    rt: HostRuntime,
    level: LevelFilter,
}

impl Notes {
    /// Notes up to this level.
    pub fn new(rt: HostRuntime, level: LevelFilter) -> Notes {
        Notes { rt, level }
    }

    // Whether the standard error takes a note now.
    fn is_ready(&self) -> bool {
        let mut asked = [pollfd {
            fd: self.rt.stderr().as_raw_fd(),
            events: POLLOUT,
            revents: 0,
        }];
        poll(&mut asked, 0) > 0 && asked[0].revents == POLLOUT
    }
}

// The line of a record, cut where it is too long, with a line feed.
fn line_of<D: Display, K: Source, S: Spans>(
    rt: HostRuntime,
    record: &Record<'_, D, K, S>,
) -> Result<Vec<u8>, AllocError> {
    let text = format!(in rt.alloc(); "{}", Line::new(record))?;
    let mut line = text.into_bytes();
    line.truncate(MOST - 1);
    line.push(b'\n')?;
    Ok(line)
}

impl Log for Notes {
    fn enabled(&self, metadata: &Metadata<'_>) -> bool {
        self.level.allows(metadata.level())
    }

    fn log<D: Display, K: Source, S: Spans>(&self, record: &Record<'_, D, K, S>) {
        if !self.level.allows(record.level()) || !self.is_ready() {
            return;
        }
        if let Ok(line) = line_of(self.rt, record) {
            let _ = self.rt.stderr().write(line.as_slice());
        }
    }

    fn flush(&self) {}

    fn target(&self) -> &str {
        "lspmux"
    }
}
