// The files of this machine.
ghost use Rattle.std.specs.Prelude.{◌≡◌, ◌≤◌, ℕ, List, length, IfOk, Option, None};
ghost use Rattle.outside_io.specs.Files.{File};

use crate::reason::words_on;
use outside_io::{Folder, FolderFault};
use std::fs::File;
use std::io::{ErrorKind, Read};
use std::{fs, io};

/// The plain files of this machine, each read whole. What is no plain file, as a folder, a pipe or a device, isn't read.
#[derive(Drop)]
pub struct RealFolder {
    rt: HostRuntime,
    faults: u64,
    // The system's words on the last read that failed.
    reason: String,
}

impl RealFolder {
    /// A folder of which no read failed yet.
    pub fn new(rt: HostRuntime) -> RealFolder
        ensures { ⟦<RealFolder as Folder>⟧.faults result ≡ 0 }
    {
        RealFolder {
            rt,
            faults: 0,
            reason: String::new(rt.alloc()),
        }
    }
}

// The bytes of a plain file, at most `most`. No more than `most + 1` are read.
fn read_plain(rt: &HostRuntime, path: &str, most: u64) -> io::Result<Vec<u8>>
    ensures { IfOk result (λ bytes. length bytes.items ≤ most) }
{
    if !fs::metadata(rt, path)?.is_file() {
        return Err(io::Error::from(ErrorKind::InvalidInput));
    }
    let mut bytes = Vec::new(rt.alloc());
    File::open(rt, path)?
        .take(most.saturating_add(1))
        .read_to_end(&mut bytes)?;
    if bytes.len() as u64 > most {
        return Err(io::Error::from(ErrorKind::FileTooLarge));
    }
    Ok(bytes)
}

impl Folder for RealFolder {
    ghost files = { λ _. None };

    ghost faults = { λ f. f.faults };

    fn read(&mut self, path: &str, most: u64) -> Result<Vec<u8>, FolderFault> {
        match read_plain(&self.rt, path, most) {
            Ok(bytes) => Ok(bytes),
            Err(error) if error.kind() == ErrorKind::OutOfMemory => Err(FolderFault::Memory),
            Err(error) => {
                self.faults = self.faults.saturating_add(1);
                self.reason = words_on(self.rt.alloc(), &error);
                Err(FolderFault::Failed)
            }
        }
    }

    fn reason(&self) -> &str {
        self.reason.as_str()
    }
}
