// The file of a Unix socket, and the lock beside it.
use crate::guarded::Guarded;
use std::alloc::Global;
use std::fs::{File, Metadata, OpenOptions};
use std::io::ErrorKind;
use std::os::unix::fs::{FileTypeExt, MetadataExt, OpenOptionsExt};
use std::os::unix::net::{UnixListener, UnixStream};
use std::{fs, io};

// The mode of a lock's file: its user alone reads and writes it.
const LOCK_MODE: u32 = 0o600;

/// Which file it is, whatever its name.
#[derive(Clone, Copy, PartialEq, Eq)]
struct FileId {
    device: u64,
    number: u64,
}

fn file_id(rt: &HostRuntime, path: &str) -> io::Result<FileId> {
    let metadata = fs::symlink_metadata(rt, path)?;
    Ok(FileId {
        device: metadata.dev(),
        number: metadata.ino(),
    })
}

// Whether it is a socket's file of this user. At another's a stranger may listen.
fn is_own_socket(metadata: &Metadata) -> bool {
    metadata.file_type().is_socket() && metadata.uid() == libc::geteuid()
}

fn in_use() -> io::Error {
    io::Error::from(ErrorKind::AddrInUse)
}

// Locks the file beside a socket's file; an error where another daemon has the lock. Nobody removes that file: whoever
// opened it before would then hold a lock that the next one doesn't meet.
fn lock(rt: &HostRuntime, alloc: Global, path: &str) -> io::Result<File> {
    let name = format!(in alloc; "{path}.lock")?;
    let file = OpenOptions::new()
        .write(true)
        .create(true)
        .mode(LOCK_MODE)
        .open(rt, name.as_str())?;
    file.try_lock()?;
    Ok(file)
}

// Removes the file of a socket of this user at which nobody listens. Any other file stays, and a socket at which somebody
// does.
fn clear(rt: &HostRuntime, path: &str) -> io::Result<()> {
    match fs::symlink_metadata(rt, path) {
        Ok(metadata) if is_own_socket(&metadata) => {}
        Ok(_) => return Err(in_use()),
        Err(error) if error.kind() == ErrorKind::NotFound => return Ok(()),
        Err(error) => return Err(error),
    }
    match UnixStream::connect(rt, path) {
        Err(error) if error.kind() == ErrorKind::ConnectionRefused => fs::remove_file(rt, path),
        _ => Err(in_use()),
    }
}

/// The place of a socket's file, and the lock beside it, which is held as long as this lives. At its end the file is
/// removed, where it is still the one that was made.
pub(crate) struct SocketFile {
    rt: HostRuntime,
    path: String,
    lock: File,
    made: Option<FileId>,
}

impl SocketFile {
    /// Takes the lock beside `path`, and removes the file of a socket at which nobody listens. An error where another
    /// daemon has the lock, somebody listens, or the file is none of a socket of this user.
    pub(crate) fn claim(rt: HostRuntime, alloc: Global, path: &str) -> io::Result<SocketFile> {
        let lock = lock(&rt, alloc, path)?;
        clear(&rt, path)?;
        Ok(SocketFile {
            rt,
            path: String::from_str(alloc, path)?,
            lock,
            made: None,
        })
    }

    /// Makes the file, which this user alone reads and writes, and listens.
    pub(crate) fn listen(&mut self) -> io::Result<UnixListener> {
        let path = self.path.as_str();
        let listener = UnixListener::bind(&Guarded::new(self.rt, path), path)?;
        self.made = Some(file_id(&self.rt, path)?);
        Ok(listener)
    }
}

impl Drop for SocketFile {
    fn drop(self) {
        let SocketFile {
            rt,
            path,
            lock,
            made,
        } = self;
        if let (Some(made), Ok(now)) = (made, file_id(&rt, path.as_str()))
            && made == now
        {
            let _ = fs::remove_file(&rt, path.as_str());
        }
        drop(lock);
    }
}

/// A link to a socket whose file is this user's own.
pub(crate) fn dial(rt: &HostRuntime, path: &str) -> io::Result<UnixStream> {
    if !is_own_socket(&fs::symlink_metadata(rt, path)?) {
        return Err(io::Error::from(ErrorKind::PermissionDenied));
    }
    UnixStream::connect(rt, path)
}
