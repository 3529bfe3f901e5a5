// The host whose sockets' files get their mode before anybody can be let in.
use std::alloc::Allocator;
use std::fs::{File, Files, Metadata, OpenOptions, Permissions};
use std::net::{Net, SocketAddr, TcpListener, TcpStream};
use std::os::fd::{BorrowedFd, OwnedFd};
use std::os::unix::fs::PermissionsExt;
use std::os::unix::net;
use std::{fs, io};

// The mode of a socket's file: its user alone reads and writes it.
const MODE: u32 = 0o600;

/// The host, but that the socket's file at `path` gets its mode between its bind and its listen.
#[derive(Drop)]
pub(crate) struct Guarded<'a> {
    rt: HostRuntime,
    path: &'a str,
}

impl<'a> Guarded<'a> {
    /// For a socket's file at `path`.
    pub(crate) fn new(rt: HostRuntime, path: &'a str) -> Guarded<'a> {
        Guarded { rt, path }
    }
}

impl<'a> Net for Guarded<'a> {
    type Stream = TcpStream;

    type Listener = TcpListener;

    fn bind(&self, addr: SocketAddr) -> io::Result<TcpListener> {
        self.rt.bind(addr)
    }

    fn connect(&self, addr: SocketAddr) -> io::Result<TcpStream> {
        self.rt.connect(addr)
    }

    fn unix_socket(&self) -> io::Result<OwnedFd> {
        self.rt.unix_socket()
    }
}

impl<'a> Files for Guarded<'a> {
    type File = File;

    type Dir = <HostRuntime as Files>::Dir;

    fn bind_unix(&self, socket: BorrowedFd<'_>, addr: &net::SocketAddr) -> io::Result<()> {
        self.rt.bind_unix(socket, addr)?;
        fs::set_permissions(&self.rt, self.path, Permissions::from_mode(MODE))
    }

    fn open_file(&self, how: &OpenOptions, path: &str) -> io::Result<File> {
        self.rt.open_file(how, path)
    }

    fn open_dir(&self, path: &str) -> io::Result<Self::Dir> {
        self.rt.open_dir(path)
    }

    fn metadata(&self, path: &str) -> io::Result<Metadata> {
        self.rt.metadata(path)
    }

    fn symlink_metadata(&self, path: &str) -> io::Result<Metadata> {
        self.rt.symlink_metadata(path)
    }

    fn copy(&self, from: &str, to: &str) -> io::Result<u64> {
        self.rt.copy(from, to)
    }

    fn rename(&self, from: &str, to: &str) -> io::Result<()> {
        self.rt.rename(from, to)
    }

    fn remove_file(&self, path: &str) -> io::Result<()> {
        self.rt.remove_file(path)
    }

    fn create_dir(&self, path: &str) -> io::Result<()> {
        self.rt.create_dir(path)
    }

    fn remove_dir(&self, path: &str) -> io::Result<()> {
        self.rt.remove_dir(path)
    }

    fn remove_dir_all<B: Allocator>(&self, alloc: B, path: &str) -> io::Result<()> {
        self.rt.remove_dir_all(alloc, path)
    }
}
