// One end of a link over a socket.
use crate::writing::Channel;
use std::io;
use std::io::{Read, Write};
use std::net::{Shutdown, TcpStream};
use std::os::unix::net::UnixStream;
use std::time::Duration;

// How many seconds a write waits until the peer takes something.
const WRITE_SECONDS: u64 = 1;

/// One end of a Unix or a TCP stream. Its copies are ends of the same stream.
#[derive(Drop)]
pub enum Wire {
    Unix(UnixStream),
    Tcp(TcpStream),
}

impl Wire {
    /// Another end of the same stream.
    pub(crate) fn share(&self) -> io::Result<Wire> {
        match self {
            Wire::Unix(stream) => Ok(Wire::Unix(stream.try_clone()?)),
            Wire::Tcp(stream) => Ok(Wire::Tcp(stream.try_clone()?)),
        }
    }

    /// Reads wait without a limit, and a write that can send nothing fails after a second.
    pub(crate) fn set_limits(&self) -> io::Result<()> {
        let limit = Some(Duration::from_secs(WRITE_SECONDS));
        match self {
            Wire::Unix(stream) => {
                stream.set_read_timeout(None)?;
                stream.set_write_timeout(limit)
            }
            Wire::Tcp(stream) => {
                stream.set_nodelay(true)?;
                stream.set_read_timeout(None)?;
                stream.set_write_timeout(limit)
            }
        }
    }

    fn shut(&self) -> io::Result<()> {
        match self {
            Wire::Unix(stream) => stream.shutdown(Shutdown::Both),
            Wire::Tcp(stream) => stream.shutdown(Shutdown::Both),
        }
    }
}

impl Read for Wire {
    fn read(&mut self, buf: &mut [u8]) -> io::Result<usize> {
        match self {
            Wire::Unix(stream) => stream.read(buf),
            Wire::Tcp(stream) => stream.read(buf),
        }
    }
}

impl Write for Wire {
    fn write(&mut self, bytes: &[u8]) -> io::Result<usize> {
        match self {
            Wire::Unix(stream) => stream.write(bytes),
            Wire::Tcp(stream) => stream.write(bytes),
        }
    }

    fn flush(&mut self) -> io::Result<()> {
        Ok(())
    }
}

// Both directions end, for all ends of the stream: a read that waits at another of them gives what came before, and then
// the end. Where the peer went first there is nothing to shut.
impl Channel for Wire {
    fn end(&mut self) {
        let _ = self.shut();
    }
}
