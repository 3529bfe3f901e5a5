// The standard output beside the standard input.
use crate::link_over::LinkOver;
use crate::writing::Channel;
use libc::net::{POLLOUT, poll};
use libc::types::pollfd;
use std::io;
use std::io::{ErrorKind, Stdout, Write};
use std::os::fd::AsRawFd;

// How many milliseconds a write waits until the stream takes something.
const WAIT_MILLIS: i32 = 1_000;

// How many bytes one write gives the system at most. A pipe that is ready takes so many at once.
const PIECE: usize = 4_096;

/// The standard output as half of a link, whose other half is the standard input. Its end ends the link for that one, and
/// leaves the stream open.
#[derive(Drop)]
pub struct Output {
    stream: Stdout,
    link: LinkOver,
}

impl Output {
    /// The standard output of this link.
    pub(crate) fn new(stream: Stdout, link: LinkOver) -> Output {
        Output { stream, link }
    }

    // Waits for a while until the stream takes something.
    fn is_ready(&self) -> io::Result<bool> {
        let mut asked = [pollfd {
            fd: self.stream.as_raw_fd(),
            events: POLLOUT,
            revents: 0,
        }];
        match poll(&mut asked, WAIT_MILLIS) {
            0 => Ok(false),
            count if count > 0 => Ok(true),
            _ => Err(io::Error::from(ErrorKind::Interrupted)),
        }
    }
}

impl Write for Output {
    fn write(&mut self, bytes: &[u8]) -> io::Result<usize> {
        if !self.is_ready()? {
            return Err(io::Error::from(ErrorKind::WouldBlock));
        }
        self.stream.write(&bytes[..bytes.len().min(PIECE)])
    }

    fn flush(&mut self) -> io::Result<()> {
        Ok(())
    }
}

impl Channel for Output {
    fn end(&mut self) {
        self.link.tell();
    }
}
