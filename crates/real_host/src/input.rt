// The standard input beside a link.
use crate::link_over::LinkOver;
use libc::net::{POLLIN, poll};
use libc::types::pollfd;
use std::io;
use std::io::{ErrorKind, Read, Stdin};
use std::os::fd::AsRawFd;

// How many milliseconds a wait for input takes before it looks whether the link is over.
const WAIT_MILLIS: i32 = 200;

/// The standard input, which also ends where a link is over, some tenths of a second later.
#[derive(Drop)]
pub struct Input {
    stream: Stdin,
    link: LinkOver,
}

impl Input {
    /// The standard input beside this link.
    pub fn new(stream: Stdin, link: LinkOver) -> Input {
        Input { stream, link }
    }

    // Waits for input for a while. Whether a read will not wait.
    fn is_ready(&self) -> io::Result<bool> {
        let mut asked = [pollfd {
            fd: self.stream.as_raw_fd(),
            events: POLLIN,
            revents: 0,
        }];
        match poll(&mut asked, WAIT_MILLIS) {
            0 => Ok(false),
            count if count > 0 => Ok(true),
            _ => Err(io::Error::from(ErrorKind::Interrupted)),
        }
    }
}

impl Read for Input {
    fn read(&mut self, buf: &mut [u8]) -> io::Result<usize> {
        for _ in 0..u64::MAX {
            if self.link.is_over() {
                return Ok(0);
            }
            if self.is_ready()? {
                return self.stream.read(buf);
            }
        }
        Err(io::Error::from(ErrorKind::TimedOut))
    }
}
