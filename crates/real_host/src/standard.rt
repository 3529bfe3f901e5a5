// The standard output and error as one type.
use crate::writing::Channel;
use std::io;
use std::io::{Stderr, Stdout, Write};

/// The standard output, or the standard error. Neither is buffered, and its end leaves the stream open.
#[derive(Drop)]
pub enum Standard {
    Output(Stdout),
    Error(Stderr),
}

impl Write for Standard {
    fn write(&mut self, bytes: &[u8]) -> io::Result<usize> {
        match self {
            Standard::Output(stream) => stream.write(bytes),
            Standard::Error(stream) => stream.write(bytes),
        }
    }

    fn flush(&mut self) -> io::Result<()> {
        Ok(())
    }
}

// What was written went out at once.
impl Channel for Standard {
    fn end(&mut self) {}
}
