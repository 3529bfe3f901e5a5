// The halves of a link: those of a socket, or the standard input and output.
use crate::input::Input;
use crate::output::Output;
use crate::wire::Wire;
use crate::writing::Channel;
use std::io;
use std::io::{Read, Write};

/// What a link is read by.
#[derive(Drop)]
pub enum LinkInput {
    Socket(Wire),
    Standard(Input),
}

impl Read for LinkInput {
    fn read(&mut self, buf: &mut [u8]) -> io::Result<usize> {
        match self {
            LinkInput::Socket(wire) => wire.read(buf),
            LinkInput::Standard(input) => input.read(buf),
        }
    }
}

/// What a link is written by.
#[derive(Drop)]
pub enum LinkOutput {
    Socket(Wire),
    Standard(Output),
}

impl Write for LinkOutput {
    fn write(&mut self, bytes: &[u8]) -> io::Result<usize> {
        match self {
            LinkOutput::Socket(wire) => wire.write(bytes),
            LinkOutput::Standard(output) => output.write(bytes),
        }
    }

    fn flush(&mut self) -> io::Result<()> {
        Ok(())
    }
}

impl Channel for LinkOutput {
    fn end(&mut self) {
        match self {
            LinkOutput::Socket(wire) => wire.end(),
            LinkOutput::Standard(output) => output.end(),
        }
    }
}
