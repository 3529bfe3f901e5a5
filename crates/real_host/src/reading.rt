// Sources over std's readers. They tell no bytes.
ghost use Rattle.std.specs.Prelude.{◌≡◌, None};
ghost use Rattle.std.specs.Io.{ReadsAtMost};

use crate::link_over::LinkOver;
use outside_io::{ReadFault, Source};
use std::io;
use std::io::{ErrorKind, Read};

// How often a read is made again that a signal ended.
const TRIES: u32 = 64;

// How many reads take what is left of a link that was shut, each of up to 4,096 bytes.
const LEFT_READS: u32 = 1024;

// One read, made again where a signal ended it.
fn read_through<R: Read>(reader: &mut R, buf: &mut [u8]) -> io::Result<usize>
    ensures { ReadsAtMost result buf.new }
{
    for _ in 0..TRIES {
        match reader.read(buf) {
            Err(error) if error.kind() == ErrorKind::Interrupted => {}
            done => return done,
        }
    }
    Err(io::Error::from(ErrorKind::Interrupted))
}

/// A source over a reader. A read that a signal ended is made again.
#[derive(Drop)]
pub struct Reading<R: Read> {
    inner: R,
    // What is told where the reader ends or fails.
    over: Option<LinkOver>,
    faults: u64,
}

impl<R: Read> Reading<R> {
    /// A source over this reader; no read failed yet.
    pub fn new(inner: R) -> Reading<R>
        ensures { ⟦<Reading<R> as Source>⟧.faults result ≡ 0 }
    {
        Reading {
            inner,
            over: None,
            faults: 0,
        }
    }

    /// The same, which tells `over` where the reader ends or fails.
    pub(crate) fn telling(inner: R, over: Option<LinkOver>) -> Reading<R>
        ensures { ⟦<Reading<R> as Source>⟧.faults result ≡ 0 }
    {
        Reading {
            inner,
            over,
            faults: 0,
        }
    }

    fn tell(&self) {
        if let Some(over) = &self.over {
            over.tell();
        }
    }

    /// Takes up to 4 MB of what is left of a link that was shut, at which no read waits.
    pub(crate) fn take_left(&mut self) {
        let mut buf = [0u8; 4096];
        for _ in 0..LEFT_READS {
            match read_through(&mut self.inner, &mut buf) {
                Ok(0) | Err(_) => return,
                Ok(_) => {}
            }
        }
    }
}

impl<R: Read> Source for Reading<R> {
    ghost taken = { λ _. None };

    ghost left = { λ _. None };

    ghost faults = { λ r. r.faults };

    fn read(&mut self, buf: &mut [u8]) -> Result<usize, ReadFault> {
        match read_through(&mut self.inner, buf) {
            Ok(count) => {
                if count == 0 && !buf.is_empty() {
                    self.tell();
                }
                Ok(count)
            }
            Err(_) => {
                self.tell();
                self.faults = self.faults.saturating_add(1);
                Err(ReadFault::Failed)
            }
        }
    }
}
