// Sinks over std's writers. They tell no bytes.
ghost use Rattle.std.specs.Prelude.{◌≡◌, ◌≤◌, IfOk, None};
ghost use Rattle.std.specs.Io.{WritesAtMost};

use crate::link_over::LinkOver;
use crate::patience::Patience;
use outside_io::{Ending, Sink, WriteFault};
use std::io;
use std::io::{ErrorKind, Write};

// How many bytes one write gives the system at most.
const PIECE: usize = 65_536;

/// What is written to, and how it is ended.
///
/// A write to it that can send nothing may fail with `WouldBlock` or `TimedOut` after a while; it is then made again.
pub trait Channel: Write {
    /// Ends it; later writes may fail. A second call does nothing.
    fn end(&mut self);
}

// One write of at most 65,536 bytes, made again where a signal or its limit ended it, until the patience is over.
fn write_through<W: Write>(
    writer: &mut W,
    patience: &mut Patience,
    bytes: &[u8],
) -> io::Result<usize>
    ensures bound { WritesAtMost result bytes.now }
    ensures piece { IfOk result (λ n. n ≤ 65_536) }
{
    let piece = &bytes[..bytes.len().min(PIECE)];
    for _ in 0..u64::MAX {
        if patience.is_over() {
            break;
        }
        match writer.write(piece) {
            Err(error) if error.kind() == ErrorKind::Interrupted => {}
            Err(error) if is_limit(error.kind()) => patience.pause(),
            done => return done,
        }
    }
    Err(io::Error::from(ErrorKind::TimedOut))
}

// Whether a write sent nothing, because its limit came.
fn is_limit(kind: ErrorKind) -> bool {
    matches!(kind, ErrorKind::WouldBlock | ErrorKind::TimedOut)
}

/// A sink over a channel.
///
/// A write gives the system at most 65,536 bytes. One whose peer takes nothing waits, however long, as long as the session
/// goes on that the sink heeds; once the sink saw that its end was ordered, each write fails from two seconds on. A sink
/// that heeds no session waits on.
#[derive(Drop)]
pub struct Writing<W: Channel> {
    inner: W,
    patience: Patience,
    // What is told where a write fails.
    over: Option<LinkOver>,
    faults: u64,
}

impl<W: Channel> Writing<W> {
    /// A sink over this channel; no write failed yet.
    pub fn new(rt: HostRuntime, inner: W) -> Writing<W>
        ensures { ⟦<Writing<W> as Sink>⟧.faults result ≡ 0 }
    {
        Writing {
            inner,
            patience: Patience::endless(rt),
            over: None,
            faults: 0,
        }
    }

    /// The same, which tells `over` where a write fails.
    pub fn telling(rt: HostRuntime, inner: W, over: LinkOver) -> Writing<W>
        ensures { ⟦<Writing<W> as Sink>⟧.faults result ≡ 0 }
    {
        Writing {
            inner,
            patience: Patience::endless(rt),
            over: Some(over),
            faults: 0,
        }
    }

    /// The channel.
    pub fn inner(&self) -> &W {
        &self.inner
    }
}

impl<W: Channel> Sink for Writing<W> {
    ghost written = { λ _. None };

    ghost faults = { λ w. w.faults };

    fn heed(&mut self, ending: Ending) {
        self.patience.heed(ending);
    }

    fn write(&mut self, bytes: &[u8]) -> Result<usize, WriteFault> {
        match write_through(&mut self.inner, &mut self.patience, bytes) {
            Ok(count) if count > 0 || bytes.is_empty() => Ok(count),
            _ => {
                if let Some(over) = &self.over {
                    over.tell();
                }
                self.faults = self.faults.saturating_add(1);
                Err(WriteFault::Failed)
            }
        }
    }

    fn close(&mut self) {
        self.inner.end();
    }
}
