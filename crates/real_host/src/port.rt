// A port over sockets.
ghost use Rattle.std.specs.Prelude.{◌≡◌, ◌+◌, ◌≤◌, ℕ, OnErr, Option, None};
ghost use Rattle.outside_io.specs.Sessions.{Session};

use crate::halves::{LinkInput, LinkOutput};
use crate::input::Input;
use crate::link_over::LinkOver;
use crate::listener::Listener;
use crate::notes::Notes;
use crate::output::Output;
use crate::reading::Reading;
use crate::wire::Wire;
use crate::writing::Writing;
use log::{info, warn};
use outside_io::{Arrival, Port, Sink};
use std::time::Duration;
use std::{io, thread};

// How many milliseconds an accept that failed waits.
const PAUSE_MILLIS: u64 = 100;

/// Where a port's links come from.
#[derive(Drop)]
enum Supply {
    // A listener, which it shares with other ports.
    Listener(Listener),
    // The one link that was dialled, until it is given.
    Dialled(Option<Wire>, Option<LinkOver>),
    // The one link of the standard input and output, until it is given: whether it is over.
    Streams(Option<LinkOver>),
}

/// A port over a listener that it shares with other ports, over a link that was dialled, or over the standard input and
/// output.
///
/// An accept at a listener waits for 0.2 seconds and then answers `Nobody`. One that fails raises the count, pauses for 0.1
/// seconds and answers `Nobody` too, since the next may find descriptors free. Behind the one link that was dialled,
/// and behind that of the standard input and output, it answers `Closed`.
///
/// A link that is handed back is shut, and what its peer wrote is taken off it, up to 4 MB: where bytes were left unread, the
/// system would have the peer's reads fail behind what was written to it, and not end.
#[derive(Drop)]
pub struct RealPort {
    rt: HostRuntime,
    supply: Supply,
    notes: Notes,
    // The last accept failed, and it was noted.
    is_failing: bool,
    held: u64,
    faults: u64,
}

/// The two halves of a link.
type Halves = (Reading<LinkInput>, Writing<LinkOutput>);

// The halves of a link that came.
fn halves(rt: HostRuntime, wire: Wire, over: Option<LinkOver>) -> io::Result<Halves> {
    wire.set_limits()?;
    let sink = wire.share()?;
    Ok((
        Reading::telling(LinkInput::Socket(wire), over),
        Writing::new(rt, LinkOutput::Socket(sink)),
    ))
}

// The halves of the link of the standard input and output.
fn standard_halves(rt: HostRuntime, over: LinkOver) -> io::Result<Halves> {
    let input = Input::new(rt.stdin(), over.share()?);
    let output = Output::new(rt.stdout(), over);
    Ok((
        Reading::new(LinkInput::Standard(input)),
        Writing::new(rt, LinkOutput::Standard(output)),
    ))
}

/// What an accept found.
enum Found {
    Link(Halves),
    Nobody,
    Closed,
}

impl Supply {
    fn next(&mut self, rt: HostRuntime) -> io::Result<Found> {
        match self {
            Supply::Listener(listener) => match listener.accept()? {
                Some(wire) => Ok(Found::Link(halves(rt, wire, None)?)),
                None => Ok(Found::Nobody),
            },
            Supply::Dialled(link, over) => match link.take() {
                Some(wire) => Ok(Found::Link(halves(rt, wire, over.take())?)),
                None => Ok(Found::Closed),
            },
            Supply::Streams(over) => match over.take() {
                Some(over) => Ok(Found::Link(standard_halves(rt, over)?)),
                None => Ok(Found::Closed),
            },
        }
    }
}

impl RealPort {
    fn new(rt: HostRuntime, supply: Supply, notes: Notes) -> RealPort
        ensures { ⟦<RealPort as Port>⟧.faults result ≡ 0 }
    {
        RealPort {
            rt,
            supply,
            notes,
            is_failing: false,
            held: 0,
            faults: 0,
        }
    }

    /// A port over a listener.
    pub(crate) fn listening(rt: HostRuntime, listener: Listener, notes: Notes) -> RealPort
        ensures { ⟦<RealPort as Port>⟧.faults result ≡ 0 }
    {
        RealPort::new(rt, Supply::Listener(listener), notes)
    }

    /// A port over a link that was dialled.
    pub(crate) fn dialled(
        rt: HostRuntime,
        wire: Wire,
        over: Option<LinkOver>,
        notes: Notes,
    ) -> RealPort
        ensures { ⟦<RealPort as Port>⟧.faults result ≡ 0 }
    {
        RealPort::new(rt, Supply::Dialled(Some(wire), over), notes)
    }

    /// A port over the standard input and output, whose link tells `over` where it is over.
    pub(crate) fn streaming(rt: HostRuntime, notes: Notes, over: LinkOver) -> RealPort
        ensures { ⟦<RealPort as Port>⟧.faults result ≡ 0 }
    {
        RealPort::new(rt, Supply::Streams(Some(over)), notes)
    }
}

impl Port for RealPort {
    type In = Reading<LinkInput>;

    type Out = Writing<LinkOutput>;

    ghost sessions = { λ _. None };

    ghost links = { λ _. None };

    ghost held = { λ p. p.held };

    ghost faults = { λ p. p.faults };

    fn accept(
        &mut self,
        inn: &mut Option<Reading<LinkInput>>,
        out: &mut Option<Writing<LinkOutput>>,
    ) -> Arrival {
        let Some(held) = self.held.checked_add(1) else {
            self.faults = self.faults.saturating_add(1);
            return Arrival::Closed;
        };
        match self.supply.next(self.rt) {
            Ok(Found::Link((source, sink))) => {
                info!(self.notes; "a link begins");
                self.is_failing = false;
                self.held = held;
                *inn = Some(source);
                *out = Some(sink);
                Arrival::Link
            }
            Ok(Found::Nobody) => {
                self.is_failing = false;
                Arrival::Nobody
            }
            Ok(Found::Closed) => Arrival::Closed,
            Err(error) => {
                if !self.is_failing {
                    warn!(self.notes; "a link can't be taken: {error}");
                }
                self.is_failing = true;
                self.faults = self.faults.saturating_add(1);
                thread::sleep(&self.rt, Duration::from_millis(PAUSE_MILLIS));
                Arrival::Nobody
            }
        }
    }

    fn hang_up(
        &mut self,
        inn: &mut Option<Reading<LinkInput>>,
        out: &mut Option<Writing<LinkOutput>>,
    ) {
        if let Some(mut sink) = out.take() {
            sink.close();
        }
        if let Some(mut source) = inn.take() {
            source.take_left();
        }
        info!(self.notes; "a link is over");
        self.held -= 1;
    }
}
