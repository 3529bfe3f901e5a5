// A door to one link, whose halves tell of their ends.
ghost use Rattle.std.specs.Prelude.{◌≡◌, None};

use outside_io::{
    Arrival, Door, DoorFault, MemSink, MemSource, Place, Port, ReadFault, Sink, Source, WriteFault,
};

/// A source that says, by a byte that it writes to a sink, that it has ended.
#[derive(Drop)]
pub struct Says {
    bytes: MemSource,
    told: MemSink,
    faults: u64,
}

impl Says {
    pub fn new(bytes: MemSource, told: MemSink) -> Says {
        Says {
            bytes,
            told,
            faults: 0,
        }
    }
}

impl Source for Says {
    ghost taken = { λ _. None };

    ghost left = { λ _. None };

    ghost faults = { λ s. s.faults };

    fn read(&mut self, buf: &mut [u8]) -> Result<usize, ReadFault> {
        match self.bytes.read(buf) {
            Ok(count) => {
                if count == 0 {
                    let _ = self.told.write(b"e");
                }
                Ok(count)
            }
            Err(_) => {
                self.faults = self.faults.saturating_add(1);
                Err(ReadFault::Failed)
            }
        }
    }
}

/// A sink that says, by a byte that it writes to another sink, that it was closed.
#[derive(Drop)]
pub struct Hears {
    kept: MemSink,
    told: MemSink,
    faults: u64,
}

impl Hears {
    pub fn new(kept: MemSink, told: MemSink) -> Hears {
        Hears {
            kept,
            told,
            faults: 0,
        }
    }
}

impl Sink for Hears {
    ghost written = { λ _. None };

    ghost faults = { λ s. s.faults };

    fn write(&mut self, bytes: &[u8]) -> Result<usize, WriteFault> {
        match self.kept.write(bytes) {
            Ok(count) if count <= bytes.len() && (count > 0 || bytes.is_empty()) => Ok(count),
            _ => {
                self.faults = self.faults.saturating_add(1);
                Err(WriteFault::Failed)
            }
        }
    }

    fn close(&mut self) {
        let _ = self.told.write(b"c");
    }
}

/// A port with such a link, or without one.
#[derive(Drop)]
pub struct OneLink {
    link: Option<(Says, Hears)>,
    back: Option<(Says, Hears)>,
    out: u64,
    faults: u64,
}

impl OneLink {
    pub fn new(link: Option<(Says, Hears)>) -> OneLink {
        OneLink {
            link,
            back: None,
            out: 0,
            faults: 0,
        }
    }

    /// What was written to the link, once it was handed back.
    pub fn written(&self) -> Option<&[u8]> {
        match &self.back {
            Some(link) => Some(link.1.kept.bytes()),
            None => None,
        }
    }
}

impl Port for OneLink {
    type In = Says;

    type Out = Hears;

    ghost sessions = { λ _. None };

    ghost links = { λ _. None };

    ghost held = { λ p. p.out };

    ghost faults = { λ p. p.faults };

    fn accept(&mut self, inn: &mut Option<Says>, out: &mut Option<Hears>) -> Arrival {
        let Some(count) = self.out.checked_add(1) else {
            self.faults = self.faults.saturating_add(1);
            return Arrival::Closed;
        };
        match self.link.take() {
            Some((source, sink)) => {
                *inn = Some(source);
                *out = Some(sink);
                self.out = count;
                Arrival::Link
            }
            None => {
                self.faults = self.faults.saturating_add(1);
                Arrival::Closed
            }
        }
    }

    fn hang_up(&mut self, inn: &mut Option<Says>, out: &mut Option<Hears>) {
        self.out -= 1;
        if let (Some(source), Some(sink)) = (inn.take(), out.take()) {
            self.back = Some((source, sink));
        }
    }
}

/// A door that gives such a port where it is dialled, or none.
#[derive(Drop)]
pub struct OneDoor {
    port: Option<OneLink>,
    faults: u64,
}

impl OneDoor {
    pub fn new(port: Option<OneLink>) -> OneDoor {
        OneDoor { port, faults: 0 }
    }
}

impl Door for OneDoor {
    type Port = OneLink;

    ghost calls = { λ _. None };

    ghost left = { λ _. None };

    ghost faults = { λ d. d.faults };

    fn open(
        &mut self,
        _place: &Place,
        _n: u32,
        _ports: &mut Vec<OneLink>,
    ) -> Result<(), DoorFault> {
        self.faults = self.faults.saturating_add(1);
        Err(DoorFault::Failed)
    }

    fn dial(&mut self, _place: &Place, port: &mut Option<OneLink>) -> Result<(), DoorFault> {
        match self.port.take() {
            Some(given) if given.faults == 0 => {
                *port = Some(given);
                Ok(())
            }
            _ => {
                self.faults = self.faults.saturating_add(1);
                Err(DoorFault::Failed)
            }
        }
    }
}
