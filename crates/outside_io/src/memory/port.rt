// A port over links in memory.
ghost use Rattle.std.specs.Prelude.{◌≡◌, ℕ, ◌+◌, ◌<◌, ◌≤◌, ◌⊎◌, List, [], ◌∷◌, IsSome, IfSome, Option, Some, None, map, option_map, slice_get};
ghost use Rattle.outside_io.specs.MemoryLinks.{link_of};
ghost use Rattle.outside_io.specs.Sessions.{Session};

use crate::memory::links::Links;
use crate::memory::sink::MemSink;
use crate::memory::source::MemSource;
use crate::port::{Arrival, Port};
use std::alloc::Global;

/// A port that gives its links in order, and is then closed.
///
/// Where no memory is left to keep room for a link's return, an accept answers `Closed` and the count rises.
#[derive(Drop)]
pub struct MemPort {
    links: Links,
    faults: u64,
}

impl MemPort {
    /// A port that gives these links, in this order, and is closed behind them.
    pub fn new(alloc: Global, links: Vec<(MemSource, MemSink)>) -> MemPort
        ensures sessions { ⟦<MemPort as Port>⟧.sessions result ≡ Some [] }
        ensures links { ⟦<MemPort as Port>⟧.links result ≡ Some (map link_of links.items) }
        ensures held { ⟦<MemPort as Port>⟧.held result ≡ 0 }
        ensures faults { ⟦<MemPort as Port>⟧.faults result ≡ 0 }
    {
        MemPort {
            links: Links::new(alloc, links),
            faults: 0,
        }
    }

    /// The link that was handed back as number `i`, from 0.
    pub fn session(&self, i: usize) -> Option<&(MemSource, MemSink)>
        ensures { option_map (λ sessions. slice_get sessions i) (⟦<MemPort as Port>⟧.sessions self.now)
            ≡ Some (option_map (λ session. link_of session.now) result) }
    {
        self.links.back.get(i)
    }

    // Starts the count anew.
    pub(crate) fn renew(&mut self)
        ensures sessions { ⟦<MemPort as Port>⟧.sessions self.new ≡ ⟦<MemPort as Port>⟧.sessions self.old }
        ensures links { ⟦<MemPort as Port>⟧.links self.new ≡ ⟦<MemPort as Port>⟧.links self.old }
        ensures faults { ⟦<MemPort as Port>⟧.faults self.new ≡ 0 }
    {
        self.faults = 0;
    }
}

impl Port for MemPort {
    type In = MemSource;

    type Out = MemSink;

    ghost sessions = { λ p. Some (map link_of p.links.back.items) };

    ghost links = { λ p. Some (map link_of p.links.left.items) };

    ghost held = { λ p. p.links.out };

    ghost faults = { λ p. p.faults };

    fn accept(&mut self, inn: &mut Option<MemSource>, out: &mut Option<MemSink>) -> Arrival {
        match self.links.give() {
            Ok(Some((source, sink))) => {
                *inn = Some(source);
                *out = Some(sink);
                Arrival::Link
            }
            Ok(None) => Arrival::Closed,
            Err(_) => {
                self.faults = self.faults.saturating_add(1);
                Arrival::Closed
            }
        }
    }

    fn hang_up(&mut self, inn: &mut Option<MemSource>, out: &mut Option<MemSink>) {
        if let (Some(source), Some(sink)) = (inn.take(), out.take()) {
            self.links.take_back(source, sink);
        }
    }
}
