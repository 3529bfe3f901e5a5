// A deck, and what wakes its lanes.
ghost use Rattle.std.specs.Prelude.{◌≡◌, ◌⊎◌, IfErr, IfSome, Some};
ghost use Rattle.lane_desk.specs.Stops.{WasDone};

use crate::bell::{Bell, bells};
use crate::lane_end::LaneEnd;
use lane_desk::{Deck, Naming, Took, Woken};
use lane_lists::LaneName;
use message_body::Memory;
use mux_steps::Steps;
use std::alloc::Global;
use std::sync::Wait;

/// A deck with a bell for each lane of an editor or of a server. No lock of it is held while a lane reads or writes.
///
/// A bell wakes its lane where it was given an order, where a stop is done, and where the core goes on no more.
pub struct Switchboard<K: Steps + Drop, N: Naming> {
    deck: Deck<K, N>,
    editors: Vec<Bell>,
    servers: Vec<Bell>,
}

impl<K: Steps + Drop, N: Naming> Switchboard<K, N> {
    /// A deck that has so many lanes of editors and of servers. Want of memory hands the deck back.
    pub fn new(
        alloc: Global,
        deck: Deck<K, N>,
        editors: u32,
        servers: u32,
    ) -> Result<Switchboard<K, N>, Deck<K, N>>
        ensures { IfErr result (λ back. back ≡ deck) }
    {
        let (Ok(editors), Ok(servers)) = (bells(alloc, editors), bells(alloc, servers)) else {
            return Err(deck);
        };
        Ok(Switchboard {
            deck,
            editors,
            servers,
        })
    }

    fn bell(&self, lane: LaneName) -> Option<&Bell> {
        match lane {
            LaneName::Editor(i) => self.editors.get(i as usize),
            LaneName::Server(i) => self.servers.get(i as usize),
            LaneName::Ticker => None,
        }
    }

    // Wakes the lanes that were given orders.
    fn wake<R: Wait>(&self, rt: &R, woken: &Woken) {
        for (bell, number) in self.editors.iter().zip(0u32..) {
            if woken.has(LaneName::Editor(number)) {
                bell.ring(rt);
            }
        }
        for (bell, number) in self.servers.iter().zip(0u32..) {
            if woken.has(LaneName::Server(number)) {
                bell.ring(rt);
            }
        }
    }

    // Wakes all lanes.
    fn ring<R: Wait>(&self, rt: &R) {
        for bell in &self.editors {
            bell.ring(rt);
        }
        for bell in &self.servers {
            bell.ring(rt);
        }
    }

    /// Has the core take what it finds in a lane's queues, and wakes the lanes that are given orders. It says how the lane
    /// ends that has no session then: where a stop is done, and where the core goes on no more; then all lanes are woken.
    pub fn look<R: Wait>(&self, rt: &R, lane: LaneName) -> Option<LaneEnd>
        ensures stopped { result ≡ Some LaneEnd.Stopped → WasDone K.stands K.stops N.editors N.servers }
        ensures ends { IfSome result (λ end. (end ≡ LaneEnd.Stopped) ⊎ (end ≡ LaneEnd.Over)) }
    {
        let mut has_taken = false;
        let mut woken = Woken::none();
        for _ in rt.forever() {
            match self.deck.turn(rt, lane, &mut woken) {
                Took::Item => has_taken = true,
                Took::Nothing => {
                    self.wake(rt, &woken);
                    return None;
                }
                Took::Done => {
                    self.ring_if(rt, has_taken);
                    return Some(LaneEnd::Stopped);
                }
                Took::Over => {
                    self.ring(rt);
                    return Some(LaneEnd::Over);
                }
            }
        }
        unreachable!()
    }

    fn ring_if<R: Wait>(&self, rt: &R, has_taken: bool) {
        if has_taken {
            self.ring(rt);
        }
    }

    /// The same, in a session: false says that the core goes on no more.
    pub fn pump<R: Wait>(&self, rt: &R, lane: LaneName) -> bool {
        self.look(rt, lane) != Some(LaneEnd::Over)
    }

    /// Sleeps until the lane's bell is rung, and silences it. It returns at once for the ticker, which has none.
    pub fn wait<R: Wait>(&self, rt: &R, lane: LaneName) {
        if let Some(bell) = self.bell(lane) {
            bell.wait(rt);
        }
    }

    /// The place of the server whose command a start runs, as the core says.
    pub fn server_of<R: Wait>(&self, rt: &R, start: u64) -> Option<u32> {
        self.deck.server_of(rt, start)
    }

    /// The folder in which a start's program is to run, as the core says; None where it is the daemon's own.
    pub fn folder_of<R: Wait>(&self, rt: &R, start: u64) -> Result<Option<String>, Memory> {
        self.deck.folder_of(rt, start)
    }

    /// A lane wanted memory: the core goes on no more.
    pub fn fail<R: Wait>(&self, rt: &R) {
        self.deck.fail(rt);
        self.ring(rt);
    }

    /// The deck.
    pub fn close(self) -> Deck<K, N> {
        let Switchboard {
            deck,
            editors: _,
            servers: _,
        } = self;
        deck
    }
}
