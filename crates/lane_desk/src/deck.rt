// The core and the ends of all lanes behind a lock.
ghost use Rattle.std.specs.Prelude.{◌≡◌, ◌↔◌, ◌<◌, ◌≤◌, ◌+◌, [], IfErr, IsNone, List, length, map, not, false, true};
ghost use Rattle.mux_history.specs.declared.entry.Entry.{Entry};
ghost use Rattle.mux_history.specs.Cores.{spawns};
ghost use Rattle.lane_lists.specs.Seats as lists;
ghost use Rattle.lane_desk.specs.Desks.{AllUnused, Faulted, Kept, TooMany, ids};
ghost use Rattle.lane_desk.specs.Stops.{Tells, WasDone, is_done};

use crate::desk::{Counts, take_turn};
use crate::seats::Seats;
use crate::woken::Woken;
use lane_lists::LaneName;
use lane_queue::HubEnds;
use message_body::Memory;
use mux_steps::{StepFault, Steps};
use std::alloc::Global;
use std::marker::{Brand, Model, PhantomData};
use std::sync::{Mutex, Wait};

/// Which deck it is: the queues of its lanes in their order (the editors', the servers', the ticker's), how many of them are
/// editors' and servers', and the count of its core's journal at the start.
pub trait Naming {
    ghost use Rattle.std.specs.Prelude.{List, ℕ};
    ghost use Rattle.lane_desk.specs.Desks.{Ids};

    ghost queues: { List Ids };

    ghost editors: { ℕ };

    ghost servers: { ℕ };

    ghost before: { ℕ };
}

impl Naming for Brand {
    ghost use Rattle.std.specs.Prelude.{[]};

    ghost queues = { [] };

    ghost editors = { 0 };

    ghost servers = { 0 };

    ghost before = { 0 };
}

/// What a try to take an item gave.
#[derive(Clone, Copy, Debug, PartialEq, Eq)]
pub enum Took {
    Item,
    Nothing,
    /// Nothing, and a stop is done: it was answered, no lane of a server has a start, and none waits for one.
    Done,
    /// The core goes on no more.
    Over,
}

// The sessions of all lanes are to end, since the core goes on no more.
fn end_all(ends: &[HubEnds]) {
    for lane in ends {
        lane.end_all();
    }
}

/// What lies under the lock.
#[derive(Drop)]
pub struct Desk<K: Steps + Drop, N: Naming> {
    counts: Counts,
    core: K,
    ends: Vec<HubEnds>,
    seats: Seats,
    spent: bool,
    why: Option<StepFault>,
    // The last editor that joined is of the last lane, and found no other there.
    last: bool,
    of: PhantomData<N>,
}

impl<K: Steps + Drop, N: Naming> Model for Desk<K, N> {
    ghost use Rattle.std.specs.Prelude.{◌≡◌, ◌<◌, ◌+◌, ◌^◌, false, length, map, not};
    ghost use Rattle.lane_desk.specs.Desks.{DeskView, Faulted, Kept, TooMany, ids};

    ghost Value = { DeskView K };

    ghost view = { λ d. record { core = d.core; spent = d.spent; why = d.why; ends = d.ends.items; seats = d.seats; last = d.last } };

    ghost invariant = { λ d. Kept K.stands (TooMany K.stands K.allows K.passes) N.editors N.servers (not d.spent) d.last d.why d.core d.ends.items d.seats
        × (map ids d.ends.items ≡ N.queues)
        × Faulted N.before (K.faults d.core) (K.spent d.core) d.why
        × (d.counts.editors ≡ N.editors) × (d.counts.servers ≡ N.servers) × (N.editors + N.servers < 2 ^ 63) × (length d.ends.items ≡ N.editors + N.servers + 1)
        × (d.spent ≡ false → K.spent d.core ≡ false) };
}

impl<K: Steps + Drop, N: Naming> Desk<K, N> {
    /// Takes one item of a lane, does what it means, and notes the lanes that are given orders.
    pub fn take<R: Wait>(&mut self, rt: &R, lane: LaneName, woken: &mut Woken) -> Took
        ensures over { self.old.spent ≡ true → (result ≡ Took.Over) × (self.new ≡ self.old) }
        ensures spent { (result ≡ Took.Over) ↔ (self.new.spent ≡ true) }
        ensures done { (history : List Entry) → K.stands self.new.core history → result ≡ Took.Done → is_done K.stops history self.new.seats ≡ true }
        ensures was { result ≡ Took.Done → WasDone K.stands K.stops N.editors N.servers }
        ensures not_done { (history : List Entry) → K.stands self.new.core history → result ≡ Took.Nothing → is_done K.stops history self.new.seats ≡ false }
    {
        if self.spent {
            return Took::Over;
        }
        let turned = take_turn(
            rt,
            self.counts,
            &mut self.core,
            &mut self.ends,
            &mut self.seats,
            &mut self.last,
            lane,
            woken,
        );
        self.spent = turned.spent;
        self.why = turned.why;
        if turned.spent {
            end_all(&self.ends);
        }
        if turned.took {
            Took::Item
        } else if turned.spent {
            Took::Over
        } else if self.is_done() {
            Took::Done
        } else {
            Took::Nothing
        }
    }

    // Whether a stop is done.
    fn is_done(&self) -> bool
        ensures { (history : List Entry) → K.stands self.now.core history → K.spent self.now.core ≡ false → result ≡ is_done K.stops history self.now.seats }
    {
        self.core.stopped() && self.seats.is_idle()
    }

    /// The place of the server whose command a start runs; None just of a start that wasn't spawned.
    pub fn server_of(&self, start: u64) -> Option<u32>
        ensures { (history : List Entry) → K.stands self.now.core history → K.spent self.now.core ≡ false → IsNone result ↔ (spawns start history ≡ 0) }
    {
        self.core.server_of(start)
    }

    /// The folder in which a start's program is to run; None where it is the daemon's own.
    pub fn folder_of(&self, start: u64) -> Result<Option<String>, Memory> {
        self.core.folder_of(start)
    }

    /// The core goes on no more.
    pub fn fail(&mut self)
        ensures { self.new ≡ record self.old { spent = true } }
    {
        end_all(&self.ends);
        self.spent = true;
    }
}

/// The core and the ends of all lanes behind a lock. Each time the lock is free, the core stands for the entries of one list of
/// deeds, which spawn no start twice, and what was taken and pushed at the ends is what that list says.
pub struct Deck<K: Steps + Drop, N: Naming> {
    desk: Mutex<Desk<K, N>>,
}

/// What a deck leaves.
#[derive(Drop)]
pub struct Closed<K: Steps + Drop> {
    pub core: K,
    /// The ends of the lanes, in their order.
    pub ends: Vec<HubEnds>,
    /// The core goes on no more.
    pub spent: bool,
    /// The fault of its last step, where it had one.
    pub why: Option<StepFault>,
    /// It went on to a stop that is done.
    pub done: bool,
    /// No lane of an editor has a session. This is said of a core that went on.
    pub no_editor: bool,
    /// The last editor that joined is of the last lane of editors, no other one is of that lane, and each other one had gone
    /// before it joined. This is said of a core that went on.
    pub own_last: bool,
}

impl<K: Steps + Drop, N: Naming> Deck<K, N> {
    /// A deck over a core without a history and the ends of lanes that nothing went through: so many editors' lanes, then so
    /// many servers', then the ticker's. Want of memory hands core and ends back.
    pub fn new(
        alloc: Global,
        core: K,
        editors: u32,
        servers: u32,
        ends: Vec<HubEnds>,
    ) -> Result<Deck<K, N>, (K, Vec<HubEnds>)>
        requires core { K.stands core [] }
        requires unused { AllUnused ends.items }
        requires count { length ends.items ≡ editors + servers + 1 }
        requires queues { map ids ends.items ≡ N.queues }
        requires editors { editors ≡ N.editors }
        requires servers { servers ≡ N.servers }
        requires before { K.faults core ≡ N.before }
        requires ready { K.spent core ≡ false }
        ensures { IfErr result (λ back. (back.0 ≡ core) × (back.1 ≡ ends)) }
    {
        let Ok(seats) = Seats::new(alloc, editors, servers) else {
            return Err((core, ends));
        };
        let desk = Desk {
            counts: Counts {
                editors: editors as usize,
                servers: servers as usize,
            },
            core,
            ends,
            seats,
            spent: false,
            why: None,
            last: false,
            of: PhantomData,
        };
        Ok(Deck {
            desk: Mutex::new(desk),
        })
    }

    /// Takes one item of a lane, does what it means, and notes the lanes that are given orders.
    pub fn turn<R: Wait>(&self, rt: &R, lane: LaneName, woken: &mut Woken) -> Took
        ensures done { result ≡ Took.Done → WasDone K.stands K.stops N.editors N.servers }
    {
        self.desk.lock(rt).take(rt, lane, woken)
    }

    /// Takes what it finds in a lane's queues. False says that the core goes on no more, or that a stop is done.
    pub fn pump<R: Wait>(&self, rt: &R, lane: LaneName) -> bool {
        let mut goes_on = false;
        let mut woken = Woken::none();
        for _ in rt.forever() {
            match self.turn(rt, lane, &mut woken) {
                Took::Item => {}
                Took::Nothing => {
                    goes_on = true;
                    break;
                }
                Took::Done | Took::Over => break,
            }
        }
        goes_on
    }

    /// The place of the server whose command a start runs, as the core says.
    pub fn server_of<R: Wait>(&self, rt: &R, start: u64) -> Option<u32> {
        self.desk.lock(rt).server_of(start)
    }

    /// The folder in which a start's program is to run, as the core says; None where it is the daemon's own.
    pub fn folder_of<R: Wait>(&self, rt: &R, start: u64) -> Result<Option<String>, Memory> {
        self.desk.lock(rt).folder_of(start)
    }

    /// A lane wanted memory: the core goes on no more.
    pub fn fail<R: Wait>(&self, rt: &R) {
        self.desk.lock(rt).fail();
    }

    /// The core and the ends. It waits for nobody.
    pub fn close(self) -> Closed<K>
        ensures kept { (seats : lists.Seats) × Kept K.stands (TooMany K.stands K.allows K.passes) N.editors N.servers (not result.spent) result.own_last result.why
            result.core result.ends.items seats
            × Tells K.stands K.stops result.core seats result.done result.no_editor }
        ensures goes { result.done ≡ true → result.spent ≡ false }
        ensures ready { result.spent ≡ false → K.spent result.core ≡ false }
        ensures queues { map ids result.ends.items ≡ N.queues }
        ensures faults { Faulted N.before (K.faults result.core) (K.spent result.core) result.why }
    {
        let Deck { desk } = self;
        let Desk {
            counts: _,
            core,
            ends,
            seats,
            spent,
            why,
            last,
            of: _,
        } = desk.into_inner();
        let done = !spent && core.stopped() && seats.is_idle();
        let no_editor = seats.has_no_editor();
        Closed {
            core,
            ends,
            spent,
            why,
            done,
            no_editor,
            own_last: last,
        }
    }
}
