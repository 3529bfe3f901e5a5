// The hub: the tables, the journal, and whether a step had a fault.
ghost use Rattle.std.specs.Prelude.{◌≡◌, ℕ, ◌+◌, ◌^◌, ◌≤◌, ◌<◌, ◌↔◌, List, [], ◌∷◌, ◌++◌, true, false, nat_lt, if◌then◌else◌, Some, None, IsTrue, IsNone, IfOk, OnOk, OnErr, IsErrOf, IsOkUnless, IfErr, option_map, slice_get, string_bytes};
ghost use Rattle.group_sessions.specs.group_facts.specs.Ceilings.{HaveCeilings};
ghost use Rattle.outside_io.specs.Faults.{Rose};
ghost use Rattle.mux_history.specs.declared.entry.Entry.{Entry};
ghost use Rattle.mux_history.specs.Cores.{body_length, joined, spawns};
ghost use Rattle.event_model.specs.Event.{Event, behind, events_of, with_cause};
ghost use Rattle.event_model.specs.Settings.{Settings};
ghost use Rattle.mux_model.specs.Fits.{fits, fits_behind};
ghost use Rattle.group_sessions.specs.group_facts.specs.Facts.{Known};
ghost use Rattle.group_sessions.specs.group_facts.specs.Settled.{Settled};
ghost use Rattle.group_sessions.specs.group_facts.specs.SlowRows.{entry_outs};
ghost use Rattle.mux_hub.specs.Entries.{emits, entry_of, most_events, passes, was_stopped};
ghost use Rattle.mux_steps.specs.Faults.{Counted};
ghost use Rattle.mux_hub.specs.Hubs.{HubView, HubStands, TablesStand, Tells};
ghost use Rattle.mux_hub.specs.Sessions.{Sessions};
ghost use Rattle.mux_hub.specs.Starts.{folder_at, servers_of};

use crate::starts::{folder_of, note_spawns};
use event_model::{Limits, Server};
use message_body::Memory;
use mux_causes::mux_tables::Tables;
use mux_causes::{Backlogs, Carries};
use mux_debts::{Debts, forget_closed};
use mux_history::{Cause, Entry, Outs};
use mux_steps::{Journal, StepFault, Steps};
use std::alloc::Global;
use std::marker::Model;

// The outs of a cause, behind them those of editors that are slow there, and the tables, what groups carry, what starts owe, and the counts behind all of these. Where the
// answer is an error they stand for nothing any more.
fn turn(
    alloc: Global,
    limits: &Limits,
    servers: &[Server],
    default: u32,
    tables: &mut Tables,
    carries: &mut Carries,
    debts: &mut Debts,
    backlogs: &mut Backlogs,
    starts: &mut Vec<u32>,
    cause: &Cause,
) -> Result<Outs, Memory>
    requires small { body_length cause.now ≤ 268435456 }
    requires limit { 2 ≤ tables.old.requests }
    requires versions { 1 ≤ tables.old.versions }
    requires ceilings { HaveCeilings servers.now }
    ensures same_limit { tables.new.requests ≡ tables.old.requests }
    ensures same_versions { tables.new.versions ≡ tables.old.versions }
    ensures takes { (settings : Settings) (before : List Event) → settings.limits ≡ limits.now → settings.servers ≡ servers.now → settings.default ≡ default
        → Known settings before → Settled settings before
        → fits_behind before cause.now ≡ true
        → TablesStand settings tables.old carries.old debts.old backlogs.old starts.old.items before
        → IfOk result (λ outs. (outs ≡ entry_outs settings before cause.now)
        × TablesStand settings tables.new carries.new debts.new backlogs.new starts.new.items (behind (with_cause before cause.now) outs)) }
{
    let mut outs = mux_entries::take(
        tables, carries, debts, alloc, limits, servers, default, cause,
    )?;
    backlogs.take(cause, &outs)?;
    mux_slow::leave_slow(tables, alloc, backlogs, limits.backlog, &mut outs)?;
    forget_closed(debts, &outs);
    note_spawns(starts, tables, default, &outs)?;
    Ok(outs)
}

// How many causes and outs there are behind an entry with so many outs; none where they would be more than 2^63 - 1.
fn counted(events: u64, outs: usize) -> Option<u64>
    ensures { result ≡ (if nat_lt most_events (events + (1 + outs)) then None else Some (events + (1 + outs))) }
{
    let more = (outs as u64).checked_add(1)?;
    let count = events.checked_add(more)?;
    if count > 9_223_372_036_854_775_807 {
        None
    } else {
        Some(count)
    }
}

/// The core of the multiplexer. It stands for the history of its steps, and its journal has the entries.
#[derive(Drop)]
pub struct Hub<J: Journal> {
    alloc: Global,
    limits: Limits,
    servers: Vec<Server>,
    default: u32,
    tables: Tables,
    carries: Carries,
    debts: Debts,
    backlogs: Backlogs,
    starts: Vec<u32>,
    events: u64,
    spent: bool,
    journal: J,
}

impl<J: Journal> Model for Hub<J> {
    ghost use Rattle.mux_hub.specs.Hubs.{HubView, IsSound};

    ghost Value = { HubView J };

    ghost view = { λ h. record { settings = record { limits = h.limits; servers = h.servers.items; default = h.default }; tables = h.tables; carries = h.carries; debts = h.debts; backlogs = h.backlogs; starts = h.starts.items; events = h.events; spent = h.spent; journal = h.journal } };

    ghost invariant = { λ h. IsSound (record { limits = h.limits; servers = h.servers.items; default = h.default }) h.tables };
}

impl<J: Journal> Hub<J> {
    /// A hub without a history. Running out of memory hands the journal back.
    pub fn new(
        alloc: Global,
        limits: Limits,
        servers: Vec<Server>,
        default: u32,
        journal: J,
    ) -> Result<Hub<J>, J>
        requires told { Tells (J.told journal) [] }
        requires requests { 2 ≤ limits.requests }
        requires versions { 1 ≤ limits.versions }
        requires ceilings { HaveCeilings servers.items }
        ensures settings { IfOk result (λ hub. hub.settings ≡ record { limits = limits; servers = servers.items; default = default }) }
        ensures stands { IfOk result (λ hub. HubStands J.told hub []) }
        ensures fresh { IfOk result (λ hub. hub.spent ≡ false) }
        ensures faults { IfOk result (λ hub. J.faults hub.journal ≡ J.faults journal) }
        ensures back { IfErr result (λ back. back ≡ journal) }
    {
        let Ok(tables) = Tables::new(
            alloc,
            limits.groups,
            limits.idle,
            limits.requests,
            limits.versions,
        ) else {
            return Err(journal);
        };
        Ok(Hub {
            alloc,
            limits,
            servers,
            default,
            tables,
            carries: Carries::new(alloc),
            debts: Debts::new(alloc),
            backlogs: Backlogs::new(alloc),
            starts: Vec::new(alloc),
            events: 0,
            spent: false,
            journal,
        })
    }

    /// The hub's journal.
    pub fn close(self) -> J
        ensures { result ≡ self.journal }
    {
        let Hub { journal, .. } = self;
        journal
    }

    /// The history that it stands for is one of conforming sessions.
    pub fn sessions_law(&self)
        ensures { (history : List Entry) → HubStands J.told self.now history → Sessions self.now.settings history }
    {
        let _spent = self.spent;
    }

    /// Whether this cause can come behind the history.
    pub fn fits(&self, cause: &Cause) -> bool
        ensures { (history : List Entry) → HubStands J.told self.now history → self.now.spent ≡ false → result ≡ fits history cause.now }
    {
        mux_causes::fits(&self.tables, &self.backlogs, cause)
    }

    /// The number of the editor that joins next.
    pub fn next_editor(&self) -> u64
        ensures { (history : List Entry) → HubStands J.told self.now history → self.now.spent ≡ false → result ≡ joined history }
    {
        self.tables.editors.count()
    }

    /// The place of the server of a start's group, among the settings' servers; none just of a start that wasn't spawned.
    pub fn server_of(&self, start: u64) -> Option<u32>
        ensures server { (history : List Entry) → HubStands J.told self.now history → self.now.spent ≡ false
            → result ≡ slice_get (servers_of self.now.settings (events_of history)) start }
        ensures none { (history : List Entry) → HubStands J.told self.now history → self.now.spent ≡ false → IsNone result ↔ (spawns start history ≡ 0) }
    {
        if start < self.starts.len() as u64 {
            Some(self.starts[start as usize])
        } else {
            None
        }
    }

    /// The folder in which a start's program is to run: that of the first folder of its group. None where it is the daemon's own.
    pub fn folder_of(&self, start: u64) -> Result<Option<String>, Memory>
        ensures { (history : List Entry) → HubStands J.told self.now history → self.now.spent ≡ false
            → IfOk result (λ folder. option_map string_bytes folder ≡ folder_at self.now.settings (events_of history) start) }
    {
        folder_of(self.alloc, &self.tables, start)
    }

    /// Whether an editor stopped all.
    pub fn stopped(&self) -> bool
        ensures { (history : List Entry) → HubStands J.told self.now history → self.now.spent ≡ false → result ≡ was_stopped history }
    {
        self.tables.is_stopped()
    }

    /// Takes a cause and gives its outs: those of the routing table. The entry was appended to the journal. Where the causes and outs
    /// would be more than 2^63 - 1, the answer is `Numbers`, and nothing is appended. A hub that isn't spent gives them unless they would,
    /// the journal fails, or memory runs out.
    pub fn step(&mut self, cause: Cause) -> Result<Outs, StepFault>
        requires small { body_length cause ≤ 268435456 }
        requires fits { (history : List Entry) → HubStands J.told self.old history → self.old.spent ≡ false → IsTrue (fits history cause) }
        ensures settings { self.new.settings ≡ self.old.settings }
        ensures outs { (history : List Entry) → HubStands J.told self.old history → IfOk result (λ outs. outs ≡ emits self.old.settings history cause) }
        ensures stands { (history : List Entry) → HubStands J.told self.old history
            → OnOk result (HubStands J.told self.new (history ++ entry_of self.old.settings history cause ∷ [])) }
        ensures err { (history : List Entry) → HubStands J.told self.old history → OnErr result (HubStands J.told self.new history) }
        ensures ready { OnOk result (self.new.spent ≡ false) }
        ensures spent { OnErr result (self.new.spent ≡ true) }
        ensures spent_only { IsErrOf result StepFault.Spent ↔ (self.old.spent ≡ true) }
        ensures numbers { (history : List Entry) → HubStands J.told self.old history → self.old.spent ≡ false
            → Counted (passes self.old.settings history cause) result }
        ensures journal_only { IsErrOf result StepFault.Journal → Rose (J.faults self.old.journal) (J.faults self.new.journal) }
        ensures later { J.faults self.old.journal ≤ J.faults self.new.journal }
        ensures once { (history : List Entry) (s : ℕ) → HubStands J.told self.old history
            → IfOk result (λ outs. spawns s (history ++ record { cause = cause; outs = outs } ∷ []) ≤ 1) }
        ensures complete { (history : List Entry) → HubStands J.told self.old history → self.old.spent ≡ false
            → passes self.old.settings history cause ≡ false → ¬ Rose (J.faults self.old.journal) (J.faults self.new.journal)
            → IsOkUnless result StepFault.Memory }
    {
        if self.spent {
            return Err(StepFault::Spent);
        }
        self.spent = true;
        let outs = turn(
            self.alloc,
            &self.limits,
            self.servers.as_slice(),
            self.default,
            &mut self.tables,
            &mut self.carries,
            &mut self.debts,
            &mut self.backlogs,
            &mut self.starts,
            &cause,
        )?;
        let Some(events) = counted(self.events, outs.len()) else {
            return Err(StepFault::Numbers);
        };
        let entry = Entry { cause, outs };
        self.journal.append(&entry)?;
        self.events = events;
        self.spent = false;
        Ok(entry.outs)
    }
}

/// What threads may know of the hub: an editor that is there asks it to stop (E6).
impl<J: Journal> Steps for Hub<J> {
    ghost use Rattle.mux_model.specs.Fits.{fits};
    ghost use Rattle.mux_hub.specs.Entries.{asks_stop, passes, was_stopped};
    ghost use Rattle.mux_hub.specs.Hubs.{HubStands};

    ghost stands = { λ hub history. HubStands J.told hub history };

    ghost faults = { λ hub. J.faults hub.journal };

    ghost spent = { λ hub. hub.spent };

    ghost allows = { fits };

    ghost passes = { λ hub history cause. passes hub.settings history cause };

    ghost asks_stop = { asks_stop };

    ghost stops = { was_stopped };

    fn fits(&self, cause: &Cause) -> bool {
        Hub::fits(self, cause)
    }

    fn next_editor(&self) -> u64 {
        Hub::next_editor(self)
    }

    fn stopped(&self) -> bool {
        Hub::stopped(self)
    }

    fn server_of(&self, start: u64) -> Option<u32> {
        Hub::server_of(self, start)
    }

    fn folder_of(&self, start: u64) -> Result<Option<String>, Memory> {
        Hub::folder_of(self, start)
    }

    fn step(&mut self, cause: Cause) -> Result<Outs, StepFault> {
        match Hub::step(self, cause) {
            Ok(outs) => Ok(outs),
            Err(fault) => Err(fault),
        }
    }
}
