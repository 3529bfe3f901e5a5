// One editor.
ghost use Rattle.std.specs.Prelude.{◌≡◌, OnOk};
ghost use Rattle.event_model.specs.Phases.{is_there};
ghost use Rattle.number_index.specs.Numbers.{Changes};
ghost use Rattle.editor_session.specs.Sessions.{asked, first_of, in_group, is_full, is_in, is_of, is_wanted, joined, meaning, needs_in, noted_by, number_of, runs_in, waits_in};

use event_model::Phase;
use message_body::{Body, Memory};
use number_index::Index;
use std::alloc::Global;
use std::collections::BTreeSet;

/// What is kept of one editor.
#[derive(Drop)]
pub struct Session {
    /// Where it stands.
    pub phase: Phase,
    /// The number of its group, once it was placed in one.
    pub group: Option<u64>,
    /// The bytes of the id of its `initialize`, once it was placed.
    pub id: Option<Body>,
    /// The number of the last request that it was asked; 0 before the first.
    pub asks: u64,
    /// Whether it sent `lspmux/open`.
    pub opened: bool,
    /// The place, among the servers of the settings, of the one that its first `lspmux/open` names.
    pub server: Option<u32>,
    /// The URIs of the documents whose last list of diagnostics that it was sent isn't empty: under each the number 0.
    pub full: Index,
}

/// Which editors are looked for.
#[derive(Clone, Copy)]
pub enum Wanted {
    /// Those of this group that run.
    Running(u64),
    /// Those of this group that wait.
    Waiting(u64),
    /// Those of this group whose `initialize` came and whose link isn't to be ended.
    OfGroup(u64),
    /// Those of this group for which a server that exits is started again.
    Needing(u64),
    /// Those whose link isn't to be ended.
    There,
}

// The first of some numbers.
fn first_of(numbers: &BTreeSet<u64>) -> Option<u64>
    ensures { result ≡ first_of numbers.now.keys }
{
    for number in numbers {
        return Some(*number);
    }
    None
}

impl Session {
    /// The editor as it joins. It takes no memory.
    pub fn new(alloc: Global) -> Session
        ensures { result ≡ joined }
    {
        Session {
            phase: Phase::New,
            group: None,
            id: None,
            asks: 0,
            opened: false,
            server: None,
            full: Index::new(alloc),
        }
    }

    /// It was placed in this group by an `initialize` of this id.
    pub fn place(&mut self, group: u64, id: Body)
        ensures { self.new ≡ in_group group id self.old }
    {
        self.group = Some(group);
        self.id = Some(id);
    }

    /// Its first `lspmux/open` came, and names this server, or none.
    pub fn mean(&mut self, server: Option<u32>)
        ensures { self.new ≡ meaning server self.old }
    {
        self.opened = true;
        self.server = server;
    }

    /// It is asked once more: the number of the request, where one below 2^64 is left.
    pub fn ask(&mut self) -> Option<u64>
        ensures number { result ≡ number_of self.old }
        ensures kept { self.new ≡ asked self.old }
    {
        if self.asks == u64::MAX {
            return None;
        }
        self.asks += 1;
        Some(self.asks)
    }

    /// The number of the next request that it is asked, where one below 2^64 is left.
    pub fn next_ask(&self) -> Option<u64>
        ensures { result ≡ number_of self.now }
    {
        if self.asks == u64::MAX {
            return None;
        }
        Some(self.asks + 1)
    }

    /// It was sent a list of diagnostics of the document of this URI, which is empty or isn't.
    pub fn show(&mut self, alloc: Global, uri: &[u8], empty: bool) -> Result<(), Memory>
        ensures rest { self.new ≡ record self.old { full = self.new.full } }
        ensures full { OnOk result (Changes uri.now (noted_by empty) self.old.full self.new.full) }
    {
        if empty {
            self.full.remove(uri, 0);
            return Ok(());
        }
        self.full.add(alloc, uri, 0)
    }

    /// Whether the last list of the document of this URI that it was sent isn't empty.
    pub fn is_full(&self, uri: &[u8]) -> bool
        ensures { result ≡ is_full uri.now self.now }
    {
        match self.full.get(uri) {
            Some(numbers) => first_of(numbers).is_some(),
            None => false,
        }
    }

    // Whether it was placed in this group.
    fn is_in(&self, group: u64) -> bool
        ensures { result ≡ is_in group self.now.group }
    {
        self.group == Some(group)
    }

    // Whether it is of this group and runs.
    fn is_running(&self, group: u64) -> bool
        ensures { result ≡ runs_in group self.now }
    {
        self.phase.is_running() && self.is_in(group)
    }

    // Whether it is of this group and waits.
    fn is_waiting(&self, group: u64) -> bool
        ensures { result ≡ waits_in group self.now }
    {
        self.phase.is_waiting() && self.is_in(group)
    }

    // Whether it is of this group, from its `initialize` until its link is to be ended.
    fn is_of(&self, group: u64) -> bool
        ensures { result ≡ is_of group self.now }
    {
        self.phase.is_begun() && self.is_in(group)
    }

    // Whether it is of this group, and a server that exits is started again for it.
    fn needs_server(&self, group: u64) -> bool
        ensures { result ≡ needs_in group self.now }
    {
        self.phase.needs_server() && self.is_in(group)
    }

    // Whether its link stands and isn't to be ended.
    fn is_there(&self) -> bool
        ensures { result ≡ is_there self.now.phase }
    {
        self.phase.is_there()
    }

    /// Whether it is one of those that are looked for.
    pub fn is_wanted(&self, wanted: Wanted) -> bool
        ensures { result ≡ is_wanted wanted self.now }
    {
        match wanted {
            Wanted::Running(group) => self.is_running(group),
            Wanted::Waiting(group) => self.is_waiting(group),
            Wanted::OfGroup(group) => self.is_of(group),
            Wanted::Needing(group) => self.needs_server(group),
            Wanted::There => self.is_there(),
        }
    }
}
