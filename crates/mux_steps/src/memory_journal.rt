// A journal in memory.
ghost use Rattle.std.specs.Prelude.{◌≡◌, Some, []};

use crate::journal::{Journal, JournalFault};
use mux_history::Entry;
use std::alloc::Global;

/// A journal that keeps its entries and tells them; the appends whose numbers, from 0, stand in `fails` fail.
#[derive(Debug, Drop)]
pub struct MemJournal {
    alloc: Global,
    list: Vec<Entry>,
    fails: Vec<u64>,
    calls: u64,
    faults: u64,
}

impl MemJournal {
    /// A journal without entries. An append fails where its number, counted from 0 over all appends, stands in `fails`.
    pub fn new(alloc: Global, fails: Vec<u64>) -> MemJournal
        ensures told { ⟦<MemJournal as Journal>⟧.told result ≡ Some [] }
        ensures faults { ⟦<MemJournal as Journal>⟧.faults result ≡ 0 }
    {
        MemJournal {
            alloc,
            list: Vec::new(alloc),
            fails,
            calls: 0,
            faults: 0,
        }
    }

    /// The entries, in their order.
    pub fn entries(&self) -> &[Entry]
        ensures { ⟦<MemJournal as Journal>⟧.told self.now ≡ Some result.now }
    {
        self.list.as_slice()
    }
}

impl Journal for MemJournal {
    ghost told = { λ j. Some j.list.items };

    ghost faults = { λ j. j.faults };

    fn append(&mut self, entry: &Entry) -> Result<(), JournalFault> {
        let fails = self.fails.contains(&self.calls);
        self.calls = self.calls.saturating_add(1);
        if fails {
            self.faults = self.faults.saturating_add(1);
            return Err(JournalFault::Failed);
        }
        let Ok(copied) = entry.copy(self.alloc) else {
            return Err(JournalFault::Memory);
        };
        match self.list.push(copied) {
            Ok(()) => Ok(()),
            Err(_) => Err(JournalFault::Memory),
        }
    }
}
