// A journal of lines.
ghost use Rattle.std.specs.Prelude.{◌≡◌, ℕ, None, OnOk, IsErrOf, take};
ghost use Rattle.std.specs.Io.KnownBytes.{append_known};
ghost use Rattle.mux_steps.specs.Journals.{AppendCause};
ghost use Rattle.drive_text.specs.Spellings.{entry_lines};

use crate::write::write_entry;
use mux_history::Entry;
use mux_steps::{Journal, JournalFault};
use outside_io::{Sink, write_whole};
use std::alloc::Global;

/// A journal that writes the lines of each entry to a sink, and doesn't tell its entries.
///
/// Its count of faults is the sink's.
#[derive(Drop)]
pub struct LineJournal<S: Sink> {
    alloc: Global,
    pub sink: S,
}

impl<S: Sink> LineJournal<S> {
    /// A journal that writes to this sink; nothing is written yet.
    pub fn new(alloc: Global, sink: S) -> LineJournal<S>
        ensures { result.sink ≡ sink }
    {
        LineJournal { alloc, sink }
    }
}

impl<S: Sink> Journal for LineJournal<S> {
    ghost told = { λ _. None };

    ghost faults = { λ j. S.faults j.sink };

    fn append(&mut self, entry: &Entry) -> Result<(), JournalFault>
        ensures ok { OnOk result (S.written self.new.sink ≡ append_known (S.written self.old.sink) (entry_lines entry.now)) }
        ensures memory { IsErrOf result JournalFault.Memory → self.new.sink ≡ self.old.sink }
        ensures front { IsErrOf result JournalFault.Failed
            → ((count : ℕ) × (S.written self.new.sink ≡ append_known (S.written self.old.sink) (take count (entry_lines entry.now)))) }
        ensures cause { AppendCause (S.faults self.old.sink) (S.faults self.new.sink) result }
    {
        let Ok(lines) = write_entry(self.alloc, entry) else {
            return Err(JournalFault::Memory);
        };
        match write_whole(&mut self.sink, lines.bytes()) {
            Ok(()) => Ok(()),
            Err(_) => Err(JournalFault::Failed),
        }
    }
}
