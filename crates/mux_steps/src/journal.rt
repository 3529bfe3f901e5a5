// Where entries are kept.
ghost use Rattle.std.specs.Prelude.{◌≡◌, ℕ, List, [], ◌∷◌, OnOk, OnErr, Option};
ghost use Rattle.mux_history.specs.declared.entry.Entry.{Entry};
ghost use Rattle.mux_steps.specs.declared.journal.JournalFault.TheVariants as fault;
ghost use Rattle.mux_steps.specs.Journals.{append_told, AppendCause};

use mux_history::Entry;

/// An append that added nothing: the outside failed, or memory was wanted.
#[derive(Clone, Copy, Debug, PartialEq, Eq)]
pub enum JournalFault {
    Failed,
    Memory,
}

/// A list of entries, to which entries are added.
///
/// A journal may tell its entries; it tells after a call exactly where it told before. Its count of faults never
/// falls; it stands still at 2^64 - 1.
pub trait Journal {
    /// The entries appended so far, where they are told.
    ghost told: { Self → Option (List Entry) };

    /// How many appends failed.
    ghost faults: { Self → ℕ };

    /// Adds an entry. `Failed` comes only where the count rose; either fault leaves the entries as they were.
    fn append(&mut self, entry: &Entry) -> Result<(), JournalFault>
        ensures ok { OnOk result (told self.new ≡ append_told (told self.old) (entry.now ∷ [])) }
        ensures err { OnErr result (told self.new ≡ told self.old) }
        ensures cause { AppendCause (faults self.old) (faults self.new) result };
}
