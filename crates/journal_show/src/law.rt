//! Laws of journals.
ghost use Rattle.journal_show.specs.Laws.{JournalHolds, JournalIsRead};

/// The text that a `LineJournal` writes of a history is read as that history, and each front of the text as the longest
/// front of the history whose text lies in it.
pub fn journal_law()
    ensures whole { JournalIsRead }
    ensures fronts { JournalHolds }
{}
