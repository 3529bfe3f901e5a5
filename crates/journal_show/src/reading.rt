// Reading a journal.
ghost use Rattle.std.specs.Prelude.{◌≡◌, ℕ, List, IfOk, IsErrOf};
ghost use Rattle.mux_history.specs.declared.entry.Entry.{Entry};
ghost use Rattle.journal_show.specs.Laws.{IsFrontOf, IsReadAs};
ghost use Rattle.journal_show.specs.Readings.{at_start, in_entry, after_line, is_torn, read_text, told, bad_line};

use drive_text::{cause_of, out_of};
use message_body::Memory;
use mux_history::{Entry, Outs};
use std::alloc::Global;
use std::marker::Model;

/// What a journal says.
#[derive(Drop)]
pub struct Journaled {
    /// The entries that end with a point.
    pub entries: Vec<Entry>,
    /// Whether bytes stand behind the last of them.
    pub torn: bool,
}

/// Why a journal wasn't read.
#[derive(Clone, Copy, Debug, PartialEq, Eq)]
pub enum ShowFault {
    /// This line, counted from 1, is the first one that isn't in a form that is allowed at its place.
    Line(u64),
    /// Memory was wanted.
    Memory,
}

impl From<Memory> for ShowFault {
    ghost use Rattle.std.specs.Prelude.{◌≡◌};
    ghost use Rattle.journal_show.specs.declared.reading.ShowFault.TheVariants as show_fault;

    ghost from_gives = { λ _ e. e ≡ show_fault.Memory };

    fn from(_: Memory) -> Self {
        ShowFault::Memory
    }
}

// The entries that end with a point, and one that is begun behind them.
#[derive(Drop)]
struct Reading {
    entries: Vec<Entry>,
    begun: Option<Entry>,
}

impl Model for Reading {
    ghost use Rattle.journal_show.specs.Readings.{ReadingView};

    ghost Value = { ReadingView };

    ghost view = { λ r. record { entries = r.entries.items; begun = r.begun } };
}

// A line at the start of an entry.
fn at_start(alloc: Global, entries: Vec<Entry>, line: &[u8]) -> Result<Option<Reading>, Memory>
    ensures { IfOk result (λ reading. reading ≡ at_start entries.items line.now) }
{
    let Some(cause) = cause_of(alloc, line)? else {
        return Ok(None);
    };
    let outs = Outs::new(alloc);
    Ok(Some(Reading {
        entries,
        begun: Some(Entry { cause, outs }),
    }))
}

// A line in an entry.
fn in_entry(
    alloc: Global,
    entries: Vec<Entry>,
    entry: Entry,
    line: &[u8],
) -> Result<Option<Reading>, Memory>
    ensures { IfOk result (λ reading. reading ≡ in_entry entries.items entry line.now) }
{
    let mut entries = entries;
    if line == b".".as_slice() {
        entries.push(entry)?;
        return Ok(Some(Reading {
            entries,
            begun: None,
        }));
    }
    let Some(out) = out_of(alloc, line)? else {
        return Ok(None);
    };
    let Entry { cause, mut outs } = entry;
    outs.push(out)?;
    Ok(Some(Reading {
        entries,
        begun: Some(Entry { cause, outs }),
    }))
}

// The reading behind one more line, if the line is allowed there.
fn after_line(alloc: Global, reading: Reading, line: &[u8]) -> Result<Option<Reading>, Memory>
    ensures { IfOk result (λ behind. behind ≡ after_line reading line.now) }
{
    let Reading { entries, begun } = reading;
    match begun {
        None => at_start(alloc, entries, line),
        Some(entry) => in_entry(alloc, entries, entry, line),
    }
}

// What is told where this is left behind the last line feed.
fn end_of(reading: Reading, rest: &[u8]) -> Journaled
    ensures entries { result.entries.items ≡ reading.entries }
    ensures torn { result.torn ≡ is_torn reading.begun rest.now }
{
    let Reading { entries, begun } = reading;
    let torn = begun.is_some() || !rest.is_empty();
    Journaled { entries, torn }
}

// Reads the lines one by one.
fn read_lines(alloc: Global, bytes: &[u8]) -> Result<Journaled, ShowFault>
    ensures told { IfOk result (λ journal. read_text bytes.now ≡ told journal.entries.items journal.torn) }
    ensures line { (k : ℕ) → IsErrOf result (ShowFault.Line k) → read_text bytes.now ≡ bad_line k }
{
    let mut reading = Reading {
        entries: Vec::new(alloc),
        begun: None,
    };
    let mut lines: u64 = 0;
    let mut start = 0;
    for at in 0..bytes.len() {
        if bytes[at] == b'\n' {
            match after_line(alloc, reading, &bytes[start..at])? {
                Some(behind) => reading = behind,
                None => return Err(ShowFault::Line(lines + 1)),
            }
            lines += 1;
            start = at + 1;
        }
    }
    Ok(end_of(reading, &bytes[start..]))
}

/// Reads a journal's text. Only lines that end with a line feed are read, each in its place: a cause's line at the start of
/// an entry, else an out's line or a point. Of a front of what a `LineJournal` wrote it gives the entries whose lines lie
/// in that front. The time is linear in the text.
#[tactic(auto, using(crate::proofs::Readings::read_as, crate::proofs::Readings::no_bad_line))]
pub fn read_journal(alloc: Global, bytes: &[u8]) -> Result<Journaled, ShowFault>
    ensures told { IfOk result (λ journal. read_text bytes.now ≡ told journal.entries.items journal.torn) }
    ensures line { (k : ℕ) → IsErrOf result (ShowFault.Line k) → read_text bytes.now ≡ bad_line k }
    ensures back { (history : List Entry) (count : ℕ) → IsFrontOf history count bytes.now → IfOk result (λ journal. IsReadAs history count journal.entries.items journal.torn) }
    ensures whole { (history : List Entry) (count : ℕ) → IsFrontOf history count bytes.now → (k : ℕ) → IsErrOf result (ShowFault.Line k) → ⊥ }
{
    read_lines(alloc, bytes)
}
