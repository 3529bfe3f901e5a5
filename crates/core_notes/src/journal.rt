// A journal that keeps nothing, and looks for what a user must act on.
ghost use Rattle.std.specs.Prelude.{None, IsOk};

use crate::news::News;
use mux_history::{Cause, Entry, Out};
use mux_steps::{Journal, JournalFault};

/// A journal that keeps and tells nothing, whose append always succeeds, and which says what is to be noted.
#[derive(Drop)]
pub struct NotingJournal {
    news: News,
}

// The editor whose link is ended, of an entry that ends one.
fn closed(entry: &Entry) -> Option<u64> {
    for out in entry.outs.as_slice() {
        if let Out::CloseEditor(editor) = out {
            return Some(*editor);
        }
    }
    None
}

fn closes(entry: &Entry, wanted: u64) -> bool {
    let mut outs = entry.outs.as_slice().iter();
    outs.any(|out| -> bool { matches!(out, Out::CloseEditor(editor) if *editor == wanted) })
}

fn spawns(entry: &Entry) -> bool {
    let mut outs = entry.outs.as_slice().iter();
    outs.any(|out| -> bool { matches!(out, Out::Spawn(_, _)) })
}

fn ends_a_server(entry: &Entry) -> bool {
    let mut outs = entry.outs.as_slice().iter();
    outs.any(|out| -> bool { matches!(out, Out::EndServer(_)) })
}

// The start that ended or couldn't be run, where links are ended with it and no other start comes: its restarts are used up.
fn used_up(entry: &Entry) -> Option<u64> {
    let start = match &entry.cause {
        Cause::StartFailed(start) | Cause::ServerGone(start) => *start,
        _ => return None,
    };
    if spawns(entry) || closed(entry).is_none() {
        return None;
    }
    Some(start)
}

// The editor whose link is ended for no other cause than what is on its way to it: not for what it says itself, a stop (which ends the
// asker's link too), an `initialize` that its server refuses (which ends the start too), or an exit.
fn cut_off(entry: &Entry) -> Option<u64> {
    let editor = closed(entry)?;
    let has_other_cause = match &entry.cause {
        Cause::StartFailed(_) | Cause::ServerGone(_) => true,
        Cause::FromEditor(asker, _) => closes(entry, *asker),
        Cause::FromServer(_, _) => ends_a_server(entry),
        _ => false,
    };
    if has_other_cause { None } else { Some(editor) }
}

impl NotingJournal {
    /// A journal that says here what is to be noted.
    pub fn new(news: News) -> NotingJournal {
        NotingJournal { news }
    }
}

impl Journal for NotingJournal {
    ghost told = { λ _. None };

    ghost faults = { λ _. 0 };

    fn append(&mut self, entry: &Entry) -> Result<(), JournalFault>
        ensures always { IsOk result }
    {
        if let Some(start) = used_up(entry) {
            self.news.put_used_up(start);
        }
        if let Some(editor) = cut_off(entry) {
            self.news.put_cut_off(editor);
        }
        Ok(())
    }
}
