// The editors, by their numbers.
ghost use Rattle.std.specs.Prelude.{◌≡◌, ◌≢◌, ◌+◌, ◌^◌, ◌<◌, ◌≤◌, ℕ, [], ◌∷◌, ◌++◌, length, true, None, Some, IfNone, IfOk, IfSome, OnErr, OnOk, option_copied};
ghost use Rattle.event_model.specs.declared.phase.Phase.TheVariants.{Absent};
ghost use Rattle.event_model.specs.Phases.{is_linked, is_there};
ghost use Rattle.editor_session.specs.Sessions.{IsShown, asked, gone, in_group, in_phase, is_full, is_gone, is_of, is_wanted, joined, meaning, needs_in, next_ask, numbers_of, runs_in, session_of, unless_gone, waits_in, with_session};

use crate::session::{Session, Wanted};
use event_model::Phase;
use message_body::{Body, Memory};
use number_table::{Numbered, forget, place_of};
use std::alloc::Global;
use std::marker::Model;

/// The editors that joined (LSP 3.17, Lifecycle Messages), numbered from 0 in the order in which they did.
///
/// Of one whose link ended nothing is kept but that its number was given, so the memory is that of the most editors that were linked at once. A
/// look-up by number takes a bisection of them, and a list of numbers a walk over them.
#[derive(Drop)]
pub struct Editors {
    alloc: Global,
    count: u64,
    linked: Vec<Numbered<Session>>,
}

impl Model for Editors {
    ghost use Rattle.std.specs.Prelude.{List};
    ghost use Rattle.editor_session.specs.declared.session.Session.{Session};

    ghost Value = { List Session };

    ghost use Rattle.number_table.specs.Numbers.{Rise, spread};
    ghost use Rattle.editor_session.specs.Kept.{AreLinked};
    ghost use Rattle.editor_session.specs.Sessions.{gone};

    ghost view = { λ e. spread gone 0 e.count e.linked.items };

    ghost invariant = { λ e. Rise 0 e.count e.linked.items × AreLinked e.linked.items };
}

// Whether its link ended.
fn is_gone(phase: Phase) -> bool
    ensures { result ≡ is_gone phase }
{
    matches!(phase, Phase::Gone)
}

impl Editors {
    /// No editors.
    pub fn new(alloc: Global) -> Editors
        ensures { result ≡ [] }
    {
        Editors {
            alloc,
            count: 0,
            linked: Vec::new(alloc),
        }
    }

    /// How many joined.
    pub fn count(&self) -> u64
        ensures { result ≡ length self.now }
    {
        self.count
    }

    /// Takes in the editor of the next number, as new, in no group and with nothing asked. Running out of memory leaves the
    /// editors as they were.
    pub fn join(&mut self, e: u64) -> Result<(), Memory>
        requires next { e ≡ length self.old }
        requires room { e < 2 ^ 63 }
        ensures ok { OnOk result (self.new ≡ self.old ++ joined ∷ []) }
        ensures err { OnErr result (self.new ≡ self.old) }
    {
        self.linked.push(Numbered {
            number: e,
            item: Session::new(self.alloc),
        })?;
        self.count = e + 1;
        Ok(())
    }

    /// The editor's link ended: it is forgotten. Those that joined later and are linked move by one place.
    pub fn leave(&mut self, e: u64)
        requires { e < length self.old }
        ensures { self.new ≡ with_session self.old e gone }
    {
        if let Some(at) = place_of(&self.linked, e) {
            forget(&mut self.linked, at);
        }
    }

    // What is kept of an editor.
    fn find(&self, e: u64) -> Option<&Session>
        requires { e < length self.now }
        ensures some { IfSome (option_copied result) (λ s. (s ≡ session_of self.now e) × (is_linked s.phase ≡ true)) }
        ensures none { IfNone (option_copied result) (session_of self.now e ≡ gone) }
    {
        match place_of(&self.linked, e) {
            Some(at) => Some(&self.linked[at].item),
            None => None,
        }
    }

    /// Where the editor stands.
    pub fn phase(&self, e: u64) -> Phase
        requires { e < length self.now }
        ensures phase { result ≡ (session_of self.now e).phase }
        ensures joined { result ≢ Absent }
    {
        match self.find(e) {
            Some(session) => session.phase,
            None => Phase::Gone,
        }
    }

    /// Lets it stand there; `Absent` is of those alone that never joined. One that is gone stays gone, and one that is gone from now
    /// on is forgotten, as `leave` does it.
    pub fn set(&mut self, e: u64, phase: Phase)
        requires number { e < length self.old }
        requires joined { phase ≢ Absent }
        ensures { self.new ≡ with_session self.old e (unless_gone (in_phase phase) (session_of self.old e)) }
    {
        let Some(at) = place_of(&self.linked, e) else {
            return;
        };
        if is_gone(phase) {
            forget(&mut self.linked, at);
            return;
        }
        let kept = &mut self.linked[at];
        kept.item.phase = phase;
    }

    /// Places it in a group, and keeps the bytes of the id of its `initialize`; not where it is gone.
    pub fn place(&mut self, e: u64, group: u64, id: Body)
        requires { e < length self.old }
        ensures { self.new ≡ with_session self.old e (unless_gone (in_group group id) (session_of self.old e)) }
    {
        if let Some(at) = place_of(&self.linked, e) {
            let kept = &mut self.linked[at];
            kept.item.place(group, id);
        }
    }

    /// Its first `lspmux/open` came, and names this server, or none; not where it is gone.
    pub fn mean(&mut self, e: u64, server: Option<u32>)
        requires { e < length self.old }
        ensures { self.new ≡ with_session self.old e (unless_gone (meaning server) (session_of self.old e)) }
    {
        if let Some(at) = place_of(&self.linked, e) {
            let kept = &mut self.linked[at];
            kept.item.mean(server);
        }
    }

    /// Whether it sent `lspmux/open`; not told of one that is gone.
    pub fn is_opened(&self, e: u64) -> bool
        requires { e < length self.now }
        ensures { result ≡ (session_of self.now e).opened }
    {
        match self.find(e) {
            Some(session) => session.opened,
            None => false,
        }
    }

    /// The place, among the servers of the settings, of the one that its first `lspmux/open` names; none where it is gone.
    pub fn server(&self, e: u64) -> Option<u32>
        requires { e < length self.now }
        ensures { result ≡ (session_of self.now e).server }
    {
        match self.find(e) {
            Some(session) => session.server,
            None => None,
        }
    }

    /// The group that it was placed in; none where it is gone.
    pub fn group(&self, e: u64) -> Option<u64>
        requires { e < length self.now }
        ensures { result ≡ (session_of self.now e).group }
    {
        match self.find(e) {
            Some(session) => session.group,
            None => None,
        }
    }

    /// The bytes of the id of its `initialize`, where it was placed and isn't gone.
    pub fn id(&self, e: u64) -> Option<&Body>
        requires { e < length self.now }
        ensures { option_copied result ≡ (session_of self.now e).id }
    {
        match self.find(e) {
            Some(session) => session.id.as_ref(),
            None => None,
        }
    }

    /// The number of the next request that it is asked: the first has 1. None where it is gone, or where no number below 2^64 is left.
    pub fn ask_number(&mut self, e: u64) -> Option<u64>
        requires { e < length self.old }
        ensures number { result ≡ next_ask (session_of self.old e) }
        ensures kept { self.new ≡ with_session self.old e (unless_gone asked (session_of self.old e)) }
    {
        match place_of(&self.linked, e) {
            Some(at) => {
                let kept = &mut self.linked[at];
                kept.item.ask()
            }
            None => None,
        }
    }

    /// The same number, before it is asked.
    pub fn next_ask(&self, e: u64) -> Option<u64>
        requires { e < length self.now }
        ensures { result ≡ next_ask (session_of self.now e) }
    {
        match self.find(e) {
            Some(session) => session.next_ask(),
            None => None,
        }
    }

    /// It was sent a list of diagnostics of the document of this URI, which is empty or isn't; nothing is kept of that where it is gone.
    /// Where the answer is an error nothing is said of what is kept of it, but for where it stands.
    pub fn show(&mut self, e: u64, uri: &[u8], empty: bool) -> Result<(), Memory>
        requires { e < length self.old }
        ensures { OnOk result (IsShown uri.now empty e self.old self.new) }
    {
        let Some(at) = place_of(&self.linked, e) else {
            return Ok(());
        };
        let kept = &mut self.linked[at];
        kept.item.show(self.alloc, uri, empty)
    }

    /// Whether the last list of the document of this URI that it was sent isn't empty; not told of one that is gone.
    pub fn is_full(&self, e: u64, uri: &[u8]) -> bool
        requires { e < length self.now }
        ensures { result ≡ is_full uri.now (session_of self.now e) }
    {
        match self.find(e) {
            Some(session) => session.is_full(uri),
            None => false,
        }
    }

    /// The numbers, rising, of the editors of this group that run.
    pub fn running(&self, group: u64) -> Result<Vec<u64>, Memory>
        ensures { IfOk result (λ numbers. numbers.items ≡ numbers_of (λ s. runs_in group s) self.now) }
    {
        self.numbers(Wanted::Running(group))
    }

    /// The numbers, rising, of the editors of this group that wait for the answer to their `initialize`.
    pub fn waiting(&self, group: u64) -> Result<Vec<u64>, Memory>
        ensures { IfOk result (λ numbers. numbers.items ≡ numbers_of (λ s. waits_in group s) self.now) }
    {
        self.numbers(Wanted::Waiting(group))
    }

    /// The numbers, rising, of the editors of this group whose `initialize` came and whose link isn't to be ended.
    pub fn of_group(&self, group: u64) -> Result<Vec<u64>, Memory>
        ensures { IfOk result (λ numbers. numbers.items ≡ numbers_of (λ s. is_of group s) self.now) }
    {
        self.numbers(Wanted::OfGroup(group))
    }

    /// The numbers, rising, of the editors of this group for which a server that exits is started again: those whose
    /// `initialize` came, and neither `shutdown` nor an end.
    pub fn needing(&self, group: u64) -> Result<Vec<u64>, Memory>
        ensures { IfOk result (λ numbers. numbers.items ≡ numbers_of (λ s. needs_in group s) self.now) }
    {
        self.numbers(Wanted::Needing(group))
    }

    /// The numbers, rising, of the editors whose link stands and isn't to be ended.
    pub fn there(&self) -> Result<Vec<u64>, Memory>
        ensures { IfOk result (λ numbers. numbers.items ≡ numbers_of (λ s. is_there s.phase) self.now) }
    {
        self.numbers(Wanted::There)
    }

    // The numbers, rising, of the editors that are looked for.
    #[tactic(auto, using(crate::proofs::Numbers::found_more, crate::proofs::Numbers::found_same))]
    fn numbers(&self, wanted: Wanted) -> Result<Vec<u64>, Memory>
        ensures { IfOk result (λ numbers. numbers.items ≡ numbers_of (λ s. is_wanted wanted s) self.now) }
    {
        let mut numbers = Vec::new(self.alloc);
        for kept in &self.linked {
            if kept.item.is_wanted(wanted) {
                numbers.push(kept.number)?;
            }
        }
        Ok(numbers)
    }
}
