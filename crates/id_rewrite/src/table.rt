//! The table of open requests.
ghost use Rattle.std.specs.Prelude.{◌≡◌, ℕ, ◌+◌, ◌<◌, ◌≤◌, List, [], ◌∷◌, ◌++◌, true, None, Some, IfOk, IsOk, OnOk, OnErr, IfSome, MatchResult, option_copied, option_map};
ghost use Rattle.response_route.specs.rpc_message.specs.Message.{Id};
ghost use Rattle.response_route.specs.rpc_message.specs.ValueTexts.{IsIdText};
ghost use Rattle.id_rewrite.specs.Tables.{AreIds, IsInOrder, last_editor, number_of, number_under, numbers_of, pending_of, with_cancelled, without, editors_of};

use crate::form::fingerprint;
use crate::pending::{NumbersUsed, Pending, is_under};
use crate::slots::Slots;
use indexmap::IndexMap;
use message_body::Memory;
use std::alloc::{AllocFailed, Global};
use std::marker::Model;

/// The open requests that were sent to one start of a server.
///
/// A request's number is the id under which the server has it. Numbers start at 2, rise by one, and end below the
/// limit; none is given twice. The limit itself is kept for `shutdown`.
#[derive(Drop)]
pub struct IdTable {
    alloc: Global,
    slots: Slots,
    // The numbers of the open requests by their fingerprints, and whether two of these may have been one.
    numbers: IndexMap<u128, u32>,
    doubled: bool,
    // For how many requests there's room in both.
    room: u32,
    limit: u32,
}

impl Model for IdTable {
    ghost use Rattle.indexmap.specs.IndexMap.{spare};
    ghost use Rattle.id_rewrite.specs.Tables.{Table};
    ghost use Rattle.id_rewrite.specs.Slots.{IsKept};

    ghost Value = { Table };

    ghost view = { λ t. record { requests = t.slots.requests; next = t.slots.next; limit = t.limit; spare = t.room } };

    ghost invariant = { λ t. IsKept (record { requests = t.slots.requests; next = t.slots.next; limit = t.limit; spare = t.room }) t.slots.spare (spare t.numbers) t.doubled t.numbers.entries };
}

// Whether a map had no number under a key that was inserted.
fn is_new(inserted: Result<Option<u32>, AllocFailed<(u128, u32)>>) -> bool
    ensures { result ≡ true → IfOk inserted (λ old. old ≡ None) × IsOk inserted }
{
    matches!(inserted, Ok(None))
}

impl IdTable {
    /// No requests. Numbers end below `limit`, which is at least 2.
    pub fn new(alloc: Global, limit: u32) -> Self
        requires { 2 ≤ limit }
        ensures requests { result.requests ≡ [] }
        ensures next { result.next ≡ 2 }
        ensures limit { result.limit ≡ limit }
        ensures spare { result.spare ≡ 0 }
        ensures order { IsInOrder result }
    {
        IdTable {
            alloc,
            slots: Slots::new(alloc),
            numbers: IndexMap::new(alloc),
            doubled: false,
            room: 0,
            limit,
        }
    }

    /// The number that the next request gets.
    pub fn next(&self) -> Result<u32, NumbersUsed>
        ensures next { MatchResult result (λ n. (n ≡ self.now.next) × (n < self.now.limit)) (λ _. self.now.next ≡ self.now.limit) }
        ensures order { IsInOrder self.now }
    {
        let next = self.slots.next();
        if next == self.limit {
            return Err(NumbersUsed);
        }
        Ok(next)
    }

    /// Makes room for one more request, so that `put` takes no memory.
    pub fn reserve(&mut self) -> Result<(), Memory>
        ensures requests { self.new.requests ≡ self.old.requests }
        ensures next { self.new.next ≡ self.old.next }
        ensures limit { self.new.limit ≡ self.old.limit }
        ensures spare { OnOk result ((1 ≤ self.new.spare) × (self.old.spare ≤ self.new.spare)) }
        ensures err { OnErr result ((self.old.spare ≡ 0) × (self.new ≡ self.old)) }
        ensures order { IsInOrder self.new }
    {
        if self.room == 0 {
            self.slots.reserve()?;
            self.numbers.reserve(1)?;
            self.room = 1;
        }
        Ok(())
    }

    /// Keeps a request that is sent on, in the room that `reserve` made, and gives its number.
    pub fn put(&mut self, pending: Pending) -> u32
        requires room { 1 ≤ self.old.spare }
        requires left { self.old.next < self.old.limit }
        ensures number { result ≡ self.old.next }
        ensures requests { self.new.requests ≡ self.old.requests ++ record { number = self.old.next; pending = pending } ∷ [] }
        ensures next { self.new.next ≡ self.old.next + 1 }
        ensures limit { self.new.limit ≡ self.old.limit }
        ensures spare { self.new.spare + 1 ≡ self.old.spare }
        ensures order { IsInOrder self.new }
    {
        let key = fingerprint(pending.editor, pending.id.bytes());
        let number = self.slots.push(pending);
        self.doubled |= !is_new(self.numbers.insert(key, number));
        self.room -= 1;
        number
    }

    /// Takes the open request of a number out. Its room isn't given back.
    pub fn take(&mut self, n: u32) -> Option<Pending>
        ensures value { result ≡ pending_of n self.old.requests }
        ensures requests { self.new.requests ≡ without n self.old.requests }
        ensures next { self.new.next ≡ self.old.next }
        ensures limit { self.new.limit ≡ self.old.limit }
        ensures spare { self.new.spare ≡ self.old.spare }
        ensures order { IsInOrder self.new }
    {
        let pending = self.slots.take(n)?;
        let key = fingerprint(pending.editor, pending.id.bytes());
        self.numbers.swap_remove(&key);
        self.doubled &= !self.slots.is_empty();
        Some(pending)
    }

    /// What is kept of the open request of a number.
    pub fn get(&self, n: u32) -> Option<&Pending>
        ensures value { option_copied result ≡ pending_of n self.now.requests }
        ensures order { IsInOrder self.now }
    {
        self.slots.get(n)
    }

    /// The number of the open request of an editor under an id, the lowest where there are more.
    ///
    /// `id` is the text of an id, as the kept ones are. Other bytes that begin with a quotation mark count as a
    /// string, by the characters that are read of them; all others count by themselves. A look-up takes time that
    /// is linear in `id`; it is a walk over the open requests as long as an editor has two open under one id.
    pub fn find(&self, editor: u64, id: &[u8]) -> Option<u32>
        ensures exact { result ≡ number_under editor id.now self.now.requests }
        ensures number { (meaning : List ℕ → Id) (i : Id) → IsIdText i id.now → AreIds meaning self.now.requests
            → result ≡ number_of meaning editor i self.now.requests }
        ensures own { IfSome result (λ n. option_map (λ p. p.editor) (pending_of n self.now.requests) ≡ Some editor) }
    {
        self.found(editor, id)
    }

    // The first open request of an editor under an id.
    fn found(&self, editor: u64, id: &[u8]) -> Option<u32>
        ensures exact { result ≡ number_under editor id.now self.now.requests }
        ensures order { IsInOrder self.now }
    {
        if self.doubled {
            return self.slots.first_under(editor, id);
        }
        let number = *self.numbers.get(&fingerprint(editor, id))?;
        let pending = self.slots.get(number)?;
        if is_under(pending, editor, id) {
            Some(number)
        } else {
            None
        }
    }

    /// Marks the open request of a number as cancelled (LSP 3.17, Cancellation Support), where the number is open.
    pub fn cancel(&mut self, n: u32)
        ensures requests { self.new.requests ≡ with_cancelled n self.old.requests }
        ensures next { self.new.next ≡ self.old.next }
        ensures limit { self.new.limit ≡ self.old.limit }
        ensures spare { self.new.spare ≡ self.old.spare }
        ensures order { IsInOrder self.new }
    {
        self.slots.cancel(n);
    }

    /// The numbers of an editor's open requests, rising, by a walk over all open requests.
    pub fn of_editor(&self, editor: u64) -> Result<Vec<u32>, Memory>
        ensures { IfOk result (λ numbers. numbers.items ≡ numbers_of editor self.now.requests) }
    {
        self.slots.of_editor(self.alloc, editor)
    }

    /// The editor of each open request, in the order of their numbers, by a walk over all open requests.
    pub fn editors(&self) -> Result<Vec<u64>, Memory>
        ensures { IfOk result (λ editors. editors.items ≡ editors_of self.now.requests) }
    {
        self.slots.editors(self.alloc)
    }

    /// The editor, among these, of the greatest open number that one of them has. It walks down from the greatest open
    /// number to that one, and looks through `among` at each.
    pub fn last_editor(&self, among: &[u64]) -> Option<u64>
        ensures { result ≡ last_editor among.now self.now.requests }
    {
        self.slots.last_editor(among)
    }
}
