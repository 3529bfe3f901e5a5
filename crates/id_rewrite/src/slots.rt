// The open requests by number.
ghost use Rattle.std.specs.Prelude.{◌≡◌, ℕ, ◌+◌, ◌<◌, ◌≤◌, ◌^◌, ◌&&◌, List, [], ◌∷◌, ◌++◌, Some, IfNone, IfOk, IfSome, IsTrue, is_some, OnErr, OnOk, find, get_or, length, option_copied, option_map};
ghost use Rattle.id_rewrite.specs.Slots.{RiseSlots, any_of, live, marked};
ghost use Rattle.id_rewrite.specs.Tables.{RiseWithin, editors_of, is_among, is_of, is_under, last_editor, number_under, numbers_of, pending_of, with_cancelled, without};

use crate::pending::{Pending, is_under};
use message_body::Memory;
use std::alloc::Global;
use std::marker::Model;

/// A number that was given, and its request as long as that is open.
#[derive(Drop)]
pub struct Slot {
    pub number: u32,
    pub pending: Option<Pending>,
}

/// The open requests, by numbers that rise from 2.
///
/// A request that is taken leaves its place empty. Once more than half of the places are empty these are dropped, so
/// that a look-up takes a bisection of twice the open requests at most, and taking costs no more, spread over the calls.
#[derive(Drop)]
pub struct Slots {
    slots: Vec<Slot>,
    next: u32,
    empty: usize,
}

impl Model for Slots {
    ghost use Rattle.std.specs.Prelude.{◌-◌, vec_len, vec_capacity};
    ghost use Rattle.id_rewrite.specs.Slots.{Open, RiseSlots, live};

    ghost Value = { Open };

    ghost view = { λ t. record { requests = live t.slots.items; next = t.next; spare = vec_capacity t.slots - vec_len t.slots } };

    ghost invariant = { λ t. RiseSlots 2 t.next t.slots.items };
}

// The place of a number, where none between the first and it was dropped.
fn straight_place(slots: &[Slot], n: u32) -> Option<usize>
    ensures { IfSome result (λ k. (k < length slots.now) × ((s : Slot) → s ≡ get_or slots.now k s → s.number ≡ n)) }
{
    let first = slots.first()?.number;
    let at = n.checked_sub(first)? as usize;
    let slot = slots.get(at)?;
    if slot.number == n { Some(at) } else { None }
}

// The place of a number.
fn place(slots: &[Slot], n: u32) -> Option<usize>
    requires { (from : ℕ) × (to : ℕ) × RiseSlots from to slots.now }
    ensures found { IfSome result (λ k. (k < length slots.now) × ((s : Slot) → s ≡ get_or slots.now k s → s.number ≡ n)) }
    ensures none { IfNone result (pending_of n (live slots.now) ≡ None) }
{
    if let Some(at) = straight_place(slots, n) {
        return Some(at);
    }
    let mut low = 0;
    let mut high = slots.len();
    while low < high {
        let middle = low + (high - low) / 2;
        if slots[middle].number < n {
            low = middle + 1;
        } else {
            high = middle;
        }
    }
    let slot = slots.get(low)?;
    if slot.number == n { Some(low) } else { None }
}

// Whether a place holds an open request.
fn is_open(slot: &Slot) -> bool
    ensures { result ≡ is_some slot.now.pending }
{
    slot.pending.is_some()
}

// Whether the open request of a place is of an editor.
fn is_of(slot: &Slot, editor: u64) -> bool
    ensures { result ≡ any_of (is_of editor) slot.now }
{
    match &slot.pending {
        Some(pending) => pending.editor == editor,
        None => false,
    }
}

// The editor of the open request of a place.
fn editor_of(slot: &Slot) -> Option<u64>
    ensures { result ≡ option_map (λ p. p.editor) slot.now.pending }
{
    match &slot.pending {
        Some(pending) => Some(pending.editor),
        None => None,
    }
}

// Whether the open request of a place is of an editor, under an id.
fn is_slot_under(slot: &Slot, editor: u64, id: &[u8]) -> bool
    ensures { result ≡ any_of (is_under editor id.now) slot.now }
{
    match &slot.pending {
        Some(pending) => is_under(pending, editor, id),
        None => false,
    }
}

// The editor of the open request of a place, where it is listed.
fn listed(slot: &Slot, among: &[u64]) -> Option<u64>
    ensures { result ≡ last_editor among.now (live (slot.now ∷ [])) }
{
    match &slot.pending {
        Some(pending) if among.contains(&pending.editor) => Some(pending.editor),
        _ => None,
    }
}

// The open request of a place is cancelled.
fn mark(slot: &mut Slot)
    ensures number { slot.new.number ≡ slot.old.number }
    ensures pending { slot.new.pending ≡ option_map marked slot.old.pending }
{
    if let Some(pending) = &mut slot.pending {
        pending.cancelled = true;
    }
}

impl Slots {
    pub fn new(alloc: Global) -> Slots
        ensures requests { result.requests ≡ [] }
        ensures next { result.next ≡ 2 }
    {
        Slots {
            slots: Vec::new(alloc),
            next: 2,
            empty: 0,
        }
    }

    pub fn next(&self) -> u32
        ensures { result ≡ self.now.next }
    {
        self.next
    }

    /// Whether no place is left; `take` leaves none where it takes the last open request.
    pub fn is_empty(&self) -> bool
        ensures { IsTrue result → self.now.requests ≡ [] }
    {
        self.slots.is_empty()
    }

    pub fn reserve(&mut self) -> Result<(), Memory>
        ensures requests { self.new.requests ≡ self.old.requests }
        ensures next { self.new.next ≡ self.old.next }
        ensures spare { OnOk result (1 ≤ self.new.spare) }
        ensures more { self.old.spare ≤ self.new.spare }
    {
        self.slots.reserve(1)?;
        Ok(())
    }

    pub fn push(&mut self, pending: Pending) -> u32
        requires room { 1 ≤ self.old.spare }
        requires left { self.old.next + 1 < 2 ^ 32 }
        ensures number { result ≡ self.old.next }
        ensures requests { self.new.requests ≡ self.old.requests ++ record { number = self.old.next; pending = pending } ∷ [] }
        ensures next { self.new.next ≡ self.old.next + 1 }
        ensures spare { self.new.spare + 1 ≡ self.old.spare }
    {
        let number = self.next;
        self.slots.push_reserved(Slot {
            number,
            pending: Some(pending),
        });
        self.next = number + 1;
        number
    }

    // One place more is empty; where more than half of them are, these go.
    fn emptied(&mut self)
        ensures requests { self.new.requests ≡ self.old.requests }
        ensures next { self.new.next ≡ self.old.next }
        ensures more { self.old.spare ≤ self.new.spare }
    {
        self.empty = self.empty.saturating_add(1);
        if self.empty > self.slots.len() / 2 {
            self.slots.retain(|slot| is_open(slot));
            self.empty = 0;
        }
    }

    pub fn take(&mut self, n: u32) -> Option<Pending>
        ensures value { result ≡ pending_of n self.old.requests }
        ensures requests { self.new.requests ≡ without n self.old.requests }
        ensures next { self.new.next ≡ self.old.next }
        ensures more { self.old.spare ≤ self.new.spare }
    {
        let at = place(&self.slots, n)?;
        let pending = self.slots[at].pending.take()?;
        self.emptied();
        Some(pending)
    }

    pub fn get(&self, n: u32) -> Option<&Pending>
        ensures value { option_copied result ≡ pending_of n self.now.requests }
    {
        let at = place(&self.slots, n)?;
        self.slots[at].pending.as_ref()
    }

    pub fn cancel(&mut self, n: u32)
        ensures requests { self.new.requests ≡ with_cancelled n self.old.requests }
        ensures next { self.new.next ≡ self.old.next }
        ensures spare { self.new.spare ≡ self.old.spare }
    {
        if let Some(at) = place(&self.slots, n) {
            mark(&mut self.slots[at]);
        }
    }

    /// The first request of an editor under an id, by a walk over all places.
    pub fn first_under(&self, editor: u64, id: &[u8]) -> Option<u32>
        ensures { result ≡ number_under editor id.now self.now.requests }
    {
        for slot in &self.slots {
            if is_slot_under(slot, editor, id) {
                return Some(slot.number);
            }
        }
        None
    }

    #[tactic(auto, using(crate::proofs::Slotting::numbers_more, crate::proofs::Slotting::numbers_same, crate::proofs::Slotting::numbers_all))]
    pub fn of_editor(&self, alloc: Global, editor: u64) -> Result<Vec<u32>, Memory>
        ensures { IfOk result (λ numbers. numbers.items ≡ numbers_of editor self.now.requests) }
    {
        let mut numbers = Vec::new(alloc);
        for slot in &self.slots {
            if is_of(slot, editor) {
                numbers.push(slot.number)?;
            }
        }
        Ok(numbers)
    }

    #[tactic(auto, using(crate::proofs::Slotting::editors_more, crate::proofs::Slotting::editors_same, crate::proofs::Slotting::editors_all))]
    pub fn editors(&self, alloc: Global) -> Result<Vec<u64>, Memory>
        ensures { IfOk result (λ editors. editors.items ≡ editors_of self.now.requests) }
    {
        let mut editors = Vec::new(alloc);
        for slot in &self.slots {
            if let Some(editor) = editor_of(slot) {
                editors.push(editor)?;
            }
        }
        Ok(editors)
    }

    pub fn last_editor(&self, among: &[u64]) -> Option<u64>
        ensures { result ≡ last_editor among.now self.now.requests }
    {
        let mut end = self.slots.len();
        while end > 0 {
            end -= 1;
            if let Some(editor) = listed(&self.slots[end], among) {
                return Some(editor);
            }
        }
        None
    }
}
