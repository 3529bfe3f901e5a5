// The groups, by their numbers.
ghost use Rattle.std.specs.Prelude.{◌≡◌, ◌+◌, ◌^◌, None, IsErr, IsErrOf, ◌<◌, ◌≤◌, ℕ, List, length, map, true, false, IfNone, IfOk, IfSome, OnOk, OnErr, MatchOption, option_map, option_copied, ◌++◌, ◌∷◌, [], Some};
ghost use Rattle.group_words.specs.Houses.{idle_if_live};
ghost use Rattle.group_words.specs.Placing.{all_from, changed, ended, exited, busy, is_due, is_live, first_from, founded, idlest_from, founding, live_count, takes, placed_in, with_placed};
ghost use Rattle.std.specs.List.{slice_get};
ghost use Rattle.group_words.specs.capability_meet.specs.declared.fault.CapFault.TheVariants.{NotJson};
ghost use Rattle.group_words.specs.declared.kept.Kept.{Kept};
ghost use Rattle.group_words.specs.Placing as placing;
ghost use Rattle.number_table.specs.Numbers.{numbers_in};
ghost use Rattle.group_table.specs.Live.{first_in, idlest_in, number_of};
ghost use Rattle.group_table.specs.Tables.{Inside, after_place, declared_text, place_in, with_groups};

use crate::compare::takes;
use group_words::capability_meet::{CapFault, declared};
use group_words::{Idle, Kept, Key, Placed};
use message_body::{Body, Memory};
use number_table::{Numbered, forget, place_of};
use std::alloc::Global;
use std::marker::Model;

/// The groups of editors, numbered from 0 in the order in which they were founded.
///
/// At most `limit` of them live at once. One that has no editor for `idle` seconds is due to end. Of a group that ended nothing is
/// kept but that its number was given, so the memory is that of the groups that live. A look-up by number takes a bisection of them,
/// and a list of numbers a walk over them.
#[derive(Drop)]
pub struct Groups {
    alloc: Global,
    limit: u32,
    idle: u64,
    count: u64,
    live: Vec<Numbered<Kept>>,
    ended: Kept,
}

impl Model for Groups {
    ghost use Rattle.group_table.specs.Tables.{Table};

    ghost Value = { Table };

    ghost use Rattle.std.specs.Prelude.{◌≡◌};
    ghost use Rattle.group_words.specs.Placing.{over};
    ghost use Rattle.number_table.specs.Numbers.{Rise, spread};
    ghost use Rattle.group_table.specs.Live.{AreLive};

    ghost view = { λ g. record { limit = g.limit; idle = g.idle; groups = spread over 0 g.count g.live.items } };

    ghost invariant = { λ g. Rise 0 g.count g.live.items × AreLive g.live.items × (g.ended ≡ over) };
}

// The moment since which a live group is idle.
fn idle_since(group: &Kept) -> Option<u64>
    ensures { result ≡ placing.idle_since group.now }
{
    if group.live { group.idle } else { None }
}

// The one that is idle for longer.
fn longer(best: Option<Idle>, group: u64, since: Option<u64>) -> Option<Idle>
    ensures { result ≡ placing.longer best group since }
{
    let Some(since) = since else {
        return best;
    };
    match best {
        None => Some(Idle { group, since }),
        Some(old) => {
            if since < old.since {
                Some(Idle { group, since })
            } else {
                Some(old)
            }
        }
    }
}

// It is live, and idle for as long.
fn is_due(limit: u64, now: u64, group: &Kept) -> bool
    ensures { result ≡ placing.is_due limit now group.now }
{
    match idle_since(group) {
        None => false,
        Some(since) => since as u128 + limit as u128 <= now as u128,
    }
}

// What is kept of a group that ended.
fn over(alloc: Global) -> Result<Kept, Memory>
    ensures { IfOk result (λ kept. kept ≡ placing.over) }
{
    Ok(Kept {
        key: Key {
            server: 0,
            folders: Vec::new(alloc),
            normal: Vec::new(alloc),
            options: None,
        },
        declared: Body::new(Vec::from_slice(alloc, b"{}")?),
        live: false,
        idle: None,
        exits: 0,
    })
}

// The lowest that takes the editor.
fn first_taking(
    alloc: Global,
    live: &[Numbered<Kept>],
    key: &Key,
    declared: &[u8],
) -> Result<Option<u64>, Memory>
    ensures { IfOk result (λ g. g ≡ first_in (takes key.now declared.now) live.now) }
{
    for i in 0..live.len() {
        if takes(alloc, &live[i].item, key, declared)? {
            return Ok(Some(live[i].number));
        }
    }
    Ok(None)
}

// The one that is idle for longest.
fn idlest_of(live: &[Numbered<Kept>]) -> Option<Idle>
    ensures { result ≡ idlest_in None live.now }
{
    let mut best = None;
    for i in 0..live.len() {
        best = longer(best, live[i].number, idle_since(&live[i].item));
    }
    best
}

// The numbers of those that are due.
fn due_of(alloc: Global, live: &[Numbered<Kept>], limit: u64, now: u64) -> Result<Vec<u64>, Memory>
    ensures { IfOk result (λ due. due.items ≡ numbers_in (placing.is_due limit now) live.now) }
{
    let mut due = Vec::new(alloc);
    for i in 0..live.len() {
        if is_due(limit, now, &live[i].item) {
            due.push(live[i].number)?;
        }
    }
    Ok(due)
}

// The numbers of all.
fn numbers_of(alloc: Global, live: &[Numbered<Kept>]) -> Result<Vec<u64>, Memory>
    ensures { IfOk result (λ numbers. numbers.items ≡ map number_of live.now) }
{
    let mut numbers = Vec::new(alloc);
    for i in 0..live.len() {
        numbers.push(live[i].number)?;
    }
    Ok(numbers)
}

impl Groups {
    /// No groups.
    pub fn new(alloc: Global, limit: u32, idle: u64) -> Result<Groups, Memory>
        ensures { IfOk result (λ groups. groups ≡ record { limit = limit; idle = idle; groups = [] }) }
    {
        Ok(Groups {
            alloc,
            limit,
            idle,
            count: 0,
            live: Vec::new(alloc),
            ended: over(alloc)?,
        })
    }

    // The lowest that takes the editor.
    fn taking(&self, key: &Key, declared: &[u8]) -> Result<Option<u64>, Memory>
        ensures first { IfOk result (λ g. g ≡ first_from 0 (takes key.now declared.now) self.now.groups) }
        ensures inside { IfOk result (λ o. MatchOption o (Unit {0}) (λ g. g < length self.now.groups)) }
    {
        let first = first_taking(self.alloc, self.live.as_slice(), key, declared)?;
        Ok(first)
    }

    // How many live.
    fn live(&self) -> usize
        ensures { result ≡ live_count self.now.groups }
    {
        self.live.len()
    }

    // The one that is idle for longest.
    fn idlest(&self) -> Option<Idle>
        ensures { result ≡ idlest_from 0 None self.now.groups }
    {
        idlest_of(self.live.as_slice())
    }

    // One more.
    fn found(&mut self, key: Key, declared: Body) -> Result<u64, Memory>
        ensures number { IfOk result (λ n. n ≡ length self.old.groups) }
        ensures ok { OnOk result (self.new ≡ with_groups (self.old.groups ++ founded key declared ∷ []) self.old) }
        ensures err { OnErr result (self.new ≡ self.old) }
    {
        let number = self.count;
        let next = number.checked_add(1).ok_or(Memory)?;
        self.live.push(Numbered {
            number,
            item: Kept {
                key,
                declared,
                live: true,
                idle: None,
                exits: 0,
            },
        })?;
        self.count = next;
        Ok(number)
    }

    /// E7: an editor with this key, which offers these capabilities, is placed; `ceiling` is that of its server. The lowest live
    /// group of the same key that declares no more than is declared for the editor takes it; else a new one, while fewer live
    /// than the limit; else a new one in place of the one that is idle for longest, the lowest of equals. `NotJson` comes just
    /// where the capabilities or the ceiling are no JSON text that nests at most 1,024 deep. It compares with each live group. A group of
    /// the number 2^64 - 1 or above is answered as out of memory.
    pub fn place(
        &mut self,
        key: Key,
        capabilities: &[u8],
        ceiling: Option<&[u8]>,
    ) -> Result<Placed, CapFault>
        requires capabilities { length capabilities.now ≤ 268435456 }
        requires ceiling { MatchOption ceiling (Unit {0}) (λ c. length c.now ≤ 268435456) }
        ensures placed { (given : List ℕ) → declared_text capabilities.now (option_copied ceiling.entry) ≡ Some given
            → IfOk result (λ p. p ≡ place_in key given self.old) }
        ensures ok { (given : List ℕ) → declared_text capabilities.now (option_copied ceiling.entry) ≡ Some given
            → OnOk result (self.new ≡ after_place key given self.old) }
        ensures inside { IfOk result (λ p. Inside p (length self.new.groups)) }
        ensures refused { IsErrOf result NotJson → declared_text capabilities.now (option_copied ceiling.entry) ≡ None }
        ensures refuses { declared_text capabilities.now (option_copied ceiling.entry) ≡ None → IsErr result }
        ensures err { OnErr result (self.new ≡ self.old) }
    {
        let given = declared(self.alloc, capabilities, ceiling)?;
        Ok(self.put(key, given)?)
    }

    // E7: an editor with these capabilities declared is placed.
    fn put(&mut self, key: Key, declared: Body) -> Result<Placed, Memory>
        ensures placed { IfOk result (λ p. p ≡ place_in key declared self.old) }
        ensures inside { IfOk result (λ p. Inside p (length self.new.groups)) }
        ensures ok { OnOk result (self.new ≡ after_place key declared self.old) }
        ensures err { OnErr result (self.new ≡ self.old) }
    {
        match self.taking(&key, declared.bytes())? {
            Some(g) => Ok(Placed::Joins(g)),
            None => self.put_new(key, declared),
        }
    }

    // The same where no group takes it.
    fn put_new(&mut self, key: Key, declared: Body) -> Result<Placed, Memory>
        ensures placed { IfOk result (λ p. p ≡ founding self.old.limit self.old.groups) }
        ensures inside { IfOk result (λ p. Inside p (length self.new.groups)) }
        ensures ok { OnOk result (self.new ≡ with_groups (with_placed (founding self.old.limit self.old.groups) key declared self.old.groups) self.old) }
        ensures err { OnErr result (self.new ≡ self.old) }
    {
        if self.live() < self.limit as usize {
            let n = self.found(key, declared)?;
            return Ok(Placed::New(n));
        }
        match self.idlest() {
            None => Ok(Placed::TooMany),
            Some(idle) => {
                let n = self.found(key, declared)?;
                self.end(idle.group);
                Ok(Placed::Evicts(idle.group, n))
            }
        }
    }

    /// The group takes no editor any more, and is forgotten. Those that were founded later and live move by one place.
    pub fn end(&mut self, group: u64)
        ensures { self.new ≡ with_groups (changed group ended self.old.groups) self.old }
    {
        if let Some(at) = place_of(&self.live, group) {
            forget(&mut self.live, at);
        }
    }

    /// The group has no editor since this moment, if it lives.
    pub fn idle(&mut self, group: u64, now: u64)
        ensures { self.new ≡ with_groups (changed group (idle_if_live now) self.old.groups) self.old }
    {
        if let Some(at) = place_of(&self.live, group) {
            let kept = &mut self.live[at];
            kept.item.idle = Some(now);
        }
    }

    /// The group has an editor.
    pub fn busy(&mut self, group: u64)
        ensures { self.new ≡ with_groups (changed group busy self.old.groups) self.old }
    {
        if let Some(at) = place_of(&self.live, group) {
            let kept = &mut self.live[at];
            kept.item.idle = None;
        }
    }

    /// One of the group's starts ended: how many did, this one among them; none where the group doesn't live, and then nothing changes.
    pub fn exits(&mut self, group: u64) -> Option<u64>
        requires room { (x : Kept) → slice_get self.old.groups group ≡ Some x → x.exits < 2 ^ 63 }
        ensures count { IfSome result (λ n. (x : Kept) → slice_get self.old.groups group ≡ Some x → (x.live ≡ true) × (n ≡ x.exits + 1)) }
        ensures ended { IfNone result ((x : Kept) → slice_get self.old.groups group ≡ Some x → x.live ≡ false) }
        ensures kept { MatchOption result (self.new ≡ self.old) (λ n. self.new ≡ with_groups (changed group exited self.old.groups) self.old) }
    {
        match place_of(&self.live, group) {
            Some(at) => {
                let kept = &mut self.live[at];
                kept.item.exits += 1;
                Some(kept.item.exits)
            }
            None => None,
        }
    }

    /// The numbers, rising, of the live groups that are idle for `idle` seconds or more.
    pub fn due(&self, now: u64) -> Result<Vec<u64>, Memory>
        ensures { IfOk result (λ due. due.items ≡ all_from 0 (is_due self.now.idle now) self.now.groups) }
    {
        let due = due_of(self.alloc, self.live.as_slice(), self.idle, now)?;
        Ok(due)
    }

    /// The numbers, rising, of the live groups.
    pub fn live_groups(&self) -> Result<Vec<u64>, Memory>
        ensures { IfOk result (λ live. live.items ≡ all_from 0 is_live self.now.groups) }
    {
        let live = numbers_of(self.alloc, self.live.as_slice())?;
        Ok(live)
    }

    /// What is kept of a group: the same of each that ended; none past the last one.
    pub fn get(&self, group: u64) -> Option<&Kept>
        ensures { option_copied result ≡ slice_get self.now.groups group }
    {
        if group >= self.count {
            return None;
        }
        match place_of(&self.live, group) {
            Some(at) => Some(&self.live[at].item),
            None => Some(&self.ended),
        }
    }

    /// How many groups were founded.
    pub fn count(&self) -> u64
        ensures { result ≡ length self.now.groups }
    {
        self.count
    }
}
