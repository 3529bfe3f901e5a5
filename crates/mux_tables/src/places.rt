// What rows ask of an editor's group, and of the last start there.
ghost use Rattle.std.specs.Prelude.{◌≡◌, ◌<◌, ◌&&◌, ℕ, List, map, None, Some, true, length, nat_lt, IfNone, IfOk, IfSome, option_copied, slice_get};
ghost use Rattle.event_model.specs.Event.{Event};
ghost use Rattle.event_model.specs.Settings.{Settings};
ghost use Rattle.event_model.specs.Spawns.{start_of};
ghost use Rattle.event_model.specs.Stages.{is_ready, life_of};
ghost use Rattle.group_laws.specs.group_rows.specs.Forwarded.{forwarding_of};
ghost use Rattle.group_laws.specs.group_rows.specs.Leaves.{uncancelled_of};
ghost use Rattle.group_laws.specs.group_rows.specs.Rows.{can_ask};
ghost use Rattle.group_words.specs.Houses.{groups_of, home_of};
ghost use Rattle.group_words.specs.Rows.{result_of, shown_of};
ghost use Rattle.id_rewrite.specs.Tables.{IsInOrder, pending_of};
ghost use Rattle.rpc_message.specs.Message.{result_bytes};
ghost use Rattle.mux_tables.specs.declared.tables.Start.{Start};
ghost use Rattle.mux_tables.specs.Cancels.{is_uncancelled};
ghost use Rattle.mux_tables.specs.Stands.{HasEnded, IsLost, IsPlace, Rise, Stands, forwarded_of, number_in, start_for};

use crate::tables::Tables;
use event_model::Stage;
use group_words::Kept;
use id_rewrite::IdTable;
use message_body::{Body, Memory};

// The request of this number is open and wasn't cancelled.
fn is_uncancelled(ids: &IdTable, n: u32) -> bool
    ensures { result ≡ is_uncancelled (pending_of n ids.now.requests) }
{
    match ids.get(n) {
        Some(pending) => !pending.cancelled,
        None => false,
    }
}

// The numbers, rising, of an editor's open requests that it didn't cancel.
fn uncancelled_of(ids: &IdTable, e: u64) -> Result<Vec<u32>, Memory>
    ensures { IsInOrder ids.now → IfOk result (λ numbers. numbers.items ≡ uncancelled_of e (map forwarded_of ids.now.requests)) }
{
    let mut numbers = ids.of_editor(e)?;
    numbers.retain(|n| is_uncancelled(ids, *n));
    Ok(numbers)
}

impl Tables {
    /// The place of the group in which an editor is. Where there is none, it is in no group, or the group has no start, or one that ended;
    /// an editor past the end is in none.
    pub fn place(&self, e: u64) -> Option<usize>
        ensures inside { IfSome result (λ g. g < length self.now.lasts.items) }
        ensures none { IfNone result ((settings : Settings) (events : List Event) → Stands settings self.now events
            → HasEnded (start_for settings e events) events) }
        ensures home { IfSome result (λ g. (settings : Settings) (events : List Event) (x : Start) → slice_get self.now.lasts.items g ≡ Some x
            → Stands settings self.now events → home_of settings e events ≡ Some x.life.group) }
        ensures start { IfSome result (λ g. (settings : Settings) (events : List Event) (s : ℕ)
            → slice_get (map number_in self.now.lasts.items) g ≡ Some s → Stands settings self.now events
            → start_for settings e events ≡ Some s) }
    {
        if e >= self.editors.count() {
            return None;
        }
        let g = self.editors.group(e)?;
        self.place_of(g)
    }

    /// The place of the group of a number, by a bisection. Where there is none, it has no start, or one that ended.
    pub fn place_of(&self, g: u64) -> Option<usize>
        ensures inside { IfSome result (λ place. place < length self.now.lasts.items) }
        ensures number { IfSome result (λ place. (x : Start) → slice_get self.now.lasts.items place ≡ Some x → x.life.group ≡ g) }
        ensures lost { IfNone result (Rise 0 self.now.lasts.items → IsLost g self.now.lasts.items) }
        ensures none { IfNone result ((settings : Settings) (events : List Event) → Stands settings self.now events
            → HasEnded (start_of g events) events) }
        ensures start { IfSome result (λ place. (settings : Settings) (events : List Event) (s : ℕ)
            → slice_get (map number_in self.now.lasts.items) place ≡ Some s → Stands settings self.now events → start_of g events ≡ Some s) }
    {
        let place = self.lasts.partition_point(|last| last.life.group() < g);
        if place >= self.lasts.len() {
            return None;
        }
        if self.lasts[place].life.group() != g {
            return None;
        }
        Some(place)
    }

    // The place of a group that an editor may have been placed in.
    pub fn place_in(&self, home: Option<u64>) -> Option<usize>
        ensures { IsPlace self.now.lasts.items home result }
    {
        let g = home?;
        self.place_of(g)
    }

    // The group in which an editor is; one past the end is in none.
    pub fn home(&self, e: u64) -> Option<u64>
        ensures { (settings : Settings) (events : List Event) → Stands settings self.now events → home_of settings e events ≡ result }
    {
        if e >= self.editors.count() {
            return None;
        }
        self.editors.group(e)
    }

    /// Where the group's last start stands.
    pub fn stage(&self, g: usize) -> Stage
        requires { g < length self.now.lasts.items }
        ensures { (settings : Settings) (events : List Event) (s : ℕ) → slice_get (map number_in self.now.lasts.items) g ≡ Some s
            → Stands settings self.now events → result ≡ (life_of s events).stage }
    {
        self.lasts[g].life.stage()
    }

    /// Whether the group's last start takes a request: it is ready, and a number is left.
    pub fn can_ask(&self, g: usize) -> bool
        requires { g < length self.now.lasts.items }
        ensures stands { (settings : Settings) (events : List Event) (s : ℕ) → slice_get (map number_in self.now.lasts.items) g ≡ Some s
            → Stands settings self.now events → result ≡ can_ask settings s events }
        ensures takes { (x : Start) → slice_get self.now.lasts.items g ≡ Some x → result ≡ (is_ready x.life.stage && nat_lt x.ids.next x.ids.limit) }
    {
        self.lasts[g].can_ask()
    }

    /// The number of the next request to the group's last start, where one is left.
    pub fn next_number(&self, g: usize) -> u32
        requires group { g < length self.now.lasts.items }
        requires left { (x : Start) → slice_get self.now.lasts.items g ≡ Some x → x.ids.next < x.ids.limit }
        ensures { (x : Start) → slice_get self.now.lasts.items g ≡ Some x → result ≡ x.ids.next }
    {
        let Ok(n) = self.lasts[g].ids.next() else {
            unreachable!()
        };
        n
    }

    /// What editors are shown of the result that the group's last start gave; there is such a result where it is ready.
    pub fn shown(&self, g: usize) -> Option<&Body>
        requires { g < length self.now.lasts.items }
        ensures { (settings : Settings) (events : List Event) (s : ℕ) → slice_get (map number_in self.now.lasts.items) g ≡ Some s
            → Stands settings self.now events → is_ready (life_of s events).stage ≡ true
            → (given : List ℕ) × (result_of s events ≡ Some given) × (option_copied result ≡ Some (shown_of (result_bytes given))) }
    {
        self.lasts[g].shown.as_ref()
    }

    /// The numbers, rising, of an editor's open requests at the group's last start that it didn't cancel.
    pub fn uncancelled_of(&self, g: usize, e: u64) -> Result<Vec<u32>, Memory>
        requires { g < length self.now.lasts.items }
        ensures { (settings : Settings) (events : List Event) (s : ℕ) → slice_get (map number_in self.now.lasts.items) g ≡ Some s
            → Stands settings self.now events → IfOk result (λ numbers. numbers.items ≡ uncancelled_of e (forwarding_of settings s events).open_requests) }
    {
        let numbers = uncancelled_of(&self.lasts[g].ids, e)?;
        Ok(numbers)
    }

    /// What is kept of the group of a number; none where there is no such group.
    pub fn kept(&self, g: u64) -> Option<&Kept>
        ensures { (settings : Settings) (events : List Event) → Stands settings self.now events
            → option_copied result ≡ slice_get (groups_of settings events) g }
    {
        self.groups.get(g)
    }
}
