// What was sent to each editor and not drained yet.
ghost use Rattle.std.specs.Prelude.{◌≡◌, ◌<◌, ◌++◌, ◌∷◌, [], List, None, Some, IfNone, IfSome, OnOk, length, slice_get, slice_set};
ghost use Rattle.event_model.specs.Event.{Event, behind, said, with_cause};
ghost use Rattle.mux_causes.specs.Backlogs.{BacklogsStand, bytes_in};
ghost use Rattle.mux_history.specs.declared.cause.Cause.TheVariants.{Drained, EditorGone, Joined};
ghost use Rattle.mux_history.specs.declared.cause.Why.{Why};
ghost use Rattle.mux_history.specs.declared.out.Out.TheVariants.{ToEditor};

use message_body::{Body, Memory};
use mux_history::{Cause, Out, Outs};
use number_table::{Numbered, forget, place_of};
use std::alloc::Global;
use std::marker::Model;

/// The bytes of the bodies that were sent to each editor and that its link didn't take yet, by the editor's number.
///
/// Of one whose link ended nothing is kept but that its number was given. A look-up takes a bisection of the others.
#[derive(Debug, Drop)]
pub struct Backlogs {
    count: u64,
    linked: Vec<Numbered<u64>>,
}

impl Model for Backlogs {
    ghost use Rattle.std.specs.Prelude.{ℕ, List};

    ghost Value = { List ℕ };

    ghost use Rattle.number_table.specs.Numbers.{Rise, spread};

    ghost view = { λ b. spread 0 0 b.count b.linked.items };

    ghost invariant = { λ b. Rise 0 b.count b.linked.items };
}

impl Backlogs {
    /// Nobody joined. It takes no memory.
    pub fn new(alloc: Global) -> Backlogs
        ensures { BacklogsStand result [] }
    {
        Backlogs {
            count: 0,
            linked: Vec::new(alloc),
        }
    }

    /// The bytes on their way to an editor; none where it isn't linked.
    pub fn count(&self, e: u64) -> Option<u64>
        ensures some { IfSome result (λ n. slice_get self.now e ≡ Some n) }
        ensures none { IfNone result (bytes_in (slice_get self.now e) ≡ 0) }
    {
        match place_of(&self.linked, e) {
            Some(at) => Some(self.linked[at].item),
            None => None,
        }
    }

    // One editor more.
    fn join(&mut self, e: u64) -> Result<(), Memory>
        ensures { (events : List Event) → BacklogsStand self.old events → OnOk result (BacklogsStand self.new (with_cause events (Joined e))) }
    {
        let number = self.count;
        let next = number.checked_add(1).ok_or(Memory)?;
        self.linked.push(Numbered { number, item: 0 })?;
        self.count = next;
        Ok(())
    }

    // An editor's link ended.
    fn leave(&mut self, e: u64)
        ensures { (events : List Event) (why : Why) → BacklogsStand self.old events → BacklogsStand self.new (with_cause events (EditorGone e why)) }
    {
        if let Some(at) = place_of(&self.linked, e) {
            forget(&mut self.linked, at);
        }
    }

    // Bytes to an editor were written.
    fn drain(&mut self, e: u64, bytes: u64)
        ensures { (events : List Event) → BacklogsStand self.old events → BacklogsStand self.new (with_cause events (Drained e bytes)) }
    {
        if let Some(at) = place_of(&self.linked, e) {
            let kept = &mut self.linked[at];
            kept.item = kept.item.saturating_sub(bytes);
        }
    }

    // A body goes to an editor, if it is linked and if the bytes can be counted.
    fn send(&mut self, e: u64, body: &Body) -> Result<(), Memory>
        ensures { (events : List Event) → BacklogsStand self.old events
            → OnOk result (BacklogsStand self.new (events ++ said (ToEditor e body.now) ∷ [])) }
    {
        let Some(at) = place_of(&self.linked, e) else {
            return Err(Memory);
        };
        let kept = &mut self.linked[at];
        let bytes = kept
            .item
            .checked_add(body.bytes().len() as u64)
            .ok_or(Memory)?;
        kept.item = bytes;
        Ok(())
    }

    // The cause of an entry.
    fn hear(&mut self, cause: &Cause) -> Result<(), Memory>
        ensures { (events : List Event) → BacklogsStand self.old events → OnOk result (BacklogsStand self.new (with_cause events cause.now)) }
    {
        match cause {
            Cause::Joined(e) => self.join(*e),
            Cause::EditorGone(e, _) => {
                self.leave(*e);
                Ok(())
            }
            Cause::Drained(e, bytes) => {
                self.drain(*e, *bytes);
                Ok(())
            }
            _ => Ok(()),
        }
    }

    // One of its outs.
    fn say(&mut self, out: &Out) -> Result<(), Memory>
        ensures { (events : List Event) → BacklogsStand self.old events → OnOk result (BacklogsStand self.new (events ++ said out.now ∷ [])) }
    {
        match out {
            Out::ToEditor(e, body) => self.send(*e, body),
            _ => Ok(()),
        }
    }

    /// Takes in an entry: who joined, what was drained, and what was sent. Counts that pass 2^64 - 1, and bodies to editors that aren't
    /// linked, are answered as out of memory; where the answer is an error the counts stand for nothing any more.
    pub fn take(&mut self, cause: &Cause, outs: &Outs) -> Result<(), Memory>
        ensures { (events : List Event) → BacklogsStand self.old events
            → OnOk result (BacklogsStand self.new (behind (with_cause events cause.now) outs.now)) }
    {
        self.hear(cause)?;
        for out in outs.as_slice() {
            self.say(out)?;
        }
        Ok(())
    }
}
