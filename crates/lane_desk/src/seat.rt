// A lane as the deck keeps it.
ghost use Rattle.std.specs.Prelude.{◌≡◌, ◌++◌, ◌∷◌, ◌==◌, [], ℕ, OnOk, filter, not};
ghost use Rattle.lane_lists.specs.declared.item.Side.TheVariants as side;
ghost use Rattle.lane_lists.specs.Seats.{answered, free_seat, is_now, is_none, begin_seat, close_seat};
ghost use Rattle.lane_desk.specs.Kinds.{first_of, marked, moved};

use crate::kinds::{Kind, Mark};
use message_body::Memory;
use std::alloc::Global;
use std::collections::VecDeque;
use std::marker::Model;

// The orders of this session go.
fn drop_session(owed: &mut VecDeque<(u64, usize)>, session: u64)
    ensures { owed.new.items ≡ filter (λ (o : ℕ × ℕ). not (o.0 == session)) owed.old.items }
{
    owed.retain(|order| order.0 != session);
}

// The orders of the foremost one's session are owed no more.
fn break_off(owed: &mut VecDeque<(u64, usize)>)
    ensures { owed.new.items ≡ answered side.Broke owed.old.items }
{
    let Some((session, _)) = first_owed(owed) else {
        return;
    };
    drop_session(owed, session);
}

// The foremost order.
fn first_owed(owed: &VecDeque<(u64, usize)>) -> Option<(u64, usize)>
    ensures { result ≡ first_of owed.now.items }
{
    owed.front().copied()
}

/// A lane: whose session it is; whether its start came up; whether the session was closed; whether it ended by a failed
/// write, and its own end is still to be taken; and the orders of bodies that no side item answered yet, each with its
/// session and its length.
#[derive(Drop)]
pub struct Seat {
    current: Option<u64>,
    up: bool,
    closed: bool,
    tail: bool,
    owed: VecDeque<(u64, usize)>,
}

impl Model for Seat {
    ghost use Rattle.lane_lists.specs.Seats as lists;

    ghost Value = { lists.Seat };

    ghost view = { λ s. record { now = s.current; up = s.up; closed = s.closed; tail = s.tail; owed = s.owed.items } };
}

impl Seat {
    /// A lane without a session. It takes no memory.
    pub fn free(alloc: Global) -> Seat
        ensures { result ≡ free_seat }
    {
        Seat {
            current: None,
            up: false,
            closed: false,
            tail: false,
            owed: VecDeque::new(alloc),
        }
    }

    /// Whose session it is.
    pub fn session(&self) -> Option<u64>
        ensures { result ≡ self.now.now }
    {
        self.current
    }

    /// Whether its start came up.
    pub fn is_up(&self) -> bool
        ensures { result ≡ self.now.up }
    {
        self.up
    }

    /// Whether its session was closed.
    pub fn is_closed(&self) -> bool
        ensures { result ≡ self.now.closed }
    {
        self.closed
    }

    /// Whether an end of a session that is over is still to be taken.
    pub fn has_tail(&self) -> bool
        ensures { result ≡ self.now.tail }
    {
        self.tail
    }

    /// The session and the length of the foremost order that wasn't answered.
    pub fn first_owed(&self) -> Option<(u64, usize)>
        ensures { result ≡ first_of self.now.owed }
    {
        first_owed(&self.owed)
    }

    /// Whether its session is this one.
    pub fn is_now(&self, session: u64) -> bool
        ensures { result ≡ is_now self.now.now session }
    {
        match self.current {
            None => false,
            Some(now) => now == session,
        }
    }

    /// Whether it has no session.
    pub fn is_free(&self) -> bool
        ensures { result ≡ is_none self.now.now }
    {
        match self.current {
            None => true,
            Some(_) => false,
        }
    }

    /// An item with this mark was taken.
    pub fn mark(&mut self, mark: Mark)
        ensures { self.new ≡ marked mark self.old }
    {
        match mark {
            Mark::Wrote => {
                self.owed.pop_front();
            }
            Mark::Broke => break_off(&mut self.owed),
            Mark::Ended => self.tail = false,
            Mark::Nothing => {}
        }
    }

    /// A cause of this kind came from it.
    pub fn hear(&mut self, is_side: bool, kind: Kind)
        ensures { self.new ≡ moved is_side kind self.old }
    {
        match kind {
            Kind::Joins(session) => {
                self.current = Some(session);
                self.up = true;
                self.closed = false;
            }
            Kind::Starts => self.up = true,
            Kind::Goes => {
                self.current = None;
                self.up = false;
                self.closed = false;
                self.tail = is_side;
            }
            Kind::Stays => {}
        }
    }

    /// Its session is this one from now on.
    pub fn begin(&mut self, session: u64)
        ensures { self.new ≡ begin_seat session self.old }
    {
        self.current = Some(session);
        self.up = false;
        self.closed = false;
    }

    /// Its session is closed.
    pub fn close(&mut self)
        ensures { self.new ≡ close_seat self.old }
    {
        self.closed = true;
    }

    /// It was ordered to write a body of this length for this session.
    pub fn owe(&mut self, session: u64, bytes: usize) -> Result<(), Memory>
        ensures { OnOk result (self.new ≡ record self.old { owed = self.old.owed ++ (session, bytes) ∷ [] }) }
    {
        self.owed.push_back((session, bytes))?;
        Ok(())
    }
}
