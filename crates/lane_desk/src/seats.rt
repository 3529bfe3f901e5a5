// The lanes, as the deck keeps them.
ghost use Rattle.std.specs.Prelude.{◌≡◌, ◌<◌, ◌↔◌, IfOk, IfSome, IsTrue, OnOk, length, replicate, slice_set};
ghost use Rattle.lane_lists.specs.declared.item.Meaning.TheVariants as meant;
ghost use Rattle.lane_lists.specs.Deeds.{start};
ghost use Rattle.lane_lists.specs.Seats.{begin_seat, close_seat, free_place, free_seat, meaning, on_seat, place_of, seat_at, seat_of};
ghost use Rattle.lane_desk.specs.Kinds.{joined_by, marked, moved, owing};
ghost use Rattle.lane_desk.specs.Places.{IsLane};
ghost use Rattle.lane_desk.specs.Smalls.{IsSmall};
ghost use Rattle.lane_desk.specs.Stops.{has_no_editor, is_idle, taken_place};

use crate::kinds::{Kind, Mark};
use crate::meaning::ticked;
use crate::seat::Seat;
use lane_lists::{Item, LaneName, Meaning};
use message_body::Memory;
use std::alloc::Global;
use std::collections::VecDeque;
use std::marker::Model;

/// The lanes of editors and of servers, the starts that wait for a lane, and the number of the next editor.
#[derive(Drop)]
pub struct Seats {
    pub alloc: Global,
    pub editors: Vec<Seat>,
    pub servers: Vec<Seat>,
    pub waiting: VecDeque<u64>,
    pub joined: u64,
}

impl Model for Seats {
    ghost use Rattle.std.specs.Prelude.{◌<◌, ◌^◌, length};
    ghost use Rattle.lane_lists.specs.Seats as lists;

    ghost Value = { lists.Seats };

    ghost view = { λ s. record { editors = s.editors.items; servers = s.servers.items; waiting = s.waiting.items; joined = s.joined } };

    ghost invariant = { λ s. (length s.editors.items < 2 ^ 32) × (length s.servers.items < 2 ^ 32) };
}

// Lanes without a session.
#[tactic(auto, using(std::proofs::lemmas::List::replicate_more))]
fn free_seats(alloc: Global, count: u32) -> Result<Vec<Seat>, Memory>
    ensures { IfOk result (λ v. v.items ≡ replicate count free_seat) }
{
    let mut seats = Vec::new(alloc);
    for _ in 0..count {
        seats.push(Seat::free(alloc))?;
    }
    Ok(seats)
}

// The lane of this number.
pub fn at(seats: &[Seat], i: u32) -> &Seat
    requires { i < length seats.now }
    ensures { result.now ≡ seat_at i seats.now }
{
    &seats[i as usize]
}

/// The place of the lane whose session this is, the first one.
pub fn place_of(seats: &[Seat], session: u64) -> Option<usize>
    ensures place { result ≡ place_of session seats.now }
    ensures inside { IfSome result (λ i. i < length seats.now) }
{
    seats.iter().position(|seat| seat.is_now(session))
}

// The place of the first lane with a session.
fn taken_place(seats: &[Seat]) -> Option<usize>
    ensures { result ≡ taken_place seats.now }
{
    seats.iter().position(|seat| !seat.is_free())
}

/// The place of the first lane without a session.
pub fn free_place(seats: &[Seat]) -> Option<usize>
    ensures place { result ≡ free_place seats.now }
    ensures inside { IfSome result (λ i. i < length seats.now) }
{
    seats.iter().position(|seat| seat.is_free())
}

// An item with this mark was taken of the lane of this number.
fn mark_at(seats: &mut Vec<Seat>, i: u32, mark: Mark)
    requires { i < length seats.old.items }
    ensures { seats.new.items ≡ slice_set seats.old.items i (marked mark (seat_at i seats.old.items)) }
{
    seats[i as usize].mark(mark);
}

// A cause of this kind came from the lane of this number.
fn hear_at(seats: &mut Vec<Seat>, i: u32, is_side: bool, kind: Kind)
    requires { i < length seats.old.items }
    ensures { seats.new.items ≡ slice_set seats.old.items i (moved is_side kind (seat_at i seats.old.items)) }
{
    seats[i as usize].hear(is_side, kind);
}

/// The session of the lane of this number is closed.
pub fn close_at(seats: &mut Vec<Seat>, i: u32)
    requires { i < length seats.old.items }
    ensures { seats.new.items ≡ slice_set seats.old.items i (close_seat (seat_at i seats.old.items)) }
{
    seats[i as usize].close();
}

/// The session of the lane of this number is this one.
pub fn begin_at(seats: &mut Vec<Seat>, i: u32, session: u64)
    requires { i < length seats.old.items }
    ensures { seats.new.items ≡ slice_set seats.old.items i (begin_seat session (seat_at i seats.old.items)) }
{
    seats[i as usize].begin(session);
}

/// The lane of this number is to write so many bytes for this session.
pub fn owe_at(seats: &mut Vec<Seat>, i: u32, session: u64, bytes: usize) -> Result<(), Memory>
    requires { i < length seats.old.items }
    ensures ok { OnOk result (seats.new.items ≡ slice_set seats.old.items i (owing session bytes (seat_at i seats.old.items))) }
    ensures len { length seats.new.items ≡ length seats.old.items }
{
    seats[i as usize].owe(session, bytes)
}

impl Seats {
    /// So many lanes, none with a session.
    pub fn new(alloc: Global, editors: u32, servers: u32) -> Result<Seats, Memory>
        ensures { IfOk result (λ s. s ≡ start editors servers) }
    {
        Ok(Seats {
            alloc,
            editors: free_seats(alloc, editors)?,
            servers: free_seats(alloc, servers)?,
            waiting: VecDeque::new(alloc),
            joined: 0,
        })
    }

    /// Whether there is such a lane.
    pub fn has(&self, lane: LaneName) -> bool
        ensures { IsTrue result ↔ IsLane lane self.now }
    {
        match lane {
            LaneName::Editor(i) => (i as usize) < self.editors.len(),
            LaneName::Server(i) => (i as usize) < self.servers.len(),
            LaneName::Ticker => true,
        }
    }

    /// What an item means that was taken of this lane.
    pub fn meaning(&self, lane: LaneName, item: Item) -> Meaning
        requires { IsLane lane self.now }
        ensures means { result ≡ meaning self.now lane item }
        ensures small { IsSmall result }
    {
        match lane {
            LaneName::Editor(i) => {
                let seat = at(self.editors.as_slice(), i);
                match item {
                    Item::Posted(item) => seat.editor_posted(self.joined, item),
                    Item::Side(item) => seat.editor_side(item),
                }
            }
            LaneName::Server(i) => {
                let seat = at(self.servers.as_slice(), i);
                match item {
                    Item::Posted(item) => seat.server_posted(item),
                    Item::Side(item) => seat.server_side(item),
                }
            }
            LaneName::Ticker => match item {
                Item::Posted(item) => ticked(item),
                Item::Side(_) => Meaning::Stray,
            },
        }
    }

    /// An item with this mark was taken of this lane.
    pub fn mark(&mut self, lane: LaneName, mark: Mark)
        requires { IsLane lane self.old }
        ensures { self.new ≡ on_seat lane (marked mark) self.old }
    {
        match lane {
            LaneName::Editor(i) => mark_at(&mut self.editors, i, mark),
            LaneName::Server(i) => mark_at(&mut self.servers, i, mark),
            LaneName::Ticker => {}
        }
    }

    /// Whether the session of this lane was closed.
    pub fn is_closed(&self, lane: LaneName) -> bool
        requires { IsLane lane self.now }
        ensures { result ≡ (seat_of lane self.now).closed }
    {
        match lane {
            LaneName::Editor(i) => at(self.editors.as_slice(), i).is_closed(),
            LaneName::Server(i) => at(self.servers.as_slice(), i).is_closed(),
            LaneName::Ticker => false,
        }
    }

    /// A cause of this kind came from this lane.
    pub fn hear(&mut self, lane: LaneName, is_side: bool, kind: Kind)
        requires { IsLane lane self.old }
        ensures { self.new ≡ on_seat lane (moved is_side kind) self.old }
    {
        match lane {
            LaneName::Editor(i) => hear_at(&mut self.editors, i, is_side, kind),
            LaneName::Server(i) => hear_at(&mut self.servers, i, is_side, kind),
            LaneName::Ticker => {}
        }
    }

    /// Whether no lane of a server has a start, and none waits for one.
    pub fn is_idle(&self) -> bool
        ensures { result ≡ is_idle self.now }
    {
        taken_place(self.servers.as_slice()).is_none() && self.waiting.len() == 0
    }

    /// Whether no lane of an editor has a session.
    pub fn has_no_editor(&self) -> bool
        ensures { result ≡ has_no_editor self.now }
    {
        taken_place(self.editors.as_slice()).is_none()
    }

    /// One editor more joined, where this kind says so.
    pub fn count(&mut self, kind: Kind) -> Result<(), Memory>
        ensures { OnOk result (self.new ≡ record self.old { joined = joined_by kind self.old.joined }) }
    {
        if let Kind::Joins(_) = kind {
            let Some(joined) = self.joined.checked_add(1) else {
                return Err(Memory);
            };
            self.joined = joined;
        }
        Ok(())
    }
}
