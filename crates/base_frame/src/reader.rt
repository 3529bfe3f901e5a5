//! The frames of a stream that comes in pieces.
ghost use Rattle.std.specs.Prelude.{◌≡◌, ℕ, true, List, [], ◌++◌, OnOk, OnErr, IfOk, IsOk};
ghost use Rattle.base_frame.specs.Machine.{front_of, NotWhole, Cuts, IsAt, Taken, is_fault, is_whole};
ghost use Rattle.base_frame.specs.Views.{found_view};
ghost use Rattle.base_frame.specs.Reader.{IsBad, Stands};
ghost use Rattle.base_frame.specs.Answer.{Gives, NotFrame, IsBadFrame};

use crate::block::BadWhy;
use crate::front::{Found, Place, advance, front_at, front_of, front_place};
use message_body::{Body, Memory};
use std::alloc::Global;
use std::collections::VecDeque;
use std::marker::Model;

/// What a reader says when it is asked for the next content.
#[derive(Debug, Drop)]
pub enum Next {
    Frame(Body),
    /// The bytes behind the contents given are neither a frame nor faulty as yet.
    NotYet,
    /// So many bytes behind the contents given, and so for good.
    BadFrame(u64, BadWhy),
}

/// It is fed the pieces of a stream and gives the contents of the stream's frames.
#[derive(Debug, Drop)]
pub struct FrameReader {
    alloc: Global,
    limit: u32,
    ready: VecDeque<Body>,
    rest: Vec<u8>,
    // How far the header block at the front of the rest was read.
    place: Place,
}

impl Model for FrameReader {
    ghost use Rattle.base_frame.specs.Reader.{Held};
    ghost use Rattle.base_frame.specs.Machine.{IsAt};

    ghost Value = { Held };

    ghost view = { λ r. record { limit = r.limit; ready = r.ready.items; rest = r.rest.items } };

    ghost invariant = { λ r. IsAt r.limit r.place.at r.place.state r.rest.items };
}

/// The contents of the frames that bytes begin with, and the bytes behind them.
#[derive(Drop)]
struct Parts {
    ready: VecDeque<Body>,
    rest: Vec<u8>,
}

impl FrameReader {
    /// A reader that refuses contents of more than `limit` bytes.
    pub fn new(alloc: Global, limit: u32) -> FrameReader
        ensures limit { result.limit ≡ limit }
        ensures stands { Stands result [] [] }
    {
        FrameReader {
            alloc,
            limit,
            ready: VecDeque::new(alloc),
            rest: Vec::new(alloc),
            place: front_place(),
        }
    }

    /// The next piece of the stream. Running out of memory changes nothing, nor does a piece behind a fault.
    pub fn feed(&mut self, piece: &[u8]) -> Result<(), Memory>
        ensures limit { self.new.limit ≡ self.old.limit }
        ensures fed { OnOk result ((fed : List ℕ) (given : List (List ℕ)) → Stands self.old fed given → Stands self.new (fed ++ piece.now) given) }
        ensures err { OnErr result (self.new ≡ self.old) }
        ensures bad { IsBad self.old → IsOk result × (self.new ≡ self.old) }
    {
        if self.is_bad() {
            return Ok(());
        }
        let kept = self.rest.len();
        self.rest.extend_from_slice(piece)?;
        if !has_frame(self.limit, self.rest.as_slice(), self.place) {
            self.place = advance(self.limit, self.rest.as_slice(), self.place);
            return Ok(());
        }
        match take_frames(
            self.alloc,
            self.limit,
            &mut self.ready,
            self.rest.as_slice(),
        ) {
            Ok(rest) => {
                self.rest = rest;
                self.place = front_place();
                Ok(())
            }
            Err(memory) => {
                self.rest.truncate(kept);
                Err(memory)
            }
        }
    }

    /// The next content. It takes no memory.
    pub fn next(&mut self) -> Next
        ensures limit { self.new.limit ≡ self.old.limit }
        ensures gives { (fed : List ℕ) (given : List (List ℕ)) → Stands self.old fed given → Gives self.new fed given result }
        ensures kept { NotFrame result → self.new ≡ self.old }
        ensures bad { IsBadFrame result → IsBad self.new }
    {
        if let Some(body) = self.ready.pop_front() {
            return Next::Frame(body);
        }
        match self.front() {
            Found::Fault(at, why) => Next::BadFrame(at as u64, why),
            Found::Short => Next::NotYet,
            Found::Whole(_, _) => Next::NotYet,
        }
    }

    // What stands at the front of the rest.
    fn front(&self) -> Found<'_>
        ensures { found_view result ≡ front_of self.now.limit self.now.rest }
    {
        front_at(self.limit, self.rest.as_slice(), self.place)
    }

    // Whether a fault stands behind the contents to be given.
    fn is_bad(&self) -> bool
        ensures front { result ≡ is_fault (front_of self.now.limit self.now.rest) }
        ensures bad { IsBad self.now → result ≡ true }
    {
        matches!(self.front(), Found::Fault(_, _))
    }
}

// Whether a whole frame stands at the front of these bytes, whose header block was read up to this place.
fn has_frame(limit: u32, bytes: &[u8], place: Place) -> bool
    requires { IsAt limit place.at place.state bytes.now }
    ensures { result ≡ is_whole (front_of limit bytes.now) }
{
    matches!(front_at(limit, bytes, place), Found::Whole(_, _))
}

// Makes the contents of the frames at the front of these bytes ready, and gives the bytes behind them.
fn take_frames(
    alloc: Global,
    limit: u32,
    ready: &mut VecDeque<Body>,
    bytes: &[u8],
) -> Result<Vec<u8>, Memory>
    ensures ok { IfOk result (λ rest. Taken limit bytes.now ready.old.items ready.new.items rest.items) }
    ensures err { OnErr result (ready.new.items ≡ ready.old.items) }
{
    let mut parts = split(alloc, limit, bytes)?;
    ready.append(&mut parts.ready)?;
    Ok(parts.rest)
}

fn split(alloc: Global, limit: u32, bytes: &[u8]) -> Result<Parts, Memory>
    ensures { IfOk result (λ p. Cuts limit bytes.now p.ready.items p.rest.items × NotWhole (front_of limit p.rest.items)) }
{
    let mut ready = VecDeque::new(alloc);
    let mut rest = bytes;
    while let Found::Whole(content, more) = front_of(limit, rest) {
        ready.push_back(Body::new(Vec::from_slice(alloc, content)?))?;
        rest = more;
    }
    Ok(Parts {
        ready,
        rest: Vec::from_slice(alloc, rest)?,
    })
}
